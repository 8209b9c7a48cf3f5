//! What the include directives of a file are to the graph.
ghost use Rattle.std.specs.Prelude.{◌≡◌, ◌<◌, ◌++◌, ◌∷◌, [], length, slice_index_or, IfOk, OnOk};
ghost use Rattle.inc_graph.specs.HeaderNames.{seen_name};
ghost use Rattle.inc_graph.specs.FileEntries.{HasName, NamesNone, named_entry, seen_entry};
ghost use Rattle.inc_graph.specs.Nexts.{led_at, led_entry};

use crate::graphs::BlockerKind;
use crate::header_names::{HeaderName, HeaderNames};
use inc_lookup::FileId;
use std::alloc::{AllocError, Global};
use std::marker::Model;

/// What an include directive is to the graph, with the physical line of its `#`.
#[derive(Clone, Copy)]
pub(crate) enum Entry<H> {
    /// It leads to a file.
    Edge { to: FileId, line: u32 },
    /// The header that it names is not found.
    Missing { line: u32, header: H },
    /// The graph can say nothing of it.
    Blocker { line: u32, kind: BlockerKind },
    /// Its header is made of tokens that begin with a name that no build defines, by its place among those.
    ByName { name: u32, line: u32 },
    /// No include directive: the line defines the name at this place among those that no build defines.
    Defines { name: u32, line: u32 },
}

/// The include directives of a file from the top, the empty ones aside, and its definitions of names that no build defines.
#[derive(Drop)]
pub(crate) struct Entries {
    /// Each with the number of its header.
    kept: Vec<Entry<u32>>,
    names: HeaderNames,
}

impl Model for Entries {
    ghost use Rattle.std.specs.Prelude.{List, length, map};
    ghost use Rattle.std.specs.List.{All};
    ghost use Rattle.inc_graph.specs.FileEntries as spec;
    ghost use Rattle.inc_graph.specs.FileEntries.{HasName, named_entry};

    ghost Value = { List spec.Entry };

    ghost view = { λ e. map (named_entry e.names) e.kept.items };

    ghost invariant = { λ e. All (HasName (length e.names)) e.kept.items };
}

impl Entries {
    /// None, with room for so many.
    pub(crate) fn with_capacity(alloc: Global, count: usize) -> Result<Entries, AllocError>
        ensures { IfOk result (λ entries. entries ≡ []) }
    {
        Ok(Entries {
            kept: Vec::with_capacity(alloc, count)?,
            names: HeaderNames::new(alloc),
        })
    }

    /// How many there are.
    pub(crate) fn len(&self) -> usize
        ensures { result ≡ length self.now }
    {
        self.kept.len()
    }

    /// The one at a place.
    pub(crate) fn at(&self, index: usize) -> Entry<HeaderName<'_>>
        requires { index < length self.now }
        ensures { seen_entry result ≡ slice_index_or self.now index (seen_entry result) }
    {
        named(&self.names, self.kept[index])
    }

    /// Adds one that names no header.
    pub(crate) fn push(&mut self, entry: Entry<u32>) -> Result<(), AllocError>
        requires { NamesNone entry }
        ensures { OnOk result (self.new ≡ self.old ++ named_entry [] entry ∷ []) }
    {
        self.kept.push(entry)?;
        Ok(())
    }

    /// Adds an include directive whose header is not found.
    pub(crate) fn push_missing(
        &mut self,
        line: u32,
        header: HeaderName<'_>,
    ) -> Result<(), AllocError>
        ensures { OnOk result (self.new ≡ self.old ++ Entry.Missing line (seen_name header.entry) ∷ []) }
    {
        let header = self.names.push(header)?;
        self.kept.push(Entry::Missing { line, header })?;
        Ok(())
    }

    /// Has the one at a place lead to this file too, if there is one and it is an include directive.
    pub(crate) fn lead(&mut self, index: usize, file: FileId)
        ensures { self.new ≡ led_at index file self.old }
    {
        if index < self.kept.len() {
            lead_on(&mut self.kept[index], file);
        }
    }
}

/// An entry with its header in place of the number.
fn named(names: &HeaderNames, entry: Entry<u32>) -> Entry<HeaderName<'_>>
    requires { HasName (length names.now) entry }
    ensures { seen_entry result ≡ named_entry names.now entry }
{
    match entry {
        Entry::Edge { to, line } => Entry::Edge { to, line },
        Entry::Missing { line, header } => Entry::Missing {
            line,
            header: names.at(header),
        },
        Entry::Blocker { line, kind } => Entry::Blocker { line, kind },
        Entry::ByName { name, line } => Entry::ByName { name, line },
        Entry::Defines { name, line } => Entry::Defines { name, line },
    }
}

/// Has an include directive lead to this file too.
fn lead_on(entry: &mut Entry<u32>, file: FileId)
    ensures { entry.new ≡ led_entry file entry.old }
{
    match entry {
        Entry::Missing { line, .. } => {
            let line = *line;
            *entry = Entry::Edge { to: file, line };
        }
        Entry::Edge { to, line } => {
            let (to, line) = (*to, *line);
            if to != file {
                *entry = Entry::Blocker {
                    line,
                    kind: BlockerKind::Several,
                };
            }
        }
        _ => (),
    }
}
