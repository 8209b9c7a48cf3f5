//! The include directives whose header is not found.
ghost use Rattle.std.specs.Prelude.{◌≡◌, ◌<◌, ◌≤◌, ◌++◌, ◌∷◌, ◌==◌, ◌&&◌, ℕ, [], true, false, length, OnOk};
ghost use Rattle.std.specs.List.{list_any};
ghost use Rattle.std.specs.List.Sorted.{IsPartitionPoint};
ghost use Rattle.inc_graph.specs.IncludeGraph.{are_in_order, is_before};
ghost use Rattle.inc_graph.specs.declared.missing_lists.Missing as declared;
ghost use Rattle.inc_graph.specs.MissingLists as spec;
ghost use Rattle.inc_graph.specs.MissingLists.{missing_at, seen_missing};

use crate::header_names::{HeaderName, HeaderNames};
use inc_lookup::FileId;
use std::alloc::{AllocError, Global};
use std::marker::Model;

/// An include directive whose header is not found.
#[derive(Clone, Copy)]
pub struct Missing<H> {
    /// The file that it is in.
    pub file: FileId,
    /// The physical line of its `#`, from 1.
    pub line: u32,
    /// The header that it names.
    pub header: H,
}

/// Include directives whose header is not found, by file and line.
#[derive(Drop)]
pub struct MissingList {
    /// Each with the number of its header.
    directives: Vec<Missing<u32>>,
    names: HeaderNames,
}

impl Model for MissingList {
    ghost use Rattle.std.specs.Prelude.{List, length, map};
    ghost use Rattle.std.specs.List.{All};
    ghost use Rattle.inc_graph.specs.MissingLists.{HasName, named_missing};
    ghost use Rattle.inc_graph.specs.MissingLists as spec;

    ghost Value = { List spec.Missing };

    ghost view = { λ m. map (named_missing m.names) m.directives.items };

    ghost invariant = { λ m. All (HasName (length m.names)) m.directives.items };
}

impl MissingList {
    /// No directives.
    pub(crate) fn new(alloc: Global) -> MissingList
        ensures { result ≡ [] }
    {
        MissingList {
            directives: Vec::new(alloc),
            names: HeaderNames::new(alloc),
        }
    }

    /// How many there are.
    pub fn len(&self) -> usize
        ensures { result ≡ length self.now }
    {
        self.directives.len()
    }

    /// The one at a place.
    pub fn at(&self, place: usize) -> Missing<HeaderName<'_>>
        requires { place < length self.now }
        ensures { seen_missing result ≡ missing_at self.now place }
    {
        let directive = self.directives[place];
        Missing {
            file: directive.file,
            line: directive.line,
            header: self.names.at(directive.header),
        }
    }

    /// Adds one.
    pub(crate) fn push(&mut self, directive: Missing<HeaderName<'_>>) -> Result<(), AllocError>
        ensures { OnOk result (self.new ≡ self.old ++ seen_missing directive.entry ∷ []) }
    {
        let header = self.names.push(directive.header)?;
        self.directives.push(Missing {
            file: directive.file,
            line: directive.line,
            header,
        })?;
        Ok(())
    }

    /// Whether one is on this line of the file.
    pub(crate) fn is_at(&self, file: FileId, line: u32) -> bool
        requires { are_in_order self.now ≡ true }
        ensures { result ≡ list_any (λ (d : spec.Missing). (d.file == file) && (d.line == line)) self.now }
    {
        is_missing_at(&self.directives, file, line)
    }
}

/// Whether one of these directives is on this line of the file.
fn is_missing_at(missing: &[Missing<u32>], file: FileId, line: u32) -> bool
    requires { are_in_order missing.now ≡ true }
    ensures { result ≡ list_any (λ (d : declared.Missing ℕ). (d.file == file) && (d.line == line)) missing.now }
{
    let place = missing_before(missing, file, line);
    match missing.get(place) {
        Some(directive) => directive.file == file && directive.line == line,
        None => false,
    }
}

/// Whether a directive is before this line of the file, or in a file before it.
fn is_before(directive: &Missing<u32>, file: FileId, line: u32) -> bool
    ensures { result ≡ is_before directive.now file line }
{
    let (a, b) = (directive.file.index(), file.index());
    a < b || (a == b && directive.line < line)
}

/// How many of these directives are before this line of the file, by binary search.
fn missing_before(missing: &[Missing<u32>], file: FileId, line: u32) -> usize
    requires { are_in_order missing.now ≡ true }
    ensures bound { result ≤ length missing.now }
    ensures point { IsPartitionPoint (λ (d : declared.Missing ℕ). is_before d file line ≡ true)
        (λ (d : declared.Missing ℕ). is_before d file line ≡ false) missing.now result }
{
    missing.partition_point(|directive| is_before(directive, file, line))
}
