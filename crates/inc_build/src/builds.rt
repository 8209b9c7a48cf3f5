//! The sources of a build, and which include paths they are compiled with.
ghost use Rattle.std.specs.Prelude.{◌≡◌, ◌++◌, [], ◌∷◌, ℕ, List, not, IfOk, OnOk, bytes_eq, get_or, length, map, option_map, position, slice_get};
ghost use Rattle.inc_build.specs.CompilerCommands as command;
ghost use Rattle.inc_build.specs.Configurations.{Row as AnyRow};
ghost use Rattle.inc_build.specs.CompilerWords.{items as items_of};
ghost use Rattle.inc_build.specs.Configurations.{configuration as configuration_of};
ghost use Rattle.inc_build.specs.Builds as spec;
ghost use Rattle.inc_build.specs.Views.{seen_build, seen_entry, seen_item, seen_row, seen_rows, seen_uses};

use crate::compiler_commands::is_source;
use crate::compiler_words::{Item, Kind, items};
use crate::configurations::{Row, configuration};
use crate::entries::Entry;
use crate::paths::path_from;
use inc_text::{Key, KeyRef, SeededState};
use indexmap::IndexSet;
use std::alloc::{AllocError, Global};

/// An entry that compiles a source.
#[derive(Clone, Copy, PartialEq, Eq)]
pub struct Use {
    /// The number of the entry, from 0 on.
    pub entry: usize,
    /// The number of its include path.
    pub configuration: usize,
}

/// The sources of a build, and which include paths they are compiled with. Entries of one include path share it.
#[derive(Drop)]
pub struct Build {
    texts: IndexSet<Key, SeededState>,
    configurations: Vec<Vec<Row>>,
    sources: IndexSet<Key, SeededState>,
    uses: Vec<Vec<Use>>,
}

impl Build {
    /// The build of the entries of a database; a relative `directory` is looked up from `base`. No source or include path is looked for in a list.
    pub fn new<'v>(
        alloc: Global,
        seed: u64,
        base: &[u8],
        entries: &[Entry<'v>],
    ) -> Result<Build, AllocError>
        ensures { IfOk result (λ build. seen_build build ≡ spec.build base.now (map seen_entry entries.now)) }
    {
        let mut build = Build::none(alloc, SeededState::new(seed));
        let mut at = 0;
        while at < entries.len() {
            build.add(alloc, base, at, &entries[at])?;
            at += 1;
        }
        Ok(build)
    }

    /// The build of a command whose words ask for these items, and whose compiler is run in a directory: one entry compiles its sources. So no
    /// source takes time for the words again.
    pub fn of_command<'w>(
        alloc: Global,
        seed: u64,
        directory: &[u8],
        items: &[Item<'w>],
    ) -> Result<Build, AllocError>
        ensures { IfOk result (λ build. seen_build build ≡ command.command_build directory.now (map seen_item items.now)) }
    {
        let rows = configuration(alloc, directory, items)?;
        let mut build = Build::with_rows(alloc, SeededState::new(seed), rows)?;
        let mut at = 0;
        while at < items.len() {
            build.add_operand(alloc, directory, items[at])?;
            at += 1;
        }
        Ok(build)
    }

    /// No sources, and one include path.
    fn with_rows(alloc: Global, keys: SeededState, rows: Vec<Row>) -> Result<Build, AllocError>
        ensures { IfOk result (λ build. seen_build build ≡ command.built (map seen_row rows.items) []) }
    {
        let mut build = Build::none(alloc, keys);
        let text = text_of(alloc, &rows)?;
        let (_, _) = number(alloc, &mut build.texts, &text)?;
        build.configurations.push(rows)?;
        Ok(build)
    }

    /// Adds the source that a word of a command is, if it is one and is not there.
    fn add_operand<'w>(
        &mut self,
        alloc: Global,
        directory: &[u8],
        item: Item<'w>,
    ) -> Result<(), AllocError>
        ensures { (rows : List AnyRow) (sources : List (List ℕ)) → seen_build self.old ≡ command.built rows sources →
            OnOk result (seen_build self.new ≡ command.built rows (command.source_with directory.now (seen_item item.entry) sources)) }
    {
        match item {
            Item::Operand(word) if is_source(word) => {
                let path = path_from(alloc, directory, word)?;
                self.add_path(alloc, &path)
            }
            _ => Ok(()),
        }
    }

    /// Adds the source of a command with this path, if it is not there.
    fn add_path(&mut self, alloc: Global, path: &[u8]) -> Result<(), AllocError>
        ensures { (rows : List AnyRow) (sources : List (List ℕ)) → seen_build self.old ≡ command.built rows sources →
            OnOk result (seen_build self.new ≡ command.built rows (spec.with_name path.now sources)) }
    {
        let (_, is_new) = number(alloc, &mut self.sources, path)?;
        if !is_new {
            return Ok(());
        }
        let uses = only_uses(alloc)?;
        self.uses.push(uses)?;
        Ok(())
    }

    /// No sources.
    fn none(alloc: Global, keys: SeededState) -> Build
        ensures { seen_build result ≡ spec.none }
    {
        Build {
            texts: IndexSet::with_hasher(alloc, keys),
            configurations: Vec::new(alloc),
            sources: IndexSet::with_hasher(alloc, keys),
            uses: Vec::new(alloc),
        }
    }

    /// Adds an entry by its number.
    fn add<'v>(
        &mut self,
        alloc: Global,
        base: &[u8],
        number: usize,
        entry: &Entry<'v>,
    ) -> Result<(), AllocError>
        ensures { OnOk result (seen_build self.new ≡ spec.with_entry base.now number (seen_entry entry.now) (seen_build self.old)) }
    {
        let directory = path_from(alloc, base, entry.directory)?;
        let source = path_from(alloc, &directory, entry.file)?;
        let rows = rows_of(alloc, &directory, entry)?;
        self.add_rows(alloc, number, &source, rows)?;
        Ok(())
    }

    /// Adds an entry by its number, source and include path.
    fn add_rows(
        &mut self,
        alloc: Global,
        entry: usize,
        source: &[u8],
        rows: Vec<Row>,
    ) -> Result<(), AllocError>
        ensures { OnOk result (seen_build self.new ≡ spec.added entry source.now (map seen_row rows.items) (seen_build self.old)) }
    {
        let text = text_of(alloc, &rows)?;
        let (configuration, is_new) = number(alloc, &mut self.texts, &text)?;
        if is_new {
            self.configurations.push(rows)?;
        }
        let (source, _) = number(alloc, &mut self.sources, source)?;
        let one = Use {
            entry,
            configuration,
        };
        put_use(alloc, &mut self.uses, source, one)?;
        Ok(())
    }

    /// The include paths, without repeats. A [`Use`] names one by its place.
    pub fn configurations(&self) -> &[Vec<Row>]
        ensures { map seen_rows result.now ≡ (seen_build self.now).configurations }
    {
        self.configurations.as_slice()
    }

    /// How many sources there are.
    pub fn source_count(&self) -> usize
        ensures { result ≡ length (seen_build self.now).sources }
    {
        self.sources.len()
    }

    /// The absolute path of a source.
    pub fn source(&self, number: usize) -> Option<&[u8]>
        ensures { option_map (λ s. s.now) result ≡ slice_get (seen_build self.now).sources number }
    {
        match self.sources.get_index(number) {
            Some(key) => Some(key.bytes()),
            None => None,
        }
    }

    /// The number of the source with this absolute path.
    pub fn source_number(&self, path: &[u8]) -> Option<usize>
        ensures { result ≡ position (bytes_eq path.now) (seen_build self.now).sources }
    {
        self.sources.get_index_of(KeyRef { bytes: path })
    }

    /// The entries that compile a source.
    pub fn uses(&self, number: usize) -> &[Use]
        ensures { result.now ≡ get_or (seen_build self.now).uses number [] }
    {
        match self.uses.get(number) {
            Some(uses) => uses.as_slice(),
            None => &[],
        }
    }
}

/// The include path of an entry.
fn rows_of<'v>(alloc: Global, directory: &[u8], entry: &Entry<'v>) -> Result<Vec<Row>, AllocError>
    ensures { IfOk result (λ rows. map seen_row rows.items
        ≡ configuration_of directory.now (items_of (seen_entry entry.now).words)) }
{
    let items = items(alloc, &entry.words)?;
    configuration(alloc, directory, &items)
}

/// The only entry of a command, with its only include path.
fn only_uses(alloc: Global) -> Result<Vec<Use>, AllocError>
    ensures { IfOk result (λ uses. uses.items ≡ command.only_use ∷ []) }
{
    let mut uses = Vec::new(alloc);
    uses.push(Use {
        entry: 0,
        configuration: 0,
    })?;
    Ok(uses)
}

/// The number of a text among others, and whether it is new there: then it is added.
fn number(
    alloc: Global,
    names: &mut IndexSet<Key, SeededState>,
    text: &[u8],
) -> Result<(usize, bool), AllocError>
    ensures number { IfOk result (λ r. r.0 ≡ spec.number text.now names.old.keys) }
    ensures new { IfOk result (λ r. r.1 ≡ not (spec.is_named text.now names.old.keys)) }
    ensures names { OnOk result (names.new.keys ≡ spec.with_name text.now names.old.keys) }
{
    let key = Key::copied(alloc, text)?;
    let found = names.insert_full(key)?;
    Ok(found)
}

/// Adds an entry of the source with this number, or the first of the next source.
fn put_use(
    alloc: Global,
    uses: &mut Vec<Vec<Use>>,
    source: usize,
    one: Use,
) -> Result<(), AllocError>
    ensures { OnOk result (map seen_uses uses.new.items ≡ spec.put_use source one (map seen_uses uses.old.items)) }
{
    if source < uses.len() {
        uses[source].push(one)?;
        return Ok(());
    }
    let mut first = Vec::new(alloc);
    first.push(one)?;
    uses.push(first)?;
    Ok(())
}

/// The text that identifies an include path.
fn text_of(alloc: Global, rows: &[Row]) -> Result<Vec<u8>, AllocError>
    ensures { IfOk result (λ text. text.items ≡ spec.text_of (map seen_row rows.now)) }
{
    let mut text = Vec::new(alloc);
    for row in rows {
        text.push(letter(row.kind))?;
        push_path(&mut text, row.path.as_slice())?;
        push_path(&mut text, row.name.as_slice())?;
    }
    Ok(text)
}

/// The letter of a kind.
fn letter(kind: Kind) -> u8
    ensures { result ≡ spec.letter kind }
{
    match kind {
        Kind::Quoted => b'q',
        Kind::Searched => b'I',
        Kind::System => b's',
        Kind::Last => b'a',
        Kind::Macros => b'm',
        Kind::Included => b'i',
        Kind::Defined => b'D',
        Kind::Undefined => b'U',
    }
}

/// Adds a path and its end.
fn push_path(text: &mut Vec<u8>, path: &[u8]) -> Result<(), AllocError>
    ensures { OnOk result ((rest : List ℕ) → text.new.items ++ rest ≡ text.old.items ++ spec.path_text path.now rest) }
{
    for byte in path {
        push_byte(text, *byte)?;
    }
    text.push(0)?;
    Ok(())
}

/// Adds a byte of a path.
fn push_byte(text: &mut Vec<u8>, byte: u8) -> Result<(), AllocError>
    ensures { OnOk result ((path rest : List ℕ) → text.new.items ++ spec.path_text path rest ≡ text.old.items ++ spec.path_text (byte ∷ path) rest) }
{
    if byte <= 1 {
        text.push(1)?;
        text.push(byte + 1)?;
    } else {
        text.push(byte)?;
    }
    Ok(())
}
