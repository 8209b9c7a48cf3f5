//! What a project rests on that a compilation database names: its entries, and the deepest folder that all of it is in.
ghost use Rattle.std.specs.Prelude.{◌≡◌, ◌≢◌, ◌∷◌, ◌+◌, [], Err, IfOk, OnOk, drop, map};
ghost use Rattle.std.specs.List.{list_all};
ghost use Rattle.inc_args.specs.Views.{seen_files};
ghost use Rattle.inc_build.specs.CompilerCommands.{command_build};
ghost use Rattle.inc_build.specs.CompilerWords.{items as items_of};
ghost use Rattle.inc_build.specs.Views.{seen_build, seen_entry, seen_row, seen_rows};
ghost use Rattle.inc_build.specs.Paths.{path_from};
ghost use Rattle.inc_inputs.specs.BuildPaths.{common_of, folder_of};
ghost use Rattle.inc_inputs.specs.BuildProjects as spec;
ghost use Rattle.inc_inputs.specs.BuildReports.{command_name};
ghost use Rattle.inc_inputs.specs.BuildSteps.{database_in_folder, database_of, here_of, in_folder};
ghost use Rattle.inc_inputs.specs.Reports.{out_of_memory};
ghost use Rattle.inc_inputs.specs.Steps.{Comes};
ghost use Rattle.inc_inputs.specs.Views.{database_in, ground_in, seen_database, seen_ground, seen_text};

use crate::build_paths::{Forms, folder_of, is_within, narrow};
use crate::build_texts::{about, database_failure};
use crate::failures::{Failure, read_failure, unread};
use crate::inputs::Inputs;
use inc_args::FileList;
use inc_build::{
    Build, Entry, Kind, Row, command_entry, items, path_from, read_database, read_entries,
};
use inc_text::ReadFault;
use serde_json::Value;
use std::alloc::{AllocError, Global};

/// The name of a database in its folder.
const INSIDE: &[u8] = b"/compile_commands.json";

/// What stands in place of the path of a database where the build is a compiler's command.
pub(crate) const COMMAND: &[u8] = b"--";

/// A database: its path, as reports have it, and its value.
#[derive(Drop)]
pub(crate) struct Database {
    pub(crate) name: Vec<u8>,
    pub(crate) value: Value,
}

/// What a project rests on.
#[derive(Drop)]
pub(crate) struct Ground<'v> {
    /// The folder of the run.
    pub(crate) here: Vec<u8>,
    /// The path of the database, or what stands in its place.
    pub(crate) name: &'v [u8],
    pub(crate) entries: Vec<Entry<'v>>,
    pub(crate) build: Build,
    /// The deepest folder that all of it is in.
    pub(crate) root: Vec<u8>,
    /// Whether paths are relative to the folder of the run.
    is_relative: bool,
}

impl Ground<'_> {
    /// How the project has paths.
    pub(crate) fn forms(&self) -> Forms<'_>
        ensures here { result.here.now ≡ (ground_in self.now).here }
        ensures form { result.is_relative ≡ (ground_in self.now).is_relative }
    {
        Forms {
            here: &self.here,
            is_relative: self.is_relative,
        }
    }
}

/// The folder of the run.
pub(crate) fn read_here<I: Inputs>(alloc: Global, inputs: &mut I) -> Result<Vec<u8>, Failure>
    ensures { Comes (here_of I.gives) inputs.old (seen_text result) inputs.new }
{
    match inputs.run_folder(alloc) {
        Ok(here) => Ok(path_from(alloc, &here, b"")?),
        Err(fault) => Err(read_failure(alloc, fault, b".")?),
    }
}

/// Reads the database that a word names, or that is in the folder which it names: what ends in `.json` is no folder.
pub(crate) fn read_named_database<I: Inputs>(
    alloc: Global,
    inputs: &mut I,
    word: &str,
) -> Result<Database, Failure>
    ensures { Comes (database_of I.gives word.now) inputs.old (seen_database result) inputs.new }
{
    match inputs.read_whole(alloc, word.as_bytes()) {
        Ok(text) => {
            let name = Vec::from_slice(alloc, word.as_bytes())?;
            database_of(alloc, name, &text)
        }
        Err(ReadFault::NoMemory) => Err(Failure::NoMemory),
        Err(fault) => read_in_folder(alloc, inputs, word, fault),
    }
}

/// Reads the database in the folder that a word names, which was not read as a file, unless the word ends in `.json`.
fn read_in_folder<I: Inputs>(
    alloc: Global,
    inputs: &mut I,
    word: &str,
    fault: ReadFault,
) -> Result<Database, Failure>
    ensures { Comes (in_folder I.gives word.now fault (spec.is_json word.now)) inputs.old (seen_database result) inputs.new }
{
    if is_json(word.as_bytes()) {
        return Err(unread(alloc, fault, word.as_bytes()));
    }
    read_inside(alloc, inputs, word.as_bytes())
}

/// Whether a word ends in `.json`.
fn is_json(word: &[u8]) -> bool
    ensures { result ≡ spec.is_json word.now }
{
    let at = word.len().saturating_sub(5);
    &word[at..] == b".json".as_slice()
}

/// Reads the database in a folder.
fn read_inside<I: Inputs>(alloc: Global, inputs: &mut I, folder: &[u8]) -> Result<Database, Failure>
    ensures { Comes (database_in_folder I.gives folder.now) inputs.old (seen_database result) inputs.new }
{
    let name = inside(alloc, folder)?;
    match inputs.read_whole(alloc, &name) {
        Ok(text) => database_of(alloc, name, &text),
        Err(fault) => Err(unread(alloc, fault, &name)),
    }
}

/// The path of a database in a folder.
fn inside(alloc: Global, folder: &[u8]) -> Result<Vec<u8>, AllocError>
    ensures { IfOk result (λ name. name.items ≡ spec.inside folder.now) }
{
    let mut name = Vec::from_slice(alloc, folder)?;
    name.extend_from_slice(INSIDE)?;
    Ok(name)
}

/// The database in a text of this name.
fn database_of(alloc: Global, name: Vec<u8>, text: &[u8]) -> Result<Database, Failure>
    ensures { seen_database result ≢ Err out_of_memory → spec.IsDatabase name.items text.now (seen_database result) }
{
    match read_database(alloc, text) {
        Ok(value) => Ok(Database { name, value }),
        Err(fault) => Err(database_failure(alloc, &name, fault)),
    }
}

/// What a project rests on by a database. A relative directory of an entry is looked up from the folder of the
/// database.
pub(crate) fn ground_of<'v>(
    alloc: Global,
    seed: u64,
    here: Vec<u8>,
    database: &'v Database,
    files: &FileList<'_>,
) -> Result<Ground<'v>, Failure>
    ensures { seen_ground result ≢ Err out_of_memory →
        seen_ground result ≡ spec.ground_of here.items (seen_files files.now) (database_in database.now) }
{
    match read_entries(alloc, &database.value) {
        Ok(entries) => ground_by_entries(alloc, seed, here, &database.name, files, entries),
        Err(fault) => Err(database_failure(alloc, &database.name, fault)),
    }
}

/// What a project rests on by the entries of the database at this path.
fn ground_by_entries<'v>(
    alloc: Global,
    seed: u64,
    here: Vec<u8>,
    name: &'v [u8],
    files: &FileList<'_>,
    entries: Vec<Entry<'v>>,
) -> Result<Ground<'v>, Failure>
    ensures { seen_ground result ≢ Err out_of_memory → seen_ground result
        ≡ spec.ground_by_base here.items name.entry.now (seen_files files.now) (spec.base_of here.items name.entry.now) (map seen_entry entries.entry.items) }
{
    let base = base_of(alloc, &here, name)?;
    let Some(first) = entries.first() else {
        return Err(about(alloc, name, b"no entries"));
    };
    let root = path_from(alloc, &base, first.directory)?;
    let build = Build::new(alloc, seed, &base, &entries)?;
    Ok(ground_by_root(alloc, here, name, files, &base, root, entries, build)?)
}

/// What a project rests on by a compiler's command, which is run in the folder of the run. It takes its words from there.
pub(crate) fn command_ground<'v>(
    alloc: Global,
    seed: u64,
    here: Vec<u8>,
    files: &'v FileList<'v>,
) -> Result<Ground<'v>, Failure>
    ensures { seen_ground result ≢ Err out_of_memory →
        seen_ground result ≡ spec.command_ground here.items (seen_files files.entry.now) }
{
    let entry = command_entry(alloc, files.command)?;
    let build = build_of_entry(alloc, seed, &here, &entry)?;
    if build.source_count() == 0 {
        return Err(Failure::NoCommandSource);
    }
    Ok(ground_by_entry(alloc, here, files, entry, build)?)
}

/// The build of a compiler's command.
fn build_of_entry(
    alloc: Global,
    seed: u64,
    here: &[u8],
    entry: &Entry<'_>,
) -> Result<Build, AllocError>
    ensures { IfOk result (λ b. seen_build b ≡ command_build here.now (items_of (seen_entry entry.now).words)) }
{
    let items = items(alloc, &entry.words)?;
    Build::of_command(alloc, seed, here, &items)
}

/// What a project rests on by the entry of a compiler's command.
fn ground_by_entry<'v>(
    alloc: Global,
    here: Vec<u8>,
    files: &FileList<'_>,
    entry: Entry<'v>,
    build: Build,
) -> Result<Ground<'v>, AllocError>
    ensures { IfOk result (λ g. ground_in g ≡ spec.ground_by_root here.items command_name (seen_files files.now) here.items (path_from here.items [])
        (seen_entry entry.entry ∷ []) (seen_build build)) }
{
    let base = Vec::from_slice(alloc, &here)?;
    let root = path_from(alloc, &base, b"")?;
    let mut entries = Vec::new(alloc);
    entries.push(entry)?;
    ground_by_root(alloc, here, COMMAND, files, &base, root, entries, build)
}

/// What a project rests on by the entries of its build. Its deepest folder is found by narrowing one that the
/// directory of an entry is.
fn ground_by_root<'v>(
    alloc: Global,
    here: Vec<u8>,
    name: &'v [u8],
    files: &FileList<'_>,
    base: &[u8],
    root: Vec<u8>,
    entries: Vec<Entry<'v>>,
    build: Build,
) -> Result<Ground<'v>, AllocError>
    ensures { IfOk result (λ g. ground_in g
        ≡ spec.ground_by_root here.items name.entry.now (seen_files files.now) base.now root.items (map seen_entry entries.entry.items) (seen_build build)) }
{
    let root = narrowed(alloc, root, base, &entries, &build)?;
    let is_relative = are_relative(alloc, &here, files, &root)?;
    Ok(Ground {
        here,
        name,
        entries,
        build,
        root,
        is_relative,
    })
}

/// The folder of a database, which is looked up from the folder of the run.
fn base_of(alloc: Global, here: &[u8], name: &[u8]) -> Result<Vec<u8>, AllocError>
    ensures { IfOk result (λ base. base.items ≡ spec.base_of here.now name.now) }
{
    let path = path_from(alloc, here, name)?;
    folder_of(alloc, &path)
}

/// A folder, narrowed to the deepest one that has all directories of entries, all sources, and those directories with
/// headers that are not below /usr.
#[tactic(auto, using(crate::proofs::GroundLemmas::common_more))]
fn narrowed(
    alloc: Global,
    root: Vec<u8>,
    base: &[u8],
    entries: &[Entry<'_>],
    build: &Build,
) -> Result<Vec<u8>, AllocError>
    ensures { IfOk result (λ all. all.items ≡ common_of root.items (spec.own_folders (seen_build build.now) base.now (map seen_entry entries.now))) }
{
    let mut root = root;
    narrow_by_entries(alloc, &mut root, base, entries)?;
    narrow_by_sources(alloc, &mut root, build)?;
    narrow_by_configurations(&mut root, build.configurations())?;
    Ok(root)
}

/// Narrows a folder by the directories of entries.
fn narrow_by_entries(
    alloc: Global,
    root: &mut Vec<u8>,
    base: &[u8],
    entries: &[Entry<'_>],
) -> Result<(), AllocError>
    ensures { OnOk result (root.new.items
        ≡ common_of root.old.items (map (λ e. path_from base.now e.directory) (map seen_entry entries.now))) }
{
    for entry in entries {
        let directory = path_from(alloc, base, entry.directory)?;
        narrow(root, &directory)?;
    }
    Ok(())
}

/// Narrows a folder by those of the sources of a build.
fn narrow_by_sources(alloc: Global, root: &mut Vec<u8>, build: &Build) -> Result<(), AllocError>
    ensures { OnOk result (root.new.items ≡ common_of root.old.items (map folder_of (seen_build build.now).sources)) }
{
    for number in 0..build.source_count() {
        narrow_by_source(alloc, root, build, number)?;
    }
    Ok(())
}

/// Narrows a folder by that of the source with this number.
fn narrow_by_source(
    alloc: Global,
    root: &mut Vec<u8>,
    build: &Build,
    number: usize,
) -> Result<(), AllocError>
    ensures { OnOk result (common_of root.new.items (map folder_of (drop (number + 1) (seen_build build.now).sources))
        ≡ common_of root.old.items (map folder_of (drop number (seen_build build.now).sources))) }
{
    let Some(source) = build.source(number) else {
        return Ok(());
    };
    let folder = folder_of(alloc, source)?;
    narrow(root, &folder)?;
    Ok(())
}

/// Narrows a folder by the directories of include paths.
fn narrow_by_configurations(
    root: &mut Vec<u8>,
    configurations: &[Vec<Row>],
) -> Result<(), AllocError>
    ensures { OnOk result (root.new.items
        ≡ common_of root.old.items (spec.own_paths (map seen_rows configurations.now))) }
{
    for rows in configurations {
        narrow_by_rows(root, rows)?;
    }
    Ok(())
}

/// Narrows a folder by the directories of an include path.
fn narrow_by_rows(root: &mut Vec<u8>, rows: &[Row]) -> Result<(), AllocError>
    ensures { OnOk result (root.new.items ≡ common_of root.old.items (spec.own_rows (map seen_row rows.now))) }
{
    for row in rows {
        if is_own_row(row) {
            narrow(root, &row.path)?;
        }
    }
    Ok(())
}

/// Whether headers are searched in a directory that is not below /usr.
fn is_own_row(row: &Row) -> bool
    ensures { result ≡ spec.is_own_row (seen_row row.now) }
{
    match row.kind {
        Kind::Macros => false,
        Kind::Included => false,
        _ => !is_within(b"/usr", &row.path),
    }
}

/// Whether the project has paths relative to the folder of the run. Where words name files, the folders of `--root`
/// decide that, and else the deepest folder.
fn are_relative(
    alloc: Global,
    here: &[u8],
    files: &FileList<'_>,
    root: &[u8],
) -> Result<bool, AllocError>
    ensures { IfOk result (λ relative. relative ≡ spec.are_relative here.now (seen_files files.now) root.now) }
{
    if names_files(files) {
        return are_near(alloc, here, &files.roots);
    }
    Ok(is_within(here, root))
}

/// Whether words name files, which stand in place of those below the deepest folder.
pub(crate) fn names_files(files: &FileList<'_>) -> bool
    ensures { result ≡ spec.names_files (seen_files files.now) }
{
    files.list.is_some() || !files.roots.is_empty()
}

/// Whether each folder that a word names is within the folder of the run, or below /usr.
fn are_near(alloc: Global, here: &[u8], folders: &[&str]) -> Result<bool, AllocError>
    ensures { IfOk result (λ near. near ≡ list_all (λ word. spec.is_near here.now (path_from here.now word)) (map (λ f. f.now) folders.now)) }
{
    for folder in folders {
        if !is_near(alloc, here, folder.as_bytes())? {
            return Ok(false);
        }
    }
    Ok(true)
}

/// Whether a folder that a word names is within the folder of the run, or below /usr.
fn is_near(alloc: Global, here: &[u8], word: &[u8]) -> Result<bool, AllocError>
    ensures { IfOk result (λ near. near ≡ spec.is_near here.now (path_from here.now word.now)) }
{
    let path = path_from(alloc, here, word)?;
    Ok(is_within(b"/usr", &path) || is_within(here, &path))
}
