//! The files of a project that a compilation database names.
ghost use Rattle.std.specs.Prelude.{◌≡◌, ◌+◌, ◌++◌, [], IfOk, OnOk, bytes_eq, codes, drop, map, not};
ghost use Rattle.std.specs.List.{list_any};
ghost use Rattle.inc_args.specs.Views.{seen_files};
ghost use Rattle.inc_build.specs.Builds.{is_named, with_name};
ghost use Rattle.inc_build.specs.Paths.{is_absolute};
ghost use Rattle.inc_inputs.specs.BuildFolders.{AreClosed, HasAll, HasMore, front_of, is_kept};
ghost use Rattle.inc_inputs.specs.BuildProjects as spec;
ghost use Rattle.inc_inputs.specs.BuildSteps.{files_of, root_files, root_list};
ghost use Rattle.inc_inputs.specs.Lists.{list_paths};
ghost use Rattle.inc_inputs.specs.Steps.{Comes};
ghost use Rattle.inc_inputs.specs.Views.{ground_in, seen_list, seen_text};

use crate::build_grounds::{Ground, names_files};
use crate::build_texts::about;
use crate::failures::Failure;
use crate::file_lists::{PathEnd, list_paths};
use crate::inputs::Inputs;
use crate::project_lists::{list_folder, path_end_in, read_list};
use inc_args::FileList;
use inc_lookup::LONGEST_PATH;
use inc_text::{Key, KeyRef, SeededState};
use indexmap::IndexSet;
use std::alloc::{AllocError, Global};
use std::marker::Model;
use std::str;

/// Files by their paths, each once, and what is before a `/` in one of them: the folders that they are in.
#[derive(Drop)]
pub(crate) struct BuildFiles {
    paths: IndexSet<Key, SeededState>,
    fronts: IndexSet<Key, SeededState>,
    /// Whether a path is relative.
    has_relative: bool,
}

impl Model for BuildFiles {
    ghost use Rattle.std.specs.Prelude.{ℕ, List};
    ghost use Rattle.inc_inputs.specs.BuildFolders.{AreFolders};

    ghost Value = { List (List ℕ) };

    ghost view = { λ f. f.paths.keys };

    ghost invariant = { λ f. AreFolders f.paths.keys f.fronts.keys f.has_relative };
}

impl BuildFiles {
    /// No files.
    fn none(alloc: Global, keys: SeededState) -> BuildFiles
        ensures { result ≡ [] }
    {
        BuildFiles {
            paths: IndexSet::with_hasher(alloc, keys),
            fronts: IndexSet::with_hasher(alloc, keys),
            has_relative: false,
        }
    }

    /// Whether a path is that of a file.
    pub(crate) fn has(&self, path: &[u8]) -> bool
        ensures { result ≡ list_any (bytes_eq path.now) self.now }
    {
        self.paths.get_index_of(KeyRef { bytes: path }).is_some()
    }

    /// Whether a file is below a folder.
    pub(crate) fn has_below(&self, folder: &[u8]) -> bool
        ensures { result ≡ spec.has_below self.now folder.now }
    {
        if is_run_folder(folder) {
            return self.has_relative;
        }
        self.has_front(front_of(folder))
    }

    /// Whether this is before a `/` in the path of a file.
    fn has_front(&self, front: &[u8]) -> bool
        ensures { result ≡ list_any (is_kept front.now) self.now }
    {
        self.fronts.get_index_of(KeyRef { bytes: front }).is_some()
    }

    /// The paths, each ended by NUL.
    pub(crate) fn list(&self, alloc: Global) -> Result<Vec<u8>, AllocError>
        ensures { IfOk result (λ list. list.items ≡ spec.nul_ended self.now) }
    {
        let mut list = Vec::new(alloc);
        for at in 0..self.paths.len() {
            self.put_path(&mut list, at)?;
        }
        Ok(list)
    }

    /// Adds the path at a place, and NUL, to a list.
    fn put_path(&self, list: &mut Vec<u8>, at: usize) -> Result<(), AllocError>
        ensures { OnOk result (list.new.items ++ spec.nul_ended (drop (at + 1) self.now) ≡ list.old.items ++ spec.nul_ended (drop at self.now)) }
    {
        let Some(key) = self.paths.get_index(at) else {
            return Ok(());
        };
        list.extend_from_slice(key.bytes())?;
        list.push(0)?;
        Ok(())
    }

    /// With one more file, unless its path is there.
    fn with(self, alloc: Global, path: &[u8]) -> Result<BuildFiles, AllocError>
        ensures { IfOk result (λ files. files ≡ with_name path.now self) }
    {
        let mut paths = self.paths;
        let mut fronts = self.fronts;
        add_kept(alloc, &mut fronts, path)?;
        insert(alloc, &mut paths, path)?;
        Ok(BuildFiles {
            paths,
            fronts,
            has_relative: self.has_relative | !is_absolute(path),
        })
    }
}

/// Whether a folder is that of the run, as a project has it.
fn is_run_folder(folder: &[u8]) -> bool
    ensures { result ≡ bytes_eq folder.now (codes ".") }
{
    folder == b".".as_slice()
}

/// What is before a `/` in the paths below a folder.
fn front_of(folder: &[u8]) -> &[u8]
    ensures { result.now ≡ front_of folder.now }
{
    if folder == b"/".as_slice() {
        &[]
    } else {
        folder
    }
}

/// Whether a path begins with `/`.
pub(crate) fn is_absolute(path: &[u8]) -> bool
    ensures { result ≡ is_absolute path.now }
{
    path.first() == Some(&b'/')
}

/// Adds what is before each `/` of a path, unless the path is too long for a project.
fn add_kept(
    alloc: Global,
    fronts: &mut IndexSet<Key, SeededState>,
    path: &[u8],
) -> Result<(), AllocError>
    ensures { OnOk result (AreClosed fronts.old.keys → HasMore path.now fronts.old.keys fronts.new.keys) }
{
    if path.len() > LONGEST_PATH {
        return Ok(());
    }
    add_fronts(alloc, fronts, path)
}

/// Adds what is before each `/` of a path, from the last one on, up to one that is there: what is before the `/` in it
/// is there, too. So each path is walked once, looks up at most one front that is there, and each other front that it
/// looks up is new. There are as many of those as folders that have files, and none is longer than a path of a project.
fn add_fronts(
    alloc: Global,
    fronts: &mut IndexSet<Key, SeededState>,
    path: &[u8],
) -> Result<(), AllocError>
    ensures { OnOk result (AreClosed fronts.old.keys → HasAll path.now fronts.old.keys fronts.new.keys) }
{
    let mut at = path.len();
    while at > 0 {
        at -= 1;
        if path[at] == b'/' && !insert(alloc, fronts, &path[..at])? {
            return Ok(());
        }
    }
    Ok(())
}

/// Adds a text to others, and says whether it is new.
fn insert(
    alloc: Global,
    names: &mut IndexSet<Key, SeededState>,
    text: &[u8],
) -> Result<bool, AllocError>
    ensures new { IfOk result (λ new. new ≡ not (is_named text.now names.old.keys)) }
    ensures names { OnOk result (names.new.keys ≡ with_name text.now names.old.keys) }
{
    let key = Key::copied(alloc, text)?;
    let (_, is_new) = names.insert_full(key)?;
    Ok(is_new)
}

/// The files of a project: those of `--files` or `--root`, where there are such words, and else those below its deepest
/// folder.
pub(crate) fn read_files<I: Inputs>(
    alloc: Global,
    seed: u64,
    inputs: &mut I,
    ground: &Ground<'_>,
    files: &FileList<'_>,
) -> Result<BuildFiles, Failure>
    ensures { Comes (files_of I.gives (ground_in ground.now) (seen_files files.now)) inputs.old (seen_list result) inputs.new }
{
    let keys = SeededState::new(seed);
    if !names_files(files) {
        return read_root_files(alloc, keys, inputs, ground, &files.exclude);
    }
    let list = read_list(alloc, inputs, files)?;
    Ok(files_by(alloc, keys, ground, &list, path_end_in(files))?)
}

/// The files below the deepest folder of a project, but for those that are left out.
fn read_root_files<I: Inputs>(
    alloc: Global,
    keys: SeededState,
    inputs: &mut I,
    ground: &Ground<'_>,
    exclude: &[&str],
) -> Result<BuildFiles, Failure>
    ensures { Comes (root_files I.gives (ground_in ground.now) (map (λ g. g.now) exclude.now) (spec.has_no_folder (ground_in ground.now)))
        inputs.old (seen_list result) inputs.new }
{
    if has_no_folder(ground) {
        let text = b"its files have no common folder; give --root";
        return Err(about(alloc, ground.name, text));
    }
    let list = list_root(alloc, inputs, ground, exclude)?;
    Ok(files_by(alloc, keys, ground, &list, PathEnd::Nul)?)
}

/// Whether no folder but `/` has all of a project.
fn has_no_folder(ground: &Ground<'_>) -> bool
    ensures { result ≡ spec.has_no_folder (ground_in ground.now) }
{
    ground.root.as_slice() == b"/".as_slice()
}

/// The list of the files below the deepest folder of a project.
fn list_root<I: Inputs>(
    alloc: Global,
    inputs: &mut I,
    ground: &Ground<'_>,
    exclude: &[&str],
) -> Result<Vec<u8>, Failure>
    ensures { Comes (root_list I.gives (map (λ g. g.now) exclude.now) (spec.root_form (ground_in ground.now))) inputs.old (seen_text result) inputs.new }
{
    match str::from_utf8(ground.forms().of(&ground.root)) {
        Ok(root) => list_folder(alloc, inputs, exclude, root),
        Err(_) => Err(Failure::NotUtf8),
    }
}

/// The files of a list, each once, as the project has them.
fn files_by(
    alloc: Global,
    keys: SeededState,
    ground: &Ground<'_>,
    list: &[u8],
    end: PathEnd,
) -> Result<BuildFiles, AllocError>
    ensures { IfOk result (λ files. files ≡ spec.files_by (ground_in ground.now) (list_paths end list.now)) }
{
    let mut files = BuildFiles::none(alloc, keys);
    let forms = ground.forms();
    for path in &list_paths(alloc, list, end)? {
        let path = forms.of_word(alloc, path)?;
        files = files.with(alloc, &path)?;
    }
    Ok(files)
}
