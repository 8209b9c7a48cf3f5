//! Notes of words for directories below which no file of the project is.
ghost use Rattle.std.specs.Prelude.{◌≡◌, ◌<◌, ◌-◌, ◌++◌, IfOk, OnOk, flat_map, length, map, take};
ghost use Rattle.std.specs.List.{list_any};
ghost use Rattle.inc_args.specs.Views.{seen_files};
ghost use Rattle.inc_inputs.specs.BuildNotes.{none, with_lines};
ghost use Rattle.inc_inputs.specs.DirNotes as spec;
ghost use Rattle.inc_inputs.specs.Views.{notes_in};
ghost use Rattle.inc_lookup.specs.Paths.{normal_form};
ghost use Rattle.inc_lookup.specs.Projects.{path_at};

use crate::build_files::is_absolute;
use crate::build_paths::below;
use crate::build_texts::Notes;
use inc_args::FileList;
use inc_lookup::{Project, normalise};
use std::alloc::{AllocError, Global};

/// How many words for directories are looked at, since the paths of the project are gone through for each.
const MOST_WORDS: usize = 100;

/// Adds notes of the words for directories of the include path below which no file of the project is.
pub(crate) fn put_dirs(
    alloc: Global,
    project: &Project<'_>,
    files: &FileList<'_>,
    notes: &mut Vec<u8>,
) -> Result<(), AllocError>
    ensures { OnOk result (notes.new.items ≡ notes.old.items ++ spec.dir_notes project.now (seen_files files.now)) }
{
    let empty = empty_dirs(alloc, project, files)?;
    empty.put(alloc, notes)?;
    Ok(())
}

/// The notes of these words.
fn empty_dirs(
    alloc: Global,
    project: &Project<'_>,
    files: &FileList<'_>,
) -> Result<Notes, AllocError>
    ensures { IfOk result (λ notes. notes_in notes ≡ with_lines none (spec.all_dir_lines project.now.paths (seen_files files.now))) }
{
    let mut notes = Notes::new(alloc);
    add_dirs(&mut notes, alloc, project, b"-I", MOST_WORDS, &files.dirs)?;
    let most = left_after(MOST_WORDS, &files.dirs);
    add_dirs(&mut notes, alloc, project, b"-iquote", most, &files.quoted)?;
    let most = left_after(most, &files.quoted);
    add_dirs(&mut notes, alloc, project, b"-isystem", most, &files.system)?;
    let most = left_after(most, &files.system);
    add_dirs(&mut notes, alloc, project, b"-idirafter", most, &files.last)?;
    Ok(notes)
}

/// How many words are left of so many, after some.
fn left_after(most: usize, words: &[&str]) -> usize
    ensures { result ≡ most - length (map (λ w. w.now) words.now) }
{
    most.saturating_sub(words.len())
}

/// Adds those of the first words of an option.
fn add_dirs(
    notes: &mut Notes,
    alloc: Global,
    project: &Project<'_>,
    option: &[u8],
    most: usize,
    words: &[&str],
) -> Result<(), AllocError>
    ensures { OnOk result (notes_in notes.new ≡ with_lines (notes_in notes.old)
        (spec.dir_lines project.now.paths option.now most (map (λ w. w.now) words.now))) }
{
    add_words(notes, alloc, project, option, first_words(words, most))?;
    Ok(())
}

/// So many of some words, the first.
fn first_words<'w>(words: &'w [&'w str], most: usize) -> &'w [&'w str]
    ensures { result.now ≡ take most words.entry.now }
{
    if most < words.len() {
        return &words[..most];
    }
    words
}

/// Adds those of words of an option.
fn add_words(
    notes: &mut Notes,
    alloc: Global,
    project: &Project<'_>,
    option: &[u8],
    words: &[&str],
) -> Result<(), AllocError>
    ensures { OnOk result (notes_in notes.new ≡ with_lines (notes_in notes.old)
        (flat_map (spec.dir_line project.now.paths option.now) (map (λ w. w.now) words.now))) }
{
    let mut at = 0;
    while at < words.len() {
        add_dir(notes, alloc, project, option, words[at].as_bytes())?;
        at += 1;
    }
    Ok(())
}

/// Adds that of a word, if no file of the project is below its directory.
fn add_dir(
    notes: &mut Notes,
    alloc: Global,
    project: &Project<'_>,
    option: &[u8],
    word: &[u8],
) -> Result<(), AllocError>
    ensures { OnOk result (notes_in notes.new ≡ with_lines (notes_in notes.old) (spec.dir_line project.now.paths option.now word.now)) }
{
    if has_none(alloc, project, word)? {
        notes.add_empty(alloc, option, word)?;
    }
    Ok(())
}

/// Whether no file of the project is below the directory of a word.
fn has_none(alloc: Global, project: &Project<'_>, word: &[u8]) -> Result<bool, AllocError>
    ensures { IfOk result (λ none. none ≡ spec.has_none project.now.paths (normal_form word.now)) }
{
    match normalise(alloc, word)? {
        Some(folder) => Ok(!has_file_in(project, &folder)),
        None => Ok(false),
    }
}

/// Whether a file of the project is below a folder. It is looked for up to the first one.
fn has_file_in(project: &Project<'_>, folder: &[u8]) -> bool
    ensures { result ≡ list_any (spec.lies_in folder.now) project.now.paths }
{
    for place in 0..project.count() {
        if lies_at(folder, project, place) {
            return true;
        }
    }
    false
}

/// Whether the path at a place of the project is below a folder.
fn lies_at(folder: &[u8], project: &Project<'_>, place: usize) -> bool
    requires { place < length project.now.paths }
    ensures { result ≡ spec.lies_in folder.now (path_at project.now place) }
{
    match project.at(place) {
        Some(file) => lies_in(folder, project.path(file)),
        None => unreachable!(),
    }
}

/// Whether a path is below a folder.
fn lies_in(folder: &[u8], path: &[u8]) -> bool
    ensures { result ≡ spec.lies_in folder.now path.now }
{
    if folder.is_empty() {
        return !is_absolute(path);
    }
    below(folder, path).is_some()
}
