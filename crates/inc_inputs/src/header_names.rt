//! Words that name a header: by its path, by the name that an include has for it, or by the end of its path.
ghost use Rattle.std.specs.Prelude.{◌≡◌, ◌≢◌, ◌<◌, ◌++◌, Err, Ok, codes, flat_map, length, map, IfOk, IfSome, OnOk};
ghost use Rattle.inc_args.specs.Views.{seen_question};
ghost use Rattle.inc_globs.specs.Globs.{pieces};
ghost use Rattle.inc_inputs.specs.HeaderNames.{ending_in, fitting, header_notes, header_path, included, named_path, note_of, only_path, word_notes};
ghost use Rattle.inc_inputs.specs.Reports.{note_line, out_of_memory};
ghost use Rattle.inc_inputs.specs.Views.{seen_path};

use crate::ends::{add_all, file_at};
use crate::failures::{Failure, several_headers};
use inc_args::QuestionArgs;
use inc_globs::{Glob, GlobFault, is_glob};
use inc_lookup::{FileId, Form, Project};
use std::alloc::{AllocError, Global};

/// The path for which a word stands that names a header: a path of the project stands for itself, another word for the file that an include
/// of this name finds, or else for the only one whose path ends in it.
pub(crate) fn header_path<'p>(
    alloc: Global,
    project: &'p Project<'_>,
    word: &'p [u8],
) -> Result<&'p [u8], Failure>
    ensures { seen_path result ≢ Err out_of_memory → seen_path result ≡ header_path project.now word.entry.now }
{
    match file_at(alloc, project, word) {
        Ok(Some(_)) => Ok(word),
        Ok(None) => named_path(alloc, project, word),
        Err(_) => Err(Failure::NoMemory),
    }
}

/// The same of a word that is no path of the project.
fn named_path<'p>(
    alloc: Global,
    project: &'p Project<'_>,
    word: &'p [u8],
) -> Result<&'p [u8], Failure>
    ensures { seen_path result ≢ Err out_of_memory →
        seen_path result ≡ named_path project.now word.entry.now (included project.now word.entry.now) }
{
    match included(alloc, project, word) {
        Ok(Some(file)) => Ok(project.path(file)),
        Ok(None) => ended_path(alloc, project, word),
        Err(_) => Err(Failure::NoMemory),
    }
}

/// The file that an include of this name in angle brackets finds.
fn included(alloc: Global, project: &Project<'_>, name: &[u8]) -> Result<Option<FileId>, AllocError>
    ensures found { IfOk result (λ file. file ≡ included project.now name.now) }
    ensures within { IfOk result (λ file. IfSome file (λ f. f < length project.now.paths)) }
{
    match project.at(0) {
        Some(first) => project.find(alloc, first, Form::Angled, name),
        None => Ok(None),
    }
}

/// The only path that ends in a word; the word itself where there is none.
fn ended_path<'p>(
    alloc: Global,
    project: &'p Project<'_>,
    word: &'p [u8],
) -> Result<&'p [u8], Failure>
    ensures { seen_path result ≢ Err out_of_memory →
        seen_path result ≡ only_path word.entry.now (ending_in project.now word.entry.now) }
{
    match paths_ending_in(alloc, project, word) {
        Ok(paths) => only_path(alloc, word, &paths),
        Err(_) => Err(Failure::NoMemory),
    }
}

/// The only one of some paths; the word itself where there is none.
fn only_path<'p>(alloc: Global, word: &'p [u8], paths: &[&'p [u8]]) -> Result<&'p [u8], Failure>
    ensures { seen_path result ≢ Err out_of_memory →
        seen_path result ≡ only_path word.entry.now (map (λ p. p.now) paths.now) }
{
    match paths {
        [] => Ok(word),
        [path] => Ok(path),
        [first, second, ..] => Err(several_headers(alloc, word, first, second)),
    }
}

/// The paths that end in these components, in the order of the project.
fn paths_ending_in<'p>(
    alloc: Global,
    project: &'p Project<'_>,
    name: &[u8],
) -> Result<Vec<&'p [u8]>, AllocError>
    ensures { IfOk result (λ paths. map (λ p. p.now) paths.items ≡ ending_in project.now name.now) }
{
    let mut pattern = Vec::new(alloc);
    pattern.extend_from_slice(b"**/")?;
    pattern.extend_from_slice(name)?;
    paths_fitting(alloc, project, &pattern)
}

/// The paths that a pattern fits, in the order of the project; none where it does not end.
pub(crate) fn paths_fitting<'p>(
    alloc: Global,
    project: &'p Project<'_>,
    pattern: &[u8],
) -> Result<Vec<&'p [u8]>, AllocError>
    ensures { IfOk result (λ paths. map (λ p. p.now) paths.items ≡ fitting project.now (pieces pattern.now)) }
{
    let mut paths = Vec::new(alloc);
    match Glob::new(alloc, pattern) {
        Ok(glob) => {
            let mut glob = glob;
            add_all(&mut paths, project, &mut glob)?;
        }
        Err(GlobFault::Unterminated) => {}
        Err(GlobFault::NoMemory) => return Err(AllocError),
    }
    Ok(paths)
}

/// What is noted of the words of a question that name headers by something else than their paths.
pub(crate) fn header_notes(
    alloc: Global,
    project: &Project<'_>,
    question: &QuestionArgs<'_>,
) -> Result<Vec<u8>, AllocError>
    ensures { IfOk result (λ notes. notes.items ≡ header_notes project.now (seen_question question.now)) }
{
    let mut notes = Vec::new(alloc);
    match question.header {
        Some(header) => add_note(&mut notes, alloc, project, header)?,
        None => add_notes(&mut notes, alloc, project, &question.to)?,
    }
    Ok(notes)
}

/// Adds what is noted of the words of `--to`.
fn add_notes(
    notes: &mut Vec<u8>,
    alloc: Global,
    project: &Project<'_>,
    words: &[&str],
) -> Result<(), AllocError>
    ensures { OnOk result (notes.new.items
        ≡ notes.old.items ++ flat_map (word_notes project.now) (map (λ w. w.now) words.now)) }
{
    for word in words {
        add_word_note(notes, alloc, project, word)?;
    }
    Ok(())
}

/// Adds what is noted of a word of `--to`: nothing of a glob.
fn add_word_note(
    notes: &mut Vec<u8>,
    alloc: Global,
    project: &Project<'_>,
    word: &str,
) -> Result<(), AllocError>
    ensures { OnOk result (notes.new.items
        ≡ notes.old.items ++ word_notes project.now word.now) }
{
    if is_glob(word.as_bytes()) {
        return Ok(());
    }
    add_note(notes, alloc, project, word)
}

/// Adds what is noted of a word, if it stands for another path than itself.
fn add_note(
    notes: &mut Vec<u8>,
    alloc: Global,
    project: &Project<'_>,
    word: &str,
) -> Result<(), AllocError>
    ensures { OnOk result (notes.new.items
        ≡ notes.old.items ++ note_of word.now (header_path project.now word.now)) }
{
    match header_path(alloc, project, word.as_bytes()) {
        Ok(path) => add_note_of(notes, word, path),
        // The question is refused for it.
        Err(Failure::SeveralHeaders(_)) => Ok(()),
        Err(_) => Err(AllocError),
    }
}

/// Adds that a word stands for a path, if it is another one than the word.
fn add_note_of(notes: &mut Vec<u8>, word: &str, path: &[u8]) -> Result<(), AllocError>
    ensures { OnOk result (notes.new.items
        ≡ notes.old.items ++ note_of word.now (Ok path.now)) }
{
    if word.as_bytes() != path {
        add_line(notes, word, path)?;
    }
    Ok(())
}

/// Adds the line that a word stands for a path.
fn add_line(notes: &mut Vec<u8>, word: &str, path: &[u8]) -> Result<(), AllocError>
    ensures { OnOk result (notes.new.items ≡ notes.old.items ++ note_line (word.now ++ codes " is " ++ path.now)) }
{
    notes.extend_from_slice(b"incut: note: ")?;
    notes.extend_from_slice(word.as_bytes())?;
    notes.extend_from_slice(b" is ")?;
    notes.extend_from_slice(path)?;
    notes.push(b'\n')?;
    Ok(())
}
