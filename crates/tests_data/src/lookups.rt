//! Answers for paths, and for projects and the files that header names lead to.
ghost use Rattle.std.specs.Prelude.{◌<◌, length, IfSome};

use crate::escapes::bytes_of;
use crate::printing::add_printed;
use inc_lookup::{FileId, Form, HeldFiles, Project, SourceFile, Sources, normalise};
use inc_text::ReadFault;
use std::alloc::Global;
use tests_parts::{Stop, add, add_number, number, refusing, split_word};

/// Adds the normal form of each path, a line for each.
pub fn add_forms(alloc: Global, example: &str, out: &mut Vec<u8>) -> Result<(), Stop> {
    for line in example.split('\n').skip(1) {
        let path = bytes_of(alloc, line)?;
        match normalise(alloc, &path)? {
            Some(form) => add_form(out, &path, &form)?,
            None => add(out, b"none\n")?,
        }
    }
    Ok(())
}

/// Adds the normal form of a path, which may be the path itself.
fn add_form(out: &mut Vec<u8>, path: &[u8], form: &[u8]) -> Result<(), Stop> {
    if form == path {
        return add(out, b"itself\n");
    }
    add_printed(out, form)?;
    add(out, b"\n")
}

/// The paths on the lines of an example that begin with a word.
fn paths_after(alloc: Global, example: &str, word: &str) -> Result<Vec<Vec<u8>>, Stop> {
    let mut paths = Vec::new(alloc);
    for line in example.split('\n').skip(1) {
        let (first, path) = split_word(line);
        if first == word {
            paths.push(bytes_of(alloc, path)?)?;
        }
    }
    Ok(paths)
}

fn lent(alloc: Global, paths: &[Vec<u8>]) -> Result<Vec<&[u8]>, Stop> {
    let mut slices = Vec::new(alloc);
    for path in paths {
        slices.push(path.as_slice())?;
    }
    Ok(slices)
}

/// Adds what a project gives whose files are on the lines `file PATH`, and whose search directories on the lines `iquote PATH` and `dir PATH`,
/// the former for names between `"` alone; or its fault.
pub fn add_project(alloc: Global, example: &str, out: &mut Vec<u8>) -> Result<(), Stop> {
    let files = paths_after(alloc, example, "file")?;
    let mut named = paths_after(alloc, example, "iquote")?;
    let quoted = named.len();
    named.append(&mut paths_after(alloc, example, "dir")?)?;
    let paths = lent(alloc, &files)?;
    let dirs = lent(alloc, &named)?;
    match Project::new(alloc, 0, &paths, quoted, &dirs) {
        Ok(project) => add_answers(alloc, &project, example, out),
        Err(fault) => add(out, format!(in alloc; "{fault}\n")?.as_bytes()),
    }
}

/// Adds the answers to the questions of an example.
fn add_answers(
    alloc: Global,
    project: &Project<'_>,
    example: &str,
    out: &mut Vec<u8>,
) -> Result<(), Stop> {
    for line in example.split('\n').skip(1) {
        let (word, rest) = split_word(line);
        match word {
            "at" => add_at(alloc, project, number(rest)? as usize, out)?,
            "path" => add_of_path(alloc, project, &bytes_of(alloc, rest)?, out)?,
            "quoted" => add_found(alloc, project, Form::Quoted, rest, out)?,
            "angled" => add_found(alloc, project, Form::Angled, rest, out)?,
            _ => {}
        }
    }
    Ok(())
}

/// Adds the file at a place.
fn add_at(
    alloc: Global,
    project: &Project<'_>,
    place: usize,
    out: &mut Vec<u8>,
) -> Result<(), Stop> {
    let _refusing = refusing(alloc)?;
    add_file(project, project.at(place), out)
}

/// Adds the file with a path.
fn add_of_path(
    alloc: Global,
    project: &Project<'_>,
    path: &[u8],
    out: &mut Vec<u8>,
) -> Result<(), Stop> {
    let _refusing = refusing(alloc)?;
    add_file(project, project.file(path), out)
}

/// Adds the file that a header name leads to from the file at a place.
fn add_found(
    alloc: Global,
    project: &Project<'_>,
    form: Form,
    question: &str,
    out: &mut Vec<u8>,
) -> Result<(), Stop> {
    let (place, name) = split_word(question);
    let Some(from) = project.at(number(place)? as usize) else {
        return Err(Stop);
    };
    let found = project.find(alloc, from, form, &bytes_of(alloc, name)?)?;
    add_file(project, found, out)
}

/// Adds a file by its place and its path.
fn add_file(project: &Project<'_>, file: Option<FileId>, out: &mut Vec<u8>) -> Result<(), Stop>
    requires { IfSome file (λ f. f < length project.now.paths) }
{
    let Some(file) = file else {
        return add(out, b"none\n");
    };
    add_number(out, file.index(), b" ")?;
    add_printed(out, project.path(file))?;
    add(out, b"\n")
}

/// A file that is held in memory.
pub fn held_file(alloc: Global, path: &[u8], bytes: Vec<u8>) -> Result<SourceFile, Stop> {
    Ok(SourceFile {
        path: Vec::from_slice(alloc, path)?,
        bytes,
    })
}

/// The project of files with these paths, with the search directory `inc`.
pub fn project_of<'a>(alloc: Global, paths: &'a [&'a [u8]]) -> Result<Project<'a>, Stop> {
    match Project::new(alloc, 0, paths, 0, &[b"inc", b"two", b"three"]) {
        Ok(project) => Ok(project),
        Err(_) => Err(Stop),
    }
}

/// Adds how many bytes a held file gives, or why it gives none.
pub fn add_held(alloc: Global, source: Vec<u8>, out: &mut Vec<u8>) -> Result<(), Stop> {
    let mut files = Vec::new(alloc);
    files.push(held_file(alloc, b"./a.c", source)?)?;
    let mut held = HeldFiles { files: &files };
    let paths = held.paths(alloc)?;
    let Some(file) = project_of(alloc, &paths)?.file(b"a.c") else {
        return Err(Stop);
    };
    match held.read(alloc, file) {
        Ok(bytes) => add_number(out, bytes.len(), b"\n"),
        Err(ReadFault::TooLong) => add(out, b"too long\n"),
        Err(_) => Err(Stop),
    }
}
