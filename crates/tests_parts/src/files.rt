//! The projects of examples.
ghost use Rattle.std.specs.Prelude.{◌<◌, length, IfOk};

use crate::printing::{number, split_word};
use crate::stops::Stop;
use inc_lookup::{DirectiveId, FileId, Project, SourceFile};
use std::alloc::Global;

/// The settings of an example: its lines before those of its files.
pub fn settings_of(example: &str) -> &str {
    let (settings, _) = example.split_once("\n@").unwrap_or((example, ""));
    settings
}

/// The files of an example: `@PATH` on a line begins one, and the lines after it are what it holds; `~(N)` repeats the rest of its line N times.
pub fn files_of(alloc: Global, example: &str) -> Result<Vec<SourceFile>, Stop> {
    let mut files = Vec::new(alloc);
    for file in example.split("\n@").skip(1) {
        let (path, text) = file.split_once('\n').unwrap_or((file, ""));
        files.push(SourceFile {
            path: Vec::from_slice(alloc, path.as_bytes())?,
            bytes: bytes_of(alloc, text)?,
        })?;
    }
    Ok(files)
}

/// What a file holds whose lines are these.
fn bytes_of(alloc: Global, text: &str) -> Result<Vec<u8>, Stop> {
    let mut bytes = Vec::new(alloc);
    if text.is_empty() {
        return Ok(bytes);
    }
    for line in text.split('\n') {
        add_line(line, &mut bytes)?;
    }
    Ok(bytes)
}

/// Adds a line of a file as often as it says.
fn add_line(line: &str, bytes: &mut Vec<u8>) -> Result<(), Stop> {
    let Some((count, text)) = repeated(line) else {
        bytes.extend_from_slice(line.as_bytes())?;
        return Ok(bytes.push(b'\n')?);
    };
    for _ in 0..number(count)? {
        bytes.extend_from_slice(text.as_bytes())?;
        bytes.push(b'\n')?;
    }
    Ok(())
}

/// How often a line is repeated, and what.
fn repeated(line: &str) -> Option<(&str, &str)> {
    line.strip_prefix("~(")?.split_once(')')
}

/// The project of files with these paths, and of these search directories.
pub fn project_of<'a>(
    alloc: Global,
    paths: &'a [&'a [u8]],
    dirs: &[&[u8]],
) -> Result<Project<'a>, Stop> {
    match Project::new(alloc, 0, paths, 0, dirs) {
        Ok(project) => Ok(project),
        Err(_) => Err(Stop),
    }
}

/// The file of a project that has this path.
pub fn file_of(project: &Project<'_>, path: &[u8]) -> Result<FileId, Stop>
    ensures { IfOk result (λ file. file < length project.now.paths) }
{
    match project.file(path) {
        Some(file) => Ok(file),
        None => Err(Stop),
    }
}

/// The directive of `LINE PATH`.
pub fn directive_of(project: &Project<'_>, directive: &str) -> Result<DirectiveId, Stop> {
    let (line, path) = split_word(directive);
    Ok(DirectiveId {
        file: file_of(project, path.as_bytes())?,
        line: number(line)?,
    })
}
