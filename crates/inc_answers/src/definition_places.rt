//! Where files that were read define names.
ghost use Rattle.std.specs.Prelude.{◌≡◌, ◌≤◌, ◌<◌, ℕ, List, None, Option, Some, bytes_eq, if◌then◌else◌, length, map, option_map, position, slice_index_or, IfOk, OnOk};
ghost use Rattle.std.specs.Borrow.{Bor};
ghost use Rattle.std.specs.List.{slice_set};
ghost use Rattle.std.specs.Option.{option_or};
ghost use Rattle.inc_text.specs.declared.devices.TheConstants.{LONGEST_FILE};
ghost use Rattle.inc_directive.specs.Parts.{lines_of_parts};
ghost use Rattle.inc_lookup.specs.declared.projects.DirectiveId as declared;
ghost use Rattle.inc_answers.specs.DefinitionPlaces.{ArePlaced, at_line, defining_line, definition_line, kept_place, place_in};
ghost use Rattle.inc_answers.specs.KeptFiles.{kept_at};

use crate::kept_sources::KeptFiles;
use inc_directive::{FileLines, read_lines};
use inc_lookup::{DirectiveId, FileId, Project};
use inc_text::{Language, TextFault, splice};
use std::alloc::{AllocError, Global};

/// Where the files of a project that were read define each of these names first. Each file is looked at once, and none where there is no name.
pub fn definition_places(
    alloc: Global,
    project: &Project<'_>,
    files: &KeptFiles,
    language: Language,
    names: &[&[u8]],
) -> Result<Vec<Option<DirectiveId>>, AllocError>
    ensures { IfOk result (λ places. ArePlaced (map (λ n. n.now) names.now)
        (kept_place language files.now (length project.now.paths)) places.items) }
{
    if names.is_empty() {
        return Ok(Vec::new(alloc));
    }
    let mut places = vec![in alloc; None; names.len()]?;
    for place in 0..project.count() {
        if let Some(file) = project.at(place) {
            note_file(&mut places, alloc, files, language, names, file)?;
        }
    }
    Ok(places)
}

/// Notes where a file defines these names, if it was read.
fn note_file(
    places: &mut Vec<Option<DirectiveId>>,
    alloc: Global,
    files: &KeptFiles,
    language: Language,
    names: &[&[u8]],
    file: FileId,
) -> Result<(), AllocError>
    ensures { OnOk result ((before : List ℕ → Option declared.DirectiveId) →
        ArePlaced (map (λ n. n.now) names.now) before places.old.items →
        ArePlaced (map (λ n. n.now) names.now)
        (λ n. option_or (before n) (place_in language n file (kept_at files.now file))) places.new.items) }
{
    match files.bytes(file) {
        Some(bytes) => note_bytes(places, alloc, bytes, language, names, file),
        None => Ok(()),
    }
}

/// The same of a file with these bytes.
fn note_bytes(
    places: &mut Vec<Option<DirectiveId>>,
    alloc: Global,
    bytes: &[u8],
    language: Language,
    names: &[&[u8]],
    file: FileId,
) -> Result<(), AllocError>
    requires { length bytes.now ≤ LONGEST_FILE }
    ensures { OnOk result ((before : List ℕ → Option declared.DirectiveId) →
        ArePlaced (map (λ n. n.now) names.now) before places.old.items →
        ArePlaced (map (λ n. n.now) names.now)
        (λ n. option_or (before n) (option_map (at_line file) (definition_line language bytes.now n))) places.new.items) }
{
    let text = match splice(alloc, bytes, language) {
        Ok(text) => text,
        // It is not too long.
        Err(TextFault::TooLong) => unreachable!(),
        Err(TextFault::NoMemory) => return Err(AllocError),
    };
    match read_lines(alloc, text, language) {
        Ok(found) => {
            note_lines(places, names, &found, file);
            Ok(())
        }
        Err(fault) => match fault.line() {
            Some(_) => Ok(()),
            None => Err(AllocError),
        },
    }
}

/// The same of a file with these lines.
fn note_lines(
    places: &mut Vec<Option<DirectiveId>>,
    names: &[&[u8]],
    found: &FileLines,
    file: FileId,
)
    ensures { (before : List ℕ → Option declared.DirectiveId) →
        ArePlaced (map (λ n. n.now) names.now) before places.old.items →
        ArePlaced (map (λ n. n.now) names.now)
        (λ n. option_or (before n) (option_map (at_line file) (defining_line n (lines_of_parts found.now)))) places.new.items }
{
    for i in 0..found.count() {
        if let Some(name) = found.defined_name(i) {
            let line = found.first_line(i);
            note(places, names, name, DirectiveId { file, line });
        }
    }
}

/// Notes where a name is defined, if it is one of these, and none of its places is known.
fn note(places: &mut Vec<Option<DirectiveId>>, names: &[&[u8]], name: &[u8], place: DirectiveId)
    ensures { (before : List ℕ → Option declared.DirectiveId) →
        ArePlaced (map (λ n. n.now) names.now) before places.old.items →
        ArePlaced (map (λ n. n.now) names.now)
        (λ n. option_or (before n) (if bytes_eq n name.now then Some place else None)) places.new.items }
{
    if let Some(at) = place_among(names, name) {
        keep_first(places, at, place);
    }
}

/// Keeps a place, where none is known.
fn keep_first(places: &mut Vec<Option<DirectiveId>>, at: usize, place: DirectiveId)
    ensures { at < length places.old.items →
        places.new.items ≡ slice_set places.old.items at (option_or (slice_index_or places.old.items at None) (Some place)) }
{
    if at < places.len() {
        if let None = places[at] {
            places[at] = Some(place);
        }
    }
}

/// Where a name is first among these.
pub fn place_among(names: &[&[u8]], name: &[u8]) -> Option<usize>
    ensures { result ≡ position (bytes_eq name.now) (map (λ n. n.now) names.now) }
{
    first_among(names, name)
}

/// The same, by the names as they lie.
fn first_among(names: &[&[u8]], name: &[u8]) -> Option<usize>
    ensures { result ≡ position (λ (n : Bor (List ℕ)). bytes_eq name.now n.now) names.now }
{
    names.iter().position(|known| name == *known)
}
