//! Baselines that are written.
ghost use Rattle.std.specs.Prelude.{◌≡◌, ◌≢◌, ◌<◌, ◌∷◌, [], Err, find, length, map, option_map, IfOk};
ghost use Rattle.inc_lookup.specs.Projects.{path_at};
ghost use Rattle.inc_inputs.specs.Reports.{note_line, out_of_memory};
ghost use Rattle.inc_inputs.specs.RuleNotes.{rule_notes};
ghost use Rattle.inc_inputs.specs.Steps.{Comes};
ghost use Rattle.inc_inputs.specs.Views.{seen_ends, seen_text};
ghost use Rattle.inc_inputs.specs.WrittenBaselines.{begins_name, count_lines, first_unnameable, is_unnameable, named_ends, writes_baseline, written_line};
ghost use Rattle.inc_rules.specs.Views.{seen_rule};

use crate::build_texts::{put_counted, put_note};
use crate::ends::EndPaths;
use crate::failures::{Failure, put_shown, unnameable};
use crate::inputs::Inputs;
use crate::outputs::write_if;
use crate::rule_lists::strict_ends;
use inc_lookup::Project;
use inc_rules::Rule;
use std::alloc::{AllocError, Global};

/// The paths of the files that the rules of a list with this name are about, with notes of their globs that fit no file, where the lines of a
/// baseline can name each file of the project; where a header must be found, each glob must fit one.
pub fn named_ends<'p>(
    alloc: Global,
    project: &'p Project<'_>,
    is_strict: bool,
    name: &str,
    rules: &[Rule<'_>],
) -> Result<EndPaths<'p>, Failure>
    ensures ends { seen_ends result ≢ Err out_of_memory →
        seen_ends result ≡ named_ends is_strict name.now project.entry.now (map seen_rule rules.now) }
    ensures notes { IfOk result (λ ends. ends.notes.items ≡ rule_notes name.now project.entry.now (map seen_rule rules.now)) }
{
    match first_unnameable(project) {
        Some(path) => Err(unnameable(alloc, path)),
        None => strict_ends(alloc, project, is_strict, name, rules),
    }
}

/// The first path of a project at a colon of which a line of a baseline would be cut.
fn first_unnameable<'p>(project: &'p Project<'_>) -> Option<&'p [u8]>
    ensures { option_map (λ p. p.now) result ≡ first_unnameable project.entry.now }
{
    for place in 0..project.count() {
        if let Some(path) = unnameable_at(project, place) {
            return Some(path);
        }
    }
    None
}

/// The path of the file at a place, if it is such a path.
fn unnameable_at<'p>(project: &'p Project<'_>, place: usize) -> Option<&'p [u8]>
    requires { place < length project.now.paths }
    ensures { option_map (λ p. p.now) result ≡ find is_unnameable (path_at project.entry.now place ∷ []) }
{
    let file = project.at(place)?;
    let path = project.path(file);
    if is_unnameable(path) {
        Some(path)
    } else {
        None
    }
}

/// Whether the name of a header would begin behind a colon of a path.
fn is_unnameable(path: &[u8]) -> bool
    ensures { result ≡ is_unnameable path.now }
{
    for place in 0..path.len() {
        if path[place] == b':' && begins_name(&path[place + 1..]) {
            return true;
        }
    }
    false
}

/// Whether the name of a header begins.
fn begins_name(text: &[u8]) -> bool
    ensures { result ≡ begins_name text.now }
{
    match text.first() {
        Some(byte) => *byte == b'"' || *byte == b'<',
        None => false,
    }
}

/// Writes a baseline to the file that a word names. Gives the note of how many directives it has.
pub fn write_baseline<I: Inputs>(
    alloc: Global,
    inputs: &mut I,
    name: &str,
    text: &[u8],
) -> Result<Vec<u8>, Failure>
    ensures { Comes (writes_baseline I.puts name.now text.now) inputs.old (seen_text result) inputs.new }
{
    match write_if(alloc, inputs, Some(name), text) {
        Ok(()) => Ok(written_note(alloc, name.as_bytes(), text)?),
        Err(failure) => Err(failure),
    }
}

/// The note of a baseline that is written.
fn written_note(alloc: Global, name: &[u8], text: &[u8]) -> Result<Vec<u8>, AllocError>
    ensures { IfOk result (λ note. note.items ≡ note_line (written_line name.now text.now)) }
{
    let mut note = Vec::new(alloc);
    put_note(&mut note, &written_line(alloc, name, text)?)?;
    Ok(note)
}

/// How many directives a baseline with this text has.
fn written_line(alloc: Global, name: &[u8], text: &[u8]) -> Result<Vec<u8>, AllocError>
    ensures { IfOk result (λ line. line.items ≡ written_line name.now text.now) }
{
    let mut line = Vec::new(alloc);
    put_shown(&mut line, name)?;
    line.extend_from_slice(b": ")?;
    put_counted(
        &mut line,
        count_lines(text),
        b" directive is written",
        b" directives are written",
    )?;
    Ok(line)
}

/// How many lines a text has.
fn count_lines(text: &[u8]) -> usize
    ensures { result ≡ count_lines text.now }
{
    text.iter().filter(|byte| **byte == b'\n').count()
}
