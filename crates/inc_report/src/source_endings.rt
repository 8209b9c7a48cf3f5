//! Lines that say which part of what is printed is of a source, and how its preprocessing ended.
ghost use Rattle.std.specs.Prelude.{◌≡◌, ◌+◌, ◌<◌, ◌++◌, codes, decimal, flat_map, if◌then◌else◌, length, IfOk, IfSome, OnOk};
ghost use Rattle.inc_check.specs.Texts.{line_text};
ghost use Rattle.inc_report.specs.NoOutcomes.{stop_line};
ghost use Rattle.inc_answers.specs.Numbers.{point_text};
ghost use Rattle.inc_report.specs.PpText.{outcome_printed, stop_text};
ghost use Rattle.inc_report.specs.PpTexts.{title};
ghost use Rattle.inc_answers.specs.Refusals.{BadDefinition, refusal_text};
ghost use Rattle.inc_report.specs.SourceEndings.{ending_text, outcome_ending, path_byte};

use crate::numbers::cause_numbers;
use inc_answers::missing_notes::put_number;
use inc_lookup::Project;
use inc_pp::{Outcome, Stop};
use itoa::Buffer;
use std::alloc::{AllocError, Global};

/// The lines of a source of which this is printed below its line, if it has one.
pub(crate) fn outcome_lines(
    alloc: Global,
    project: &Project<'_>,
    titled: bool,
    path: &[u8],
    outcome: &Outcome,
) -> Result<Vec<u8>, AllocError>
    requires { IfSome outcome.now.stop (λ s. s.file < length project.now.paths) }
    ensures { IfOk result (λ lines. lines.items ≡ ending_text path.now
        (title titled path.now ++ (outcome_printed project.now outcome.now).text) (outcome_ending project.now outcome.now)) }
{
    let stop = stop_bytes(alloc, project, outcome.stop())?;
    let count = title_len(titled, path) + outcome.text().len() as u128 + stop.len() as u128;
    source_lines(
        alloc,
        count,
        path,
        ending_of(outcome.stop().is_some(), &stop),
    )
}

/// The lines of a source that is refused so, below its line, if it has one.
pub(crate) fn refused_lines(
    alloc: Global,
    titled: bool,
    path: &[u8],
    refused: &[u8],
) -> Result<Vec<u8>, AllocError>
    ensures { IfOk result (λ lines. lines.items ≡ ending_text path.now (title titled path.now ++ refused.now) refused.now) }
{
    let count = title_len(titled, path) + refused.len() as u128;
    source_lines(alloc, count, path, refused)
}

/// The lines of a source of which so many bytes are printed.
fn source_lines(
    alloc: Global,
    count: u128,
    path: &[u8],
    ending: &[u8],
) -> Result<Vec<u8>, AllocError>
    ensures { IfOk result (λ lines. lines.items ≡ decimal count ++ codes " " ++ line_text (flat_map path_byte path.now) ++ ending.now) }
{
    let mut buffer = Buffer::new();
    let mut lines = Vec::new(alloc);
    lines.extend_from_slice(buffer.format(count).as_bytes())?;
    lines.push(b' ')?;
    put_path(&mut lines, path)?;
    lines.push(b'\n')?;
    lines.extend_from_slice(ending)?;
    Ok(lines)
}

/// Adds a path that ends at the end of its line, whatever it holds.
fn put_path(text: &mut Vec<u8>, path: &[u8]) -> Result<(), AllocError>
    ensures { OnOk result (text.new.items ≡ text.old.items ++ flat_map path_byte path.now) }
{
    for byte in path {
        put_path_byte(text, *byte)?;
    }
    Ok(())
}

/// Adds a byte of a path.
fn put_path_byte(text: &mut Vec<u8>, byte: u8) -> Result<(), AllocError>
    ensures { OnOk result (text.new.items ≡ text.old.items ++ path_byte byte) }
{
    if byte == b'\n' {
        text.extend_from_slice(b"\\x0a")?;
        return Ok(());
    }
    text.push(byte)?;
    Ok(())
}

/// How many bytes the line above a source has, if there is one.
fn title_len(titled: bool, path: &[u8]) -> u128
    ensures { result ≡ length (title titled path.now) }
{
    if titled { path.len() as u128 + 8 } else { 0 }
}

/// How a source ended whose stop is printed so, if it has one.
fn ending_of(is_stopped: bool, stop: &[u8]) -> &[u8]
    ensures { result.now ≡ (if is_stopped then stop.now else line_text (codes "answered")) }
{
    if is_stopped { stop } else { b"answered\n" }
}

/// What is printed of where a source stopped, if it did.
fn stop_bytes(
    alloc: Global,
    project: &Project<'_>,
    stop: Option<Stop>,
) -> Result<Vec<u8>, AllocError>
    requires { IfSome stop (λ s. s.file < length project.now.paths) }
    ensures { IfOk result (λ text. text.items ≡ stop_line project.now stop) }
{
    match stop {
        Some(stop) => stop_line_bytes(alloc, project, stop),
        None => Ok(Vec::new(alloc)),
    }
}

/// The line of a stop.
fn stop_line_bytes(alloc: Global, project: &Project<'_>, stop: Stop) -> Result<Vec<u8>, AllocError>
    requires { stop.file < length project.now.paths }
    ensures { IfOk result (λ text. text.items ≡ stop_text project.now stop) }
{
    let (cause, fault) = cause_numbers(stop.cause);
    let mut text = Vec::new(alloc);
    text.extend_from_slice(b"stop ")?;
    put_point(&mut text, cause, fault)?;
    text.push(b' ')?;
    put_number(&mut text, u64::from(stop.line))?;
    text.push(b' ')?;
    text.extend_from_slice(project.path(stop.file))?;
    text.push(b'\n')?;
    Ok(text)
}

/// The refusal of a word that makes no definition, as it is printed.
pub(crate) fn bad_definition_bytes(
    alloc: Global,
    index: usize,
    fault: u64,
) -> Result<Vec<u8>, AllocError>
    ensures { IfOk result (λ text. text.items ≡ refusal_text (BadDefinition index fault)) }
{
    let mut text = Vec::new(alloc);
    text.extend_from_slice(b"refused 8 bad definition ")?;
    put_point(&mut text, index as u64, fault)?;
    text.push(b'\n')?;
    Ok(text)
}

/// Adds two numbers with a point between.
fn put_point(text: &mut Vec<u8>, first: u64, second: u64) -> Result<(), AllocError>
    ensures { OnOk result (text.new.items ≡ text.old.items ++ point_text (first, second)) }
{
    put_number(text, first)?;
    text.push(b'.')?;
    put_number(text, second)
}
