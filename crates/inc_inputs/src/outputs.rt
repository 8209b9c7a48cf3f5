//! Files that a run writes.
ghost use Rattle.std.specs.Prelude.{◌≡◌, ◌||◌, option_map, IfOk};
ghost use Rattle.inc_inputs.specs.Reports.{cannot_write_file, report_of};
ghost use Rattle.inc_inputs.specs.Steps.{Comes, writes_file, writes_if};
ghost use Rattle.inc_inputs.specs.Texts.{are_one, names_input};
ghost use Rattle.inc_inputs.specs.Views.{seen};

use crate::failures::Failure;
use crate::inputs::Inputs;
use std::alloc::{AllocError, Global};

/// Whether a word for a file to write names none.
pub(crate) fn is_no_file(name: Option<&str>) -> bool
    ensures { result ≡ names_input (option_map (λ n. n.now) name.entry) }
{
    name == Some("-")
}

/// Whether one of two words for files to write names none.
pub fn are_no_files(first: Option<&str>, second: Option<&str>) -> bool
    ensures { result ≡ (names_input (option_map (λ n. n.now) first.entry) || names_input (option_map (λ n. n.now) second.entry)) }
{
    is_no_file(first) || is_no_file(second)
}

/// Whether two words name one file, as they are written.
pub fn are_one(first: Option<&str>, second: Option<&str>) -> bool
    ensures { result ≡ are_one (option_map (λ n. n.now) first.entry) (option_map (λ n. n.now) second.entry) }
{
    match (first, second) {
        (Some(first), Some(second)) => first == second,
        _ => false,
    }
}

/// Writes a text to the file that a word names, if there is such a word.
pub fn write_if<I: Inputs>(
    alloc: Global,
    inputs: &mut I,
    name: Option<&str>,
    text: &[u8],
) -> Result<(), Failure>
    ensures { Comes (writes_if I.puts (option_map (λ n. n.now) name.entry) text.now) inputs.old (seen (λ u. u) result) inputs.new }
{
    match name {
        Some(name) => write_named(alloc, inputs, name, text),
        None => Ok(()),
    }
}

/// Writes a text to the file that a word names.
fn write_named<I: Inputs>(
    alloc: Global,
    inputs: &mut I,
    name: &str,
    text: &[u8],
) -> Result<(), Failure>
    ensures { Comes (writes_file I.puts name.now text.now) inputs.old (seen (λ u. u) result) inputs.new }
{
    match inputs.write_file(name, text) {
        Ok(()) => Ok(()),
        Err(_) => Err(unwritten(alloc, name)?),
    }
}

/// The failure to report of a file that is not written whole.
fn unwritten(alloc: Global, name: &str) -> Result<Failure, AllocError>
    ensures { IfOk result (λ failure. report_of failure ≡ cannot_write_file name.now) }
{
    Ok(Failure::CannotWriteFile(Vec::from_slice(alloc, name.as_bytes())?))
}
