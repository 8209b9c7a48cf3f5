//! Lists of directives, as the answers, `grep -n` and compilers print them.
ghost use Rattle.std.specs.Prelude.{◌≡◌, ◌==◌, ℕ, Ok, Err, None, take, position, IfOk, IfErr};
ghost use Rattle.inc_check.specs.Reading.{listed_mark, number_in, placed_mark};
ghost use Rattle.inc_check.specs.declared.read_texts.CertFault.TheVariants as fault;
ghost use Rattle.inc_inputs.specs.MarkLists.{first_line, first_marks, lines_of, marks_from, marks_in};
ghost use Rattle.inc_text.specs.Ascii.{line_feed};

use crate::file_lists::first_end;
use inc_check::{CertFault, digits_len, mark_in, number_behind, number_in, place_in};
use inc_graph::Mark;
use std::alloc::{AllocError, Global};

/// The directives that a text lists, whose lines are all ended: those of the cut of a certificate, if the first line says how many these
/// are, or else one a line.
pub(crate) fn marks_in(alloc: Global, text: &[u8]) -> Result<Vec<Mark>, CertFault>
    ensures marks { IfOk result (λ marks. marks_in (lines_of text.now) ≡ Ok marks.items) }
    ensures fault { IfErr result (λ f. (line : ℕ) → f ≡ fault.Malformed line → marks_in (lines_of text.now) ≡ Err line) }
{
    let Some(end) = first_end(text, b'\n') else {
        return Ok(Vec::new(alloc));
    };
    match number_behind(b"cut ", &text[..end]) {
        Some(count) => first_marks(alloc, &text[end + 1..], count),
        None => all_marks(alloc, text),
    }
}

/// The line of the first directive of a text, whose lines are all ended.
pub(crate) fn first_line(text: &[u8]) -> usize
    ensures { result ≡ first_line (lines_of text.now) }
{
    let Some(end) = first_end(text, b'\n') else {
        return 1;
    };
    match number_behind(b"cut ", &text[..end]) {
        Some(_) => 2,
        None => 1,
    }
}

/// The directives of all lines of a text.
fn all_marks(alloc: Global, text: &[u8]) -> Result<Vec<Mark>, CertFault>
    ensures marks { IfOk result (λ marks. marks_from 1 (lines_of text.now) ≡ Ok marks.items) }
    ensures fault { IfErr result (λ f. (line : ℕ) → f ≡ fault.Malformed line → marks_from 1 (lines_of text.now) ≡ Err line) }
{
    let mut marks = Vec::new(alloc);
    let mut line = 1;
    let mut at = 0;
    while let Some(end) = first_end(&text[at..], b'\n') {
        let Some(mark) = listed_mark(alloc, &text[at..], end)? else {
            return Err(CertFault::Malformed { line });
        };
        marks.push(mark)?;
        at += end + 1;
        line += 1;
    }
    Ok(marks)
}

/// The directives of so many lines of a text, of which the first has the number 2. What is behind them is not looked at.
fn first_marks(alloc: Global, text: &[u8], count: u32) -> Result<Vec<Mark>, CertFault>
    ensures marks { IfOk result (λ marks. first_marks count 2 (lines_of text.now) ≡ Ok marks.items) }
    ensures fault { IfErr result (λ f. (line : ℕ) → f ≡ fault.Malformed line → first_marks count 2 (lines_of text.now) ≡ Err line) }
{
    let mut marks = Vec::new(alloc);
    let mut line = 2;
    let mut at = 0;
    let mut left = count;
    while left > 0 {
        let Some(end) = first_end(&text[at..], b'\n') else {
            return Err(CertFault::Malformed { line });
        };
        let Some(mark) = listed_mark(alloc, &text[at..], end)? else {
            return Err(CertFault::Malformed { line });
        };
        marks.push(mark)?;
        at += end + 1;
        line += 1;
        left -= 1;
    }
    Ok(marks)
}

/// The directive of a line, the first of a text, which ends here. A line that is `LINE PATH` is taken as that, whatever its path holds.
fn listed_mark(alloc: Global, text: &[u8], end: usize) -> Result<Option<Mark>, AllocError>
    requires { position (λ b. b == line_feed) text.now ≡ Some end }
    ensures { IfOk result (λ mark. mark ≡ listed_mark (take end text.now)) }
{
    match mark_in(alloc, text, end)? {
        Some(mark) => Ok(Some(mark)),
        None => placed_mark(alloc, &text[..end]),
    }
}

/// The directive of a line `PATH:LINE:`, whatever is behind that.
fn placed_mark(alloc: Global, line: &[u8]) -> Result<Option<Mark>, AllocError>
    ensures { IfOk result (λ mark. mark ≡ placed_mark line.now) }
{
    let Some(at) = place_in(line) else {
        return Ok(None);
    };
    let rest = &line[at + 1..];
    let Some(number) = number_in(&rest[..digits_len(rest)]) else {
        return Ok(None);
    };
    Mark::copied(alloc, &line[..at], number)
}
