//! Lines of tokens that are blanked in their source: a space in place of each byte, so that every other byte and every
//! line stays where it is.
ghost use Rattle.std.specs.Prelude.{◌≡◌, [], ◌∷◌, IfOk, map};
ghost use Rattle.inc_token.specs.Blanking.{blank_byte, blanked, line_range};
ghost use Rattle.inc_token.specs.BlankingSteps.{AreMarks, BeginUpTo, begin_line, line_blanked, with_blank};
ghost use Rattle.inc_token.specs.Views.{seen};

use crate::lines::{Lines, Token};
use inc_text::{flag_at, set_flag};
use std::alloc::{AllocError, Global};

/// A source with each line of tokens blanked whose first token is on one of these physical lines: from the first byte of its
/// first token to the last of its last, every byte but LF becomes a space. Other physical lines count for nothing.
///
/// The lines are those of the source's text. Then no two of their ranges share a byte, and the time is that of one pass over the
/// bytes, two over the lines and one over `remove`: flags, one for each physical line up to the last on which a line of
/// tokens begins, say which are removed.
pub fn blank(
    alloc: Global,
    source: &[u8],
    lines: &Lines<'_>,
    remove: &[u32],
) -> Result<Vec<u8>, AllocError>
    ensures { IfOk result (λ bytes. bytes.items ≡ blanked remove.now lines.now source.now) }
{
    let last = last_begin(lines);
    let marks = mark_lines(alloc, remove, last)?;
    let mut bytes = Vec::from_slice(alloc, source)?;
    for i in 0..lines.count() {
        blank_line(&mut bytes, lines.line(i), &marks);
    }
    Ok(bytes)
}

/// The last physical line on which a line of tokens begins.
fn last_begin(lines: &Lines<'_>) -> u32
    ensures { BeginUpTo result lines.now }
{
    let mut last = 0;
    for i in 0..lines.count() {
        last = begin_line(lines.line(i)).max(last);
    }
    last
}

/// The physical line that the first token is on, 0 where there is none.
fn begin_line(tokens: &[Token<'_>]) -> u32
    ensures { result ≡ begin_line (map seen tokens.now) }
{
    match tokens.first() {
        Some(token) => token.line,
        None => 0,
    }
}

/// Flags that say which physical lines are in the list, up to one.
fn mark_lines(alloc: Global, lines: &[u32], last: u32) -> Result<Vec<bool>, AllocError>
    ensures { IfOk result (λ marks. AreMarks lines.now last marks.items) }
{
    let mut marks = Vec::new(alloc);
    for &line in lines {
        if line <= last {
            set_flag(&mut marks, line as usize)?;
        }
    }
    Ok(marks)
}

/// Blanks a line if the physical line that its first token is on is marked.
fn blank_line(bytes: &mut Vec<u8>, tokens: &[Token<'_>], marks: &[bool])
    ensures { bytes.new.items ≡ line_blanked marks.now (map seen tokens.now) bytes.old.items }
{
    if flag_at(marks, begin_line(tokens) as usize) {
        blank_range(
            bytes,
            first_byte(tokens) as usize,
            last_byte(tokens) as usize,
        );
    }
}

/// The first source byte of a line, 0 where it has no token.
fn first_byte(tokens: &[Token<'_>]) -> u32
    ensures { result ≡ (line_range (map seen tokens.now)).first }
{
    match tokens.first() {
        Some(token) => token.first,
        None => 0,
    }
}

/// The source byte after the last one of a line, 0 where it has no token.
fn last_byte(tokens: &[Token<'_>]) -> u32
    ensures { result ≡ (line_range (map seen tokens.now)).last }
{
    match tokens.last() {
        Some(token) => token.last,
        None => 0,
    }
}

/// Blanks a range of bytes, as far as there are so many.
fn blank_range(bytes: &mut Vec<u8>, first: usize, last: usize)
    ensures { bytes.new.items ≡ with_blank (record { first = first; last = last }) bytes.old.items }
{
    let end = last.min(bytes.len());
    for at in first.min(end)..end {
        bytes[at] = blank_byte(bytes[at]);
    }
}

/// A space, or LF where that is the byte.
fn blank_byte(byte: u8) -> u8
    ensures { result ≡ blank_byte byte }
{
    if byte == b'\n' { byte } else { b' ' }
}
