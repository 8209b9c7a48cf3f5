//! How the words for places end.
ghost use Rattle.std.specs.Prelude.{◌≡◌, ◌<◌, ◌≤◌, ◌==◌, ◌||◌, drop, length, slice_index, IfSome};
ghost use Rattle.std.specs.Char.{is_ascii_digit};
ghost use Rattle.std.specs.List.{prefix_len};
ghost use Rattle.inc_text.specs.Ascii.{close_parenthesis, open_parenthesis};
ghost use Rattle.inc_check.specs.Reading.{colon_from};
ghost use Rattle.inc_inputs.specs.PlaceWords.{is_between, is_call, is_end, is_name, is_name_byte, is_number, is_space, line_colon, name_colon, unspaced};

use crate::file_lists::first_end;
use inc_check::digits_len;

/// What is behind the colon in a word for a place.
#[derive(Clone, Copy)]
enum WordEnd {
    /// The number of a line.
    Line,
    /// What stands behind `#include`.
    Name,
}

/// Where the colon is before the line that a word ends in, if it ends in one.
pub(crate) fn line_colon(word: &[u8]) -> Option<usize>
    ensures is { result ≡ line_colon word.now }
    ensures within { IfSome result (λ at. at < length word.now) }
{
    colon_before(word, WordEnd::Line)
}

/// Where the colon is before the name that a word ends in, if it ends in one.
pub(crate) fn name_colon(word: &[u8]) -> Option<usize>
    ensures is { result ≡ name_colon word.now }
    ensures within { IfSome result (λ at. at < length word.now) }
{
    colon_before(word, WordEnd::Name)
}

/// Where the first colon of a word is that has such an end behind it. A byte is looked at three times at most: what is looked at behind a
/// colon, but its first and last byte, ends before the next one.
fn colon_before(word: &[u8], end: WordEnd) -> Option<usize>
    ensures is { result ≡ colon_from (is_end end) 0 word.now }
    ensures within { IfSome result (λ at. at < length word.now) }
{
    let mut at = 0;
    while let Some(colon) = first_end(&word[at..], b':') {
        let place = at + colon;
        if is_end(end, &word[place + 1..]) {
            return Some(place);
        }
        at = place + 1;
    }
    None
}

/// Whether a text is such an end.
fn is_end(end: WordEnd, text: &[u8]) -> bool
    ensures { result ≡ is_end end text.now }
{
    match end {
        WordEnd::Line => is_number(text),
        WordEnd::Name => is_name(text),
    }
}

/// Whether a text is one digit or more, and nothing else.
pub(crate) fn is_number(text: &[u8]) -> bool
    ensures { result ≡ is_number text.now }
{
    let digits = digits_len(text);
    digits > 0 && digits == text.len()
}

/// Whether a text may stand behind `#include`: a name between quotes or angle brackets, or that of a macro, with or without arguments.
fn is_name(text: &[u8]) -> bool
    ensures { result ≡ is_name text.now }
{
    is_between(b'"', b'"', text) || is_between(b'<', b'>', text) || is_call(text)
}

/// Whether a text begins and ends with these bytes.
pub(crate) fn is_between(first: u8, last: u8, text: &[u8]) -> bool
    ensures { result ≡ is_between first last text.now }
{
    text.len() > 1 && text[0] == first && text[text.len() - 1] == last
}

/// Whether a text is the name of a macro, or a call of one with all of its arguments.
fn is_call(text: &[u8]) -> bool
    ensures { result ≡ is_call text.now }
{
    let length = name_len(text);
    length > 0 && !begins_digit(text) && is_call_end(text, length)
}

/// How many bytes come first that may be in a name.
fn name_len(text: &[u8]) -> usize
    ensures is { result ≡ prefix_len is_name_byte text.now }
    ensures within { result ≤ length text.now }
{
    text.iter().take_while(|byte| is_name_byte(**byte)).count()
}

/// Whether a text begins with a digit.
fn begins_digit(text: &[u8]) -> bool
    ensures { result ≡ is_ascii_digit (slice_index text.now 0) }
{
    match text.first() {
        Some(byte) => byte.is_ascii_digit(),
        None => false,
    }
}

/// Whether a text ends at a place, or goes on there with arguments in parentheses.
fn is_call_end(text: &[u8], at: usize) -> bool
    requires { at ≤ length text.now }
    ensures { result ≡ ((at == length text.now) || is_between open_parenthesis close_parenthesis (unspaced (drop at text.now))) }
{
    at == text.len() || is_between(b'(', b')', unspaced(&text[at..]))
}

/// Whether a byte may be in a name.
fn is_name_byte(byte: u8) -> bool
    ensures { result ≡ is_name_byte byte }
{
    byte.is_ascii_alphanumeric() || byte == b'_'
}

/// A text without the white space that comes first.
pub(crate) fn unspaced(text: &[u8]) -> &[u8]
    ensures { result.now ≡ unspaced text.entry.now }
{
    &text[space_len(text)..]
}

/// How much white space comes first.
fn space_len(text: &[u8]) -> usize
    ensures is { result ≡ prefix_len is_space text.now }
    ensures within { result ≤ length text.now }
{
    text.iter().take_while(|byte| is_space(**byte)).count()
}

/// Whether a byte is white space of a line.
fn is_space(byte: u8) -> bool
    ensures { result ≡ is_space byte }
{
    byte == b' ' || byte == b'\t'
}
