//! Lines `PATH:LINE:`, as the answers, `grep -n` and compilers print a directive.
ghost use Rattle.std.specs.Prelude.{◌≡◌, ◌≤◌, ◌<◌, ◌==◌, ◌&&◌, take, drop, length, position, slice_index, nat_lt, false, IfSome};
ghost use Rattle.std.specs.Char.{is_ascii_digit};
ghost use Rattle.std.specs.List.{prefix_len, list_any};
ghost use Rattle.inc_check.specs.Reading.{begins_number, front_digits, mark_with, number_in, place_from, placed_mark};
ghost use Rattle.inc_text.specs.Ascii.{colon, line_feed};

use crate::line_parts::number_in;
use inc_graph::LentMark;

/// The directive of a line `PATH:LINE:`, whatever is behind that, with its path lent from the line.
pub(crate) fn placed_mark(line: &[u8]) -> Option<LentMark<'_>>
    requires { list_any (λ b. b == line_feed) line.now ≡ false }
    ensures { result ≡ placed_mark line.now }
{
    let Some(at) = place_in(line) else {
        return None;
    };
    let rest = &line[at + 1..];
    let Some(number) = number_in(&rest[..digits_len(rest)]) else {
        return None;
    };
    LentMark::in_front(line, at, number)
}

/// Where the first `:DIGITS:` of a line is. A byte is looked at three times at most, whatever the line holds: digits behind a colon end
/// before the next one, so that each is counted once, and searched once for a colon.
pub fn place_in(line: &[u8]) -> Option<usize>
    ensures is { result ≡ place_from 0 line.now }
    ensures within { IfSome result (λ at. at < length line.now) }
{
    let mut at = 0;
    while let Some(colon) = first_colon(&line[at..]) {
        let place = at + colon;
        if begins_number(&line[place + 1..]) {
            return Some(place);
        }
        at = place + 1;
    }
    None
}

/// Where the first colon is.
fn first_colon(text: &[u8]) -> Option<usize>
    ensures { result ≡ position (λ b. b == colon) text.now }
{
    text.iter().position(|b| *b == b':')
}

/// Whether a text begins with one or more digits and a colon.
fn begins_number(text: &[u8]) -> bool
    ensures { result ≡ begins_number text.now }
{
    let digits = digits_len(text);
    digits > 0 && has_colon_at(text, digits)
}

/// Whether a colon is here.
fn has_colon_at(text: &[u8], at: usize) -> bool
    ensures { result ≡ (slice_index text.now at == colon) }
{
    at < text.len() && text[at] == b':'
}

/// How many digits a text begins with.
pub fn digits_len(text: &[u8]) -> usize
    ensures is { result ≡ prefix_len is_ascii_digit text.now }
    ensures within { result ≤ length text.now }
{
    text.iter().take_while(|b| b.is_ascii_digit()).count()
}
