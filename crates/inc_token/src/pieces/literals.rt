//! What is between two delimiters on one line: literals and header names.
ghost use Rattle.std.specs.Prelude.{◌≡◌, ◌+◌, ◌-◌, ◌<◌, ◌≤◌, false, length, drop, slice_index};
ghost use Rattle.inc_text.specs.Ascii.{apostrophe, quotation_mark};
ghost use Rattle.inc_token.specs.Scanning.{closed_at, quoted_len, lone_len, name_at, header_name_len};
ghost use Rattle.inc_token.specs.UnmatchedQuotes.{NoneCloses, AreUnmatched, nothing_known};

use super::comments;
use inc_text::Language;
use memchr::{memchr2, memchr3};

/// The length from `start` of a literal whose items begin at a place, up to its closing quote and with it. It is 0 where
/// the literal does not close on its line.
fn closed_len(text: &[u8], start: usize, at: usize, quote: u8) -> usize
    requires order { start ≤ at }
    requires within { at ≤ length text.now }
    ensures { result ≡ closed_at quote false (at - start) (drop at text.now) }
{
    let mut at = at;
    while let Some(plain) = memchr3(quote, b'\\', b'\n', &text[at..]) {
        at += plain;
        if text[at] == quote {
            return at + 1 - start;
        }
        // A backslash takes the next byte with it, but for an LF.
        if text[at] == b'\n' || at + 1 == text.len() || text[at + 1] == b'\n' {
            return 0;
        }
        at += 2;
    }
    0
}

/// The length from `start` of the literal whose quote is at a place, 0 where it does not close on its line or where no
/// quote is there.
pub(super) fn quoted(text: &[u8], start: usize, at: usize, quote: u8) -> usize
    requires order { start ≤ at }
    requires within { at ≤ length text.now }
    ensures { result ≡ quoted_len quote (at - start) (drop at text.now) }
{
    if at < text.len() && text[at] == quote {
        closed_len(text, start, at + 1, quote)
    } else {
        0
    }
}

/// Up to where no literal closes on its line that begins before, for each quote. Of many unmatched quotes on a line only
/// the first is followed to the line's end, so that the time is in proportion to the text.
#[derive(Clone, Copy)]
pub struct Unmatched {
    /// No character constant.
    single: usize,
    /// No string literal.
    double: usize,
}

impl Unmatched {
    /// Nothing is known of any quote.
    pub fn none() -> Unmatched
        ensures { result ≡ nothing_known }
    {
        Unmatched {
            single: 0,
            double: 0,
        }
    }
}

/// How many bytes a quote at a place takes whose literal does not close on its line: in GNU C the rest of that line. A prefix may be at the
/// place in its stead.
pub(super) fn lone_len(language: Language, text: &[u8], at: usize) -> usize
    requires { at < length text.now }
    ensures { result ≡ lone_len language (drop at text.now) }
{
    if language.is_gnu() {
        comments::line_len(text, at)
    } else {
        1
    }
}

/// The length of the literal without a prefix whose quote is at a place, 0 where it does not close on its line.
fn searched_len(text: &[u8], at: usize, quote: u8) -> usize
    requires { at < length text.now }
    ensures { result ≡ closed_at quote false 1 (drop (at + 1) text.now) }
{
    closed_len(text, at, at + 1, quote)
}

/// The same by what is known of the quotes of this kind: that no literal closes which begins before `unmatched`.
fn known_len(text: &[u8], at: usize, quote: u8, unmatched: &mut usize) -> usize
    requires within { at < length text.now }
    requires stands { slice_index text.now at ≡ quote }
    requires unmatched { NoneCloses quote (unmatched.old - at) (drop at text.now) }
    ensures len { result ≡ closed_at quote false 1 (drop (at + 1) text.now) }
    ensures unmatched { NoneCloses quote (unmatched.new - at) (drop at text.now) }
{
    if at < *unmatched {
        return 0;
    }
    let len = searched_len(text, at, quote);
    if len == 0 {
        *unmatched = at + comments::line_len(text, at);
    }
    len
}

/// The length of the string literal without a prefix whose quote is at a place, 0 where it does not close on its line.
pub(super) fn str_len(text: &[u8], at: usize, unmatched: &mut Unmatched) -> usize
    requires within { at < length text.now }
    requires stands { slice_index text.now at ≡ quotation_mark }
    requires unmatched { AreUnmatched unmatched.old at text.now }
    ensures len { result ≡ closed_at quotation_mark false 1 (drop (at + 1) text.now) }
    ensures unmatched { AreUnmatched unmatched.new at text.now }
{
    known_len(text, at, b'"', &mut unmatched.double)
}

/// The same of a character constant.
pub(super) fn char_len(text: &[u8], at: usize, unmatched: &mut Unmatched) -> usize
    requires within { at < length text.now }
    requires stands { slice_index text.now at ≡ apostrophe }
    requires unmatched { AreUnmatched unmatched.old at text.now }
    ensures len { result ≡ closed_at apostrophe false 1 (drop (at + 1) text.now) }
    ensures unmatched { AreUnmatched unmatched.new at text.now }
{
    known_len(text, at, b'\'', &mut unmatched.single)
}

/// The length from `start` of a header name whose bytes begin at a place, up to its closing delimiter and with it. It is
/// 0 where the name does not close on its line.
fn name_len(text: &[u8], start: usize, at: usize, close: u8) -> usize
    requires order { start ≤ at }
    requires within { at ≤ length text.now }
    ensures { result ≡ name_at close (at - start) (drop at text.now) }
{
    let Some(plain) = memchr2(close, b'\n', &text[at..]) else {
        return 0;
    };
    let end = at + plain;
    if text[end] == close {
        end + 1 - start
    } else {
        0
    }
}

/// The length of the header name at a place, 0 where there is none.
pub(super) fn header_len(text: &[u8], at: usize) -> usize
    requires { at < length text.now }
    ensures { result ≡ header_name_len (drop at text.now) }
{
    if at + 1 >= text.len() {
        return 0;
    }
    let open = text[at];
    let next = text[at + 1];
    if open == b'<' && next != b'>' {
        name_len(text, at, at + 1, b'>')
    } else if open == b'"' && next != b'"' {
        name_len(text, at, at + 1, b'"')
    } else {
        0
    }
}
