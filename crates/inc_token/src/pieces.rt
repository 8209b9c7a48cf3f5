//! What is at a place of the text: white space, a new-line or a token.
//!
//! The first byte of a token decides by a table how it goes on; digits and letters are asked first. The end of a word is found sixteen
//! bytes at a time, and the ends of comments, literals and header names by `memchr`.
ghost use Rattle.std.specs.Prelude.{◌≡◌, ◌==◌, ◌&&◌, not, ◌+◌, ◌<◌, ◌≤◌, false, length, drop, slice_index};
ghost use Rattle.std.specs.List.{AllWithin, prefix_len};
ghost use Rattle.inc_token.specs.Spellings.{is_blank};
ghost use Rattle.inc_token.specs.Scanning.{begins_with_byte, piece_behind_blanks};
ghost use Rattle.inc_token.specs.TokenLines.{piece_at};
ghost use Rattle.inc_token.specs.UnmatchedQuotes.{AreUnmatched};
ghost use Rattle.inc_text.specs.Ascii.{hash, line_feed};

mod comments;
mod identifiers;
mod literals;
mod punctuators;
mod skipping;
mod tokens;

use crate::kinds::Kind;
use inc_text::Language;
pub use literals::Unmatched;
pub use skipping::{Skipped, skip_line};

/// How much of the text at a place belongs together.
#[derive(Clone, Copy, Debug, PartialEq, Eq)]
pub enum Piece {
    /// So many bytes of white space or a comment.
    Blank(usize),
    /// The LF that ends the line.
    NewLine,
    /// A token of so many bytes.
    Lexeme(Kind, usize),
    /// A `/*` without a later `*/`.
    Unclosed,
}

/// What of `#` and `include` the line has so far: a header name counts only after both.
#[derive(Clone, Copy, Debug, PartialEq, Eq)]
pub enum Progress {
    /// No token.
    AtStart,
    /// `#` alone.
    AfterHash,
    /// `#` and `include`.
    AfterInclude,
    /// Anything else.
    Elsewhere,
}

/// Whether a byte is white space of one byte. Most bytes lie above the space, so that test comes first.
#[inline(always)]
fn is_blank_byte(b: u8) -> bool
    ensures { result ≡ is_blank b }
{
    b <= b' ' && matches!(b, b' ' | b'\t' | 11 | 12 | b'\r')
}

/// The place after the white space of one byte each that is at a place.
pub fn skip_blanks(text: &[u8], at: usize) -> usize
    requires { at ≤ length text.now }
    ensures { result ≡ at + prefix_len is_blank (drop at text.now) }
{
    let mut at = at;
    while at < text.len() && is_blank_byte(text[at]) {
        at += 1;
    }
    at
}

/// How many LFs are at a place one after the other, at most so many.
#[inline(always)]
pub fn line_feeds_at(text: &[u8], at: usize, most: u16) -> u16
    requires { at ≤ length text.now }
    ensures few { result ≤ most }
    ensures line_feeds { AllWithin (λ b. b ≡ line_feed) text.now at (at + result) }
    ensures within { at + result ≤ length text.now }
{
    let mut count = 0;
    while count < most && stands_at(text, at + count as usize, b'\n') {
        count += 1;
    }
    count
}

/// Whether a byte is at a place.
fn stands_at(text: &[u8], at: usize, byte: u8) -> bool
    requires { at ≤ length text.now }
    ensures { result ≡ begins_with_byte byte (drop at text.now) }
{
    at < text.len() && text[at] == byte
}

/// Whether a `#` is at a place and no second one after it, so that it is a token by itself.
#[inline(always)]
pub fn is_single_hash(text: &[u8], at: usize) -> bool
    requires { at < length text.now }
    ensures { result ≡ ((slice_index text.now at == hash) && not
        (begins_with_byte hash (drop (at + 1) text.now))) }
{
    text[at] == b'#' && !stands_at(text, at + 1, b'#')
}

/// The same as `next_piece`, with the tests first that pass most often.
#[inline(always)]
fn scanned(
    language: Language,
    text: &[u8],
    at: usize,
    progress: Progress,
    unmatched: &mut Unmatched,
) -> Piece
    requires within { at < length text.now }
    requires unmatched { AreUnmatched unmatched.old at text.now }
    ensures piece { result ≡ piece_behind_blanks language progress (drop at text.now) }
    ensures unmatched { AreUnmatched unmatched.new at text.now }
{
    let first = text[at];
    if identifiers::is_part(first) {
        tokens::word(language, text, at)
    } else if first == b'\n' {
        Piece::NewLine
    } else if first == b'/' && stands_at(text, at + 1, b'*') {
        comments::block(text, at)
    } else if first == b'/' && stands_at(text, at + 1, b'/') {
        comments::line(text, at)
    } else {
        tokens::mark(language, text, at, progress, unmatched)
    }
}

/// What is at a place of a walk where no white space of one byte is, by what the walk knows of the quotes.
#[inline(always)]
pub fn next_piece(
    language: Language,
    text: &[u8],
    at: usize,
    progress: Progress,
    unmatched: &mut Unmatched,
) -> Piece
    requires left { at < length text.now }
    requires bare { is_blank (slice_index text.now at) ≡ false }
    requires unmatched { AreUnmatched unmatched.old at text.now }
    ensures piece { result ≡ piece_at language progress (drop at text.now) }
    ensures unmatched { AreUnmatched unmatched.new at text.now }
{
    scanned(language, text, at, progress, unmatched)
}

/// What is at a place where no white space of one byte is.
#[inline(always)]
pub fn piece_at(language: Language, text: &[u8], at: usize, progress: Progress) -> Piece
    requires left { at < length text.now }
    requires bare { is_blank (slice_index text.now at) ≡ false }
    ensures { result ≡ piece_at language progress (drop at text.now) }
{
    let mut unmatched = Unmatched::none();
    next_piece(language, text, at, progress, &mut unmatched)
}
