//! The token at a place.
ghost use Rattle.std.specs.Prelude.{◌≡◌, ◌+◌, ◌<◌, ◌≤◌, length, drop, slice_index};
ghost use Rattle.inc_token.specs.Spellings.{identifier_part};
ghost use Rattle.inc_token.specs.Scanning.{row_len, quoted_len, is_wide, may_quote, wide_str_len, begins_quoted, lexeme_or_other, literal_or_lone, wide_lone_len, wide_token, begins_with_point, word_token, mark_token, mark_by};
ghost use Rattle.inc_token.specs.UnmatchedQuotes.{AreUnmatched};
ghost use Rattle.inc_text.specs.Ascii.{apostrophe};

use super::literals::Unmatched;
use super::{Piece, Progress, comments, identifiers, literals, punctuators, stands_at};
use crate::kinds::Kind;
use inc_text::Language;

/// A token of so many bytes, one byte where that is 0.
fn lexeme_or_byte(kind: Kind, len: usize) -> Piece
    ensures { result ≡ lexeme_or_other kind len }
{
    if len > 0 {
        Piece::Lexeme(kind, len)
    } else {
        Piece::Lexeme(Kind::Other, 1)
    }
}

/// A literal of so many bytes, or the quote at a place where that is 0.
fn literal_or_quote(language: Language, kind: Kind, len: usize, text: &[u8], at: usize) -> Piece
    requires { at < length text.now }
    ensures { result ≡ literal_or_lone language kind len (drop at text.now) }
{
    if len > 0 {
        Piece::Lexeme(kind, len)
    } else {
        Piece::Lexeme(Kind::Other, literals::lone_len(language, text, at))
    }
}

/// Whether a byte is u, U or L.
fn is_prefix_letter(b: u8) -> bool
    ensures { result ≡ is_wide b }
{
    b == b'u' || b == b'U' || b == b'L'
}

/// Whether a point and a digit are at a place.
fn is_point_at(text: &[u8], at: usize) -> bool
    requires { at < length text.now }
    ensures { result ≡ begins_with_point (drop at text.now) }
{
    text[at] == b'.' && at + 1 < text.len() && text[at + 1].is_ascii_digit()
}

/// The length of the string literal whose prefix begins with the letter at a place, 0 where there is none.
fn prefixed_str_len(text: &[u8], at: usize) -> usize
    requires { at < length text.now }
    ensures { result ≡ wide_str_len (slice_index text.now at) (drop (at + 1) text.now) }
{
    if at + 1 < text.len() && text[at] == b'u' && text[at + 1] == b'8' {
        literals::quoted(text, at, at + 2, b'"')
    } else {
        literals::quoted(text, at, at + 1, b'"')
    }
}

/// Whether the quote of a literal may be at a place, after u, U or L.
#[inline(always)]
fn may_quote(text: &[u8], at: usize) -> bool
    requires { at ≤ length text.now }
    ensures { result ≡ may_quote (drop at text.now) }
{
    at < text.len() && matches!(text[at], b'"' | b'\'' | b'8')
}

/// Whether these bytes, which are behind a letter u, U or L, begin with the quote of its literal.
fn is_quoted(letter: u8, behind: &[u8]) -> bool
    ensures { result ≡ begins_quoted letter behind.now }
{
    stands_at(behind, 0, b'\'')
        || stands_at(behind, 0, b'"')
        || letter == b'u' && stands_at(behind, 0, b'8') && stands_at(behind, 1, b'"')
}

/// How many bytes the quote behind the letter at a place takes with that letter, where its literal does not close: in GNU C the rest of the
/// line, else none.
fn prefixed_lone_len(language: Language, text: &[u8], at: usize) -> usize
    requires { at < length text.now }
    ensures { result ≡ wide_lone_len language (drop at text.now) }
{
    if is_quoted(text[at], &text[at + 1..]) && language.is_gnu() {
        comments::line_len(text, at)
    } else {
        0
    }
}

/// The token at a place where u, U or L is. Most are words, which the next byte shows.
#[inline(always)]
fn prefixed(language: Language, text: &[u8], at: usize) -> Piece
    requires { at < length text.now }
    ensures { let behind = drop (at + 1) text.now in
        result ≡ wide_token (quoted_len apostrophe 1 behind) (wide_str_len (slice_index text.now at) behind)
        (wide_lone_len language (drop at text.now)) (row_len (identifier_part language) 0 (drop at text.now)) }
{
    if may_quote(text, at + 1) {
        return literal_or_word(language, text, at);
    }
    Piece::Lexeme(Kind::Identifier, identifiers::word_len(language, text, at))
}

/// The same, whatever the next byte is.
fn literal_or_word(language: Language, text: &[u8], at: usize) -> Piece
    requires { at < length text.now }
    ensures { let behind = drop (at + 1) text.now in
        result ≡ wide_token (quoted_len apostrophe 1 behind) (wide_str_len (slice_index text.now at) behind)
        (wide_lone_len language (drop at text.now)) (row_len (identifier_part language) 0 (drop at text.now)) }
{
    let char = literals::quoted(text, at, at + 1, b'\'');
    if char > 0 {
        return Piece::Lexeme(Kind::Char, char);
    }
    let str = prefixed_str_len(text, at);
    if str > 0 {
        return Piece::Lexeme(Kind::Str, str);
    }
    let lone = prefixed_lone_len(language, text, at);
    if lone > 0 {
        return Piece::Lexeme(Kind::Other, lone);
    }
    Piece::Lexeme(Kind::Identifier, identifiers::word_len(language, text, at))
}

/// The token at a place where a digit or a non-digit of one byte is.
#[inline(always)]
pub(super) fn word(language: Language, text: &[u8], at: usize) -> Piece
    requires { at < length text.now }
    ensures { result ≡ word_token language (drop at text.now) }
{
    let first = text[at];
    if first.is_ascii_digit() {
        Piece::Lexeme(Kind::Number, identifiers::digits_len(language, text, at))
    } else if is_prefix_letter(first) {
        prefixed(language, text, at)
    } else {
        lexeme_or_byte(Kind::Identifier, identifiers::word_len(language, text, at))
    }
}

/// The token at a place where no white space, LF, digit or non-digit of one byte is and no header name counts.
#[inline(always)]
fn plain_mark(language: Language, text: &[u8], at: usize, unmatched: &mut Unmatched) -> Piece
    requires within { at < length text.now }
    requires unmatched { AreUnmatched unmatched.old at text.now }
    ensures piece { result ≡ mark_token language (drop at text.now) }
    ensures unmatched { AreUnmatched unmatched.new at text.now }
{
    let first = text[at];
    if is_point_at(text, at) {
        Piece::Lexeme(Kind::Number, identifiers::digits_len(language, text, at))
    } else if identifiers::begins_nondigit(language, first) {
        lexeme_or_byte(Kind::Identifier, identifiers::word_len(language, text, at))
    } else if first == b'"' {
        let len = literals::str_len(text, at, unmatched);
        literal_or_quote(language, Kind::Str, len, text, at)
    } else if first == b'\'' {
        let len = literals::char_len(text, at, unmatched);
        literal_or_quote(language, Kind::Char, len, text, at)
    } else {
        lexeme_or_byte(Kind::Punct, punctuators::symbol_at(text, at))
    }
}

/// The token at a place where no white space, LF, digit or non-digit of one byte is. Most of these bytes begin no token but
/// themselves, so that test comes first.
#[inline(always)]
pub(super) fn mark(
    language: Language,
    text: &[u8],
    at: usize,
    progress: Progress,
    unmatched: &mut Unmatched,
) -> Piece
    requires within { at < length text.now }
    requires unmatched { AreUnmatched unmatched.old at text.now }
    ensures piece { result ≡ mark_by language progress (drop at text.now) }
    ensures unmatched { AreUnmatched unmatched.new at text.now }
{
    if punctuators::is_single_byte(text[at]) {
        return Piece::Lexeme(Kind::Punct, 1);
    }
    if let Progress::AfterInclude = progress {
        let name = literals::header_len(text, at);
        if name > 0 {
            return Piece::Lexeme(Kind::HeaderName, name);
        }
    }
    plain_mark(language, text, at, unmatched)
}
