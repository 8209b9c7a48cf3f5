//! Lines of which no token is wanted: they are skipped up to their end.
ghost use Rattle.std.specs.Prelude.{◌≡◌, ◌+◌, ◌<◌, ◌≤◌, IfSome, length, map, drop, slice_index};
ghost use Rattle.std.specs.List.{prefix_len};
ghost use Rattle.std.specs.Simd.Lanes.{mask_l};
ghost use Rattle.inc_token.specs.Skipping.{is_stop, is_plain, literal_or_rest, comment_len, skipped_len, further, line_rest};
ghost use Rattle.inc_token.specs.UnmatchedQuotes.{AreUnmatched};

use super::identifiers::LANES;
use super::literals::{Unmatched, char_len, lone_len, str_len};
use super::{Piece, comments, stands_at};
use inc_text::Language;
use std::simd::prelude::*;

/// Where skipping a line ends.
#[derive(Clone, Copy, Debug, PartialEq, Eq)]
pub enum Skipped {
    /// At the LF that ends the line, or at the end of the text.
    ToLineEnd(usize),
    /// At a `/*` without a later `*/`.
    ToOpenComment(usize),
}

/// Which bytes of a vector may end the line or begin a literal or a comment, a bit for each.
#[inline(always)]
fn stops(v: u8x16) -> u64
    ensures { result ≡ mask_l (map is_stop v) }
{
    let stops = v.simd_eq(u8x16::splat(b'\n'))
        | v.simd_eq(u8x16::splat(b'"'))
        | v.simd_eq(u8x16::splat(b'\''))
        | v.simd_eq(u8x16::splat(b'/'));
    stops.to_bitmask()
}

/// Whether a byte neither ends the line nor may begin a literal or a comment.
#[inline(always)]
fn is_plain(b: u8) -> bool
    ensures { result ≡ is_plain b }
{
    !matches!(b, b'\n' | b'"' | b'\'' | b'/')
}

/// The place after the other bytes that are at a place, byte by byte.
fn skip_last_plain(text: &[u8], at: usize) -> usize
    requires { at ≤ length text.now }
    ensures { result ≡ at + prefix_len is_plain (drop at text.now) }
{
    let mut at = at;
    while at < text.len() && is_plain(text[at]) {
        at += 1;
    }
    at
}

/// The place after the bytes at a place that neither end the line nor may begin a literal or a comment.
#[inline(always)]
fn skip_plain(text: &[u8], at: usize) -> usize
    requires { at ≤ length text.now }
    ensures { result ≡ at + prefix_len is_plain (drop at text.now) }
{
    let mut at = at;
    while text.len() - at >= LANES {
        let stops = stops(u8x16::from_slice(&text[at..]));
        if stops != 0 {
            return at + stops.trailing_zeros() as usize;
        }
        at += LANES;
    }
    skip_last_plain(text, at)
}

/// The length of a literal, or what the quote at a place takes where that is 0.
#[inline(always)]
fn len_or_rest(language: Language, len: usize, text: &[u8], at: usize) -> usize
    requires { at < length text.now }
    ensures { result ≡ literal_or_rest language len (drop at text.now) }
{
    if len > 0 {
        len
    } else {
        lone_len(language, text, at)
    }
}

/// The length of a comment, 0 where it is not closed.
#[inline(always)]
fn closed_comment_len(comment: Piece) -> usize
    ensures { result ≡ comment_len comment }
{
    match comment {
        Piece::Blank(len) => len,
        _ => 0,
    }
}

/// The length of the literal, the comment or else the byte at a place, 0 where a comment is not closed.
fn part_len(language: Language, text: &[u8], at: usize, unmatched: &mut Unmatched) -> usize
    requires within { at < length text.now }
    requires unmatched { AreUnmatched unmatched.old at text.now }
    ensures len { result ≡ skipped_len language (drop at text.now) }
    ensures unmatched { AreUnmatched unmatched.new at text.now }
{
    let first = text[at];
    if first == b'"' {
        let len = str_len(text, at, unmatched);
        len_or_rest(language, len, text, at)
    } else if first == b'\'' {
        let len = char_len(text, at, unmatched);
        len_or_rest(language, len, text, at)
    } else if first == b'/' && stands_at(text, at + 1, b'*') {
        closed_comment_len(comments::block(text, at))
    } else if first == b'/' && stands_at(text, at + 1, b'/') {
        closed_comment_len(comments::line(text, at))
    } else {
        1
    }
}

/// Where a line ends of which no token is wanted from a place on, at which no token goes on. It is a function of its own for
/// lines with a quote or a slash, so that the loop over these costs the others nothing.
#[inline(never)]
fn skip_line_parts(language: Language, text: &[u8], at: usize) -> Skipped
    requires { at ≤ length text.now }
    ensures { result ≡ further at (line_rest language 0 (drop at text.now)) }
{
    let mut unmatched = Unmatched::none();
    let mut at = at;
    while at < text.len() && text[at] != b'\n' {
        let len = part_len(language, text, at, &mut unmatched);
        if len == 0 {
            return Skipped::ToOpenComment(at);
        }
        at = skip_plain(text, at + len);
    }
    Skipped::ToLineEnd(at)
}

/// Where a line ends of which no token is wanted from a place on, at which no token goes on.
#[inline(always)]
pub fn skip_line(language: Language, text: &[u8], at: usize) -> Skipped
    requires { at ≤ length text.now }
    ensures { result ≡ further at (line_rest language 0 (drop at text.now)) }
{
    let end = skip_plain(text, at);
    if end < text.len() && text[end] != b'\n' {
        return skip_line_parts(language, text, end);
    }
    Skipped::ToLineEnd(end)
}
