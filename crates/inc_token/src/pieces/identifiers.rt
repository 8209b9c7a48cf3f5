//! Identifiers and preprocessing numbers: rows of parts.
ghost use Rattle.std.specs.Prelude.{◌≡◌, ◌+◌, ◌<◌, ◌≤◌, ◌||◌, ◌==◌, length, map, drop};
ghost use Rattle.std.specs.List.{prefix_len};
ghost use Rattle.std.specs.Simd.Lanes.{mask_l};
ghost use Rattle.inc_token.specs.Spellings.{begins_nondigit, is_hex_digit, is_exponent_letter, begins_with_hex, nonletter_len, universal_len, identifier_part, number_part};
ghost use Rattle.inc_token.specs.Scanning.{is_row_byte, is_other_byte, row_len, begins_with_sign};
ghost use Rattle.inc_text.specs.Ascii.{minus, plus};

use inc_text::Language;
use std::simd::prelude::*;

/// Which bytes are digits or non-digits of one byte: a look-up costs less than the tests, and no wrong guess of a branch.
#[rattlefmt::skip]
static PARTS: [bool; 256] = [
    false, false, false, false, false, false, false, false, false, false, false, false, false, false, false, false,
    false, false, false, false, false, false, false, false, false, false, false, false, false, false, false, false,
    false, false, false, false, false, false, false, false, false, false, false, false, false, false, false, false,
    true, true, true, true, true, true, true, true, true, true, false, false, false, false, false, false,
    false, true, true, true, true, true, true, true, true, true, true, true, true, true, true, true,
    true, true, true, true, true, true, true, true, true, true, true, false, false, false, false, true,
    false, true, true, true, true, true, true, true, true, true, true, true, true, true, true, true,
    true, true, true, true, true, true, true, true, true, true, true, false, false, false, false, false,
    true, true, true, true, true, true, true, true, true, true, true, true, true, true, true, true,
    true, true, true, true, true, true, true, true, true, true, true, true, true, true, true, true,
    true, true, true, true, true, true, true, true, true, true, true, true, true, true, true, true,
    true, true, true, true, true, true, true, true, true, true, true, true, true, true, true, true,
    true, true, true, true, true, true, true, true, true, true, true, true, true, true, true, true,
    true, true, true, true, true, true, true, true, true, true, true, true, true, true, true, true,
    true, true, true, true, true, true, true, true, true, true, true, true, true, true, true, true,
    true, true, true, true, true, true, true, true, true, true, true, true, true, true, true, true,
];

/// Whether a byte is a digit or a non-digit of one byte.
#[inline(always)]
pub(super) fn is_part(b: u8) -> bool
    ensures { result ≡ is_row_byte b }
{
    PARTS[b as usize]
}

/// Whether a byte is a letter of an exponent.
#[inline(always)]
fn is_exponent(b: u8) -> bool
    ensures { result ≡ is_exponent_letter b }
{
    b == b'e' || b == b'E' || b == b'p' || b == b'P'
}

/// Whether a byte is + or -.
#[inline(always)]
fn is_sign(b: u8) -> bool
    ensures { result ≡ ((b == plus) || (b == minus)) }
{
    b == b'+' || b == b'-'
}

/// Whether a byte is a hexadecimal digit.
fn is_hex(b: u8) -> bool
    ensures { result ≡ is_hex_digit b }
{
    matches!(b, b'0'..=b'9' | b'a'..=b'f' | b'A'..=b'F')
}

/// Whether so many hexadecimal digits are at a place.
fn is_hex_row(text: &[u8], at: usize, count: usize) -> bool
    requires { at ≤ length text.now }
    ensures { result ≡ begins_with_hex count (drop at text.now) }
{
    let mut at = at;
    let mut left = count;
    while left > 0 {
        if at >= text.len() || !is_hex(text[at]) {
            return false;
        }
        at += 1;
        left -= 1;
    }
    true
}

/// The length of the universal character name at a place, 0 where there is none.
#[cold]
#[inline(never)]
fn universal_name_len(text: &[u8], at: usize) -> usize
    requires { at < length text.now }
    ensures { result ≡ universal_len (drop at text.now) }
{
    if text[at] != b'\\' || at + 1 >= text.len() {
        return 0;
    }
    let letter = text[at + 1];
    if letter == b'u' && is_hex_row(text, at + 2, 4) {
        6
    } else if letter == b'U' && is_hex_row(text, at + 2, 8) {
        10
    } else {
        0
    }
}

/// Whether a byte is no letter and may begin a non-digit.
#[inline(always)]
pub(super) fn begins_nondigit(language: Language, b: u8) -> bool
    ensures { result ≡ begins_nondigit language b }
{
    b == b'\\' || b == b'$' && language.is_gnu()
}

/// The length of the non-digit at a place that is no letter, 0 where there is none.
fn nonletter_len(language: Language, text: &[u8], at: usize) -> usize
    requires { at < length text.now }
    ensures { result ≡ nonletter_len language (drop at text.now) }
{
    if text[at] == b'$' && language.is_gnu() {
        1
    } else {
        universal_name_len(text, at)
    }
}

/// The length of the digit or non-digit at a place, 0 where there is none.
#[inline(always)]
fn part_len(language: Language, text: &[u8], at: usize) -> usize
    requires { at < length text.now }
    ensures { result ≡ identifier_part language (drop at text.now) }
{
    let first = text[at];
    if is_part(first) {
        1
    } else if begins_nondigit(language, first) {
        nonletter_len(language, text, at)
    } else {
        0
    }
}

/// Whether + or - is at a place.
#[inline(always)]
fn is_signed(text: &[u8], at: usize) -> bool
    requires { at ≤ length text.now }
    ensures { result ≡ begins_with_sign (drop at text.now) }
{
    at < text.len() && is_sign(text[at])
}

/// The length of the part of a preprocessing number at a place, 0 where there is none.
#[inline(always)]
fn number_part_len(language: Language, text: &[u8], at: usize) -> usize
    requires { at < length text.now }
    ensures { result ≡ number_part language (drop at text.now) }
{
    let first = text[at];
    if first == b'.' {
        1
    } else if is_exponent(first) && is_signed(text, at + 1) {
        2
    } else {
        part_len(language, text, at)
    }
}

/// How many bytes a vector holds.
pub(super) const LANES: usize = 16;

/// Which bytes of a vector are no digits and no non-digits of one byte, a bit for each.
#[inline(always)]
fn other_bytes(v: u8x16) -> u64
    ensures { result ≡ mask_l (map is_other_byte v) }
{
    let from_a = (v | u8x16::splat(0x20)) - u8x16::splat(b'a');
    let from_0 = v - u8x16::splat(b'0');
    let others = from_a.simd_ge(u8x16::splat(26))
        & from_0.simd_ge(u8x16::splat(10))
        & v.simd_ne(u8x16::splat(b'_'))
        & v.simd_lt(u8x16::splat(128));
    others.to_bitmask()
}

/// The place after the digits and non-digits of one byte each that are at a place, byte by byte.
fn skip_last_parts(text: &[u8], at: usize) -> usize
    requires { at ≤ length text.now }
    ensures { result ≡ at + prefix_len is_row_byte (drop at text.now) }
{
    let mut at = at;
    while at < text.len() && is_part(text[at]) {
        at += 1;
    }
    at
}

/// The place after the digits and non-digits of one byte each that are at a place. Nearly every word ends within a
/// vector, so that its end costs no wrong guess of a branch.
#[inline(always)]
fn skip_parts(text: &[u8], at: usize) -> usize
    requires { at ≤ length text.now }
    ensures { result ≡ at + prefix_len is_row_byte (drop at text.now) }
{
    let mut at = at;
    while text.len() - at >= LANES {
        let others = other_bytes(u8x16::from_slice(&text[at..]));
        if others != 0 {
            return at + others.trailing_zeros() as usize;
        }
        at += LANES;
    }
    skip_last_parts(text, at)
}

/// The length of the row of digits and non-digits at a place.
pub(super) fn word_len(language: Language, text: &[u8], at: usize) -> usize
    requires { at ≤ length text.now }
    ensures { result ≡ row_len (identifier_part language) 0 (drop at text.now) }
{
    let mut end = skip_parts(text, at);
    while end < text.len() && begins_nondigit(language, text[end]) {
        let part = nonletter_len(language, text, end);
        if part == 0 {
            break;
        }
        end = skip_parts(text, end + part);
    }
    end - at
}

/// The length of the row of parts of a number at a place.
pub(super) fn digits_len(language: Language, text: &[u8], at: usize) -> usize
    requires { at ≤ length text.now }
    ensures { result ≡ row_len (number_part language) 0 (drop at text.now) }
{
    let mut end = at;
    while end < text.len() {
        let part = number_part_len(language, text, end);
        if part == 0 {
            break;
        }
        end += part;
    }
    end - at
}
