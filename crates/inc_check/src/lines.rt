//! Where lines end, and their first spaces.
ghost use Rattle.std.specs.Prelude.{◌≡◌, ◌==◌, ◌+◌, ◌≤◌, length, map, take, drop, position};
ghost use Rattle.std.specs.List.{prefix_len};
ghost use Rattle.std.specs.Simd.Lanes.{mask_l};
ghost use Rattle.inc_check.specs.Reading.{is_in_line, is_in_word};
ghost use Rattle.inc_text.specs.Ascii.{blank, line_feed};

use std::simd::prelude::*;

/// How many bytes a vector holds.
const LANES: usize = 16;

/// Which bytes of a vector are LF, a bit for each.
#[inline(always)]
fn line_feeds(v: u8x16) -> u64
    ensures { result ≡ mask_l (map (λ b. b == line_feed) v) }
{
    v.simd_eq(u8x16::splat(b'\n')).to_bitmask()
}

/// Where the first LF is from a place on, or else the end of the text, byte by byte.
fn last_line_end(text: &[u8], at: usize) -> usize
    requires { at ≤ length text.now }
    ensures { result ≡ at + prefix_len is_in_line (drop at text.now) }
{
    let mut at = at;
    while at < text.len() && text[at] != b'\n' {
        at += 1;
    }
    at
}

/// Where the first LF is, or else the end of the text. Most lines are shorter than a call of `memchr` is worth.
#[inline(always)]
fn line_end(text: &[u8]) -> usize
    ensures { result ≡ prefix_len is_in_line text.now }
{
    let mut at = 0;
    while text.len() - at >= LANES {
        let ends = line_feeds(u8x16::from_slice(&text[at..]));
        if ends != 0 {
            return at + ends.trailing_zeros() as usize;
        }
        at += LANES;
    }
    last_line_end(text, at)
}

/// How long the first line is, if it is ended.
#[inline(always)]
pub(crate) fn line_len(text: &[u8]) -> Option<usize>
    ensures { result ≡ position (λ b. b == line_feed) text.now }
{
    let end = line_end(text);
    if end < text.len() { Some(end) } else { None }
}

/// Which bytes of a vector are spaces, a bit for each.
#[inline(always)]
fn blanks(v: u8x16) -> u64
    ensures { result ≡ mask_l (map (λ b. b == blank) v) }
{
    v.simd_eq(u8x16::splat(b' ')).to_bitmask()
}

/// Where the first space is from a place on, or else the end of the text, byte by byte.
fn last_word_end(text: &[u8], at: usize) -> usize
    requires { at ≤ length text.now }
    ensures { result ≡ at + prefix_len is_in_word (drop at text.now) }
{
    let mut at = at;
    while at < text.len() && text[at] != b' ' {
        at += 1;
    }
    at
}

/// Where the first space is, or else the end of the text.
#[inline(always)]
fn word_end(text: &[u8]) -> usize
    ensures { result ≡ prefix_len is_in_word text.now }
{
    let mut at = 0;
    while text.len() - at >= LANES {
        let blanks = blanks(u8x16::from_slice(&text[at..]));
        if blanks != 0 {
            return at + blanks.trailing_zeros() as usize;
        }
        at += LANES;
    }
    last_word_end(text, at)
}

/// Where the first space of the first bytes of a text is, so many. A text is read up to one space after them at most, so no more
/// than twice where each line has a space.
#[inline(always)]
pub(crate) fn blank_before(text: &[u8], end: usize) -> Option<usize>
    requires { end ≤ length text.now }
    ensures { result ≡ position (λ b. b == blank) (take end text.now) }
{
    let blank = word_end(text);
    if blank < end { Some(blank) } else { None }
}
