//! How many LFs are before a place of a text.
ghost use Rattle.std.specs.Prelude.{ℕ, ◌≡◌, ◌==◌, ◌+◌, ◌-◌, ◌<◌, ◌≤◌, length, map, take, drop, count_by, IfOk};
ghost use Rattle.std.specs.List.{prefix_len};
ghost use Rattle.std.specs.Simd.Lanes.{mask_l};
ghost use Rattle.inc_text.specs.Origins.{AreCounts};
ghost use Rattle.inc_text.specs.LineFeeds.{is_inside};
ghost use Rattle.inc_text.specs.Ascii.{line_feed};
ghost use Rattle.inc_text.specs.PhaseText.{longest_text};

use std::alloc::{AllocError, Global};
use std::simd::prelude::*;

/// How many bytes a block has: each block costs four bytes, and a look-up counts at most so many bytes.
const BLOCK: usize = 512;

/// How many bytes a vector holds.
const LANES: usize = 16;

/// Which bytes of a vector are LFs, a bit for each.
#[inline(always)]
fn line_feed_bits(v: u8x16) -> u64
    ensures { result ≡ mask_l (map (λ b. b == line_feed) v) }
{
    let line_feeds = v.simd_eq(u8x16::splat(b'\n'));
    line_feeds.to_bitmask()
}

/// How many LFs a vector has.
#[inline(always)]
fn line_feeds_of(v: u8x16) -> usize
    ensures { result ≡ count_by (λ b. b == line_feed) v }
{
    line_feed_bits(v).count_ones() as usize
}

/// How many LFs are among the first so many bytes of a vector.
#[inline(always)]
fn line_feeds_of_first(v: u8x16, len: usize) -> usize
    requires { len < 16 }
    ensures { result ≡ count_by (λ b. b == line_feed) (take len v) }
{
    (line_feed_bits(v) % (1 << len)).count_ones() as usize
}

/// How many LFs a few bytes have, byte by byte.
#[inline(always)]
fn last_line_feeds(bytes: &[u8]) -> usize
    ensures { result ≡ count_by (λ b. b == line_feed) bytes.now }
{
    let mut count = 0;
    for b in bytes {
        if *b == b'\n' {
            count += 1;
        }
    }
    count
}

/// How many LFs some bytes have.
#[inline(always)]
pub fn line_feeds(bytes: &[u8]) -> usize
    ensures { result ≡ count_by (λ b. b == line_feed) bytes.now }
{
    let mut count = 0;
    let mut at = 0;
    while bytes.len() - at >= LANES {
        count += line_feeds_of(u8x16::from_slice(&bytes[at..]));
        at += LANES;
    }
    count + last_line_feeds(&bytes[at..])
}

/// How many LFs are from one place up to another, which is often the same. The last few bytes are counted at once, wherever a vector from
/// there has room.
#[inline(always)]
pub fn line_feeds_between(bytes: &[u8], from: usize, to: usize) -> usize
    requires order { from ≤ to }
    requires within { to ≤ length bytes.now }
    ensures { result ≡ count_by (λ b. b == line_feed) (take (to - from) (drop from bytes.now)) }
{
    if from == to {
        return 0;
    }
    let mut count = 0;
    let mut at = from;
    while to - at >= LANES {
        count += line_feeds_of(u8x16::from_slice(&bytes[at..]));
        at += LANES;
    }
    count + few_line_feeds(bytes, at, to)
}

/// The same of fewer bytes than a vector holds.
#[inline(always)]
fn few_line_feeds(bytes: &[u8], from: usize, to: usize) -> usize
    requires order { from ≤ to }
    requires within { to ≤ length bytes.now }
    requires few { to - from < 16 }
    ensures { result ≡ count_by (λ b. b == line_feed) (take (to - from) (drop from bytes.now)) }
{
    if bytes.len() - from >= LANES {
        line_feeds_of_first(u8x16::from_slice(&bytes[from..]), to - from)
    } else {
        last_line_feeds(&bytes[from..to])
    }
}

/// How many bytes are up to the end of the first line, with its LF if it has one, and how many LFs these are.
#[inline(always)]
pub fn line_feeds_to_end(bytes: &[u8]) -> (usize, usize)
    ensures within { result.0 ≤ length bytes.now }
    ensures some { 0 < length bytes.now → 0 < result.0 }
    ensures count { result.1 ≡ count_by (λ b. b == line_feed) (take result.0 bytes.now) }
    ensures none { (i : ℕ) → i < result.0 → count_by (λ b. b == line_feed) (take i bytes.now) ≡ 0 }
{
    let len = line_len(bytes);
    if len < bytes.len() {
        (len + 1, 1)
    } else {
        (len, 0)
    }
}

/// How many bytes are before the first LF, or else how many there are. Most lines are shorter than a call of `memchr` is worth.
#[inline(always)]
fn line_len(bytes: &[u8]) -> usize
    ensures { result ≡ prefix_len is_inside bytes.now }
{
    let mut at = 0;
    while bytes.len() - at >= LANES {
        let line_feeds = line_feed_bits(u8x16::from_slice(&bytes[at..]));
        if line_feeds != 0 {
            return at + line_feeds.trailing_zeros() as usize;
        }
        at += LANES;
    }
    last_line_len(bytes, at)
}

/// The same from a place on, byte by byte, up to which no LF is.
fn last_line_len(bytes: &[u8], at: usize) -> usize
    requires { at ≤ length bytes.now }
    ensures { result ≡ at + prefix_len is_inside (drop at bytes.now) }
{
    let mut at = at;
    while at < bytes.len() && bytes[at] != b'\n' {
        at += 1;
    }
    at
}

/// How many LFs are before each block of a text, up to the block that the text ends in.
pub fn count_blocks(alloc: Global, bytes: &[u8]) -> Result<Vec<u32>, AllocError>
    requires { length bytes.now ≤ longest_text }
    ensures { IfOk result (λ counts. AreCounts bytes.now counts.items) }
{
    let blocks = bytes.len() / BLOCK + 1;
    let mut counts = Vec::with_capacity(alloc, blocks)?;
    let mut passed: u32 = 0;
    for block in 0..blocks {
        counts.push(passed)?;
        let start = block * BLOCK;
        let end = bytes.len().min(start + BLOCK);
        passed += line_feeds(&bytes[start..end]) as u32;
    }
    Ok(counts)
}

/// How many LFs are before a place, by the counts of the text's blocks.
pub fn line_feeds_before(bytes: &[u8], counts: &[u32], at: usize) -> usize
    requires counted { AreCounts bytes.now counts.now }
    requires within { at ≤ length bytes.now }
    ensures { result ≡ count_by (λ b. b == line_feed) (take at bytes.now) }
{
    let block = at / BLOCK;
    counts[block] as usize + line_feeds_between(bytes, block * BLOCK, at)
}

/// How many LFs are before a place, from how many are before an earlier one: by the counts of the text's blocks where that one is far.
#[inline(always)]
pub fn line_feeds_on(bytes: &[u8], counts: &[u32], from: usize, before: usize, to: usize) -> usize
    requires counted { AreCounts bytes.now counts.now }
    requires order { from ≤ to }
    requires within { to ≤ length bytes.now }
    requires known { before ≡ count_by (λ b. b == line_feed) (take from bytes.now) }
    ensures { result ≡ count_by (λ b. b == line_feed) (take to bytes.now) }
{
    if to - from > BLOCK {
        return line_feeds_before(bytes, counts, to);
    }
    before + line_feeds_between(bytes, from, to)
}
