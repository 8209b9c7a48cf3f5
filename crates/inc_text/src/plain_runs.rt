//! Bytes of a source that stand for themselves, whatever comes after them.
ghost use Rattle.std.specs.Prelude.{◌≡◌, ◌+◌, ◌≤◌, length, map, drop};
ghost use Rattle.std.specs.List.{prefix_len};
ghost use Rattle.std.specs.Simd.Lanes.{mask_l};
ghost use Rattle.inc_text.specs.Origins.{is_plain, is_special};

use std::simd::prelude::*;

/// How many bytes are tested at a time.
const LANES: usize = 32;

/// How many of the last bytes are.
const FEW_LANES: usize = 16;

/// Which bytes of a vector may begin a new-line of two bytes, a trigraph or a splice, a bit for each.
#[inline(always)]
fn specials(v: u8x32) -> u64
    ensures { result ≡ mask_l (map is_special v) }
{
    let specials = v.simd_eq(u8x32::splat(b'\r'))
        | v.simd_eq(u8x32::splat(b'?'))
        | v.simd_eq(u8x32::splat(b'\\'));
    specials.to_bitmask()
}

/// The same of a shorter vector.
#[inline(always)]
fn few_specials(v: u8x16) -> u64
    ensures { result ≡ mask_l (map is_special v) }
{
    let specials = v.simd_eq(u8x16::splat(b'\r'))
        | v.simd_eq(u8x16::splat(b'?'))
        | v.simd_eq(u8x16::splat(b'\\'));
    specials.to_bitmask()
}

/// Whether a byte begins none of these.
#[inline(always)]
fn is_plain(b: u8) -> bool
    ensures { result ≡ is_plain b }
{
    !matches!(b, b'\r' | b'?' | b'\\')
}

/// The place of the next byte that may begin one of them, byte by byte.
fn last_plain_end(bytes: &[u8], at: usize) -> usize
    requires { at ≤ length bytes.now }
    ensures { result ≡ at + prefix_len is_plain (drop at bytes.now) }
{
    let mut at = at;
    while at < bytes.len() && is_plain(bytes[at]) {
        at += 1;
    }
    at
}

/// The same where few bytes are left: most words of a command line are shorter than a long vector.
#[inline(always)]
fn few_plain_end(bytes: &[u8], at: usize) -> usize
    requires { at ≤ length bytes.now }
    ensures { result ≡ at + prefix_len is_plain (drop at bytes.now) }
{
    if bytes.len() - at < FEW_LANES {
        return last_plain_end(bytes, at);
    }
    let few = few_specials(u8x16::from_slice(&bytes[at..]));
    if few == 0 {
        last_plain_end(bytes, at + FEW_LANES)
    } else {
        at + few.trailing_zeros() as usize
    }
}

/// The place of the next byte that may begin one of them, or the end.
pub fn plain_end(bytes: &[u8], at: usize) -> usize
    requires { at ≤ length bytes.now }
    ensures end { result ≡ at + prefix_len is_plain (drop at bytes.now) }
    ensures within { result ≤ length bytes.now }
{
    let mut at = at;
    while bytes.len() - at >= LANES {
        let specials = specials(u8x32::from_slice(&bytes[at..]));
        if specials != 0 {
            return at + specials.trailing_zeros() as usize;
        }
        at += LANES;
    }
    few_plain_end(bytes, at)
}
