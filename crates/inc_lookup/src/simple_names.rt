//! Simple names: no component is empty or begins with `.`, and no byte is NUL or LF. One look at each byte shows it, sixteen bytes at a
//! time; of a path in a sorted list only the bytes are looked at that it does not share with the one before.
ghost use Rattle.std.specs.Prelude.{ℕ, ◌≡◌, ◌+◌, ◌<◌, ◌≤◌, true, false, length, slice_index};
ghost use Rattle.std.specs.Simd.Lanes.{mask_l, zip2};
ghost use Rattle.inc_lookup.specs.SimpleNames.{breaks, is_simple, GoesOn};

use std::simd::prelude::*;

/// How many bytes are tested at a time.
const LANES: usize = 16;

/// Whether a name is simple.
pub(crate) fn is_simple(name: &[u8]) -> bool
    ensures { result ≡ true → is_simple name.now ≡ true }
{
    if name.is_empty() {
        return false;
    }
    if breaks(b'/', name[0]) {
        return false;
    }
    goes_on(name, 0)
}

/// Whether the bytes after a place are those of a simple name. The last vector lies over the one before it, so that no byte of a longer name is
/// tested alone.
pub(crate) fn goes_on(name: &[u8], from: usize) -> bool
    requires { from < length name.now }
    ensures { result ≡ true → GoesOn name.now from }
{
    if name[name.len() - 1] == b'/' {
        return false;
    }
    if name.len() <= LANES {
        return goes_on_by_bytes(name, from);
    }
    let last = name.len() - LANES - 1;
    let mut at = from;
    while at < last {
        if has_break(name, at) {
            return false;
        }
        at += LANES;
    }
    !has_break(name, last)
}

/// The same, byte by byte, of all bytes after a place.
fn goes_on_by_bytes(name: &[u8], from: usize) -> bool
    requires { from < length name.now }
    ensures { result ≡ true → (k : ℕ) → from ≤ k → k + 1 < length name.now →
        breaks (slice_index name.now k) (slice_index name.now (k + 1)) ≡ false }
{
    let mut at = from;
    while at < name.len() - 1 {
        if breaks(name[at], name[at + 1]) {
            return false;
        }
        at += 1;
    }
    true
}

/// Whether no simple name has this byte after the one before it.
#[inline(always)]
fn breaks(before: u8, b: u8) -> bool
    ensures { result ≡ breaks before b }
{
    b == 0 || b == b'\n' || before == b'/' && (b == b'/' || b == b'.')
}

/// Whether one of the bytes of a vector after a place is such a byte.
#[inline(always)]
fn has_break(name: &[u8], at: usize) -> bool
    requires { at + 17 ≤ length name.now }
    ensures { result ≡ false → (k : ℕ) → at ≤ k → k < at + 16 →
        breaks (slice_index name.now k) (slice_index name.now (k + 1)) ≡ false }
{
    let before = u8x16::from_slice(&name[at..]);
    let bytes = u8x16::from_slice(&name[at + 1..]);
    let breaks = breaks_of(before, bytes);
    breaks != 0
}

/// Which bytes of a vector are such bytes, a bit for each; the other vector has those before them.
#[inline(always)]
fn breaks_of(before: u8x16, bytes: u8x16) -> u64
    ensures { result ≡ mask_l (zip2 breaks before bytes) }
{
    let ends = bytes.simd_eq(u8x16::splat(0)) | bytes.simd_eq(u8x16::splat(b'\n'));
    let starts = bytes.simd_eq(u8x16::splat(b'/')) | bytes.simd_eq(u8x16::splat(b'.'));
    let slashes = before.simd_eq(u8x16::splat(b'/'));
    (ends | slashes & starts).to_bitmask()
}
