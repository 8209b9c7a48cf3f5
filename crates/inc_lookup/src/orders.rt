//! Which of two paths is less, byte by byte.
ghost use Rattle.std.specs.Prelude.{ℕ, ◌≡◌, ◌==◌, ◌<◌, ◌≤◌, not, length};
ghost use Rattle.std.specs.Simd.Lanes.{mask_l, zip2};
ghost use Rattle.inc_lookup.specs.PathLists.{is_before, IsCommon, AreShared};

use std::simd::prelude::*;

/// How many bytes are compared at a time.
const LANES: usize = 16;

/// Whether a path is less than another. Paths of a list that follow one another have much in common.
#[inline(always)]
pub(crate) fn is_before(path: &[u8], other: &[u8]) -> bool
    ensures { result ≡ is_before path.now other.now }
{
    let common = shared_len(path, other);
    is_less_after(path, other, common)
}

/// How many of their first bytes two paths have in common.
#[inline(always)]
pub(crate) fn shared_len(path: &[u8], other: &[u8]) -> usize
    ensures { AreShared path.now other.now result }
{
    let both = shorter_len(path, other);
    common_len(path, other, both)
}

/// Whether a path is less than another, by what comes after the bytes that they have in common.
#[inline(always)]
pub(crate) fn is_less_after(path: &[u8], other: &[u8], common: usize) -> bool
    requires { AreShared path.now other.now common }
    ensures { result ≡ is_before path.now other.now }
{
    if common == path.len() {
        return common < other.len();
    }
    if common == other.len() {
        return false;
    }
    path[common] < other[common]
}

/// How many bytes the shorter of two paths has.
#[inline(always)]
fn shorter_len(path: &[u8], other: &[u8]) -> usize
    ensures left { result ≤ length path.now }
    ensures right { result ≤ length other.now }
    ensures shorter { (k : ℕ) → k < length path.now → k < length other.now → k < result }
{
    if path.len() < other.len() {
        path.len()
    } else {
        other.len()
    }
}

/// How many of their first bytes two paths have in common, of so many. The last vector lies over the one before it.
#[inline(always)]
fn common_len(path: &[u8], other: &[u8], both: usize) -> usize
    requires left { both ≤ length path.now }
    requires right { both ≤ length other.now }
    ensures { IsCommon path.now other.now both result }
{
    if both < LANES {
        return common_by_bytes(path, other, both);
    }
    let last = both - LANES;
    let mut at = 0;
    while at < last {
        let differ = differing(
            u8x16::from_slice(&path[at..]),
            u8x16::from_slice(&other[at..]),
        );
        if differ != 0 {
            return at + differ.trailing_zeros() as usize;
        }
        at += LANES;
    }
    let rest = differing(
        u8x16::from_slice(&path[last..]),
        u8x16::from_slice(&other[last..]),
    );
    if rest != 0 {
        return last + rest.trailing_zeros() as usize;
    }
    both
}

/// The same, byte by byte.
fn common_by_bytes(path: &[u8], other: &[u8], both: usize) -> usize
    requires left { both ≤ length path.now }
    requires right { both ≤ length other.now }
    ensures { IsCommon path.now other.now both result }
{
    let mut at = 0;
    while at < both && path[at] == other[at] {
        at += 1;
    }
    at
}

/// Which bytes of two vectors differ, a bit for each.
#[inline(always)]
fn differing(v: u8x16, w: u8x16) -> u64
    ensures { result ≡ mask_l (zip2 (λ x y. not (x == y)) v w) }
{
    v.simd_ne(w).to_bitmask()
}
