//! Lists of files.
ghost use Rattle.std.specs.Prelude.{◌≡◌, ◌==◌, ◌+◌, ◌≤◌, ◌++◌, length, map, drop, position, IfOk, OnOk};
ghost use Rattle.std.specs.List.{prefix_len};
ghost use Rattle.std.specs.Simd.Lanes.{mask_l};
ghost use Rattle.inc_inputs.specs.Lists.{list_paths, path_on, piece_of, end_byte, is_inside, without_return};

use std::alloc::{AllocError, Global};
use std::simd::prelude::*;

/// How many bytes a vector holds.
const LANES: usize = 16;

/// What ends each path of a list.
#[derive(Clone, Copy, Debug, PartialEq, Eq)]
pub enum PathEnd {
    /// LF: the list has one path a line.
    LineFeed,
    /// NUL, as in the output of `find -print0` and `git ls-files -z`.
    Nul,
}

/// The paths in the text of a list, each as it is written. Before an LF that ends a path a CR is dropped; empty paths are ignored,
/// and after the last path the end is optional.
pub fn list_paths(alloc: Global, list: &[u8], end: PathEnd) -> Result<Vec<&[u8]>, AllocError>
    ensures { IfOk result (λ paths. map (λ p. p.now) paths.items ≡ list_paths end list.now) }
{
    // Few lists have shorter paths.
    let mut paths = Vec::with_capacity(alloc, list.len() / 32)?;
    let mut at = 0;
    while let Some(length) = first_end(&list[at..], end_byte(end)) {
        push_path(&mut paths, piece_of(end, &list[at..at + length]))?;
        at += length + 1;
    }
    push_path(&mut paths, &list[at..])?;
    Ok(paths)
}

/// The byte that ends a path.
fn end_byte(end: PathEnd) -> u8
    ensures { result ≡ end_byte end }
{
    match end {
        PathEnd::LineFeed => b'\n',
        PathEnd::Nul => 0,
    }
}

/// Where the first such byte is.
#[inline(always)]
pub(crate) fn first_end(text: &[u8], end: u8) -> Option<usize>
    ensures { result ≡ position (λ b. b == end) text.now }
{
    let at = end_of(text, end);
    if at < text.len() { Some(at) } else { None }
}

/// Where the first such byte is, or else the end of the text. Most paths are shorter than a call of `memchr` is worth.
#[inline(always)]
fn end_of(text: &[u8], end: u8) -> usize
    ensures { result ≡ prefix_len (is_inside end) text.now }
{
    let mut at = 0;
    while text.len() - at >= LANES {
        let ends = ends(u8x16::from_slice(&text[at..]), end);
        if ends != 0 {
            return at + ends.trailing_zeros() as usize;
        }
        at += LANES;
    }
    last_end(text, end, at)
}

/// The same from a place on, byte by byte.
fn last_end(text: &[u8], end: u8, at: usize) -> usize
    requires { at ≤ length text.now }
    ensures { result ≡ at + prefix_len (is_inside end) (drop at text.now) }
{
    let mut at = at;
    while at < text.len() && text[at] != end {
        at += 1;
    }
    at
}

/// Which bytes of a vector are such bytes, a bit for each.
#[inline(always)]
fn ends(v: u8x16, end: u8) -> u64
    ensures { result ≡ mask_l (map (λ b. b == end) v) }
{
    v.simd_eq(u8x16::splat(end)).to_bitmask()
}

/// What is before the end of a path, as a path.
fn piece_of(end: PathEnd, text: &[u8]) -> &[u8]
    ensures { result.now ≡ piece_of end text.now }
{
    match end {
        PathEnd::LineFeed => without_return(text),
        PathEnd::Nul => text,
    }
}

/// Adds a path, if it is not empty.
fn push_path<'a>(paths: &mut Vec<&'a [u8]>, path: &'a [u8]) -> Result<(), AllocError>
    ensures { OnOk result (map (λ p. p.now) paths.new.items ≡ map (λ p. p.now) paths.old.items
        ++ path_on path.entry.now) }
{
    if path.is_empty() {
        return Ok(());
    }
    paths.push(path)?;
    Ok(())
}

/// A line without the CR at its end.
pub(crate) fn without_return(line: &[u8]) -> &[u8]
    ensures { result.now ≡ without_return line.now }
{
    if !line.is_empty() && line[line.len() - 1] == b'\r' {
        &line[..line.len() - 1]
    } else {
        line
    }
}
