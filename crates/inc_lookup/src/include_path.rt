//! The include path as words name it.
ghost use Rattle.std.specs.Prelude.{◌≡◌, IfOk, OnOk, map};
ghost use Rattle.inc_lookup.specs.IncludePath.{and_form, before_same, dirs_after, first_form, include_dirs, is_same_form, is_unknown, known_after, named_path};
ghost use Rattle.inc_lookup.specs.Paths.{normal_form};

use crate::path_lists::PathList;
use crate::paths::normalise;
use std::alloc::{AllocError, Global};
use std::marker::Model;

/// A directory of the include path.
#[derive(Drop)]
pub struct NamedDir<'w> {
    /// As it is written.
    pub name: &'w [u8],
    /// Whether its headers are the system's.
    pub is_system: bool,
}

impl<'w> Model for NamedDir<'w> {
    ghost use Rattle.inc_lookup.specs.IncludePath.{NamedDir};

    ghost Value = { NamedDir };

    ghost view = { λ d. record { name = d.name.now; is_system = d.is_system } };
}

/// The include path as words name it.
#[derive(Drop)]
pub struct NamedPath<'w> {
    /// Its directories, in the order in which they are searched.
    pub dirs: Vec<NamedDir<'w>>,
    /// How many of them, the first, are for names between `"` alone.
    pub quoted: usize,
}

impl<'w> Model for NamedPath<'w> {
    ghost use Rattle.inc_lookup.specs.IncludePath.{NamedPath};

    ghost Value = { NamedPath };

    ghost view = { λ p. record { dirs = p.dirs.items; quoted = p.quoted } };
}

/// The include path by the words for directories of names between `"` alone, for those of one's own and for those of the system, which come
/// after them: each directory once, and one that is named as the system's and otherwise, too, among the system's, as gcc has it. The last
/// of those for names between `"` is left out where the next directory is the same. The seed is that of a table.
pub fn named_path<'w>(
    alloc: Global,
    seed: u64,
    quoted: &[&'w [u8]],
    own: &[&'w [u8]],
    system: &[&'w [u8]],
) -> Result<NamedPath<'w>, AllocError>
    ensures { IfOk result (λ path. path
        ≡ named_path (map (λ d. d.now) quoted.now) (map (λ d. d.now) own.now) (map (λ d. d.now) system.now)) }
{
    let mut others = include_dirs(alloc, seed, own, system)?;
    let quoted = before_same(alloc, &others, quoted)?;
    let mut known = PathList::rising(alloc, seed, &[], system.len());
    new_dirs(alloc, &mut known, true, system)?;
    let mut dirs = new_dirs(alloc, &mut known, false, quoted)?;
    let quoted = dirs.len();
    dirs.append(&mut others)?;
    Ok(NamedPath { dirs, quoted })
}

/// The directories for names in either form.
fn include_dirs<'w>(
    alloc: Global,
    seed: u64,
    own: &[&'w [u8]],
    system: &[&'w [u8]],
) -> Result<Vec<NamedDir<'w>>, AllocError>
    ensures { IfOk result (λ dirs. dirs.items
        ≡ include_dirs (map (λ d. d.now) own.now) (map (λ d. d.now) system.now)) }
{
    let mut known = PathList::rising(alloc, seed, &[], own.len());
    let mut last = new_dirs(alloc, &mut known, true, system)?;
    let mut dirs = new_dirs(alloc, &mut known, false, own)?;
    dirs.append(&mut last)?;
    Ok(dirs)
}

/// Words without the last one, where these directories begin with its directory.
fn before_same<'s, 'w>(
    alloc: Global,
    dirs: &[NamedDir<'w>],
    words: &'s [&'w [u8]],
) -> Result<&'s [&'w [u8]], AllocError>
    ensures { IfOk result (λ kept. map (λ w. w.now) kept.now
        ≡ before_same (first_form dirs.now) (map (λ w. w.now) words.now)) }
{
    let [next, ..] = dirs else {
        return Ok(words);
    };
    let [kept @ .., last] = words else {
        return Ok(words);
    };
    if is_same(alloc, next.name, last)? {
        Ok(kept)
    } else {
        Ok(words)
    }
}

/// Whether two paths have one normal form.
fn is_same(alloc: Global, a: &[u8], b: &[u8]) -> Result<bool, AllocError>
    ensures { IfOk result (λ same. same ≡ is_same_form (normal_form a.now) (normal_form b.now)) }
{
    let a = normalise(alloc, a)?;
    let b = normalise(alloc, b)?;
    match (a, b) {
        (Some(a), Some(b)) => Ok(a.as_slice() == b.as_slice()),
        _ => Ok(false),
    }
}

/// The directories of words of which none is known or comes before, which are known then.
fn new_dirs<'w>(
    alloc: Global,
    known: &mut PathList<'_>,
    is_system: bool,
    words: &[&'w [u8]],
) -> Result<Vec<NamedDir<'w>>, AllocError>
    ensures dirs { IfOk result (λ dirs. dirs.items ≡ dirs_after is_system known.old (map (λ w. w.now) words.now)) }
    ensures known { OnOk result (known.new ≡ known_after known.old (map (λ w. w.now) words.now)) }
{
    let mut dirs = Vec::with_capacity(alloc, words.len())?;
    let mut left = words;
    while let [name, rest @ ..] = left {
        if is_new(alloc, known, name)? {
            dirs.push(NamedDir { name, is_system })?;
        }
        left = rest;
    }
    Ok(dirs)
}

/// Whether a directory is not known so far; it is known then. A path without a normal form never is.
fn is_new(alloc: Global, known: &mut PathList<'_>, name: &[u8]) -> Result<bool, AllocError>
    ensures { IfOk result (λ is_new. (is_new ≡ is_unknown known.old (normal_form name.now))
        × (known.new ≡ and_form known.old (normal_form name.now))) }
{
    match normalise(alloc, name)? {
        Some(form) => {
            let (_, is_new) = known.insert(&form)?;
            Ok(is_new)
        }
        None => Ok(true),
    }
}
