//! Lists of paths in which no path is twice.
ghost use Rattle.std.specs.Prelude.{◌≡◌, ◌<◌, ◌≤◌, ℕ, List, [], length, map, bytes_eq, slice_index_or, position, IfOk};
ghost use Rattle.std.specs.List.{All};
ghost use Rattle.inc_lookup.specs.PathLists.{kept_forms, Rises, IsInserted};

use crate::path_keys::PathKey;
use crate::paths::kept_form;
use inc_text::{KeyRef, SeededState};
use indexmap::IndexSet;
use std::alloc::{AllocError, Global};
use std::cmp::Ordering;
use std::marker::Model;

/// Written paths of which the forms that are kept rise: each is greater than the one before it, byte by byte, as a sorted list has them. A
/// path is found by binary search, so that none of them is hashed, and none is copied.
#[derive(Drop)]
pub(crate) struct RisingPaths<'a> {
    written: &'a [&'a [u8]],
}

impl<'a> Model for RisingPaths<'a> {
    ghost use Rattle.std.specs.Prelude.{List, ℕ, map};
    ghost use Rattle.inc_lookup.specs.PathLists.{kept_forms, Rises};

    ghost Value = { List (List ℕ) };

    ghost view = { λ r. kept_forms (map (λ p. p.now) r.written.now) };

    ghost invariant = { λ r. Rises (kept_forms (map (λ p. p.now) r.written.now)) };
}

impl RisingPaths<'_> {
    /// How many paths there are.
    fn len(&self) -> usize
        ensures { result ≡ length self.now }
    {
        self.written.len()
    }

    /// The path at a place.
    fn path(&self, index: usize) -> &[u8]
        requires { index < length self.now }
        ensures { result.now ≡ slice_index_or self.now index [] }
    {
        let written = self.written;
        kept_form(written[index])
    }

    /// A number of bytes that no path passes.
    fn longest(&self) -> usize
        ensures { All (λ (p : List ℕ). length p ≤ result) self.now }
    {
        let mut longest = 0;
        for path in self.written {
            if path.len() > longest {
                longest = path.len();
            }
        }
        longest
    }

    /// The place of a path, by binary search.
    fn place(&self, path: &[u8]) -> Option<usize>
        ensures { result ≡ position (bytes_eq path.now) self.now }
    {
        // A field is read, so that the proof knows that the paths rise.
        let _rising = self.written.len();
        let mut low = 0;
        let mut high = self.len();
        while low < high {
            let middle = low + (high - low) / 2;
            match self.path(middle).cmp(path) {
                Ordering::Less => low = middle + 1,
                Ordering::Greater => high = middle,
                Ordering::Equal => return Some(middle),
            }
        }
        None
    }

    /// The same paths in a table, which takes paths in any order. It has room for so many.
    fn table(
        &self,
        alloc: Global,
        keys: SeededState,
        room: usize,
    ) -> Result<IndexSet<PathKey, SeededState>, AllocError>
        ensures { IfOk result (λ table. table.keys ≡ self.now) }
    {
        // A field is read, so that the proof knows that the paths rise.
        let _rising = self.written.len();
        let mut table = IndexSet::with_capacity_and_hasher(alloc, room, keys)?;
        for index in 0..self.len() {
            insert_key(&mut table, alloc, self.path(index))?;
        }
        Ok(table)
    }
}

/// How paths are kept.
#[derive(Drop)]
enum Kept<'a> {
    Rising(RisingPaths<'a>),
    Table(IndexSet<PathKey, SeededState>),
}

/// The paths of files, in list order. As long as each is greater than the one before it, they are kept as a sorted list has them, which
/// takes no memory: each is its own normal form, or has that after a `./`. Else all are in one hash set, in which a path of up to 16 bytes
/// lies in the set itself.
#[derive(Drop)]
pub(crate) struct PathList<'a> {
    kept: Kept<'a>,
    alloc: Global,
    keys: SeededState,
    /// How many paths there may be.
    room: usize,
}

impl<'a> Model for PathList<'a> {
    ghost use Rattle.std.specs.Prelude.{List, ℕ};
    ghost use Rattle.inc_lookup.specs.PathViews.{paths_of};

    ghost Value = { List (List ℕ) };

    ghost view = { λ p. paths_of p.kept };
}

impl<'a> PathList<'a> {
    /// The kept forms of paths, which rise, with room for so many. The seed is that of the table.
    pub(crate) fn rising(
        alloc: Global,
        seed: u64,
        written: &'a [&'a [u8]],
        room: usize,
    ) -> PathList<'a>
        requires { Rises (kept_forms (map (λ p. p.now) written.now)) }
        ensures { result ≡ kept_forms (map (λ p. p.now) written.now) }
    {
        PathList {
            kept: Kept::Rising(RisingPaths { written }),
            alloc,
            keys: SeededState::new(seed),
            room,
        }
    }

    /// How many paths there are.
    pub(crate) fn len(&self) -> usize
        ensures { result ≡ length self.now }
    {
        match &self.kept {
            Kept::Rising(rising) => rising.len(),
            Kept::Table(table) => table.len(),
        }
    }

    /// The path at a place.
    pub(crate) fn path(&self, index: usize) -> &[u8]
        requires { index < length self.now }
        ensures { result.now ≡ slice_index_or self.now index [] }
    {
        match &self.kept {
            Kept::Rising(rising) => rising.path(index),
            Kept::Table(table) => key_at(table, index),
        }
    }

    /// A number of bytes that no path passes.
    pub(crate) fn longest(&self) -> usize
        ensures { All (λ (p : List ℕ). length p ≤ result) self.now }
    {
        match &self.kept {
            Kept::Rising(rising) => rising.longest(),
            Kept::Table(table) => longest_key(table),
        }
    }

    /// The place of a path.
    pub(crate) fn place(&self, path: &[u8]) -> Option<usize>
        ensures { result ≡ position (bytes_eq path.now) self.now }
    {
        match &self.kept {
            Kept::Rising(rising) => rising.place(path),
            Kept::Table(table) => table.get_index_of(KeyRef { bytes: path }),
        }
    }

    /// Adds a path to the table, unless it is there, and gives its place and whether it was added. Paths that rise go into a table first.
    pub(crate) fn insert(&mut self, path: &[u8]) -> Result<(usize, bool), AllocError>
        ensures { IfOk result (λ r. IsInserted self.old path.now r.0 r.1 self.new) }
    {
        match &mut self.kept {
            Kept::Table(table) => insert_key(table, self.alloc, path),
            Kept::Rising(rising) => {
                let mut table = rising.table(self.alloc, self.keys, self.room)?;
                let found = insert_key(&mut table, self.alloc, path)?;
                self.kept = Kept::Table(table);
                Ok(found)
            }
        }
    }
}

/// The path at a place of a table.
fn key_at(table: &IndexSet<PathKey, SeededState>, index: usize) -> &[u8]
    requires { index < length table.now.keys }
    ensures { result.now ≡ slice_index_or table.now.keys index [] }
{
    table.as_slice()[index].bytes()
}

/// A number of bytes that no path of a table passes.
fn longest_key(table: &IndexSet<PathKey, SeededState>) -> usize
    ensures { All (λ (p : List ℕ). length p ≤ result) table.now.keys }
{
    let mut longest = 0;
    for index in 0..table.len() {
        let length = key_at(table, index).len();
        if length > longest {
            longest = length;
        }
    }
    longest
}

/// Adds a path to a table, unless it is there, and gives its place and whether it was added.
fn insert_key(
    table: &mut IndexSet<PathKey, SeededState>,
    alloc: Global,
    path: &[u8],
) -> Result<(usize, bool), AllocError>
    ensures { IfOk result (λ r. IsInserted table.old.keys path.now r.0 r.1 table.new.keys) }
{
    let key = PathKey::copied(alloc, path)?;
    let found = table.insert_full(key)?;
    Ok(found)
}
