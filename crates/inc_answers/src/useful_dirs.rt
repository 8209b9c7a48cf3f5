//! The directories with which most of the headers would be found that are not.
//!
//! Each path of the project is gone through once, and what stands behind each of its `/` is looked for in a table of the names, unless it is
//! longer than [`LONGEST_NAME`]. So the time is in proportion to the bytes of the paths and of the names.
ghost use Rattle.std.specs.Prelude.{◌≡◌, ◌<◌, ◌++◌, ℕ, List, [], Some, bytes_eq, drop, length, slice_get, slice_index_or, suc, unwrap_or, IfOk, OnOk};
ghost use Rattle.std.specs.Map.{lookup};
ghost use Rattle.inc_lookup.specs.Projects.{path_at, with_path};
ghost use Rattle.inc_answers.specs.MissingNotes.{best_lines, dir_line, useful_line, useful_note};
ghost use Rattle.inc_answers.specs.UsefulDirs.{all_names, best_of, is_among, is_split, none, with_best, with_dir, with_file, with_files, with_rest, with_split, with_whole};
ghost use Rattle.inc_answers.specs.UsefulViews.{seen_best, seen_useful};

use crate::missing_notes::{put_number, put_shown};
use inc_graph::MissingList;
use inc_lookup::Project;
use inc_text::{Key, KeyRef, SeededState};
use indexmap::{IndexMap, IndexSet};
use std::alloc::{AllocError, Global};

/// With how many names a directory is noted at least.
const LEAST_FOUND: usize = 3;

/// How many bytes a name has at most that is looked for.
const LONGEST_NAME: usize = 256;

/// A directory, and how many names are found with it.
#[derive(Clone, Copy)]
pub struct UsefulDir<'d> {
    pub dir: &'d [u8],
    pub count: usize,
}

/// The three directories with which most names are found; one with which none is found is none.
#[derive(Clone, Copy)]
pub struct BestDirs<'d> {
    pub first: UsefulDir<'d>,
    pub second: UsefulDir<'d>,
    pub third: UsefulDir<'d>,
}

/// Adds a line on each of the best directories, if enough of these headers would be found with it.
pub fn put_useful(
    text: &mut Vec<u8>,
    alloc: Global,
    project: &Project<'_>,
    missing: &MissingList,
) -> Result<(), AllocError>
    ensures { OnOk result (text.new.items ≡ text.old.items ++ useful_note project.now.paths missing.now) }
{
    let names = names_of(alloc, project.seed(), missing)?;
    let counts = counts_of(alloc, project, &names)?;
    put_best(text, best_of(&counts))
}

/// The names of these directives.
fn names_of(
    alloc: Global,
    seed: u64,
    missing: &MissingList,
) -> Result<IndexSet<Key, SeededState>, AllocError>
    ensures { IfOk result (λ names. names.keys ≡ all_names [] missing.now) }
{
    let mut names = IndexSet::with_hasher(alloc, SeededState::new(seed));
    for place in 0..missing.len() {
        add_name(alloc, &mut names, missing.at(place).header.name)?;
    }
    Ok(names)
}

/// Adds a name, unless it is there.
fn add_name(
    alloc: Global,
    names: &mut IndexSet<Key, SeededState>,
    name: &[u8],
) -> Result<(), AllocError>
    ensures { OnOk result (names.new.keys ≡ with_path names.old.keys name.now) }
{
    let key = Key::copied(alloc, name)?;
    names.insert(key)?;
    Ok(())
}

/// The directories with which names are found as files of the project.
fn counts_of(
    alloc: Global,
    project: &Project<'_>,
    names: &IndexSet<Key, SeededState>,
) -> Result<IndexMap<Key, usize, SeededState>, AllocError>
    ensures { IfOk result (λ counts. counts.entries ≡ with_files names.now.keys [] project.now.paths) }
{
    let mut counts = IndexMap::with_hasher(alloc, SeededState::new(project.seed()));
    for place in 0..project.count() {
        count_at(alloc, &mut counts, names, project, place)?;
    }
    Ok(counts)
}

/// Counts those with which names are found as the file at a place.
fn count_at(
    alloc: Global,
    counts: &mut IndexMap<Key, usize, SeededState>,
    names: &IndexSet<Key, SeededState>,
    project: &Project<'_>,
    place: usize,
) -> Result<(), AllocError>
    requires { place < length project.now.paths }
    ensures { OnOk result (counts.new.entries ≡ with_file names.now.keys counts.old.entries (path_at project.now place)) }
{
    match project.at(place) {
        Some(file) => count_file(alloc, counts, names, project.path(file)),
        None => unreachable!(),
    }
}

/// Counts those with which names are found as the file with this path.
fn count_file(
    alloc: Global,
    counts: &mut IndexMap<Key, usize, SeededState>,
    names: &IndexSet<Key, SeededState>,
    path: &[u8],
) -> Result<(), AllocError>
    ensures { OnOk result (counts.new.entries ≡ with_file names.now.keys counts.old.entries path.now) }
{
    count_whole(alloc, counts, names, path)?;
    count_rest(alloc, counts, names, path)
}

/// Counts the folder of the run, if the path is a name that is looked for.
fn count_whole(
    alloc: Global,
    counts: &mut IndexMap<Key, usize, SeededState>,
    names: &IndexSet<Key, SeededState>,
    path: &[u8],
) -> Result<(), AllocError>
    ensures { OnOk result (counts.new.entries ≡ with_whole names.now.keys path.now counts.old.entries) }
{
    if is_among(names, path) {
        return count_dir(alloc, counts, b".");
    }
    Ok(())
}

/// Counts the directories in front of names that the path ends with.
fn count_rest(
    alloc: Global,
    counts: &mut IndexMap<Key, usize, SeededState>,
    names: &IndexSet<Key, SeededState>,
    path: &[u8],
) -> Result<(), AllocError>
    ensures { OnOk result (counts.new.entries ≡ with_rest names.now.keys path.now 0 counts.old.entries path.now) }
{
    for at in 0..path.len() {
        count_split(alloc, counts, names, path, at)?;
    }
    Ok(())
}

/// Counts the directory in front of the byte at a place, if a name follows it.
fn count_split(
    alloc: Global,
    counts: &mut IndexMap<Key, usize, SeededState>,
    names: &IndexSet<Key, SeededState>,
    path: &[u8],
    at: usize,
) -> Result<(), AllocError>
    requires { at < length path.now }
    ensures { OnOk result (counts.new.entries
        ≡ with_split names.now.keys path.now at (slice_index_or path.now at 0) (drop (suc at) path.now) counts.old.entries) }
{
    if is_split(names, at, path[at], &path[at + 1..]) {
        return count_dir(alloc, counts, &path[..at]);
    }
    Ok(())
}

/// Whether the byte at a place of a path is a `/` behind others, and what follows it is one of these names.
fn is_split(names: &IndexSet<Key, SeededState>, at: usize, byte: u8, rest: &[u8]) -> bool
    ensures { result ≡ is_split names.now.keys at byte rest.now }
{
    at > 0 && byte == b'/' && is_among(names, rest)
}

/// Whether a name is one of these, and not too long to be looked for.
fn is_among(names: &IndexSet<Key, SeededState>, name: &[u8]) -> bool
    ensures { result ≡ is_among names.now.keys name.now }
{
    name.len() <= LONGEST_NAME && names.contains(KeyRef { bytes: name })
}

/// Counts a directory once more.
fn count_dir(
    alloc: Global,
    counts: &mut IndexMap<Key, usize, SeededState>,
    dir: &[u8],
) -> Result<(), AllocError>
    ensures { OnOk result (counts.new.entries ≡ with_dir counts.old.entries dir.now) }
{
    let number = next_count(counts, dir)?;
    let key = Key::copied(alloc, dir)?;
    counts.insert(key, number)?;
    Ok(())
}

/// How often a directory is counted, and once more.
fn next_count(counts: &IndexMap<Key, usize, SeededState>, dir: &[u8]) -> Result<usize, AllocError>
    ensures { IfOk result (λ n. n ≡ suc (unwrap_or (lookup (bytes_eq dir.now) counts.now.entries) 0)) }
{
    match counts.get(KeyRef { bytes: dir }) {
        Some(number) => one_more(*number),
        None => Ok(1),
    }
}

/// The next number. No directory is counted as often as there are numbers.
fn one_more(number: usize) -> Result<usize, AllocError>
    ensures { IfOk result (λ next. next ≡ suc number) }
{
    match number.checked_add(1) {
        Some(next) => Ok(next),
        None => Err(AllocError),
    }
}

/// The best of these.
fn best_of(counts: &IndexMap<Key, usize, SeededState>) -> BestDirs<'_>
    ensures { seen_best result ≡ best_of none counts.entry.now.entries }
{
    let mut best = BestDirs::none();
    for at in 0..counts.len() {
        best = best.with_at(counts, at);
    }
    best
}

impl<'d> UsefulDir<'d> {
    /// None.
    fn none() -> UsefulDir<'d>
        ensures { seen_useful result ≡ ([], 0) }
    {
        UsefulDir { dir: &[], count: 0 }
    }
}

impl<'d> BestDirs<'d> {
    /// None.
    fn none() -> BestDirs<'d>
        ensures { seen_best result ≡ none }
    {
        BestDirs {
            first: UsefulDir::none(),
            second: UsefulDir::none(),
            third: UsefulDir::none(),
        }
    }

    /// The best of these and of that at a place.
    fn with_at(self, counts: &'d IndexMap<Key, usize, SeededState>, at: usize) -> BestDirs<'d>
        ensures { (d : List ℕ × ℕ) → slice_get counts.entry.now.entries at ≡ Some d →
            seen_best result ≡ with_best (seen_best self.entry) d }
    {
        match counts.get_index(at) {
            Some((dir, count)) => self.with(UsefulDir {
                dir: dir.bytes(),
                count: *count,
            }),
            None => self,
        }
    }

    /// The best of these and of one more, which goes behind those that are as good.
    fn with(self, dir: UsefulDir<'d>) -> BestDirs<'d>
        ensures { seen_best result ≡ with_best (seen_best self.entry) (seen_useful dir.entry) }
    {
        let BestDirs {
            first,
            second,
            third,
        } = self;
        if first.count < dir.count {
            return BestDirs {
                first: dir,
                second: first,
                third: second,
            };
        }
        if second.count < dir.count {
            return BestDirs {
                first,
                second: dir,
                third: second,
            };
        }
        if third.count < dir.count {
            return BestDirs {
                first,
                second,
                third: dir,
            };
        }
        self
    }
}

/// Adds a line on each of these with which enough names are found.
fn put_best(text: &mut Vec<u8>, best: BestDirs<'_>) -> Result<(), AllocError>
    ensures { OnOk result (text.new.items ≡ text.old.items ++ best_lines (seen_best best.entry)) }
{
    put_dir(text, best.first)?;
    put_dir(text, best.second)?;
    put_dir(text, best.third)
}

/// Adds a line on a directory, if enough names are found with it.
fn put_dir(text: &mut Vec<u8>, dir: UsefulDir<'_>) -> Result<(), AllocError>
    ensures { OnOk result (text.new.items ≡ text.old.items ++ useful_line (seen_useful dir.entry)) }
{
    if dir.count < LEAST_FOUND {
        return Ok(());
    }
    put_dir_line(text, dir.dir, dir.count)
}

/// Adds that line.
fn put_dir_line(text: &mut Vec<u8>, dir: &[u8], count: usize) -> Result<(), AllocError>
    ensures { OnOk result (text.new.items ≡ text.old.items ++ dir_line dir.now count) }
{
    text.extend_from_slice(b"incut: note: ")?;
    text.extend_from_slice(b"-I ")?;
    put_shown(text, dir)?;
    text.extend_from_slice(b" would find ")?;
    put_number(text, count as u64)?;
    text.extend_from_slice(b" of the missing headers")?;
    text.push(b'\n')?;
    Ok(())
}
