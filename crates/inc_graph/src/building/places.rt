//! The files that the search of the closure has reached, each as it was found.
ghost use Rattle.std.specs.Prelude.{◌≡◌, ◌<◌, ◌^◌, [], ◌∷◌, ◌++◌, Contains, length, map, slice_get, IfOk, OnOk, Some, IsTrue};
ghost use Rattle.std.specs.List.{All};
ghost use Rattle.inc_graph.specs.IncludeGraph.{as_source};
ghost use Rattle.inc_graph.specs.Places.{next_of, seen_place, Reaches};

use inc_lookup::{FileId, Found};
use std::alloc::{AllocError, Global};
use std::marker::Model;

/// A file as it was found.
#[derive(Clone, Copy)]
struct Place {
    file: FileId,
    /// 1 plus the directory of the include path with which an `#include_next` in the file begins; 0 where it looks as an `#include` does.
    mark: u32,
}

/// A place of the queue, by its mark.
#[derive(Clone, Copy)]
struct Further {
    mark: u32,
    index: u32,
}

/// Where the places of a file are in the queue.
#[derive(Clone, Copy)]
struct OfFile {
    /// 1 plus that of the first, or 0 where there is none.
    first: u32,
    /// 1 plus the place of the list of the others, or 0 where there is none.
    others: u32,
}

/// The places that a search has reached, each once, in the order in which it did.
///
/// A file is mostly found in one or two ways. Its first place is looked up without a search, and its others in a list by their marks. A
/// file has at most two places more than there are directories; to put the others of one file into their list moves at most 8 bytes for
/// each two of them, and nothing where they come in the order of the directories.
#[derive(Drop)]
pub(crate) struct Places {
    queue: Vec<Place>,
    /// For each file of the project.
    files: Vec<OfFile>,
    lists: Vec<Vec<Further>>,
}

impl Model for Places {
    ghost use Rattle.std.specs.Prelude.{◌<◌, ◌^◌, length, map};
    ghost use Rattle.std.specs.List.{All};
    ghost use Rattle.inc_graph.specs.Places.{Reached, AreKept, seen_place};

    ghost Value = { Reached };

    ghost view = { λ p. record { files = length p.files.items; found = map seen_place p.queue.items } };

    ghost invariant = { λ p. AreKept (length p.files.items) p.queue.items };
}

impl Places {
    /// Of so many files the sources are reached.
    pub(crate) fn start(
        alloc: Global,
        files: usize,
        sources: &[FileId],
    ) -> Result<Places, AllocError>
        requires { All (λ f. f < files) sources.now }
        ensures files { IfOk result (λ places. places.files ≡ files) }
        ensures found { IfOk result (λ places. Reaches [] (map as_source sources.now) places.found) }
    {
        let none = OfFile {
            first: 0,
            others: 0,
        };
        let mut places = Places {
            queue: Vec::new(alloc),
            files: vec![in alloc; none; files]?,
            lists: Vec::new(alloc),
        };
        for source in sources {
            let found = Found {
                file: *source,
                next: None,
            };
            places.reach(alloc, &found)?;
        }
        Ok(places)
    }

    /// Reaches a file that is found so, unless it is reached.
    pub(crate) fn reach(&mut self, alloc: Global, found: &Found) -> Result<(), AllocError>
        requires { found.now.file < self.old.files }
        ensures files { OnOk result (self.new.files ≡ self.old.files) }
        ensures reached { OnOk result (Reaches self.old.found (found.now ∷ []) self.new.found) }
    {
        let mark = mark_of(found.next)?;
        let of = self.files[found.file.index()];
        if is_at(&self.queue, of.first, found.file, mark) {
            return Ok(());
        }
        if self.is_further(of.others, found.file, mark) {
            return Ok(());
        }
        self.put(alloc, found.file, mark, of)?;
        Ok(())
    }

    /// Whether a place of the queue is in a list of further ones.
    fn is_further(&self, list: u32, file: FileId, mark: u32) -> bool
        ensures { IsTrue result → Contains self.now.found (record { file = file; next = next_of mark }) }
    {
        let Some(others) = self.lists.get((list as usize).wrapping_sub(1)) else {
            return false;
        };
        let at = others.partition_point(|f| f.mark < mark);
        match others.get(at) {
            Some(f) => is_at(&self.queue, f.index, file, mark),
            None => false,
        }
    }

    /// Puts a place at the end of the queue, and where it is found by its file.
    fn put(&mut self, alloc: Global, file: FileId, mark: u32, of: OfFile) -> Result<(), AllocError>
        requires { file < self.old.files }
        ensures files { OnOk result (self.new.files ≡ self.old.files) }
        ensures put { OnOk result (self.new.found
            ≡ self.old.found ++ record { file = file; next = next_of mark } ∷ []) }
    {
        if self.queue.len() >= u32::MAX as usize {
            return Err(AllocError);
        }
        self.queue.push(Place { file, mark })?;
        let index = self.queue.len() as u32;
        if of.first == 0 {
            self.files[file.index()] = OfFile {
                first: index,
                others: of.others,
            };
            return Ok(());
        }
        self.put_further(alloc, file, of, Further { mark, index })
    }

    /// Puts a further place of a file into the list of those.
    fn put_further(
        &mut self,
        alloc: Global,
        file: FileId,
        of: OfFile,
        further: Further,
    ) -> Result<(), AllocError>
        requires { file < self.old.files }
        ensures { OnOk result (self.new ≡ self.old) }
    {
        if let Some(others) = self.lists.get_mut((of.others as usize).wrapping_sub(1)) {
            let at = others.partition_point(|f| f.mark < further.mark);
            others.insert(at, further)?;
            return Ok(());
        }
        let mut others = Vec::new(alloc);
        others.push(further)?;
        self.lists.push(others)?;
        let Ok(list) = u32::try_from(self.lists.len()) else {
            return Err(AllocError);
        };
        self.files[file.index()] = OfFile {
            first: of.first,
            others: list,
        };
        Ok(())
    }

    /// How many places are reached.
    pub(crate) fn len(&self) -> usize
        ensures count { result ≡ length self.now.found }
        ensures few { result < 2 ^ 32 }
    {
        self.queue.len()
    }

    /// The file at a place of the queue, as it was found.
    pub(crate) fn at(&self, index: usize) -> Found
        requires { index < length self.now.found }
        ensures at { slice_get self.now.found index ≡ Some result }
        ensures within { result.file < self.now.files }
    {
        let place = self.queue[index];
        Found {
            file: place.file,
            next: next_of(place.mark),
        }
    }
}

/// Whether a file is in the queue with this mark, where 1 plus its place there may be this.
fn is_at(queue: &[Place], at: u32, file: FileId, mark: u32) -> bool
    ensures { IsTrue result → Contains (map seen_place queue.now) (record { file = file; next = next_of mark }) }
{
    match queue.get((at as usize).wrapping_sub(1)) {
        Some(other) => other.file == file && other.mark == mark,
        None => false,
    }
}

/// The mark of a place.
fn mark_of(next: Option<usize>) -> Result<u32, AllocError>
    ensures { IfOk result (λ mark. next_of mark ≡ next) }
{
    match next {
        None => Ok(0),
        Some(k) if k < u32::MAX as usize => Ok(k as u32 + 1),
        Some(_) => Err(AllocError),
    }
}

/// What a mark stands for.
fn next_of(mark: u32) -> Option<usize>
    ensures { result ≡ next_of mark }
{
    if mark == 0 {
        None
    } else {
        Some(mark as usize - 1)
    }
}
