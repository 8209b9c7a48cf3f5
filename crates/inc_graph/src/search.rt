//! Breadth-first search: a queue of the files that are reached, each with its parent step.
ghost use Rattle.std.specs.Prelude.{◌≡◌, ◌<◌, ◌≤◌, ◌++◌, length, drop, map, nat_lt, slice_get, Some, None, IfOk, IfSome, OnOk, OnErr};
ghost use Rattle.std.specs.List.{All, range_with_len};
ghost use Rattle.inc_graph.specs.Search.{IsFrom, started, with_visit, with_next, file_at, place_of, first_of, is_reached, earlier_of, path_to};
ghost use Rattle.inc_lookup.specs.declared.projects.TheConstants.{MOST_FILES};

use inc_lookup::FileId;
use std::alloc::{AllocError, Global};
use std::marker::Model;

/// The step by which a file was reached.
#[derive(Clone, Copy)]
pub struct ParentStep<S> {
    /// The step.
    pub step: S,
    /// The place in the queue of the file that it leads from.
    pub from: u16,
}

/// A file in the queue.
#[derive(Clone, Copy)]
pub struct Visit<S> {
    /// The file.
    pub file: FileId,
    /// The step by which it was reached; `None` for a start.
    pub parent: Option<ParentStep<S>>,
}

/// The files that a breadth-first search has reached, by steps of a type of the caller's.
///
/// The caller takes the places of the queue one after the other, and follows the steps from the file at each of them.
#[derive(Drop)]
pub struct Search<S> {
    /// The files that are reached, in the order in which they were.
    queue: Vec<Visit<S>>,
    /// For each file 1 plus its place in the queue, or 0 where it is not reached.
    places: Vec<u16>,
}

impl<S> Model for Search<S> {
    ghost use Rattle.std.specs.Prelude.{length};
    ghost use Rattle.inc_graph.specs.Search.{Queue, IsKept};

    ghost Value = { Queue S };

    ghost view = { λ s. record { files = length s.places.items; visits = s.queue.items } };

    ghost invariant = { λ s. IsKept s.queue.items s.places.items };
}

impl<S: Copy> Search<S> {
    /// A search of so many files that has reached the starts: they are first in the queue, in order, a file that is given twice once.
    pub fn start(alloc: Global, files: usize, starts: &[FileId]) -> Result<Search<S>, AllocError>
        requires few { files ≤ MOST_FILES }
        requires within { All (λ f. f < files) starts.now }
        ensures { IfOk result (λ search. search ≡ started files starts.now) }
    {
        let mut search = Search {
            queue: Vec::with_capacity(alloc, files)?,
            places: vec![in alloc; 0; files]?,
        };
        for start in starts {
            search.put(Visit {
                file: *start,
                parent: None,
            })?;
        }
        Ok(search)
    }

    /// Reaches a file by a step from the file at a place of the queue, unless it is reached. Where memory runs out, nothing changes.
    #[inline(always)]
    pub fn reach(&mut self, step: S, from: usize, file: FileId) -> Result<(), AllocError>
        requires from { from < length self.old.visits }
        requires file { file < self.old.files }
        ensures reached { OnOk result (self.new
            ≡ with_next from self.old (record { step = step; to = file })) }
        ensures same { OnErr result (self.new ≡ self.old) }
    {
        // A queue is short, so that a place has 16 bits.
        let _few = self.len();
        self.put(Visit {
            file,
            parent: Some(ParentStep {
                step,
                from: from as u16,
            }),
        })
    }

    /// Puts a file at the end of the queue, unless it is reached.
    #[inline(always)]
    fn put(&mut self, visit: Visit<S>) -> Result<(), AllocError>
        requires file { visit.file < self.old.files }
        requires from { IsFrom (length self.old.visits) visit }
        ensures put { OnOk result (self.new ≡ with_visit visit self.old) }
        ensures same { OnErr result (self.new ≡ self.old) }
    {
        let index = visit.file.index();
        if self.places[index] == 0 {
            self.queue.push(visit)?;
            self.places[index] = self.queue.len() as u16;
        }
        Ok(())
    }

    /// How many files are reached.
    #[inline(always)]
    pub fn len(&self) -> usize
        ensures visits { result ≡ length self.now.visits }
        ensures few { result ≤ MOST_FILES }
    {
        self.queue.len()
    }

    /// The files that are reached.
    #[inline(always)]
    pub fn visits(&self) -> &[Visit<S>]
        ensures { result.now ≡ self.now.visits }
    {
        self.queue.as_slice()
    }

    /// The file at a place of the queue.
    #[inline(always)]
    pub fn file(&self, place: usize) -> FileId
        requires { place < length self.now.visits }
        ensures { result ≡ file_at self.now.visits place }
    {
        self.queue[place].file
    }

    /// The place of a file in the queue; `None` where it is not reached.
    #[inline(always)]
    pub fn place_of(&self, file: FileId) -> Option<u32>
        requires { file < self.now.files }
        ensures { result ≡ place_of self.now file }
    {
        match self.places[file.index()] {
            0 => None,
            mark => Some(u32::from(mark) - 1),
        }
    }

    /// The place of that of the ends which was reached first; `None` where none is reached.
    pub fn first_of(&self, ends: &[FileId]) -> Option<u32>
        requires { All (λ f. f < self.now.files) ends.now }
        ensures { result ≡ first_of self.now ends.now }
    {
        let mut first = None;
        for end in ends {
            first = earlier(first, self.place_of(*end));
        }
        first
    }

    /// For each file whether it is reached.
    pub fn reached(&self, alloc: Global) -> Result<Vec<bool>, AllocError>
        ensures { IfOk result (λ reached. reached.items
            ≡ map (is_reached self.now) (range_with_len 0 self.now.files)) }
    {
        let mut reached = Vec::with_capacity(alloc, self.places.len())?;
        for place in self.places.as_slice() {
            reached.push(*place != 0)?;
        }
        Ok(reached)
    }

    /// The steps of the path to the file at a place of the queue, from its start on.
    pub fn path(&self, alloc: Global, place: usize) -> Result<Vec<S>, AllocError>
        requires { place < length self.now.visits }
        ensures { IfOk result (λ steps. steps.items ≡ path_to self.now.visits place) }
    {
        let mut steps = Vec::new(alloc);
        let mut at = place;
        while let Some(parent) = self.queue[at].parent {
            steps.push(parent.step)?;
            at = usize::from(parent.from);
        }
        steps.reverse();
        Ok(steps)
    }

    /// Puts the path to the file at a place of the queue into `steps` so that it stops at `end`, and returns where it begins.
    pub(crate) fn trace(&self, place: usize, steps: &mut Vec<S>, end: usize) -> usize
        requires place { place < length self.now.visits }
        requires room { place ≤ end }
        requires end { end ≤ length steps.old.items }
        ensures path { drop result steps.new.items
            ≡ path_to self.now.visits place ++ drop end steps.old.items }
        ensures below { result ≤ end }
        ensures long { length steps.new.items ≡ length steps.old.items }
    {
        let mut at = place;
        let mut start = end;
        while let Some(parent) = self.queue[at].parent {
            start -= 1;
            steps[start] = parent.step;
            at = usize::from(parent.from);
        }
        start
    }
}

/// The one of two places that is earlier.
fn earlier(first: Option<u32>, other: Option<u32>) -> Option<u32>
    ensures { result ≡ earlier_of first other }
{
    match (first, other) {
        (None, _) => other,
        (_, None) => first,
        (Some(a), Some(b)) => Some(a.min(b)),
    }
}
