//! The `#include_next` directives of the files that are read: what each finds in an include path depends on how its file was found there.
ghost use Rattle.std.specs.Prelude.{◌≡◌, ◌<◌, ◌≤◌, None, Some, length, option_map, replicate, slice_index_or, IfOk, OnOk};
ghost use Rattle.std.specs.List.{slice_set};
ghost use Rattle.inc_graph.specs.Nexts.{next_at, next_found, hits_from, is_past};

use crate::building::lookups::Lookup;
use crate::header_names::HeaderName;
use inc_lookup::{FileId, Form, Found};
use std::alloc::{AllocError, Global};
use std::marker::Model;

/// An `#include_next` of a file. It is looked up once: where its file is found in many ways, each takes the time of a logarithm.
#[derive(Drop)]
pub(crate) struct Next {
    /// Its place among the include directives of its file.
    index: usize,
    /// What it finds where its file looks as an `#include` does.
    alone: Option<Found>,
    /// What it finds in the directories of the include path, in their order: at most one for each.
    hits: Vec<Found>,
}

impl Model for Next {
    ghost use Rattle.inc_graph.specs.Nexts as spec;
    ghost use Rattle.inc_graph.specs.Nexts.{AreRising};

    ghost Value = { spec.Next };

    ghost view = { λ n. record { index = n.index; alone = n.alone; hits = n.hits.items } };

    ghost invariant = { λ n. AreRising n.hits.items };
}

impl Next {
    /// The one at this place of a file, with this header.
    pub(crate) fn new(
        alloc: Global,
        lookup: &Lookup<'_>,
        file: FileId,
        index: usize,
        header: HeaderName<'_>,
    ) -> Result<Next, AllocError>
        requires { file < length lookup.now.paths }
        ensures { IfOk result (λ next. next
            ≡ next_at lookup.now file index header.entry.form header.entry.name.now) }
    {
        let HeaderName { form, name } = header;
        let alone = lookup.find_from(alloc, file, form, None, name)?;
        let hits = hits_of(alloc, lookup, file, form, name)?;
        Ok(Next { index, alone, hits })
    }

    /// Its place among the include directives of its file.
    pub(crate) fn index(&self) -> usize
        ensures { result ≡ self.now.index }
    {
        self.index
    }

    /// What it finds where its file goes on with this directory of the include path, or looks as an `#include` does.
    pub(crate) fn find(&self, next: Option<usize>) -> Option<Found>
        ensures { result ≡ next_found self.now next }
    {
        let Some(first) = next else {
            return self.alone;
        };
        let past = self.hits.partition_point(|hit| is_past(hit, first));
        match self.hits.get(past) {
            Some(hit) => Some(*hit),
            None => None,
        }
    }
}

/// Whether it was found in a directory before this one.
fn is_past(hit: &Found, first: usize) -> bool
    ensures { result ≡ is_past first hit.now }
{
    match hit.next {
        Some(next) => next <= first,
        None => false,
    }
}

/// What is found of a name in the directories of the include path, in their order: each of them is looked at once.
fn hits_of(
    alloc: Global,
    lookup: &Lookup<'_>,
    file: FileId,
    form: Form,
    name: &[u8],
) -> Result<Vec<Found>, AllocError>
    requires { file < length lookup.now.paths }
    ensures { IfOk result (λ hits. hits.items ≡ hits_from lookup.now name.now 0) }
{
    let mut hits = Vec::new(alloc);
    let mut left = Some(0);
    while let Some(first) = left {
        match lookup.find_from(alloc, file, form, Some(first), name)? {
            Some(found) => {
                left = found.next;
                hits.push(found)?;
            }
            None => left = None,
        }
    }
    Ok(hits)
}

/// The `#include_next` directives of each file whose directives were looked up in an include path.
#[derive(Drop)]
pub(crate) struct NextLists {
    /// For each file of the project 1 plus the place of its list, or 0 where it has none.
    places: Vec<u32>,
    lists: Vec<Vec<Next>>,
}

impl Model for NextLists {
    ghost use Rattle.std.specs.Prelude.{◌≤◌, List, Option, length};
    ghost use Rattle.std.specs.List.{All};
    ghost use Rattle.inc_graph.specs.Nexts.{Next, lists_at};

    ghost Value = { List (Option (List Next)) };

    ghost view = { λ n. lists_at n.lists.items n.places.items };

    ghost invariant = { λ n. All (λ k. k ≤ length n.lists.items) n.places.items };
}

impl NextLists {
    /// Of so many files none was looked up.
    pub(crate) fn none(alloc: Global, count: usize) -> Result<NextLists, AllocError>
        ensures { IfOk result (λ lists. lists ≡ replicate count None) }
    {
        Ok(NextLists {
            places: vec![in alloc; 0; count]?,
            lists: Vec::new(alloc),
        })
    }

    /// Those of a file, if its directives were looked up.
    pub(crate) fn of(&self, file: FileId) -> Option<&[Next]>
        requires { file < length self.now }
        ensures { option_map (λ l. l.now) result ≡ slice_index_or self.now file None }
    {
        let place = self.places[file.index()] as usize;
        let list = self.lists.get(place.wrapping_sub(1))?;
        Some(list)
    }

    /// Keeps those of a file whose directives are looked up now.
    pub(crate) fn set(&mut self, file: FileId, nexts: Vec<Next>) -> Result<(), AllocError>
        requires { file < length self.old }
        ensures { OnOk result (self.new ≡ slice_set self.old file (Some nexts.items)) }
    {
        self.lists.push(nexts)?;
        let Ok(place) = u32::try_from(self.lists.len()) else {
            return Err(AllocError);
        };
        self.places[file.index()] = place;
        Ok(())
    }
}
