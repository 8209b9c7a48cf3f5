//! Lists of names.
ghost use Rattle.std.specs.Prelude.{◌≡◌, length, map, IfOk};
ghost use Rattle.inc_lookup.specs.Projects.{each_once, place_of};

use crate::path_lists::PathList;
use std::alloc::{AllocError, Global};
use std::marker::Model;

/// Names, each once, that are found by a table.
#[derive(Drop)]
pub struct NameList {
    names: PathList<'static>,
}

impl Model for NameList {
    ghost use Rattle.std.specs.Prelude.{ℕ, List};

    ghost Value = { List (List ℕ) };

    ghost view = { λ n. n.names };
}

impl NameList {
    /// These names, each where it comes first. The seed is that of the table, so that whoever writes names cannot make look-ups slow.
    pub fn new(alloc: Global, seed: u64, names: &[&[u8]]) -> Result<NameList, AllocError>
        ensures { IfOk result (λ list. list ≡ each_once (map (λ n. n.now) names.now)) }
    {
        let mut list = PathList::rising(alloc, seed, &[], names.len());
        for name in names {
            list.insert(name)?;
        }
        Ok(NameList { names: list })
    }

    /// How many there are.
    pub fn len(&self) -> usize
        ensures { result ≡ length self.now }
    {
        self.names.len()
    }

    /// The place of a name, from 0, if it is there.
    pub fn place(&self, name: &[u8]) -> Option<usize>
        ensures { result ≡ place_of name.now self.now }
    {
        self.names.place(name)
    }
}
