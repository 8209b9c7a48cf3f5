//! Lists of names in which no name is twice.
ghost use Rattle.std.specs.Prelude.{◌≡◌, ◌<◌, ◌≤◌, ◌^◌, [], ◌∷◌, ◌++◌, not, length, nat_lt, IfOk, IfSome, bytes_eq, position};
ghost use Rattle.std.specs.Bool.{OnTrue};
ghost use Rattle.inc_macro.specs.Macros.{is_among, same_names};

use inc_text::{Key, KeyRef, SeededState};
use indexmap::IndexSet;
use std::alloc::{AllocError, Global};
use std::marker::Model;

/// So many names are compared one by one, and the others are in a table. A hash of a name takes longer than these comparisons,
/// most of which end at the lengths, and a longer list would take a body of many tokens too long.
const FEW_NAMES: usize = 8;

/// Names in a set, which is made for the first of them: most lists have none, and then take no room for it.
#[derive(Drop)]
struct MoreNames {
    set: Option<Box<IndexSet<Key, SeededState>>>,
}

impl Model for MoreNames {
    ghost use Rattle.std.specs.Prelude.{ℕ, List, []};
    ghost use Rattle.std.specs.Option.{option_map_or};

    ghost Value = { List (List ℕ) };

    ghost view = { λ m. option_map_or (λ b. b.value.keys) m.set [] };
}

impl MoreNames {
    /// All of them.
    fn keys(&self) -> &[Key]
        ensures { result.now ≡ self.now }
    {
        match &self.set {
            Some(set) => set.as_slice(),
            None => &[],
        }
    }

    /// The place of a name, counted from 0.
    fn place(&self, name: &[u8]) -> Option<usize>
        ensures place { result ≡ position (bytes_eq name.now) self.now }
        ensures within { IfSome result (λ place. place < length self.now) }
    {
        match &self.set {
            Some(set) => set.get_index_of(KeyRef { bytes: name }),
            None => None,
        }
    }

    /// The set, which is taken out.
    fn take(
        &mut self,
        alloc: Global,
        keys: SeededState,
    ) -> Result<Box<IndexSet<Key, SeededState>>, AllocError>
        ensures { IfOk result (λ set. set.value.keys ≡ self.old) }
    {
        match self.set.take() {
            Some(set) => Ok(set),
            None => {
                let set = Box::new(alloc, IndexSet::with_hasher(alloc, keys))?;
                Ok(set)
            }
        }
    }

    /// Adds a name, unless it is there, and reports whether it was added. Where memory runs out the names are of no further use.
    fn add(&mut self, alloc: Global, keys: SeededState, name: &[u8]) -> Result<bool, AllocError>
        ensures new { IfOk result (λ added. added ≡ not (is_among name.now self.old)) }
        ensures names { IfOk result (λ added. OnTrue added (self.new ≡ self.old ++ name.now ∷ [])) }
    {
        let mut set = self.take(alloc, keys)?;
        let key = Key::copied(alloc, name)?;
        let added = set.insert(key)?;
        self.set = Some(set);
        Ok(added)
    }
}

/// Names, none of them twice, in the order in which they were added.
#[derive(Drop)]
pub struct DistinctNames {
    first: Vec<Key>,
    more: MoreNames,
}

impl Model for DistinctNames {
    ghost use Rattle.std.specs.Prelude.{ℕ, List, [], ◌++◌, ◌≡◌, ◌≤◌, ◌<◌, length};
    ghost use Rattle.inc_macro.specs.declared.name_sets.TheConstants.{FEW_NAMES};

    ghost Value = { List (List ℕ) };

    ghost view = { λ d. d.first.items ++ d.more };

    ghost invariant = { λ d. (length d.first.items ≤ FEW_NAMES)
        × (length d.first.items < FEW_NAMES → d.more ≡ []) };
}

impl DistinctNames {
    /// No names. Takes no memory.
    pub fn new(alloc: Global) -> DistinctNames
        ensures { result ≡ [] }
    {
        DistinctNames {
            first: Vec::new(alloc),
            more: MoreNames { set: None },
        }
    }

    /// How many names there are.
    pub fn len(&self) -> usize
        requires { length self.now ≤ 255 }
        ensures { result ≡ length self.now }
    {
        self.first.len() + self.more.keys().len()
    }

    /// Whether there are more names than so many.
    pub fn exceeds(&self, most: usize) -> bool
        requires { most < 2 ^ 32 }
        ensures { result ≡ nat_lt most (length self.now) }
    {
        let more = self.more.keys().len();
        more > most || self.first.len() + more > most
    }

    /// The place of a name, counted from 0.
    pub fn place(&self, name: &[u8]) -> Option<usize>
        requires { length self.now ≤ 255 }
        ensures place { result ≡ position (bytes_eq name.now) self.now }
        ensures small { IfSome result (λ place. place < 255) }
    {
        if let Some(place) = place_among(&self.first, name) {
            return Some(place);
        }
        match self.more.place(name) {
            Some(place) => Some(self.first.len() + place),
            None => None,
        }
    }

    /// Whether a name is among them.
    pub fn contains(&self, name: &[u8]) -> bool
        ensures { result ≡ is_among name.now self.now }
    {
        if place_among(&self.first, name).is_some() {
            return true;
        }
        self.more.place(name).is_some()
    }

    /// Adds a name, unless it is there, and reports whether it was added. Where memory runs out the names are of no further use.
    pub fn add(&mut self, alloc: Global, keys: SeededState, name: &[u8]) -> Result<bool, AllocError>
        ensures new { IfOk result (λ added. added ≡ not (is_among name.now self.old)) }
        ensures names { IfOk result (λ added. OnTrue added (self.new ≡ self.old ++ name.now ∷ [])) }
    {
        if place_among(&self.first, name).is_some() {
            return Ok(false);
        }
        if self.first.len() < FEW_NAMES {
            let key = Key::copied(alloc, name)?;
            self.first.push(key)?;
            return Ok(true);
        }
        let added = self.more.add(alloc, keys, name)?;
        Ok(added)
    }

    /// Whether two lists have the same names in the same order.
    pub fn same(&self, other: &DistinctNames) -> bool
        ensures { result ≡ same_names self.now other.now }
    {
        self.first.as_slice() == other.first.as_slice() && self.more.keys() == other.more.keys()
    }
}

/// The place of the first key that is spelled so.
fn place_among(keys: &[Key], name: &[u8]) -> Option<usize>
    ensures place { result ≡ position (bytes_eq name.now) keys.now }
    ensures within { IfSome result (λ place. place < length keys.now) }
{
    keys.iter().position(|key| name == key.bytes())
}
