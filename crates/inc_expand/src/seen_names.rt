//! The names that are hidden in an expansion, each with its number: its place among them.
ghost use Rattle.std.specs.Prelude.{◌≡◌, ◌<◌, ◌^◌, [], true, length, IfOk, IfSome, OnOk, OnErr, option_map, position, bytes_eq, slice_get};
ghost use Rattle.inc_expand.specs.Sets.{HaveOwn, IsNumber, names_after, names_in, number_of as number_in};

use crate::name_keys::Name;
use inc_text::SeededState;
use indexmap::IndexSet;
use std::alloc::{AllocError, Global};
use std::marker::Model;

/// So many names are compared one by one, and the others are in a table. Most lists of tokens hide no more: these take no table, and a
/// hash of a name takes longer than these comparisons, most of which end at the lengths.
const FEW_NAMES: usize = 16;

/// Names, none of them twice, in the order in which they were seen.
#[derive(Drop)]
pub(crate) struct SeenNames<'a> {
    first: Vec<Name<'a>>,
    more: IndexSet<Name<'a>, SeededState>,
}

impl<'a> Model for SeenNames<'a> {
    ghost use Rattle.std.specs.Prelude.{ℕ, List, [], ◌++◌, ◌≡◌, ◌≤◌, ◌<◌, length};
    ghost use Rattle.inc_expand.specs.Sets.{names_in};
    ghost use Rattle.inc_expand.specs.declared.seen_names.TheConstants.{FEW_NAMES};

    ghost Value = { List (List ℕ) };

    ghost view = { λ s. names_in s.first.items ++ names_in s.more.keys };

    ghost invariant = { λ s. (length s.first.items ≤ FEW_NAMES)
        × (length s.first.items < FEW_NAMES → s.more.keys ≡ []) };
}

impl<'a> SeenNames<'a> {
    /// No names. It takes no memory. Whoever writes the names cannot choose ones that make look-ups slow unless the seed is known.
    pub(crate) fn new(alloc: Global, seed: u64) -> SeenNames<'a>
        ensures { result ≡ [] }
    {
        SeenNames {
            first: Vec::new(alloc),
            more: IndexSet::with_hasher(alloc, SeededState::new(seed)),
        }
    }

    /// How many names there are.
    pub(crate) fn len(&self) -> usize
        ensures { result ≡ length self.now }
    {
        self.first.len() + self.more.len()
    }

    /// The name with a number.
    fn name_at(&self, number: usize) -> Option<&'a [u8]>
        ensures { option_map (λ n. n.now) result ≡ slice_get self.now number }
    {
        let count = self.first.len();
        if number < count {
            return Some(self.first[number].bytes);
        }
        match self.more.get_index(number - count) {
            Some(name) => Some(name.bytes),
            None => None,
        }
    }

    /// Whether a number is seen to be that of a name.
    fn is_number_of(&self, number: u32, name: &[u8]) -> bool
        requires { HaveOwn self.now }
        ensures { result ≡ true → IsNumber self.now number name.now }
    {
        match self.name_at(number as usize) {
            Some(found) => found == name,
            None => false,
        }
    }

    /// The number of a name, if it has one. `hint`: a number that may be its, and then is found at once.
    pub(crate) fn number_of(&self, hint: u32, name: &[u8]) -> Option<usize>
        requires { HaveOwn self.now }
        ensures index { result ≡ position (bytes_eq name.now) self.now }
        ensures within { IfSome result (λ i. i < length self.now) }
    {
        if self.is_number_of(hint, name) {
            return Some(hint as usize);
        }
        if let Some(place) = place_among(&self.first, name) {
            return Some(place);
        }
        match place_in(&self.more, name) {
            Some(place) => Some(self.first.len() + place),
            None => None,
        }
    }

    /// The number of a name, which gets one if it has none. `hint`: a number that may be its.
    pub(crate) fn number_with(&mut self, hint: u32, name: &'a [u8]) -> Result<u32, AllocError>
        requires own { HaveOwn self.old }
        requires few { length self.old < 4294901760 }
        ensures number { IfOk result (λ n. n ≡ number_in self.old name.entry.now) }
        ensures names { OnOk result (self.new ≡ names_after self.old name.entry.now) }
        ensures err { OnErr result (self.new ≡ self.old) }
    {
        if self.is_number_of(hint, name) {
            return Ok(hint);
        }
        if let Some(place) = place_among(&self.first, name) {
            return Ok(place as u32);
        }
        let count = self.first.len();
        if count < FEW_NAMES {
            self.first.push(Name { bytes: name })?;
            return Ok(count as u32);
        }
        let place = add_to(&mut self.more, name)?;
        Ok((count + place) as u32)
    }
}

/// The place of the first name that is spelled so.
fn place_among(names: &[Name<'_>], name: &[u8]) -> Option<usize>
    ensures place { result ≡ position (λ n. bytes_eq name.now n.bytes.now) names.now }
    ensures within { IfSome result (λ place. place < length names.now) }
{
    names.iter().position(|other| name == other.bytes)
}

/// The place of a name in a table.
fn place_in(names: &IndexSet<Name<'_>, SeededState>, name: &[u8]) -> Option<usize>
    ensures place { result ≡ position (λ n. bytes_eq name.now n.bytes.now) names.now.keys }
    ensures within { IfSome result (λ place. place < length names.now.keys) }
    ensures small { IfSome result (λ place. place < 2 ^ 63) }
{
    // Few runs have so many names that one is in the table, and an empty table would be asked with a hash.
    if names.len() == 0 {
        return None;
    }
    names.get_index_of(&Name { bytes: name })
}

/// The place of a name in a table, at whose end it is put if it is not there.
fn add_to<'a>(
    names: &mut IndexSet<Name<'a>, SeededState>,
    name: &'a [u8],
) -> Result<usize, AllocError>
    ensures place { IfOk result (λ n. n ≡ number_in (names_in names.old.keys) name.entry.now) }
    ensures names { OnOk result (names_in names.new.keys
        ≡ names_after (names_in names.old.keys) name.entry.now) }
    ensures err { OnErr result (names.new.keys ≡ names.old.keys) }
{
    let (place, _) = names.insert_full(Name { bytes: name })?;
    Ok(place)
}
