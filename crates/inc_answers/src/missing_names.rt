//! The names of headers that are not found, each with how often it is named.
ghost use Rattle.std.specs.Prelude.{◌≡◌, ◌+◌, ◌<◌, ◌≤◌, ◌++◌, ◌∷◌, ℕ, List, [], None, Some, drop, length, map, slice_get, take, IfOk, OnOk};
ghost use Rattle.inc_graph.specs.HeaderNames as names;
ghost use Rattle.inc_graph.specs.MissingLists as graphs;
ghost use Rattle.inc_graph.specs.MissingLists.{missing_at};
ghost use Rattle.inc_answers.specs.MissingNames as spec;
ghost use Rattle.inc_answers.specs.MissingNames.{counted_at, missing_names, ranked, spelled, with_missing, with_name};
ghost use Rattle.inc_answers.specs.Views.{AreFewer, AreKeyed, AreWithin, IsWithin, seen_name, seen_names};

use crate::name_keys::NameKey;
use inc_graph::{HeaderName, MissingList};
use inc_lookup::Form;
use inc_text::SeededState;
use indexmap::IndexSet;
use std::alloc::{AllocError, Global};

/// How many names a note lists.
pub const MOST_NAMES: usize = 10;

/// A name that is not found.
#[derive(Clone, Copy)]
pub struct MissingName {
    /// The place of the first directive that names it among those whose header is not found.
    pub place: usize,
    /// How many directives name it.
    pub count: usize,
}

/// Names that are not found, each once, in the order of their first directives.
#[derive(Drop)]
pub struct MissingNames<'m> {
    /// The same, to find them.
    keys: IndexSet<NameKey<'m>, SeededState>,
    names: Vec<MissingName>,
}

impl<'m> MissingNames<'m> {
    /// Those of these directives. The seed is that of a table.
    pub fn of(
        alloc: Global,
        seed: u64,
        missing: &'m MissingList,
    ) -> Result<MissingNames<'m>, AllocError>
        ensures names { IfOk result (λ names. seen_names missing.now names ≡ missing_names missing.now) }
        ensures within { IfOk result (λ names. AreWithin (length missing.now) names.names.items) }
    {
        let mut names = MissingNames::none(alloc, seed);
        for place in 0..missing.len() {
            names.add(missing, place)?;
        }
        Ok(names)
    }

    /// None.
    fn none(alloc: Global, seed: u64) -> MissingNames<'m>
        ensures names { result.names.items ≡ [] }
        ensures keys { result.keys.keys ≡ [] }
    {
        MissingNames {
            keys: IndexSet::with_hasher(alloc, SeededState::new(seed)),
            names: Vec::new(alloc),
        }
    }

    /// Adds the name of the directive at a place, or counts it once more.
    fn add(&mut self, missing: &'m MissingList, place: usize) -> Result<(), AllocError>
        requires place { place < length missing.now }
        requires keyed { AreKeyed missing.now self.old }
        requires within { AreWithin place self.old.names.items }
        ensures names { OnOk result (seen_names missing.now self.new
            ≡ with_missing (seen_names missing.now self.old) (missing_at missing.now place)) }
        ensures keyed { OnOk result (AreKeyed missing.now self.new) }
        ensures within { OnOk result (AreWithin (place + 1) self.new.names.items) }
    {
        // There are no more than a number can count.
        let _count = missing.len();
        let key = NameKey::new(missing.at(place).header);
        let (known, is_new) = self.keys.insert_full(key)?;
        if is_new {
            self.names.push(MissingName { place, count: 1 })?;
        } else {
            self.count(known, place + 1);
        }
        Ok(())
    }

    /// Counts the name at a place once more, where so many directives are gone over with this one.
    fn count(&mut self, known: usize, gone: usize)
        requires known { known < length self.old.names.items }
        requires fewer { AreFewer gone self.old.names.items }
        ensures names { (ms : List graphs.Missing) →
            seen_names ms self.new ≡ counted_at (seen_names ms self.old) known }
        ensures keys { self.new.keys.keys ≡ self.old.keys.keys }
        ensures within { AreWithin gone self.new.names.items }
    {
        let name = self.names[known];
        self.names[known] = MissingName {
            place: name.place,
            count: name.count + 1,
        };
    }

    /// How many there are.
    pub fn len(&self) -> usize
        ensures { result ≡ length self.now.names.items }
    {
        self.names.len()
    }

    /// The one at a place.
    pub fn at(&self, place: usize) -> MissingName
        requires { place < length self.now.names.items }
        ensures { slice_get self.now.names.items place ≡ Some result }
    {
        self.names[place]
    }

    /// Those that are named most often, the most often first, then by the place of the first directive.
    pub fn first(&self, alloc: Global) -> Result<Vec<MissingName>, AllocError>
        ensures names { IfOk result (λ first. (ms : List graphs.Missing) →
            map (seen_name ms) first.items ≡ take MOST_NAMES (ranked (seen_names ms self.now))) }
        ensures within { IfOk result (λ first. (count : ℕ) →
            AreWithin count self.now.names.items → AreWithin count first.items) }
    {
        let mut first = Vec::with_capacity(alloc, MOST_NAMES + 1)?;
        for name in &self.names {
            put_name(&mut first, *name)?;
        }
        Ok(first)
    }
}

/// Puts a name among the first ones, and leaves out what is too many.
fn put_name(first: &mut Vec<MissingName>, name: MissingName) -> Result<(), AllocError>
    ensures names { OnOk result ((ms : List graphs.Missing) → map (seen_name ms) first.new.items
        ≡ take MOST_NAMES (with_name (map (seen_name ms) first.old.items) (seen_name ms name))) }
    ensures within { OnOk result ((count : ℕ) →
        AreWithin count first.old.items → IsWithin count name → AreWithin count first.new.items) }
{
    let place = place_of(first, name.count);
    first.insert(place, name)?;
    first.truncate(MOST_NAMES);
    Ok(())
}

/// How many names at the front are named as often or more often.
fn place_of(names: &[MissingName], count: usize) -> usize
    ensures bound { result ≤ length names.now }
    ensures place { (ms : List graphs.Missing) (n : spec.MissingName) → n.count ≡ count → with_name (map (seen_name ms) names.now) n
        ≡ take result (map (seen_name ms) names.now) ++ n ∷ drop result (map (seen_name ms) names.now) }
{
    let mut place = 0;
    while place < names.len() && names[place].count >= count {
        place += 1;
    }
    place
}

/// A name as it stands in a directive.
pub fn spelled(alloc: Global, header: HeaderName<'_>) -> Result<Vec<u8>, AllocError>
    ensures { IfOk result (λ text. text.items ≡ spelled (names.seen_name header.entry)) }
{
    match header.form {
        Form::Quoted => between(alloc, b'"', b'"', header.name),
        Form::Angled => between(alloc, b'<', b'>', header.name),
    }
}

/// A name between two bytes.
fn between(alloc: Global, before: u8, after: u8, name: &[u8]) -> Result<Vec<u8>, AllocError>
    ensures { IfOk result (λ text. text.items ≡ spec.between before after name.now) }
{
    let mut text = Vec::new(alloc);
    text.push(before)?;
    text.extend_from_slice(name)?;
    text.push(after)?;
    Ok(text)
}
