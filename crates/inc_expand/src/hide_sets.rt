//! Sets of names as numbers.
//!
//! The first 32 names that a run of lines hides are bits, so that most sets are made, joined and asked by one instruction. The other names
//! of a set are a shared node of a trie, of which equal ones are made once (hash-consing): a set is told from others by its number.
ghost use Rattle.std.specs.Prelude.{◌≡◌, ℕ, ◌+◌, ◌*◌, ◌/◌, ◌%◌, ◌^◌, ◌==◌, ◌<◌, ◌≤◌, true, false, ◌||◌, ◌&&◌, ◌↔◌, IsTrue, IfOk, IfSome, OnOk, OnErr, List, length, nat_eq, position, bytes_eq};
ghost use Rattle.std.specs.Int.Bits.{bit_or};
ghost use Rattle.inc_expand.specs.Nodes.{has, Gives, Grows, IsTable, AllBelow};
ghost use Rattle.inc_expand.specs.Sets.{Sets, in_set, Keeps, HaveOwn, IsHint, IsJoin, IsNumber, full_depth, holds as holds_name, names_in, names_after, number_of as number_in, size};

use crate::seen_names::SeenNames;
use crate::shared_sets::{self, Node, NodeKeys};
use indexmap::IndexSet;
use std::alloc::{AllocError, Global};
use std::marker::Model;

/// The number of a set: its lower half has a bit for each of the first 32 names, and its upper half is the node of the others.
pub type SetId = u64;

/// How many names are bits of a set. Most tables have no more, and then no set takes a node.
const LOW_NAMES: u32 = 32;

/// What the lowest bit of a set's node stands for.
const NODE_UNIT: u64 = 4_294_967_296;

/// The number of the empty set.
const EMPTY_SET: SetId = 0;

/// The most names.
const MOST_NAMES: usize = 0xffff_0000;

/// How many hints there are.
const HINTS: usize = 32;

/// What came of a number last: a node, and that node with the number.
#[derive(Clone, Copy)]
struct Hint {
    number: u32,
    set: u32,
    all: u32,
}

/// How many joins are kept.
const JOINS: usize = 16;

/// Two nodes that were joined, and what came of it.
#[derive(Clone, Copy)]
struct Join {
    a: u32,
    b: u32,
    all: u32,
}

/// The sets that were made so far, and the names in them. A call that memory runs out in may leave names and sets that nobody has a
/// number of; each number keeps its set, and the table can be used on.
#[derive(Drop)]
pub struct HideSets<'a> {
    names: SeenNames<'a>,
    nodes: IndexSet<Node, NodeKeys>,
    /// The number of a name that was looked up last. A name is compared with its own before the number is believed.
    numbers: [u32; HINTS],
    /// A macro is mostly replaced many times where the same names are hidden: what came of it last saves the hashes.
    hints: [Hint; HINTS],
    /// What came of some joins: the tokens of a call's arguments mostly have sets that were joined with the macro's before.
    joins: [Join; JOINS],
}

impl<'a> Model for HideSets<'a> {
    ghost use Rattle.std.specs.Prelude.{map};
    ghost use Rattle.std.specs.List.{All};
    ghost use Rattle.inc_expand.specs.Sets.{Sets, HaveHints, IsJoin, IsSound};

    ghost Value = { Sets };

    ghost view = { λ a. record { names = a.names; nodes = a.nodes.keys } };

    ghost invariant = { λ a. IsSound (record { names = a.names; nodes = a.nodes.keys })
        × HaveHints a.nodes.keys a.hints × All (IsJoin a.nodes.keys) a.joins };
}

/// The bits of the first names.
fn low_of(set: SetId) -> u64
    ensures { result ≡ set % 4294967296 }
{
    set % NODE_UNIT
}

/// The node of the other names.
fn node_of(set: SetId) -> u32
    ensures { result ≡ set / 4294967296 }
{
    (set / NODE_UNIT) as u32
}

/// The set with this node and these bits.
fn set_of(node: u32, low: u64) -> SetId
    requires { low < 4294967296 }
    ensures { result ≡ node * 4294967296 + low }
{
    u64::from(node) * NODE_UNIT + low
}

/// The set with the bit of one of the first names.
fn with_bit(set: SetId, number: u32) -> SetId
    requires { number < 32 }
    ensures { result ≡ bit_or set (2 ^ number) }
{
    set | 1 << number
}

/// Whether a set has the name with this number.
fn has_number(nodes: &IndexSet<Node, NodeKeys>, set: SetId, number: u32) -> bool
    requires table { IsTable nodes.now.keys }
    requires known { set / 4294967296 < length nodes.now.keys + 2 }
    ensures { result ≡ in_set nodes.now.keys set number }
{
    if number < LOW_NAMES {
        return (set >> number) & 1 == 1;
    }
    shared_sets::holds(nodes, node_of(set), number - LOW_NAMES)
}

/// The place of a name's hint, which other names may share: by its length and two of its bytes, since that is cheaper than a hash.
fn place_of(name: &[u8]) -> usize
    ensures { result < HINTS }
{
    let len = name.len();
    if len == 0 {
        return 0;
    }
    let middle = usize::from(name[len / 2]);
    let last = usize::from(name[len - 1]);
    (len % HINTS + 3 * middle + 7 * last) % HINTS
}

/// The node with one number more. `hint`: one that was made before.
fn node_with(
    nodes: &mut IndexSet<Node, NodeKeys>,
    hint: &mut Hint,
    set: u32,
    number: u32,
) -> Result<u32, AllocError>
    requires table { IsTable nodes.old.keys }
    requires known { set < length nodes.old.keys + 2 }
    requires hint { IsHint nodes.old.keys hint.old }
    ensures grows { Grows nodes.old.keys nodes.new.keys }
    ensures gives { IfOk result (λ n. Gives
        (λ k. has nodes.old.keys full_depth set k || nat_eq k number) nodes.new.keys full_depth n) }
    ensures below { (top : ℕ) → AllBelow top nodes.old.keys → number < top
        → AllBelow top nodes.new.keys }
    ensures hint { IsHint nodes.new.keys hint.new }
{
    if hint.number == number && hint.set == set {
        return Ok(hint.all);
    }
    let all = shared_sets::with(nodes, set, number)?;
    *hint = Hint { number, set, all };
    Ok(all)
}

/// The numbers that either node has. `last`: two nodes that were joined before.
fn join_or_last(
    nodes: &mut IndexSet<Node, NodeKeys>,
    last: &mut Join,
    a: u32,
    b: u32,
) -> Result<u32, AllocError>
    requires table { IsTable nodes.old.keys }
    requires a_known { a < length nodes.old.keys + 2 }
    requires b_known { b < length nodes.old.keys + 2 }
    requires last { IsJoin nodes.old.keys last.old }
    ensures grows { Grows nodes.old.keys nodes.new.keys }
    ensures gives { IfOk result (λ n. Gives
        (λ k. has nodes.old.keys full_depth a k || has nodes.old.keys full_depth b k) nodes.new.keys full_depth n) }
    ensures below { (top : ℕ) → AllBelow top nodes.old.keys → AllBelow top nodes.new.keys }
    ensures last { IsJoin nodes.new.keys last.new }
{
    if last.a == a && last.b == b {
        return Ok(last.all);
    }
    let all = shared_sets::join(nodes, a, b)?;
    *last = Join { a, b, all };
    Ok(all)
}

impl<'a> HideSets<'a> {
    /// A table that knows the empty set alone. It takes no memory. Whoever writes the names cannot choose ones that make
    /// look-ups slow unless the seed is known.
    pub fn new(alloc: Global, seed: u64) -> Self
        ensures { size result ≡ 1 }
    {
        HideSets {
            names: SeenNames::new(alloc, seed),
            nodes: IndexSet::with_hasher(alloc, NodeKeys::new(seed)),
            numbers: [0; HINTS],
            hints: [Hint {
                number: 0,
                set: shared_sets::EMPTY,
                all: shared_sets::ZERO,
            }; HINTS],
            joins: [Join { a: 0, b: 0, all: 0 }; JOINS],
        }
    }

    /// The number of the empty set, in each table.
    pub fn empty() -> SetId
        ensures number { result ≡ 0 }
        ensures known { (s : Sets) → result < size s }
        ensures none { (s : Sets) (name : List ℕ) → holds_name s result name ≡ false }
    {
        EMPTY_SET
    }

    /// The set with one name more.
    pub fn with(&mut self, set: SetId, name: &'a [u8]) -> Result<SetId, AllocError>
        requires { set < size self.old }
        ensures keeps { Keeps self.old self.new }
        ensures known { IfOk result (λ r. r < size self.new) }
        ensures members { IfOk result (λ r. (n : List ℕ) → holds_name self.new r n
            ≡ (holds_name self.old set n || bytes_eq n name.entry.now)) }
    {
        if self.names.len() >= MOST_NAMES {
            return Err(AllocError);
        }
        let place = place_of(name);
        let number = self.names.number_with(self.numbers[place], name)?;
        self.numbers[place] = number;
        if number < LOW_NAMES {
            return Ok(with_bit(set, number));
        }
        let hint = &mut self.hints[place];
        let node = node_with(&mut self.nodes, hint, node_of(set), number - LOW_NAMES)?;
        Ok(set_of(node, low_of(set)))
    }

    /// The names that both sets have.
    pub fn meet(&mut self, a: SetId, b: SetId) -> Result<SetId, AllocError>
        requires a { a < size self.old }
        requires b { b < size self.old }
        ensures keeps { Keeps self.old self.new }
        ensures known { IfOk result (λ r. r < size self.new) }
        ensures members { IfOk result (λ r. (n : List ℕ) → holds_name self.new r n
            ≡ (holds_name self.old a n && holds_name self.old b n)) }
    {
        let node = shared_sets::meet(&mut self.nodes, node_of(a), node_of(b))?;
        Ok(set_of(node, low_of(a & b)))
    }

    /// The names that either set has.
    pub fn join(&mut self, a: SetId, b: SetId) -> Result<SetId, AllocError>
        requires a { a < size self.old }
        requires b { b < size self.old }
        ensures keeps { Keeps self.old self.new }
        ensures known { IfOk result (λ r. r < size self.new) }
        ensures members { IfOk result (λ r. (n : List ℕ) → holds_name self.new r n
            ≡ (holds_name self.old a n || holds_name self.old b n)) }
    {
        let (one, other) = (node_of(a), node_of(b));
        let last = &mut self.joins[(one as usize + 5 * other as usize) % JOINS];
        let node = join_or_last(&mut self.nodes, last, one, other)?;
        Ok(set_of(node, low_of(a | b)))
    }

    /// Whether the set has the name.
    pub fn holds(&self, set: SetId, name: &[u8]) -> bool
        requires { set < size self.now }
        ensures { result ≡ holds_name self.now set name.now }
    {
        // Most tokens hide nothing: their names are not looked up.
        if set == EMPTY_SET {
            return false;
        }
        let hint = self.numbers[place_of(name)];
        match self.names.number_of(hint, name) {
            Some(number) => has_number(&self.nodes, set, number as u32),
            None => false,
        }
    }

    /// Whether two numbers stand for one set, which is whether they are equal.
    pub fn same(&self, a: SetId, b: SetId) -> bool
        requires a { a < size self.now }
        requires b { b < size self.now }
        ensures sets { IsTrue result ↔ ((n : List ℕ) → holds_name self.now a n
            ≡ holds_name self.now b n) }
        ensures numbers { result ≡ (a == b) }
    {
        let _ = &self.nodes;
        let _ = self.names.len();
        a == b
    }
}
