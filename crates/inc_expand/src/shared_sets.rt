//! Hash-consed sets: sets of numbers below 2^32 as binary tries with shared nodes, so that equal sets are one node.
ghost use Rattle.std.specs.Prelude.{◌≡◌, ℕ, suc, ◌+◌, length, ◌^◌, ◌<◌, ◌≤◌, true, ◌||◌, ◌&&◌, nat_eq, IfOk};
ghost use Rattle.inc_expand.specs.Sets.{full_depth};
ghost use Rattle.inc_expand.specs.Nodes.{left_half, right_half, has, has_in, IsSet, IsTable, IsPair, Grows, Gives, AllBelow};

use indexmap::IndexSet;
use std::alloc::AllocError;
use std::hash::{BuildHasher, FoldHasher, Hash, Hasher};

/// Begins each hash of a node with a seed.
#[derive(Clone, Copy)]
pub(crate) struct NodeKeys {
    seeded: FoldHasher,
}

impl NodeKeys {
    /// Hashes that begin with this seed.
    pub(crate) fn new(seed: u64) -> NodeKeys {
        let mut seeded = FoldHasher::default();
        seeded.write_u64(seed);
        NodeKeys { seeded }
    }
}

impl BuildHasher for NodeKeys {
    type Hasher = FoldHasher;

    ghost build_hasher = { λ k. k.seeded };

    fn build_hasher(&self) -> FoldHasher {
        self.seeded
    }
}

/// A set's numbers below `2^level`, and those from there on, less `2^level`.
///
/// `right` is never empty: where it would be, `left` stands for itself.
#[derive(Clone, Copy, PartialEq, Eq, Drop)]
pub(crate) struct Node {
    pub(crate) level: u32,
    pub(crate) left: u32,
    pub(crate) right: u32,
}

impl Hash for Node {
    ghost use Rattle.std.specs.Prelude.{ℕ, ◌+◌, ◌*◌};
    ghost use Rattle.std.specs.Hash as fed;
    ghost use Rattle.std.proofs.Common.{rules};
    ghost use Rattle.std.specs.Cmp.Rules.{hashing};

    ghost hash_input = { λ n. fed.u128 ((n.left * 4294967296 + n.right) * 18446744073709551617) };

    ghost respects_eq = { Prim.search (hashing, rules) };

    // Sixteen bytes are hashed as the product of their two words, the first of which meets the seed: so both are the node, and
    // no factor is known to who writes the names.
    fn hash<H: Hasher>(&self, state: &mut H) {
        let halves = u64::from(self.left) * 4_294_967_296 + u64::from(self.right);
        state.write_u128(u128::from(halves) * 18_446_744_073_709_551_617);
    }
}

/// The empty set.
pub(crate) const EMPTY: u32 = 0;

/// The set of 0 alone.
pub(crate) const ZERO: u32 = 1;

/// The two halves of a set of numbers below `2^(level + 1)`.
pub(crate) fn split(nodes: &IndexSet<Node, NodeKeys>, level: u32, set: u32) -> (u32, u32)
    ensures left { result.0 ≡ left_half nodes.now.keys level set }
    ensures right { result.1 ≡ right_half nodes.now.keys level set }
{
    if set < 2 {
        return (set, EMPTY);
    }
    match nodes.get_index((set - 2) as usize) {
        Some(node) if node.level == level => (node.left, node.right),
        _ => (set, EMPTY),
    }
}

/// The set of two halves. `like`: a set that may be it, which is then found without a hash.
pub(crate) fn pair(
    nodes: &mut IndexSet<Node, NodeKeys>,
    level: u32,
    left: u32,
    right: u32,
    like: u32,
) -> Result<u32, AllocError>
    requires table { IsTable nodes.old.keys }
    requires left { IsSet nodes.old.keys level left }
    requires right { IsSet nodes.old.keys level right }
    requires like { IsSet nodes.old.keys (suc level) like }
    requires shallow { level < 32 }
    ensures grows { Grows nodes.old.keys nodes.new.keys }
    ensures pair { IfOk result (λ n. IsPair nodes.new.keys level left right n) }
    ensures below { (top : ℕ) → AllBelow top nodes.old.keys → ((k : ℕ)
        → has_in nodes.old.keys level left right k ≡ true → k < top) → AllBelow top nodes.new.keys }
{
    if right == EMPTY {
        return Ok(left);
    }
    let (like_left, like_right) = split(nodes, level, like);
    if like_left == left && like_right == right {
        return Ok(like);
    }
    if nodes.len() >= 0xffff_fff0 {
        return Err(AllocError);
    }
    let (index, _) = nodes.insert_full(Node { level, left, right })?;
    Ok(index as u32 + 2)
}

/// `2^level`.
fn half(level: u32) -> u32
    requires { level < 32 }
    ensures { result ≡ 2 ^ level }
{
    1 << level
}

/// Whether the set has the number.
fn holds_at(nodes: &IndexSet<Node, NodeKeys>, depth: u32, set: u32, number: u32) -> bool
    requires { depth ≤ 32 }
    ensures { result ≡ has nodes.now.keys depth set number }
{
    if depth == 0 {
        return set != EMPTY && number == 0;
    }
    let level = depth - 1;
    let half = half(level);
    let (left, right) = split(nodes, level, set);
    if number < half {
        holds_at(nodes, level, left, number)
    } else {
        holds_at(nodes, level, right, number - half)
    }
}

/// The set with one number more.
fn with_at(
    nodes: &mut IndexSet<Node, NodeKeys>,
    depth: u32,
    set: u32,
    number: u32,
) -> Result<u32, AllocError>
    requires table { IsTable nodes.old.keys }
    requires set { IsSet nodes.old.keys depth set }
    requires fits { number < 2 ^ depth }
    requires deep { depth ≤ 32 }
    ensures grows { Grows nodes.old.keys nodes.new.keys }
    ensures gives { IfOk result (λ n. Gives
        (λ k. has nodes.old.keys depth set k || nat_eq k number) nodes.new.keys depth n) }
    ensures below { (top : ℕ) → AllBelow top nodes.old.keys → number < top
        → AllBelow top nodes.new.keys }
{
    if depth == 0 {
        return Ok(ZERO);
    }
    let level = depth - 1;
    let half = half(level);
    let (left, right) = split(nodes, level, set);
    if number < half {
        let more = with_at(nodes, level, left, number)?;
        pair(nodes, level, more, right, set)
    } else {
        let more = with_at(nodes, level, right, number - half)?;
        pair(nodes, level, left, more, set)
    }
}

/// The numbers that both sets have.
fn meet_at(
    nodes: &mut IndexSet<Node, NodeKeys>,
    depth: u32,
    a: u32,
    b: u32,
) -> Result<u32, AllocError>
    requires table { IsTable nodes.old.keys }
    requires a_set { IsSet nodes.old.keys depth a }
    requires b_set { IsSet nodes.old.keys depth b }
    requires deep { depth ≤ 32 }
    ensures grows { Grows nodes.old.keys nodes.new.keys }
    ensures gives { IfOk result (λ n. Gives
        (λ k. has nodes.old.keys depth a k && has nodes.old.keys depth b k) nodes.new.keys depth n) }
    ensures below { (top : ℕ) → AllBelow top nodes.old.keys → AllBelow top nodes.new.keys }
{
    if a == b || a == EMPTY {
        return Ok(a);
    }
    if b == EMPTY || depth == 0 {
        return Ok(b);
    }
    let level = depth - 1;
    let (a_left, a_right) = split(nodes, level, a);
    let (b_left, b_right) = split(nodes, level, b);
    let left = meet_at(nodes, level, a_left, b_left)?;
    let right = meet_at(nodes, level, a_right, b_right)?;
    pair(nodes, level, left, right, a)
}

/// The numbers that either set has.
fn join_at(
    nodes: &mut IndexSet<Node, NodeKeys>,
    depth: u32,
    a: u32,
    b: u32,
) -> Result<u32, AllocError>
    requires table { IsTable nodes.old.keys }
    requires a_set { IsSet nodes.old.keys depth a }
    requires b_set { IsSet nodes.old.keys depth b }
    requires deep { depth ≤ 32 }
    ensures grows { Grows nodes.old.keys nodes.new.keys }
    ensures gives { IfOk result (λ n. Gives
        (λ k. has nodes.old.keys depth a k || has nodes.old.keys depth b k) nodes.new.keys depth n) }
    ensures below { (top : ℕ) → AllBelow top nodes.old.keys → AllBelow top nodes.new.keys }
{
    if a == b || b == EMPTY {
        return Ok(a);
    }
    if a == EMPTY || depth == 0 {
        return Ok(b);
    }
    let level = depth - 1;
    let (a_left, a_right) = split(nodes, level, a);
    let (b_left, b_right) = split(nodes, level, b);
    let left = join_at(nodes, level, a_left, b_left)?;
    let right = join_at(nodes, level, a_right, b_right)?;
    let like = if left == b_left && right == b_right {
        b
    } else {
        a
    };
    pair(nodes, level, left, right, like)
}

/// The depth from which all of a set is seen, 32 at most.
fn depth_of(nodes: &IndexSet<Node, NodeKeys>, set: u32) -> u32
    requires table { IsTable nodes.now.keys }
    requires known { set < length nodes.now.keys + 2 }
    ensures set { IsSet nodes.now.keys result set }
    ensures deep { result ≤ 32 }
{
    if set < 2 {
        return 0;
    }
    match nodes.get_index((set - 2) as usize) {
        Some(node) => node.level + 1,
        None => 0,
    }
}

/// How many bits a number has.
fn bits_of(number: u32) -> u32
    ensures fits { number < 2 ^ result }
    ensures few { result ≤ 32 }
{
    if number == 0 {
        return 0;
    }
    number.ilog2() + 1
}

/// Whether a set has a number.
pub(crate) fn holds(nodes: &IndexSet<Node, NodeKeys>, set: u32, number: u32) -> bool
    requires table { IsTable nodes.now.keys }
    requires known { set < length nodes.now.keys + 2 }
    ensures { result ≡ has nodes.now.keys full_depth set number }
{
    holds_at(nodes, depth_of(nodes, set), set, number)
}

/// The set with one number more.
pub(crate) fn with(
    nodes: &mut IndexSet<Node, NodeKeys>,
    set: u32,
    number: u32,
) -> Result<u32, AllocError>
    requires table { IsTable nodes.old.keys }
    requires known { set < length nodes.old.keys + 2 }
    ensures grows { Grows nodes.old.keys nodes.new.keys }
    ensures gives { IfOk result (λ n. Gives
        (λ k. has nodes.old.keys full_depth set k || nat_eq k number) nodes.new.keys full_depth n) }
    ensures below { (top : ℕ) → AllBelow top nodes.old.keys → number < top
        → AllBelow top nodes.new.keys }
{
    let depth = bits_of(number).max(depth_of(nodes, set));
    with_at(nodes, depth, set, number)
}

/// The numbers that both sets have.
pub(crate) fn meet(nodes: &mut IndexSet<Node, NodeKeys>, a: u32, b: u32) -> Result<u32, AllocError>
    requires table { IsTable nodes.old.keys }
    requires a_known { a < length nodes.old.keys + 2 }
    requires b_known { b < length nodes.old.keys + 2 }
    ensures grows { Grows nodes.old.keys nodes.new.keys }
    ensures gives { IfOk result (λ n. Gives
        (λ k. has nodes.old.keys full_depth a k && has nodes.old.keys full_depth b k) nodes.new.keys full_depth n) }
    ensures below { (top : ℕ) → AllBelow top nodes.old.keys → AllBelow top nodes.new.keys }
{
    let depth = depth_of(nodes, a).max(depth_of(nodes, b));
    meet_at(nodes, depth, a, b)
}

/// The numbers that either set has.
pub(crate) fn join(nodes: &mut IndexSet<Node, NodeKeys>, a: u32, b: u32) -> Result<u32, AllocError>
    requires table { IsTable nodes.old.keys }
    requires a_known { a < length nodes.old.keys + 2 }
    requires b_known { b < length nodes.old.keys + 2 }
    ensures grows { Grows nodes.old.keys nodes.new.keys }
    ensures gives { IfOk result (λ n. Gives
        (λ k. has nodes.old.keys full_depth a k || has nodes.old.keys full_depth b k) nodes.new.keys full_depth n) }
    ensures below { (top : ℕ) → AllBelow top nodes.old.keys → AllBelow top nodes.new.keys }
{
    let depth = depth_of(nodes, a).max(depth_of(nodes, b));
    join_at(nodes, depth, a, b)
}
