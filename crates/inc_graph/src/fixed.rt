//! Which edges of a graph are fixed, what the others cost, and chains that count several times.
ghost use Rattle.std.specs.Prelude.{◌≡◌, ◌<◌, ◌≤◌, true, Some, None, if◌then◌else◌, MatchOption, IsTrue, length, replicate, nat_lt};
ghost use Rattle.std.specs.List.{list_any};
ghost use Rattle.inc_graph.specs.Cuts.{most_cost, are_amounts, fixed_by, costs_by};

use crate::chains::Chain;
use crate::graphs::EdgeId;
use std::alloc::Global;
use std::marker::Model;

/// The greatest cost of an edge.
pub const MOST_COST: u32 = 1_000_000;

/// For each edge of a graph that it is fixed, or else its cost, from 1 to [`MOST_COST`]. It is used with the graph that it was
/// made for.
#[derive(Drop)]
pub struct Fixed {
    /// How many edges the graph has.
    edges: usize,
    /// By the number of the edge: 0 where it is fixed, else its cost. None where each edge costs 1, so that this takes no memory.
    amounts: Vec<u32>,
}

impl Model for Fixed {
    ghost use Rattle.std.specs.Prelude.{ℕ, List, IsTrue};
    ghost use Rattle.inc_graph.specs.Cuts.{are_amounts};
    ghost use Rattle.inc_graph.specs.Amounts.{amounts_in};

    ghost Value = { List ℕ };

    ghost view = { λ f. amounts_in f.edges f.amounts.items };

    ghost invariant = { λ f. IsTrue (are_amounts (amounts_in f.edges f.amounts.items)) };
}

impl Fixed {
    /// The edges whose amounts are 0 as fixed, and the others at the cost of their amounts, by the numbers of the edges. No amount is over
    /// [`MOST_COST`].
    pub(crate) fn of_amounts(amounts: Vec<u32>) -> Fixed
        requires { are_amounts amounts.items ≡ true }
        ensures { result ≡ amounts.items }
    {
        Fixed {
            edges: amounts.len(),
            amounts,
        }
    }

    /// So many edges at cost 1, none of them fixed.
    pub(crate) fn ones(alloc: Global, edges: usize) -> Fixed
        ensures { result ≡ replicate edges 1 }
    {
        Fixed {
            edges,
            amounts: Vec::new(alloc),
        }
    }

    /// How many edges the graph has.
    pub fn edges(&self) -> usize
        ensures count { result ≡ length self.now }
        ensures within { IsTrue (are_amounts self.now) }
    {
        if self.amounts.is_empty() {
            self.edges
        } else {
            self.amounts.len()
        }
    }

    /// What the edge with this number costs; 0 where it is fixed.
    #[inline(always)]
    pub fn amount(&self, edge: usize) -> u32
        requires { edge < length self.now }
        ensures amount { result ≡ costs_by self.now edge }
        ensures most { result ≤ most_cost }
    {
        if self.amounts.is_empty() {
            1
        } else {
            self.amounts[edge]
        }
    }

    /// Whether an edge is fixed.
    #[inline(always)]
    pub fn holds(&self, edge: EdgeId) -> bool
        requires { edge < length self.now }
        ensures { result ≡ fixed_by self.now edge }
    {
        self.amount(edge.index()) == 0
    }

    /// The cost of an edge, from 1 to [`MOST_COST`]; `None` where it is fixed.
    #[inline(always)]
    pub fn cost(&self, edge: EdgeId) -> Option<u32>
        requires { edge < length self.now }
        ensures cost { result ≡ (if fixed_by self.now edge then None else Some (costs_by self.now edge)) }
        ensures within { MatchOption result (fixed_by self.now edge ≡ true) (λ n. (1 ≤ n) × (n ≤ most_cost)) }
    {
        let amount = self.amount(edge.index());
        if amount == 0 { None } else { Some(amount) }
    }
}

/// A chain that counts several times.
#[derive(Drop)]
pub struct Counted {
    /// The chain.
    pub chain: Chain,
    /// How often it counts, from 1 on.
    pub count: u32,
}
