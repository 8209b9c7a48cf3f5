//! Sums of counts, beside the costs of edges.
ghost use Rattle.std.specs.Prelude.{◌≡◌, ◌<◌, ◌≤◌, ◌==◌, ◌&&◌, ℕ, not, true, length, nat_lt, slice_index, MatchBool};
ghost use Rattle.inc_graph.specs.Cuts.{fixed_by, costs_by, is_editable};

use inc_graph::{EdgeNumbers, Fixed, Graph};

/// Sums of the counts of chains.
#[derive(Drop)]
pub(crate) struct Sums {
    /// For each edge those of the chains through it, at most the greatest number of 64 bits.
    pub through: EdgeNumbers,
    /// Those of all chains, at most the greatest number of 64 bits.
    pub total: u64,
}

/// Whether an amount is a cost, and less than this.
fn costs_less(amount: u32, sum: u64) -> bool
    ensures { result ≡ (not (amount == 0) && nat_lt amount sum) }
{
    amount != 0 && u64::from(amount) < sum
}

/// Whether an edge that is not fixed costs less than its sum.
pub(crate) fn is_any_over(graph: &Graph, fixed: &Fixed, through: &EdgeNumbers) -> bool
    requires fixed { length fixed.now ≡ length graph.now.edges }
    requires through { length through.now ≡ length graph.now.edges }
    ensures { MatchBool result ((i : ℕ) × (is_editable graph.now (fixed_by fixed.now) i ≡ true)
        × (costs_by fixed.now i < slice_index through.now i))
        ((i : ℕ) → is_editable graph.now (fixed_by fixed.now) i ≡ true →
        slice_index through.now i ≤ costs_by fixed.now i) }
{
    for index in 0..graph.edges().len() {
        if costs_less(fixed.amount(index), through.at(index)) {
            return true;
        }
    }
    false
}
