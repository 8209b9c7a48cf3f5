//! Which edges of a graph leave files that are kept as they are.
ghost use Rattle.std.specs.Prelude.{◌≡◌, ◌<◌, ◌+◌, ℕ, true, false, List, length, map, slice_index_or, if◌then◌else◌};
ghost use Rattle.inc_graph.specs.Cuts.{are_amounts};
ghost use Rattle.inc_graph.specs.IncludeGraph as spec;
ghost use Rattle.inc_graph.specs.KeptEdges.{kept_up_to};
ghost use Rattle.inc_graph.specs.MarkedEdges.{is_kept};
ghost use Rattle.inc_graph.specs.Views.{numbered};

use crate::graphs::{Edge, Graph};

/// Gives the edges that leave a file with a flag the amount 0.
pub(crate) fn keep_edges(graph: &Graph, amounts: &mut Vec<u32>, kept: &[bool])
    requires long { length amounts.old.items ≡ length graph.now.edges }
    ensures amounts { (f : (e : spec.Edge) → ℕ) → amounts.old.items ≡ map f graph.now.edges →
        amounts.new.items ≡ map (λ (e : spec.Edge). if is_kept kept.now e then 0 else f e) graph.now.edges }
    ensures within { are_amounts amounts.old.items ≡ true → are_amounts amounts.new.items ≡ true }
{
    let edges = graph.edges();
    for index in 0..amounts.len() {
        keep_edge(edges, amounts, kept, index);
    }
}

/// Gives the edge with this number the amount 0 if it leaves a file with a flag.
fn keep_edge(edges: &[Edge], amounts: &mut Vec<u32>, kept: &[bool], index: usize)
    requires edge { index < length edges.now }
    requires amount { index < length amounts.old.items }
    ensures long { length amounts.new.items ≡ length amounts.old.items }
    ensures amounts { (f : (e : spec.Edge) → ℕ) (es : List spec.Edge) → edges.now ≡ numbered es →
        amounts.old.items ≡ kept_up_to kept.now f es index →
        amounts.new.items ≡ kept_up_to kept.now f es (index + 1) }
    ensures within { are_amounts amounts.old.items ≡ true → are_amounts amounts.new.items ≡ true }
{
    if has_flag(kept, edges[index].from.index()) {
        amounts[index] = 0;
    }
}

/// Whether the file at a place has a flag.
fn has_flag(flags: &[bool], place: usize) -> bool
    ensures { result ≡ slice_index_or flags.now place false }
{
    match flags.get(place) {
        Some(flag) => *flag,
        None => false,
    }
}
