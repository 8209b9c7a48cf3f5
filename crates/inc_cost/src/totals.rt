//! What all sources reach, and what that weighs.
ghost use Rattle.std.specs.Prelude.{◌≡◌, ◌<◌, ◌≤◌, ◌*◌, List, ℕ, length, slice_index_or, IfOk};
ghost use Rattle.std.specs.List.{All};
ghost use Rattle.inc_graph.specs.FileSets.{AreFlags};
ghost use Rattle.inc_cost.specs.Costs.{IsTotal, IsWeight, weight_of};
ghost use Rattle.inc_cost.specs.Searches.{files_in};

use crate::searches::search_from;
use inc_graph::{EdgeId, Graph, Search};
use inc_lookup::FileId;
use std::alloc::{AllocError, Global};

/// What the files weigh that the sources reach without the removed directives, a file once for each source that reaches it.
pub fn total(
    alloc: Global,
    graph: &Graph,
    weights: &[u32],
    removed: &[EdgeId],
) -> Result<u64, AllocError>
    requires { All (λ edge. edge < length graph.now.edges) removed.now }
    ensures { IfOk result (λ total. IsTotal graph.now weights.now removed.now graph.now.sources total) }
{
    let flags = flags_of(alloc, graph.edges().len(), removed)?;
    let mut total = 0;
    for source in graph.sources() {
        total += weigh_from(alloc, graph, weights, &flags, *source)?;
    }
    Ok(total)
}

/// A flag for each of so many edges, true for these.
pub(crate) fn flags_of(
    alloc: Global,
    count: usize,
    edges: &[EdgeId],
) -> Result<Vec<bool>, AllocError>
    requires { All (λ edge. edge < count) edges.now }
    ensures flags { IfOk result (λ flags. AreFlags edges.now flags.items) }
    ensures long { IfOk result (λ flags. length flags.items ≡ count) }
{
    let mut flags = vec![in alloc; false; count]?;
    for edge in edges {
        flags[edge.index()] = true;
    }
    Ok(flags)
}

/// What the files weigh that a source reaches by edges without a flag.
pub(crate) fn weigh_from(
    alloc: Global,
    graph: &Graph,
    weights: &[u32],
    flags: &[bool],
    source: FileId,
) -> Result<u64, AllocError>
    requires flags { length flags.now ≡ length graph.now.edges }
    requires source { source < graph.now.files }
    ensures weight { IfOk result (λ weight. (set : List ℕ) → AreFlags set flags.now →
        IsWeight graph.now weights.now set source weight) }
    ensures most { IfOk result (λ weight. weight ≤ 65_535 * 4_294_967_295) }
{
    let search = search_from(alloc, graph, flags, source)?;
    Ok(weigh(&search, weights))
}

/// What the files weigh that a search has reached.
pub(crate) fn weigh(search: &Search<()>, weights: &[u32]) -> u64
    ensures weight { result ≡ weight_of weights.now (files_in search.now) }
    ensures most { result ≤ 65_535 * 4_294_967_295 }
{
    // A queue is short, so that the sum has 64 bits.
    let _few = search.len();
    let mut sum = 0;
    for visit in search.visits() {
        sum += u64::from(weight(weights, visit.file));
    }
    sum
}

/// What a file weighs; nothing where it has no weight.
pub(crate) fn weight(weights: &[u32], file: FileId) -> u32
    ensures { result ≡ slice_index_or weights.now file 0 }
{
    match weights.get(file.index()) {
        Some(weight) => *weight,
        None => 0,
    }
}
