//! Files that reach what they may not.
ghost use Rattle.std.specs.Prelude.{◌≡◌, ◌++◌, ◌∷◌, ◌<◌, [], length, map, slice_index_or, IfOk};
ghost use Rattle.std.specs.List.{All};
ghost use Rattle.std.specs.List.Sorted.{IsStrictlyIncreasing};
ghost use Rattle.inc_graph.specs.Reaching.{Reaching};
ghost use Rattle.inc_rules.specs.Judging.{AreReachChains};

use inc_graph::{EdgeId, Graph, SourceChains};
use inc_lookup::FileId;
use std::alloc::{AllocError, Global};

/// Of each of some files that reaches one of others the first of its shortest chains.
pub(crate) fn reach_chains(
    alloc: Global,
    graph: &Graph,
    from: &[FileId],
    to: &[FileId],
) -> Result<Vec<Vec<EdgeId>>, AllocError>
    requires from { All (λ f. f < graph.now.files) from.now }
    requires from_rise { IsStrictlyIncreasing from.now }
    requires to { All (λ f. f < graph.now.files) to.now }
    requires to_rise { IsStrictlyIncreasing to.now }
    ensures { IfOk result (λ chains. AreReachChains from.now to.now graph.now (map (λ c. c.items) chains.items)) }
{
    if from.is_empty() {
        return Ok(Vec::new(alloc));
    }
    let part = graph.between(alloc, from, to)?;
    let mut reaching = SourceChains::new(alloc, &part.graph)?;
    whole_chains(alloc, &mut reaching, &part.numbers)
}

/// The chains that are left, each by its numbers in the whole graph.
fn whole_chains(
    alloc: Global,
    reaching: &mut SourceChains<'_>,
    numbers: &[EdgeId],
) -> Result<Vec<Vec<EdgeId>>, AllocError>
    requires { All (λ (x : Reaching). All (λ i. i < length numbers.now) x.chain) reaching.old.left }
    ensures { IfOk result (λ chains. map (λ c. c.items) chains.items
        ≡ map (λ (x : Reaching). map (λ i. slice_index_or numbers.now i 0) x.chain) reaching.old.left) }
{
    let mut chains = Vec::new(alloc);
    while reaching.advance() {
        reaching.make();
        chains.push(whole_chain(alloc, reaching.edges(), numbers)?)?;
    }
    Ok(chains)
}

/// The edges of a chain of a part of a graph, by their numbers in the whole.
fn whole_chain(
    alloc: Global,
    edges: &[EdgeId],
    numbers: &[EdgeId],
) -> Result<Vec<EdgeId>, AllocError>
    requires { All (λ i. i < length numbers.now) edges.now }
    ensures { IfOk result (λ chain. chain.items ≡ map (λ i. slice_index_or numbers.now i 0) edges.now) }
{
    let mut chain = Vec::with_capacity(alloc, edges.len())?;
    for edge in edges {
        chain.push(numbers[edge.index()])?;
    }
    Ok(chain)
}
