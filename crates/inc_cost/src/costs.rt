//! What includes cost all sources together.
ghost use Rattle.std.specs.Prelude.{◌≡◌, ◌<◌, ◌≤◌, ◌*◌, ◌+◌, ℕ, List, [], ◌∷◌, ◌++◌, length, IfOk};
ghost use Rattle.inc_cost.specs.Costs.{IsTotal, AreSaved, AreAllBrought};
ghost use Rattle.inc_cost.specs.Shares.{AreSourceShares};
ghost use Rattle.inc_cost.specs.Sums.{AreCosts, AreAllBelow, AreBothBelow, AreFitting, IsFitting, AreBothAdded, AreAllAdded};

use crate::adding::{Shares, add};
use crate::certified::certified;
use crate::searched::searched;
use inc_graph::{Graph, TwoWayGraph};
use inc_lookup::FileId;
use std::alloc::{AllocError, Global};

/// An amount for each edge, or for each file.
#[derive(Drop)]
pub struct Amounts {
    /// Its bytes.
    pub bytes: Vec<u64>,
    /// How many sources count in it.
    pub counts: Vec<u64>,
}

/// What includes cost all sources together.
#[derive(Drop)]
pub struct Costs {
    /// What all files weigh that sources reach, a file once for each source that reaches it.
    pub total: u64,
    /// For each edge how much less that is without it alone, and of how many sources it takes something away.
    pub edges: Amounts,
    /// For each file what comes into sources only through it, itself with that, and how many sources reach it.
    pub files: Amounts,
}

/// What one source adds to the costs.
#[derive(Drop)]
pub(crate) struct SourceShares {
    /// What the files weigh that it reaches.
    pub total: u64,
    pub edges: Shares,
    pub files: Shares,
}

impl Costs {
    /// What includes cost the sources of a graph, whose files have these weights; those past the end have none.
    ///
    /// For each source the time is that of as many steps as the project has files and as edges leave the files that it reaches, and for these
    /// edges a factor of the logarithm of the number of those files. The memory is that of some numbers for each file and each edge.
    pub fn new(alloc: Global, graph: &Graph, weights: &[u32]) -> Result<Costs, AllocError>
        ensures total { IfOk result (λ costs. IsTotal graph.now weights.now [] graph.now.sources costs.total) }
        ensures edges { IfOk result (λ costs. AreSaved graph.now weights.now graph.now.sources costs.edges.bytes.items costs.edges.counts.items) }
        ensures files { IfOk result (λ costs. AreAllBrought graph.now weights.now graph.now.sources costs.files.bytes.items costs.files.counts.items) }
    {
        let back = TwoWayGraph::new(alloc, graph)?;
        let costs = Costs::summed(alloc, graph, &back, weights)?;
        Ok(costs)
    }

    /// The same with the edges that lead to each file.
    fn summed(
        alloc: Global,
        graph: &Graph,
        back: &TwoWayGraph<'_>,
        weights: &[u32],
    ) -> Result<Costs, AllocError>
        requires back { back.now ≡ graph.now }
        ensures { IfOk result (λ costs. AreCosts graph.now weights.now graph.now.sources costs) }
    {
        let _sound = graph.files();
        let mut costs = Costs::none(alloc, graph, weights)?;
        for source in graph.sources() {
            let shares = shares_of(alloc, graph, back, weights, *source)?;
            costs.add(&shares);
        }
        Ok(costs)
    }

    /// Those of no source.
    fn none(alloc: Global, graph: &Graph, _weights: &[u32]) -> Result<Costs, AllocError>
        ensures costs { IfOk result (λ costs. AreCosts graph.now _weights.now [] costs) }
        ensures below { IfOk result (λ costs. AreAllBelow 0 costs) }
    {
        let edges = Amounts::none(alloc, graph.edges().len())?;
        let files = Amounts::none(alloc, graph.files())?;
        Ok(Costs {
            total: 0,
            edges,
            files,
        })
    }

    /// Adds what one source adds.
    fn add(&mut self, shares: &SourceShares)
        requires fitting { IsFitting self.old shares.now }
        requires room { AreAllBelow (65_534 * 281_470_681_677_825) self.old }
        ensures added { AreAllAdded shares.now self.old self.new }
        ensures below { (most : ℕ) → AreAllBelow most self.old → AreAllBelow (most + 281_470_681_677_825) self.new }
    {
        self.total += shares.total;
        self.edges.add(&shares.edges);
        self.files.add(&shares.files);
    }
}

impl Amounts {
    /// So many of 0.
    fn none(alloc: Global, count: usize) -> Result<Amounts, AllocError>
        ensures bytes { IfOk result (λ amounts. length amounts.bytes.items ≡ count) }
        ensures counts { IfOk result (λ amounts. length amounts.counts.items ≡ count) }
        ensures below { IfOk result (λ amounts. AreBothBelow 0 amounts) }
    {
        let bytes = vec![in alloc; 0_u64; count]?;
        let counts = vec![in alloc; 0_u64; count]?;
        Ok(Amounts { bytes, counts })
    }

    /// Adds what one source adds.
    fn add(&mut self, shares: &Shares)
        requires fitting { AreFitting self.old shares.now }
        requires room { AreBothBelow (65_534 * 281_470_681_677_825) self.old }
        ensures added { AreBothAdded shares.now self.old self.new }
        ensures below { (most : ℕ) → AreBothBelow most self.old → AreBothBelow (most + 281_470_681_677_825) self.new }
    {
        add(&mut self.bytes, &shares.keys, &shares.bytes);
        add(&mut self.counts, &shares.keys, &shares.counts);
    }
}

/// What a source adds: by its certificate, or by searches where that is refused.
fn shares_of(
    alloc: Global,
    graph: &Graph,
    back: &TwoWayGraph<'_>,
    weights: &[u32],
    source: FileId,
) -> Result<SourceShares, AllocError>
    requires source { source < graph.now.files }
    requires back { back.now ≡ graph.now }
    ensures { IfOk result (λ shares. AreSourceShares graph.now weights.now source shares) }
{
    if let Some(shares) = certified(alloc, back, weights, source)? {
        return Ok(shares);
    }
    searched(alloc, graph, back, weights, source)
}
