//! Shortest chains of edges from sources to headers.
ghost use Rattle.std.specs.Prelude.{◌≡◌, [], map, option_map, IfOk};
ghost use Rattle.inc_graph.specs.Chains.{is_chain, IsShortestOrNone, AreChainsByLast};

mod breadth_first;
mod by_last;
mod by_source;
mod distances;

pub use crate::chains::by_last::ShortestChains;
pub use crate::chains::by_source::SourceChains;
use crate::graphs::{EdgeId, Graph};
use inc_text::Items;
use std::alloc::{AllocError, Global};

/// A chain: edges from a source to a header, each beginning in the file where the last one ended, no file twice. It is empty where the
/// source is the header.
#[derive(Drop)]
pub struct Chain {
    /// The edges, from the source on.
    pub edges: Items<EdgeId>,
}

impl Chain {
    /// The chain of these edges.
    fn copied(alloc: Global, edges: &[EdgeId]) -> Result<Chain, AllocError>
        ensures { IfOk result (λ chain. chain.edges ≡ edges.now) }
    {
        Ok(Chain {
            edges: Items::new(Vec::from_slice(alloc, edges)?),
        })
    }
}

impl Graph {
    /// Whether the empty list is a chain: a source is a header.
    pub fn has_empty_chain(&self) -> bool
        ensures { result ≡ is_chain self.now [] }
    {
        self.sources().iter().any(|file| self.is_header(*file))
    }

    /// The first of the shortest chains, in the order of their lists of edge numbers; `None` where there is no chain.
    pub fn shortest(&self, alloc: Global) -> Result<Option<Chain>, AllocError>
        ensures { IfOk result (λ chain. IsShortestOrNone self.now
            (option_map (λ (c : Chain). c.edges) chain)) }
    {
        let mut chains = ShortestChains::new(alloc, self)?;
        if !chains.find_shortest() {
            return Ok(None);
        }
        Ok(Some(Chain::copied(alloc, chains.edges())?))
    }

    /// For each edge into a header that ends a chain, by number, the first of the shortest chains that it ends.
    /// [`ShortestChains`] makes them one at a time, in the memory of one.
    pub fn chains_by_last(&self, alloc: Global) -> Result<Vec<Chain>, AllocError>
        ensures { IfOk result (λ chains. AreChainsByLast self.now 0
            (map (λ (c : Chain). c.edges) chains.items)) }
    {
        let mut left = ShortestChains::new(alloc, self)?;
        let mut chains = Vec::new(alloc);
        while left.advance() {
            chains.push(Chain::copied(alloc, left.edges())?)?;
        }
        Ok(chains)
    }
}
