//! The shortest chains of a graph, made one at a time.
ghost use Rattle.std.specs.Prelude.{◌≡◌, ◌<◌, ◌++◌, [], ◌∷◌, Some, None, option_map, length, drop, if◌then◌else◌, IfOk, IfSome};
ghost use Rattle.inc_graph.specs.BreadthFirst.{IsFinished, IsNextEnding, chain_ending, chains_ending};
ghost use Rattle.inc_graph.specs.Search.{path_to};
ghost use Rattle.inc_graph.specs.Chains.{IsShortestOrNone, AreChainsByLast};

use crate::chains::breadth_first::search_first_paths;
use crate::graphs::{Edge, EdgeId, Graph};
use crate::search::Search;
use std::alloc::{AllocError, Global};
use std::marker::Model;

/// The shortest chains of a graph: for each edge into a header that ends a chain, by number, the first of the shortest that it
/// ends. They are made one at a time in room that is taken at the start.
#[derive(Drop)]
pub struct ShortestChains<'g> {
    graph: &'g Graph,
    search: Search<EdgeId>,
    /// Room for the edges of a chain: the one that was made last is at its end.
    edges: Vec<EdgeId>,
    /// Where that chain begins.
    start: usize,
    /// The number of the next edge to look at.
    next: usize,
}

impl<'g> Model for ShortestChains<'g> {
    ghost use Rattle.std.specs.Prelude.{◌≡◌, ◌≤◌, length, drop};
    ghost use Rattle.inc_graph.specs.BreadthFirst.{IsFinished, chains_ending};
    ghost use Rattle.inc_graph.specs.ChainLists.{ChainList};

    ghost Value = { ChainList };

    ghost view = { λ c. record {
      graph = c.graph.now;
      chain = drop c.start c.edges.items;
      left = chains_ending c.graph.now c.search c.next;
    } };

    ghost invariant = { λ c. IsFinished c.graph.now c.search
        × (length c.edges.items ≡ length c.search.visits)
        × (c.start ≤ length c.edges.items) };
}

/// An edge into a header that ends a chain.
#[derive(Clone, Copy)]
struct Ending {
    edge: EdgeId,
    /// The place in the queue of the file that it leaves.
    from: u32,
    /// The number after its own.
    next: usize,
}

impl<'g> ShortestChains<'g> {
    /// All chains of a graph, in the order of their last edges.
    pub fn new(alloc: Global, graph: &'g Graph) -> Result<ShortestChains<'g>, AllocError>
        ensures graph { IfOk result (λ chains. chains.graph ≡ graph.now) }
        ensures all { IfOk result (λ chains. AreChainsByLast graph.now 0 chains.left) }
    {
        let search = search_first_paths(alloc, graph)?;
        let edges = vec![in alloc; EdgeId::new(0); search.len()]?;
        Ok(ShortestChains {
            graph,
            search,
            edges,
            start: 0,
            next: 0,
        })
    }

    /// How many chains are left. Each edge is looked at.
    pub fn count(&self) -> usize
        ensures { result ≡ length self.now.left }
    {
        let mut count = 0;
        let mut at = self.next;
        while let Some(ending) = next_ending(self.graph, &self.search, at) {
            count += 1;
            at = ending.next;
        }
        count
    }

    /// The edges of the chain that was made last, from the source on.
    pub fn edges(&self) -> &[EdgeId]
        ensures { result.now ≡ self.now.chain }
    {
        &self.edges[self.start..]
    }

    /// Makes the first of the shortest chains, in the order of their lists of edge numbers, and reports whether there is one.
    pub fn find_shortest(&mut self) -> bool
        ensures graph { self.new.graph ≡ self.old.graph }
        ensures chain { IsShortestOrNone self.old.graph
            (if result then Some self.new.chain else None) }
        ensures left { self.new.left ≡ self.old.left }
    {
        let end = self.edges.len();
        match self.search.first_of(self.graph.headers()) {
            Some(place) => {
                self.start = self.search.trace(place as usize, &mut self.edges, end);
                true
            }
            None => false,
        }
    }

    /// Makes the next chain, and reports whether one was left.
    pub fn advance(&mut self) -> bool
        ensures graph { self.new.graph ≡ self.old.graph }
        ensures chain { self.old.left ≡ (if result then self.new.chain ∷ self.new.left else []) }
    {
        match next_ending(self.graph, &self.search, self.next) {
            Some(ending) => {
                let end = self.edges.len() - 1;
                self.edges[end] = ending.edge;
                self.start = self
                    .search
                    .trace(ending.from as usize, &mut self.edges, end);
                self.next = ending.next;
                true
            }
            None => false,
        }
    }
}

/// The first edge into a header that ends a chain, of the edges from this number on.
fn next_ending(graph: &Graph, search: &Search<EdgeId>, next: usize) -> Option<Ending>
    requires { IsFinished graph.now search.now }
    ensures none { result ≡ None → chains_ending graph.now search.now next ≡ [] }
    ensures some { IfSome result (λ e. IsNextEnding graph.now search.now next e) }
{
    let edges = graph.edges();
    let mut at = next;
    while at < edges.len() {
        let last = &edges[at];
        if let Some(from) = place_before(graph, search, last) {
            let (edge, next) = (last.id, at + 1);
            return Some(Ending { edge, from, next });
        }
        at += 1;
    }
    None
}

/// The place in the queue of the file that an edge into a header leaves; `None` of another edge, and where the file is not reached.
#[inline(always)]
fn place_before(graph: &Graph, search: &Search<EdgeId>, last: &Edge) -> Option<u32>
    requires edge { last.now.from < search.now.files }
    ensures chain { chain_ending graph.now search.now last.now
        ≡ option_map (λ k. path_to search.now.visits k ++ last.now.id ∷ []) result }
    ensures within { IfSome result (λ place. place < length search.now.visits) }
{
    if !graph.is_header(last.to) {
        return None;
    }
    search.place_of(last.from)
}
