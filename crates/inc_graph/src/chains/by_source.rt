//! The shortest chains of a graph by the sources that they begin at, made one at a time.
ghost use Rattle.std.specs.Prelude.{◌≡◌, ◌<◌, ◌-◌, ℕ, List, [], ◌∷◌, length, slice_get, take, if◌then◌else◌, IfOk, IfSome, None};
ghost use Rattle.inc_graph.specs.Chains.{target};
ghost use Rattle.inc_graph.specs.Distances.{AreWays, IsNextReaching, distance, reaching_from, walk_by};
ghost use Rattle.inc_graph.specs.Reaching.{AreReaching};

use crate::chains::distances::{distances_of, first_steps, search_back};
use crate::graphs::{EdgeId, Graph};
use inc_lookup::FileId;
use std::alloc::{AllocError, Global};
use std::marker::Model;

/// The sources of a graph that reach a header, in order, each with the first of the shortest chains that begin there. They are found by one
/// search back from all headers, and a chain is made in room that is taken at the start, when it is asked for.
#[derive(Drop)]
pub struct SourceChains<'g> {
    graph: &'g Graph,
    /// For each file 1 plus how many edges a shortest walk to a header has, or 0 where there is none.
    distances: Vec<u16>,
    /// For each file the first edge of the first of these walks.
    steps: Vec<EdgeId>,
    /// Room for the edges of a chain: the one that was made last is at its front.
    edges: Vec<EdgeId>,
    /// How many edges that chain has.
    made: usize,
    /// The source at hand.
    source: FileId,
    /// The place of the next source to look at.
    next: usize,
}

impl<'g> Model for SourceChains<'g> {
    ghost use Rattle.std.specs.Prelude.{◌≡◌, ◌≤◌, ◌<◌, length, take};
    ghost use Rattle.inc_graph.specs.ChainLists.{ReachingList};
    ghost use Rattle.inc_graph.specs.Distances.{AreWays, reaching_by, reaching_from};

    ghost Value = { ReachingList };

    ghost view = { λ c. record {
      graph = c.graph.now;
      at = reaching_by c.graph.now c.distances.items c.steps.items c.source;
      made = take c.made c.edges.items;
      left = reaching_from c.graph.now c.distances.items c.steps.items c.next;
    } };

    ghost invariant = { λ c. AreWays c.graph.now c.distances.items c.steps.items (length c.edges.items)
        × (c.source < c.graph.now.files)
        × (c.made ≤ length c.edges.items) };
}

impl<'g> SourceChains<'g> {
    /// All sources of a graph that reach a header.
    pub fn new(alloc: Global, graph: &'g Graph) -> Result<SourceChains<'g>, AllocError>
        ensures graph { IfOk result (λ chains. chains.graph ≡ graph.now) }
        ensures all { IfOk result (λ chains. AreReaching graph.now graph.now.sources chains.left) }
    {
        let search = search_back(alloc, graph)?;
        let distances = distances_of(alloc, graph, &search)?;
        let steps = first_steps(alloc, graph, &distances)?;
        let edges = vec![in alloc; EdgeId::new(0); search.len()]?;
        Ok(SourceChains {
            graph,
            distances,
            steps,
            edges,
            made: 0,
            source: graph.first_file(),
            next: 0,
        })
    }

    /// How many sources are left.
    pub fn count(&self) -> usize
        ensures { result ≡ length self.now.left }
    {
        let mut count = 0;
        let mut at = self.next;
        while let Some(after) = next_reaching(self.graph, &self.distances, at) {
            count += 1;
            at = after;
        }
        count
    }

    /// Goes on to the next source, and reports whether one was left.
    pub fn advance(&mut self) -> bool
        ensures graph { self.new.graph ≡ self.old.graph }
        ensures source { self.old.left ≡ (if result then self.new.at ∷ self.new.left else []) }
    {
        match next_reaching(self.graph, &self.distances, self.next) {
            Some(after) => {
                self.source = self.graph.sources()[after - 1];
                self.next = after;
                true
            }
            None => false,
        }
    }

    /// The source at hand.
    pub fn source(&self) -> FileId
        ensures source { result ≡ self.now.at.source }
        ensures within { result < self.now.graph.files }
    {
        self.source
    }

    /// How many edges the chain of the source at hand has.
    pub fn len(&self) -> u32
        ensures { result ≡ length self.now.at.chain }
    {
        u32::from(steps_from(&self.distances, self.source))
    }

    /// The first edge of the chain of the source at hand, if it has one.
    pub fn first(&self) -> Option<EdgeId>
        ensures { result ≡ slice_get self.now.at.chain 0 }
    {
        if steps_from(&self.distances, self.source) == 0 {
            return None;
        }
        Some(self.steps[self.source.index()])
    }

    /// Makes the chain of the source at hand.
    pub fn make(&mut self)
        ensures graph { self.new.graph ≡ self.old.graph }
        ensures at { self.new.at ≡ self.old.at }
        ensures made { self.new.made ≡ self.old.at.chain }
        ensures left { self.new.left ≡ self.old.left }
    {
        let len = steps_from(&self.distances, self.source);
        self.made = usize::from(len);
        put_walk(
            self.graph,
            &self.distances,
            &self.steps,
            self.source,
            &mut self.edges,
        );
    }

    /// The edges of the chain that was made last, from its source on.
    pub fn edges(&self) -> &[EdgeId]
        ensures { result.now ≡ self.now.made }
    {
        &self.edges[..self.made]
    }
}

/// The place after that of the next source that reaches a header, of the sources from this place on.
fn next_reaching(graph: &Graph, distances: &[u16], next: usize) -> Option<usize>
    requires { length distances.now ≡ graph.now.files }
    ensures none { result ≡ None → (steps : List ℕ) → reaching_from graph.now distances.now steps next ≡ [] }
    ensures some { IfSome result (λ after. IsNextReaching graph.now distances.now next after) }
{
    let sources = graph.sources();
    let mut at = next;
    while at < sources.len() {
        let source = sources[at];
        at += 1;
        if distances[source.index()] != 0 {
            return Some(at);
        }
    }
    None
}

/// How many edges the walk from a file to a header has.
fn steps_from(distances: &[u16], file: FileId) -> u16
    requires { file < length distances.now }
    ensures { result ≡ distance distances.now file - 1 }
{
    distances[file.index()].saturating_sub(1)
}

/// Puts the walk from a file to a header to the front of `edges`.
fn put_walk(
    graph: &Graph,
    distances: &[u16],
    steps: &[EdgeId],
    start: FileId,
    edges: &mut Vec<EdgeId>,
)
    requires ways { AreWays graph.now distances.now steps.now (length edges.old.items) }
    requires start { start < graph.now.files }
    ensures walk { take (distance distances.now start - 1) edges.new.items
        ≡ walk_by graph.now steps.now (distance distances.now start - 1) start }
    ensures long { length edges.new.items ≡ length edges.old.items }
{
    let mut file = start;
    for place in 0..usize::from(steps_from(distances, start)) {
        let step = steps[file.index()];
        edges[place] = step;
        file = target_of(graph, step);
    }
}

/// The file that an edge leads to.
fn target_of(graph: &Graph, edge: EdgeId) -> FileId
    requires { edge < length graph.now.edges }
    ensures target { result ≡ target graph.now edge }
    ensures within { result < graph.now.files }
{
    let found = &graph.edges()[edge.index()];
    found.to
}
