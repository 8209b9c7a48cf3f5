//! How far the files of a graph are from its headers.
ghost use Rattle.std.specs.Prelude.{◌≡◌, ◌==◌, ◌+◌, ◌<◌, ◌≤◌, ℕ, Some, length, IfOk, IfSome, OnOk};
ghost use Rattle.std.specs.Option.{option_map_or};
ghost use Rattle.inc_graph.specs.Distances.{AreDistances, AreStepsFrom, IsFinishedBack, back_next, distance};
ghost use Rattle.inc_graph.specs.Indexes.{edges_entering};
ghost use Rattle.inc_graph.specs.Search.{file_at, with_candidates};

use crate::graphs::{Edge, EdgeId, Graph};
use crate::search::{Search, Visit};
use crate::two_way::TwoWayGraph;
use inc_lookup::FileId;
use std::alloc::{AllocError, Global};

/// Goes back along edges from the headers, and reaches each file from which a walk leads to one.
pub(crate) fn search_back(alloc: Global, graph: &Graph) -> Result<Search<EdgeId>, AllocError>
    ensures { IfOk result (λ search. IsFinishedBack graph.now search) }
{
    let two_way = TwoWayGraph::new(alloc, graph)?;
    let mut search = Search::start(alloc, graph.files(), graph.headers())?;
    let mut taken = 0;
    while taken < search.len() {
        follow_back(&mut search, &two_way, taken)?;
        taken += 1;
    }
    Ok(search)
}

/// Goes back along each edge that leads to the file at a place of the queue.
fn follow_back(
    search: &mut Search<EdgeId>,
    graph: &TwoWayGraph<'_>,
    place: usize,
) -> Result<(), AllocError>
    requires place { place < length search.old.visits }
    requires file { file_at search.old.visits place < graph.now.files }
    requires files { search.old.files ≡ graph.now.files }
    ensures { OnOk result (search.new ≡ with_candidates (back_next graph.now) place search.old
        (edges_entering graph.now.edges (file_at search.old.visits place))) }
{
    let file = search.file(place);
    for edge in graph.entering(file) {
        search.reach(*edge, place, left_by(graph, *edge))?;
    }
    Ok(())
}

/// The file that an edge leaves.
#[inline(always)]
fn left_by(graph: &TwoWayGraph<'_>, edge: EdgeId) -> FileId
    requires { edge < length graph.now.edges }
    ensures step { back_next graph.now edge ≡ Some (record { step = edge; to = result }) }
    ensures within { result < graph.now.files }
{
    let found = &graph.edges()[edge.index()];
    found.from
}

/// For each file 1 plus how many edges a shortest walk to a header has, or 0 where there is none.
pub(crate) fn distances_of(
    alloc: Global,
    graph: &Graph,
    search: &Search<EdgeId>,
) -> Result<Vec<u16>, AllocError>
    requires { IsFinishedBack graph.now search.now }
    ensures distances { IfOk result (λ distances. AreDistances graph.now distances.items) }
    ensures most { IfOk result (λ distances. (f : ℕ) → distance distances.items f ≤ length search.now.visits) }
{
    // A queue is short, so that a distance has 16 bits.
    let _few = search.len();
    let mut distances = vec![in alloc; 0_u16; graph.files()]?;
    for visit in search.visits() {
        let before = parent_distance(&distances, search, visit);
        distances[visit.file.index()] = before + 1;
    }
    Ok(distances)
}

/// The distance of the file from which a file was reached, 0 of a header.
#[inline(always)]
fn parent_distance(distances: &[u16], search: &Search<EdgeId>, visit: &Visit<EdgeId>) -> u16
    requires { IfSome visit.now.parent (λ p. (p.from < length search.now.visits)
        × (file_at search.now.visits p.from < length distances.now)) }
    ensures { result ≡ option_map_or (λ p. distance distances.now (file_at search.now.visits p.from)) visit.now.parent 0 }
{
    match visit.parent {
        Some(parent) => distances[search.file(usize::from(parent.from)).index()],
        None => 0,
    }
}

/// For each file the first edge that leads to a file which is nearer to a header by 1; any edge where none does.
pub(crate) fn first_steps(
    alloc: Global,
    graph: &Graph,
    distances: &[u16],
) -> Result<Vec<EdgeId>, AllocError>
    requires { length distances.now ≡ graph.now.files }
    ensures steps { IfOk result (λ steps. AreStepsFrom graph.now distances.now 0 steps.items) }
    ensures long { IfOk result (λ steps. length steps.items ≡ graph.now.files) }
{
    let mut steps = vec![in alloc; EdgeId::new(0); graph.files()]?;
    let edges = graph.edges();
    let mut first = edges.len();
    // From the last edge back, so that an earlier one of a file takes the place of a later one.
    while first > 0 {
        first -= 1;
        let edge = &edges[first];
        if is_nearer(distances, edge) {
            steps[edge.from.index()] = edge.id;
        }
    }
    Ok(steps)
}

/// Whether an edge leads to a file that is nearer by 1.
#[inline(always)]
fn is_nearer(distances: &[u16], edge: &Edge) -> bool
    requires from { edge.now.from < length distances.now }
    requires to { edge.now.to < length distances.now }
    ensures { result ≡ (distance distances.now edge.now.from == distance distances.now edge.now.to + 1) }
{
    let (from, to) = (edge.from.index(), edge.to.index());
    u32::from(distances[from]) == u32::from(distances[to]) + 1
}
