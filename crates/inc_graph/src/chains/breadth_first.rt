//! The breadth-first search from the sources of a graph.
ghost use Rattle.std.specs.Prelude.{◌≡◌, ◌<◌, length, IfOk, OnOk};
ghost use Rattle.inc_graph.specs.BreadthFirst.{IsFinished, edge_next};
ghost use Rattle.inc_graph.specs.IncludeGraph.{IsSound};
ghost use Rattle.inc_graph.specs.Indexes.{edges_leaving};
ghost use Rattle.inc_graph.specs.Search.{file_at, with_candidates};

use crate::graphs::{EdgeId, Graph};
use crate::search::Search;
use std::alloc::{AllocError, Global};

/// Reaches each file that a source reaches by the first of the shortest paths to it.
pub(crate) fn search_first_paths(alloc: Global, graph: &Graph) -> Result<Search<EdgeId>, AllocError>
    ensures { IfOk result (λ search. IsFinished graph.now search) }
{
    let mut search = Search::start(alloc, graph.files(), graph.sources())?;
    let mut taken = 0;
    while taken < search.len() {
        follow_edges(&mut search, graph, taken)?;
        taken += 1;
    }
    Ok(search)
}

/// Follows each edge that leaves the file at a place of the queue.
fn follow_edges(search: &mut Search<EdgeId>, graph: &Graph, place: usize) -> Result<(), AllocError>
    requires place { place < length search.old.visits }
    requires file { file_at search.old.visits place < graph.now.files }
    requires files { search.old.files ≡ graph.now.files }
    requires sound { IsSound graph.now }
    ensures { OnOk result (search.new ≡ with_candidates edge_next place search.old
        (edges_leaving graph.now.edges (file_at search.old.visits place))) }
{
    let file = search.file(place);
    for edge in graph.leaving(file) {
        search.reach(edge.id, place, edge.to)?;
    }
    Ok(())
}
