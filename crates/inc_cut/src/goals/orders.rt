//! An order of files along a flow.
ghost use Rattle.std.specs.Prelude.{◌≡◌, length};

use crate::flows::{Flow, edge_count};
use inc_graph::TwoWayGraph;
use inc_lookup::FileId;
use std::alloc::{AllocError, Global};

/// A search depth first along edges with flow.
#[derive(Drop)]
struct Depth {
    /// For each file whether it is met.
    met: Vec<bool>,
    /// For each file its level, 0 until all that flows on from it is met.
    levels: Vec<u16>,
    /// The level of the next file that is done.
    next: u16,
}

/// A file whose edges are being followed.
#[derive(Clone, Copy)]
struct Visit {
    file: FileId,
    /// How many of its edges are followed.
    done: usize,
}

/// For each file a level, so that each edge with flow leads to a greater one, but for one edge or more of each circle of flow; 0 for files
/// to which nothing flows from a source.
pub(crate) fn levels_of(
    alloc: Global,
    graph: &TwoWayGraph<'_>,
    flow: &Flow,
) -> Result<Vec<u16>, AllocError>
    requires { length flow.now ≡ length graph.now.edges }
{
    let mut depth = Depth {
        met: vec![in alloc; false; graph.files()]?,
        levels: vec![in alloc; 0; graph.files()]?,
        next: u16::MAX,
    };
    for source in graph.sources() {
        depth.search(alloc, graph, flow, *source)?;
    }
    Ok(depth.levels)
}

impl Depth {
    /// Searches from a source.
    fn search(
        &mut self,
        alloc: Global,
        graph: &TwoWayGraph<'_>,
        flow: &Flow,
        source: FileId,
    ) -> Result<(), AllocError>
        requires { length flow.now ≡ length graph.now.edges }
    {
        let mut way = Vec::new(alloc);
        self.meet(&mut way, source)?;
        // A file is taken once for each of its edges and once more.
        let most = graph.files().saturating_add(graph.edges().len());
        for _ in 0..most {
            let Some(visit) = way.pop() else {
                break;
            };
            self.follow(graph, flow, &mut way, visit)?;
        }
        Ok(())
    }

    /// Follows the next edge of a file, or gives it its level where none is left.
    fn follow(
        &mut self,
        graph: &TwoWayGraph<'_>,
        flow: &Flow,
        way: &mut Vec<Visit>,
        visit: Visit,
    ) -> Result<(), AllocError>
        requires { length flow.now ≡ length graph.now.edges }
    {
        let Visit { file, done } = visit;
        if file.index() >= graph.files() {
            return Ok(());
        }
        let Some(edge) = graph.leaving(file).get(done) else {
            self.end(file);
            return Ok(());
        };
        let done = done.saturating_add(1);
        way.push(Visit { file, done })?;
        if edge.id.index() < edge_count(graph) && flow.on(edge.id) > 0 {
            self.meet(way, edge.to)?;
        }
        Ok(())
    }

    /// Has the edges of a file followed, if it was not met yet.
    fn meet(&mut self, way: &mut Vec<Visit>, file: FileId) -> Result<(), AllocError> {
        let place = file.index();
        if place < self.met.len() && !self.met[place] {
            self.met[place] = true;
            way.push(Visit { file, done: 0 })?;
        }
        Ok(())
    }

    /// Gives a file the next level.
    fn end(&mut self, file: FileId) {
        if file.index() < self.levels.len() {
            self.levels[file.index()] = self.next;
            self.next = self.next.saturating_sub(1);
        }
    }
}
