//! A search of the tests' own that finds a path by looking.
ghost use Rattle.std.specs.Prelude.{◌≡◌, ◌<◌, ◌&&◌, ◌∷◌, true, IsTrue, nat_lt, length, map, IfOk};
ghost use Rattle.std.specs.List.{list_all};
ghost use Rattle.inc_graph.specs.Members.{is_distinct, is_member};
ghost use Rattle.inc_cut.specs.Flows.{AreFor, is_open_by, is_path_by, is_walk_by, source_of, step_to};

use inc_cut::{DepthSearch, Flow, Found, PathSearch, Step};
use inc_graph::{EdgeId, Fixed, TwoWayGraph};
use inc_lookup::FileId;
use std::alloc::{AllocError, Global};
use tests_parts::refusing;

/// Gives a path where it finds by looking that it is one of open steps, and else searches depth first.
#[derive(Drop)]
pub struct Looking<'p> {
    pub path: &'p [Step],
    /// How often it gave the path.
    pub times: u32,
}

impl PathSearch for Looking<'_> {
    fn search(
        &mut self,
        alloc: Global,
        graph: &TwoWayGraph<'_>,
        fixed: &Fixed,
        flow: &Flow,
    ) -> Result<Found, AllocError> {
        let path = self.path;
        if finds(alloc, graph, fixed, flow, path)? {
            self.times = self.times.saturating_add(1);
            let steps = Vec::from_slice(alloc, path)?;
            return Ok(Found::Path(steps));
        }
        DepthSearch.search(alloc, graph, fixed, flow)
    }

    fn give_back(&mut self, _steps: Vec<Step>) {}
}

/// Whether steps are such a path. To look takes no memory.
fn finds(
    alloc: Global,
    graph: &TwoWayGraph<'_>,
    fixed: &Fixed,
    flow: &Flow,
    path: &[Step],
) -> Result<bool, AllocError>
    requires { AreFor graph.now fixed.now flow.now }
    ensures { IfOk result (λ found. found ≡ true
        → IsTrue (is_path_by graph.now (is_open_by fixed.now flow.now) path.now)) }
{
    let _refusing = refusing(alloc)?;
    Ok(is_path(graph, fixed, flow, path))
}

/// Whether steps are ones ahead that are open and lead from the first source to the first header, to no file twice.
fn is_path(graph: &TwoWayGraph<'_>, fixed: &Fixed, flow: &Flow, path: &[Step]) -> bool
    requires { AreFor graph.now fixed.now flow.now }
    ensures { result ≡ true → IsTrue (is_path_by graph.now (is_open_by fixed.now flow.now) path.now) }
{
    let (Some(from), Some(to)) = (graph.sources().first(), graph.headers().first()) else {
        return false;
    };
    are_ahead(graph.edges().len(), path) && is_way(graph, fixed, flow, *from, *to, path)
}

/// Whether a step leads ahead over one of so many edges.
fn is_ahead(count: usize, step: Step) -> bool
    ensures { result ≡ (step.forward && nat_lt step.edge count) }
{
    step.forward && step.edge.index() < count
}

/// Whether all of these steps do.
fn are_ahead(count: usize, path: &[Step]) -> bool
    ensures { result ≡ list_all (λ (s : Step). s.forward && nat_lt s.edge count) path.now }
{
    path.iter().all(|step| is_ahead(count, *step))
}

/// Whether steps ahead are open and lead from a file to another, to no file twice.
fn is_way(
    graph: &TwoWayGraph<'_>,
    fixed: &Fixed,
    flow: &Flow,
    from: FileId,
    to: FileId,
    path: &[Step],
) -> bool
    requires lists { AreFor graph.now fixed.now flow.now }
    requires ahead { list_all (λ (s : Step). s.forward && nat_lt s.edge (length graph.now.edges)) path.now ≡ true }
    ensures { result ≡ true
        → (is_walk_by graph.now (is_open_by fixed.now flow.now) from path.now to ≡ true)
        × (is_distinct (from ∷ map (step_to graph.now) path.now) ≡ true) }
{
    let [step, rest @ ..] = path else {
        return from == to;
    };
    if !is_open(fixed, flow, step.edge) || source_of(graph, step.edge) != from {
        return false;
    }
    !is_on(graph, path, from)
        && is_way(
            graph,
            fixed,
            flow,
            graph.target(step.edge.index()),
            to,
            rest,
        )
}

/// Whether the step ahead over an edge is open.
fn is_open(fixed: &Fixed, flow: &Flow, edge: EdgeId) -> bool
    requires fixed { edge < length fixed.now }
    requires flow { edge < length flow.now }
    ensures { result ≡ is_open_by fixed.now flow.now (record { edge = edge; forward = true }) }
{
    match fixed.cost(edge) {
        Some(cost) => flow.on(edge) < cost as u64,
        None => true,
    }
}

/// The file that holds an edge's directive.
fn source_of(graph: &TwoWayGraph<'_>, edge: EdgeId) -> FileId
    requires { edge < length graph.now.edges }
    ensures { result ≡ source_of graph.now edge }
{
    graph.edges()[edge.index()].from
}

/// Whether one of these steps leads to a file.
fn is_on(graph: &TwoWayGraph<'_>, path: &[Step], file: FileId) -> bool
    requires { list_all (λ (s : Step). s.forward && nat_lt s.edge (length graph.now.edges)) path.now ≡ true }
    ensures { result ≡ is_member file (map (step_to graph.now) path.now) }
{
    let [step, rest @ ..] = path else {
        return false;
    };
    graph.target(step.edge.index()) == file || is_on(graph, rest, file)
}
