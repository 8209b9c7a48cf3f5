//! Searches for augmenting paths, over residual steps.
ghost use Rattle.std.specs.Prelude.{◌≡◌, Bool, ◌<◌, length, map, IfOk, OnOk};
ghost use Rattle.inc_graph.specs.IncludeGraph.{IsSound};
ghost use Rattle.inc_graph.specs.Indexes.{edges_leaving, edges_entering};
ghost use Rattle.inc_graph.specs.Search.{with_candidates};
ghost use Rattle.inc_cut.specs.Flows.{AreFor, source_of, IsFound, IsFoundShortest, is_open_by};
ghost use Rattle.inc_cut.specs.NextSteps.{ahead_of, back_of};
ghost use Rattle.inc_cut.specs.Searches.{IsFinished, step_next};

mod descents;
mod headed;
mod next_steps;
mod scaled_dinic;

use crate::flows::{Flow, Found, PathSearch, Step};
use crate::steps::{OpenSteps, StepTest};
pub use descents::DepthSearch;
use inc_graph::{EdgeId, Fixed, Search, TwoWayGraph};
use inc_lookup::FileId;
pub use scaled_dinic::PhaseSearch;
use std::alloc::{AllocError, Global};

/// Searches breadth first.
#[derive(Clone, Copy, Debug)]
pub struct LevelSearch;

impl PathSearch for LevelSearch {
    /// A path with no more steps than any other, or the files that open steps reach.
    fn search(
        &mut self,
        alloc: Global,
        graph: &TwoWayGraph<'_>,
        fixed: &Fixed,
        flow: &Flow,
    ) -> Result<Found, AllocError>
        requires { AreFor graph.now fixed.now flow.now }
        ensures found { IfOk result (λ found. IsFound graph.now
            (is_open_by fixed.now flow.now) found) }
        ensures shortest { IfOk result (λ found. IsFoundShortest graph.now
            (is_open_by fixed.now flow.now) found) }
    {
        search_by_levels(alloc, graph, &OpenSteps { fixed, flow })
    }

    fn give_back(&mut self, _steps: Vec<Step>) {}
}

/// Searches breadth first over the steps that pass a test.
pub(crate) fn search_by_levels<T: StepTest>(
    alloc: Global,
    graph: &TwoWayGraph<'_>,
    test: &T,
) -> Result<Found, AllocError>
    requires { T.edges test.now ≡ length graph.now.edges }
    ensures found { IfOk result (λ found. IsFound graph.now (T.passes test.now) found) }
    ensures shortest { IfOk result (λ found. IsFoundShortest graph.now (T.passes test.now) found) }
{
    let search = reach_by_levels(alloc, graph, test)?;
    answer(alloc, graph, &search)
}

/// The file that holds an edge's directive.
fn source_of(graph: &TwoWayGraph<'_>, edge: EdgeId) -> FileId
    requires { edge < length graph.now.edges }
    ensures { result ≡ source_of graph.now edge }
{
    graph.edges()[edge.index()].from
}

/// Reaches each file that steps which pass the test reach, breadth first.
fn reach_by_levels<T: StepTest>(
    alloc: Global,
    graph: &TwoWayGraph<'_>,
    test: &T,
) -> Result<Search<Step>, AllocError>
    requires { T.edges test.now ≡ length graph.now.edges }
    ensures { IfOk result (λ search. IsFinished graph.now (T.passes test.now) search) }
{
    let mut search = Search::start(alloc, graph.files(), graph.sources())?;
    let mut taken = 0;
    while taken < search.len() {
        let file = search.file(taken);
        go_ahead(&mut search, graph, test, taken, file)?;
        go_back(&mut search, graph, test, taken, file)?;
        taken += 1;
    }
    Ok(search)
}

/// Takes the steps that pass along the edges that leave the file at a place of the queue.
fn go_ahead<T: StepTest>(
    search: &mut Search<Step>,
    graph: &TwoWayGraph<'_>,
    test: &T,
    place: usize,
    file: FileId,
) -> Result<(), AllocError>
    requires sound { IsSound graph.now }
    requires edges { T.edges test.now ≡ length graph.now.edges }
    requires place { place < length search.old.visits }
    requires file { file < graph.now.files }
    requires files { search.old.files ≡ graph.now.files }
    ensures { OnOk result (search.new
        ≡ with_candidates (step_next graph.now (T.passes test.now)) place search.old
        (map ahead_of (edges_leaving graph.now.edges file))) }
{
    for edge in graph.leaving(file) {
        let step = &Step::ahead(edge.id);
        if test.passes(*step) {
            search.reach(*step, place, edge.to)?;
        }
    }
    Ok(())
}

/// Takes the steps that pass back over the edges that lead to the file at a place of the queue.
fn go_back<T: StepTest>(
    search: &mut Search<Step>,
    graph: &TwoWayGraph<'_>,
    test: &T,
    place: usize,
    file: FileId,
) -> Result<(), AllocError>
    requires sound { IsSound graph.now }
    requires edges { T.edges test.now ≡ length graph.now.edges }
    requires place { place < length search.old.visits }
    requires file { file < graph.now.files }
    requires files { search.old.files ≡ graph.now.files }
    ensures { OnOk result (search.new
        ≡ with_candidates (step_next graph.now (T.passes test.now)) place search.old
        (map back_of (edges_entering graph.now.edges file))) }
{
    for edge in graph.entering(file) {
        let step = &Step::back(*edge);
        if test.passes(*step) {
            search.reach(*step, place, source_of(graph, *edge))?;
        }
    }
    Ok(())
}

/// A path to a header, or where none is reached the files that are.
fn answer(
    alloc: Global,
    graph: &TwoWayGraph<'_>,
    search: &Search<Step>,
) -> Result<Found, AllocError>
    requires { (test : Step → Bool) × IsFinished graph.now test search.now }
    ensures found { IfOk result (λ found. (test : Step → Bool) →
        IsFinished graph.now test search.now → IsFound graph.now test found) }
    ensures shortest { IfOk result (λ found. (test : Step → Bool) →
        IsFinished graph.now test search.now → IsFoundShortest graph.now test found) }
{
    match search.first_of(graph.headers()) {
        Some(place) => Ok(Found::Path(search.path(alloc, place as usize)?)),
        None => Ok(Found::Reach(search.reached(alloc)?)),
    }
}
