//! The steps from a file.
ghost use Rattle.std.specs.Prelude.{◌≡◌, ◌<◌, ◌+◌, Some, length, slice_get};
ghost use Rattle.inc_graph.specs.IncludeGraph.{IsSound};
ghost use Rattle.inc_graph.specs.Indexes.{edges_leaving, edges_entering};
ghost use Rattle.inc_cut.specs.Flows.{step_from, step_to};
ghost use Rattle.inc_cut.specs.NextSteps.{IsNextStep, steps_of};

use crate::flows::Step;
use crate::searches::source_of;
use inc_graph::{Edge, EdgeId, TwoWayGraph};
use inc_lookup::FileId;

/// A step, and where it leads.
#[derive(Clone, Copy)]
pub(super) struct NextStep {
    pub step: Step,
    pub to: FileId,
}

/// One of the steps from a file: first those ahead along its edges, then those back over the edges that lead to it. Of an edge ahead
/// nothing is read, since it has its number by its place.
#[inline(always)]
pub(super) fn step_at(
    graph: &TwoWayGraph<'_>,
    ahead: &[Edge],
    back: &[EdgeId],
    index: usize,
    file: FileId,
) -> Step
    requires sound { IsSound graph.now }
    requires file { file < graph.now.files }
    requires ahead { ahead.now ≡ edges_leaving graph.now.edges file }
    requires back { back.now ≡ edges_entering graph.now.edges file }
    requires within { index < length ahead.now + length back.now }
    ensures within { result.edge < length graph.now.edges }
    ensures from { step_from graph.now result ≡ file }
    ensures at { slice_get (steps_of graph.now file) index ≡ Some result }
{
    if index < ahead.len() {
        let place = graph.first_leaving(file) + index;
        return Step::ahead(graph.id(place));
    }
    Step::back(back[index - ahead.len()])
}

/// A step from a file, with the file to which it leads.
#[inline(always)]
pub(super) fn with_target(graph: &TwoWayGraph<'_>, step: &Step, file: FileId) -> NextStep
    requires sound { IsSound graph.now }
    requires within { step.now.edge < length graph.now.edges }
    requires from { step_from graph.now step.now ≡ file }
    ensures step { result.step ≡ step.now }
    ensures real { IsNextStep graph.now file result }
{
    let to = step_target(graph, *step);
    NextStep { step: *step, to }
}

/// The file to which a step leads.
#[inline(always)]
fn step_target(graph: &TwoWayGraph<'_>, step: Step) -> FileId
    requires { step.edge < length graph.now.edges }
    ensures { result ≡ step_to graph.now step }
{
    if step.forward {
        return graph.target(step.edge.index());
    }
    source_of(graph, step.edge)
}

/// The file in which a step begins.
pub(super) fn step_source(graph: &TwoWayGraph<'_>, step: Step) -> FileId
    requires { step.edge < length graph.now.edges }
    ensures { result ≡ step_from graph.now step }
{
    let edge = &graph.edges()[step.edge.index()];
    if step.forward { edge.from } else { edge.to }
}
