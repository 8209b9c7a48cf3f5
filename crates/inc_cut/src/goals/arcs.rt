//! The residual steps at a file, by number: first those along the edges that leave it, then those back over the edges that lead to it.
use crate::flows::Step;
use crate::goals::tables::Table;
use inc_graph::{Fixed, TwoWayGraph};
use inc_lookup::FileId;

/// A step from a file, and where it leads.
#[derive(Clone, Copy)]
pub(super) struct Arc {
    pub step: Step,
    pub to: FileId,
}

/// The step with a number from a file; none past the last one.
#[inline(always)]
pub(super) fn arc_at(graph: &TwoWayGraph<'_>, file: FileId, number: usize) -> Option<Arc> {
    if file.index() >= graph.files() {
        return None;
    }
    let ahead = graph.leaving(file);
    match ahead.get(number) {
        Some(edge) => Some(Arc {
            step: Step::ahead(edge.id),
            to: edge.to,
        }),
        None => arc_back(graph, file, number.saturating_sub(ahead.len())),
    }
}

/// The step back with a number.
#[inline(always)]
fn arc_back(graph: &TwoWayGraph<'_>, file: FileId, number: usize) -> Option<Arc> {
    if file.index() >= graph.files() {
        return None;
    }
    let Some(id) = graph.entering(file).get(number) else {
        return None;
    };
    match graph.edges().get(id.index()) {
        Some(edge) => Some(Arc {
            step: Step::back(*id),
            to: edge.from,
        }),
        None => None,
    }
}

/// The same step the other way.
#[inline(always)]
pub(super) fn turned(step: Step) -> Step {
    Step {
        edge: step.edge,
        forward: !step.forward,
    }
}

/// How much more can flow by a step, by what the edges carry.
#[inline(always)]
pub(super) fn room(fixed: &Fixed, carried: &Table, step: Step) -> u32 {
    let now = carried.at(step.edge.index());
    if step.forward {
        most_on(fixed, step.edge.index()).saturating_sub(now)
    } else {
        now
    }
}

/// How much an edge carries at most.
#[inline(always)]
fn most_on(fixed: &Fixed, place: usize) -> u32 {
    if place >= fixed.edges() {
        return 0;
    }
    match fixed.amount(place) {
        0 => u32::MAX,
        cost => cost,
    }
}
