//! A flow that a search heads for: a guess at a largest one, and paths along which the flow is raised to it. Nothing is proved of them but
//! that they end: each path is checked before it is taken.
ghost use Rattle.std.specs.Prelude.{◌≡◌, length};

mod arcs;
mod orders;
mod preflow;
mod tables;

use crate::flows::{Flow, Step, edge_count};
use crate::goals::arcs::{Arc, arc_at, turned};
pub(crate) use crate::goals::orders::levels_of;
use crate::goals::preflow::{Pushed, preflow_from};
use crate::goals::tables::Table;
use inc_graph::{Fixed, TwoWayGraph};
use inc_lookup::FileId;
use std::alloc::{AllocError, Global};

/// So many times the edges of the graph are looked at beside the paths that are found.
const PATIENCE: usize = 8;

/// A flow to head for, and what of the way there is not gone yet: where it differs from the flow.
#[derive(Drop)]
pub(crate) struct Goal {
    /// What each edge is to carry.
    carried: Table,
    /// Whether it was looked for to the end.
    pub is_done: bool,
    /// How many steps of each file differ no more.
    done: Table,
    /// 1 plus the place of each source among the sources, and 0 for other files.
    sources: Table,
    /// 1 plus the place of each file on the way, and 0 for files that are not on it.
    places: Table,
    /// How many headers no more is to come to.
    headers: usize,
    /// How many steps may still be looked at.
    left: usize,
}

impl Goal {
    /// A flow to head for, by a flow that it is to be raised from. It is looked for as long as so many steps for each file and edge take.
    pub fn new(
        alloc: Global,
        graph: &TwoWayGraph<'_>,
        fixed: &Fixed,
        flow: &Flow,
        patience: usize,
    ) -> Result<Goal, AllocError>
        requires { length flow.now ≡ length graph.now.edges }
    {
        let files = graph.files();
        let Pushed { carried, is_done } = preflow_from(alloc, graph, fixed, flow, patience)?;
        let mut sources = Table::new(alloc, files, 0)?;
        let mut place = 0_u32;
        for source in graph.sources() {
            place = place.saturating_add(1);
            sources.put(source.index(), place);
        }
        Ok(Goal {
            carried,
            is_done,
            done: Table::new(alloc, files, 0)?,
            sources,
            places: Table::new(alloc, files, 0)?,
            headers: 0,
            left: graph.edges().len().saturating_mul(PATIENCE),
        })
    }

    /// The steps of a path along which the flow comes nearer, first to last, and the place of its source among the sources; none where
    /// none is found.
    pub fn path(
        &mut self,
        graph: &TwoWayGraph<'_>,
        flow: &Flow,
        steps: &mut Vec<Step>,
    ) -> Result<Option<usize>, AllocError>
        requires { length flow.now ≡ length graph.now.edges }
    {
        self.look_again(graph, flow, steps);
        let headers = graph.headers();
        for place in self.headers..headers.len() {
            self.headers = place;
            let source = self.walk_back(graph, flow, headers[place], steps)?;
            self.forget(graph, steps);
            if source.is_some() {
                steps.reverse();
                return Ok(source);
            }
        }
        self.headers = headers.len();
        Ok(None)
    }

    /// Looks again at the files from which steps led that the flow went too far along: it differs the other way there.
    fn look_again(&mut self, graph: &TwoWayGraph<'_>, flow: &Flow, steps: &[Step])
        requires { length flow.now ≡ length graph.now.edges }
    {
        for step in steps {
            if self.wanted(graph, flow, turned(*step)) > 0 {
                self.done.put(begin_of(graph, *step), 0);
            }
        }
    }

    /// Walks back from a header to a source, and answers the place of that among the sources.
    fn walk_back(
        &mut self,
        graph: &TwoWayGraph<'_>,
        flow: &Flow,
        header: FileId,
        steps: &mut Vec<Step>,
    ) -> Result<Option<usize>, AllocError>
        requires { length flow.now ≡ length graph.now.edges }
    {
        steps.clear();
        let mut file = header;
        for _ in 0..graph.files().saturating_add(self.left) {
            let source = self.sources.at(file.index()) as usize;
            if let Some(place) = source.checked_sub(1) {
                return Ok(Some(place));
            }
            self.close_circle(graph, flow, file, steps);
            let Some(arc) = self.arc_to(graph, flow, file) else {
                return Ok(None);
            };
            steps.push(turned(arc.step))?;
            self.places
                .put(file.index(), (steps.len() % (1 << 32)) as u32);
            file = arc.to;
        }
        Ok(None)
    }

    /// The step to a file by which more is to flow, the other way; none where there is none.
    fn arc_to(&mut self, graph: &TwoWayGraph<'_>, flow: &Flow, file: FileId) -> Option<Arc>
        requires { length flow.now ≡ length graph.now.edges }
    {
        let first = self.done.at(file.index()) as usize;
        for number in first..first.saturating_add(self.left) {
            let Some(arc) = arc_at(graph, file, number) else {
                return None;
            };
            if self.wanted(graph, flow, turned(arc.step)) > 0 {
                return Some(arc);
            }
            self.left = self.left.saturating_sub(1);
            self.done.put(file.index(), (number.saturating_add(1) % (1 << 32)) as u32);
        }
        None
    }

    /// Where a file is on the way already, takes the steps since then off the way, and their circle out of what is to flow.
    fn close_circle(
        &mut self,
        graph: &TwoWayGraph<'_>,
        flow: &Flow,
        file: FileId,
        steps: &mut Vec<Step>,
    )
        requires { length flow.now ≡ length graph.now.edges }
    {
        let Some(first) = (self.places.at(file.index()) as usize).checked_sub(1) else {
            return;
        };
        let least = self.least_wanted(graph, flow, steps, first);
        for _ in first..steps.len() {
            let Some(step) = steps.pop() else {
                break;
            };
            let step = &step;
            self.places.put(end_of(graph, *step), 0);
            self.want_less(*step, least);
            self.left = self.left.saturating_sub(1);
        }
    }

    /// How much more is to flow by each of the steps from a place on, at least.
    fn least_wanted(
        &self,
        graph: &TwoWayGraph<'_>,
        flow: &Flow,
        steps: &[Step],
        first: usize,
    ) -> u32
        requires { length flow.now ≡ length graph.now.edges }
    {
        let mut least = u32::MAX;
        for place in first..steps.len() {
            least = least.min(self.wanted(graph, flow, steps[place]));
        }
        least
    }

    /// How much more is to flow by a step.
    fn wanted(&self, graph: &TwoWayGraph<'_>, flow: &Flow, step: Step) -> u32
        requires { length flow.now ≡ length graph.now.edges }
    {
        if step.edge.index() >= edge_count(graph) {
            return 0;
        }
        let wanted = u64::from(self.carried.at(step.edge.index()));
        let flowing = flow.on(step.edge);
        let more = if step.forward {
            wanted.saturating_sub(flowing)
        } else {
            flowing.saturating_sub(wanted)
        };
        more.min(u64::from(u32::MAX)) as u32
    }

    /// Has so much less flow by a step.
    fn want_less(&mut self, step: Step, amount: u32) {
        let now = self.carried.at(step.edge.index());
        let less = if step.forward {
            now.saturating_sub(amount)
        } else {
            now.saturating_add(amount)
        };
        self.carried.put(step.edge.index(), less);
    }

    /// Takes the files of steps off the way.
    fn forget(&mut self, graph: &TwoWayGraph<'_>, steps: &[Step]) {
        for step in steps {
            self.places.put(end_of(graph, *step), 0);
        }
    }
}

/// The place of the file from which a step leads.
fn begin_of(graph: &TwoWayGraph<'_>, step: Step) -> usize {
    end_of(graph, turned(step))
}

/// The place of the file to which a step leads.
fn end_of(graph: &TwoWayGraph<'_>, step: Step) -> usize {
    match graph.edges().get(step.edge.index()) {
        Some(edge) if step.forward => edge.to.index(),
        Some(edge) => edge.from.index(),
        None => 0,
    }
}
