//! Flows through a graph, residual steps along its edges and back over them, and what a search for an augmenting path answers.
ghost use Rattle.std.specs.Prelude.{◌≡◌, true, false, ◌<◌, ◌≤◌, ◌-◌, ◌^◌, length, replicate, slice_set, IfOk};
ghost use Rattle.inc_cut.specs.Flows.{AreFor, IsFound, is_open_by, flow_by};
ghost use Rattle.inc_cut.specs.Raising.{IsSteppable, IsRaisable, stepped, raised, AreStepsWithin, room, least_room, IsLowerable, lowered, AreEdgesWithin, least_flow};

use inc_graph::{EdgeId, EdgeNumbers, Fixed, TwoWayGraph};
use std::alloc::{AllocError, Global};
use std::marker::Model;

/// The flow on each edge of a graph. It is used with the graph that it was made for.
#[derive(Drop)]
pub struct Flow {
    /// By the number of the edge.
    amounts: EdgeNumbers,
}

impl Model for Flow {
    ghost use Rattle.std.specs.Prelude.{ℕ, List};

    ghost Value = { List ℕ };

    ghost view = { λ f. f.amounts };
}

impl Flow {
    /// The flow on an edge.
    pub fn on(&self, edge: EdgeId) -> u64
        requires { edge < length self.now }
        ensures { result ≡ flow_by self.now edge }
    {
        self.amounts.at(edge.index())
    }

    /// No flow on any of so many edges.
    pub(crate) fn none(alloc: Global, edges: usize) -> Result<Flow, AllocError>
        ensures { IfOk result (λ flow. flow ≡ replicate edges 0) }
    {
        Ok(Flow {
            amounts: EdgeNumbers::zeros(alloc, edges)?,
        })
    }

    /// The least room that steps leave, of which [`u64::MAX`] says that there is no bound.
    pub(crate) fn least_room(&self, fixed: &Fixed, steps: &[Step]) -> u64
        requires amounts { AreStepsWithin (length fixed.now) steps.now }
        requires flows { AreStepsWithin (length self.now) steps.now }
        ensures { result ≡ least_room fixed.now self.now (2 ^ 64 - 1) steps.now }
    {
        let mut least = u64::MAX;
        for step in steps {
            least = least.min(self.room(fixed, *step));
        }
        least
    }

    /// How much more can flow by a step: what its edge costs less the flow, or the flow where it leads back.
    pub(crate) fn room(&self, fixed: &Fixed, step: Step) -> u64
        requires amount { step.edge < length fixed.now }
        requires flow { step.edge < length self.now }
        ensures { result ≡ room fixed.now self.now step }
    {
        let carried = self.on(step.edge);
        if !step.forward {
            return carried;
        }
        match fixed.cost(step.edge) {
            Some(cost) => (cost as u64).saturating_sub(carried),
            None => u64::MAX,
        }
    }

    /// Puts an amount more on the edges of steps that lead ahead, and takes as much off those of steps that lead back.
    pub(crate) fn raise(&mut self, steps: &[Step], amount: u64) -> Result<(), AllocError>
        requires { IsRaisable amount self.old steps.now }
        ensures { IfOk result (λ _. self.new ≡ raised amount self.old steps.now) }
    {
        for step in steps {
            self.step(*step, amount)?;
        }
        Ok(())
    }

    fn step(&mut self, step: Step, amount: u64) -> Result<(), AllocError>
        requires { IsSteppable amount self.old step }
        ensures { IfOk result (λ _. self.new ≡ stepped amount self.old step) }
    {
        if !step.forward {
            self.take_off(step.edge, amount);
            return Ok(());
        }
        let more = self.on(step.edge) + amount;
        self.amounts.put(step.edge.index(), more)?;
        Ok(())
    }

    /// Takes an amount off the flow on an edge, which asks for no memory.
    fn take_off(&mut self, edge: EdgeId, amount: u64)
        requires within { edge < length self.old }
        requires enough { amount ≤ flow_by self.old edge }
        ensures { self.new ≡ slice_set self.old edge (flow_by self.old edge - amount) }
    {
        self.amounts.lower(edge.index(), amount);
    }

    /// The least flow on edges; [`u64::MAX`] where there are none.
    pub(crate) fn least_flow(&self, edges: &[EdgeId]) -> u64
        requires { AreEdgesWithin (length self.now) edges.now }
        ensures { result ≡ least_flow self.now (2 ^ 64 - 1) edges.now }
    {
        let mut least = u64::MAX;
        for edge in edges {
            least = least.min(self.on(*edge));
        }
        least
    }

    /// Takes an amount off each of these edges.
    pub(crate) fn lower(&mut self, edges: &[EdgeId], amount: u64)
        requires { IsLowerable amount self.old edges.now }
        ensures { self.new ≡ lowered amount self.old edges.now }
    {
        for edge in edges {
            self.take_off(*edge, amount);
        }
    }
}

/// How many edges a graph has.
#[inline(always)]
pub(crate) fn edge_count(graph: &TwoWayGraph<'_>) -> usize
    ensures { result ≡ length graph.now.edges }
{
    graph.edges().len()
}

/// A step along an edge, or back over it.
#[derive(Clone, Copy, Debug, PartialEq, Eq)]
pub struct Step {
    /// The edge.
    pub edge: EdgeId,
    /// Whether the step leads where the edge leads; else it leads back.
    pub forward: bool,
}

impl Step {
    /// The step along an edge.
    pub(crate) fn ahead(edge: EdgeId) -> Step
        ensures { result ≡ record { edge = edge; forward = true } }
    {
        Step {
            edge,
            forward: true,
        }
    }

    /// The step back over an edge.
    pub(crate) fn back(edge: EdgeId) -> Step
        ensures { result ≡ record { edge = edge; forward = false } }
    {
        Step {
            edge,
            forward: false,
        }
    }
}

/// What a search answers.
#[derive(Drop)]
pub enum Found {
    /// Open steps from a source to a header, each beginning in the file where the last one ended, no file twice.
    Path(Vec<Step>),
    /// There is no such path; for each file of the project whether open steps reach it. They reach the sources.
    Reach(Vec<bool>),
}

/// A search for a path of open steps from a source of a graph to a header of it.
///
/// A step forward is open on a fixed edge, and on one whose flow is below its cost; a step back is open on an edge with flow.
pub trait PathSearch {
    /// A path, or where there is none the files that open steps reach. What is fixed and the flow are for this graph.
    fn search(
        &mut self,
        alloc: Global,
        graph: &TwoWayGraph<'_>,
        fixed: &Fixed,
        flow: &Flow,
    ) -> Result<Found, AllocError>
        requires { AreFor graph.now fixed.now flow.now }
        ensures { IfOk result (λ found. IsFound graph.now (is_open_by fixed.now flow.now) found) };

    /// Takes back the list of a path, which the next one can use.
    fn give_back(&mut self, steps: Vec<Step>);
}
