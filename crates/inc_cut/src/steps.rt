//! Which residual steps a search takes.
ghost use Rattle.std.specs.Prelude.{◌≡◌, ◌<◌, length};
ghost use Rattle.inc_cut.specs.Flows.{is_open_by, is_fixed_ahead, is_flowing};
ghost use Rattle.inc_cut.specs.Raising.{is_wide};

use crate::flows::{Flow, Step};
use inc_graph::Fixed;

/// A test of steps over the edges of a graph.
pub(crate) trait StepTest {
    ghost use Rattle.std.specs.Prelude.{◌≡◌, ◌<◌, ℕ, Bool, false};
    ghost use Rattle.std.specs.Bool.{OnTrue};
    ghost use Rattle.inc_cut.specs.declared.flows.Step.{Step};

    /// How many edges there are.
    ghost edges: { Self → ℕ };

    /// Which steps pass.
    ghost passes: { Self → Step → Bool };

    /// Whether a step passes.
    fn passes(&self, step: Step) -> bool
        requires { step.edge < edges self.now }
        ensures { result ≡ passes self.now step };

    /// Whether a step is known not to pass, as far as few reads tell.
    fn is_spent(&self, step: Step) -> bool
        requires { step.edge < edges self.now }
        ensures { OnTrue result (passes self.now step ≡ false) };
}

/// The steps that are open.
#[derive(Clone, Copy)]
pub(crate) struct OpenSteps<'a> {
    pub fixed: &'a Fixed,
    pub flow: &'a Flow,
    ghost as_many: { length fixed.now ≡ length flow.now },
}

impl StepTest for OpenSteps<'_> {
    ghost edges = { λ t. length t.flow.now };

    ghost passes = { λ t. is_open_by t.fixed.now t.flow.now };

    fn passes(&self, step: Step) -> bool {
        let carried = self.flow.on(step.edge);
        if !step.forward {
            return carried > 0;
        }
        match self.fixed.cost(step.edge) {
            Some(cost) => carried < cost as u64,
            None => true,
        }
    }

    /// Most edges have no flow, and the steps along these are open whatever they cost: costs are read of the others alone.
    fn is_spent(&self, step: Step) -> bool {
        if self.flow.on(step.edge) == 0 {
            return !step.forward;
        }
        !self.passes(step)
    }
}

/// The steps with room for an amount.
#[derive(Clone, Copy)]
pub(crate) struct WideSteps<'a> {
    pub fixed: &'a Fixed,
    pub flow: &'a Flow,
    pub least: u64,
    ghost as_many: { length fixed.now ≡ length flow.now },
}

impl StepTest for WideSteps<'_> {
    ghost edges = { λ t. length t.flow.now };

    ghost passes = { λ t. is_wide t.fixed.now t.flow.now t.least };

    fn passes(&self, step: Step) -> bool {
        self.flow.room(self.fixed, step) >= self.least
    }

    /// The room of a step back is the flow alone; that of a step ahead wants the cost, too.
    fn is_spent(&self, step: Step) -> bool {
        if step.forward {
            return false;
        }
        !self.passes(step)
    }
}

/// All steps forward, on so many edges. They are the open ones where nothing flows.
#[derive(Clone, Copy)]
pub(crate) struct AheadSteps {
    pub edges: usize,
}

impl StepTest for AheadSteps {
    ghost edges = { λ t. t.edges };

    ghost passes = { λ t s. s.forward };

    fn passes(&self, step: Step) -> bool {
        step.forward
    }

    fn is_spent(&self, step: Step) -> bool {
        !step.forward
    }
}

/// The steps forward on fixed edges.
#[derive(Clone, Copy)]
pub(crate) struct FixedSteps<'a> {
    pub fixed: &'a Fixed,
}

impl StepTest for FixedSteps<'_> {
    ghost edges = { λ t. length t.fixed.now };

    ghost passes = { λ t. is_fixed_ahead t.fixed.now };

    fn passes(&self, step: Step) -> bool {
        step.forward && self.fixed.holds(step.edge)
    }

    fn is_spent(&self, step: Step) -> bool {
        !step.forward
    }
}

/// The steps forward on edges with flow.
#[derive(Clone, Copy)]
pub(crate) struct FlowSteps<'a> {
    pub flow: &'a Flow,
}

impl StepTest for FlowSteps<'_> {
    ghost edges = { λ t. length t.flow.now };

    ghost passes = { λ t. is_flowing t.flow.now };

    fn passes(&self, step: Step) -> bool {
        step.forward && self.flow.on(step.edge) > 0
    }

    fn is_spent(&self, step: Step) -> bool {
        !step.forward || self.flow.on(step.edge) == 0
    }
}
