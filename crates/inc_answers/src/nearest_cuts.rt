//! The smallest cut of a graph.
ghost use Rattle.std.specs.Prelude.{◌≡◌, length, IfOk};
ghost use Rattle.inc_cut.specs.Answers.{IsCutAnswer, HasFewChains};

use inc_cut::{CutAnswer, PhaseSearch, smallest_cut};
use inc_graph::{Fixed, Graph};
use std::alloc::{AllocError, Global};

/// The smallest cut of a graph whose edges have these amounts.
pub fn nearest_cut(alloc: Global, graph: &Graph, fixed: &Fixed) -> Result<CutAnswer, AllocError>
    requires { length fixed.now ≡ length graph.now.edges }
    ensures answer { IfOk result (λ answer. IsCutAnswer graph.now fixed.now answer) }
    ensures few { IfOk result (λ answer. HasFewChains graph.now answer) }
{
    let mut search = PhaseSearch::new(alloc);
    smallest_cut(alloc, graph, fixed, &mut search)
}
