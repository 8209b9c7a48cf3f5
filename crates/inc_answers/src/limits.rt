//! What the limits of a cut come to in a graph: the amounts of its edges, or what hinders an answer about cuts, as blockers and marks that
//! name no directive.
ghost use Rattle.std.specs.Prelude.{◌≡◌, ◌<◌, ◌≢◌, [], None, length, option_map, IfOk, IfErr};
ghost use Rattle.std.specs.List.{All};
ghost use Rattle.inc_graph.specs.MarkedEdges.{amounts_by, marks_fault};
ghost use Rattle.inc_graph.specs.declared.fixing.FixedFault.TheVariants as fault;
ghost use Rattle.inc_lookup.specs.declared.projects.DirectiveId as declared;
ghost use Rattle.inc_answers.specs.CutText.{IsHindrance, blocked, refusal_of_fault, marks_refusal, Unhindered};
ghost use Rattle.inc_answers.specs.Refusals.{Blocked, refusal_for};
ghost use Rattle.inc_answers.specs.Views.{seen_refusal};
ghost use Rattle.inc_answers.specs.Writing.{Prints, SendsWhole};

use crate::asked::Limits;
use crate::blocked_reasons::blocked_reasons;
use crate::edges::send_blockers;
use crate::lines::send_line;
use crate::mark_reasons::marks_reason;
use crate::missing_notes::Notes;
use crate::outcome::{End, EndKind, RunFault, noted};
use crate::output::Output;
use crate::refusals::{Refusal, refuse_for};
use inc_graph::{Blocker, Fixed, FixedFault, Graph};
use inc_lookup::{DirectiveId, Project};
use inc_text::ByteSink;
use std::alloc::Global;

/// Why nothing can be said of the cuts of a graph.
#[derive(Clone, Copy)]
pub enum Hindrance {
    /// There are blockers.
    Blocked,
    /// Marks or costs are refused, or memory ran out.
    Marks(FixedFault),
}

/// The amounts of a graph's edges, where nothing hinders an answer about cuts.
pub fn amounts_of(
    alloc: Global,
    project: &Project<'_>,
    graph: &Graph,
    limits: &Limits<'_>,
) -> Result<Fixed, Hindrance>
    requires files { graph.now.files ≡ length project.now.paths }
    ensures open { IfOk result (λ fixed. graph.now.blockers ≡ []) }
    ensures named { IfOk result (λ fixed.
        marks_fault project.now graph.now limits.now.fixed limits.now.costs ≡ None) }
    ensures fixed { IfOk result (λ fixed.
        fixed ≡ amounts_by project.now graph.now limits.now.kept limits.now.fixed limits.now.costs) }
    ensures hindered { IfErr result (λ cause. cause ≢ Hindrance.Marks fault.NoMemory →
        IsHindrance project.now graph.now limits.now cause) }
{
    if !graph.blockers().is_empty() {
        return Err(Hindrance::Blocked);
    }
    match Fixed::with_costs(
        alloc,
        project,
        graph,
        limits.kept,
        limits.fixed,
        limits.costs,
    ) {
        Ok(fixed) => Ok(fixed),
        Err(fault) => Err(Hindrance::Marks(fault)),
    }
}

/// Sends the refusal of what hinders an answer.
pub fn refuse_hindrance<W: ByteSink>(
    alloc: Global,
    project: &Project<'_>,
    graph: &Graph,
    limits: &Limits<'_>,
    cause: Hindrance,
    out: &mut Output<W>,
) -> Result<End, RunFault>
    requires files { graph.now.files ≡ length project.now.paths }
    requires hindered { cause ≢ Hindrance.Marks fault.NoMemory →
        IsHindrance project.now graph.now limits.now cause }
    ensures sent { Prints (Unhindered project.now graph.now.definitions graph.now.blockers
        (marks_refusal project.now graph.now limits.now.fixed limits.now.costs) (λ p. ⊥)) out.old out.new result }
    ensures fault { IfErr result (λ f. f ≡ RunFault.NoMemory) }
{
    match cause {
        Hindrance::Blocked => {
            refuse_blocked(alloc, project, graph.definitions(), graph.blockers(), out)
        }
        Hindrance::Marks(fault) => match refusal_of(fault, limits) {
            Some(refusal) => {
                let reason = marks_reason(alloc, project, graph, limits, fault)?;
                Ok(refuse_for(out, refusal, reason))
            }
            None => Err(RunFault::NoMemory),
        },
    }
}

/// The refusal of marks or costs; `None` where memory ran out.
pub fn refusal_of<'l>(fault: FixedFault, limits: &Limits<'l>) -> Option<Refusal<'l>>
    ensures { option_map seen_refusal result ≡ refusal_of_fault limits.now.fixed limits.now.costs fault }
{
    match fault {
        FixedFault::NoSuchDirective { index } => {
            let mark = limits.fixed.get(index)?;
            let (path, line) = (mark.path(), mark.line());
            Some(Refusal::NoSuchDirective { path, line })
        }
        FixedFault::NoSuchCost { index } => {
            let mark = limits.costs.get(index)?.mark();
            let (path, line) = (mark.path(), mark.line());
            Some(Refusal::NoSuchCost { path, line })
        }
        FixedFault::CostTwice { index } => {
            let mark = limits.costs.get(index)?.mark();
            let (path, line) = (mark.path(), mark.line());
            Some(Refusal::CostTwice { path, line })
        }
        FixedFault::NoMemory => None,
    }
}

/// Sends the refusal by blockers, and each of them, and says how the call ends.
fn refuse_blocked<W: ByteSink>(
    alloc: Global,
    project: &Project<'_>,
    definitions: &[DirectiveId],
    blockers: &[Blocker],
    out: &mut Output<W>,
) -> Result<End, RunFault>
    requires definitions { All (λ (d : declared.DirectiveId). d.file < length project.now.paths) definitions.now }
    requires blockers { All (λ (b : Blocker). b.file < length project.now.paths) blockers.now }
    ensures sent { Prints (λ p. p ≡ blocked project.now definitions.now blockers.now) out.old out.new result }
    ensures fault { IfErr result (λ f. f ≡ RunFault.NoMemory) }
{
    let reasons = blocked_reasons(alloc, project, definitions, blockers)?;
    Ok(send_blocked(project, blockers, reasons, out))
}

/// The same with these reasons beside it.
pub fn send_blocked<W: ByteSink>(
    project: &Project<'_>,
    blockers: &[Blocker],
    reasons: Notes,
    out: &mut Output<W>,
) -> End
    requires { All (λ (b : Blocker). b.file < length project.now.paths) blockers.now }
    ensures { SendsWhole (refusal_for reasons (Blocked project.now blockers.now)) out.old out.new result }
{
    send_line(out, b"refused 5 blocked");
    send_blockers(out, project, blockers);
    noted(EndKind::Refused, reasons)
}
