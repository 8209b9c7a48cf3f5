//! Whether a certificate shows that its cut is a cheapest one.
ghost use Rattle.std.specs.Prelude.{◌≡◌, length, IfOk, OnOk, List, ◌++◌, ◌∷◌, [], MatchOption, false};
ghost use Rattle.std.specs.List.{list_all};
ghost use Rattle.inc_graph.specs.Cuts.{fixed_by, costs_by};
ghost use Rattle.inc_lookup.specs.Projects.{Layout};
ghost use Rattle.inc_check.specs.Certificates.{IsVerdict, is_counted_chain};
ghost use Rattle.inc_check.specs.Checking.{IsCutFor, IsCutOf, AreSums, AreSumsOf, IsFitted, IsSummed};
ghost use Rattle.inc_check.specs.declared.certificates.Certificate.{Certificate};
ghost use Rattle.inc_check.specs.declared.certificates.CountedMarks as marked;

pub(crate) mod chain_sums;
pub(crate) mod cut_edges;
mod hints;
mod reaching;
mod sums;

use crate::certificates::{Certificate, Chains, CountedMarks};
use crate::checking::chain_sums::ChainSums;
use crate::checking::cut_edges::CutEdges;
use crate::checking::reaching::is_header_reached;
use crate::checking::sums::{Sums, is_any_over};
use crate::verdicts::{Reason, Verdict};
use inc_graph::{Fixed, Graph, LentMark};
use inc_lookup::Project;
use std::alloc::{AllocError, Global};

/// Whether the chains of a certificate show that no set of edges that separates the headers costs less than its cut. What is fixed is
/// for this graph, and the graph is one of this project.
pub fn check(
    alloc: Global,
    project: &Project<'_>,
    graph: &Graph,
    fixed: &Fixed,
    certificate: &Certificate,
) -> Result<Verdict, AllocError>
    requires files { graph.now.files ≡ length project.now.paths }
    requires fixed { length fixed.now ≡ length graph.now.edges }
    ensures { IfOk result (λ v. IsVerdict project.now graph.now
        (fixed_by fixed.now) (costs_by fixed.now) certificate.now v) }
{
    let cut = cut_of(alloc, project, graph, fixed, certificate.cut.as_slice())?;
    let sums = sums_of(alloc, project, graph, &certificate.chains)?;
    verdict_of(alloc, graph, fixed, &cut, sums)
}

/// The edges that marks name.
fn cut_of(
    alloc: Global,
    project: &Project<'_>,
    graph: &Graph,
    fixed: &Fixed,
    marks: &[LentMark],
) -> Result<CutEdges, AllocError>
    requires files { graph.now.files ≡ length project.now.paths }
    requires fixed { length fixed.now ≡ length graph.now.edges }
    ensures fitted { IfOk result (λ cut. IsCutFor graph.now cut) }
    ensures of { IfOk result (λ cut. IsCutOf project.now graph.now fixed.now marks.now cut) }
{
    let mut cut = CutEdges::new(alloc, graph)?;
    for index in 0..marks.len() {
        cut.add(project, graph, fixed, &marks[index]);
    }
    Ok(cut)
}

/// The sums of chains; `None` where one is no chain of the graph, or counts 0.
fn sums_of(
    alloc: Global,
    project: &Project<'_>,
    graph: &Graph,
    chains: &Chains,
) -> Result<Option<Sums>, AllocError>
    requires files { graph.now.files ≡ length project.now.paths }
    ensures { IfOk result (λ sums. MatchOption sums
        (list_all (is_counted_chain project.now graph.now) chains.now ≡ false)
        (λ s. AreSums project.now graph.now chains.now s.through s.total)) }
{
    let mut sums = ChainSums::new(alloc, graph)?;
    for index in 0..chains.len() {
        add_chain(project, graph, &mut sums, &chains.chain(index))?;
    }
    Ok(sums.sums())
}

/// Adds a chain to sums.
fn add_chain(
    project: &Project<'_>,
    graph: &Graph,
    sums: &mut ChainSums,
    chain: &CountedMarks<'_>,
) -> Result<(), AllocError>
    requires files { graph.now.files ≡ length project.now.paths }
    requires fitted { IsFitted graph.now sums.old }
    ensures fitted { IsFitted graph.now sums.new }
    ensures summed { OnOk result ((chains : List marked.CountedMarks) → IsSummed project.now graph.now chains sums.old →
        IsSummed project.now graph.now (chains ++ chain.now ∷ []) sums.new) }
{
    sums.begin(graph, chain.count)?;
    let marks = chain.marks.as_slice();
    for index in 0..marks.len() {
        sums.go(project, graph, &marks[index], chain.count)?;
    }
    sums.end(graph, chain.count);
    Ok(())
}

/// The verdict by the edges of a cut, and by the sums of chains, `None` where one is no chain of the graph or counts 0.
pub(crate) fn verdict_of(
    alloc: Global,
    graph: &Graph,
    fixed: &Fixed,
    cut: &CutEdges,
    sums: Option<Sums>,
) -> Result<Verdict, AllocError>
    requires fixed { length fixed.now ≡ length graph.now.edges }
    requires fitted { IsCutFor graph.now cut.now }
    requires of { (layout : Layout) × (c : Certificate) × AreSumsOf layout graph.now c sums }
    ensures { IfOk result (λ v. (layout : Layout) (c : Certificate) → IsCutOf layout graph.now fixed.now c.cut cut.now →
        AreSumsOf layout graph.now c sums → IsVerdict layout graph.now (fixed_by fixed.now) (costs_by fixed.now) c v) }
{
    let _within = fixed.edges();
    let _sound = graph.files();
    if !cut.editable {
        return Ok(Verdict::No(Reason::NotEditable));
    }
    if !cut.once {
        return Ok(Verdict::No(Reason::Repeated));
    }
    if is_header_reached(alloc, graph, &cut.flags)? {
        return Ok(Verdict::No(Reason::StillReached));
    }
    let Some(sums) = sums else {
        return Ok(Verdict::No(Reason::NotAChain));
    };
    if is_any_over(graph, fixed, &sums.through) {
        return Ok(Verdict::No(Reason::Shared));
    }
    if sums.total != cut.cost {
        return Ok(Verdict::No(Reason::Counts));
    }
    Ok(Verdict::Yes)
}
