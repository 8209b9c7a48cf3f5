//! The certificate of a cut of a graph.
ghost use Rattle.std.specs.Prelude.{◌≡◌, ◌<◌, ◌++◌, ◌∷◌, [], ℕ, List, Some, true, length, map, option_map, slice_get, IfOk, OnOk};
ghost use Rattle.std.specs.List.{All, list_all};
ghost use Rattle.inc_graph.specs.Views.{seen_counted};
ghost use Rattle.inc_check.specs.Certificates as spec;
ghost use Rattle.inc_check.specs.Texts.{is_short_mark, are_short_marks};
ghost use Rattle.inc_check.specs.declared.certificates.CountedMarks as marked;

use crate::certificates::{Certificate, Chains};
use inc_graph::{Counted, EdgeId, Graph, LentMark};
use inc_lookup::Project;
use inc_text::Items;
use std::alloc::{AllocError, Global};

/// The certificate of a cut of a graph, and of chains that show that no other is cheaper, by the marks of their edges. The graph is
/// that of the project. Its marks lend their paths from there, and a text can hold each of them.
pub fn certify<'a>(
    alloc: Global,
    project: &'a Project<'_>,
    graph: &Graph,
    cut: &[EdgeId],
    chains: &[Counted],
) -> Result<Certificate<'a>, AllocError>
    requires files { graph.now.files ≡ length project.now.paths }
    requires cut { All (λ i. i < length graph.now.edges) cut.now }
    requires chains { All (λ (c : Counted). All (λ i. i < length graph.now.edges) c.chain.edges)
        chains.now }
    ensures marks { IfOk result (λ certificate. certificate
        ≡ spec.certificate_of project.now graph.now cut.now (map seen_counted chains.now)) }
    ensures short_cut { IfOk result (λ certificate. are_short_marks certificate.cut ≡ true) }
    ensures short_chains { IfOk result (λ certificate.
        list_all (λ (k : marked.CountedMarks). are_short_marks k.marks) certificate.chains ≡ true) }
{
    let marks = marks_of(alloc, project, graph, cut)?;
    let counted = chains_marks(alloc, project, graph, chains)?;
    Ok(Certificate {
        cut: Items::new(marks),
        chains: counted,
    })
}

/// The chains by the marks of their edges.
fn chains_marks<'a>(
    alloc: Global,
    project: &'a Project<'_>,
    graph: &Graph,
    chains: &[Counted],
) -> Result<Chains<'a>, AllocError>
    requires files { graph.now.files ≡ length project.now.paths }
    requires chains { All (λ (c : Counted). All (λ i. i < length graph.now.edges) c.chain.edges)
        chains.now }
    ensures marks { IfOk result (λ marks. marks
        ≡ map (spec.chain_marks project.now graph.now) (map seen_counted chains.now)) }
    ensures short { IfOk result (λ marks.
        list_all (λ (k : marked.CountedMarks). are_short_marks k.marks) marks ≡ true) }
{
    let mut marks = Chains::new(alloc);
    for chain in chains {
        add_chain(alloc, project, graph, chain, &mut marks)?;
    }
    Ok(marks)
}

/// Adds a chain by the marks of its edges.
fn add_chain<'a>(
    alloc: Global,
    project: &'a Project<'_>,
    graph: &Graph,
    chain: &Counted,
    chains: &mut Chains<'a>,
) -> Result<(), AllocError>
    requires files { graph.now.files ≡ length project.now.paths }
    requires edges { All (λ i. i < length graph.now.edges) chain.now.chain.edges }
    ensures marks { OnOk result (chains.new
        ≡ chains.old ++ spec.chain_marks project.now graph.now (seen_counted chain.now) ∷ []) }
    ensures short { OnOk result (are_short_marks (spec.marks_of project.now graph.now chain.now.chain.edges) ≡ true) }
{
    let mut marks = marks_of(alloc, project, graph, chain.chain.edges.as_slice())?;
    chains.push(chain.count, &mut marks)
}

/// The marks of edges.
fn marks_of<'a>(
    alloc: Global,
    project: &'a Project<'_>,
    graph: &Graph,
    edges: &[EdgeId],
) -> Result<Vec<LentMark<'a>>, AllocError>
    requires files { graph.now.files ≡ length project.now.paths }
    requires edges { All (λ i. i < length graph.now.edges) edges.now }
    ensures marks { IfOk result (λ marks. marks.items ≡ spec.marks_of project.now graph.now edges.now) }
    ensures short { IfOk result (λ marks. are_short_marks marks.items ≡ true) }
{
    let mut marks = Vec::with_capacity(alloc, edges.len())?;
    for edge in edges {
        marks.push(edge_mark(project, graph, *edge))?;
    }
    Ok(marks)
}

/// The mark of an edge.
fn edge_mark<'a>(project: &'a Project<'_>, graph: &Graph, edge: EdgeId) -> LentMark<'a>
    requires files { graph.now.files ≡ length project.now.paths }
    requires edge { edge < length graph.now.edges }
    ensures mark { option_map (spec.edge_mark project.now) (slice_get graph.now.edges edge) ≡ Some result }
    ensures short { is_short_mark result ≡ true }
{
    let edge = graph.edges()[edge.index()];
    LentMark::new(project.path(edge.from), edge.line)
}
