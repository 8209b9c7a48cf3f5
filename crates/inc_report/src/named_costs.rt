//! What includes cost, with directives as they are written.
ghost use Rattle.std.specs.Prelude.{◌≡◌, ◌<◌, ℕ, List, [], None, length, IfOk};
ghost use Rattle.std.specs.List.{All};
ghost use Rattle.std.specs.Option.{option_map_or};
ghost use Rattle.inc_cost.specs.declared.branches.Branch.{Branch};
ghost use Rattle.inc_answers.specs.CostViews.{IsInside, seen_ranked};
ghost use Rattle.inc_answers.specs.DotText.{dot_text, drawn};
ghost use Rattle.inc_answers.specs.FileSizes.{kept_sizes};
ghost use Rattle.inc_answers.specs.JsonAnswers.{about_subject};
ghost use Rattle.inc_answers.specs.KeptFiles.{kept_at};
ghost use Rattle.inc_report.specs.NamedText.{AreTreesReported, IsCostReport, cost_answer, tree_answer};
ghost use Rattle.inc_answers.specs.RuleViews.{seen_costs};
ghost use Rattle.inc_answers.specs.Told.{told_printed};

use crate::named::{Format, NamedForm, lines_of};
use inc_answers::answer_notes::empty_notes;
use inc_answers::asked::CostWords;
use inc_answers::cost::{Ranked, id_of, rank_costs};
use inc_answers::cost_document::cost_document;
use inc_answers::cost_json::cost_json;
use inc_answers::dot_text::{edges_dot, graph_dot};
use inc_answers::kept_sources::KeptFiles;
use inc_answers::outcome::EndKind;
use inc_answers::subjects::{Subject, Told};
use inc_answers::tree_document::tree_document;
use inc_answers::tree_json::tree_json;
use inc_answers::trees::tree_branches;
use inc_cost::{Branch, total};
use inc_graph::{EdgeId, Graph};
use inc_lookup::Project;
use std::alloc::{AllocError, Global};

/// What the includes of a graph cost, by the bytes that are kept of its files.
pub(crate) fn tell_costs(
    alloc: Global,
    subject: Subject<'_>,
    words: CostWords<'_>,
    form: NamedForm,
) -> Result<Told, AllocError>
    requires { subject.graph.now.files ≡ length subject.project.now.paths }
    ensures { IfOk result (λ told. IsCostReport form (seen_costs words.entry) (kept_sizes subject.entry.files.now (length subject.entry.project.now.paths))
        (about_subject subject.entry) (told_printed told)) }
{
    let Subject {
        project,
        graph,
        files,
        ..
    } = subject;
    let sizes = kept_sizes(alloc, project, files)?;
    let ranked = rank_costs(alloc, project, graph, &sizes, words.most, words.groups)?;
    let notes = empty_notes(alloc, project, graph)?;
    Ok(Told {
        text: cost_text(alloc, subject, &ranked, form.format)?,
        kind: EndKind::Answered,
        notes,
    })
}

/// What comes in through each file of the trees of a graph, by the bytes that are kept of its files.
pub(crate) fn tell_trees(
    alloc: Global,
    subject: Subject<'_>,
    form: NamedForm,
) -> Result<Told, AllocError>
    requires { subject.graph.now.files ≡ length subject.project.now.paths }
    ensures { IfOk result (λ told. AreTreesReported form (kept_sizes subject.entry.files.now (length subject.entry.project.now.paths))
        (about_subject subject.entry) (told_printed told)) }
{
    let Subject {
        project,
        graph,
        files,
        ..
    } = subject;
    let sizes = kept_sizes(alloc, project, files)?;
    let total = total(alloc, graph, &sizes, &[])?;
    let branches = tree_branches(alloc, graph, &sizes)?;
    let notes = empty_notes(alloc, project, graph)?;
    Ok(Told {
        text: tree_text(alloc, subject, total, &branches, form.format)?,
        kind: EndKind::Answered,
        notes,
    })
}

/// The text of trees; their graph is that of all edges.
fn tree_text(
    alloc: Global,
    subject: Subject<'_>,
    total: u64,
    branches: &[Branch],
    format: Format,
) -> Result<Vec<u8>, AllocError>
    requires files { subject.graph.now.files ≡ length subject.project.now.paths }
    requires within { All (λ (b : Branch). b.file < length subject.project.now.paths) branches.now }
    ensures { IfOk result (λ text. text.items ≡ tree_answer format (about_subject subject.entry) total branches.now) }
{
    match format {
        Format::Gcc => {
            let Subject { project, graph, .. } = subject;
            let document = tree_document(alloc, project, graph, total, branches)?;
            lines_of(alloc, subject, &document)
        }
        Format::Json => tree_json(alloc, subject, total, branches),
        Format::Dot => graph_dot(alloc, subject),
    }
}

/// How many bytes are kept of each file.
fn kept_sizes(
    alloc: Global,
    project: &Project<'_>,
    files: &KeptFiles,
) -> Result<Vec<u32>, AllocError>
    ensures { IfOk result (λ sizes. sizes.items ≡ kept_sizes files.now (length project.now.paths)) }
{
    let count = project.count();
    let mut sizes = Vec::with_capacity(alloc, count)?;
    for place in 0..count {
        sizes.push(kept_size(project, files, place))?;
    }
    Ok(sizes)
}

/// How many bytes are kept of the file at a place.
fn kept_size(project: &Project<'_>, files: &KeptFiles, place: usize) -> u32
    requires { place < length project.now.paths }
    ensures { result ≡ option_map_or (λ (bytes : List ℕ). length bytes) (kept_at files.now place) 0 }
{
    let Some(file) = project.at(place) else {
        return 0;
    };
    match files.bytes(file) {
        Some(bytes) => bytes.len() as u32,
        None => 0,
    }
}

/// The text of what is ranked.
fn cost_text(
    alloc: Global,
    subject: Subject<'_>,
    ranked: &Ranked<'_>,
    format: Format,
) -> Result<Vec<u8>, AllocError>
    requires files { subject.graph.now.files ≡ length subject.project.now.paths }
    requires within { IsInside subject.project.now subject.graph.now ranked.now }
    ensures { IfOk result (λ text. text.items ≡ cost_answer format (about_subject subject.entry) (seen_ranked ranked.now)) }
{
    match format {
        Format::Gcc => {
            let document = cost_document(alloc, subject.project, subject.graph, ranked)?;
            lines_of(alloc, subject, &document)
        }
        Format::Json => cost_json(alloc, subject, ranked),
        Format::Dot => places_dot(alloc, subject, &ranked.edges),
    }
}

/// The graph of the edges at these places.
fn places_dot(alloc: Global, subject: Subject<'_>, places: &[usize]) -> Result<Vec<u8>, AllocError>
    requires files { subject.graph.now.files ≡ length subject.project.now.paths }
    requires edges { All (λ i. i < length subject.graph.now.edges) places.now }
    ensures { IfOk result (λ text. text.items ≡ dot_text subject.entry.project.now subject.entry.graph.now (drawn places.now [] None)) }
{
    let edges = edges_at(alloc, subject.graph, places)?;
    edges_dot(alloc, subject, &edges)
}

/// The edges at these places.
fn edges_at(alloc: Global, graph: &Graph, places: &[usize]) -> Result<Vec<EdgeId>, AllocError>
    requires { All (λ i. i < length graph.now.edges) places.now }
    ensures { IfOk result (λ edges. edges.items ≡ places.now) }
{
    let mut edges = Vec::with_capacity(alloc, places.len())?;
    for place in places {
        edges.push(id_of(graph, *place))?;
    }
    Ok(edges)
}
