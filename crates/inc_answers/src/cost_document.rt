//! The document in which `cost` says what brings most into the sources.
ghost use Rattle.std.specs.Prelude.{◌≡◌, ◌<◌, ◌++◌, ◌∷◌, [], codes, flat_map, length, IfOk, OnOk};
ghost use Rattle.std.specs.List.{All};
ghost use Rattle.inc_lookup.specs.Projects.{path_at};
ghost use Rattle.inc_answers.specs.CostDocument.{amount_words, by_words, bytes_words, cost_document, edge_block, edge_blocks, group_block, group_blocks, group_words, header_blocks, header_words, total_words};
ghost use Rattle.inc_answers.specs.CostViews.{AreWithin, IsInside, seen_amounts, seen_ranked};
ghost use Rattle.inc_answers.specs.Documents as spec;
ghost use Rattle.inc_answers.specs.Documents.{counted};
ghost use Rattle.inc_answers.specs.MissingNotes.{shown};

use crate::cost::{Ranked, id_of};
use crate::cost_groups::{Costed, CutCount, RankedGroups};
use crate::documents::{Document, put_counted};
use crate::missing_notes::put_shown;
use crate::who_document::directive_of;
use crate::why_document::add_unresolved;
use inc_cost::Amounts;
use inc_graph::Graph;
use inc_lookup::Project;
use std::alloc::{AllocError, Global};

/// The document of what is ranked of a graph.
pub fn cost_document(
    alloc: Global,
    project: &Project<'_>,
    graph: &Graph,
    ranked: &Ranked<'_>,
) -> Result<Document, AllocError>
    requires files { graph.now.files ≡ length project.now.paths }
    requires within { IsInside project.now graph.now ranked.now }
    ensures { IfOk result (λ document. document ≡ cost_document project.now graph.now (seen_ranked ranked.now)) }
{
    let mut document = Document::new(alloc);
    add_total(
        &mut document,
        alloc,
        ranked.costs.total,
        graph.sources().len(),
    )?;
    add_headers(
        &mut document,
        alloc,
        project,
        &ranked.costs.files,
        &ranked.headers,
    )?;
    add_groups(&mut document, alloc, &ranked.groups)?;
    add_edges(
        &mut document,
        alloc,
        graph,
        &ranked.costs.edges,
        &ranked.edges,
    )?;
    add_unresolved(&mut document, alloc, graph, true)?;
    Ok(document)
}

/// Adds how many sources there are, and what they reach together.
pub fn add_total(
    document: &mut Document,
    alloc: Global,
    total: u64,
    sources: usize,
) -> Result<(), AllocError>
    ensures { OnOk result (document.new ≡ document.old ++ spec.Words (total_words total sources) ∷ []) }
{
    let mut text = Vec::new(alloc);
    put_counted(&mut text, sources, b" source reaches ", b" sources reach ")?;
    put_counted(&mut text, total as usize, b" byte", b" bytes")?;
    document.add_words(text)
}

/// Adds words as a line.
fn add_line(document: &mut Document, alloc: Global, words: &[u8]) -> Result<(), AllocError>
    ensures { OnOk result (document.new ≡ document.old ++ spec.Words words.now ∷ []) }
{
    document.add_words(Vec::from_slice(alloc, words)?)
}

/// Puts so many bytes, of so many sources.
fn put_bytes(text: &mut Vec<u8>, bytes: u64, count: u64) -> Result<(), AllocError>
    ensures { OnOk result (text.new.items ≡ text.old.items ++ bytes_words bytes count) }
{
    put_counted(text, bytes as usize, b" byte, ", b" bytes, ")?;
    put_counted(text, count as usize, b" source", b" sources")
}

/// Puts what an edge or a file has.
fn put_amount(text: &mut Vec<u8>, amounts: &Amounts, place: usize) -> Result<(), AllocError>
    requires bytes { place < length amounts.now.bytes.items }
    requires counts { place < length amounts.now.counts.items }
    ensures { OnOk result (text.new.items ≡ text.old.items ++ amount_words (seen_amounts amounts.now) place) }
{
    put_bytes(text, amounts.bytes[place], amounts.counts[place])
}

/// Adds headers, below a line that says what they are.
fn add_headers(
    document: &mut Document,
    alloc: Global,
    project: &Project<'_>,
    brought: &Amounts,
    headers: &[usize],
) -> Result<(), AllocError>
    requires { AreWithin (length project.now.paths) brought.now headers.now }
    ensures { OnOk result (document.new ≡ document.old ++ header_blocks project.now (seen_amounts brought.now) headers.now) }
{
    if headers.is_empty() {
        return Ok(());
    }
    add_line(
        document,
        alloc,
        b"headers, by what comes in through each alone:",
    )?;
    for header in headers {
        add_header(document, alloc, project, brought, *header)?;
    }
    Ok(())
}

/// Adds what a header brings.
fn add_header(
    document: &mut Document,
    alloc: Global,
    project: &Project<'_>,
    brought: &Amounts,
    header: usize,
) -> Result<(), AllocError>
    requires path { header < length project.now.paths }
    requires bytes { header < length brought.now.bytes.items }
    requires counts { header < length brought.now.counts.items }
    ensures { OnOk result (document.new ≡ document.old ++ spec.Words (header_words project.now (seen_amounts brought.now) header) ∷ []) }
{
    let mut text = Vec::new(alloc);
    put_path_at(&mut text, project, header)?;
    text.extend_from_slice(b": ")?;
    put_amount(&mut text, brought, header)?;
    document.add_words(text)
}

/// Puts the path of the file at a place, as it is shown on a line.
fn put_path_at(text: &mut Vec<u8>, project: &Project<'_>, place: usize) -> Result<(), AllocError>
    requires { place < length project.now.paths }
    ensures { OnOk result (text.new.items ≡ text.old.items ++ shown (path_at project.now place)) }
{
    match project.at(place) {
        Some(file) => put_shown(text, project.path(file)),
        None => Ok(()),
    }
}

/// Adds groups of headers, below a line that says what they are.
fn add_groups(
    document: &mut Document,
    alloc: Global,
    groups: &RankedGroups<'_>,
) -> Result<(), AllocError>
    requires { All (λ i. i < length groups.now.costed.items) groups.now.places.items }
    ensures { OnOk result (document.new ≡ document.old ++ group_blocks groups.now.costed.items groups.now.places.items) }
{
    if groups.places.is_empty() {
        return Ok(());
    }
    add_line(
        document,
        alloc,
        b"groups of headers, by what goes if none of them is read:",
    )?;
    add_each_group(document, alloc, &groups.costed, &groups.places)
}

/// Adds what the groups at these places cost.
fn add_each_group(
    document: &mut Document,
    alloc: Global,
    costed: &[Costed<'_>],
    places: &[usize],
) -> Result<(), AllocError>
    requires { All (λ i. i < length costed.now) places.now }
    ensures { OnOk result (document.new ≡ document.old ++ flat_map (group_block costed.now) places.now) }
{
    for place in places {
        add_group_at(document, alloc, costed, *place)?;
    }
    Ok(())
}

/// Adds what the group at a place costs.
fn add_group_at(
    document: &mut Document,
    alloc: Global,
    costed: &[Costed<'_>],
    place: usize,
) -> Result<(), AllocError>
    requires { place < length costed.now }
    ensures { OnOk result (document.new ≡ document.old ++ group_block costed.now place) }
{
    add_group(document, alloc, &costed[place])
}

/// Adds what a group of headers costs.
fn add_group(document: &mut Document, alloc: Global, costed: &Costed<'_>) -> Result<(), AllocError>
    ensures { OnOk result (document.new ≡ document.old ++ spec.Words (group_words costed.now) ∷ []) }
{
    let mut text = Vec::new(alloc);
    put_shown(&mut text, costed.name)?;
    text.extend_from_slice(b": ")?;
    put_bytes(&mut text, costed.bytes, costed.count)?;
    put_cut(&mut text, costed.cut)?;
    document.add_words(text)
}

/// Puts by how many directives a group is kept out.
fn put_cut(text: &mut Vec<u8>, cut: CutCount) -> Result<(), AllocError>
    ensures { OnOk result (text.new.items ≡ text.old.items ++ by_words cut) }
{
    match cut {
        CutCount::Blocked => text.extend_from_slice(b", it is open by how many directives"),
        CutCount::Fixed => text.extend_from_slice(b", by no directives"),
        CutCount::Smallest(count) => put_by(text, count),
    }
}

/// Puts that it is so many.
fn put_by(text: &mut Vec<u8>, count: usize) -> Result<(), AllocError>
    ensures { OnOk result (text.new.items ≡ text.old.items ++ (codes ", by " ++ counted count (codes " directive") (codes " directives"))) }
{
    text.extend_from_slice(b", by ")?;
    put_counted(text, count, b" directive", b" directives")?;
    Ok(())
}

/// Adds the directives of edges, below a line that says what they are.
fn add_edges(
    document: &mut Document,
    alloc: Global,
    graph: &Graph,
    saved: &Amounts,
    edges: &[usize],
) -> Result<(), AllocError>
    requires { AreWithin (length graph.now.edges) saved.now edges.now }
    ensures { OnOk result (document.new ≡ document.old ++ edge_blocks graph.now (seen_amounts saved.now) edges.now) }
{
    if edges.is_empty() {
        return Ok(());
    }
    add_line(
        document,
        alloc,
        b"directives, by what goes if each alone is removed:",
    )?;
    for edge in edges {
        add_edge(document, alloc, graph, saved, *edge)?;
    }
    Ok(())
}

/// Adds the directive of an edge behind what goes with it.
fn add_edge(
    document: &mut Document,
    alloc: Global,
    graph: &Graph,
    saved: &Amounts,
    edge: usize,
) -> Result<(), AllocError>
    requires edge { edge < length graph.now.edges }
    requires bytes { edge < length saved.now.bytes.items }
    requires counts { edge < length saved.now.counts.items }
    ensures { OnOk result (document.new ≡ document.old ++ edge_block graph.now (seen_amounts saved.now) edge) }
{
    let mut text = Vec::new(alloc);
    put_lead(&mut text, saved, edge)?;
    let id = id_of(graph, edge);
    document.add_led(text, directive_of(graph, id))
}

/// Puts what goes with an edge, before its directive.
fn put_lead(text: &mut Vec<u8>, saved: &Amounts, edge: usize) -> Result<(), AllocError>
    requires bytes { edge < length saved.now.bytes.items }
    requires counts { edge < length saved.now.counts.items }
    ensures { OnOk result (text.new.items ≡ text.old.items ++ (amount_words (seen_amounts saved.now) edge ++ codes ": ")) }
{
    put_amount(text, saved, edge)?;
    text.extend_from_slice(b": ")?;
    Ok(())
}
