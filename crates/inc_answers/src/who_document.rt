//! The document in which `who` says which sources reach a header.
ghost use Rattle.std.specs.Prelude.{◌≡◌, ◌<◌, ◌≤◌, ◌==◌, ◌++◌, ◌∷◌, [], codes, flat_map, if◌then◌else◌, length, take, IfOk, OnOk};
ghost use Rattle.std.specs.List.{All};
ghost use Rattle.inc_graph.specs.Cuts.{directives_of};
ghost use Rattle.inc_graph.specs.Reaching.{Reaching};
ghost use Rattle.inc_answers.specs.Documents as spec;
ghost use Rattle.inc_answers.specs.WhoDocument.{count_words, header_words, in_blocks, lead_words, led, reaching_blocks, some_of, source_blocks, who_document};

use crate::bounds::shown_count;
use crate::changes::directives_of;
use crate::documents::{Document, put_counted, put_path};
use crate::edges::edge_at;
use crate::missing_notes::put_number;
use crate::why_document::{add_shortest, add_unresolved, lasts_of, put_headers, put_unreached};
use inc_graph::{EdgeId, Graph, ShortestChains, SourceChains};
use inc_lookup::{DirectiveId, FileId, Project};
use std::alloc::{AllocError, Global};

/// The document of the sources that are left, and of the chains.
pub fn who_document(
    alloc: Global,
    project: &Project<'_>,
    graph: &Graph,
    reaching: &mut SourceChains<'_>,
    chains: &mut ShortestChains<'_>,
    all: bool,
    most: Option<usize>,
) -> Result<Document, AllocError>
    requires graph { reaching.old.graph ≡ graph.now }
    requires edges { All (λ (r : Reaching). All (λ i. i < length graph.now.edges) r.chain) reaching.old.left }
    requires chains { All (λ chain. All (λ i. i < length graph.now.edges) chain) chains.old.left }
    ensures { IfOk result (λ document. document
        ≡ who_document all most project.now graph.now reaching.old.left chains.old.left) }
{
    let mut document = Document::new(alloc);
    add_count(&mut document, alloc, project, graph, reaching.count())?;
    add_sources(&mut document, alloc, project, graph, reaching, all, most)?;
    add_ways_in(&mut document, alloc, graph, chains, most)?;
    add_unresolved(&mut document, alloc, graph, all)?;
    Ok(document)
}

/// Adds how many sources include a header.
fn add_count(
    document: &mut Document,
    alloc: Global,
    project: &Project<'_>,
    graph: &Graph,
    count: usize,
) -> Result<(), AllocError>
    ensures { OnOk result (document.new ≡ document.old
        ++ spec.Words (count_words project.now graph.now count) ∷ []) }
{
    let mut text = Vec::new(alloc);
    put_count(&mut text, project, graph, count)?;
    document.add_words(text)
}

/// Adds how many sources include a header, or that none does.
fn put_count(
    text: &mut Vec<u8>,
    project: &Project<'_>,
    graph: &Graph,
    count: usize,
) -> Result<(), AllocError>
    ensures { OnOk result (text.new.items ≡ text.old.items ++ count_words project.now graph.now count) }
{
    if count == 0 {
        return put_unreached(text, project, graph);
    }
    put_some_of(text, count, graph.sources().len())?;
    put_headers(text, project, graph.headers(), b"", b"one of ")
}

/// Adds that so many of all sources include what follows.
fn put_some_of(text: &mut Vec<u8>, count: usize, total: usize) -> Result<(), AllocError>
    ensures { OnOk result (text.new.items ≡ text.old.items ++ some_of count total) }
{
    put_number(text, count as u64)?;
    text.extend_from_slice(b" of ")?;
    put_counted(text, total, b" source", b" sources")?;
    text.extend_from_slice(include_word(count))?;
    Ok(())
}

/// What so many sources do.
fn include_word(count: usize) -> &'static [u8]
    ensures { result.now ≡ (if count == 1 then codes " includes " else codes " include ") }
{
    if count == 1 {
        b" includes "
    } else {
        b" include "
    }
}

/// Adds at most so many of the sources that are left.
fn add_sources(
    document: &mut Document,
    alloc: Global,
    project: &Project<'_>,
    graph: &Graph,
    reaching: &mut SourceChains<'_>,
    all: bool,
    most: Option<usize>,
) -> Result<(), AllocError>
    requires graph { reaching.old.graph ≡ graph.now }
    requires edges { All (λ (r : Reaching). All (λ i. i < length graph.now.edges) r.chain) reaching.old.left }
    ensures { OnOk result (document.new ≡ document.old
        ++ source_blocks all most project.now graph.now reaching.old.left) }
{
    let total = reaching.count();
    let shown = shown_count(most, total);
    add_first_sources(document, alloc, project, graph, reaching, all, shown)?;
    document.add_more(alloc, total - shown)
}

/// Adds so many of them.
fn add_first_sources(
    document: &mut Document,
    alloc: Global,
    project: &Project<'_>,
    graph: &Graph,
    reaching: &mut SourceChains<'_>,
    all: bool,
    shown: usize,
) -> Result<(), AllocError>
    requires graph { reaching.old.graph ≡ graph.now }
    requires edges { All (λ (r : Reaching). All (λ i. i < length graph.now.edges) r.chain) reaching.old.left }
    requires shown { shown ≤ length reaching.old.left }
    ensures { OnOk result (document.new ≡ document.old
        ++ flat_map (reaching_blocks all project.now graph.now) (take shown reaching.old.left)) }
{
    let mut place = 0;
    while place < shown {
        reaching.advance();
        add_source(document, alloc, project, graph, reaching, all)?;
        place += 1;
    }
    Ok(())
}

/// Adds the source at hand: with the first directive of its chain, or with each.
fn add_source(
    document: &mut Document,
    alloc: Global,
    project: &Project<'_>,
    graph: &Graph,
    reaching: &mut SourceChains<'_>,
    all: bool,
) -> Result<(), AllocError>
    requires graph { reaching.old.graph ≡ graph.now }
    requires edges { All (λ i. i < length graph.now.edges) reaching.old.at.chain }
    ensures blocks { OnOk result (document.new ≡ document.old
        ++ reaching_blocks all project.now graph.now reaching.old.at) }
    ensures graph { reaching.new.graph ≡ reaching.old.graph }
    ensures left { reaching.new.left ≡ reaching.old.left }
{
    let source = reaching.source();
    let Some(first) = reaching.first() else {
        return add_header(document, alloc, project, source);
    };
    if all {
        reaching.make();
        return add_shortest(document, alloc, project, graph, reaching.edges());
    }
    let count = reaching.len();
    add_first(document, alloc, project, graph, source, first, count)
}

/// Adds that a source is a header.
fn add_header(
    document: &mut Document,
    alloc: Global,
    project: &Project<'_>,
    source: FileId,
) -> Result<(), AllocError>
    ensures { OnOk result (document.new ≡ document.old
        ++ spec.Words (header_words project.now source) ∷ []) }
{
    let mut text = Vec::new(alloc);
    put_path(&mut text, project, source)?;
    text.extend_from_slice(b" is itself the header")?;
    document.add_words(text)
}

/// Adds a source with the first directive of its chain, which has so many.
fn add_first(
    document: &mut Document,
    alloc: Global,
    project: &Project<'_>,
    graph: &Graph,
    source: FileId,
    first: EdgeId,
    count: u32,
) -> Result<(), AllocError>
    requires { first < length graph.now.edges }
    ensures { OnOk result (document.new ≡ document.old
        ++ led (lead_words project.now source count) (directives_of graph.now (first ∷ []))) }
{
    let mut text = Vec::new(alloc);
    put_lead(&mut text, project, source, count)?;
    document.add_led(text, directive_of(graph, first))
}

/// Adds what stands before the first directive of a chain, which has so many.
fn put_lead(
    text: &mut Vec<u8>,
    project: &Project<'_>,
    source: FileId,
    count: u32,
) -> Result<(), AllocError>
    ensures { OnOk result (text.new.items ≡ text.old.items ++ lead_words project.now source count) }
{
    put_path(text, project, source)?;
    text.extend_from_slice(b": by ")?;
    put_number(text, u64::from(count))?;
    text.extend_from_slice(b": ")?;
    Ok(())
}

/// The directive of an edge.
pub fn directive_of(graph: &Graph, edge: EdgeId) -> DirectiveId
    requires { edge < length graph.now.edges }
    ensures { directives_of graph.now (edge ∷ []) ≡ result ∷ [] }
{
    let found = edge_at(graph, edge);
    DirectiveId {
        file: found.from,
        line: found.line,
    }
}

/// Adds the last directives of all chains.
fn add_ways_in(
    document: &mut Document,
    alloc: Global,
    graph: &Graph,
    chains: &mut ShortestChains<'_>,
    most: Option<usize>,
) -> Result<(), AllocError>
    requires { All (λ chain. All (λ i. i < length graph.now.edges) chain) chains.old.left }
    ensures { OnOk result (document.new ≡ document.old ++ in_blocks most graph.now chains.old.left) }
{
    let edges = lasts_of(alloc, chains, &None)?;
    let directives = directives_of(alloc, graph, &edges)?;
    document.add_list(
        alloc,
        b" way in, by its last directive:",
        b" ways in, by their last directive:",
        &directives,
        most,
    )
}
