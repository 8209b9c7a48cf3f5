//! The document in which `cut` says which directives to remove.
ghost use Rattle.std.specs.Prelude.{◌≡◌, ◌<◌, ◌≤◌, ◌+◌, ◌++◌, [], None, true, length, take, IfOk, OnOk};
ghost use Rattle.std.specs.List.{All};
ghost use Rattle.inc_graph.specs.Cuts as cuts;
ghost use Rattle.inc_answers.specs.CutDocument.{chain_blocks, chain_words, chains_from, cut_document, fixed_document, least_words, many_chains, often_words, one_chain, parted_all, parted_from, parted_of, proof_blocks, proof_words, removal_words, shown_chains, where_words};
ghost use Rattle.inc_answers.specs.Fitting.{counted_as};

use crate::bounds::shown_count;
use crate::documents::{Document, put_counted, put_path};
use crate::missing_notes::put_number;
use crate::why_document::{put_headers, put_itself, put_none_of, put_unreached};
use inc_cut::CountedChains;
use inc_graph::{EdgeId, Graph};
use inc_lookup::{FileId, Project};
use std::alloc::{AllocError, Global};

/// How the chains are printed that show that a cut is the cheapest.
#[derive(Clone, Copy)]
pub struct ChainForm {
    /// Whether they are shown.
    pub all: bool,
    /// How many are shown at most; all where no number is given.
    pub most: Option<usize>,
    /// Whether some directives have costs.
    pub costed: bool,
}

/// The document of a cut and its chains.
pub fn cut_document(
    alloc: Global,
    project: &Project<'_>,
    graph: &Graph,
    cut: &[EdgeId],
    chains: &CountedChains,
    form: ChainForm,
) -> Result<Document, AllocError>
    requires cut { All (λ i. i < length graph.now.edges) cut.now }
    requires chains { All (λ (c : cuts.Counted). All (λ i. i < length graph.now.edges) c.chain) chains.now }
    ensures { IfOk result (λ document. document
        ≡ cut_document form.all form.costed form.most project.now graph.now cut.now chains.now) }
{
    if cut.is_empty() {
        return nothing_document(alloc, project, graph);
    }
    let mut document = Document::new(alloc);
    let mut text = Vec::new(alloc);
    put_removal(&mut text, project, graph, cut.len())?;
    document.add_words(text)?;
    document.add_edges(alloc, graph, cut)?;
    add_proof(&mut document, alloc, graph, chains, form)?;
    Ok(document)
}

/// The document of an empty cut.
fn nothing_document(
    alloc: Global,
    project: &Project<'_>,
    graph: &Graph,
) -> Result<Document, AllocError>
    ensures { IfOk result (λ document. document
        ≡ cut_document true true None project.now graph.now [] []) }
{
    let mut document = Document::new(alloc);
    let mut text = Vec::new(alloc);
    text.extend_from_slice(b"nothing to remove: ")?;
    put_unreached(&mut text, project, graph)?;
    document.add_words(text)?;
    Ok(document)
}

/// The document of a chain of fixed edges.
pub fn fixed_document(
    alloc: Global,
    project: &Project<'_>,
    graph: &Graph,
    edges: &[EdgeId],
) -> Result<Document, AllocError>
    requires { All (λ i. i < length graph.now.edges) edges.now }
    ensures { IfOk result (λ document. document ≡ fixed_document project.now graph.now edges.now) }
{
    let mut document = Document::new(alloc);
    let mut text = Vec::new(alloc);
    text.extend_from_slice(b"no cut: ")?;
    if edges.is_empty() {
        put_itself(&mut text, project, graph)?;
        document.add_words(text)?;
        return Ok(document);
    }
    text.extend_from_slice(b"this chain may not be removed:")?;
    document.add_words(text)?;
    document.add_edges(alloc, graph, edges)?;
    Ok(document)
}

/// Adds what to remove, and what that is for.
fn put_removal(
    text: &mut Vec<u8>,
    project: &Project<'_>,
    graph: &Graph,
    count: usize,
) -> Result<(), AllocError>
    ensures { OnOk result (text.new.items ≡ text.old.items ++ removal_words project.now graph.now count) }
{
    text.extend_from_slice(b"remove ")?;
    put_counted(text, count, b" directive, and ", b" directives, and ")?;
    put_parted(text, project, graph.sources(), graph.headers())?;
    text.extend_from_slice(b":")?;
    Ok(())
}

/// Adds that no source includes a header any longer.
fn put_parted(
    text: &mut Vec<u8>,
    project: &Project<'_>,
    sources: &[FileId],
    headers: &[FileId],
) -> Result<(), AllocError>
    ensures { OnOk result (text.new.items ≡ text.old.items ++ parted_of project.now sources.now headers.now) }
{
    match sources {
        [source] => put_parted_from(text, project, *source, headers),
        _ => put_parted_all(text, project, sources.len(), headers),
    }
}

/// The same for one source.
fn put_parted_from(
    text: &mut Vec<u8>,
    project: &Project<'_>,
    source: FileId,
    headers: &[FileId],
) -> Result<(), AllocError>
    ensures { OnOk result (text.new.items ≡ text.old.items ++ parted_from project.now source headers.now) }
{
    put_path(text, project, source)?;
    text.extend_from_slice(b" no longer includes ")?;
    put_headers(text, project, headers, b"", b"any of ")
}

/// The same for so many sources.
fn put_parted_all(
    text: &mut Vec<u8>,
    project: &Project<'_>,
    count: usize,
    headers: &[FileId],
) -> Result<(), AllocError>
    ensures { OnOk result (text.new.items ≡ text.old.items ++ parted_all project.now count headers.now) }
{
    put_none_of(text, count)?;
    put_headers(text, project, headers, b"the header ", b"any of ")?;
    text.extend_from_slice(b" any longer")?;
    Ok(())
}

/// Adds the chains that show that no cut is cheaper.
fn add_proof(
    document: &mut Document,
    alloc: Global,
    graph: &Graph,
    chains: &CountedChains,
    form: ChainForm,
) -> Result<(), AllocError>
    requires { All (λ (c : cuts.Counted). All (λ i. i < length graph.now.edges) c.chain) chains.now }
    ensures { OnOk result (document.new ≡ document.old
        ++ proof_blocks form.all form.costed form.most graph.now chains.now) }
{
    let mut text = Vec::new(alloc);
    put_proof(&mut text, chains.len(), form)?;
    document.add_words(text)?;
    if form.all {
        return add_chains(document, alloc, graph, chains, form.most);
    }
    Ok(())
}

/// Adds how many chains show that no cut is cheaper.
fn put_proof(text: &mut Vec<u8>, count: usize, form: ChainForm) -> Result<(), AllocError>
    ensures { OnOk result (text.new.items ≡ text.old.items ++ proof_words form.all form.costed count) }
{
    text.extend_from_slice(least_words(form.costed))?;
    put_counted(
        text,
        count,
        one_chain(form.costed),
        many_chains(form.costed),
    )?;
    text.extend_from_slice(where_words(form.all, count))?;
    Ok(())
}

/// What no other cut is, where no costs are given, and where some are.
fn least_words(costed: bool) -> &'static [u8]
    ensures { result.now ≡ least_words costed }
{
    if costed {
        return b"no cheaper set does: ";
    }
    b"no smaller set does: "
}

/// What a chain is.
fn one_chain(costed: bool) -> &'static [u8]
    ensures { result.now ≡ one_chain costed }
{
    if costed {
        return b" chain that passes no directive more often than it costs";
    }
    b" chain that shares no removable directive"
}

/// What several chains are.
fn many_chains(costed: bool) -> &'static [u8]
    ensures { result.now ≡ many_chains costed }
{
    if costed {
        return b" chains that pass no directive more often than it costs";
    }
    b" chains that share no removable directive"
}

/// Where so many chains are.
fn where_words(all: bool, count: usize) -> &'static [u8]
    ensures { result.now ≡ where_words all count }
{
    if all {
        return b":";
    }
    if count == 1 {
        return b" (--all shows it)";
    }
    b" (--all shows them)"
}

/// Adds at most so many of the chains.
fn add_chains(
    document: &mut Document,
    alloc: Global,
    graph: &Graph,
    chains: &CountedChains,
    most: Option<usize>,
) -> Result<(), AllocError>
    requires { All (λ (c : cuts.Counted). All (λ i. i < length graph.now.edges) c.chain) chains.now }
    ensures { OnOk result (document.new ≡ document.old ++ shown_chains true most graph.now chains.now) }
{
    let total = chains.len();
    let shown = shown_count(most, total);
    add_first_chains(document, alloc, graph, chains, shown)?;
    document.add_more(alloc, total - shown)
}

/// Adds so many of them.
fn add_first_chains(
    document: &mut Document,
    alloc: Global,
    graph: &Graph,
    chains: &CountedChains,
    shown: usize,
) -> Result<(), AllocError>
    requires chains { All (λ (c : cuts.Counted). All (λ i. i < length graph.now.edges) c.chain) chains.now }
    requires shown { shown ≤ length chains.now }
    ensures { OnOk result (document.new ≡ document.old
        ++ chains_from graph.now 1 (length chains.now) (take shown chains.now)) }
{
    for index in 0..shown {
        add_chain(
            document,
            alloc,
            graph,
            index,
            chains.len(),
            chains.edges(index),
            chains.count(index),
        )?;
    }
    Ok(())
}

/// Adds the chain at a place.
fn add_chain(
    document: &mut Document,
    alloc: Global,
    graph: &Graph,
    index: usize,
    total: usize,
    edges: &[EdgeId],
    count: u32,
) -> Result<(), AllocError>
    requires place { index < total }
    requires edges { All (λ i. i < length graph.now.edges) edges.now }
    ensures { OnOk result (document.new ≡ document.old
        ++ chain_blocks graph.now (index + 1) total (counted_as edges.now count)) }
{
    let mut text = Vec::new(alloc);
    put_chain(&mut text, index + 1, total, edges.len(), count)?;
    document.add_words(text)?;
    document.add_edges(alloc, graph, edges)
}

/// Adds the number of a chain, how long it is, and how often it counts.
fn put_chain(
    text: &mut Vec<u8>,
    number: usize,
    total: usize,
    len: usize,
    count: u32,
) -> Result<(), AllocError>
    ensures { OnOk result (text.new.items ≡ text.old.items ++ chain_words number total len count) }
{
    text.extend_from_slice(b"chain ")?;
    put_number(text, number as u64)?;
    text.extend_from_slice(b" of ")?;
    put_number(text, total as u64)?;
    text.extend_from_slice(b", by ")?;
    put_counted(text, len, b" directive", b" directives")?;
    put_often(text, count)
}

/// Adds how often a chain counts, where that is not once.
fn put_often(text: &mut Vec<u8>, count: u32) -> Result<(), AllocError>
    ensures { OnOk result (text.new.items ≡ text.old.items ++ often_words count) }
{
    if count == 1 {
        text.extend_from_slice(b":")?;
        return Ok(());
    }
    text.extend_from_slice(b", counted ")?;
    put_number(text, u64::from(count))?;
    text.extend_from_slice(b" times:")?;
    Ok(())
}
