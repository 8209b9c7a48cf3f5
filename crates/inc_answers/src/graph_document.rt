//! The document in which `graph` lists the edges that the sources reach.
ghost use Rattle.std.specs.Prelude.{◌≡◌, ◌++◌, ◌∷◌, [], map, IfOk, OnOk};
ghost use Rattle.inc_graph.specs.Views.{seen_edge};
ghost use Rattle.inc_answers.specs.Documents as spec;
ghost use Rattle.inc_answers.specs.GraphDocument.{graph_document, leading_words, link_block, target_words};

use crate::documents::{Document, put_counted, put_path};
use crate::why_document::add_unresolved;
use inc_graph::{Edge, Graph};
use inc_lookup::{DirectiveId, FileId, Project};
use std::alloc::{AllocError, Global};

/// The document of a graph.
pub fn graph_document(
    alloc: Global,
    project: &Project<'_>,
    graph: &Graph,
) -> Result<Document, AllocError>
    ensures { IfOk result (λ document. document ≡ graph_document project.now graph.now) }
{
    let mut document = Document::new(alloc);
    let edges = graph.edges();
    add_count(&mut document, alloc, edges.len())?;
    add_links(&mut document, alloc, project, edges)?;
    add_unresolved(&mut document, alloc, graph, true)?;
    Ok(document)
}

/// Adds how many directives follow.
fn add_count(document: &mut Document, alloc: Global, count: usize) -> Result<(), AllocError>
    ensures { OnOk result (document.new ≡ document.old ++ spec.Words (leading_words count) ∷ []) }
{
    let mut text = Vec::new(alloc);
    put_counted(
        &mut text,
        count,
        b" directive leads to a file:",
        b" directives lead to files:",
    )?;
    document.add_words(text)
}

/// Adds the directive of each edge, behind the file to which it leads.
fn add_links(
    document: &mut Document,
    alloc: Global,
    project: &Project<'_>,
    edges: &[Edge],
) -> Result<(), AllocError>
    ensures { OnOk result (document.new ≡ document.old
        ++ map (λ (e : Edge). link_block project.now (seen_edge e)) edges.now) }
{
    for edge in edges {
        add_link(document, alloc, project, *edge)?;
    }
    Ok(())
}

/// Adds the directive of an edge, behind the file to which it leads.
fn add_link(
    document: &mut Document,
    alloc: Global,
    project: &Project<'_>,
    edge: Edge,
) -> Result<(), AllocError>
    ensures { OnOk result (document.new ≡ document.old ++ link_block project.now (seen_edge edge) ∷ []) }
{
    let directive = DirectiveId {
        file: edge.from,
        line: edge.line,
    };
    let mut text = Vec::new(alloc);
    put_target(&mut text, project, edge.to)?;
    document.add_led(text, directive)
}

/// Adds the file to which a directive leads.
fn put_target(text: &mut Vec<u8>, project: &Project<'_>, to: FileId) -> Result<(), AllocError>
    ensures { OnOk result (text.new.items ≡ text.old.items ++ target_words project.now to) }
{
    put_path(text, project, to)?;
    text.extend_from_slice(b": ")?;
    Ok(())
}
