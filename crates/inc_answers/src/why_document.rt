//! The document in which `why` says how a header reaches a source.
ghost use Rattle.std.specs.Prelude.{◌≡◌, ◌<◌, ◌≤◌, ◌++◌, ◌∷◌, [], Some, find, flat_map, length, take, IfOk, IfSome, OnOk};
ghost use Rattle.std.specs.List.{All};
ghost use Rattle.inc_graph.specs.Members.{is_member};
ghost use Rattle.inc_answers.specs.WhyDocument.{blocker_blocks, blocker_if, blocker_ids, by_words, edge_from, edge_to, ends_words, headers_words, is_kind, is_same, itself_words, last_of, missing_blocks, none_of, other_blocks, other_last, other_lasts, reached_document, shortest_blocks, unreached_document, unreached_from, unreached_of, unreached_words, unresolved_blocks, way_blocks, way_words, whole_way, whole_ways};

use crate::bounds::shown_count;
use crate::changes::directives_of;
use crate::documents::{Document, put_counted, put_path};
use crate::edges::edge_at;
use crate::missing_notes::put_number;
use inc_graph::{Blocker, BlockerKind, EdgeId, Graph, MissingList, ShortestChains};
use inc_lookup::{DirectiveId, FileId, Project};
use std::alloc::{AllocError, Global};

/// The document of a graph in which the chain that is made is a shortest one.
pub fn reached_document(
    alloc: Global,
    project: &Project<'_>,
    graph: &Graph,
    chains: &mut ShortestChains<'_>,
    all: bool,
    most: Option<usize>,
) -> Result<Document, AllocError>
    requires graph { chains.old.graph ≡ graph.now }
    requires shortest { All (λ i. i < length graph.now.edges) chains.old.chain }
    requires chains { All (λ chain. All (λ i. i < length graph.now.edges) chain) chains.old.left }
    ensures { IfOk result (λ document. document
        ≡ reached_document all most project.now graph.now chains.old.chain chains.old.left) }
{
    let mut document = Document::new(alloc);
    add_shortest(&mut document, alloc, project, graph, chains.edges())?;
    let last = last_of(chains.edges());
    add_others(&mut document, alloc, graph, chains, &last, all, most)?;
    add_unresolved(&mut document, alloc, graph, all)?;
    Ok(document)
}

/// The document of a graph without a chain.
pub fn unreached_document(
    alloc: Global,
    project: &Project<'_>,
    graph: &Graph,
    all: bool,
) -> Result<Document, AllocError>
    ensures { IfOk result (λ document. document ≡ unreached_document all project.now graph.now) }
{
    let mut document = Document::new(alloc);
    let mut text = Vec::new(alloc);
    put_unreached(&mut text, project, graph)?;
    document.add_words(text)?;
    add_unresolved(&mut document, alloc, graph, all)?;
    Ok(document)
}

/// Adds that no source includes a header.
pub fn put_unreached(
    text: &mut Vec<u8>,
    project: &Project<'_>,
    graph: &Graph,
) -> Result<(), AllocError>
    ensures { OnOk result (text.new.items ≡ text.old.items ++ unreached_words project.now graph.now) }
{
    put_unreached_of(text, project, graph.sources(), graph.headers())
}

/// The same for these sources and headers.
fn put_unreached_of(
    text: &mut Vec<u8>,
    project: &Project<'_>,
    sources: &[FileId],
    headers: &[FileId],
) -> Result<(), AllocError>
    ensures { OnOk result (text.new.items ≡ text.old.items ++ unreached_of project.now sources.now headers.now) }
{
    match sources {
        [source] => put_unreached_from(text, project, *source, headers),
        _ => {
            put_none_of(text, sources.len())?;
            put_headers(text, project, headers, b"the header ", b"one of ")
        }
    }
}

/// The same for one source.
fn put_unreached_from(
    text: &mut Vec<u8>,
    project: &Project<'_>,
    source: FileId,
    headers: &[FileId],
) -> Result<(), AllocError>
    ensures { OnOk result (text.new.items ≡ text.old.items ++ unreached_from project.now source headers.now) }
{
    put_path(text, project, source)?;
    text.extend_from_slice(b" does not include ")?;
    put_headers(text, project, headers, b"", b"one of ")
}

/// Adds that none of so many sources includes what follows.
pub fn put_none_of(text: &mut Vec<u8>, count: usize) -> Result<(), AllocError>
    ensures { OnOk result (text.new.items ≡ text.old.items ++ none_of count) }
{
    text.extend_from_slice(b"none of ")?;
    put_number(text, count as u64)?;
    text.extend_from_slice(b" sources includes ")?;
    Ok(())
}

/// Adds the header, or how many there are.
pub fn put_headers(
    text: &mut Vec<u8>,
    project: &Project<'_>,
    headers: &[FileId],
    one: &[u8],
    several: &[u8],
) -> Result<(), AllocError>
    ensures { OnOk result (text.new.items ≡ text.old.items ++ headers_words one.now several.now project.now headers.now) }
{
    match headers {
        [header] => {
            text.extend_from_slice(one)?;
            put_path(text, project, *header)
        }
        _ => {
            text.extend_from_slice(several)?;
            put_number(text, headers.len() as u64)?;
            text.extend_from_slice(b" headers")?;
            Ok(())
        }
    }
}

/// Adds that the first source that is a header is one.
pub fn put_itself(
    text: &mut Vec<u8>,
    project: &Project<'_>,
    graph: &Graph,
) -> Result<(), AllocError>
    ensures { OnOk result (text.new.items ≡ text.old.items ++ itself_words project.now graph.now) }
{
    if let Some(source) = source_itself(graph) {
        put_path(text, project, source)?;
    }
    text.extend_from_slice(b" is itself the header")?;
    Ok(())
}

/// The first source that is a header.
fn source_itself(graph: &Graph) -> Option<FileId>
    ensures { result ≡ find (λ s. is_member s graph.now.headers) graph.now.sources }
{
    for source in graph.sources() {
        if graph.is_header(*source) {
            return Some(*source);
        }
    }
    None
}

/// Adds a shortest chain.
pub fn add_shortest(
    document: &mut Document,
    alloc: Global,
    project: &Project<'_>,
    graph: &Graph,
    edges: &[EdgeId],
) -> Result<(), AllocError>
    requires { All (λ i. i < length graph.now.edges) edges.now }
    ensures { OnOk result (document.new ≡ document.old ++ shortest_blocks project.now graph.now edges.now) }
{
    let Some(last) = last_of(edges) else {
        let mut text = Vec::new(alloc);
        put_itself(&mut text, project, graph)?;
        return document.add_words(text);
    };
    let mut text = Vec::new(alloc);
    let (from, to) = (from_of(graph, edges[0]), to_of(graph, last));
    put_reached(&mut text, project, from, to, edges.len())?;
    document.add_words(text)?;
    document.add_edges(alloc, graph, edges)
}

/// Adds that a file includes another one, and by how many directives.
fn put_reached(
    text: &mut Vec<u8>,
    project: &Project<'_>,
    from: FileId,
    to: FileId,
    count: usize,
) -> Result<(), AllocError>
    ensures { OnOk result (text.new.items ≡ text.old.items ++ (ends_words project.now from to ++ by_words count)) }
{
    put_ends(text, project, from, to)?;
    put_by(text, count)
}

/// Adds that a file includes another one.
fn put_ends(
    text: &mut Vec<u8>,
    project: &Project<'_>,
    from: FileId,
    to: FileId,
) -> Result<(), AllocError>
    ensures { OnOk result (text.new.items ≡ text.old.items ++ ends_words project.now from to) }
{
    put_path(text, project, from)?;
    text.extend_from_slice(b" includes ")?;
    put_path(text, project, to)
}

/// Adds how many directives follow.
fn put_by(text: &mut Vec<u8>, count: usize) -> Result<(), AllocError>
    ensures { OnOk result (text.new.items ≡ text.old.items ++ by_words count) }
{
    text.extend_from_slice(b" by ")?;
    put_counted(text, count, b" directive:", b" directives:")
}

/// The file that an edge leaves.
fn from_of(graph: &Graph, edge: EdgeId) -> FileId
    requires { edge < length graph.now.edges }
    ensures { result ≡ edge_from graph.now edge }
{
    edge_at(graph, edge).from
}

/// The file that an edge leads to.
fn to_of(graph: &Graph, edge: EdgeId) -> FileId
    requires { edge < length graph.now.edges }
    ensures { result ≡ edge_to graph.now edge }
{
    edge_at(graph, edge).to
}

/// The last edge of a chain, if it has one.
fn last_of(edges: &[EdgeId]) -> Option<EdgeId>
    ensures last { result ≡ last_of edges.now }
    ensures some { IfSome result (λ i. 0 < length edges.now) }
{
    if edges.is_empty() {
        return None;
    }
    Some(edges[edges.len() - 1])
}

/// Whether the two edges are one.
fn is_same(a: &Option<EdgeId>, b: &Option<EdgeId>) -> bool
    ensures { result ≡ is_same a.now b.now }
{
    match a {
        Some(edge) => is_edge(*edge, b),
        None => false,
    }
}

/// Whether the second edge is the first.
fn is_edge(edge: EdgeId, other: &Option<EdgeId>) -> bool
    ensures { result ≡ is_same (Some edge) other.now }
{
    match other {
        Some(other) => edge.index() == other.index(),
        None => false,
    }
}

/// Adds the last directives of the chains that are left, or each whole, without that which ends with the same edge as the shortest.
fn add_others(
    document: &mut Document,
    alloc: Global,
    graph: &Graph,
    chains: &mut ShortestChains<'_>,
    last: &Option<EdgeId>,
    all: bool,
    most: Option<usize>,
) -> Result<(), AllocError>
    requires { All (λ chain. All (λ i. i < length graph.now.edges) chain) chains.old.left }
    ensures { OnOk result (document.new ≡ document.old ++ other_blocks all most last.now graph.now chains.old.left) }
{
    if all {
        return add_ways(document, alloc, graph, chains, last, most);
    }
    let edges = lasts_of(alloc, chains, last)?;
    let directives = directives_of(alloc, graph, &edges)?;
    document.add_list(
        alloc,
        b" other way in, by its last directive (--all shows the chain):",
        b" other ways in, by their last directive (--all shows each chain):",
        &directives,
        most,
    )
}

/// The last edges of the chains that are left, without that of the shortest.
pub fn lasts_of(
    alloc: Global,
    chains: &mut ShortestChains<'_>,
    last: &Option<EdgeId>,
) -> Result<Vec<EdgeId>, AllocError>
    ensures { IfOk result (λ edges. edges.items ≡ other_lasts last.now chains.old.left) }
{
    let mut edges = Vec::new(alloc);
    while chains.advance() {
        push_last(&mut edges, chains.edges(), last)?;
    }
    Ok(edges)
}

/// Adds the last edge of a chain, unless it is that of the shortest.
fn push_last(
    edges: &mut Vec<EdgeId>,
    chain: &[EdgeId],
    last: &Option<EdgeId>,
) -> Result<(), AllocError>
    ensures { OnOk result (edges.new.items ≡ edges.old.items ++ other_lasts last.now (chain.now ∷ [])) }
{
    if let Some(edge) = other_last(chain, last) {
        edges.push(edge)?;
    }
    Ok(())
}

/// The last edge of a chain, unless it is that of the shortest.
fn other_last(edges: &[EdgeId], last: &Option<EdgeId>) -> Option<EdgeId>
    ensures { result ≡ other_last last.now edges.now }
{
    let own = last_of(edges);
    if is_same(&own, last) {
        return None;
    }
    own
}

/// Adds at most so many of the chains that are left, without that which ends with the same edge as the shortest.
fn add_ways(
    document: &mut Document,
    alloc: Global,
    graph: &Graph,
    chains: &mut ShortestChains<'_>,
    last: &Option<EdgeId>,
    most: Option<usize>,
) -> Result<(), AllocError>
    requires { All (λ chain. All (λ i. i < length graph.now.edges) chain) chains.old.left }
    ensures { OnOk result (document.new ≡ document.old ++ whole_ways most last.now graph.now chains.old.left) }
{
    let total = chains.count();
    let shown = shown_count(most, total);
    add_first_ways(document, alloc, graph, chains, last, shown)?;
    document.add_more(alloc, total - shown)
}

/// The same of so many of them, and no more.
fn add_first_ways(
    document: &mut Document,
    alloc: Global,
    graph: &Graph,
    chains: &mut ShortestChains<'_>,
    last: &Option<EdgeId>,
    shown: usize,
) -> Result<(), AllocError>
    requires chains { All (λ chain. All (λ i. i < length graph.now.edges) chain) chains.old.left }
    requires shown { shown ≤ length chains.old.left }
    ensures { OnOk result (document.new ≡ document.old
        ++ flat_map (way_blocks last.now graph.now) (take shown chains.old.left)) }
{
    let mut place = 0;
    while place < shown {
        chains.advance();
        add_way(document, alloc, graph, chains.edges(), last)?;
        place += 1;
    }
    Ok(())
}

/// Adds a chain with how long it is, unless its last edge is that of the shortest.
fn add_way(
    document: &mut Document,
    alloc: Global,
    graph: &Graph,
    edges: &[EdgeId],
    last: &Option<EdgeId>,
) -> Result<(), AllocError>
    requires { All (λ i. i < length graph.now.edges) edges.now }
    ensures { OnOk result (document.new ≡ document.old ++ way_blocks last.now graph.now edges.now) }
{
    if is_same(&last_of(edges), last) {
        return Ok(());
    }
    add_whole_way(document, alloc, graph, edges)
}

/// Adds a chain with how long it is.
fn add_whole_way(
    document: &mut Document,
    alloc: Global,
    graph: &Graph,
    edges: &[EdgeId],
) -> Result<(), AllocError>
    requires { All (λ i. i < length graph.now.edges) edges.now }
    ensures { OnOk result (document.new ≡ document.old ++ whole_way graph.now edges.now) }
{
    let mut text = Vec::new(alloc);
    put_way(&mut text, edges.len())?;
    document.add_words(text)?;
    document.add_edges(alloc, graph, edges)
}

/// Adds how long a chain is.
fn put_way(text: &mut Vec<u8>, count: usize) -> Result<(), AllocError>
    ensures { OnOk result (text.new.items ≡ text.old.items ++ way_words count) }
{
    text.extend_from_slice(b"another way in, by ")?;
    put_counted(text, count, b" directive:", b" directives:")
}

/// Adds the directives of which nothing can be said, and before them those whose header is not found, if all is to be shown.
pub fn add_unresolved(
    document: &mut Document,
    alloc: Global,
    graph: &Graph,
    all: bool,
) -> Result<(), AllocError>
    ensures { OnOk result (document.new ≡ document.old ++ unresolved_blocks all graph.now) }
{
    if all {
        add_missing(document, alloc, graph.missing())?;
    }
    add_blockers(document, alloc, graph.blockers())
}

/// Adds the directives whose header is not found.
fn add_missing(
    document: &mut Document,
    alloc: Global,
    missing: &MissingList,
) -> Result<(), AllocError>
    ensures { OnOk result (document.new ≡ document.old ++ missing_blocks missing.now) }
{
    let mut directives = Vec::with_capacity(alloc, missing.len())?;
    for place in 0..missing.len() {
        let directive = missing.at(place);
        directives.push(DirectiveId {
            file: directive.file,
            line: directive.line,
        })?;
    }
    document.add_list(
        alloc,
        b" include names a header that was not found:",
        b" includes name headers that were not found:",
        &directives,
        None,
    )
}

/// Adds the directives of which nothing can be said, by why that is.
fn add_blockers(
    document: &mut Document,
    alloc: Global,
    blockers: &[Blocker],
) -> Result<(), AllocError>
    ensures { OnOk result (document.new ≡ document.old ++ blocker_blocks blockers.now) }
{
    let computed = blocker_ids(alloc, blockers, BlockerKind::Computed)?;
    let foreign = blocker_ids(alloc, blockers, BlockerKind::Foreign)?;
    let several = blocker_ids(alloc, blockers, BlockerKind::Several)?;
    document.add_list(
        alloc,
        b" include may name any header, since macros make its name:",
        b" includes may name any header, since macros make their names:",
        &computed,
        None,
    )?;
    document.add_list(
        alloc,
        b" directive may include any header, since it is none of the language:",
        b" directives may include any header, since they are none of the language:",
        &foreign,
        None,
    )?;
    document.add_list(
        alloc,
        b" include leads to several files, by how its own file is found:",
        b" includes lead to several files, by how their own files are found:",
        &several,
        None,
    )
}

/// The directives of which nothing can be said for this reason.
fn blocker_ids(
    alloc: Global,
    blockers: &[Blocker],
    kind: BlockerKind,
) -> Result<Vec<DirectiveId>, AllocError>
    ensures { IfOk result (λ ids. ids.items ≡ blocker_ids kind blockers.now) }
{
    let mut ids = Vec::new(alloc);
    for blocker in blockers {
        push_blocker(&mut ids, *blocker, kind)?;
    }
    Ok(ids)
}

/// Adds the directive of a blocker, if nothing can be said of it for this reason.
fn push_blocker(
    ids: &mut Vec<DirectiveId>,
    blocker: Blocker,
    kind: BlockerKind,
) -> Result<(), AllocError>
    ensures { OnOk result (ids.new.items ≡ ids.old.items ++ blocker_ids kind (blocker ∷ [])) }
{
    if let Some(id) = blocker_if(blocker, kind) {
        ids.push(id)?;
    }
    Ok(())
}

/// The directive of a blocker, if nothing can be said of it for this reason.
fn blocker_if(blocker: Blocker, kind: BlockerKind) -> Option<DirectiveId>
    ensures { result ≡ blocker_if kind blocker }
{
    if !is_kind(kind, blocker.kind) {
        return None;
    }
    Some(DirectiveId {
        file: blocker.file,
        line: blocker.line,
    })
}

/// Whether the two reasons are one.
fn is_kind(a: BlockerKind, b: BlockerKind) -> bool
    ensures { result ≡ is_kind a b }
{
    match (a, b) {
        (BlockerKind::Computed, BlockerKind::Computed)
        | (BlockerKind::Foreign, BlockerKind::Foreign)
        | (BlockerKind::Several, BlockerKind::Several) => true,
        _ => false,
    }
}
