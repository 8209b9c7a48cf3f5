//! Lists of edges and of blockers, as lines of text.
ghost use Rattle.std.specs.Prelude.{◌≡◌, ◌<◌, ◌≤◌, true, Some, length, take, slice_get};
ghost use Rattle.std.specs.List.{All, list_all};
ghost use Rattle.inc_graph.specs.IncludeGraph.{IsSound};
ghost use Rattle.inc_graph.specs.Views.{numbered};
ghost use Rattle.inc_check.specs.Certificates.{marks_of};
ghost use Rattle.inc_check.specs.Texts.{is_short_mark, marks_text};
ghost use Rattle.inc_answers.specs.MarkTexts.{list_text, blocker_word, blocker_text, blockers_text, AreFound};
ghost use Rattle.inc_answers.specs.Sending.{Sends};
ghost use Rattle.inc_answers.specs.declared.edges.TheConstants.{TOGETHER};

use crate::lines::{send_count_line, send_directive};
use crate::output::Output;
use inc_graph::{Blocker, BlockerKind, Edge, EdgeId, Graph};
use inc_lookup::Project;
use inc_text::ByteSink;

/// How many edges are looked up together: more than a processor reads at once, and few enough to stay at hand until they are sent.
const TOGETHER: usize = 32;

/// So many edges at least are looked up together. Fewer are sent one after the other.
const SOME: usize = 8;

/// Sends a word, how many edges there are, and the directive of each.
pub fn send_list<W: ByteSink>(
    out: &mut Output<W>,
    word: &[u8],
    project: &Project<'_>,
    graph: &Graph,
    edges: &[EdgeId],
)
    requires files { graph.now.files ≡ length project.now.paths }
    requires edges { All (λ i. i < length graph.now.edges) edges.now }
    ensures sent { Sends out.old out.new
        (list_text word.now (marks_of project.now graph.now edges.now)) }
    ensures small { list_all is_short_mark (marks_of project.now graph.now edges.now) ≡ true }
{
    send_count_line(out, word, edges.len());
    send_edges(out, project, graph, edges);
}

/// Sends the directive of each edge, of many at a time while there are some.
pub fn send_edges<W: ByteSink>(
    out: &mut Output<W>,
    project: &Project<'_>,
    graph: &Graph,
    edges: &[EdgeId],
)
    requires files { graph.now.files ≡ length project.now.paths }
    requires edges { All (λ i. i < length graph.now.edges) edges.now }
    ensures sent { Sends out.old out.new
        (marks_text (marks_of project.now graph.now edges.now)) }
    ensures small { list_all is_short_mark (marks_of project.now graph.now edges.now) ≡ true }
{
    let mut at = 0;
    while edges.len() - at >= SOME {
        let end = at + TOGETHER.min(edges.len() - at);
        send_together(out, project, graph, &edges[at..end]);
        at = end;
    }
    send_apart(out, project, graph, &edges[at..]);
}

/// Sends the directives of edges that are looked up together. A call of its own spares short lists the room for them.
#[inline(never)]
fn send_together<W: ByteSink>(
    out: &mut Output<W>,
    project: &Project<'_>,
    graph: &Graph,
    edges: &[EdgeId],
)
    requires files { graph.now.files ≡ length project.now.paths }
    requires edges { All (λ i. i < length graph.now.edges) edges.now }
    requires some { 1 ≤ length edges.now }
    requires most { length edges.now ≤ TOGETHER }
    ensures sent { Sends out.old out.new
        (marks_text (marks_of project.now graph.now edges.now)) }
    ensures small { list_all is_short_mark (marks_of project.now graph.now edges.now) ≡ true }
{
    let found = edges_found(graph, edges);
    for edge in &found[..edges.len()] {
        send_directive(out, edge.line, project.path(edge.from));
    }
}

/// Sends the directive of each edge, one after the other.
fn send_apart<W: ByteSink>(
    out: &mut Output<W>,
    project: &Project<'_>,
    graph: &Graph,
    edges: &[EdgeId],
)
    requires files { graph.now.files ≡ length project.now.paths }
    requires edges { All (λ i. i < length graph.now.edges) edges.now }
    ensures sent { Sends out.old out.new
        (marks_text (marks_of project.now graph.now edges.now)) }
    ensures small { list_all is_short_mark (marks_of project.now graph.now edges.now) ≡ true }
{
    for edge in edges {
        let found = edge_at(graph, *edge);
        send_directive(out, found.line, project.path(found.from));
    }
}

/// Looks up edges before a directive is sent: they are the first ones of the answer. In a large graph each look-up waits for memory; with
/// nothing between them they wait together. A call would copy the answer twice.
#[inline(always)]
fn edges_found(graph: &Graph, edges: &[EdgeId]) -> [Edge; TOGETHER]
    requires edges { All (λ i. i < length graph.now.edges) edges.now }
    requires some { 1 ≤ length edges.now }
    requires most { length edges.now ≤ TOGETHER }
    ensures found { AreFound graph.now edges.now (take (length edges.now) result) }
    ensures sound { IsSound graph.now }
{
    let mut found = [edge_at(graph, edges[0]); TOGETHER];
    for i in 0..edges.len() {
        found[i] = edge_at(graph, edges[i]);
    }
    found
}

/// Looks up an edge.
#[inline(always)]
pub fn edge_at(graph: &Graph, edge: EdgeId) -> Edge
    requires { edge < length graph.now.edges }
    ensures found { slice_get (numbered graph.now.edges) edge ≡ Some result }
    ensures sound { IsSound graph.now }
{
    graph.edges()[edge.index()]
}

/// Sends a line for each blocker.
pub fn send_blockers<W: ByteSink>(out: &mut Output<W>, project: &Project<'_>, blockers: &[Blocker])
    requires { All (λ (b : Blocker). b.file < length project.now.paths) blockers.now }
    ensures { Sends out.old out.new
        (blockers_text project.now blockers.now) }
{
    for blocker in blockers {
        send_blocker(out, project, *blocker);
    }
}

fn send_blocker<W: ByteSink>(out: &mut Output<W>, project: &Project<'_>, blocker: Blocker)
    requires { blocker.file < length project.now.paths }
    ensures { Sends out.old out.new
        (blocker_text project.now blocker) }
{
    let word = blocker_word(blocker.kind);
    out.send(word);
    send_directive(out, blocker.line, project.path(blocker.file));
}

/// Why nothing can be said of a blocker.
fn blocker_word(kind: BlockerKind) -> &'static [u8]
    ensures { result.now ≡ blocker_word kind }
{
    match kind {
        BlockerKind::Computed => b"computed ",
        BlockerKind::Foreign => b"foreign ",
        BlockerKind::Several => b"several ",
    }
}
