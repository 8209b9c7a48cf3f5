//! The edges that the sources reach.
ghost use Rattle.std.specs.Prelude.{◌≡◌, ◌<◌, ◌++◌, None, false, length, flat_map, IfSome, IfErr};
ghost use Rattle.std.specs.List.{All};
ghost use Rattle.inc_lookup.specs.Given.{HoldsOfGiven};
ghost use Rattle.inc_graph.specs.Views.{seen_edge};
ghost use Rattle.inc_check.specs.Texts.{line_text};
ghost use Rattle.inc_answers.specs.GraphText.{edge_text, graph_text, IsGraphOf, IsGraphBy};
ghost use Rattle.inc_answers.specs.Numbers.{directive_text};
ghost use Rattle.inc_answers.specs.Questions.{FailsAt};
ghost use Rattle.inc_answers.specs.Sending.{Sends};
ghost use Rattle.inc_answers.specs.Strictness.{Strict, strays_of};
ghost use Rattle.inc_answers.specs.Writing.{Prints, Writes, is_of_certificate, unread_of};

use crate::answer_notes::definition_notes;
use crate::asked::Question;
use crate::lines::{send_count_line, send_directive, send_line};
use crate::outcome::{End, EndKind, RunFault, noted};
use crate::output::Output;
use crate::questions::{find_graph, refuse_question};
use crate::strictness::{refuse_strays, strays_of};
use crate::why::send_unresolved;
use inc_graph::{Edge, Graph};
use inc_lookup::{Project, Sources};
use inc_text::ByteSink;
use std::alloc::Global;

/// Writes each edge of a graph, in order of file and line: its directive, and the file that it leads to; then the directives whose header
/// is not found, and those of which nothing can be said. Files are read when they are reached, each once, the headers, if the question is
/// about some, never. All memory is taken before the first byte is written.
pub fn run_graph<S: Sources, W: ByteSink>(
    alloc: Global,
    project: &Project<'_>,
    sources: &mut S,
    question: &Question<'_>,
    w: W,
) -> (Result<End, RunFault>, W)
    requires { W.has_failed w ≡ false }
    ensures written { Writes (λ p. HoldsOfGiven S.gives sources.old sources.new project.now
        (IsGraphBy question.now p))
        (W.written w) (W.written result.1) (W.has_failed result.1) result.0 }
    ensures unread { IfErr result.0 (λ fault. IfSome (unread_of fault)
        (FailsAt S.gives sources.old sources.new project.now question.now)) }
    ensures certificate { IfErr result.0 (λ f. is_of_certificate f ≡ false) }
{
    let mut out = match Output::new(alloc, w) {
        Ok(out) => out,
        Err(w) => return (Err(RunFault::NoMemory), w),
    };
    let ended = list(alloc, project, sources, question, &mut out);
    out.finish(ended)
}

/// Sends the edges that the sources of a question reach, or why there is no answer.
fn list<S: Sources, W: ByteSink>(
    alloc: Global,
    project: &Project<'_>,
    sources: &mut S,
    question: &Question<'_>,
    out: &mut Output<W>,
) -> Result<End, RunFault>
    ensures sent { Prints (λ p. HoldsOfGiven S.gives sources.old sources.new project.now
        (IsGraphBy question.now p)) out.old out.new result }
    ensures unread { IfErr result (λ fault. IfSome (unread_of fault)
        (FailsAt S.gives sources.old sources.new project.now question.now)) }
    ensures certificate { IfErr result (λ f. is_of_certificate f ≡ false) }
{
    match find_graph(alloc, project, sources, question) {
        Ok(graph) => list_strictly(alloc, project, question, &graph, out),
        Err(cause) => refuse_question(alloc, project, question, cause, out),
    }
}

/// Sends the text of a graph, or the refusal of directives whose header is not found.
fn list_strictly<W: ByteSink>(
    alloc: Global,
    project: &Project<'_>,
    question: &Question<'_>,
    graph: &Graph,
    out: &mut Output<W>,
) -> Result<End, RunFault>
    requires files { graph.now.files ≡ length project.now.paths }
    ensures sent { Prints (Strict (strays_of question.now) IsGraphOf project.now graph.now) out.old out.new result }
    ensures read { IfErr result (λ f. unread_of f ≡ None) }
    ensures certificate { IfErr result (λ f. is_of_certificate f ≡ false) }
{
    let strays = strays_of(alloc, question, graph)?;
    if strays.is_empty() {
        return list_graph(alloc, project, graph, out);
    }
    refuse_strays(alloc, project, graph, &strays, out)
}

/// Sends the text of a graph.
fn list_graph<W: ByteSink>(
    alloc: Global,
    project: &Project<'_>,
    graph: &Graph,
    out: &mut Output<W>,
) -> Result<End, RunFault>
    requires { graph.now.files ≡ length project.now.paths }
    ensures sent { Prints (IsGraphOf project.now graph.now) out.old out.new result }
    ensures read { IfErr result (λ f. unread_of f ≡ None) }
    ensures certificate { IfErr result (λ f. is_of_certificate f ≡ false) }
{
    let notes = definition_notes(alloc, project, graph)?;
    send_graph(out, project, graph);
    Ok(noted(EndKind::Answered, notes))
}

/// Sends the text of a graph.
fn send_graph<W: ByteSink>(out: &mut Output<W>, project: &Project<'_>, graph: &Graph)
    requires { graph.now.files ≡ length project.now.paths }
    ensures { Sends out.old out.new (graph_text project.now graph.now) }
{
    let edges = graph.edges();
    send_count_line(out, b"edges", edges.len());
    send_edges(out, project, edges);
    send_unresolved(out, project, graph);
}

/// Sends the directive of each edge, and the file that it leads to.
fn send_edges<W: ByteSink>(out: &mut Output<W>, project: &Project<'_>, edges: &[Edge])
    requires from { All (λ (e : Edge). e.from < length project.now.paths) edges.now }
    requires to { All (λ (e : Edge). e.to < length project.now.paths) edges.now }
    ensures { Sends out.old out.new (flat_map (λ (e : Edge). edge_text project.now (seen_edge e)) edges.now) }
{
    for edge in edges {
        send_edge(
            out,
            edge.line,
            project.path(edge.from),
            project.path(edge.to),
        );
    }
}

/// Sends the directive of an edge, and the file that it leads to.
fn send_edge<W: ByteSink>(out: &mut Output<W>, line: u32, from: &[u8], to: &[u8])
    ensures { Sends out.old out.new (directive_text line from.now ++ line_text to.now) }
{
    send_directive(out, line, from);
    send_line(out, to);
}
