//! How headers reach sources.
ghost use Rattle.std.specs.Prelude.{◌≡◌, ◌<◌, ◌≤◌, Some, None, false, flat_map, length, map, take, codes, IfSome, IfErr};
ghost use Rattle.std.specs.List.{All};
ghost use Rattle.inc_lookup.specs.Given.{HoldsOfGiven};
ghost use Rattle.inc_graph.specs.MissingLists as graphs;
ghost use Rattle.inc_graph.specs.Chains.{IsShortest, AreChainsByLast};
ghost use Rattle.inc_check.specs.Certificates.{marks_of};
ghost use Rattle.inc_answers.specs.MarkTexts.{missing_mark, list_text, chains_text};
ghost use Rattle.inc_answers.specs.Questions.{FailsAt};
ghost use Rattle.inc_answers.specs.Sending.{Sends};
ghost use Rattle.inc_answers.specs.Strictness.{Strict, strays_of};
ghost use Rattle.inc_answers.specs.Terms.{is_whole};
ghost use Rattle.inc_answers.specs.WhyText.{unresolved_text, ways_text, why_text, IsWhyOf, IsWhyBy};
ghost use Rattle.inc_answers.specs.Writing.{Prints, Writes, is_of_certificate, unread_of};

use crate::answer_notes::{definition_notes, unreached_notes};
use crate::asked::Question;
use crate::bounds::shown_count;
use crate::edges::{send_blockers, send_list};
use crate::lines::{send_count_line, send_directive, send_line, send_more};
use crate::outcome::{End, EndKind, RunFault, noted, reached_kind};
use crate::output::Output;
use crate::questions::{find_graph, refuse_question};
use crate::strictness::{refuse_strays, strays_of};
use inc_graph::{Graph, MissingList, ShortestChains};
use inc_lookup::{Project, Sources};
use inc_text::ByteSink;
use std::alloc::Global;

/// Writes how headers reach sources: a shortest chain of include directives from a source to a header, for each directive that names a
/// header a shortest chain that it ends, of which at most `most` are written, the directives whose header is not found, and those of which
/// nothing can be said. The answer is negative where it has a shortest chain and is asked to fail. Files are read when they are reached,
/// each once, the headers never. All memory is taken before the first byte is written.
pub fn run_why<S: Sources, W: ByteSink>(
    alloc: Global,
    project: &Project<'_>,
    sources: &mut S,
    question: &Question<'_>,
    fails: bool,
    most: Option<usize>,
    w: W,
) -> (Result<End, RunFault>, W)
    requires { W.has_failed w ≡ false }
    ensures written { Writes (λ p. HoldsOfGiven S.gives sources.old sources.new project.now
        (IsWhyBy fails most question.now p))
        (W.written w) (W.written result.1) (W.has_failed result.1) result.0 }
    ensures unread { IfErr result.0 (λ fault. IfSome (unread_of fault)
        (FailsAt S.gives sources.old sources.new project.now question.now)) }
    ensures certificate { IfErr result.0 (λ f. is_of_certificate f ≡ false) }
{
    let mut out = match Output::new(alloc, w) {
        Ok(out) => out,
        Err(w) => return (Err(RunFault::NoMemory), w),
    };
    let ended = explain(alloc, project, sources, question, fails, most, &mut out);
    out.finish(ended)
}

/// Sends how the headers of a question reach its sources, or why there is no answer.
fn explain<S: Sources, W: ByteSink>(
    alloc: Global,
    project: &Project<'_>,
    sources: &mut S,
    question: &Question<'_>,
    fails: bool,
    most: Option<usize>,
    out: &mut Output<W>,
) -> Result<End, RunFault>
    ensures sent { Prints (λ p. HoldsOfGiven S.gives sources.old sources.new project.now
        (IsWhyBy fails most question.now p)) out.old out.new result }
    ensures unread { IfErr result (λ fault. IfSome (unread_of fault)
        (FailsAt S.gives sources.old sources.new project.now question.now)) }
    ensures certificate { IfErr result (λ f. is_of_certificate f ≡ false) }
{
    match find_graph(alloc, project, sources, question) {
        Ok(graph) => explain_strictly(alloc, project, question, &graph, fails, most, out),
        Err(cause) => refuse_question(alloc, project, question, cause, out),
    }
}

/// Sends the text of a graph, or the refusal of directives whose header is not found.
fn explain_strictly<W: ByteSink>(
    alloc: Global,
    project: &Project<'_>,
    question: &Question<'_>,
    graph: &Graph,
    fails: bool,
    most: Option<usize>,
    out: &mut Output<W>,
) -> Result<End, RunFault>
    requires { graph.now.files ≡ length project.now.paths }
    ensures sent { Prints (Strict (strays_of question.now) (IsWhyOf (is_whole question.now) fails most) project.now graph.now) out.old out.new result }
    ensures read { IfErr result (λ f. unread_of f ≡ None) }
    ensures certificate { IfErr result (λ f. is_of_certificate f ≡ false) }
{
    let strays = strays_of(alloc, question, graph)?;
    if strays.is_empty() {
        return explain_graph(alloc, project, question, graph, fails, most, out);
    }
    refuse_strays(alloc, project, graph, &strays, out)
}

/// Sends the text of a graph.
fn explain_graph<W: ByteSink>(
    alloc: Global,
    project: &Project<'_>,
    question: &Question<'_>,
    graph: &Graph,
    fails: bool,
    most: Option<usize>,
    out: &mut Output<W>,
) -> Result<End, RunFault>
    requires { graph.now.files ≡ length project.now.paths }
    ensures sent { Prints (IsWhyOf (is_whole question.now) fails most project.now graph.now) out.old out.new result }
    ensures read { IfErr result (λ f. unread_of f ≡ None) }
    ensures certificate { IfErr result (λ f. is_of_certificate f ≡ false) }
{
    let mut chains = ShortestChains::new(alloc, graph)?;
    if chains.find_shortest() {
        let notes = definition_notes(alloc, project, graph)?;
        send_reached(out, project, graph, &mut chains, most);
        return Ok(noted(reached_kind(fails), notes));
    }
    let notes = unreached_notes(alloc, project, question, graph)?;
    send_unreached(out, project, graph, &mut chains, most);
    Ok(noted(EndKind::Answered, notes))
}

/// Sends the text of a graph in which the chain that is made is a shortest one.
fn send_reached<W: ByteSink>(
    out: &mut Output<W>,
    project: &Project<'_>,
    graph: &Graph,
    chains: &mut ShortestChains<'_>,
    most: Option<usize>,
)
    requires files { graph.now.files ≡ length project.now.paths }
    requires shortest { IsShortest graph.now chains.old.chain }
    requires chains { AreChainsByLast graph.now 0 chains.old.left }
    ensures { Sends out.old out.new (why_text most project.now graph.now (Some chains.old.chain) chains.old.left) }
{
    send_list(out, b"shortest", project, graph, chains.edges());
    send_ways(out, project, graph, chains, most);
}

/// Sends the text of a graph without a chain.
fn send_unreached<W: ByteSink>(
    out: &mut Output<W>,
    project: &Project<'_>,
    graph: &Graph,
    chains: &mut ShortestChains<'_>,
    most: Option<usize>,
)
    requires files { graph.now.files ≡ length project.now.paths }
    requires chains { AreChainsByLast graph.now 0 chains.old.left }
    ensures { Sends out.old out.new (why_text most project.now graph.now None chains.old.left) }
{
    send_line(out, b"shortest none");
    send_ways(out, project, graph, chains, most);
}

/// Sends at most so many of the chains that are left, the directives whose header is not found, and those of which nothing can be said.
pub fn send_ways<W: ByteSink>(
    out: &mut Output<W>,
    project: &Project<'_>,
    graph: &Graph,
    chains: &mut ShortestChains<'_>,
    most: Option<usize>,
)
    requires files { graph.now.files ≡ length project.now.paths }
    requires chains { AreChainsByLast graph.now 0 chains.old.left }
    ensures { Sends out.old out.new (ways_text most project.now graph.now chains.old.left) }
{
    send_chains(out, project, graph, chains, most);
    send_unresolved(out, project, graph);
}

/// Sends the directives whose header is not found, and those of which nothing can be said.
pub fn send_unresolved<W: ByteSink>(out: &mut Output<W>, project: &Project<'_>, graph: &Graph)
    requires { graph.now.files ≡ length project.now.paths }
    ensures { Sends out.old out.new (unresolved_text project.now graph.now) }
{
    send_missing(out, project, graph.missing());
    send_count_line(out, b"blocked", graph.blockers().len());
    send_blockers(out, project, graph.blockers());
}

/// Sends how many chains are left, and at most so many of them.
fn send_chains<W: ByteSink>(
    out: &mut Output<W>,
    project: &Project<'_>,
    graph: &Graph,
    chains: &mut ShortestChains<'_>,
    most: Option<usize>,
)
    requires files { graph.now.files ≡ length project.now.paths }
    requires edges { All (λ chain. All (λ i. i < length graph.now.edges) chain) chains.old.left }
    ensures { Sends out.old out.new
        (chains_text most (map (marks_of project.now graph.now) chains.old.left)) }
{
    let total = chains.count();
    let shown = shown_count(most, total);
    send_count_line(out, b"chains", total);
    send_first_chains(out, project, graph, chains, shown);
    send_more(out, total - shown);
}

/// Sends so many of the chains that are left.
fn send_first_chains<W: ByteSink>(
    out: &mut Output<W>,
    project: &Project<'_>,
    graph: &Graph,
    chains: &mut ShortestChains<'_>,
    shown: usize,
)
    requires files { graph.now.files ≡ length project.now.paths }
    requires edges { All (λ chain. All (λ i. i < length graph.now.edges) chain) chains.old.left }
    requires shown { shown ≤ length chains.old.left }
    ensures { Sends out.old out.new (flat_map (λ chain. list_text (codes "chain") (marks_of project.now graph.now chain))
        (take shown chains.old.left)) }
{
    let mut place = 0;
    while place < shown {
        chains.advance();
        send_list(out, b"chain", project, graph, chains.edges());
        place += 1;
    }
}

/// Sends how many directives lead nowhere, and each.
fn send_missing<W: ByteSink>(out: &mut Output<W>, project: &Project<'_>, missing: &MissingList)
    requires { All (λ (m : graphs.Missing). m.file < length project.now.paths) missing.now }
    ensures { Sends out.old out.new
        (list_text (codes "missing") (map (missing_mark project.now) missing.now)) }
{
    send_count_line(out, b"missing", missing.len());
    for place in 0..missing.len() {
        let directive = missing.at(place);
        send_directive(out, directive.line, project.path(directive.file));
    }
}
