//! Which sources reach a header.
ghost use Rattle.std.specs.Prelude.{◌≡◌, ◌<◌, ◌≤◌, None, false, length, flat_map, take, IfOk, IfSome, IfErr};
ghost use Rattle.std.specs.List.{All};
ghost use Rattle.inc_lookup.specs.Given.{HoldsOfGiven};
ghost use Rattle.inc_graph.specs.Reaching.{Reaching};
ghost use Rattle.inc_answers.specs.Questions.{FailsAt};
ghost use Rattle.inc_answers.specs.Sending.{Sends};
ghost use Rattle.inc_answers.specs.Strictness.{Strict, strays_of};
ghost use Rattle.inc_answers.specs.Terms.{is_whole};
ghost use Rattle.inc_answers.specs.WhoText.{chain_if, reaching_text, sources_text, who_kind, who_notes, IsWhoOf, IsWhoBy};
ghost use Rattle.inc_answers.specs.Writing.{Prints, Writes, is_of_certificate, unread_of};

use crate::answer_notes::{definition_notes, unreached_notes};
use crate::asked::Question;
use crate::bounds::shown_count;
use crate::edges::send_list;
use crate::lines::{send_count_line, send_directive, send_more};
use crate::missing_notes::Notes;
use crate::outcome::{End, EndKind, RunFault, noted, reached_kind};
use crate::output::Output;
use crate::questions::{find_graph, refuse_question};
use crate::strictness::{refuse_strays, strays_of};
use crate::why::send_ways;
use inc_graph::{Graph, ShortestChains, SourceChains};
use inc_lookup::{Project, Sources};
use inc_text::ByteSink;
use std::alloc::{AllocError, Global};

/// Writes which sources reach a header, each with the number of directives of its shortest chain, and with this chain where chains are
/// asked for; then what `run_why` writes after its shortest chain. Of sources and of chains at most `most` are written.
/// The answer is negative where some source reaches a header and it is asked to fail. Files are read when they are reached, each once, the
/// headers never. All memory is taken before the first byte is written.
pub fn run_who<S: Sources, W: ByteSink>(
    alloc: Global,
    project: &Project<'_>,
    sources: &mut S,
    question: &Question<'_>,
    with_chains: bool,
    fails: bool,
    most: Option<usize>,
    w: W,
) -> (Result<End, RunFault>, W)
    requires { W.has_failed w ≡ false }
    ensures written { Writes (λ p. HoldsOfGiven S.gives sources.old sources.new project.now
        (IsWhoBy with_chains fails most question.now p))
        (W.written w) (W.written result.1) (W.has_failed result.1) result.0 }
    ensures unread { IfErr result.0 (λ fault. IfSome (unread_of fault)
        (FailsAt S.gives sources.old sources.new project.now question.now)) }
    ensures certificate { IfErr result.0 (λ f. is_of_certificate f ≡ false) }
{
    let mut out = match Output::new(alloc, w) {
        Ok(out) => out,
        Err(w) => return (Err(RunFault::NoMemory), w),
    };
    let ended = tell(
        alloc,
        project,
        sources,
        question,
        with_chains,
        fails,
        most,
        &mut out,
    );
    out.finish(ended)
}

/// Sends which sources of a question reach a header, or why there is no answer.
fn tell<S: Sources, W: ByteSink>(
    alloc: Global,
    project: &Project<'_>,
    sources: &mut S,
    question: &Question<'_>,
    with_chains: bool,
    fails: bool,
    most: Option<usize>,
    out: &mut Output<W>,
) -> Result<End, RunFault>
    ensures sent { Prints (λ p. HoldsOfGiven S.gives sources.old sources.new project.now
        (IsWhoBy with_chains fails most question.now p)) out.old out.new result }
    ensures unread { IfErr result (λ fault. IfSome (unread_of fault)
        (FailsAt S.gives sources.old sources.new project.now question.now)) }
    ensures certificate { IfErr result (λ f. is_of_certificate f ≡ false) }
{
    match find_graph(alloc, project, sources, question) {
        Ok(graph) => tell_strictly(
            alloc,
            project,
            question,
            &graph,
            with_chains,
            fails,
            most,
            out,
        ),
        Err(cause) => refuse_question(alloc, project, question, cause, out),
    }
}

/// Sends the text of a graph, or the refusal of directives whose header is not found.
fn tell_strictly<W: ByteSink>(
    alloc: Global,
    project: &Project<'_>,
    question: &Question<'_>,
    graph: &Graph,
    with_chains: bool,
    fails: bool,
    most: Option<usize>,
    out: &mut Output<W>,
) -> Result<End, RunFault>
    requires { graph.now.files ≡ length project.now.paths }
    ensures sent { Prints (Strict (strays_of question.now) (IsWhoOf (is_whole question.now) with_chains fails most) project.now graph.now) out.old out.new result }
    ensures read { IfErr result (λ f. unread_of f ≡ None) }
    ensures certificate { IfErr result (λ f. is_of_certificate f ≡ false) }
{
    let strays = strays_of(alloc, question, graph)?;
    if strays.is_empty() {
        return tell_graph(
            alloc,
            project,
            question,
            graph,
            with_chains,
            fails,
            most,
            out,
        );
    }
    refuse_strays(alloc, project, graph, &strays, out)
}

/// Sends the text of a graph.
fn tell_graph<W: ByteSink>(
    alloc: Global,
    project: &Project<'_>,
    question: &Question<'_>,
    graph: &Graph,
    with_chains: bool,
    fails: bool,
    most: Option<usize>,
    out: &mut Output<W>,
) -> Result<End, RunFault>
    requires { graph.now.files ≡ length project.now.paths }
    ensures sent { Prints (IsWhoOf (is_whole question.now) with_chains fails most project.now graph.now) out.old out.new result }
    ensures read { IfErr result (λ f. unread_of f ≡ None) }
    ensures certificate { IfErr result (λ f. is_of_certificate f ≡ false) }
{
    let mut reaching = SourceChains::new(alloc, graph)?;
    let mut chains = ShortestChains::new(alloc, graph)?;
    let notes = notes_of(alloc, project, question, graph, &reaching)?;
    let kind = kind_of(&reaching, fails);
    send_reaching(out, project, graph, with_chains, most, &mut reaching);
    send_ways(out, project, graph, &mut chains, most);
    Ok(noted(kind, notes))
}

/// The notes beside the answer that these sources reach a header: of headers that are not found where none does.
pub fn notes_of(
    alloc: Global,
    project: &Project<'_>,
    question: &Question<'_>,
    graph: &Graph,
    reaching: &SourceChains<'_>,
) -> Result<Notes, AllocError>
    requires { graph.now.files ≡ length project.now.paths }
    ensures { IfOk result (λ notes. notes ≡ who_notes (is_whole question.now) project.now graph.now reaching.now.left) }
{
    if reaching.count() == 0 {
        return unreached_notes(alloc, project, question, graph);
    }
    definition_notes(alloc, project, graph)
}

/// How the call ends with the answer that these sources reach a header.
pub fn kind_of(reaching: &SourceChains<'_>, fails: bool) -> EndKind
    ensures { result ≡ who_kind fails reaching.now.left }
{
    let none = reaching.count() == 0;
    if none {
        return EndKind::Answered;
    }
    reached_kind(fails)
}

/// Sends how many sources are left, and at most so many of them.
fn send_reaching<W: ByteSink>(
    out: &mut Output<W>,
    project: &Project<'_>,
    graph: &Graph,
    with_chains: bool,
    most: Option<usize>,
    reaching: &mut SourceChains<'_>,
)
    requires files { graph.now.files ≡ length project.now.paths }
    requires graph { reaching.old.graph ≡ graph.now }
    requires edges { All (λ (r : Reaching). All (λ i. i < length graph.now.edges) r.chain) reaching.old.left }
    ensures { Sends out.old out.new (sources_text with_chains most project.now graph.now reaching.old.left) }
{
    let total = reaching.count();
    let shown = shown_count(most, total);
    send_count_line(out, b"who", total);
    send_first_sources(out, project, graph, with_chains, shown, reaching);
    send_more(out, total - shown);
}

/// Sends so many of them.
fn send_first_sources<W: ByteSink>(
    out: &mut Output<W>,
    project: &Project<'_>,
    graph: &Graph,
    with_chains: bool,
    shown: usize,
    reaching: &mut SourceChains<'_>,
)
    requires files { graph.now.files ≡ length project.now.paths }
    requires graph { reaching.old.graph ≡ graph.now }
    requires edges { All (λ (r : Reaching). All (λ i. i < length graph.now.edges) r.chain) reaching.old.left }
    requires shown { shown ≤ length reaching.old.left }
    ensures { Sends out.old out.new
        (flat_map (reaching_text with_chains project.now graph.now) (take shown reaching.old.left)) }
{
    let mut place = 0;
    while place < shown {
        reaching.advance();
        send_source(out, project, graph, with_chains, reaching);
        place += 1;
    }
}

/// Sends the source at hand, and its chain where chains are asked for.
fn send_source<W: ByteSink>(
    out: &mut Output<W>,
    project: &Project<'_>,
    graph: &Graph,
    with_chains: bool,
    reaching: &mut SourceChains<'_>,
)
    requires files { graph.now.files ≡ length project.now.paths }
    requires graph { reaching.old.graph ≡ graph.now }
    requires edges { All (λ i. i < length graph.now.edges) reaching.old.at.chain }
    ensures text { Sends out.old out.new (reaching_text with_chains project.now graph.now reaching.old.at) }
    ensures graph { reaching.new.graph ≡ reaching.old.graph }
    ensures left { reaching.new.left ≡ reaching.old.left }
{
    send_directive(out, reaching.len(), project.path(reaching.source()));
    send_chain_if(out, project, graph, with_chains, reaching);
}

/// Sends the chain of the source at hand, where chains are asked for.
fn send_chain_if<W: ByteSink>(
    out: &mut Output<W>,
    project: &Project<'_>,
    graph: &Graph,
    with_chains: bool,
    reaching: &mut SourceChains<'_>,
)
    requires files { graph.now.files ≡ length project.now.paths }
    requires edges { All (λ i. i < length graph.now.edges) reaching.old.at.chain }
    ensures text { Sends out.old out.new (chain_if with_chains project.now graph.now reaching.old.at.chain) }
    ensures graph { reaching.new.graph ≡ reaching.old.graph }
    ensures left { reaching.new.left ≡ reaching.old.left }
{
    if with_chains {
        reaching.make();
        send_list(out, b"chain", project, graph, reaching.edges());
    }
}
