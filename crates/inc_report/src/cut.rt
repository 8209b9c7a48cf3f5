//! The smallest cut between headers and sources.
ghost use Rattle.std.specs.Prelude.{◌≡◌, ◌<◌, ◌≤◌, None, true, false, length, map, IfSome, IfErr};
ghost use Rattle.std.specs.List.{All, list_all};
ghost use Rattle.inc_lookup.specs.Given.{HoldsOfGiven};
ghost use Rattle.inc_graph.specs.Cuts as cuts;
ghost use Rattle.inc_graph.specs.Cuts.{fixed_by, IsFixedChain};
ghost use Rattle.inc_cut.specs.Answers.{IsCutAnswer, HasFewChains};
ghost use Rattle.inc_check.specs.Certificates.{marks_of, chain_marks, certificate_of};
ghost use Rattle.inc_check.specs.Texts.{is_short_mark, lines_text, times_text, chain_lines, certificate_text};
ghost use Rattle.inc_answers.specs.CutText.{WithAmounts, IsCutBy, IsFixedPrinted};
ghost use Rattle.inc_answers.specs.Fitting.{is_fit_chain, counted_as, IsFitCutOf};
ghost use Rattle.inc_report.specs.Headline.{CutHeadline};
ghost use Rattle.inc_answers.specs.AnswerNotes.{empty_notes};
ghost use Rattle.inc_answers.specs.Printed.{Printed};
ghost use Rattle.inc_answers.specs.Questions.{FailsAt};
ghost use Rattle.inc_answers.specs.Sending.{Sends};
ghost use Rattle.inc_answers.specs.Strictness.{Strict, open_strays_of};
ghost use Rattle.inc_answers.specs.Writing.{Prints, SendsWhole, Writes, is_of_certificate, unread_of};

use inc_answers::answer_notes::empty_notes;
use inc_answers::asked::{Limits, Question};
use inc_answers::edges::{send_edges, send_list};
use inc_answers::limits::{amounts_of, refuse_hindrance};
use inc_answers::lines::{send_count_line, send_number};
use inc_answers::missing_notes::Notes;
use inc_answers::nearest_cuts::nearest_cut;
use inc_answers::outcome::{End, EndKind, RunFault, noted};
use inc_answers::output::Output;
use inc_answers::questions::{find_graph, refuse_question};
use inc_answers::strictness::{open_strays_of, refuse_strays};
use inc_cut::{CountedChains, CutAnswer};
use inc_graph::{Chain, EdgeId, Fixed, Graph};
use inc_lookup::{Project, Sources};
use inc_text::ByteSink;
use std::alloc::Global;

/// Writes which include directives to remove so that no header reaches a source any longer: the cheapest set that is nearest to the
/// sources, and chains that show that none is cheaper; or a chain of fixed directives alone, where no cut exists, the empty chain where a
/// source is a header. Files are read as by [`run_why`](inc_answers::run_why). All memory is taken before the first byte is written.
pub fn run_cut<S: Sources, W: ByteSink>(
    alloc: Global,
    project: &Project<'_>,
    sources: &mut S,
    question: &Question<'_>,
    limits: &Limits<'_>,
    w: W,
) -> (Result<End, RunFault>, W)
    requires { W.has_failed w ≡ false }
    ensures written { Writes (λ p. HoldsOfGiven S.gives sources.old sources.new project.now
        (IsCutBy question.now limits.now p))
        (W.written w) (W.written result.1) (W.has_failed result.1) result.0 }
    // What a cut promises, with its directives and those of `without` removed: no preprocessing of a source reads a header,
    // and nothing cheaper separates.
    ensures headline { Writes (λ p. HoldsOfGiven S.gives sources.old sources.new project.now
        (λ _ listing. CutHeadline question.now limits.now p listing))
        (W.written w) (W.written result.1) (W.has_failed result.1) result.0 }
    ensures unread { IfErr result.0 (λ fault. IfSome (unread_of fault)
        (FailsAt S.gives sources.old sources.new project.now question.now)) }
    ensures certificate { IfErr result.0 (λ f. is_of_certificate f ≡ false) }
{
    let mut out = match Output::new(alloc, w) {
        Ok(out) => out,
        Err(w) => return (Err(RunFault::NoMemory), w),
    };
    let ended = separate(alloc, project, sources, question, limits, &mut out);
    out.finish(ended)
}

/// Sends the smallest cut of a question, or why there is no answer.
fn separate<S: Sources, W: ByteSink>(
    alloc: Global,
    project: &Project<'_>,
    sources: &mut S,
    question: &Question<'_>,
    limits: &Limits<'_>,
    out: &mut Output<W>,
) -> Result<End, RunFault>
    ensures sent { Prints (λ p. HoldsOfGiven S.gives sources.old sources.new project.now
        (IsCutBy question.now limits.now p)) out.old out.new result }
    ensures headline { Prints (λ p. HoldsOfGiven S.gives sources.old sources.new project.now
        (λ _ listing. CutHeadline question.now limits.now p listing)) out.old out.new result }
    ensures unread { IfErr result (λ fault. IfSome (unread_of fault)
        (FailsAt S.gives sources.old sources.new project.now question.now)) }
    ensures certificate { IfErr result (λ f. is_of_certificate f ≡ false) }
{
    match find_graph(alloc, project, sources, question) {
        Ok(graph) => separate_strictly(alloc, project, question, &graph, limits, out),
        Err(cause) => refuse_question(alloc, project, question, cause, out),
    }
}

/// Sends the smallest cut of a graph, or what hinders it, or the refusal of directives whose header is not found.
fn separate_strictly<W: ByteSink>(
    alloc: Global,
    project: &Project<'_>,
    question: &Question<'_>,
    graph: &Graph,
    limits: &Limits<'_>,
    out: &mut Output<W>,
) -> Result<End, RunFault>
    requires { graph.now.files ≡ length project.now.paths }
    ensures sent { Prints (Strict (open_strays_of question.now) (WithAmounts limits.now IsFitCutOf) project.now graph.now) out.old out.new result }
    ensures read { IfErr result (λ f. unread_of f ≡ None) }
    ensures certificate { IfErr result (λ f. is_of_certificate f ≡ false) }
{
    let strays = open_strays_of(alloc, question, graph)?;
    if strays.is_empty() {
        return separate_graph(alloc, project, graph, limits, out);
    }
    refuse_strays(alloc, project, graph, &strays, out)
}

/// Sends the smallest cut of a graph, or what hinders it.
fn separate_graph<W: ByteSink>(
    alloc: Global,
    project: &Project<'_>,
    graph: &Graph,
    limits: &Limits<'_>,
    out: &mut Output<W>,
) -> Result<End, RunFault>
    requires { graph.now.files ≡ length project.now.paths }
    ensures sent { Prints (WithAmounts limits.now IsFitCutOf project.now graph.now) out.old out.new result }
    ensures read { IfErr result (λ f. unread_of f ≡ None) }
    ensures certificate { IfErr result (λ f. is_of_certificate f ≡ false) }
{
    match amounts_of(alloc, project, graph, limits) {
        Ok(fixed) => send_smallest(alloc, project, graph, &fixed, out),
        Err(cause) => refuse_hindrance(alloc, project, graph, limits, cause, out),
    }
}

/// Sends the smallest cut of a graph whose edges have these amounts.
fn send_smallest<W: ByteSink>(
    alloc: Global,
    project: &Project<'_>,
    graph: &Graph,
    fixed: &Fixed,
    out: &mut Output<W>,
) -> Result<End, RunFault>
    requires files { graph.now.files ≡ length project.now.paths }
    requires fixed { length fixed.now ≡ length graph.now.edges }
    ensures sent { Prints (IsFitCutOf project.now graph.now fixed.now) out.old out.new result }
    ensures read { IfErr result (λ f. unread_of f ≡ None) }
    ensures certificate { IfErr result (λ f. is_of_certificate f ≡ false) }
{
    let answer = nearest_cut(alloc, graph, fixed)?;
    let notes = empty_notes(alloc, project, graph)?;
    Ok(send_answer(out, project, graph, fixed, &answer, notes))
}

/// Sends a cut, or a chain of fixed edges, and says how the call ends.
fn send_answer<W: ByteSink>(
    out: &mut Output<W>,
    project: &Project<'_>,
    graph: &Graph,
    fixed: &Fixed,
    answer: &CutAnswer,
    notes: Notes,
) -> End
    requires files { graph.now.files ≡ length project.now.paths }
    requires notes { notes ≡ empty_notes project.now graph.now }
    requires answer { IsCutAnswer graph.now fixed.now answer.now }
    requires few { HasFewChains graph.now answer.now }
    ensures { (p : Printed) × IsFitCutOf project.now graph.now fixed.now p × SendsWhole p out.old out.new result }
{
    match answer {
        CutAnswer::Cut { edges, chains } => {
            send_cut(out, project, graph, edges, chains);
            noted(EndKind::Answered, notes)
        }
        CutAnswer::Fixed { chain } => send_fixed(out, project, graph, fixed, chain, notes),
    }
}

/// Sends a chain of fixed edges, and says how the call ends.
pub(crate) fn send_fixed<W: ByteSink>(
    out: &mut Output<W>,
    project: &Project<'_>,
    graph: &Graph,
    fixed: &Fixed,
    chain: &Chain,
    notes: Notes,
) -> End
    requires files { graph.now.files ≡ length project.now.paths }
    requires notes { notes ≡ empty_notes project.now graph.now }
    requires chain { IsFixedChain graph.now (fixed_by fixed.now) chain.now.edges }
    ensures { (p : Printed) × IsFixedPrinted project.now graph.now fixed.now p × SendsWhole p out.old out.new result }
{
    send_list(out, b"fixed", project, graph, chain.edges.as_slice());
    noted(EndKind::Negative, notes)
}

/// Sends a cut and its chains: the text of the certificate that they are.
fn send_cut<W: ByteSink>(
    out: &mut Output<W>,
    project: &Project<'_>,
    graph: &Graph,
    cut: &[EdgeId],
    chains: &CountedChains,
)
    requires files { graph.now.files ≡ length project.now.paths }
    requires cut { All (λ i. i < length graph.now.edges) cut.now }
    requires chains { All (λ (c : cuts.Counted). All (λ i. i < length graph.now.edges) c.chain)
        chains.now }
    ensures sent { Sends out.old out.new
        (certificate_text (certificate_of project.now graph.now cut.now chains.now)) }
    ensures small { list_all is_short_mark (marks_of project.now graph.now cut.now) ≡ true }
    ensures fit { list_all is_fit_chain (map (chain_marks project.now graph.now) chains.now) ≡ true }
{
    send_list(out, b"cut", project, graph, cut);
    send_count_line(out, b"chains", chains.len());
    for index in 0..chains.len() {
        send_counted(
            out,
            project,
            graph,
            chains.edges(index),
            chains.count(index),
        );
    }
}

/// Sends a chain, and how often it counts where that is not once.
fn send_counted<W: ByteSink>(
    out: &mut Output<W>,
    project: &Project<'_>,
    graph: &Graph,
    edges: &[EdgeId],
    count: u32,
)
    requires files { graph.now.files ≡ length project.now.paths }
    requires edges { All (λ i. i < length graph.now.edges) edges.now }
    ensures sent { Sends out.old out.new
        (lines_text (chain_lines (chain_marks project.now graph.now (counted_as edges.now count)))) }
    ensures fit { is_fit_chain (chain_marks project.now graph.now (counted_as edges.now count)) ≡ true }
{
    out.send(b"chain ");
    send_number(out, edges.len() as u64);
    send_times(out, count);
    out.send(b"\n");
    send_edges(out, project, graph, edges);
}

/// Sends how often a chain counts, where that is not once.
fn send_times<W: ByteSink>(out: &mut Output<W>, count: u32)
    ensures sent { Sends out.old out.new (times_text count) }
    ensures few { count ≤ 4_294_967_295 }
{
    if count == 1 {
        return;
    }
    out.send(b" times ");
    send_number(out, u64::from(count));
}
