//! Whether a certificate shows that its cut is a smallest one.
ghost use Rattle.std.specs.Prelude.{◌≡◌, ◌↔◌, None, false, length, IfSome, IfErr, IsErrOf, IsTrue};
ghost use Rattle.inc_lookup.specs.Given.{HoldsOfGiven};
ghost use Rattle.inc_check.specs.Certificates.{reason_number};
ghost use Rattle.inc_check.specs.Texts.{OfBytes};
ghost use Rattle.inc_report.specs.CheckText.{IsCheckOf, IsCheckBy, reason_text, verdict_kind, verdict_text};
ghost use Rattle.inc_answers.specs.CutText.{WithAmounts};
ghost use Rattle.inc_report.specs.Headline.{CheckHeadline};
ghost use Rattle.inc_answers.specs.Questions.{FailsAt};
ghost use Rattle.inc_answers.specs.Sending.{Sends};
ghost use Rattle.inc_answers.specs.Strictness.{Strict, open_strays_of};
ghost use Rattle.inc_answers.specs.Writing.{Prints, Writes, unread_of};

use inc_answers::answer_notes::empty_notes;
use inc_answers::asked::{Limits, Question};
use inc_answers::limits::{amounts_of, refuse_hindrance};
use inc_answers::lines::{send_line, send_number};
use inc_answers::outcome::{End, EndKind, RunFault, noted};
use inc_answers::output::Output;
use inc_answers::questions::{find_graph, refuse_question};
use inc_answers::refusals::{Refusal, refuse};
use inc_answers::strictness::{open_strays_of, refuse_strays};
use inc_check::{CheckFault, Reason, Verdict, check_source};
use inc_graph::{Fixed, Graph};
use inc_lookup::{Project, Sources};
use inc_text::{ByteSink, ByteSource};
use std::alloc::Global;

/// Writes whether a certificate, in the form that [`run_cut`](crate::run_cut) writes, shows that its cut is a cheapest one, or the first
/// reason why not. The other arguments are those of `run_cut`, and so are the refusals; after them a certificate is refused that is
/// malformed. It is read last, and judged as it is read. All memory is taken before the first byte is written. Where the source of the
/// certificate has failed before, nothing is read at all.
pub fn run_check<S: Sources, T: ByteSource, W: ByteSink>(
    alloc: Global,
    project: &Project<'_>,
    sources: &mut S,
    question: &Question<'_>,
    limits: &Limits<'_>,
    certificate: &mut T,
    w: W,
) -> (Result<End, RunFault>, W)
    requires { W.has_failed w ≡ false }
    ensures written { Writes (λ p. OfBytes (T.left certificate.old) (λ text.
        HoldsOfGiven S.gives sources.old sources.new project.now (IsCheckBy question.now limits.now text p)))
        (W.written w) (W.written result.1) (W.has_failed result.1) result.0 }
    // What a yes promises, with the directives of the certificate's cut and those of `without` removed: no preprocessing of a
    // source reads a header, and nothing cheaper separates.
    ensures headline { Writes (λ p. OfBytes (T.left certificate.old) (λ text.
        HoldsOfGiven S.gives sources.old sources.new project.now
        (λ _ listing. CheckHeadline question.now limits.now text p listing)))
        (W.written w) (W.written result.1) (W.has_failed result.1) result.0 }
    ensures certificate { IsErrOf result.0 RunFault.CannotReadCertificate ↔ IsTrue (T.has_failed certificate.new) }
    ensures unread { IfErr result.0 (λ fault. IfSome (unread_of fault)
        (FailsAt S.gives sources.old sources.new project.now question.now)) }
{
    if certificate.failed() {
        return (Err(RunFault::CannotReadCertificate), w);
    }
    let mut out = match Output::new(alloc, w) {
        Ok(out) => out,
        Err(w) => return (Err(RunFault::NoMemory), w),
    };
    let ended = judge(
        alloc,
        project,
        sources,
        question,
        limits,
        certificate,
        &mut out,
    );
    out.finish(ended)
}

/// Sends the verdict on a certificate, or why there is none.
fn judge<S: Sources, T: ByteSource, W: ByteSink>(
    alloc: Global,
    project: &Project<'_>,
    sources: &mut S,
    question: &Question<'_>,
    limits: &Limits<'_>,
    certificate: &mut T,
    out: &mut Output<W>,
) -> Result<End, RunFault>
    requires { T.has_failed certificate.old ≡ false }
    ensures sent { Prints (λ p. OfBytes (T.left certificate.old) (λ text.
        HoldsOfGiven S.gives sources.old sources.new project.now (IsCheckBy question.now limits.now text p)))
        out.old out.new result }
    ensures headline { Prints (λ p. OfBytes (T.left certificate.old) (λ text.
        HoldsOfGiven S.gives sources.old sources.new project.now
        (λ _ listing. CheckHeadline question.now limits.now text p listing))) out.old out.new result }
    ensures certificate { IsErrOf result RunFault.CannotReadCertificate ↔ IsTrue (T.has_failed certificate.new) }
    ensures unread { IfErr result (λ fault. IfSome (unread_of fault)
        (FailsAt S.gives sources.old sources.new project.now question.now)) }
{
    match find_graph(alloc, project, sources, question) {
        Ok(graph) => judge_strictly(alloc, project, question, &graph, limits, certificate, out),
        Err(cause) => refuse_question(alloc, project, question, cause, out),
    }
}

/// Sends the verdict of a graph on a certificate, or what hinders it, or the refusal of directives whose header is not found.
fn judge_strictly<T: ByteSource, W: ByteSink>(
    alloc: Global,
    project: &Project<'_>,
    question: &Question<'_>,
    graph: &Graph,
    limits: &Limits<'_>,
    certificate: &mut T,
    out: &mut Output<W>,
) -> Result<End, RunFault>
    requires files { graph.now.files ≡ length project.now.paths }
    requires source { T.has_failed certificate.old ≡ false }
    ensures sent { Prints (λ p. OfBytes (T.left certificate.old) (λ text. Strict (open_strays_of question.now)
        (WithAmounts limits.now (IsCheckOf text)) project.now graph.now p)) out.old out.new result }
    ensures certificate { IsErrOf result RunFault.CannotReadCertificate ↔ IsTrue (T.has_failed certificate.new) }
    ensures read { IfErr result (λ f. unread_of f ≡ None) }
{
    let strays = open_strays_of(alloc, question, graph)?;
    if strays.is_empty() {
        return judge_graph(alloc, project, graph, limits, certificate, out);
    }
    refuse_strays(alloc, project, graph, &strays, out)
}

/// Sends the verdict of a graph on a certificate, or what hinders it.
fn judge_graph<T: ByteSource, W: ByteSink>(
    alloc: Global,
    project: &Project<'_>,
    graph: &Graph,
    limits: &Limits<'_>,
    certificate: &mut T,
    out: &mut Output<W>,
) -> Result<End, RunFault>
    requires files { graph.now.files ≡ length project.now.paths }
    requires source { T.has_failed certificate.old ≡ false }
    ensures sent { Prints (λ p. OfBytes (T.left certificate.old) (λ text.
        WithAmounts limits.now (IsCheckOf text) project.now graph.now p)) out.old out.new result }
    ensures certificate { IsErrOf result RunFault.CannotReadCertificate ↔ IsTrue (T.has_failed certificate.new) }
    ensures read { IfErr result (λ f. unread_of f ≡ None) }
{
    match amounts_of(alloc, project, graph, limits) {
        Ok(fixed) => judge_text(alloc, project, graph, &fixed, certificate, out),
        Err(cause) => refuse_hindrance(alloc, project, graph, limits, cause, out),
    }
}

/// Sends the verdict on a certificate, or that its text is malformed.
fn judge_text<T: ByteSource, W: ByteSink>(
    alloc: Global,
    project: &Project<'_>,
    graph: &Graph,
    fixed: &Fixed,
    certificate: &mut T,
    out: &mut Output<W>,
) -> Result<End, RunFault>
    requires files { graph.now.files ≡ length project.now.paths }
    requires fixed { length fixed.now ≡ length graph.now.edges }
    requires source { T.has_failed certificate.old ≡ false }
    ensures sent { Prints (λ p. OfBytes (T.left certificate.old) (λ text. IsCheckOf text project.now graph.now fixed.now p))
        out.old out.new result }
    ensures certificate { IsErrOf result RunFault.CannotReadCertificate ↔ IsTrue (T.has_failed certificate.new) }
    ensures read { IfErr result (λ f. unread_of f ≡ None) }
{
    let notes = empty_notes(alloc, project, graph)?;
    match check_source(alloc, project, graph, fixed, certificate) {
        Ok(verdict) => {
            send_verdict(out, verdict);
            let kind = kind_of(verdict);
            Ok(noted(kind, notes))
        }
        Err(CheckFault::Malformed { line }) => Ok(refuse(out, Refusal::Malformed { line })),
        Err(CheckFault::CannotRead) => Err(RunFault::CannotReadCertificate),
        Err(CheckFault::NoMemory) => Err(RunFault::NoMemory),
    }
}

/// How a call ends that writes a verdict.
fn kind_of(verdict: Verdict) -> EndKind
    ensures { result ≡ verdict_kind verdict }
{
    match verdict {
        Verdict::Yes => EndKind::Answered,
        Verdict::No(_) => EndKind::Negative,
    }
}

/// Sends a verdict.
fn send_verdict<W: ByteSink>(out: &mut Output<W>, verdict: Verdict)
    ensures { Sends out.old out.new (verdict_text verdict) }
{
    match verdict {
        Verdict::Yes => send_line(out, b"yes"),
        Verdict::No(reason) => {
            out.send(b"no ");
            send_number(out, reason_number(reason));
            out.send(b" ");
            send_line(out, reason_text(reason));
        }
    }
}

/// The place of a reason in their order.
fn reason_number(reason: Reason) -> u64
    ensures { result ≡ reason_number reason }
{
    match reason {
        Reason::NotEditable => 1,
        Reason::Repeated => 2,
        Reason::StillReached => 3,
        Reason::NotAChain => 4,
        Reason::Shared => 5,
        Reason::Counts => 6,
    }
}

/// The words of a reason.
fn reason_text(reason: Reason) -> &'static [u8]
    ensures { result.now ≡ reason_text reason }
{
    match reason {
        Reason::NotEditable => b"not editable",
        Reason::Repeated => b"repeated",
        Reason::StillReached => b"still reached",
        Reason::NotAChain => b"not a chain",
        Reason::Shared => b"shared",
        Reason::Counts => b"counts",
    }
}
