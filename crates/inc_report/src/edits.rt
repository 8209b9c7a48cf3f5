//! The files of the smallest cut between headers and sources, with its directives blanked, or as a diff.
ghost use Rattle.std.specs.Prelude.{◌≡◌, ◌<◌, None, false, length, replicate, IfSome, IfErr};
ghost use Rattle.inc_lookup.specs.Given.{HoldsOfGiven};
ghost use Rattle.inc_graph.specs.IncludeGraph.{IsSound};
ghost use Rattle.inc_report.specs.BlankHeadline.{BlankHeadline, ChangesHeadline, PatchHeadline};
ghost use Rattle.inc_answers.specs.BlankText.{AreChangesBy, AreChangesOf, IsBlankBy, IsPatchBy};
ghost use Rattle.inc_report.specs.ChangeForms.{text_in};
ghost use Rattle.inc_answers.specs.CutText.{WithAmounts};
ghost use Rattle.inc_answers.specs.KeptFiles.{AreAllKept, OfKept};
ghost use Rattle.inc_answers.specs.Questions.{FailsAt};
ghost use Rattle.inc_answers.specs.Sending.{Sends};
ghost use Rattle.inc_answers.specs.Strictness.{Strict, open_strays_of};
ghost use Rattle.inc_answers.specs.Writing.{Prints, Writes, is_of_certificate, unread_of};

use crate::cut::send_fixed;
use inc_answers::answer_notes::empty_notes;
use inc_answers::asked::{Limits, Question};
use inc_answers::blank::send_files;
use inc_answers::changes::{Change, changes_of, directives_of};
use inc_answers::kept_sources::{KeptFiles, KeptSources};
use inc_answers::limits::{amounts_of, refuse_hindrance};
use inc_answers::nearest_cuts::nearest_cut;
use inc_answers::outcome::{End, EndKind, RunFault, noted};
use inc_answers::output::Output;
use inc_answers::patch::send_patch;
use inc_answers::questions::{find_graph, refuse_question};
use inc_answers::strictness::{open_strays_of, refuse_strays};
use inc_cut::CutAnswer;
use inc_graph::{Fixed, Graph};
use inc_lookup::{Project, Sources};
use inc_text::{ByteSink, Language};
use std::alloc::Global;

/// Writes the files that hold a directive of the cut that [`run_cut`](crate::run_cut) writes, each with these directives blanked: every
/// byte but LF, from the `#` to the last byte of the directive, is a space. Preprocessing these files in place of the old ones is
/// preprocessing the old ones with the directives removed. Where no cut exists the chain of fixed directives is written.
///
/// The sources are given back with the sink. Each file is read once, as by [`run_why`](inc_answers::run_why), and its bytes are kept until the
/// call ends. All memory is taken before the first byte is written.
pub fn run_blank<S: Sources, W: ByteSink>(
    alloc: Global,
    project: &Project<'_>,
    sources: S,
    question: &Question<'_>,
    limits: &Limits<'_>,
    w: W,
) -> (Result<End, RunFault>, S, W)
    requires { W.has_failed w ≡ false }
    ensures written { Writes (λ p. HoldsOfGiven S.gives sources result.1 project.now
        (IsBlankBy question.now limits.now p))
        (W.written w) (W.written result.2) (W.has_failed result.2) result.0 }
    // What these files promise in place of the old ones, without the directives of `without`: no preprocessing of a source reads
    // a header, and no cheaper set of directives separates.
    ensures headline { Writes (λ p. HoldsOfGiven S.gives sources result.1 project.now
        (λ _ listing. BlankHeadline question.now limits.now p listing))
        (W.written w) (W.written result.2) (W.has_failed result.2) result.0 }
    ensures unread { IfErr result.0 (λ fault. IfSome (unread_of fault)
        (FailsAt S.gives sources result.1 project.now question.now)) }
    ensures certificate { IfErr result.0 (λ f. is_of_certificate f ≡ false) }
{
    write_changes(alloc, project, sources, question, limits, Form::Files, w)
}

/// Writes a unified diff, as `patch -p1` and `git apply` take it, of the files that [`run_blank`] writes: a line on which nothing but white
/// space is left of it is deleted, and another line that changes is replaced. Where the cut is empty nothing is written, and where no cut
/// exists the chain of fixed directives is. In all else it is as `run_blank`.
pub fn run_patch<S: Sources, W: ByteSink>(
    alloc: Global,
    project: &Project<'_>,
    sources: S,
    question: &Question<'_>,
    limits: &Limits<'_>,
    w: W,
) -> (Result<End, RunFault>, S, W)
    requires { W.has_failed w ≡ false }
    ensures written { Writes (λ p. HoldsOfGiven S.gives sources result.1 project.now
        (IsPatchBy question.now limits.now p))
        (W.written w) (W.written result.2) (W.has_failed result.2) result.0 }
    // What the files promise of which this is the diff, with the directives blanked.
    ensures headline { Writes (λ p. HoldsOfGiven S.gives sources result.1 project.now
        (λ _ listing. PatchHeadline question.now limits.now p listing))
        (W.written w) (W.written result.2) (W.has_failed result.2) result.0 }
    ensures unread { IfErr result.0 (λ fault. IfSome (unread_of fault)
        (FailsAt S.gives sources result.1 project.now question.now)) }
    ensures certificate { IfErr result.0 (λ f. is_of_certificate f ≡ false) }
{
    write_changes(alloc, project, sources, question, limits, Form::Patch, w)
}

/// How changed files are written.
#[derive(Clone, Copy)]
pub(crate) enum Form {
    /// Each with its bytes.
    Files,
    /// As a diff.
    Patch,
}

/// Writes the changed files of the smallest cut, in this form.
fn write_changes<S: Sources, W: ByteSink>(
    alloc: Global,
    project: &Project<'_>,
    sources: S,
    question: &Question<'_>,
    limits: &Limits<'_>,
    form: Form,
    w: W,
) -> (Result<End, RunFault>, S, W)
    requires { W.has_failed w ≡ false }
    ensures written { Writes (λ p. HoldsOfGiven S.gives sources result.1 project.now
        (AreChangesBy (text_in form) question.now limits.now p))
        (W.written w) (W.written result.2) (W.has_failed result.2) result.0 }
    ensures headline { Writes (λ p. HoldsOfGiven S.gives sources result.1 project.now
        (λ _ listing. ChangesHeadline (text_in form) question.now limits.now p listing))
        (W.written w) (W.written result.2) (W.has_failed result.2) result.0 }
    ensures unread { IfErr result.0 (λ fault. IfSome (unread_of fault)
        (FailsAt S.gives sources result.1 project.now question.now)) }
    ensures certificate { IfErr result.0 (λ f. is_of_certificate f ≡ false) }
{
    let mut out = match Output::new(alloc, w) {
        Ok(out) => out,
        Err(w) => return (Err(RunFault::NoMemory), sources, w),
    };
    let mut kept = match KeptSources::new(alloc, sources, project.count()) {
        Ok(kept) => kept,
        Err(sources) => return (Err(RunFault::NoMemory), sources, out.into_sink()),
    };
    let ended = separate(alloc, project, &mut kept, question, limits, form, &mut out);
    let (result, w) = out.finish(ended);
    (result, kept.into_sources(), w)
}

/// Sends the changed files of the smallest cut of a question, or why there is no answer.
fn separate<S: Sources, W: ByteSink>(
    alloc: Global,
    project: &Project<'_>,
    kept: &mut KeptSources<S>,
    question: &Question<'_>,
    limits: &Limits<'_>,
    form: Form,
    out: &mut Output<W>,
) -> Result<End, RunFault>
    requires { kept.old.files ≡ replicate (length project.now.paths) None }
    ensures sent { Prints (λ p. HoldsOfGiven S.gives kept.old.sources kept.new.sources project.now
        (AreChangesBy (text_in form) question.now limits.now p)) out.old out.new result }
    ensures headline { Prints (λ p. HoldsOfGiven S.gives kept.old.sources kept.new.sources project.now
        (λ _ listing. ChangesHeadline (text_in form) question.now limits.now p listing)) out.old out.new result }
    ensures unread { IfErr result (λ fault. IfSome (unread_of fault)
        (FailsAt S.gives kept.old.sources kept.new.sources project.now question.now)) }
    ensures certificate { IfErr result (λ f. is_of_certificate f ≡ false) }
{
    match find_graph(alloc, project, kept, question) {
        Ok(graph) => {
            let files = &kept.files;
            separate_strictly(alloc, project, question, &graph, files, limits, form, out)
        }
        Err(cause) => refuse_question(alloc, project, question, cause, out),
    }
}

/// Sends the changed files of the smallest cut of a graph, or what hinders it, or the refusal of directives whose header is not found.
fn separate_strictly<W: ByteSink>(
    alloc: Global,
    project: &Project<'_>,
    question: &Question<'_>,
    graph: &Graph,
    files: &KeptFiles,
    limits: &Limits<'_>,
    form: Form,
    out: &mut Output<W>,
) -> Result<End, RunFault>
    requires files { graph.now.files ≡ length project.now.paths }
    requires sound { IsSound graph.now }
    requires kept { AreAllKept graph.now files.now }
    ensures sent { Prints (λ p. OfKept files.now project.now (λ listing. Strict (open_strays_of question.now)
        (WithAmounts limits.now (AreChangesOf (text_in form) question.now.language listing)) project.now graph.now p)) out.old out.new result }
    ensures read { IfErr result (λ f. unread_of f ≡ None) }
    ensures certificate { IfErr result (λ f. is_of_certificate f ≡ false) }
{
    let strays = open_strays_of(alloc, question, graph)?;
    if strays.is_empty() {
        let language = question.language;
        return separate_graph(alloc, project, graph, files, language, limits, form, out);
    }
    refuse_strays(alloc, project, graph, &strays, out)
}

/// Sends the changed files of the smallest cut of a graph, or what hinders it.
fn separate_graph<W: ByteSink>(
    alloc: Global,
    project: &Project<'_>,
    graph: &Graph,
    files: &KeptFiles,
    language: Language,
    limits: &Limits<'_>,
    form: Form,
    out: &mut Output<W>,
) -> Result<End, RunFault>
    requires files { graph.now.files ≡ length project.now.paths }
    requires sound { IsSound graph.now }
    requires kept { AreAllKept graph.now files.now }
    ensures sent { Prints (λ p. OfKept files.now project.now (λ listing.
        WithAmounts limits.now (AreChangesOf (text_in form) language listing) project.now graph.now p)) out.old out.new result }
    ensures read { IfErr result (λ f. unread_of f ≡ None) }
    ensures certificate { IfErr result (λ f. is_of_certificate f ≡ false) }
{
    match amounts_of(alloc, project, graph, limits) {
        Ok(fixed) => send_smallest(alloc, project, graph, files, language, &fixed, form, out),
        Err(cause) => refuse_hindrance(alloc, project, graph, limits, cause, out),
    }
}

/// Sends the changed files of the smallest cut of a graph whose edges have these amounts.
fn send_smallest<W: ByteSink>(
    alloc: Global,
    project: &Project<'_>,
    graph: &Graph,
    files: &KeptFiles,
    language: Language,
    fixed: &Fixed,
    form: Form,
    out: &mut Output<W>,
) -> Result<End, RunFault>
    requires files { graph.now.files ≡ length project.now.paths }
    requires sound { IsSound graph.now }
    requires kept { AreAllKept graph.now files.now }
    requires fixed { length fixed.now ≡ length graph.now.edges }
    ensures sent { Prints (λ p. OfKept files.now project.now (λ listing.
        AreChangesOf (text_in form) language listing project.now graph.now fixed.now p)) out.old out.new result }
    ensures read { IfErr result (λ f. unread_of f ≡ None) }
    ensures certificate { IfErr result (λ f. is_of_certificate f ≡ false) }
{
    let answer = &nearest_cut(alloc, graph, fixed)?;
    let notes = empty_notes(alloc, project, graph)?;
    match answer {
        CutAnswer::Cut { edges, .. } => {
            let directives = directives_of(alloc, graph, edges)?;
            let changes = changes_of(alloc, project, files, &directives, language)?;
            send_changes(out, &changes, form);
            Ok(noted(EndKind::Answered, notes))
        }
        CutAnswer::Fixed { chain } => Ok(send_fixed(out, project, graph, fixed, chain, notes)),
    }
}

/// Sends files that change, in this form.
fn send_changes<W: ByteSink>(out: &mut Output<W>, changes: &[Change<'_>], form: Form)
    ensures { Sends out.old out.new (text_in form changes.now) }
{
    match form {
        Form::Files => send_files(out, changes),
        Form::Patch => send_patch(out, changes),
    }
}
