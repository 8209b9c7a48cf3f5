//! The tokens of a preprocessing.
ghost use Rattle.std.specs.Prelude.{◌≡◌, ◌<◌, ◌∷◌, ◌++◌, ℕ, List, [], Some, Ok, length, map, IfOk, IfErr, IfSome, false};
ghost use Rattle.std.specs.Io.KnownBytes.{Appends};
ghost use Rattle.inc_lookup.specs.Given.{Given, HoldsOfGiven, FailsAfter};
ghost use Rattle.inc_pp.specs.Refusals.{read_fault_of};
ghost use Rattle.inc_pp.specs.Shared.{AreUnread};
ghost use Rattle.inc_report.specs.MakeRules.{outcome_rule};
ghost use Rattle.inc_report.specs.NoOutcomes.{IsRefusedPp, unread_for, stop_line, stop_end};
ghost use Rattle.inc_report.specs.PpSteps.{AreSharedBy, IsSection, FailsIn};
ghost use Rattle.inc_report.specs.PpText.{outcome_printed, stop_text};
ghost use Rattle.inc_report.specs.PpTexts.{IsPpBy, IsNextPp, if_wanted, refused_section, section_of, shown, title, wanted_of, worse};
ghost use Rattle.inc_answers.specs.NearNames.{source_notes};
ghost use Rattle.inc_report.specs.PpViews.{IsToldOf, common_of};
ghost use Rattle.inc_answers.specs.Printed.{Printed};
ghost use Rattle.inc_answers.specs.Refusals.{BadDefinition, refusal, refusal_text};
ghost use Rattle.inc_answers.specs.Sending.{Sends};
ghost use Rattle.inc_report.specs.SourceEndings.{ending_text, outcome_ending};
ghost use Rattle.inc_report.specs.StopReasons.{stop_reasons};
ghost use Rattle.inc_answers.specs.Terms.{named_directives};
ghost use Rattle.inc_answers.specs.Views.{seen_refusal};
ghost use Rattle.inc_answers.specs.Writing.{Prints, SendsWhole, Writes, WritesEach, is_of_certificate, unread_of};

use crate::make_rules::outcome_rule;
use crate::numbers::{cause_numbers, define_number};
use crate::pp_question::PpQuestion;
use crate::source_endings::{bad_definition_bytes, outcome_lines, refused_lines};
use crate::stop_reasons::stop_reasons;
use inc_answers::file_texts::FileText;
use inc_answers::lines::{send_directive, send_point};
use inc_answers::missing_notes::Notes;
use inc_answers::named_files::file_at;
use inc_answers::near_names::unnamed_sources;
use inc_answers::outcome::{End, EndKind, RunFault, ended, texted};
use inc_answers::output::Output;
use inc_answers::questions::directives_named;
use inc_answers::refusals::{Refusal, send_refusal};
use inc_lookup::{DirectiveSet, Project, Sources};
use inc_pp::{Files, Outcome, PpRefusal, Settings, Stop, preprocess_with};
use inc_text::ByteSink;
use std::alloc::{AllocError, Global};

/// Why a preprocessing has no outcome.
#[derive(Clone, Copy)]
pub(crate) enum NoOutcome {
    /// No file of the project has the path of the source.
    NoSource,
    /// The preprocessing is refused.
    Refused(PpRefusal),
}

impl From<AllocError> for NoOutcome {
    ghost use Rattle.inc_pp.specs.declared.outcomes.PpRefusal.TheVariants.{NoMemory};
    ghost use Rattle.inc_report.specs.declared.pp.NoOutcome.TheVariants.{Refused};

    ghost from_gives = { λ _ e. e ≡ Refused NoMemory };

    fn from(_error: AllocError) -> NoOutcome {
        NoOutcome::Refused(PpRefusal::NoMemory)
    }
}

/// What is asked for of each source.
#[derive(Clone, Copy)]
pub(crate) struct Wanted {
    /// Whether a line with its path stands above what is printed of it.
    titles: bool,
    /// Whether its rule for make is asked for.
    rules: bool,
    /// Whether it is asked for how it ended.
    endings: bool,
}

/// What is reported of sources beside their output, as far as it is asked for.
#[derive(Drop)]
struct Kept {
    /// Their rules for make.
    rules: Vec<u8>,
    /// How they ended.
    endings: Vec<u8>,
    /// Why they stopped, which is always reported.
    stops: Vec<u8>,
}

/// The same of one source.
#[derive(Drop)]
struct Told {
    rule: FileText,
    ending: FileText,
    stop: Notes,
}

/// What all sources of a call have in common.
#[derive(Clone, Copy)]
struct Job<'j, 'r> {
    alloc: Global,
    project: &'j Project<'j>,
    words: &'j [&'j [u8]],
    settings: &'j Settings<'j>,
    removed: &'j DirectiveSet<'r>,
    wanted: Wanted,
}

/// Writes what the preprocessing of each source of a question gives: its tokens, and where it stopped, if it did. Of several sources each
/// has a line `source PATH` above it, and the call ends as the worst of them does. The first word that makes no definition is refused.
/// Files are read when an include directive leads to them, each once, whichever source does. All memory of a source is taken before its
/// first byte is written. The last outcome goes into `printed` with all files, so that the caller decides when their memory is given back; that is
/// all it is for, and what it holds is not promised, after a fault as little as else.
pub fn run_pp<S: Sources, W: ByteSink>(
    alloc: Global,
    project: &Project<'_>,
    sources: &mut S,
    question: &PpQuestion<'_>,
    printed: &mut Option<Outcome>,
    w: W,
) -> (Result<End, RunFault>, W)
    requires { W.has_failed w ≡ false }
    ensures written { WritesEach (λ s done p. HoldsOfGiven S.gives sources.old s project.now
        (IsPpBy (wanted_of question.now) done question.now.words question.now.settings
        (named_directives project.now question.now.without) p))
        question.now.sources sources.new
        (W.written w) (W.written result.1) (W.has_failed result.1) result.0 }
    ensures unread { IfErr result.0 (λ fault. IfSome (unread_of fault) (λ r.
        (done more : List (List ℕ)) × (source : List ℕ) × (p : Printed)
        × (question.now.sources ≡ done ++ source ∷ more) × Appends (W.written w) (W.written result.1) p.text
        × FailsAfter S.gives sources.old sources.new project.now r.0 r.1
        (IsNextPp (wanted_of question.now) done source question.now.words question.now.settings
        (named_directives project.now question.now.without) p r.0))) }
    ensures certificate { IfErr result.0 (λ f. is_of_certificate f ≡ false) }
{
    let mut out = match Output::small(alloc, w) {
        Ok(out) => out,
        Err(w) => return (Err(RunFault::NoMemory), w),
    };
    let ended = write_all(alloc, project, sources, question, printed, &mut out);
    (ended, out.into_sink())
}

/// Writes the sources of a question.
fn write_all<S: Sources, W: ByteSink>(
    alloc: Global,
    project: &Project<'_>,
    sources: &mut S,
    question: &PpQuestion<'_>,
    printed: &mut Option<Outcome>,
    out: &mut Output<W>,
) -> Result<End, RunFault>
    requires sound { out.old.failed ≡ false }
    requires empty { out.old.waiting ≡ [] }
    ensures written { WritesEach (λ s done p. HoldsOfGiven S.gives sources.old s project.now
        (IsPpBy (wanted_of question.now) done question.now.words question.now.settings
        (named_directives project.now question.now.without) p))
        question.now.sources sources.new out.old.written out.new.written out.new.failed result }
    ensures unread { IfErr result (λ fault. IfSome (unread_of fault) (λ r.
        (done more : List (List ℕ)) × (source : List ℕ) × (p : Printed)
        × (question.now.sources ≡ done ++ source ∷ more) × Appends out.old.written out.new.written p.text
        × FailsAfter S.gives sources.old sources.new project.now r.0 r.1
        (IsNextPp (wanted_of question.now) done source question.now.words question.now.settings
        (named_directives project.now question.now.without) p r.0))) }
    ensures certificate { IfErr result (λ f. is_of_certificate f ≡ false) }
{
    let named = directives_named(alloc, project, question.without)?;
    let removed = DirectiveSet::new(alloc, &named)?;
    let mut files = Files::new(alloc, project)?;
    let job = Job {
        alloc,
        project,
        words: question.words,
        settings: question.settings,
        removed: &removed,
        wanted: wanted_of(question),
    };
    let notes = unnamed_sources(alloc, project, question.sources)?;
    let mut last = None;
    let end = write_each(
        &job,
        sources,
        &mut files,
        question.sources,
        notes,
        &mut last,
        out,
    );
    *printed = with_files(last, files);
    end
}

/// What is asked for of each source of a question.
fn wanted_of(question: &PpQuestion<'_>) -> Wanted
    ensures { result ≡ wanted_of question.now }
{
    Wanted {
        titles: question.sources.len() > 1,
        rules: question.has_rules,
        endings: question.has_endings,
    }
}

/// The last outcome with the files.
fn with_files(last: Option<Outcome>, files: Files) -> Option<Outcome>
    ensures { result ≡ last }
{
    match last {
        Some(outcome) => Some(outcome.with_files(files)),
        None => None,
    }
}

/// Writes each source. The notes are those on sources that name no file.
fn write_each<S: Sources, W: ByteSink>(
    job: &Job<'_, '_>,
    sources: &mut S,
    files: &mut Files,
    paths: &[&[u8]],
    notes: Notes,
    last: &mut Option<Outcome>,
    out: &mut Output<W>,
) -> Result<End, RunFault>
    requires unread { AreUnread job.now.project.now files.old }
    requires notes { notes ≡ source_notes job.now.project.now (map (λ p. p.now) paths.now) }
    requires sound { out.old.failed ≡ false }
    requires empty { out.old.waiting ≡ [] }
    ensures written { WritesEach (λ s done p. HoldsOfGiven S.gives sources.old s job.now.project.now
        (IsPpBy job.now.wanted done (map (λ w. w.now) job.now.words.now)
        job.now.settings.now job.now.removed.now p))
        (map (λ p. p.now) paths.now) sources.new out.old.written out.new.written out.new.failed result }
    ensures unread { IfErr result (λ fault. IfSome (unread_of fault) (λ r.
        (done more : List (List ℕ)) × (source : List ℕ) × (p : Printed)
        × (map (λ p. p.now) paths.now ≡ done ++ source ∷ more) × Appends out.old.written out.new.written p.text
        × FailsAfter S.gives sources.old sources.new job.now.project.now r.0 r.1
        (IsNextPp job.now.wanted done source (map (λ w. w.now) job.now.words.now)
        job.now.settings.now job.now.removed.now p r.0))) }
    ensures certificate { IfErr result (λ f. is_of_certificate f ≡ false) }
{
    let mut worst = EndKind::Answered;
    let mut kept = Kept {
        rules: Vec::new(job.alloc),
        endings: Vec::new(job.alloc),
        stops: Vec::new(job.alloc),
    };
    for path in paths {
        match write_source(job, sources, files, path, &mut kept, last, out) {
            Ok(end) => worst = worse(worst, end.kind),
            Err(fault) => return Err(fault),
        }
    }
    let Kept {
        rules,
        endings,
        stops,
    } = kept;
    let (rules, endings) = (FileText::of(rules), FileText::of(endings));
    Ok(ended(worst, notes, rules, endings, Notes::of(stops)))
}

/// Writes one source.
fn write_source<S: Sources, W: ByteSink>(
    job: &Job<'_, '_>,
    sources: &mut S,
    files: &mut Files,
    path: &[u8],
    kept: &mut Kept,
    last: &mut Option<Outcome>,
    out: &mut Output<W>,
) -> Result<End, RunFault>
    requires shared { (first : S) × (earlier : List Given)
        × AreSharedBy S.gives first sources.old (common_of job.now) files.old earlier }
    requires sound { out.old.failed ≡ false }
    requires empty { out.old.waiting ≡ [] }
    ensures written { Writes
        (IsSection S.gives sources.old sources.new (common_of job.now) files.old files.new job.now.wanted path.now)
        out.old.written out.new.written out.new.failed result }
    ensures empty { out.new.waiting ≡ [] }
    ensures rules { IfOk result (λ end. kept.new.rules.items ≡ kept.old.rules.items ++ end.rules) }
    ensures endings { IfOk result (λ end. kept.new.endings.items ≡ kept.old.endings.items ++ end.endings) }
    ensures stops { IfOk result (λ end. kept.new.stops.items ≡ kept.old.stops.items ++ end.stops) }
    ensures unread { IfErr result (λ fault. IfSome (unread_of fault)
        (FailsIn S.gives sources.old sources.new (common_of job.now) files.old path.now)) }
    ensures certificate { IfErr result (λ f. is_of_certificate f ≡ false) }
{
    let end = send_source(job, sources, files, path, kept, last, out)?;
    out.settle(end)
}

/// Sends the text of one source.
fn send_source<S: Sources, W: ByteSink>(
    job: &Job<'_, '_>,
    sources: &mut S,
    files: &mut Files,
    path: &[u8],
    kept: &mut Kept,
    last: &mut Option<Outcome>,
    out: &mut Output<W>,
) -> Result<End, RunFault>
    requires { (first : S) × (earlier : List Given)
        × AreSharedBy S.gives first sources.old (common_of job.now) files.old earlier }
    ensures sent { Prints
        (IsSection S.gives sources.old sources.new (common_of job.now) files.old files.new job.now.wanted path.now)
        out.old out.new result }
    ensures rules { IfOk result (λ end. kept.new.rules.items ≡ kept.old.rules.items ++ end.rules) }
    ensures endings { IfOk result (λ end. kept.new.endings.items ≡ kept.old.endings.items ++ end.endings) }
    ensures stops { IfOk result (λ end. kept.new.stops.items ≡ kept.old.stops.items ++ end.stops) }
    ensures unread { IfErr result (λ fault. IfSome (unread_of fault)
        (FailsIn S.gives sources.old sources.new (common_of job.now) files.old path.now)) }
    ensures certificate { IfErr result (λ f. is_of_certificate f ≡ false) }
{
    // The memory of the source before serves this one.
    *last = None;
    match outcome_of(job, sources, files, path) {
        Ok(outcome) => match keep_texts(job, path, &outcome, kept) {
            Ok(told) => {
                let end = send_outcome(out, job, path, &outcome, told);
                *last = Some(outcome);
                Ok(end)
            }
            Err(_) => Err(RunFault::NoMemory),
        },
        Err(cause) => refuse_outcome(job, path, cause, kept, out),
    }
}

/// What is reported of an outcome beside its output. It is added to what is reported of the sources before, while nothing of this one
/// is written.
fn keep_texts(
    job: &Job<'_, '_>,
    path: &[u8],
    outcome: &Outcome,
    kept: &mut Kept,
) -> Result<Told, AllocError>
    requires { IfSome outcome.now.stop (λ s. s.file < length job.now.project.now.paths) }
    ensures told { IfOk result (λ told. IsToldOf job.now.wanted path.now (section_of job.now.project.now (Ok outcome.now)) told) }
    ensures rules { IfOk result (λ told. kept.new.rules.items ≡ kept.old.rules.items ++ told.rule) }
    ensures endings { IfOk result (λ told. kept.new.endings.items ≡ kept.old.endings.items ++ told.ending) }
    ensures stops { IfOk result (λ told. kept.new.stops.items ≡ kept.old.stops.items ++ told.stop) }
{
    let rule = keep_rule(job, outcome, &mut kept.rules)?;
    let ending = keep_ending(job, path, outcome, &mut kept.endings)?;
    let stop = keep_stop(job, outcome, &mut kept.stops)?;
    Ok(Told { rule, ending, stop })
}

/// The line on where an outcome stopped, if it did. It is added to those of the sources before.
fn keep_stop(job: &Job<'_, '_>, outcome: &Outcome, stops: &mut Vec<u8>) -> Result<Notes, AllocError>
    requires { IfSome outcome.now.stop (λ s. s.file < length job.now.project.now.paths) }
    ensures stop { IfOk result (λ stop. stop ≡ stop_reasons job.now.project.now outcome.now.stop) }
    ensures kept { IfOk result (λ stop. stops.new.items ≡ stops.old.items ++ stop) }
{
    let line = stop_reasons(job.alloc, job.project, outcome.stop())?;
    stops.extend_from_slice(line.text())?;
    Ok(line)
}

/// How an outcome ended, if that is asked for. It is added to how the sources before did.
fn keep_ending(
    job: &Job<'_, '_>,
    path: &[u8],
    outcome: &Outcome,
    endings: &mut Vec<u8>,
) -> Result<FileText, AllocError>
    requires { IfSome outcome.now.stop (λ s. s.file < length job.now.project.now.paths) }
    ensures ending { IfOk result (λ ending. ending ≡ if_wanted job.now.wanted.endings (ending_text path.now
        (title job.now.wanted.titles path.now ++ (outcome_printed job.now.project.now outcome.now).text)
        (outcome_ending job.now.project.now outcome.now))) }
    ensures kept { IfOk result (λ ending. endings.new.items ≡ endings.old.items ++ ending) }
{
    if !job.wanted.endings {
        return Ok(FileText::none());
    }
    let lines = outcome_lines(job.alloc, job.project, job.wanted.titles, path, outcome)?;
    endings.extend_from_slice(&lines)?;
    Ok(FileText::of(lines))
}

/// How a source ended that is refused so, if that is asked for. It is added to how the sources before did.
fn keep_refusal(
    job: &Job<'_, '_>,
    path: &[u8],
    refused: &[u8],
    endings: &mut Vec<u8>,
) -> Result<FileText, AllocError>
    ensures ending { IfOk result (λ ending. ending ≡ if_wanted job.now.wanted.endings (ending_text path.now
        (title job.now.wanted.titles path.now ++ refused.now) refused.now)) }
    ensures kept { IfOk result (λ ending. endings.new.items ≡ endings.old.items ++ ending) }
{
    if !job.wanted.endings {
        return Ok(FileText::none());
    }
    let lines = refused_lines(job.alloc, job.wanted.titles, path, refused)?;
    endings.extend_from_slice(&lines)?;
    Ok(FileText::of(lines))
}

/// The rule for make of an outcome, if rules are asked for. It is added to those of the sources before, while nothing of this one is written.
fn keep_rule(
    job: &Job<'_, '_>,
    outcome: &Outcome,
    rules: &mut Vec<u8>,
) -> Result<FileText, AllocError>
    ensures rule { IfOk result (λ rule.
        rule ≡ if_wanted job.now.wanted.rules (outcome_rule job.now.project.now outcome.now)) }
    ensures kept { IfOk result (λ rule. rules.new.items ≡ rules.old.items ++ rule) }
{
    if !job.wanted.rules {
        return Ok(FileText::none());
    }
    let rule = outcome_rule(job.alloc, job.project, outcome)?;
    rules.extend_from_slice(&rule)?;
    Ok(FileText::of(rule))
}

/// The outcome of a source.
fn outcome_of<S: Sources>(
    job: &Job<'_, '_>,
    sources: &mut S,
    files: &mut Files,
    path: &[u8],
) -> Result<Outcome, NoOutcome>
    requires shared { (first : S) × (earlier : List Given)
        × AreSharedBy S.gives first sources.old (common_of job.now) files.old earlier }
    ensures outcome { IfOk result (λ outcome. (wanted : Wanted) (p : Printed)
        → p ≡ shown wanted path.now (section_of job.now.project.now (Ok outcome))
        → IsSection S.gives sources.old sources.new (common_of job.now) files.old files.new wanted path.now p) }
    ensures stop { IfOk result (λ outcome. IfSome outcome.stop
        (λ s. s.file < length job.now.project.now.paths)) }
    ensures refused { IfErr result (λ cause. (wanted : Wanted) (p q : Printed) → IsRefusedPp cause q
        → p ≡ shown wanted path.now (refused_section q)
        → IsSection S.gives sources.old sources.new (common_of job.now) files.old files.new wanted path.now p) }
    ensures unread { IfErr result (λ cause. IfSome (unread_for cause)
        (FailsIn S.gives sources.old sources.new (common_of job.now) files.old path.now)) }
{
    let Some(source) = file_at(job.alloc, job.project, path)? else {
        return Err(NoOutcome::NoSource);
    };
    let settings = job.settings.with_source(path);
    let shared = inc_pp::Job {
        alloc: job.alloc,
        project: job.project,
        settings: &settings,
        removed: job.removed,
    };
    match preprocess_with(&shared, sources, files, source, job.words) {
        Ok(outcome) => Ok(outcome),
        Err(fault) => Err(NoOutcome::Refused(fault)),
    }
}

/// Sends an outcome, under the line of its source: its tokens in one piece, and then where it stopped. Says how the call ends,
/// with what is reported beside it.
fn send_outcome<W: ByteSink>(
    out: &mut Output<W>,
    job: &Job<'_, '_>,
    path: &[u8],
    outcome: &Outcome,
    told: Told,
) -> End
    requires stop { IfSome outcome.now.stop (λ s. s.file < length job.now.project.now.paths) }
    requires told { IsToldOf job.now.wanted path.now (section_of job.now.project.now (Ok outcome.now)) told }
    ensures sent { SendsWhole (shown job.now.wanted path.now (section_of job.now.project.now (Ok outcome.now)))
        out.old out.new result }
    ensures rule { result.rules ≡ told.rule }
    ensures ending { result.endings ≡ told.ending }
    ensures stop { result.stops ≡ told.stop }
{
    send_title(out, job.wanted.titles, path);
    out.send(outcome.text());
    send_stop(out, job.project, outcome.stop());
    texted(kind_of(outcome.stop()), told.rule, told.ending, told.stop)
}

/// Sends the line above a source, if it has one.
fn send_title<W: ByteSink>(out: &mut Output<W>, titled: bool, path: &[u8])
    ensures { Sends out.old out.new (title titled path.now) }
{
    if titled {
        out.send(b"source ");
        out.send(path);
        out.send(b"\n");
    }
}

/// Sends where a preprocessing stopped, if it did.
fn send_stop<W: ByteSink>(out: &mut Output<W>, project: &Project<'_>, stop: Option<Stop>)
    requires { IfSome stop (λ s. s.file < length project.now.paths) }
    ensures { Sends out.old out.new (stop_line project.now stop) }
{
    if let Some(stop) = stop {
        send_stop_line(out, project, stop);
    }
}

/// Sends the line of a stop.
fn send_stop_line<W: ByteSink>(out: &mut Output<W>, project: &Project<'_>, stop: Stop)
    requires { stop.file < length project.now.paths }
    ensures { Sends out.old out.new (stop_text project.now stop) }
{
    let (cause, fault) = cause_numbers(stop.cause);
    out.send(b"stop ");
    send_point(out, cause, fault);
    out.send(b" ");
    send_directive(out, stop.line, project.path(stop.file));
}

/// How a call ends that writes an outcome.
fn kind_of(stop: Option<Stop>) -> EndKind
    ensures { result ≡ stop_end stop }
{
    match stop {
        None => EndKind::Answered,
        Some(_) => EndKind::Negative,
    }
}

/// The worse of two ends.
fn worse(a: EndKind, b: EndKind) -> EndKind
    ensures { result ≡ worse a b }
{
    match a {
        EndKind::Answered => b,
        EndKind::Negative => match b {
            EndKind::Answered => EndKind::Negative,
            EndKind::Negative => EndKind::Negative,
            EndKind::Refused => EndKind::Refused,
        },
        EndKind::Refused => EndKind::Refused,
    }
}

/// Sends why a preprocessing has no outcome.
fn refuse_outcome<W: ByteSink>(
    job: &Job<'_, '_>,
    path: &[u8],
    cause: NoOutcome,
    kept: &mut Kept,
    out: &mut Output<W>,
) -> Result<End, RunFault>
    ensures sent { Prints (λ p. (q : Printed) × IsRefusedPp cause q × (p ≡ shown job.now.wanted path.now (refused_section q)))
        out.old out.new result }
    ensures rules { IfOk result (λ end. kept.new.rules.items ≡ kept.old.rules.items ++ end.rules) }
    ensures endings { IfOk result (λ end. kept.new.endings.items ≡ kept.old.endings.items ++ end.endings) }
    ensures stops { IfOk result (λ end. kept.new.stops.items ≡ kept.old.stops.items ++ end.stops) }
    ensures unread { IfErr result (λ f. IfSome (unread_of f) (λ r. unread_for cause ≡ Some r)) }
    ensures certificate { IfErr result (λ f. is_of_certificate f ≡ false) }
{
    match cause {
        NoOutcome::NoSource => {
            refuse_source(
                job,
                path,
                Refusal::NoSuchSource,
                b"refused 1 no such source\n",
                kept,
                out,
            )
        }
        NoOutcome::Refused(fault) => refuse_preprocessing(job, path, fault, kept, out),
    }
}

/// Sends the refusal that is in place of an outcome.
fn refuse_preprocessing<W: ByteSink>(
    job: &Job<'_, '_>,
    path: &[u8],
    fault: PpRefusal,
    kept: &mut Kept,
    out: &mut Output<W>,
) -> Result<End, RunFault>
    ensures sent { Prints (λ p. (q : Printed) × IsRefusedPp (NoOutcome.Refused fault) q × (p ≡ shown job.now.wanted path.now (refused_section q)))
        out.old out.new result }
    ensures rules { IfOk result (λ end. kept.new.rules.items ≡ kept.old.rules.items ++ end.rules) }
    ensures endings { IfOk result (λ end. kept.new.endings.items ≡ kept.old.endings.items ++ end.endings) }
    ensures stops { IfOk result (λ end. kept.new.stops.items ≡ kept.old.stops.items ++ end.stops) }
    ensures unread { IfErr result (λ f. IfSome (unread_of f) (λ r. read_fault_of fault ≡ Some r)) }
    ensures certificate { IfErr result (λ f. is_of_certificate f ≡ false) }
{
    match fault {
        PpRefusal::BadDefinition { index, fault } => {
            refuse_definition(job, path, index, define_number(fault), kept, out)
        }
        PpRefusal::CannotRead { file } => Err(RunFault::CannotRead { file }),
        PpRefusal::FileTooLong { file } => Err(RunFault::FileTooLong { file }),
        PpRefusal::NoMemory => Err(RunFault::NoMemory),
    }
}

/// Sends the refusal of the word at a place, by the number of its fault.
fn refuse_definition<W: ByteSink>(
    job: &Job<'_, '_>,
    path: &[u8],
    index: usize,
    fault: u64,
    kept: &mut Kept,
    out: &mut Output<W>,
) -> Result<End, RunFault>
    ensures sent { Prints (λ p. p ≡ shown job.now.wanted path.now (refused_section (refusal (BadDefinition index fault))))
        out.old out.new result }
    ensures rules { IfOk result (λ end. kept.new.rules.items ≡ kept.old.rules.items ++ end.rules) }
    ensures endings { IfOk result (λ end. kept.new.endings.items ≡ kept.old.endings.items ++ end.endings) }
    ensures stops { IfOk result (λ end. kept.new.stops.items ≡ kept.old.stops.items ++ end.stops) }
    ensures fault { IfErr result (λ f. f ≡ RunFault.NoMemory) }
{
    match bad_definition_bytes(job.alloc, index, fault) {
        Ok(text) => refuse_source(
            job,
            path,
            Refusal::BadDefinition { index, fault },
            &text,
            kept,
            out,
        ),
        Err(_) => Err(RunFault::NoMemory),
    }
}

/// Sends a refusal of this text, under the line of its source, and says how the call ends.
fn refuse_source<W: ByteSink>(
    job: &Job<'_, '_>,
    path: &[u8],
    refused: Refusal<'_>,
    text: &[u8],
    kept: &mut Kept,
    out: &mut Output<W>,
) -> Result<End, RunFault>
    requires { text.now ≡ refusal_text (seen_refusal refused) }
    ensures sent { Prints (λ p. p ≡ shown job.now.wanted path.now (refused_section (refusal (seen_refusal refused.entry))))
        out.old out.new result }
    ensures rules { IfOk result (λ end. kept.new.rules.items ≡ kept.old.rules.items ++ end.rules) }
    ensures endings { IfOk result (λ end. kept.new.endings.items ≡ kept.old.endings.items ++ end.endings) }
    ensures stops { IfOk result (λ end. kept.new.stops.items ≡ kept.old.stops.items ++ end.stops) }
    ensures fault { IfErr result (λ f. f ≡ RunFault.NoMemory) }
{
    match keep_refusal(job, path, text, &mut kept.endings) {
        Ok(ending) => {
            send_title(out, job.wanted.titles, path);
            send_refusal(out, refused);
            Ok(texted(EndKind::Refused, FileText::none(), ending, Notes::none()))
        }
        Err(_) => Err(RunFault::NoMemory),
    }
}
