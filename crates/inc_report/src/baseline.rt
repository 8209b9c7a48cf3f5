//! The directives by which rules are broken, as the lines of a baseline.
ghost use Rattle.std.specs.Prelude.{◌≡◌, ◌++◌, ℕ, List, None, Some, false, length, map, replicate, IfErr, IfOk, IfSome, OnErr, OnOk};
ghost use Rattle.std.specs.List.{All, concat};
ghost use Rattle.inc_graph.specs.Cuts as cuts;
ghost use Rattle.inc_graph.specs.IncludeGraph.{IsSound};
ghost use Rattle.inc_lookup.specs.Given.{HoldsOfGiven};
ghost use Rattle.inc_lookup.specs.Projects.{with_path};
ghost use Rattle.inc_report.specs.BaselineText.{IsBaseline, IsBaselineBy, IsBaselineKept, IsShownAnyhow, baseline_line, baseline_text, beside_text, header_text, led_path, rules_form};
ghost use Rattle.inc_answers.specs.DirectiveNames.{kept_kind};
ghost use Rattle.inc_answers.specs.Documents.{AreGraphKept};
ghost use Rattle.inc_answers.specs.JsonAnswers.{about_subject};
ghost use Rattle.inc_answers.specs.Printed.{Printed};
ghost use Rattle.inc_answers.specs.Questions.{FailsAt, IsStopped, IsWithin, unread_by};
ghost use Rattle.inc_answers.specs.RuleViews.{seen_list};
ghost use Rattle.inc_answers.specs.Writing.{Prints, Writes, is_of_certificate, unread_of};
ghost use Rattle.inc_directive.specs.KindViews.{seen_kind};
ghost use Rattle.inc_rules.specs.Breaking.{AreBreaking};
ghost use Rattle.inc_answers.specs.Sending.{Sends};
ghost use Rattle.inc_rules.specs.Judging.{IsWithin as IsJudgedWithin};
ghost use Rattle.inc_rules.specs.Views.{seen_judged, seen_rule};

use crate::make_rules::path_of;
use crate::named::{Format, NamedForm, refuse, rules_text, strays_report};
use crate::rules::{rules_kind, send_rules};
use inc_answers::asked::{Asked, Question, RuleList};
use inc_answers::changes::directives_of;
use inc_answers::directive_names::{NameTable, put_between};
use inc_answers::file_texts::FileText;
use inc_answers::kept_sources::KeptSources;
use inc_answers::outcome::{End, RunFault, lined};
use inc_answers::output::Output;
use inc_answers::questions::{NoGraph, find_graph, refuse_question};
use inc_answers::strictness::{refuse_strays, strays_of};
use inc_answers::subjects::Subject;
use inc_directive::{LineKind, Target};
use inc_lookup::{DirectiveId, Project, Sources};
use inc_rules::{Judged, Rule, breaking, lacking};
use inc_text::{ByteSink, Key, SeededState};
use indexmap::IndexSet;
use std::alloc::{AllocError, Global};

/// Hands up a baseline of rules, which names each directive by which a rule that files do not reach or include others is broken, so that
/// without these no such rule is; and writes what breaks the rules otherwise, as text or in a format: the files that do not include what they
/// must. The text is that of [`run_rules`](crate::run_rules), and in a format as [`run_named`](crate::run_named) has it, without chains.
///
/// The sources are given back with the sink. Each file is read once, as by [`run_why`](inc_answers::run_why), and its bytes are kept until the
/// call ends. All memory is taken before the first byte is written.
pub fn run_baseline<S: Sources, W: ByteSink>(
    alloc: Global,
    project: &Project<'_>,
    sources: S,
    question: &Question<'_>,
    list: RuleList<'_>,
    format: Option<Format>,
    w: W,
) -> (Result<End, RunFault>, S, W)
    requires { W.has_failed w ≡ false }
    ensures written { Writes (λ p. HoldsOfGiven S.gives sources result.1 project.now
        (IsBaselineBy format (seen_list list.entry) question.now p))
        (W.written w) (W.written result.2) (W.has_failed result.2) result.0 }
    ensures unread { IfErr result.0 (λ fault. IfSome (unread_of fault)
        (FailsAt S.gives sources result.1 project.now question.now)) }
    ensures certificate { IfErr result.0 (λ f. is_of_certificate f ≡ false) }
{
    let mut out = match Output::small(alloc, w) {
        Ok(out) => out,
        Err(w) => return (Err(RunFault::NoMemory), sources, w),
    };
    let mut kept = match KeptSources::new(alloc, sources, project.count()) {
        Ok(kept) => kept,
        Err(sources) => return (Err(RunFault::NoMemory), sources, out.into_sink()),
    };
    let ended = tell(alloc, project, &mut kept, question, list, format, &mut out);
    let (result, w) = out.finish(ended);
    (result, kept.into_sources(), w)
}

/// Sends what breaks rules beside the directives of their baseline, or why there is no answer.
fn tell<S: Sources, W: ByteSink>(
    alloc: Global,
    project: &Project<'_>,
    kept: &mut KeptSources<S>,
    question: &Question<'_>,
    list: RuleList<'_>,
    format: Option<Format>,
    out: &mut Output<W>,
) -> Result<End, RunFault>
    requires { kept.old.files ≡ replicate (length project.now.paths) None }
    ensures sent { Prints (λ p. HoldsOfGiven S.gives kept.old.sources kept.new.sources project.now
        (IsBaselineBy format (seen_list list.entry) question.now p)) out.old out.new result }
    ensures unread { IfErr result (λ fault. IfSome (unread_of fault)
        (FailsAt S.gives kept.old.sources kept.new.sources project.now question.now)) }
    ensures certificate { IfErr result (λ f. is_of_certificate f ≡ false) }
{
    match find_graph(alloc, project, kept, question) {
        Ok(graph) => {
            let files = &kept.files;
            let subject = Subject {
                project: &*project,
                graph: &graph,
                files,
                language: question.language,
            };
            tell_strictly(alloc, subject, question, list, format, out)
        }
        Err(cause) => refuse_in(alloc, project, question, cause, format, out),
    }
}

/// Sends why a question has no graph, as text or in a format.
fn refuse_in<W: ByteSink>(
    alloc: Global,
    project: &Project<'_>,
    question: &Question<'_>,
    cause: NoGraph,
    format: Option<Format>,
    out: &mut Output<W>,
) -> Result<End, RunFault>
    requires { IsWithin (length project.now.paths) cause }
    ensures sent { Prints (λ p. (plain : Printed) × IsStopped project.now question.now cause plain
        × IsShownAnyhow format plain p) out.old out.new result }
    ensures unread { IfErr result (λ f. IfSome (unread_of f) (λ r. unread_by cause ≡ Some r)) }
    ensures certificate { IfErr result (λ f. is_of_certificate f ≡ false) }
{
    match format {
        None => refuse_question(alloc, project, question, cause, out),
        Some(format) => refuse(alloc, project, question, cause, rules_form(format), out),
    }
}

/// Rules in a format.
fn rules_form(format: Format) -> NamedForm
    ensures { result ≡ rules_form format }
{
    NamedForm {
        asked: Asked::Rules,
        format,
        all: false,
        fails: false,
        most: None,
    }
}

/// Sends what breaks rules in a graph beside the directives of their baseline, or the refusal of directives whose header is not found.
fn tell_strictly<W: ByteSink>(
    alloc: Global,
    subject: Subject<'_>,
    question: &Question<'_>,
    list: RuleList<'_>,
    format: Option<Format>,
    out: &mut Output<W>,
) -> Result<End, RunFault>
    requires files { subject.graph.now.files ≡ length subject.project.now.paths }
    requires sound { IsSound subject.graph.now }
    requires kept { AreGraphKept subject.graph.now subject.files.now }
    ensures sent { Prints (IsBaselineKept format (seen_list list.entry) question.now subject.entry) out.old out.new result }
    ensures read { IfErr result (λ f. unread_of f ≡ None) }
    ensures certificate { IfErr result (λ f. is_of_certificate f ≡ false) }
{
    let strays = strays_of(alloc, question, subject.graph)?;
    if strays.is_empty() {
        return tell_graph(alloc, subject, list, format, out);
    }
    match format {
        None => refuse_strays(alloc, subject.project, subject.graph, &strays, out),
        Some(format) => match format {
            Format::Gcc | Format::Dot => {
                refuse_strays(alloc, subject.project, subject.graph, &strays, out)
            }
            Format::Json => Ok(strays_report(alloc, subject, &strays, Asked::Rules)?.send(out)),
        },
    }
}

/// Sends what breaks rules in a graph beside the directives of their baseline.
fn tell_graph<W: ByteSink>(
    alloc: Global,
    subject: Subject<'_>,
    list: RuleList<'_>,
    format: Option<Format>,
    out: &mut Output<W>,
) -> Result<End, RunFault>
    requires { subject.graph.now.files ≡ length subject.project.now.paths }
    ensures sent { Prints (IsBaseline format (seen_list list.entry) (about_subject subject.entry)) out.old out.new result }
    ensures read { IfErr result (λ f. unread_of f ≡ None) }
    ensures certificate { IfErr result (λ f. is_of_certificate f ≡ false) }
{
    let Subject { project, graph, .. } = subject;
    let baseline = baseline_of(alloc, subject, list.rules)?;
    let judged = lacking(alloc, project, graph, list.rules)?;
    let kind = rules_kind(&judged);
    send_beside(alloc, subject, list.name, format, &judged, out)?;
    Ok(lined(kind, baseline))
}

/// Sends what breaks rules of a list with this name, as text or in a format. Where memory runs out, nothing is sent.
fn send_beside<W: ByteSink>(
    alloc: Global,
    subject: Subject<'_>,
    name: &str,
    format: Option<Format>,
    judged: &[Judged<'_>],
    out: &mut Output<W>,
) -> Result<(), AllocError>
    requires files { subject.graph.now.files ≡ length subject.project.now.paths }
    requires within { All (λ j. IsJudgedWithin subject.graph.now (seen_judged j)) judged.now }
    ensures sent { OnOk result (Sends out.old out.new (beside_text format name.now (about_subject subject.entry) (map seen_judged judged.now))) }
    ensures same { OnErr result (out.new ≡ out.old) }
{
    match format {
        None => {
            send_rules(out, subject.project, subject.graph, judged);
            Ok(())
        }
        Some(format) => {
            let text = rules_text(alloc, subject, name.as_bytes(), judged, format)?;
            out.send(&text);
            Ok(())
        }
    }
}

/// The baseline of rules.
fn baseline_of(
    alloc: Global,
    subject: Subject<'_>,
    rules: &[Rule<'_>],
) -> Result<FileText, AllocError>
    requires { subject.graph.now.files ≡ length subject.project.now.paths }
    ensures { IfOk result (λ text. (edges : List ℕ) × AreBreaking subject.entry.project.now subject.entry.graph.now (map seen_rule rules.now) edges
        × (text ≡ baseline_text (kept_kind subject.entry.language subject.entry.files.now) subject.entry.project.now
        (cuts.directives_of subject.entry.graph.now edges))) }
{
    let edges = breaking(alloc, subject.project, subject.graph, rules)?;
    let directives = directives_of(alloc, subject.graph, &edges)?;
    Ok(FileText::of(lines_of(alloc, subject, &directives)?))
}

/// The lines of directives, each line once.
fn lines_of(
    alloc: Global,
    subject: Subject<'_>,
    directives: &[DirectiveId],
) -> Result<Vec<u8>, AllocError>
    ensures { IfOk result (λ text. text.items
        ≡ baseline_text (kept_kind subject.entry.language subject.entry.files.now) subject.entry.project.now directives.now) }
{
    let Subject {
        project,
        files,
        language,
        ..
    } = subject;
    let mut names = NameTable::new(alloc, files, language, project.count())?;
    let mut known = IndexSet::with_hasher(alloc, SeededState::new(project.seed()));
    let mut text = Vec::new(alloc);
    for directive in directives {
        let line = line_of(alloc, project, &mut names, *directive)?;
        put_once(&mut text, alloc, &mut known, &line)?;
    }
    Ok(text)
}

/// Adds a line, unless it is there.
fn put_once(
    text: &mut Vec<u8>,
    alloc: Global,
    known: &mut IndexSet<Key, SeededState>,
    line: &[u8],
) -> Result<(), AllocError>
    ensures known { OnOk result (known.new.keys ≡ with_path known.old.keys line.now) }
    ensures text { OnOk result (text.old.items ≡ concat known.old.keys → text.new.items ≡ concat known.new.keys) }
{
    let key = Key::copied(alloc, line)?;
    if known.insert(key)? {
        text.extend_from_slice(line)?;
    }
    Ok(())
}

/// The line of a directive.
fn line_of(
    alloc: Global,
    project: &Project<'_>,
    names: &mut NameTable<'_>,
    directive: DirectiveId,
) -> Result<Vec<u8>, AllocError>
    ensures line { IfOk result (λ line. line.items ≡ baseline_line (kept_kind names.old.language names.old.kept) project.now directive) }
    ensures same { names.new ≡ names.old }
{
    let mut line = Vec::new(alloc);
    put_led(&mut line, path_of(project, directive.file))?;
    line.push(b':')?;
    let named = names.line(alloc, directive)?;
    put_header(&mut line, named.kind())?;
    line.push(b'\n')?;
    Ok(line)
}

/// Adds a path that does not look like a comment.
fn put_led(line: &mut Vec<u8>, path: &[u8]) -> Result<(), AllocError>
    ensures { OnOk result (line.new.items ≡ line.old.items ++ led_path path.now) }
{
    if path.first() == Some(&b'#') {
        line.extend_from_slice(b"./")?;
    }
    line.extend_from_slice(path)?;
    Ok(())
}

/// Adds the name of a header, with its delimiters.
fn put_header(line: &mut Vec<u8>, kind: LineKind<'_>) -> Result<(), AllocError>
    ensures { OnOk result (line.new.items ≡ line.old.items ++ header_text (seen_kind kind.entry)) }
{
    match kind {
        LineKind::Include(_, Target::Quoted(name)) => put_between(line, b"\"", name, b"\""),
        LineKind::Include(_, Target::Angled(name)) => put_between(line, b"<", name, b">"),
        _ => Ok(()),
    }
}
