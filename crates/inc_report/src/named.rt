//! Answers in which directives stand as they are written, each with its file and line.
ghost use Rattle.std.specs.Prelude.{◌≡◌, ◌≢◌, ◌<◌, ◌≤◌, ℕ, Bool, List, [], None, false, length, map, replicate, IfOk, IfSome, IfErr};
ghost use Rattle.std.specs.List.{All};
ghost use Rattle.inc_lookup.specs.Given.{HoldsOfGiven};
ghost use Rattle.inc_graph.specs.Chains.{AreChainsByLast, IsShortestOrNone};
ghost use Rattle.inc_graph.specs.Cuts as cuts;
ghost use Rattle.inc_graph.specs.IncludeGraph.{IsSound};
ghost use Rattle.inc_graph.specs.MissingLists.{missing_at};
ghost use Rattle.inc_graph.specs.Reaching.{Reaching};
ghost use Rattle.inc_graph.specs.declared.fixing.FixedFault.TheVariants as fault;
ghost use Rattle.inc_answers.specs.CutDocument.{has_costs};
ghost use Rattle.inc_answers.specs.CutText.{IsHindrance};
ghost use Rattle.inc_answers.specs.DirectiveNames.{kept_kind, kept_name};
ghost use Rattle.inc_answers.specs.Documents.{AreGraphKept, document_text};
ghost use Rattle.inc_answers.specs.JsonAnswers.{about_subject, why_json};
ghost use Rattle.inc_answers.specs.JsonRefusals.{mark_items, refusal_json, refusal_object};
ghost use Rattle.inc_report.specs.NamedHeadline.{NamedHeadline};
ghost use Rattle.inc_report.specs.NamedText.{IsHinderedKept, IsInAnyFormat, IsNamedBy, IsNamedKept, IsReport, IsRuleReport, IsStrictKept, answer_lines, answer_text, blocked_as, rules_answer};
ghost use Rattle.inc_answers.specs.CommandNames.{command_name};
ghost use Rattle.inc_answers.specs.Printed.{Printed, refused_for};
ghost use Rattle.inc_answers.specs.Questions.{FailsAt, IsStopped, IsWithin, unread_by};
ghost use Rattle.inc_answers.specs.Refusals.{NotFound, refusal_for};
ghost use Rattle.inc_answers.specs.Strictness.{asked_strays_of, stray_reasons};
ghost use Rattle.inc_answers.specs.Terms.{is_whole};
ghost use Rattle.inc_answers.specs.Told.{Chains, Edges, FixedChain, Removed, Sources, chain_found, told_printed};
ghost use Rattle.inc_answers.specs.Views.{seen_refusal};
ghost use Rattle.inc_answers.specs.RuleViews.{seen_list};
ghost use Rattle.inc_rules.specs.Judging.{IsWithin as IsJudgedWithin};
ghost use Rattle.inc_rules.specs.Views.{seen_judged};
ghost use Rattle.inc_answers.specs.WhyText.{why_kind, why_notes};
ghost use Rattle.inc_answers.specs.Writing.{Prints, Writes, is_of_certificate, unread_of};

use crate::named_costs::{tell_costs, tell_trees};
use crate::rules::rules_kind;
use inc_answers::answer_notes::{definition_notes, empty_notes, unreached_notes};
use inc_answers::asked::{Asked, Details, Limits, Question, RuleList};
use inc_answers::cut_document::{ChainForm, cut_document, fixed_document};
use inc_answers::definition_places::definition_places;
use inc_answers::directive_names::NameTable;
use inc_answers::documents::Document;
use inc_answers::dot_text::{chains_dot, cut_dot, fixed_dot, graph_dot, rules_dot};
use inc_answers::graph_document::graph_document;
use inc_answers::json_answers::{cut_json, fixed_json, graph_json, who_json, why_json};
use inc_answers::json_refusals::{blocked_json, refusal_json, strays_json};
use inc_answers::kept_sources::KeptSources;
use inc_answers::limits::{Hindrance, amounts_of, refusal_of, send_blocked};
use inc_answers::mark_reasons::marks_reason;
use inc_answers::missing_notes::Notes;
use inc_answers::named_reasons::named_reasons;
use inc_answers::nearest_cuts::nearest_cut;
use inc_answers::outcome::{End, EndKind, RunFault, reached_kind};
use inc_answers::output::Output;
use inc_answers::questions::{NoGraph, find_graph, refusal_of_question};
use inc_answers::refusals::{Refusal, refuse_for};
use inc_answers::rules_document::rules_document;
use inc_answers::rules_json::rules_json;
use inc_answers::strictness::{open_strays_of, refuse_strays, stray_reasons, strays_of};
use inc_answers::subjects::{Subject, Told};
use inc_answers::who::{kind_of, notes_of};
use inc_answers::who_document::who_document;
use inc_answers::why_document::{reached_document, unreached_document};
use inc_cut::{CountedChains, CutAnswer};
use inc_graph::{Cost, EdgeId, Fixed, Graph, ShortestChains, SourceChains};
use inc_lookup::{Project, Sources};
use inc_rules::{Judged, judge};
use inc_text::ByteSink;
use std::alloc::{AllocError, Global};

/// How an answer is written in which directives stand as they are written.
#[derive(Clone, Copy, Debug, PartialEq, Eq)]
pub enum Format {
    /// In lines that editors and compilers know.
    Gcc,
    /// As an object of JSON, on one line.
    Json,
    /// As a graph that graphviz draws, with the edges of all chains and of the cut.
    Dot,
}

/// What is asked, how it is written and how much of it.
#[derive(Clone, Copy, Debug)]
pub struct NamedForm {
    pub asked: Asked,
    pub format: Format,
    /// Whether each chain is shown whole.
    pub all: bool,
    /// Whether the answer that a header is reached is negative.
    pub fails: bool,
    /// How many chains, and how many sources, stand in lines at most; all where no number is given. A cut and a shortest chain are whole.
    pub most: Option<usize>,
}

/// Writes an answer in which a directive stands with its file, its line and how it is written: as a line for each, with lines between
/// them that say what they are, or as an object of JSON. Chains that are shown whole go from a source to a header. Limits count of a cut
/// alone, rules where these are asked about, and how much is printed of costs.
///
/// The sources are given back with the sink. Each file is read once, as by [`run_why`](inc_answers::run_why), and its bytes are kept until the
/// call ends. All memory is taken before the first byte is written.
pub fn run_named<S: Sources, W: ByteSink>(
    alloc: Global,
    project: &Project<'_>,
    sources: S,
    question: &Question<'_>,
    details: &Details<'_>,
    form: NamedForm,
    w: W,
) -> (Result<End, RunFault>, S, W)
    requires { W.has_failed w ≡ false }
    ensures written { Writes (λ p. HoldsOfGiven S.gives sources result.1 project.now
        (IsNamedBy form question.now details.now p))
        (W.written w) (W.written result.2) (W.has_failed result.2) result.0 }
    // What a cut promises, with the directives of it and those of `without` removed: no preprocessing of a source reads a header,
    // and nothing cheaper separates. And what rules that hold promise.
    ensures headline { Writes (λ p. HoldsOfGiven S.gives sources result.1 project.now
        (λ _ listing. NamedHeadline form question.now details.now p listing))
        (W.written w) (W.written result.2) (W.has_failed result.2) result.0 }
    ensures unread { IfErr result.0 (λ fault. IfSome (unread_of fault)
        (FailsAt S.gives sources result.1 project.now question.now)) }
    ensures certificate { IfErr result.0 (λ f. is_of_certificate f ≡ false) }
{
    let mut out = match Output::small(alloc, w) {
        Ok(out) => out,
        Err(w) => return (Err(RunFault::NoMemory), sources, w),
    };
    let mut kept = match KeptSources::new(alloc, sources, project.count()) {
        Ok(kept) => kept,
        Err(sources) => return (Err(RunFault::NoMemory), sources, out.into_sink()),
    };
    let ended = answer(alloc, project, &mut kept, question, details, form, &mut out);
    let (result, w) = out.finish(ended);
    (result, kept.into_sources(), w)
}

/// Sends the answer to a question, or why there is none.
fn answer<S: Sources, W: ByteSink>(
    alloc: Global,
    project: &Project<'_>,
    kept: &mut KeptSources<S>,
    question: &Question<'_>,
    details: &Details<'_>,
    form: NamedForm,
    out: &mut Output<W>,
) -> Result<End, RunFault>
    requires { kept.old.files ≡ replicate (length project.now.paths) None }
    ensures sent { Prints (λ p. HoldsOfGiven S.gives kept.old.sources kept.new.sources project.now
        (IsNamedBy form question.now details.now p)) out.old out.new result }
    ensures unread { IfErr result (λ fault. IfSome (unread_of fault)
        (FailsAt S.gives kept.old.sources kept.new.sources project.now question.now)) }
    ensures certificate { IfErr result (λ f. is_of_certificate f ≡ false) }
{
    match find_graph(alloc, project, kept, question) {
        Ok(graph) => {
            let files = &kept.files;
            let subject = Subject {
                project: &*project,
                graph: &graph,
                files,
                language: question.language,
            };
            answer_strictly(alloc, subject, question, details, form, out)
        }
        Err(cause) => refuse(alloc, project, question, cause, form, out),
    }
}

/// Sends why a question has no graph.
pub(crate) fn refuse<W: ByteSink>(
    alloc: Global,
    project: &Project<'_>,
    question: &Question<'_>,
    cause: NoGraph,
    form: NamedForm,
    out: &mut Output<W>,
) -> Result<End, RunFault>
    requires { IsWithin (length project.now.paths) cause }
    ensures sent { Prints (λ p. (plain : Printed) × IsStopped project.now question.now cause plain
        × IsInAnyFormat form plain p) out.old out.new result }
    ensures unread { IfErr result (λ f. IfSome (unread_of f) (λ r. unread_by cause ≡ Some r)) }
    ensures certificate { IfErr result (λ f. is_of_certificate f ≡ false) }
{
    let (refusal, reason) = refusal_of_question(alloc, project, question, cause)?;
    refuse_in(alloc, form, refusal, reason, out)
}

/// Sends a refusal in this format, and a reason beside it.
fn refuse_in<W: ByteSink>(
    alloc: Global,
    form: NamedForm,
    refusal: Refusal<'_>,
    reason: Notes,
    out: &mut Output<W>,
) -> Result<End, RunFault>
    ensures sent { Prints (IsInAnyFormat form (refusal_for reason (seen_refusal refusal.entry))) out.old out.new result }
    ensures fault { IfErr result (λ f. f ≡ RunFault.NoMemory) }
{
    match form.format {
        Format::Gcc | Format::Dot => Ok(refuse_for(out, refusal, reason)),
        Format::Json => Ok(refusal_report(alloc, form.asked, refusal, reason)?.send(out)),
    }
}

/// A refusal as an object of JSON, with a reason beside it.
fn refusal_report(
    alloc: Global,
    asked: Asked,
    refusal: Refusal<'_>,
    reason: Notes,
) -> Result<Told, AllocError>
    ensures { IfOk result (λ report. told_printed report ≡ refused_for reason
        (refusal_object (command_name asked) (seen_refusal refusal.entry) (mark_items (seen_refusal refusal.entry)))) }
{
    Ok(Told {
        text: refusal_json(alloc, asked.name(), refusal)?,
        kind: EndKind::Refused,
        notes: reason,
    })
}

/// Sends the answer of a graph, or the refusal of directives whose header is not found.
fn answer_strictly<W: ByteSink>(
    alloc: Global,
    subject: Subject<'_>,
    question: &Question<'_>,
    details: &Details<'_>,
    form: NamedForm,
    out: &mut Output<W>,
) -> Result<End, RunFault>
    requires files { subject.graph.now.files ≡ length subject.project.now.paths }
    requires sound { IsSound subject.graph.now }
    requires kept { AreGraphKept subject.graph.now subject.files.now }
    ensures sent { Prints (IsStrictKept form question.now details.now subject.entry) out.old out.new result }
    ensures read { IfErr result (λ f. unread_of f ≡ None) }
    ensures certificate { IfErr result (λ f. is_of_certificate f ≡ false) }
{
    let strays = asked_strays_of(alloc, form.asked, question, subject.graph)?;
    if strays.is_empty() {
        return answer_graph(alloc, subject, question, details, form, out);
    }
    match form.format {
        Format::Gcc | Format::Dot => {
            refuse_strays(alloc, subject.project, subject.graph, &strays, out)
        }
        Format::Json => Ok(strays_report(alloc, subject, &strays, form.asked)?.send(out)),
    }
}

/// The directives of a graph that refuse the answer to what is asked, by their places among those whose header is not found.
fn asked_strays_of(
    alloc: Global,
    asked: Asked,
    question: &Question<'_>,
    graph: &Graph,
) -> Result<Vec<usize>, RunFault>
    ensures strays { IfOk result (λ places. map (missing_at graph.now.missing) places.items ≡ asked_strays_of asked question.now graph.now) }
    ensures within { IfOk result (λ places. All (λ i. i < length graph.now.missing) places.items) }
    ensures fault { IfErr result (λ f. f ≡ RunFault.NoMemory) }
{
    match asked {
        Asked::Cut => open_strays_of(alloc, question, graph),
        _ => strays_of(alloc, question, graph),
    }
}

/// The refusal by these directives, as an object of JSON.
pub(crate) fn strays_report(
    alloc: Global,
    subject: Subject<'_>,
    strays: &[usize],
    asked: Asked,
) -> Result<Told, AllocError>
    requires files { subject.graph.now.files ≡ length subject.project.now.paths }
    requires within { All (λ i. i < length subject.graph.now.missing) strays.now }
    ensures { IfOk result (λ report. told_printed report
        ≡ refused_for (stray_reasons subject.entry.project.now (map (missing_at subject.entry.graph.now.missing) strays.now))
        (refusal_json (command_name asked) (kept_kind subject.entry.language subject.entry.files.now)
        (NotFound subject.entry.project.now (map (missing_at subject.entry.graph.now.missing) strays.now)))) }
{
    Ok(Told {
        text: strays_json(alloc, subject, asked.name(), strays)?,
        kind: EndKind::Refused,
        notes: stray_reasons(alloc, subject.project, subject.graph, strays)?,
    })
}

/// Sends the answer of a graph.
fn answer_graph<W: ByteSink>(
    alloc: Global,
    subject: Subject<'_>,
    question: &Question<'_>,
    details: &Details<'_>,
    form: NamedForm,
    out: &mut Output<W>,
) -> Result<End, RunFault>
    requires files { subject.graph.now.files ≡ length subject.project.now.paths }
    requires sound { IsSound subject.graph.now }
    requires kept { AreGraphKept subject.graph.now subject.files.now }
    ensures sent { Prints (IsNamedKept form question.now details.now subject.entry) out.old out.new result }
    ensures read { IfErr result (λ f. unread_of f ≡ None) }
    ensures certificate { IfErr result (λ f. is_of_certificate f ≡ false) }
{
    match form.asked {
        Asked::Why => Ok(explain(alloc, subject, question, form)?.send(out)),
        Asked::Who => Ok(tell(alloc, subject, question, form)?.send(out)),
        Asked::Graph => Ok(list(alloc, subject, form)?.send(out)),
        Asked::Cut => separate(alloc, subject, question, details, form, out),
        Asked::Rules => Ok(rule(alloc, subject, details.rules, form)?.send(out)),
        Asked::Cost => Ok(tell_costs(alloc, subject, details.costs, form)?.send(out)),
        Asked::Tree => Ok(tell_trees(alloc, subject, form)?.send(out)),
    }
}

/// How a header reaches a source.
fn explain(
    alloc: Global,
    subject: Subject<'_>,
    question: &Question<'_>,
    form: NamedForm,
) -> Result<Told, AllocError>
    requires { subject.graph.now.files ≡ length subject.project.now.paths }
    ensures { IfOk result (λ report. IsReport (is_whole question.now) Asked.Why form false (about_subject subject.entry) []
        (told_printed report)) }
{
    let mut chains = ShortestChains::new(alloc, subject.graph)?;
    let found = chains.find_shortest();
    let notes = notes_if(alloc, subject, question, found)?;
    Ok(Told {
        text: why_text(alloc, subject, found, &mut chains, form)?,
        kind: kind_if(found, form.fails),
        notes,
    })
}

/// The notes beside the answer that a chain is found, or that none is.
fn notes_if(
    alloc: Global,
    subject: Subject<'_>,
    question: &Question<'_>,
    found: bool,
) -> Result<Notes, AllocError>
    requires { subject.graph.now.files ≡ length subject.project.now.paths }
    ensures { IfOk result (λ notes. (chain : List ℕ) → notes
        ≡ why_notes (is_whole question.now) subject.entry.project.now subject.entry.graph.now (chain_found found chain)) }
{
    if found {
        return definition_notes(alloc, subject.project, subject.graph);
    }
    unreached_notes(alloc, subject.project, question, subject.graph)
}

/// How the call ends with the answer that a chain is found, or that none is.
fn kind_if(found: bool, fails: bool) -> EndKind
    ensures { (chain : List ℕ) → result ≡ why_kind fails (chain_found found chain) }
{
    if found {
        return reached_kind(fails);
    }
    EndKind::Answered
}

/// The text of the chain that is made, if one is found, and of the chains that are left.
fn why_text(
    alloc: Global,
    subject: Subject<'_>,
    found: bool,
    chains: &mut ShortestChains<'_>,
    form: NamedForm,
) -> Result<Vec<u8>, AllocError>
    requires files { subject.graph.now.files ≡ length subject.project.now.paths }
    requires graph { chains.old.graph ≡ subject.graph.now }
    requires shortest { IsShortestOrNone subject.graph.now (chain_found found chains.old.chain) }
    requires chains { AreChainsByLast subject.graph.now 0 chains.old.left }
    ensures { IfOk result (λ text. text.items ≡ answer_text form false [] (about_subject subject.entry)
        (Chains (chain_found found chains.old.chain) chains.old.left)) }
{
    match form.format {
        Format::Gcc => why_lines(alloc, subject, found, chains, form),
        Format::Json => why_object(alloc, subject, found, chains, form.fails),
        Format::Dot => chains_dot(alloc, subject, chains),
    }
}

/// The same as lines.
fn why_lines(
    alloc: Global,
    subject: Subject<'_>,
    found: bool,
    chains: &mut ShortestChains<'_>,
    form: NamedForm,
) -> Result<Vec<u8>, AllocError>
    requires graph { chains.old.graph ≡ subject.graph.now }
    requires shortest { IsShortestOrNone subject.graph.now (chain_found found chains.old.chain) }
    requires chains { AreChainsByLast subject.graph.now 0 chains.old.left }
    ensures { IfOk result (λ text. text.items ≡ answer_lines form.all false form.most (about_subject subject.entry)
        (Chains (chain_found found chains.old.chain) chains.old.left)) }
{
    let Subject { project, graph, .. } = subject;
    let NamedForm { all, most, .. } = form;
    if found {
        let document = reached_document(alloc, project, graph, chains, all, most)?;
        return lines_of(alloc, subject, &document);
    }
    let document = unreached_document(alloc, project, graph, all)?;
    lines_of(alloc, subject, &document)
}

/// The same as an object.
fn why_object(
    alloc: Global,
    subject: Subject<'_>,
    found: bool,
    chains: &mut ShortestChains<'_>,
    fails: bool,
) -> Result<Vec<u8>, AllocError>
    ensures { IfOk result (λ text. text.items
        ≡ why_json (why_kind fails (chain_found found chains.old.chain)) (about_subject subject.entry)
        (chain_found found chains.old.chain) chains.old.left) }
{
    if !found {
        return why_json(alloc, subject, EndKind::Answered, None, chains);
    }
    let shortest = Vec::from_slice(alloc, chains.edges())?;
    let kind = reached_kind(fails);
    why_json(alloc, subject, kind, Some(&shortest), chains)
}

/// Which sources reach a header.
fn tell(
    alloc: Global,
    subject: Subject<'_>,
    question: &Question<'_>,
    form: NamedForm,
) -> Result<Told, AllocError>
    requires { subject.graph.now.files ≡ length subject.project.now.paths }
    ensures { IfOk result (λ report. IsReport (is_whole question.now) Asked.Who form false (about_subject subject.entry) []
        (told_printed report)) }
{
    let mut reaching = SourceChains::new(alloc, subject.graph)?;
    let mut chains = ShortestChains::new(alloc, subject.graph)?;
    let notes = notes_of(alloc, subject.project, question, subject.graph, &reaching)?;
    let kind = kind_of(&reaching, form.fails);
    Ok(Told {
        text: who_text(alloc, subject, &mut reaching, &mut chains, form)?,
        kind,
        notes,
    })
}

/// The text of the sources and the chains that are left.
fn who_text(
    alloc: Global,
    subject: Subject<'_>,
    reaching: &mut SourceChains<'_>,
    chains: &mut ShortestChains<'_>,
    form: NamedForm,
) -> Result<Vec<u8>, AllocError>
    requires files { subject.graph.now.files ≡ length subject.project.now.paths }
    requires graph { reaching.old.graph ≡ subject.graph.now }
    requires edges { All (λ (r : Reaching). All (λ i. i < length subject.graph.now.edges) r.chain) reaching.old.left }
    requires chains { All (λ chain. All (λ i. i < length subject.graph.now.edges) chain) chains.old.left }
    ensures { IfOk result (λ text. text.items ≡ answer_text form false [] (about_subject subject.entry)
        (Sources reaching.old.left chains.old.left)) }
{
    let NamedForm { all, most, .. } = form;
    match form.format {
        Format::Gcc => {
            let Subject { project, graph, .. } = subject;
            let document = who_document(alloc, project, graph, reaching, chains, all, most)?;
            lines_of(alloc, subject, &document)
        }
        Format::Json => {
            let kind = kind_of(reaching, form.fails);
            who_json(alloc, subject, kind, reaching, chains, all)
        }
        Format::Dot => chains_dot(alloc, subject, chains),
    }
}

/// Which edges the sources reach.
fn list(alloc: Global, subject: Subject<'_>, form: NamedForm) -> Result<Told, AllocError>
    requires { subject.graph.now.files ≡ length subject.project.now.paths }
    ensures { IfOk result (λ report. (whole : Bool) → IsReport whole Asked.Graph form false (about_subject subject.entry) []
        (told_printed report)) }
{
    Ok(Told {
        text: graph_text(alloc, subject, form)?,
        kind: EndKind::Answered,
        notes: definition_notes(alloc, subject.project, subject.graph)?,
    })
}

/// The text of all edges.
fn graph_text(alloc: Global, subject: Subject<'_>, form: NamedForm) -> Result<Vec<u8>, AllocError>
    requires { subject.graph.now.files ≡ length subject.project.now.paths }
    ensures { IfOk result (λ text. text.items ≡ answer_text form false [] (about_subject subject.entry) Edges) }
{
    match form.format {
        Format::Gcc => {
            let document = graph_document(alloc, subject.project, subject.graph)?;
            lines_of(alloc, subject, &document)
        }
        Format::Json => graph_json(alloc, subject),
        Format::Dot => graph_dot(alloc, subject),
    }
}

/// The lines of a document.
pub(crate) fn lines_of(
    alloc: Global,
    subject: Subject<'_>,
    document: &Document,
) -> Result<Vec<u8>, AllocError>
    ensures { IfOk result (λ text. text.items ≡ document_text
        (kept_name subject.entry.language subject.entry.files.now) subject.entry.project.now document.now) }
{
    document.text(alloc, subject.project, subject.files, subject.language)
}

/// Which rules are broken.
fn rule(
    alloc: Global,
    subject: Subject<'_>,
    list: RuleList<'_>,
    form: NamedForm,
) -> Result<Told, AllocError>
    requires { subject.graph.now.files ≡ length subject.project.now.paths }
    ensures { IfOk result (λ report. IsRuleReport form (seen_list list.entry) (about_subject subject.entry) (told_printed report)) }
{
    let judged = judge(alloc, subject.project, subject.graph, list.rules)?;
    Ok(Told {
        text: rules_text(alloc, subject, list.name.as_bytes(), &judged, form.format)?,
        kind: rules_kind(&judged),
        notes: Notes::none(),
    })
}

/// The text of rules of a list with this name.
pub(crate) fn rules_text(
    alloc: Global,
    subject: Subject<'_>,
    name: &[u8],
    judged: &[Judged<'_>],
    format: Format,
) -> Result<Vec<u8>, AllocError>
    requires files { subject.graph.now.files ≡ length subject.project.now.paths }
    requires within { All (λ j. IsJudgedWithin subject.graph.now (seen_judged j)) judged.now }
    ensures { IfOk result (λ text. text.items ≡ rules_answer format name.now (about_subject subject.entry) (map seen_judged judged.now)) }
{
    match format {
        Format::Gcc => {
            let document = rules_document(alloc, subject.project, subject.graph, name, judged)?;
            lines_of(alloc, subject, &document)
        }
        Format::Json => rules_json(alloc, subject, rules_kind(judged), name, judged),
        Format::Dot => rules_dot(alloc, subject, judged),
    }
}

/// Sends the smallest cut of a graph, or what hinders it.
fn separate<W: ByteSink>(
    alloc: Global,
    subject: Subject<'_>,
    question: &Question<'_>,
    details: &Details<'_>,
    form: NamedForm,
    out: &mut Output<W>,
) -> Result<End, RunFault>
    requires asked { form.asked ≡ Asked.Cut }
    requires files { subject.graph.now.files ≡ length subject.project.now.paths }
    requires sound { IsSound subject.graph.now }
    requires kept { AreGraphKept subject.graph.now subject.files.now }
    ensures sent { Prints (IsNamedKept form question.now details.now subject.entry) out.old out.new result }
    ensures read { IfErr result (λ f. unread_of f ≡ None) }
    ensures certificate { IfErr result (λ f. is_of_certificate f ≡ false) }
{
    let Subject { project, graph, .. } = subject;
    let limits = details.limits;
    match amounts_of(alloc, project, graph, limits) {
        Ok(fixed) => {
            let costed = has_costs(limits.costs);
            Ok(smallest(alloc, subject, &fixed, costed, form)?.send(out))
        }
        Err(cause) => refuse_cut(alloc, subject, question, limits, cause, form, out),
    }
}

/// Sends what hinders a cut.
fn refuse_cut<W: ByteSink>(
    alloc: Global,
    subject: Subject<'_>,
    question: &Question<'_>,
    limits: &Limits<'_>,
    cause: Hindrance,
    form: NamedForm,
    out: &mut Output<W>,
) -> Result<End, RunFault>
    requires files { subject.graph.now.files ≡ length subject.project.now.paths }
    requires kept { AreGraphKept subject.graph.now subject.files.now }
    requires hindered { cause ≢ Hindrance.Marks fault.NoMemory →
        IsHindrance subject.project.now subject.graph.now limits.now cause }
    ensures sent { Prints (IsHinderedKept form question.now limits.now subject.entry) out.old out.new result }
    ensures fault { IfErr result (λ f. f ≡ RunFault.NoMemory) }
{
    match cause {
        Hindrance::Blocked => refuse_blocked(alloc, subject, question, form, out),
        Hindrance::Marks(fault) => match refusal_of(fault, limits) {
            Some(refusal) => {
                let Subject { project, graph, .. } = subject;
                let reason = marks_reason(alloc, project, graph, limits, fault)?;
                refuse_in(alloc, form, refusal, reason, out)
            }
            None => Err(RunFault::NoMemory),
        },
    }
}

/// Sends the refusal of a cut by blockers, and beside it how their directives are written.
fn refuse_blocked<W: ByteSink>(
    alloc: Global,
    subject: Subject<'_>,
    question: &Question<'_>,
    form: NamedForm,
    out: &mut Output<W>,
) -> Result<End, RunFault>
    requires { subject.graph.now.files ≡ length subject.project.now.paths }
    ensures sent { Prints (λ p. p ≡ blocked_as form question.now subject.entry) out.old out.new result }
    ensures fault { IfErr result (λ f. f ≡ RunFault.NoMemory) }
{
    let Subject {
        project,
        graph,
        files,
        language,
    } = subject;
    let blockers = graph.blockers();
    let mut names = NameTable::new(alloc, files, language, project.count())?;
    let undefined = question.undefined;
    let places = definition_places(alloc, project, files, language, undefined)?;
    let reasons = named_reasons(alloc, project, question, &places, &mut names, blockers)?;
    match form.format {
        Format::Gcc | Format::Dot => Ok(send_blocked(project, blockers, reasons, out)),
        Format::Json => {
            let text = blocked_json(alloc, subject, names, form.asked.name())?;
            let kind = EndKind::Refused;
            let notes = reasons;
            Ok(Told { text, kind, notes }.send(out))
        }
    }
}

/// Whether some costs are given.
fn has_costs(costs: &[Cost<'_>]) -> bool
    ensures { result ≡ has_costs costs.now }
{
    match costs {
        [] => false,
        _ => true,
    }
}

/// The smallest cut of a graph whose edges have these amounts.
fn smallest(
    alloc: Global,
    subject: Subject<'_>,
    fixed: &Fixed,
    costed: bool,
    form: NamedForm,
) -> Result<Told, AllocError>
    requires files { subject.graph.now.files ≡ length subject.project.now.paths }
    requires sound { IsSound subject.graph.now }
    requires fixed { length fixed.now ≡ length subject.graph.now.edges }
    ensures { IfOk result (λ report. (whole : Bool) → IsReport whole Asked.Cut form costed (about_subject subject.entry) fixed.now
        (told_printed report)) }
{
    let Subject { project, graph, .. } = subject;
    let answer = &nearest_cut(alloc, graph, fixed)?;
    let notes = empty_notes(alloc, project, graph)?;
    match answer {
        CutAnswer::Cut { edges, chains } => {
            let text = cut_text(alloc, subject, edges, chains, fixed, costed, form)?;
            let kind = EndKind::Answered;
            Ok(Told { text, kind, notes })
        }
        CutAnswer::Fixed { chain } => {
            let text = fixed_text(alloc, subject, chain.edges.as_slice(), fixed, costed, form)?;
            let kind = EndKind::Negative;
            Ok(Told { text, kind, notes })
        }
    }
}

/// The text of a cut and its chains.
fn cut_text(
    alloc: Global,
    subject: Subject<'_>,
    cut: &[EdgeId],
    chains: &CountedChains,
    fixed: &Fixed,
    costed: bool,
    form: NamedForm,
) -> Result<Vec<u8>, AllocError>
    requires files { subject.graph.now.files ≡ length subject.project.now.paths }
    requires fixed { length fixed.now ≡ length subject.graph.now.edges }
    requires cut { All (λ i. i < length subject.graph.now.edges) cut.now }
    requires chains { All (λ (c : cuts.Counted). All (λ i. i < length subject.graph.now.edges) c.chain) chains.now }
    requires few { length chains.now ≤ 4_294_967_295 }
    ensures { IfOk result (λ text. text.items ≡ answer_text form costed fixed.now (about_subject subject.entry)
        (Removed cut.now chains.now)) }
{
    match form.format {
        Format::Gcc => {
            let Subject { project, graph, .. } = subject;
            let NamedForm { all, most, .. } = form;
            let lines = ChainForm { all, most, costed };
            let document = cut_document(alloc, project, graph, cut, chains, lines)?;
            lines_of(alloc, subject, &document)
        }
        Format::Json => cut_json(alloc, subject, cut, chains),
        Format::Dot => cut_dot(alloc, subject, cut, chains, fixed),
    }
}

/// The text of a chain of fixed edges.
fn fixed_text(
    alloc: Global,
    subject: Subject<'_>,
    chain: &[EdgeId],
    fixed: &Fixed,
    costed: bool,
    form: NamedForm,
) -> Result<Vec<u8>, AllocError>
    requires files { subject.graph.now.files ≡ length subject.project.now.paths }
    requires fixed { length fixed.now ≡ length subject.graph.now.edges }
    requires chain { All (λ i. i < length subject.graph.now.edges) chain.now }
    ensures { IfOk result (λ text. text.items ≡ answer_text form costed fixed.now (about_subject subject.entry)
        (FixedChain chain.now)) }
{
    match form.format {
        Format::Gcc => {
            let document = fixed_document(alloc, subject.project, subject.graph, chain)?;
            lines_of(alloc, subject, &document)
        }
        Format::Json => fixed_json(alloc, subject, chain),
        Format::Dot => fixed_dot(alloc, subject, chain, fixed),
    }
}
