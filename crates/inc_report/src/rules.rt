//! Which rules are broken.
ghost use Rattle.std.specs.Prelude.{◌≡◌, ◌<◌, None, false, codes, flat_map, length, map, IfSome, IfErr};
ghost use Rattle.std.specs.List.{All, list_any};
ghost use Rattle.inc_lookup.specs.Given.{HoldsOfGiven};
ghost use Rattle.inc_lookup.specs.Projects.{path_at};
ghost use Rattle.inc_check.specs.Certificates.{marks_of};
ghost use Rattle.inc_check.specs.Texts.{line_text};
ghost use Rattle.inc_answers.specs.MarkTexts.{chains_text, list_text};
ghost use Rattle.inc_answers.specs.Questions.{FailsAt};
ghost use Rattle.inc_report.specs.RulesHeadline.{RulesHeadline};
ghost use Rattle.inc_report.specs.RulesText.{broken_text, judged_text, lacking_text, rules_kind, rules_text, IsRulesOf, IsRulesBy};
ghost use Rattle.inc_answers.specs.Sending.{Sends};
ghost use Rattle.inc_answers.specs.Strictness.{Strict, strays_of};
ghost use Rattle.inc_answers.specs.Writing.{Prints, Writes, is_of_certificate, unread_of};
ghost use Rattle.inc_rules.specs.Judging.{IsWithin, is_broken};
ghost use Rattle.inc_rules.specs.Views.{seen_judged, seen_rule};

use inc_answers::asked::Question;
use inc_answers::edges::send_list;
use inc_answers::lines::{send_count_line, send_line};
use inc_answers::outcome::{End, EndKind, RunFault, plain};
use inc_answers::output::Output;
use inc_answers::questions::{find_graph, refuse_question};
use inc_answers::strictness::{refuse_strays, strays_of};
use inc_answers::why::send_unresolved;
use inc_graph::{EdgeId, Graph};
use inc_lookup::{FileId, Project, Sources};
use inc_rules::{Judged, Rule, judge};
use inc_text::ByteSink;
use std::alloc::Global;

/// Writes how many rules there are, and each that is broken: the number of its line, then the chains that may not be there, by their
/// directives, and the files that do not include what they must; then what [`run_graph`](inc_answers::run_graph) writes after the edges. The
/// sources of the question are the files of the rules' left sides. Files are read when they are reached, each once. That a rule is broken
/// is a negative answer. All memory is taken before the first byte is written.
pub fn run_rules<'r, S: Sources, W: ByteSink>(
    alloc: Global,
    project: &Project<'_>,
    sources: &mut S,
    question: &Question<'_>,
    rules: &'r [Rule<'r>],
    w: W,
) -> (Result<End, RunFault>, W)
    requires { W.has_failed w ≡ false }
    ensures written { Writes (λ p. HoldsOfGiven S.gives sources.old sources.new project.now
        (IsRulesBy (map seen_rule rules.now) question.now p))
        (W.written w) (W.written result.1) (W.has_failed result.1) result.0 }
    // What rules that hold promise: no preprocessing of a source that a rule `must not reach` is about reads a file of its right side.
    ensures headline { Writes (λ p. HoldsOfGiven S.gives sources.old sources.new project.now
        (λ _ listing. RulesHeadline (map seen_rule rules.now) question.now p listing))
        (W.written w) (W.written result.1) (W.has_failed result.1) result.0 }
    ensures unread { IfErr result.0 (λ fault. IfSome (unread_of fault)
        (FailsAt S.gives sources.old sources.new project.now question.now)) }
    ensures certificate { IfErr result.0 (λ f. is_of_certificate f ≡ false) }
{
    let mut out = match Output::new(alloc, w) {
        Ok(out) => out,
        Err(w) => return (Err(RunFault::NoMemory), w),
    };
    let ended = tell(alloc, project, sources, question, rules, &mut out);
    out.finish(ended)
}

/// Sends which rules are broken by what the sources of a question include, or why there is no answer.
fn tell<'r, S: Sources, W: ByteSink>(
    alloc: Global,
    project: &Project<'_>,
    sources: &mut S,
    question: &Question<'_>,
    rules: &'r [Rule<'r>],
    out: &mut Output<W>,
) -> Result<End, RunFault>
    ensures sent { Prints (λ p. HoldsOfGiven S.gives sources.old sources.new project.now
        (IsRulesBy (map seen_rule rules.now) question.now p)) out.old out.new result }
    ensures unread { IfErr result (λ fault. IfSome (unread_of fault)
        (FailsAt S.gives sources.old sources.new project.now question.now)) }
    ensures certificate { IfErr result (λ f. is_of_certificate f ≡ false) }
{
    match find_graph(alloc, project, sources, question) {
        Ok(graph) => tell_strictly(alloc, project, question, &graph, rules, out),
        Err(cause) => refuse_question(alloc, project, question, cause, out),
    }
}

/// Sends which rules a graph breaks, or the refusal of directives whose header is not found.
fn tell_strictly<'r, W: ByteSink>(
    alloc: Global,
    project: &Project<'_>,
    question: &Question<'_>,
    graph: &Graph,
    rules: &'r [Rule<'r>],
    out: &mut Output<W>,
) -> Result<End, RunFault>
    requires files { graph.now.files ≡ length project.now.paths }
    ensures sent { Prints (Strict (strays_of question.now) (IsRulesOf (map seen_rule rules.now)) project.now graph.now) out.old out.new result }
    ensures read { IfErr result (λ f. unread_of f ≡ None) }
    ensures certificate { IfErr result (λ f. is_of_certificate f ≡ false) }
{
    let strays = strays_of(alloc, question, graph)?;
    if strays.is_empty() {
        return tell_graph(alloc, project, graph, rules, out);
    }
    refuse_strays(alloc, project, graph, &strays, out)
}

/// Sends which rules a graph breaks.
fn tell_graph<'r, W: ByteSink>(
    alloc: Global,
    project: &Project<'_>,
    graph: &Graph,
    rules: &'r [Rule<'r>],
    out: &mut Output<W>,
) -> Result<End, RunFault>
    requires { graph.now.files ≡ length project.now.paths }
    ensures sent { Prints (IsRulesOf (map seen_rule rules.now) project.now graph.now) out.old out.new result }
    ensures read { IfErr result (λ f. unread_of f ≡ None) }
    ensures certificate { IfErr result (λ f. is_of_certificate f ≡ false) }
{
    let judged = judge(alloc, project, graph, rules)?;
    send_rules(out, project, graph, &judged);
    Ok(plain(rules_kind(&judged)))
}

/// Sends how many rules there are, each that is broken, and what is not known of the graph.
pub(crate) fn send_rules<W: ByteSink>(
    out: &mut Output<W>,
    project: &Project<'_>,
    graph: &Graph,
    judged: &[Judged<'_>],
)
    requires files { graph.now.files ≡ length project.now.paths }
    requires within { All (λ j. IsWithin graph.now (seen_judged j)) judged.now }
    ensures { Sends out.old out.new (rules_text project.now graph.now (map seen_judged judged.now)) }
{
    send_count_line(out, b"rules", judged.len());
    send_judged(out, project, graph, judged);
    send_unresolved(out, project, graph);
}

/// How the call ends with these answers to rules.
pub(crate) fn rules_kind(judged: &[Judged<'_>]) -> EndKind
    ensures { result ≡ rules_kind (map seen_judged judged.now) }
{
    if is_any_broken(judged) {
        EndKind::Negative
    } else {
        EndKind::Answered
    }
}

/// Whether one of some rules is broken.
fn is_any_broken(judged: &[Judged<'_>]) -> bool
    ensures { result ≡ list_any (λ j. is_broken (seen_judged j)) judged.now }
{
    judged.iter().any(|rule| rule.is_broken())
}

/// Sends each of some rules that is broken.
fn send_judged<W: ByteSink>(
    out: &mut Output<W>,
    project: &Project<'_>,
    graph: &Graph,
    judged: &[Judged<'_>],
)
    requires files { graph.now.files ≡ length project.now.paths }
    requires within { All (λ j. IsWithin graph.now (seen_judged j)) judged.now }
    ensures { Sends out.old out.new (flat_map (λ j. judged_text project.now graph.now (seen_judged j)) judged.now) }
{
    for rule in judged {
        send_if_broken(out, project, graph, rule);
    }
}

/// Sends a rule if it is broken.
fn send_if_broken<W: ByteSink>(
    out: &mut Output<W>,
    project: &Project<'_>,
    graph: &Graph,
    judged: &Judged<'_>,
)
    requires files { graph.now.files ≡ length project.now.paths }
    requires within { IsWithin graph.now (seen_judged judged.now) }
    ensures { Sends out.old out.new (judged_text project.now graph.now (seen_judged judged.now)) }
{
    if judged.is_broken() {
        send_broken(out, project, graph, judged);
    }
}

/// Sends a rule that is broken.
fn send_broken<W: ByteSink>(
    out: &mut Output<W>,
    project: &Project<'_>,
    graph: &Graph,
    judged: &Judged<'_>,
)
    requires files { graph.now.files ≡ length project.now.paths }
    requires within { IsWithin graph.now (seen_judged judged.now) }
    ensures { Sends out.old out.new (broken_text project.now graph.now (seen_judged judged.now)) }
{
    send_count_line(out, b"broken", judged.rule.line);
    send_chains(out, project, graph, &judged.chains);
    send_files(out, project, &judged.files);
}

/// Sends how many chains there are, and each.
fn send_chains<W: ByteSink>(
    out: &mut Output<W>,
    project: &Project<'_>,
    graph: &Graph,
    chains: &[Vec<EdgeId>],
)
    requires files { graph.now.files ≡ length project.now.paths }
    requires chains { All (λ chain. All (λ i. i < length graph.now.edges) chain) (map (λ c. c.items) chains.now) }
    ensures { Sends out.old out.new (chains_text None (map (marks_of project.now graph.now) (map (λ c. c.items) chains.now))) }
{
    send_count_line(out, b"chains", chains.len());
    send_each_chain(out, project, graph, chains);
}

/// Sends each of some chains.
fn send_each_chain<W: ByteSink>(
    out: &mut Output<W>,
    project: &Project<'_>,
    graph: &Graph,
    chains: &[Vec<EdgeId>],
)
    requires files { graph.now.files ≡ length project.now.paths }
    requires chains { All (λ chain. All (λ i. i < length graph.now.edges) chain) (map (λ c. c.items) chains.now) }
    ensures { Sends out.old out.new (flat_map (λ c. list_text (codes "chain") (marks_of project.now graph.now c.items)) chains.now) }
{
    for chain in chains {
        send_list(out, b"chain", project, graph, chain);
    }
}

/// Sends how many files do not include what they must, and the path of each.
fn send_files<W: ByteSink>(out: &mut Output<W>, project: &Project<'_>, files: &[FileId])
    requires { All (λ f. f < length project.now.paths) files.now }
    ensures { Sends out.old out.new (lacking_text project.now files.now) }
{
    send_count_line(out, b"files", files.len());
    send_paths(out, project, files);
}

/// Sends the path of each of some files.
fn send_paths<W: ByteSink>(out: &mut Output<W>, project: &Project<'_>, files: &[FileId])
    requires { All (λ f. f < length project.now.paths) files.now }
    ensures { Sends out.old out.new (flat_map (λ f. line_text (path_at project.now f)) files.now) }
{
    for file in files {
        send_line(out, project.path(*file));
    }
}
