//! What `rules` answers, as SARIF 2.1.0.
ghost use Rattle.std.specs.Prelude.{◌≡◌, ◌<◌, ◌++◌, [], None, codes, drop, false, flat_map, length, map, option_map, IfOk, IfSome, IfErr, OnOk};
ghost use Rattle.std.specs.Option.{option_map_or};
ghost use Rattle.inc_graph.specs.Views.{seen_edge};
ghost use Rattle.inc_lookup.specs.Given.{HoldsOfGiven};
ghost use Rattle.inc_lookup.specs.Projects.{path_at};
ghost use Rattle.inc_answers.specs.JsonTexts.{comma_at, list_of};
ghost use Rattle.inc_answers.specs.Questions.{FailsAt};
ghost use Rattle.inc_answers.specs.RuleViews.{seen_list};
ghost use Rattle.inc_report.specs.SarifViews.{seen_listed};
ghost use Rattle.inc_report.specs.RulesHeadline.{SarifHeadline};
ghost use Rattle.inc_report.specs.RulesSarif.{capital_digit, chain_result, chain_words, edge_in, edge_place, file_place, file_result, file_words, first_path, first_place, id_text, is_plain, last_path, line_place, message_text, place_start, results_from, rule_item, rule_results, rule_words, sarif_text, step_item, steps_text, uri_byte, uri_text, IsSarifBy, IsSarifOf};
ghost use Rattle.inc_answers.specs.Strictness.{Strict, strays_of};
ghost use Rattle.inc_answers.specs.Told.{told_printed};
ghost use Rattle.inc_answers.specs.Writing.{Prints, Writes, is_of_certificate, unread_of};
ghost use Rattle.inc_rules.specs.Views.{seen_judged, seen_rule};

use crate::rules::rules_kind;
use inc_answers::asked::{Question, RuleList};
use inc_answers::json_parts::edge_of;
use inc_answers::json_texts::put_string;
use inc_answers::missing_notes::{Notes, put_number, put_shown};
use inc_answers::outcome::{End, RunFault};
use inc_answers::output::Output;
use inc_answers::questions::{find_graph, refuse_question};
use inc_answers::strictness::{refuse_strays, strays_of};
use inc_answers::subjects::Told;
use inc_graph::{Edge, EdgeId, Graph};
use inc_lookup::{FileId, Project, Sources};
use inc_rules::{Judged, Rule, joined, judge};
use inc_text::ByteSink;
use std::alloc::{AllocError, Global};

/// A rule of a list with this name, and its place among the rules.
#[derive(Clone, Copy)]
struct Listed<'r> {
    name: &'r [u8],
    place: usize,
    rule: &'r Rule<'r>,
}

/// Writes which rules are broken as [`run_rules`](crate::run_rules) finds them, as an object of SARIF 2.1.0 on one line: each rule of the list,
/// and a result for each chain that may not be there and for each file that does not include what it must. A refusal is written as
/// [`run_rules`](crate::run_rules) writes it. All memory is taken before the first byte is written.
pub fn run_sarif<S: Sources, W: ByteSink>(
    alloc: Global,
    project: &Project<'_>,
    sources: &mut S,
    question: &Question<'_>,
    list: RuleList<'_>,
    w: W,
) -> (Result<End, RunFault>, W)
    requires { W.has_failed w ≡ false }
    ensures written { Writes (λ p. HoldsOfGiven S.gives sources.old sources.new project.now
        (IsSarifBy (seen_list list.entry) question.now p))
        (W.written w) (W.written result.1) (W.has_failed result.1) result.0 }
    // What rules that hold promise: no preprocessing of a source that a rule `must not reach` is about reads a file of its right side.
    ensures headline { Writes (λ p. HoldsOfGiven S.gives sources.old sources.new project.now
        (λ _ listing. SarifHeadline (seen_list list.entry) question.now p listing))
        (W.written w) (W.written result.1) (W.has_failed result.1) result.0 }
    ensures unread { IfErr result.0 (λ fault. IfSome (unread_of fault)
        (FailsAt S.gives sources.old sources.new project.now question.now)) }
    ensures certificate { IfErr result.0 (λ f. is_of_certificate f ≡ false) }
{
    let mut out = match Output::small(alloc, w) {
        Ok(out) => out,
        Err(w) => return (Err(RunFault::NoMemory), w),
    };
    let ended = tell(alloc, project, sources, question, list, &mut out);
    out.finish(ended)
}

/// Sends which rules are broken by what the sources of a question include, or why there is no answer.
fn tell<S: Sources, W: ByteSink>(
    alloc: Global,
    project: &Project<'_>,
    sources: &mut S,
    question: &Question<'_>,
    list: RuleList<'_>,
    out: &mut Output<W>,
) -> Result<End, RunFault>
    ensures sent { Prints (λ p. HoldsOfGiven S.gives sources.old sources.new project.now
        (IsSarifBy (seen_list list.entry) question.now p)) out.old out.new result }
    ensures unread { IfErr result (λ fault. IfSome (unread_of fault)
        (FailsAt S.gives sources.old sources.new project.now question.now)) }
    ensures certificate { IfErr result (λ f. is_of_certificate f ≡ false) }
{
    match find_graph(alloc, project, sources, question) {
        Ok(graph) => tell_strictly(alloc, project, question, &graph, list, out),
        Err(cause) => refuse_question(alloc, project, question, cause, out),
    }
}

/// Sends which rules a graph breaks, or the refusal of directives whose header is not found.
fn tell_strictly<W: ByteSink>(
    alloc: Global,
    project: &Project<'_>,
    question: &Question<'_>,
    graph: &Graph,
    list: RuleList<'_>,
    out: &mut Output<W>,
) -> Result<End, RunFault>
    requires files { graph.now.files ≡ length project.now.paths }
    ensures sent { Prints (Strict (strays_of question.now) (IsSarifOf (seen_list list.entry)) project.now graph.now) out.old out.new result }
    ensures read { IfErr result (λ f. unread_of f ≡ None) }
    ensures certificate { IfErr result (λ f. is_of_certificate f ≡ false) }
{
    let strays = strays_of(alloc, question, graph)?;
    if strays.is_empty() {
        return tell_graph(alloc, project, graph, list, out);
    }
    refuse_strays(alloc, project, graph, &strays, out)
}

/// Sends which rules a graph breaks.
fn tell_graph<W: ByteSink>(
    alloc: Global,
    project: &Project<'_>,
    graph: &Graph,
    list: RuleList<'_>,
    out: &mut Output<W>,
) -> Result<End, RunFault>
    requires { graph.now.files ≡ length project.now.paths }
    ensures sent { Prints (IsSarifOf (seen_list list.entry) project.now graph.now) out.old out.new result }
    ensures read { IfErr result (λ f. unread_of f ≡ None) }
    ensures certificate { IfErr result (λ f. is_of_certificate f ≡ false) }
{
    Ok(report(alloc, project, graph, list)?.send(out))
}

/// Which rules a graph breaks.
fn report(
    alloc: Global,
    project: &Project<'_>,
    graph: &Graph,
    list: RuleList<'_>,
) -> Result<Told, AllocError>
    requires { graph.now.files ≡ length project.now.paths }
    ensures { IfOk result (λ report. IsSarifOf (seen_list list.entry) project.now graph.now (told_printed report)) }
{
    let judged = judge(alloc, project, graph, list.rules)?;
    Ok(Told {
        text: sarif_text(alloc, project, graph, list.name.as_bytes(), &judged)?,
        kind: rules_kind(&judged),
        notes: Notes::none(),
    })
}

/// Rules of a list with this name, and what breaks them, as an object.
fn sarif_text(
    alloc: Global,
    project: &Project<'_>,
    graph: &Graph,
    name: &[u8],
    judged: &[Judged<'_>],
) -> Result<Vec<u8>, AllocError>
    ensures { IfOk result (λ text. text.items ≡ sarif_text name.now project.now graph.now (map seen_judged judged.now)) }
{
    let mut text = Vec::new(alloc);
    text.extend_from_slice(b"{\"$schema\":\"https://json.schemastore.org/sarif-2.1.0.json\",")?;
    text.extend_from_slice(b"\"runs\":[{\"results\":")?;
    put_results(&mut text, alloc, project, graph, name, judged)?;
    text.extend_from_slice(b",\"tool\":{\"driver\":{\"name\":\"incut\",\"rules\":")?;
    put_rules(&mut text, alloc, name, judged)?;
    text.extend_from_slice(b"}}}],\"version\":\"2.1.0\"}\n")?;
    Ok(text)
}

/// Adds the results of rules, as a list.
fn put_results(
    text: &mut Vec<u8>,
    alloc: Global,
    project: &Project<'_>,
    graph: &Graph,
    name: &[u8],
    judged: &[Judged<'_>],
) -> Result<(), AllocError>
    ensures { OnOk result (text.new.items ≡ text.old.items
        ++ list_of (results_from project.now graph.now name.now 0 (map seen_judged judged.now))) }
{
    let results = results_of(alloc, project, graph, name, judged)?;
    text.push(b'[')?;
    text.extend_from_slice(behind_first(&results))?;
    text.push(b']')?;
    Ok(())
}

/// What follows the first byte of a text.
fn behind_first(text: &[u8]) -> &[u8]
    ensures { result.now ≡ drop 1 text.now }
{
    if text.is_empty() {
        return text;
    }
    &text[1..]
}

/// The results of rules, with a comma before each: which of them is the first is not known before, since rules that hold have none.
fn results_of(
    alloc: Global,
    project: &Project<'_>,
    graph: &Graph,
    name: &[u8],
    judged: &[Judged<'_>],
) -> Result<Vec<u8>, AllocError>
    ensures { IfOk result (λ text. text.items
        ≡ flat_map (λ r. codes "," ++ r) (results_from project.now graph.now name.now 0 (map seen_judged judged.now))) }
{
    let mut text = Vec::new(alloc);
    for place in 0..judged.len() {
        put_judged(
            &mut text,
            alloc,
            project,
            graph,
            name,
            place,
            &judged[place],
        )?;
    }
    Ok(text)
}

/// Adds the results of a rule at a place, with a comma before each.
fn put_judged(
    text: &mut Vec<u8>,
    alloc: Global,
    project: &Project<'_>,
    graph: &Graph,
    name: &[u8],
    place: usize,
    judged: &Judged<'_>,
) -> Result<(), AllocError>
    ensures { OnOk result (text.new.items ≡ text.old.items
        ++ flat_map (λ r. codes "," ++ r) (rule_results project.now graph.now name.now place (seen_judged judged.now))) }
{
    let listed = Listed {
        name,
        place,
        rule: judged.rule,
    };
    put_chains(text, alloc, project, graph, &listed, &judged.chains)?;
    put_files(text, alloc, project, &listed, &judged.files)
}

/// Adds a result for each of some chains, with a comma before it.
fn put_chains(
    text: &mut Vec<u8>,
    alloc: Global,
    project: &Project<'_>,
    graph: &Graph,
    listed: &Listed<'_>,
    chains: &[Vec<EdgeId>],
) -> Result<(), AllocError>
    ensures { OnOk result (text.new.items ≡ text.old.items
        ++ flat_map (λ c. codes "," ++ chain_result project.now graph.now (seen_listed listed.now) c.items) chains.now) }
{
    for chain in chains {
        put_chain(text, alloc, project, graph, listed, chain)?;
    }
    Ok(())
}

/// Adds the result of a chain, with a comma before it.
fn put_chain(
    text: &mut Vec<u8>,
    alloc: Global,
    project: &Project<'_>,
    graph: &Graph,
    listed: &Listed<'_>,
    chain: &[EdgeId],
) -> Result<(), AllocError>
    ensures { OnOk result (text.new.items ≡ text.old.items
        ++ (codes "," ++ chain_result project.now graph.now (seen_listed listed.now) chain.now)) }
{
    let words = chain_words(alloc, project, graph, listed.rule, chain)?;
    text.extend_from_slice(b",{\"codeFlows\":[{\"threadFlows\":[{\"locations\":")?;
    put_steps(text, project, graph, chain)?;
    text.extend_from_slice(b"}]}],\"level\":\"error\",\"locations\":[")?;
    put_first(text, project, graph, chain)?;
    text.extend_from_slice(b"]")?;
    put_message(text, alloc, listed, &words)
}

/// Adds a result for each of some files, with a comma before it.
fn put_files(
    text: &mut Vec<u8>,
    alloc: Global,
    project: &Project<'_>,
    listed: &Listed<'_>,
    files: &[FileId],
) -> Result<(), AllocError>
    ensures { OnOk result (text.new.items ≡ text.old.items
        ++ flat_map (λ f. codes "," ++ file_result project.now (seen_listed listed.now) f) files.now) }
{
    for file in files {
        put_file(text, alloc, project, listed, *file)?;
    }
    Ok(())
}

/// Adds the result of a file, with a comma before it.
fn put_file(
    text: &mut Vec<u8>,
    alloc: Global,
    project: &Project<'_>,
    listed: &Listed<'_>,
    file: FileId,
) -> Result<(), AllocError>
    ensures { OnOk result (text.new.items ≡ text.old.items
        ++ (codes "," ++ file_result project.now (seen_listed listed.now) file)) }
{
    let words = file_words(alloc, project, listed.rule, file)?;
    text.extend_from_slice(b",{\"level\":\"error\",\"locations\":[")?;
    put_file_place(text, path_of(project, file))?;
    text.extend_from_slice(b"]")?;
    put_message(text, alloc, listed, &words)
}

/// What is said of a chain.
fn chain_words(
    alloc: Global,
    project: &Project<'_>,
    graph: &Graph,
    rule: &Rule<'_>,
    chain: &[EdgeId],
) -> Result<Vec<u8>, AllocError>
    ensures { IfOk result (λ text. text.items ≡ chain_words project.now graph.now (seen_rule rule.now) chain.now) }
{
    let mut text = Vec::new(alloc);
    put_shown(&mut text, first_path(project, graph, chain))?;
    text.extend_from_slice(b" leads to ")?;
    put_shown(&mut text, last_path(project, graph, chain))?;
    text.extend_from_slice(b": ")?;
    put_rule_words(&mut text, alloc, rule)?;
    Ok(text)
}

/// What is said of a file that does not include what it must.
fn file_words(
    alloc: Global,
    project: &Project<'_>,
    rule: &Rule<'_>,
    file: FileId,
) -> Result<Vec<u8>, AllocError>
    ensures { IfOk result (λ text. text.items ≡ file_words project.now (seen_rule rule.now) file) }
{
    let mut text = Vec::new(alloc);
    put_shown(&mut text, path_of(project, file))?;
    text.extend_from_slice(b": ")?;
    put_rule_words(&mut text, alloc, rule)?;
    Ok(text)
}

/// Adds the words of a rule.
fn put_rule_words(text: &mut Vec<u8>, alloc: Global, rule: &Rule<'_>) -> Result<(), AllocError>
    ensures { OnOk result (text.new.items ≡ text.old.items ++ rule_words (seen_rule rule.now)) }
{
    let words = joined(alloc, &rule.words)?;
    put_shown(text, &words)
}

/// Adds what is said of a chain or a file, and of which rule.
fn put_message(
    text: &mut Vec<u8>,
    alloc: Global,
    listed: &Listed<'_>,
    words: &[u8],
) -> Result<(), AllocError>
    ensures { OnOk result (text.new.items ≡ text.old.items ++ message_text (seen_listed listed.now) words.now) }
{
    text.extend_from_slice(b",\"message\":{\"text\":")?;
    put_string(text, words)?;
    text.extend_from_slice(b"},\"ruleId\":")?;
    put_id(text, alloc, listed.name, listed.rule.line)?;
    text.extend_from_slice(b",\"ruleIndex\":")?;
    put_number(text, listed.place as u64)?;
    text.push(b'}')?;
    Ok(())
}

/// Adds what the rule on a line of a list is called.
fn put_id(text: &mut Vec<u8>, alloc: Global, name: &[u8], line: usize) -> Result<(), AllocError>
    ensures { OnOk result (text.new.items ≡ text.old.items ++ id_text name.now line) }
{
    let mut id = Vec::new(alloc);
    put_shown(&mut id, name)?;
    id.extend_from_slice(b":")?;
    put_number(&mut id, line as u64)?;
    put_string(text, &id)
}

/// Adds rules, as a list.
fn put_rules(
    text: &mut Vec<u8>,
    alloc: Global,
    name: &[u8],
    judged: &[Judged<'_>],
) -> Result<(), AllocError>
    ensures { OnOk result (text.new.items ≡ text.old.items
        ++ list_of (map (λ j. rule_item name.now (seen_rule j.rule.now)) judged.now)) }
{
    text.push(b'[')?;
    for place in 0..judged.len() {
        put_rule(text, alloc, name, place, judged[place].rule)?;
    }
    text.push(b']')?;
    Ok(())
}

/// Adds a rule, with a comma before it unless it is the first.
fn put_rule(
    text: &mut Vec<u8>,
    alloc: Global,
    name: &[u8],
    place: usize,
    rule: &Rule<'_>,
) -> Result<(), AllocError>
    ensures { OnOk result (text.new.items ≡ text.old.items ++ (comma_at place ++ rule_item name.now (seen_rule rule.now))) }
{
    if place > 0 {
        text.push(b',')?;
    }
    put_rule_item(text, alloc, name, rule)
}

/// Adds a rule.
fn put_rule_item(
    text: &mut Vec<u8>,
    alloc: Global,
    name: &[u8],
    rule: &Rule<'_>,
) -> Result<(), AllocError>
    ensures { OnOk result (text.new.items ≡ text.old.items ++ rule_item name.now (seen_rule rule.now)) }
{
    let mut words = Vec::new(alloc);
    put_rule_words(&mut words, alloc, rule)?;
    text.extend_from_slice(b"{\"id\":")?;
    put_id(text, alloc, name, rule.line)?;
    text.extend_from_slice(b",\"shortDescription\":{\"text\":")?;
    put_string(text, &words)?;
    text.extend_from_slice(b"}}")?;
    Ok(())
}

/// Adds the directives of a chain, as a list.
fn put_steps(
    text: &mut Vec<u8>,
    project: &Project<'_>,
    graph: &Graph,
    chain: &[EdgeId],
) -> Result<(), AllocError>
    ensures { OnOk result (text.new.items ≡ text.old.items ++ steps_text project.now graph.now chain.now) }
{
    text.push(b'[')?;
    for place in 0..chain.len() {
        put_step(text, project, graph, place, chain[place])?;
    }
    text.push(b']')?;
    Ok(())
}

/// Adds the directive of an edge, with a comma before it unless it is the first.
fn put_step(
    text: &mut Vec<u8>,
    project: &Project<'_>,
    graph: &Graph,
    place: usize,
    edge: EdgeId,
) -> Result<(), AllocError>
    ensures { OnOk result (text.new.items ≡ text.old.items ++ (comma_at place ++ step_item project.now graph.now edge)) }
{
    if place > 0 {
        text.push(b',')?;
    }
    put_step_item(text, project, graph, edge)
}

/// Adds the directive of an edge.
fn put_step_item(
    text: &mut Vec<u8>,
    project: &Project<'_>,
    graph: &Graph,
    edge: EdgeId,
) -> Result<(), AllocError>
    ensures { OnOk result (text.new.items ≡ text.old.items ++ step_item project.now graph.now edge) }
{
    text.extend_from_slice(b"{\"location\":")?;
    put_edge(text, project, edge_of(graph, edge))?;
    text.push(b'}')?;
    Ok(())
}

/// Adds the place of the first directive of a chain; nothing of an empty one.
fn put_first(
    text: &mut Vec<u8>,
    project: &Project<'_>,
    graph: &Graph,
    chain: &[EdgeId],
) -> Result<(), AllocError>
    ensures { OnOk result (text.new.items ≡ text.old.items ++ first_place project.now graph.now chain.now) }
{
    put_edge(text, project, edge_in(graph, chain, 0))
}

/// Adds the place of the directive of an edge; nothing of none.
fn put_edge(
    text: &mut Vec<u8>,
    project: &Project<'_>,
    edge: Option<&Edge>,
) -> Result<(), AllocError>
    ensures { OnOk result (text.new.items ≡ text.old.items
        ++ option_map_or (λ e. edge_place project.now (seen_edge e.now)) edge.entry []) }
{
    match edge {
        Some(edge) => put_line_place(text, path_of(project, edge.from), edge.line),
        None => Ok(()),
    }
}

/// The edge at a place of a chain.
fn edge_in<'g>(graph: &'g Graph, chain: &[EdgeId], place: usize) -> Option<&'g Edge>
    ensures { option_map (λ e. seen_edge e.now) result ≡ edge_in graph.now chain.now place }
{
    match chain.get(place) {
        Some(edge) => edge_of(graph, *edge),
        None => None,
    }
}

/// The path of the file that a chain begins in; nothing of an empty one.
fn first_path<'p>(project: &'p Project<'_>, graph: &Graph, chain: &[EdgeId]) -> &'p [u8]
    ensures { result.now ≡ first_path project.now graph.now chain.now }
{
    let Some(edge) = edge_in(graph, chain, 0) else {
        return &[];
    };
    path_of(project, edge.from)
}

/// The path of the file that a chain leads to; nothing of an empty one.
fn last_path<'p>(project: &'p Project<'_>, graph: &Graph, chain: &[EdgeId]) -> &'p [u8]
    ensures { result.now ≡ last_path project.now graph.now chain.now }
{
    let Some(edge) = edge_in(graph, chain, chain.len().saturating_sub(1)) else {
        return &[];
    };
    path_of(project, edge.to)
}

/// The path of a file; nothing of none.
fn path_of<'p>(project: &'p Project<'_>, file: FileId) -> &'p [u8]
    ensures { result.now ≡ path_at project.now file }
{
    let Some(known) = project.at(file.index()) else {
        return &[];
    };
    project.path(known)
}

/// Adds the place of a line of the file with this path.
fn put_line_place(text: &mut Vec<u8>, path: &[u8], line: u32) -> Result<(), AllocError>
    ensures { OnOk result (text.new.items ≡ text.old.items ++ line_place path.now line) }
{
    put_place_start(text, path)?;
    text.extend_from_slice(b",\"region\":{\"startLine\":")?;
    put_number(text, u64::from(line))?;
    text.extend_from_slice(b"}}}")?;
    Ok(())
}

/// Adds the place of the file with this path.
fn put_file_place(text: &mut Vec<u8>, path: &[u8]) -> Result<(), AllocError>
    ensures { OnOk result (text.new.items ≡ text.old.items ++ file_place path.now) }
{
    put_place_start(text, path)?;
    text.extend_from_slice(b"}}")?;
    Ok(())
}

/// Adds what either place begins with.
fn put_place_start(text: &mut Vec<u8>, path: &[u8]) -> Result<(), AllocError>
    ensures { OnOk result (text.new.items ≡ text.old.items ++ place_start path.now) }
{
    text.extend_from_slice(b"{\"physicalLocation\":{\"artifactLocation\":{\"uri\":")?;
    put_uri(text, path)?;
    text.push(b'}')?;
    Ok(())
}

/// Adds a path as a string that is a URI.
fn put_uri(text: &mut Vec<u8>, path: &[u8]) -> Result<(), AllocError>
    ensures { OnOk result (text.new.items ≡ text.old.items ++ uri_text path.now) }
{
    text.push(b'"')?;
    put_uri_bytes(text, path)?;
    text.push(b'"')?;
    Ok(())
}

/// Adds the bytes of a path in a URI.
fn put_uri_bytes(text: &mut Vec<u8>, path: &[u8]) -> Result<(), AllocError>
    ensures { OnOk result (text.new.items ≡ text.old.items ++ flat_map uri_byte path.now) }
{
    for byte in path {
        put_uri_byte(text, *byte)?;
    }
    Ok(())
}

/// Adds a byte of a path in a URI.
fn put_uri_byte(text: &mut Vec<u8>, byte: u8) -> Result<(), AllocError>
    ensures { OnOk result (text.new.items ≡ text.old.items ++ uri_byte byte) }
{
    if is_plain(byte) {
        text.push(byte)?;
        return Ok(());
    }
    text.push(b'%')?;
    text.push(capital_digit(byte / 16))?;
    text.push(capital_digit(byte % 16))?;
    Ok(())
}

/// Whether a byte stands for itself there.
fn is_plain(byte: u8) -> bool
    ensures { result ≡ is_plain byte }
{
    byte.is_ascii_alphanumeric()
        || byte == b'-'
        || byte == b'.'
        || byte == b'_'
        || byte == b'~'
        || byte == b'/'
}

/// A digit in base 16, with capital letters.
fn capital_digit(n: u8) -> u8
    requires { n < 16 }
    ensures { result ≡ capital_digit n }
{
    if n < 10 { 48 + n } else { 55 + n }
}
