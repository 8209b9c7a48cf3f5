//! The document in which `rules` says which rules are broken.
ghost use Rattle.std.specs.Prelude.{◌≡◌, ◌<◌, ◌==◌, ◌+◌, ◌++◌, ◌∷◌, [], codes, count_by, flat_map, if◌then◌else◌, length, map, IfOk, OnOk};
ghost use Rattle.std.specs.List.{All};
ghost use Rattle.inc_answers.specs.Documents as spec;
ghost use Rattle.inc_answers.specs.Documents.{edge_places};
ghost use Rattle.inc_answers.specs.RulesDocument.{all_chains, all_files, break_words, broken_blocks, how_words, judged_blocks, lacking_blocks, lacking_words, rule_words, rules_document, some_words, summary_by, summary_words};
ghost use Rattle.inc_rules.specs.Judging.{IsWithin, is_broken};
ghost use Rattle.inc_rules.specs.Views.{seen_judged, seen_rule};

use crate::documents::{Document, put_counted, put_path};
use crate::missing_notes::{put_number, put_shown};
use crate::why_document::add_unresolved;
use inc_graph::{EdgeId, Graph};
use inc_lookup::{FileId, Project};
use inc_rules::{Judged, Rule, Verb, joined};
use std::alloc::{AllocError, Global};

/// The document of rules of a list with this name.
pub fn rules_document(
    alloc: Global,
    project: &Project<'_>,
    graph: &Graph,
    name: &[u8],
    judged: &[Judged<'_>],
) -> Result<Document, AllocError>
    requires { All (λ j. IsWithin graph.now (seen_judged j)) judged.now }
    ensures { IfOk result (λ document. document ≡ rules_document name.now project.now graph.now (map seen_judged judged.now)) }
{
    let mut document = Document::new(alloc);
    add_judged(&mut document, alloc, project, graph, name, judged)?;
    add_summary(&mut document, alloc, judged)?;
    add_unresolved(&mut document, alloc, graph, true)?;
    Ok(document)
}

/// Adds each of some rules that is broken.
fn add_judged(
    document: &mut Document,
    alloc: Global,
    project: &Project<'_>,
    graph: &Graph,
    name: &[u8],
    judged: &[Judged<'_>],
) -> Result<(), AllocError>
    requires { All (λ j. IsWithin graph.now (seen_judged j)) judged.now }
    ensures { OnOk result (document.new ≡ document.old
        ++ flat_map (judged_blocks name.now project.now graph.now) (map seen_judged judged.now)) }
{
    for rule in judged {
        add_if_broken(document, alloc, project, graph, name, rule)?;
    }
    Ok(())
}

/// Adds a rule if it is broken.
fn add_if_broken(
    document: &mut Document,
    alloc: Global,
    project: &Project<'_>,
    graph: &Graph,
    name: &[u8],
    judged: &Judged<'_>,
) -> Result<(), AllocError>
    requires { IsWithin graph.now (seen_judged judged.now) }
    ensures { OnOk result (document.new ≡ document.old
        ++ judged_blocks name.now project.now graph.now (seen_judged judged.now)) }
{
    if judged.is_broken() {
        return add_broken(document, alloc, project, graph, name, judged);
    }
    Ok(())
}

/// Adds a rule that is broken.
fn add_broken(
    document: &mut Document,
    alloc: Global,
    project: &Project<'_>,
    graph: &Graph,
    name: &[u8],
    judged: &Judged<'_>,
) -> Result<(), AllocError>
    requires { IsWithin graph.now (seen_judged judged.now) }
    ensures { OnOk result (document.new ≡ document.old
        ++ broken_blocks name.now project.now graph.now (seen_judged judged.now)) }
{
    add_rule(document, alloc, name, judged.rule)?;
    add_chains(document, alloc, graph, &judged.chains)?;
    add_lacking(document, alloc, project, judged.rule, &judged.files)
}

/// Adds a rule after the name of its list and the number of its line.
fn add_rule(
    document: &mut Document,
    alloc: Global,
    name: &[u8],
    rule: &Rule<'_>,
) -> Result<(), AllocError>
    ensures { OnOk result (document.new ≡ document.old
        ++ spec.Words (rule_words name.now (seen_rule rule.now)) ∷ []) }
{
    let mut text = Vec::new(alloc);
    put_rule(&mut text, alloc, name, rule)?;
    document.add_words(text)
}

/// The same as words.
fn put_rule(
    text: &mut Vec<u8>,
    alloc: Global,
    name: &[u8],
    rule: &Rule<'_>,
) -> Result<(), AllocError>
    ensures { OnOk result (text.new.items ≡ text.old.items ++ rule_words name.now (seen_rule rule.now)) }
{
    let words = joined(alloc, &rule.words)?;
    put_shown(text, name)?;
    text.extend_from_slice(b":")?;
    put_number(text, rule.line as u64)?;
    text.extend_from_slice(b": ")?;
    put_shown(text, &words)
}

/// Adds the directives of chains.
fn add_chains(
    document: &mut Document,
    alloc: Global,
    graph: &Graph,
    chains: &[Vec<EdgeId>],
) -> Result<(), AllocError>
    requires { All (λ chain. All (λ i. i < length graph.now.edges) chain) (map (λ c. c.items) chains.now) }
    ensures { OnOk result (document.new ≡ document.old ++ flat_map (edge_places graph.now) (map (λ c. c.items) chains.now)) }
{
    for chain in chains {
        document.add_edges(alloc, graph, chain)?;
    }
    Ok(())
}

/// Adds the files that do not include what a rule says they must.
fn add_lacking(
    document: &mut Document,
    alloc: Global,
    project: &Project<'_>,
    rule: &Rule<'_>,
    files: &[FileId],
) -> Result<(), AllocError>
    ensures { OnOk result (document.new ≡ document.old ++ lacking_blocks project.now (seen_rule rule.now) files.now) }
{
    for file in files {
        add_lacking_file(document, alloc, project, rule, *file)?;
    }
    Ok(())
}

/// Adds one of them.
fn add_lacking_file(
    document: &mut Document,
    alloc: Global,
    project: &Project<'_>,
    rule: &Rule<'_>,
    file: FileId,
) -> Result<(), AllocError>
    ensures { OnOk result (document.new ≡ document.old
        ++ spec.Words (lacking_words project.now (seen_rule rule.now) file) ∷ []) }
{
    let mut text = Vec::new(alloc);
    put_path(&mut text, project, file)?;
    text.extend_from_slice(b": does not include ")?;
    put_shown(&mut text, rule.right)?;
    text.extend_from_slice(how_words(rule.verb))?;
    document.add_words(text)
}

/// How a file must include one of the right side.
fn how_words(verb: Verb) -> &'static [u8]
    ensures { result.now ≡ how_words verb }
{
    match verb {
        Verb::IncludeFirst => b" first",
        _ => b"",
    }
}

/// Adds how many of some rules are broken and by what, or that all hold.
fn add_summary(
    document: &mut Document,
    alloc: Global,
    judged: &[Judged<'_>],
) -> Result<(), AllocError>
    ensures { OnOk result (document.new ≡ document.old
        ++ spec.Words (summary_words (map seen_judged judged.now)) ∷ []) }
{
    let broken = broken_count(judged);
    let chains = chain_count(judged)?;
    let files = file_count(judged)?;
    let mut text = Vec::new(alloc);
    put_summary(&mut text, broken, judged.len(), chains, files)?;
    document.add_words(text)
}

/// That so many of so many rules are broken, by so many chains and files, or that all hold.
fn put_summary(
    text: &mut Vec<u8>,
    broken: usize,
    total: usize,
    chains: usize,
    files: usize,
) -> Result<(), AllocError>
    ensures { OnOk result (text.new.items ≡ text.old.items ++ summary_by broken total chains files) }
{
    if broken == 0 {
        return put_counted(text, total, b" rule holds", b" rules hold");
    }
    put_some(text, broken, total)?;
    text.extend_from_slice(b", by ")?;
    put_breaks(text, chains, files)
}

/// That so many of so many rules are broken.
fn put_some(text: &mut Vec<u8>, broken: usize, total: usize) -> Result<(), AllocError>
    ensures { OnOk result (text.new.items ≡ text.old.items ++ some_words broken total) }
{
    put_counted(text, broken, b" rule of ", b" rules of ")?;
    put_number(text, total as u64)?;
    text.extend_from_slice(are_broken(broken))?;
    Ok(())
}

/// What so many rules are.
fn are_broken(count: usize) -> &'static [u8]
    ensures { result.now ≡ (if count == 1 then codes " is broken" else codes " are broken") }
{
    if count == 1 {
        b" is broken"
    } else {
        b" are broken"
    }
}

/// So many chains, files, or both.
fn put_breaks(text: &mut Vec<u8>, chains: usize, files: usize) -> Result<(), AllocError>
    ensures { OnOk result (text.new.items ≡ text.old.items ++ break_words chains files) }
{
    if files == 0 {
        return put_counted(text, chains, b" chain", b" chains");
    }
    if chains == 0 {
        return put_counted(text, files, b" file", b" files");
    }
    put_counted(text, chains, b" chain", b" chains")?;
    text.extend_from_slice(b" and ")?;
    put_counted(text, files, b" file", b" files")
}

/// How many of some rules are broken.
fn broken_count(judged: &[Judged<'_>]) -> usize
    ensures { result ≡ count_by is_broken (map seen_judged judged.now) }
{
    let mut count = 0;
    for rule in judged {
        if rule.is_broken() {
            count += 1;
        }
    }
    count
}

/// By how many chains some rules are broken.
fn chain_count(judged: &[Judged<'_>]) -> Result<usize, AllocError>
    ensures { IfOk result (λ count. count ≡ length (all_chains (map seen_judged judged.now))) }
{
    let mut count = 0;
    for rule in judged {
        count = sum(count, rule.chains.len())?;
    }
    Ok(count)
}

/// By how many files some rules are broken.
fn file_count(judged: &[Judged<'_>]) -> Result<usize, AllocError>
    ensures { IfOk result (λ count. count ≡ length (all_files (map seen_judged judged.now))) }
{
    let mut count = 0;
    for rule in judged {
        count = sum(count, rule.files.len())?;
    }
    Ok(count)
}

/// A sum of how much there is in memory.
fn sum(count: usize, more: usize) -> Result<usize, AllocError>
    ensures { IfOk result (λ all. all ≡ count + more) }
{
    match count.checked_add(more) {
        Some(all) => Ok(all),
        None => Err(AllocError),
    }
}
