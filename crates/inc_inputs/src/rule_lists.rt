//! The rules that words give, and the files that they are about.
ghost use Rattle.std.specs.Prelude.{◌≡◌, ◌≢◌, ◌++◌, ◌∷◌, [], Ok, Err, map, option_map, IfErr, IfOk, OnOk};
ghost use Rattle.inc_args.specs.Views.{seen_rules};
ghost use Rattle.inc_inputs.specs.Reports.{out_of_memory, report_of};
ghost use Rattle.inc_inputs.specs.RuleLists.{AreRules, lines_of_words, rule_ends, rule_name, rule_text, words_report};
ghost use Rattle.inc_inputs.specs.RuleNotes.{ends_unless, first_of, rule_notes, strict_ends, unfit_lines};
ghost use Rattle.inc_inputs.specs.Steps.{Comes};
ghost use Rattle.inc_inputs.specs.Views.{seen_ends, seen_text};
ghost use Rattle.inc_rules.specs.Rules.{rules_of};
ghost use Rattle.inc_rules.specs.Views.{seen_rule};

use crate::ends::EndPaths;
use crate::failures::{Failure, rules_failure};
use crate::inputs::Inputs;
use crate::outputs::is_no_file;
use crate::rule_notes::{first_unfit, rule_notes};
use crate::texts::{are_twice, read_text};
use inc_args::RuleArgs;
use inc_lookup::Project;
use inc_rules::{Rule, RuleFault, read_rules, subjects};
use std::alloc::{AllocError, Global};

/// What is wrong with words for rules, whatever the files hold: a baseline is read and one is written, none is written to standard output, and
/// standard input is read once.
pub fn words_failure(words: &RuleArgs<'_>) -> Option<Failure>
    ensures { option_map report_of result ≡ words_report (seen_rules words.now) }
{
    if words.baseline.is_some() && words.written.is_some() {
        return Some(Failure::TwoBaselines);
    }
    if is_no_file(words.written) {
        return Some(Failure::NoFile);
    }
    if are_twice(&[words.file, words.baseline]) {
        return Some(Failure::InputTwice);
    }
    None
}

/// The text of the rules that words give: that of a file, or the words as lines.
pub fn read_rule_text<I: Inputs>(
    alloc: Global,
    inputs: &mut I,
    words: &RuleArgs<'_>,
) -> Result<Vec<u8>, Failure>
    ensures { Comes (rule_text I.gives (seen_rules words.now)) inputs.old (seen_text result) inputs.new }
{
    match (words.file, words.rules.is_empty()) {
        (Some(name), true) => read_text(alloc, inputs, name),
        (None, false) => Ok(lines_of_words(alloc, &words.rules)?),
        _ => Err(Failure::NoRules),
    }
}

/// Words as the lines of a text.
fn lines_of_words(alloc: Global, words: &[&str]) -> Result<Vec<u8>, AllocError>
    ensures { IfOk result (λ text. text.items ≡ lines_of_words (map (λ w. w.now) words.now)) }
{
    let mut text = Vec::new(alloc);
    for word in words {
        push_line(&mut text, word)?;
    }
    Ok(text)
}

/// Adds a word as a line.
fn push_line(text: &mut Vec<u8>, word: &str) -> Result<(), AllocError>
    ensures { OnOk result (text.new.items ≡ text.old.items ++ (word.now ++ 10 ∷ [])) }
{
    text.extend_from_slice(word.as_bytes())?;
    text.push(b'\n')?;
    Ok(())
}

/// How the list of these rules is called.
pub fn rule_name<'a>(words: &RuleArgs<'a>) -> &'a str
    ensures { result.now ≡ rule_name (seen_rules words.now) }
{
    words.file.unwrap_or("-e")
}

/// The rules of a text, which is that of a list of this name.
pub fn rules_in<'t>(alloc: Global, text: &'t [u8], name: &str) -> Result<Vec<Rule<'t>>, Failure>
    ensures rules { IfOk result (λ rules. rules_of text.entry.now ≡ Ok (map seen_rule rules.items)) }
    ensures fault { IfErr result (λ f. report_of f ≢ out_of_memory → AreRules name.now text.entry.now (Err (report_of f))) }
{
    match read_rules(alloc, text) {
        Ok(rules) => Ok(rules),
        Err(RuleFault::Malformed { line, kind, words }) => {
            Err(rules_failure(alloc, name.as_bytes(), line, kind, &words))
        }
        Err(RuleFault::NoMemory) => Err(Failure::NoMemory),
    }
}

/// The paths of the files that the rules of a list with this name are about, with notes of their globs that fit no file; where a header must
/// be found, each glob must fit one.
pub fn strict_ends<'p>(
    alloc: Global,
    project: &'p Project<'_>,
    is_strict: bool,
    name: &str,
    rules: &[Rule<'_>],
) -> Result<EndPaths<'p>, Failure>
    ensures ends { seen_ends result ≢ Err out_of_memory →
        seen_ends result ≡ strict_ends is_strict name.now project.entry.now (map seen_rule rules.now) }
    ensures notes { IfOk result (λ ends. ends.notes.items ≡ rule_notes name.now project.entry.now (map seen_rule rules.now)) }
{
    if is_strict {
        return fitting_ends(alloc, project, name, rules);
    }
    rule_ends(alloc, project, name, rules)
}

/// The same where each glob must fit a file.
fn fitting_ends<'p>(
    alloc: Global,
    project: &'p Project<'_>,
    name: &str,
    rules: &[Rule<'_>],
) -> Result<EndPaths<'p>, Failure>
    ensures ends { let rules = map seen_rule rules.now in seen_ends result ≢ Err out_of_memory → seen_ends result
        ≡ ends_unless (first_of (unfit_lines name.now project.entry.now rules)) (rule_ends project.entry.now rules) }
    ensures notes { IfOk result (λ ends. ends.notes.items ≡ rule_notes name.now project.entry.now (map seen_rule rules.now)) }
{
    match first_unfit(alloc, project, name.as_bytes(), rules) {
        Ok(Some(line)) => Err(Failure::MalformedRules(line)),
        Ok(None) => rule_ends(alloc, project, name, rules),
        Err(_) => Err(Failure::NoMemory),
    }
}

/// The paths of the files that the rules of a list with this name are about, with notes of their globs that fit no file.
fn rule_ends<'p>(
    alloc: Global,
    project: &'p Project<'_>,
    name: &str,
    rules: &[Rule<'_>],
) -> Result<EndPaths<'p>, Failure>
    ensures ends { seen_ends result ≢ Err out_of_memory → seen_ends result ≡ rule_ends project.entry.now (map seen_rule rules.now) }
    ensures notes { IfOk result (λ ends. ends.notes.items ≡ rule_notes name.now project.entry.now (map seen_rule rules.now)) }
{
    let from = subjects(alloc, project, rules)?;
    if from.is_empty() {
        return Err(Failure::NoSubject);
    }
    let notes = rule_notes(alloc, project, name, rules)?;
    Ok(EndPaths {
        from,
        to: Vec::new(alloc),
        groups: Vec::new(alloc),
        notes,
    })
}
