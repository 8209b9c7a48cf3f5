//! The rules of a text.
ghost use Rattle.std.specs.Prelude.{◌≡◌, Ok, Err, IfOk, IfErr, IfSome, OnOk, map};
ghost use Rattle.inc_rules.specs.Rules.{Rules, rules_of, with_line, with_more, words_of};
ghost use Rattle.inc_rules.specs.Views.{seen_fault, seen_rule};

use crate::parts::rule_of;
use crate::rules::{Rule, RuleFault};
use crate::words::{len_before, words_of};
use std::alloc::Global;

/// The rules of a text, one a line. Lines without a word, and words from one on that begins with `#`, are passed over.
pub fn read_rules<'t>(alloc: Global, text: &'t [u8]) -> Result<Vec<Rule<'t>>, RuleFault<'t>>
    ensures rules { IfOk result (λ rules. rules_of text.now ≡ Ok (map seen_rule rules.items)) }
    ensures fault { IfErr result (λ f. IfSome (seen_fault f) (λ e. rules_of text.now ≡ Err e)) }
{
    let mut rules = Vec::new(alloc);
    let mut line = 1;
    let mut at = 0;
    while at <= text.len() {
        let len = len_before(b'\n', &text[at..]);
        push_line(alloc, &mut rules, line, &text[at..at + len])?;
        at += len + 1;
        line += 1;
    }
    Ok(rules)
}

/// Adds the rule of a line with this number, if it has words.
fn push_line<'t>(
    alloc: Global,
    rules: &mut Vec<Rule<'t>>,
    line: usize,
    text: &'t [u8],
) -> Result<(), RuleFault<'t>>
    ensures rules { OnOk result ((more : Rules) → with_more (map seen_rule rules.old.items) (with_line line (words_of text.entry.now) more)
        ≡ with_more (map seen_rule rules.new.items) more) }
    ensures fault { IfErr result (λ f. IfSome (seen_fault f) (λ e. (more : Rules) → with_line line (words_of text.entry.now) more ≡ Err e)) }
{
    let words = words_of(alloc, text)?;
    if words.is_empty() {
        return Ok(());
    }
    let rule = rule_of(alloc, line, words)?;
    rules.push(rule)?;
    Ok(())
}
