//! The parts of a rule.
ghost use Rattle.std.specs.Prelude.{◌≡◌, ◌<◌, ◌∷◌, [], ℕ, List, Ok, Err, Some, None, IfOk, IfErr, IfSome, length, map, option_map, take, codes};
ghost use Rattle.inc_rules.specs.Rules.{behind, exceptions, fault, first_bad, is_bad, last_of, rule_of, sound_rule, checked, verb_of, with_first};
ghost use Rattle.inc_rules.specs.Views.{IsFault, seen_fault, seen_rule};

use crate::rules::{FaultKind, Rule, RuleFault, Verb};
use crate::words::globs_of;
use inc_globs::{Glob, GlobFault};
use std::alloc::{AllocError, Global};

/// The rule of a line with these words.
pub(crate) fn rule_of<'t>(
    alloc: Global,
    line: usize,
    words: Vec<&'t [u8]>,
) -> Result<Rule<'t>, RuleFault<'t>>
    requires { 0 < length words.items }
    ensures rule { IfOk result (λ r. (left : List ℕ) → (rest : List (List ℕ)) → map (λ w. w.now) words.entry.items ≡ left ∷ rest →
        rule_of line left rest ≡ Ok (seen_rule r)) }
    ensures fault { IfErr result (λ f. (left : List ℕ) → (rest : List (List ℕ)) → map (λ w. w.now) words.entry.items ≡ left ∷ rest →
        IsFault f line (rule_of line left rest)) }
{
    let left = words[0];
    let rest = &words[1..];
    if rest.is_empty() {
        return Err(fault_at(alloc, line, FaultKind::Ends, left));
    }
    let Some((verb, rest)) = verb_of(rest) else {
        return Err(unknown_verb(alloc, line, rest));
    };
    let [right, rest @ ..] = rest else {
        return Err(fault_at(alloc, line, FaultKind::Ends, words[words.len() - 1]));
    };
    let (verb, rest) = with_first(verb, rest);
    let except = exceptions(alloc, line, rest)?;
    let right = *right;
    checked(
        alloc,
        Rule {
            line,
            words,
            left,
            verb,
            right,
            except,
        },
    )
}

/// The verb that words begin with, and what follows it.
fn verb_of<'w, 't>(words: &'w [&'t [u8]]) -> Option<(Verb, &'w [&'t [u8]])>
    ensures { option_map (λ x. (x.0, map (λ w. w.now) x.1.now)) result ≡ verb_of (map (λ w. w.now) words.now) }
{
    if let Some(rest) = behind(&[b"must", b"not", b"reach"], words) {
        return Some((Verb::NotReach, rest));
    }
    if let Some(rest) = behind(&[b"must", b"not", b"include"], words) {
        return Some((Verb::NotInclude, rest));
    }
    if let Some(rest) = behind(&[b"must", b"include"], words) {
        return Some((Verb::Include, rest));
    }
    None
}

/// What follows some words, where a list of words begins with them.
fn behind<'w, 't>(first: &[&[u8]], words: &'w [&'t [u8]]) -> Option<&'w [&'t [u8]]>
    ensures { option_map (λ ws. map (λ w. w.now) ws.now) result ≡ behind (map (λ f. f.now) first.now) (map (λ w. w.now) words.now) }
{
    let mut at = 0;
    while at < first.len() {
        if at >= words.len() {
            return None;
        }
        if first[at] != words[at] {
            return None;
        }
        at += 1;
    }
    Some(&words[at..])
}

/// The verb with the word `first` behind a right side, and the words after it.
fn with_first<'w, 't>(verb: Verb, words: &'w [&'t [u8]]) -> (Verb, &'w [&'t [u8]])
    ensures { (result.0, map (λ w. w.now) result.1.now) ≡ with_first verb (map (λ w. w.now) words.now) }
{
    if verb != Verb::Include {
        return (verb, words);
    }
    match words {
        [word, rest @ ..] if *word == b"first".as_slice() => (Verb::IncludeFirst, rest),
        _ => (verb, words),
    }
}

/// The exceptions in the words at the end of a rule.
fn exceptions<'t>(
    alloc: Global,
    line: usize,
    words: &[&'t [u8]],
) -> Result<Vec<&'t [u8]>, RuleFault<'t>>
    ensures globs { IfOk result (λ globs. exceptions (map (λ w. w.now) words.now) ≡ Ok (map (λ g. g.now) globs.items)) }
    ensures fault { IfErr result (λ f. IsFault f line (exceptions (map (λ w. w.now) words.now))) }
{
    let [word, rest @ ..] = words else {
        return Ok(Vec::new(alloc));
    };
    if *word != b"except".as_slice() {
        return Err(fault_at(alloc, line, FaultKind::Unexpected, word));
    }
    let globs = globs_of(alloc, rest)?;
    if globs.is_empty() {
        return Err(fault_at(alloc, line, FaultKind::Ends, word));
    }
    Ok(globs)
}

/// The rule, unless one of its globs is bad.
fn checked<'t>(alloc: Global, rule: Rule<'t>) -> Result<Rule<'t>, RuleFault<'t>>
    ensures rule { IfOk result (λ r. checked (seen_rule rule.entry) ≡ Ok (seen_rule r)) }
    ensures fault { IfErr result (λ f. IsFault f rule.entry.line (checked (seen_rule rule.entry))) }
{
    match bad_glob(alloc, &rule) {
        Ok(Some(glob)) => Err(fault_at(alloc, rule.line, FaultKind::BadGlob, glob)),
        Ok(None) => Ok(rule),
        Err(AllocError) => Err(RuleFault::NoMemory),
    }
}

/// The first bad glob of a rule.
fn bad_glob<'t>(alloc: Global, rule: &Rule<'t>) -> Result<Option<&'t [u8]>, AllocError>
    ensures { IfOk result (λ glob. option_map (λ g. g.now) glob
        ≡ first_bad (rule.now.left.now ∷ rule.now.right.now ∷ map (λ g. g.now) rule.now.except.items)) }
{
    if is_bad(alloc, rule.left)? {
        return Ok(Some(rule.left));
    }
    if is_bad(alloc, rule.right)? {
        return Ok(Some(rule.right));
    }
    first_bad(alloc, &rule.except)
}

/// The first bad glob of a list.
fn first_bad<'t>(alloc: Global, globs: &[&'t [u8]]) -> Result<Option<&'t [u8]>, AllocError>
    ensures { IfOk result (λ glob. option_map (λ g. g.now) glob ≡ first_bad (map (λ g. g.now) globs.now)) }
{
    for glob in globs {
        if is_bad(alloc, glob)? {
            return Ok(Some(*glob));
        }
    }
    Ok(None)
}

/// Whether a glob has a `[` without `]`.
fn is_bad(alloc: Global, glob: &[u8]) -> Result<bool, AllocError>
    ensures { IfOk result (λ bad. bad ≡ is_bad glob.now) }
{
    match Glob::new(alloc, glob) {
        Ok(_) => Ok(false),
        Err(GlobFault::Unterminated) => Ok(true),
        Err(GlobFault::NoMemory) => Err(AllocError),
    }
}

/// The fault that no verb begins here.
fn unknown_verb<'t>(alloc: Global, line: usize, words: &[&'t [u8]]) -> RuleFault<'t>
    ensures { IfSome (seen_fault result) (λ e. e ≡ (line, fault FaultKind.UnknownVerb (take 2 (map (λ w. w.now) words.now)))) }
{
    let len = if words.len() < 2 { words.len() } else { 2 };
    match Vec::from_slice(alloc, &words[..len]) {
        Ok(words) => RuleFault::Malformed {
            line,
            kind: FaultKind::UnknownVerb,
            words,
        },
        Err(_) => RuleFault::NoMemory,
    }
}

/// The fault that a word shows.
fn fault_at<'t>(alloc: Global, line: usize, kind: FaultKind, word: &'t [u8]) -> RuleFault<'t>
    ensures { IfSome (seen_fault result) (λ e. e ≡ (line, fault kind (word.entry.now ∷ []))) }
{
    let mut words = Vec::new(alloc);
    match words.push(word) {
        Ok(()) => RuleFault::Malformed { line, kind, words },
        Err(_) => RuleFault::NoMemory,
    }
}
