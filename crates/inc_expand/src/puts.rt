//! Replacements put before the rest of a list (ISO/IEC 9899:2018, 6.10.3.4).
ghost use Rattle.std.specs.Prelude.{◌≡◌, ◌<◌, ◌∷◌, [], ◌++◌, map, OnOk, IfOk, IfErr};
ghost use Rattle.inc_expand.specs.declared.rules.Rule.{Rule as RuleSeen};
ghost use Rattle.inc_expand.specs.declared.rules.Rule.TheVariants.{BySets, ByContexts};
ghost use Rattle.inc_expand.specs.Sets.{Sets, size, holds, Keeps};
ghost use Rattle.inc_expand.specs.Expansion.{replacing};
ghost use Rattle.inc_expand.specs.Carriers.{carried_of, carrier, carriers, AreKnown};
ghost use Rattle.inc_expand.specs.Lent.{lent_tokens};
ghost use Rattle.inc_expand.specs.Joins.{segment_tokens, tokens_in};
ghost use Rattle.inc_expand.specs.Puts.{IsUnion, IsPut, spaced_front};

use crate::carried::{Bytes, Carried};
use crate::contexts::set_at;
use crate::faults::ExpandFault;
use crate::hide_sets::{HideSets, SetId};
use crate::lent::Lent;
use crate::pastes::Segment;
use crate::rules::Rule;
use crate::stacks::Stack;
use inc_token::Token;
use std::alloc::AllocError;

/// A set that was joined with the names of a replacement, and what came of it. Tokens that are together mostly hide the same.
#[derive(Clone, Copy)]
struct Union {
    set: SetId,
    all: SetId,
}

/// The names of a replacement joined with the empty set.
fn first_union(names: SetId) -> Union
    ensures { (s : Sets) → names < size s → IsUnion s names result }
{
    Union {
        set: HideSets::empty(),
        all: names,
    }
}

/// A set joined with the names of a replacement, where `last` was joined with them before.
fn next_union<'a>(
    sets: &mut HideSets<'a>,
    names: SetId,
    last: Union,
    set: SetId,
) -> Result<Union, ExpandFault>
    requires names { names < size sets.old }
    requires set { set < size sets.old }
    requires last { IsUnion sets.old names last }
    ensures keeps { Keeps sets.old sets.new }
    ensures set { IfOk result (λ r. r.set ≡ set) }
    ensures joined { IfOk result (λ r. IsUnion sets.new names r) }
    ensures fault { IfErr result (λ fault. fault ≡ ExpandFault.NoMemory) }
{
    if last.set == set {
        return Ok(last);
    }
    let all = sets.join(names, set)?;
    Ok(Union { set, all })
}

/// Puts a token before a list, with a line and a set.
#[inline(always)]
fn push_moved<'a, 'b>(
    list: &mut Stack<'a, 'b>,
    line: u32,
    set: SetId,
    token: &Carried<'a, 'b>,
) -> Result<(), AllocError>
    ensures { OnOk result (list.new ≡ record token.now { line = line; set = set } ∷ list.old) }
{
    let mut moved = *token;
    moved.line = line;
    moved.set = set;
    list.push(moved)?;
    Ok(())
}

/// Puts a token of a replacement before a list, with a line and these names hidden, by sets.
#[inline(always)]
fn put_by_sets<'a, 'b>(
    list: &mut Stack<'a, 'b>,
    sets: &mut HideSets<'a>,
    line: u32,
    names: SetId,
    last: Union,
    token: &Carried<'a, 'b>,
) -> Result<Union, ExpandFault>
    requires names { names < size sets.old }
    requires last { IsUnion sets.old names last }
    requires token { token.now.set < size sets.old }
    requires list { AreKnown (size sets.old) list.old }
    ensures put { OnOk result
        (IsPut BySets sets.old sets.new line names (token.now ∷ []) list.old list.new) }
    ensures joined { IfOk result (λ r. IsUnion sets.new names r) }
    ensures fault { IfErr result (λ fault. fault ≡ ExpandFault.NoMemory) }
{
    let now = next_union(sets, names, last, token.set)?;
    push_moved(list, line, now.all, token)?;
    Ok(now)
}

/// The same by contexts.
#[inline(always)]
fn put_by_contexts<'a, 'b>(
    list: &mut Stack<'a, 'b>,
    sets: &HideSets<'a>,
    line: u32,
    names: SetId,
    token: &Carried<'a, 'b>,
) -> Result<(), ExpandFault>
    requires names { names < size sets.now }
    requires token { token.now.set < size sets.now }
    requires list { AreKnown (size sets.now) list.old }
    ensures put { OnOk result
        (IsPut ByContexts sets.now sets.now line names (token.now ∷ []) list.old list.new) }
    ensures fault { IfErr result (λ fault. fault ≡ ExpandFault.NoMemory) }
{
    let set = set_at(sets, names, token);
    push_moved(list, line, set, token)?;
    Ok(())
}

/// Puts a token of a replacement before a list, with a line and these names hidden.
#[inline(always)]
fn put_token<'a, 'b>(
    list: &mut Stack<'a, 'b>,
    rule: Rule,
    sets: &mut HideSets<'a>,
    line: u32,
    names: SetId,
    last: Union,
    token: &Carried<'a, 'b>,
) -> Result<Union, ExpandFault>
    requires names { names < size sets.old }
    requires last { IsUnion sets.old names last }
    requires token { token.now.set < size sets.old }
    requires list { AreKnown (size sets.old) list.old }
    ensures put { OnOk result
        (IsPut rule sets.old sets.new line names (token.now ∷ []) list.old list.new) }
    ensures joined { IfOk result (λ r. IsUnion sets.new names r) }
    ensures fault { IfErr result (λ fault. fault ≡ ExpandFault.NoMemory) }
{
    match rule {
        Rule::BySets => {
            let now = put_by_sets(list, sets, line, names, last, token)?;
            Ok(now)
        }
        Rule::ByContexts => {
            put_by_contexts(list, sets, line, names, token)?;
            Ok(last)
        }
    }
}

/// Puts tokens of the list that is handed in before a list, the last one first: they hide nothing of their own.
fn put_source<'a, 'b>(
    list: &mut Stack<'a, 'b>,
    line: u32,
    names: SetId,
    tokens: &[Token<'a>],
) -> Result<(), ExpandFault>
    ensures put { (rule : RuleSeen) (sets : Sets) → names < size sets → AreKnown (size sets) list.old → OnOk result
        (IsPut rule sets sets line names (map carried_of tokens.now) list.old list.new) }
    ensures fault { IfErr result (λ fault. fault ≡ ExpandFault.NoMemory) }
{
    let mut i = tokens.len();
    while i > 0 {
        i -= 1;
        let token = &tokens[i];
        list.push(Carried {
            text: Bytes::Source(token.spelling),
            line,
            set: names,
            kind: token.kind,
            space: token.space,
        })?;
    }
    Ok(())
}

/// Puts tokens on the way before a list, the last one first.
fn put_carried<'a, 'b>(
    list: &mut Stack<'a, 'b>,
    rule: Rule,
    sets: &mut HideSets<'a>,
    line: u32,
    names: SetId,
    tokens: &[Carried<'a, 'b>],
) -> Result<(), ExpandFault>
    requires names { names < size sets.old }
    requires tokens { AreKnown (size sets.old) tokens.now }
    requires list { AreKnown (size sets.old) list.old }
    ensures put { OnOk result
        (IsPut rule sets.old sets.new line names tokens.now list.old list.new) }
    ensures fault { IfErr result (λ fault. fault ≡ ExpandFault.NoMemory) }
{
    let mut last = first_union(names);
    let mut i = tokens.len();
    while i > 0 {
        i -= 1;
        last = put_token(list, rule, sets, line, names, last, &tokens[i])?;
    }
    Ok(())
}

/// Puts tokens of a replacement before a list.
pub(crate) fn put_run<'a, 'b>(
    list: &mut Stack<'a, 'b>,
    rule: Rule,
    sets: &mut HideSets<'a>,
    line: u32,
    names: SetId,
    tokens: Lent<'_, 'a, 'b>,
) -> Result<(), ExpandFault>
    requires names { names < size sets.old }
    requires tokens { AreKnown (size sets.old) (lent_tokens tokens) }
    requires list { AreKnown (size sets.old) list.old }
    ensures put { OnOk result
        (IsPut rule sets.old sets.new line names (lent_tokens tokens.entry) list.old list.new) }
    ensures fault { IfErr result (λ fault. fault ≡ ExpandFault.NoMemory) }
{
    match tokens {
        Lent::Source(tokens) => put_source(list, line, names, tokens),
        Lent::Carried(tokens) => put_carried(list, rule, sets, line, names, tokens),
    }
}

/// Puts the tokens of a segment before a list.
fn put_segment<'a, 'b>(
    list: &mut Stack<'a, 'b>,
    rule: Rule,
    sets: &mut HideSets<'a>,
    line: u32,
    names: SetId,
    segment: &Segment<'_, 'a, 'b>,
) -> Result<(), ExpandFault>
    requires names { names < size sets.old }
    requires tokens { AreKnown (size sets.old) (segment_tokens segment.now) }
    requires list { AreKnown (size sets.old) list.old }
    ensures put { OnOk result
        (IsPut rule sets.old sets.new line names (segment_tokens segment.now) list.old list.new) }
    ensures fault { IfErr result (λ fault. fault ≡ ExpandFault.NoMemory) }
{
    match segment {
        Segment::One(token) => {
            put_token(list, rule, sets, line, names, first_union(names), token)?;
            Ok(())
        }
        Segment::Several(tokens) => put_run(list, rule, sets, line, names, *tokens),
    }
}

/// Puts the tokens of segments before a list, the last segment first.
fn put_segments<'a, 'b>(
    list: &mut Stack<'a, 'b>,
    rule: Rule,
    sets: &mut HideSets<'a>,
    line: u32,
    names: SetId,
    segments: &[Segment<'_, 'a, 'b>],
) -> Result<(), ExpandFault>
    requires names { names < size sets.old }
    requires tokens { AreKnown (size sets.old) (tokens_in segments.now) }
    requires list { AreKnown (size sets.old) list.old }
    ensures put { OnOk result
        (IsPut rule sets.old sets.new line names (tokens_in segments.now) list.old list.new) }
    ensures fault { IfErr result (λ fault. fault ≡ ExpandFault.NoMemory) }
{
    let mut i = segments.len();
    while i > 0 {
        i -= 1;
        put_segment(list, rule, sets, line, names, &segments[i])?;
    }
    Ok(())
}

/// Changes whether white space is before the first token, where there is one.
#[inline(always)]
pub(crate) fn space_front(list: &mut Stack<'_, '_>, space: bool) -> Result<(), AllocError>
    ensures { OnOk result (list.new ≡ spaced_front space list.old) }
{
    if let Some(token) = list.pop() {
        let mut first = token;
        first.space = space;
        list.push(first)?;
    }
    Ok(())
}

/// Puts what replaces a token before a list: on its line, with these names hidden, and spaced as it is.
pub(crate) fn put<'a, 'b>(
    list: &mut Stack<'a, 'b>,
    rule: Rule,
    sets: &mut HideSets<'a>,
    replaced: &Carried<'a, 'b>,
    names: SetId,
    segments: &[Segment<'_, 'a, 'b>],
) -> Result<(), ExpandFault>
    requires names { names < size sets.old }
    requires tokens { AreKnown (size sets.old) (tokens_in segments.now) }
    requires list { AreKnown (size sets.old) list.old }
    ensures keeps { OnOk result (Keeps sets.old sets.new) }
    ensures put { OnOk result (carriers sets.new list.new
        ≡ replacing rule (carrier sets.old replaced.now) (holds sets.old names)
        (carriers sets.old (tokens_in segments.now)) ++ carriers sets.old list.old) }
    ensures known { OnOk result (AreKnown (size sets.new) list.new) }
    ensures fault { IfErr result (λ fault. fault ≡ ExpandFault.NoMemory) }
{
    let before = list.len();
    list.expect(segments.len());
    put_segments(list, rule, sets, replaced.line, names, segments)?;
    if list.len() > before {
        space_front(list, replaced.space)?;
    }
    Ok(())
}
