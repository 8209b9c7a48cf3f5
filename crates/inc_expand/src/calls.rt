//! The calls of function-like macros (ISO/IEC 9899:2018, 6.10.3 paragraphs 4 and 10 to 12).
ghost use Rattle.std.specs.Prelude.{◌≡◌, ◌≢◌, ◌==◌, ◌&&◌, ℕ, ◌+◌, ◌<◌, ◌≤◌, [], ◌∷◌, ◌++◌, length, map, take, drop, Ok, Err, Some, None, List, IfOk, IfErr, IfSome, IfNone, OnOk, nat_lt, if◌then◌else◌};
ghost use Rattle.std.specs.Bool.{OnTrue};
ghost use Rattle.inc_macro.specs.Macros.{parameter_names};
ghost use Rattle.inc_expand.specs.declared.carried.Carried.{Carried as CarriedToken};
ghost use Rattle.inc_expand.specs.Sets.{Sets};
ghost use Rattle.inc_expand.specs.Expansion.{is_close, is_comma, call_behind, depth_after, split_at_commas, filled_up, bound, unexpanded, Carrier};
ghost use Rattle.inc_expand.specs.Carriers.{carrier, carriers, AreKnown};
ghost use Rattle.inc_expand.specs.Arguments.{argument_values, few_arguments, AreKnownIn};
ghost use Rattle.inc_expand.specs.Lent.{lent_tokens};
ghost use Rattle.inc_expand.specs.Slots.{inside_tokens, slot_values};

use crate::arguments::{Arguments, Inside, Slot};
use crate::carried::{Carried, is_close, is_comma, is_open};
use crate::faults::ExpandFault;
use crate::lent::Lent;
use crate::shared::Shared;
use crate::stacks::{LEAST_ROOM, Stack};
use inc_macro::Parameters;
use std::alloc::Global;

/// For how many tokens of a call more room than they need is kept.
const MANY_TOKENS: usize = 256;

/// How many parentheses are open after a token.
pub(crate) fn depth_after(deep: usize, token: &Carried<'_, '_>) -> usize
    requires { deep < usize.MAX }
    ensures depth { (s : Sets) → result ≡ depth_after deep (carrier s token.now) }
    ensures more { result ≤ deep + 1 }
{
    if is_open(token) {
        deep + 1
    } else if is_close(token) {
        deep.saturating_sub(1)
    } else {
        deep
    }
}

/// Whether a token ends a call of which so many inner parentheses are open.
pub(crate) fn ends_call(deep: usize, token: &Carried<'_, '_>) -> bool
    ensures { (s : Sets) → result ≡ (is_close (carrier s token.now) && (deep == 0)) }
{
    deep == 0 && is_close(token)
}

/// Gives back the room that many tokens of a call leave: they are held while the calls among them are expanded.
fn fit(tokens: &mut Vec<Carried<'_, '_>>)
    ensures { tokens.new.items ≡ tokens.old.items }
{
    if tokens.capacity() > MANY_TOKENS {
        tokens.shrink_to_fit();
    }
}

/// How many tokens are inside a call, after its `(`, and its `)`, where that is among them.
fn lent_close<'a, 'b>(tokens: Lent<'_, 'a, 'b>) -> Option<(usize, Carried<'a, 'b>)>
    ensures call { (s : Sets) → IfSome result (λ r. call_behind 0 (carriers s (lent_tokens tokens.entry))
        ≡ Some (record {
          inside = carriers s (take r.0 (lent_tokens tokens.entry));
          close = carrier s r.1;
          rest = carriers s (drop (r.0 + 1) (lent_tokens tokens.entry));
        })) }
    ensures known { (n : ℕ) → AreKnown n (lent_tokens tokens.entry) → IfSome result (λ r. r.1.set < n) }
    ensures within { IfSome result (λ r. r.0 < length (lent_tokens tokens.entry)) }
    ensures open { (s : Sets) → IfNone result (call_behind 0 (carriers s (lent_tokens tokens.entry)) ≡ None) }
{
    let mut deep = 0;
    for i in 0..tokens.len() {
        let token = tokens.at(i);
        if ends_call(deep, &token) {
            return Some((i, token));
        }
        deep = depth_after(deep, &token);
    }
    None
}

/// Takes a call after its `(` from a list, where none of the list's tokens is copied, nor are those of the call.
fn take_lent_call<'a, 'b>(
    list: &mut Stack<'a, 'b>,
) -> Result<Option<(Inside<'a, 'b>, Carried<'a, 'b>)>, ExpandFault>
    ensures call { (s : Sets) → IfOk result (λ call. IfSome call (λ r. call_behind 0 (carriers s list.old)
        ≡ Some (record { inside = carriers s (inside_tokens r.0); close = carrier s r.1; rest = carriers s list.new }))) }
    ensures known { (n : ℕ) → AreKnown n list.old → IfOk result (λ call. IfSome call (λ r.
        AreKnown n (inside_tokens r.0) × (r.1.set < n) × AreKnown n list.new)) }
    ensures same { IfOk result (λ call. IfNone call (list.new ≡ list.old)) }
    ensures fault { (s : Sets) → IfErr result (λ fault.
        (fault ≡ ExpandFault.UnclosedCall) × (call_behind 0 (carriers s list.old) ≡ None)) }
{
    let Some(tokens) = list.lent() else {
        return Ok(None);
    };
    let Some((count, close)) = lent_close(tokens) else {
        return Err(ExpandFault::UnclosedCall);
    };
    let Some(inside) = list.inside(count) else {
        return Ok(None);
    };
    list.skip(count + 1);
    Ok(Some((inside, close)))
}

/// Takes a call after its `(` from a list: gives what is inside, and the matching `)`.
fn take_carried_call<'a, 'b>(
    alloc: Global,
    list: &mut Stack<'a, 'b>,
) -> Result<(Vec<Carried<'a, 'b>>, Carried<'a, 'b>), ExpandFault>
    ensures call { (s : Sets) → IfOk result (λ r. call_behind 0 (carriers s list.old)
        ≡ Some (record { inside = carriers s r.0.items; close = carrier s r.1; rest = carriers s list.new })) }
    ensures known { (n : ℕ) → AreKnown n list.old
        → IfOk result (λ r. AreKnown n r.0.items × (r.1.set < n) × AreKnown n list.new) }
    ensures fault { (s : Sets) → IfErr result (λ fault.
        fault ≢ ExpandFault.NoMemory → (fault
        ≡ ExpandFault.UnclosedCall) × (call_behind 0 (carriers s list.old) ≡ None)) }
{
    let mut inside = Vec::with_capacity(alloc, LEAST_ROOM)?;
    let mut deep = 0;
    while let Some(token) = list.pop() {
        if ends_call(deep, &token) {
            fit(&mut inside);
            return Ok((inside, token));
        }
        deep = depth_after(deep, &token);
        inside.push(token)?;
    }
    Err(ExpandFault::UnclosedCall)
}

/// Takes a call after its `(` from a list: gives what is inside, and the matching `)`.
pub(crate) fn take_call<'a, 'b>(
    alloc: Global,
    list: &mut Stack<'a, 'b>,
) -> Result<(Inside<'a, 'b>, Carried<'a, 'b>), ExpandFault>
    ensures call { (s : Sets) → IfOk result (λ r. call_behind 0 (carriers s list.old)
        ≡ Some (record { inside = carriers s (inside_tokens r.0); close = carrier s r.1; rest = carriers s list.new })) }
    ensures known { (n : ℕ) → AreKnown n list.old
        → IfOk result (λ r. AreKnown n (inside_tokens r.0) × (r.1.set < n) × AreKnown n list.new) }
    ensures fault { (s : Sets) → IfErr result (λ fault.
        fault ≢ ExpandFault.NoMemory → (fault
        ≡ ExpandFault.UnclosedCall) × (call_behind 0 (carriers s list.old) ≡ None)) }
{
    if let Some(call) = take_lent_call(list)? {
        return Ok(call);
    }
    let (inside, close) = take_carried_call(alloc, list)?;
    let shared = Shared::new(alloc, inside)?;
    Ok((Inside::Shared(shared), close))
}

/// Whether arguments are split at a token, where so many commas may still split them.
fn splits(left: usize, deep: usize, token: &Carried<'_, '_>) -> bool
    ensures splits { (s : Sets) → result
        ≡ (is_comma (carrier s token.now) && ((deep == 0) && nat_lt 0 left)) }
    ensures more { OnTrue result (0 < left) }
{
    left > 0 && deep == 0 && is_comma(token)
}

/// Adds an argument that is not expanded yet, at a place inside a call.
fn push_slot<'a, 'b>(
    alloc: Global,
    slots: &mut Vec<Slot<'a, 'b>>,
    begin: usize,
    len: usize,
    given: bool,
) -> Result<(), ExpandFault>
    ensures values { (inside : List CarriedToken) → OnOk result (slot_values inside slots.new.items
        ≡ slot_values inside slots.old.items
        ++ record { written = take len (drop begin inside); expanded = []; given = given } ∷ []) }
    ensures fault { IfErr result (λ fault. fault ≡ ExpandFault.NoMemory) }
{
    slots.push(Slot::new(alloc, begin, len, given))?;
    Ok(())
}

/// The tokens split at their commas outside inner parentheses, at the first `most` of them.
fn split_at_commas<'a, 'b>(
    alloc: Global,
    most: usize,
    inside: Lent<'_, 'a, 'b>,
) -> Result<Vec<Slot<'a, 'b>>, ExpandFault>
    ensures split { (s : Sets) → IfOk result (λ slots.
        argument_values s (slot_values (lent_tokens inside.entry) slots.items)
        ≡ map unexpanded (split_at_commas most 0 (carriers s (lent_tokens inside.entry)))) }
    ensures known { (n : ℕ) → AreKnown n (lent_tokens inside.entry)
        → IfOk result (λ slots. AreKnownIn n (slot_values (lent_tokens inside.entry) slots.items)) }
    ensures fault { IfErr result (λ fault. fault ≡ ExpandFault.NoMemory) }
{
    let mut done = Vec::new(alloc);
    let mut begun = 0;
    let mut left = most;
    let mut deep = 0;
    for i in 0..inside.len() {
        let token = &inside.at(i);
        if splits(left, deep, token) {
            left -= 1;
            push_slot(alloc, &mut done, begun, i - begun, true)?;
            begun = i + 1;
        }
        deep = depth_after(deep, token);
    }
    push_slot(alloc, &mut done, begun, inside.len() - begun, true)?;
    Ok(done)
}

/// How many arguments a call has.
fn wanted_count(params: &Parameters) -> usize
    ensures count { result ≡ length (parameter_names (Some params.now)) }
    ensures few { result ≤ 256 }
{
    if params.is_variadic() {
        params.count() + 1
    } else {
        params.count()
    }
}

/// The arguments that are in a call: `()` is none where there is no parameter but the variable arguments.
fn written_arguments<'a, 'b>(
    alloc: Global,
    params: &Parameters,
    inside: Lent<'_, 'a, 'b>,
) -> Result<Vec<Slot<'a, 'b>>, ExpandFault>
    ensures args { (s : Sets) → IfOk result (λ slots. argument_values s (slot_values (lent_tokens inside.entry) slots.items)
        ≡ map unexpanded (few_arguments params.now (carriers s (lent_tokens inside.entry)))) }
    ensures known { (n : ℕ) → AreKnown n (lent_tokens inside.entry)
        → IfOk result (λ slots. AreKnownIn n (slot_values (lent_tokens inside.entry) slots.items)) }
    ensures fault { IfErr result (λ fault. fault ≡ ExpandFault.NoMemory) }
{
    if inside.len() == 0 && params.count() == 0 {
        return Ok(Vec::new(alloc));
    }
    let args = split_at_commas(alloc, params.count(), inside)?;
    Ok(args)
}

/// Adds the variable arguments where they are left out.
fn fill_up<'a, 'b>(
    alloc: Global,
    params: &Parameters,
    args: &mut Vec<Slot<'a, 'b>>,
) -> Result<(), ExpandFault>
    ensures args { (s : Sets) (inside : List CarriedToken) → OnOk result
        (argument_values s (slot_values inside args.new.items)
        ≡ filled_up params.now (argument_values s (slot_values inside args.old.items))) }
    ensures known { (n : ℕ) (inside : List CarriedToken) → AreKnownIn n (slot_values inside args.old.items)
        → OnOk result (AreKnownIn n (slot_values inside args.new.items)) }
    ensures fault { IfErr result (λ fault. fault ≡ ExpandFault.NoMemory) }
{
    if params.is_variadic() && args.len() == params.count() {
        push_slot(alloc, args, 0, 0, false)?;
    }
    Ok(())
}

/// The arguments of a call in the order of the parameters, not expanded yet.
pub(crate) fn bound<'a, 'b>(
    alloc: Global,
    params: &Parameters,
    inside: Inside<'a, 'b>,
) -> Result<Arguments<'a, 'b>, ExpandFault>
    ensures args { (s : Sets) → IfOk result (λ args. bound params.now (carriers s (inside_tokens inside.entry))
        ≡ Ok (argument_values s args)) }
    ensures known { (n : ℕ) → AreKnown n (inside_tokens inside.entry)
        → IfOk result (λ args. AreKnownIn n args) }
    ensures few { IfOk result (λ args. length args ≤ 256) }
    ensures fault { (s : Sets) → IfErr result (λ fault. fault ≢ ExpandFault.NoMemory
        → bound params.now (carriers s (inside_tokens inside.entry)) ≡ Err fault) }
{
    let mut slots = written_arguments(alloc, params, inside.tokens())?;
    fill_up(alloc, params, &mut slots)?;
    if slots.len() != wanted_count(params) {
        return Err(ExpandFault::ArgumentCount);
    }
    Ok(Arguments::new(inside, slots))
}
