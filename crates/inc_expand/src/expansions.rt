//! The expansion of a list of tokens that is handed in.
ghost use Rattle.std.specs.Prelude.{◌≡◌, ◌≢◌, Ok, Err, IfOk, IfErr, OnOk, OnErr, map};
ghost use Rattle.inc_token.specs.Views.{seen};
ghost use Rattle.inc_expand.specs.Expansion.{expansion};
ghost use Rattle.inc_expand.specs.Cases.{surroundings_value};
ghost use Rattle.inc_expand.specs.HeldTokens.{seen_held, seen_ref};
ghost use Rattle.inc_expand.specs.Items.{seen_item};
ghost use Rattle.inc_expand.specs.Openings.{opening};
ghost use Rattle.inc_expand.specs.Places.{surroundings};
ghost use Rattle.inc_expand.specs.Sinks.{IsExpandedInto, IsStoppedInto};

use crate::budgets::Budget;
use crate::cases::Surroundings;
use crate::faults::ExpandFault;
use crate::held::{Held, HeldRef, all_held, push_all_held};
use crate::hide_sets::HideSets;
use crate::items::{Item, items_of};
use crate::places::{Mode, Place};
use crate::sinks::Sink;
use crate::stacks::Stack;
use crate::walks::Work;
use bumpalo::Bump;
use inc_macro::Macros;
use inc_token::Token;
use std::alloc::Global;

/// Expands a list of tokens, in these surroundings.
fn expand_in<'a, 'b>(
    around: &Surroundings<'a, 'b>,
    tokens: &'b [Token<'a>],
    seed: u64,
    budget: &mut Budget,
) -> Result<Vec<Item<'a>>, ExpandFault>
    ensures items { IfOk result (λ items.
        expansion (surroundings_value around.now) budget.old (map seen tokens.now)
        ≡ Ok (map seen_item items.items, budget.new)) }
    ensures fault { IfErr result (λ fault. fault ≢ ExpandFault.NoMemory
        → expansion (surroundings_value around.now) budget.old (map seen tokens.now) ≡ Err fault) }
    ensures left { OnErr result (budget.new ≡ budget.old) }
{
    let mut work = Work {
        sets: HideSets::new(around.alloc, seed),
        meter: *budget,
    };
    let list = Stack::of_source(around.alloc, tokens);
    let out = around.expanded(&mut work, list)?;
    let items = items_of(around.alloc, &out)?;
    *budget = work.meter;
    Ok(items)
}

/// Expands a list of tokens of text, in these surroundings, and hands the items on.
fn stream_in<'a, 'b, S: Sink>(
    around: &Surroundings<'a, 'b>,
    tokens: &'b [Token<'a>],
    seed: u64,
    budget: &mut Budget,
    sink: &mut S,
) -> Result<(), ExpandFault>
    ensures items { OnOk result (IsExpandedInto S.takes (surroundings_value around.now)
        (map seen tokens.now) budget.old budget.new sink.old sink.new) }
    ensures fault { IfErr result (λ fault. fault ≢ ExpandFault.NoMemory →
        IsStoppedInto S.takes (surroundings_value around.now)
        (map seen tokens.now) budget.old sink.old sink.new fault) }
    ensures left { OnErr result (budget.new ≡ budget.old) }
{
    let mut work = Work {
        sets: HideSets::new(around.alloc, seed),
        meter: *budget,
    };
    let list = Stack::of_source(around.alloc, tokens);
    around.stream(&mut work, list, sink)?;
    *budget = work.meter;
    Ok(())
}

/// Expands tokens that wait and those of later lines as one list, in these surroundings.
fn open_in<'a, 'b>(
    around: &Surroundings<'a, 'b>,
    waiting: &[HeldRef<'a>],
    tokens: &'b [Token<'a>],
    seed: u64,
    budget: &mut Budget,
) -> Result<(Vec<Item<'a>>, Vec<Held<'a>>), ExpandFault>
    ensures items { IfOk result (λ r.
        opening (surroundings_value around.now) budget.old (map seen_ref waiting.now) (map seen tokens.now)
        ≡ Ok (map seen_item r.0.items, map seen_held r.1.items, budget.new)) }
    ensures fault { IfErr result (λ fault. fault ≢ ExpandFault.NoMemory
        → opening (surroundings_value around.now) budget.old (map seen_ref waiting.now) (map seen tokens.now) ≡ Err fault) }
    ensures left { OnErr result (budget.new ≡ budget.old) }
{
    let mut work = Work {
        sets: HideSets::new(around.alloc, seed),
        meter: *budget,
    };
    let mut list = Stack::of_source(around.alloc, tokens);
    push_all_held(&mut work.sets, waiting, &mut list)?;
    let out = around.opened(&mut work, &mut list)?;
    let items = items_of(around.alloc, &out)?;
    let call = all_held(around.alloc, &work.sets, &mut list)?;
    *budget = work.meter;
    Ok((items, call))
}

/// Expands text of GNU C that goes on in later lines: tokens that wait and those of a run of text lines as one list, up to the call that is open
/// at its end. It gives what is before that call, and the call, to wait.
pub fn expand_open<'a>(
    alloc: Global,
    waiting: &[HeldRef<'a>],
    tokens: &[Token<'a>],
    macros: &'a Macros,
    seed: u64,
    place: &Place<'a>,
    budget: &mut Budget,
) -> Result<(Vec<Item<'a>>, Vec<Held<'a>>), ExpandFault>
    ensures items { IfOk result (λ r.
        opening (surroundings macros.now Mode.Plain place.now) budget.old (map seen_ref waiting.now) (map seen tokens.now)
        ≡ Ok (map seen_item r.0.items, map seen_held r.1.items, budget.new)) }
    ensures fault { IfErr result (λ fault. fault ≢ ExpandFault.NoMemory
        → opening (surroundings macros.now Mode.Plain place.now) budget.old (map seen_ref waiting.now) (map seen tokens.now) ≡ Err fault) }
    ensures left { OnErr result (budget.new ≡ budget.old) }
{
    let arena = Bump::new(alloc);
    let around = Surroundings {
        alloc,
        arena: &arena,
        macros,
        mode: Mode::Plain,
        place: *place,
    };
    // Lent anew, for as long as the arena.
    let source = &*tokens;
    open_in(&around, waiting, source, seed, budget)
}

/// Expands a list of tokens of text as `expand` does, and hands each token on as soon as it is known, in place of holding them
/// all. Of a list with a fault some tokens may have been handed on.
pub fn expand_into<'a, S: Sink>(
    alloc: Global,
    tokens: &[Token<'a>],
    macros: &'a Macros,
    seed: u64,
    place: &Place<'a>,
    budget: &mut Budget,
    sink: &mut S,
) -> Result<(), ExpandFault>
    ensures items { OnOk result (IsExpandedInto S.takes (surroundings macros.now Mode.Plain place.now)
        (map seen tokens.now) budget.old budget.new sink.old sink.new) }
    ensures fault { IfErr result (λ fault. fault ≢ ExpandFault.NoMemory →
        IsStoppedInto S.takes (surroundings macros.now Mode.Plain place.now)
        (map seen tokens.now) budget.old sink.old sink.new fault) }
    ensures left { OnErr result (budget.new ≡ budget.old) }
{
    let arena = Bump::new(alloc);
    let around = Surroundings {
        alloc,
        arena: &arena,
        macros,
        mode: Mode::Plain,
        place: *place,
    };
    // Lent anew, for as long as the arena.
    let source = &*tokens;
    stream_in(&around, source, seed, budget, sink)
}

/// Expands the tokens of a controlling expression as `expand` does, and hands each token on as `expand_into` does.
pub fn expand_condition_into<'a, S: Sink>(
    alloc: Global,
    tokens: &[Token<'a>],
    macros: &'a Macros,
    seed: u64,
    place: &Place<'a>,
    budget: &mut Budget,
    sink: &mut S,
) -> Result<(), ExpandFault>
    ensures items { OnOk result (IsExpandedInto S.takes (surroundings macros.now Mode.Condition place.now)
        (map seen tokens.now) budget.old budget.new sink.old sink.new) }
    ensures fault { IfErr result (λ fault. fault ≢ ExpandFault.NoMemory →
        IsStoppedInto S.takes (surroundings macros.now Mode.Condition place.now)
        (map seen tokens.now) budget.old sink.old sink.new fault) }
    ensures left { OnErr result (budget.new ≡ budget.old) }
{
    let arena = Bump::new(alloc);
    let around = Surroundings {
        alloc,
        arena: &arena,
        macros,
        mode: Mode::Condition,
        place: *place,
    };
    // Lent anew, for as long as the arena.
    let source = &*tokens;
    stream_in(&around, source, seed, budget, sink)
}

/// Expands a list of tokens: replaces the macros and the predefined names in it (ISO/IEC 9899:2018, 6.10.3.1 to
/// 6.10.3.4 and 6.10.8). The items are in new memory from `alloc`, but that bytes of the source and of definitions are
/// borrowed. Whoever writes the names cannot choose ones that make look-ups slow unless the seed is known.
///
/// A list may have the tokens of several lines. A new-line is white space (6.10.3 paragraph 10), so the first token of
/// each further line has to say by its `space` that white space is before it, which `lex` does not.
///
/// Of several faults the one that the expansion meets first is reported. What is paid for goes off the budget; after a
/// fault the budget is as it was.
pub fn expand<'a>(
    alloc: Global,
    tokens: &[Token<'a>],
    macros: &'a Macros,
    seed: u64,
    mode: Mode,
    place: &Place<'a>,
    budget: &mut Budget,
) -> Result<Vec<Item<'a>>, ExpandFault>
    ensures items { IfOk result (λ items.
        expansion (surroundings macros.now mode place.now) budget.old (map seen tokens.now)
        ≡ Ok (map seen_item items.items, budget.new)) }
    ensures fault { IfErr result (λ fault. fault ≢ ExpandFault.NoMemory
        → expansion (surroundings macros.now mode place.now) budget.old (map seen tokens.now)
        ≡ Err fault) }
    ensures left { OnErr result (budget.new ≡ budget.old) }
{
    let arena = Bump::new(alloc);
    let around = Surroundings {
        alloc,
        arena: &arena,
        macros,
        mode,
        place: *place,
    };
    // Lent anew, for as long as the arena.
    let source = &*tokens;
    expand_in(&around, source, seed, budget)
}
