//! The value of a controlling expression.
ghost use Rattle.std.specs.Prelude.{◌≡◌, ◌≢◌, Ok, Err, IfOk, IfErr, OnErr, map};
ghost use Rattle.inc_token.specs.Views.{seen};
ghost use Rattle.inc_macro.specs.Tables.{table_of};
ghost use Rattle.inc_expand.specs.Places.{place_value};
ghost use Rattle.inc_cond.specs.Conditions.{condition};

use crate::faults::CondFault;
use crate::headers::HeaderSearch;
use crate::operands::Operands;
use crate::values::CondValue;
use inc_expand::{Budget, ExpandFault, Place, expand_condition_into};
use inc_macro::Macros;
use inc_token::Token;
use std::alloc::Global;

/// The value of a controlling expression: of the tokens after `#if` or `#elif` (ISO/IEC 9899:2018, 6.10.1). They are expanded
/// first, where `defined` keeps the name that it asks for; every other identifier that is left is 0. The seed is that of [`expand`].
///
/// `__has_include` and `__has_include_next` of GNU C look for headers as `headers` says, and read none.
///
/// Parts that `&&`, `||` and `?:` do not reach are not evaluated, but must be expressions. What the expansion
/// pays for goes off the budget; after a fault the budget is as it was.
pub fn value<'a>(
    alloc: Global,
    tokens: &[Token<'a>],
    macros: &'a Macros,
    seed: u64,
    place: &Place<'a>,
    budget: &mut Budget,
    headers: &'a HeaderSearch<'a>,
) -> Result<CondValue, CondFault>
    ensures value { IfOk result (λ value.
        condition headers.now (table_of macros.now) (place_value place.now) budget.old (map seen tokens.now)
        ≡ Ok (value, budget.new)) }
    ensures fault { IfErr result (λ fault. fault ≢ CondFault.NoMemory →
        condition headers.now (table_of macros.now) (place_value place.now) budget.old (map seen tokens.now)
        ≡ Err fault) }
    ensures left { OnErr result (budget.new ≡ budget.old) }
{
    let mut spent = *budget;
    let mut operands = Operands::new(alloc, macros, headers);
    match expand_condition_into(
        alloc,
        tokens,
        macros,
        seed,
        place,
        &mut spent,
        &mut operands,
    ) {
        Ok(()) => {}
        Err(ExpandFault::NoMemory) => return Err(CondFault::NoMemory),
        Err(fault) => return Err(CondFault::Expand(fault)),
    }
    match operands.finish() {
        Ok(value) => {
            *budget = spent;
            Ok(value.seen())
        }
        Err(fault) => Err(fault),
    }
}
