//! Controlling expressions of which no token is replaced: their tokens are read one by one, and none is kept.
ghost use Rattle.std.specs.Prelude.{◌≡◌, ◌≢◌, true, Ok, Err, IfOk, IfErr};
ghost use Rattle.inc_token.specs.Views.{seen};
ghost use Rattle.inc_macro.specs.Tables.{table_of};
ghost use Rattle.inc_expand.specs.Expansion.{Meter, Place};
ghost use Rattle.inc_cond.specs.Conditions.{condition};
ghost use Rattle.inc_cond.specs.Standing.{all_stand, stands};

use crate::faults::CondFault;
use crate::headers::HeaderSearch;
use crate::operands::{Operands, source_ref};
use crate::values::CondValue;
use inc_expand::Sink;
use inc_macro::Macros;
use inc_token::{LineTokens, Token};
use std::alloc::Global;

/// Whether no macro and no predefined name is spelled as a token.
fn stands(macros: &Macros, token: &Token<'_>) -> bool
    ensures { result ≡ stands (table_of macros.now) (seen token.now) }
{
    !(macros.is_predefined(token.spelling) || macros.get(token.spelling).is_some())
}

/// Whether no macro and no predefined name is spelled as one of these tokens, which are all read.
pub fn all_stand(macros: &Macros, tokens: &mut LineTokens<'_>) -> bool
    ensures { result ≡ all_stand (table_of macros.now) tokens.old }
{
    while let Some(token) = tokens.next() {
        if !stands(macros, &token) {
            return false;
        }
    }
    true
}

/// The value of a controlling expression of which no token is replaced, as [`value`] gives it. It takes memory for what waits in the
/// expression, and none for its tokens.
pub fn standing_value<'a>(
    alloc: Global,
    tokens: &mut LineTokens<'_>,
    macros: &'a Macros,
    headers: &'a HeaderSearch<'a>,
) -> Result<CondValue, CondFault>
    ensures value { IfOk result (λ value. all_stand (table_of macros.now) tokens.old ≡ true → (place : Place) (meter : Meter) →
        condition headers.now (table_of macros.now) place meter tokens.old ≡ Ok (value, meter)) }
    ensures fault { IfErr result (λ fault. fault ≢ CondFault.NoMemory → all_stand (table_of macros.now) tokens.old ≡ true →
        (place : Place) (meter : Meter) → condition headers.now (table_of macros.now) place meter tokens.old ≡ Err fault) }
{
    let mut operands = Operands::new(alloc, macros, headers);
    while let Some(token) = tokens.next() {
        operands.take(source_ref(&token), false)?;
    }
    match operands.finish() {
        Ok(value) => Ok(value.seen()),
        Err(fault) => Err(fault),
    }
}
