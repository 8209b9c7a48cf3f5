//! Calls that are open where a run of text lines ends.
ghost use Rattle.std.specs.Prelude.{◌≡◌, ◌+◌, suc, map, drop, length, IfOk};
ghost use Rattle.inc_token.specs.Views.{seen};
ghost use Rattle.inc_expand.specs.HeldTokens.{seen_held};
ghost use Rattle.inc_pp.specs.OpenCalls as spec;

use inc_expand::Held;
use inc_token::Token;
use std::alloc::AllocError;

/// Whether it is `(`.
fn is_open(spelling: &[u8]) -> bool
    ensures { result ≡ spec.is_open spelling.now }
{
    matches!(spelling, [b'('])
}

/// Whether it is `)`.
fn is_close(spelling: &[u8]) -> bool
    ensures { result ≡ spec.is_close spelling.now }
{
    matches!(spelling, [b')'])
}

/// How many parentheses of a call are open after a token: 0 once none is.
fn open_after(deep: usize, spelling: &[u8]) -> Result<usize, AllocError>
    ensures { IfOk result (λ after. after ≡ spec.open_after deep spelling.now) }
{
    if deep == 0 {
        return Ok(0);
    }
    if is_open(spelling) {
        let Some(deeper) = deep.checked_add(1) else {
            // No memory has room for so many tokens.
            return Err(AllocError);
        };
        return Ok(deeper);
    }
    if is_close(spelling) {
        return Ok(deep - 1);
    }
    Ok(deep)
}

/// How many are open after a run of text lines, before which so many are open.
pub(crate) fn open_behind(deep: usize, tokens: &[Token<'_>]) -> Result<usize, AllocError>
    ensures { IfOk result (λ after. after ≡ spec.open_behind deep (spec.spellings (map seen tokens.now))) }
{
    if deep == 0 {
        return Ok(0);
    }
    let mut after = deep;
    let mut left = tokens;
    while let [token, rest @ ..] = left {
        after = open_after(after, token.spelling)?;
        left = rest;
    }
    Ok(after)
}

/// How many are open after a call that waits.
pub(crate) fn open_in_call(call: &[Held<'_>]) -> Result<usize, AllocError>
    ensures { IfOk result (λ after. after ≡ spec.open_in_call (map seen_held call.now)) }
{
    match call {
        [_, _, behind @ ..] => open_behind_held(behind),
        _ => Ok(0),
    }
}

/// How many are open after the tokens behind the first parenthesis of a call.
fn open_behind_held(tokens: &[Held<'_>]) -> Result<usize, AllocError>
    ensures { IfOk result (λ after. after ≡ spec.open_behind 1 (spec.held_spellings (map seen_held tokens.now))) }
{
    let mut after = 1;
    let mut left = tokens;
    while let [token, rest @ ..] = left {
        after = open_after(after, token.item.spelling.bytes())?;
        left = rest;
    }
    Ok(after)
}
