//! Definitions as they are read from the tokens of a directive.
ghost use Rattle.std.specs.Prelude.{◌&&◌, ◌||◌, ◌+◌, ◌<◌, ◌^◌, not, nat_lt, is_some, ◌≡◌, ◌≢◌, ◌≤◌, true, false, [], ◌∷◌, Ok, Err, Some, None, OnOk, map, drop, length, IfOk, IfErr, bytes_eq};
ghost use Rattle.std.specs.List.{list_any};
ghost use Rattle.inc_token.specs.Views.{seen};
ghost use Rattle.inc_macro.specs.Macros.{begins_with_comma, begins_with_chain, begins_with_left, begins_with_paste, begins_with_taken, begins_with_taker, body_fault, body_of, definition_after, definition_in, depth_at, ends_in_paste, follows_optional, has_bad_comma, has_bad_optional, has_lone_hash, has_stray_va_args, has_variable, is_among, is_closed, is_left, is_match, name_at, operand_names, parameter_follows, parameter_names, takes_comma, va_args, va_opt, variable_fault};
ghost use Rattle.inc_macro.specs.Roles.{comma_at, roles_from};
ghost use Rattle.inc_macro.specs.Views.{spellings_in};
ghost use Rattle.inc_token.specs.declared.lines.Token.{Token};
ghost use Rattle.inc_macro.specs.declared.roles.Before.TheVariants.{Neither};

use crate::bodies::Body;
use crate::definitions::Definition;
use crate::faults::DefineFault;
use crate::parameters::{Parameters, signature};
use crate::reserved_names::{VA_ARGS, is_reserved};
use crate::roles::{
    Before, before_after, before_next, comma_role, is_comma, is_hash, is_paste, is_va_opt, role_at,
};
use inc_text::{Language, SeededState};
use inc_token::{Kind, Token};
use std::alloc::{AllocError, Global};

/// The name that the tokens after `define` or `undef` begin with.
pub fn name_at<'a>(language: Language, tokens: &[Token<'a>]) -> Result<&'a [u8], DefineFault>
    ensures name { IfOk result (λ name. name_at language (map seen tokens.now) ≡ Ok name.now) }
    ensures some { IfOk result (λ name. 1 ≤ length tokens.now) }
    ensures fault { IfErr result (λ fault. name_at language (map seen tokens.now) ≡ Err fault) }
{
    let Some(first) = tokens.first() else {
        return Err(DefineFault::NoName);
    };
    if first.kind != Kind::Identifier {
        return Err(DefineFault::NoName);
    }
    if is_reserved(language, first.spelling) {
        return Err(DefineFault::ReservedName);
    }
    Ok(first.spelling)
}

/// Whether the token at a place is a parameter.
fn parameter_follows(params: &Parameters, tokens: &[Token<'_>], at: usize) -> bool
    ensures { result ≡ parameter_follows (parameter_names (Some params.now))
        (drop at (spellings_in tokens.now)) }
{
    at < tokens.len() && params.place_of(tokens[at].spelling).is_some()
}

/// Whether the token at a place is one that may stand after a `#`: a parameter, or the `__VA_OPT__` of GNU C.
fn operand_follows(params: &Parameters, tokens: &[Token<'_>], at: usize) -> bool
    ensures { result ≡ parameter_follows (operand_names (Some params.now))
        (drop at (spellings_in tokens.now)) }
{
    if params.takes_comma() {
        return va_opt_follows(tokens, at) || parameter_follows(params, tokens, at);
    }
    parameter_follows(params, tokens, at)
}

/// Whether `__VA_OPT__` is at a place.
fn va_opt_follows(tokens: &[Token<'_>], at: usize) -> bool
    ensures { result ≡ parameter_follows (va_opt ∷ []) (drop at (spellings_in tokens.now)) }
{
    at < tokens.len() && is_va_opt(tokens[at].spelling)
}

/// Whether a `#` is at a place without such a token after it.
fn is_lone_hash(params: &Parameters, tokens: &[Token<'_>], at: usize) -> bool
    requires { at < length tokens.now }
    ensures { let names = operand_names (Some params.now) in
        let texts = spellings_in tokens.now in
        has_lone_hash names (drop at texts) ≡ (result || has_lone_hash names (drop (at + 1) texts)) }
{
    is_hash(tokens[at].spelling) && !operand_follows(params, tokens, at + 1)
}

/// Whether some `#` has no parameter after it (ISO/IEC 9899:2018, 6.10.3.2 paragraph 1), which counts in
/// function-like macros.
fn has_lone_hash(params: &Option<Parameters>, tokens: &[Token<'_>]) -> bool
    ensures { result ≡ (is_some params.now && has_lone_hash (operand_names params.now)
        (spellings_in tokens.now)) }
{
    match params {
        Some(params) => {
            for i in 0..tokens.len() {
                if is_lone_hash(params, tokens, i) {
                    return true;
                }
            }
            false
        }
        None => false,
    }
}

/// Whether a token is `__VA_ARGS__`.
fn any_va_args(tokens: &[Token<'_>]) -> bool
    ensures { result ≡ list_any (λ (t : Token). bytes_eq va_args t.spelling.now) tokens.now }
{
    tokens.iter().any(|t| VA_ARGS == t.spelling)
}

/// Whether a macro has variable arguments.
fn has_variable(params: &Option<Parameters>) -> bool
    ensures { result ≡ has_variable params.now }
{
    match params {
        Some(params) => params.is_variadic(),
        None => false,
    }
}

/// Whether `__VA_ARGS__` is in the body of a macro without variable arguments, where that is a fault.
fn has_stray_va_args(language: Language, params: &Option<Parameters>, tokens: &[Token<'_>]) -> bool
    ensures { result ≡ has_stray_va_args language params.now (spellings_in tokens.now) }
{
    if language.is_gnu() {
        return false;
    }
    any_va_args(tokens) && !has_variable(params)
}

/// Whether a `##` is at a place.
fn paste_follows(tokens: &[Token<'_>], at: usize) -> bool
    ensures { result ≡ begins_with_paste (drop at (spellings_in tokens.now)) }
{
    at < tokens.len() && is_paste(tokens[at].spelling)
}

/// Whether a `,` is at a place.
fn comma_follows(tokens: &[Token<'_>], at: usize) -> bool
    ensures { result ≡ begins_with_comma (drop at (spellings_in tokens.now)) }
{
    at < tokens.len() && is_comma(tokens[at].spelling)
}

/// Whether the variable arguments are at a place, and take a `,` with them.
fn taker_follows(params: &Parameters, tokens: &[Token<'_>], at: usize) -> bool
    ensures { result ≡ begins_with_taker params.now (drop at (spellings_in tokens.now)) }
{
    at < tokens.len() && params.is_taker(tokens[at].spelling)
}

/// Whether a `,` that goes with the variable arguments is at a place.
fn taken_follows(params: &Parameters, tokens: &[Token<'_>], at: usize) -> bool
    requires { at ≤ length tokens.now }
    ensures { result ≡ begins_with_taken params.now (drop at (spellings_in tokens.now)) }
{
    if !comma_follows(tokens, at) {
        return false;
    }
    paste_follows(tokens, at + 1) && taker_follows(params, tokens, at + 2)
}

/// Whether a `,`, a `##`, a parameter and a `##` are at a place.
fn chain_follows(params: &Parameters, tokens: &[Token<'_>], at: usize) -> bool
    requires { at < length tokens.now }
    ensures { result ≡ begins_with_chain params.now (drop at (spellings_in tokens.now)) }
{
    if !comma_follows(tokens, at) {
        return false;
    }
    if !paste_follows(tokens, at + 1) {
        return false;
    }
    parameter_follows(params, tokens, at + 2) && paste_follows(tokens, at + 3)
}

/// Whether such a chain is at a place, or a `##` and a `,` that goes with the variable arguments.
fn bad_comma_follows(params: &Parameters, tokens: &[Token<'_>], at: usize) -> bool
    requires { at < length tokens.now }
    ensures { let texts = spellings_in tokens.now in
        has_bad_comma params.now (drop at texts) ≡ (result || has_bad_comma params.now (drop (at + 1) texts)) }
{
    if chain_follows(params, tokens, at) {
        return true;
    }
    paste_follows(tokens, at) && taken_follows(params, tokens, at + 1)
}

/// Whether one of these is at some place.
fn has_bad_comma(params: &Parameters, tokens: &[Token<'_>]) -> bool
    ensures { result ≡ has_bad_comma params.now (spellings_in tokens.now) }
{
    for i in 0..tokens.len() {
        if bad_comma_follows(params, tokens, i) {
            return true;
        }
    }
    false
}

/// Whether the `)` of an optional part is at a place, where so many parentheses are open.
fn is_match(deep: usize, spelling: &[u8]) -> bool
    ensures { result ≡ is_match deep spelling.now }
{
    matches!(spelling, b")") && deep == 0
}

/// How many parentheses are open after a token.
fn depth_at(deep: usize, spelling: &[u8]) -> usize
    requires { deep < 2 ^ 60 }
    ensures depth { result ≡ depth_at deep spelling.now }
    ensures most { result ≤ deep + 1 }
{
    match spelling {
        b"(" => deep + 1,
        b")" => deep.saturating_sub(1),
        _ => deep,
    }
}

/// Whether an optional part that begins at a place has its `)`, and before it no other and no `##` as the last token.
fn is_closed(tokens: &[Token<'_>], from: usize) -> bool
    ensures { result ≡ is_closed 0 false (drop from (spellings_in tokens.now)) }
{
    let mut deep = 0usize;
    let mut pastes = false;
    for i in from..tokens.len() {
        let spelling = tokens[i].spelling;
        if is_match(deep, spelling) {
            return !pastes;
        }
        if is_va_opt(spelling) {
            return false;
        }
        deep = depth_at(deep, spelling);
        pastes = is_paste(spelling);
    }
    false
}

/// Whether a token is spelled as a `(`.
fn is_left(spelling: &[u8]) -> bool
    ensures { result ≡ is_left spelling.now }
{
    matches!(spelling, b"(")
}

/// Whether a `(` is at a place.
fn left_follows(tokens: &[Token<'_>], at: usize) -> bool
    ensures { result ≡ begins_with_left (drop at (spellings_in tokens.now)) }
{
    at < tokens.len() && is_left(tokens[at].spelling)
}

/// Whether what may be after `__VA_OPT__` is at a place.
fn optional_follows(tokens: &[Token<'_>], at: usize) -> bool
    ensures { result ≡ follows_optional (drop at (spellings_in tokens.now)) }
{
    if !left_follows(tokens, at) {
        return false;
    }
    !paste_follows(tokens, at + 1) && is_closed(tokens, at + 1)
}

/// Whether a `__VA_OPT__` is at a place that has something else after it.
fn bad_optional_follows(tokens: &[Token<'_>], at: usize) -> bool
    requires { at < length tokens.now }
    ensures { let texts = spellings_in tokens.now in
        has_bad_optional (drop at texts) ≡ (result || has_bad_optional (drop (at + 1) texts)) }
{
    is_va_opt(tokens[at].spelling) && !optional_follows(tokens, at + 1)
}

/// Whether such a one is at some place. Where none is, each is walked over once.
fn has_bad_optional(tokens: &[Token<'_>]) -> bool
    ensures { result ≡ has_bad_optional (spellings_in tokens.now) }
{
    for i in 0..tokens.len() {
        if bad_optional_follows(tokens, i) {
            return true;
        }
    }
    false
}

/// Whether a parameter is called `__VA_OPT__`.
fn names_optional(params: &Parameters) -> bool
    ensures { result ≡ is_among va_opt (parameter_names (Some params.now)) }
{
    params.place_of(b"__VA_OPT__").is_some()
}

/// The rule for variable arguments that these tokens break in GNU C.
fn variable_fault(params: &Option<Parameters>, tokens: &[Token<'_>]) -> Option<DefineFault>
    ensures { result ≡ variable_fault params.now (spellings_in tokens.now) }
{
    match params {
        Some(params) if params.takes_comma() => taker_fault(params, tokens),
        _ => None,
    }
}

/// The same, where the variable arguments take a `,` with them.
fn taker_fault(params: &Parameters, tokens: &[Token<'_>]) -> Option<DefineFault>
    requires { takes_comma params.now ≡ true }
    ensures { result ≡ variable_fault (Some params.now) (spellings_in tokens.now) }
{
    if names_optional(params) || has_bad_optional(tokens) {
        Some(DefineFault::BadOptional)
    } else if has_bad_comma(params, tokens) {
        Some(DefineFault::BadComma)
    } else {
        None
    }
}

/// Whether a `##` is last.
fn paste_ends(tokens: &[Token<'_>]) -> bool
    ensures { result ≡ ends_in_paste (spellings_in tokens.now) }
{
    let len = tokens.len();
    len > 0 && is_paste(tokens[len - 1].spelling)
}

/// Whether `##` is first or last (6.10.3.3 paragraph 1).
fn has_paste_at_end(tokens: &[Token<'_>]) -> bool
    ensures { result ≡ (begins_with_paste (spellings_in tokens.now) || ends_in_paste
        (spellings_in tokens.now)) }
{
    paste_follows(tokens, 0) || paste_ends(tokens)
}

/// The rule that these tokens break as the body of a macro with these parameters.
fn body_fault(
    language: Language,
    params: &Option<Parameters>,
    tokens: &[Token<'_>],
) -> Option<DefineFault>
    ensures { result ≡ body_fault language params.now (spellings_in tokens.now) }
{
    if has_stray_va_args(language, params, tokens) {
        Some(DefineFault::StrayVaArgs)
    } else if has_lone_hash(params, tokens) {
        Some(DefineFault::HashWithoutParameter)
    } else if has_paste_at_end(tokens) {
        Some(DefineFault::PasteAtEnd)
    } else {
        variable_fault(params, tokens)
    }
}

/// The place of the variable arguments that a `,` at a place goes with.
fn comma_at(params: &Option<Parameters>, tokens: &[Token<'_>], at: usize) -> Option<u8>
    requires { at < length tokens.now }
    ensures { result ≡ comma_at params.now (drop at (spellings_in tokens.now)) }
{
    match params {
        Some(params) if taken_follows(params, tokens, at) => Some(params.count() as u8),
        _ => None,
    }
}

/// Whether the white space before the token at a place is kept.
fn keeps_space(space: bool, at: usize) -> bool
    ensures { result ≡ (space && nat_lt 0 at) }
{
    space && at > 0
}

/// How many bytes the spellings of tokens take.
fn bytes_of(tokens: &[Token<'_>]) -> usize {
    let mut bytes = 0usize;
    for token in tokens {
        bytes = bytes.saturating_add(token.spelling.len());
    }
    bytes
}

/// The body that the tokens make, with the macro's name. White space before its first token is not kept.
fn body_of(
    alloc: Global,
    name: &[u8],
    params: &Option<Parameters>,
    tokens: &[Token<'_>],
) -> Result<Body, AllocError>
    ensures name { IfOk result (λ body. body.name ≡ name.now) }
    ensures tokens { IfOk result (λ body. body.tokens ≡ body_of (map seen tokens.now)) }
    ensures roles { IfOk result (λ body. body.roles
        ≡ roles_from params.now Neither (spellings_in tokens.now)) }
{
    let mut body = Body::with_room(alloc, name, tokens.len(), bytes_of(tokens))?;
    let mut before = Before::Neither;
    for i in 0..tokens.len() {
        let token = tokens[i];
        let comma = comma_at(params, tokens, i);
        let role = role_at(params, before, paste_follows(tokens, i + 1), token.spelling);
        let space = keeps_space(token.space, i);
        body.push(token.kind, token.spelling, space, comma_role(comma, role))?;
        before = before_after(comma, before_next(params, before, token.spelling));
    }
    Ok(body)
}

/// The body that the tokens make, with the macro's name, unless a rule for bodies refuses it.
fn checked_body(
    alloc: Global,
    language: Language,
    name: &[u8],
    params: &Option<Parameters>,
    tokens: &[Token<'_>],
) -> Result<Body, DefineFault>
    ensures name { IfOk result (λ body. body.name ≡ name.now) }
    ensures good { OnOk result (body_fault language params.now (spellings_in tokens.now) ≡ None) }
    ensures tokens { IfOk result (λ body. body.tokens ≡ body_of (map seen tokens.now)) }
    ensures roles { IfOk result (λ body. body.roles
        ≡ roles_from params.now Neither (spellings_in tokens.now)) }
    ensures fault { let texts = spellings_in tokens.now in
        IfErr result (λ fault. fault ≢ DefineFault.NoMemory → body_fault language params.now texts ≡ Some fault) }
{
    if let Some(fault) = body_fault(language, params, tokens) {
        return Err(fault);
    }
    let body = body_of(alloc, name, params, tokens)?;
    Ok(body)
}

/// The definition of a name that the tokens after it give.
fn definition_after(
    alloc: Global,
    keys: SeededState,
    language: Language,
    name: &[u8],
    tokens: &[Token<'_>],
) -> Result<Definition, DefineFault>
    ensures done { IfOk result (λ definition. definition_after language name.now (map seen tokens.now)
        ≡ Ok definition) }
    ensures fault { let all = map seen tokens.now in
        IfErr result (λ fault. fault ≢ DefineFault.NoMemory → definition_after language name.now all ≡ Err fault) }
{
    let (params, at) = signature(alloc, keys, language, tokens)?;
    let body = checked_body(alloc, language, name, &params, &tokens[at..])?;
    Ok(Definition::new(params, body))
}

/// The definition that the tokens after `define` give.
pub fn definition_in(
    alloc: Global,
    keys: SeededState,
    language: Language,
    tokens: &[Token<'_>],
) -> Result<Definition, DefineFault>
    ensures done { IfOk result (λ definition. definition_in language (map seen tokens.now) ≡ Ok definition) }
    ensures fault { let all = map seen tokens.now in
        IfErr result (λ fault. fault ≢ DefineFault.NoMemory → definition_in language all ≡ Err fault) }
{
    let name = name_at(language, tokens)?;
    definition_after(alloc, keys, language, name, &tokens[1..])
}
