//! The parameters of function-like macros.
ghost use Rattle.std.specs.Prelude.{◌≡◌, ◌≢◌, ◌+◌, ◌≤◌, ◌<◌, true, [], ◌∷◌, ◌++◌, List, Some, None, Ok, Err, map, drop, length, is_some, IfOk, IfErr, bytes_eq, position};
ghost use Rattle.std.specs.Bool.{OnTrue};
ghost use Rattle.inc_token.specs.Views.{seen};
ghost use Rattle.inc_macro.specs.Macros.{parameter_names, is_dots, is_spelled, is_taker, same_params, stands_first, takes_comma};
ghost use Rattle.inc_token.specs.TokenLines.{Tok};
ghost use Rattle.inc_macro.specs.NameLists.{is_new_name, named_with, names_in, parameters_with, counted, signature_of};

use crate::faults::DefineFault;
use crate::name_sets::DistinctNames;
use crate::reserved_names::VA_ARGS;
use crate::variables::{Variable, is_called, same_variables};
use inc_text::{Language, SeededState};
use inc_token::{Kind, Token};
use std::alloc::Global;
use std::marker::Model;

/// The parameters of a function-like macro (ISO/IEC 9899:2018, 6.10.3): at most 255 names, none of them twice, and the variable
/// arguments, where it has some.
#[derive(Drop)]
pub struct Parameters {
    names: DistinctNames,
    variable: Option<Variable>,
}

impl Model for Parameters {
    ghost use Rattle.std.specs.Prelude.{◌≤◌, length};
    ghost use Rattle.inc_macro.specs.Macros.{Params};

    ghost Value = { Params };

    ghost view = { λ p. record { names = p.names; variable = p.variable } };

    ghost invariant = { λ p. length p.names ≤ 255 };
}

/// The most names.
const MOST_NAMES: usize = 255;

impl Parameters {
    /// How many names there are, that of the variable arguments not counted: at most 255.
    pub fn count(&self) -> usize
        ensures count { result ≡ length self.now.names }
        ensures few { result ≤ 255 }
    {
        self.names.len()
    }

    /// Whether there are variable arguments.
    pub fn is_variadic(&self) -> bool
        ensures { result ≡ is_some self.now.variable }
    {
        self.variable.is_some()
    }

    /// Whether the variable arguments take a `,` with them, which is before a `##` before them.
    pub(crate) fn takes_comma(&self) -> bool
        ensures { result ≡ takes_comma self.now }
    {
        match &self.variable {
            Some(variable) => variable.takes_comma(),
            None => false,
        }
    }

    /// Whether they do, and this is their name.
    pub(crate) fn is_taker(&self, name: &[u8]) -> bool
        ensures { result ≡ is_taker self.now.variable name.now }
    {
        match &self.variable {
            Some(variable) => variable.takes_comma() && variable.is_called(name),
            None => false,
        }
    }

    /// The place of a parameter by its name, counted from 0: the variable arguments are the last.
    pub fn place_of(&self, name: &[u8]) -> Option<u8>
        ensures { result ≡ position (bytes_eq name.now) (parameter_names (Some self.now)) }
    {
        match self.names.place(name) {
            Some(place) => Some(place as u8),
            None if is_called(&self.variable, name) => Some(self.names.len() as u8),
            None => None,
        }
    }
}

/// Whether a token is spelled so.
fn is_spelled(token: &Token<'_>, text: &[u8]) -> bool
    ensures { result ≡ is_spelled text.now (seen token.now) }
{
    token.spelling == text
}

/// Whether a token that is spelled so is at a place.
fn stands_at(tokens: &[Token<'_>], at: usize, text: &[u8]) -> bool
    requires { at ≤ length tokens.now }
    ensures { result ≡ stands_first text.now (drop at (map seen tokens.now)) }
{
    at < tokens.len() && is_spelled(&tokens[at], text)
}

/// A list of parameters on the way.
#[derive(Drop)]
struct NameList {
    alloc: Global,
    keys: SeededState,
    names: DistinctNames,
}

impl NameList {
    /// Adds the name that a token is, and reports whether it is an identifier and may be in the list.
    fn add(&mut self, token: &Token<'_>) -> Result<bool, DefineFault>
        ensures new { IfOk result (λ added. added
            ≡ is_new_name self.old.names (seen token.now)) }
        ensures name { let names = self.old.names ++ token.now.spelling.now ∷ [] in
            IfOk result (λ added. OnTrue added (self.new.names ≡ names)) }
        ensures fault { IfErr result (λ fault. fault ≡ DefineFault.NoMemory) }
    {
        if token.kind != Kind::Identifier || token.spelling == VA_ARGS {
            return Ok(false);
        }
        let added = self.names.add(self.alloc, self.keys, token.spelling)?;
        Ok(added)
    }

    /// Whether a token is an identifier and may be in the list.
    fn may_have(&self, token: &Token<'_>) -> bool
        ensures { result ≡ is_new_name self.now.names (seen token.now) }
    {
        token.kind == Kind::Identifier
            && token.spelling != VA_ARGS
            && !self.names.contains(token.spelling)
    }

    /// The parameters, the last of which is a token with a `...` after it, and the place `after` of the token after them.
    /// `closes`: the `)` is right after the `...`.
    fn finish_named(
        self,
        token: &Token<'_>,
        closes: bool,
        after: usize,
    ) -> Result<(Parameters, usize), DefineFault>
        ensures done { (all : List Tok)
            → IfOk result (λ r. counted (named_with self.names (seen token.now) closes (drop after all))
            ≡ Ok (r.0, drop r.1 all)) }
        ensures after { IfOk result (λ r. (closes ≡ true) × (r.1 ≡ after)) }
        ensures fault { (rest : List Tok) → IfErr result (λ fault.
            fault ≢ DefineFault.NoMemory → counted (named_with self.names (seen token.now) closes rest) ≡ Err fault) }
    {
        if !closes || !self.may_have(token) {
            return Err(DefineFault::BadParameters);
        }
        let variable = Variable::named(self.alloc, token.spelling)?;
        self.finish(Some(variable), after)
    }

    /// The parameters, and the place `after` of the token after them.
    fn finish(
        self,
        variable: Option<Variable>,
        after: usize,
    ) -> Result<(Parameters, usize), DefineFault>
        ensures done { (all : List Tok)
            → IfOk result (λ r. counted (parameters_with self.names variable (drop after all))
            ≡ Ok (r.0, drop r.1 all)) }
        ensures after { IfOk result (λ r. r.1 ≡ after) }
        ensures fault { (rest : List Tok) → IfErr result (λ fault.
            fault ≢ DefineFault.NoMemory → counted (parameters_with self.names variable rest) ≡ Err fault) }
    {
        let NameList {
            alloc: _,
            keys: _,
            names,
        } = self;
        if names.exceeds(MOST_NAMES) {
            return Err(DefineFault::TooManyParameters);
        }
        Ok((Parameters { names, variable }, after))
    }
}

/// Whether a token is a `...` that may be after a name.
fn is_dots(language: Language, token: &Token<'_>) -> bool
    ensures { result ≡ is_dots language (seen token.now) }
{
    match language {
        Language::C17 | Language::Extended => false,
        Language::Gnu => is_spelled(token, b"..."),
    }
}

/// The parameters that are after the `(`, and the place of the token after their `)`.
fn parameters_in(
    alloc: Global,
    keys: SeededState,
    language: Language,
    tokens: &[Token<'_>],
) -> Result<(Parameters, usize), DefineFault>
    ensures done { let all = map seen tokens.now in
        IfOk result (λ r. counted (names_in language all) ≡ Ok (r.0, drop r.1 all)) }
    ensures within { IfOk result (λ r. r.1 ≤ length tokens.now) }
    ensures fault { let all = map seen tokens.now in
        IfErr result (λ fault. fault ≢ DefineFault.NoMemory → counted (names_in language all) ≡ Err fault) }
{
    let names = DistinctNames::new(alloc);
    let mut list = NameList { alloc, keys, names };
    if stands_at(tokens, 0, b")") {
        return list.finish(None, 1);
    }
    let mut at = 0;
    while at + 1 < tokens.len() {
        let closes = is_spelled(&tokens[at + 1], b")");
        if is_spelled(&tokens[at], b"...") {
            return if closes {
                list.finish(Some(Variable::unnamed(language)), at + 2)
            } else {
                Err(DefineFault::BadParameters)
            };
        }
        if is_dots(language, &tokens[at + 1]) {
            return list.finish_named(&tokens[at], stands_at(tokens, at + 2, b")"), at + 3);
        }
        if !list.add(&tokens[at])? {
            return Err(DefineFault::BadParameters);
        }
        if closes {
            return list.finish(None, at + 2);
        }
        if !is_spelled(&tokens[at + 1], b",") {
            return Err(DefineFault::BadParameters);
        }
        at += 2;
    }
    Err(DefineFault::BadParameters)
}

/// The parameters of a function-like macro, and the place of the first token of the body, from the tokens after the
/// macro's name. A `(` directly after the name makes the macro function-like (ISO/IEC 9899:2018, 6.10.3 paragraph
/// 10).
pub fn signature(
    alloc: Global,
    keys: SeededState,
    language: Language,
    tokens: &[Token<'_>],
) -> Result<(Option<Parameters>, usize), DefineFault>
    ensures done { IfOk result (λ r. signature_of language (map seen tokens.now)
        ≡ Ok (r.0, drop r.1 (map seen tokens.now))) }
    ensures within { IfOk result (λ r. r.1 ≤ length tokens.now) }
    ensures fault { let all = map seen tokens.now in
        IfErr result (λ fault. fault ≢ DefineFault.NoMemory → signature_of language all ≡ Err fault) }
{
    if tokens.is_empty() || tokens[0].space || !is_spelled(&tokens[0], b"(") {
        return Ok((None, 0));
    }
    let (parameters, after) = parameters_in(alloc, keys, language, &tokens[1..])?;
    Ok((Some(parameters), after + 1))
}

/// Whether two function-like macros have the same names in the same order, and variable arguments of one name or none.
fn same_lists(old: &Parameters, new: &Parameters) -> bool
    ensures { result ≡ same_params (Some old.now) (Some new.now) }
{
    old.names.same(&new.names) && same_variables(&old.variable, &new.variable)
}

/// Whether two macros have the same parameters; object-like ones have none.
pub fn same_params(old: &Option<Parameters>, new: &Option<Parameters>) -> bool
    ensures { result ≡ same_params old.now new.now }
{
    match (old, new) {
        (None, None) => true,
        (Some(old), Some(new)) => same_lists(old, new),
        _ => false,
    }
}
