//! What happens at the front of a list of tokens (ISO/IEC 9899:2018, 6.10.1, 6.10.3 and 6.10.8).
ghost use Rattle.std.specs.Prelude.{◌≡◌, ◌&&◌, ◌||◌, ◌<◌, ◌+◌, ◌++◌, IfOk, IfErr, IfSome, OnOk, Some, bytes_eq, codes, option_map, slice_get, take, drop};
ghost use Rattle.inc_macro.specs.Macros.{asks_headers, is_identifier_kind};
ghost use Rattle.inc_macro.specs.Tables.{table_of};
ghost use Rattle.inc_expand.specs.Sets.{Sets, size};
ghost use Rattle.inc_expand.specs.Expansion.{Carrier, asked_count, case_of, header_count, is_asking, macro_case, name_case, predefined, taken_count, through_close};
ghost use Rattle.inc_expand.specs.Carriers.{bytes_in, carrier, carriers};
ghost use Rattle.inc_expand.specs.Places.{predefined_value};
ghost use Rattle.inc_expand.specs.Cases.{case_value, is_name_in, is_spelled_in, named_value, surroundings_value, HasName, HasNameIn};

use crate::carried::{Carried, is_close, is_open};
use crate::faults::ExpandFault;
use crate::hide_sets::HideSets;
use crate::places::{Mode, Place};
use crate::predefined::{Predefined, predefined_at};
use crate::stacks::Stack;
use bumpalo::Bump;
use inc_macro::{Definition, Macros, Parameters};
use inc_token::Kind;
use std::alloc::Global;

/// What an expansion reads and never changes, and where it takes memory.
#[derive(Clone, Copy)]
pub(crate) struct Surroundings<'a, 'b> {
    pub(crate) alloc: Global,
    /// The bytes of the tokens that are made.
    pub(crate) arena: &'b Bump,
    pub(crate) macros: &'a Macros,
    pub(crate) mode: Mode,
    pub(crate) place: Place<'a>,
}

/// What happens at the front of a list.
#[derive(Clone, Copy)]
pub(crate) enum Case<'a, 'b> {
    /// The token passes, and so many after it.
    Passes(usize),
    IsPredefined(Predefined<'a, 'b>),
    IsObject(&'a Definition),
    /// A call, whose `(` is the next token.
    IsCall(&'a Definition, &'a Parameters),
}

/// Whether a token is an identifier.
fn is_name(token: &Carried<'_, '_>) -> bool
    ensures { result ≡ is_identifier_kind token.now.kind }
{
    match token.kind {
        Kind::Identifier => true,
        _ => false,
    }
}

/// Whether an identifier is at a place.
fn is_name_at(list: &Stack<'_, '_>, i: usize) -> bool
    ensures { result ≡ is_name_in (slice_get list.now i) }
{
    match list.get(i) {
        Some(token) => is_name(&token),
        None => false,
    }
}

/// Whether `(` is at a place.
fn is_open_at(list: &Stack<'_, '_>, i: usize) -> bool
    ensures { result ≡ is_spelled_in (codes "(") (slice_get list.now i) }
{
    match list.get(i) {
        Some(token) => is_open(&token),
        None => false,
    }
}

/// Whether `(` comes next.
fn is_open_next(list: &Stack<'_, '_>) -> bool
    ensures { result ≡ is_spelled_in (codes "(") (slice_get list.now 0) }
{
    is_open_at(list, 0)
}

/// Whether `)` is at a place.
fn is_close_at(list: &Stack<'_, '_>, i: usize) -> bool
    ensures { result ≡ is_spelled_in (codes ")") (slice_get list.now i) }
{
    match list.get(i) {
        Some(token) => is_close(&token),
        None => false,
    }
}

/// Whether a list begins with an identifier in parentheses.
fn begins_in_parentheses(list: &Stack<'_, '_>) -> bool
    ensures { result ≡ (is_spelled_in (codes "(") (slice_get list.now 0)
        && (is_name_in (slice_get list.now 1)
        && is_spelled_in (codes ")") (slice_get list.now 2))) }
{
    is_open_next(list) && is_name_at(list, 1) && is_close_at(list, 2)
}

/// Whether a token with this spelling is at a place.
fn is_spelled_at(list: &Stack<'_, '_>, i: usize, text: &[u8]) -> bool
    ensures { result ≡ is_spelled_in text.now (slice_get list.now i) }
{
    match list.get(i) {
        Some(token) => token.bytes() == text,
        None => false,
    }
}

/// How many tokens `defined` takes with it: an identifier, or one in parentheses.
fn asked_count(list: &Stack<'_, '_>) -> usize
    ensures { (s : Sets) → result ≡ asked_count (carriers s list.now) }
{
    if is_name_at(list, 0) {
        1
    } else if begins_in_parentheses(list) {
        3
    } else {
        0
    }
}

/// The place after the first `>` from a place on, or after all tokens where there is none.
fn header_end(list: &Stack<'_, '_>, from: usize) -> usize
    ensures { (s : Sets) → result ≡ from + through_close (carriers s (drop from list.now)) }
{
    let end = list.len();
    for at in from..end {
        if is_spelled_at(list, at, b">") {
            return at + 1;
        }
    }
    if end < from { from } else { end }
}

/// How many tokens `__has_include` takes with it: where `(` and `<` come next, these and the header's name. Since no token is looked at that
/// is not taken, those of a list are looked at once.
fn header_count(list: &Stack<'_, '_>) -> usize
    ensures { (s : Sets) → result ≡ header_count (carriers s list.now) }
{
    if is_open_next(list) && is_spelled_at(list, 1, b"<") {
        return header_end(list, 2);
    }
    0
}

/// How many tokens a name takes with it that asks.
fn taken_count(name: &[u8], list: &Stack<'_, '_>) -> usize
    ensures { (s : Sets) → result ≡ taken_count name.now (carriers s list.now) }
{
    if name == b"defined".as_slice() {
        asked_count(list)
    } else {
        header_count(list)
    }
}

/// What happens at the name of a macro before these tokens, where it does not pass.
fn macro_case<'a, 'b>(macro_: &'a Definition, list: &Stack<'a, 'b>) -> Option<Case<'a, 'b>>
    ensures case { (s : Sets) (token : Carrier) →
        macro_case token (carriers s list.now) (Some macro_.now)
        ≡ named_value result token (carriers s list.now) }
    ensures name { (token : Carrier) → HasNameIn token result }
{
    match macro_.params() {
        None => Some(Case::IsObject(macro_)),
        Some(params) => {
            if is_open_next(list) {
                Some(Case::IsCall(macro_, params))
            } else {
                None
            }
        }
    }
}

impl<'a, 'b> Surroundings<'a, 'b> {
    /// Whether a token asks in a controlling expression: `defined`, and in GNU C `__has_include`.
    fn is_asking(&self, token: &Carried<'a, 'b>) -> bool
        ensures { (s : Sets) → result
            ≡ is_asking self.now.mode (table_of self.now.macros.now).language (carrier s token.now) }
    {
        match self.mode {
            Mode::Plain => false,
            Mode::Condition => is_name(token) && self.asks(token.bytes()),
        }
    }

    /// Whether `#if` asks by a name.
    fn asks(&self, name: &[u8]) -> bool
        ensures { result ≡ (bytes_eq name.now (codes "defined")
            || asks_headers (table_of self.now.macros.now).language name.now) }
    {
        name == b"defined".as_slice() || self.macros.asks_headers(name)
    }

    /// The token that replaces a predefined name on a physical line.
    fn predefined(&self, line: u32, name: &[u8]) -> Result<Option<Predefined<'a, 'b>>, ExpandFault>
        ensures token { IfOk result (λ made. option_map predefined_value made
            ≡ predefined (surroundings_value self.now) line name.now) }
        ensures name { IfOk result (λ made. IfSome made (λ p. p.name.now ≡ name.now)) }
        ensures fault { IfErr result (λ fault. fault ≡ ExpandFault.NoMemory) }
    {
        if !self.macros.is_predefined(name) {
            return Ok(None);
        }
        let language = self.macros.language();
        predefined_at(self.alloc, self.arena, language, &self.place, line, name)
    }

    /// What happens at a name before these tokens, where it does not pass and no set hides it.
    fn named(
        &self,
        token: &Carried<'a, 'b>,
        list: &Stack<'a, 'b>,
    ) -> Result<Option<Case<'a, 'b>>, ExpandFault>
        ensures case { (s : Sets) → IfOk result (λ named.
            name_case (surroundings_value self.now) (carrier s token.now) (carriers s list.now)
            (predefined (surroundings_value self.now) token.now.line (bytes_in token.now.text))
            ≡ named_value named (carrier s token.now) (carriers s list.now)) }
        ensures name { (s : Sets) → IfOk result (λ named. HasNameIn (carrier s token.now) named) }
        ensures fault { IfErr result (λ fault. fault ≡ ExpandFault.NoMemory) }
    {
        let name = token.bytes();
        let made = self.predefined(token.line, name)?;
        if let Some(made) = made {
            return Ok(Some(Case::IsPredefined(made)));
        }
        match self.macros.get(name) {
            Some(macro_) => Ok(macro_case(macro_, list)),
            None => Ok(None),
        }
    }

    /// What happens at a token before these.
    pub(crate) fn case_of(
        &self,
        sets: &HideSets<'a>,
        token: &Carried<'a, 'b>,
        list: &Stack<'a, 'b>,
    ) -> Result<Case<'a, 'b>, ExpandFault>
        requires { token.now.set < size sets.now }
        ensures case { IfOk result (λ found.
            case_of (surroundings_value self.now) (carrier sets.now token.now)
            (carriers sets.now list.now)
            ≡ case_value found (carrier sets.now token.now) (carriers sets.now list.now)) }
        ensures name { (s : Sets) → IfOk result (λ found. HasName (carrier s token.now) found) }
        ensures fault { IfErr result (λ fault. fault ≡ ExpandFault.NoMemory) }
    {
        if self.is_asking(token) {
            return Ok(Case::Passes(taken_count(token.bytes(), list)));
        }
        if !is_name(token) {
            return Ok(Case::Passes(0));
        }
        match self.named(token, list)? {
            Some(found) if !sets.holds(token.set, token.bytes()) => Ok(found),
            _ => Ok(Case::Passes(0)),
        }
    }
}

/// Moves so many tokens from the front of a list after what passed.
pub(crate) fn pass<'a, 'b>(
    out: &mut Vec<Carried<'a, 'b>>,
    list: &mut Stack<'a, 'b>,
    count: usize,
) -> Result<(), ExpandFault>
    ensures out { OnOk result (out.new.items ≡ out.old.items ++ take count list.old) }
    ensures list { OnOk result (list.new ≡ drop count list.old) }
    ensures fault { IfErr result (λ fault. fault ≡ ExpandFault.NoMemory) }
{
    for _ in 0..count {
        if let Some(token) = list.pop() {
            out.push(token)?;
        }
    }
    Ok(())
}
