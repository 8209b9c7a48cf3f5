//! The tokens of an expression as its grammar reads them.
ghost use Rattle.std.specs.Prelude.{◌≡◌, ◌≤◌, ◌&&◌, ◌++◌, false, true, List, Ok, Err, IfOk, IfErr, IfSome, length, map, option_map, codes, bytes_eq};
ghost use Rattle.inc_macro.specs.Macros.{is_identifier_kind};
ghost use Rattle.inc_macro.specs.Tables.{table_of};
ghost use Rattle.inc_expand.specs.Expansion.{Item as SeenItem};
ghost use Rattle.inc_expand.specs.Items.{seen_item, spelling_bytes};
ghost use Rattle.inc_cond.specs.Headers.{HeaderSearch};
ghost use Rattle.inc_cond.specs.Symbols.{asked, asks, asks_header, constant_symbol, identifier_symbol, is_next_question, symbol};
ghost use Rattle.inc_cond.specs.SymbolViews.{seen_taken};

use crate::characters::character_in;
use crate::constants::number_value;
use crate::faults::CondFault;
use crate::values::Value;
use inc_expand::Item;
use inc_macro::Macros;
use inc_token::Kind;

/// What a token is in an expression.
#[derive(Clone, Copy)]
pub enum Symbol<'a> {
    /// A constant; names are constants too.
    Constant(Value),
    /// A punctuator, with its spelling.
    Sign(&'a [u8]),
    /// No part of an expression.
    Stray,
}

/// What a token of this class and spelling is, before these others, and how many of those go with it. It asks for no header.
pub fn symbol_of<'t>(
    macros: &Macros,
    kind: Kind,
    text: &'t [u8],
    rest: &[Item<'_>],
) -> Result<(Symbol<'t>, usize), CondFault>
    requires { asks_header (table_of macros.now) kind text.now ≡ false }
    ensures symbol { (search : HeaderSearch) → IfOk result (λ s.
        symbol search (table_of macros.now) kind text.now (map seen_item rest.now) ≡ Ok (seen_taken s)) }
    ensures fault { (search : HeaderSearch) → IfErr result (λ fault.
        symbol search (table_of macros.now) kind text.now (map seen_item rest.now) ≡ Err fault) }
    ensures within { IfOk result (λ s. s.1 ≤ length rest.now) }
{
    match kind {
        Kind::Identifier => Ok(name_symbol(macros, text, rest)),
        Kind::Number => constant(number_value(macros.language(), text), CondFault::BadNumber),
        Kind::Char => constant(
            character_in(macros.language(), text),
            CondFault::BadCharacter,
        ),
        Kind::Punct => Ok((Symbol::Sign(text), 0)),
        _ => Ok((Symbol::Stray, 0)),
    }
}

/// A constant, where it has a value.
fn constant<'t>(value: Option<Value>, fault: CondFault) -> Result<(Symbol<'t>, usize), CondFault>
    ensures value { IfOk result (λ s. constant_symbol fault value ≡ Ok (seen_taken s)) }
    ensures fault { IfErr result (λ f. constant_symbol fault value ≡ Err f) }
    ensures alone { IfOk result (λ s. s.1 ≡ 0) }
{
    match value {
        Some(value) => Ok((Symbol::Constant(value), 0)),
        None => Err(fault),
    }
}

/// What a name is: `defined` tells whether the name has a definition that it asks for, each other name is 0.
fn name_symbol<'t>(macros: &Macros, name: &[u8], rest: &[Item<'_>]) -> (Symbol<'t>, usize)
    ensures symbol { seen_taken result
        ≡ identifier_symbol (table_of macros.now) name.now (map seen_item rest.now) }
    ensures within { result.1 ≤ length rest.now }
{
    if name != b"defined".as_slice() {
        return (Symbol::Constant(Value::truth(false)), 0);
    }
    match asked(rest) {
        Some((name, taken)) => (
            Symbol::Constant(Value::truth(macros.is_defined(name))),
            taken,
        ),
        None => (Symbol::Stray, 0),
    }
}

/// The name that the tokens after `defined` ask for, and how many tokens that takes.
fn asked<'r>(rest: &'r [Item<'_>]) -> Option<(&'r [u8], usize)>
    ensures name { option_map (λ p. (p.0.now, p.1)) result ≡ asked (map seen_item rest.now) }
    ensures within { IfSome result (λ p. p.1 ≤ length rest.now) }
{
    match rest {
        [name, ..] if is_name(name) => Some((name.spelling.bytes(), 1)),
        [before, name, after, ..] if is_in_parentheses(before, name, after) => {
            Some((name.spelling.bytes(), 3))
        }
        _ => None,
    }
}

/// Whether a token is an identifier.
fn is_name(item: &Item<'_>) -> bool
    ensures { result ≡ is_identifier_kind item.now.kind }
{
    matches!(item.kind, Kind::Identifier)
}

/// Whether a token is `defined`, which asks for tokens after it.
pub fn is_asking(kind: Kind, text: &[u8]) -> bool
    ensures { result ≡ asks kind text.now }
{
    matches!(kind, Kind::Identifier) && text == b"defined".as_slice()
}

/// Whether a token asks for a header: `__has_include` or `__has_include_next` of GNU C.
pub fn asks_header(macros: &Macros, kind: Kind, text: &[u8]) -> bool
    ensures { result ≡ asks_header (table_of macros.now) kind text.now }
{
    matches!(kind, Kind::Identifier) && macros.asks_headers(text)
}

/// Whether a name that asks for a header is `__has_include_next`.
pub fn is_next_question(name: &[u8]) -> bool
    ensures { result ≡ is_next_question name.now }
{
    name == b"__has_include_next".as_slice()
}

/// Whether these tokens after `defined` are enough to know what it asks for.
pub fn are_enough(rest: &[Item<'_>]) -> bool
    ensures { result ≡ true → (more : List SeenItem) →
        asked (map seen_item rest.now ++ more) ≡ asked (map seen_item rest.now) }
{
    match rest {
        [] => false,
        [_, _, _, ..] => true,
        [name, ..] => is_name(name) || !is_open(name),
    }
}

/// Whether a token is `(`.
fn is_open(item: &Item<'_>) -> bool
    ensures { result ≡ bytes_eq (spelling_bytes item.now.spelling) (codes "(") }
{
    item.spelling.bytes() == b"(".as_slice()
}

/// Whether three tokens are a name in parentheses.
fn is_in_parentheses(before: &Item<'_>, name: &Item<'_>, after: &Item<'_>) -> bool
    ensures { result ≡ (bytes_eq (spelling_bytes before.now.spelling) (codes "(")
        && (is_identifier_kind name.now.kind && bytes_eq (spelling_bytes after.now.spelling) (codes ")"))) }
{
    is_open(before) && is_name(name) && after.spelling.bytes() == b")".as_slice()
}
