//! Strings that `#` makes (ISO/IEC 9899:2018, 6.10.3.2).
ghost use Rattle.std.specs.Prelude.{◌≡◌, ◌≢◌, Bool, ◌<◌, ◌≤◌, ◌∷◌, [], false, ◌++◌, length, Ok, Err, IfOk, IfErr, OnOk, if◌then◌else◌, nat_lt, ◌&&◌};
ghost use Rattle.inc_text.specs.Ascii.{blank};
ghost use Rattle.inc_token.specs.Spellings.{class_of};
ghost use Rattle.inc_expand.specs.Sets.{Sets, size};
ghost use Rattle.inc_expand.specs.Expansion.{escaped, spelled_token, spelled, spaced, in_quotes, fits, is_str, made_string, string_of};
ghost use Rattle.inc_expand.specs.Carriers.{carrier, carriers};
ghost use Rattle.inc_expand.specs.Lent.{lent_tokens};

use crate::carried::{Bytes, Carried};
use crate::faults::ExpandFault;
use crate::hide_sets::HideSets;
use crate::lent::Lent;
use bumpalo::Bump;
use inc_text::Language;
use inc_token::{Kind, kind_of};
use std::alloc::{AllocError, Global};

/// The most bytes of a token that `#` or `##` makes.
pub(crate) const LONGEST: usize = 65_536;

/// Adds a byte, with a `\` before it where it is `"` or `\`.
fn push_escaped_byte(text: &mut Vec<u8>, byte: u8) -> Result<(), AllocError>
    ensures { OnOk result (text.new.items ≡ text.old.items ++ escaped (byte ∷ [])) }
{
    if byte == b'"' || byte == b'\\' {
        text.push(b'\\')?;
    }
    text.push(byte)?;
    Ok(())
}

/// Adds bytes with a `\` before each `"` and `\`.
pub(crate) fn push_escaped(text: &mut Vec<u8>, bytes: &[u8]) -> Result<(), AllocError>
    ensures { OnOk result (text.new.items ≡ text.old.items ++ escaped bytes.now) }
{
    for byte in bytes {
        push_escaped_byte(text, *byte)?;
    }
    Ok(())
}

/// Adds the spelling of a token of an argument.
fn push_spelled(text: &mut Vec<u8>, token: &Carried<'_, '_>) -> Result<(), AllocError>
    ensures { (s : Sets) → OnOk result (text.new.items
        ≡ text.old.items ++ spelled_token (carrier s token.now)) }
{
    if token.kind == Kind::Char || token.kind == Kind::Str {
        return push_escaped(text, token.bytes());
    }
    text.extend_from_slice(token.bytes())
}

/// Adds one space where `space` says so.
fn push_space(text: &mut Vec<u8>, space: bool) -> Result<(), AllocError>
    ensures { OnOk result (text.new.items
        ≡ text.old.items ++ (if space then blank ∷ [] else [])) }
{
    if space {
        text.push(b' ')?;
    }
    Ok(())
}

/// Whether the white space before a token of an argument shows in the string.
fn shows_space(space: bool, i: usize) -> bool
    ensures { result ≡ (space && nat_lt 0 i) }
{
    space && i > 0
}

/// Adds a token of an argument, with one space where `space` says so.
fn push_token(text: &mut Vec<u8>, space: bool, token: &Carried<'_, '_>) -> Result<(), ExpandFault>
    ensures text { (s : Sets) → OnOk result (text.new.items
        ≡ text.old.items ++ ((if space then blank ∷ [] else []) ++ spelled_token (carrier s token.now))) }
    ensures fault { (s : Sets) → IfErr result (λ fault. fault ≢ ExpandFault.NoMemory
        → (fault
        ≡ ExpandFault.TokenTooLong) × (LONGEST < length (spelled_token (carrier s token.now)))) }
{
    if token.bytes().len() > LONGEST {
        return Err(ExpandFault::TokenTooLong);
    }
    push_space(text, space)?;
    push_spelled(text, token)?;
    Ok(())
}

/// The bytes of the string that `#` makes of an argument.
fn string_text(alloc: Global, written: Lent<'_, '_, '_>) -> Result<Vec<u8>, ExpandFault>
    ensures text { (s : Sets) → IfOk result (λ text.
        fits (in_quotes (spelled (spaced false (carriers s (lent_tokens written.entry))))) ≡ Ok text.items) }
    ensures fault { (s : Sets) → IfErr result (λ fault. fault ≢ ExpandFault.NoMemory
        → fits (in_quotes (spelled (spaced false (carriers s (lent_tokens written.entry))))) ≡ Err fault) }
{
    let mut text = Vec::from_slice(alloc, b"\"")?;
    for i in 0..written.len() {
        let token = written.at(i);
        push_token(&mut text, shows_space(token.space, i), &token)?;
        if text.len() >= LONGEST {
            return Err(ExpandFault::TokenTooLong);
        }
    }
    text.push(b'"')?;
    Ok(text)
}

/// Whether bytes are a string literal.
fn is_string(bytes: &[u8]) -> bool
    ensures { result ≡ is_str (class_of Language.C17 bytes.now) }
{
    match kind_of(Language::C17, bytes) {
        Some(Kind::Str) => true,
        _ => false,
    }
}

/// The bytes of the string that `#` makes of some tokens, which are those of a string.
pub(crate) fn string_bytes<'b>(
    alloc: Global,
    arena: &'b Bump,
    written: Lent<'_, '_, '_>,
) -> Result<&'b [u8], ExpandFault>
    ensures string { (space : Bool) (s : Sets) → IfOk result (λ bytes.
        string_of space (carriers s (lent_tokens written.entry)) ≡ Ok (made_string space bytes.now)) }
    ensures fault { (space : Bool) (s : Sets) → IfErr result (λ fault.
        fault ≢ ExpandFault.NoMemory → string_of space (carriers s (lent_tokens written.entry)) ≡ Err fault) }
{
    let text = string_text(alloc, written)?;
    if !is_string(&text) {
        return Err(ExpandFault::BadString);
    }
    let bytes = arena.try_alloc_slice_copy(&text)?;
    Ok(bytes)
}

/// A string that was made; `space`: white space is before the `#`.
pub(crate) fn made_string<'a, 'b>(space: bool, bytes: &'b [u8]) -> Carried<'a, 'b>
    ensures token { (s : Sets) → carrier s result ≡ made_string space bytes.now }
    ensures known { (s : Sets) → result.set < size s }
{
    Carried {
        text: Bytes::Made(bytes),
        line: 0,
        set: HideSets::empty(),
        kind: Kind::Str,
        space,
    }
}

/// The string that `#` makes of an argument; `space`: white space is before the `#`.
pub(crate) fn string_of<'a, 'b>(
    alloc: Global,
    arena: &'b Bump,
    space: bool,
    written: Lent<'_, 'a, 'b>,
) -> Result<Carried<'a, 'b>, ExpandFault>
    ensures string { (s : Sets) → IfOk result (λ token.
        string_of space (carriers s (lent_tokens written.entry)) ≡ Ok (carrier s token)) }
    ensures known { (s : Sets) → IfOk result (λ token. token.set < size s) }
    ensures fault { (s : Sets) → IfErr result (λ fault.
        fault ≢ ExpandFault.NoMemory → string_of space (carriers s (lent_tokens written.entry)) ≡ Err fault) }
{
    let bytes = string_bytes(alloc, arena, written)?;
    Ok(made_string(space, bytes))
}
