//! What pragmas say, and the pragma that a `_Pragma` has in its string literal (ISO/IEC 9899:2018, 6.10.9).
ghost use Rattle.std.specs.Prelude.{◌≡◌, ◌==◌, ◌||◌, ◌++◌, List, IfOk, OnOk, codes, map, option_map};
ghost use Rattle.std.specs.List.{list_all};
ghost use Rattle.inc_text.specs.Ascii.{quotation_mark};
ghost use Rattle.inc_token.specs.Spellings.{class_of};
ghost use Rattle.inc_token.specs.Views.{seen};
ghost use Rattle.inc_token.specs.TokenLines.{Tok};
ghost use Rattle.inc_text.specs.declared.languages.Language.{Language};
ghost use Rattle.inc_directive.specs.LineKinds.{inner_bytes};
ghost use Rattle.inc_macro.specs.Macros.{is_among, stands_first};
ghost use Rattle.inc_pp.specs.Operators.{tokens_in_text};
ghost use Rattle.inc_pp.specs.Poison.{names_poison};
ghost use Rattle.inc_pp.specs.Pragmas as spec;

use crate::headers::{begins_with_quote, inner_bytes};
use crate::lines::operands;
use crate::poison::names_poison;
use inc_text::{Language, Text, TextFault, splice_owned};
use inc_token::{Kind, Token, kind_of};
use std::alloc::{AllocError, Global};

/// The text of the line that stands for a pragma by its literal; `None` where the line is too long.
pub(crate) fn pragma_line(
    alloc: Global,
    literal: &[u8],
    language: Language,
) -> Result<Option<Text>, AllocError>
    ensures { IfOk result (λ text. spec.pragma_tokens language literal.now ≡ tokens_in_text language text) }
{
    let text = pragma_text(alloc, literal)?;
    match splice_owned(alloc, text, language) {
        Ok(text) => Ok(Some(text)),
        Err(TextFault::TooLong) => Ok(None),
        Err(TextFault::NoMemory) => Err(AllocError),
    }
}

/// The bytes of that line.
fn pragma_text(alloc: Global, literal: &[u8]) -> Result<Vec<u8>, AllocError>
    ensures { IfOk result (λ text. text.items ≡ spec.pragma_text literal.now) }
{
    // Room for the line's LF too.
    let mut text = Vec::with_capacity(alloc, literal.len().saturating_add(9))?;
    text.extend_from_slice(b"#pragma ")?;
    push_unescaped(&mut text, after_quote(literal))?;
    Ok(text)
}

/// The bytes after the first quotation mark.
fn after_quote(literal: &[u8]) -> &[u8]
    ensures { result.now ≡ spec.after_quote literal.now }
{
    let mut left = literal;
    while let [byte, rest @ ..] = left {
        left = rest;
        if *byte == b'"' {
            return left;
        }
    }
    left
}

/// Adds bytes without the last one, which is a quotation mark, and with `"` for `\"` and `\` for `\\`.
fn push_unescaped(text: &mut Vec<u8>, bytes: &[u8]) -> Result<(), AllocError>
    ensures { OnOk result (text.new.items ≡ text.old.items ++ spec.unescaped bytes.now) }
{
    let mut left = bytes;
    while let [first, second, rest @ ..] = left {
        if is_escape(*first, *second) {
            text.push(*second)?;
            left = rest;
        } else {
            text.push(*first)?;
            left = &left[1..];
        }
    }
    Ok(())
}

/// Whether two bytes are `\"` or `\\`.
fn is_escape(first: u8, second: u8) -> bool
    ensures { result ≡ spec.is_escape first second }
{
    first == b'\\' && (second == b'"' || second == b'\\')
}

/// What is put out of a `#pragma` line: nothing where GNU C addresses it to gcc's preprocessor, and it changes nothing here.
pub(crate) fn put_tokens<'l, 'a>(language: Language, tokens: &'l [Token<'a>]) -> &'l [Token<'a>]
    ensures { map seen result.now ≡ spec.put_tokens language (map seen tokens.now) }
{
    if is_silent(language, operands(tokens)) {
        &[]
    } else {
        tokens
    }
}

/// Whether a `#pragma` line with this after its name is not put out.
fn is_silent(language: Language, tokens: &[Token<'_>]) -> bool
    ensures { result ≡ spec.is_silent language (map seen tokens.now) }
{
    match tokens {
        [first, second, ..] => {
            language.is_gnu()
                && first.spelling == b"GCC".as_slice()
                && is_silent_name(second.spelling)
        }
        _ => false,
    }
}

/// Whether a pragma of gcc with this name is addressed to its preprocessor, and changes nothing here.
fn is_silent_name(name: &[u8]) -> bool
    ensures { result ≡ is_among name.now spec.silent_names }
{
    name == b"system_header".as_slice()
        || name == b"warning".as_slice()
        || name == b"dependency".as_slice()
}

/// Whether a pragma with this after its name puts a definition aside, or takes one back.
pub(crate) fn is_stacking(language: Language, tokens: &[Token<'_>]) -> bool
    ensures { result ≡ spec.is_stacking language (map seen tokens.now) }
{
    match tokens {
        [] => false,
        [first, ..] => language.is_gnu() && is_stacking_name(first.spelling),
    }
}

/// Whether a pragma with this after its name does so, or takes names away.
pub(crate) fn changes_macros(language: Language, tokens: &[Token<'_>]) -> bool
    ensures { result ≡ (spec.is_stacking language (map seen tokens.now) || names_poison language (map seen tokens.now)) }
{
    is_stacking(language, tokens) || names_poison(language, tokens)
}

/// Whether pragmas of this name put definitions aside, or take them back.
fn is_stacking_name(name: &[u8]) -> bool
    ensures { result ≡ is_among name.now spec.stacking_names }
{
    name == b"push_macro".as_slice() || name == b"pop_macro".as_slice()
}

/// The name of the macro whose definition is put aside or taken back, from what is after the name of the pragma.
pub(crate) fn stacked_name<'a>(tokens: &[Token<'a>]) -> Option<&'a [u8]>
    ensures { option_map (λ n. n.now) result ≡ spec.stacked_name (map seen tokens.now) }
{
    match tokens {
        [] => None,
        [opening, rest @ ..] => {
            if opening.spelling != b"(".as_slice() {
                return None;
            }
            closed_name(rest)
        }
    }
}

/// The name in a string literal that a `)` follows.
fn closed_name<'a>(tokens: &[Token<'a>]) -> Option<&'a [u8]>
    ensures { option_map (λ n. n.now) result ≡ spec.closed_name (map seen tokens.now) }
{
    match tokens {
        [] => None,
        [literal, rest @ ..] => {
            if is_name_literal(literal) && is_closed(rest) {
                return Some(inner_bytes(literal.spelling));
            }
            None
        }
    }
}

/// Whether a `)` comes first.
fn is_closed(tokens: &[Token<'_>]) -> bool
    ensures { result ≡ stands_first (codes ")") (map seen tokens.now) }
{
    match tokens {
        [] => false,
        [first, ..] => first.spelling == b")".as_slice(),
    }
}

/// Whether a token is a string literal with the name of a macro between its quotation marks.
fn is_name_literal(token: &Token<'_>) -> bool
    ensures { result ≡ spec.is_name_literal (seen token.now) }
{
    token.kind == Kind::Str
        && begins_with_quote(token.spelling)
        && is_plain_name(inner_bytes(token.spelling))
}

/// Whether a text is an identifier that has ASCII characters alone, and no universal character name.
fn is_plain_name(text: &[u8]) -> bool
    ensures { result ≡ spec.is_plain_name text.now }
{
    is_identifier(text) && has_plain_bytes(text)
}

/// Whether a text is an identifier.
fn is_identifier(text: &[u8]) -> bool
    ensures { result ≡ spec.is_identifier (class_of Language.C17 text.now) }
{
    matches!(kind_of(Language::C17, text), Some(Kind::Identifier))
}

/// Whether a text has ASCII characters alone, and no backslash.
fn has_plain_bytes(text: &[u8]) -> bool
    ensures { result ≡ list_all spec.is_plain_byte text.now }
{
    text.iter().all(|byte| is_plain_byte(*byte))
}

/// Whether a byte is an ASCII character other than a backslash.
fn is_plain_byte(byte: u8) -> bool
    ensures { result ≡ spec.is_plain_byte byte }
{
    byte < 128 && byte != b'\\'
}

/// Whether `once` comes first.
pub(crate) fn names_once(tokens: &[Token<'_>]) -> bool
    ensures { result ≡ spec.names_once (map seen tokens.now) }
{
    match tokens {
        [] => false,
        [first, ..] => first.spelling == b"once".as_slice(),
    }
}
