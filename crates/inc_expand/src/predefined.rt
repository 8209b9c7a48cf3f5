//! Names that are always defined (ISO/IEC 9899:2018, 6.10.8).
ghost use Rattle.std.specs.Prelude.{◌≡◌, ◌≤◌, ◌++◌, decimal, IfOk, IfErr, IfSome, OnOk, Some, option_map};
ghost use Rattle.inc_expand.specs.Carriers.{bytes_in};
ghost use Rattle.inc_expand.specs.Expansion.{counted, escaped, in_quotes, predefined_token, spent, text_of};
ghost use Rattle.inc_expand.specs.Places.{content_value, place_value, predefined_value};

use crate::budgets::Budget;
use crate::carried::Bytes;
use crate::faults::ExpandFault;
use crate::places::Place;
use crate::strings::push_escaped;
use bumpalo::Bump;
use inc_text::Language;
use inc_token::Kind;
use itoa::Buffer;
use std::alloc::{AllocError, Global};

/// What the token has for bytes that replaces a predefined name.
#[derive(Clone, Copy)]
pub(crate) enum Content<'a, 'b> {
    /// These.
    Fixed(Bytes<'a, 'b>),
    /// The number of counts that were given before.
    Count,
}

/// A predefined name, and the token that replaces it.
#[derive(Clone, Copy)]
pub(crate) struct Predefined<'a, 'b> {
    pub(crate) name: &'a [u8],
    pub(crate) kind: Kind,
    pub(crate) content: Content<'a, 'b>,
}

/// A number in decimal.
fn number<'b>(arena: &'b Bump, number: u64) -> Result<&'b [u8], AllocError>
    ensures { IfOk result (λ bytes. bytes.now ≡ decimal number) }
{
    let mut buffer = Buffer::new();
    let bytes = arena.try_alloc_slice_copy(buffer.format(number).as_bytes())?;
    Ok(bytes)
}

/// Bytes between double quotes.
fn quoted<'b>(alloc: Global, arena: &'b Bump, bytes: &[u8]) -> Result<&'b [u8], AllocError>
    ensures { IfOk result (λ text. text.now ≡ in_quotes bytes.now) }
{
    let mut text = Vec::from_slice(alloc, b"\"")?;
    text.extend_from_slice(bytes)?;
    text.push(b'"')?;
    let bytes = arena.try_alloc_slice_copy(&text)?;
    Ok(bytes)
}

/// The string literal of a path.
fn literal<'b>(alloc: Global, arena: &'b Bump, path: &[u8]) -> Result<&'b [u8], AllocError>
    ensures { IfOk result (λ text. text.now ≡ in_quotes (escaped path.now)) }
{
    let mut text = Vec::from_slice(alloc, b"\"")?;
    push_escaped(&mut text, path)?;
    text.push(b'"')?;
    let bytes = arena.try_alloc_slice_copy(&text)?;
    Ok(bytes)
}

/// Pays for the token that replaces a predefined name, and gives its bytes.
pub(crate) fn paid_text<'a, 'b>(
    arena: &'b Bump,
    budget: &mut Budget,
    content: Content<'a, 'b>,
) -> Result<Bytes<'a, 'b>, AllocError>
    requires { 2 ≤ budget.old.units }
    ensures text { IfOk result (λ text. bytes_in text ≡ text_of budget.old (content_value content.entry)) }
    ensures paid { OnOk result (budget.new ≡ spent 2 (counted (content_value content.entry) budget.old)) }
{
    match content {
        Content::Fixed(text) => {
            let left = budget.left();
            budget.set_left(left - 2);
            Ok(text)
        }
        Content::Count => {
            let count = budget.count();
            let bytes = number(arena, u64::from(count))?;
            Ok(Bytes::Made(bytes))
        }
    }
}

/// The token that replaces a name on a physical line that is predefined in some language.
pub(crate) fn predefined_at<'a, 'b>(
    alloc: Global,
    arena: &'b Bump,
    language: Language,
    place: &Place<'a>,
    line: u32,
    name: &[u8],
) -> Result<Option<Predefined<'a, 'b>>, ExpandFault>
    ensures token { IfOk result (λ made. option_map predefined_value made
        ≡ predefined_token language (place_value place.now) line name.now) }
    ensures name { IfOk result (λ made. IfSome made (λ p. p.name.now ≡ name.now)) }
    ensures fault { IfErr result (λ fault. fault ≡ ExpandFault.NoMemory) }
{
    if name == b"__LINE__".as_slice() {
        let bytes = number(arena, place.presumed_line(language, line))?;
        return Ok(Some(Predefined {
            name: b"__LINE__",
            kind: Kind::Number,
            content: Content::Fixed(Bytes::Made(bytes)),
        }));
    }
    if name == b"__FILE__".as_slice() {
        return Ok(Some(Predefined {
            name: b"__FILE__",
            kind: Kind::Str,
            content: Content::Fixed(Bytes::Source(place.name)),
        }));
    }
    if name == b"__DATE__".as_slice() {
        let bytes = quoted(alloc, arena, &place.date)?;
        return Ok(Some(Predefined {
            name: b"__DATE__",
            kind: Kind::Str,
            content: Content::Fixed(Bytes::Made(bytes)),
        }));
    }
    if name == b"__TIME__".as_slice() {
        let bytes = quoted(alloc, arena, &place.time)?;
        return Ok(Some(Predefined {
            name: b"__TIME__",
            kind: Kind::Str,
            content: Content::Fixed(Bytes::Made(bytes)),
        }));
    }
    if name == b"__STDC__".as_slice() {
        return Ok(Some(Predefined {
            name: b"__STDC__",
            kind: Kind::Number,
            content: Content::Fixed(Bytes::Source(b"1")),
        }));
    }
    if name == b"__STDC_HOSTED__".as_slice() {
        return Ok(Some(Predefined {
            name: b"__STDC_HOSTED__",
            kind: Kind::Number,
            content: Content::Fixed(Bytes::Source(b"1")),
        }));
    }
    if name == b"__STDC_VERSION__".as_slice() {
        return Ok(Some(Predefined {
            name: b"__STDC_VERSION__",
            kind: Kind::Number,
            content: Content::Fixed(Bytes::Source(b"201710L")),
        }));
    }
    if name == b"__BASE_FILE__".as_slice() {
        let bytes = literal(alloc, arena, place.base)?;
        return Ok(Some(Predefined {
            name: b"__BASE_FILE__",
            kind: Kind::Str,
            content: Content::Fixed(Bytes::Made(bytes)),
        }));
    }
    if name == b"__INCLUDE_LEVEL__".as_slice() {
        let bytes = number(arena, u64::from(place.level))?;
        return Ok(Some(Predefined {
            name: b"__INCLUDE_LEVEL__",
            kind: Kind::Number,
            content: Content::Fixed(Bytes::Made(bytes)),
        }));
    }
    if name == b"__TIMESTAMP__".as_slice() {
        let bytes = quoted(alloc, arena, &place.timestamp)?;
        return Ok(Some(Predefined {
            name: b"__TIMESTAMP__",
            kind: Kind::Str,
            content: Content::Fixed(Bytes::Made(bytes)),
        }));
    }
    if name == b"__COUNTER__".as_slice() {
        return Ok(Some(Predefined {
            name: b"__COUNTER__",
            kind: Kind::Number,
            content: Content::Count,
        }));
    }
    Ok(None)
}
