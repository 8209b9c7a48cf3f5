//! The header that an include directive names by tokens that are to be expanded.
ghost use Rattle.std.specs.Prelude.{◌≡◌, ◌==◌, map, IfOk, option_map, option_and_then, slice_index};
ghost use Rattle.inc_text.specs.Ascii.{quotation_mark};
ghost use Rattle.inc_directive.specs.LineKinds.{inner_bytes};
ghost use Rattle.inc_expand.specs.Items.{seen_item};
ghost use Rattle.inc_pp.specs.Includes as spec;
ghost use Rattle.inc_lookup.specs.declared.projects.Form.TheVariants as form;

use inc_expand::Item;
use inc_lookup::Form;
use inc_token::Kind;
use std::alloc::{AllocError, Global};
use std::marker::Model;

/// The name of a header.
#[derive(Drop)]
pub(crate) enum HeaderName<'a> {
    /// As it is in the directive.
    Written(&'a [u8]),
    /// As macros made it.
    Made(Vec<u8>),
}

/// What an include directive names.
#[derive(Drop)]
pub(crate) struct Header<'a> {
    pub(crate) form: Form,
    pub(crate) name: HeaderName<'a>,
}

impl<'a> Model for Header<'a> {
    ghost use Rattle.inc_pp.specs.Includes.{Header};
    ghost use Rattle.inc_pp.specs.StateViews.{name_of};

    ghost Value = { Header };

    ghost view = { λ h. record { form = h.form; name = name_of h.name } };
}

impl<'a> Header<'a> {
    /// Between which signs the name is.
    pub(crate) fn form(&self) -> Form
        ensures { result ≡ self.now.form }
    {
        self.form
    }

    /// The bytes of the name.
    pub(crate) fn name(&self) -> &[u8]
        ensures { result.now ≡ self.now.name }
    {
        if let HeaderName::Made(name) = &self.name {
            return name;
        }
        if let HeaderName::Written(name) = &self.name {
            return name;
        }
        &[]
    }
}

/// The header that expanded tokens name: a string, or what is between `<` and `>`.
pub(crate) fn header_in<'a>(
    alloc: Global,
    items: &[Item<'_>],
) -> Result<Option<Header<'a>>, AllocError>
    ensures { IfOk result (λ header. header ≡ spec.header_in (map seen_item items.now)) }
{
    let [first, rest @ ..] = items else {
        return Ok(None);
    };
    let spelling = first.spelling.bytes();
    if is_plain_string(first) {
        let name = Vec::from_slice(alloc, inner_bytes(spelling))?;
        return Ok(not_empty(Form::Quoted, name));
    }
    if spelling == b"<".as_slice() {
        return angled(alloc, rest);
    }
    Ok(None)
}

/// Whether a token is a string literal without a prefix.
pub(crate) fn is_plain_string(item: &Item<'_>) -> bool
    ensures { result ≡ spec.is_plain_string (seen_item item.now) }
{
    item.kind == Kind::Str && begins_with_quote(item.spelling.bytes())
}

/// Whether a text begins with `"`.
pub(crate) fn begins_with_quote(text: &[u8]) -> bool
    ensures { result ≡ (slice_index text.now 0 == quotation_mark) }
{
    text.first() == Some(&b'"')
}

/// A text without its first and its last byte.
pub(crate) fn inner_bytes(text: &[u8]) -> &[u8]
    ensures { result.now ≡ inner_bytes text.now }
{
    if text.len() < 2 {
        return &[];
    }
    &text[1..text.len() - 1]
}

/// A header with a name of one or more bytes.
fn not_empty<'a>(form: Form, name: Vec<u8>) -> Option<Header<'a>>
    ensures { result ≡ spec.not_empty form name.items }
{
    if name.is_empty() {
        return None;
    }
    Some(Header {
        form,
        name: HeaderName::Made(name),
    })
}

/// The header that the tokens after a `<` name.
fn angled<'a>(alloc: Global, items: &[Item<'_>]) -> Result<Option<Header<'a>>, AllocError>
    ensures { IfOk result (λ header. header ≡ option_and_then
        (spec.not_empty form.Angled) (spec.name_before_close (map seen_item items.now))) }
{
    match name_before_close(alloc, items)? {
        Some(name) => Ok(not_empty(Form::Angled, name)),
        None => Ok(None),
    }
}

/// The spellings before the first `>`, one after the other.
fn name_before_close(alloc: Global, items: &[Item<'_>]) -> Result<Option<Vec<u8>>, AllocError>
    ensures { IfOk result (λ name. option_map (λ name. name.items) name
        ≡ spec.name_before_close (map seen_item items.now)) }
{
    let mut name = Vec::new(alloc);
    for item in items {
        let spelling = item.spelling.bytes();
        if spelling == b">".as_slice() {
            return Ok(Some(name));
        }
        name.extend_from_slice(spelling)?;
    }
    Ok(None)
}
