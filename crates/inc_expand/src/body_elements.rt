//! The places of a macro's body, by the roles of its tokens.
ghost use Rattle.std.specs.Prelude.{◌≡◌, ◌<◌, ◌||◌, ℕ, false, length, Some, get_or, slice_get};
ghost use Rattle.inc_macro.specs.Roles.{roles_of};
ghost use Rattle.inc_expand.specs.Elements.{elements_of};
ghost use Rattle.inc_expand.specs.Expansion.{is_expanded_in};
ghost use Rattle.inc_expand.specs.ElementValues.{word_value, element_value, element_values, place_value, place_values, places_in, hash_at, asks_for};

use inc_macro::{Definition, Role};
use inc_token::Kind;

/// A token of a body.
#[derive(Clone, Copy)]
pub(crate) struct Word<'a> {
    pub(crate) kind: Kind,
    pub(crate) spelling: &'a [u8],
    pub(crate) space: bool,
}

/// A place of a body. Parameters are counted from 0, and the `bool` is whether white space is before the place, for
/// a parameter after `#` before that `#`.
#[derive(Clone, Copy)]
pub(crate) enum Element<'a> {
    /// A token that stands for itself.
    Word(Word<'a>),
    /// The operator `##`.
    Glue,
    /// An operator for which nothing stands by itself: `#`, which goes with the place after it, or a `##` after a `,` of GNU C.
    Silent,
    /// The parameter after a `#`.
    StringOf(bool, u8),
    /// A parameter right after or right before `##`.
    AsWritten(bool, u8),
    /// A parameter at any other place.
    Expanded(bool, u8),
    /// A `,` that stands unless these variable arguments are left out.
    Comma(Word<'a>, u8),
    /// `__VA_OPT__` of GNU C, with whether white space is before the `#`, where one is right before it: what is in the parentheses after
    /// it stands where these variable arguments have tokens. The places below stand for it, and for what is in its parentheses.
    Optional(Option<bool>, u8),
    /// A parameter at an ordinary place of these parentheses: a placemarker, where its argument expands to nothing.
    Kept(bool, u8),
    /// A placemarker.
    Empty,
}

/// A place of a body that stands.
#[derive(Clone, Copy)]
pub(crate) enum Place<'a, 'b> {
    /// One of the body's own.
    Own(Element<'a>),
    /// A string that `#` made of what is in the parentheses after `__VA_OPT__`, and whether white space is before the `#`.
    Made(bool, &'b [u8]),
}

/// Places of a body in a list.
#[derive(Clone, Copy)]
pub(crate) enum Places<'s, 'a, 'b> {
    /// Those in the parentheses after `__VA_OPT__`.
    Inside(&'s [Element<'a>]),
    /// Those that stand.
    Standing(&'s [Place<'a, 'b>]),
}

impl<'s, 'a, 'b> Places<'s, 'a, 'b> {
    /// How many there are.
    #[inline(always)]
    pub(crate) fn len(&self) -> usize
        ensures { result ≡ length (places_in self.now) }
    {
        match self {
            Places::Inside(elements) => elements.len(),
            Places::Standing(places) => places.len(),
        }
    }

    /// One of them.
    #[inline(always)]
    pub(crate) fn at(&self, i: usize) -> Place<'a, 'b>
        requires { i < length (places_in self.now) }
        ensures { slice_get (places_in self.now) i ≡ Some (place_value result) }
    {
        match self {
            Places::Inside(elements) => return inside_at(elements, i),
            Places::Standing(places) => return standing_at(places, i),
        }
    }
}

/// One of those in the parentheses.
fn inside_at<'a, 'b>(elements: &[Element<'a>], i: usize) -> Place<'a, 'b>
    requires { i < length elements.now }
    ensures { slice_get (element_values elements.now) i ≡ Some (place_value result) }
{
    Place::Own(elements[i])
}

/// One of those that stand.
fn standing_at<'a, 'b>(places: &[Place<'a, 'b>], i: usize) -> Place<'a, 'b>
    requires { i < length places.now }
    ensures { slice_get (place_values places.now) i ≡ Some (place_value result) }
{
    places[i]
}

/// The token at a place.
fn word_at<'a>(definition: &'a Definition, i: usize) -> Word<'a>
    requires { i < length definition.now.body }
    ensures { slice_get definition.now.body i ≡ Some (word_value result) }
{
    Word {
        kind: definition.kind(i),
        spelling: definition.spelling(i),
        space: definition.space(i),
    }
}

/// Whether white space is before the operator `#` that is right before a place, where one does.
fn hash_before(definition: &Definition, i: usize) -> Option<bool>
    requires { i < length definition.now.body }
    ensures { result ≡ hash_at definition.now i }
{
    if i == 0 {
        return None;
    }
    match definition.role(i - 1) {
        Role::Hash => Some(definition.space(i - 1)),
        _ => None,
    }
}

/// The element at the place of a parameter that is taken as it is written.
fn written_at<'a>(definition: &'a Definition, i: usize, n: u8) -> Element<'a>
    requires within { i < length definition.now.body }
    requires role { slice_get (roles_of definition.now) i ≡ Some (Role.AsWritten n) }
    ensures { slice_get (elements_of definition.now) i ≡ Some (element_value result) }
{
    match hash_before(definition, i) {
        Some(space) => Element::StringOf(space, n),
        None => Element::AsWritten(definition.space(i), n),
    }
}

/// The element at the place of `__VA_OPT__`.
fn optional_at<'a>(definition: &'a Definition, i: usize, n: u8) -> Element<'a>
    requires within { i < length definition.now.body }
    requires role { slice_get (roles_of definition.now) i ≡ Some (Role.Optional n) }
    ensures { slice_get (elements_of definition.now) i ≡ Some (element_value result) }
{
    let hash = hash_before(definition, i);
    Element::Optional(hash, n)
}

/// The element at a place. Its role is looked at first, so that a token that stands for itself costs no look at the place before it,
/// and a parameter no spelling.
#[inline(always)]
pub(crate) fn element_at<'a>(definition: &'a Definition, i: usize) -> Element<'a>
    requires { i < length definition.now.body }
    ensures { slice_get (elements_of definition.now) i ≡ Some (element_value result) }
{
    match definition.role(i) {
        Role::Itself => Element::Word(word_at(definition, i)),
        Role::Paste => Element::Glue,
        Role::Hash => Element::Silent,
        Role::Nothing => Element::Silent,
        Role::AsWritten(n) => written_at(definition, i, n),
        Role::Expanded(n) => Element::Expanded(definition.space(i), n),
        Role::Comma(n) => Element::Comma(word_at(definition, i), n),
        Role::Optional(n) => optional_at(definition, i, n),
    }
}

/// Notes the parameter of a place whose argument is expanded.
#[inline(always)]
fn note_expanded(wanted: &mut [bool; 256], role: Role)
    ensures { (n : ℕ) → n < 256 → get_or wanted.new n false
        ≡ (get_or wanted.old n false || asks_for role n) }
{
    match role {
        Role::Expanded(n) => wanted[n as usize] = true,
        Role::Optional(n) => wanted[n as usize] = true,
        _ => {}
    }
}

/// Which parameters are at an ordinary place of the body: their arguments are expanded. A call would copy the answer twice.
#[inline(always)]
pub(crate) fn expanded_parameters(definition: &Definition) -> [bool; 256]
    ensures { (n : ℕ) → n < 256 → get_or result n false
        ≡ is_expanded_in (elements_of definition.now) n }
{
    let mut wanted = [false; 256];
    for i in 0..definition.body_len() {
        note_expanded(&mut wanted, definition.role(i));
    }
    wanted
}
