//! What is in the parentheses after `__VA_OPT__`, in GNU C (ISO/IEC 9899:2024, 6.10.5.1), and the places of a body that stand.
ghost use Rattle.std.specs.Prelude.{◌≡◌, ◌≢◌, ◌+◌, ◌<◌, ◌≤◌, [], ◌∷◌, ◌++◌, Bool, ℕ, false, List, length, map, drop, Ok, Err, IfOk, IfErr, OnOk, if◌then◌else◌, slice_get};
ghost use Rattle.std.specs.List.{list_any};
ghost use Rattle.inc_macro.specs.Macros.{is_match, depth_at};
ghost use Rattle.inc_macro.specs.Roles.{roles_of};
ghost use Rattle.inc_expand.specs.Sets.{Sets, size, Keeps};
ghost use Rattle.inc_expand.specs.Elements.{Made, elements_of};
ghost use Rattle.inc_expand.specs.Expansion.{chosen, goes_with, has_tokens, inside, joined, kept, or_empty, own_spelling, standing, stands, string_of, substituted};
ghost use Rattle.inc_expand.specs.Carriers.{carriers, AreKnown};
ghost use Rattle.inc_expand.specs.Arguments.{argument_values, AreKnownIn};
ghost use Rattle.inc_expand.specs.ElementValues.{element_value, element_values, place_values};
ghost use Rattle.inc_expand.specs.Joins.{segment_tokens, tokens_in};
ghost use Rattle.inc_expand.specs.Lent.{lent_tokens};
ghost use Rattle.inc_expand.specs.Optionals.{after_places, is_optional_role, optional_of};

use crate::arguments::Arguments;
use crate::body_elements::{Element, Place, Places, element_at};
use crate::carried::Carried;
use crate::faults::ExpandFault;
use crate::hide_sets::HideSets;
use crate::lent::Lent;
use crate::pastes::Segment;
use crate::replacements::{expanded_at, joined, joined_body};
use crate::rules::Rule;
use crate::strings::string_bytes;
use bumpalo::Bump;
use inc_macro::{Definition, Role};
use std::alloc::{AllocError, Global};

/// Whether a token with this role is `__VA_OPT__`.
fn is_optional_role(role: Role) -> bool
    ensures { result ≡ is_optional_role role }
{
    matches!(role, Role::Optional(_))
}

/// Whether `__VA_OPT__` is in a body.
fn has_optional(definition: &Definition) -> bool
    ensures { result ≡ list_any is_optional_role (roles_of definition.now) }
{
    for i in 0..definition.body_len() {
        if is_optional_role(definition.role(i)) {
            return true;
        }
    }
    false
}

/// The spelling of a token that stands for itself.
fn own_spelling<'a>(element: &Element<'a>) -> &'a [u8]
    ensures { result.now ≡ own_spelling (element_value element.now) }
{
    match element {
        Element::Word(word) => word.spelling,
        _ => &[],
    }
}

/// Whether a token is the `)` after `__VA_OPT__`, where so many parentheses are open.
fn is_match(deep: usize, spelling: &[u8]) -> bool
    ensures { result ≡ is_match deep spelling.now }
{
    matches!(spelling, b")") && deep == 0
}

/// How many parentheses are open after a token.
fn depth_at(deep: usize, spelling: &[u8]) -> usize
    requires { deep < usize.MAX }
    ensures depth { result ≡ depth_at deep spelling.now }
    ensures most { result ≤ deep + 1 }
{
    match spelling {
        b"(" => deep + 1,
        b")" => deep.saturating_sub(1),
        _ => deep,
    }
}

/// A place within the parentheses.
fn kept<'a>(element: Element<'a>) -> Element<'a>
    ensures { element_value result ≡ kept (element_value element.entry) }
{
    match element {
        Element::Expanded(space, n) => Element::Kept(space, n),
        other => other,
    }
}

/// The places from one on, up to the `)`.
fn inside<'a>(
    alloc: Global,
    definition: &'a Definition,
    from: usize,
) -> Result<Vec<Element<'a>>, AllocError>
    ensures { IfOk result (λ all. element_values all.items ≡ inside 0 (drop from (elements_of definition.now))) }
{
    let mut all = Vec::new(alloc);
    let mut deep = 0usize;
    for i in from..definition.body_len() {
        let element = element_at(definition, i);
        let spelling = own_spelling(&element);
        if is_match(deep, spelling) {
            return Ok(all);
        }
        deep = depth_at(deep, spelling);
        all.push(kept(element))?;
    }
    Ok(all)
}

/// Adds tokens that are lent.
fn push_lent<'a, 'b>(
    all: &mut Vec<Carried<'a, 'b>>,
    tokens: Lent<'_, 'a, 'b>,
) -> Result<(), AllocError>
    ensures { OnOk result (all.new.items ≡ all.old.items ++ lent_tokens tokens.entry) }
{
    for i in 0..tokens.len() {
        all.push(tokens.at(i))?;
    }
    Ok(())
}

/// Adds the tokens of a segment.
fn push_segment<'a, 'b>(
    all: &mut Vec<Carried<'a, 'b>>,
    segment: &Segment<'_, 'a, 'b>,
) -> Result<(), AllocError>
    ensures { OnOk result (all.new.items ≡ all.old.items ++ segment_tokens segment.now) }
{
    match segment {
        Segment::One(token) => all.push(*token)?,
        Segment::Several(tokens) => push_lent(all, *tokens)?,
    }
    Ok(())
}

/// The tokens of segments.
fn tokens_of<'a, 'b>(
    alloc: Global,
    segments: &[Segment<'_, 'a, 'b>],
) -> Result<Vec<Carried<'a, 'b>>, AllocError>
    ensures { IfOk result (λ all. all.items ≡ tokens_in segments.now) }
{
    let mut all = Vec::new(alloc);
    for i in 0..segments.len() {
        push_segment(&mut all, &segments[i])?;
    }
    Ok(all)
}

/// The string that `#` makes of what stands in the parentheses.
fn string_of_places<'a, 'b>(
    alloc: Global,
    arena: &'b Bump,
    sets: &mut HideSets<'a>,
    places: &[Element<'a>],
    args: &Arguments<'a, 'b>,
) -> Result<&'b [u8], ExpandFault>
    requires { AreKnownIn (size sets.old) args.now }
    ensures keeps { Keeps sets.old sets.new }
    ensures string { (space : Bool) → IfOk result (λ bytes.
        standing (argument_values sets.old args.now) (Some space) (element_values places.now) ≡ Ok (Made space bytes.now ∷ [])) }
    ensures fault { (space : Bool) → IfErr result (λ fault. fault ≢ ExpandFault.NoMemory
        → standing (argument_values sets.old args.now) (Some space) (element_values places.now) ≡ Err fault) }
{
    let segments = joined(
        alloc,
        arena,
        Rule::ByContexts,
        sets,
        Places::Inside(places),
        args,
    )?;
    let tokens = tokens_of(alloc, &segments)?;
    let bytes = string_bytes(alloc, arena, Lent::Carried(&tokens))?;
    Ok(bytes)
}

/// Adds places, or a placemarker where there are none.
fn push_places<'a, 'b>(
    all: &mut Vec<Place<'a, 'b>>,
    places: &[Element<'a>],
) -> Result<(), AllocError>
    ensures { OnOk result (place_values all.new.items ≡ place_values all.old.items ++ or_empty (element_values places.now)) }
{
    if places.is_empty() {
        all.push(Place::Own(Element::Empty))?;
        return Ok(());
    }
    for i in 0..places.len() {
        all.push(Place::Own(places[i]))?;
    }
    Ok(())
}

/// Adds what stands for `__VA_OPT__` and these places in its parentheses.
fn stand<'a, 'b>(
    alloc: Global,
    arena: &'b Bump,
    sets: &mut HideSets<'a>,
    args: &Arguments<'a, 'b>,
    hash: Option<bool>,
    places: &[Element<'a>],
    all: &mut Vec<Place<'a, 'b>>,
) -> Result<(), ExpandFault>
    requires { AreKnownIn (size sets.old) args.now }
    ensures keeps { Keeps sets.old sets.new }
    ensures standing { OnOk result (after_places (place_values all.old.items)
        (standing (argument_values sets.old args.now) hash (element_values places.now)) ≡ Ok (place_values all.new.items)) }
    ensures fault { IfErr result (λ fault. fault ≢ ExpandFault.NoMemory
        → standing (argument_values sets.old args.now) hash (element_values places.now) ≡ Err fault) }
{
    match hash {
        None => {
            push_places(all, places)?;
            Ok(())
        }
        Some(space) => {
            let bytes = string_of_places(alloc, arena, sets, places, args)?;
            all.push(Place::Made(space, bytes))?;
            Ok(())
        }
    }
}

/// Whether a parameter's argument expands to some tokens.
fn has_tokens(args: &Arguments<'_, '_>, n: u8) -> bool
    ensures { (s : Sets) → result ≡ has_tokens (argument_values s args.now) n }
{
    expanded_at(args, n).len() > 0
}

/// The places in the parentheses that stand.
fn held<'s, 'a>(args: &Arguments<'_, '_>, n: u8, places: &'s [Element<'a>]) -> &'s [Element<'a>]
    ensures { (s : Sets) → element_values result.now
        ≡ (if has_tokens (argument_values s args.now) n then element_values places.now else []) }
{
    if has_tokens(args, n) {
        return places;
    }
    &[]
}

/// What `__VA_OPT__` says at a place, where it is there: whether white space is before the `#` before it, and the variable arguments.
fn optional_of(element: &Element<'_>) -> Option<(Option<bool>, u8)>
    ensures { result ≡ optional_of (element_value element.now) }
{
    match element {
        Element::Optional(hash, n) => Some((*hash, *n)),
        _ => None,
    }
}

/// A place so many after another. One that a number has no room for is refused as if memory had run out.
fn place_after(i: usize, more: usize) -> Result<usize, AllocError>
    ensures { IfOk result (λ n. n ≡ i + more) }
{
    match i.checked_add(more) {
        Some(n) => Ok(n),
        None => Err(AllocError),
    }
}

/// Adds what stands for a place of a body, and gives the place after it and those that go with it.
fn choose<'a, 'b>(
    alloc: Global,
    arena: &'b Bump,
    sets: &mut HideSets<'a>,
    definition: &'a Definition,
    args: &Arguments<'a, 'b>,
    i: usize,
    all: &mut Vec<Place<'a, 'b>>,
) -> Result<usize, ExpandFault>
    requires args { AreKnownIn (size sets.old) args.now }
    requires within { i < length definition.now.body }
    ensures keeps { Keeps sets.old sets.new }
    ensures later { IfOk result (λ next. i < next) }
    ensures chosen { let es = elements_of definition.now in let values = argument_values sets.old args.now in IfOk result (λ next.
        after_places (place_values all.new.items) (chosen values 0 (drop next es))
        ≡ after_places (place_values all.old.items) (chosen values 0 (drop i es))) }
    ensures fault { let es = elements_of definition.now in let values = argument_values sets.old args.now in IfErr result (λ fault. fault ≢ ExpandFault.NoMemory
        → chosen values 0 (drop i es) ≡ Err fault) }
{
    let element = element_at(definition, i);
    match optional_of(&element) {
        Some((hash, n)) => {
            let from = place_after(i, 2)?;
            let places = inside(alloc, definition, from)?;
            let next = place_after(from, places.len())?;
            stand(alloc, arena, sets, args, hash, held(args, n, &places), all)?;
            let next = place_after(next, 1)?;
            Ok(next)
        }
        None => {
            all.push(Place::Own(element))?;
            let next = place_after(i, 1)?;
            Ok(next)
        }
    }
}

/// The places of a body that stand: each is looked at once or twice.
fn chosen<'a, 'b>(
    alloc: Global,
    arena: &'b Bump,
    sets: &mut HideSets<'a>,
    definition: &'a Definition,
    args: &Arguments<'a, 'b>,
) -> Result<Vec<Place<'a, 'b>>, ExpandFault>
    requires { AreKnownIn (size sets.old) args.now }
    ensures keeps { Keeps sets.old sets.new }
    ensures chosen { IfOk result (λ all. chosen (argument_values sets.old args.now) 0 (elements_of definition.now) ≡ Ok (place_values all.items)) }
    ensures fault { IfErr result (λ fault. fault ≢ ExpandFault.NoMemory
        → chosen (argument_values sets.old args.now) 0 (elements_of definition.now) ≡ Err fault) }
{
    let mut all = Vec::with_capacity(alloc, definition.body_len())?;
    let mut i = 0;
    while i < definition.body_len() {
        i = choose(alloc, arena, sets, definition, args, i, &mut all)?;
    }
    Ok(all)
}

/// What replaces a macro's name, before its line, white space and hidden names are set.
pub(crate) fn substituted<'s, 'a, 'b>(
    alloc: Global,
    arena: &'b Bump,
    rule: Rule,
    sets: &mut HideSets<'a>,
    definition: &'a Definition,
    args: &'s Arguments<'a, 'b>,
) -> Result<Vec<Segment<'s, 'a, 'b>>, ExpandFault>
    requires { AreKnownIn (size sets.old) args.now }
    ensures keeps { Keeps sets.old sets.new }
    ensures tokens { IfOk result (λ all. substituted rule (argument_values sets.old args.now)
        (elements_of definition.now) ≡ Ok (carriers sets.new (tokens_in all.items))) }
    ensures known { IfOk result (λ all. AreKnown (size sets.new) (tokens_in all.items)) }
    ensures fault { IfErr result (λ fault. fault ≢ ExpandFault.NoMemory
        → substituted rule (argument_values sets.old args.now) (elements_of definition.now)
        ≡ Err fault) }
{
    if has_optional(definition) {
        let places = chosen(alloc, arena, sets, definition, args)?;
        let all = joined(alloc, arena, rule, sets, Places::Standing(&places), args)?;
        return Ok(all);
    }
    let all = joined_body(alloc, arena, rule, sets, definition, args)?;
    Ok(all)
}
