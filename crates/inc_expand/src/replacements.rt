//! What replaces a macro's name (ISO/IEC 9899:2018, 6.10.3.1 to 6.10.3.3).
ghost use Rattle.std.specs.Prelude.{◌≡◌, ◌≢◌, ◌<◌, ◌≤◌, ◌∷◌, [], ◌++◌, ℕ, List, length, drop, Ok, Err, IfOk, IfErr, OnOk};
ghost use Rattle.inc_expand.specs.Sets.{Sets, size, Keeps};
ghost use Rattle.inc_expand.specs.Elements.{Element as BodyPlace, elements_of};
ghost use Rattle.inc_expand.specs.Expansion.{Part, argument_at, comma_part, joined, of_body};
ghost use Rattle.inc_expand.specs.Carriers.{carrier, carriers, AreKnown};
ghost use Rattle.inc_expand.specs.Arguments.{argument_values, AreKnownIn};
ghost use Rattle.inc_expand.specs.Lent.{lent_tokens};
ghost use Rattle.inc_expand.specs.Joins.{put_before, rest_of, tokens_in, IsKnown};
ghost use Rattle.inc_expand.specs.ElementValues.{element_value, place_value, places_in, word_value};
ghost use Rattle.inc_expand.specs.Substitutions.{made_strings, parts_with};

use crate::arguments::Arguments;
use crate::body_elements::{Element, Place, Places, Word, element_at};
use crate::carried::{Bytes, Carried};
use crate::faults::ExpandFault;
use crate::hide_sets::HideSets;
use crate::lent::Lent;
use crate::pastes::{Joiner, Segment};
use crate::rules::Rule;
use crate::strings::{made_string, string_of};
use bumpalo::Bump;
use inc_macro::Definition;
use std::alloc::Global;

/// The tokens of a parameter's argument as they are in the call.
fn written_at<'s, 'a, 'b>(args: &'s Arguments<'a, 'b>, n: u8) -> Lent<'s, 'a, 'b>
    ensures tokens { (s : Sets) → carriers s (lent_tokens result)
        ≡ (argument_at (argument_values s args.now) n).written }
    ensures known { (m : ℕ) → AreKnownIn m args.now → AreKnown m (lent_tokens result) }
{
    let n = n as usize;
    if n >= args.len() {
        return Lent::none();
    }
    args.written(n)
}

/// What a parameter's argument expands to.
pub(crate) fn expanded_at<'s, 'a, 'b>(args: &'s Arguments<'a, 'b>, n: u8) -> Lent<'s, 'a, 'b>
    ensures tokens { (s : Sets) → carriers s (lent_tokens result)
        ≡ (argument_at (argument_values s args.now) n).expanded }
    ensures known { (m : ℕ) → AreKnownIn m args.now → AreKnown m (lent_tokens result) }
{
    let n = n as usize;
    if n >= args.len() {
        return Lent::none();
    }
    args.expanded(n)
}

/// Whether a parameter's argument is in the call.
fn is_given_at(args: &Arguments<'_, '_>, n: u8) -> bool
    ensures { (s : Sets) → result ≡ (argument_at (argument_values s args.now) n).given }
{
    let n = n as usize;
    if n >= args.len() {
        return true;
    }
    args.is_given(n)
}

/// Passes a `,` before the variable arguments, or a placemarker where they are left out.
fn pass_comma<'s, 'a, 'b>(
    joiner: &mut Joiner<'s, 'a, 'b>,
    sets: &mut HideSets<'a>,
    comma: Word<'a>,
    given: bool,
) -> Result<(), ExpandFault>
    requires { IsKnown (size sets.old) joiner.old }
    ensures keeps { Keeps sets.old sets.new }
    ensures rest { (parts : List Part) → OnOk result (rest_of sets.new joiner.new parts
        ≡ rest_of sets.old joiner.old (comma_part given (word_value comma.entry) ∷ parts)) }
    ensures known { OnOk result (IsKnown (size sets.new) joiner.new) }
    ensures fault { (parts : List Part) → IfErr result (λ fault. fault ≢ ExpandFault.NoMemory
        → rest_of sets.old joiner.old (comma_part given (word_value comma.entry) ∷ parts) ≡ Err fault) }
{
    if given {
        joiner.token(sets, token_of(comma))?;
        return Ok(());
    }
    joiner.placemarker()?;
    Ok(())
}

/// Adds the string that a place of a body makes, where it makes one.
#[inline(always)]
fn push_string<'a, 'b>(
    alloc: Global,
    arena: &'b Bump,
    element: Element<'a>,
    args: &Arguments<'a, 'b>,
    made: &mut Vec<Carried<'a, 'b>>,
) -> Result<(), ExpandFault>
    ensures rest { (s : Sets) (es : List BodyPlace) → OnOk result
        (put_before (carriers s made.new.items) (made_strings (argument_values s args.now) es)
        ≡ put_before (carriers s made.old.items)
        (made_strings (argument_values s args.now) (element_value element.entry ∷ es))) }
    ensures known { (s : Sets) → AreKnown (size s) made.old.items
        → OnOk result (AreKnown (size s) made.new.items) }
    ensures fault { (s : Sets) (es : List BodyPlace)
        → IfErr result (λ fault. fault ≢ ExpandFault.NoMemory
        → put_before (carriers s made.old.items)
        (made_strings (argument_values s args.now) (element_value element.entry ∷ es)) ≡ Err fault) }
{
    if let Element::StringOf(space, n) = element {
        let string = string_of(alloc, arena, space, written_at(args, n))?;
        made.push(string)?;
        return Ok(());
    }
    Ok(())
}

/// Adds the string that a place makes, where it is one of a body that makes one.
fn push_place_string<'a, 'b>(
    alloc: Global,
    arena: &'b Bump,
    place: Place<'a, 'b>,
    args: &Arguments<'a, 'b>,
    made: &mut Vec<Carried<'a, 'b>>,
) -> Result<(), ExpandFault>
    ensures rest { (s : Sets) (es : List BodyPlace) → OnOk result
        (put_before (carriers s made.new.items) (made_strings (argument_values s args.now) es)
        ≡ put_before (carriers s made.old.items)
        (made_strings (argument_values s args.now) (place_value place.entry ∷ es))) }
    ensures known { (s : Sets) → AreKnown (size s) made.old.items
        → OnOk result (AreKnown (size s) made.new.items) }
    ensures fault { (s : Sets) (es : List BodyPlace)
        → IfErr result (λ fault. fault ≢ ExpandFault.NoMemory
        → put_before (carriers s made.old.items)
        (made_strings (argument_values s args.now) (place_value place.entry ∷ es)) ≡ Err fault) }
{
    match place {
        Place::Own(element) => {
            push_string(alloc, arena, element, args, made)?;
            Ok(())
        }
        Place::Made(_, _) => Ok(()),
    }
}

/// The strings that places make, from left to right.
fn strings<'a, 'b>(
    alloc: Global,
    arena: &'b Bump,
    places: Places<'_, 'a, 'b>,
    args: &Arguments<'a, 'b>,
) -> Result<Vec<Carried<'a, 'b>>, ExpandFault>
    ensures strings { (s : Sets) → IfOk result (λ made.
        made_strings (argument_values s args.now) (places_in places.entry)
        ≡ Ok (carriers s made.items)) }
    ensures known { (s : Sets) → IfOk result (λ made. AreKnown (size s) made.items) }
    ensures fault { (s : Sets) → IfErr result (λ fault. fault ≢ ExpandFault.NoMemory
        → made_strings (argument_values s args.now) (places_in places.entry) ≡ Err fault) }
{
    let mut made = Vec::new(alloc);
    for i in 0..places.len() {
        push_place_string(alloc, arena, places.at(i), args, &mut made)?;
    }
    Ok(made)
}

/// The strings that a body makes, from left to right.
fn strings_of_body<'a, 'b>(
    alloc: Global,
    arena: &'b Bump,
    definition: &'a Definition,
    args: &Arguments<'a, 'b>,
) -> Result<Vec<Carried<'a, 'b>>, ExpandFault>
    ensures strings { (s : Sets) → IfOk result (λ made.
        made_strings (argument_values s args.now) (elements_of definition.now)
        ≡ Ok (carriers s made.items)) }
    ensures known { (s : Sets) → IfOk result (λ made. AreKnown (size s) made.items) }
    ensures fault { (s : Sets) → IfErr result (λ fault. fault ≢ ExpandFault.NoMemory
        → made_strings (argument_values s args.now) (elements_of definition.now) ≡ Err fault) }
{
    let mut made = Vec::new(alloc);
    for i in 0..definition.body_len() {
        push_string(alloc, arena, element_at(definition, i), args, &mut made)?;
    }
    Ok(made)
}

/// A token of a body that stands for itself.
fn token_of<'a, 'b>(word: Word<'a>) -> Carried<'a, 'b>
    ensures token { (s : Sets) → carrier s result ≡ of_body (word_value word.entry) }
    ensures known { (s : Sets) → result.set < size s }
{
    Carried {
        text: Bytes::Source(word.spelling),
        line: 0,
        set: HideSets::empty(),
        kind: word.kind,
        space: word.space,
    }
}

/// Passes a place of a body. `at`: how many of the strings are passed, which is given back. In line, as in a loop over places that are
/// not listed it has no calls then.
#[inline(always)]
fn pass_element<'s, 'a, 'b>(
    joiner: &mut Joiner<'s, 'a, 'b>,
    sets: &mut HideSets<'a>,
    element: Element<'a>,
    args: &'s Arguments<'a, 'b>,
    strings: &[Carried<'a, 'b>],
    at: usize,
) -> Result<usize, ExpandFault>
    requires known { IsKnown (size sets.old) joiner.old }
    requires args { AreKnownIn (size sets.old) args.now }
    requires strings { AreKnown (size sets.old) strings.now }
    requires within { at ≤ length strings.now }
    ensures keeps { Keeps sets.old sets.new }
    ensures rest { (es : List BodyPlace) → IfOk result (λ after. rest_of sets.new joiner.new
        (parts_with (argument_values sets.old args.now) (carriers sets.old (drop after strings.now)) es)
        ≡ rest_of sets.old joiner.old (parts_with (argument_values sets.old args.now)
        (carriers sets.old (drop at strings.now)) (element_value element.entry ∷ es))) }
    ensures known { OnOk result (IsKnown (size sets.new) joiner.new) }
    ensures within { IfOk result (λ after. after ≤ length strings.now) }
    ensures fault { (es : List BodyPlace) → IfErr result (λ fault. fault ≢ ExpandFault.NoMemory
        → rest_of sets.old joiner.old (parts_with (argument_values sets.old args.now)
        (carriers sets.old (drop at strings.now)) (element_value element.entry ∷ es)) ≡ Err fault) }
{
    match element {
        Element::Word(word) => {
            joiner.token(sets, token_of(word))?;
            Ok(at)
        }
        Element::Glue => {
            joiner.paste();
            Ok(at)
        }
        Element::Silent => Ok(at),
        Element::StringOf(_, _) => {
            if at == strings.len() {
                return Ok(at);
            }
            joiner.token(sets, strings[at])?;
            Ok(at + 1)
        }
        Element::AsWritten(space, n) => {
            joiner.operand(sets, space, written_at(args, n))?;
            Ok(at)
        }
        Element::Expanded(space, n) => {
            joiner.argument(sets, space, expanded_at(args, n))?;
            Ok(at)
        }
        Element::Comma(comma, n) => {
            pass_comma(joiner, sets, comma, is_given_at(args, n))?;
            Ok(at)
        }
        Element::Optional(_, _) => Ok(at),
        Element::Kept(space, n) => {
            joiner.operand(sets, space, expanded_at(args, n))?;
            Ok(at)
        }
        Element::Empty => {
            joiner.placemarker()?;
            Ok(at)
        }
    }
}

/// Passes a place that stands, in the same way.
fn pass_place<'s, 'a, 'b>(
    joiner: &mut Joiner<'s, 'a, 'b>,
    sets: &mut HideSets<'a>,
    place: Place<'a, 'b>,
    args: &'s Arguments<'a, 'b>,
    strings: &[Carried<'a, 'b>],
    at: usize,
) -> Result<usize, ExpandFault>
    requires known { IsKnown (size sets.old) joiner.old }
    requires args { AreKnownIn (size sets.old) args.now }
    requires strings { AreKnown (size sets.old) strings.now }
    requires within { at ≤ length strings.now }
    ensures keeps { Keeps sets.old sets.new }
    ensures rest { (es : List BodyPlace) → IfOk result (λ after. rest_of sets.new joiner.new
        (parts_with (argument_values sets.old args.now) (carriers sets.old (drop after strings.now)) es)
        ≡ rest_of sets.old joiner.old (parts_with (argument_values sets.old args.now)
        (carriers sets.old (drop at strings.now)) (place_value place.entry ∷ es))) }
    ensures known { OnOk result (IsKnown (size sets.new) joiner.new) }
    ensures within { IfOk result (λ after. after ≤ length strings.now) }
    ensures fault { (es : List BodyPlace) → IfErr result (λ fault. fault ≢ ExpandFault.NoMemory
        → rest_of sets.old joiner.old (parts_with (argument_values sets.old args.now)
        (carriers sets.old (drop at strings.now)) (place_value place.entry ∷ es)) ≡ Err fault) }
{
    match place {
        Place::Own(element) => {
            let after = pass_element(joiner, sets, element, args, strings, at)?;
            Ok(after)
        }
        Place::Made(space, bytes) => {
            joiner.token(sets, made_string(space, bytes))?;
            Ok(at)
        }
    }
}

/// What replaces a macro's name, before its line, white space and hidden names are set, from places in a list.
pub(crate) fn joined<'s, 'a, 'b>(
    alloc: Global,
    arena: &'b Bump,
    rule: Rule,
    sets: &mut HideSets<'a>,
    places: Places<'_, 'a, 'b>,
    args: &'s Arguments<'a, 'b>,
) -> Result<Vec<Segment<'s, 'a, 'b>>, ExpandFault>
    requires { AreKnownIn (size sets.old) args.now }
    ensures keeps { Keeps sets.old sets.new }
    ensures tokens { IfOk result (λ all. joined rule (argument_values sets.old args.now)
        (places_in places.entry) ≡ Ok (carriers sets.new (tokens_in all.items))) }
    ensures known { IfOk result (λ all. AreKnown (size sets.new) (tokens_in all.items)) }
    ensures fault { IfErr result (λ fault. fault ≢ ExpandFault.NoMemory
        → joined rule (argument_values sets.old args.now) (places_in places.entry)
        ≡ Err fault) }
{
    let strings = strings(alloc, arena, places, args)?;
    let mut joiner = Joiner::new(alloc, arena, rule, places.len())?;
    let mut at = 0;
    for i in 0..places.len() {
        let place = places.at(i);
        at = pass_place(&mut joiner, sets, place, args, &strings, at)?;
    }
    let all = joiner.finish()?;
    Ok(all)
}

/// What replaces a macro's name, before its line, white space and hidden names are set, where all places of its body stand. These are not
/// listed, since that costs 6 % where macros paste much.
pub(crate) fn joined_body<'s, 'a, 'b>(
    alloc: Global,
    arena: &'b Bump,
    rule: Rule,
    sets: &mut HideSets<'a>,
    definition: &'a Definition,
    args: &'s Arguments<'a, 'b>,
) -> Result<Vec<Segment<'s, 'a, 'b>>, ExpandFault>
    requires { AreKnownIn (size sets.old) args.now }
    ensures keeps { Keeps sets.old sets.new }
    ensures tokens { IfOk result (λ all. joined rule (argument_values sets.old args.now)
        (elements_of definition.now) ≡ Ok (carriers sets.new (tokens_in all.items))) }
    ensures known { IfOk result (λ all. AreKnown (size sets.new) (tokens_in all.items)) }
    ensures fault { IfErr result (λ fault. fault ≢ ExpandFault.NoMemory
        → joined rule (argument_values sets.old args.now) (elements_of definition.now)
        ≡ Err fault) }
{
    let strings = strings_of_body(alloc, arena, definition, args)?;
    let mut joiner = Joiner::new(alloc, arena, rule, definition.body_len())?;
    let mut at = 0;
    for i in 0..definition.body_len() {
        let element = element_at(definition, i);
        at = pass_element(&mut joiner, sets, element, args, &strings, at)?;
    }
    let all = joiner.finish()?;
    Ok(all)
}
