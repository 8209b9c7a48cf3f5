//! Replacements by bodies without `#` and `##` (ISO/IEC 9899:2018, 6.10.3.1 and 6.10.3.4): their tokens go before the rest of a list
//! one by one, the last one first, and no list of them is made.
ghost use Rattle.std.specs.Prelude.{◌≡◌, ◌≢◌, ◌+◌, ◌<◌, ◌++◌, true, length, OnOk, IfErr};
ghost use Rattle.inc_expand.specs.Sets.{size, holds, Keeps};
ghost use Rattle.inc_expand.specs.Elements.{elements_of};
ghost use Rattle.inc_expand.specs.Expansion.{replacing, spaced};
ghost use Rattle.inc_expand.specs.Carriers.{carrier, carriers, AreKnown};
ghost use Rattle.inc_expand.specs.Arguments.{argument_values, AreKnownIn};
ghost use Rattle.inc_expand.specs.ElementValues.{element_value};
ghost use Rattle.inc_expand.specs.Lent.{lent_tokens};
ghost use Rattle.inc_expand.specs.Plain.{plain_tokens, tokens_at, ArePlain, IsLaid};
ghost use Rattle.inc_expand.specs.Walks.{IsNotPlaced, IsPlaced};

use crate::arguments::Arguments;
use crate::body_elements::{Element, element_at};
use crate::carried::{Bytes, Carried};
use crate::faults::ExpandFault;
use crate::hide_sets::{HideSets, SetId};
use crate::lent::Lent;
use crate::puts::{put_run, space_front};
use crate::replacements::expanded_at;
use crate::rules::Rule;
use crate::stacks::Stack;
use crate::walks::Work;
use inc_macro::Definition;

/// Whether a body has no operator `#` or `##`.
pub(crate) fn is_plain(definition: &Definition) -> bool
    ensures { result ≡ true → ArePlain (elements_of definition.now) }
{
    definition.is_plain()
}

/// Pays for so many tokens.
fn pay_for(units: &mut u32, count: usize) -> Result<(), ExpandFault>
    ensures paid { OnOk result (units.new + count ≡ units.old) }
    ensures over { IfErr result (λ fault. (fault ≡ ExpandFault.OverBudget) × (units.old < count)) }
{
    if count > *units as usize {
        return Err(ExpandFault::OverBudget);
    }
    *units -= count as u32;
    Ok(())
}

/// Puts the tokens of an argument before a list, the first of them with this white space before it.
fn put_argument<'a, 'b>(
    list: &mut Stack<'a, 'b>,
    rule: Rule,
    sets: &mut HideSets<'a>,
    line: u32,
    names: SetId,
    space: bool,
    tokens: Lent<'_, 'a, 'b>,
) -> Result<(), ExpandFault>
    requires names { names < size sets.old }
    requires tokens { AreKnown (size sets.old) (lent_tokens tokens) }
    requires list { AreKnown (size sets.old) list.old }
    ensures laid { OnOk result (IsLaid rule sets.old sets.new line names
        (spaced space (carriers sets.old (lent_tokens tokens.entry))) list.old list.new) }
    ensures fault { IfErr result (λ fault. fault ≡ ExpandFault.NoMemory) }
{
    if tokens.len() == 0 {
        return Ok(());
    }
    put_run(list, rule, sets, line, names, tokens)?;
    space_front(list, space)?;
    Ok(())
}

/// Puts what stands for a place of a plain body before a list, and pays for it.
fn put_place<'a, 'b>(
    list: &mut Stack<'a, 'b>,
    rule: Rule,
    sets: &mut HideSets<'a>,
    units: &mut u32,
    line: u32,
    names: SetId,
    element: Element<'a>,
    args: &Arguments<'a, 'b>,
) -> Result<(), ExpandFault>
    requires names { names < size sets.old }
    requires args { AreKnownIn (size sets.old) args.now }
    requires list { AreKnown (size sets.old) list.old }
    ensures laid { OnOk result (IsLaid rule sets.old sets.new line names
        (tokens_at (argument_values sets.old args.now) (element_value element.entry)) list.old list.new) }
    ensures paid { OnOk result (units.new + length
        (tokens_at (argument_values sets.old args.now) (element_value element.entry)) ≡ units.old) }
    ensures fault { IfErr result (λ fault. fault ≢ ExpandFault.NoMemory → (fault ≡ ExpandFault.OverBudget)
        × (units.old < length (tokens_at (argument_values sets.old args.now) (element_value element.entry)))) }
{
    match element {
        Element::Word(word) => {
            pay_for(units, 1)?;
            list.push(Carried {
                text: Bytes::Source(word.spelling),
                line,
                set: names,
                kind: word.kind,
                space: word.space,
            })?;
            Ok(())
        }
        Element::Expanded(space, n) => {
            let tokens = expanded_at(args, n);
            pay_for(units, tokens.len())?;
            put_argument(list, rule, sets, line, names, space, tokens)?;
            Ok(())
        }
        _ => Ok(()),
    }
}

/// Puts what stands for the places of a plain body before a list, the last place first, and pays for it: one step for each place, and
/// one for each token, of which there are no more than units.
fn put_places<'a, 'b>(
    list: &mut Stack<'a, 'b>,
    rule: Rule,
    sets: &mut HideSets<'a>,
    units: &mut u32,
    line: u32,
    names: SetId,
    definition: &'a Definition,
    args: &Arguments<'a, 'b>,
) -> Result<(), ExpandFault>
    requires names { names < size sets.old }
    requires args { AreKnownIn (size sets.old) args.now }
    requires list { AreKnown (size sets.old) list.old }
    ensures laid { OnOk result (IsLaid rule sets.old sets.new line names
        (plain_tokens (argument_values sets.old args.now) (elements_of definition.now)) list.old list.new) }
    ensures paid { OnOk result (units.new + length
        (plain_tokens (argument_values sets.old args.now) (elements_of definition.now)) ≡ units.old) }
    ensures fault { IfErr result (λ fault. fault ≢ ExpandFault.NoMemory → (fault ≡ ExpandFault.OverBudget)
        × (units.old < length (plain_tokens (argument_values sets.old args.now) (elements_of definition.now)))) }
{
    let mut i = definition.body_len();
    list.expect(i);
    while i > 0 {
        i -= 1;
        let element = element_at(definition, i);
        put_place(list, rule, sets, units, line, names, element, args)?;
    }
    Ok(())
}

/// Puts what replaces a token by a plain body before a list: on its line, with these names hidden, and spaced as it is.
fn put_plain<'a, 'b>(
    list: &mut Stack<'a, 'b>,
    rule: Rule,
    sets: &mut HideSets<'a>,
    units: &mut u32,
    replaced: &Carried<'a, 'b>,
    names: SetId,
    definition: &'a Definition,
    args: &Arguments<'a, 'b>,
) -> Result<(), ExpandFault>
    requires names { names < size sets.old }
    requires args { AreKnownIn (size sets.old) args.now }
    requires list { AreKnown (size sets.old) list.old }
    ensures keeps { OnOk result (Keeps sets.old sets.new) }
    ensures put { OnOk result (carriers sets.new list.new
        ≡ replacing rule (carrier sets.old replaced.now) (holds sets.old names)
        (plain_tokens (argument_values sets.old args.now) (elements_of definition.now)) ++ carriers sets.old list.old) }
    ensures known { OnOk result (AreKnown (size sets.new) list.new) }
    ensures paid { OnOk result (units.new + length
        (plain_tokens (argument_values sets.old args.now) (elements_of definition.now)) ≡ units.old) }
    ensures fault { IfErr result (λ fault. fault ≢ ExpandFault.NoMemory → (fault ≡ ExpandFault.OverBudget)
        × (units.old < length (plain_tokens (argument_values sets.old args.now) (elements_of definition.now)))) }
{
    let before = list.len();
    put_places(
        list,
        rule,
        sets,
        units,
        replaced.line,
        names,
        definition,
        args,
    )?;
    if list.len() > before {
        space_front(list, replaced.space)?;
    }
    Ok(())
}

/// Replaces a macro's name or call by a plain body: the names that the replacement hides are these and the macro's own.
pub(crate) fn replace_plain<'a, 'b>(
    rule: Rule,
    work: &mut Work<'a>,
    token: &Carried<'a, 'b>,
    hidden: SetId,
    macro_: &'a Definition,
    args: &Arguments<'a, 'b>,
    list: &mut Stack<'a, 'b>,
) -> Result<(), ExpandFault>
    requires plain { ArePlain (elements_of macro_.now) }
    requires hidden { hidden < size work.old.sets }
    requires args { AreKnownIn (size work.old.sets) args.now }
    requires list { AreKnown (size work.old.sets) list.old }
    ensures replaced { OnOk result
        (IsPlaced rule macro_.now args.now token.now hidden work.old work.new list.old list.new) }
    ensures fault { IfErr result (λ fault. fault ≢ ExpandFault.NoMemory
        → IsNotPlaced rule macro_.now args.now token.now hidden work.old list.old fault) }
{
    let mut units = work.meter.left();
    pay_for(&mut units, 1)?;
    let names = work.sets.with(hidden, macro_.name())?;
    put_plain(
        list,
        rule,
        &mut work.sets,
        &mut units,
        token,
        names,
        macro_,
        args,
    )?;
    work.meter.set_left(units);
    Ok(())
}
