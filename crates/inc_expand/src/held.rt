//! Tokens that wait for the rest of a call.
ghost use Rattle.std.specs.Prelude.{◌≡◌, ◌++◌, ◌∷◌, ◌<◌, List, ℕ, map, IfOk, OnOk};
ghost use Rattle.inc_expand.specs.Carriers.{carrier, carriers, AreKnown};
ghost use Rattle.inc_expand.specs.HeldTokens.{seen_held, seen_ref};
ghost use Rattle.inc_expand.specs.Openings.{held, held_names, of_held};
ghost use Rattle.inc_expand.specs.Sets.{Keeps, holds, size};

use crate::carried::{Bytes, Carried};
use crate::contexts::is_painted;
use crate::hide_sets::{HideSets, SetId};
use crate::items::{Item, item_of};
use crate::stacks::Stack;
use inc_token::Kind;
use std::alloc::{AllocError, Global};

/// A token that waits for the rest of a call, its bytes lent.
#[derive(Clone, Copy)]
pub struct HeldRef<'a> {
    /// Its class.
    pub kind: Kind,
    /// Its bytes.
    pub spelling: &'a [u8],
    /// Its physical line.
    pub line: u32,
    /// Whether white space is right before it.
    pub space: bool,
    /// Whether it was met in its own replacement, so that it is not replaced.
    pub painted: bool,
}

/// A token that waits for the rest of a call, as an expansion leaves it.
#[derive(Drop)]
pub struct Held<'a> {
    pub item: Item<'a>,
    /// Whether it was met in its own replacement, so that it is not replaced.
    pub painted: bool,
}

/// What a token that waits hides.
fn set_of<'a>(sets: &mut HideSets<'a>, token: &HeldRef<'a>) -> Result<SetId, AllocError>
    ensures keeps { Keeps sets.old sets.new }
    ensures known { IfOk result (λ r. r < size sets.new) }
    ensures members { IfOk result (λ r. (n : List ℕ) → holds sets.new r n ≡ held_names (seen_ref token.now) n) }
{
    if token.painted {
        return sets.with(HideSets::empty(), token.spelling);
    }
    Ok(HideSets::empty())
}

/// Puts a token that waits before a list.
fn push_held<'a, 'b>(
    sets: &mut HideSets<'a>,
    token: &HeldRef<'a>,
    list: &mut Stack<'a, 'b>,
) -> Result<(), AllocError>
    requires list { AreKnown (size sets.old) list.old }
    ensures keeps { Keeps sets.old sets.new }
    ensures known { OnOk result (AreKnown (size sets.new) list.new) }
    ensures list { OnOk result (carriers sets.new list.new ≡ of_held (seen_ref token.now) ∷ carriers sets.old list.old) }
{
    let set = set_of(sets, token)?;
    list.push(Carried {
        text: Bytes::Source(token.spelling),
        line: token.line,
        set,
        kind: token.kind,
        space: token.space,
    })?;
    Ok(())
}

/// Puts tokens that wait before a list.
pub(crate) fn push_all_held<'a, 'b>(
    sets: &mut HideSets<'a>,
    tokens: &[HeldRef<'a>],
    list: &mut Stack<'a, 'b>,
) -> Result<(), AllocError>
    requires list { AreKnown (size sets.old) list.old }
    ensures known { OnOk result (AreKnown (size sets.new) list.new) }
    ensures list { OnOk result (carriers sets.new list.new ≡ map of_held (map seen_ref tokens.now) ++ carriers sets.old list.old) }
{
    list.expect(tokens.len());
    let mut at = tokens.len();
    while at > 0 {
        at -= 1;
        push_held(sets, &tokens[at], list)?;
    }
    Ok(())
}

/// A token on its way as one that waits.
fn held_of<'a>(
    alloc: Global,
    sets: &HideSets<'a>,
    token: &Carried<'a, '_>,
) -> Result<Held<'a>, AllocError>
    requires { token.now.set < size sets.now }
    ensures { IfOk result (λ it. seen_held it ≡ held (carrier sets.now token.now)) }
{
    let painted = is_painted(sets, token);
    let item = item_of(alloc, token)?;
    Ok(Held { item, painted })
}

/// The tokens of a list as those that wait.
pub(crate) fn all_held<'a>(
    alloc: Global,
    sets: &HideSets<'a>,
    list: &mut Stack<'a, '_>,
) -> Result<Vec<Held<'a>>, AllocError>
    requires { AreKnown (size sets.now) list.old }
    ensures { IfOk result (λ all. map seen_held all.items ≡ map held (carriers sets.now list.old)) }
{
    let mut all = Vec::with_capacity(alloc, list.len())?;
    while let Some(token) = list.pop() {
        let it = held_of(alloc, sets, &token)?;
        all.push(it)?;
    }
    Ok(all)
}
