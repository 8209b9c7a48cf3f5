//! Tokens that are moved, where the names that they hide are those of the replacements that they stand in.
ghost use Rattle.std.specs.Prelude.{◌≡◌, ◌<◌, ◌++◌, true, map, take, OnOk, IfOk, IfErr};
ghost use Rattle.inc_expand.specs.declared.rules.Rule.TheVariants.{ByContexts};
ghost use Rattle.inc_expand.specs.Sets.{size, holds};
ghost use Rattle.inc_expand.specs.Expansion.{hidden_at, is_painted, taken};
ghost use Rattle.inc_expand.specs.Carriers.{carrier, carriers, AreKnown};
ghost use Rattle.inc_expand.specs.Lent.{lent_tokens};
ghost use Rattle.inc_expand.specs.Slots.{inside_tokens};

use crate::arguments::Inside;
use crate::carried::Carried;
use crate::faults::ExpandFault;
use crate::hide_sets::{HideSets, SetId};
use crate::lent::Lent;
use crate::rules::Rule;
use crate::shared::Shared;
use inc_token::Kind;
use std::alloc::{AllocError, Global};

/// Whether a token is an identifier that hides its own name.
pub(crate) fn is_painted(sets: &HideSets<'_>, token: &Carried<'_, '_>) -> bool
    requires { token.now.set < size sets.now }
    ensures { result ≡ is_painted (carrier sets.now token.now) }
{
    match token.kind {
        Kind::Identifier => sets.holds(token.set, token.bytes()),
        _ => false,
    }
}

/// What a token hides that goes to a place where these names are hidden.
pub(crate) fn set_at(sets: &HideSets<'_>, names: SetId, token: &Carried<'_, '_>) -> SetId
    requires names { names < size sets.now }
    requires token { token.now.set < size sets.now }
    ensures set { holds sets.now result ≡ hidden_at ByContexts (holds sets.now names) (carrier sets.now token.now) }
    ensures known { result < size sets.now }
{
    if token.set == names || !is_painted(sets, token) {
        return names;
    }
    token.set
}

/// Whether a token hides what it is to hide at a place where these names are hidden.
fn is_taken(sets: &HideSets<'_>, names: SetId, token: &Carried<'_, '_>) -> bool
    requires names { names < size sets.now }
    requires token { token.now.set < size sets.now }
    ensures { result ≡ true → holds sets.now token.now.set
        ≡ hidden_at ByContexts (holds sets.now names) (carrier sets.now token.now) }
{
    set_at(sets, names, token) == token.set
}

/// Whether each token hides what it is to hide at a place where these names are hidden.
fn are_taken(sets: &HideSets<'_>, names: SetId, tokens: Lent<'_, '_, '_>) -> bool
    requires names { names < size sets.now }
    requires tokens { AreKnown (size sets.now) (lent_tokens tokens) }
    ensures { result ≡ true → carriers sets.now (lent_tokens tokens.entry)
        ≡ taken ByContexts (holds sets.now names) (carriers sets.now (lent_tokens tokens.entry)) }
{
    for i in 0..tokens.len() {
        let token = tokens.at(i);
        if !is_taken(sets, names, &token) {
            return false;
        }
    }
    true
}

/// Copies tokens to a place where these names are hidden.
fn copied<'a, 'b>(
    alloc: Global,
    sets: &HideSets<'a>,
    names: SetId,
    tokens: Lent<'_, 'a, 'b>,
) -> Result<Vec<Carried<'a, 'b>>, AllocError>
    requires names { names < size sets.now }
    requires tokens { AreKnown (size sets.now) (lent_tokens tokens) }
    ensures taken { IfOk result (λ all. carriers sets.now all.items
        ≡ taken ByContexts (holds sets.now names) (carriers sets.now (lent_tokens tokens.entry))) }
    ensures known { IfOk result (λ all. AreKnown (size sets.now) all.items) }
{
    let mut all = Vec::new(alloc);
    for i in 0..tokens.len() {
        let mut token = tokens.at(i);
        token.set = set_at(sets, names, &token);
        all.push(token)?;
    }
    Ok(all)
}

/// Takes the tokens of a call to where its `)` is, which hides these names. Mostly they are from the same replacement as the `)` and hide
/// the same: then none is copied.
fn taken_by_contexts<'a, 'b>(
    alloc: Global,
    sets: &HideSets<'a>,
    names: SetId,
    inside: Inside<'a, 'b>,
) -> Result<Inside<'a, 'b>, ExpandFault>
    requires names { names < size sets.now }
    requires inside { AreKnown (size sets.now) (inside_tokens inside) }
    ensures taken { IfOk result (λ all. carriers sets.now (inside_tokens all)
        ≡ taken ByContexts (holds sets.now names) (carriers sets.now (inside_tokens inside.entry))) }
    ensures known { IfOk result (λ all. AreKnown (size sets.now) (inside_tokens all)) }
    ensures fault { IfErr result (λ fault. fault ≡ ExpandFault.NoMemory) }
{
    if are_taken(sets, names, inside.tokens()) {
        return Ok(inside);
    }
    let all = copied(alloc, sets, names, inside.tokens())?;
    let shared = Shared::new(alloc, all)?;
    Ok(Inside::Shared(shared))
}

/// The tokens of a call as they are taken, where its `)` hides these names.
pub(crate) fn taken<'a, 'b>(
    alloc: Global,
    rule: Rule,
    sets: &HideSets<'a>,
    names: SetId,
    inside: Inside<'a, 'b>,
) -> Result<Inside<'a, 'b>, ExpandFault>
    requires names { names < size sets.now }
    requires inside { AreKnown (size sets.now) (inside_tokens inside) }
    ensures taken { IfOk result (λ all. carriers sets.now (inside_tokens all)
        ≡ taken rule (holds sets.now names) (carriers sets.now (inside_tokens inside.entry))) }
    ensures known { IfOk result (λ all. AreKnown (size sets.now) (inside_tokens all)) }
    ensures fault { IfErr result (λ fault. fault ≡ ExpandFault.NoMemory) }
{
    match rule {
        Rule::BySets => Ok(inside),
        Rule::ByContexts => taken_by_contexts(alloc, sets, names, inside),
    }
}
