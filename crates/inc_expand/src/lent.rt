//! Tokens that are lent: those of a list that is handed in are never copied.
ghost use Rattle.std.specs.Prelude.{◌≡◌, ◌<◌, ◌^◌, [], length, map, take, drop, get_or};
ghost use Rattle.inc_expand.specs.declared.carried.Carried.{Carried as ACarried};
ghost use Rattle.inc_expand.specs.Carriers.{carried_of};
ghost use Rattle.inc_expand.specs.Lent.{lent_tokens};

use crate::carried::{Carried, of_source};
use inc_token::Token;

/// Tokens that are lent.
#[derive(Clone, Copy)]
pub(crate) enum Lent<'s, 'a, 'b> {
    /// Of the list that is handed in.
    Source(&'s [Token<'a>]),
    /// Of a list that has tokens of replacements, or of an expansion.
    Carried(&'s [Carried<'a, 'b>]),
}

/// The token at a place of the list that is handed in.
#[inline(always)]
fn source_at<'a, 'b>(tokens: &[Token<'a>], i: usize) -> Carried<'a, 'b>
    requires { i < length tokens.now }
    ensures { (d : ACarried) → get_or (map carried_of tokens.now) i d ≡ result }
{
    of_source(&tokens[i])
}

/// The token at a place of another list.
#[inline(always)]
fn carried_at<'a, 'b>(tokens: &[Carried<'a, 'b>], i: usize) -> Carried<'a, 'b>
    requires { i < length tokens.now }
    ensures { (d : ACarried) → get_or tokens.now i d ≡ result }
{
    tokens[i]
}

/// The first so many, or all.
#[inline(always)]
pub(crate) fn front_of<T>(all: &[T], count: usize) -> &[T]
    ensures { result.now ≡ take count all.now }
{
    if count >= all.len() {
        return all;
    }
    &all[..count]
}

/// What is behind the first so many.
#[inline(always)]
pub(crate) fn behind_of<T>(all: &[T], count: usize) -> &[T]
    ensures { result.now ≡ drop count all.now }
{
    if count >= all.len() {
        return &[];
    }
    &all[count..]
}

impl<'s, 'a, 'b> Lent<'s, 'a, 'b> {
    /// No tokens.
    pub(crate) fn none() -> Lent<'s, 'a, 'b>
        ensures { lent_tokens result ≡ [] }
    {
        Lent::Source(&[])
    }

    /// How many tokens there are.
    #[inline(always)]
    pub(crate) fn len(&self) -> usize
        ensures len { result ≡ length (lent_tokens self.now) }
        ensures few { result < 2 ^ 58 }
    {
        match self {
            Lent::Source(tokens) => tokens.len(),
            Lent::Carried(tokens) => tokens.len(),
        }
    }

    /// The token at a place.
    #[inline(always)]
    pub(crate) fn at(&self, i: usize) -> Carried<'a, 'b>
        requires { i < length (lent_tokens self.now) }
        ensures { (d : ACarried) → get_or (lent_tokens self.now) i d ≡ result }
    {
        match self {
            Lent::Source(tokens) => source_at(tokens, i),
            Lent::Carried(tokens) => carried_at(tokens, i),
        }
    }

    /// The first so many, or all.
    pub(crate) fn front(self, count: usize) -> Lent<'s, 'a, 'b>
        ensures { lent_tokens result ≡ take count (lent_tokens self.entry) }
    {
        match self {
            Lent::Source(tokens) => Lent::Source(front_of(tokens, count)),
            Lent::Carried(tokens) => Lent::Carried(front_of(tokens, count)),
        }
    }

    /// What is behind the first so many.
    pub(crate) fn behind(self, count: usize) -> Lent<'s, 'a, 'b>
        ensures { lent_tokens result ≡ drop count (lent_tokens self.entry) }
    {
        match self {
            Lent::Source(tokens) => Lent::Source(behind_of(tokens, count)),
            Lent::Carried(tokens) => Lent::Carried(behind_of(tokens, count)),
        }
    }
}
