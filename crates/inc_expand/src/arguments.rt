//! The arguments of a call, as parts of what is between its parentheses.
ghost use Rattle.std.specs.Prelude.{◌≡◌, ◌<◌, [], false, IfOk, length, take, drop, get_or};
ghost use Rattle.std.proofs.Math.ListN.{set};
ghost use Rattle.inc_expand.specs.Arguments.{ArgumentValue};
ghost use Rattle.inc_expand.specs.Lent.{lent_tokens};
ghost use Rattle.inc_expand.specs.Slots.{inside_tokens, slot_value, slot_values};

use crate::carried::Carried;
use crate::lent::{Lent, behind_of, front_of};
use crate::shared::Shared;
use crate::stacks::Stack;
use inc_token::Token;
use std::alloc::{AllocError, Global};
use std::marker::Model;

/// What is inside a call.
#[derive(Drop)]
pub(crate) enum Inside<'a, 'b> {
    /// Tokens of the list that is handed in, which are not copied.
    Source(&'b [Token<'a>]),
    /// Tokens that were taken from a list that has some of replacements, or are a part of such ones.
    Shared(Shared<'a, 'b>),
}

impl<'a, 'b> Inside<'a, 'b> {
    /// Its tokens.
    pub(crate) fn tokens(&self) -> Lent<'_, 'a, 'b>
        ensures { lent_tokens result ≡ inside_tokens self.now }
    {
        match self {
            Inside::Source(tokens) => Lent::Source(tokens),
            Inside::Shared(tokens) => Lent::Carried(tokens.tokens()),
        }
    }

    /// So many of its tokens from a place on as a list to be expanded, without a copy.
    fn list(&self, alloc: Global, begin: usize, len: usize) -> Result<Stack<'a, 'b>, AllocError>
        ensures { IfOk result (λ list. list ≡ take len (drop begin (inside_tokens self.now))) }
    {
        match self {
            Inside::Source(tokens) => {
                let part = front_of(behind_of(tokens, begin), len);
                Ok(Stack::of_source(alloc, part))
            }
            Inside::Shared(tokens) => {
                let mut part = tokens.share()?;
                part.skip(begin);
                part.keep(len);
                Ok(Stack::of_shared(alloc, part))
            }
        }
    }
}

/// The place of an argument in a call, and what it expands to.
#[derive(Drop)]
pub(crate) struct Slot<'a, 'b> {
    /// Where it begins inside the call.
    begin: usize,
    /// How many tokens it has.
    len: usize,
    /// What they expand to, where the body asks for it and it is not themselves.
    expanded: Vec<Carried<'a, 'b>>,
    /// Whether they expand to themselves.
    passes: bool,
    /// Whether it is in the call: the variable arguments may be left out.
    given: bool,
}

impl<'a, 'b> Slot<'a, 'b> {
    /// An argument that is not expanded yet. It takes no memory.
    pub(crate) fn new(alloc: Global, begin: usize, len: usize, given: bool) -> Slot<'a, 'b>
        ensures begin { result.begin ≡ begin }
        ensures len { result.len ≡ len }
        ensures expanded { result.expanded.items ≡ [] }
        ensures passes { result.passes ≡ false }
        ensures given { result.given ≡ given }
    {
        Slot {
            begin,
            len,
            expanded: Vec::new(alloc),
            passes: false,
            given,
        }
    }
}

/// The arguments of a call in the order of the parameters. Their tokens are lent from those between the parentheses; an argument of which
/// each token passes alone expands to itself, without a copy.
#[derive(Drop)]
pub(crate) struct Arguments<'a, 'b> {
    inside: Inside<'a, 'b>,
    slots: Vec<Slot<'a, 'b>>,
}

impl<'a, 'b> Model for Arguments<'a, 'b> {
    ghost use Rattle.std.specs.Prelude.{List};
    ghost use Rattle.inc_expand.specs.Arguments.{ArgumentValue};
    ghost use Rattle.inc_expand.specs.Slots.{inside_tokens, slot_values};

    ghost Value = { List ArgumentValue };

    ghost view = { λ a. slot_values (inside_tokens a.inside) a.slots.items };
}

impl<'a, 'b> Arguments<'a, 'b> {
    /// Arguments at these places of what is inside a call.
    pub(crate) fn new(inside: Inside<'a, 'b>, slots: Vec<Slot<'a, 'b>>) -> Arguments<'a, 'b>
        ensures { result ≡ slot_values (inside_tokens inside.entry) slots.entry.items }
    {
        Arguments { inside, slots }
    }

    /// No arguments. They take no memory.
    pub(crate) fn none(alloc: Global) -> Arguments<'a, 'b>
        ensures { result ≡ [] }
    {
        Arguments {
            inside: Inside::Source(&[]),
            slots: Vec::new(alloc),
        }
    }

    /// How many there are.
    pub(crate) fn len(&self) -> usize
        ensures { result ≡ length self.now }
    {
        self.slots.len()
    }

    /// The tokens of one as they are in the call.
    pub(crate) fn written(&self, i: usize) -> Lent<'_, 'a, 'b>
        requires { i < length self.now }
        ensures { (d : ArgumentValue) → lent_tokens result ≡ (get_or self.now i d).written }
    {
        let slot = &self.slots[i];
        self.inside.tokens().behind(slot.begin).front(slot.len)
    }

    /// Whether one is in the call.
    pub(crate) fn is_given(&self, i: usize) -> bool
        requires { i < length self.now }
        ensures { (d : ArgumentValue) → result ≡ (get_or self.now i d).given }
    {
        self.slots[i].given
    }

    /// What one expands to, nothing before that is set.
    pub(crate) fn expanded(&self, i: usize) -> Lent<'_, 'a, 'b>
        requires { i < length self.now }
        ensures { (d : ArgumentValue) → lent_tokens result ≡ (get_or self.now i d).expanded }
    {
        let slot = &self.slots[i];
        if slot.passes {
            return self.written(i);
        }
        Lent::Carried(&slot.expanded)
    }

    /// The tokens of one as a list to be expanded.
    pub(crate) fn list(&self, alloc: Global, i: usize) -> Result<Stack<'a, 'b>, AllocError>
        requires { i < length self.now }
        ensures { (d : ArgumentValue) → IfOk result (λ list. list ≡ (get_or self.now i d).written) }
    {
        let slot = &self.slots[i];
        let list = self.inside.list(alloc, slot.begin, slot.len)?;
        Ok(list)
    }

    /// Takes the tokens of one for what they expand to.
    pub(crate) fn pass(&mut self, i: usize)
        requires { i < length self.old }
        ensures { (d : ArgumentValue) → self.new
            ≡ set self.old i (record (get_or self.old i d) { expanded = (get_or self.old i d).written }) }
    {
        self.slots[i].passes = true;
    }

    /// Sets what the tokens of one expand to.
    pub(crate) fn expand(&mut self, i: usize, tokens: Vec<Carried<'a, 'b>>)
        requires { i < length self.old }
        ensures { (d : ArgumentValue) → self.new
            ≡ set self.old i (record (get_or self.old i d) { expanded = tokens.entry.items }) }
    {
        let slot = &mut self.slots[i];
        slot.passes = false;
        slot.expanded = tokens;
    }
}
