//! Lists of tokens that change at their front.
ghost use Rattle.std.specs.Prelude.{◌≡◌, ◌<◌, ◌≤◌, ℕ, [], ◌∷◌, OnOk, IfOk, IfSome, IfNone, Some, length, map, take, drop, slice_get};
ghost use Rattle.inc_token.specs.Views.{seen};
ghost use Rattle.inc_expand.specs.Sets.{Sets, size};
ghost use Rattle.inc_expand.specs.Expansion.{of_source};
ghost use Rattle.inc_expand.specs.Carriers.{carried_of, carriers, AreKnown};
ghost use Rattle.inc_expand.specs.Below.{below_tokens};
ghost use Rattle.inc_expand.specs.Lent.{lent_tokens};
ghost use Rattle.inc_expand.specs.Slots.{inside_tokens};

use crate::arguments::Inside;
use crate::carried::{Carried, of_source};
use crate::lent::{Lent, behind_of, front_of};
use crate::shared::Shared;
use inc_token::Token;
use std::alloc::{AllocError, Global};
use std::marker::Model;

/// For how many tokens a list without tokens keeps its room.
const KEPT: usize = 256;

/// For how many tokens room is taken at least, so that few lists grow. Such room is 960 bytes, which is within what malloc serves from
/// its fast lists.
pub(crate) const LEAST_ROOM: usize = 24;

/// What is after the tokens of a list that replacements have put there, and is not copied.
#[derive(Drop)]
enum Below<'a, 'b> {
    /// Tokens of the list that is handed in.
    Source(&'b [Token<'a>]),
    /// Tokens of an argument, where its call had some of replacements.
    Shared(Shared<'a, 'b>),
}

impl<'a, 'b> Below<'a, 'b> {
    /// The tokens.
    fn tokens(&self) -> Lent<'_, 'a, 'b>
        ensures { lent_tokens result ≡ below_tokens self.now }
    {
        match self {
            Below::Source(tokens) => Lent::Source(tokens),
            Below::Shared(tokens) => Lent::Carried(tokens.tokens()),
        }
    }

    /// Takes the first token.
    fn pop(&mut self) -> Option<Carried<'a, 'b>>
        ensures some { IfSome result (λ t. below_tokens self.old ≡ t ∷ below_tokens self.new) }
        ensures none { IfNone result (below_tokens self.old ≡ []) }
        ensures same { IfNone result (self.new ≡ self.old) }
    {
        match self {
            Below::Source(tokens) => {
                let all = *tokens;
                if all.len() == 0 {
                    return None;
                }
                let token = of_source(&all[0]);
                *tokens = &all[1..];
                Some(token)
            }
            Below::Shared(tokens) => tokens.pop(),
        }
    }

    /// The first so many tokens as those inside a call, where that many lists can share them.
    fn inside(&self, count: usize) -> Option<Inside<'a, 'b>>
        ensures { IfSome result (λ inside. inside_tokens inside ≡ take count (below_tokens self.now)) }
    {
        match self {
            Below::Source(tokens) => Some(Inside::Source(front_of(tokens, count))),
            Below::Shared(tokens) => {
                let Ok(mut part) = tokens.share() else {
                    return None;
                };
                part.keep(count);
                Some(Inside::Shared(part))
            }
        }
    }

    /// Leaves out the first so many, or all.
    fn skip(&mut self, count: usize)
        ensures { below_tokens self.new ≡ drop count (below_tokens self.old) }
    {
        match self {
            Below::Source(tokens) => {
                let all = *tokens;
                *tokens = behind_of(all, count);
            }
            Below::Shared(tokens) => tokens.skip(count),
        }
    }
}

/// A list whose front is the end of a vector. After it are tokens that are not copied.
#[derive(Drop)]
pub(crate) struct Stack<'a, 'b> {
    tokens: Vec<Carried<'a, 'b>>,
    below: Below<'a, 'b>,
}

impl<'a, 'b> Model for Stack<'a, 'b> {
    ghost use Rattle.std.specs.Prelude.{List, ◌++◌, reverse};
    ghost use Rattle.inc_expand.specs.declared.carried.Carried.{Carried};
    ghost use Rattle.inc_expand.specs.Below.{below_tokens};

    ghost Value = { List Carried };

    ghost view = { λ s. reverse s.tokens.items ++ below_tokens s.below };
}

impl<'a, 'b> Stack<'a, 'b> {
    /// A list that is handed in. It takes no memory.
    pub(crate) fn of_source(alloc: Global, source: &'b [Token<'a>]) -> Stack<'a, 'b>
        ensures list { result ≡ map carried_of source.now }
        ensures tokens { (s : Sets) → carriers s result ≡ map of_source (map seen source.now) }
        ensures known { (s : Sets) → AreKnown (size s) result }
    {
        Stack {
            tokens: Vec::new(alloc),
            below: Below::Source(source),
        }
    }

    /// A list of these tokens. It takes no memory.
    pub(crate) fn of_shared(alloc: Global, tokens: Shared<'a, 'b>) -> Stack<'a, 'b>
        ensures { result ≡ tokens.entry }
    {
        Stack {
            tokens: Vec::new(alloc),
            below: Below::Shared(tokens),
        }
    }

    /// Takes room for so many tokens, which are about to be put before the others. A hint: it changes nothing, also where memory runs out.
    pub(crate) fn expect(&mut self, count: usize)
        ensures { self.new ≡ self.old }
    {
        if count > self.tokens.capacity().saturating_sub(self.tokens.len()) {
            let _ = self.tokens.reserve(count.max(LEAST_ROOM));
        }
    }

    /// Puts a token before the others.
    pub(crate) fn push(&mut self, token: Carried<'a, 'b>) -> Result<(), AllocError>
        ensures { OnOk result (self.new ≡ token.entry ∷ self.old) }
    {
        self.tokens.push(token)?;
        Ok(())
    }

    /// Takes the first token.
    pub(crate) fn pop(&mut self) -> Option<Carried<'a, 'b>>
        ensures some { IfSome result (λ t. self.old ≡ t ∷ self.new) }
        ensures none { IfNone result (self.old ≡ []) }
        ensures same { IfNone result (self.new ≡ self.old) }
    {
        if let Some(token) = self.tokens.pop() {
            return Some(token);
        }
        self.below.pop()
    }

    /// The first token, where it is not one of the list that is handed in.
    pub(crate) fn front(&self) -> Option<&Carried<'a, 'b>>
        ensures { IfSome result (λ t. slice_get self.now 0 ≡ Some t.now) }
    {
        self.tokens.last()
    }

    /// Takes the first token off.
    pub(crate) fn drop_front(&mut self)
        ensures { self.new ≡ drop 1 self.old }
    {
        let _ = self.pop();
    }

    /// The tokens that are left of the list that is handed in, where nothing is before them, or none.
    pub(crate) fn source(&self) -> &'b [Token<'a>]
        ensures { (n : ℕ) → n ≤ length result.now →
            take n self.now ≡ map carried_of (take n result.now) }
    {
        if self.tokens.len() > 0 {
            return &[];
        }
        match &self.below {
            Below::Source(tokens) => tokens,
            Below::Shared(_) => &[],
        }
    }

    /// The tokens, where none of them is copied.
    pub(crate) fn lent(&self) -> Option<Lent<'_, 'a, 'b>>
        ensures { IfSome result (λ tokens. self.now ≡ lent_tokens tokens) }
    {
        if self.tokens.len() > 0 {
            return None;
        }
        Some(self.below.tokens())
    }

    /// The first so many tokens as those inside a call, without a copy, where none of the list's is copied.
    pub(crate) fn inside(&self, count: usize) -> Option<Inside<'a, 'b>>
        ensures { IfSome result (λ inside. inside_tokens inside ≡ take count self.now) }
    {
        if self.tokens.len() > 0 {
            return None;
        }
        self.below.inside(count)
    }

    /// Takes so many tokens from the front, as many as there are.
    pub(crate) fn skip(&mut self, count: usize)
        ensures { self.new ≡ drop count self.old }
    {
        if self.tokens.len() == 0 {
            self.below.skip(count);
            return;
        }
        for _ in 0..count {
            let _ = self.pop();
        }
    }

    /// Gives memory back where it was for many tokens and none of them is left: calls in arguments of calls take the tokens of
    /// one list after the other, and would hold the room for all of them.
    pub(crate) fn release(&mut self)
        ensures { self.new ≡ self.old }
    {
        if self.tokens.is_empty() && self.tokens.capacity() > KEPT {
            self.tokens.shrink_to_fit();
        }
    }

    /// How many tokens there are.
    pub(crate) fn len(&self) -> usize
        ensures { result ≡ length self.now }
    {
        self.tokens.len() + self.below.tokens().len()
    }

    /// The token at a place, the front being at 0.
    pub(crate) fn get(&self, i: usize) -> Option<Carried<'a, 'b>>
        ensures { result ≡ slice_get self.now i }
    {
        let len = self.tokens.len();
        if i < len {
            return Some(self.tokens[len - 1 - i]);
        }
        let below = self.below.tokens();
        if i - len >= below.len() {
            return None;
        }
        Some(below.at(i - len))
    }
}
