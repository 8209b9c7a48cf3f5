//! The tokens of text lines that wait for the rest of a call.
ghost use Rattle.std.specs.Prelude.{◌≡◌, ◌+◌, ◌++◌, ◌∷◌, [], map, true, false, option_map, OnOk, IfOk};
ghost use Rattle.inc_token.specs.Views.{seen};
ghost use Rattle.inc_expand.specs.HeldTokens.{seen_held, seen_ref};
ghost use Rattle.inc_expand.specs.Openings.{held_source};
ghost use Rattle.inc_pp.specs.OpenCalls.{called_name, first_line_in, open_in_call};
ghost use Rattle.inc_pp.specs.Waiting.{token_of};

use crate::open_calls::open_in_call;
use inc_expand::{Held, HeldRef};
use inc_token::{Kind, Token};
use std::alloc::{AllocError, Global};
use std::marker::Model;

/// A token, and where its spelling ends among the bytes of all.
#[derive(Clone, Copy)]
pub(crate) struct Part {
    end: u32,
    line: u32,
    kind: Kind,
    space: bool,
    painted: bool,
}

/// Tokens that are kept until the lines of a file are no longer at hand from which they are. Their spellings lie one after the other in one list, so that
/// a token takes no allocation of its own.
#[derive(Drop)]
pub(crate) struct Waiting {
    alloc: Global,
    bytes: Vec<u8>,
    parts: Vec<Part>,
}

impl Model for Waiting {
    ghost use Rattle.std.specs.Prelude.{List, length};
    ghost use Rattle.inc_expand.specs.Openings.{Held};
    ghost use Rattle.inc_pp.specs.Waiting.{tokens_in, AreEnds};

    ghost Value = { List Held };

    ghost view = { λ w. tokens_in w.bytes.items 0 w.parts.items };

    ghost invariant = { λ w. AreEnds 0 (length w.bytes.items) w.parts.items };
}

/// The token, its spelling lent.
fn lent<'w>(part: &Part, spelling: &'w [u8]) -> HeldRef<'w>
    ensures { seen_ref result ≡ token_of part.now spelling.now }
{
    HeldRef {
        kind: part.kind,
        spelling,
        line: part.line,
        space: part.space,
        painted: part.painted,
    }
}

/// A token of the text as one that waits.
fn of_source<'t>(token: &Token<'t>) -> HeldRef<'t>
    ensures { seen_ref result ≡ held_source (seen token.now) }
{
    HeldRef {
        kind: token.kind,
        spelling: token.spelling,
        line: token.line,
        space: token.space,
        painted: false,
    }
}

/// A token that an expansion leaves, as one that waits.
fn of_held<'t>(held: &'t Held<'_>) -> HeldRef<'t>
    ensures { seen_ref result ≡ seen_held held.now }
{
    HeldRef {
        kind: held.item.kind,
        spelling: held.item.spelling.bytes(),
        line: held.item.line,
        space: held.item.space,
        painted: held.painted,
    }
}

/// Where a list of this length ends with so many bytes more. An end that a part has no room for is refused as if memory had run out.
fn end_after(length: usize, more: usize) -> Result<u32, AllocError>
    ensures { IfOk result (λ end. end ≡ length + more) }
{
    let end = length.saturating_add(more);
    if end > u32::MAX as usize {
        return Err(AllocError);
    }
    Ok(end as u32)
}

impl Waiting {
    /// None.
    pub(crate) fn none(alloc: Global) -> Waiting
        ensures { result ≡ [] }
    {
        Waiting {
            alloc,
            bytes: Vec::new(alloc),
            parts: Vec::new(alloc),
        }
    }

    /// Whether there is none.
    pub(crate) fn is_empty(&self) -> bool
        ensures none { result ≡ true → self.now ≡ [] }
        ensures some { self.now ≡ [] → result ≡ true }
    {
        self.parts.is_empty()
    }

    /// Those of a call.
    pub(crate) fn of_call(alloc: Global, call: &[Held<'_>]) -> Result<Waiting, AllocError>
        ensures { IfOk result (λ all. all ≡ map seen_held call.now) }
    {
        let mut all = Waiting::none(alloc);
        all.add_held(call)?;
        Ok(all)
    }

    /// Adds those of a call.
    fn add_held(&mut self, tokens: &[Held<'_>]) -> Result<(), AllocError>
        ensures { OnOk result (self.new ≡ self.old ++ map seen_held tokens.now) }
    {
        self.parts.reserve(tokens.len())?;
        for token in tokens {
            self.push(of_held(token))?;
        }
        Ok(())
    }

    /// Adds some of the text.
    pub(crate) fn add(&mut self, tokens: &[Token<'_>]) -> Result<(), AllocError>
        ensures { OnOk result (self.new ≡ self.old ++ map held_source (map seen tokens.now)) }
    {
        self.parts.reserve(tokens.len())?;
        for token in tokens {
            self.push(of_source(token))?;
        }
        Ok(())
    }

    /// Adds one.
    fn push(&mut self, token: HeldRef<'_>) -> Result<(), AllocError>
        ensures { OnOk result (self.new ≡ self.old ++ seen_ref token.entry ∷ []) }
    {
        let end = end_after(self.bytes.len(), token.spelling.len())?;
        // Once there is room for the part, no bytes can be there without it.
        self.parts.reserve(1)?;
        self.bytes.extend_from_slice(token.spelling)?;
        self.parts.push_reserved(Part {
            end,
            line: token.line,
            kind: token.kind,
            space: token.space,
            painted: token.painted,
        });
        Ok(())
    }

    /// The tokens.
    pub(crate) fn tokens(&self) -> Result<Vec<HeldRef<'_>>, AllocError>
        ensures { IfOk result (λ tokens. map seen_ref tokens.items ≡ self.now) }
    {
        let mut all = Vec::with_capacity(self.alloc, self.parts.len())?;
        let mut begin = 0;
        for part in &self.parts {
            let end = part.end as usize;
            all.push(lent(part, &self.bytes[begin..end]))?;
            begin = end;
        }
        Ok(all)
    }

    /// The line of the first, if there is one.
    pub(crate) fn first_line(&self) -> Option<u32>
        ensures { result ≡ first_line_in self.now }
    {
        match self.parts.first() {
            Some(part) => Some(part.line),
            None => None,
        }
    }

    /// The name of the call: the spelling of the first, if there is one.
    pub(crate) fn name(&self) -> Option<&[u8]>
        ensures { option_map (λ name. name.now) result ≡ called_name self.now }
    {
        match self.parts.first() {
            Some(part) => Some(&self.bytes[..part.end as usize]),
            None => None,
        }
    }
}

/// A call that is open where a run of text lines ends, or none.
#[derive(Drop)]
pub(crate) struct Open {
    /// Its tokens.
    pub(crate) waiting: Waiting,
    /// How many of its parentheses are open.
    pub(crate) deep: usize,
}

impl Open {
    /// None.
    pub(crate) fn none(alloc: Global) -> Open
        ensures waiting { result.waiting ≡ [] }
        ensures deep { result.deep ≡ 0 }
    {
        Open {
            waiting: Waiting::none(alloc),
            deep: 0,
        }
    }

    /// That of these tokens.
    pub(crate) fn of_call(alloc: Global, call: &[Held<'_>]) -> Result<Open, AllocError>
        ensures { IfOk result (λ held. (held.waiting ≡ map seen_held call.now) × (held.deep ≡ open_in_call held.waiting)) }
    {
        let deep = open_in_call(call)?;
        let waiting = Waiting::of_call(alloc, call)?;
        Ok(Open { waiting, deep })
    }
}
