//! Tokens that several lists share.
ghost use Rattle.std.specs.Prelude.{◌≡◌, ◌∷◌, [], IfOk, IfErr, IfSome, IfNone, take, drop};

use crate::carried::Carried;
use crate::faults::ExpandFault;
use std::alloc::{AllocError, Global};
use std::marker::Model;
use std::rc::Rc;

/// Tokens of a vector that others share: those between the parentheses of a call, and of these the ones of an argument, of a call in it,
/// and so on. None of them is copied.
#[derive(Drop)]
pub(crate) struct Shared<'a, 'b> {
    all: Rc<Vec<Carried<'a, 'b>>, Global>,
    begin: usize,
    end: usize,
}

impl<'a, 'b> Model for Shared<'a, 'b> {
    ghost use Rattle.std.specs.Prelude.{◌-◌, ◌≤◌, List, length, take, drop};
    ghost use Rattle.inc_expand.specs.declared.carried.Carried.{Carried};

    ghost Value = { List Carried };

    ghost view = { λ s. take (s.end - s.begin) (drop s.begin s.all.value.items) };

    ghost invariant = { λ s. (s.begin ≤ s.end) × (s.end ≤ length s.all.value.items) };
}

impl<'a, 'b> Shared<'a, 'b> {
    /// These tokens, which no other list has yet.
    pub(crate) fn new(
        alloc: Global,
        tokens: Vec<Carried<'a, 'b>>,
    ) -> Result<Shared<'a, 'b>, ExpandFault>
        ensures tokens { IfOk result (λ s. s ≡ tokens.entry.items) }
        ensures fault { IfErr result (λ fault. fault ≡ ExpandFault.NoMemory) }
    {
        let end = tokens.len();
        let all = Rc::new(alloc, tokens)?;
        Ok(Shared { all, begin: 0, end })
    }

    /// The same tokens for one more list.
    pub(crate) fn share(&self) -> Result<Shared<'a, 'b>, AllocError>
        ensures { IfOk result (λ s. s ≡ self.now) }
    {
        let begin = self.begin;
        let end = self.end;
        let all = self.all.clone()?;
        Ok(Shared { all, begin, end })
    }

    /// The tokens.
    pub(crate) fn tokens(&self) -> &[Carried<'a, 'b>]
        ensures { result.now ≡ self.now }
    {
        &self.all.as_ref()[self.begin..self.end]
    }

    /// Keeps the first so many, or all.
    pub(crate) fn keep(&mut self, count: usize)
        ensures { self.new ≡ take count self.old }
    {
        if count < self.end - self.begin {
            self.end = self.begin + count;
        }
    }

    /// Leaves out the first so many, or all.
    pub(crate) fn skip(&mut self, count: usize)
        ensures { self.new ≡ drop count self.old }
    {
        if count < self.end - self.begin {
            self.begin += count;
            return;
        }
        self.begin = self.end;
    }

    /// Takes the first.
    pub(crate) fn pop(&mut self) -> Option<Carried<'a, 'b>>
        ensures some { IfSome result (λ t. self.old ≡ t ∷ self.new) }
        ensures none { IfNone result (self.old ≡ []) }
        ensures same { IfNone result (self.new ≡ self.old) }
    {
        let tokens = self.tokens();
        if tokens.len() == 0 {
            return None;
        }
        let token = tokens[0];
        self.skip(1);
        Some(token)
    }
}
