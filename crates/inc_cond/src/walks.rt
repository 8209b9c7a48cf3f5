//! The reading of an expression, symbol by symbol.
ghost use Rattle.std.specs.Prelude.{◌≡◌, List, [], ◌∷◌, OnOk, IfOk};
ghost use Rattle.inc_cond.specs.Expressions.{made_of};
ghost use Rattle.inc_cond.specs.Known.{knowns};
ghost use Rattle.inc_cond.specs.SymbolViews.{seen_symbol};
ghost use Rattle.inc_cond.specs.Symbols.{Symbol as SeenSymbol};
ghost use Rattle.inc_cond.specs.Walks.{left_to_read};

use crate::known::Known;
use crate::parser::{Frames, Left, Turn, turned};
use crate::symbols::Symbol;
use std::alloc::{AllocError, Global};

/// A walk over the symbols of an expression, of which it keeps what [`Known`] has. Each symbol is handed to it once, and what waits is
/// pushed and popped once for a symbol that was taken, so that the time is linear in the number of symbols.
#[derive(Drop)]
pub struct Walk {
    frames: Frames,
    turn: Turn,
}

impl Walk {
    /// Nothing is read.
    pub fn new(alloc: Global) -> Walk
        ensures { (ss : List SeenSymbol) → left_to_read result ss ≡ made_of knowns ss }
    {
        Walk {
            frames: Frames::new(alloc),
            turn: Turn::Wanted { least: 0 },
        }
    }

    /// Reads one more symbol.
    pub fn take(&mut self, symbol: Symbol<'_>) -> Result<(), AllocError>
        ensures { OnOk result ((ss : List SeenSymbol) →
            left_to_read self.new ss ≡ left_to_read self.old (seen_symbol symbol.entry ∷ ss)) }
    {
        let mut left = Left::new(Some(symbol));
        while !self.turn.is_over() && !left.is_empty() {
            self.turn = turned(&mut self.frames, &mut left, self.turn)?;
        }
        Ok(())
    }

    /// What the symbols give, where no more come; `None` where they are no expression.
    pub fn finish(&mut self) -> Result<Option<Known>, AllocError>
        ensures { IfOk result (λ known. known ≡ left_to_read self.old []) }
    {
        let mut left = Left::new(None);
        while !self.turn.is_over() {
            self.turn = turned(&mut self.frames, &mut left, self.turn)?;
        }
        Ok(self.turn.given())
    }
}
