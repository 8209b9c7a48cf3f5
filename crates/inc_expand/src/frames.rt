//! The calls whose arguments are being expanded, in place of calls within calls of the machine.
ghost use Rattle.std.specs.Prelude.{◌≡◌, ◌≢◌, [], ◌∷◌, true, false, OnOk, IfSome, IfNone};
ghost use Rattle.inc_expand.specs.declared.frames.Frame.{Frame as FrameValue};

use crate::arguments::Arguments;
use crate::carried::Carried;
use crate::stacks::Stack;
use inc_macro::Definition;
use std::alloc::{AllocError, Global};
use std::marker::Model;

/// A list on its way through the expansion: the list that is handed in, or an argument.
#[derive(Drop)]
pub(crate) struct Level<'a, 'b> {
    /// How many levels there are above.
    pub(crate) deeper: u32,
    /// What is left of the list.
    pub(crate) list: Stack<'a, 'b>,
    /// What it has given.
    pub(crate) out: Vec<Carried<'a, 'b>>,
}

/// A call that was taken from a list.
#[derive(Drop)]
pub(crate) struct Call<'a, 'b> {
    pub(crate) name: Carried<'a, 'b>,
    pub(crate) macro_: &'a Definition,
    pub(crate) close: Carried<'a, 'b>,
    /// Which parameters are at an ordinary place of the body: their arguments are expanded.
    pub(crate) wanted: [bool; 256],
    pub(crate) args: Arguments<'a, 'b>,
}

/// A call that waits for the expansion of an argument.
#[derive(Drop)]
pub(crate) struct Frame<'a, 'b> {
    pub(crate) call: Call<'a, 'b>,
    /// The parameter of that argument.
    pub(crate) at: usize,
    /// The list that the call was taken from.
    pub(crate) level: Level<'a, 'b>,
}

/// The calls that wait, the innermost first.
#[derive(Drop)]
pub(crate) struct Frames<'a, 'b> {
    frames: Vec<Frame<'a, 'b>>,
}

impl<'a, 'b> Model for Frames<'a, 'b> {
    ghost use Rattle.std.specs.Prelude.{List, reverse};
    ghost use Rattle.inc_expand.specs.declared.frames.Frame.{Frame};

    ghost Value = { List Frame };

    ghost view = { λ f. reverse f.frames.items };
}

impl<'a, 'b> Frames<'a, 'b> {
    /// No call waits.
    pub(crate) fn new(alloc: Global) -> Frames<'a, 'b>
        ensures { result ≡ [] }
    {
        Frames {
            frames: Vec::new(alloc),
        }
    }

    /// Whether no call waits.
    pub(crate) fn is_empty(&self) -> bool
        ensures none { result ≡ true → self.now ≡ [] }
        ensures some { result ≡ false → self.now ≢ [] }
    {
        self.frames.is_empty()
    }

    /// Lets a call wait.
    pub(crate) fn push(&mut self, frame: Frame<'a, 'b>) -> Result<(), AllocError>
        ensures { OnOk result (self.new ≡ frame.entry ∷ self.old) }
    {
        self.frames.push(frame)?;
        Ok(())
    }

    /// Takes the innermost.
    pub(crate) fn pop(&mut self) -> Option<Frame<'a, 'b>>
        ensures some { IfSome result (λ f. self.old ≡ f ∷ self.new) }
        ensures none { IfNone result (self.old ≡ []) }
        ensures same { IfNone result (self.new ≡ []) }
    {
        self.frames.pop()
    }
}
