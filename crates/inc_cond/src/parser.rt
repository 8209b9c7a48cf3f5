//! The reading of an expression: a walk over its symbols with a stack, in place of the grammar's recursion.
ghost use Rattle.std.specs.Prelude.{◌≡◌, ◌≢◌, ◌==◌, ◌&&◌, true, false, List, [], ◌∷◌, Some, None, OnOk, IfOk, IfSome, IfNone, IsTrue, bytes_eq, codes, drop, map, not, reverse};
ghost use Rattle.inc_cond.specs.Expressions.{behind, whole};
ghost use Rattle.inc_cond.specs.Frames.{first_known, given, is_over, IsStep};
ghost use Rattle.inc_cond.specs.Known.{known_in};
ghost use Rattle.inc_cond.specs.SymbolViews.{seen_symbol, symbols_in};
ghost use Rattle.inc_cond.specs.Symbols.{Sign};
ghost use Rattle.inc_cond.specs.declared.parser.Frame.{Frame};
ghost use Rattle.inc_cond.specs.declared.parser.Frame.TheVariants as frame;
ghost use Rattle.inc_cond.specs.declared.parser.Turn.TheVariants as turn;

use crate::known::{Kept, Known};
use crate::operators::{Binary, Unary};
use crate::symbols::Symbol;
use crate::values::Value;
use smallvec::SmallVec;
use std::alloc::{AllocError, Global};
use std::marker::Model;

/// How many unfinished expressions need no memory.
const FEW_FRAMES: usize = 8;

/// How tightly an operand of an operator before it binds.
const UNARY_STRENGTH: u8 = 11;

/// What waits for the end of the expression that is being read.
#[derive(Clone, Copy)]
pub enum Frame {
    /// `(`, which is where an operand is wanted that binds at least so tightly.
    Parenthesis {
        least: u8,
    },
    /// An operator before the expression.
    Prefix {
        operator: Unary,
        least: u8,
    },
    /// An operator and its left operand.
    Infix {
        operator: Binary,
        left: Known,
        least: u8,
    },
    /// `?` and what is before it.
    Question {
        test: Known,
    },
    /// `:` and what is before it.
    Colon {
        test: Known,
        then: Known,
    },
}

/// A frame without the expressions in it, in 3 bytes: a text may have a frame for each of its bytes.
#[derive(Clone, Copy)]
pub enum Mark {
    Parenthesis { least: u8 },
    Prefix { operator: Unary, least: u8 },
    Infix { operator: Binary, least: u8 },
    Question,
    Colon,
}

/// What is at the places of a [`SmallVec`] that hold no mark.
impl Default for Mark {
    fn default() -> Mark {
        Mark::Question
    }
}

/// What comes next.
#[derive(Clone, Copy)]
pub enum Turn {
    /// An operand, of an expression that binds at least so tightly.
    Wanted { least: u8 },
    /// What continues an expression, where that binds at least so tightly.
    Read { least: u8, known: Known },
    /// What waits for the expression, which is read to its end.
    Done { known: Known },
    /// Nothing: this is what the symbols give.
    Over { known: Option<Known> },
}

impl Turn {
    /// Whether nothing comes.
    pub fn is_over(self) -> bool
        ensures { result ≡ is_over self }
    {
        matches!(self, Turn::Over { .. })
    }

    /// What the symbols give, where nothing comes.
    pub fn given(self) -> Option<Known>
        ensures { result ≡ given self }
    {
        match self {
            Turn::Over { known } => known,
            _ => None,
        }
    }
}

/// What waits, the innermost first.
#[derive(Drop)]
pub struct Frames {
    marks: SmallVec<Mark, FEW_FRAMES>,
    /// The expressions of all frames, in the order in which they were read.
    knowns: SmallVec<Kept, FEW_FRAMES>,
}

impl Model for Frames {
    ghost use Rattle.std.specs.Prelude.{List, map, reverse};
    ghost use Rattle.inc_cond.specs.Frames.{frames_of};
    ghost use Rattle.inc_cond.specs.Known.{known_in};
    ghost use Rattle.inc_cond.specs.declared.parser.Frame.{Frame};

    ghost Value = { List Frame };

    ghost view = { λ f. frames_of (reverse f.marks.items) (map known_in (reverse f.knowns.items)) };
}

impl Frames {
    /// Nothing waits.
    pub fn new(alloc: Global) -> Frames
        ensures { result ≡ [] }
    {
        Frames {
            marks: SmallVec::new(alloc),
            knowns: SmallVec::new(alloc),
        }
    }

    /// Lets one wait for the next expression.
    fn push(&mut self, frame: Frame) -> Result<(), AllocError>
        ensures { OnOk result (self.new ≡ frame ∷ self.old) }
    {
        match frame {
            Frame::Parenthesis { least } => self.marks.push(Mark::Parenthesis { least })?,
            Frame::Prefix { operator, least } => self.marks.push(Mark::Prefix { operator, least })?,
            Frame::Infix {
                operator,
                left,
                least,
            } => {
                self.knowns.push(Kept::of(left))?;
                self.marks.push(Mark::Infix { operator, least })?;
            }
            Frame::Question { test } => {
                self.knowns.push(Kept::of(test))?;
                self.marks.push(Mark::Question)?;
            }
            Frame::Colon { test, then } => {
                self.knowns.push(Kept::of(test))?;
                self.knowns.push(Kept::of(then))?;
                self.marks.push(Mark::Colon)?;
            }
        }
        Ok(())
    }

    /// Takes the innermost.
    fn pop(&mut self) -> Option<Frame>
        ensures some { IfSome result (λ f. self.old ≡ f ∷ self.new) }
        ensures none { IfNone result (self.old ≡ []) }
        ensures same { IfNone result (self.new ≡ []) }
    {
        match self.marks.pop()? {
            Mark::Parenthesis { least } => Some(Frame::Parenthesis { least }),
            Mark::Prefix { operator, least } => Some(Frame::Prefix { operator, least }),
            Mark::Infix { operator, least } => {
                let left = pop_known(&mut self.knowns);
                Some(Frame::Infix {
                    operator,
                    left,
                    least,
                })
            }
            Mark::Question => {
                let test = pop_known(&mut self.knowns);
                Some(Frame::Question { test })
            }
            Mark::Colon => {
                let then = pop_known(&mut self.knowns);
                let test = pop_known(&mut self.knowns);
                Some(Frame::Colon { test, then })
            }
        }
    }
}

/// Takes the expression that was read last. None is missing where a frame has one.
fn pop_known(knowns: &mut SmallVec<Kept, FEW_FRAMES>) -> Known
    ensures known { result ≡ first_known (map known_in (reverse knowns.old.items)) }
    ensures rest { map known_in (reverse knowns.new.items) ≡ drop 1 (map known_in (reverse knowns.old.items)) }
{
    match knowns.pop() {
        Some(kept) => kept.known(),
        None => Known::literal(Value::truth(false)),
    }
}

/// The symbol that is at hand, where it is not yet read.
#[derive(Drop)]
pub struct Left<'a> {
    symbol: Option<Symbol<'a>>,
}

impl<'a> Model for Left<'a> {
    ghost use Rattle.std.specs.Prelude.{List};
    ghost use Rattle.inc_cond.specs.Symbols.{Symbol};
    ghost use Rattle.inc_cond.specs.SymbolViews.{symbols_in};

    ghost Value = { List Symbol };

    ghost view = { λ l. symbols_in l.symbol };
}

impl<'a> Left<'a> {
    /// A symbol, or none where no more come.
    pub fn new(symbol: Option<Symbol<'a>>) -> Left<'a>
        ensures { result ≡ symbols_in symbol.entry }
    {
        Left { symbol }
    }

    /// The first symbol.
    fn first(&self) -> Option<Symbol<'a>>
        ensures some { IfSome result (λ s. self.now ≡ seen_symbol s ∷ drop 1 self.now) }
        ensures none { IfNone result (self.now ≡ []) }
    {
        self.symbol
    }

    /// Whether it is read.
    pub fn is_empty(&self) -> bool
        ensures none { result ≡ true → self.now ≡ [] }
        ensures some { result ≡ false → self.now ≢ [] }
    {
        self.symbol.is_none()
    }

    /// Takes the first symbol, if there is one.
    fn pass(&mut self)
        ensures { self.new ≡ drop 1 self.old }
    {
        self.symbol = None;
    }

    /// Takes this sign, if it comes first. Otherwise nothing is taken.
    fn takes(&mut self, sign: &[u8]) -> bool
        ensures taken { IsTrue result → behind sign.now self.old ≡ Some self.new }
        ensures missing { IsTrue (not result) → behind sign.now self.old ≡ None }
    {
        let comes = match self.first() {
            Some(Symbol::Sign(first)) => first == sign,
            _ => false,
        };
        if comes {
            self.pass();
        }
        comes
    }

    /// This expression, if nothing is left.
    fn whole(&self, known: Known) -> Option<Known>
        ensures { result ≡ whole (Some (known, self.now)) }
    {
        if self.first().is_none() {
            Some(known)
        } else {
            None
        }
    }
}

/// Does what comes next.
pub fn turned(frames: &mut Frames, left: &mut Left<'_>, turn: Turn) -> Result<Turn, AllocError>
    ensures { IfOk result (λ next. is_over turn ≡ false →
        IsStep turn frames.old left.old next frames.new left.new) }
{
    match turn {
        Turn::Over { known } => Ok(Turn::Over { known }),
        Turn::Wanted { least } => wanted(frames, left, least),
        Turn::Read { least, known } => read(frames, left, least, known),
        Turn::Done { known } => done(frames, left, known),
    }
}

/// Reads the front of an operand, of an expression that binds at least so tightly.
fn wanted(frames: &mut Frames, left: &mut Left<'_>, least: u8) -> Result<Turn, AllocError>
    ensures { IfOk result (λ next.
        IsStep (turn.Wanted least) frames.old left.old next frames.new left.new) }
{
    match left.first() {
        Some(Symbol::Constant(value)) => {
            left.pass();
            let known = Known::literal(value);
            Ok(Turn::Read { least, known })
        }
        Some(Symbol::Sign(sign)) => opened(frames, left, least, sign),
        Some(Symbol::Stray) => Ok(Turn::Over { known: None }),
        None => Ok(Turn::Over { known: None }),
    }
}

/// Reads a sign where an operand is wanted.
fn opened(
    frames: &mut Frames,
    left: &mut Left<'_>,
    least: u8,
    sign: &[u8],
) -> Result<Turn, AllocError>
    requires { left.old ≡ Sign sign.now ∷ drop 1 left.old }
    ensures { IfOk result (λ next.
        IsStep (turn.Wanted least) frames.old left.old next frames.new left.new) }
{
    if is_parenthesis(sign) {
        left.pass();
        frames.push(Frame::Parenthesis { least })?;
        return Ok(Turn::Wanted { least: 0 });
    }
    let Some(operator) = Unary::of(sign) else {
        return Ok(Turn::Over { known: None });
    };
    left.pass();
    frames.push(Frame::Prefix { operator, least })?;
    Ok(Turn::Wanted {
        least: UNARY_STRENGTH,
    })
}

/// Whether parentheses begin here.
fn is_parenthesis(sign: &[u8]) -> bool
    ensures { result ≡ bytes_eq sign.now (codes "(") }
{
    sign == b"(".as_slice()
}

/// Reads what continues an expression, where that binds at least so tightly.
fn read(
    frames: &mut Frames,
    left: &mut Left<'_>,
    least: u8,
    known: Known,
) -> Result<Turn, AllocError>
    ensures { IfOk result (λ next.
        IsStep (turn.Read least known) frames.old left.old next frames.new left.new) }
{
    match left.first() {
        Some(Symbol::Sign(sign)) => continued(frames, left, least, known, sign),
        Some(Symbol::Constant(_)) => Ok(Turn::Done { known }),
        Some(Symbol::Stray) => Ok(Turn::Done { known }),
        None => Ok(Turn::Done { known }),
    }
}

/// Reads a sign after an expression.
fn continued(
    frames: &mut Frames,
    left: &mut Left<'_>,
    least: u8,
    known: Known,
    sign: &[u8],
) -> Result<Turn, AllocError>
    requires { left.old ≡ Sign sign.now ∷ drop 1 left.old }
    ensures { IfOk result (λ next.
        IsStep (turn.Read least known) frames.old left.old next frames.new left.new) }
{
    if is_question(least, sign) {
        left.pass();
        frames.push(Frame::Question { test: known })?;
        return Ok(Turn::Wanted { least: 0 });
    }
    let Some(operator) = Binary::of(sign) else {
        return Ok(Turn::Done { known });
    };
    let strength = operator.strength();
    if strength < least {
        return Ok(Turn::Done { known });
    }
    left.pass();
    frames.push(Frame::Infix {
        operator,
        left: known,
        least,
    })?;
    Ok(Turn::Wanted {
        least: strength + 1,
    })
}

/// Whether a choice may begin here: nothing binds weaker.
fn is_question(least: u8, sign: &[u8]) -> bool
    ensures { result ≡ (bytes_eq sign.now (codes "?") && (least == 0)) }
{
    sign == b"?".as_slice() && least == 0
}

/// Hands an expression on to what waits for it.
fn done(frames: &mut Frames, left: &mut Left<'_>, known: Known) -> Result<Turn, AllocError>
    ensures { IfOk result (λ next.
        IsStep (turn.Done known) frames.old left.old next frames.new left.new) }
{
    match frames.pop() {
        Some(frame) => resumed(frames, left, known, frame),
        None => Ok(Turn::Over {
            known: left.whole(known),
        }),
    }
}

/// Hands an expression on to the innermost that waited for it, and waits no more.
fn resumed(
    frames: &mut Frames,
    left: &mut Left<'_>,
    known: Known,
    frame: Frame,
) -> Result<Turn, AllocError>
    ensures { IfOk result (λ next.
        IsStep (turn.Done known) (frame ∷ frames.old) left.old next frames.new left.new) }
{
    match frame {
        Frame::Parenthesis { least } => Ok(closed(left, known, least)),
        Frame::Prefix { operator, least } => {
            let known = known.prefixed(operator);
            Ok(Turn::Read { least, known })
        }
        Frame::Infix {
            operator,
            left: before,
            least,
        } => {
            let known = before.joined(operator, known);
            Ok(Turn::Read { least, known })
        }
        Frame::Question { test } => chosen(frames, left, test, known),
        Frame::Colon { test, then } => {
            let known = test.chosen(then, known);
            Ok(Turn::Done { known })
        }
    }
}

/// Reads the `)` after an expression.
fn closed(left: &mut Left<'_>, known: Known, least: u8) -> Turn
    ensures { (fs : List Frame) →
        IsStep (turn.Done known) (frame.Parenthesis least ∷ fs) left.old result fs left.new }
{
    if left.takes(b")") {
        let known = known.parenthesised();
        Turn::Read { least, known }
    } else {
        Turn::Over { known: None }
    }
}

/// Reads the `:` after the second operand of `?:`.
fn chosen(
    frames: &mut Frames,
    left: &mut Left<'_>,
    test: Known,
    then: Known,
) -> Result<Turn, AllocError>
    ensures { IfOk result (λ next.
        IsStep (turn.Done then) (frame.Question test ∷ frames.old) left.old
        next frames.new left.new) }
{
    if !left.takes(b":") {
        return Ok(Turn::Over { known: None });
    }
    frames.push(Frame::Colon { test, then })?;
    Ok(Turn::Wanted { least: 0 })
}
