//! How much work expansions may take, and how many counts they gave.
ghost use Rattle.std.specs.Prelude.{◌≡◌, ◌+◌, ◌-◌, ◌≤◌, length, true, false, nat_lt, IfSome, IfNone};
ghost use Rattle.inc_expand.specs.Expansion.{Count, counted, first_meter, spent};
ghost use Rattle.inc_expand.specs.Joins.{segment_tokens, tokens_in};

use crate::pastes::Segment;
use std::marker::Model;

/// The work units that are left for expansions: a replacement costs one, and one for each of its tokens. And how often `__COUNTER__`
/// was replaced, in GNU C.
#[derive(Clone, Copy, Debug)]
pub struct Budget {
    left: u32,
    counter: u32,
}

impl Model for Budget {
    ghost use Rattle.std.specs.Prelude.{◌+◌, ◌≤◌};
    ghost use Rattle.inc_expand.specs.Expansion.{Meter, first_units};

    ghost Value = { Meter };

    ghost view = { λ b. record { units = b.left; counter = b.counter } };

    ghost inverse = { λ m. record { left = m.units; counter = m.counter } };

    // each count was paid for
    ghost invariant = { λ b. b.left + b.counter ≤ first_units };
}

impl Budget {
    /// The units at first: 4,000,000. No count was given.
    pub fn new() -> Budget
        ensures { result ≡ first_meter }
    {
        Budget {
            left: 4_000_000,
            counter: 0,
        }
    }

    /// Leaves so many units, no more than there are.
    pub(crate) fn set_left(&mut self, left: u32)
        requires { left ≤ self.old.units }
        ensures { self.new ≡ record { units = left; counter = self.old.counter } }
    {
        *self = Budget {
            left,
            counter: self.counter,
        };
    }

    /// How many units are left.
    pub fn left(&self) -> u32
        ensures { result ≡ self.now.units }
    {
        self.left
    }

    /// Pays for the replacement of a `__COUNTER__`, and gives the number that replaces it.
    pub(crate) fn count(&mut self) -> u32
        requires { 2 ≤ self.old.units }
        ensures count { result ≡ self.old.counter }
        ensures paid { self.new ≡ spent 2 (counted Count self.old) }
    {
        let Budget { left, counter } = *self;
        *self = Budget {
            left: left - 2,
            counter: counter + 1,
        };
        counter
    }
}

/// How many tokens a segment has.
fn segment_len(segment: &Segment<'_, '_, '_>) -> usize
    ensures { result ≡ length (segment_tokens segment.now) }
{
    match segment {
        Segment::One(_) => 1,
        Segment::Several(tokens) => tokens.len(),
    }
}

/// The units that are left after a replacement by these tokens, if it does not cost more than there are.
pub(crate) fn units_after(units: u32, segments: &[Segment<'_, '_, '_>]) -> Option<u32>
    ensures enough { IfSome result (λ left.
        (nat_lt units (1 + length (tokens_in segments.now)) ≡ false)
        × (left ≡ units - (1 + length (tokens_in segments.now)))) }
    ensures over { IfNone result (nat_lt units (1 + length (tokens_in segments.now)) ≡ true) }
{
    if units == 0 {
        return None;
    }
    let mut left = units - 1;
    for segment in segments {
        let len = segment_len(segment);
        if len > left as usize {
            return None;
        }
        left -= len as u32;
    }
    Some(left)
}
