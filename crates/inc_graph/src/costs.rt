//! Costs: what the directives of marks cost.
ghost use Rattle.std.specs.Prelude.{◌≡◌, ◌≤◌, Some, None, if◌then◌else◌};
ghost use Rattle.inc_graph.specs.Cuts.{most_cost};
ghost use Rattle.inc_graph.specs.Marks.{is_cost_amount};

use crate::fixed::MOST_COST;
use crate::lent_marks::LentMark;
use std::marker::Model;

/// What the directive of a mark costs, from 1 to [`MOST_COST`]. The path of the mark is lent, so that a list of a million costs takes 24
/// bytes for each and no allocation of theirs.
#[derive(Drop)]
pub struct Cost<'a> {
    path: &'a [u8],
    line: u32,
    amount: u32,
}

impl<'a> Model for Cost<'a> {
    ghost use Rattle.std.specs.Prelude.{IsTrue};
    ghost use Rattle.inc_graph.specs.Marks as spec;

    ghost Value = { spec.Cost };

    ghost view = { λ c. record { mark = record { path = c.path.now; line = c.line }; amount = c.amount } };

    ghost invariant = { λ c. IsTrue (spec.is_cost_amount c.amount) };
}

impl<'a> Cost<'a> {
    /// `None` where the amount is not from 1 to [`MOST_COST`].
    #[inline(always)]
    pub fn new(mark: LentMark<'a>, amount: u32) -> Option<Cost<'a>>
        ensures { result ≡ (if is_cost_amount amount then Some
            (record { mark = mark.entry; amount = amount }) else None) }
    {
        if amount == 0 || amount > MOST_COST {
            return None;
        }
        Some(Cost {
            path: mark.path(),
            line: mark.line(),
            amount,
        })
    }

    /// The mark of the directive.
    #[inline(always)]
    pub fn mark(&self) -> LentMark<'a>
        ensures { result ≡ self.now.mark }
    {
        LentMark::new(self.path, self.line)
    }

    /// What it costs.
    pub fn amount(&self) -> u32
        ensures amount { result ≡ self.now.amount }
        ensures within { (1 ≤ result) × (result ≤ most_cost) }
    {
        self.amount
    }
}
