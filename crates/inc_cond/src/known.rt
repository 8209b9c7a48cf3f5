//! What is kept of an expression that was read: its value or first fault, its type and its nesting, which are functions of those of its
//! parts, so that no tree is made.
ghost use Rattle.std.specs.Prelude.{◌≡◌, ◌<◌, ◌≤◌};
ghost use Rattle.inc_cond.specs.Known as spec;
ghost use Rattle.inc_cond.specs.Evaluation.{chosen_value, joined_value};

use crate::faults::CondFault;
use crate::operators::{Binary, Unary};
use crate::values::Value;

/// The most nesting that an expression may have.
pub const MOST_NESTING: u16 = 256;

/// What is kept of an expression that was read, for which no tree is made: what its evaluation gives, whether that is reached or not.
#[derive(Clone, Copy)]
pub struct Known {
    /// Its value, or the first fault of its evaluation.
    pub value: Result<Value, CondFault>,
    /// Whether its type is unsigned.
    pub unsigned: bool,
    /// How deep it is nested; all above [`MOST_NESTING`] as one more than that.
    pub nesting: u16,
}

/// A [`Known`] in 16 bytes, as it waits: a text may have one for every two of its bytes.
#[derive(Clone, Copy)]
pub struct Kept {
    /// The bits of its value, where it has one.
    bits: u64,
    /// The first fault of its evaluation, if there is one.
    fault: Option<CondFault>,
    /// Whether the type of its value is unsigned.
    unsigned_value: bool,
    /// Whether its own type is unsigned.
    unsigned: bool,
    /// How deep it is nested.
    nesting: u16,
}

/// What is at the places of a `SmallVec` that hold none.
impl Default for Kept {
    fn default() -> Kept {
        Kept {
            bits: 0,
            fault: None,
            unsigned_value: false,
            unsigned: false,
            nesting: 0,
        }
    }
}

impl Kept {
    /// What is known, as it waits.
    pub fn of(known: Known) -> Kept
        ensures { spec.known_in result ≡ known }
    {
        match known.value {
            Ok(value) => Kept {
                bits: value.bits,
                fault: None,
                unsigned_value: value.unsigned,
                unsigned: known.unsigned,
                nesting: known.nesting,
            },
            Err(fault) => Kept {
                bits: 0,
                fault: Some(fault),
                unsigned_value: false,
                unsigned: known.unsigned,
                nesting: known.nesting,
            },
        }
    }

    /// What is known.
    pub fn known(self) -> Known
        ensures { result ≡ spec.known_in self }
    {
        Known {
            value: self.value(),
            unsigned: self.unsigned,
            nesting: self.nesting,
        }
    }

    /// The value, or the first fault.
    fn value(self) -> Result<Value, CondFault>
        ensures { result ≡ spec.value_in self }
    {
        match self.fault {
            Some(fault) => Err(fault),
            None => Ok(Value {
                unsigned: self.unsigned_value,
                bits: self.bits,
            }),
        }
    }
}

impl Known {
    /// A constant.
    pub fn literal(value: Value) -> Known
        ensures { result ≡ spec.known_literal value }
    {
        Known {
            value: Ok(value),
            unsigned: value.unsigned,
            nesting: 0,
        }
    }

    /// In parentheses.
    pub fn parenthesised(self) -> Known
        ensures { result ≡ spec.known_parenthesised self }
    {
        Known {
            value: self.value,
            unsigned: self.unsigned,
            nesting: deeper(self.nesting),
        }
    }

    /// With an operator before it.
    pub fn prefixed(self, operator: Unary) -> Known
        ensures { result ≡ spec.known_prefixed operator self }
    {
        Known {
            value: self.value.map(|value| operator.apply(value)),
            unsigned: operator.type_of(self.unsigned),
            nesting: deeper(self.nesting),
        }
    }

    /// With an operator and another operand after it.
    pub fn joined(self, operator: Binary, right: Known) -> Known
        ensures { result ≡ spec.known_joined operator self right }
    {
        Known {
            value: operator.apply(self.value, right.value),
            unsigned: operator.type_of(self.unsigned, right.unsigned),
            nesting: self.nesting.max(right.nesting),
        }
    }

    /// As the test of a choice between two.
    pub fn chosen(self, then: Known, otherwise: Known) -> Known
        ensures { result ≡ spec.known_chosen self then otherwise }
    {
        let unsigned = then.unsigned || otherwise.unsigned;
        Known {
            value: choose(unsigned, self.value, then.value, otherwise.value),
            unsigned,
            nesting: self
                .nesting
                .max(deeper(then.nesting.max(otherwise.nesting))),
        }
    }
}

/// One deeper.
fn deeper(nesting: u16) -> u16
    ensures { result ≡ spec.deeper nesting }
{
    if nesting > MOST_NESTING {
        nesting
    } else {
        nesting + 1
    }
}

/// The value that a test chooses, in a type.
fn choose(
    unsigned: bool,
    test: Result<Value, CondFault>,
    then: Result<Value, CondFault>,
    otherwise: Result<Value, CondFault>,
) -> Result<Value, CondFault>
    ensures { result ≡ chosen_value unsigned test then otherwise }
{
    let chosen = if test?.is_zero() { otherwise } else { then };
    Ok(chosen?.as_type(unsigned))
}
