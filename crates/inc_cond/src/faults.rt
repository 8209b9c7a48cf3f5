//! Why a controlling expression has no value.
ghost use Rattle.std.specs.Prelude.{◌≡◌};

use inc_expand::ExpandFault;
use std::alloc::{AllocError, AllocFailed};
use thiserror::Error;

/// Why a controlling expression has no value (ISO/IEC 9899:2018, 6.10.1). Of several faults the first of this order is
/// reported, but that a bad constant comes before one that follows it, and so do `DivideByZero` and `BadShift`.
#[derive(Clone, Copy, Debug, PartialEq, Eq, Error)]
pub enum CondFault {
    /// Its macros cannot be expanded.
    #[error("{0}")]
    Expand(ExpandFault),
    /// Its tokens are no expression of operators that a condition may have.
    #[error("not an expression that a condition may have")]
    BadExpression,
    /// A number is no integer constant, or one of 2^64 or more.
    #[error("not an integer constant below 2^64")]
    BadNumber,
    /// A character constant has no value.
    #[error("character constant without a value")]
    BadCharacter,
    /// Parentheses, operators before an operand and `?:` are nested more than 256 deep.
    #[error("nested more than 256 deep")]
    TooNested,
    /// A divisor that is evaluated is 0.
    #[error("division by zero")]
    DivideByZero,
    /// The count of a shift that is evaluated is not within 0 and 63.
    #[error("shift by less than 0 or more than 63")]
    BadShift,
    /// Memory ran out.
    #[error("out of memory")]
    NoMemory,
}

impl From<AllocError> for CondFault {
    ghost use Rattle.inc_cond.specs.declared.faults.CondFault.TheVariants.{NoMemory};

    ghost from_gives = { λ _ e. e ≡ NoMemory };

    fn from(_error: AllocError) -> CondFault {
        CondFault::NoMemory
    }
}

impl<T: Drop> From<AllocFailed<T>> for CondFault {
    ghost use Rattle.inc_cond.specs.declared.faults.CondFault.TheVariants.{NoMemory};

    ghost from_gives = { λ _ e. e ≡ NoMemory };

    fn from(_failed: AllocFailed<T>) -> CondFault {
        CondFault::NoMemory
    }
}
