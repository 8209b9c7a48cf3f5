//! Why a list of tokens is not expanded.
ghost use Rattle.std.specs.Prelude.{◌≡◌};

use std::alloc::{AllocError, AllocFailed};
use thiserror::Error;

/// Why a list of tokens is not expanded (ISO/IEC 9899:2018, 6.10.3 to 6.10.3.4). Of several faults the one that the
/// expansion meets first is reported.
#[derive(Clone, Copy, Debug, PartialEq, Eq, Error)]
pub enum ExpandFault {
    /// The call of a function-like macro has no matching `)`.
    #[error("unterminated call of a macro")]
    UnclosedCall,
    /// A call has another number of arguments than its macro has parameters.
    #[error("wrong number of macro arguments")]
    ArgumentCount,
    /// A `#` makes no string literal.
    #[error("`#` does not give a string literal")]
    BadString,
    /// A `##` makes no token.
    #[error("`##` does not give a token")]
    BadPaste,
    /// A `#` or `##` makes a token of more than 65,536 bytes.
    #[error("token of more than 65,536 bytes")]
    TokenTooLong,
    /// The replacement costs more than what is left of the budget, or a call is in arguments of more than 1,000
    /// others.
    #[error("macro expansion takes too much work")]
    OverBudget,
    /// Memory ran out.
    #[error("out of memory")]
    NoMemory,
}

impl From<AllocError> for ExpandFault {
    ghost use Rattle.inc_expand.specs.declared.faults.ExpandFault.TheVariants.{NoMemory};

    ghost from_gives = { λ _ e. e ≡ NoMemory };

    fn from(_error: AllocError) -> ExpandFault {
        ExpandFault::NoMemory
    }
}

impl<T: Drop> From<AllocFailed<T>> for ExpandFault {
    ghost use Rattle.inc_expand.specs.declared.faults.ExpandFault.TheVariants.{NoMemory};

    ghost from_gives = { λ _ e. e ≡ NoMemory };

    fn from(_failed: AllocFailed<T>) -> ExpandFault {
        ExpandFault::NoMemory
    }
}
