//! Why a directive of the macro table is refused.
ghost use Rattle.std.specs.Prelude.{◌≡◌};

use std::alloc::{AllocError, AllocFailed};
use thiserror::Error;

/// Why a macro is not defined or its definition not removed (ISO/IEC 9899:2018, 6.10.3, 6.10.3.5 and 6.10.8). Of
/// several faults the first in this order is reported; `BadWord` comes before all.
#[derive(Clone, Copy, Debug, PartialEq, Eq, Error)]
pub enum DefineFault {
    /// There is no first token, or it is no identifier.
    #[error("no macro name")]
    NoName,
    /// The name is `defined`, `__VA_ARGS__` or that of a predefined macro.
    #[error("the macro name is reserved")]
    ReservedName,
    /// What follows the `(` is no list of parameters, a name is in it twice, or `__VA_ARGS__` is.
    #[error("bad macro parameters")]
    BadParameters,
    /// There are more than 255 names, `...` not counted.
    #[error("more than 255 macro parameters")]
    TooManyParameters,
    /// `__VA_ARGS__` is in the body of a macro without `...`, not in GNU C.
    #[error("__VA_ARGS__ in a macro without `...`")]
    StrayVaArgs,
    /// A `#` in the body of a function-like macro has no parameter after it.
    #[error("`#` without a parameter after it")]
    HashWithoutParameter,
    /// The body begins or ends with `##`.
    #[error("`##` at an end of the macro body")]
    PasteAtEnd,
    /// The name has another definition.
    #[error("the macro is defined otherwise")]
    Redefinition,
    /// A word of the command line holds LF, is too long, or has no tokens.
    #[error("bad macro definition")]
    BadWord,
    /// In a macro with variable arguments in GNU C, `__VA_OPT__` has no parentheses after it, another is in them, `##` is first or last
    /// in them, or a parameter has that name.
    #[error("bad __VA_OPT__")]
    BadOptional,
    /// The body of a macro with variable arguments in GNU C has a `,`, a `##`, a parameter and another `##`, or a `##`
    /// and a `,` that goes with the variable arguments.
    #[error("`,` in a chain of `##`")]
    BadComma,
    /// Memory ran out.
    #[error("out of memory")]
    NoMemory,
}

/// The first of several words that makes no definition.
#[derive(Clone, Copy, Debug, PartialEq, Eq)]
pub struct WordFault {
    /// Its place, from 0.
    pub index: usize,
    /// Why.
    pub fault: DefineFault,
}

impl From<AllocError> for DefineFault {
    ghost use Rattle.inc_macro.specs.declared.faults.DefineFault.TheVariants.{NoMemory};

    ghost from_gives = { λ _ e. e ≡ NoMemory };

    fn from(_error: AllocError) -> DefineFault {
        DefineFault::NoMemory
    }
}

impl<T: Drop> From<AllocFailed<T>> for DefineFault {
    ghost use Rattle.inc_macro.specs.declared.faults.DefineFault.TheVariants.{NoMemory};

    ghost from_gives = { λ _ e. e ≡ NoMemory };

    fn from(_failed: AllocFailed<T>) -> DefineFault {
        DefineFault::NoMemory
    }
}
