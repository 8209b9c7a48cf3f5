//! Why a preprocessing does not go on.
ghost use Rattle.std.specs.Prelude.{◌≡◌};

use crate::causes::Cause;
use inc_text::ReadFault;
use std::alloc::{AllocError, AllocFailed};

/// Why a preprocessing does not go on. Only the walk over the files knows which file is at hand.
#[derive(Clone, Copy, Debug)]
pub(crate) enum Break {
    /// It stops at this physical line of the file at hand.
    Stop {
        /// The line.
        line: u32,
        /// Why.
        cause: Cause,
    },
    /// The file at hand cannot be read, or is too long. It is never that memory ran out.
    Unread(ReadFault),
    /// Memory ran out.
    NoMemory,
}

impl From<AllocError> for Break {
    ghost use Rattle.inc_pp.specs.declared.faults.Break.TheVariants.{NoMemory};

    ghost from_gives = { λ _ e. e ≡ NoMemory };

    fn from(_error: AllocError) -> Break {
        Break::NoMemory
    }
}

impl<T: Drop> From<AllocFailed<T>> for Break {
    ghost use Rattle.inc_pp.specs.declared.faults.Break.TheVariants.{NoMemory};

    ghost from_gives = { λ _ e. e ≡ NoMemory };

    fn from(_failed: AllocFailed<T>) -> Break {
        Break::NoMemory
    }
}
