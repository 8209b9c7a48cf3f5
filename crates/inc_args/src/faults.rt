//! Why words ask for nothing.
ghost use Rattle.std.specs.Prelude.{◌≡◌};
ghost use Rattle.clap.specs.Words.{HasKind, Kinds};
ghost use Rattle.inc_args.specs.Refusals.{IsRefusal};

use clap::Error;
use clap::error::ErrorKind;
use std::alloc::{AllocError, AllocFailed};

/// Why the words ask for no command.
#[derive(Drop)]
pub enum ArgsFault {
    /// They ask for help or the version, or make no sense: `clap` has the text.
    Usage(Error),
    /// Memory ran out.
    NoMemory,
}

impl From<AllocError> for ArgsFault {
    ghost use Rattle.inc_args.specs.declared.faults.ArgsFault.TheVariants.{NoMemory};

    ghost from_gives = { λ _ e. e ≡ NoMemory };

    fn from(_error: AllocError) -> ArgsFault {
        ArgsFault::NoMemory
    }
}

impl<T: Drop> From<AllocFailed<T>> for ArgsFault {
    ghost use Rattle.inc_args.specs.declared.faults.ArgsFault.TheVariants.{NoMemory};

    ghost from_gives = { λ _ e. e ≡ NoMemory };

    fn from(_failed: AllocFailed<T>) -> ArgsFault {
        ArgsFault::NoMemory
    }
}

/// The fault of an error of `clap`.
pub(crate) fn fault_of(error: Error) -> ArgsFault
    ensures { (kinds : Kinds) → HasKind kinds error → IsRefusal kinds result }
{
    match error.kind() {
        ErrorKind::OutOfMemory => ArgsFault::NoMemory,
        _ => ArgsFault::Usage(error),
    }
}
