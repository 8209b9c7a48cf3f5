//! Why an example has no answer.
use std::alloc::{AllocError, AllocFailed};

/// Memory ran out, or the example is malformed.
#[derive(Clone, Copy)]
pub struct Stop;

impl From<AllocError> for Stop {
    fn from(_error: AllocError) -> Stop {
        Stop
    }
}

impl<T: Drop> From<AllocFailed<T>> for Stop {
    fn from(_error: AllocFailed<T>) -> Stop {
        Stop
    }
}
