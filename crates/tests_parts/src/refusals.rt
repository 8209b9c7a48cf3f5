//! Stretches of a test in which no memory is given.
use std::alloc::{AllocError, Global};

/// How many bytes no other list asks for.
const ROOM: usize = 1_048_583;

/// While this list lives, `tests/refusals` refuses all memory that is asked for: what is called meanwhile has to do without.
pub fn refusing(alloc: Global) -> Result<Vec<u8>, AllocError> {
    Vec::with_capacity(alloc, ROOM)
}
