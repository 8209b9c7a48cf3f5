//! Files that are being read.
use crate::line_numbers::Here;
use inc_lookup::Found;

/// A file that is being read.
#[derive(Drop)]
pub(crate) struct Frame {
    /// The file, and where an `#include_next` in it goes on.
    pub(crate) at: Found,
    /// The next part of its lines, counted from 0.
    pub(crate) part: usize,
    /// How its lines are numbered, and what it is called.
    pub(crate) here: Here,
}
