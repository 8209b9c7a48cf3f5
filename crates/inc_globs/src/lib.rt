//! Globs: patterns that fit paths.
#![tactic(auto)]

mod globs;
mod pieces;
mod rows;

pub use globs::{Glob, GlobFault, is_glob};
