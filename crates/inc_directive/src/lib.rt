//! Directives of C (ISO/IEC 9899:2018, 6.10): the directives of a file, the kinds of its lines and its if-sections.
#![tactic(auto)]

mod blanking;
mod file_lines;
mod files;
mod kinds;
pub mod laws;
pub mod memory_laws;
mod parts;
mod sections;
mod walks;

pub use blanking::blank_includes;
pub use file_lines::FileLines;
pub use files::{FileFault, read_lines};
pub use kinds::{DirectiveKind, LineKind, Role, Target, classify, search_after};
pub use sections::{BalanceFault, Plan, balance};
pub use walks::{Directive, DirectiveIter};
