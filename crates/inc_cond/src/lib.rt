//! Controlling expressions of C (ISO/IEC 9899:2018, 6.10.1): the conditions of `#if` and `#elif`.
#![tactic(auto)]

mod arithmetic;
mod characters;
mod conditions;
mod constants;
mod faults;
mod headers;
mod known;
pub mod laws;
mod operands;
mod operators;
mod parser;
mod questions;
mod standing;
mod symbols;
mod values;
mod walks;

pub use conditions::value;
pub use faults::CondFault;
pub use headers::HeaderSearch;
pub use standing::{all_stand, standing_value};
pub use values::CondValue;
