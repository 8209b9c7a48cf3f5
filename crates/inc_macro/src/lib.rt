//! The macro table of a C preprocessor (ISO/IEC 9899:2018, 6.10.3, 6.10.3.5 and 6.10.8).
#![tactic(auto)]

mod bodies;
mod define_directives;
mod definition_words;
mod definitions;
mod faults;
pub mod laws;
mod name_sets;
mod named;
mod parameters;
mod reserved_names;
mod roles;
mod slots;
mod stacks;
mod tables;
mod variables;

pub use definitions::Definition;
pub use faults::{DefineFault, WordFault};
pub use name_sets::DistinctNames;
pub use parameters::Parameters;
pub use reserved_names::is_reserved;
pub use roles::Role;
pub use tables::Macros;
