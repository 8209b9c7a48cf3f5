//! Macro expansion of C (ISO/IEC 9899:2018, 6.10.3.1 to 6.10.3.4 and 6.10.8).
#![tactic(auto)]

mod arguments;
mod body_elements;
mod budgets;
mod calls;
mod carried;
mod cases;
mod contexts;
mod expansions;
mod faults;
mod frames;
mod held;
mod hide_sets;
mod items;
pub mod laws;
mod lent;
mod name_keys;
mod openings;
mod optionals;
mod ordinary;
mod pastes;
mod places;
mod plain_bodies;
mod predefined;
mod puts;
mod replacements;
mod rules;
mod seen_names;
mod shared;
mod shared_sets;
mod sinks;
mod stacks;
mod streams;
mod strings;
mod walks;

pub use budgets::Budget;
pub use expansions::{expand, expand_condition_into, expand_into, expand_open};
pub use faults::ExpandFault;
pub use held::{Held, HeldRef};
pub use hide_sets::{HideSets, SetId};
pub use items::{Item, Spelling};
pub use places::{Mode, Place};
pub use sinks::{ItemRef, Sink};
