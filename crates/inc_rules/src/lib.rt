//! Rules: which files of a project may not reach or not include others, and which must include one.
#![tactic(auto)]

mod breaks;
mod direct_rules;
mod judging;
pub mod laws;
mod open_lines;
mod parts;
mod reach;
mod reaching;
mod reading;
mod rule_files;
mod rule_subjects;
mod rule_texts;
mod rules;
mod sides;
mod words;

pub use breaks::{breaking, lacking};
pub use judging::{Judged, judge};
pub use reading::read_rules;
pub use rule_subjects::subjects;
pub use rule_texts::{fault_words, joined};
pub use rules::{FaultKind, Rule, RuleFault, Verb};
pub use sides::Sides;
