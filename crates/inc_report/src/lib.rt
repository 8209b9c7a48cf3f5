//! The answers that promise something of every preprocessing, and what `pp` prints.
#![tactic(auto)]

mod baseline;
pub mod blanking_laws;
mod check;
mod cut;
mod edits;
pub mod laws;
mod make_rules;
mod named;
mod named_costs;
mod numbers;
mod pp;
mod pp_question;
mod rules;
mod rules_sarif;
mod source_endings;
mod stop_reasons;

pub use baseline::run_baseline;
pub use check::run_check;
pub use cut::run_cut;
pub use edits::{run_blank, run_patch};
pub use named::{Format, NamedForm, run_named};
pub use pp::run_pp;
pub use pp_question::PpQuestion;
pub use rules::run_rules;
pub use rules_sarif::run_sarif;
