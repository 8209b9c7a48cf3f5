//! What the programs have in common that answer examples on standard input (`tests_data`, `tests_calls`, `tests_pp`, `tests_cond`).
#![tactic(auto)]

mod examples;
mod files;
mod printing;
mod refusals;
mod stops;

pub use examples::{Answers, print, read_input, run};
pub use files::{directive_of, file_of, files_of, project_of, settings_of};
pub use printing::{add, add_number, add_path, number, split_word};
pub use refusals::refusing;
pub use stops::Stop;
