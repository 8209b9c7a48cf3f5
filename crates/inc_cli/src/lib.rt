//! The program `incut` as a call: reads the words of the command line and the files that they name, and runs the command that they ask
//! for.
#![tactic(auto)]

mod answering;
mod answers;
mod baselines;
mod commands;
mod folders;
mod hindrances;
mod hosts;
mod listed_files;
mod notes;
mod pp;
mod progress;
mod questions;
mod reports;
mod rules;
mod runs;
mod scan;
mod shown;

pub use hosts::run_process;
pub use reports::{exit_of, report};
pub use runs::{Ended, run};
