//! Prints what a preprocessing gives, token by token, for the examples on standard input. They are in `stdin`, and what they must give is in `stdout`: values of the
//! standard, never what this program printed.
//!
//! A line `== KIND: NAME` begins an example. What is before the first one is a heading.
//!
//! | Kind | Settings, and what is after the files | The answer |
//! |---|---|---|
//! | `preprocessing` | `word WORD`, `dir DIRECTORY`, `without LINE PATH`, `date DATE`, `time TIME`, `timestamp TIMESTAMP`, `empty` where missing headers count as empty, `gnu` for GNU C, `source PATH` for the name of the source, `shown DIRECTORY` or `system DIRECTORY` for how each directory is spelled, `markers` for line markers | the tokens, the files that are read with how often one is read again and again, and where it stops |
//! | `hidden names` | two names | which sets of them have equal numbers |
//!
//! A preprocessing has a project: settings, one a line, then `@PATH` for each file and what it holds. Its source is `m.c`.
#![tactic(auto)]

mod preprocessings;
mod sets;

use crate::preprocessings::add_preprocessing;
use crate::sets::add_sets;
use std::alloc::Global;
use std::process::ExitCode;
use tests_parts::{Answers, Stop, run};

fn main(rt: HostRuntime) -> ExitCode {
    match run::<Outcomes>(&rt) {
        Ok(()) => ExitCode::from(0),
        Err(_) => ExitCode::from(1),
    }
}

/// Answers by the calls of the preprocessor.
struct Outcomes;

impl Answers for Outcomes {
    fn add(alloc: Global, example: &str, out: &mut Vec<u8>) -> Result<(), Stop> {
        let Some((kind, _)) = example.split_once(": ") else {
            return Err(Stop);
        };
        match kind {
            "preprocessing" => add_preprocessing(alloc, example, out),
            "hidden names" => add_sets(alloc, example, out),
            _ => Err(Stop),
        }
    }
}
