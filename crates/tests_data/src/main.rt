//! Prints what calls give for the examples on standard input. They are in `stdin`, and what they must give is in `stdout`: values of the standard, of docs/DECISIONS.md
//! and of graph theory, never what this program printed.
//!
//! A line `== KIND: NAME` begins an example, and the lines after it, up to the next one, are its source or its project. The kinds are those of `answers.rt`. What is before the
//! first example is a heading.
//!
//! A source has its lines as they stand, each with its line feed. What cannot be typed follows a `~`: `~0d` is the byte of this number in hexadecimal, and `~7e` the `~` itself.
//! `~(N)` repeats what is after it, up to the end of its line, N times; and a `~` at the end of a line leaves out its line feed. Bytes of an answer that are no printable ASCII
//! are printed in the same way.
#![tactic(auto)]

mod answers;
mod escapes;
mod expansions;
mod graphs;
mod lines;
mod lookups;
mod macros;
mod printing;
mod texts;

use crate::answers::add_answer;
use std::alloc::Global;
use std::process::ExitCode;
use tests_parts::{Answers, Stop, run};

fn main(rt: HostRuntime) -> ExitCode {
    match run::<Data>(&rt) {
        Ok(()) => ExitCode::from(0),
        Err(_) => ExitCode::from(1),
    }
}

/// Answers by the calls about texts, tokens, macros, paths and graphs.
struct Data;

impl Answers for Data {
    fn add(alloc: Global, example: &str, out: &mut Vec<u8>) -> Result<(), Stop> {
        add_answer(alloc, example, out)
    }
}
