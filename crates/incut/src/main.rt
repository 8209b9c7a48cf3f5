//! The program `incut`.
#![tactic(auto)]

use inc_cli::run_process;
use std::process::ExitCode;

fn main(rt: HostRuntime) -> ExitCode {
    ExitCode::from(run_process(&rt))
}
