//! What is reported, and the exit statuses.
ghost use Rattle.std.specs.Prelude.{◌≡◌, Err, IfOk, OnErr, OnOk, false, is_err, map};
ghost use Rattle.std.specs.Io.KnownBytes.{Appends};
ghost use Rattle.clap.specs.Values.{kind_of};
ghost use Rattle.inc_text.specs.Devices.{AppendsFront};
ghost use Rattle.inc_inputs.specs.Reports.{report_line, report_of};
ghost use Rattle.inc_cli.specs.Outputs.{run_report};
ghost use Rattle.inc_cli.specs.Processes.{IsTold};
ghost use Rattle.inc_cli.specs.Statuses.{status_of, usage_status};
ghost use Rattle.inc_cli.specs.Views.{output_of};

use crate::notes::write_three;
use clap::Error;
use clap::error::ErrorKind;
use inc_answers::{End, EndKind, RunFault};
use inc_inputs::{Failure, Hindrance, read_failure, written};
use inc_text::{ByteSink, DeviceFault, ReadFault};
use itoa::Buffer;
use std::alloc::{AllocError, Global};

/// The exit status after a call that prints.
pub fn exit_of(end: &End) -> u8
    ensures { result ≡ status_of end.now.kind }
{
    match end.kind {
        EndKind::Answered => 0,
        EndKind::Negative => 1,
        EndKind::Refused => 4,
    }
}

/// The failure to report of a call that prints, in a project whose files have these paths, with a certificate of this name, an empty one
/// where there is none.
pub fn run_failure(
    alloc: Global,
    fault: RunFault,
    paths: &[&[u8]],
    certificate: &str,
) -> Result<Failure, AllocError>
    ensures { IfOk result (λ failure. report_of failure ≡ run_report fault (map (λ p. p.now) paths.now) certificate.now) }
{
    Ok(match fault {
        RunFault::CannotRead { file } => {
            Failure::CannotRead(written(alloc, file.index(), paths, &[])?)
        }
        RunFault::FileTooLong { file } => {
            Failure::FileTooLong(written(alloc, file.index(), paths, &[])?)
        }
        RunFault::CannotReadCertificate => {
            read_failure(alloc, ReadFault::Read, certificate.as_bytes())?
        }
        RunFault::Write => Failure::CannotWrite,
        RunFault::NoMemory => Failure::NoMemory,
    })
}

/// Reports a failure in a line, with what stood in the way of what could not be read or written, and gives the exit status. Where the line
/// cannot be written, the status still reports the failure.
pub fn report<E: ByteSink>(failure: &Failure, hindrance: Hindrance, messages: E) -> (u8, E)
    requires { E.has_failed messages ≡ false }
    ensures { IsTold false hindrance (Err (report_of failure.now)) result.0
        (output_of (E.written messages) (E.written result.1) (E.has_failed result.1)) }
{
    let mut messages = messages;
    let _ = write_report(&mut messages, failure, hindrance);
    (failure.status(), messages)
}

/// Writes the line that reports a failure, with what stood in the way of what could not be read or written.
fn write_report<E: ByteSink>(
    messages: &mut E,
    failure: &Failure,
    hindrance: Hindrance,
) -> Result<(), DeviceFault>
    requires { E.has_failed messages.old ≡ false }
    ensures whole { OnOk result (Appends (E.written messages.old) (E.written messages.new)
        (report_line hindrance (report_of failure.now))) }
    ensures front { OnErr result (AppendsFront (E.written messages.old) (E.written messages.new)
        (report_line hindrance (report_of failure.now))) }
    ensures failed { E.has_failed messages.new ≡ is_err result }
{
    let (message, path) = failure.message();
    let hindrance = failure.hindrance(hindrance);
    let mut digits = Buffer::new();
    write_three(messages, b"incut: ", message, path)?;
    write_three(
        messages,
        hindrance.name(),
        hindrance.number(&mut digits),
        b"\n",
    )
}

/// The exit status after a text of `clap`: 0 for help and the version.
pub(crate) fn usage_status(error: &Error) -> u8
    ensures { result ≡ usage_status (kind_of error.now) }
{
    match error.kind() {
        ErrorKind::DisplayHelp | ErrorKind::DisplayVersion => 0,
        _ => 2,
    }
}
