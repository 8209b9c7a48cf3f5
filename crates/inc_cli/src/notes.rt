//! Notes, which stand beside an answer on standard error and change nothing of it.
ghost use Rattle.std.specs.Prelude.{◌≡◌, ◌++◌, Ok, OnErr, OnOk, false, is_err};
ghost use Rattle.std.specs.Io.KnownBytes.{Appends};
ghost use Rattle.inc_text.specs.Devices.{AppendsFront};
ghost use Rattle.inc_inputs.specs.declared.failures.Hindrance.{Hindrance};
ghost use Rattle.inc_cli.specs.Notes.{notes_if, reason_of};
ghost use Rattle.inc_cli.specs.Processes.{IsTold};
ghost use Rattle.inc_cli.specs.Views.{answer_in, output_of};

use crate::answers::Answer;
use crate::reports::exit_of;
use inc_answers::{End, EndKind};
use inc_text::{ByteSink, DeviceFault, write_whole};

/// Writes the notes beside an answer, or where they are turned off reasons alone, and gives the exit status, which a note that
/// cannot be written does not change.
pub(crate) fn note<E: ByteSink>(answer: &Answer, is_quiet: bool, messages: E) -> (u8, E)
    requires { E.has_failed messages ≡ false }
    ensures { (hindrance : Hindrance) → IsTold is_quiet hindrance (Ok (answer_in answer.now)) result.0
        (output_of (E.written messages) (E.written result.1) (E.has_failed result.1)) }
{
    let mut messages = messages;
    let _ = write_notes(&mut messages, answer, is_quiet);
    (exit_of(&answer.end), messages)
}

/// Writes the notes beside an answer, or where they are turned off reasons alone.
fn write_notes<E: ByteSink>(
    messages: &mut E,
    answer: &Answer,
    is_quiet: bool,
) -> Result<(), DeviceFault>
    requires { E.has_failed messages.old ≡ false }
    ensures whole { OnOk result (Appends (E.written messages.old) (E.written messages.new)
        (notes_if is_quiet (answer_in answer.now))) }
    ensures front { OnErr result (AppendsFront (E.written messages.old) (E.written messages.new)
        (notes_if is_quiet (answer_in answer.now))) }
    ensures failed { E.has_failed messages.new ≡ is_err result }
{
    let stops = answer.end.stops.text();
    if is_quiet {
        return write_both(messages, reason_of(&answer.end), stops);
    }
    // Those of the words stand before those of the answer, and then why sources stopped.
    write_three(messages, &answer.notes, answer.end.notes.text(), stops)
}

/// The reason of a refusal, which stays where notes are turned off.
fn reason_of(end: &End) -> &[u8]
    ensures { result.now ≡ reason_of end.now }
{
    match end.kind {
        EndKind::Refused => end.notes.text(),
        _ => &[],
    }
}

/// Writes three texts, one after the other.
pub(crate) fn write_three<E: ByteSink>(
    messages: &mut E,
    first: &[u8],
    second: &[u8],
    third: &[u8],
) -> Result<(), DeviceFault>
    requires { E.has_failed messages.old ≡ false }
    ensures whole { OnOk result (Appends (E.written messages.old) (E.written messages.new)
        (first.now ++ (second.now ++ third.now))) }
    ensures front { OnErr result (AppendsFront (E.written messages.old) (E.written messages.new)
        (first.now ++ (second.now ++ third.now))) }
    ensures failed { E.has_failed messages.new ≡ is_err result }
{
    write_whole(messages, first)?;
    write_both(messages, second, third)
}

/// Writes one text after the other.
fn write_both<E: ByteSink>(messages: &mut E, first: &[u8], second: &[u8]) -> Result<(), DeviceFault>
    requires { E.has_failed messages.old ≡ false }
    ensures whole { OnOk result (Appends (E.written messages.old) (E.written messages.new) (first.now ++ second.now)) }
    ensures front { OnErr result (AppendsFront (E.written messages.old) (E.written messages.new) (first.now ++ second.now)) }
    ensures failed { E.has_failed messages.new ≡ is_err result }
{
    write_whole(messages, first)?;
    write_whole(messages, second)
}
