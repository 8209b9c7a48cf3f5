//! Refusals, which are printed in place of an answer.
ghost use Rattle.inc_answers.specs.Refusals.{refusal, refusal_for, refusal_text};
ghost use Rattle.inc_answers.specs.Sending.{Sends};
ghost use Rattle.inc_answers.specs.Views.{seen_refusal};
ghost use Rattle.inc_answers.specs.Writing.{SendsWhole};

use crate::lines::{send_directive, send_line, send_number, send_point};
use crate::missing_notes::Notes;
use crate::outcome::{End, EndKind, noted, plain};
use crate::output::Output;
use inc_text::ByteSink;

/// Why a call has no answer. That blockers are in its way is a refusal too, in `limits`.
#[derive(Clone, Copy)]
pub enum Refusal<'a> {
    /// The path of a source names no file of the project.
    NoSuchSource,
    /// The path of a header names no file of the project.
    NoSuchHeader,
    /// A file has an unterminated comment, or conditionals that do not balance.
    BadFile {
        path: &'a [u8],
        /// The physical line of its first fault.
        line: u32,
    },
    /// The graph has more than 1,000,000 directives.
    TooManyDirectives,
    /// The mark of a fixed directive names none.
    NoSuchDirective {
        path: &'a [u8],
        line: u32,
    },
    /// A certificate is malformed.
    Malformed {
        /// The line where it breaks off.
        line: usize,
    },
    /// A word of the command line makes no definition.
    BadDefinition {
        /// Its place, from 0.
        index: usize,
        /// The number of its fault.
        fault: u64,
    },
    /// The source has more than 16,777,216 bytes.
    TooLong,
    /// The mark of a cost names no directive.
    NoSuchCost {
        path: &'a [u8],
        line: u32,
    },
    /// The mark of a cost has a cost already.
    CostTwice {
        path: &'a [u8],
        line: u32,
    },
}

/// Sends the text of a refusal.
pub fn send_refusal<W: ByteSink>(out: &mut Output<W>, refusal: Refusal<'_>)
    ensures { Sends out.old out.new
        (refusal_text (seen_refusal refusal.entry)) }
{
    match refusal {
        Refusal::NoSuchSource => send_line(out, b"refused 1 no such source"),
        Refusal::NoSuchHeader => send_line(out, b"refused 2 no such header"),
        Refusal::BadFile { path, line } => {
            send_line(out, b"refused 3 bad file");
            send_directive(out, line, path);
        }
        Refusal::TooManyDirectives => send_line(out, b"refused 4 too many directives"),
        Refusal::NoSuchDirective { path, line } => {
            send_line(out, b"refused 6 no such directive");
            send_directive(out, line, path);
        }
        Refusal::Malformed { line } => {
            out.send(b"refused 7 malformed ");
            send_number(out, line as u64);
            out.send(b"\n");
        }
        Refusal::BadDefinition { index, fault } => {
            out.send(b"refused 8 bad definition ");
            send_point(out, index as u64, fault);
            out.send(b"\n");
        }
        Refusal::TooLong => send_line(out, b"refused 9 too long"),
        Refusal::NoSuchCost { path, line } => {
            send_line(out, b"refused 10 no such cost");
            send_directive(out, line, path);
        }
        Refusal::CostTwice { path, line } => {
            send_line(out, b"refused 11 cost twice");
            send_directive(out, line, path);
        }
    }
}

/// Sends a refusal, and says how the call ends.
pub fn refuse<W: ByteSink>(out: &mut Output<W>, cause: Refusal<'_>) -> End
    ensures { SendsWhole (refusal (seen_refusal cause.entry)) out.old out.new result }
{
    send_refusal(out, cause);
    plain(EndKind::Refused)
}

/// The same with a reason beside it.
pub fn refuse_for<W: ByteSink>(out: &mut Output<W>, cause: Refusal<'_>, reason: Notes) -> End
    ensures { SendsWhole (refusal_for reason (seen_refusal cause.entry)) out.old out.new result }
{
    send_refusal(out, cause);
    noted(EndKind::Refused, reason)
}
