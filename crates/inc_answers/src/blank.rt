//! Changed files as a text of their bytes.
ghost use Rattle.inc_answers.specs.BlankText.{file_text, files_text};
ghost use Rattle.inc_answers.specs.Sending.{Sends};

use crate::changes::Change;
use crate::lines::{send_count_line, send_line, send_number};
use crate::output::Output;
use inc_text::ByteSink;

/// Sends how many files change, and each.
pub fn send_files<W: ByteSink>(out: &mut Output<W>, changes: &[Change<'_>])
    ensures { Sends out.old out.new (files_text changes.now) }
{
    send_count_line(out, b"files", changes.len());
    for change in changes {
        send_file(out, change);
    }
}

/// Sends a changed file: how many bytes it has, its path and its bytes.
fn send_file<W: ByteSink>(out: &mut Output<W>, change: &Change<'_>)
    ensures { Sends out.old out.new (file_text change.now) }
{
    out.send(b"file ");
    send_number(out, change.after.len() as u64);
    out.send(b" ");
    send_line(out, change.path);
    send_line(out, &change.after);
}
