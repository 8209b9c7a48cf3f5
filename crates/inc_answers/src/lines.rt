//! Numbers and lines of the printed texts.
ghost use Rattle.std.specs.Prelude.{◌≤◌, decimal};
ghost use Rattle.inc_check.specs.Texts.{line_text};
ghost use Rattle.inc_answers.specs.MarkTexts.{more_text};
ghost use Rattle.inc_answers.specs.Numbers.{count_text, directive_text, point_text};
ghost use Rattle.inc_answers.specs.Sending.{Sends};

use crate::output::Output;
use inc_text::ByteSink;
use itoa::Buffer;

/// Sends a number, in decimal.
pub fn send_number<W: ByteSink>(out: &mut Output<W>, n: u64)
    ensures { Sends out.old out.new (decimal n) }
{
    if out.keep_number(n) {
        return;
    }
    let mut buffer = Buffer::new();
    let digits = buffer.format(n);
    out.send(digits.as_bytes());
}

/// Sends two numbers with a point between.
pub fn send_point<W: ByteSink>(out: &mut Output<W>, first: u64, second: u64)
    ensures { Sends out.old out.new (point_text (first, second)) }
{
    send_number(out, first);
    out.send(b".");
    send_number(out, second);
}

/// Sends a text and the LF that ends its line.
pub fn send_line<W: ByteSink>(out: &mut Output<W>, text: &[u8])
    ensures { Sends out.old out.new (line_text text.now) }
{
    out.send(text);
    out.send(b"\n");
}

/// Sends a line of a word and a number.
pub fn send_count_line<W: ByteSink>(out: &mut Output<W>, word: &[u8], n: usize)
    ensures { Sends out.old out.new (count_text word.now n) }
{
    out.send(word);
    out.send(b" ");
    send_number(out, n as u64);
    out.send(b"\n");
}

/// Sends that so many elements more are not printed, where some are.
pub fn send_more<W: ByteSink>(out: &mut Output<W>, count: usize)
    ensures { Sends out.old out.new (more_text count) }
{
    if count == 0 {
        return;
    }
    out.send(b".. and ");
    send_number(out, count as u64);
    out.send(b" more\n");
}

/// Sends the line of a directive: its line and the path of its file. There is room for most.
pub fn send_directive<W: ByteSink>(out: &mut Output<W>, line: u32, path: &[u8])
    ensures sent { Sends out.old out.new (directive_text line path.now) }
    ensures few { line ≤ 4_294_967_295 }
{
    if out.keep_directive(line, path) {
        return;
    }
    send_directive_in_parts(out, line, path);
}

/// The same, one part after the other.
#[inline(never)]
fn send_directive_in_parts<W: ByteSink>(out: &mut Output<W>, line: u32, path: &[u8])
    ensures { Sends out.old out.new (directive_text line path.now) }
{
    send_number(out, u64::from(line));
    out.send(b" ");
    send_line(out, path);
}
