//! Output on its way to a sink.
ghost use Rattle.std.specs.Prelude.{◌≡◌, ◌++◌, ℕ, List, [], Option, if◌then◌else◌, IfOk, IfErr, decimal};
ghost use Rattle.inc_answers.specs.Numbers.{directive_text};
ghost use Rattle.inc_answers.specs.Printed.{Printed};
ghost use Rattle.inc_answers.specs.Sending.{stream, with_waiting, IsSent, Sends};
ghost use Rattle.inc_answers.specs.Writing.{IsFinished, Writes};
ghost use Rattle.inc_answers.specs.declared.outcome.RunFault.TheVariants.{Write};

use crate::filling::{MOST_BESIDE_PATH, MOST_DIGITS, put_directive, put_number, put_text};
use crate::outcome::{End, RunFault};
use inc_text::{ByteSink, write_whole};
use std::alloc::Global;
use std::marker::Model;

/// How many bytes are written at a time.
const BUFFER_LEN: usize = 65_536;

/// Room for a few lines beside a text that is sent in one piece: pages of a larger buffer would be cleared for nothing.
const SMALL_BUFFER_LEN: usize = 2_048;

/// A sink with a buffer before it. The room is taken at the start, so that sending takes no memory. After a fault of the sink nothing more
/// is written, and the fault is answered at the end. Numbers and lines of directives, of which most of a long answer consists, are put
/// straight into the buffer where there is room for the longest.
#[derive(Drop)]
pub struct Output<W: ByteSink> {
    sink: W,
    bytes: Vec<u8>,
    /// How many of them wait to be written.
    waiting: usize,
}

impl<W: ByteSink> Model for Output<W> {
    ghost use Rattle.std.specs.Prelude.{◌≤◌, take, length};
    ghost use Rattle.inc_answers.specs.Sending.{Stream, stream};

    ghost Value = { Stream };

    ghost view = { λ o. stream (W.written o.sink) (W.has_failed o.sink) (take o.waiting o.bytes.items) };

    ghost invariant = { λ o. o.waiting ≤ length o.bytes.items };
}

impl<W: ByteSink> Output<W> {
    /// A sink with an empty buffer; the sink alone where memory ran out.
    pub fn new(alloc: Global, sink: W) -> Result<Output<W>, W>
        ensures output { IfOk result (λ out. out ≡ stream (W.written sink) (W.has_failed sink) []) }
        ensures sink { IfErr result (λ s. s ≡ sink) }
    {
        Output::with_len(alloc, sink, BUFFER_LEN)
    }

    /// The same with a buffer for a few lines.
    pub fn small(alloc: Global, sink: W) -> Result<Output<W>, W>
        ensures output { IfOk result (λ out. out ≡ stream (W.written sink) (W.has_failed sink) []) }
        ensures sink { IfErr result (λ s. s ≡ sink) }
    {
        Output::with_len(alloc, sink, SMALL_BUFFER_LEN)
    }

    /// The same with a buffer of so many bytes.
    fn with_len(alloc: Global, sink: W, len: usize) -> Result<Output<W>, W>
        ensures output { IfOk result (λ out. out ≡ stream (W.written sink) (W.has_failed sink) []) }
        ensures sink { IfErr result (λ s. s ≡ sink) }
    {
        match vec![in alloc; 0; len] {
            Ok(bytes) => Ok(Output {
                sink,
                bytes,
                waiting: 0,
            }),
            Err(_) => Err(sink),
        }
    }

    /// Sends a text. Most are short, and there is room for them.
    #[inline(always)]
    pub fn send(&mut self, text: &[u8])
        ensures { Sends self.old self.new text.now }
    {
        if self.keep(text) {
            return;
        }
        self.send_after_flush(text);
    }

    /// Sends a text for which there is no room after what waits.
    #[inline(never)]
    fn send_after_flush(&mut self, text: &[u8])
        ensures { Sends self.old self.new text.now }
    {
        self.flush();
        if !self.keep(text) {
            self.pass(text);
        }
    }

    /// Writes what waits, and says how a call ends whose text that is the end of.
    pub fn settle(&mut self, end: End) -> Result<End, RunFault>
        ensures written { (start : Option (List ℕ)) (p : Printed) → IsSent start p.text self.old → end ≡ p.end →
            Writes (λ q. q ≡ p) start self.new.written self.new.failed result }
        ensures empty { self.new.waiting ≡ [] }
        ensures same { IfOk result (λ e. e ≡ end) }
        ensures fault { IfErr result (λ fault. fault ≡ Write) }
    {
        self.flush();
        if self.sink.failed() {
            return Err(RunFault::Write);
        }
        Ok(end)
    }

    /// Gives the sink back. What waits is not written.
    pub fn into_sink(self) -> W
        ensures written { W.written result ≡ self.written }
        ensures failed { W.has_failed result ≡ self.failed }
    {
        self.sink
    }

    /// Ends a call: writes what waits, and gives the sink back.
    pub fn finish(self, ended: Result<End, RunFault>) -> (Result<End, RunFault>, W)
        ensures { IsFinished self ended (W.written result.1) (W.has_failed result.1) result.0 }
    {
        let mut out = self;
        let result = match ended {
            Ok(end) => out.settle(end),
            Err(fault) => Err(fault),
        };
        (result, out.into_sink())
    }

    /// Adds a text to what waits, if there is room.
    #[inline(always)]
    fn keep(&mut self, text: &[u8]) -> bool
        ensures { self.new ≡ (if result then with_waiting self.old (self.old.waiting ++ text.now) else self.old) }
    {
        if text.len() > self.bytes.len() - self.waiting {
            return false;
        }
        self.waiting = put_text(&mut self.bytes, self.waiting, text);
        true
    }

    /// Adds a number to what waits, if there is room.
    #[inline(always)]
    pub fn keep_number(&mut self, n: u64) -> bool
        ensures { self.new ≡ (if result then with_waiting self.old (self.old.waiting ++ decimal n) else self.old) }
    {
        if self.bytes.len() - self.waiting < MOST_DIGITS {
            return false;
        }
        self.waiting = put_number(&mut self.bytes, self.waiting, n);
        true
    }

    /// Adds the line of a directive to what waits, if there is room.
    #[inline(always)]
    pub fn keep_directive(&mut self, line: u32, path: &[u8]) -> bool
        ensures { self.new ≡ (if result then with_waiting self.old (self.old.waiting ++ directive_text line path.now) else self.old) }
    {
        let room = self.bytes.len() - self.waiting;
        if room < MOST_BESIDE_PATH || path.len() > room - MOST_BESIDE_PATH {
            return false;
        }
        self.waiting = put_directive(&mut self.bytes, self.waiting, line, path);
        true
    }

    /// Writes what waits.
    fn flush(&mut self)
        ensures sent { Sends self.old self.new [] }
        ensures empty { self.new.waiting ≡ [] }
    {
        write_unless_failed(&mut self.sink, &self.bytes[..self.waiting]);
        self.waiting = 0;
    }

    /// Writes a text past the buffer, which is empty.
    fn pass(&mut self, text: &[u8])
        requires { self.old.waiting ≡ [] }
        ensures { Sends self.old self.new text.now }
    {
        write_unless_failed(&mut self.sink, text);
    }
}

/// Writes a text that waits, unless the sink has failed before.
fn write_unless_failed<W: ByteSink>(w: &mut W, text: &[u8])
    ensures { Sends (stream (W.written w.old) (W.has_failed w.old) text.now)
        (stream (W.written w.new) (W.has_failed w.new) []) [] }
{
    if w.failed() {
        return;
    }
    // The sink remembers a fault.
    let _ = write_whole(w, text);
}
