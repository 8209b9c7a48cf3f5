//! The line on standard error that says how far a long run is.
use itoa::Buffer;
use std::cell::Cell;
use std::io::{IsTerminal, Write};
use std::time::{Duration, Instant};

/// After so many milliseconds a run has the line.
const FIRST_LINE: u64 = 500;

/// So many pass from one line to the next.
const NEXT_LINE: u64 = 100;

/// How many files were read so far, for who waits at a terminal: a line that is written over, and taken away before anything else is
/// written. A line that cannot be written is left out.
#[derive(Drop)]
pub(crate) struct Progress {
    /// When the next line is due; none where there is none.
    due: Cell<Option<Instant>>,
    files: Cell<u64>,
    is_shown: Cell<bool>,
}

impl Progress {
    /// There is no line yet.
    pub fn new() -> Progress {
        Progress {
            due: Cell::new(None),
            files: Cell::new(0),
            is_shown: Cell::new(false),
        }
    }

    /// Begins, unless notes are turned off or standard error is no terminal: then the clock is never asked.
    pub fn begin(&self, rt: &HostRuntime, is_quiet: bool) {
        if is_quiet || !rt.stderr().is_terminal() {
            return;
        }
        if let Ok(now) = Instant::now(rt) {
            self.due
                .set(now.checked_add(Duration::from_millis(FIRST_LINE)));
        }
    }

    /// Counts a file that is about to be read.
    pub fn count(&self, rt: &HostRuntime) {
        let Some(due) = self.due.get() else {
            return;
        };
        self.files.set(self.files.get().saturating_add(1));
        let Ok(now) = Instant::now(rt) else {
            return;
        };
        if now >= due {
            self.show(rt);
            self.due
                .set(now.checked_add(Duration::from_millis(NEXT_LINE)));
        }
    }

    /// Takes the line away, where it stands.
    pub fn clear(&self, rt: &HostRuntime) {
        if self.is_shown.get() {
            self.is_shown.set(false);
            let _ = rt.stderr().write_all(b"\r\x1b[K");
        }
    }

    /// Writes the line over the one before.
    fn show(&self, rt: &HostRuntime) {
        let files = self.files.get();
        let mut buffer = Buffer::new();
        let count = buffer.format(files);
        let read: &str = if files == 1 {
            " file read"
        } else {
            " files read"
        };
        for part in ["\rincut: ", count, read, "\x1b[K"] {
            let _ = rt.stderr().write_all(part.as_bytes());
        }
        self.is_shown.set(true);
    }
}
