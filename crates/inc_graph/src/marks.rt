//! Marks: directives named by path and line.
ghost use Rattle.std.specs.Prelude.{◌≡◌, ◌≤◌, ◌==◌, true, false, Some, None, if◌then◌else◌, length, take, IfOk};
ghost use Rattle.std.specs.List.{list_any};
ghost use Rattle.inc_text.specs.Ascii.{line_feed};
ghost use Rattle.inc_graph.specs.declared.marks.TheConstants.{SHORT_PATH};
ghost use Rattle.inc_graph.specs.Marks.{is_mark};

use crate::lent_marks::LentMark;
use std::alloc::{AllocError, Global};
use std::marker::Model;

/// A path of so many bytes lies in its mark, without an allocation of its own. So many make a mark no larger than a longer path does.
const SHORT_PATH: usize = 23;

/// How a mark is stored: by the length of its path. The line is first, beside the tag, so that a mark takes 32 bytes.
#[derive(Drop)]
pub(crate) enum StoredMark {
    /// The path is the first bytes of these, so many.
    Short {
        line: u32,
        len: u8,
        bytes: [u8; SHORT_PATH],
    },
    /// The path has an allocation of its own.
    Long {
        line: u32,
        path: Vec<u8>,
    },
}

/// A directive named by the normal path of its file, compared byte for byte, and the physical line of its `#`.
#[derive(Drop)]
pub struct Mark {
    stored: StoredMark,
}

impl Model for Mark {
    ghost use Rattle.std.specs.Prelude.{IsTrue};
    ghost use Rattle.inc_graph.specs.Marks as spec;
    ghost use Rattle.inc_graph.specs.StoredMarks.{stored_mark, IsWithin};

    ghost Value = { spec.Mark };

    ghost view = { λ m. stored_mark m.stored };

    ghost invariant = { λ m. IsTrue (spec.is_mark (stored_mark m.stored)) × IsWithin m.stored };
}

impl Mark {
    /// `None` where the path is empty or holds LF, or the line is 0.
    pub fn new(path: Vec<u8>, line: u32) -> Option<Mark>
        ensures { result ≡ (if is_mark (record { path = path.items; line = line }) then Some
            (record { path = path.items; line = line }) else None) }
    {
        if !is_mark(&path, line) {
            return None;
        }
        if path.len() <= SHORT_PATH {
            return Some(Mark::short(&path, line));
        }
        Some(Mark {
            stored: StoredMark::Long { line, path },
        })
    }

    /// As [`Mark::new`], of a copy of the path.
    pub fn copied(alloc: Global, path: &[u8], line: u32) -> Result<Option<Mark>, AllocError>
        ensures { IfOk result (λ mark. mark ≡ (if is_mark (record { path = path.now; line = line }) then Some
            (record { path = path.now; line = line }) else None)) }
    {
        if !is_mark(path, line) {
            return Ok(None);
        }
        if path.len() <= SHORT_PATH {
            return Ok(Some(Mark::short(path, line)));
        }
        let path = Vec::from_slice(alloc, path)?;
        Ok(Some(Mark {
            stored: StoredMark::Long { line, path },
        }))
    }

    /// As [`Mark::copied`], of the path that a text begins with, which ends before an LF. What is after a short path is copied with
    /// it, so that all short paths are copied by the same few instructions.
    #[inline]
    pub fn in_front(
        alloc: Global,
        text: &[u8],
        len: usize,
        line: u32,
    ) -> Result<Option<Mark>, AllocError>
        requires within { len ≤ length text.now }
        requires ended { list_any (λ b. b == line_feed) (take len text.now) ≡ false }
        ensures { IfOk result (λ mark. mark ≡ (if is_mark (record { path = take len text.now; line = line }) then Some
            (record { path = take len text.now; line = line }) else None)) }
    {
        if len == 0 || line == 0 {
            return Ok(None);
        }
        if len <= SHORT_PATH && text.len() >= SHORT_PATH {
            return Ok(Some(Mark::short_in_front(text, len, line)));
        }
        Mark::copied(alloc, &text[..len], line)
    }

    /// The mark of a short path in front of a text that has room for each short path.
    #[inline]
    fn short_in_front(text: &[u8], len: usize, line: u32) -> Mark
        requires mark { is_mark (record { path = take len text.now; line = line }) ≡ true }
        requires short { len ≤ SHORT_PATH }
        requires room { SHORT_PATH ≤ length text.now }
        ensures { result ≡ record { path = take len text.now; line = line } }
    {
        Mark {
            stored: StoredMark::Short {
                line,
                len: len as u8,
                bytes: first_bytes(text),
            },
        }
    }

    /// The mark of a short path.
    fn short(path: &[u8], line: u32) -> Mark
        requires mark { is_mark (record { path = path.now; line = line }) ≡ true }
        requires short { length path.now ≤ SHORT_PATH }
        ensures { result ≡ record { path = path.now; line = line } }
    {
        Mark {
            stored: StoredMark::Short {
                line,
                len: path.len() as u8,
                bytes: short_bytes(path),
            },
        }
    }

    /// The same mark, whose path is lent from this one.
    pub fn lent(&self) -> LentMark<'_>
        ensures { result ≡ self.now }
    {
        LentMark::new(self.path(), self.line())
    }

    /// The path of the file.
    pub fn path(&self) -> &[u8]
        ensures { result.now ≡ self.now.path }
    {
        if let StoredMark::Long { path, .. } = &self.stored {
            return path;
        }
        if let StoredMark::Short { len, bytes, .. } = &self.stored {
            return &bytes[..*len as usize];
        }
        &[]
    }

    /// The physical line, from 1.
    pub fn line(&self) -> u32
        ensures { result ≡ self.now.line }
    {
        match &self.stored {
            StoredMark::Short { line, .. } => *line,
            StoredMark::Long { line, .. } => *line,
        }
    }
}

/// As many bytes of the front of a text as a short path may have.
#[inline]
fn first_bytes(text: &[u8]) -> [u8; SHORT_PATH]
    requires { SHORT_PATH ≤ length text.now }
    ensures { result ≡ take SHORT_PATH text.now }
{
    let mut bytes = [0; SHORT_PATH];
    bytes.copy_from_slice(&text[..SHORT_PATH]);
    bytes
}

/// The bytes of a short path, and others after them.
fn short_bytes(path: &[u8]) -> [u8; SHORT_PATH]
    requires { length path.now ≤ SHORT_PATH }
    ensures { take (length path.now) result ≡ path.now }
{
    let mut bytes = [0; SHORT_PATH];
    bytes[..path.len()].copy_from_slice(path);
    bytes
}

/// Whether a path and a line may be those of a mark.
fn is_mark(path: &[u8], line: u32) -> bool
    ensures { result ≡ is_mark (record { path = path.now; line = line }) }
{
    !path.is_empty() && !path.contains(&b'\n') && line != 0
}
