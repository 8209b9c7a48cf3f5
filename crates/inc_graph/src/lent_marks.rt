//! Marks whose paths are lent.
ghost use Rattle.std.specs.Prelude.{◌≡◌, ◌≤◌, ◌==◌, false, Some, None, if◌then◌else◌, length, take};
ghost use Rattle.std.specs.List.{list_any};
ghost use Rattle.inc_text.specs.Ascii.{line_feed};
ghost use Rattle.inc_graph.specs.Marks.{is_mark};

use std::marker::Model;

/// A directive named by path and line, as [`Mark`](crate::Mark) names it. The path is lent from a text or a project, so that a mark
/// takes no allocation.
#[derive(Drop)]
pub struct LentMark<'a> {
    path: &'a [u8],
    line: u32,
}

impl<'a> Model for LentMark<'a> {
    ghost use Rattle.inc_graph.specs.Marks.{Mark};

    ghost Value = { Mark };

    ghost view = { λ m. record { path = m.path.now; line = m.line } };
}

impl<'a> LentMark<'a> {
    /// The mark of this path and line.
    #[inline(always)]
    pub fn new(path: &'a [u8], line: u32) -> LentMark<'a>
        ensures { result ≡ record { path = path.now; line = line } }
    {
        LentMark { path, line }
    }

    /// The mark of the path that a text begins with, which ends before an LF; `None` where the path is empty or the line is 0.
    #[inline(always)]
    pub fn in_front(text: &'a [u8], len: usize, line: u32) -> Option<LentMark<'a>>
        requires within { len ≤ length text.now }
        requires ended { list_any (λ b. b == line_feed) (take len text.now) ≡ false }
        ensures { result ≡ (if is_mark (record { path = take len text.now; line = line }) then Some
            (record { path = take len text.now; line = line }) else None) }
    {
        if len == 0 || line == 0 {
            return None;
        }
        Some(LentMark::new(&text[..len], line))
    }

    /// The path of the file.
    #[inline(always)]
    pub fn path(&self) -> &'a [u8]
        ensures { result.now ≡ self.now.path }
    {
        self.path
    }

    /// The physical line, from 1.
    #[inline(always)]
    pub fn line(&self) -> u32
        ensures { result ≡ self.now.line }
    {
        self.line
    }
}
