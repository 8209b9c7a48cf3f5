//! Where the bytes of a text come from, one after the other.
//!
//! A cursor keeps the stretch of one line around the last place that it looked for, in which each byte stands for one of the source: the
//! places of most tokens are two comparisons and an addition, and it goes forward without a search. Where only the line of a place
//! counts, as that of a directive's `#`, it counts LFs from the last place on, or from the block before where that is far.
ghost use Rattle.std.specs.Prelude.{ℕ, ◌≡◌, ◌+◌, ◌-◌, ◌<◌, ◌≤◌, List, length, Some, option_map, slice_get};
ghost use Rattle.inc_text.specs.LineFeeds.{line_feeds_to};
ghost use Rattle.inc_text.specs.Origins.{AreBefore, IsLevel, IsMapped, AreCounts, Passed, TextKeeps, cells_at};
ghost use Rattle.inc_text.specs.PhaseText.{Cell, bytes_of, first_and_line, range_and_line, longest_text};

use crate::line_feeds::{line_feeds_before, line_feeds_between, line_feeds_on, line_feeds_to_end};
use crate::origins::{
    Origin, next_origin, next_splice, origin_at, origins_on, origins_to, range_by, splices_on,
    splices_to,
};
use std::marker::Model;

/// The most bytes in which the end of a line is looked for at once.
const WINDOW: usize = 4_096;

/// Where a byte of the text comes from.
#[derive(Clone, Copy, Debug, PartialEq, Eq)]
pub struct SourceRange {
    /// The first of the source bytes that it stands for, from 0.
    pub first: u32,
    /// The source byte after the last of them; `first` where it stands for none.
    pub last: u32,
    /// The physical line of the first of them, from 1.
    pub line: u32,
}

/// How many origins and splices are at or before a place of a text, and how many LFs before it.
#[derive(Clone, Copy)]
struct Tally {
    origins: usize,
    splices: usize,
    line_feeds: usize,
}

/// Places of a text, one after the other, that lie on one line and stand for one byte of the source each.
#[derive(Clone, Copy)]
struct Level {
    from: usize,
    to: usize,
    /// How far after a byte's place its source byte ends.
    ahead: u32,
    line: u32,
    /// How many LFs are before `to`.
    line_feeds: usize,
}

/// Tells where bytes of a text come from. Most places lie in the same stretch of one line as the one before; of the others,
/// those further on are found from there, so that a whole text takes no more time than it has bytes; going back it searches
/// anew.
#[derive(Drop)]
pub struct Cursor<'a> {
    bytes: &'a [u8],
    origins: &'a [Origin],
    splices: &'a [u32],
    counts: &'a [u32],
    /// How many origins are before the end of the stretch at least.
    origins_passed: usize,
    splices_passed: usize,
    level: Level,
}

impl<'a> Model for Cursor<'a> {
    ghost use Rattle.std.specs.Prelude.{List};
    ghost use Rattle.inc_text.specs.PhaseText.{Cell};
    ghost use Rattle.inc_text.specs.Origins.{cells_at, CursorKeeps};

    ghost Value = { List Cell };

    ghost view = { λ c. cells_at c.origins.now c.splices.now 0 0 c.bytes.now };

    ghost invariant = { λ c. CursorKeeps c.origins.now c.splices.now c.counts.now c.bytes.now
        c.origins_passed c.splices_passed c.level };
}

impl<'a> Cursor<'a> {
    /// A cursor at the start of a text of these parts.
    pub(crate) fn start(
        bytes: &'a [u8],
        origins: &'a [Origin],
        splices: &'a [u32],
        counts: &'a [u32],
    ) -> Cursor<'a>
        requires { TextKeeps origins.now splices.now counts.now bytes.now }
        ensures { result ≡ cells_at origins.now splices.now 0 0 bytes.now }
    {
        Cursor {
            bytes,
            origins,
            splices,
            counts,
            origins_passed: 0,
            splices_passed: 0,
            level: Level {
                from: 0,
                to: 0,
                ahead: 1,
                line: 1,
                line_feeds: 0,
            },
        }
    }

    /// A cursor at a place of a text of these parts, before which so many LFs are.
    #[inline(always)]
    pub(crate) fn start_at(
        bytes: &'a [u8],
        origins: &'a [Origin],
        splices: &'a [u32],
        counts: &'a [u32],
        at: usize,
        line_feeds: usize,
    ) -> Cursor<'a>
        requires keeps { TextKeeps origins.now splices.now counts.now bytes.now }
        requires within { at ≤ length bytes.now }
        requires counted { line_feeds ≡ line_feeds_to at bytes.now }
        ensures { result ≡ cells_at origins.now splices.now 0 0 bytes.now }
    {
        let origins_passed = origins_to(origins, at as u32);
        let splices_passed = splices_to(splices, at as u32);
        // No place lies in this stretch.
        let level = Level {
            from: at,
            to: at,
            ahead: 1,
            line: 1,
            line_feeds,
        };
        Cursor {
            bytes,
            origins,
            splices,
            counts,
            origins_passed,
            splices_passed,
            level,
        }
    }

    /// Where a byte of the text comes from.
    #[inline(always)]
    pub fn place_of(&mut self, at: usize) -> SourceRange
        requires { at < length self.old }
        ensures place { option_map range_and_line (slice_get self.old at)
            ≡ Some (result.first, result.last, result.line) }
        ensures same { self.new ≡ self.old }
    {
        let level = self.level;
        if at < level.from || level.to <= at {
            return self.place_anew(at);
        }
        let last = at as u32 + level.ahead;
        SourceRange {
            first: last - 1,
            last,
            line: level.line,
        }
    }

    /// Where the bytes of the text from one place up to another come from: the first source byte of the first of them and its line, and
    /// the source byte after the last of them.
    #[inline(always)]
    pub fn range_between(&mut self, at: usize, end: usize) -> SourceRange
        requires some { at < end }
        requires within { end ≤ length self.old }
        ensures first { option_map first_and_line (slice_get self.old at)
            ≡ Some (result.first, result.line) }
        ensures last { option_map (λ (c : Cell). c.last) (slice_get self.old (end - 1)) ≡ Some result.last }
        ensures same { self.new ≡ self.old }
    {
        let level = self.level;
        if at < level.from || level.to < end {
            return self.range_anew(at, end);
        }
        SourceRange {
            first: at as u32 + level.ahead - 1,
            last: end as u32 + level.ahead - 1,
            line: level.line,
        }
    }

    /// The same of bytes that do not all lie in the stretch.
    #[inline(never)]
    fn range_anew(&mut self, at: usize, end: usize) -> SourceRange
        requires some { at < end }
        requires within { end ≤ length self.old }
        ensures first { option_map first_and_line (slice_get self.old at)
            ≡ Some (result.first, result.line) }
        ensures last { option_map (λ (c : Cell). c.last) (slice_get self.old (end - 1)) ≡ Some result.last }
        ensures same { self.new ≡ self.old }
    {
        let place = self.place_of(at);
        let last = self.place_of(end - 1).last;
        SourceRange {
            first: place.first,
            last,
            line: place.line,
        }
    }

    /// The physical line of the source, from 1, on which a byte of the text begins. Further on than the last place this only
    /// counts new-lines, 4,096 bytes at most, and looks for no stretch: where few places of a line count, that takes less than `place_of`.
    #[inline(always)]
    pub fn line_of(&mut self, at: usize) -> u32
        requires { at < length self.old }
        ensures line { option_map (λ (c : Cell). c.line) (slice_get self.old at) ≡ Some result }
        ensures same { self.new ≡ self.old }
    {
        let level = self.level;
        if level.to <= at {
            let line_feeds = line_feeds_on(self.bytes, self.counts, level.to, level.line_feeds, at);
            return self.line_from(at, line_feeds);
        }
        self.place_of(at).line
    }

    /// The same of a byte before which so many LFs are, so that none is counted.
    #[inline(always)]
    fn line_from(&mut self, at: usize, line_feeds: usize) -> u32
        requires within { at < length self.old }
        requires counted { line_feeds ≡ line_feeds_to at (bytes_of self.old) }
        ensures line { option_map (λ (c : Cell). c.line) (slice_get self.old at) ≡ Some result }
        ensures same { self.new ≡ self.old }
    {
        let level = self.level;
        if at < level.to {
            return self.place_of(at).line;
        }
        let splices = splices_on(self.splices, self.splices_passed, at as u32);
        self.splices_passed = splices;
        // No place lies in this stretch.
        self.level = Level {
            from: at,
            to: at,
            ahead: level.ahead,
            line: level.line,
            line_feeds,
        };
        (1 + line_feeds + splices) as u32
    }

    /// Where a byte outside the stretch comes from, which the next stretch begins with. A text that is its source has but LFs to
    /// look for.
    #[inline(never)]
    fn place_anew(&mut self, at: usize) -> SourceRange
        requires { at < length self.old }
        ensures place { option_map range_and_line (slice_get self.old at)
            ≡ Some (result.first, result.last, result.line) }
        ensures same { self.new ≡ self.old }
    {
        let level = self.level;
        if level.to <= at && self.origins.is_empty() && self.splices.is_empty() {
            let next = level_on(self.bytes, level, at);
            self.level = next;
            return SourceRange {
                first: at as u32,
                last: at as u32 + 1,
                line: next.line,
            };
        }
        self.place_by_parts(at)
    }

    /// The same in any text.
    #[inline(always)]
    fn place_by_parts(&mut self, at: usize) -> SourceRange
        requires { at < length self.old }
        ensures place { option_map range_and_line (slice_get self.old at)
            ≡ Some (result.first, result.last, result.line) }
        ensures same { self.new ≡ self.old }
    {
        let level = self.level;
        let before = if at < level.to {
            before_by_search(self.bytes, self.origins, self.splices, self.counts, at)
        } else {
            Tally {
                origins: origins_on(self.origins, self.origins_passed, at as u32),
                splices: splices_on(self.splices, self.splices_passed, at as u32),
                line_feeds: level.line_feeds + line_feeds_between(self.bytes, level.to, at),
            }
        };
        let (first, last) = range_by(self.origins, before.origins, at as u32);
        let level = level_from(self.bytes, self.origins, self.splices, at, before);
        self.origins_passed = before.origins;
        self.splices_passed = before.splices;
        self.level = level;
        SourceRange {
            first,
            last,
            line: level.line,
        }
    }
}

/// What is at or before a place, by binary search and by the counts of the text's blocks.
fn before_by_search(
    bytes: &[u8],
    origins: &[Origin],
    splices: &[u32],
    counts: &[u32],
    at: usize,
) -> Tally
    requires mapped { IsMapped origins.now splices.now bytes.now }
    requires counted { AreCounts bytes.now counts.now }
    requires within { at < length bytes.now }
    ensures { AreBefore origins.now splices.now bytes.now at result }
{
    Tally {
        origins: origins_to(origins, at as u32),
        splices: splices_to(splices, at as u32),
        line_feeds: line_feeds_before(bytes, counts, at),
    }
}

/// A place up to which no origin and no splice is after the given one, at most so many bytes further on.
fn next_break(bytes: &[u8], origins: &[Origin], splices: &[u32], at: usize, before: Tally) -> usize
    requires before { AreBefore origins.now splices.now bytes.now at before }
    requires within { at < length bytes.now }
    ensures after { at < result }
    ensures within { result ≤ length bytes.now }
    ensures origins { (place : ℕ) → at ≤ place → place < result →
        Passed (λ (m : Origin). m.at) place origins.now before.origins }
    ensures splices { (place : ℕ) → at ≤ place → place < result →
        Passed (λ (s : ℕ). s) place splices.now before.splices }
{
    let end = bytes.len().min(at + WINDOW);
    let end = next_origin(origins, before.origins, end);
    next_splice(splices, before.splices, end)
}

/// The places from one on up to the end of its line in a text that is its source, at or after the end of another stretch.
#[inline(always)]
fn level_on(bytes: &[u8], level: Level, at: usize) -> Level
    requires counted { level.line_feeds ≡ line_feeds_to level.to bytes.now }
    requires order { level.to ≤ at }
    requires within { at < length bytes.now }
    requires short { length bytes.now ≤ longest_text }
    ensures level { (origins : List Origin) (splices : List ℕ) → length origins ≡ 0 → length splices ≡ 0 →
        IsLevel origins splices bytes.now result }
    ensures from { result.from ≡ at }
    ensures after { at < result.to }
    ensures ahead { result.ahead ≡ 1 }
{
    let line_feeds = level.line_feeds + line_feeds_between(bytes, level.to, at);
    let end = bytes.len().min(at + WINDOW);
    let (len, more) = line_feeds_to_end(&bytes[at..end]);
    Level {
        from: at,
        to: at + len,
        ahead: 1,
        line: (1 + line_feeds) as u32,
        line_feeds: line_feeds + more,
    }
}

/// The places from one on up to the end of its line, the next origin, or the next splice. A byte at an origin may stand for
/// several of the source, and is left out.
fn level_from(bytes: &[u8], origins: &[Origin], splices: &[u32], at: usize, before: Tally) -> Level
    requires mapped { IsMapped origins.now splices.now bytes.now }
    requires before { AreBefore origins.now splices.now bytes.now at before }
    requires within { at < length bytes.now }
    ensures level { IsLevel origins.now splices.now bytes.now result }
    ensures after { at < result.to }
    ensures line { result.line ≡ 1 + before.line_feeds + before.splices }
{
    let origin = origin_at(origins, before.origins, at as u32);
    let end = next_break(bytes, origins, splices, at, before);
    let (len, more) = line_feeds_to_end(&bytes[at..end]);
    let from = if at == origin.at as usize { at + 1 } else { at };
    Level {
        from,
        to: at + len,
        ahead: origin.ahead,
        line: (1 + before.line_feeds + before.splices) as u32,
        line_feeds: before.line_feeds + more,
    }
}
