//! Unified diffs of files that change and keep the number of their lines.
ghost use Rattle.std.specs.Prelude.{◌≡◌, ◌+◌, ◌≤◌, ◌<◌, ◌==◌, ◌∷◌, ◌&&◌, not, ℕ, List, [], if◌then◌else◌, length, take, drop, flat_map, IfSome, IfNone};
ghost use Rattle.std.specs.List.{list_all, list_any, prefix_len};
ghost use Rattle.inc_text.specs.declared.devices.TheConstants.{LONGEST_FILE};
ghost use Rattle.inc_answers.specs.PatchText as spec;
ghost use Rattle.inc_answers.specs.PatchText.{count_left, escape_letter, file_diff, first_place, goes_on, has_letter, head_text, hunk_of, hunks_from, is_changed, is_deleted, is_near, is_special, is_white, lines_of, marked_line, name_text, octal, patch_text, place_after, quoted_byte, range_text, row_text, rows_of, since_after};
ghost use Rattle.inc_answers.specs.Sending.{Sends};

use crate::changes::Change;
use crate::lines::send_number;
use crate::output::Output;
use inc_text::ByteSink;
use std::marker::Model;

/// So many lines stand before and after a change.
const CONTEXT: usize = 3;

/// A line of a file, before and after a change.
#[derive(Drop)]
struct Row<'a> {
    before: &'a [u8],
    after: &'a [u8],
}

impl<'a> Model for Row<'a> {
    ghost use Rattle.inc_answers.specs.PatchText as spec;

    ghost Value = { spec.Row };

    ghost view = { λ r. record { before = r.before.now; after = r.after.now } };
}

/// The lines that are left of a file, before and after a change.
#[derive(Drop)]
struct Rows<'a> {
    before: &'a [u8],
    after: &'a [u8],
}

impl<'a> Model for Rows<'a> {
    ghost use Rattle.std.specs.Prelude.{◌≤◌, List, length};
    ghost use Rattle.inc_text.specs.declared.devices.TheConstants.{LONGEST_FILE};
    ghost use Rattle.inc_answers.specs.PatchText.{Row, lines_of, rows_of};

    ghost Value = { List Row };

    ghost view = { λ r. rows_of (lines_of r.before.now) (lines_of r.after.now) };

    ghost invariant = { λ r. length r.before.now ≤ LONGEST_FILE };
}

impl<'a> Rows<'a> {
    /// The lines of a file with these bytes before and after a change.
    fn new(before: &'a [u8], after: &'a [u8]) -> Rows<'a>
        requires { length before.now ≤ LONGEST_FILE }
        ensures { result ≡ rows_of (lines_of before.now) (lines_of after.now) }
    {
        Rows { before, after }
    }

    /// The same lines once more.
    fn again(&self) -> Rows<'a>
        ensures same { result ≡ self.now }
        ensures few { length self.now ≤ LONGEST_FILE }
    {
        Rows {
            before: self.before,
            after: self.after,
        }
    }

    /// Takes the next line.
    fn next(&mut self) -> Option<Row<'a>>
        ensures next { IfSome result (λ row. self.old ≡ row ∷ self.new) }
        ensures end { IfNone result (self.old ≡ []) }
    {
        if self.before.is_empty() {
            return None;
        }
        if self.after.is_empty() {
            return None;
        }
        let (before, after) = (line_len(self.before), line_len(self.after));
        let row = Row {
            before: &self.before[..before],
            after: &self.after[..after],
        };
        self.before = &self.before[before..];
        self.after = &self.after[after..];
        Some(row)
    }
}

/// How many bytes are before the first LF of a text.
fn len_before_feed(text: &[u8]) -> usize
    ensures { result ≡ prefix_len goes_on text.now }
{
    text.iter().take_while(|byte| **byte != b'\n').count()
}

/// How long the first line of a text is, with its LF.
fn line_len(text: &[u8]) -> usize
    requires { 0 < length text.now }
    ensures cut { lines_of text.now ≡ take result text.now ∷ lines_of (drop result text.now) }
    ensures within { result ≤ length text.now }
{
    let end = len_before_feed(text);
    if end < text.len() { end + 1 } else { end }
}

/// Whether a line changes.
fn is_changed(row: &Row<'_>) -> bool
    ensures { result ≡ is_changed row.now }
{
    row.before != row.after
}

fn is_white(byte: u8) -> bool
    ensures { result ≡ is_white byte }
{
    byte == b' ' || (b'\t' <= byte && byte <= b'\r')
}

/// Whether there is nothing but white space.
fn is_bare(bytes: &[u8]) -> bool
    ensures { result ≡ list_all is_white bytes.now }
{
    bytes.iter().all(|byte| is_white(*byte))
}

/// Whether a line is deleted: it changes, and nothing but white space is left of it.
fn is_deleted(row: &Row<'_>) -> bool
    ensures { result ≡ is_deleted row.now }
{
    is_changed(row) && is_bare(row.after)
}

/// Whether the next line or one of the lines of context after it changes.
fn changes_soon(rows: &Rows<'_>) -> bool
    ensures { result ≡ list_any is_changed (take (CONTEXT + 1) rows.now) }
{
    let mut left = rows.again();
    for _ in 0..CONTEXT + 1 {
        let Some(row) = left.next() else {
            return false;
        };
        if is_changed(&row) {
            return true;
        }
    }
    false
}

/// Whether there is a next line, and few lines lie between it and a change. `since`: so many have not changed since the last change.
fn is_near(since: usize, rows: &Rows<'_>) -> bool
    ensures { result ≡ is_near since rows.now }
{
    match rows.again().next() {
        Some(_) => since < CONTEXT || changes_soon(rows),
        None => false,
    }
}

/// How many lines have not changed since the last change, after another line.
fn since_after(since: usize, row: &Row<'_>) -> usize
    requires { since < 2_147_483_648 }
    ensures { result ≡ since_after since row.now }
{
    if is_changed(row) { 0 } else { since + 1 }
}

/// How many lines a hunk has, before and after the change.
#[derive(Clone, Copy)]
struct Counts {
    old: usize,
    new: usize,
}

/// The same with another line.
fn with_row(counts: Counts, row: &Row<'_>) -> Counts
    requires old { counts.old < 2_147_483_648 }
    requires new { counts.new < 2_147_483_648 }
    ensures old { result.old ≡ counts.old + 1 }
    ensures new { result.new ≡ (if is_deleted row.now then counts.new else counts.new + 1) }
{
    Counts {
        old: counts.old + 1,
        new: if is_deleted(row) {
            counts.new
        } else {
            counts.new + 1
        },
    }
}

/// How many lines the hunk has that begins with the next line.
fn count_hunk(rows: &Rows<'_>, since: usize) -> Counts
    requires { since ≤ LONGEST_FILE + 3 }
    ensures old { result.old ≡ length (hunk_of since rows.now) }
    ensures new { result.new ≡ count_left (hunk_of since rows.now) }
{
    let mut counts = Counts { old: 0, new: 0 };
    let mut left = rows.again();
    let mut unchanged = since;
    while is_near(unchanged, &left) {
        let Some(row) = left.next() else {
            return counts;
        };
        counts = with_row(counts, &row);
        unchanged = since_after(unchanged, &row);
    }
    counts
}

/// Where a walk over the lines is.
#[derive(Clone, Copy)]
struct Place {
    /// The number of the next line before the change.
    old: usize,
    /// The number of the next line after the change.
    new: usize,
    /// So many lines have not changed since the last one that did.
    since: usize,
    /// Whether a hunk is open.
    is_open: bool,
}

/// The place after a line, which is one of a hunk or not.
fn place_after(place: Place, row: &Row<'_>, near: bool) -> Place
    requires old { place.old < 2_147_483_648 }
    requires new { place.new < 2_147_483_648 }
    requires since { place.since < 2_147_483_648 }
    ensures { result ≡ place_after place row.now near }
{
    Place {
        old: place.old + 1,
        new: if is_deleted(row) {
            place.new
        } else {
            place.new + 1
        },
        since: since_after(place.since, row),
        is_open: near,
    }
}

/// Sends the diffs of files that change.
pub fn send_patch<W: ByteSink>(out: &mut Output<W>, changes: &[Change<'_>])
    ensures { Sends out.old out.new (patch_text changes.now) }
{
    for change in changes {
        send_diff(out, change);
    }
}

/// Sends the diff of a file that changes.
fn send_diff<W: ByteSink>(out: &mut Output<W>, change: &Change<'_>)
    ensures { Sends out.old out.new (file_diff change.now) }
{
    out.send(b"--- ");
    send_name(out, b"a/", change.path);
    out.send(b"\n+++ ");
    send_name(out, b"b/", change.path);
    out.send(b"\n");
    send_hunks(out, &Rows::new(change.before, &change.after));
}

/// Sends a name as git writes it: in quotes where it has special bytes, and with a TAB after it where it has a space.
fn send_name<W: ByteSink>(out: &mut Output<W>, prefix: &[u8], path: &[u8])
    ensures { Sends out.old out.new (name_text prefix.now path.now) }
{
    if has_special(path) {
        out.send(b"\"");
        out.send(prefix);
        send_quoted(out, path);
        out.send(b"\"");
    } else {
        out.send(prefix);
        out.send(path);
    }
    if has_blank(path) {
        out.send(b"\t");
    }
}

fn has_special(path: &[u8]) -> bool
    ensures { result ≡ list_any is_special path.now }
{
    path.iter().any(|byte| is_special(*byte))
}

fn has_blank(path: &[u8]) -> bool
    ensures { result ≡ list_any (λ b. b == 32) path.now }
{
    path.iter().any(|byte| *byte == b' ')
}

/// Sends the bytes of a name in quotes.
fn send_quoted<W: ByteSink>(out: &mut Output<W>, path: &[u8])
    ensures { Sends out.old out.new (flat_map quoted_byte path.now) }
{
    for &byte in path {
        send_quoted_byte(out, byte);
    }
}

fn send_quoted_byte<W: ByteSink>(out: &mut Output<W>, byte: u8)
    ensures { Sends out.old out.new (quoted_byte byte) }
{
    if !is_special(byte) {
        out.send(&[byte]);
        return;
    }
    out.send(b"\\");
    if has_letter(byte) {
        out.send(&[escape_letter(byte)]);
    } else {
        out.send(&octal(byte));
    }
}

/// Whether a byte makes a name one in quotes.
fn is_special(byte: u8) -> bool
    ensures { result ≡ is_special byte }
{
    byte < b' ' || b'~' < byte || byte == b'"' || byte == b'\\'
}

/// Whether one character stands for a byte in quotes.
fn has_letter(byte: u8) -> bool
    ensures { result ≡ has_letter byte }
{
    (0x07 <= byte && byte <= b'\r') || byte == b'"' || byte == b'\\'
}

/// The character that stands for a byte in quotes.
fn escape_letter(byte: u8) -> u8
    ensures { result ≡ escape_letter byte }
{
    match byte {
        0x07 => b'a',
        0x08 => b'b',
        b'\t' => b't',
        b'\n' => b'n',
        0x0b => b'v',
        0x0c => b'f',
        b'\r' => b'r',
        other => other,
    }
}

/// A byte as three octal digits.
fn octal(byte: u8) -> [u8; 3]
    ensures { result ≡ octal byte }
{
    [b'0' + byte / 64, b'0' + byte / 8 % 8, b'0' + byte % 8]
}

/// Sends the hunks of a file with these lines.
fn send_hunks<W: ByteSink>(out: &mut Output<W>, rows: &Rows<'_>)
    ensures { Sends out.old out.new (hunks_from first_place rows.now) }
{
    let mut left = rows.again();
    let mut place = Place {
        old: 1,
        new: 1,
        since: CONTEXT,
        is_open: false,
    };
    loop {
        let near = is_near(place.since, &left);
        send_head_before(out, place, near, &left);
        let Some(row) = left.next() else {
            return;
        };
        send_row_in(out, near, &row);
        place = place_after(place, &row, near);
    }
}

/// Sends the head of the hunk that begins with the next line, if one does.
fn send_head_before<W: ByteSink>(out: &mut Output<W>, place: Place, near: bool, left: &Rows<'_>)
    requires { place.since ≤ LONGEST_FILE + 3 }
    ensures { Sends out.old out.new (if near && not place.is_open then head_text place (hunk_of place.since left.now) else []) }
{
    if near && !place.is_open {
        send_head(out, place, count_hunk(left, place.since));
    }
}

/// Sends what becomes of a line, if it is one of a hunk.
fn send_row_in<W: ByteSink>(out: &mut Output<W>, near: bool, row: &Row<'_>)
    ensures { Sends out.old out.new (if near then row_text row.now else []) }
{
    if near {
        send_row(out, row);
    }
}

/// Sends the head of a hunk that begins at a place.
fn send_head<W: ByteSink>(out: &mut Output<W>, place: Place, counts: Counts)
    ensures { (hunk : List spec.Row) → counts.old ≡ length hunk → counts.new ≡ count_left hunk →
        Sends out.old out.new (head_text place hunk) }
{
    out.send(b"@@ -");
    send_range(out, place.old, counts.old);
    out.send(b" +");
    send_range(out, place.new, counts.new);
    out.send(b" @@\n");
}

/// Sends the number of a first line and how many there are; of none the line before.
fn send_range<W: ByteSink>(out: &mut Output<W>, line: usize, count: usize)
    ensures { Sends out.old out.new (range_text line count) }
{
    if count == 1 {
        send_number(out, line as u64);
        return;
    }
    let first = if count == 0 {
        line.saturating_sub(1)
    } else {
        line
    };
    send_number(out, first as u64);
    out.send(b",");
    send_number(out, count as u64);
}

/// Sends what becomes of a line of a hunk.
fn send_row<W: ByteSink>(out: &mut Output<W>, row: &Row<'_>)
    ensures { Sends out.old out.new (row_text row.now) }
{
    if !is_changed(row) {
        send_marked(out, b" ", row.before);
        return;
    }
    send_marked(out, b"-", row.before);
    if !is_deleted(row) {
        send_marked(out, b"+", row.after);
    }
}

/// Sends a line after a mark, and that it has no LF where it has none.
fn send_marked<W: ByteSink>(out: &mut Output<W>, mark: &[u8], line: &[u8])
    ensures { (m : ℕ) → mark.now ≡ m ∷ [] → Sends out.old out.new (marked_line m line.now) }
{
    out.send(mark);
    out.send(line);
    if is_unended(line) {
        out.send(b"\n\\ No newline at end of file\n");
    }
}

fn is_unended(line: &[u8]) -> bool
    ensures { result ≡ list_all goes_on line.now }
{
    line.iter().all(|byte| *byte != b'\n')
}
