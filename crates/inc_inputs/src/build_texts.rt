//! What is reported and noted of a build.
ghost use Rattle.std.specs.Prelude.{◌≡◌, ◌≢◌, ◌++◌, List, ℕ, suc, IfOk, OnOk, codes, decimal, map, nat_lt};
ghost use Rattle.inc_build.specs.Views.{seen_entry};
ghost use Rattle.inc_inputs.specs.BuildNotes as kept;
ghost use Rattle.inc_inputs.specs.BuildProjects.{file_at};
ghost use Rattle.inc_inputs.specs.BuildReports as spec;
ghost use Rattle.inc_inputs.specs.Reports.{note_line, out_of_memory, report_of, shown};
ghost use Rattle.inc_inputs.specs.Views.{notes_in};

use crate::build_grounds::COMMAND;
use crate::failures::{Failure, put_shown};
use inc_build::{DatabaseFault, Entry, EntryFault, Kind};
use itoa::Buffer;
use std::alloc::{AllocError, Global};

/// How many notes of one sort are written.
const MOST_NOTES: usize = 10;

/// A number and one more, unless there is none.
pub(crate) fn one_more(number: usize) -> Result<usize, AllocError>
    ensures { IfOk result (λ next. next ≡ suc number) }
{
    match number.checked_add(1) {
        Some(next) => Ok(next),
        None => Err(AllocError),
    }
}

/// Adds a number.
pub(crate) fn put_number(text: &mut Vec<u8>, number: usize) -> Result<(), AllocError>
    ensures { OnOk result (text.new.items ≡ text.old.items ++ decimal number) }
{
    let mut buffer = Buffer::new();
    text.extend_from_slice(buffer.format(number).as_bytes())
}

/// The failure to report of the database of this path.
pub(crate) fn about(alloc: Global, name: &[u8], text: &[u8]) -> Failure
    ensures { report_of result ≢ out_of_memory → report_of result ≡ spec.about_build name.now text.now }
{
    match about_text(alloc, name, text) {
        Ok(text) => Failure::Build(text),
        Err(_) => Failure::NoMemory,
    }
}

/// A text about the database of this path.
fn about_text(alloc: Global, name: &[u8], text: &[u8]) -> Result<Vec<u8>, AllocError>
    ensures { IfOk result (λ all. all.items ≡ name.now ++ codes ": " ++ text.now) }
{
    let mut all = Vec::from_slice(alloc, name)?;
    all.extend_from_slice(b": ")?;
    all.extend_from_slice(text)?;
    Ok(all)
}

/// The same of a text for which there may be no memory.
fn about_made(alloc: Global, name: &[u8], text: Result<Vec<u8>, AllocError>) -> Failure
    ensures { (of : List ℕ) → IfOk text (λ t. t.items ≡ of) →
        report_of result ≢ out_of_memory → report_of result ≡ spec.about_build name.now of }
{
    match text {
        Ok(text) => about(alloc, name, &text),
        Err(_) => Failure::NoMemory,
    }
}

/// The failure to report of the first fault of a database.
pub(crate) fn database_failure(alloc: Global, name: &[u8], fault: DatabaseFault) -> Failure
    ensures { report_of result ≢ out_of_memory → report_of result ≡ spec.database_report name.now fault }
{
    match fault {
        DatabaseFault::NoJson { line, column } => {
            about_made(alloc, name, no_json_text(alloc, line, column))
        }
        DatabaseFault::NoArray => about(alloc, name, b"no array"),
        DatabaseFault::BadEntry { number, fault } => {
            about_made(alloc, name, entry_text(alloc, number, fault_text(fault)))
        }
        DatabaseFault::NoMemory => Failure::NoMemory,
    }
}

/// Where a database is no JSON.
fn no_json_text(alloc: Global, line: usize, column: usize) -> Result<Vec<u8>, AllocError>
    ensures { IfOk result (λ text. text.items ≡ decimal line ++ codes ":" ++ decimal column ++ codes ": no JSON") }
{
    let mut text = Vec::new(alloc);
    put_number(&mut text, line)?;
    text.extend_from_slice(b":")?;
    put_number(&mut text, column)?;
    text.extend_from_slice(b": no JSON")?;
    Ok(text)
}

/// A text about an entry.
fn entry_text(alloc: Global, number: usize, about: &[u8]) -> Result<Vec<u8>, AllocError>
    ensures { IfOk result (λ text. text.items ≡ codes "entry " ++ decimal number ++ codes ": " ++ about.now) }
{
    let mut text = Vec::from_slice(alloc, b"entry ")?;
    put_number(&mut text, number)?;
    text.extend_from_slice(b": ")?;
    text.extend_from_slice(about)?;
    Ok(text)
}

/// The fault of an entry.
fn fault_text(fault: EntryFault) -> &'static [u8]
    ensures { result.now ≡ spec.entry_text fault }
{
    match fault {
        EntryFault::NoObject => b"no object",
        EntryFault::NoDirectory => b"no \"directory\"",
        EntryFault::LongDirectory => b"\"directory\" longer than 4096 bytes",
        EntryFault::NoFile => b"no \"file\"",
        EntryFault::NoCommand => b"neither \"arguments\" nor \"command\"",
        EntryFault::OpenQuote => b"unterminated quote in \"command\"",
        EntryFault::NoMemory => b"out of memory",
    }
}

/// The option of compilers with a value of a kind, up to that value.
pub(crate) fn option_front(kind: Kind) -> &'static [u8]
    ensures { result.now ≡ spec.option_front kind }
{
    match kind {
        Kind::Quoted => b"-iquote ",
        Kind::Searched => b"-I ",
        Kind::System => b"-isystem ",
        Kind::Last => b"-idirafter ",
        Kind::Macros => b"-imacros ",
        Kind::Included => b"-include ",
        Kind::Defined => b"-D ",
        Kind::Undefined => b"-U ",
    }
}

/// The failure to report of an option of an entry that is not supported, with its value, or of `@` and a path. The
/// number of the entry is from 0 on.
pub(crate) fn unsupported(
    alloc: Global,
    name: &[u8],
    entry: usize,
    front: &[u8],
    value: &[u8],
) -> Failure
    ensures { report_of result ≢ out_of_memory →
        report_of result ≡ spec.unsupported name.now (suc entry) (front.now ++ shown value.now) }
{
    about_made(
        alloc,
        name,
        unsupported_text(alloc, name, entry, front, value),
    )
}

/// The text of that.
fn unsupported_text(
    alloc: Global,
    name: &[u8],
    entry: usize,
    front: &[u8],
    value: &[u8],
) -> Result<Vec<u8>, AllocError>
    ensures { IfOk result (λ text. text.items
        ≡ spec.entry_front name.now (suc entry) ++ (front.now ++ shown value.now) ++ codes " is not supported") }
{
    let mut text = entry_front(alloc, name, entry)?;
    text.extend_from_slice(front)?;
    put_shown(&mut text, value)?;
    text.extend_from_slice(b" is not supported")?;
    Ok(text)
}

/// What begins a text about an entry, by its number from 0 on; nothing where the build is a compiler's command, which has but one.
fn entry_front(alloc: Global, name: &[u8], entry: usize) -> Result<Vec<u8>, AllocError>
    ensures { IfOk result (λ text. text.items ≡ spec.entry_front name.now (suc entry)) }
{
    if is_command(name) {
        return Ok(Vec::new(alloc));
    }
    entry_text(alloc, one_more(entry)?, b"")
}

/// Whether the build is a compiler's command.
fn is_command(name: &[u8]) -> bool
    ensures { result ≡ spec.is_command name.now }
{
    name == COMMAND
}

/// The word that stands for a build in notes and reports.
fn build_word(name: &[u8]) -> &'static [u8]
    ensures { result.now ≡ spec.build_word name.now }
{
    if is_command(name) { COMMAND } else { b"-p" }
}

/// The failure to report of two entries, by their numbers from 0 on, that do not agree.
pub(crate) fn unlike(
    alloc: Global,
    name: &[u8],
    entries: &[Entry<'_>],
    first: usize,
    second: usize,
    why: &[u8],
) -> Failure
    ensures { let es = map seen_entry entries.now in report_of result ≢ out_of_memory →
        report_of result ≡ spec.two_entries name.now (suc first) (suc second) (file_at es first) (file_at es second) why.now }
{
    about_made(alloc, name, unlike_text(alloc, entries, first, second, why))
}

/// The text of that.
fn unlike_text(
    alloc: Global,
    entries: &[Entry<'_>],
    first: usize,
    second: usize,
    why: &[u8],
) -> Result<Vec<u8>, AllocError>
    ensures { let es = map seen_entry entries.now in IfOk result (λ text. text.items
        ≡ codes "entries " ++ spec.numbered (suc first) (file_at es first) ++ codes " and "
        ++ spec.numbered (suc second) (file_at es second) ++ why.now) }
{
    let mut text = Vec::from_slice(alloc, b"entries ")?;
    put_entry(&mut text, entries, first)?;
    text.extend_from_slice(b" and ")?;
    put_entry(&mut text, entries, second)?;
    text.extend_from_slice(why)?;
    Ok(text)
}

/// Adds an entry by its number from 0 on.
fn put_entry(text: &mut Vec<u8>, entries: &[Entry<'_>], number: usize) -> Result<(), AllocError>
    ensures { OnOk result (text.new.items
        ≡ text.old.items ++ spec.numbered (suc number) (file_at (map seen_entry entries.now) number)) }
{
    put_number(text, one_more(number)?)?;
    text.extend_from_slice(b" (")?;
    put_shown(text, file_of(entries, number))?;
    text.extend_from_slice(b")")
}

/// The source of an entry by its number; none where there is no such entry.
fn file_of<'e>(entries: &'e [Entry<'_>], number: usize) -> &'e [u8]
    ensures { result.now ≡ file_at (map seen_entry entries.now) number }
{
    match entries.get(number) {
        Some(entry) => entry.file,
        None => b"",
    }
}

/// Notes of one sort: the first ten, and how many there are.
#[derive(Drop)]
pub(crate) struct Notes {
    text: Vec<u8>,
    count: usize,
}

impl Notes {
    /// None.
    pub(crate) fn new(alloc: Global) -> Notes
        ensures { notes_in result ≡ kept.none }
    {
        Notes {
            text: Vec::new(alloc),
            count: 0,
        }
    }

    /// Adds that an option is skipped in so many entries of the build with this name.
    pub(crate) fn add_skipped(
        &mut self,
        alloc: Global,
        name: &[u8],
        word: &[u8],
        count: usize,
    ) -> Result<(), AllocError>
        ensures { OnOk result (notes_in self.new ≡ kept.with_line (notes_in self.old) (spec.skipped_line name.now (word.now, count))) }
    {
        let line = skipped_line(alloc, name, word, count)?;
        self.add(&line)
    }

    /// Adds that no file of the project is below a directory.
    pub(crate) fn add_empty(
        &mut self,
        alloc: Global,
        option: &[u8],
        dir: &[u8],
    ) -> Result<(), AllocError>
        ensures { OnOk result (notes_in self.new ≡ kept.with_line (notes_in self.old) (spec.empty_line option.now dir.now)) }
    {
        let line = empty_line(alloc, option, dir)?;
        self.add(&line)
    }

    /// Whether one more line is kept, and not only counted.
    pub(crate) fn has_room(&self) -> bool
        ensures { result ≡ nat_lt self.now.count 10 }
    {
        self.count < MOST_NOTES
    }

    /// Adds a line, if it is one of the first.
    pub(crate) fn add(&mut self, line: &[u8]) -> Result<(), AllocError>
        ensures { OnOk result (notes_in self.new ≡ kept.with_line (notes_in self.old) line.now) }
    {
        let count = one_more(self.count)?;
        if self.count < MOST_NOTES {
            put_note(&mut self.text, line)?;
        }
        self.count = count;
        Ok(())
    }

    /// Adds them to others.
    pub(crate) fn put(&self, alloc: Global, notes: &mut Vec<u8>) -> Result<(), AllocError>
        ensures { OnOk result (notes.new.items ≡ notes.old.items ++ kept.whole (notes_in self.now)) }
    {
        notes.extend_from_slice(&self.text)?;
        if self.count > MOST_NOTES {
            put_note(notes, &more_line(alloc, self.count - MOST_NOTES)?)?;
        }
        Ok(())
    }
}

/// Adds a note.
pub(crate) fn put_note(notes: &mut Vec<u8>, line: &[u8]) -> Result<(), AllocError>
    ensures { OnOk result (notes.new.items ≡ notes.old.items ++ note_line line.now) }
{
    notes.extend_from_slice(b"incut: note: ")?;
    notes.extend_from_slice(line)?;
    notes.push(b'\n')?;
    Ok(())
}

/// How many notes there are more.
fn more_line(alloc: Global, count: usize) -> Result<Vec<u8>, AllocError>
    ensures { IfOk result (λ line. line.items ≡ spec.more_line count) }
{
    let mut line = Vec::from_slice(alloc, b".. and ")?;
    put_number(&mut line, count)?;
    line.extend_from_slice(b" more")?;
    Ok(line)
}

/// An option that is skipped, and in how many entries.
fn skipped_line(
    alloc: Global,
    name: &[u8],
    word: &[u8],
    count: usize,
) -> Result<Vec<u8>, AllocError>
    ensures { IfOk result (λ line. line.items ≡ spec.skipped_line name.now (word.now, count)) }
{
    let mut line = Vec::from_slice(alloc, build_word(name))?;
    line.extend_from_slice(b": skipped ")?;
    put_shown(&mut line, word)?;
    put_entries(&mut line, name, count)?;
    Ok(line)
}

/// Adds in how many entries that is, where there may be several.
fn put_entries(line: &mut Vec<u8>, name: &[u8], count: usize) -> Result<(), AllocError>
    ensures { OnOk result (line.new.items ≡ line.old.items ++ spec.entries_text name.now count) }
{
    if is_command(name) {
        return Ok(());
    }
    line.extend_from_slice(b" (")?;
    put_counted(line, count, b" entry)", b" entries)")
}

/// A directory below which no file of the project is.
fn empty_line(alloc: Global, option: &[u8], dir: &[u8]) -> Result<Vec<u8>, AllocError>
    ensures { IfOk result (λ line. line.items ≡ spec.empty_line option.now dir.now) }
{
    let mut line = Vec::from_slice(alloc, option)?;
    line.extend_from_slice(b" ")?;
    put_shown(&mut line, dir)?;
    line.extend_from_slice(b": no file of the project lies there")?;
    Ok(line)
}

/// Adds a note of how many sources are no files of the project, if there are some.
pub(crate) fn put_absent(
    alloc: Global,
    notes: &mut Vec<u8>,
    name: &[u8],
    count: usize,
) -> Result<(), AllocError>
    ensures { OnOk result (notes.new.items ≡ notes.old.items ++ spec.absent_notes name.now count) }
{
    if count > 0 {
        put_note(notes, &absent_line(alloc, name, count)?)?;
    }
    Ok(())
}

/// How many sources are no files of the project.
fn absent_line(alloc: Global, name: &[u8], count: usize) -> Result<Vec<u8>, AllocError>
    ensures { IfOk result (λ line. line.items ≡ spec.absent_line name.now count) }
{
    let mut line = Vec::from_slice(alloc, build_word(name))?;
    line.extend_from_slice(b": ")?;
    put_counted(
        &mut line,
        count,
        b" source is no file of the project",
        b" sources are no files of the project",
    )?;
    Ok(line)
}

/// Adds how many of something there are.
pub(crate) fn put_counted(
    text: &mut Vec<u8>,
    count: usize,
    one: &[u8],
    several: &[u8],
) -> Result<(), AllocError>
    ensures { OnOk result (text.new.items ≡ text.old.items ++ spec.counted count one.now several.now) }
{
    put_number(text, count)?;
    if count == 1 {
        text.extend_from_slice(one)
    } else {
        text.extend_from_slice(several)
    }
}
