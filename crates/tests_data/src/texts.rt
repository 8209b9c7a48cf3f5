//! Answers for the text of a source.
use crate::lines::add_kind;
use crate::printing::{add_both, add_fault, add_printed};
use inc_directive::{DirectiveKind, FileFault, FileLines, LineKind, read_lines};
use inc_text::{Language, Text, splice};
use inc_token::{Prefix, text_lines};
use std::alloc::Global;
use tests_parts::{Stop, add, add_number, refusing};

/// Adds the places of the bytes of a text, by the text and by cursors.
pub fn add_places(alloc: Global, text: &Text, out: &mut Vec<u8>) -> Result<(), Stop> {
    add_places_by_text(alloc, text, out)?;
    add_places_by_cursor(alloc, text, out)
}

/// Adds what the text gives.
fn add_places_by_text(alloc: Global, text: &Text, out: &mut Vec<u8>) -> Result<(), Stop> {
    let _refusing = refusing(alloc)?;
    add(out, b"text")?;
    for at in 0..text.bytes().len() {
        let (first, last) = text.range_of(at);
        add_place(out, first, last, text.line_of(at))?;
    }
    Ok(())
}

/// Adds what cursors give that go forward, and back.
fn add_places_by_cursor(alloc: Global, text: &Text, out: &mut Vec<u8>) -> Result<(), Stop> {
    let mut back = Vec::new(alloc);
    add(out, b"\nforward")?;
    for at in 0..text.bytes().len() {
        let mut cursor = text.cursor();
        cursor.place_of(0);
        let place = cursor.place_of(at);
        let start = cursor.place_of(0);
        add_place(out, place.first, place.last, place.line)?;
        add_place(&mut back, start.first, start.last, start.line)?;
    }
    add(out, b"\nback")?;
    add(out, &back)?;
    add(out, b"\n")
}

/// Adds source bytes, from the first to the one after the last, and their line.
pub fn add_place(out: &mut Vec<u8>, first: u32, last: u32, line: u32) -> Result<(), Stop> {
    add(out, b" ")?;
    add_number(out, first as usize, b"-")?;
    add_number(out, last as usize, b"@")?;
    add_number(out, line as usize, b"")
}

/// Adds the directives of a text, or its fault.
pub fn add_prefixes(alloc: Global, text: &Text, out: &mut Vec<u8>) -> Result<(), Stop> {
    let mut prefixes = Vec::new(alloc);
    let mut lines = text_lines(text, Language::C17, 0);
    // A text has no more lines than bytes.
    for _ in 0..=text.bytes().len() {
        let next = match lines.next() {
            Ok(next) => next,
            Err(fault) => return add_fault(alloc, out, FileFault::from(fault)),
        };
        let Some(line) = next.line else {
            return add(out, &prefixes);
        };
        if let Some(prefix) = line.prefix {
            add_prefix(lines.line_of(prefix.hash), &prefix, &mut prefixes)?;
        }
    }
    Err(Stop)
}

/// Adds the line of a directive, its name and its operand.
fn add_prefix(line: u32, prefix: &Prefix<'_>, out: &mut Vec<u8>) -> Result<(), Stop> {
    add_number(out, line as usize, b"")?;
    if let Some(name) = prefix.name {
        add(out, b" ")?;
        add_printed(out, name)?;
    }
    if let Some(operand) = prefix.operand {
        add(out, b" ")?;
        add_printed(out, operand.spelling)?;
    }
    add(out, b"\n")
}

/// Adds the directives of a source that comes after 1 to 39 letters.
pub fn add_shifted(alloc: Global, source: &[u8], out: &mut Vec<u8>) -> Result<(), Stop> {
    for len in 1..40 {
        let mut shifted = vec![in alloc; b'a'; len]?;
        shifted.extend_from_slice(source)?;
        match splice(alloc, &shifted, Language::C17) {
            Ok(text) => add_prefixes(alloc, &text, out)?,
            Err(_) => return Err(Stop),
        }
    }
    Ok(())
}

/// Adds the directives of a source with their kinds, or its fault.
pub fn add_directives(alloc: Global, source: &[u8], out: &mut Vec<u8>) -> Result<(), Stop> {
    let c17 = directives_in(alloc, source, Language::C17)?;
    let extended = directives_in(alloc, source, Language::Extended)?;
    add_both(out, &c17, &extended)
}

/// Adds the directives of a source of GNU C with their kinds, or its fault.
pub fn add_gnu_directives(alloc: Global, source: &[u8], out: &mut Vec<u8>) -> Result<(), Stop> {
    add(out, &directives_in(alloc, source, Language::Gnu)?)
}

/// The directives of a source in a language, or its fault.
fn directives_in(alloc: Global, source: &[u8], language: Language) -> Result<Vec<u8>, Stop> {
    let mut out = Vec::new(alloc);
    let Ok(text) = splice(alloc, source, language) else {
        return Err(Stop);
    };
    match read_lines(alloc, text, language) {
        Err(fault) => add_fault(alloc, &mut out, fault)?,
        Ok(file) => add_directives_of(&file, &mut out)?,
    }
    Ok(out)
}

/// Adds the directives of a file: those that include as the walk over them gives them, and the others by their parts.
fn add_directives_of(file: &FileLines, out: &mut Vec<u8>) -> Result<(), Stop> {
    let mut inclusions = file.inclusions();
    for i in 0..file.count() {
        match file.kind(i) {
            LineKind::Text => {}
            LineKind::Include(..) | LineKind::Other(DirectiveKind::Foreign) =>
                match inclusions.next() {
                    Some(directive) => add_directive(directive.line, &directive.kind, out)?,
                    None => return Err(Stop),
                },
            kind => add_directive(file.first_line(i), &kind, out)?,
        }
    }
    Ok(())
}

/// Adds the line of a directive and its kind.
fn add_directive(line: u32, kind: &LineKind<'_>, out: &mut Vec<u8>) -> Result<(), Stop> {
    add_number(out, line as usize, b" ")?;
    add_kind(out, kind)
}
