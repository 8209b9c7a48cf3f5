//! The notes on headers that are not found.
ghost use Rattle.std.specs.Prelude.{◌≡◌, ◌<◌, ◌++◌, ◌∷◌, List, [], codes, decimal, flat_map, length, map, option_map, OnOk};
ghost use Rattle.std.specs.List.{All};
ghost use Rattle.inc_graph.specs.MissingLists as graphs;
ghost use Rattle.inc_graph.specs.MissingLists.{seen_missing};
ghost use Rattle.inc_answers.specs.MissingNames.{missing_names};
ghost use Rattle.inc_answers.specs.MissingNotes.{directory_before, empty_line, empty_lines, empty_words, found_line, found_note, hex_digit, missing_note, more_note, name_line, name_note, names_note, never_line, never_note, note_start, padding, shown, shown_byte, unreached_line, unreached_lines, unreached_words};
ghost use Rattle.inc_answers.specs.Views.{AreWithin, named_by, seen_name};

use crate::missing_names::{MOST_NAMES, MissingName, MissingNames, spelled};
use crate::useful_dirs::put_useful;
use inc_graph::{Blocker, HeaderName, Missing, MissingList};
use inc_lookup::Project;
use itoa::Buffer;
use std::alloc::{AllocError, Global};
use std::marker::Model;

/// Lines for standard error beside an answer.
#[derive(Drop)]
pub struct Notes {
    /// None where there are no lines: then no memory is taken.
    text: Option<Vec<u8>>,
}

impl Model for Notes {
    ghost use Rattle.std.specs.Prelude.{ℕ, List, []};
    ghost use Rattle.std.specs.Option.{option_map_or};

    ghost Value = { List ℕ };

    ghost view = { λ n. option_map_or (λ t. t.items) n.text [] };
}

impl Notes {
    /// No lines.
    pub fn none() -> Notes
        ensures { result ≡ [] }
    {
        Notes { text: None }
    }

    /// These lines.
    pub fn of(text: Vec<u8>) -> Notes
        ensures { result ≡ text.items }
    {
        Notes { text: Some(text) }
    }

    /// The lines.
    pub fn text(&self) -> &[u8]
        ensures { result.now ≡ self.now }
    {
        match &self.text {
            Some(text) => text,
            None => &[],
        }
    }
}

/// Adds what is noted where an answer takes headers that are not found as empty.
pub fn put_empty(
    text: &mut Vec<u8>,
    alloc: Global,
    project: &Project<'_>,
    missing: &MissingList,
) -> Result<(), AllocError>
    requires { All (λ (m : graphs.Missing). m.file < length project.now.paths) missing.now }
    ensures { OnOk result (text.new.items ≡ text.old.items ++ empty_lines project.now missing.now) }
{
    if missing.len() == 0 {
        return Ok(());
    }
    put_empty_line(text, missing.len())?;
    put_missing(text, alloc, project, missing)?;
    Ok(())
}

/// Adds what is noted where no header is reached, with these blockers and these headers that are not found.
pub fn put_unreached(
    text: &mut Vec<u8>,
    alloc: Global,
    project: &Project<'_>,
    is_whole: bool,
    blockers: &[Blocker],
    missing: &MissingList,
) -> Result<(), AllocError>
    requires { All (λ (m : graphs.Missing). m.file < length project.now.paths) missing.now }
    ensures { OnOk result (text.new.items ≡ text.old.items ++ unreached_lines is_whole project.now blockers.now missing.now) }
{
    if missing.len() == 0 {
        put_never(text, is_whole, blockers)?;
        return Ok(());
    }
    put_unreached_line(text, missing.len())?;
    put_missing(text, alloc, project, missing)?;
    Ok(())
}

/// Adds the note that no configuration leads to a header, where no blocker is and the files are read as they are.
fn put_never(text: &mut Vec<u8>, is_whole: bool, blockers: &[Blocker]) -> Result<(), AllocError>
    ensures { OnOk result (text.new.items ≡ text.old.items ++ never_note is_whole blockers.now) }
{
    match blockers {
        [] => put_never_if(text, is_whole),
        _ => Ok(()),
    }
}

/// That note, or none.
fn put_never_if(text: &mut Vec<u8>, is_whole: bool) -> Result<(), AllocError>
    ensures { OnOk result (text.new.items ≡ text.old.items ++ never_note is_whole []) }
{
    if is_whole {
        return put_never_line(text);
    }
    Ok(())
}

/// Adds the line that no configuration leads to a header.
fn put_never_line(text: &mut Vec<u8>) -> Result<(), AllocError>
    ensures { OnOk result (text.new.items ≡ text.old.items ++ never_line) }
{
    text.extend_from_slice(b"incut: note: ")?;
    text.extend_from_slice(b"not reached under any configuration")?;
    text.push(b'\n')?;
    Ok(())
}

/// Adds the first line, where the answer takes headers as empty.
fn put_empty_line(text: &mut Vec<u8>, count: usize) -> Result<(), AllocError>
    ensures { OnOk result (text.new.items ≡ text.old.items ++ empty_line count) }
{
    text.extend_from_slice(b"incut: note: ")?;
    put_number(text, count as u64)?;
    text.extend_from_slice(empty_words(count))?;
    text.push(b'\n')?;
    Ok(())
}

/// What follows the number of these directives.
fn empty_words(count: usize) -> &'static [u8]
    ensures { result.now ≡ empty_words count }
{
    if count == 1 {
        return b" include names a header that was not found; the answer takes it as empty:";
    }
    b" includes name headers that were not found; the answer takes them as empty:"
}

/// Adds the first line, where no header is reached.
fn put_unreached_line(text: &mut Vec<u8>, count: usize) -> Result<(), AllocError>
    ensures { OnOk result (text.new.items ≡ text.old.items ++ unreached_line count) }
{
    text.extend_from_slice(b"incut: note: ")?;
    text.extend_from_slice(b"not reached, but ")?;
    put_number(text, count as u64)?;
    text.extend_from_slice(unreached_words(count))?;
    text.push(b'\n')?;
    Ok(())
}

/// What follows the number of these directives.
fn unreached_words(count: usize) -> &'static [u8]
    ensures { result.now ≡ unreached_words count }
{
    if count == 1 {
        return b" include names a header that was not found:";
    }
    b" includes name headers that were not found:"
}

/// Adds the names of these directives, and with which directories most of them would be found.
fn put_missing(
    text: &mut Vec<u8>,
    alloc: Global,
    project: &Project<'_>,
    missing: &MissingList,
) -> Result<(), AllocError>
    requires { All (λ (m : graphs.Missing). m.file < length project.now.paths) missing.now }
    ensures { OnOk result (text.new.items ≡ text.old.items ++ missing_note project.now missing.now) }
{
    put_names(text, alloc, project, missing)?;
    put_useful(text, alloc, project, missing)
}

/// Adds the names of these directives.
fn put_names(
    text: &mut Vec<u8>,
    alloc: Global,
    project: &Project<'_>,
    missing: &MissingList,
) -> Result<(), AllocError>
    requires { All (λ (m : graphs.Missing). m.file < length project.now.paths) missing.now }
    ensures { OnOk result (text.new.items ≡ text.old.items ++ names_note project.now (missing_names missing.now)) }
{
    let names = MissingNames::of(alloc, project.seed(), missing)?;
    let first = names.first(alloc)?;
    put_each(text, alloc, project, missing, &first)?;
    // There are as many in `first` as names are listed.
    put_more(text, names.len() - first.len())?;
    Ok(())
}

/// Adds the lines of each of these names.
fn put_each(
    text: &mut Vec<u8>,
    alloc: Global,
    project: &Project<'_>,
    missing: &MissingList,
    first: &[MissingName],
) -> Result<(), AllocError>
    requires files { All (λ (m : graphs.Missing). m.file < length project.now.paths) missing.now }
    requires within { AreWithin (length missing.now) first.now }
    ensures { OnOk result (text.new.items
        ≡ text.old.items ++ flat_map (name_note project.now) (map (seen_name missing.now) first.now)) }
{
    for name in first {
        put_name(text, alloc, project, missing, *name)?;
    }
    Ok(())
}

/// Adds the lines of a name: how often it is named and where first, and what finds it.
fn put_name(
    text: &mut Vec<u8>,
    alloc: Global,
    project: &Project<'_>,
    missing: &MissingList,
    name: MissingName,
) -> Result<(), AllocError>
    requires files { All (λ (m : graphs.Missing). m.file < length project.now.paths) missing.now }
    requires place { name.place < length missing.now }
    ensures { OnOk result (text.new.items ≡ text.old.items ++ name_note project.now (seen_name missing.now name)) }
{
    let directive = missing.at(name.place);
    let header = directive.header;
    put_name_line(text, alloc, project, directive, name.count)?;
    put_found(text, project, header.name)
}

/// Adds the line that says how often a name is named, and where first.
fn put_name_line(
    text: &mut Vec<u8>,
    alloc: Global,
    project: &Project<'_>,
    directive: Missing<HeaderName<'_>>,
    count: usize,
) -> Result<(), AllocError>
    requires { directive.file < length project.now.paths }
    ensures { OnOk result (text.new.items ≡ text.old.items ++ name_line project.now (named_by (seen_missing directive.entry) count)) }
{
    let written = spelled(alloc, directive.header)?;
    put_count(text, count)?;
    put_shown(text, &written)?;
    text.extend_from_slice(b"  first at ")?;
    put_shown(text, project.path(directive.file))?;
    text.extend_from_slice(b":")?;
    put_number(text, u64::from(directive.line))?;
    text.push(b'\n')?;
    Ok(())
}

/// Adds the start of a line and a number in four columns.
fn put_count(text: &mut Vec<u8>, count: usize) -> Result<(), AllocError>
    ensures { OnOk result (text.new.items ≡ text.old.items ++ (note_start ++ padding count ++ decimal count ++ codes "  ")) }
{
    text.extend_from_slice(b"incut: note: ")?;
    text.extend_from_slice(padding(count))?;
    put_number(text, count as u64)?;
    text.extend_from_slice(b"  ")?;
    Ok(())
}

/// The spaces before a number, so that it takes four columns.
fn padding(n: usize) -> &'static [u8]
    ensures { result.now ≡ padding n }
{
    if n < 10 {
        return b"   ";
    }
    if n < 100 {
        return b"  ";
    }
    if n < 1000 {
        return b" ";
    }
    b""
}

/// Adds a number.
pub fn put_number(text: &mut Vec<u8>, n: u64) -> Result<(), AllocError>
    ensures { OnOk result (text.new.items ≡ text.old.items ++ decimal n) }
{
    let mut buffer = Buffer::new();
    text.extend_from_slice(buffer.format(n).as_bytes())?;
    Ok(())
}

/// Adds how many names more there are, if there are more.
fn put_more(text: &mut Vec<u8>, count: usize) -> Result<(), AllocError>
    ensures { OnOk result (text.new.items ≡ text.old.items ++ more_note count) }
{
    if count == 0 {
        return Ok(());
    }
    put_more_line(text, count)
}

/// Adds the line that says how many names more there are.
fn put_more_line(text: &mut Vec<u8>, count: usize) -> Result<(), AllocError>
    ensures { OnOk result (text.new.items ≡ text.old.items ++ (note_start ++ codes ".. and " ++ decimal count ++ codes " more" ++ 10 ∷ [])) }
{
    text.extend_from_slice(b"incut: note: ")?;
    text.extend_from_slice(b".. and ")?;
    put_number(text, count as u64)?;
    text.extend_from_slice(b" more")?;
    text.push(b'\n')?;
    Ok(())
}

/// Adds the line on the first file of the project that is found by a name, if there is one.
fn put_found(text: &mut Vec<u8>, project: &Project<'_>, name: &[u8]) -> Result<(), AllocError>
    ensures { OnOk result (text.new.items ≡ text.old.items ++ found_note project.now.paths name.now) }
{
    for place in 0..project.count() {
        let path = match project.at(place) {
            Some(file) => project.path(file),
            None => unreachable!(),
        };
        if let Some(dir) = directory_before(name, path) {
            return put_found_line(text, path, dir);
        }
    }
    Ok(())
}

/// The directory in which a file with this path is found by a name.
fn directory_before<'p>(name: &[u8], path: &'p [u8]) -> Option<&'p [u8]>
    ensures { option_map (λ dir. dir.now) result ≡ directory_before name.now path.now }
{
    if path == name {
        return Some(b".");
    }
    if path.len() <= name.len() || path.len() - name.len() < 2 {
        return None;
    }
    let end = path.len() - name.len() - 1;
    if path[end] != b'/' || &path[end + 1..] != name {
        return None;
    }
    Some(&path[..end])
}

/// Adds the line that says by which option a file is found.
fn put_found_line(text: &mut Vec<u8>, path: &[u8], dir: &[u8]) -> Result<(), AllocError>
    ensures { OnOk result (text.new.items ≡ text.old.items ++ found_line path.now dir.now) }
{
    text.extend_from_slice(b"incut: note: ")?;
    text.extend_from_slice(b"      found as ")?;
    put_shown(text, path)?;
    text.extend_from_slice(b": -I ")?;
    put_shown(text, dir)?;
    text.push(b'\n')?;
    Ok(())
}

/// Adds bytes as they are shown on a line.
pub fn put_shown(text: &mut Vec<u8>, bytes: &[u8]) -> Result<(), AllocError>
    ensures { OnOk result (text.new.items ≡ text.old.items ++ shown bytes.now) }
{
    for byte in bytes {
        put_byte(text, *byte)?;
    }
    Ok(())
}

/// Adds a byte as it is, or as `\xNN` where it is no printable ASCII.
pub fn put_byte(text: &mut Vec<u8>, byte: u8) -> Result<(), AllocError>
    ensures { OnOk result (text.new.items ≡ text.old.items ++ shown_byte byte) }
{
    if 31 < byte && byte < 127 {
        text.push(byte)?;
        return Ok(());
    }
    text.extend_from_slice(b"\\x")?;
    text.push(hex_digit(byte / 16))?;
    text.push(hex_digit(byte % 16))?;
    Ok(())
}

/// A digit in base 16.
pub fn hex_digit(n: u8) -> u8
    requires { n < 16 }
    ensures { result ≡ hex_digit n }
{
    if n < 10 { 48 + n } else { 87 + n }
}
