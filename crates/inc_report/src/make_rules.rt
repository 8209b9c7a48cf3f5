//! Rules for make, as `gcc -MD` writes them.
ghost use Rattle.std.specs.Prelude.{◌≡◌, ◌<◌, ◌++◌, ◌∷◌, ◌&&◌, ◌||◌, ◌==◌, ℕ, List, if◌then◌else◌, length, map, reverse, IfOk, IfSome, OnOk, ◌+◌};
ghost use Rattle.inc_lookup.specs.Projects.{path_at};
ghost use Rattle.inc_report.specs.MakeRules.{each_once, escape, escaped, is_blank, last_component, last_place, object_of, outcome_rule, rule_of, stem, wrapped};

use inc_lookup::{FileId, Project};
use inc_pp::Outcome;
use inc_text::SeededState;
use indexmap::IndexSet;
use std::alloc::{AllocError, Global};

/// How many bytes of a line come before the last name on it.
const MOST_COLUMNS: usize = 72;

/// The rule of an outcome; nothing where it stopped.
pub(crate) fn outcome_rule(
    alloc: Global,
    project: &Project<'_>,
    outcome: &Outcome,
) -> Result<Vec<u8>, AllocError>
    ensures { IfOk result (λ rule. rule.items ≡ outcome_rule project.now outcome.now) }
{
    match outcome.stop() {
        Some(_) => Ok(Vec::new(alloc)),
        None => rule_of(alloc, project, outcome.reads()),
    }
}

/// The rule of a source for which these files were read, itself first.
fn rule_of(alloc: Global, project: &Project<'_>, reads: &[FileId]) -> Result<Vec<u8>, AllocError>
    ensures { IfOk result (λ rule. rule.items ≡ rule_of project.now reads.now) }
{
    if reads.is_empty() {
        return Ok(Vec::new(alloc));
    }
    let files = each_once(alloc, project.seed(), reads)?;
    let mut rule = object_of(alloc, path_of(project, reads[0]))?;
    let column = rule.len() + 1;
    rule.push(b':')?;
    put_names(&mut rule, alloc, project, &files, column)?;
    rule.push(b'\n')?;
    Ok(rule)
}

/// The path of a file; none where it is of another project.
pub(crate) fn path_of<'p>(project: &'p Project<'_>, file: FileId) -> &'p [u8]
    ensures { result.now ≡ path_at project.now file }
{
    if file.index() < project.count() {
        project.path(file)
    } else {
        b""
    }
}

/// Each file once, in the order in which they come first. The seed is that of a table.
fn each_once(alloc: Global, seed: u64, reads: &[FileId]) -> Result<Vec<FileId>, AllocError>
    ensures { IfOk result (λ files. files.items ≡ each_once reads.now) }
{
    let mut known = IndexSet::with_hasher(alloc, SeededState::new(seed));
    let mut files = Vec::new(alloc);
    for file in reads {
        if known.insert(file.index())? {
            files.push(*file)?;
        }
    }
    Ok(files)
}

/// Adds the names of files, each behind a space. So many bytes are on the line already.
fn put_names(
    rule: &mut Vec<u8>,
    alloc: Global,
    project: &Project<'_>,
    files: &[FileId],
    column: usize,
) -> Result<(), AllocError>
    ensures { OnOk result (rule.new.items ≡ rule.old.items ++ wrapped column (map (λ f. escaped (path_at project.now f)) files.now)) }
{
    let mut column = column;
    for file in files {
        let name = escaped(alloc, path_of(project, *file))?;
        column = put_name(rule, column, &name)?;
    }
    Ok(())
}

/// Adds a name behind a space, on a new line where it would end behind the last column. Says how many bytes are on the line then.
fn put_name(rule: &mut Vec<u8>, column: usize, name: &[u8]) -> Result<usize, AllocError>
    ensures { IfOk result (λ after. (more : List (List ℕ)) →
        rule.new.items ++ wrapped after more ≡ rule.old.items ++ wrapped column (name.now ∷ more)) }
{
    let fits = column <= MOST_COLUMNS && name.len() <= MOST_COLUMNS - column;
    let start = if fits { column } else { 0 };
    if !fits {
        rule.extend_from_slice(b" \\\n")?;
    }
    rule.push(b' ')?;
    rule.extend_from_slice(name)?;
    Ok(start + name.len() + 1)
}

/// The object file of a source, as make reads it.
fn object_of(alloc: Global, path: &[u8]) -> Result<Vec<u8>, AllocError>
    ensures { IfOk result (λ name. name.items ≡ escaped (object_of path.now)) }
{
    let mut name = Vec::new(alloc);
    name.extend_from_slice(stem(last_component(path)))?;
    name.extend_from_slice(b".o")?;
    escaped(alloc, &name)
}

/// What follows the last `/` of a path.
fn last_component(path: &[u8]) -> &[u8]
    ensures { result.now ≡ last_component path.now }
{
    match last_place(path, b'/') {
        Some(place) => &path[place + 1..],
        None => path,
    }
}

/// What is before the last `.` of a name.
fn stem(name: &[u8]) -> &[u8]
    ensures { result.now ≡ stem name.now }
{
    match last_place(name, b'.') {
        Some(place) => &name[..place],
        None => name,
    }
}

/// The place of the last such byte.
fn last_place(text: &[u8], byte: u8) -> Option<usize>
    ensures place { result ≡ last_place text.now byte }
    ensures within { IfSome result (λ place. place < length text.now) }
{
    let mut end = text.len();
    while end > 0 {
        if text[end - 1] == byte {
            return Some(end - 1);
        }
        end -= 1;
    }
    None
}

/// A name as make reads it. It is gone through from its end, since what is before a blank shows there.
fn escaped(alloc: Global, name: &[u8]) -> Result<Vec<u8>, AllocError>
    ensures { IfOk result (λ text. text.items ≡ escaped name.now) }
{
    let mut text = Vec::new(alloc);
    let mut before_blank = false;
    let mut end = name.len();
    while end > 0 {
        end -= 1;
        let byte = name[end];
        put_escaped(&mut text, byte, before_blank)?;
        before_blank = leads_to_blank(byte, before_blank);
    }
    text.reverse();
    Ok(text)
}

/// Adds a byte and what stands before it, the last byte first.
fn put_escaped(text: &mut Vec<u8>, byte: u8, before_blank: bool) -> Result<(), AllocError>
    ensures { OnOk result (reverse text.new.items ≡ escape byte before_blank ++ byte ∷ reverse text.old.items) }
{
    text.push(byte)?;
    if needs_backslash(byte, before_blank) {
        text.push(b'\\')?;
        return Ok(());
    }
    if byte == b'$' {
        text.push(b'$')?;
    }
    Ok(())
}

/// Whether a backslash stands before a byte.
fn needs_backslash(byte: u8, before_blank: bool) -> bool
    ensures { result ≡ (is_blank byte || (byte == 35 || (byte == 92 && before_blank))) }
{
    is_blank(byte) || byte == b'#' || byte == b'\\' && before_blank
}

/// Whether a blank comes from a byte on, or is behind backslashes.
fn leads_to_blank(byte: u8, before_blank: bool) -> bool
    ensures { result ≡ (is_blank byte || (byte == 92 && before_blank)) }
{
    is_blank(byte) || byte == b'\\' && before_blank
}

/// Whether a byte is a space or a tab.
fn is_blank(byte: u8) -> bool
    ensures { result ≡ is_blank byte }
{
    byte == b' ' || byte == b'\t'
}
