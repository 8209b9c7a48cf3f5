//! Notes of a list of files that git has quoted, or that is none, and why such a list makes no project.
ghost use Rattle.std.specs.Prelude.{◌≡◌, ◌≢◌, ◌++◌, ℕ, List, Err, Some, IfOk, OnOk, codes, map, option_map};
ghost use Rattle.std.specs.Borrow.{Bor};
ghost use Rattle.std.specs.List.{list_any};
ghost use Rattle.inc_args.specs.Views.{seen_files};
ghost use Rattle.inc_inputs.specs.ListNotes as spec;
ghost use Rattle.inc_inputs.specs.Reports.{out_of_memory, report_of};
ghost use Rattle.inc_inputs.specs.Views.{seen_layout};

use crate::build_texts::put_note;
use crate::failures::{Failure, put_shown};
use crate::place_words::{is_between, unspaced};
use crate::projects::listed_project;
use inc_args::FileList;
use inc_lookup::{NamedPath, Project};
use std::alloc::{AllocError, Global};

/// Adds notes of the list that a word names, by its paths as they are written.
pub(crate) fn put_list(
    alloc: Global,
    files: &FileList<'_>,
    written: &[&[u8]],
    notes: &mut Vec<u8>,
) -> Result<(), AllocError>
    ensures { OnOk result (notes.new.items ≡ notes.old.items ++ spec.list_notes (seen_files files.now) (map (λ p. p.now) written.now)) }
{
    match files.list {
        Some(name) => put_named(alloc, name.as_bytes(), files.is_null, written, notes),
        None => Ok(()),
    }
}

/// The same of a list of this name.
fn put_named(
    alloc: Global,
    name: &[u8],
    is_null: bool,
    written: &[&[u8]],
    notes: &mut Vec<u8>,
) -> Result<(), AllocError>
    ensures { let paths = map (λ p. p.now) written.now in OnOk result (notes.new.items
        ≡ notes.old.items ++ (spec.json_notes name.now paths ++ spec.quoted_notes name.now is_null paths)) }
{
    put_json(alloc, name, written, notes)?;
    put_quoted(alloc, name, is_null, written, notes)?;
    Ok(())
}

/// Adds that a list looks like JSON.
fn put_json(
    alloc: Global,
    name: &[u8],
    written: &[&[u8]],
    notes: &mut Vec<u8>,
) -> Result<(), AllocError>
    ensures { OnOk result (notes.new.items ≡ notes.old.items ++ spec.json_notes name.now (map (λ p. p.now) written.now)) }
{
    if looks_like_json(written) {
        put_note(notes, &json_text(alloc, name)?)?;
    }
    Ok(())
}

/// What is noted of a list of this name that looks like JSON.
fn json_text(alloc: Global, name: &[u8]) -> Result<Vec<u8>, AllocError>
    ensures { IfOk result (λ text. text.items ≡ spec.json_text name.now) }
{
    let mut text = Vec::new(alloc);
    put_shown(&mut text, name)?;
    text.extend_from_slice(b" looks like JSON; did you mean -p DIR?")?;
    Ok(text)
}

/// Adds that git has quoted names of a list.
fn put_quoted(
    alloc: Global,
    name: &[u8],
    is_null: bool,
    written: &[&[u8]],
    notes: &mut Vec<u8>,
) -> Result<(), AllocError>
    ensures { OnOk result (notes.new.items ≡ notes.old.items ++ spec.quoted_notes name.now is_null (map (λ p. p.now) written.now)) }
{
    if !is_null && has_quoted(written) {
        put_note(notes, &quoted_text(alloc, name)?)?;
    }
    Ok(())
}

/// What is noted of a list of this name with quoted names.
fn quoted_text(alloc: Global, name: &[u8]) -> Result<Vec<u8>, AllocError>
    ensures { IfOk result (λ text. text.items ≡ spec.quoted_text name.now) }
{
    let mut text = Vec::new(alloc);
    put_shown(&mut text, name)?;
    text.extend_from_slice(b" has quoted names; list with git -c core.quotePath=false")?;
    Ok(text)
}

/// The project of files with the paths of a list that a word names, or else why there is none, with a line more where the list looks like
/// JSON. The seed is that of its table.
pub fn named_project<'a>(
    alloc: Global,
    seed: u64,
    files: &FileList<'_>,
    written: &'a [&'a [u8]],
    path: &NamedPath<'_>,
) -> Result<Project<'a>, Failure>
    ensures { seen_layout result ≢ Err out_of_memory →
        seen_layout result ≡ spec.named_layout (seen_files files.now) (map (λ p. p.now) written.now) path.now }
{
    match listed_project(alloc, seed, written, path) {
        Ok(project) => Ok(project),
        Err(failure) => Err(explained(alloc, files.list, written, failure)),
    }
}

/// The failure of a list that a word names, with a line more where it looks like JSON.
fn explained(alloc: Global, list: Option<&str>, written: &[&[u8]], failure: Failure) -> Failure
    ensures report { report_of result ≢ out_of_memory → report_of result
        ≡ spec.report_by (option_map (λ n. n.now) list.entry) (map (λ p. p.now) written.now) (report_of failure) }
    ensures memory { report_of failure ≡ out_of_memory → report_of result ≡ out_of_memory }
{
    match list {
        Some(name) => explained_by(alloc, name.as_bytes(), written, failure),
        None => failure,
    }
}

/// The same of a list of this name.
fn explained_by(alloc: Global, name: &[u8], written: &[&[u8]], failure: Failure) -> Failure
    ensures report { report_of result ≢ out_of_memory → report_of result
        ≡ spec.report_by (Some name.now) (map (λ p. p.now) written.now) (report_of failure) }
    ensures memory { report_of failure ≡ out_of_memory → report_of result ≡ out_of_memory }
{
    if failure.status() == 4 && looks_like_json(written) {
        return json_failure(alloc, name, &failure);
    }
    failure
}

/// A failure of status 4, with a line more.
fn json_failure(alloc: Global, name: &[u8], failure: &Failure) -> Failure
    requires { (report_of failure.now).status ≡ 4 }
    ensures { report_of result ≢ out_of_memory → report_of result ≡ spec.json_report name.now (report_of failure.now) }
{
    match json_message(alloc, name, failure) {
        Ok(text) => Failure::NoList(text),
        Err(_) => Failure::NoMemory,
    }
}

/// The text of that.
fn json_message(alloc: Global, name: &[u8], failure: &Failure) -> Result<Vec<u8>, AllocError>
    ensures { IfOk result (λ text. text.items ≡ (report_of failure.now).message ++ (codes "\nincut: " ++ spec.json_text name.now)) }
{
    let (message, path) = failure.message();
    let mut text = Vec::from_slice(alloc, message)?;
    text.extend_from_slice(path)?;
    text.extend_from_slice(&json_line(alloc, name)?)?;
    Ok(text)
}

/// That line, after the one before it.
fn json_line(alloc: Global, name: &[u8]) -> Result<Vec<u8>, AllocError>
    ensures { IfOk result (λ line. line.items ≡ codes "\nincut: " ++ spec.json_text name.now) }
{
    let mut line = Vec::from_slice(alloc, b"\nincut: ")?;
    line.extend_from_slice(&json_text(alloc, name)?)?;
    Ok(line)
}

/// Whether the first of some paths begins as JSON does.
fn looks_like_json(written: &[&[u8]]) -> bool
    ensures { result ≡ spec.looks_like_json (map (λ p. p.now) written.now) }
{
    match written {
        [path, ..] => begins_json(unspaced(path)),
        [] => false,
    }
}

/// Whether a text begins as an array or an object does.
fn begins_json(text: &[u8]) -> bool
    ensures { result ≡ spec.begins_json text.now }
{
    match text {
        [byte, rest @ ..] => is_opening(*byte) && is_inside(unspaced(rest)),
        [] => false,
    }
}

/// Whether nothing is inside, or what may be first in an array or an object.
fn is_inside(text: &[u8]) -> bool
    ensures { result ≡ spec.is_inside text.now }
{
    match text {
        [byte, ..] => is_opening(*byte) || *byte == b'"',
        [] => true,
    }
}

/// Whether a byte opens an array or an object.
fn is_opening(byte: u8) -> bool
    ensures { result ≡ spec.is_opening byte }
{
    byte == b'[' || byte == b'{'
}

/// Whether git has quoted a path.
fn has_quoted(written: &[&[u8]]) -> bool
    ensures { result ≡ list_any spec.is_quoted (map (λ p. p.now) written.now) }
{
    any_quoted(written)
}

/// The same, by the paths as they lie.
fn any_quoted(written: &[&[u8]]) -> bool
    ensures { result ≡ list_any (λ (p : Bor (List ℕ)). spec.is_quoted p.now) written.now }
{
    written.iter().any(|path| is_quoted(path))
}

/// Whether git has quoted this path.
fn is_quoted(path: &[u8]) -> bool
    ensures { result ≡ spec.is_quoted path.now }
{
    is_between(b'"', b'"', path) && has_octal(path)
}

/// Whether a byte of a path is written by three digits in base 8.
fn has_octal(path: &[u8]) -> bool
    ensures { result ≡ spec.has_octal path.now }
{
    let mut at = 0;
    while at < path.len() {
        if begins_octal(&path[at..]) {
            return true;
        }
        at += 1;
    }
    false
}

/// Whether the first byte is written so.
fn begins_octal(text: &[u8]) -> bool
    ensures { result ≡ spec.begins_octal text.now }
{
    match text {
        [b'\\', a, b, c, ..] => is_octal(*a) && is_octal(*b) && is_octal(*c),
        _ => false,
    }
}

/// Whether a byte is a digit in base 8.
fn is_octal(byte: u8) -> bool
    ensures { result ≡ spec.is_octal byte }
{
    byte >= b'0' && byte <= b'7'
}
