//! The directives of a file as lines with its path in front, and as an object of JSON.
ghost use Rattle.std.specs.Prelude.{◌≡◌, ◌++◌, IfOk, OnOk};
ghost use Rattle.inc_directive.specs.DirectiveViews.{seen_directive};
ghost use Rattle.inc_directive.specs.Parts.{inclusions_in};
ghost use Rattle.inc_answers.specs.JsonTexts.{comma_at};
ghost use Rattle.inc_answers.specs.ScanForms.{directive_item, directives_text, place_line, place_lines, scan_json};

use crate::directive_names::put_written;
use crate::json_directives::put_directive;
use crate::json_texts::put_bytes_member;
use crate::missing_notes::{put_number, put_shown};
use inc_directive::{Directive, FileLines};
use std::alloc::{AllocError, Global};

/// The directives of a file that include, each as it is written, with this path and its line in front.
pub fn place_lines(alloc: Global, path: &[u8], found: &FileLines) -> Result<Vec<u8>, AllocError>
    ensures { IfOk result (λ text. text.items ≡ place_lines path.now (inclusions_in found.now)) }
{
    let mut text = Vec::new(alloc);
    let mut left = found.inclusions();
    while let Some(directive) = left.next() {
        put_line(&mut text, alloc, path, directive)?;
    }
    Ok(text)
}

/// Adds the line of a directive.
fn put_line(
    text: &mut Vec<u8>,
    alloc: Global,
    path: &[u8],
    directive: Directive<'_>,
) -> Result<(), AllocError>
    ensures { OnOk result (text.new.items ≡ text.old.items ++ place_line path.now (seen_directive directive.entry)) }
{
    put_shown(text, path)?;
    text.extend_from_slice(b":")?;
    put_number(text, u64::from(directive.line))?;
    text.extend_from_slice(b": ")?;
    put_written(text, alloc, directive.kind)?;
    text.push(b'\n')?;
    Ok(())
}

/// The directives of a file that include, as an object on one line.
pub fn scan_json(alloc: Global, path: &[u8], found: &FileLines) -> Result<Vec<u8>, AllocError>
    ensures { IfOk result (λ text. text.items ≡ scan_json path.now (inclusions_in found.now)) }
{
    let mut text = Vec::new(alloc);
    text.extend_from_slice(b"{\"command\":\"scan\",\"directives\":")?;
    put_directives(&mut text, path, found)?;
    text.extend_from_slice(b",\"format\":1,")?;
    put_bytes_member(&mut text, b"path", path)?;
    text.extend_from_slice(b",\"status\":0}\n")?;
    Ok(text)
}

/// Adds the directives, as a list.
fn put_directives(text: &mut Vec<u8>, path: &[u8], found: &FileLines) -> Result<(), AllocError>
    ensures { OnOk result (text.new.items ≡ text.old.items ++ directives_text path.now (inclusions_in found.now)) }
{
    text.push(b'[')?;
    let mut place = 0;
    let mut left = found.inclusions();
    while let Some(directive) = left.next() {
        put_item(text, path, place, directive)?;
        place = 1;
    }
    text.push(b']')?;
    Ok(())
}

/// Adds a directive as an object, with a comma before it unless it is the first.
fn put_item(
    text: &mut Vec<u8>,
    path: &[u8],
    place: usize,
    directive: Directive<'_>,
) -> Result<(), AllocError>
    ensures { OnOk result (text.new.items ≡ text.old.items ++ (comma_at place ++ directive_item path.now (seen_directive directive.entry))) }
{
    if place > 0 {
        text.push(b',')?;
    }
    put_directive(text, directive.kind, directive.line, path, None)
}
