//! Refusals as objects of JSON.
ghost use Rattle.std.specs.Prelude.{◌≡◌, ◌<◌, ◌++◌, ◌∷◌, [], length, map, option_map, IfOk, OnOk};
ghost use Rattle.std.specs.List.{All};
ghost use Rattle.inc_graph.specs.MissingLists.{missing_at};
ghost use Rattle.inc_answers.specs.DirectiveNames.{kept_kind};
ghost use Rattle.inc_answers.specs.JsonRefusals.{mark_item, mark_items, refusal_json, refusal_mark, refusal_number, refusal_object, refusal_words};
ghost use Rattle.inc_answers.specs.JsonTexts.{list_of};
ghost use Rattle.inc_answers.specs.Refusals.{Blocked, NotFound};
ghost use Rattle.inc_answers.specs.Views.{seen_refusal};

use crate::directive_names::NameTable;
use crate::json_directives::put_directive;
use crate::json_parts::JsonText;
use crate::missing_notes::put_number;
use crate::refusals::Refusal;
use crate::subjects::Subject;
use inc_directive::LineKind;
use std::alloc::{AllocError, Global};

/// The number and the words of a refusal.
fn words_of(refusal: Refusal<'_>) -> (u64, &'static [u8])
    ensures number { result.0 ≡ refusal_number (seen_refusal refusal.entry) }
    ensures words { result.1.now ≡ refusal_words (seen_refusal refusal.entry) }
{
    match refusal {
        Refusal::NoSuchSource => (1, b"no such source"),
        Refusal::NoSuchHeader => (2, b"no such header"),
        Refusal::BadFile { .. } => (3, b"bad file"),
        Refusal::TooManyDirectives => (4, b"too many directives"),
        Refusal::NoSuchDirective { .. } => (6, b"no such directive"),
        Refusal::Malformed { .. } => (7, b"malformed"),
        Refusal::BadDefinition { .. } => (8, b"bad definition"),
        Refusal::TooLong => (9, b"too long"),
        Refusal::NoSuchCost { .. } => (10, b"no such cost"),
        Refusal::CostTwice { .. } => (11, b"cost twice"),
    }
}

/// The path and the line that a refusal names.
fn mark_of<'a>(refusal: Refusal<'a>) -> Option<(&'a [u8], u32)>
    ensures { option_map (λ m. record { path = m.0.now; line = m.1 }) result ≡ refusal_mark (seen_refusal refusal.entry) }
{
    match refusal {
        Refusal::BadFile { path, line }
        | Refusal::NoSuchDirective { path, line }
        | Refusal::NoSuchCost { path, line }
        | Refusal::CostTwice { path, line } => Some((path, line)),
        _ => None,
    }
}

/// Adds the directive that a refusal names, if it names one, as a list.
fn put_mark(text: &mut Vec<u8>, refusal: Refusal<'_>) -> Result<(), AllocError>
    ensures { OnOk result (text.new.items ≡ text.old.items ++ list_of (mark_items (seen_refusal refusal.entry))) }
{
    match mark_of(refusal) {
        Some((path, line)) => put_marked(text, path, line),
        None => {
            text.extend_from_slice(b"[]")?;
            Ok(())
        }
    }
}

/// Adds a directive of which no more is known than its path and its line, as a list.
fn put_marked(text: &mut Vec<u8>, path: &[u8], line: u32) -> Result<(), AllocError>
    ensures { OnOk result (text.new.items ≡ text.old.items
        ++ list_of (mark_item (record { path = path.now; line = line }) ∷ [])) }
{
    text.push(b'[')?;
    put_directive(text, LineKind::Text, line, path, None)?;
    text.push(b']')?;
    Ok(())
}

/// A refusal of this command.
pub fn refusal_json(
    alloc: Global,
    command: &[u8],
    refusal: Refusal<'_>,
) -> Result<Vec<u8>, AllocError>
    ensures { IfOk result (λ text. text.items
        ≡ refusal_object command.now (seen_refusal refusal.entry) (mark_items (seen_refusal refusal.entry))) }
{
    let (number, words) = words_of(refusal);
    let mut text = Vec::new(alloc);
    text.extend_from_slice(b"{\"command\":\"")?;
    text.extend_from_slice(command)?;
    text.extend_from_slice(b"\",\"format\":1,\"refused\":{\"directives\":")?;
    put_mark(&mut text, refusal)?;
    text.extend_from_slice(b",\"number\":")?;
    put_number(&mut text, number)?;
    text.extend_from_slice(b",\"text\":\"")?;
    text.extend_from_slice(words)?;
    text.extend_from_slice(b"\"},\"status\":4}\n")?;
    Ok(text)
}

/// The refusal by the directives of which nothing can be said, which are written as these names have it.
pub fn blocked_json<'s>(
    alloc: Global,
    subject: Subject<'s>,
    names: NameTable<'s>,
    command: &[u8],
) -> Result<Vec<u8>, AllocError>
    requires { names ≡ record { kept = subject.files.now; language = subject.language } }
    ensures { IfOk result (λ text. text.items ≡ refusal_json command.now
        (kept_kind subject.entry.language subject.entry.files.now)
        (Blocked subject.entry.project.now subject.entry.graph.now.blockers)) }
{
    let mut json = JsonText::with_names(alloc, subject, names);
    json.put(b"{\"command\":\"")?;
    json.put(command)?;
    json.put(b"\",\"format\":1,\"refused\":{\"directives\":")?;
    json.put_blocked()?;
    json.put(b",\"number\":")?;
    json.put_number(5)?;
    json.put(b",\"text\":\"")?;
    json.put(b"blocked")?;
    json.put(b"\"},\"status\":4}\n")?;
    Ok(json.into_text())
}

/// The refusal by directives whose header is not found.
pub fn strays_json(
    alloc: Global,
    subject: Subject<'_>,
    command: &[u8],
    strays: &[usize],
) -> Result<Vec<u8>, AllocError>
    requires { All (λ i. i < length subject.graph.now.missing) strays.now }
    ensures { IfOk result (λ text. text.items ≡ refusal_json command.now
        (kept_kind subject.entry.language subject.entry.files.now)
        (NotFound subject.entry.project.now (map (missing_at subject.entry.graph.now.missing) strays.now))) }
{
    let mut json = JsonText::new(alloc, subject)?;
    json.put(b"{\"command\":\"")?;
    json.put(command)?;
    json.put(b"\",\"format\":1,\"refused\":{\"directives\":")?;
    json.put_strays(strays)?;
    json.put(b",\"number\":")?;
    json.put_number(12)?;
    json.put(b",\"text\":\"")?;
    json.put(b"missing")?;
    json.put(b"\"},\"status\":4}\n")?;
    Ok(json.into_text())
}
