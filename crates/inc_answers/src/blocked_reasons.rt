//! Why an answer about cuts is refused where blockers are: what each of them is, and how to go on.
ghost use Rattle.std.specs.Prelude.{◌≡◌, ◌<◌, ◌++◌, codes, decimal, flat_map, length, IfOk, OnOk};
ghost use Rattle.std.specs.List.{All, list_any};
ghost use Rattle.inc_graph.specs.declared.graphs.Blocker as graphs;
ghost use Rattle.inc_lookup.specs.declared.projects.DirectiveId as declared;
ghost use Rattle.inc_answers.specs.BlockedReasons.{any_name_line, blocked_reasons, blocker_reason, blocker_reason_words, drop_line, drop_word, glob_byte, is_computed, reason_start, undefine_line};
ghost use Rattle.inc_answers.specs.AnswerNotes.{definition_lines};

use crate::answer_notes::put_definitions;
use crate::fault_reasons::put_reason;
use crate::missing_notes::{Notes, put_byte, put_number};
use crate::near_names::{most_of, put_more};
use inc_graph::{Blocker, BlockerKind};
use inc_lookup::{DirectiveId, Project};
use std::alloc::{AllocError, Global};

/// What is said beside the refusal by these blockers, where files define names that no build defines at these places.
pub fn blocked_reasons(
    alloc: Global,
    project: &Project<'_>,
    definitions: &[DirectiveId],
    blockers: &[Blocker],
) -> Result<Notes, AllocError>
    requires definitions { All (λ (d : declared.DirectiveId). d.file < length project.now.paths) definitions.now }
    requires blockers { All (λ (b : Blocker). b.file < length project.now.paths) blockers.now }
    ensures { IfOk result (λ notes. notes ≡ blocked_reasons project.now definitions.now blockers.now) }
{
    let count = most_of(blockers.len());
    let mut text = Vec::new(alloc);
    put_blockers(&mut text, project, &blockers[..count])?;
    put_more(&mut text, blockers.len() - count)?;
    put_undefined(&mut text, project, definitions, &blockers[..count])?;
    put_drops(&mut text, project, blockers)?;
    Ok(Notes::of(text))
}

/// Adds the line on each of these.
fn put_blockers(
    text: &mut Vec<u8>,
    project: &Project<'_>,
    blockers: &[Blocker],
) -> Result<(), AllocError>
    requires { All (λ (b : Blocker). b.file < length project.now.paths) blockers.now }
    ensures { OnOk result (text.new.items ≡ text.old.items ++ flat_map (blocker_reason project.now) blockers.now) }
{
    for blocker in blockers {
        put_blocker(text, project, *blocker)?;
    }
    Ok(())
}

/// Adds the line on a blocker.
fn put_blocker(
    text: &mut Vec<u8>,
    project: &Project<'_>,
    blocker: Blocker,
) -> Result<(), AllocError>
    requires { blocker.file < length project.now.paths }
    ensures { OnOk result (text.new.items ≡ text.old.items ++ blocker_reason project.now blocker) }
{
    let words = reason_words(blocker.kind);
    put_reason(text, project.path(blocker.file), blocker.line, words)
}

/// What a blocker is.
pub fn reason_words(kind: BlockerKind) -> &'static [u8]
    ensures { result.now ≡ blocker_reason_words kind }
{
    match kind {
        BlockerKind::Computed => b"macros make the name of the header",
        BlockerKind::Foreign => b"it may include a header, but is not followed",
        BlockerKind::Several => b"it may include several headers",
    }
}

/// Adds where files define names that no build defines, and the line that leaves some name undefined.
fn put_undefined(
    text: &mut Vec<u8>,
    project: &Project<'_>,
    definitions: &[DirectiveId],
    blockers: &[Blocker],
) -> Result<(), AllocError>
    requires { All (λ (d : declared.DirectiveId). d.file < length project.now.paths) definitions.now }
    ensures { OnOk result (text.new.items ≡ text.old.items
        ++ (definition_lines reason_start project.now definitions.now ++ any_name_line blockers.now)) }
{
    put_definitions(text, b"incut: ", project, definitions)?;
    put_any_name(text, blockers)?;
    Ok(())
}

/// Adds the line that leaves some name undefined, where macros make the name of a header.
fn put_any_name(text: &mut Vec<u8>, blockers: &[Blocker]) -> Result<(), AllocError>
    ensures { OnOk result (text.new.items ≡ text.old.items ++ any_name_line blockers.now) }
{
    if has_computed(blockers) {
        return put_undefine(text, b" --undefined NAME");
    }
    Ok(())
}

/// Whether macros make the name of a header.
fn has_computed(blockers: &[Blocker]) -> bool
    ensures { result ≡ list_any (λ (b : graphs.Blocker). is_computed b.kind) blockers.now }
{
    blockers.iter().any(|blocker| is_computed(blocker.kind))
}

/// Whether macros make the name of its header.
fn is_computed(kind: BlockerKind) -> bool
    ensures { result ≡ is_computed kind }
{
    match kind {
        BlockerKind::Computed => true,
        _ => false,
    }
}

/// Adds the line with these words, which leave macros undefined.
pub fn put_undefine(text: &mut Vec<u8>, words: &[u8]) -> Result<(), AllocError>
    ensures { OnOk result (text.new.items ≡ text.old.items ++ undefine_line words.now) }
{
    text.extend_from_slice(b"incut: if no build defines the name, add")?;
    text.extend_from_slice(words)?;
    text.push(b'\n')?;
    Ok(())
}

/// Adds the line with the words that take these as removed.
pub fn put_drops(
    text: &mut Vec<u8>,
    project: &Project<'_>,
    blockers: &[Blocker],
) -> Result<(), AllocError>
    requires { All (λ (b : Blocker). b.file < length project.now.paths) blockers.now }
    ensures { OnOk result (text.new.items ≡ text.old.items ++ drop_line project.now blockers.now) }
{
    text.extend_from_slice(b"incut: if no build includes the header there, add")?;
    put_words(text, project, blockers)?;
    text.push(b'\n')?;
    Ok(())
}

/// Adds the words that take each of these as removed.
fn put_words(
    text: &mut Vec<u8>,
    project: &Project<'_>,
    blockers: &[Blocker],
) -> Result<(), AllocError>
    requires { All (λ (b : Blocker). b.file < length project.now.paths) blockers.now }
    ensures { OnOk result (text.new.items ≡ text.old.items ++ flat_map (drop_word project.now) blockers.now) }
{
    for blocker in blockers {
        put_drop(text, project, *blocker)?;
    }
    Ok(())
}

/// Adds the words that take a blocker as removed.
fn put_drop(text: &mut Vec<u8>, project: &Project<'_>, blocker: Blocker) -> Result<(), AllocError>
    requires { blocker.file < length project.now.paths }
    ensures { OnOk result (text.new.items ≡ text.old.items ++ drop_word project.now blocker) }
{
    put_word(text, project.path(blocker.file), blocker.line)
}

/// Adds the words that take the directive at a line of a file as removed.
fn put_word(text: &mut Vec<u8>, path: &[u8], line: u32) -> Result<(), AllocError>
    ensures { OnOk result (text.new.items ≡ text.old.items
        ++ (codes " --drop '" ++ flat_map glob_byte path.now ++ codes ":" ++ decimal line ++ codes "'")) }
{
    text.extend_from_slice(b" --drop '")?;
    put_glob(text, path)?;
    text.extend_from_slice(b":")?;
    put_number(text, u64::from(line))?;
    text.extend_from_slice(b"'")?;
    Ok(())
}

/// Adds a path as a glob between apostrophes that fits it alone.
fn put_glob(text: &mut Vec<u8>, path: &[u8]) -> Result<(), AllocError>
    ensures { OnOk result (text.new.items ≡ text.old.items ++ flat_map glob_byte path.now) }
{
    for byte in path {
        put_glob_byte(text, *byte)?;
    }
    Ok(())
}

/// Adds a byte of a glob between apostrophes, where it stands for itself.
fn put_glob_byte(text: &mut Vec<u8>, byte: u8) -> Result<(), AllocError>
    ensures { OnOk result (text.new.items ≡ text.old.items ++ glob_byte byte) }
{
    match byte {
        b'\'' => text.extend_from_slice(b"'\\''"),
        b'*' => text.extend_from_slice(b"[*]"),
        b'?' => text.extend_from_slice(b"[?]"),
        b'[' => text.extend_from_slice(b"[[]"),
        _ => put_byte(text, byte),
    }
}
