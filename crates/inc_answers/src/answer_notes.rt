//! The notes beside an answer: where files define names that no build defines, as words say, and which headers are not found.
ghost use Rattle.std.specs.Prelude.{◌≡◌, ◌<◌, ◌++◌, ◌∷◌, [], codes, decimal, flat_map, length, IfOk, OnOk};
ghost use Rattle.std.specs.List.{All};
ghost use Rattle.inc_lookup.specs.declared.projects.DirectiveId as declared;
ghost use Rattle.inc_answers.specs.AnswerNotes.{definition_line, definition_lines, definition_notes, empty_notes, more_definitions, unreached_notes};
ghost use Rattle.inc_answers.specs.MarkReasons.{place};
ghost use Rattle.inc_answers.specs.Terms.{is_whole};

use crate::asked::Question;
use crate::mark_reasons::put_place;
use crate::missing_notes::{Notes, put_empty, put_number, put_unreached};
use crate::near_names::most_of;
use inc_graph::Graph;
use inc_lookup::{DirectiveId, Project};
use std::alloc::{AllocError, Global};

/// The notes beside an answer that takes headers that are not found as empty.
pub fn empty_notes(alloc: Global, project: &Project<'_>, graph: &Graph) -> Result<Notes, AllocError>
    requires { graph.now.files ≡ length project.now.paths }
    ensures { IfOk result (λ notes. notes ≡ empty_notes project.now graph.now) }
{
    let mut text = Vec::new(alloc);
    put_definitions(&mut text, b"incut: note: ", project, graph.definitions())?;
    put_empty(&mut text, alloc, project, graph.missing())?;
    Ok(Notes::of(text))
}

/// The notes beside the answer that no header is reached.
pub fn unreached_notes(
    alloc: Global,
    project: &Project<'_>,
    question: &Question<'_>,
    graph: &Graph,
) -> Result<Notes, AllocError>
    requires { graph.now.files ≡ length project.now.paths }
    ensures { IfOk result (λ notes. notes ≡ unreached_notes (is_whole question.now) project.now graph.now) }
{
    let is_whole = question.is_whole();
    let mut text = Vec::new(alloc);
    put_definitions(&mut text, b"incut: note: ", project, graph.definitions())?;
    put_unreached(
        &mut text,
        alloc,
        project,
        is_whole,
        graph.blockers(),
        graph.missing(),
    )?;
    Ok(Notes::of(text))
}

/// The notes on where files define names that no build defines.
pub fn definition_notes(
    alloc: Global,
    project: &Project<'_>,
    graph: &Graph,
) -> Result<Notes, AllocError>
    requires { graph.now.files ≡ length project.now.paths }
    ensures { IfOk result (λ notes. notes ≡ definition_notes project.now graph.now) }
{
    let mut text = Vec::new(alloc);
    put_definitions(&mut text, b"incut: note: ", project, graph.definitions())?;
    Ok(Notes::of(text))
}

/// Adds the first of these places, each on a line that begins so, and how many more there are.
pub fn put_definitions(
    text: &mut Vec<u8>,
    start: &[u8],
    project: &Project<'_>,
    definitions: &[DirectiveId],
) -> Result<(), AllocError>
    requires { All (λ (d : declared.DirectiveId). d.file < length project.now.paths) definitions.now }
    ensures { OnOk result (text.new.items ≡ text.old.items ++ definition_lines start.now project.now definitions.now) }
{
    let count = most_of(definitions.len());
    put_places(text, start, project, &definitions[..count])?;
    put_more(text, start, definitions.len() - count)
}

/// Adds a line for each of these places.
fn put_places(
    text: &mut Vec<u8>,
    start: &[u8],
    project: &Project<'_>,
    definitions: &[DirectiveId],
) -> Result<(), AllocError>
    requires { All (λ (d : declared.DirectiveId). d.file < length project.now.paths) definitions.now }
    ensures { OnOk result (text.new.items ≡ text.old.items ++ flat_map (definition_line start.now project.now) definitions.now) }
{
    for definition in definitions {
        put_line(text, start, project, *definition)?;
    }
    Ok(())
}

/// Adds the line for a place.
fn put_line(
    text: &mut Vec<u8>,
    start: &[u8],
    project: &Project<'_>,
    definition: DirectiveId,
) -> Result<(), AllocError>
    requires { definition.file < length project.now.paths }
    ensures { OnOk result (text.new.items ≡ text.old.items ++ definition_line start.now project.now definition) }
{
    put_words(text, start, project.path(definition.file), definition.line)
}

/// The same with the path of its file.
fn put_words(text: &mut Vec<u8>, start: &[u8], path: &[u8], line: u32) -> Result<(), AllocError>
    ensures { OnOk result (text.new.items ≡ text.old.items
        ++ (start.now ++ place path.now line ++ codes " defines a name of --undefined" ++ 10 ∷ [])) }
{
    text.extend_from_slice(start)?;
    put_place(text, path, line)?;
    text.extend_from_slice(b" defines a name of --undefined")?;
    text.push(b'\n')?;
    Ok(())
}

/// Adds how many places more there are than have a line, if there are more.
fn put_more(text: &mut Vec<u8>, start: &[u8], count: usize) -> Result<(), AllocError>
    ensures { OnOk result (text.new.items ≡ text.old.items ++ more_definitions start.now count) }
{
    if count == 0 {
        return Ok(());
    }
    put_more_line(text, start, count)
}

/// Adds how many places more there are than have a line.
fn put_more_line(text: &mut Vec<u8>, start: &[u8], count: usize) -> Result<(), AllocError>
    ensures { OnOk result (text.new.items ≡ text.old.items ++ (start.now ++ codes ".. and " ++ decimal count ++ codes " more" ++ 10 ∷ [])) }
{
    text.extend_from_slice(start)?;
    text.extend_from_slice(b".. and ")?;
    put_number(text, count as u64)?;
    text.extend_from_slice(b" more")?;
    text.push(b'\n')?;
    Ok(())
}
