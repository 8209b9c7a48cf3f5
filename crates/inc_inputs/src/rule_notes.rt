//! Notes of rules whose globs fit no file of the project.
ghost use Rattle.std.specs.Prelude.{◌≡◌, flat_map, map, option_map, IfOk, OnOk};
ghost use Rattle.inc_inputs.specs.BuildNotes.{none, with_lines};
ghost use Rattle.inc_inputs.specs.RuleNotes.{first_of, rule_lines, rule_notes, side_lines, unfit_line, unfit_lines};
ghost use Rattle.inc_inputs.specs.Views.{notes_in};
ghost use Rattle.inc_rules.specs.Views.{seen_rule};

use crate::build_texts::{Notes, put_number};
use crate::failures::put_shown;
use crate::header_names::paths_fitting;
use inc_lookup::Project;
use inc_rules::Rule;
use std::alloc::{AllocError, Global};

/// Notes of the globs that fit no file, on both sides of the rules of a list with this name. It takes a pass over the paths with each of
/// them.
pub(crate) fn rule_notes(
    alloc: Global,
    project: &Project<'_>,
    name: &str,
    rules: &[Rule<'_>],
) -> Result<Vec<u8>, AllocError>
    ensures { IfOk result (λ notes. notes.items ≡ rule_notes name.now project.now (map seen_rule rules.now)) }
{
    let lines = all_lines(alloc, project, name.as_bytes(), rules)?;
    let mut notes = Vec::new(alloc);
    lines.put(alloc, &mut notes)?;
    Ok(notes)
}

/// The lines of all rules.
fn all_lines(
    alloc: Global,
    project: &Project<'_>,
    name: &[u8],
    rules: &[Rule<'_>],
) -> Result<Notes, AllocError>
    ensures { IfOk result (λ notes. notes_in notes ≡ with_lines none (flat_map (rule_lines name.now project.now) (map seen_rule rules.now))) }
{
    let mut notes = Notes::new(alloc);
    for rule in rules {
        add_rule(&mut notes, alloc, project, name, rule)?;
    }
    Ok(notes)
}

/// Adds those of a rule.
fn add_rule(
    notes: &mut Notes,
    alloc: Global,
    project: &Project<'_>,
    name: &[u8],
    rule: &Rule<'_>,
) -> Result<(), AllocError>
    ensures { OnOk result (notes_in notes.new ≡ with_lines (notes_in notes.old) (rule_lines name.now project.now (seen_rule rule.now))) }
{
    add_side(notes, alloc, project, name, rule.line, rule.left)?;
    add_side(notes, alloc, project, name, rule.line, rule.right)
}

/// Adds that of a side, if its glob fits no file.
fn add_side(
    notes: &mut Notes,
    alloc: Global,
    project: &Project<'_>,
    name: &[u8],
    line: usize,
    glob: &[u8],
) -> Result<(), AllocError>
    ensures { OnOk result (notes_in notes.new ≡ with_lines (notes_in notes.old) (side_lines name.now project.now line glob.now)) }
{
    let files = paths_fitting(alloc, project, glob)?;
    if files.is_empty() {
        let text = unfit_line(alloc, name, line, glob)?;
        return notes.add(&text);
    }
    Ok(())
}

/// That a glob at a line of a list fits no file.
fn unfit_line(alloc: Global, name: &[u8], line: usize, glob: &[u8]) -> Result<Vec<u8>, AllocError>
    ensures { IfOk result (λ text. text.items ≡ unfit_line name.now line glob.now) }
{
    let mut text = Vec::new(alloc);
    put_shown(&mut text, name)?;
    text.extend_from_slice(b":")?;
    put_number(&mut text, line)?;
    text.extend_from_slice(b": no file of the project fits ")?;
    put_shown(&mut text, glob)?;
    Ok(text)
}

/// What is said of the first glob of rules that fits no file, if there is one.
pub(crate) fn first_unfit(
    alloc: Global,
    project: &Project<'_>,
    name: &[u8],
    rules: &[Rule<'_>],
) -> Result<Option<Vec<u8>>, AllocError>
    ensures { IfOk result (λ line. option_map (λ l. l.items) line ≡ first_of (unfit_lines name.now project.now (map seen_rule rules.now))) }
{
    for rule in rules {
        let line = unfit_in(alloc, project, name, rule)?;
        if line.is_some() {
            return Ok(line);
        }
    }
    Ok(None)
}

/// The same of a rule.
fn unfit_in(
    alloc: Global,
    project: &Project<'_>,
    name: &[u8],
    rule: &Rule<'_>,
) -> Result<Option<Vec<u8>>, AllocError>
    ensures { IfOk result (λ line. option_map (λ l. l.items) line ≡ first_of (rule_lines name.now project.now (seen_rule rule.now))) }
{
    let line = unfit_side(alloc, project, name, rule.line, rule.left)?;
    if line.is_some() {
        return Ok(line);
    }
    unfit_side(alloc, project, name, rule.line, rule.right)
}

/// The same of a side.
fn unfit_side(
    alloc: Global,
    project: &Project<'_>,
    name: &[u8],
    line: usize,
    glob: &[u8],
) -> Result<Option<Vec<u8>>, AllocError>
    ensures { IfOk result (λ text. option_map (λ t. t.items) text ≡ first_of (side_lines name.now project.now line glob.now)) }
{
    let files = paths_fitting(alloc, project, glob)?;
    if files.is_empty() {
        let text = unfit_line(alloc, name, line, glob)?;
        return Ok(Some(text));
    }
    Ok(None)
}
