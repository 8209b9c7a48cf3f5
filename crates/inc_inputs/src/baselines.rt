//! Baselines: directives that may still break rules.
ghost use Rattle.std.specs.Prelude.{◌≡◌, ◌<◌, ◌++◌, ◌-◌, ◌==◌, ℕ, Err, Ok, IfErr, IfOk, OnOk, length, map, option_map};
ghost use Rattle.inc_check.specs.declared.read_texts.CertFault.TheVariants as fault;
ghost use Rattle.inc_inputs.specs.BuildNotes.{none};
ghost use Rattle.inc_inputs.specs.Baselines as spec;
ghost use Rattle.inc_inputs.specs.Baselines.{Accepting, NamedLines, accepted, accepted_by, accepting_by, baseline_title, is_passed, named_from, named_line, named_of, no_baseline, removed_line, removed_notes, unused_line, with_accepted, with_found, with_more, with_text};
ghost use Rattle.inc_inputs.specs.MarkLists.{lines_of};
ghost use Rattle.inc_inputs.specs.Reports.{IsReportBy, baseline_report, report_of};
ghost use Rattle.inc_inputs.specs.Steps.{Comes, each};
ghost use Rattle.inc_inputs.specs.Views.{accepted_in, accepting_in, baseline_in, listed_in, named_line_in, notes_in, seen_accepted, seen_accepting, seen_marks, seen_named};
ghost use Rattle.inc_lookup.specs.Projects.{found_as};

use crate::build_texts::{Notes, put_counted, put_note, put_number};
use crate::ends::file_at;
use crate::failures::{Failure, baseline_failure, put_shown};
use crate::file_lists::first_end;
use crate::inputs::Inputs;
use crate::named_marks::{Listed, with_path};
use crate::place_words::name_colon;
use crate::texts::read_text;
use inc_check::{CertFault, whole_lines};
use inc_graph::Mark;
use std::alloc::{AllocError, Global};

/// A directive that a line of a baseline names.
#[derive(Drop)]
pub struct NamedLine {
    /// The number of the line, from 1.
    line: usize,
    path: Vec<u8>,
    /// What stands behind `#include`.
    name: Vec<u8>,
}

/// The lines of a baseline.
#[derive(Clone, Copy)]
pub struct Baseline<'a> {
    /// The word that names it, if there is one.
    pub name: Option<&'a str>,
    pub lines: &'a [NamedLine],
}

/// Directives that are taken as removed, and what is noted.
#[derive(Drop)]
pub struct Accepted {
    pub without: Vec<Mark>,
    pub notes: Vec<u8>,
}

/// The same while lines are read, with what is noted of these.
#[derive(Drop)]
struct Accepting {
    marks: Vec<Mark>,
    notes: Notes,
}

impl<'a> Baseline<'a> {
    /// None.
    pub fn none() -> Baseline<'a>
        ensures { baseline_in result ≡ no_baseline }
    {
        Baseline {
            name: None,
            lines: &[],
        }
    }

    /// How it is called.
    fn title(self) -> &'a [u8]
        ensures { result.now ≡ baseline_title (baseline_in self.entry) }
    {
        self.name.unwrap_or("").as_bytes()
    }
}

/// The lines of the baseline that a word names; none where there is no such word.
pub fn read_baseline<I: Inputs>(
    alloc: Global,
    inputs: &mut I,
    name: Option<&str>,
) -> Result<Vec<NamedLine>, Failure>
    ensures { Comes (named_of I.gives (option_map (λ n. n.now) name.entry)) inputs.old (seen_named result) inputs.new }
{
    let Some(name) = name else {
        return Ok(Vec::new(alloc));
    };
    let text = whole_lines(alloc, read_text(alloc, inputs, name)?)?;
    lines_of(alloc, &text, name)
}

/// The lines of the text of a baseline of this name, all of which are ended.
fn lines_of(alloc: Global, text: &[u8], name: &str) -> Result<Vec<NamedLine>, Failure>
    ensures read { IfOk result (λ lines. named_from 1 (lines_of text.now) ≡ Ok (map named_line_in lines.items)) }
    ensures fault { IfErr result (λ failure.
        IsReportBy baseline_report (λ line. named_from 1 (lines_of text.now) ≡ Err line) name.now (report_of failure)) }
{
    match lines_in(alloc, text) {
        Ok(lines) => Ok(lines),
        Err(fault) => Err(baseline_failure(alloc, fault, name.as_bytes())?),
    }
}

/// The lines of a text, all of which are ended.
fn lines_in(alloc: Global, text: &[u8]) -> Result<Vec<NamedLine>, CertFault>
    ensures lines { IfOk result (λ lines. named_from 1 (lines_of text.now) ≡ Ok (map named_line_in lines.items)) }
    ensures fault { IfErr result (λ f. (line : ℕ) → f ≡ fault.Malformed line → named_from 1 (lines_of text.now) ≡ Err line) }
{
    let mut lines = Vec::new(alloc);
    let mut line = 1;
    let mut at = 0;
    while let Some(end) = first_end(&text[at..], b'\n') {
        push_line(alloc, &mut lines, line, &text[at..at + end])?;
        at += end + 1;
        line += 1;
    }
    Ok(lines)
}

/// Adds the directive that a line of this number names, if it names one.
fn push_line(
    alloc: Global,
    lines: &mut Vec<NamedLine>,
    line: usize,
    text: &[u8],
) -> Result<(), CertFault>
    ensures lines { OnOk result ((more : NamedLines) → with_more (map named_line_in lines.old.items) (with_text line text.now more)
        ≡ with_more (map named_line_in lines.new.items) more) }
    ensures fault { IfErr result (λ f. (n : ℕ) → f ≡ fault.Malformed n → (more : NamedLines) → with_text line text.now more ≡ Err n) }
{
    if is_passed(text) {
        return Ok(());
    }
    let Some(colon) = name_colon(text) else {
        return Err(CertFault::Malformed { line });
    };
    lines.push(named_line(alloc, line, text, colon)?)?;
    Ok(())
}

/// Whether a line has no directive.
fn is_passed(text: &[u8]) -> bool
    ensures { result ≡ is_passed text.now }
{
    match text.first() {
        Some(byte) => *byte == b'#',
        None => true,
    }
}

/// The directive that a line names, whose name is behind this colon.
fn named_line(
    alloc: Global,
    line: usize,
    text: &[u8],
    colon: usize,
) -> Result<NamedLine, AllocError>
    requires { colon < length text.now }
    ensures { IfOk result (λ l. named_line_in l ≡ named_line line text.now colon) }
{
    let path = Vec::from_slice(alloc, &text[..colon])?;
    let name = Vec::from_slice(alloc, &text[colon + 1..])?;
    Ok(NamedLine { line, path, name })
}

/// Directives, and behind them those that a baseline names in the files of a project; and notes, with those of the baseline behind them. A file
/// is read for each line that names it, so that the work is bounded by the lines times the length of a file.
pub fn accepted_places<I: Inputs>(
    alloc: Global,
    inputs: &mut I,
    listed: Listed<'_>,
    baseline: Baseline<'_>,
    without: Vec<Mark>,
    notes: Vec<u8>,
) -> Result<Accepted, Failure>
    ensures { Comes (accepted I.gives (listed_in listed.entry) (baseline_in baseline.entry) without.items notes.items)
        inputs.old (seen_accepted result) inputs.new }
{
    let before = without.len();
    let name = baseline.title();
    let none = Accepting {
        marks: without,
        notes: Notes::new(alloc),
    };
    match with_lines(alloc, inputs, listed, name, baseline.lines, none) {
        Ok(accepting) => Ok(accepted_by(alloc, name, before, notes, accepting)?),
        Err(failure) => Err(failure),
    }
}

/// Directives with those of a baseline of this name, where there were so many before, and its notes behind others.
fn accepted_by(
    alloc: Global,
    name: &[u8],
    before: usize,
    notes: Vec<u8>,
    accepting: Accepting,
) -> Result<Accepted, AllocError>
    ensures { IfOk result (λ a. accepted_in a ≡ accepted_by name.now before notes.items (accepting_in accepting)) }
{
    let Accepting {
        marks,
        notes: lines,
    } = accepting;
    let mut notes = notes;
    put_removed(&mut notes, alloc, name, marks.len().saturating_sub(before))?;
    lines.put(alloc, &mut notes)?;
    Ok(Accepted {
        without: marks,
        notes,
    })
}

/// Directives, and those that lines name.
fn with_lines<I: Inputs>(
    alloc: Global,
    inputs: &mut I,
    listed: Listed<'_>,
    name: &[u8],
    lines: &[NamedLine],
    accepting: Accepting,
) -> Result<Accepting, Failure>
    ensures { Comes (each (with_accepted I.gives (listed_in listed.entry) name.now) (map named_line_in lines.now) (accepting_in accepting))
        inputs.old (seen_accepting result) inputs.new }
{
    let mut accepting = accepting;
    for line in lines {
        accepting = with_line(alloc, inputs, listed, name, line, accepting)?;
    }
    Ok(accepting)
}

/// Directives, and those that a line names; it is noted where there are none.
fn with_line<I: Inputs>(
    alloc: Global,
    inputs: &mut I,
    listed: Listed<'_>,
    name: &[u8],
    line: &NamedLine,
    accepting: Accepting,
) -> Result<Accepting, Failure>
    ensures { Comes (with_accepted I.gives (listed_in listed.entry) name.now (named_line_in line.now) (accepting_in accepting))
        inputs.old (seen_accepting result) inputs.new }
{
    let Accepting { marks, notes } = accepting;
    let before = marks.len();
    match with_named(alloc, inputs, listed, line, marks) {
        Ok(marks) => Ok(accepting_by(alloc, name, line, before, notes, marks)?),
        Err(failure) => Err(failure),
    }
}

/// Directives with those of a line; where they are no more than before, it is noted.
fn accepting_by(
    alloc: Global,
    name: &[u8],
    line: &NamedLine,
    before: usize,
    notes: Notes,
    marks: Vec<Mark>,
) -> Result<Accepting, AllocError>
    ensures { IfOk result (λ a. accepting_in a ≡ accepting_by name.now (named_line_in line.now) before (notes_in notes) marks.items) }
{
    if marks.len() != before {
        return Ok(Accepting { marks, notes });
    }
    let mut notes = notes;
    notes.add(&unused_line(alloc, name, line)?)?;
    Ok(Accepting { marks, notes })
}

/// Directives, and those that a line names.
fn with_named<I: Inputs>(
    alloc: Global,
    inputs: &mut I,
    listed: Listed<'_>,
    line: &NamedLine,
    marks: Vec<Mark>,
) -> Result<Vec<Mark>, Failure>
    ensures { Comes (with_found I.gives (listed_in listed.entry) line.now.name.items (found_as listed.entry.project.now.paths line.now.path.items) marks.items)
        inputs.old (seen_marks result) inputs.new }
{
    let project = listed.project;
    match file_at(alloc, project, &line.path)? {
        Some(file) => {
            let path = project.path(file);
            with_path(alloc, inputs, listed, Some(&line.name), path, marks)
        }
        None => Ok(marks),
    }
}

/// That a line of the baseline of this name names no directive.
fn unused_line(alloc: Global, name: &[u8], line: &NamedLine) -> Result<Vec<u8>, AllocError>
    ensures { IfOk result (λ text. text.items ≡ unused_line name.now (named_line_in line.now)) }
{
    let mut text = Vec::new(alloc);
    put_shown(&mut text, name)?;
    text.extend_from_slice(b":")?;
    put_number(&mut text, line.line)?;
    text.extend_from_slice(b": ")?;
    put_shown(&mut text, &line.path)?;
    text.extend_from_slice(b":")?;
    put_shown(&mut text, &line.name)?;
    text.extend_from_slice(b" names no include directive")?;
    Ok(text)
}

/// Adds how many directives a baseline of this name has, if it has some.
fn put_removed(
    notes: &mut Vec<u8>,
    alloc: Global,
    name: &[u8],
    count: usize,
) -> Result<(), AllocError>
    ensures { OnOk result (notes.new.items ≡ notes.old.items ++ removed_notes name.now count) }
{
    if count > 0 {
        put_note(notes, &removed_line(alloc, name, count)?)?;
    }
    Ok(())
}

/// How many directives a baseline of this name has.
fn removed_line(alloc: Global, name: &[u8], count: usize) -> Result<Vec<u8>, AllocError>
    ensures { IfOk result (λ text. text.items ≡ removed_line name.now count) }
{
    let mut text = Vec::new(alloc);
    put_shown(&mut text, name)?;
    text.extend_from_slice(b": ")?;
    put_counted(
        &mut text,
        count,
        b" directive is taken as removed",
        b" directives are taken as removed",
    )?;
    Ok(text)
}
