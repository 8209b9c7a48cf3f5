//! Notes of the lines of `--without`, `--fixed` and `--costs` whose paths are none of the project.
ghost use Rattle.std.specs.Prelude.{◌≡◌, ◌++◌, suc, IfOk, OnOk, codes};
ghost use Rattle.inc_inputs.specs.BuildNotes.{none, with_line, with_lines};
ghost use Rattle.inc_inputs.specs.MarkNotes as spec;
ghost use Rattle.inc_inputs.specs.Reports.{shown};
ghost use Rattle.inc_inputs.specs.Views.{notes_in};
ghost use Rattle.inc_graph.specs.MarkedEdges.{marks_of_costs};
ghost use Rattle.inc_lookup.specs.Projects.{found_as, place_of};

use crate::build_texts::{Notes, one_more, put_number};
use crate::ends::file_at;
use crate::failures::put_shown;
use inc_graph::{Cost, Mark};
use inc_lookup::{FileId, Project};
use std::alloc::{AllocError, Global};

/// Adds notes of the marks of an option, of which the first is at this line of its list.
pub(crate) fn put_marks(
    alloc: Global,
    project: &Project<'_>,
    option: &[u8],
    first: usize,
    marks: &[Mark],
    notes: &mut Vec<u8>,
) -> Result<(), AllocError>
    ensures { OnOk result (notes.new.items ≡ notes.old.items ++ spec.mark_notes project.now option.now first marks.now) }
{
    let strays = stray_marks(alloc, project, option, first, marks)?;
    strays.put(alloc, notes)?;
    Ok(())
}

/// Adds notes of costs.
pub(crate) fn put_costs(
    alloc: Global,
    project: &Project<'_>,
    costs: &[Cost<'_>],
    notes: &mut Vec<u8>,
) -> Result<(), AllocError>
    ensures { OnOk result (notes.new.items ≡ notes.old.items ++ spec.cost_notes project.now costs.now) }
{
    let strays = stray_costs(alloc, project, costs)?;
    strays.put(alloc, notes)?;
    Ok(())
}

/// The notes of marks.
fn stray_marks(
    alloc: Global,
    project: &Project<'_>,
    option: &[u8],
    first: usize,
    marks: &[Mark],
) -> Result<Notes, AllocError>
    ensures { IfOk result (λ notes. notes_in notes ≡ with_lines none (spec.stray_lines project.now option.now first marks.now)) }
{
    let mut strays = Strays::new(alloc, first);
    let mut at = 0;
    while at < marks.len() {
        strays.add(alloc, project, option, marks[at].path())?;
        at += 1;
    }
    Ok(strays.notes)
}

/// The notes of costs.
fn stray_costs(
    alloc: Global,
    project: &Project<'_>,
    costs: &[Cost<'_>],
) -> Result<Notes, AllocError>
    ensures { IfOk result (λ notes. notes_in notes ≡ with_lines none (spec.stray_lines project.now (codes "--costs") 1 (marks_of_costs costs.now))) }
{
    let mut strays = Strays::new(alloc, 1);
    let mut at = 0;
    while at < costs.len() {
        strays.add(alloc, project, b"--costs", costs[at].mark().path())?;
        at += 1;
    }
    Ok(strays.notes)
}

/// The notes of the lines of a list so far.
#[derive(Drop)]
struct Strays {
    notes: Notes,
    /// The next line.
    line: usize,
    /// The file whose path the last line had that had one: mostly the next one has it, too.
    near: usize,
}

impl Strays {
    /// None, of a list whose first line is this one.
    fn new(alloc: Global, line: usize) -> Strays
        ensures notes { notes_in result.notes ≡ none }
        ensures line { result.line ≡ line }
    {
        Strays {
            notes: Notes::new(alloc),
            line,
            near: 0,
        }
    }

    /// Adds that of the next line, which has this path, if it is none of the project.
    fn add(
        &mut self,
        alloc: Global,
        project: &Project<'_>,
        option: &[u8],
        path: &[u8],
    ) -> Result<(), AllocError>
        ensures notes { OnOk result (notes_in self.new.notes ≡ with_lines (notes_in self.old.notes)
            (spec.stray_line project.now option.now self.old.line path.now)) }
        ensures line { OnOk result (self.new.line ≡ suc self.old.line) }
    {
        let line = self.line;
        self.line = one_more(line)?;
        self.add_line(alloc, project, option, line, path)?;
        Ok(())
    }

    /// The same of the line of this number.
    fn add_line(
        &mut self,
        alloc: Global,
        project: &Project<'_>,
        option: &[u8],
        line: usize,
        path: &[u8],
    ) -> Result<(), AllocError>
        ensures notes { OnOk result (notes_in self.new.notes ≡ with_lines (notes_in self.old.notes)
            (spec.stray_line project.now option.now line path.now)) }
        ensures line { self.new.line ≡ self.old.line }
    {
        match file_near(project, self.near, path) {
            Some(file) => {
                self.near = file.index();
                Ok(())
            }
            None => {
                add_stray(&mut self.notes, alloc, project, option, line, path)?;
                Ok(())
            }
        }
    }
}

/// The file with this path, which is mostly the one at this place.
fn file_near(project: &Project<'_>, near: usize, path: &[u8]) -> Option<FileId>
    ensures { result ≡ place_of path.now project.now.paths }
{
    match project.at(near) {
        Some(file) => project.file_near(file, file, path),
        None => project.file(path),
    }
}

/// Adds the note of a line with a path that is none of the project.
fn add_stray(
    notes: &mut Notes,
    alloc: Global,
    project: &Project<'_>,
    option: &[u8],
    line: usize,
    path: &[u8],
) -> Result<(), AllocError>
    ensures { OnOk result (notes_in notes.new ≡ with_line (notes_in notes.old) (spec.stray_text project.now option.now line path.now)) }
{
    if !notes.has_room() {
        return notes.add(b"");
    }
    let text = stray_text(alloc, project, option, line, path)?;
    notes.add(&text)
}

/// What is noted of such a line.
fn stray_text(
    alloc: Global,
    project: &Project<'_>,
    option: &[u8],
    line: usize,
    path: &[u8],
) -> Result<Vec<u8>, AllocError>
    ensures { IfOk result (λ text. text.items ≡ spec.stray_text project.now option.now line path.now) }
{
    let mut text = Vec::from_slice(alloc, option)?;
    text.extend_from_slice(b" line ")?;
    put_number(&mut text, line)?;
    text.extend_from_slice(b": ")?;
    put_shown(&mut text, path)?;
    text.extend_from_slice(b" is no path of the project")?;
    put_meant(&mut text, alloc, project, path)?;
    Ok(text)
}

/// Adds the path of the project that may be meant, if there is one.
fn put_meant(
    text: &mut Vec<u8>,
    alloc: Global,
    project: &Project<'_>,
    path: &[u8],
) -> Result<(), AllocError>
    ensures { OnOk result (text.new.items ≡ text.old.items ++ spec.meant project.now (found_as project.now.paths path.now)) }
{
    match file_at(alloc, project, path)? {
        Some(file) => text.extend_from_slice(&guess(alloc, project.path(file))?),
        None => Ok(()),
    }
}

/// A path that may be meant.
fn guess(alloc: Global, path: &[u8]) -> Result<Vec<u8>, AllocError>
    ensures { IfOk result (λ text. text.items ≡ codes "; did you mean " ++ shown path.now ++ codes "?") }
{
    let mut text = Vec::from_slice(alloc, b"; did you mean ")?;
    put_shown(&mut text, path)?;
    text.extend_from_slice(b"?")?;
    Ok(text)
}
