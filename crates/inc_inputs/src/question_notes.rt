//! What is noted of the words and the lists of a question, beside what a build adds.
ghost use Rattle.std.specs.Prelude.{◌≡◌, ◌++◌, IfOk, OnOk, map};
ghost use Rattle.inc_args.specs.Views.{seen_files};
ghost use Rattle.inc_inputs.specs.QuestionNotes as spec;

use crate::dir_notes::put_dirs;
use crate::list_notes::put_list;
use crate::mark_notes::{put_costs, put_marks};
use crate::texts::Firsts;
use inc_args::FileList;
use inc_graph::{Cost, Mark};
use inc_lookup::Project;
use std::alloc::{AllocError, Global};

/// Notes, and those of the words for the files of a question, of its list by the paths as they are written, and of its marks and costs.
pub fn with_question_notes(
    alloc: Global,
    project: &Project<'_>,
    is_build: bool,
    files: &FileList<'_>,
    written: &[&[u8]],
    firsts: Firsts,
    without: &[Mark],
    fixed: &[Mark],
    costs: &[Cost<'_>],
    notes: Vec<u8>,
) -> Result<Vec<u8>, AllocError>
    ensures { IfOk result (λ all. all.items ≡ notes.items
        ++ spec.question_notes project.now is_build (seen_files files.now) (map (λ p. p.now) written.now) firsts without.now fixed.now costs.now) }
{
    let mut notes = notes;
    put_list(alloc, files, written, &mut notes)?;
    put_dirs_unless(alloc, project, is_build, files, &mut notes)?;
    put_listed(alloc, project, firsts, without, fixed, costs, &mut notes)?;
    Ok(notes)
}

/// Adds notes of the words for directories, unless a build has noted these.
fn put_dirs_unless(
    alloc: Global,
    project: &Project<'_>,
    is_build: bool,
    files: &FileList<'_>,
    notes: &mut Vec<u8>,
) -> Result<(), AllocError>
    ensures { OnOk result (notes.new.items ≡ notes.old.items ++ spec.dirs_unless is_build project.now (seen_files files.now)) }
{
    if is_build {
        return Ok(());
    }
    put_dirs(alloc, project, files, notes)
}

/// Adds notes of marks and costs.
fn put_listed(
    alloc: Global,
    project: &Project<'_>,
    firsts: Firsts,
    without: &[Mark],
    fixed: &[Mark],
    costs: &[Cost<'_>],
    notes: &mut Vec<u8>,
) -> Result<(), AllocError>
    ensures { OnOk result (notes.new.items ≡ notes.old.items ++ spec.listed_notes project.now firsts without.now fixed.now costs.now) }
{
    put_marks(alloc, project, b"--without", firsts.without, without, notes)?;
    put_marks(alloc, project, b"--fixed", firsts.fixed, fixed, notes)?;
    put_costs(alloc, project, costs, notes)
}
