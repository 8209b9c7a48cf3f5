//! The files of a rule.
ghost use Rattle.std.specs.Prelude.{◌≡◌, ◌++◌, ◌∷◌, ◌<◌, [], false, filter, length, slice_index_or, IfOk, OnOk};
ghost use Rattle.std.specs.List.{All, range_with_len};
ghost use Rattle.inc_lookup.specs.Projects.{path_at};
ghost use Rattle.inc_rules.specs.Judging.{is_right_file};
ghost use Rattle.inc_rules.specs.Lines.{AreRight};
ghost use Rattle.inc_rules.specs.Rules.{Rule as Asked, is_left};
ghost use Rattle.inc_rules.specs.Sides.{sides_of};

use crate::sides::Sides;
use inc_lookup::{FileId, Project};
use std::alloc::{AllocError, Global};

/// Those of some files that a rule is about.
pub(crate) fn left_files(
    alloc: Global,
    project: &Project<'_>,
    files: &[FileId],
    sides: &mut Sides<'_>,
) -> Result<Vec<FileId>, AllocError>
    requires { All (λ f. f < length project.now.paths) files.now }
    ensures files { (r : Asked) → sides.old ≡ sides_of r →
        IfOk result (λ left. left.items ≡ filter (λ f. is_left r (path_at project.now f)) files.now) }
    ensures same { sides.new ≡ sides.old }
{
    let mut left = Vec::new(alloc);
    for file in files {
        push_left(&mut left, project, *file, sides)?;
    }
    Ok(left)
}

/// Adds a file if a rule is about it.
fn push_left(
    left: &mut Vec<FileId>,
    project: &Project<'_>,
    file: FileId,
    sides: &mut Sides<'_>,
) -> Result<(), AllocError>
    requires { file < length project.now.paths }
    ensures files { (r : Asked) → sides.old ≡ sides_of r →
        OnOk result (left.new.items ≡ left.old.items ++ filter (λ f. is_left r (path_at project.now f)) (file ∷ [])) }
    ensures same { sides.new ≡ sides.old }
{
    if sides.is_left(project.path(file))? {
        left.push(file)?;
    }
    Ok(())
}

/// For each file of a project whether it is one of the right side of a rule.
pub(crate) fn right_flags(
    alloc: Global,
    project: &Project<'_>,
    sides: &mut Sides<'_>,
) -> Result<Vec<bool>, AllocError>
    ensures flags { (r : Asked) → sides.old ≡ sides_of r →
        IfOk result (λ right. AreRight (length project.now.paths) project.now r right.items) }
    ensures long { IfOk result (λ right. length right.items ≡ length project.now.paths) }
    ensures same { sides.new ≡ sides.old }
{
    let mut flags = Vec::with_capacity(alloc, project.count())?;
    for place in 0..project.count() {
        flags.push(is_right_at(project, place, sides)?)?;
    }
    Ok(flags)
}

/// Whether the file at a place is one of the right side of a rule.
fn is_right_at(
    project: &Project<'_>,
    place: usize,
    sides: &mut Sides<'_>,
) -> Result<bool, AllocError>
    requires { place < length project.now.paths }
    ensures right { (r : Asked) → sides.old ≡ sides_of r → IfOk result (λ yes. yes ≡ is_right_file project.now r place) }
    ensures same { sides.new ≡ sides.old }
{
    match project.at(place) {
        Some(file) => sides.is_right(project.path(file)),
        None => Ok(false),
    }
}

/// The files with a flag.
pub(crate) fn flagged(
    alloc: Global,
    project: &Project<'_>,
    flags: &[bool],
) -> Result<Vec<FileId>, AllocError>
    requires { length flags.now ≡ length project.now.paths }
    ensures { IfOk result (λ files. files.items ≡ filter (λ f. slice_index_or flags.now f false) (range_with_len 0 (length flags.now))) }
{
    let mut files = Vec::new(alloc);
    for place in 0..flags.len() {
        push_flagged(&mut files, project, flags, place)?;
    }
    Ok(files)
}

/// Adds the file at a place if it has a flag.
fn push_flagged(
    files: &mut Vec<FileId>,
    project: &Project<'_>,
    flags: &[bool],
    place: usize,
) -> Result<(), AllocError>
    requires within { place < length project.now.paths }
    requires flags { length flags.now ≡ length project.now.paths }
    ensures { OnOk result (files.new.items ≡ files.old.items ++ filter (λ f. slice_index_or flags.now f false) (place ∷ [])) }
{
    if flags[place] {
        if let Some(file) = project.at(place) {
            files.push(file)?;
        }
    }
    Ok(())
}
