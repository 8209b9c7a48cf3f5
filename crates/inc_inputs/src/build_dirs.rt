//! The directories of the include paths of a build.
ghost use Rattle.std.specs.Prelude.{◌≡◌, ◌++◌, ◌∷◌, List, IfOk, OnOk, map};
ghost use Rattle.inc_args.specs.Views.{seen_files};
ghost use Rattle.inc_build.specs.Configurations.{Row as AnyRow, is_kind};
ghost use Rattle.inc_build.specs.Views.{seen_row};
ghost use Rattle.inc_inputs.specs.BuildPaths.{form};
ghost use Rattle.inc_inputs.specs.BuildProjects as spec;
ghost use Rattle.inc_inputs.specs.Views.{dirs_in, ground_in};

use crate::build_entries::rows_of;
use crate::build_grounds::Ground;
use inc_args::FileList;
use inc_build::{Kind, Row};
use std::alloc::{AllocError, Global};

/// The directories in which headers are searched.
#[derive(Drop)]
pub struct Dirs {
    pub(crate) dirs: Vec<Vec<u8>>,
    pub(crate) quoted: Vec<Vec<u8>>,
    pub(crate) system: Vec<Vec<u8>>,
    pub(crate) last: Vec<Vec<u8>>,
}

/// The directories of an include path, those of each sort before those of words.
pub(crate) fn all_dirs(
    alloc: Global,
    ground: &Ground<'_>,
    rows: &[Row],
    files: &FileList<'_>,
) -> Result<Dirs, AllocError>
    ensures { IfOk result (λ dirs. dirs_in dirs ≡ spec.all_dirs (ground_in ground.now) (map seen_row rows.now) (seen_files files.now)) }
{
    let dirs = dirs_and(alloc, ground, Kind::Searched, rows, &files.dirs)?;
    let quoted = dirs_and(alloc, ground, Kind::Quoted, rows, &files.quoted)?;
    let system = dirs_and(alloc, ground, Kind::System, rows, &files.system)?;
    let last = dirs_and(alloc, ground, Kind::Last, rows, &files.last)?;
    Ok(Dirs {
        dirs,
        quoted,
        system,
        last,
    })
}

/// Those of the include paths with these numbers.
fn dirs_of_each(
    alloc: Global,
    ground: &Ground<'_>,
    numbers: &[usize],
    files: &FileList<'_>,
) -> Result<Vec<Dirs>, AllocError>
    ensures { IfOk result (λ all. map dirs_in all.items ≡ spec.dirs_of_each (ground_in ground.now) (seen_files files.now) numbers.now) }
{
    let mut all = Vec::with_capacity(alloc, numbers.len())?;
    for number in numbers {
        all.push(all_dirs(alloc, ground, rows_of(ground, *number), files)?)?;
    }
    Ok(all)
}

/// Those of the include paths beside the first of these numbers.
pub(crate) fn other_dirs(
    alloc: Global,
    ground: &Ground<'_>,
    used: &[usize],
    files: &FileList<'_>,
) -> Result<Vec<Dirs>, AllocError>
    ensures { IfOk result (λ all. map dirs_in all.items ≡ spec.other_dirs (ground_in ground.now) (seen_files files.now) used.now) }
{
    match used {
        [_, rest @ ..] => dirs_of_each(alloc, ground, rest, files),
        _ => Ok(Vec::new(alloc)),
    }
}

/// The directories of one kind of an include path, and after them those of words.
fn dirs_and(
    alloc: Global,
    ground: &Ground<'_>,
    kind: Kind,
    rows: &[Row],
    words: &[&str],
) -> Result<Vec<Vec<u8>>, AllocError>
    ensures { IfOk result (λ dirs. map (λ d. d.items) dirs.items
        ≡ spec.dirs_and (ground_in ground.now) kind (map seen_row rows.now) (map (λ w. w.now) words.now)) }
{
    let mut dirs = dirs_of(alloc, ground, kind, rows)?;
    add_words(alloc, ground, &mut dirs, words)?;
    Ok(dirs)
}

/// Adds the directories of words.
fn add_words(
    alloc: Global,
    ground: &Ground<'_>,
    dirs: &mut Vec<Vec<u8>>,
    words: &[&str],
) -> Result<(), AllocError>
    ensures { let g = ground_in ground.now in OnOk result (map (λ d. d.items) dirs.new.items
        ≡ map (λ d. d.items) dirs.old.items ++ map (form g.here g.is_relative) (map (λ w. w.now) words.now)) }
{
    for word in words {
        let dir = form(alloc, ground, word.as_bytes())?;
        dirs.push(dir)?;
    }
    Ok(())
}

/// A word as the project has it.
fn form(alloc: Global, ground: &Ground<'_>, word: &[u8]) -> Result<Vec<u8>, AllocError>
    ensures { let g = ground_in ground.now in IfOk result (λ path. path.items ≡ form g.here g.is_relative word.now) }
{
    ground.forms().of_word(alloc, word)
}

/// The directories of one kind of an include path.
fn dirs_of(
    alloc: Global,
    ground: &Ground<'_>,
    kind: Kind,
    rows: &[Row],
) -> Result<Vec<Vec<u8>>, AllocError>
    ensures { IfOk result (λ dirs. map (λ d. d.items) dirs.items ≡ spec.dirs_of (ground_in ground.now) kind (map seen_row rows.now)) }
{
    let mut dirs = Vec::new(alloc);
    let mut at = 0;
    while at < rows.len() {
        add_row(alloc, ground, kind, &mut dirs, &rows[at])?;
        at += 1;
    }
    Ok(dirs)
}

/// Whether two kinds are the same.
fn is_kind(a: Kind, b: Kind) -> bool
    ensures { result ≡ is_kind a b }
{
    match (a, b) {
        (Kind::Quoted, Kind::Quoted) => true,
        (Kind::Searched, Kind::Searched) => true,
        (Kind::System, Kind::System) => true,
        (Kind::Last, Kind::Last) => true,
        (Kind::Macros, Kind::Macros) => true,
        (Kind::Included, Kind::Included) => true,
        (Kind::Defined, Kind::Defined) => true,
        (Kind::Undefined, Kind::Undefined) => true,
        _ => false,
    }
}

/// Adds the directory of a row, if it is of this kind.
fn add_row(
    alloc: Global,
    ground: &Ground<'_>,
    kind: Kind,
    dirs: &mut Vec<Vec<u8>>,
    row: &Row,
) -> Result<(), AllocError>
    ensures { let g = ground_in ground.now in OnOk result ((rest : List AnyRow) →
        map (λ d. d.items) dirs.new.items ++ spec.dirs_of g kind rest ≡ map (λ d. d.items) dirs.old.items ++ spec.dirs_of g kind (seen_row row.now ∷ rest)) }
{
    if is_kind(row.kind, kind) {
        dirs.push(Vec::from_slice(alloc, ground.forms().of(&row.path))?)?;
    }
    Ok(())
}
