//! The list of a project's files: what a word names, or the files below folders.
ghost use Rattle.std.specs.Prelude.{◌≡◌, map};
ghost use Rattle.inc_args.specs.Views.{seen_files};
ghost use Rattle.inc_inputs.specs.Inputs.{FilesBelow};
ghost use Rattle.inc_inputs.specs.ProjectLists.{files_below, list_of, or_here, path_end_in, path_end_of, with_folder};
ghost use Rattle.inc_inputs.specs.Steps.{Comes, reads_as};
ghost use Rattle.inc_inputs.specs.Views.{seen_text};

use crate::failures::{Failure, read_failure};
use crate::file_lists::PathEnd;
use crate::inputs::Inputs;
use crate::texts::read_text;
use inc_args::FileList;
use std::alloc::Global;

/// What ends each path of the list: NUL where no word names it.
pub fn path_end_in(files: &FileList<'_>) -> PathEnd
    ensures { result ≡ path_end_in (seen_files files.now) }
{
    path_end_of(files.list.is_none() || files.is_null)
}

/// NUL, or a line feed.
fn path_end_of(is_null: bool) -> PathEnd
    ensures { result ≡ path_end_of is_null }
{
    if is_null {
        PathEnd::Nul
    } else {
        PathEnd::LineFeed
    }
}

/// The list: what a word names, or the files below folders but those that are left out; the first goes with neither folders nor globs.
pub(crate) fn read_list<I: Inputs>(
    alloc: Global,
    inputs: &mut I,
    files: &FileList<'_>,
) -> Result<Vec<u8>, Failure>
    ensures { Comes (list_of I.gives (seen_files files.now)) inputs.old (seen_text result) inputs.new }
{
    match files.list {
        Some(_) if !files.roots.is_empty() => Err(Failure::TwoLists),
        Some(_) if !files.exclude.is_empty() => Err(Failure::ListAndGlobs),
        Some(name) => read_text(alloc, inputs, name),
        None => list_or_here(alloc, inputs, &files.exclude, &files.roots),
    }
}

/// The files below folders; below that of the run where there is none.
fn list_or_here<I: Inputs>(
    alloc: Global,
    inputs: &mut I,
    exclude: &[&str],
    folders: &[&str],
) -> Result<Vec<u8>, Failure>
    ensures { Comes (files_below I.gives (map (λ g. g.now) exclude.now) (or_here (map (λ f. f.now) folders.now))) inputs.old (seen_text result) inputs.new }
{
    if folders.is_empty() {
        return list_below(alloc, inputs, exclude, &["."]);
    }
    list_below(alloc, inputs, exclude, folders)
}

/// The files below folders, one folder after the other.
fn list_below<I: Inputs>(
    alloc: Global,
    inputs: &mut I,
    exclude: &[&str],
    folders: &[&str],
) -> Result<Vec<u8>, Failure>
    ensures { Comes (files_below I.gives (map (λ g. g.now) exclude.now) (map (λ f. f.now) folders.now)) inputs.old (seen_text result) inputs.new }
{
    let mut list = Vec::new(alloc);
    for folder in folders {
        list = with_folder(alloc, inputs, exclude, folder, list)?;
    }
    Ok(list)
}

/// The files below a folder, behind those that are known.
fn with_folder<I: Inputs>(
    alloc: Global,
    inputs: &mut I,
    exclude: &[&str],
    folder: &str,
    known: Vec<u8>,
) -> Result<Vec<u8>, Failure>
    ensures { Comes (with_folder I.gives (map (λ g. g.now) exclude.now) folder.now known.items) inputs.old (seen_text result) inputs.new }
{
    let mut list = known;
    let more = list_folder(alloc, inputs, exclude, folder)?;
    list.extend_from_slice(&more)?;
    Ok(list)
}

/// The files below a folder but those that are left out.
pub(crate) fn list_folder<I: Inputs>(
    alloc: Global,
    inputs: &mut I,
    exclude: &[&str],
    folder: &str,
) -> Result<Vec<u8>, Failure>
    ensures { Comes (reads_as I.gives folder.now (FilesBelow folder.now (map (λ g. g.now) exclude.now))) inputs.old (seen_text result) inputs.new }
{
    match inputs.list_files(alloc, folder, exclude) {
        Ok(list) => Ok(list),
        Err(fault) => Err(read_failure(alloc, fault, folder.as_bytes())?),
    }
}
