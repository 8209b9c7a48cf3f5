//! The include paths of a build beside the project's own, and with which of them its files are read as sources.
ghost use Rattle.std.specs.Prelude.{◌≡◌, ◌≢◌, ◌<◌, [], Some, Err, IfOk, OnOk, length, map, replicate};
ghost use Rattle.inc_inputs.specs.BuildPlaces as spec;
ghost use Rattle.inc_inputs.specs.BuildProjects.{dir_words};
ghost use Rattle.inc_inputs.specs.IncludePath.{include_path};
ghost use Rattle.inc_inputs.specs.Reports.{out_of_memory};
ghost use Rattle.inc_inputs.specs.Views.{dirs_in, seen_include_paths, seen_search, source_in};

use crate::build_dirs::Dirs;
use crate::build_sources::BuildSource;
use crate::ends::file_at;
use crate::failures::{Failure, project_failure};
use crate::projects::names_of;
use inc_lookup::{IncludePath, NamedPath, Project, named_path};
use std::alloc::{AllocError, Global};

/// Include paths by their directories, as a project has its own by the same directories.
pub fn other_paths(alloc: Global, seed: u64, others: &[Dirs]) -> Result<Vec<IncludePath>, Failure>
    ensures { seen_include_paths result ≢ Err out_of_memory →
        seen_include_paths result ≡ spec.include_paths_of (map dirs_in others.now) }
{
    let mut paths = Vec::new(alloc);
    let mut at = 0;
    while at < others.len() {
        match path_in(alloc, seed, &others[at]) {
            Ok(path) => paths.push(path)?,
            Err(failure) => return Err(failure),
        }
        at += 1;
    }
    Ok(paths)
}

/// One of them.
fn path_in(alloc: Global, seed: u64, dirs: &Dirs) -> Result<IncludePath, Failure>
    ensures { seen_search result ≢ Err out_of_memory → seen_search result ≡ spec.path_in (dirs_in dirs.now) }
{
    match searched(alloc, seed, dirs) {
        Ok(path) => path_by(alloc, seed, &path),
        Err(_) => Err(Failure::NoMemory),
    }
}

/// The directories in the order in which they are searched.
fn searched<'d>(alloc: Global, seed: u64, dirs: &'d Dirs) -> Result<NamedPath<'d>, AllocError>
    ensures { IfOk result (λ path. path ≡ include_path (dir_words (dirs_in dirs.entry.now)) []) }
{
    let quoted = slices_of(alloc, &dirs.quoted)?;
    let own = slices_of(alloc, &dirs.dirs)?;
    let mut system = slices_of(alloc, &dirs.system)?;
    system.extend_from_slice(&slices_of(alloc, &dirs.last)?)?;
    named_path(alloc, seed, &quoted, &own, &system)
}

/// Directories as they are written.
fn slices_of(alloc: Global, dirs: &[Vec<u8>]) -> Result<Vec<&[u8]>, AllocError>
    ensures { IfOk result (λ slices. map (λ s. s.now) slices.items ≡ map (λ d. d.items) dirs.now) }
{
    let mut slices = Vec::with_capacity(alloc, dirs.len())?;
    for dir in dirs {
        slices.push(dir.as_slice())?;
    }
    Ok(slices)
}

/// The include path of directories.
fn path_by(alloc: Global, seed: u64, path: &NamedPath<'_>) -> Result<IncludePath, Failure>
    ensures { seen_search result ≢ Err out_of_memory → seen_search result ≡ spec.path_by path.now }
{
    let names = names_of(alloc, &path.dirs)?;
    match IncludePath::new(alloc, seed, path.quoted, &names) {
        Ok(path) => Ok(path),
        Err(fault) => Err(project_failure(alloc, fault, &[], &names)?),
    }
}

/// For each file of a project the include paths with which a build compiles it; nothing where no source is given.
pub fn read_with(
    alloc: Global,
    project: &Project<'_>,
    compiled: &[BuildSource],
) -> Result<Vec<Vec<usize>>, AllocError>
    ensures { IfOk result (λ lists. map (λ l. l.items) lists.items ≡ spec.read_with project.now (map source_in compiled.now)) }
{
    if compiled.is_empty() {
        return Ok(Vec::new(alloc));
    }
    let lists = empty_lists(alloc, project.count())?;
    with_sources(alloc, project, lists, compiled)
}

/// Empty lists.
fn empty_lists(alloc: Global, count: usize) -> Result<Vec<Vec<usize>>, AllocError>
    ensures { IfOk result (λ lists. map (λ l. l.items) lists.items ≡ replicate count []) }
{
    let mut lists = Vec::with_capacity(alloc, count)?;
    let mut at = 0;
    while at < count {
        lists.push(Vec::new(alloc))?;
        at += 1;
    }
    Ok(lists)
}

/// Lists with those of sources of a build.
fn with_sources(
    alloc: Global,
    project: &Project<'_>,
    lists: Vec<Vec<usize>>,
    compiled: &[BuildSource],
) -> Result<Vec<Vec<usize>>, AllocError>
    requires { length lists.items ≡ length project.now.paths }
    ensures { IfOk result (λ all. map (λ l. l.items) all.items
        ≡ spec.with_sources project.now (map (λ l. l.items) lists.items) (map source_in compiled.now)) }
{
    let mut lists = lists;
    let mut at = 0;
    while at < compiled.len() {
        add_source(alloc, project, &mut lists, &compiled[at])?;
        at += 1;
    }
    Ok(lists)
}

/// Adds the include paths of a source to those of its file, if it is one.
fn add_source(
    alloc: Global,
    project: &Project<'_>,
    lists: &mut Vec<Vec<usize>>,
    source: &BuildSource,
) -> Result<(), AllocError>
    requires { length lists.old.items ≡ length project.now.paths }
    ensures lists { OnOk result (map (λ l. l.items) lists.new.items
        ≡ spec.with_source project.now (map (λ l. l.items) lists.old.items) (source_in source.now)) }
    ensures long { OnOk result (length lists.new.items ≡ length project.now.paths) }
{
    match file_at(alloc, project, &source.path)? {
        Some(file) => add_more(lists, file.index(), &source.paths),
        None => Ok(()),
    }
}

/// Adds numbers to the list at a place.
fn add_more(lists: &mut Vec<Vec<usize>>, place: usize, more: &[usize]) -> Result<(), AllocError>
    requires { place < length lists.old.items }
    ensures lists { OnOk result (map (λ l. l.items) lists.new.items
        ≡ spec.with_more (map (λ l. l.items) lists.old.items) (Some place) more.now) }
    ensures long { OnOk result (length lists.new.items ≡ length lists.old.items) }
{
    lists[place].extend_from_slice(more)?;
    Ok(())
}
