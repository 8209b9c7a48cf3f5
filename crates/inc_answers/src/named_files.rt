//! Which files of a project paths name.
ghost use Rattle.std.specs.Prelude.{◌≡◌, ◌<◌, ◌∷◌, ◌++◌, suc, [], None, Ok, OnOk, Some, if◌then◌else◌, filter, filter_map, length, map, option_map, slice_index_or, false, IfErr, IfOk, IfSome, IsTrue};
ghost use Rattle.std.specs.List.{All, range_with_len};
ghost use Rattle.std.specs.List.Sorted.{IsStrictlyIncreasing};
ghost use Rattle.inc_graph.specs.FileSets.{AreFlags};
ghost use Rattle.inc_answers.specs.NamedFiles.{file_at, files_at, first_unnamed, given_paths, headers_at, some_files_at, source_files_at, source_of, source_paths, sources_at, sources_of, IsNameFault};
ghost use Rattle.inc_graph.specs.IncludeGraph.{are_rising};
ghost use Rattle.inc_graph.specs.declared.building.Source.{Source};

use crate::asked::Question;
use inc_graph::Source;
use inc_lookup::{FileId, Project, normalise};
use std::alloc::{AllocError, AllocFailed, Global};

/// Why paths name no files.
#[derive(Clone, Copy)]
pub enum NameFault {
    /// No file of the project has the path at this place, the first such path.
    Unnamed(usize),
    /// Memory ran out.
    NoMemory,
}

impl From<AllocError> for NameFault {
    ghost use Rattle.inc_answers.specs.declared.named_files.NameFault.TheVariants.{NoMemory};

    ghost from_gives = { λ _ e. e ≡ NoMemory };

    fn from(_error: AllocError) -> NameFault {
        NameFault::NoMemory
    }
}

impl<T: Drop> From<AllocFailed<T>> for NameFault {
    ghost use Rattle.inc_answers.specs.declared.named_files.NameFault.TheVariants.{NoMemory};

    ghost from_gives = { λ _ e. e ≡ NoMemory };

    fn from(_failed: AllocFailed<T>) -> NameFault {
        NameFault::NoMemory
    }
}

/// The headers of a question, as [`files_at`] has files: none where it is about sources alone. Else the first is missing where there is no
/// path.
pub fn headers_at(
    alloc: Global,
    project: &Project<'_>,
    to: Option<&[&[u8]]>,
) -> Result<Vec<FileId>, NameFault>
    ensures files { IfOk result (λ files. headers_at project.now (option_map (λ ps. map (λ p. p.now) ps.now) to.entry) ≡ Ok files.items) }
    ensures within { IfOk result (λ files. All (λ f. f < length project.now.paths) files.items) }
    ensures rise { IfOk result (λ files. IsStrictlyIncreasing files.items) }
    ensures some { IfSome to.entry (λ _. IfOk result (λ files. 0 < length files.items)) }
    ensures fault { IfErr result (IsNameFault (headers_at project.now (option_map (λ ps. map (λ p. p.now) ps.now) to.entry))) }
{
    match to {
        Some(paths) => some_files_at(alloc, project, paths),
        None => Ok(Vec::new(alloc)),
    }
}

/// The sources of a question, each with the include paths with which it is read. Where it is about sources alone, the first is missing
/// where there is no path.
pub fn sources_at(
    alloc: Global,
    project: &Project<'_>,
    question: &Question<'_>,
) -> Result<Vec<Source>, NameFault>
    ensures sources { IfOk result (λ sources. sources_at project.now question.now ≡ Ok sources.items) }
    ensures within { IfOk result (λ sources. All (λ (s : Source). s.file < length project.now.paths) sources.items) }
    ensures paths { IfOk result (λ sources. All (λ (s : Source). s.path < suc (length question.now.others)) sources.items) }
    ensures rise { IfOk result (λ sources. IsTrue (are_rising sources.items)) }
    ensures some { question.now.to ≡ None → IfOk result (λ sources. 0 < length sources.items) }
    ensures fault { IfErr result (IsNameFault (sources_at project.now question.now)) }
{
    match source_files_at(alloc, project, question.from, question.to) {
        Ok(files) => Ok(sources_of(alloc, question, &files)?),
        Err(fault) => Err(fault),
    }
}

/// Files as sources.
fn sources_of(
    alloc: Global,
    question: &Question<'_>,
    files: &[FileId],
) -> Result<Vec<Source>, AllocError>
    ensures { IfOk result (λ sources. sources.items ≡ sources_of question.now files.now) }
{
    let mut sources = Vec::with_capacity(alloc, files.len())?;
    for file in files {
        add_sources(&mut sources, question, *file)?;
    }
    Ok(sources)
}

/// Adds a file as a source with each of its include paths.
fn add_sources(
    sources: &mut Vec<Source>,
    question: &Question<'_>,
    file: FileId,
) -> Result<(), AllocError>
    ensures { OnOk result (sources.new.items ≡ sources.old.items ++ map (source_of file) (source_paths question.now file)) }
{
    let count = question.others.len() + 1;
    let before = sources.len();
    add_given(sources, file, given_paths(question, file), count)?;
    if sources.len() == before {
        add_each(sources, file, count)?;
    }
    Ok(())
}

/// The include paths that are given for a file.
fn given_paths<'q>(question: &'q Question<'_>, file: FileId) -> &'q [usize]
    ensures { result.now ≡ slice_index_or question.now.read_with file [] }
{
    match question.read_with.get(file.index()) {
        Some(paths) => paths,
        None => &[],
    }
}

/// Adds a file as a source with those of these include paths that are among so many.
fn add_given(
    sources: &mut Vec<Source>,
    file: FileId,
    paths: &[usize],
    count: usize,
) -> Result<(), AllocError>
    ensures { OnOk result (sources.new.items ≡ sources.old.items ++ map (source_of file) (given_paths count paths.now)) }
{
    for path in paths {
        if *path < count {
            sources.push(Source { file, path: *path })?;
        }
    }
    Ok(())
}

/// Adds a file as a source with each of so many include paths.
fn add_each(sources: &mut Vec<Source>, file: FileId, count: usize) -> Result<(), AllocError>
    ensures { OnOk result (sources.new.items ≡ sources.old.items ++ map (source_of file) (range_with_len 0 count)) }
{
    for path in 0..count {
        sources.push(Source { file, path })?;
    }
    Ok(())
}

/// Their files.
fn source_files_at(
    alloc: Global,
    project: &Project<'_>,
    from: &[&[u8]],
    to: Option<&[&[u8]]>,
) -> Result<Vec<FileId>, NameFault>
    ensures files { IfOk result (λ files. source_files_at project.now (map (λ p. p.now) from.now) (option_map (λ ps. map (λ p. p.now) ps.now) to.entry) ≡ Ok files.items) }
    ensures within { IfOk result (λ files. All (λ f. f < length project.now.paths) files.items) }
    ensures rise { IfOk result (λ files. IsStrictlyIncreasing files.items) }
    ensures some { to.entry ≡ None → IfOk result (λ files. 0 < length files.items) }
    ensures fault { IfErr result (IsNameFault (source_files_at project.now (map (λ p. p.now) from.now) (option_map (λ ps. map (λ p. p.now) ps.now) to.entry))) }
{
    match to {
        Some(_) => files_at(alloc, project, from),
        None => some_files_at(alloc, project, from),
    }
}

/// The files that paths name, as [`files_at`] has them; where there is no path, the first is missing.
fn some_files_at(
    alloc: Global,
    project: &Project<'_>,
    paths: &[&[u8]],
) -> Result<Vec<FileId>, NameFault>
    ensures files { IfOk result (λ files. some_files_at project.now (map (λ p. p.now) paths.now) ≡ Ok files.items) }
    ensures within { IfOk result (λ files. All (λ f. f < length project.now.paths) files.items) }
    ensures rise { IfOk result (λ files. IsStrictlyIncreasing files.items) }
    ensures some { IfOk result (λ files. 0 < length files.items) }
    ensures fault { IfErr result (IsNameFault (some_files_at project.now (map (λ p. p.now) paths.now))) }
{
    if paths.is_empty() {
        return Err(NameFault::Unnamed(0));
    }
    files_at(alloc, project, paths)
}

/// The files that paths name, in the order of the project, each once.
pub fn files_at(
    alloc: Global,
    project: &Project<'_>,
    paths: &[&[u8]],
) -> Result<Vec<FileId>, NameFault>
    ensures files { IfOk result (λ files. files_at project.now (map (λ p. p.now) paths.now) ≡ Ok files.items) }
    ensures within { IfOk result (λ files. All (λ f. f < length project.now.paths) files.items) }
    ensures rise { IfOk result (λ files. IsStrictlyIncreasing files.items) }
    ensures fault { IfErr result (IsNameFault (files_at project.now (map (λ p. p.now) paths.now))) }
{
    let flags = flag_files(alloc, project, paths)?;
    Ok(flagged_files(alloc, project, &flags)?)
}

/// For each file of the project whether a path names it, so that no file is looked for along a list.
fn flag_files(alloc: Global, project: &Project<'_>, paths: &[&[u8]]) -> Result<Vec<bool>, NameFault>
    ensures flags { IfOk result (λ flags.
        AreFlags (filter_map (file_at project.now) (map (λ p. p.now) paths.now)) flags.items) }
    ensures long { IfOk result (λ flags. length flags.items ≡ length project.now.paths) }
    ensures named { IfOk result (λ flags. first_unnamed project.now (map (λ p. p.now) paths.now) ≡ None) }
    ensures fault { IfErr result (IsNameFault (files_at project.now (map (λ p. p.now) paths.now))) }
{
    let mut flags = vec![in alloc; false; project.count()]?;
    let mut place = 0;
    for path in paths {
        let Some(file) = file_at(alloc, project, path)? else {
            return Err(NameFault::Unnamed(place));
        };
        flags[file.index()] = true;
        place += 1;
    }
    Ok(flags)
}

/// The files that have a flag, in their order.
pub fn flagged_files(
    alloc: Global,
    project: &Project<'_>,
    flags: &[bool],
) -> Result<Vec<FileId>, AllocError>
    requires { length flags.now ≡ length project.now.paths }
    ensures { IfOk result (λ files. files.items
        ≡ filter (λ f. slice_index_or flags.now f false) (range_with_len 0 (length project.now.paths))) }
{
    let mut files = Vec::new(alloc);
    for place in 0..flags.len() {
        add_flagged(&mut files, project, flags, place)?;
    }
    Ok(files)
}

/// Adds the file at a place of the list, if it has a flag.
fn add_flagged(
    files: &mut Vec<FileId>,
    project: &Project<'_>,
    flags: &[bool],
    place: usize,
) -> Result<(), AllocError>
    requires long { length flags.now ≡ length project.now.paths }
    requires within { place < length flags.now }
    ensures { OnOk result (files.new.items
        ≡ files.old.items ++ filter (λ f. slice_index_or flags.now f false) (place ∷ [])) }
{
    if let Some(file) = flagged_file(project, flags, place) {
        files.push(file)?;
    }
    Ok(())
}

/// The file at a place of the list, if it has a flag.
fn flagged_file(project: &Project<'_>, flags: &[bool], place: usize) -> Option<FileId>
    requires long { length flags.now ≡ length project.now.paths }
    requires within { place < length flags.now }
    ensures { result ≡ (if slice_index_or flags.now place false then Some place else None) }
{
    if flags[place] {
        project.at(place)
    } else {
        None
    }
}

/// The file that a path names.
pub fn file_at(
    alloc: Global,
    project: &Project<'_>,
    path: &[u8],
) -> Result<Option<FileId>, AllocError>
    ensures file { IfOk result (λ file. file ≡ file_at project.now path.now) }
    ensures within { IfOk result (λ file. IfSome file (λ f. f < length project.now.paths)) }
{
    match normalise(alloc, path)? {
        Some(path) => Ok(project.file(&path)),
        None => Ok(None),
    }
}
