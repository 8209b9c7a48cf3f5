//! The files of the closure, and what is read of them.
//!
//! Each include path is searched after the one before it, from the sources that are read with it. A file is read once, when the first of
//! the searches reaches it. Where there are several include paths its direct include directives are kept, and a later search that reaches
//! it looks each of them up once, as the first did when it read the file; only what is `#include_next` is followed again in a search that
//! finds the file in another way. So no more is looked up than the names of the files for each include path, and what one search has
//! found is given up before the next begins.
ghost use Rattle.std.specs.Prelude.{◌≡◌, ◌<◌, ◌≤◌, ◌+◌, ◌∷◌, ℕ, [], length, map, replicate, slice_index_or, None, IfOk, IfErr, IfSome, OnOk, Ok};
ghost use Rattle.std.specs.List.{All, slice_set};
ghost use Rattle.inc_text.specs.declared.devices.TheConstants.{LONGEST_FILE};
ghost use Rattle.inc_lookup.specs.Given.{HoldsOfGiven, FailsAfter};
ghost use Rattle.inc_lookup.specs.declared.projects.Found.{Found};
ghost use Rattle.inc_graph.specs.ClosureSearch.{AreStates, AreSearchedBefore, FailsThen, IsSearchedToo};
ghost use Rattle.inc_graph.specs.OnePath.{path_sources};
ghost use Rattle.inc_graph.specs.IncludeGraph.{IsRefusalWithin};
ghost use Rattle.inc_graph.specs.Nexts.{directs_found, nexts_found, seen_placed, with_directs, with_nexts};
ghost use Rattle.inc_graph.specs.Places.{Reaches};
ghost use Rattle.inc_graph.specs.ReadFiles.{IsOfClosure, IsReachedAfter, IsOfFiles, IsUnread, read_fault_of};
ghost use Rattle.inc_graph.specs.declared.building.Source.{Source};

use crate::building::directs::{DirectLists, Directs, PlacedDirect};
use crate::building::file_entries::read_file;
use crate::building::lookups::Lookup;
use crate::building::nexts::{Next, NextLists};
use crate::building::places::Places;
use crate::building::states::FileStates;
use crate::building::{GraphRefusal, Source};
use crate::file_sets::FileSet;
use crate::settings::Setting;
use inc_directive::search_after;
use inc_lookup::{FileId, Found, Project, Sources};
use inc_text::ReadFault;
use std::alloc::{AllocError, Global};

/// Reaches what these `#include_next` directives of a file find in it, which is found so, and keeps to which files they lead.
fn follow_nexts(
    alloc: Global,
    nexts: &[Next],
    at: &Found,
    places: &mut Places,
    states: &mut FileStates,
) -> Result<(), AllocError>
    requires found { All (λ (f : Found). f.file < places.old.files) (nexts_found at.now.next nexts.now) }
    requires file { at.now.file < length states.old }
    ensures files { OnOk result (places.new.files ≡ places.old.files) }
    ensures places { OnOk result (Reaches places.old.found
        (nexts_found at.now.next nexts.now) places.new.found) }
    ensures states { OnOk result (states.new ≡ slice_set states.old at.now.file
        (with_nexts at.now.next (slice_index_or states.old at.now.file None) nexts.now)) }
{
    for next in nexts {
        if let Some(found) = &next.find(at.next) {
            places.reach(alloc, found)?;
            states.lead(at.file, next.index(), found.file);
        }
    }
    Ok(())
}

/// The bytes of a file.
fn read_source<S: Sources>(
    alloc: Global,
    sources: &mut S,
    file: FileId,
) -> Result<Vec<u8>, GraphRefusal>
    ensures gives { IfOk result (λ bytes. S.gives sources.old file (Ok bytes.items) sources.new) }
    ensures short { IfOk result (λ bytes. length bytes.items ≤ LONGEST_FILE) }
    ensures unread { IfErr result (λ fault. IsUnread S.gives sources.old sources.new file fault) }
{
    match sources.read(alloc, file) {
        Ok(bytes) => Ok(bytes),
        Err(ReadFault::TooLong) => Err(GraphRefusal::FileTooLong { file }),
        Err(ReadFault::Read) => Err(GraphRefusal::CannotRead { file }),
        Err(ReadFault::NoMemory) => Err(GraphRefusal::NoMemory),
    }
}

/// Reaches what the direct include directives of a file find in it, which is found so in a further include path, and keeps to which files
/// they lead.
fn follow_directs(
    alloc: Global,
    lookup: &Lookup<'_>,
    directs: &Directs,
    at: &Found,
    places: &mut Places,
    states: &mut FileStates,
) -> Result<(), AllocError>
    requires at { at.now.file < length lookup.now.paths }
    requires files { places.old.files ≡ length lookup.now.paths }
    requires file { at.now.file < length states.old }
    ensures files { OnOk result (places.new.files ≡ places.old.files) }
    ensures places { OnOk result (Reaches places.old.found
        (directs_found lookup.now at.now directs.now) places.new.found) }
    ensures states { OnOk result (states.new ≡ slice_set states.old at.now.file
        (with_directs lookup.now at.now (slice_index_or states.old at.now.file None) directs.now)) }
{
    for place in 0..directs.len() {
        follow_direct(alloc, lookup, &directs.at(place), at, places, states)?;
    }
    Ok(())
}

/// The same of one of them.
fn follow_direct(
    alloc: Global,
    lookup: &Lookup<'_>,
    direct: &PlacedDirect<'_>,
    at: &Found,
    places: &mut Places,
    states: &mut FileStates,
) -> Result<(), AllocError>
    requires at { at.now.file < length lookup.now.paths }
    requires files { places.old.files ≡ length lookup.now.paths }
    requires file { at.now.file < length states.old }
    ensures files { OnOk result (places.new.files ≡ places.old.files) }
    ensures places { OnOk result (Reaches places.old.found
        (directs_found lookup.now at.now (seen_placed direct.now ∷ [])) places.new.found) }
    ensures states { OnOk result (states.new ≡ slice_set states.old at.now.file
        (with_directs lookup.now at.now (slice_index_or states.old at.now.file None) (seen_placed direct.now ∷ []))) }
{
    let after = search_after(direct.by, at.next);
    let header = direct.header;
    if let Some(found) = &lookup.find_from(alloc, at.file, header.form, after, header.name)? {
        places.reach(alloc, found)?;
        states.lead(at.file, direct.index as usize, found.file);
    }
    Ok(())
}

/// What is known of the files that were read.
#[derive(Drop)]
struct Known {
    /// What their include directives are to the graph.
    states: FileStates,
    /// Their direct include directives, where there are several include paths.
    directs: DirectLists,
}

impl Known {
    /// Of so many files none is read.
    fn none(alloc: Global, count: usize, paths: usize) -> Result<Known, AllocError>
        ensures states { IfOk result (λ known. known.states ≡ replicate count None) }
        ensures directs { IfOk result (λ known. 1 < paths → known.directs ≡ replicate count []) }
    {
        let kept = if paths > 1 { count } else { 0 };
        Ok(Known {
            states: FileStates::unread(alloc, count)?,
            directs: DirectLists::none(alloc, kept)?,
        })
    }
}

/// Searches an include path from its sources, where those before it are searched. Each file is read when it is reached, unless it was read
/// before; no header is read. Nothing is taken for an include path that no source is read with, of which a build may have many.
fn search_path<S: Sources>(
    alloc: Global,
    lookup: &Lookup<'_>,
    sources: &mut S,
    from: &[FileId],
    headers: &FileSet,
    setting: &Setting<'_>,
    known: &mut Known,
) -> Result<(), GraphRefusal>
    requires from { All (λ f. f < length lookup.now.paths) from.now }
    requires before { AreSearchedBefore S.gives sources.old setting.now headers.now lookup.now from.now
        known.old.states known.old.directs }
    ensures searched { OnOk result (IsSearchedToo S.gives sources.old sources.new setting.now headers.now lookup.now from.now
        known.old.states known.old.directs known.new.states known.new.directs) }
    ensures unread { IfErr result (λ fault. IfSome (read_fault_of fault) (λ r.
        FailsThen S.gives sources.old sources.new setting.now headers.now lookup.now from.now
        known.old.states known.old.directs r.0 r.1)) }
    ensures within { IfErr result (λ fault. IsRefusalWithin (length lookup.now.paths) fault) }
    ensures unread_alone { IfErr result (λ fault. IsOfFiles fault → ⊥) }
{
    if from.is_empty() {
        return Ok(());
    }
    let mut places = Places::start(alloc, lookup.count(), from)?;
    let mut nexts = NextLists::none(alloc, lookup.count())?;
    let mut taken = 0;
    while taken < places.len() {
        let at = &places.at(taken);
        taken += 1;
        if headers.contains(at.file) {
            continue;
        }
        if let Some(own) = nexts.of(at.file) {
            follow_nexts(alloc, own, at, &mut places, &mut known.states)?;
            continue;
        }
        if known.states.is_read(at.file) {
            let directs = known.directs.of(at.file);
            let own = directs.nexts(alloc, lookup, at.file)?;
            follow_directs(alloc, lookup, directs, at, &mut places, &mut known.states)?;
            nexts.set(at.file, own)?;
            continue;
        }
        let bytes = read_source(alloc, sources, at.file)?;
        let mut own = Vec::new(alloc);
        let read = read_file(alloc, lookup, at, bytes, setting, &mut places, &mut own)?;
        known.states.set(at.file, read.state)?;
        known.directs.set(at.file, read.directs)?;
        nexts.set(at.file, own)?;
    }
    Ok(())
}

/// What is known of each file of the project once the files are read that include directives reach from the files of `from` without
/// leaving from a header. Each of them is read when it is reached, and once; no header is read.
pub(crate) fn read_closure<'p, S: Sources>(
    alloc: Global,
    project: &'p Project<'p>,
    sources: &mut S,
    from: &[Source],
    headers: &FileSet,
    setting: &'p Setting<'p>,
) -> Result<FileStates, GraphRefusal>
    requires from { All (λ (s : Source). s.file < length project.now.paths) from.now }
    requires paths { All (λ (s : Source). s.path < length setting.now.others + 1) from.now }
    ensures states { IfOk result (λ states.
        HoldsOfGiven S.gives sources.old sources.new project.now (λ given listing.
        AreStates setting.now listing from.now headers.now states
        × IsOfClosure setting.now from.now headers.now given listing)) }
    ensures unread { IfErr result (λ fault. IfSome (read_fault_of fault) (λ r.
        FailsAfter S.gives sources.old sources.new project.now r.0 r.1
        (IsReachedAfter setting.now from.now headers.now r.0))) }
    ensures within { IfErr result (λ fault. IsRefusalWithin (length project.now.paths) fault) }
    ensures unread_alone { IfErr result (λ fault. IsOfFiles fault → ⊥) }
{
    let lists = files_by_path(alloc, from, setting.path_count())?;
    let mut known = Known::none(alloc, project.count(), lists.len())?;
    for path in 0..lists.len() {
        let lookup = &setting.lookup(project, path);
        search_path(
            alloc,
            lookup,
            sources,
            &lists[path],
            headers,
            setting,
            &mut known,
        )?;
    }
    Ok(known.states)
}

/// The files of sources, by the numbers of so many include paths.
fn files_by_path(
    alloc: Global,
    from: &[Source],
    paths: usize,
) -> Result<Vec<Vec<FileId>>, AllocError>
    requires { All (λ (s : Source). s.path < paths) from.now }
    ensures long { IfOk result (λ lists. length lists.items ≡ paths) }
    ensures lists { IfOk result (λ lists. (path : ℕ) → path < paths →
        slice_index_or (map (λ v. v.items) lists.items) path [] ≡ path_sources path from.now) }
{
    let mut lists = empty_lists(alloc, paths)?;
    for source in from {
        lists[source.path].push(source.file)?;
    }
    Ok(lists)
}

/// So many empty lists.
fn empty_lists(alloc: Global, count: usize) -> Result<Vec<Vec<FileId>>, AllocError>
    ensures { IfOk result (λ lists. map (λ v. v.items) lists.items ≡ replicate count []) }
{
    let mut lists = Vec::new(alloc);
    for _path in 0..count {
        lists.push(Vec::new(alloc))?;
    }
    Ok(lists)
}
