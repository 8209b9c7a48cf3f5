//! The lists of a graph, from what is known of each file.
ghost use Rattle.std.specs.Prelude.{◌≡◌, ◌+◌, ◌<◌, ◌≤◌, ◌^◌, ◌&&◌, ◌||◌, ℕ, true, filter, if◌then◌else◌, length, nat_lt, IfOk, IfSome, OnOk};
ghost use Rattle.std.specs.List.{list_any};
ghost use Rattle.inc_graph.specs.IncludeGraph.{most_directives, IsRefusalWithin};
ghost use Rattle.inc_graph.specs.Views.{seen_parts};
ghost use Rattle.inc_graph.specs.FileEntries.{seen_entry};
ghost use Rattle.inc_graph.specs.GraphLists.{AreNumbered, bad_states, first_refusal, total, counted, is_include, defines, state_defines, flag_at, with_entry, with_entries, with_states};

use crate::building::GraphRefusal;
use crate::building::entries::{Entries, Entry};
use crate::building::file_entries::FileState;
use crate::building::states::FileStates;
use crate::graphs::{Blocker, BlockerKind, Edge, EdgeId, Parts};
use crate::header_names::HeaderName;
use crate::missing_lists::Missing;
use inc_lookup::{DirectiveId, FileId, Project};
use std::alloc::{AllocError, Global};

/// The most directives of a graph: edges, missing ones and blockers together.
const MOST_DIRECTIVES: usize = 1_000_000;

/// The refusal of the first bad file.
pub(crate) fn first_bad(project: &Project<'_>, states: &FileStates) -> Option<GraphRefusal>
    requires { length states.now ≡ length project.now.paths }
    ensures first { result ≡ first_refusal (bad_states 0 states.now) }
    ensures within { IfSome result (λ refusal. IsRefusalWithin (length project.now.paths) refusal) }
{
    for place in 0..states.len() {
        if let FileState::Bad(fault) = states.state(place) {
            return Some(GraphRefusal::BadFile {
                file: file_at(project, place),
                fault: *fault,
            });
        }
    }
    None
}

/// How many include directives the files have; `None` where they are more than a graph may have.
pub(crate) fn count_directives(states: &FileStates) -> Option<usize>
    ensures { result ≡ counted (total states.now) }
{
    let mut count = 0;
    for place in 0..states.len() {
        if let FileState::Read(entries) = states.state(place) {
            let more = include_count(entries);
            if more > MOST_DIRECTIVES - count {
                return None;
            }
            count += more;
        }
    }
    Some(count)
}

/// How many of what is kept of a file are include directives.
fn include_count(entries: &Entries) -> usize
    ensures { result ≡ length (filter is_include entries.now) }
{
    let mut count = 0;
    for index in 0..entries.len() {
        if is_include(&entries.at(index)) {
            count += 1;
        }
    }
    count
}

/// Whether it is an include directive.
fn is_include(entry: &Entry<HeaderName<'_>>) -> bool
    ensures { result ≡ is_include (seen_entry entry.now) }
{
    !matches!(entry, Entry::Defines { .. })
}

/// For each of so many names that no build defines whether a file defines it that was read.
pub(crate) fn defined_names(
    alloc: Global,
    states: &FileStates,
    count: usize,
) -> Result<Vec<bool>, AllocError>
    ensures { IfOk result (λ flags. (name : ℕ) → flag_at flags.items name
        ≡ nat_lt name count && list_any (state_defines name) states.now) }
{
    let mut flags = vec![in alloc; false; count]?;
    // Nearly always; then nothing is looked at.
    if count == 0 {
        return Ok(flags);
    }
    for place in 0..states.len() {
        if let FileState::Read(entries) = states.state(place) {
            flag_definitions(&mut flags, entries);
        }
    }
    Ok(flags)
}

/// Sets the flags of the names that are defined among what is kept of a file.
fn flag_definitions(flags: &mut Vec<bool>, entries: &Entries)
    ensures long { length flags.new.items ≡ length flags.old.items }
    ensures flags { (name : ℕ) → flag_at flags.new.items name
        ≡ flag_at flags.old.items name || (nat_lt name (length flags.old.items) && list_any (defines name) entries.now) }
{
    for index in 0..entries.len() {
        flag_definition(flags, &entries.at(index));
    }
}

/// Sets the flag of the name that is defined, if one is.
fn flag_definition(flags: &mut Vec<bool>, entry: &Entry<HeaderName<'_>>)
    ensures long { length flags.new.items ≡ length flags.old.items }
    ensures flags { (name : ℕ) → flag_at flags.new.items name
        ≡ flag_at flags.old.items name || (nat_lt name (length flags.old.items) && defines name (seen_entry entry.now)) }
{
    if let Entry::Defines { name, .. } = entry {
        let name = *name as usize;
        if name < flags.len() {
            flags[name] = true;
        }
    }
}

/// Adds the include directives of the files to the lists of a graph. The flags say which of the names that no build defines a file defines.
pub(crate) fn add_states(
    parts: &mut Parts,
    project: &Project<'_>,
    states: &FileStates,
    defined: &[bool],
) -> Result<(), AllocError>
    requires files { length states.now ≡ length project.now.paths }
    requires few { length parts.old.edges.items + total
        states.now ≤ most_directives }
    requires numbers { AreNumbered parts.old }
    ensures lists { OnOk result (seen_parts parts.new
        ≡ with_states (flag_at defined.now) (seen_parts parts.old) 0 states.now) }
    ensures numbers { OnOk result (AreNumbered parts.new) }
{
    for place in 0..states.len() {
        if let FileState::Read(entries) = states.state(place) {
            add_entries(parts, file_at(project, place), entries, defined)?;
        }
    }
    Ok(())
}

/// Adds the include directives of a file.
fn add_entries(
    parts: &mut Parts,
    file: FileId,
    entries: &Entries,
    defined: &[bool],
) -> Result<(), AllocError>
    requires few { length parts.old.edges.items + length (filter is_include entries.now) ≤ most_directives }
    requires numbers { AreNumbered parts.old }
    ensures lists { OnOk result (seen_parts parts.new
        ≡ with_entries (flag_at defined.now) file (seen_parts parts.old) entries.now) }
    ensures numbers { OnOk result (AreNumbered parts.new) }
    ensures long { OnOk result
        (length parts.new.edges.items ≤ length parts.old.edges.items + length (filter is_include entries.now)) }
{
    for index in 0..entries.len() {
        add_entry(parts, file, &entries.at(index), defined)?;
    }
    Ok(())
}

/// Adds an include directive of a file.
fn add_entry(
    parts: &mut Parts,
    file: FileId,
    entry: &Entry<HeaderName<'_>>,
    defined: &[bool],
) -> Result<(), AllocError>
    requires few { length parts.old.edges.items < 2 ^ 32 }
    requires numbers { AreNumbered parts.old }
    ensures lists { OnOk result (seen_parts parts.new
        ≡ with_entry (flag_at defined.now) file (seen_parts parts.old) (seen_entry entry.now)) }
    ensures numbers { OnOk result (AreNumbered parts.new) }
    ensures long { OnOk result (length parts.new.edges.items ≤ length parts.old.edges.items + (if is_include (seen_entry entry.now) then 1 else 0)) }
{
    match entry {
        Entry::Edge { to, line } => {
            let id = EdgeId::new(parts.edges.len() as u32);
            parts.edges.push(Edge {
                id,
                from: file,
                to: *to,
                line: *line,
            })?;
        }
        Entry::Missing { line, header } => parts.missing.push(Missing {
            file,
            line: *line,
            header: *header,
        })?,
        Entry::Blocker { line, kind } => parts.blockers.push(Blocker {
            file,
            line: *line,
            kind: *kind,
        })?,
        Entry::ByName { name, line } => {
            if flag_at(defined, *name as usize) {
                parts.blockers.push(Blocker {
                    file,
                    line: *line,
                    kind: BlockerKind::Computed,
                })?;
            }
        }
        Entry::Defines { line, .. } => parts.definitions.push(DirectiveId { file, line: *line })?,
    }
    Ok(())
}

/// Whether the flag at a place is set.
fn flag_at(flags: &[bool], place: usize) -> bool
    ensures { result ≡ flag_at flags.now place }
{
    match flags.get(place) {
        Some(flag) => *flag,
        None => false,
    }
}

/// The file at a place of the list.
fn file_at(project: &Project<'_>, place: usize) -> FileId
    requires { place < length project.now.paths }
    ensures { result ≡ place }
{
    match project.at(place) {
        Some(file) => file,
        None => unreachable!(),
    }
}
