//! What the include directives of one file are to the graph.
ghost use Rattle.std.specs.Prelude.{◌≡◌, ◌<◌, ◌≤◌, ◌+◌, ℕ, List, [], ◌∷◌, ◌++◌, length, map, filter, filter_map, option_map, option_to_list, IfOk, OnOk, None, Some};
ghost use Rattle.inc_text.specs.PhaseText.{phase_text};
ghost use Rattle.inc_text.specs.declared.devices.TheConstants.{LONGEST_FILE};
ghost use Rattle.inc_directive.specs.Removal.{is_removable, stays};
ghost use Rattle.inc_directive.specs.DirectiveViews.{seen_directive};
ghost use Rattle.inc_directive.specs.Parts.{inclusions_in, lines_of_parts};
ghost use Rattle.inc_lookup.specs.DirectiveLists.{is_listed};
ghost use Rattle.inc_graph.specs.IncludeGraph.{named_place, found_by, lead_entry, name_entry, name_in, defined_at, definitions_in, undefined_place};
ghost use Rattle.inc_graph.specs.HeaderNames.{seen_name};
ghost use Rattle.inc_graph.specs.FileEntries.{NamesNone, definition_entry, named_entry};
ghost use Rattle.inc_graph.specs.Entries.{seen_direct, entry_alone, found_lead, bytes_entries, bytes_found, seen_state};
ghost use Rattle.inc_graph.specs.Nexts.{nexts_from, next_of, next_by, bytes_nexts, bytes_directs, direct_at, directs_from, entry_count};
ghost use Rattle.inc_graph.specs.ClosureSearch.{AreSeveral};
ghost use Rattle.inc_graph.specs.Places.{Reaches};

use crate::building::directs::{Directs, PlacedDirect};
use crate::building::entries::{Entries, Entry};
use crate::building::lookups::Lookup;
use crate::building::nexts::Next;
use crate::building::places::Places;
use crate::graphs::BlockerKind;
use crate::header_names::{HeaderName, short};
use crate::settings::Setting;
use inc_directive::{
    Directive, DirectiveKind, FileFault, FileLines, LineKind, Target, read_lines, search_after,
};
use inc_lookup::{FileId, Form, Found};
use inc_text::{Text, TextFault, splice_owned};
use inc_token::IncludeName;
use std::alloc::{AllocError, Global};

/// What is known of a file.
#[derive(Drop)]
pub(crate) enum FileState {
    /// Nothing: it is not read.
    Unread,
    /// What its include directives are to the graph.
    Read(Entries),
    /// Its first fault.
    Bad(FileFault),
}

/// The text of a file with these bytes.
fn text_of(alloc: Global, bytes: Vec<u8>, setting: &Setting<'_>) -> Result<Text, AllocError>
    requires { length bytes.items ≤ LONGEST_FILE }
    ensures { IfOk result (λ text. text ≡ phase_text setting.now.language bytes.items) }
{
    match splice_owned(alloc, bytes, setting.language()) {
        Ok(text) => Ok(text),
        // The bytes are not too many.
        Err(TextFault::TooLong) => unreachable!(),
        Err(TextFault::NoMemory) => Err(AllocError),
    }
}

/// What is known of a file that was read.
#[derive(Drop)]
pub(crate) struct FileRead {
    pub state: FileState,
    /// Its direct include directives, where there are several include paths.
    pub directs: Directs,
}

/// Reads a file with these bytes, as it was found: reaches the files to which its include directives lead, and adds those that are
/// `#include_next`. Its text and its directives are given up at the return.
pub(crate) fn read_file(
    alloc: Global,
    lookup: &Lookup<'_>,
    at: &Found,
    bytes: Vec<u8>,
    setting: &Setting<'_>,
    places: &mut Places,
    nexts: &mut Vec<Next>,
) -> Result<FileRead, AllocError>
    requires file { at.now.file < length lookup.now.paths }
    requires short { length bytes.items ≤ LONGEST_FILE }
    requires files { places.old.files ≡ length lookup.now.paths }
    requires none { nexts.old.items ≡ [] }
    ensures state { IfOk result (λ read. seen_state read.state
        ≡ Some (bytes_entries setting.now (entry_alone setting.now.undefined lookup.now at.now) at.now.file bytes.items)) }
    ensures directs { IfOk result (λ read. AreSeveral setting.now →
        read.directs ≡ bytes_directs setting.now at.now.file bytes.items) }
    ensures files { IfOk result (λ read. places.new.files ≡ places.old.files) }
    ensures places { IfOk result (λ read. Reaches places.old.found
        (bytes_found setting.now lookup.now at.now bytes.items) places.new.found) }
    ensures nexts { IfOk result (λ read. nexts.new.items
        ≡ bytes_nexts setting.now lookup.now at.now.file bytes.items) }
{
    let text = match text_of(alloc, bytes, setting) {
        Ok(text) => text,
        Err(error) => return Err(error),
    };
    match read_lines(alloc, text, setting.language()) {
        Ok(found) => {
            let mut entries = entries_of(alloc, lookup, setting, at, &found, places, nexts)?;
            add_definitions(&mut entries, setting, &found)?;
            let directs = kept_directs(alloc, setting, at.file, &found)?;
            Ok(FileRead {
                state: FileState::Read(entries),
                directs,
            })
        }
        Err(fault) => match fault.line() {
            Some(_) => Ok(FileRead {
                state: FileState::Bad(fault),
                directs: Directs::new(alloc),
            }),
            None => Err(AllocError),
        },
    }
}

/// The direct include directives of a file, where there are several include paths.
fn kept_directs(
    alloc: Global,
    setting: &Setting<'_>,
    file: FileId,
    found: &FileLines,
) -> Result<Directs, AllocError>
    ensures { IfOk result (λ directs. AreSeveral setting.now →
        directs ≡ directs_from 0 (filter (stays (is_listed setting.now.removed file)) (inclusions_in found.now))) }
{
    if setting.path_count() == 1 {
        return Ok(Directs::new(alloc));
    }
    directs_of(alloc, setting, file, found)
}

/// The direct include directives of a file that are not taken as removed.
fn directs_of(
    alloc: Global,
    setting: &Setting<'_>,
    file: FileId,
    found: &FileLines,
) -> Result<Directs, AllocError>
    ensures { IfOk result (λ directs.
        directs ≡ directs_from 0 (filter (stays (is_listed setting.now.removed file)) (inclusions_in found.now))) }
{
    let mut directs = Directs::new(alloc);
    let mut index = 0;
    let mut left = found.inclusions();
    while let Some(directive) = left.next() {
        if !stays(setting, file, directive) {
            continue;
        }
        index = add_kept(&mut directs, directive, index)?;
    }
    Ok(directs)
}

/// Adds a directive, if it is a direct include directive, where so many include directives come before it; and how many come before the
/// next one.
fn add_kept(directs: &mut Directs, directive: Directive<'_>, index: u32) -> Result<u32, AllocError>
    ensures directs { OnOk result (directs.new ≡ directs.old ++ direct_at index (seen_directive directive.entry).kind) }
    ensures index { IfOk result (λ next. next ≡ index + entry_count (seen_directive directive.entry).kind) }
{
    match directive.kind {
        LineKind::Include(by, Target::Quoted(name)) => {
            directs.push(placed(index, by, Form::Quoted, name))?;
            short(index as usize + 1)
        }
        LineKind::Include(by, Target::Angled(name)) => {
            directs.push(placed(index, by, Form::Angled, name))?;
            short(index as usize + 1)
        }
        LineKind::Include(_, Target::ByName(_) | Target::Computed)
        | LineKind::Other(DirectiveKind::Foreign) => short(index as usize + 1),
        _ => Ok(index),
    }
}

/// The one at this place that names this header in this form.
fn placed(index: u32, by: IncludeName, form: Form, name: &[u8]) -> PlacedDirect<'_>
    ensures { result ≡ record { index = index; by = by; header = record { form = form; name = name.entry } } }
{
    PlacedDirect {
        index,
        by,
        header: HeaderName { form, name },
    }
}

/// The include directives of a file that are not taken as removed.
fn entries_of(
    alloc: Global,
    lookup: &Lookup<'_>,
    setting: &Setting<'_>,
    at: &Found,
    found: &FileLines,
    places: &mut Places,
    nexts: &mut Vec<Next>,
) -> Result<Entries, AllocError>
    requires file { at.now.file < length lookup.now.paths }
    requires files { places.old.files ≡ length lookup.now.paths }
    requires none { nexts.old.items ≡ [] }
    ensures entries { IfOk result (λ entries. entries
        ≡ filter_map (entry_alone setting.now.undefined lookup.now at.now)
        (filter (stays (is_listed setting.now.removed at.now.file)) (inclusions_in found.now))) }
    ensures files { IfOk result (λ entries. places.new.files ≡ places.old.files) }
    ensures places { IfOk result (λ entries. Reaches places.old.found
        (filter_map (found_by lookup.now at.now)
        (filter (stays (is_listed setting.now.removed at.now.file)) (inclusions_in found.now)))
        places.new.found) }
    ensures nexts { IfOk result (λ entries. nexts.new.items
        ≡ nexts_from lookup.now at.now.file 0 (filter (stays (is_listed setting.now.removed at.now.file)) (inclusions_in found.now))) }
{
    let mut entries = Entries::with_capacity(alloc, found.inclusion_count())?;
    let mut left = found.inclusions();
    while let Some(directive) = left.next() {
        if !stays(setting, at.file, directive) {
            continue;
        }
        if let Some(name) = name_in(directive) {
            let entry = name_entry(setting, name, directive.line)?;
            entries.push(entry)?;
            continue;
        }
        add_entry(&mut entries, alloc, lookup, at, directive, places, nexts)?;
    }
    Ok(entries)
}

/// Whether a directive of a file is not taken as removed.
fn stays(setting: &Setting<'_>, file: FileId, directive: Directive<'_>) -> bool
    ensures { result ≡ stays (is_listed setting.now.removed file) (seen_directive directive.entry) }
{
    !(is_removable(directive) && setting.removes(file, directive.line))
}

/// Whether it can be taken as removed.
fn is_removable(directive: Directive<'_>) -> bool
    ensures { result ≡ is_removable (seen_directive directive.entry).kind }
{
    matches!(
        directive.kind,
        LineKind::Include(..) | LineKind::Other(DirectiveKind::Foreign)
    )
}

/// The name that is the first token of what an include directive has expanded.
fn name_in<'t>(directive: Directive<'t>) -> Option<&'t [u8]>
    ensures { option_map (λ name. name.now) result ≡ name_in (seen_directive directive.entry).kind }
{
    match directive.kind {
        LineKind::Include(_, Target::ByName(name)) => Some(name),
        _ => None,
    }
}

/// An include directive by a name.
fn name_entry(setting: &Setting<'_>, name: &[u8], line: u32) -> Result<Entry<u32>, AllocError>
    ensures none { IfOk result (λ entry. NamesNone entry) }
    ensures entry { IfOk result (λ entry. named_entry [] entry ≡ name_entry (undefined_place setting.now.undefined name.now) line) }
{
    match setting.undefined_place(name) {
        Some(place) => Ok(Entry::ByName {
            name: short(place)?,
            line,
        }),
        None => Ok(Entry::Blocker {
            line,
            kind: BlockerKind::Computed,
        }),
    }
}

/// Adds the definitions that a file has of names that no build defines.
fn add_definitions(
    entries: &mut Entries,
    setting: &Setting<'_>,
    found: &FileLines,
) -> Result<(), AllocError>
    ensures { OnOk result (entries.new ≡ entries.old
        ++ map definition_entry (definitions_in setting.now.undefined (lines_of_parts found.now))) }
{
    // Nearly always; then no line is looked at.
    if setting.undefined_count() == 0 {
        return Ok(());
    }
    for i in 0..found.count() {
        if let Some(name) = found.defined_name(i) {
            add_definition(entries, setting, name, found.first_line(i))?;
        }
    }
    Ok(())
}

/// Adds the definition of a name on a line, if it is among those that no build defines.
fn add_definition(
    entries: &mut Entries,
    setting: &Setting<'_>,
    name: &[u8],
    line: u32,
) -> Result<(), AllocError>
    ensures { OnOk result (entries.new ≡ entries.old
        ++ map definition_entry (option_to_list (option_map (defined_at line) (undefined_place setting.now.undefined name.now)))) }
{
    if let Some(place) = setting.undefined_place(name) {
        entries.push(Entry::Defines {
            name: short(place)?,
            line,
        })?;
    }
    Ok(())
}

/// Adds the include directive that a directive of a file is, if it is one, and not one by a name.
fn add_entry(
    entries: &mut Entries,
    alloc: Global,
    lookup: &Lookup<'_>,
    at: &Found,
    directive: Directive<'_>,
    places: &mut Places,
    nexts: &mut Vec<Next>,
) -> Result<(), AllocError>
    requires file { at.now.file < length lookup.now.paths }
    requires files { places.old.files ≡ length lookup.now.paths }
    ensures entries { OnOk result ((names : List (List ℕ)) → name_in (seen_directive directive.entry).kind ≡ None →
        entries.new ≡ entries.old
        ++ option_to_list (entry_alone names lookup.now at.now (seen_directive directive.entry))) }
    ensures files { OnOk result (places.new.files ≡ places.old.files) }
    ensures places { OnOk result (Reaches places.old.found
        (option_to_list (found_by lookup.now at.now (seen_directive directive.entry))) places.new.found) }
    ensures nexts { OnOk result (nexts.new.items ≡ nexts.old.items
        ++ next_of lookup.now at.now.file (length entries.old) (seen_directive directive.entry).kind) }
{
    let line = directive.line;
    match directive.kind {
        LineKind::Include(by, Target::Quoted(name)) => {
            let direct = direct_of(by, Form::Quoted, name, line);
            add_direct(entries, alloc, lookup, at, direct, places, nexts)
        }
        LineKind::Include(by, Target::Angled(name)) => {
            let direct = direct_of(by, Form::Angled, name, line);
            add_direct(entries, alloc, lookup, at, direct, places, nexts)
        }
        LineKind::Include(_, Target::Computed) => entries.push(Entry::Blocker {
            line,
            kind: BlockerKind::Computed,
        }),
        LineKind::Other(DirectiveKind::Foreign) => entries.push(Entry::Blocker {
            line,
            kind: BlockerKind::Foreign,
        }),
        _ => Ok(()),
    }
}

/// A direct include directive: which directive it is, the header that it names, and its line.
#[derive(Clone, Copy)]
struct Direct<'t> {
    by: IncludeName,
    header: HeaderName<'t>,
    line: u32,
}

/// The one that names this header in this form.
fn direct_of(by: IncludeName, form: Form, name: &[u8], line: u32) -> Direct<'_>
    ensures { result ≡ record { by = by; header = record { form = form; name = name.entry }; line = line } }
{
    Direct {
        by,
        header: HeaderName { form, name },
        line,
    }
}

/// Adds a direct include directive.
fn add_direct(
    entries: &mut Entries,
    alloc: Global,
    lookup: &Lookup<'_>,
    at: &Found,
    direct: Direct<'_>,
    places: &mut Places,
    nexts: &mut Vec<Next>,
) -> Result<(), AllocError>
    requires file { at.now.file < length lookup.now.paths }
    requires files { places.old.files ≡ length lookup.now.paths }
    ensures entries { OnOk result (entries.new ≡ entries.old
        ++ lead_entry (found_lead (named_place lookup.now at.now (seen_direct direct.entry))) direct.entry.line
        (seen_name direct.entry.header) ∷ []) }
    ensures files { OnOk result (places.new.files ≡ places.old.files) }
    ensures places { OnOk result (Reaches places.old.found
        (option_to_list (named_place lookup.now at.now (seen_direct direct.entry))) places.new.found) }
    ensures nexts { OnOk result (nexts.new.items ≡ nexts.old.items
        ++ next_by lookup.now at.now.file (length entries.old) (seen_direct direct.entry)) }
{
    let Direct { by, header, line } = direct;
    let after = search_after(by, at.next);
    let found = lookup.find_from(alloc, at.file, header.form, after, header.name)?;
    if let IncludeName::IncludeNext = by {
        let index = entries.len();
        nexts.push(Next::new(alloc, lookup, at.file, index, header)?)?;
    }
    if let Some(found) = &found {
        places.reach(alloc, found)?;
    }
    add_found(entries, found, line, header)
}

/// Adds a direct include directive that names this header and finds this.
fn add_found(
    entries: &mut Entries,
    found: Option<Found>,
    line: u32,
    header: HeaderName<'_>,
) -> Result<(), AllocError>
    ensures { OnOk result (entries.new ≡ entries.old
        ++ lead_entry (found_lead found) line (seen_name header.entry) ∷ []) }
{
    match found {
        Some(found) => entries.push(Entry::Edge {
            to: found.file,
            line,
        }),
        None => entries.push_missing(line, header),
    }
}
