//! What the entries that count ask for: include paths, macros, and nothing that is not supported.
ghost use Rattle.std.specs.Prelude.{◌≡◌, ◌≢◌, ℕ, List, [], Some, Err, IfOk, OnOk, suc, bytes_eq, map, option_map, slice_get, unwrap_or};
ghost use Rattle.std.specs.Map.{lookup};
ghost use Rattle.inc_build.specs.Builds.{with_name};
ghost use Rattle.inc_build.specs.Views.{seen_item, seen_row};
ghost use Rattle.inc_inputs.specs.BuildNotes.{none, with_line, with_lines};
ghost use Rattle.inc_inputs.specs.BuildProjects as spec;
ghost use Rattle.inc_inputs.specs.BuildReports.{other_macros, other_paths, skipped_line};
ghost use Rattle.inc_inputs.specs.Reports.{out_of_memory, report_of};
ghost use Rattle.inc_inputs.specs.Views.{ground_in, macro_of, notes_in, seen_unit};

use crate::build_grounds::Ground;
use crate::build_macros::{MacroWord, are_same, macros_in};
use crate::build_texts::{Notes, one_more, option_front, unlike, unsupported};
use crate::failures::Failure;
use inc_build::{Item, Kind, Row, Use, items};
use inc_text::{Key, KeyRef, SeededState};
use indexmap::{IndexMap, IndexSet};
use std::alloc::{AllocError, Global};

/// The include path of the first of the entries that count.
pub(crate) fn rows_at<'g>(ground: &'g Ground<'_>, uses: &[Use]) -> &'g [Row]
    ensures { map seen_row result.now ≡ spec.rows_at (ground_in ground.now).build uses.now }
{
    match uses.first() {
        Some(first) => rows_of(ground, first.configuration),
        None => rows_of(ground, 0),
    }
}

/// The include path of a number.
pub(crate) fn rows_of<'g>(ground: &'g Ground<'_>, number: usize) -> &'g [Row]
    ensures { map seen_row result.now ≡ spec.rows_of (ground_in ground.now).build number }
{
    match ground.build.configurations().get(number) {
        Some(rows) => rows.as_slice(),
        None => &[],
    }
}

/// Refuses entries that ask for what is not supported, and, where macros count, entries with different include paths
/// and entries that define different macros.
pub(crate) fn check_uses(
    alloc: Global,
    ground: &Ground<'_>,
    has_macros: bool,
    uses: &[Use],
) -> Result<(), Failure>
    ensures { seen_unit result ≢ Err out_of_memory →
        seen_unit result ≡ spec.uses_fault (ground_in ground.now) has_macros uses.now }
{
    if has_macros {
        return check_alike(alloc, ground, uses);
    }
    check_each(alloc, ground, uses)
}

/// Refuses entries that ask for what is not supported.
fn check_each(alloc: Global, ground: &Ground<'_>, uses: &[Use]) -> Result<(), Failure>
    ensures { seen_unit result ≢ Err out_of_memory → seen_unit result ≡ spec.each_fault (ground_in ground.now) uses.now }
{
    let mut at = 0;
    while at < uses.len() {
        match check_use(alloc, ground, uses[at]) {
            Ok(()) => {}
            Err(failure) => return Err(failure),
        }
        at += 1;
    }
    Ok(())
}

/// Refuses one of them.
fn check_use(alloc: Global, ground: &Ground<'_>, one: Use) -> Result<(), Failure>
    ensures { seen_unit result ≢ Err out_of_memory → seen_unit result ≡ spec.use_fault (ground_in ground.now) one }
{
    match check_rows(alloc, ground, one.entry, rows_of(ground, one.configuration)) {
        Ok(()) => check_entry(alloc, ground, one),
        Err(failure) => Err(failure),
    }
}

/// Refuses entries with different include paths, entries that ask for what is not supported, and entries that define
/// different macros.
fn check_alike(alloc: Global, ground: &Ground<'_>, uses: &[Use]) -> Result<(), Failure>
    ensures { seen_unit result ≢ Err out_of_memory → seen_unit result ≡ spec.alike_fault (ground_in ground.now) uses.now }
{
    match are_of_one_path(alloc, ground, uses) {
        Ok(()) => check_supported(alloc, ground, uses),
        Err(failure) => Err(failure),
    }
}

/// The same for entries of one include path.
fn check_supported(alloc: Global, ground: &Ground<'_>, uses: &[Use]) -> Result<(), Failure>
    ensures { let g = ground_in ground.now in seen_unit result ≢ Err out_of_memory → seen_unit result
        ≡ spec.checked (spec.rows_fault g (spec.first_entry uses.now) (spec.rows_at g.build uses.now)) (spec.entries_fault g uses.now) }
{
    match check_rows(alloc, ground, first_entry(uses), rows_at(ground, uses)) {
        Ok(()) => check_entries(alloc, ground, uses),
        Err(failure) => Err(failure),
    }
}

/// The number of the first entry that counts.
fn first_entry(uses: &[Use]) -> usize
    ensures { result ≡ spec.first_entry uses.now }
{
    match uses.first() {
        Some(first) => first.entry,
        None => 0,
    }
}

/// Refuses entries with different include paths.
fn are_of_one_path(alloc: Global, ground: &Ground<'_>, uses: &[Use]) -> Result<(), Failure>
    ensures { seen_unit result ≢ Err out_of_memory → seen_unit result ≡ spec.are_of_one_path (ground_in ground.now) uses.now }
{
    let [first, rest @ ..] = uses else {
        return Ok(());
    };
    match other_path(first.configuration, rest) {
        Some(other) => Err(unlike_paths(alloc, ground, *first, other)),
        None => Ok(()),
    }
}

/// The failure to report of two entries with different include paths.
fn unlike_paths(alloc: Global, ground: &Ground<'_>, first: Use, other: Use) -> Failure
    ensures { report_of result ≢ out_of_memory →
        report_of result ≡ spec.two_uses other_paths (ground_in ground.now) first other }
{
    let why = b" have different include paths; ask about sources of one";
    unlike(
        alloc,
        ground.name,
        &ground.entries,
        first.entry,
        other.entry,
        why,
    )
}

/// The first entry that has another include path than this one.
fn other_path(configuration: usize, uses: &[Use]) -> Option<Use>
    ensures { result ≡ spec.other_path configuration uses.now }
{
    let mut at = 0;
    while at < uses.len() {
        if uses[at].configuration != configuration {
            return Some(uses[at]);
        }
        at += 1;
    }
    None
}

/// Refuses rows that no search has a place for, and without which an answer would be wrong.
fn check_rows(alloc: Global, ground: &Ground<'_>, entry: usize, rows: &[Row]) -> Result<(), Failure>
    ensures { seen_unit result ≢ Err out_of_memory →
        seen_unit result ≡ spec.rows_fault (ground_in ground.now) entry (map seen_row rows.now) }
{
    let mut at = 0;
    while at < rows.len() {
        if is_unsupported(rows[at].kind) {
            return Err(row_failure(alloc, ground, entry, &rows[at]));
        }
        at += 1;
    }
    Ok(())
}

/// The failure to report of a row.
fn row_failure(alloc: Global, ground: &Ground<'_>, entry: usize, row: &Row) -> Failure
    ensures { report_of result ≢ out_of_memory →
        report_of result ≡ spec.row_report (ground_in ground.now) entry (seen_row row.now) }
{
    unsupported(alloc, ground.name, entry, option_front(row.kind), &row.name)
}

/// Whether no search has a place for rows of a kind.
fn is_unsupported(kind: Kind) -> bool
    ensures { result ≡ spec.is_unsupported kind }
{
    match kind {
        Kind::Macros => true,
        Kind::Included => true,
        _ => false,
    }
}

/// Refuses entries that name a file with more words, and entries that define other macros than the first.
fn check_entries(alloc: Global, ground: &Ground<'_>, uses: &[Use]) -> Result<(), Failure>
    ensures { seen_unit result ≢ Err out_of_memory →
        seen_unit result ≡ spec.entries_fault (ground_in ground.now) uses.now }
{
    let [first, rest @ ..] = uses else {
        return Ok(());
    };
    match check_entry(alloc, ground, *first) {
        Ok(()) => check_behind(alloc, ground, *first, rest),
        Err(failure) => Err(failure),
    }
}

/// Refuses an entry that names a file with more words.
fn check_entry(alloc: Global, ground: &Ground<'_>, one: Use) -> Result<(), Failure>
    ensures { seen_unit result ≢ Err out_of_memory → seen_unit result ≡ spec.entry_fault (ground_in ground.now) one }
{
    match items_of(alloc, ground, one.entry) {
        Ok(items) => not_listed(alloc, ground.name, one.entry, listed_in(&items)),
        Err(_) => Err(Failure::NoMemory),
    }
}

/// Refuses the file with more words of an entry, if there is one.
fn not_listed(alloc: Global, name: &[u8], entry: usize, path: Option<&[u8]>) -> Result<(), Failure>
    ensures { seen_unit result ≢ Err out_of_memory →
        seen_unit result ≡ spec.not_listed name.now entry (option_map (λ p. p.now) path.entry) }
{
    match path {
        Some(path) => Err(unsupported(alloc, name, entry, b"@", path)),
        None => Ok(()),
    }
}

/// Refuses entries behind the first one.
fn check_behind(
    alloc: Global,
    ground: &Ground<'_>,
    first: Use,
    others: &[Use],
) -> Result<(), Failure>
    ensures { seen_unit result ≢ Err out_of_memory →
        seen_unit result ≡ spec.others_fault (ground_in ground.now) first others.now }
{
    match macros_of(alloc, ground, first.entry) {
        Ok(macros) => check_others(alloc, ground, first, &macros, others),
        Err(_) => Err(Failure::NoMemory),
    }
}

/// Refuses entries behind the first one, which has these words for macros.
fn check_others(
    alloc: Global,
    ground: &Ground<'_>,
    first: Use,
    macros: &[MacroWord],
    others: &[Use],
) -> Result<(), Failure>
    requires { map macro_of macros.now ≡ spec.macros_at (ground_in ground.now) first.entry }
    ensures { seen_unit result ≢ Err out_of_memory →
        seen_unit result ≡ spec.others_fault (ground_in ground.now) first others.now }
{
    let mut at = 0;
    while at < others.len() {
        match check_other(alloc, ground, first, macros, others[at]) {
            Ok(()) => {}
            Err(failure) => return Err(failure),
        }
        at += 1;
    }
    Ok(())
}

/// Refuses one of them.
fn check_other(
    alloc: Global,
    ground: &Ground<'_>,
    first: Use,
    macros: &[MacroWord],
    other: Use,
) -> Result<(), Failure>
    requires { map macro_of macros.now ≡ spec.macros_at (ground_in ground.now) first.entry }
    ensures { seen_unit result ≢ Err out_of_memory →
        seen_unit result ≡ spec.other_fault (ground_in ground.now) first other }
{
    match check_entry(alloc, ground, other) {
        Ok(()) => check_macros(alloc, ground, first, macros, other),
        Err(failure) => Err(failure),
    }
}

/// Refuses one that defines other macros.
fn check_macros(
    alloc: Global,
    ground: &Ground<'_>,
    first: Use,
    macros: &[MacroWord],
    other: Use,
) -> Result<(), Failure>
    requires { map macro_of macros.now ≡ spec.macros_at (ground_in ground.now) first.entry }
    ensures { seen_unit result ≢ Err out_of_memory →
        seen_unit result ≡ spec.is_like (ground_in ground.now) first other }
{
    match macros_of(alloc, ground, other.entry) {
        Ok(own) if are_same(macros, &own) => Ok(()),
        Ok(_) => Err(unlike_macros(alloc, ground, first, other)),
        Err(_) => Err(Failure::NoMemory),
    }
}

/// The failure to report of two entries that define different macros.
fn unlike_macros(alloc: Global, ground: &Ground<'_>, first: Use, other: Use) -> Failure
    ensures { report_of result ≢ out_of_memory →
        report_of result ≡ spec.two_uses other_macros (ground_in ground.now) first other }
{
    let why = b" define different macros; ask about sources of one";
    unlike(
        alloc,
        ground.name,
        &ground.entries,
        first.entry,
        other.entry,
        why,
    )
}

/// The words for macros of the first of the entries that count.
pub(crate) fn first_macros(
    alloc: Global,
    ground: &Ground<'_>,
    uses: &[Use],
) -> Result<Vec<MacroWord>, AllocError>
    ensures { IfOk result (λ macros. map macro_of macros.items ≡ spec.macros_of (ground_in ground.now) uses.now) }
{
    match uses.first() {
        Some(first) => macros_of(alloc, ground, first.entry),
        None => Ok(Vec::new(alloc)),
    }
}

/// The words for macros of an entry.
fn macros_of(alloc: Global, ground: &Ground<'_>, entry: usize) -> Result<Vec<MacroWord>, AllocError>
    ensures { IfOk result (λ macros. map macro_of macros.items ≡ spec.macros_at (ground_in ground.now) entry) }
{
    let items = items_of(alloc, ground, entry)?;
    macros_in(alloc, &items)
}

/// What the words of an entry ask for.
fn items_of<'g>(
    alloc: Global,
    ground: &'g Ground<'_>,
    entry: usize,
) -> Result<Vec<Item<'g>>, AllocError>
    ensures { IfOk result (λ items. map seen_item items.items ≡ spec.items_at (ground_in ground.now).entries entry) }
{
    match ground.entries.get(entry) {
        Some(entry) => items(alloc, &entry.words),
        None => Ok(Vec::new(alloc)),
    }
}

/// The path of the first `@FILE`.
fn listed_in<'w>(items: &[Item<'w>]) -> Option<&'w [u8]>
    ensures { option_map (λ p. p.now) result ≡ spec.listed_in (map seen_item items.now) }
{
    let mut at = 0;
    while at < items.len() {
        if let Item::Listed(path) = items[at] {
            return Some(path);
        }
        at += 1;
    }
    None
}

/// The options that are skipped, each with the number of entries that have it.
pub(crate) fn skipped_of(
    alloc: Global,
    seed: u64,
    ground: &Ground<'_>,
    uses: &[Use],
) -> Result<IndexMap<Key, usize, SeededState>, AllocError>
    ensures { IfOk result (λ counts. counts.entries ≡ spec.skipped_of (ground_in ground.now).entries [] uses.now) }
{
    let mut counts = IndexMap::with_hasher(alloc, SeededState::new(seed));
    let mut at = 0;
    while at < uses.len() {
        let items = items_of(alloc, ground, uses[at].entry)?;
        let words = skipped_in(alloc, seed, &items)?;
        count_all(alloc, &mut counts, words.as_slice())?;
        at += 1;
    }
    Ok(counts)
}

/// The options of an entry that are skipped, each once.
fn skipped_in(
    alloc: Global,
    seed: u64,
    items: &[Item<'_>],
) -> Result<IndexSet<Key, SeededState>, AllocError>
    ensures { IfOk result (λ words. words.keys ≡ spec.skipped_in [] (map seen_item items.now)) }
{
    let mut words = IndexSet::with_hasher(alloc, SeededState::new(seed));
    let mut at = 0;
    while at < items.len() {
        add_skipped(alloc, &mut words, items[at])?;
        at += 1;
    }
    Ok(words)
}

/// Adds an option that is skipped, unless it is there.
fn add_skipped(
    alloc: Global,
    words: &mut IndexSet<Key, SeededState>,
    item: Item<'_>,
) -> Result<(), AllocError>
    ensures { OnOk result (words.new.keys ≡ spec.with_skipped words.old.keys (seen_item item.entry)) }
{
    match item {
        Item::Told(word) => add_word(alloc, words, word),
        _ => Ok(()),
    }
}

/// Adds a word, unless it is there.
fn add_word(
    alloc: Global,
    words: &mut IndexSet<Key, SeededState>,
    word: &[u8],
) -> Result<(), AllocError>
    ensures { OnOk result (words.new.keys ≡ with_name word.now words.old.keys) }
{
    let key = Key::copied(alloc, word)?;
    words.insert(key)?;
    Ok(())
}

/// Counts the options of one more entry.
fn count_all(
    alloc: Global,
    counts: &mut IndexMap<Key, usize, SeededState>,
    words: &[Key],
) -> Result<(), AllocError>
    ensures { OnOk result (counts.new.entries ≡ spec.with_counts counts.old.entries words.now) }
{
    let mut at = 0;
    while at < words.len() {
        count(alloc, counts, words[at].bytes())?;
        at += 1;
    }
    Ok(())
}

/// Counts an option of one more entry.
fn count(
    alloc: Global,
    counts: &mut IndexMap<Key, usize, SeededState>,
    word: &[u8],
) -> Result<(), AllocError>
    ensures { OnOk result (counts.new.entries ≡ spec.with_count counts.old.entries word.now) }
{
    let number = next_count(counts, word)?;
    let key = Key::copied(alloc, word)?;
    counts.insert(key, number)?;
    Ok(())
}

/// How often an option is there, and one more.
fn next_count(counts: &IndexMap<Key, usize, SeededState>, word: &[u8]) -> Result<usize, AllocError>
    ensures { IfOk result (λ n. n ≡ suc (unwrap_or (lookup (bytes_eq word.now) counts.now.entries) 0)) }
{
    match counts.get(KeyRef { bytes: word }) {
        Some(number) => one_more(*number),
        None => Ok(1),
    }
}

/// The notes of the options that are skipped, of the build with this name.
pub(crate) fn skipped_notes(
    alloc: Global,
    name: &[u8],
    counts: &IndexMap<Key, usize, SeededState>,
) -> Result<Notes, AllocError>
    ensures { IfOk result (λ notes. notes_in notes ≡ with_lines none (map (skipped_line name.now) counts.now.entries)) }
{
    let mut notes = Notes::new(alloc);
    for at in 0..counts.len() {
        add_counted(alloc, &mut notes, name, counts, at)?;
    }
    Ok(notes)
}

/// Adds the note of the option at a place.
fn add_counted(
    alloc: Global,
    notes: &mut Notes,
    name: &[u8],
    counts: &IndexMap<Key, usize, SeededState>,
    at: usize,
) -> Result<(), AllocError>
    ensures { (p : List ℕ × ℕ) → slice_get counts.now.entries at ≡ Some p →
        OnOk result (notes_in notes.new ≡ with_line (notes_in notes.old) (skipped_line name.now p)) }
{
    match counts.get_index(at) {
        Some((word, count)) => notes.add_skipped(alloc, name, word.bytes(), *count),
        None => Ok(()),
    }
}
