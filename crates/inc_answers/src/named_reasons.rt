//! Why an answer about cuts is refused where blockers are whose directives are known: what each of them is and how it is written, and how to
//! go on.
ghost use Rattle.std.specs.Prelude.{◌≡◌, ◌<◌, ◌++◌, None, Some, ℕ, List, Option, bytes_eq, flat_map, length, map, option_map, if◌then◌else◌, slice_index_or, IfOk, IfSome, OnOk};
ghost use Rattle.std.specs.Borrow.{Bor};
ghost use Rattle.std.specs.List.{All, list_any};
ghost use Rattle.inc_directive.specs.KindViews.{seen_kind, seen_target};
ghost use Rattle.inc_directive.specs.LineKinds as lines;
ghost use Rattle.inc_token.specs.declared.kinds.IncludeName.{IncludeName};
ghost use Rattle.inc_graph.specs.IncludeGraph.{name_in};
ghost use Rattle.inc_lookup.specs.Projects.{with_path};
ghost use Rattle.inc_macro.specs.Macros.{is_among};
ghost use Rattle.inc_lookup.specs.declared.projects.DirectiveId as declared;
ghost use Rattle.inc_answers.specs.DefinitionPlaces.{ArePlaced, kept_place};
ghost use Rattle.inc_answers.specs.DirectiveNames.{kept_kind, written};
ghost use Rattle.inc_answers.specs.MissingNotes.{shown};
ghost use Rattle.inc_answers.specs.NamedReasons.{behind_colon, definition_words, directive_of, is_made_by, is_open, made_place, named_reason, named_reasons, named_words, names_line, open_names, undefined_word, with_open, written_end, sight_kept};

use crate::asked::Question;
use crate::blocked_reasons::{put_drops, put_undefine, reason_words};
use crate::definition_places::place_among;
use crate::directive_names::{NameTable, put_written};
use crate::fault_reasons::put_reason;
use crate::mark_reasons::put_place;
use crate::missing_notes::{Notes, put_shown};
use crate::near_names::{most_of, put_more};
use inc_directive::{LineKind, Target};
use inc_graph::{Blocker, BlockerKind};
use inc_lookup::{DirectiveId, Project};
use inc_macro::is_reserved;
use inc_text::Language;
use std::alloc::{AllocError, Global};

/// What is said beside the refusal by these blockers, whose directives are written as these names have it. Where a file defines a name that
/// may be left undefined is among these places.
pub fn named_reasons(
    alloc: Global,
    project: &Project<'_>,
    question: &Question<'_>,
    places: &[Option<DirectiveId>],
    names: &mut NameTable<'_>,
    blockers: &[Blocker],
) -> Result<Notes, AllocError>
    requires within { All (λ (b : Blocker). b.file < length project.now.paths) blockers.now }
    requires placed { ArePlaced question.now.undefined
        (kept_place names.old.language names.old.kept (length project.now.paths)) places.now }
    ensures reasons { IfOk result (λ notes. notes ≡ named_reasons question.now.language question.now.undefined
        (sight_kept names.old.language project.now names.old.kept) project.now blockers.now) }
    ensures same { names.new ≡ names.old }
{
    let count = most_of(blockers.len());
    let firsts = &blockers[..count];
    let undefined = question.undefined;
    let mut text = Vec::new(alloc);
    put_blockers(&mut text, alloc, project, undefined, places, names, firsts)?;
    put_more(&mut text, blockers.len() - count)?;
    put_open(
        &mut text,
        alloc,
        question.language,
        undefined,
        names,
        firsts,
    )?;
    put_drops(&mut text, project, blockers)?;
    Ok(Notes::of(text))
}

/// Adds the line on each of these.
fn put_blockers(
    text: &mut Vec<u8>,
    alloc: Global,
    project: &Project<'_>,
    undefined: &[&[u8]],
    places: &[Option<DirectiveId>],
    names: &mut NameTable<'_>,
    blockers: &[Blocker],
) -> Result<(), AllocError>
    requires within { All (λ (b : Blocker). b.file < length project.now.paths) blockers.now }
    requires placed { ArePlaced (map (λ n. n.now) undefined.now)
        (kept_place names.old.language names.old.kept (length project.now.paths)) places.now }
    ensures text { OnOk result (text.new.items ≡ text.old.items
        ++ flat_map (named_reason (map (λ n. n.now) undefined.now)
        (sight_kept names.old.language project.now names.old.kept) project.now) blockers.now) }
    ensures same { names.new ≡ names.old }
{
    for blocker in blockers {
        put_blocker(text, alloc, project, undefined, places, names, *blocker)?;
    }
    Ok(())
}

/// Adds the line on a blocker.
fn put_blocker(
    text: &mut Vec<u8>,
    alloc: Global,
    project: &Project<'_>,
    undefined: &[&[u8]],
    places: &[Option<DirectiveId>],
    names: &mut NameTable<'_>,
    blocker: Blocker,
) -> Result<(), AllocError>
    requires within { blocker.file < length project.now.paths }
    requires placed { ArePlaced (map (λ n. n.now) undefined.now)
        (kept_place names.old.language names.old.kept (length project.now.paths)) places.now }
    ensures text { OnOk result (text.new.items ≡ text.old.items
        ++ named_reason (map (λ n. n.now) undefined.now) (sight_kept names.old.language project.now names.old.kept) project.now blocker) }
    ensures same { names.new ≡ names.old }
{
    let Blocker { file, line, kind } = blocker;
    let directive = names.line(alloc, DirectiveId { file, line })?;
    let mut words = Vec::new(alloc);
    let seen = directive.kind();
    let definition = definition_of(undefined, places, seen);
    put_words(
        &mut words, alloc, project, undefined, definition, seen, kind,
    )?;
    put_reason(text, project.path(file), line, &words)
}

/// Where the name that makes the header of a directive is defined, if it is among these, whose places are known.
fn definition_of(
    undefined: &[&[u8]],
    places: &[Option<DirectiveId>],
    kind: LineKind<'_>,
) -> Option<DirectiveId>
    ensures { (definition : List ℕ → Option declared.DirectiveId) →
        ArePlaced (map (λ n. n.now) undefined.now) definition places.now →
        result ≡ (if is_made_by (map (λ n. n.now) undefined.now) (seen_kind kind.entry) then made_place definition (seen_kind kind.entry) else None) }
{
    match name_in(kind) {
        Some(name) => definition_among(undefined, places, name),
        None => None,
    }
}

/// The same of a name.
fn definition_among(
    undefined: &[&[u8]],
    places: &[Option<DirectiveId>],
    name: &[u8],
) -> Option<DirectiveId>
    ensures { (definition : List ℕ → Option declared.DirectiveId) →
        ArePlaced (map (λ n. n.now) undefined.now) definition places.now →
        result ≡ (if is_among name.now (map (λ n. n.now) undefined.now) then definition name.now else None) }
{
    match place_among(undefined, name) {
        Some(place) => place_at(places, place),
        None => None,
    }
}

/// A place of this list.
fn place_at(places: &[Option<DirectiveId>], at: usize) -> Option<DirectiveId>
    ensures { result ≡ slice_index_or places.now at None }
{
    match places.get(at) {
        Some(place) => *place,
        None => None,
    }
}

/// Adds what a blocker is, and how its directive is written.
fn put_words(
    text: &mut Vec<u8>,
    alloc: Global,
    project: &Project<'_>,
    undefined: &[&[u8]],
    definition: Option<DirectiveId>,
    kind: LineKind<'_>,
    blocker: BlockerKind,
) -> Result<(), AllocError>
    requires { IfSome definition (λ (d : declared.DirectiveId). d.file < length project.now.paths) }
    ensures { OnOk result (text.new.items ≡ text.old.items
        ++ (named_words (map (λ n. n.now) undefined.now) project.now definition (seen_kind kind.entry) blocker ++ written_end (seen_kind kind.entry) blocker)) }
{
    put_named_words(text, project, undefined, definition, kind, blocker)?;
    put_end(text, alloc, kind, blocker)
}

/// Adds what a blocker is.
fn put_named_words(
    text: &mut Vec<u8>,
    project: &Project<'_>,
    undefined: &[&[u8]],
    definition: Option<DirectiveId>,
    kind: LineKind<'_>,
    blocker: BlockerKind,
) -> Result<(), AllocError>
    requires { IfSome definition (λ (d : declared.DirectiveId). d.file < length project.now.paths) }
    ensures { OnOk result (text.new.items ≡ text.old.items
        ++ named_words (map (λ n. n.now) undefined.now) project.now definition (seen_kind kind.entry) blocker) }
{
    if is_made_by(undefined, kind) {
        return put_definition(text, project, definition);
    }
    text.extend_from_slice(reason_words(blocker))?;
    Ok(())
}

/// Adds that a file defines the name that makes a header, and where.
fn put_definition(
    text: &mut Vec<u8>,
    project: &Project<'_>,
    definition: Option<DirectiveId>,
) -> Result<(), AllocError>
    requires { IfSome definition (λ (d : declared.DirectiveId). d.file < length project.now.paths) }
    ensures { OnOk result (text.new.items ≡ text.old.items ++ definition_words project.now definition) }
{
    match definition {
        Some(DirectiveId { file, line }) => {
            put_place(text, project.path(file), line)?;
            text.extend_from_slice(b" defines the name that makes the header")?;
        }
        None => text.extend_from_slice(b"a file defines the name that makes the header")?,
    }
    Ok(())
}

/// Whether the name that makes its header is among these.
fn is_made_by(names: &[&[u8]], kind: LineKind<'_>) -> bool
    ensures { result ≡ is_made_by (map (λ n. n.now) names.now) (seen_kind kind.entry) }
{
    match name_in(kind) {
        Some(name) => is_among(names, name),
        None => false,
    }
}

/// Whether a name is one of these.
fn is_among(names: &[&[u8]], name: &[u8]) -> bool
    ensures { result ≡ is_among name.now (map (λ n. n.now) names.now) }
{
    any_is(names, name)
}

/// The same, by the names as they lie.
fn any_is(names: &[&[u8]], name: &[u8]) -> bool
    ensures { result ≡ list_any (λ (n : Bor (List ℕ)). bytes_eq name.now n.now) names.now }
{
    names.iter().any(|known| is_same(name, known))
}

/// Whether two names are the same.
fn is_same(name: &[u8], other: &[u8]) -> bool
    ensures { result ≡ bytes_eq name.now other.now }
{
    name == other
}

/// The name that is the first token of what an include directive has expanded.
fn name_in(kind: LineKind<'_>) -> Option<&[u8]>
    ensures { option_map (λ n. n.now) result ≡ name_in (seen_kind kind.entry) }
{
    match kind {
        LineKind::Include(_, target) => name_of(target),
        _ => None,
    }
}

/// The same of what it names.
fn name_of(target: Target<'_>) -> Option<&[u8]>
    ensures { (by : IncludeName) → option_map (λ n. n.now) result ≡ name_in (lines.Include by (seen_target target.entry)) }
{
    match target {
        Target::ByName(name) => Some(name),
        _ => None,
    }
}

/// Adds how the directive of a blocker is written, if that is known.
fn put_end(
    text: &mut Vec<u8>,
    alloc: Global,
    kind: LineKind<'_>,
    blocker: BlockerKind,
) -> Result<(), AllocError>
    ensures { OnOk result (text.new.items ≡ text.old.items ++ written_end (seen_kind kind.entry) blocker) }
{
    match blocker {
        BlockerKind::Foreign => Ok(()),
        _ => put_written_end(text, alloc, kind),
    }
}

/// Adds how a directive is written behind a colon, if that is known.
fn put_written_end(text: &mut Vec<u8>, alloc: Global, kind: LineKind<'_>) -> Result<(), AllocError>
    ensures { OnOk result (text.new.items ≡ text.old.items ++ behind_colon (shown (written (seen_kind kind.entry)))) }
{
    let mut written = Vec::new(alloc);
    put_written(&mut written, alloc, kind)?;
    put_behind_colon(text, &written)
}

/// Adds bytes behind a colon, if there are some.
fn put_behind_colon(text: &mut Vec<u8>, bytes: &[u8]) -> Result<(), AllocError>
    ensures { OnOk result (text.new.items ≡ text.old.items ++ behind_colon bytes.now) }
{
    if bytes.is_empty() {
        return Ok(());
    }
    text.extend_from_slice(b": ")?;
    text.extend_from_slice(bytes)?;
    Ok(())
}

/// Adds the line that leaves the names undefined that make headers, where a build may do that.
fn put_open(
    text: &mut Vec<u8>,
    alloc: Global,
    language: Language,
    undefined: &[&[u8]],
    names: &mut NameTable<'_>,
    blockers: &[Blocker],
) -> Result<(), AllocError>
    ensures text { OnOk result (text.new.items ≡ text.old.items
        ++ names_line (open_names language (map (λ n. n.now) undefined.now) (kept_kind names.old.language names.old.kept) blockers.now)) }
    ensures same { names.new ≡ names.old }
{
    let found = open_names(alloc, language, undefined, names, blockers)?;
    put_names(text, alloc, &found)
}

/// The names that make the headers of these, each once, where a build may leave them undefined.
fn open_names(
    alloc: Global,
    language: Language,
    undefined: &[&[u8]],
    names: &mut NameTable<'_>,
    blockers: &[Blocker],
) -> Result<Vec<Vec<u8>>, AllocError>
    ensures names { IfOk result (λ found. map (λ n. n.items) found.items
        ≡ open_names language (map (λ n. n.now) undefined.now) (kept_kind names.old.language names.old.kept) blockers.now) }
    ensures same { names.new ≡ names.old }
{
    let mut found = Vec::new(alloc);
    for blocker in blockers {
        let directive = names.line(alloc, directive_of(*blocker))?;
        add_open(&mut found, alloc, language, undefined, directive.kind())?;
    }
    Ok(found)
}

/// The directive of a blocker.
fn directive_of(blocker: Blocker) -> DirectiveId
    ensures { result ≡ directive_of blocker }
{
    let Blocker { file, line, .. } = blocker;
    DirectiveId { file, line }
}

/// Adds the name that makes the header of a directive, where a build may leave it undefined.
fn add_open(
    found: &mut Vec<Vec<u8>>,
    alloc: Global,
    language: Language,
    undefined: &[&[u8]],
    kind: LineKind<'_>,
) -> Result<(), AllocError>
    ensures { OnOk result (map (λ n. n.items) found.new.items
        ≡ with_open (is_open language (map (λ n. n.now) undefined.now)) (map (λ n. n.items) found.old.items) (name_in (seen_kind kind.entry))) }
{
    match name_in(kind) {
        Some(name) => add_if_open(found, alloc, language, undefined, name),
        None => Ok(()),
    }
}

/// Adds a name, where a build may leave it undefined.
fn add_if_open(
    found: &mut Vec<Vec<u8>>,
    alloc: Global,
    language: Language,
    undefined: &[&[u8]],
    name: &[u8],
) -> Result<(), AllocError>
    ensures { OnOk result (map (λ n. n.items) found.new.items
        ≡ with_open (is_open language (map (λ n. n.now) undefined.now)) (map (λ n. n.items) found.old.items) (Some name.now)) }
{
    if is_open(language, undefined, name) {
        return add_once(found, alloc, name);
    }
    Ok(())
}

/// Whether a build may leave a name undefined of which that is not known.
fn is_open(language: Language, undefined: &[&[u8]], name: &[u8]) -> bool
    ensures { result ≡ is_open language (map (λ n. n.now) undefined.now) name.now }
{
    !(is_among(undefined, name) || is_reserved(language, name))
}

/// Adds a name, unless it is among these.
fn add_once(names: &mut Vec<Vec<u8>>, alloc: Global, name: &[u8]) -> Result<(), AllocError>
    ensures { OnOk result (map (λ n. n.items) names.new.items ≡ with_path (map (λ n. n.items) names.old.items) name.now) }
{
    if is_kept(names, name) {
        return Ok(());
    }
    let kept = Vec::from_slice(alloc, name)?;
    names.push(kept)?;
    Ok(())
}

/// Whether a name is one of these.
fn is_kept(names: &[Vec<u8>], name: &[u8]) -> bool
    ensures { result ≡ is_among name.now (map (λ n. n.items) names.now) }
{
    any_kept(names, name)
}

/// The same, by the names as they lie.
fn any_kept(names: &[Vec<u8>], name: &[u8]) -> bool
    ensures { result ≡ list_any (λ n. bytes_eq name.now n.items) names.now }
{
    names.iter().any(|known| is_same(name, known))
}

/// Adds the line that leaves these names undefined, if there are some.
fn put_names(text: &mut Vec<u8>, alloc: Global, names: &[Vec<u8>]) -> Result<(), AllocError>
    ensures { OnOk result (text.new.items ≡ text.old.items ++ names_line (map (λ n. n.items) names.now)) }
{
    if names.is_empty() {
        return Ok(());
    }
    let mut words = Vec::new(alloc);
    put_each(&mut words, names)?;
    put_undefine(text, &words)
}

/// Adds the words that leave each of these names undefined.
fn put_each(text: &mut Vec<u8>, names: &[Vec<u8>]) -> Result<(), AllocError>
    ensures { OnOk result (text.new.items ≡ text.old.items ++ flat_map undefined_word (map (λ n. n.items) names.now)) }
{
    for name in names {
        put_name(text, name)?;
    }
    Ok(())
}

/// Adds the words that leave a name undefined.
fn put_name(text: &mut Vec<u8>, name: &[u8]) -> Result<(), AllocError>
    ensures { OnOk result (text.new.items ≡ text.old.items ++ undefined_word name.now) }
{
    text.extend_from_slice(b" --undefined '")?;
    put_shown(text, name)?;
    text.extend_from_slice(b"'")?;
    Ok(())
}
