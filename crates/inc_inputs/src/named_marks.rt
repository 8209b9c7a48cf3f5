//! What the words of `--drop` and `--keep` name in the files of a project.
ghost use Rattle.std.specs.Prelude.{◌≡◌, ◌<◌, ◌≤◌, ◌&&◌, ◌++◌, List, Some, IfOk, IfSome, OnOk, drop, false, filter_map, length, map, option_map, slice_get};
ghost use Rattle.inc_args.specs.Views.{seen_limits, seen_question};
ghost use Rattle.inc_check.specs.Reading.{mark_with};
ghost use Rattle.inc_directive.specs.Groups.{FileLine};
ghost use Rattle.inc_directive.specs.KindViews.{seen_kind};
ghost use Rattle.inc_directive.specs.Parts.{DirectivePart, TextPart, lines_of_parts};
ghost use Rattle.inc_directive.specs.Removal.{is_removable};
ghost use Rattle.inc_inputs.specs.NamedPlaces.{are_written, bytes_marks, is_named, named_lines, named_places, text_lines, with_file, with_glob, with_name, with_path, with_word, written_at};
ghost use Rattle.inc_inputs.specs.Steps.{Comes, each};
ghost use Rattle.inc_inputs.specs.Views.{listed_in, seen_marked, seen_marks};
ghost use Rattle.inc_text.specs.PhaseText.{phase_text};
ghost use Rattle.inc_text.specs.declared.devices.TheConstants.{LONGEST_FILE};

use crate::ends::{add_paths, file_at};
use crate::failures::{Failure, read_failure, undirected};
use crate::inputs::Inputs;
use crate::place_words::{line_colon, name_colon, unspaced};
use crate::places::push_mark;
use crate::sides::Side;
use inc_args::{LimitArgs, QuestionArgs};
use inc_directive::{DirectiveKind, FileLines, LineKind, read_lines};
use inc_graph::Mark;
use inc_lookup::Project;
use inc_text::{Language, TextFault, splice_owned};
use inc_token::LineTokens;
use std::alloc::{AllocError, Global};

/// A project, with the paths under which its files are read, and their language.
#[derive(Clone, Copy)]
pub struct Listed<'a> {
    pub project: &'a Project<'a>,
    /// One for each file, in its order, as they are written in the list.
    pub written: &'a [&'a [u8]],
    pub language: Language,
}

/// Directives that limit a question.
#[derive(Drop)]
pub struct Marked {
    /// Those that are taken as removed.
    pub without: Vec<Mark>,
    /// Those that may not be removed.
    pub fixed: Vec<Mark>,
}

/// The directives of lists, and behind them those that the words of a question name in the files of its project. A file that several words
/// fit is read for each of them.
pub fn named_places<I: Inputs>(
    alloc: Global,
    inputs: &mut I,
    listed: Listed<'_>,
    question: &QuestionArgs<'_>,
    limits: &LimitArgs<'_>,
    marked: Marked,
) -> Result<Marked, Failure>
    ensures { Comes (named_places I.gives (listed_in listed.entry) (seen_question question.now) (seen_limits limits.now) marked.without.items marked.fixed.items)
        inputs.old (seen_marked result) inputs.new }
{
    let Marked { without, fixed } = marked;
    let without = with_words(alloc, inputs, listed, Side::Drop, &question.drop, without)?;
    let fixed = with_words(alloc, inputs, listed, Side::Keep, &limits.keep, fixed)?;
    Ok(Marked { without, fixed })
}

/// Directives, and those that words name.
fn with_words<I: Inputs>(
    alloc: Global,
    inputs: &mut I,
    listed: Listed<'_>,
    side: Side,
    words: &[&str],
    marks: Vec<Mark>,
) -> Result<Vec<Mark>, Failure>
    ensures { Comes (each (with_word I.gives (listed_in listed.entry) side) (map (λ w. w.now) words.now) marks.items)
        inputs.old (seen_marks result) inputs.new }
{
    let mut marks = marks;
    for word in words {
        marks = with_word(alloc, inputs, listed, side, word, marks)?;
    }
    Ok(marks)
}

/// Directives, and those that a word names.
fn with_word<I: Inputs>(
    alloc: Global,
    inputs: &mut I,
    listed: Listed<'_>,
    side: Side,
    word: &str,
    marks: Vec<Mark>,
) -> Result<Vec<Mark>, Failure>
    ensures { Comes (with_word I.gives (listed_in listed.entry) side word.now marks.items) inputs.old (seen_marks result) inputs.new }
{
    let word = word.as_bytes();
    if line_colon(word).is_some() {
        return Ok(marks);
    }
    with_name(alloc, inputs, listed, side, word, name_colon(word), marks)
}

/// Directives, and those that a word without a line names, whose name is behind this colon.
fn with_name<I: Inputs>(
    alloc: Global,
    inputs: &mut I,
    listed: Listed<'_>,
    side: Side,
    word: &[u8],
    colon: Option<usize>,
    marks: Vec<Mark>,
) -> Result<Vec<Mark>, Failure>
    requires { IfSome colon (λ at. at < length word.now) }
    ensures { Comes (with_name I.gives (listed_in listed.entry) side word.now colon marks.items) inputs.old (seen_marks result) inputs.new }
{
    match colon {
        Some(at) => with_directives(alloc, inputs, listed, side, word, at, marks),
        None => match side {
            Side::Drop => with_glob(alloc, inputs, listed, side, None, word, marks),
            _ => Ok(marks),
        },
    }
}

/// Directives, and those that a word names whose name is behind this colon, of which there must be one.
fn with_directives<I: Inputs>(
    alloc: Global,
    inputs: &mut I,
    listed: Listed<'_>,
    side: Side,
    word: &[u8],
    colon: usize,
    marks: Vec<Mark>,
) -> Result<Vec<Mark>, Failure>
    requires { colon < length word.now }
    ensures { Comes (with_name I.gives (listed_in listed.entry) side word.now (Some colon) marks.items) inputs.old (seen_marks result) inputs.new }
{
    let count = marks.len();
    let (glob, name) = (&word[..colon], &word[colon + 1..]);
    let marks = with_glob(alloc, inputs, listed, side, Some(name), glob, marks)?;
    if marks.len() == count {
        return Err(undirected(alloc, side.option(), word));
    }
    Ok(marks)
}

/// Directives, and those of the files for which a glob stands that are named so, or all of these.
fn with_glob<I: Inputs>(
    alloc: Global,
    inputs: &mut I,
    listed: Listed<'_>,
    side: Side,
    name: Option<&[u8]>,
    glob: &[u8],
    marks: Vec<Mark>,
) -> Result<Vec<Mark>, Failure>
    ensures { Comes (with_glob I.gives (listed_in listed.entry) side (option_map (λ n. n.now) name.entry) glob.now marks.items)
        inputs.old (seen_marks result) inputs.new }
{
    let mut paths = Vec::new(alloc);
    match add_paths(&mut paths, alloc, listed.project, side, glob) {
        Ok(()) => with_paths(alloc, inputs, listed, name, &paths, marks),
        Err(failure) => Err(failure),
    }
}

/// Directives, and those of the files with these paths.
fn with_paths<I: Inputs>(
    alloc: Global,
    inputs: &mut I,
    listed: Listed<'_>,
    name: Option<&[u8]>,
    paths: &[&[u8]],
    marks: Vec<Mark>,
) -> Result<Vec<Mark>, Failure>
    ensures { Comes (each (with_path I.gives (listed_in listed.entry) (option_map (λ n. n.now) name.entry)) (map (λ p. p.now) paths.now) marks.items)
        inputs.old (seen_marks result) inputs.new }
{
    let mut marks = marks;
    for path in paths {
        marks = with_path(alloc, inputs, listed, name, path, marks)?;
    }
    Ok(marks)
}

/// Directives, and those of the file with this path.
pub(crate) fn with_path<I: Inputs>(
    alloc: Global,
    inputs: &mut I,
    listed: Listed<'_>,
    name: Option<&[u8]>,
    path: &[u8],
    marks: Vec<Mark>,
) -> Result<Vec<Mark>, Failure>
    ensures { Comes (with_path I.gives (listed_in listed.entry) (option_map (λ n. n.now) name.entry) path.now marks.items)
        inputs.old (seen_marks result) inputs.new }
{
    let written = written_at(alloc, listed, path)?;
    match written {
        Some(written) => with_file(alloc, inputs, listed.language, name, path, written, marks),
        None => Ok(marks),
    }
}

/// Under which path the file with a path of the project is read.
fn written_at<'a>(
    alloc: Global,
    listed: Listed<'a>,
    path: &[u8],
) -> Result<Option<&'a [u8]>, AllocError>
    ensures { IfOk result (λ written. option_map (λ w. w.now) written ≡ written_at (listed_in listed.entry) path.now) }
{
    let Some(file) = file_at(alloc, listed.project, path)? else {
        return Ok(None);
    };
    match listed.written.get(file.index()) {
        Some(written) => Ok(Some(written)),
        None => Ok(None),
    }
}

/// Directives, and those of the file with this path, which is read under that one.
fn with_file<I: Inputs>(
    alloc: Global,
    inputs: &mut I,
    language: Language,
    name: Option<&[u8]>,
    path: &[u8],
    written: &[u8],
    marks: Vec<Mark>,
) -> Result<Vec<Mark>, Failure>
    ensures { Comes (with_file I.gives language (option_map (λ n. n.now) name.entry) path.now (Some written.now) marks.items)
        inputs.old (seen_marks result) inputs.new }
{
    match inputs.read_listed(alloc, written) {
        Ok(bytes) => {
            let mut marks = marks;
            match add_marks(&mut marks, alloc, language, name, path, bytes) {
                Ok(()) => Ok(marks),
                Err(_) => Err(Failure::NoMemory),
            }
        }
        Err(fault) => Err(read_failure(alloc, fault, written)?),
    }
}

/// Adds the directives of a file with this path and these bytes.
fn add_marks(
    marks: &mut Vec<Mark>,
    alloc: Global,
    language: Language,
    name: Option<&[u8]>,
    path: &[u8],
    bytes: Vec<u8>,
) -> Result<(), AllocError>
    requires { length bytes.items ≤ LONGEST_FILE }
    ensures { OnOk result (marks.new.items ≡ marks.old.items
        ++ bytes_marks language (option_map (λ n. n.now) name.entry) path.now bytes.items) }
{
    let lines = bytes_lines(alloc, language, name, bytes)?;
    push_lines(marks, alloc, path, &lines)
}

/// Adds the directives at lines of the file with this path.
fn push_lines(
    marks: &mut Vec<Mark>,
    alloc: Global,
    path: &[u8],
    lines: &[u32],
) -> Result<(), AllocError>
    ensures { OnOk result (marks.new.items ≡ marks.old.items ++ filter_map (λ n. mark_with (Some n) path.now) lines.now) }
{
    for line in lines {
        push_mark(marks, alloc, Some(*line), path)?;
    }
    Ok(())
}

/// The lines of the directives of a file with these bytes that are named so; none where it has a fault.
fn bytes_lines(
    alloc: Global,
    language: Language,
    name: Option<&[u8]>,
    bytes: Vec<u8>,
) -> Result<Vec<u32>, AllocError>
    requires { length bytes.items ≤ LONGEST_FILE }
    ensures { IfOk result (λ lines. lines.items ≡ text_lines language (option_map (λ n. n.now) name.entry) (phase_text language bytes.items)) }
{
    let text = match splice_owned(alloc, bytes, language) {
        Ok(text) => text,
        // It is not too long.
        Err(TextFault::TooLong) => unreachable!(),
        Err(TextFault::NoMemory) => return Err(AllocError),
    };
    match read_lines(alloc, text, language) {
        Ok(found) => named_lines(alloc, &found, name),
        Err(fault) => match fault.line() {
            Some(_) => Ok(Vec::new(alloc)),
            None => Err(AllocError),
        },
    }
}

/// The lines of the directives among those of a file that include and are named so.
fn named_lines(
    alloc: Global,
    found: &FileLines,
    name: Option<&[u8]>,
) -> Result<Vec<u32>, AllocError>
    ensures { IfOk result (λ lines. lines.items ≡ named_lines (option_map (λ n. n.now) name.entry) (lines_of_parts found.now)) }
{
    let mut lines = Vec::new(alloc);
    for i in 0..found.count() {
        if is_named(found, i, name) {
            lines.push(found.first_line(i))?;
        }
    }
    Ok(lines)
}

/// Whether a part is a directive that includes and is named so.
fn is_named(found: &FileLines, i: usize, name: Option<&[u8]>) -> bool
    requires { i < length found.now }
    ensures directive { (l : FileLine) → slice_get found.now i ≡ Some (DirectivePart l) →
        result ≡ (is_removable l.kind && is_named (option_map (λ n. n.now) name.entry) l.tokens) }
    ensures text { (ls : List FileLine) → slice_get found.now i ≡ Some (TextPart ls) → result ≡ false }
{
    if !is_removable(found.kind(i)) {
        return false;
    }
    match name {
        Some(name) => are_written(operands(found, i), name),
        None => true,
    }
}

/// Whether a directive is one that includes.
fn is_removable(kind: LineKind<'_>) -> bool
    ensures { result ≡ is_removable (seen_kind kind.entry) }
{
    matches!(
        kind,
        LineKind::Include(..) | LineKind::Other(DirectiveKind::Foreign)
    )
}

/// A walk over what is behind # and the name of a directive.
fn operands(found: &FileLines, i: usize) -> LineTokens<'_>
    requires { i < length found.now }
    ensures { (l : FileLine) → slice_get found.now i ≡ Some (DirectivePart l) → result ≡ drop 2 l.tokens }
{
    let mut tokens = found.tokens(i);
    let _hash = tokens.next();
    let _name = tokens.next();
    tokens
}

/// Whether tokens are written so, the white space between them aside.
fn are_written(tokens: LineTokens<'_>, name: &[u8]) -> bool
    ensures { result ≡ are_written tokens.entry name.now }
{
    let mut tokens = tokens;
    let mut left = unspaced(name);
    while let Some(token) = tokens.next() {
        let Some(rest) = left.strip_prefix(token.spelling) else {
            return false;
        };
        left = unspaced(rest);
    }
    left.is_empty()
}
