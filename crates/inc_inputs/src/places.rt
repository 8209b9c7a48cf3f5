//! What the words of `--drop`, `--keep` and `--only` come to in a project.
ghost use Rattle.std.specs.Prelude.{◌≡◌, ◌≢◌, ◌<◌, ◌==◌, ◌&&◌, ◌||◌, ◌∷◌, ◌++◌, [], ℕ, List, Err, Ok, IfErr, IfOk, OnOk, drop, false, filter_map, is_none, is_some, length, map, not, slice_index_or};
ghost use Rattle.std.specs.List.{range_with_len};
ghost use Rattle.inc_args.specs.Views.{seen_limits, seen_question};
ghost use Rattle.inc_check.specs.Reading.{mark_with, number_in};
ghost use Rattle.inc_graph.specs.FileSets.{AreFlags};
ghost use Rattle.inc_graph.specs.Marks as spec;
ghost use Rattle.inc_graph.specs.Members.{is_member};
ghost use Rattle.inc_inputs.specs.Ends.{is_empty};
ghost use Rattle.inc_inputs.specs.PlaceWords.{line_colon, name_colon};
ghost use Rattle.inc_inputs.specs.Places.{kept_files, kept_flags, marks_behind, marks_by, places_of, some_marks, whole_words, word_marks, words_marks};
ghost use Rattle.inc_inputs.specs.Reports.{out_of_memory, report_of};
ghost use Rattle.inc_inputs.specs.Views.{seen_flags, seen_marks, seen_places};

use crate::ends::{add_paths, flag_files, paths_of};
use crate::failures::{Failure, unlined};
use crate::place_words::{line_colon, name_colon};
use crate::sides::Side;
use inc_args::{LimitArgs, QuestionArgs};
use inc_check::number_in;
use inc_graph::Mark;
use inc_lookup::Project;
use std::alloc::{AllocError, Global};

/// What the words of a question about places come to, behind the directives of lists.
#[derive(Drop)]
pub struct Places {
    /// The directives that are taken as removed.
    pub without: Vec<Mark>,
    /// Those that may not be removed.
    pub fixed: Vec<Mark>,
    /// For each file of the project whether none of its directives may be; none at all where no file is kept so.
    pub kept: Vec<bool>,
}

/// What the words of a question about places come to, behind the directives of lists.
pub fn asked_places<'p>(
    alloc: Global,
    project: &'p Project<'_>,
    question: &QuestionArgs<'p>,
    limits: &LimitArgs<'p>,
    without: Vec<Mark>,
    fixed: Vec<Mark>,
) -> Result<Places, Failure>
    ensures { seen_places result ≢ Err out_of_memory → seen_places result
        ≡ places_of project.now (seen_question question.now) (seen_limits limits.now) without.items fixed.items }
{
    let without = match with_marks(alloc, project, Side::Drop, &question.drop, without) {
        Ok(marks) => marks,
        Err(failure) => return Err(failure),
    };
    let fixed = match with_marks(alloc, project, Side::Keep, &limits.keep, fixed) {
        Ok(marks) => marks,
        Err(failure) => return Err(failure),
    };
    match kept_files(alloc, project, &limits.keep, &limits.only) {
        Ok(kept) => Ok(Places {
            without,
            fixed,
            kept,
        }),
        Err(failure) => Err(failure),
    }
}

/// The directives of a list, and behind them those for which words stand.
fn with_marks<'p>(
    alloc: Global,
    project: &'p Project<'_>,
    side: Side,
    words: &[&'p str],
    listed: Vec<Mark>,
) -> Result<Vec<Mark>, Failure>
    ensures { seen_marks result ≢ Err out_of_memory → seen_marks result
        ≡ marks_behind listed.items (words_marks project.now side (map (λ w. w.now) words.now)) }
{
    let mut marks = listed;
    for word in words {
        match add_word_marks(&mut marks, alloc, project, side, word) {
            Ok(()) => {}
            Err(failure) => return Err(failure),
        }
    }
    Ok(marks)
}

/// Adds the directives for which a word of the command line stands.
fn add_word_marks<'p>(
    marks: &mut Vec<Mark>,
    alloc: Global,
    project: &'p Project<'_>,
    side: Side,
    word: &'p str,
) -> Result<(), Failure>
    ensures added { OnOk result ((more : List spec.Mark) × (word_marks project.now side word.entry.now ≡ Ok more)
        × (marks.new.items ≡ marks.old.items ++ more)) }
    ensures fault { IfErr result (λ failure. report_of failure ≢ out_of_memory →
        word_marks project.now side word.entry.now ≡ Err (report_of failure)) }
{
    add_marks(marks, alloc, project, side, word.as_bytes())
}

/// Adds the directives for which a word stands.
fn add_marks<'p>(
    marks: &mut Vec<Mark>,
    alloc: Global,
    project: &'p Project<'_>,
    side: Side,
    word: &'p [u8],
) -> Result<(), Failure>
    ensures added { OnOk result ((more : List spec.Mark) × (word_marks project.now side word.entry.now ≡ Ok more)
        × (marks.new.items ≡ marks.old.items ++ more)) }
    ensures fault { IfErr result (λ failure. report_of failure ≢ out_of_memory →
        word_marks project.now side word.entry.now ≡ Err (report_of failure)) }
{
    match line_colon(word) {
        Some(colon) => add_lines(marks, alloc, project, side, word, colon),
        None => Ok(()),
    }
}

/// Adds the directive at a line of each of some files, by a word whose line is behind this colon.
fn add_lines<'p>(
    marks: &mut Vec<Mark>,
    alloc: Global,
    project: &'p Project<'_>,
    side: Side,
    word: &'p [u8],
    colon: usize,
) -> Result<(), Failure>
    requires { colon < length word.now }
    ensures added { OnOk result ((more : List spec.Mark) × (marks_by project.now side word.entry.now (Some colon) ≡ Ok more)
        × (marks.new.items ≡ marks.old.items ++ more)) }
    ensures fault { IfErr result (λ failure. report_of failure ≢ out_of_memory →
        marks_by project.now side word.entry.now (Some colon) ≡ Err (report_of failure)) }
{
    let mut paths = Vec::new(alloc);
    match add_paths(&mut paths, alloc, project, side, &word[..colon]) {
        Ok(()) => {
            let line = number_in(&word[colon + 1..]);
            add_some(marks, alloc, side.option(), word, line, &paths)
        }
        Err(failure) => Err(failure),
    }
}

/// Adds the directive at a line of files, of which there must be one.
fn add_some(
    marks: &mut Vec<Mark>,
    alloc: Global,
    option: &str,
    word: &[u8],
    line: Option<u32>,
    paths: &[&[u8]],
) -> Result<(), Failure>
    ensures added { OnOk result ((more : List spec.Mark)
        × (some_marks option.now word.now (filter_map (mark_with line) (map (λ p. p.now) paths.now)) ≡ Ok more)
        × (marks.new.items ≡ marks.old.items ++ more)) }
    ensures fault { IfErr result (λ failure. report_of failure ≢ out_of_memory →
        some_marks option.now word.now (filter_map (mark_with line) (map (λ p. p.now) paths.now)) ≡ Err (report_of failure)) }
{
    let count = marks.len();
    if push_marks(marks, alloc, line, paths).is_err() {
        return Err(Failure::NoMemory);
    }
    if marks.len() == count {
        return Err(unlined(alloc, option, word));
    }
    Ok(())
}

/// Adds the directive at a line of files.
fn push_marks(
    marks: &mut Vec<Mark>,
    alloc: Global,
    line: Option<u32>,
    paths: &[&[u8]],
) -> Result<(), AllocError>
    ensures { OnOk result (marks.new.items
        ≡ marks.old.items ++ filter_map (mark_with line) (map (λ p. p.now) paths.now)) }
{
    for path in paths {
        push_mark(marks, alloc, line, path)?;
    }
    Ok(())
}

/// Adds the directive at a line of a file.
pub(crate) fn push_mark(
    marks: &mut Vec<Mark>,
    alloc: Global,
    line: Option<u32>,
    path: &[u8],
) -> Result<(), AllocError>
    ensures { OnOk result (marks.new.items
        ≡ marks.old.items ++ filter_map (mark_with line) (path.now ∷ [])) }
{
    let Some(line) = line else {
        return Ok(());
    };
    if let Some(mark) = Mark::copied(alloc, path, line)? {
        marks.push(mark)?;
    }
    Ok(())
}

/// For each file of the project whether the words of `--keep` and `--only` keep all of its directives; none at all where they keep none.
fn kept_files<'p>(
    alloc: Global,
    project: &'p Project<'_>,
    keep: &[&'p str],
    only: &[&'p str],
) -> Result<Vec<bool>, Failure>
    ensures { seen_flags result ≢ Err out_of_memory → seen_flags result
        ≡ kept_files project.now (map (λ w. w.now) keep.now) (map (λ w. w.now) only.now) }
{
    let whole = match whole_words(alloc, keep) {
        Ok(words) => words,
        Err(_) => return Err(Failure::NoMemory),
    };
    let keep = match paths_of(alloc, project, Side::Keep, &whole) {
        Ok(paths) => paths,
        Err(failure) => return Err(failure),
    };
    match paths_of(alloc, project, Side::Only, only) {
        Ok(only) => flags_of(alloc, project, &keep, &only),
        Err(failure) => Err(failure),
    }
}

/// The words without a line and without a name.
fn whole_words<'w>(alloc: Global, words: &[&'w str]) -> Result<Vec<&'w str>, AllocError>
    ensures { IfOk result (λ whole. map (λ w. w.now) whole.items ≡ whole_words (map (λ w. w.now) words.now)) }
{
    let mut whole = Vec::new(alloc);
    for word in words {
        add_whole(&mut whole, word)?;
    }
    Ok(whole)
}

/// Adds a word, unless it has a line or a name.
fn add_whole<'w>(whole: &mut Vec<&'w str>, word: &'w str) -> Result<(), AllocError>
    ensures { OnOk result (map (λ w. w.now) whole.new.items
        ≡ map (λ w. w.now) whole.old.items ++ whole_words (word.entry.now ∷ [])) }
{
    if is_whole(word.as_bytes()) {
        whole.push(word)?;
    }
    Ok(())
}

/// Whether a word has neither a line nor a name.
fn is_whole(word: &[u8]) -> bool
    ensures { result ≡ not (is_some (line_colon word.now) || is_some (name_colon word.now)) }
{
    line_colon(word).is_none() && name_colon(word).is_none()
}

/// The flags of the files that paths keep, or that memory ran out.
fn flags_of(
    alloc: Global,
    project: &Project<'_>,
    keep: &[&[u8]],
    only: &[&[u8]],
) -> Result<Vec<bool>, Failure>
    ensures { seen_flags result ≢ Err out_of_memory → seen_flags result
        ≡ Ok (kept_flags project.now (map (λ p. p.now) keep.now) (map (λ p. p.now) only.now)) }
{
    match kept_flags(alloc, project, keep, only) {
        Ok(flags) => Ok(flags),
        Err(_) => Err(Failure::NoMemory),
    }
}

/// For each file of the project whether it is one of some, or none of those in which alone directives may be removed.
fn kept_flags(
    alloc: Global,
    project: &Project<'_>,
    keep: &[&[u8]],
    only: &[&[u8]],
) -> Result<Vec<bool>, AllocError>
    ensures { IfOk result (λ flags. flags.items
        ≡ kept_flags project.now (map (λ p. p.now) keep.now) (map (λ p. p.now) only.now)) }
{
    if are_none(keep, only) {
        return Ok(Vec::new(alloc));
    }
    let kept = flag_files(alloc, project, keep)?;
    let others = flag_files(alloc, project, only)?;
    join_flags(alloc, project.count(), &kept, &others, are_some(only))
}

/// Whether both lists are empty.
fn are_none(keep: &[&[u8]], only: &[&[u8]]) -> bool
    ensures { result ≡ (is_empty (map (λ p. p.now) keep.now) && is_empty (map (λ p. p.now) only.now)) }
{
    keep.is_empty() && only.is_empty()
}

/// Whether a list is not empty.
fn are_some(paths: &[&[u8]]) -> bool
    ensures { result ≡ not (is_empty (map (λ p. p.now) paths.now)) }
{
    !paths.is_empty()
}

/// For each of so many files whether it has a flag among the first, or the others count and it has none among them.
fn join_flags(
    alloc: Global,
    count: usize,
    kept: &[bool],
    others: &[bool],
    has_others: bool,
) -> Result<Vec<bool>, AllocError>
    ensures { IfOk result (λ flags. (ks os : List ℕ) → AreFlags ks kept.now → AreFlags os others.now →
        flags.items ≡ map (λ f. is_member f ks || (has_others && not (is_member f os))) (range_with_len 0 count)) }
{
    let mut flags = Vec::with_capacity(alloc, count)?;
    for place in 0..count {
        flags.push(is_kept(kept, others, has_others, place))?;
    }
    Ok(flags)
}

/// Whether the file at a place has a flag among the first, or the others count and it has none among them.
fn is_kept(kept: &[bool], others: &[bool], has_others: bool, place: usize) -> bool
    ensures { result ≡ (slice_index_or kept.now place false || (has_others && not (slice_index_or others.now place false))) }
{
    flag_at(kept, place) | (has_others & !flag_at(others, place))
}

/// Whether the file at a place has a flag.
fn flag_at(flags: &[bool], place: usize) -> bool
    ensures { result ≡ slice_index_or flags.now place false }
{
    match flags.get(place) {
        Some(flag) => *flag,
        None => false,
    }
}
