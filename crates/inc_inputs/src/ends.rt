//! Between which files of a project a question is asked.
ghost use Rattle.std.specs.Prelude.{◌≡◌, ◌≢◌, ◌<◌, ◌∷◌, ◌++◌, [], ℕ, List, Ok, Err, OnOk, false, filter, length, map, not, slice_get, slice_index_or, IfErr, IfOk, IfSome};
ghost use Rattle.std.specs.List.{fold};
ghost use Rattle.inc_globs.specs.Globs.{fits, pieces};
ghost use Rattle.inc_args.specs.Views.{seen_question};
ghost use Rattle.inc_cost.specs.Costs as spec;
ghost use Rattle.inc_graph.specs.FileSets.{AreFlags};
ghost use Rattle.inc_lookup.specs.Projects.{found_as, path_at};
ghost use Rattle.inc_inputs.specs.Ends.{alone, apart, are_ends, asked_ends, end_paths, ends_at, file_path, glob_paths, group_of, grouped_ends, groups_of, is_path_of, named_files, some_ends, some_group, stands_for, tree_ends, with_new, word_paths, words_paths};
ghost use Rattle.inc_inputs.specs.BothNotes.{both_by, both_lines, both_notes, end_notes};
ghost use Rattle.inc_inputs.specs.BuildReports.{some_lines};
ghost use Rattle.inc_inputs.specs.HeaderNames.{header_notes, header_path};
ghost use Rattle.inc_inputs.specs.Reports.{out_of_memory, report_of};
ghost use Rattle.inc_inputs.specs.Views.{end_paths_in, seen_ends, seen_group, seen_groups, seen_path, seen_paths};
ghost use Rattle.inc_inputs.specs.declared.sides.Side.TheVariants.{Header, Source};

use crate::both_notes::both_notes;
use crate::failures::{Failure, glob_failure, unfit};
use crate::header_names::{header_notes, header_path};
use crate::sides::Side;
use inc_args::QuestionArgs;
use inc_cost::Group;
use inc_globs::{Glob, GlobFault, is_glob};
use inc_lookup::{FileId, Project, normalise};
use std::alloc::{AllocError, Global};

/// The paths of sources and of headers, as words or as those of the project.
#[derive(Drop)]
pub struct EndPaths<'p> {
    pub from: Vec<&'p [u8]>,
    pub to: Vec<&'p [u8]>,
    /// Groups of headers, each called by its word.
    pub groups: Vec<Group<'p>>,
    /// What is noted of the words: a line for each.
    pub notes: Vec<u8>,
}

/// Whether a question has a word for a source and one for a header, or some of `--from` and either a word for a header or some of `--to`, and
/// nothing else.
pub fn are_ends(question: &QuestionArgs<'_>) -> bool
    ensures { result ≡ are_ends (seen_question question.now) }
{
    match (question.source, question.header) {
        (Some(_), Some(_)) => question.from.is_empty() && question.to.is_empty(),
        (None, Some(_)) => !question.from.is_empty() && question.to.is_empty(),
        (None, None) => !question.from.is_empty() && !question.to.is_empty(),
        _ => false,
    }
}

/// The paths between which a question is asked.
pub fn asked_ends<'p>(
    alloc: Global,
    project: &'p Project<'_>,
    question: &QuestionArgs<'p>,
) -> Result<EndPaths<'p>, Failure>
    ensures ends { seen_ends result ≢ Err out_of_memory →
        seen_ends result ≡ asked_ends project.now (seen_question question.now) }
    ensures notes { IfOk result (λ ends. ends.notes.items
        ≡ end_notes project.now (seen_question question.now)) }
{
    match ends_of_words(alloc, project, question) {
        Ok(ends) => with_notes(alloc, project, question, ends),
        Err(failure) => Err(failure),
    }
}

/// The same paths, with what is noted of the words for headers before what is noted of them.
fn with_notes<'p>(
    alloc: Global,
    project: &Project<'_>,
    question: &QuestionArgs<'_>,
    ends: EndPaths<'p>,
) -> Result<EndPaths<'p>, Failure>
    ensures ends { seen_ends result ≢ Err out_of_memory → seen_ends result ≡ Ok (end_paths_in ends.entry) }
    ensures notes { IfOk result (λ all. all.notes.items
        ≡ header_notes project.now (seen_question question.now) ++ ends.entry.notes.items) }
{
    match notes_before(alloc, project, question, &ends.notes) {
        Ok(notes) => Ok(EndPaths {
            from: ends.from,
            to: ends.to,
            groups: ends.groups,
            notes,
        }),
        Err(_) => Err(Failure::NoMemory),
    }
}

/// What is noted of the words for headers, and others behind it.
fn notes_before(
    alloc: Global,
    project: &Project<'_>,
    question: &QuestionArgs<'_>,
    more: &[u8],
) -> Result<Vec<u8>, AllocError>
    ensures { IfOk result (λ notes. notes.items
        ≡ header_notes project.now (seen_question question.now) ++ more.now) }
{
    let mut notes = header_notes(alloc, project, question)?;
    notes.extend_from_slice(more)?;
    Ok(notes)
}

/// The paths between which a question is asked, with what is noted of files that are among both.
fn ends_of_words<'p>(
    alloc: Global,
    project: &'p Project<'_>,
    question: &QuestionArgs<'p>,
) -> Result<EndPaths<'p>, Failure>
    ensures ends { seen_ends result ≢ Err out_of_memory →
        seen_ends result ≡ asked_ends project.now (seen_question question.now) }
    ensures notes { let q = seen_question question.now in IfOk result (λ ends. ends.notes.items
        ≡ both_notes project.now q.header q.from q.to) }
{
    match (question.source, question.header) {
        (Some(source), Some(header)) => one_of_each(alloc, project, source, header),
        (None, Some(header)) => paths_to(alloc, project, &question.from, header),
        _ => end_paths(alloc, project, &question.from, &question.to),
    }
}

/// A source by its path, and a header.
fn one_of_each<'p>(
    alloc: Global,
    project: &'p Project<'_>,
    source: &'p str,
    header: &'p str,
) -> Result<EndPaths<'p>, Failure>
    ensures ends { seen_ends result ≢ Err out_of_memory → seen_ends result
        ≡ ends_at (Ok (source.entry.now ∷ [])) (alone (header_path project.now header.entry.now)) }
    ensures notes { IfOk result (λ ends. ends.notes.items ≡ []) }
{
    match one_path(alloc, source.as_bytes()) {
        Ok(from) => beside(alloc, project, from, header),
        Err(_) => Err(Failure::NoMemory),
    }
}

/// A path.
fn one_path(alloc: Global, path: &[u8]) -> Result<Vec<&[u8]>, AllocError>
    ensures { IfOk result (λ paths. map (λ p. p.now) paths.items ≡ path.entry.now ∷ []) }
{
    let mut paths = Vec::new(alloc);
    paths.push(path)?;
    Ok(paths)
}

/// The paths of sources beside that of one header.
fn beside<'p>(
    alloc: Global,
    project: &'p Project<'_>,
    from: Vec<&'p [u8]>,
    header: &'p str,
) -> Result<EndPaths<'p>, Failure>
    ensures ends { seen_ends result ≢ Err out_of_memory → seen_ends result
        ≡ ends_at (Ok (map (λ p. p.now) from.entry.items)) (alone (header_path project.now header.entry.now)) }
    ensures notes { IfOk result (λ ends. ends.notes.items ≡ []) }
{
    match header_path(alloc, project, header.as_bytes()) {
        Ok(path) => with_header(alloc, from, path),
        Err(failure) => Err(failure),
    }
}

/// The paths of sources, and that of a header.
fn with_header<'p>(
    alloc: Global,
    from: Vec<&'p [u8]>,
    header: &'p [u8],
) -> Result<EndPaths<'p>, Failure>
    ensures ends { seen_ends result ≢ Err out_of_memory → seen_ends result
        ≡ Ok (record { from = map (λ p. p.now) from.entry.items; to = header.entry.now ∷ []; groups = [] }) }
    ensures notes { IfOk result (λ ends. ends.notes.items ≡ []) }
{
    match one_path(alloc, header) {
        Ok(to) => Ok(noted(alloc, from, to, Vec::new(alloc))),
        Err(_) => Err(Failure::NoMemory),
    }
}

/// The paths of sources and of headers, with notes.
fn noted<'p>(alloc: Global, from: Vec<&'p [u8]>, to: Vec<&'p [u8]>, notes: Vec<u8>) -> EndPaths<'p>
    ensures ends { end_paths_in result ≡ record { from = map (λ p. p.now) from.entry.items; to = map (λ p. p.now) to.entry.items; groups = [] } }
    ensures notes { result.notes.items ≡ notes.items }
{
    EndPaths {
        from,
        to,
        groups: Vec::new(alloc),
        notes,
    }
}

/// The paths that the words of `--from` stand for, beside that of one header.
fn paths_to<'p>(
    alloc: Global,
    project: &'p Project<'_>,
    from: &[&'p str],
    header: &'p str,
) -> Result<EndPaths<'p>, Failure>
    ensures ends { seen_ends result ≢ Err out_of_memory → seen_ends result
        ≡ ends_at (words_paths project.now Source (map (λ w. w.now) from.now)) (alone (header_path project.now header.entry.now)) }
    ensures notes { IfOk result (λ ends. ends.notes.items ≡ []) }
{
    match paths_of(alloc, project, Side::Source, from) {
        Ok(from) => beside(alloc, project, from, header),
        Err(failure) => Err(failure),
    }
}

/// The paths that the words of `--from` and of `--to` stand for. A glob stands for the files of the project that it fits, in their order,
/// and another word for itself. A file that both stand for is taken as a header alone, which is noted.
fn end_paths<'p>(
    alloc: Global,
    project: &'p Project<'_>,
    from: &[&'p str],
    to: &[&'p str],
) -> Result<EndPaths<'p>, Failure>
    ensures ends { seen_ends result ≢ Err out_of_memory →
        seen_ends result ≡ end_paths project.now (map (λ w. w.now) from.now) (map (λ w. w.now) to.now) }
    ensures notes { IfOk result (λ ends. ends.notes.items
        ≡ both_by project.now (words_paths project.now Source (map (λ w. w.now) from.now)) (words_paths project.now Header (map (λ w. w.now) to.now))) }
{
    let sources = match paths_of(alloc, project, Side::Source, from) {
        Ok(paths) => paths,
        Err(failure) => return Err(failure),
    };
    match paths_of(alloc, project, Side::Header, to) {
        Ok(headers) => apart_from(alloc, project, &sources, headers),
        Err(failure) => Err(failure),
    }
}

/// The paths that the words of `--from` stand for, and the groups for which those of `--to` stand.
pub fn grouped_ends<'p>(
    alloc: Global,
    project: &'p Project<'_>,
    question: &QuestionArgs<'p>,
) -> Result<EndPaths<'p>, Failure>
    ensures ends { seen_ends result ≢ Err out_of_memory →
        seen_ends result ≡ grouped_ends project.now (seen_question question.now) }
    ensures notes { IfOk result (λ ends. ends.notes.items
        ≡ header_notes project.now (seen_question question.now)) }
{
    match grouped(alloc, project, question) {
        Ok(ends) => with_notes(alloc, project, question, ends),
        Err(failure) => Err(failure),
    }
}

/// The path of the source of a word, or what [`grouped_ends`] gives where there is none.
pub fn tree_ends<'p>(
    alloc: Global,
    project: &'p Project<'_>,
    question: &QuestionArgs<'p>,
) -> Result<EndPaths<'p>, Failure>
    ensures ends { seen_ends result ≢ Err out_of_memory →
        seen_ends result ≡ tree_ends project.now (seen_question question.now) }
    ensures notes { IfOk result (λ ends. ends.notes.items
        ≡ header_notes project.now (seen_question question.now)) }
{
    match question.source {
        Some(source) => one_source(alloc, project, question, source),
        None => grouped_ends(alloc, project, question),
    }
}

/// A source by its path.
fn one_source<'p>(
    alloc: Global,
    project: &Project<'_>,
    question: &QuestionArgs<'_>,
    source: &'p str,
) -> Result<EndPaths<'p>, Failure>
    ensures ends { seen_ends result ≢ Err out_of_memory →
        seen_ends result ≡ Ok (record { from = source.entry.now ∷ []; to = []; groups = [] }) }
    ensures notes { IfOk result (λ ends. ends.notes.items
        ≡ header_notes project.now (seen_question question.now)) }
{
    match one_path(alloc, source.as_bytes()) {
        Ok(from) => {
            let ends = noted(alloc, from, Vec::new(alloc), Vec::new(alloc));
            with_notes(alloc, project, question, ends)
        }
        Err(_) => Err(Failure::NoMemory),
    }
}

/// The same with nothing noted.
fn grouped<'p>(
    alloc: Global,
    project: &'p Project<'_>,
    question: &QuestionArgs<'p>,
) -> Result<EndPaths<'p>, Failure>
    ensures ends { seen_ends result ≢ Err out_of_memory →
        seen_ends result ≡ grouped_ends project.now (seen_question question.now) }
    ensures notes { IfOk result (λ ends. ends.notes.items ≡ []) }
{
    let from = match paths_of(alloc, project, Side::Source, &question.from) {
        Ok(paths) => paths,
        Err(failure) => return Err(failure),
    };
    match groups_of(alloc, project, &question.to) {
        Ok(groups) => Ok(EndPaths {
            from,
            to: Vec::new(alloc),
            groups,
            notes: Vec::new(alloc),
        }),
        Err(failure) => Err(failure),
    }
}

/// The groups for which words stand.
fn groups_of<'p>(
    alloc: Global,
    project: &'p Project<'_>,
    words: &[&'p str],
) -> Result<Vec<Group<'p>>, Failure>
    ensures { seen_groups result ≢ Err out_of_memory →
        seen_groups result ≡ groups_of project.now (map (λ w. w.now) words.now) }
{
    let mut groups = Vec::new(alloc);
    for word in words {
        match add_group(&mut groups, alloc, project, word) {
            Ok(()) => {}
            Err(failure) => return Err(failure),
        }
    }
    Ok(groups)
}

/// Adds the group for which a word stands.
fn add_group<'p>(
    groups: &mut Vec<Group<'p>>,
    alloc: Global,
    project: &'p Project<'_>,
    word: &'p str,
) -> Result<(), Failure>
    ensures added { OnOk result ((x : spec.Group) × (group_of project.now word.entry.now ≡ Ok x)
        × (groups.new.items ≡ groups.old.items ++ x ∷ [])) }
    ensures fault { IfErr result (λ failure. report_of failure ≢ out_of_memory →
        group_of project.now word.entry.now ≡ Err (report_of failure)) }
{
    match group_of(alloc, project, word.as_bytes()) {
        Ok(group) => {
            groups.push(group)?;
            Ok(())
        }
        Err(failure) => Err(failure),
    }
}

/// The group for which a word stands.
fn group_of<'p>(
    alloc: Global,
    project: &'p Project<'_>,
    word: &'p [u8],
) -> Result<Group<'p>, Failure>
    ensures { seen_group result ≢ Err out_of_memory → seen_group result ≡ group_of project.now word.entry.now }
{
    let mut paths = Vec::new(alloc);
    match add_paths(&mut paths, alloc, project, Side::Header, word) {
        Ok(()) => some_group(alloc, project, word, paths),
        Err(failure) => Err(failure),
    }
}

/// Paths as a group that is called by a word, which must name some file.
fn some_group<'p>(
    alloc: Global,
    project: &Project<'_>,
    word: &'p [u8],
    paths: Vec<&'p [u8]>,
) -> Result<Group<'p>, Failure>
    ensures { seen_group result ≢ Err out_of_memory → seen_group result
        ≡ some_group word.entry.now (map (λ p. p.now) paths.entry.items) (named_files project.now (map (λ p. p.now) paths.entry.items)) }
{
    match first_named(alloc, project, &paths) {
        Ok(Some(_)) => Ok(Group { name: word, paths }),
        Ok(None) => Err(unfit(alloc, Side::Header.option(), word)),
        Err(_) => Err(Failure::NoMemory),
    }
}

/// The first file that one of some paths names.
fn first_named(
    alloc: Global,
    project: &Project<'_>,
    paths: &[&[u8]],
) -> Result<Option<FileId>, AllocError>
    ensures { IfOk result (λ file. file ≡ slice_get (named_files project.now (map (λ p. p.now) paths.now)) 0) }
{
    for path in paths {
        if let Some(file) = file_at(alloc, project, path)? {
            return Ok(Some(file));
        }
    }
    Ok(None)
}

/// The paths that words stand for, each file once by the first that names it: so memory is bounded by the files and the words, however many
/// files each word fits.
pub(crate) fn paths_of<'p>(
    alloc: Global,
    project: &'p Project<'_>,
    side: Side,
    words: &[&'p str],
) -> Result<Vec<&'p [u8]>, Failure>
    ensures { seen_paths result ≢ Err out_of_memory →
        seen_paths result ≡ words_paths project.now side (map (λ w. w.now) words.now) }
{
    let mut taken = vec![in alloc; false; project.count()]?;
    let mut paths = Vec::new(alloc);
    for word in words {
        match add_word_paths(&mut paths, &mut taken, alloc, project, side, word) {
            Ok(()) => {}
            Err(failure) => return Err(failure),
        }
    }
    Ok(paths)
}

/// Adds the paths that a word of the command line stands for, of files without a flag.
fn add_word_paths<'p>(
    paths: &mut Vec<&'p [u8]>,
    taken: &mut Vec<bool>,
    alloc: Global,
    project: &'p Project<'_>,
    side: Side,
    word: &'p str,
) -> Result<(), Failure>
    requires flags { AreFlags (named_files project.now (map (λ p. p.now) paths.old.items)) taken.old.items }
    requires long { length taken.old.items ≡ length project.now.paths }
    ensures added { OnOk result ((more : List (List ℕ)) × (word_paths project.now side word.entry.now ≡ Ok more)
        × (map (λ p. p.now) paths.new.items ≡ fold (with_new project.now) (map (λ p. p.now) paths.old.items) more)) }
    ensures fault { IfErr result (λ failure. report_of failure ≢ out_of_memory →
        word_paths project.now side word.entry.now ≡ Err (report_of failure)) }
    ensures flags { OnOk result (AreFlags (named_files project.now (map (λ p. p.now) paths.new.items)) taken.new.items) }
    ensures long { OnOk result (length taken.new.items ≡ length project.now.paths) }
{
    let mut more = Vec::new(alloc);
    match add_paths(&mut more, alloc, project, side, word.as_bytes()) {
        Ok(()) => {
            add_all_new(paths, taken, alloc, project, &more)?;
            Ok(())
        }
        Err(failure) => Err(failure),
    }
}

/// Adds those of some paths that are of files without a flag, or of none.
fn add_all_new<'p>(
    paths: &mut Vec<&'p [u8]>,
    taken: &mut Vec<bool>,
    alloc: Global,
    project: &Project<'_>,
    more: &[&'p [u8]],
) -> Result<(), AllocError>
    requires flags { AreFlags (named_files project.now (map (λ p. p.now) paths.old.items)) taken.old.items }
    requires long { length taken.old.items ≡ length project.now.paths }
    ensures added { OnOk result (map (λ p. p.now) paths.new.items
        ≡ fold (with_new project.now) (map (λ p. p.now) paths.old.items) (map (λ p. p.now) more.now)) }
    ensures flags { OnOk result (AreFlags (named_files project.now (map (λ p. p.now) paths.new.items)) taken.new.items) }
    ensures long { OnOk result (length taken.new.items ≡ length project.now.paths) }
{
    for path in more {
        add_new(paths, taken, alloc, project, path)?;
    }
    Ok(())
}

/// Adds a path, unless it is that of a file with a flag, and flags its file.
fn add_new<'p>(
    paths: &mut Vec<&'p [u8]>,
    taken: &mut Vec<bool>,
    alloc: Global,
    project: &Project<'_>,
    path: &'p [u8],
) -> Result<(), AllocError>
    requires flags { AreFlags (named_files project.now (map (λ p. p.now) paths.old.items)) taken.old.items }
    requires long { length taken.old.items ≡ length project.now.paths }
    ensures added { OnOk result (map (λ p. p.now) paths.new.items
        ≡ with_new project.now (map (λ p. p.now) paths.old.items) path.entry.now) }
    ensures flags { OnOk result (AreFlags (named_files project.now (map (λ p. p.now) paths.new.items)) taken.new.items) }
    ensures long { OnOk result (length taken.new.items ≡ length project.now.paths) }
{
    if let Some(file) = file_at(alloc, project, path)? {
        if has_flag(taken, file) {
            return Ok(());
        }
        taken[file.index()] = true;
    }
    paths.push(path)?;
    Ok(())
}

/// Adds the paths that a word stands for.
pub(crate) fn add_paths<'p>(
    paths: &mut Vec<&'p [u8]>,
    alloc: Global,
    project: &'p Project<'_>,
    side: Side,
    word: &'p [u8],
) -> Result<(), Failure>
    ensures added { OnOk result ((more : List (List ℕ)) × (word_paths project.now side word.entry.now ≡ Ok more)
        × (map (λ p. p.now) paths.new.items ≡ map (λ p. p.now) paths.old.items ++ more)) }
    ensures fault { IfErr result (λ failure. report_of failure ≢ out_of_memory →
        word_paths project.now side word.entry.now ≡ Err (report_of failure)) }
{
    if is_glob(word) {
        return add_fitting(paths, alloc, project, side.option(), word);
    }
    add_path(paths, alloc, project, side, word)
}

/// Adds the path for which a word stands that is no glob.
fn add_path<'p>(
    paths: &mut Vec<&'p [u8]>,
    alloc: Global,
    project: &'p Project<'_>,
    side: Side,
    word: &'p [u8],
) -> Result<(), Failure>
    ensures added { OnOk result ((more : List (List ℕ)) × (alone (stands_for project.now side word.entry.now) ≡ Ok more)
        × (map (λ p. p.now) paths.new.items ≡ map (λ p. p.now) paths.old.items ++ more)) }
    ensures fault { IfErr result (λ failure. report_of failure ≢ out_of_memory →
        alone (stands_for project.now side word.entry.now) ≡ Err (report_of failure)) }
{
    match path_of(alloc, project, side, word) {
        Ok(path) => {
            add_one(paths, path)?;
            Ok(())
        }
        Err(failure) => Err(failure),
    }
}

/// Adds a path.
fn add_one<'p>(paths: &mut Vec<&'p [u8]>, path: &'p [u8]) -> Result<(), AllocError>
    ensures { OnOk result (map (λ p. p.now) paths.new.items
        ≡ map (λ p. p.now) paths.old.items ++ path.entry.now ∷ []) }
{
    paths.push(path)?;
    Ok(())
}

/// The path for which a word stands that is no glob.
fn path_of<'p>(
    alloc: Global,
    project: &'p Project<'_>,
    side: Side,
    word: &'p [u8],
) -> Result<&'p [u8], Failure>
    ensures { seen_path result ≢ Err out_of_memory → seen_path result ≡ stands_for project.now side word.entry.now }
{
    match side {
        Side::Source => Ok(word),
        Side::Header => header_path(alloc, project, word),
        _ => file_path(alloc, project, side.option(), word),
    }
}

/// The path of the file that a word names.
fn file_path<'p>(
    alloc: Global,
    project: &'p Project<'_>,
    option: &str,
    word: &[u8],
) -> Result<&'p [u8], Failure>
    ensures { seen_path result ≢ Err out_of_memory →
        seen_path result ≡ file_path project.now option.now word.now (found_as project.now.paths word.now) }
{
    match file_at(alloc, project, word) {
        Ok(Some(file)) => Ok(project.path(file)),
        Ok(None) => Err(unfit(alloc, option, word)),
        Err(_) => Err(Failure::NoMemory),
    }
}

/// Adds a word as a path.
pub(crate) fn add_word<'p>(paths: &mut Vec<&'p [u8]>, word: &'p str) -> Result<(), AllocError>
    ensures { OnOk result (map (λ p. p.now) paths.new.items
        ≡ map (λ p. p.now) paths.old.items ++ word.entry.now ∷ []) }
{
    add_one(paths, word.as_bytes())
}

/// Adds the paths of the project that a glob fits.
fn add_fitting<'p>(
    paths: &mut Vec<&'p [u8]>,
    alloc: Global,
    project: &'p Project<'_>,
    option: &str,
    word: &[u8],
) -> Result<(), Failure>
    ensures added { OnOk result ((more : List (List ℕ)) × (glob_paths project.now option.now word.now (pieces word.now) ≡ Ok more)
        × (map (λ p. p.now) paths.new.items ≡ map (λ p. p.now) paths.old.items ++ more)) }
    ensures fault { IfErr result (λ failure. report_of failure ≢ out_of_memory →
        glob_paths project.now option.now word.now (pieces word.now) ≡ Err (report_of failure)) }
{
    let mut glob = match Glob::new(alloc, word) {
        Ok(glob) => glob,
        Err(GlobFault::Unterminated) => return Err(glob_failure(alloc, option, word)),
        Err(GlobFault::NoMemory) => return Err(Failure::NoMemory),
    };
    let count = paths.len();
    if add_all(paths, project, &mut glob).is_err() {
        return Err(Failure::NoMemory);
    }
    if paths.len() == count {
        return Err(unfit(alloc, option, word));
    }
    Ok(())
}

/// Adds the paths of the project that a glob fits, in their order.
pub(crate) fn add_all<'p>(
    paths: &mut Vec<&'p [u8]>,
    project: &'p Project<'_>,
    glob: &mut Glob<'_>,
) -> Result<(), AllocError>
    ensures { OnOk result (map (λ p. p.now) paths.new.items
        ≡ map (λ p. p.now) paths.old.items ++ filter (fits glob.old) project.now.paths) }
{
    for place in 0..project.count() {
        add_fit(paths, project, glob, place)?;
    }
    Ok(())
}

/// Adds the path at a place of the project, if a glob fits it.
fn add_fit<'p>(
    paths: &mut Vec<&'p [u8]>,
    project: &'p Project<'_>,
    glob: &mut Glob<'_>,
    place: usize,
) -> Result<(), AllocError>
    requires { place < length project.now.paths }
    ensures added { OnOk result (map (λ p. p.now) paths.new.items
        ≡ map (λ p. p.now) paths.old.items ++ filter (fits glob.old) (path_at project.now place ∷ [])) }
    ensures same { glob.new ≡ glob.old }
{
    let Some(file) = project.at(place) else {
        unreachable!()
    };
    let path = project.path(file);
    if glob.fits(path)? {
        paths.push(path)?;
    }
    Ok(())
}

/// The paths of sources, without those of files that are headers, beside the headers, with notes of these files.
fn apart_from<'p>(
    alloc: Global,
    project: &Project<'_>,
    sources: &[&'p [u8]],
    headers: Vec<&'p [u8]>,
) -> Result<EndPaths<'p>, Failure>
    ensures ends { seen_ends result ≢ Err out_of_memory → seen_ends result
        ≡ some_ends (apart project.now (map (λ p. p.now) sources.now) (map (λ p. p.now) headers.entry.items)) (map (λ p. p.now) headers.entry.items) }
    ensures notes { IfOk result (λ ends. ends.notes.items
        ≡ some_lines (both_lines project.now (map (λ p. p.now) sources.now) (map (λ p. p.now) headers.entry.items))) }
{
    let from = match paths_apart(alloc, project, sources, &headers) {
        Ok(paths) => paths,
        Err(_) => return Err(Failure::NoMemory),
    };
    if from.is_empty() {
        return Err(Failure::NoSourceLeft);
    }
    with_both(alloc, project, sources, from, headers)
}

/// Paths of sources and of headers, with notes of the files that these headers and some paths of sources name.
fn with_both<'p>(
    alloc: Global,
    project: &Project<'_>,
    sources: &[&[u8]],
    from: Vec<&'p [u8]>,
    headers: Vec<&'p [u8]>,
) -> Result<EndPaths<'p>, Failure>
    ensures ends { seen_ends result ≢ Err out_of_memory → seen_ends result
        ≡ Ok (record { from = map (λ p. p.now) from.entry.items; to = map (λ p. p.now) headers.entry.items; groups = [] }) }
    ensures notes { IfOk result (λ ends. ends.notes.items
        ≡ some_lines (both_lines project.now (map (λ p. p.now) sources.now) (map (λ p. p.now) headers.entry.items))) }
{
    match both_notes(alloc, project, sources, &headers) {
        Ok(notes) => Ok(noted(alloc, from, headers, notes)),
        Err(_) => Err(Failure::NoMemory),
    }
}

/// Paths without those of files that others name.
fn paths_apart<'p>(
    alloc: Global,
    project: &Project<'_>,
    paths: &[&'p [u8]],
    others: &[&[u8]],
) -> Result<Vec<&'p [u8]>, AllocError>
    ensures { IfOk result (λ left. map (λ p. p.now) left.items
        ≡ apart project.now (map (λ p. p.now) paths.now) (map (λ p. p.now) others.now)) }
{
    let flags = flag_files(alloc, project, others)?;
    let mut left = Vec::new(alloc);
    for path in paths {
        add_apart(&mut left, alloc, project, &flags, path)?;
    }
    Ok(left)
}

/// Adds a path, unless it is that of a file with a flag.
fn add_apart<'p>(
    left: &mut Vec<&'p [u8]>,
    alloc: Global,
    project: &Project<'_>,
    flags: &[bool],
    path: &'p [u8],
) -> Result<(), AllocError>
    ensures { OnOk result ((files : List ℕ) → AreFlags files flags.now → map (λ p. p.now) left.new.items
        ≡ map (λ p. p.now) left.old.items ++ filter (λ p. not (is_path_of project.now files p)) (path.entry.now ∷ [])) }
{
    if let Some(file) = file_at(alloc, project, path)? {
        if has_flag(flags, file) {
            return Ok(());
        }
    }
    left.push(path)?;
    Ok(())
}

/// For each file of the project whether a path names it.
pub(crate) fn flag_files(
    alloc: Global,
    project: &Project<'_>,
    paths: &[&[u8]],
) -> Result<Vec<bool>, AllocError>
    ensures { IfOk result (λ flags. AreFlags (named_files project.now (map (λ p. p.now) paths.now)) flags.items) }
{
    let mut flags = vec![in alloc; false; project.count()]?;
    for path in paths {
        flag_file(&mut flags, alloc, project, path)?;
    }
    Ok(flags)
}

/// Flags the file that a path names.
fn flag_file(
    flags: &mut Vec<bool>,
    alloc: Global,
    project: &Project<'_>,
    path: &[u8],
) -> Result<(), AllocError>
    requires { length flags.old.items ≡ length project.now.paths }
    ensures flags { OnOk result ((files : List ℕ) → AreFlags files flags.old.items →
        AreFlags (files ++ named_files project.now (path.now ∷ [])) flags.new.items) }
    ensures long { OnOk result (length flags.new.items ≡ length project.now.paths) }
{
    if let Some(file) = file_at(alloc, project, path)? {
        flags[file.index()] = true;
    }
    Ok(())
}

/// Whether a file has a flag.
pub(crate) fn has_flag(flags: &[bool], file: FileId) -> bool
    ensures { result ≡ slice_index_or flags.now file false }
{
    match flags.get(file.index()) {
        Some(flag) => *flag,
        None => false,
    }
}

/// The file that a path names.
pub(crate) fn file_at(
    alloc: Global,
    project: &Project<'_>,
    path: &[u8],
) -> Result<Option<FileId>, AllocError>
    ensures file { IfOk result (λ file. file ≡ found_as project.now.paths path.now) }
    ensures within { IfOk result (λ file. IfSome file (λ f. f < length project.now.paths)) }
{
    match normalise(alloc, path)? {
        Some(path) => Ok(project.file(&path)),
        None => Ok(None),
    }
}
