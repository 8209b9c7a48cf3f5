//! Questions about sources and headers of a project.
ghost use Rattle.std.specs.Prelude.{◌≡◌, ◌≢◌, ◌&&◌, ◌++◌, not, [], Err, None, Ok, false, IfErr, IfOk, map, unwrap_or};
ghost use Rattle.inc_args.specs.Views.{seen_limits, seen_question};
ghost use Rattle.inc_inputs.specs.Ends.{are_ends};
ghost use Rattle.inc_cli.specs.Commands.{baseline_of, has_headers, rules_name};
ghost use Rattle.inc_cli.specs.Questions.{IsAnswered, IsAsked, IsKnown, Known};
ghost use Rattle.inc_inputs.specs.Reports.{out_of_memory, report_of};
ghost use Rattle.inc_cli.specs.Runs.{IsUnplaced, asked_beside, asked_built, asked_by, asked_for, asked_found, asked_listed, asked_marked, asked_named, asked_of, built_by, ends_for, listed_by, notes_for};
ghost use Rattle.inc_inputs.specs.BuildPlaces.{include_paths_of};
ghost use Rattle.inc_inputs.specs.Places.{places_of};
ghost use Rattle.inc_inputs.specs.QuestionNotes.{question_notes};
ghost use Rattle.inc_inputs.specs.ProjectLists.{paths_in};
ghost use Rattle.inc_inputs.specs.IncludePath.{include_path};
ghost use Rattle.inc_inputs.specs.Baselines.{accepted};
ghost use Rattle.inc_inputs.specs.NamedPlaces.{named_places};
ghost use Rattle.inc_inputs.specs.Steps.{Comes, next_of};
ghost use Rattle.inc_inputs.specs.Texts.{AreCosts};
ghost use Rattle.inc_inputs.specs.Views.{added_in, end_paths_in, places_in, project_in, seen_accepted, seen_ends, seen_marked, seen_texts};
ghost use Rattle.inc_cli.specs.Views.{asked_in, built_in, opened_in, output_of, seen_command, seen_end};

use crate::answering::{answer, end_of};
use crate::answers::Answer;
use crate::baselines::answer_written;
use crate::commands::Command;
use crate::runs::Setup;
use inc_answers::{Limits, Question};
use inc_args::{LimitArgs, QuestionArgs};
use inc_cost::Group;
use inc_graph::{Cost, Mark};
use inc_inputs::{
    Accepted, Added, BuildProject, EndPaths, Failure, Firsts, Inputs, Listed, ListedFiles, Marked,
    Places, Texts, accepted_places, are_ends, are_twice, asked_ends, asked_places, bytes_of_words,
    costs_of, find_question, grouped_ends, include_path, list_paths, named_ends, named_failure,
    named_places, named_project, other_paths, path_end_in, read_texts, read_texts_beside,
    read_with, strict_ends, tree_ends, with_question_notes,
};
use inc_lookup::{IncludePath, NamedPath, Project};
use inc_text::ByteSink;
use std::alloc::{AllocError, Global};
use std::mem::replace;

/// What words ask about sources and headers, and with which limits.
#[derive(Clone, Copy)]
struct Asking<'a> {
    command: Command<'a>,
    question: &'a QuestionArgs<'a>,
    limits: &'a LimitArgs<'a>,
}

/// What the texts and the words of a question hold.
#[derive(Drop)]
struct Opened<'t> {
    /// The paths of the project's files, as they are written.
    paths: Vec<&'t [u8]>,
    costs: Vec<Cost<'t>>,
    /// The names that no build defines.
    undefined: Vec<&'t [u8]>,
    /// Whether a header that is not found is refused.
    is_strict: bool,
    /// The globs of the names of those that are not.
    external: Vec<&'t [u8]>,
    /// The include path.
    path: NamedPath<'t>,
    /// Where the lists of directives begin.
    firsts: Firsts,
}

/// Reads what a question rests on, and answers it.
pub(crate) fn ask<I: Inputs, O: ByteSink>(
    setup: &Setup,
    command: Command<'_>,
    question: &QuestionArgs<'_>,
    limits: &LimitArgs<'_>,
    inputs: I,
    out: O,
) -> (Result<Answer, Failure>, O)
    requires { O.has_failed out ≡ false }
    ensures { (known : Known) → seen_end result.0 ≢ Err out_of_memory →
        IsAsked I.gives I.puts (record { opens = I.opens; left = I.Stream.left }) (seen_command command.entry)
        (asked_of I.gives setup.now.language (seen_command command.entry) (seen_question question.now) (seen_limits limits.now))
        known inputs (output_of (O.written out) (O.written result.1) (O.has_failed result.1)) (seen_end result.0) }
{
    if lacks_ends(command, question) {
        return (Err(Failure::NoEnds), out);
    }
    let asking = Asking {
        command,
        question,
        limits,
    };
    match named_failure(setup.alloc, setup.language, question) {
        Some(failure) => (Err(failure), out),
        None => ask_named(setup, asking, inputs, out),
    }
}

/// Whether a question about headers lacks words that name sources and headers in one way.
fn lacks_ends(command: Command<'_>, question: &QuestionArgs<'_>) -> bool
    ensures { result ≡ (has_headers (seen_command command.entry) && not (are_ends (seen_question question.now))) }
{
    command.has_headers() && !are_ends(question)
}

/// The same where the words name sources and headers.
fn ask_named<I: Inputs, O: ByteSink>(
    setup: &Setup,
    asking: Asking<'_>,
    inputs: I,
    out: O,
) -> (Result<Answer, Failure>, O)
    requires { O.has_failed out ≡ false }
    ensures { (known : Known) → seen_end result.0 ≢ Err out_of_memory →
        IsAsked I.gives I.puts (record { opens = I.opens; left = I.Stream.left }) (seen_command asking.entry.command)
        (asked_named I.gives setup.now.language (seen_command asking.entry.command) (seen_question asking.entry.question.now) (seen_limits asking.entry.limits.now))
        known inputs (output_of (O.written out) (O.written result.1) (O.has_failed result.1)) (seen_end result.0) }
{
    let names = [
        asking.question.files.list,
        asking.question.without,
        asking.limits.fixed,
        asking.limits.costs,
        asking.command.certificate(),
        asking.command.rules_name(),
        asking.command.baseline_name(),
    ];
    if are_twice(&names) {
        return (Err(Failure::InputTwice), out);
    }
    let mut inputs = inputs;
    match find_question(setup.alloc, setup.seed, &mut inputs, asking.question) {
        Ok(Some(found)) => ask_found(setup, asking, found, inputs, out),
        Ok(None) => {
            let texts = read_texts(setup.alloc, &mut inputs, asking.question, asking.limits);
            let added = Added::none(setup.alloc);
            ask_read(setup, asking, texts, added, inputs, out)
        }
        Err(failure) => (Err(failure), out),
    }
}

/// The same of the project of a build, with its words in place of those of the question.
fn ask_found<I: Inputs, O: ByteSink>(
    setup: &Setup,
    asking: Asking<'_>,
    found: BuildProject,
    inputs: I,
    out: O,
) -> (Result<Answer, Failure>, O)
    requires { O.has_failed out ≡ false }
    ensures { (known : Known) → seen_end result.0 ≢ Err out_of_memory →
        IsAsked I.gives I.puts (record { opens = I.opens; left = I.Stream.left }) (seen_command asking.entry.command)
        (asked_found I.gives setup.now.language (seen_command asking.entry.command) (seen_question asking.entry.question.now) (seen_limits asking.entry.limits.now) (project_in found))
        known inputs (output_of (O.written out) (O.written result.1) (O.has_failed result.1)) (seen_end result.0) }
{
    let mut inputs = inputs;
    let mut found = found;
    let alloc = setup.alloc;
    let list = replace(&mut found.list, Vec::new(alloc));
    let added = replace(&mut found.added, Added::none(alloc));
    let question = match found.question(alloc, asking.question) {
        Ok(question) => question,
        Err(failure) => return (Err(failure), out),
    };
    let asking = Asking {
        command: asking.command,
        question: &question,
        limits: asking.limits,
    };
    let texts = read_texts_beside(alloc, &mut inputs, list, &question, asking.limits);
    ask_read(setup, asking, texts, added, inputs, out)
}

/// The same of texts that were read, or not, beside what a build adds.
fn ask_read<I: Inputs, O: ByteSink>(
    setup: &Setup,
    asking: Asking<'_>,
    texts: Result<Texts, Failure>,
    added: Added,
    inputs: I,
    out: O,
) -> (Result<Answer, Failure>, O)
    requires { O.has_failed out ≡ false }
    ensures { (known : Known) → seen_end result.0 ≢ Err out_of_memory →
        IsAsked I.gives I.puts (record { opens = I.opens; left = I.Stream.left }) (seen_command asking.entry.command)
        (next_of (λ t. asked_by I.gives setup.now.language (seen_command asking.entry.command) (seen_question asking.entry.question.now) (seen_limits asking.entry.limits.now) (added_in added) t)
        (seen_texts texts))
        known inputs (output_of (O.written out) (O.written result.1) (O.has_failed result.1)) (seen_end result.0) }
{
    match texts {
        Ok(texts) => {
            let Texts {
                list,
                fixed,
                without,
                costs,
                firsts,
            } = texts;
            let marks = Marked { without, fixed };
            ask_texts(
                setup, asking, &list, &costs, firsts, marks, added, inputs, out,
            )
        }
        Err(failure) => (Err(failure), out),
    }
}

/// The same of texts: the list and the costs, and the directives that two others mark.
fn ask_texts<'t, I: Inputs, O: ByteSink>(
    setup: &Setup,
    asking: Asking<'t>,
    list: &'t [u8],
    costs: &'t [u8],
    firsts: Firsts,
    marks: Marked,
    added: Added,
    inputs: I,
    out: O,
) -> (Result<Answer, Failure>, O)
    requires { O.has_failed out ≡ false }
    ensures { (known : Known) → seen_end result.0 ≢ Err out_of_memory →
        IsAsked I.gives I.puts (record { opens = I.opens; left = I.Stream.left }) (seen_command asking.entry.command)
        (asked_by I.gives setup.now.language (seen_command asking.entry.command) (seen_question asking.entry.question.now) (seen_limits asking.entry.limits.now) (added_in added)
        (record { list = list.now; fixed = marks.fixed.items; without = marks.without.items; costs = costs.now; firsts = firsts }))
        known inputs (output_of (O.written out) (O.written result.1) (O.has_failed result.1)) (seen_end result.0) }
{
    let opened = match open_texts(setup, asking.question, asking.limits, list, costs, firsts) {
        Ok(opened) => opened,
        Err(failure) => return (Err(failure), out),
    };
    let paths = opened.paths.as_slice();
    let files = &asking.question.files;
    let project = match named_project(setup.alloc, setup.seed, files, paths, &opened.path) {
        Ok(project) => project,
        Err(failure) => return (Err(failure), out),
    };
    ask_listed(setup, asking, &opened, &project, marks, added, inputs, out)
}

/// The same of a project.
fn ask_listed<'p, I: Inputs, O: ByteSink>(
    setup: &Setup,
    asking: Asking<'p>,
    opened: &'p Opened<'p>,
    project: &'p Project<'p>,
    marks: Marked,
    added: Added,
    inputs: I,
    out: O,
) -> (Result<Answer, Failure>, O)
    requires { O.has_failed out ≡ false }
    ensures { (known : Known) → seen_end result.0 ≢ Err out_of_memory →
        IsAsked I.gives I.puts (record { opens = I.opens; left = I.Stream.left }) (seen_command asking.entry.command)
        (asked_listed I.gives setup.now.language (seen_command asking.entry.command) (seen_question asking.entry.question.now) (seen_limits asking.entry.limits.now) (added_in added)
        marks.without.items marks.fixed.items (opened_in opened.entry.now) project.entry.now)
        known inputs (output_of (O.written out) (O.written result.1) (O.has_failed result.1)) (seen_end result.0) }
{
    match built_paths(setup, asking, opened, project, &marks, added) {
        Ok(built) => ask_built(setup, asking, opened, project, marks, built, inputs, out),
        Err(failure) => (Err(failure), out),
    }
}

/// What a build adds to a question about a project.
#[derive(Drop)]
struct Built {
    /// The include paths beside the project's own.
    others: Vec<IncludePath>,
    /// For each file those with which it is read as a source.
    read_with: Vec<Vec<usize>>,
    notes: Vec<u8>,
}

/// What a build adds to a question once the project stands, with what is noted of its words and lists.
fn built_paths(
    setup: &Setup,
    asking: Asking<'_>,
    opened: &Opened<'_>,
    project: &Project<'_>,
    marks: &Marked,
    added: Added,
) -> Result<Built, Failure>
    ensures others { IfOk result (λ built. include_paths_of (added_in added).others ≡ Ok built.others.items) }
    ensures built { IfOk result (λ built. built_in built ≡ built_by project.now (seen_question asking.entry.question.now).files (opened_in opened.now) (added_in added)
        marks.now.without.items marks.now.fixed.items built.others.items) }
    ensures fault { IfErr result (λ f. report_of f ≢ out_of_memory → include_paths_of (added_in added).others ≡ Err (report_of f)) }
{
    let others = match other_paths(setup.alloc, setup.seed, &added.others) {
        Ok(others) => others,
        Err(failure) => return Err(failure),
    };
    match built_of(setup, asking, opened, project, marks, added, others) {
        Ok(built) => Ok(built),
        Err(_) => Err(Failure::NoMemory),
    }
}

/// The same with these include paths.
fn built_of(
    setup: &Setup,
    asking: Asking<'_>,
    opened: &Opened<'_>,
    project: &Project<'_>,
    marks: &Marked,
    added: Added,
    others: Vec<IncludePath>,
) -> Result<Built, AllocError>
    ensures others { IfOk result (λ built. built.others.items ≡ others.items) }
    ensures built { IfOk result (λ built. built_in built ≡ built_by project.now (seen_question asking.entry.question.now).files (opened_in opened.now) (added_in added)
        marks.now.without.items marks.now.fixed.items others.items) }
{
    let read_with = read_with(setup.alloc, project, &added.compiled)?;
    let notes = noted(
        setup,
        asking,
        opened,
        project,
        marks,
        added.is_build,
        added.notes,
    )?;
    Ok(Built {
        others,
        read_with,
        notes,
    })
}

/// Notes, and what is noted of the words and lists of a question.
fn noted(
    setup: &Setup,
    asking: Asking<'_>,
    opened: &Opened<'_>,
    project: &Project<'_>,
    marks: &Marked,
    is_build: bool,
    notes: Vec<u8>,
) -> Result<Vec<u8>, AllocError>
    ensures { let o = opened_in opened.now in IfOk result (λ all. all.items ≡ notes.items
        ++ question_notes project.now is_build (seen_question asking.entry.question.now).files o.paths o.firsts marks.now.without.items marks.now.fixed.items o.costs) }
{
    with_question_notes(
        setup.alloc,
        project,
        is_build,
        &asking.question.files,
        &opened.paths,
        opened.firsts,
        &marks.without,
        &marks.fixed,
        &opened.costs,
        notes,
    )
}

/// The same of a project with what a build adds.
fn ask_built<'p, I: Inputs, O: ByteSink>(
    setup: &Setup,
    asking: Asking<'p>,
    opened: &'p Opened<'p>,
    project: &'p Project<'p>,
    marks: Marked,
    built: Built,
    inputs: I,
    out: O,
) -> (Result<Answer, Failure>, O)
    requires { O.has_failed out ≡ false }
    ensures { (known : Known) → seen_end result.0 ≢ Err out_of_memory →
        IsAsked I.gives I.puts (record { opens = I.opens; left = I.Stream.left }) (seen_command asking.entry.command)
        (asked_built I.gives setup.now.language (seen_command asking.entry.command) (seen_question asking.entry.question.now) (seen_limits asking.entry.limits.now)
        marks.without.items marks.fixed.items (opened_in opened.entry.now) project.entry.now (built_in built))
        known inputs (output_of (O.written out) (O.written result.1) (O.has_failed result.1)) (seen_end result.0) }
{
    let mut inputs = inputs;
    match named_marks(setup, asking, opened, project, marks, &mut inputs) {
        Ok(marks) => ask_beside(setup, asking, opened, project, marks, built, inputs, out),
        Err(failure) => (Err(failure), out),
    }
}

/// The same where all marks are known but those of a baseline.
fn ask_beside<'p, I: Inputs, O: ByteSink>(
    setup: &Setup,
    asking: Asking<'p>,
    opened: &'p Opened<'p>,
    project: &'p Project<'p>,
    marks: Marked,
    built: Built,
    inputs: I,
    out: O,
) -> (Result<Answer, Failure>, O)
    requires { O.has_failed out ≡ false }
    ensures { (known : Known) → seen_end result.0 ≢ Err out_of_memory →
        IsAsked I.gives I.puts (record { opens = I.opens; left = I.Stream.left }) (seen_command asking.entry.command)
        (asked_beside I.gives setup.now.language (seen_command asking.entry.command) (seen_question asking.entry.question.now) (seen_limits asking.entry.limits.now)
        marks.without.items marks.fixed.items (opened_in opened.entry.now) project.entry.now (built_in built))
        known inputs (output_of (O.written out) (O.written result.1) (O.has_failed result.1)) (seen_end result.0) }
{
    let mut inputs = inputs;
    let Marked { without, fixed } = marks;
    let Built {
        others,
        read_with,
        notes,
    } = built;
    match accepted_marks(setup, asking, opened, project, without, notes, &mut inputs) {
        Ok(accepted) => {
            let Accepted { without, notes } = accepted;
            let marks = Marked { without, fixed };
            let built = Built {
                others,
                read_with,
                notes,
            };
            ask_marked(setup, asking, opened, project, marks, built, inputs, out)
        }
        Err(failure) => (Err(failure), out),
    }
}

/// The same where all marks are known.
fn ask_marked<'p, I: Inputs, O: ByteSink>(
    setup: &Setup,
    asking: Asking<'p>,
    opened: &'p Opened<'p>,
    project: &'p Project<'p>,
    marks: Marked,
    built: Built,
    inputs: I,
    out: O,
) -> (Result<Answer, Failure>, O)
    requires { O.has_failed out ≡ false }
    ensures { (known : Known) → seen_end result.0 ≢ Err out_of_memory →
        IsAsked I.gives I.puts (record { opens = I.opens; left = I.Stream.left }) (seen_command asking.entry.command)
        (asked_marked setup.now.language (seen_command asking.entry.command) (seen_question asking.entry.question.now) (seen_limits asking.entry.limits.now)
        marks.without.items marks.fixed.items (opened_in opened.entry.now) project.entry.now (built_in built))
        known inputs (output_of (O.written out) (O.written result.1) (O.has_failed result.1)) (seen_end result.0) }
{
    let Asking {
        command,
        question,
        limits,
    } = asking;
    let placed = match place_words(setup.alloc, command, project, question, limits, marks) {
        Ok(placed) => placed,
        Err(failure) => return (Err(failure), out),
    };
    ask_placed(
        setup, command, opened, project, &built, &placed, inputs, out,
    )
}

/// Marks, and those that the words of a question name in the files of its project.
fn named_marks<'p, I: Inputs>(
    setup: &Setup,
    asking: Asking<'p>,
    opened: &'p Opened<'p>,
    project: &'p Project<'p>,
    marks: Marked,
    inputs: &mut I,
) -> Result<Marked, Failure>
    ensures { Comes (named_places I.gives (listed_by setup.now.language (opened_in opened.entry.now) project.entry.now) (seen_question asking.entry.question.now)
        (seen_limits asking.entry.limits.now) marks.without.items marks.fixed.items) inputs.old (seen_marked result) inputs.new }
{
    let language = setup.language;
    let written = opened.paths.as_slice();
    let listed = Listed {
        project,
        written,
        language,
    };
    named_places(
        setup.alloc,
        inputs,
        listed,
        asking.question,
        asking.limits,
        marks,
    )
}

/// Directives that are taken as removed, and those of a baseline; and notes, with those of the baseline.
fn accepted_marks<'p, I: Inputs>(
    setup: &Setup,
    asking: Asking<'p>,
    opened: &'p Opened<'p>,
    project: &'p Project<'p>,
    without: Vec<Mark>,
    notes: Vec<u8>,
    inputs: &mut I,
) -> Result<Accepted, Failure>
    ensures { Comes (accepted I.gives (listed_by setup.now.language (opened_in opened.entry.now) project.entry.now) (baseline_of (seen_command asking.entry.command))
        without.items notes.items) inputs.old (seen_accepted result) inputs.new }
{
    let language = setup.language;
    let written = opened.paths.as_slice();
    let listed = Listed {
        project,
        written,
        language,
    };
    let baseline = asking.command.baseline();
    accepted_places(setup.alloc, inputs, listed, baseline, without, notes)
}

/// Answers a question whose sources, headers and directives are known.
fn ask_placed<'p, I: Inputs, O: ByteSink>(
    setup: &Setup,
    command: Command<'_>,
    opened: &'p Opened<'p>,
    project: &Project<'_>,
    built: &'p Built,
    placed: &'p Placed<'p>,
    inputs: I,
    out: O,
) -> (Result<Answer, Failure>, O)
    requires { O.has_failed out ≡ false }
    ensures { (known : Known) → seen_end result.0 ≢ Err out_of_memory →
        let command = seen_command command.entry in
        IsAnswered I.gives I.puts (IsKnown known I.gives (record { opens = I.opens; left = I.Stream.left }) command) command
        (asked_for setup.now.language command (opened_in opened.entry.now) project.now (built_in built.entry.now) (end_paths_in placed.entry.now.ends) (places_in placed.entry.now.places)
        (built.entry.now.notes.items ++ placed.entry.now.ends.notes.items))
        inputs (output_of (O.written out) (O.written result.1) (O.has_failed result.1)) (seen_end result.0) }
{
    let Ok(notes) = joined(setup.alloc, &built.notes, &placed.ends.notes) else {
        return (Err(Failure::NoMemory), out);
    };
    let asked = Question {
        from: &placed.ends.from,
        to: command.headers(&placed.ends.to),
        without: &placed.places.without,
        language: setup.language,
        undefined: &opened.undefined,
        others: &built.others,
        read_with: &built.read_with,
        is_strict: opened.is_strict,
        external: &opened.external,
    };
    let limits = Limits {
        fixed: &placed.places.fixed,
        kept: &placed.places.kept,
        costs: &opened.costs,
    };
    answer_beside(
        setup,
        command,
        project,
        &asked,
        &limits,
        &opened.paths,
        &placed.ends.groups,
        notes,
        inputs,
        out,
    )
}

/// Answers a question of a project whose files have these paths, and of groups of headers, beside these notes.
fn answer_beside<I: Inputs, O: ByteSink>(
    setup: &Setup,
    command: Command<'_>,
    project: &Project<'_>,
    question: &Question<'_>,
    limits: &Limits<'_>,
    paths: &[&[u8]],
    groups: &[Group<'_>],
    notes: Vec<u8>,
    inputs: I,
    out: O,
) -> (Result<Answer, Failure>, O)
    requires { O.has_failed out ≡ false }
    ensures { (known : Known) → seen_end result.0 ≢ Err out_of_memory →
        let command = seen_command command.entry in
        IsAnswered I.gives I.puts (IsKnown known I.gives (record { opens = I.opens; left = I.Stream.left }) command) command
        (asked_in (map (λ p. p.now) paths.now) project.now question.now limits.now groups.now notes.items)
        inputs (output_of (O.written out) (O.written result.1) (O.has_failed result.1)) (seen_end result.0) }
{
    if let Command::WriteBaseline(format, list, name) = command {
        return answer_written(
            setup, format, list, name, project, question, paths, notes, inputs, out,
        );
    }
    let files = ListedFiles { inputs, paths };
    let (ended, out) = answer(
        setup.alloc,
        command,
        project,
        question,
        limits,
        groups,
        files,
        out,
    );
    let certificate = command.certificate().unwrap_or("");
    let told = end_of(setup.alloc, ended, notes, paths, certificate);
    (told, out)
}

/// Notes with more of them behind.
fn joined(alloc: Global, notes: &[u8], more: &[u8]) -> Result<Vec<u8>, AllocError>
    ensures { IfOk result (λ all. all.items ≡ notes.now ++ more.now) }
{
    let mut all = Vec::from_slice(alloc, notes)?;
    all.extend_from_slice(more)?;
    Ok(all)
}

/// Between which files of a project a question is asked, and which directives limit it.
#[derive(Drop)]
struct Placed<'p> {
    ends: EndPaths<'p>,
    places: Places,
}

/// Both by the words of a question, and by marks that are known.
fn place_words<'p>(
    alloc: Global,
    command: Command<'_>,
    project: &'p Project<'_>,
    question: &QuestionArgs<'p>,
    limits: &LimitArgs<'p>,
    marks: Marked,
) -> Result<Placed<'p>, Failure>
    ensures ends { IfOk result (λ p. ends_for (seen_command command.entry) project.now (seen_question question.now) ≡ Ok (end_paths_in p.ends)) }
    ensures places { IfOk result (λ p. places_of project.now (seen_question question.now) (seen_limits limits.now) marks.without.items marks.fixed.items
        ≡ Ok (places_in p.places)) }
    ensures notes { IfOk result (λ p. p.ends.notes.items ≡ notes_for (seen_command command.entry) project.now (seen_question question.now)) }
    ensures fault { IfErr result (λ f. report_of f ≢ out_of_memory → IsUnplaced (seen_command command.entry) project.now (seen_question question.now) (seen_limits limits.now)
        marks.without.items marks.fixed.items (report_of f)) }
{
    let ends = match ends_for(alloc, command, project, question) {
        Ok(ends) => ends,
        Err(failure) => return Err(failure),
    };
    let Marked { without, fixed } = marks;
    match asked_places(alloc, project, question, limits, without, fixed) {
        Ok(places) => Ok(Placed { ends, places }),
        Err(failure) => Err(failure),
    }
}

/// Between which files a command is asked.
fn ends_for<'p>(
    alloc: Global,
    command: Command<'_>,
    project: &'p Project<'_>,
    question: &QuestionArgs<'p>,
) -> Result<EndPaths<'p>, Failure>
    ensures ends { seen_ends result ≢ Err out_of_memory →
        seen_ends result ≡ ends_for (seen_command command.entry) project.now (seen_question question.now) }
    ensures notes { IfOk result (λ ends. ends.notes.items ≡ notes_for (seen_command command.entry) project.now (seen_question question.now)) }
{
    match command {
        Command::Rules(_, list, _) => {
            let is_strict = question.is_strict;
            strict_ends(alloc, project, is_strict, list.name, list.rules)
        }
        Command::WriteBaseline(_, list, _) => {
            let is_strict = question.is_strict;
            named_ends(alloc, project, is_strict, list.name, list.rules)
        }
        Command::Cost(..) => grouped_ends(alloc, project, question),
        Command::Tree(_) | Command::Folded => tree_ends(alloc, project, question),
        _ => asked_ends(alloc, project, question),
    }
}

/// What the texts of a question hold.
fn open_texts<'t>(
    setup: &Setup,
    question: &'t QuestionArgs<'t>,
    limits: &LimitArgs<'_>,
    list: &'t [u8],
    costs: &'t [u8],
    firsts: Firsts,
) -> Result<Opened<'t>, Failure>
    ensures costs { IfOk result (λ opened. AreCosts (unwrap_or (seen_limits limits.now).costs []) costs.now (Ok opened.costs.items)) }
    ensures paths { IfOk result (λ opened. map (λ p. p.now) opened.paths.items
        ≡ paths_in (seen_question question.now).files list.now) }
    ensures undefined { IfOk result (λ opened. map (λ n. n.now) opened.undefined.items ≡ (seen_question question.now).undefined) }
    ensures strict { IfOk result (λ opened. opened.is_strict ≡ (seen_question question.now).is_strict) }
    ensures external { IfOk result (λ opened. map (λ n. n.now) opened.external.items ≡ (seen_question question.now).external) }
    ensures path { IfOk result (λ opened. opened.path ≡ include_path (seen_question question.now).files []) }
    ensures firsts { IfOk result (λ opened. opened.firsts ≡ firsts) }
    ensures fault { IfErr result (λ failure.
        AreCosts (unwrap_or (seen_limits limits.now).costs []) costs.now (Err (report_of failure))) }
{
    let alloc = setup.alloc;
    let costs = costs_of(alloc, costs, limits.costs.unwrap_or(""))?;
    let paths = list_paths(alloc, list, path_end_in(&question.files))?;
    let undefined = bytes_of_words(alloc, &question.undefined)?;
    let external = bytes_of_words(alloc, &question.external)?;
    let path = include_path(alloc, setup.seed, &question.files, &[])?;
    Ok(Opened {
        paths,
        costs,
        undefined,
        is_strict: question.is_strict,
        external,
        path,
        firsts,
    })
}
