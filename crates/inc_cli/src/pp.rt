//! The preprocessing of sources of a project.
ghost use Rattle.std.specs.Prelude.{◌≡◌, ◌≢◌, ◌++◌, ℕ, Err, List, false, map, option_map, IfOk};
ghost use Rattle.inc_args.specs.Views.{seen_pp};
ghost use Rattle.inc_pp.specs.Settings.{bounded_settings, found_in_settings, limited_settings, marked_settings, usual_settings};
ghost use Rattle.inc_cli.specs.Outputs.{IsRun};
ghost use Rattle.inc_cli.specs.Preprocessings.{IsPreprocessed, PrintsEach, all_words, bound_of, is_no_bound, missing_of, pp_apart, pp_asked, pp_bounded, pp_found, pp_limited, pp_named, pp_of, pp_without, searched, with_texts, writes_beside, writes_texts};
ghost use Rattle.inc_inputs.specs.Reports.{out_of_memory};
ghost use Rattle.inc_inputs.specs.BuildProjects.{with_macros};
ghost use Rattle.inc_inputs.specs.Steps.{Comes, next_of};
ghost use Rattle.inc_cli.specs.Views.{answer_in, output_of, pp_asked_in, seen_end};
ghost use Rattle.inc_inputs.specs.Views.{macro_of, pp_texts_in, project_in, seen, seen_pp_texts};

use crate::answering::end_of;
use crate::answers::Answer;
use crate::runs::Setup;
use inc_answers::{End, RunFault};
use inc_args::PpArgs;
use inc_check::number_in;
use inc_inputs::{
    BuildProject, Failure, Inputs, ListedFiles, MacroWord, PpTexts, are_no_files, are_one,
    are_twice, bytes_of, exclude_failure, find_preprocessing, include_path, list_paths,
    named_project, path_end_in, read_pp_texts, read_pp_texts_beside, with_macros, with_questions,
    write_if,
};
use inc_lookup::{NamedDir, NamedPath, Project};
use inc_pp::{Missing, Settings};
use inc_report::{PpQuestion, run_pp};
use inc_text::ByteSink;
use std::alloc::{AllocError, Global};
use std::mem::{forget, replace};

/// Reads what a preprocessing rests on, and prints what it gives of each source.
pub(crate) fn preprocess<I: Inputs, O: ByteSink>(
    setup: &Setup,
    args: &PpArgs<'_>,
    inputs: I,
    out: O,
) -> (Result<Answer, Failure>, O)
    requires { O.has_failed out ≡ false }
    ensures { seen_end result.0 ≢ Err out_of_memory →
        IsRun (pp_of I.gives setup.now.language (seen_pp args.now)) (IsPreprocessed I.gives I.puts (seen_pp args.now)) inputs
        (output_of (O.written out) (O.written result.1) (O.has_failed result.1)) (seen_end result.0) }
{
    if is_no_bound(args.most_read) {
        return (Err(Failure::NoMostRead), out);
    }
    preprocess_limited(setup, args, inputs, out)
}

/// The same where the word for how many bytes are read is a number.
fn preprocess_limited<I: Inputs, O: ByteSink>(
    setup: &Setup,
    args: &PpArgs<'_>,
    inputs: I,
    out: O,
) -> (Result<Answer, Failure>, O)
    requires { O.has_failed out ≡ false }
    ensures { seen_end result.0 ≢ Err out_of_memory →
        IsRun (pp_limited I.gives setup.now.language (seen_pp args.now)) (IsPreprocessed I.gives I.puts (seen_pp args.now)) inputs
        (output_of (O.written out) (O.written result.1) (O.has_failed result.1)) (seen_end result.0) }
{
    if is_no_bound(args.most_output) {
        return (Err(Failure::NoMostOutput), out);
    }
    preprocess_bounded(setup, args, inputs, out)
}

/// The same where that for how many bytes are printed is one, too.
fn preprocess_bounded<I: Inputs, O: ByteSink>(
    setup: &Setup,
    args: &PpArgs<'_>,
    inputs: I,
    out: O,
) -> (Result<Answer, Failure>, O)
    requires { O.has_failed out ≡ false }
    ensures { seen_end result.0 ≢ Err out_of_memory →
        IsRun (pp_bounded I.gives setup.now.language (seen_pp args.now)) (IsPreprocessed I.gives I.puts (seen_pp args.now)) inputs
        (output_of (O.written out) (O.written result.1) (O.has_failed result.1)) (seen_end result.0) }
{
    if are_no_files(args.deps, args.status) {
        return (Err(Failure::NoFile), out);
    }
    preprocess_apart(setup, args, inputs, out)
}

/// The same where each of the words for files to write names one.
fn preprocess_apart<I: Inputs, O: ByteSink>(
    setup: &Setup,
    args: &PpArgs<'_>,
    inputs: I,
    out: O,
) -> (Result<Answer, Failure>, O)
    requires { O.has_failed out ≡ false }
    ensures { seen_end result.0 ≢ Err out_of_memory →
        IsRun (pp_apart I.gives setup.now.language (seen_pp args.now)) (IsPreprocessed I.gives I.puts (seen_pp args.now)) inputs
        (output_of (O.written out) (O.written result.1) (O.has_failed result.1)) (seen_end result.0) }
{
    if are_one(args.deps, args.status) {
        return (Err(Failure::OneFile), out);
    }
    preprocess_without(setup, args, inputs, out)
}

/// The same where what is to be written goes to files of its own.
fn preprocess_without<I: Inputs, O: ByteSink>(
    setup: &Setup,
    args: &PpArgs<'_>,
    inputs: I,
    out: O,
) -> (Result<Answer, Failure>, O)
    requires { O.has_failed out ≡ false }
    ensures { seen_end result.0 ≢ Err out_of_memory →
        IsRun (pp_without I.gives setup.now.language (seen_pp args.now)) (IsPreprocessed I.gives I.puts (seen_pp args.now)) inputs
        (output_of (O.written out) (O.written result.1) (O.has_failed result.1)) (seen_end result.0) }
{
    match exclude_failure(setup.alloc, &args.files) {
        Some(failure) => (Err(failure), out),
        None => preprocess_named(setup, args, inputs, out),
    }
}

/// The same where the words for files that are left out are globs.
fn preprocess_named<I: Inputs, O: ByteSink>(
    setup: &Setup,
    args: &PpArgs<'_>,
    inputs: I,
    out: O,
) -> (Result<Answer, Failure>, O)
    requires { O.has_failed out ≡ false }
    ensures { seen_end result.0 ≢ Err out_of_memory →
        IsRun (pp_named I.gives setup.now.language (seen_pp args.now)) (IsPreprocessed I.gives I.puts (seen_pp args.now)) inputs
        (output_of (O.written out) (O.written result.1) (O.has_failed result.1)) (seen_end result.0) }
{
    if are_twice(&[args.files.list, args.without, args.compiler, args.defines]) {
        return (Err(Failure::InputTwice), out);
    }
    let mut inputs = inputs;
    match find_preprocessing(setup.alloc, setup.seed, &mut inputs, args) {
        Ok(Some(found)) => preprocess_found(setup, args, found, inputs, out),
        Ok(None) => {
            let texts = read_pp_texts(setup.alloc, &mut inputs, setup.language, args);
            let notes = Vec::new(setup.alloc);
            preprocess_read(setup, args, &[], texts, notes, inputs, out)
        }
        Err(failure) => (Err(failure), out),
    }
}

/// The same of the project of a build, with its words in place of those of the command line.
fn preprocess_found<I: Inputs, O: ByteSink>(
    setup: &Setup,
    args: &PpArgs<'_>,
    found: BuildProject,
    inputs: I,
    out: O,
) -> (Result<Answer, Failure>, O)
    requires { O.has_failed out ≡ false }
    ensures { seen_end result.0 ≢ Err out_of_memory →
        IsRun (pp_found I.gives setup.now.language (seen_pp args.now) (project_in found)) (IsPreprocessed I.gives I.puts (seen_pp args.now)) inputs
        (output_of (O.written out) (O.written result.1) (O.has_failed result.1)) (seen_end result.0) }
{
    let mut found = found;
    let list = replace(&mut found.list, Vec::new(setup.alloc));
    let notes = replace(&mut found.added.notes, Vec::new(setup.alloc));
    preprocess_build(setup, args, &found, list, notes, inputs, out)
}

/// The same of such a project without its list and its notes, which stand beside it.
fn preprocess_build<'f, I: Inputs, O: ByteSink>(
    setup: &Setup,
    args: &'f PpArgs<'f>,
    found: &'f BuildProject,
    list: Vec<u8>,
    notes: Vec<u8>,
    inputs: I,
    out: O,
) -> (Result<Answer, Failure>, O)
    requires { O.has_failed out ≡ false }
    ensures { seen_end result.0 ≢ Err out_of_memory →
        IsRun (pp_found I.gives setup.now.language (seen_pp args.now) (with_texts list.items notes.items (project_in found.now)))
        (IsPreprocessed I.gives I.puts (seen_pp args.now)) inputs
        (output_of (O.written out) (O.written result.1) (O.has_failed result.1)) (seen_end result.0) }
{
    let mut inputs = inputs;
    let alloc = setup.alloc;
    let args = match found.preprocessing(alloc, args) {
        Ok(args) => args,
        Err(failure) => return (Err(failure), out),
    };
    let texts = read_pp_texts_beside(alloc, &mut inputs, setup.language, list, &args);
    preprocess_read(setup, &args, &found.macros, texts, notes, inputs, out)
}

/// The same of texts that were read, or not, with the words for macros of an entry, beside these notes.
fn preprocess_read<I: Inputs, O: ByteSink>(
    setup: &Setup,
    args: &PpArgs<'_>,
    macros: &[MacroWord],
    texts: Result<PpTexts, Failure>,
    notes: Vec<u8>,
    inputs: I,
    out: O,
) -> (Result<Answer, Failure>, O)
    requires { O.has_failed out ≡ false }
    ensures { seen_end result.0 ≢ Err out_of_memory →
        IsRun (next_of (λ t. pp_asked setup.now.language (seen_pp args.now) (map macro_of macros.now) notes.items t) (seen_pp_texts texts)) (IsPreprocessed I.gives I.puts (seen_pp args.now)) inputs
        (output_of (O.written out) (O.written result.1) (O.has_failed result.1)) (seen_end result.0) }
{
    match texts {
        Ok(texts) => {
            let (ended, out) = preprocess_texts(setup, args, macros, &texts, notes, inputs, out);
            // The process is about to end: the system takes hundreds of words back at once.
            forget(texts);
            (ended, out)
        }
        Err(failure) => (Err(failure), out),
    }
}

/// The same once the texts are read.
fn preprocess_texts<I: Inputs, O: ByteSink>(
    setup: &Setup,
    args: &PpArgs<'_>,
    macros: &[MacroWord],
    texts: &PpTexts,
    notes: Vec<u8>,
    inputs: I,
    out: O,
) -> (Result<Answer, Failure>, O)
    requires { O.has_failed out ≡ false }
    ensures { seen_end result.0 ≢ Err out_of_memory →
        IsRun (pp_asked setup.now.language (seen_pp args.now) (map macro_of macros.now) notes.items (pp_texts_in texts.now)) (IsPreprocessed I.gives I.puts (seen_pp args.now)) inputs
        (output_of (O.written out) (O.written result.1) (O.has_failed result.1)) (seen_end result.0) }
{
    let alloc = setup.alloc;
    let Ok(paths) = list_paths(alloc, &texts.list, path_end_in(&args.files)) else {
        return (Err(Failure::NoMemory), out);
    };
    let Ok(words) = all_words(setup, args, texts, macros) else {
        return (Err(Failure::NoMemory), out);
    };
    let Ok(sources) = bytes_of(alloc, &args.sources) else {
        return (Err(Failure::NoMemory), out);
    };
    let Ok(path) = searched(setup, args, texts) else {
        return (Err(Failure::NoMemory), out);
    };
    let project = match named_project(alloc, setup.seed, &args.files, &paths, &path) {
        Ok(project) => project,
        Err(failure) => return (Err(failure), out),
    };
    let settings = settings_of(setup, args, &path.dirs);
    let question = PpQuestion {
        sources: &sources,
        words: &words,
        settings: &settings,
        without: &texts.without,
        has_rules: args.deps.is_some(),
        has_endings: args.status.is_some(),
    };
    let mut files = ListedFiles {
        inputs,
        paths: &paths,
    };
    let (ended, out) = print_each(alloc, &project, &mut files, &question, out);
    // The process is about to end: the system takes a table of paths back at once.
    forget(project);
    let told = end_of(alloc, ended, notes, &paths, "");
    (write_beside(alloc, &mut files.inputs, args, told), out)
}

/// Writes what stands beside an answer to the files that words name.
fn write_beside<I: Inputs>(
    alloc: Global,
    inputs: &mut I,
    args: &PpArgs<'_>,
    told: Result<Answer, Failure>,
) -> Result<Answer, Failure>
    ensures { Comes (writes_beside I.puts (seen_pp args.now) (seen_end told)) inputs.old (seen_end result) inputs.new }
{
    match told {
        Ok(answer) => match write_texts(alloc, inputs, args, &answer) {
            Ok(()) => Ok(answer),
            Err(failure) => Err(failure),
        },
        Err(failure) => Err(failure),
    }
}

/// Writes the texts that stand beside an answer, each to the file that a word names.
fn write_texts<I: Inputs>(
    alloc: Global,
    inputs: &mut I,
    args: &PpArgs<'_>,
    answer: &Answer,
) -> Result<(), Failure>
    ensures { Comes (writes_texts I.puts (seen_pp args.now) (answer_in answer.now)) inputs.old (seen (λ u. u) result) inputs.new }
{
    write_if(alloc, inputs, args.deps, answer.end.rules.text())?;
    write_if(alloc, inputs, args.status, answer.end.endings.text())
}

/// Prints what the preprocessing of each source gives.
fn print_each<I: Inputs, O: ByteSink>(
    alloc: Global,
    project: &Project<'_>,
    files: &mut ListedFiles<'_, I>,
    question: &PpQuestion<'_>,
    out: O,
) -> (Result<End, RunFault>, O)
    requires { O.has_failed out ≡ false }
    ensures { (notes : List ℕ) → PrintsEach I.gives (pp_asked_in (map (λ p. p.now) files.old.paths.now) project.now question.now notes) files.old.inputs files.new.inputs
        (output_of (O.written out) (O.written result.1) (O.has_failed result.1)) result.0 }
{
    let mut printed = None;
    let ended = run_pp(alloc, project, files, question, &mut printed, out);
    // The process is about to end: the system takes thousands of macros back at once.
    forget(printed);
    ended
}

/// What an include directive does whose header is not found.
fn missing_of(is_empty: bool) -> Missing
    ensures { result ≡ missing_of is_empty }
{
    if is_empty {
        Missing::Empty
    } else {
        Missing::Stop
    }
}

/// The number that a word is that bounds a preprocessing, if it is given and is one.
fn bound_of(word: Option<&str>) -> Option<u64>
    ensures { result ≡ bound_of (option_map (λ w. w.now) word.entry) }
{
    match number_in(word?.as_bytes()) {
        Some(most) => Some(u64::from(most)),
        None => None,
    }
}

/// Whether such a word is given that is no number.
fn is_no_bound(word: Option<&str>) -> bool
    ensures { result ≡ is_no_bound (option_map (λ w. w.now) word.entry) }
{
    word.is_some() && bound_of(word).is_none()
}

/// How sources are preprocessed, by the words, with this include path.
fn settings_of<'n>(setup: &Setup, args: &PpArgs<'_>, dirs: &'n [NamedDir<'n>]) -> Settings<'n>
    ensures { let p = seen_pp args.now in result ≡ found_in_settings dirs.now
        (bounded_settings (bound_of p.most_output) (limited_settings (bound_of p.most_read)
        (marked_settings p.has_markers (usual_settings setup.now.language (missing_of p.is_missing_empty))))) }
{
    let usual = Settings::usual(setup.language, missing_of(args.is_missing_empty));
    let marked = usual.with_markers(args.has_markers);
    let limited = marked.with_most_read(bound_of(args.most_read));
    let bounded = limited.with_most_output(bound_of(args.most_output));
    bounded.with_dirs(dirs)
}

/// The include path by the words and by what describes a compiler.
fn searched<'a>(
    setup: &Setup,
    args: &PpArgs<'a>,
    texts: &'a PpTexts,
) -> Result<NamedPath<'a>, AllocError>
    ensures { IfOk result (λ path. path ≡ searched (seen_pp args.now) (pp_texts_in texts.now)) }
{
    let compiler = texts.compiler.dirs(setup.alloc)?;
    include_path(setup.alloc, setup.seed, &args.files, &compiler)
}

/// The words that define macros: those of the compiler, those of the list of definitions, those of
/// the entries of a build, those of the command line, and then those of the questions of the language that none of these define.
fn all_words<'a>(
    setup: &Setup,
    args: &PpArgs<'a>,
    texts: &'a PpTexts,
    macros: &'a [MacroWord],
) -> Result<Vec<&'a [u8]>, AllocError>
    ensures { IfOk result (λ all. map (λ w. w.now) all.items
        ≡ all_words setup.now.language (seen_pp args.now) (map macro_of macros.now) (pp_texts_in texts.now)) }
{
    let words = given_words(setup.alloc, setup.seed, texts, macros, &args.words)?;
    with_questions(setup.language, words, macros)
}

/// The same without the questions.
fn given_words<'a>(
    alloc: Global,
    seed: u64,
    texts: &'a PpTexts,
    macros: &'a [MacroWord],
    words: &[&'a str],
) -> Result<Vec<&'a [u8]>, AllocError>
    ensures { let t = pp_texts_in texts.now in IfOk result (λ all. map (λ w. w.now) all.items
        ≡ with_macros (t.compiler.words ++ t.defines) (map macro_of macros.now) ++ map (λ w. w.now) words.now) }
{
    let mut all = slices_of(alloc, &texts.compiler.words)?;
    all.extend_from_slice(&slices_of(alloc, &texts.defines)?)?;
    let mut all = with_macros(alloc, seed, all, macros)?;
    all.extend_from_slice(&bytes_of(alloc, words)?)?;
    Ok(all)
}

/// Words as slices.
fn slices_of(alloc: Global, words: &[Vec<u8>]) -> Result<Vec<&[u8]>, AllocError>
    ensures { IfOk result (λ slices. map (λ s. s.now) slices.items ≡ map (λ w. w.items) words.now) }
{
    let mut slices = Vec::with_capacity(alloc, words.len())?;
    for word in words {
        slices.push(word.as_slice())?;
    }
    Ok(slices)
}
