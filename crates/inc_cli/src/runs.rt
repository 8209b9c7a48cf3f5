//! A run of the program.
ghost use Rattle.std.specs.Prelude.{◌≡◌, ◌≢◌, Err, false, map, option_map, unwrap_or};
ghost use Rattle.std.specs.String.{string_bytes};
ghost use Rattle.inc_args.specs.CompilerWords.{as_options};
ghost use Rattle.inc_args.specs.Meaning.{meaning};
ghost use Rattle.inc_args.specs.Views.{seen_arguments, seen_format, seen_forms, seen_languages, seen_question, seen_request};
ghost use Rattle.inc_cli.specs.Languages.{language_of};
ghost use Rattle.inc_cli.specs.Processes.{cost_by, cost_of, default_format, folded_of, form_of, format_named, formatted, in_format, is_folded, most_of, of_files, rule_form_of, rules_format, scan_form, top_by, tree_by, tree_of, who_of, IsAnswer, IsAnswerFrom, IsAnswerTo, IsPromise, IsPromiseFrom, IsPromiseOf, IsRefusedRun, IsTold, IsToldRun};
ghost use Rattle.inc_inputs.specs.Reports.{out_of_memory};
ghost use Rattle.inc_cli.specs.Views.{output_of, seen_command, seen_end};
ghost use Rattle.inc_inputs.specs.Views.{seen};

use crate::answers::Answer;
use crate::commands::{Command, RuleForm};
use crate::notes::note;
use crate::pp::preprocess;
use crate::questions::ask;
use crate::reports::report;
use crate::rules::ask_rules;
use crate::scan::list_directives;
use clap::Error;
use inc_answers::{Asked, ScanForm};
use inc_args::{
    ArgsFault, Arguments, FormArgs, FormatArgs, LanguageArgs, LimitArgs, QuestionArgs, Request,
    as_options, read_args,
};
use inc_check::number_in;
use inc_inputs::{Failure, Hindrance, Inputs, are_ends};
use inc_report::{Format, NamedForm};
use inc_text::{ByteSink, Language};
use std::alloc::Global;
use std::cell::Cell;

/// What all commands are run with.
#[derive(Clone, Copy)]
pub(crate) struct Setup {
    pub(crate) alloc: Global,
    /// Tables are hashed with it.
    pub(crate) seed: u64,
    /// The language of the files.
    pub(crate) language: Language,
    /// Whether the answer is printed on a terminal.
    pub(crate) is_terminal: bool,
}

/// How a run ends.
#[derive(Drop)]
pub enum Ended {
    /// With this exit status.
    Status(u8),
    /// With a text of `clap`, which is not written yet: the words ask for help or the version, or make no sense.
    Usage(Error),
}

/// Runs the command that the words ask for, the name of the program first; some may be spelled as compilers have them. Its answer goes to
/// `out`, and the report of a failure, or the notes beside an answer, to `messages`. Tables are hashed with the seed, so whoever writes the
/// files must not know it. On a terminal an answer is printed in another format, where none is named. Where a file is
/// not read or not written, `hindrance` holds what stood in its way.
pub fn run<I: Inputs, O: ByteSink, E: ByteSink>(
    alloc: Global,
    seed: u64,
    words: &[String],
    is_terminal: bool,
    inputs: I,
    hindrance: &Cell<Hindrance>,
    out: O,
    messages: E,
) -> (Ended, O, E)
    requires out { O.has_failed out ≡ false }
    requires messages { E.has_failed messages ≡ false }
    ensures refused { IsRefusedRun (as_options (map string_bytes words.now))
        (output_of (O.written out) (O.written result.1) (O.has_failed result.1))
        (output_of (E.written messages) (E.written result.2) (E.has_failed result.2)) result.0 }
    ensures answered { let m = meaning (as_options (map string_bytes words.now)) in
        IsToldRun m.is_quiet (IsAnswer I.begins I.gives I.puts (record { opens = I.opens; left = I.Stream.left }) is_terminal m inputs
        (output_of (O.written out) (O.written result.1) (O.has_failed result.1)))
        (output_of (E.written messages) (E.written result.2) (E.has_failed result.2)) result.0 }
    // What a cut promises: no preprocessing of the source that the words name reads their header, and nothing cheaper separates.
    ensures promised { let m = meaning (as_options (map string_bytes words.now)) in
        IsToldRun m.is_quiet (IsPromise I.begins I.gives I.puts (record { opens = I.opens; left = I.Stream.left }) is_terminal m inputs
        (output_of (O.written out) (O.written result.1) (O.has_failed result.1)))
        (output_of (E.written messages) (E.written result.2) (E.has_failed result.2)) result.0 }
{
    match as_options(alloc, words) {
        Ok(options) => {
            let words = taken(&options, words);
            run_options(
                alloc,
                seed,
                words,
                is_terminal,
                inputs,
                hindrance,
                out,
                messages,
            )
        }
        Err(_) => {
            let (status, messages) = tell(
                &Err(Failure::NoMemory),
                false,
                Hindrance::Other,
                messages,
            );
            (Ended::Status(status), out, messages)
        }
    }
}

/// Options that are spelled as the command line has them; the words where there are none but these.
fn taken<'w>(options: &'w Option<Vec<String>>, words: &'w [String]) -> &'w [String]
    ensures { map string_bytes result.now
        ≡ unwrap_or (option_map (λ o. map string_bytes o.items) options.now) (map string_bytes words.now) }
{
    match options {
        Some(options) => options,
        None => words,
    }
}

/// The same for words whose options are spelled as the command line has them.
fn run_options<I: Inputs, O: ByteSink, E: ByteSink>(
    alloc: Global,
    seed: u64,
    words: &[String],
    is_terminal: bool,
    inputs: I,
    hindrance: &Cell<Hindrance>,
    out: O,
    messages: E,
) -> (Ended, O, E)
    requires out { O.has_failed out ≡ false }
    requires messages { E.has_failed messages ≡ false }
    ensures refused { IsRefusedRun (map string_bytes words.now)
        (output_of (O.written out) (O.written result.1) (O.has_failed result.1))
        (output_of (E.written messages) (E.written result.2) (E.has_failed result.2)) result.0 }
    ensures answered { let m = meaning (map string_bytes words.now) in
        IsToldRun m.is_quiet (IsAnswer I.begins I.gives I.puts (record { opens = I.opens; left = I.Stream.left }) is_terminal m inputs
        (output_of (O.written out) (O.written result.1) (O.has_failed result.1)))
        (output_of (E.written messages) (E.written result.2) (E.has_failed result.2)) result.0 }
    ensures promised { let m = meaning (map string_bytes words.now) in
        IsToldRun m.is_quiet (IsPromise I.begins I.gives I.puts (record { opens = I.opens; left = I.Stream.left }) is_terminal m inputs
        (output_of (O.written out) (O.written result.1) (O.has_failed result.1)))
        (output_of (E.written messages) (E.written result.2) (E.has_failed result.2)) result.0 }
{
    match read_args(alloc, words) {
        Ok(args) => {
            let (ended, out) = answer(alloc, seed, &args, is_terminal, inputs, out);
            let (status, messages) = tell(&ended, args.is_quiet, hindrance.get(), messages);
            (Ended::Status(status), out, messages)
        }
        Err(ArgsFault::Usage(error)) => (Ended::Usage(error), out, messages),
        Err(ArgsFault::NoMemory) => {
            let (status, messages) = tell(
                &Err(Failure::NoMemory),
                false,
                Hindrance::Other,
                messages,
            );
            (Ended::Status(status), out, messages)
        }
    }
}

/// Runs a command.
fn answer<I: Inputs, O: ByteSink>(
    alloc: Global,
    seed: u64,
    args: &Arguments<'_>,
    is_terminal: bool,
    inputs: I,
    out: O,
) -> (Result<Answer, Failure>, O)
    requires { O.has_failed out ≡ false }
    ensures answered { seen_end result.0 ≢ Err out_of_memory →
        IsAnswer I.begins I.gives I.puts (record { opens = I.opens; left = I.Stream.left }) is_terminal (seen_arguments args.now) inputs
        (output_of (O.written out) (O.written result.1) (O.has_failed result.1)) (seen_end result.0) }
    ensures promised { seen_end result.0 ≢ Err out_of_memory →
        IsPromise I.begins I.gives I.puts (record { opens = I.opens; left = I.Stream.left }) is_terminal (seen_arguments args.now) inputs
        (output_of (O.written out) (O.written result.1) (O.has_failed result.1)) (seen_end result.0) }
{
    let mut inputs = inputs;
    inputs.begin(args.follows, args.is_quiet);
    answer_from(alloc, seed, args, is_terminal, inputs, out)
}

/// The same once it is set whether links are followed.
fn answer_from<I: Inputs, O: ByteSink>(
    alloc: Global,
    seed: u64,
    args: &Arguments<'_>,
    is_terminal: bool,
    inputs: I,
    out: O,
) -> (Result<Answer, Failure>, O)
    requires { O.has_failed out ≡ false }
    ensures answered { seen_end result.0 ≢ Err out_of_memory →
        IsAnswerFrom I.gives I.puts (record { opens = I.opens; left = I.Stream.left }) is_terminal (seen_arguments args.now) inputs
        (output_of (O.written out) (O.written result.1) (O.has_failed result.1)) (seen_end result.0) }
    ensures promised { seen_end result.0 ≢ Err out_of_memory →
        IsPromiseFrom I.gives I.puts (record { opens = I.opens; left = I.Stream.left }) is_terminal (seen_arguments args.now) inputs
        (output_of (O.written out) (O.written result.1) (O.has_failed result.1)) (seen_end result.0) }
{
    match language_of(args.languages) {
        Ok(language) => {
            let setup = Setup {
                alloc,
                seed,
                language,
                is_terminal,
            };
            answer_in(&setup, &args.request, inputs, out)
        }
        Err(failure) => (Err(failure), out),
    }
}

/// Runs a command over files in a language.
fn answer_in<I: Inputs, O: ByteSink>(
    setup: &Setup,
    request: &Request<'_>,
    inputs: I,
    out: O,
) -> (Result<Answer, Failure>, O)
    requires { O.has_failed out ≡ false }
    ensures answered { seen_end result.0 ≢ Err out_of_memory →
        IsAnswerTo I.gives I.puts (record { opens = I.opens; left = I.Stream.left }) setup.now.language setup.now.is_terminal (seen_request request.now) inputs
        (output_of (O.written out) (O.written result.1) (O.has_failed result.1)) (seen_end result.0) }
    ensures promised { seen_end result.0 ≢ Err out_of_memory →
        IsPromiseOf I.gives I.puts (record { opens = I.opens; left = I.Stream.left }) setup.now.language setup.now.is_terminal (seen_request request.now) inputs
        (output_of (O.written out) (O.written result.1) (O.has_failed result.1)) (seen_end result.0) }
{
    let no_limits = LimitArgs {
        fixed: None,
        keep: Vec::new(setup.alloc),
        only: Vec::new(setup.alloc),
        costs: None,
    };
    match request {
        Request::Scan(path, format) => match scan_form(setup.is_terminal, *format) {
            Ok(form) => list_directives(setup, *path, form, inputs, out),
            Err(failure) => (Err(failure), out),
        },
        Request::Why(question, format) => {
            let text = Command::Why(format.fails, None);
            match formatted(setup.is_terminal, *format, text, Asked::Why) {
                Ok(command) => ask(setup, command, question, &no_limits, inputs, out),
                Err(failure) => (Err(failure), out),
            }
        }
        Request::Who(question, format) => match who_of(setup.is_terminal, question, *format) {
            Ok(command) => ask(setup, command, question, &no_limits, inputs, out),
            Err(failure) => (Err(failure), out),
        },
        Request::Graph(question, format) => {
            match formatted(setup.is_terminal, *format, Command::Graph, Asked::Graph) {
                Ok(command) => ask(setup, command, question, &no_limits, inputs, out),
                Err(failure) => (Err(failure), out),
            }
        }
        Request::Rules(question, words, format) => {
            match rule_form_of(setup.is_terminal, format.name, words.written) {
                Ok(form) => ask_rules(setup, form, question, words, &no_limits, inputs, out),
                Err(failure) => (Err(failure), out),
            }
        }
        Request::Cost(question, top, format) => match cost_of(
            setup.is_terminal,
            question,
            format.name,
            *top,
        ) {
            Ok(command) => ask(setup, command, question, &no_limits, inputs, out),
            Err(failure) => (Err(failure), out),
        },
        Request::Cut(question, limits, forms) => match form_of(setup.is_terminal, *forms) {
            Ok(command) => {
                keep_large_blocks(setup.alloc);
                ask(setup, command, question, limits, inputs, out)
            }
            Err(failure) => (Err(failure), out),
        },
        Request::Check(question, limits, certificate) => {
            keep_large_blocks(setup.alloc);
            let command = Command::Check(certificate);
            ask(setup, command, question, limits, inputs, out)
        }
        Request::Pp(args) => preprocess(setup, args, inputs, out),
    }
}

/// Which sources reach the headers that words name, if they name some in one way.
fn who_of(
    is_terminal: bool,
    question: &QuestionArgs<'_>,
    format: FormatArgs<'_>,
) -> Result<Command<'static>, Failure>
    ensures { seen seen_command result ≡ who_of is_terminal (seen_question question.now) (seen_format format.entry) }
{
    if are_ends(question) {
        let text = Command::Who(format.all, format.fails, None);
        return formatted(is_terminal, format, text, Asked::Who);
    }
    Err(Failure::NoHeaders)
}

/// How many headers and directives are printed of what includes cost, where no number is given.
const TOP: usize = 20;

/// What includes cost, in the format of this name, and as much as a word says; or trees, where one source is named or stacks are asked for.
fn cost_of(
    is_terminal: bool,
    question: &QuestionArgs<'_>,
    name: Option<&str>,
    top: Option<&str>,
) -> Result<Command<'static>, Failure>
    ensures { seen seen_command result ≡ cost_of is_terminal (seen_question question.now) (option_map (λ n. n.now) name.entry) (option_map (λ w. w.now) top.entry) }
{
    if question.source.is_some() {
        return tree_of(is_terminal, question, name, top);
    }
    if is_folded(name) {
        return folded_of(question, top);
    }
    costs_by(is_terminal, name, top)
}

/// Whether the format of this name is that of stacks.
fn is_folded(name: Option<&str>) -> bool
    ensures { result ≡ is_folded (option_map (λ n. n.now) name.entry) }
{
    name.unwrap_or("") == "folded"
}

/// The tree of one source, which is what `--of` asks for.
fn tree_of(
    is_terminal: bool,
    question: &QuestionArgs<'_>,
    name: Option<&str>,
    top: Option<&str>,
) -> Result<Command<'static>, Failure>
    ensures { seen seen_command result ≡ tree_of is_terminal (seen_question question.now) (option_map (λ n. n.now) name.entry) (option_map (λ w. w.now) top.entry) }
{
    if !question.from.is_empty() || !question.to.is_empty() || top.is_some() {
        return Err(Failure::OfAlone);
    }
    tree_by(is_terminal, name)
}

/// The same in the format of this name.
fn tree_by(is_terminal: bool, name: Option<&str>) -> Result<Command<'static>, Failure>
    ensures { seen seen_command result ≡ tree_by is_terminal (option_map (λ n. n.now) name.entry) }
{
    if is_folded(name) {
        return Ok(Command::Folded);
    }
    match rules_format(is_terminal, name) {
        Ok(format) => Ok(Command::Tree(format)),
        Err(failure) => Err(failure),
    }
}

/// The trees of sources as stacks, where nothing says how much is printed.
fn folded_of(question: &QuestionArgs<'_>, top: Option<&str>) -> Result<Command<'static>, Failure>
    ensures { seen seen_command result ≡ folded_of (seen_question question.now) (option_map (λ w. w.now) top.entry) }
{
    if !question.to.is_empty() || top.is_some() {
        return Err(Failure::FoldedAlone);
    }
    Ok(Command::Folded)
}

/// What includes cost, in the format of this name, and as much as a word says.
fn costs_by(
    is_terminal: bool,
    name: Option<&str>,
    top: Option<&str>,
) -> Result<Command<'static>, Failure>
    ensures { seen seen_command result ≡ cost_by (top_by (option_map (λ w. w.now) top.entry)) (rules_format is_terminal (option_map (λ n. n.now) name.entry)) }
{
    let top = match top_by(top) {
        Ok(top) => top,
        Err(failure) => return Err(failure),
    };
    match rules_format(is_terminal, name) {
        Ok(format) => Ok(Command::Cost(format, top)),
        Err(failure) => Err(failure),
    }
}

/// How many headers and directives are printed of what includes cost.
fn top_by(word: Option<&str>) -> Result<usize, Failure>
    ensures { seen (λ top. top) result ≡ top_by (option_map (λ w. w.now) word.entry) }
{
    let Some(word) = word else {
        return Ok(TOP);
    };
    match number_in(word.as_bytes()) {
        Some(most) => Ok(most as usize),
        None => Err(Failure::NoTop),
    }
}

/// The form of this name in which rules are printed. SARIF says what breaks them, so no baseline is written beside it.
fn rule_form_of(
    is_terminal: bool,
    name: Option<&str>,
    written: Option<&str>,
) -> Result<RuleForm, Failure>
    ensures { seen (λ form. form) result
        ≡ rule_form_of is_terminal (option_map (λ n. n.now) name.entry) (option_map (λ w. w.now) written.entry) }
{
    if name.unwrap_or("") == "sarif" && written.is_none() {
        return Ok(RuleForm::Sarif);
    }
    match rules_format(is_terminal, name) {
        Ok(Some(format)) => Ok(RuleForm::In(format)),
        Ok(None) => Ok(RuleForm::Lines),
        Err(failure) => Err(failure),
    }
}

/// The format of this name in which rules and costs are printed: none for text, or one in which directives stand as they are written. Where none is
/// named, it is that of a terminal, or text.
fn rules_format(is_terminal: bool, name: Option<&str>) -> Result<Option<Format>, Failure>
    ensures { seen (λ format. format) result ≡ rules_format is_terminal (option_map (λ n. n.now) name.entry) }
{
    let word = name.unwrap_or(default_format(is_terminal));
    if word == "text" {
        return Ok(None);
    }
    let Some(format) = format_named(word) else {
        return Err(Failure::NoFormat);
    };
    Ok(Some(format))
}

/// The command of a cut in the form that is asked for; `--blank` and `--patch` exclude each other and a format.
fn form_of(is_terminal: bool, asked: FormArgs<'_>) -> Result<Command<'static>, Failure>
    ensures { seen seen_command result ≡ form_of is_terminal (seen_forms asked.entry) }
{
    match (asked.blank, asked.patch) {
        (true, true) => Err(Failure::TwoForms),
        (true, false) => of_files(asked.format, Command::Blank),
        (false, true) => of_files(asked.format, Command::Patch),
        (false, false) => formatted(is_terminal, asked.format, Command::Cut, Asked::Cut),
    }
}

/// The form of this name in which directives are listed; where none is named, on a terminal with directives as they are written.
fn scan_form(is_terminal: bool, name: Option<&str>) -> Result<ScanForm, Failure>
    ensures { seen (λ f. f) result ≡ scan_form is_terminal (option_map (λ n. n.now) name.entry) }
{
    match name.unwrap_or(default_format(is_terminal)) {
        "text" => Ok(ScanForm::Text),
        "gcc" => Ok(ScanForm::Gcc),
        "json" => Ok(ScanForm::Json),
        _ => Err(Failure::NoScanFormat),
    }
}

/// The command whose answer is files or a diff, which has no other format.
fn of_files(format: FormatArgs<'_>, command: Command<'static>) -> Result<Command<'static>, Failure>
    ensures { seen seen_command result ≡ of_files (seen_format format.entry) (seen_command command.entry) }
{
    match format.name {
        Some(_) => Err(Failure::FormatOfFiles),
        None => Ok(command),
    }
}

/// The command whose answer is in a format: the text of this one, or with directives as they are written. Where no format is named, these
/// stand so on a terminal.
fn formatted(
    is_terminal: bool,
    format: FormatArgs<'_>,
    text: Command<'static>,
    asked: Asked,
) -> Result<Command<'static>, Failure>
    ensures { seen seen_command result ≡ formatted is_terminal (seen_format format.entry) (seen_command text.entry) asked }
{
    match most_of(format.most) {
        Ok(most) => {
            let name = format.name.unwrap_or(default_format(is_terminal));
            in_format(name, format.all, format.fails, most, text, asked)
        }
        Err(failure) => Err(failure),
    }
}

/// How many chains are printed at most.
fn most_of(word: Option<&str>) -> Result<Option<usize>, Failure>
    ensures { seen (λ most. most) result ≡ most_of (option_map (λ w. w.now) word.entry) }
{
    let Some(word) = word else {
        return Ok(None);
    };
    match number_in(word.as_bytes()) {
        Some(most) => Ok(Some(most as usize)),
        None => Err(Failure::NoMost),
    }
}

/// The command whose answer is in the format with this name.
fn in_format(
    name: &str,
    all: bool,
    fails: bool,
    most: Option<usize>,
    text: Command<'static>,
    asked: Asked,
) -> Result<Command<'static>, Failure>
    ensures { seen seen_command result ≡ in_format name.now all fails most (seen_command text.entry) asked }
{
    if name == "text" {
        return Ok(text.bounded(most));
    }
    match format_named(name) {
        Some(format) => Ok(Command::Named(NamedForm {
            asked,
            format,
            all,
            fails,
            most,
        })),
        None => Err(Failure::NoFormat),
    }
}

/// The format with this name in which directives stand as they are written.
fn format_named(name: &str) -> Option<Format>
    ensures { result ≡ format_named name.now }
{
    if name == "gcc" {
        return Some(Format::Gcc);
    }
    if name == "json" {
        return Some(Format::Json);
    }
    if name == "dot" {
        return Some(Format::Dot);
    }
    None
}

/// The name of the format where none is given.
fn default_format(is_terminal: bool) -> &'static str
    ensures { result.now ≡ default_format is_terminal }
{
    if is_terminal { "gcc" } else { "text" }
}

/// Writes the notes beside the answer of a run, or reports the failure with which it ended and what stood in its way, and gives the exit
/// status.
fn tell<E: ByteSink>(
    ended: &Result<Answer, Failure>,
    is_quiet: bool,
    hindrance: Hindrance,
    messages: E,
) -> (u8, E)
    requires { E.has_failed messages ≡ false }
    ensures { IsTold is_quiet hindrance (seen_end ended.now) result.0
        (output_of (E.written messages) (E.written result.1) (E.has_failed result.1)) }
{
    match ended {
        Ok(answer) => note(answer, is_quiet, messages),
        Err(failure) => report(failure, hindrance, messages),
    }
}

/// The language of the files; `--extended` and `--gnu` exclude each other.
fn language_of(asked: LanguageArgs) -> Result<Language, Failure>
    ensures { seen (λ language. language) result ≡ language_of (seen_languages asked) }
{
    match (asked.extended, asked.gnu) {
        (true, true) => Err(Failure::TwoLanguages),
        (true, false) => Ok(Language::Extended),
        (false, true) => Ok(Language::Gnu),
        (false, false) => Ok(Language::C17),
    }
}

/// As large a block as the host's allocator still makes of its own memory.
const LARGE_BLOCK: usize = 33_000_000;

/// Has the host's allocator keep large blocks that are freed, and make the next ones of them: it does so from the first block on that is
/// freed. Before, it gives each back to the system, which clears the pages of the next one anew. That is worth it where a graph is built
/// first and as much memory is taken after it. Where there is no such block, nothing changes.
fn keep_large_blocks(alloc: Global) {
    let _ = Vec::<u8>::with_capacity(alloc, LARGE_BLOCK);
}
