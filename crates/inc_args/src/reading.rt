//! Reads the words of the command line.
ghost use Rattle.std.specs.Prelude.{◌≡◌, [], IfOk, IfErr, map, option_map};
ghost use Rattle.std.specs.Option.{option_map_or};
ghost use Rattle.std.specs.String.{string_bytes};
ghost use Rattle.clap.specs.Words.{all_of, first_of, found_of, rows_of, subcommand_rows_of};
ghost use Rattle.inc_args.specs.CompilerCommand.{compiler_words, own_words};
ghost use Rattle.inc_args.specs.Meaning as meaning;
ghost use Rattle.inc_args.specs.Meaning.{asked_by, cost_in, ends_in, files_in, format_in, forms_in, is_given_in, languages_in, limits_in, meaning, meaning_of, preprocessing_in, question_in, rules_in, value_of, values_of, who_in};
ghost use Rattle.inc_args.specs.Refusals.{IsRefusal, refusals};
ghost use Rattle.inc_args.specs.Views.{seen_arguments, seen_files, seen_format, seen_forms, seen_languages, seen_limits, seen_pp, seen_question, seen_request, seen_rules};

use crate::commands::incut;
use crate::compiler_command::split;
use crate::faults::{ArgsFault, fault_of};
use crate::requests::{
    Arguments, FileList, FormArgs, FormatArgs, LanguageArgs, LimitArgs, PpArgs, QuestionArgs,
    Request, RuleArgs,
};
use clap::ArgMatches;
use std::alloc::{AllocError, Global};

/// Reads the words of the command line, the name of the program first. Those of a compiler's command are kept as they are.
pub fn read_args<'a>(alloc: Global, words: &'a [String]) -> Result<Arguments<'a>, ArgsFault>
    ensures meaning { IfOk result (λ a. seen_arguments a ≡ meaning (map string_bytes words.entry.now)) }
    ensures taken { IfOk result (λ a. refusals (map string_bytes words.entry.now) ≡ []) }
    ensures refused { IfErr result (IsRefusal (refusals (map string_bytes words.entry.now))) }
{
    let command = incut(alloc)?;
    let (own, compiler) = split(words);
    match command.try_get_matches_from(own) {
        Ok(matches) => Ok(read_matches(alloc, &matches, compiler)?),
        Err(error) => Err(fault_of(error)),
    }
}

/// What the matches ask for, with a compiler's command.
fn read_matches<'a>(
    alloc: Global,
    matches: &ArgMatches<'a>,
    compiler: &'a [String],
) -> Result<Arguments<'a>, AllocError>
    ensures { IfOk result (λ a. seen_arguments a
        ≡ meaning_of (rows_of (found_of matches.now)) (subcommand_rows_of matches.now) (map string_bytes compiler.entry.now)) }
{
    match matches.subcommand() {
        Some((name, inner)) => Ok(Arguments {
            request: read_request(alloc, name, inner, compiler)?,
            languages: read_languages(matches, Some(inner)),
            is_quiet: is_given(inner, "quiet"),
            follows: is_given(inner, "follow"),
        }),
        None => Ok(Arguments {
            request: Request::Scan(None, None),
            languages: read_languages(matches, None),
            is_quiet: false,
            follows: false,
        }),
    }
}

/// The language of the files, by the words before a command and by those after it.
fn read_languages(outer: &ArgMatches<'_>, inner: Option<&ArgMatches<'_>>) -> LanguageArgs
    ensures { seen_languages result ≡ languages_in (rows_of (found_of outer.now)) (option_map_or (λ m. rows_of (found_of m.now)) inner.entry []) }
{
    LanguageArgs {
        extended: is_given_in(outer, inner, "extended"),
        gnu: is_given_in(outer, inner, "gnu"),
    }
}

/// Whether a flag is given before a command or after it.
fn is_given_in(outer: &ArgMatches<'_>, inner: Option<&ArgMatches<'_>>, name: &str) -> bool
    ensures { result ≡ is_given_in name.now (rows_of (found_of outer.now)) (option_map_or (λ m. rows_of (found_of m.now)) inner.entry []) }
{
    is_given(outer, name) || is_given_within(inner, name)
}

/// Whether a flag is given after a command, if there is one.
fn is_given_within(inner: Option<&ArgMatches<'_>>, name: &str) -> bool
    ensures { result ≡ meaning.is_given name.now (option_map_or (λ m. rows_of (found_of m.now)) inner.entry []) }
{
    match inner {
        Some(matches) => is_given(matches, name),
        None => false,
    }
}

/// What the command of this name is asked.
fn read_request<'a>(
    alloc: Global,
    name: &str,
    matches: &ArgMatches<'a>,
    compiler: &'a [String],
) -> Result<Request<'a>, AllocError>
    ensures { IfOk result (λ r. seen_request r
        ≡ asked_by name.now (rows_of (found_of matches.now)) (map string_bytes compiler.entry.now)) }
{
    match name {
        "why" => Ok(Request::Why(
            read_ends(alloc, matches, compiler)?,
            read_format(matches, "all"),
        )),
        "who" => Ok(Request::Who(
            read_who(alloc, matches, compiler)?,
            read_format(matches, "chains"),
        )),
        "graph" => Ok(Request::Graph(
            read_who(alloc, matches, compiler)?,
            read_format(matches, "all"),
        )),
        "rules" => Ok(Request::Rules(
            read_ends(alloc, matches, compiler)?,
            read_rules(alloc, matches)?,
            read_format(matches, "all"),
        )),
        "cost" => Ok(Request::Cost(
            read_cost(alloc, matches, compiler)?,
            given(matches, "top"),
            read_format(matches, "all"),
        )),
        "cut" => Ok(Request::Cut(
            read_ends(alloc, matches, compiler)?,
            read_limits(alloc, matches)?,
            read_forms(matches),
        )),
        "check" => Ok(Request::Check(
            read_ends(alloc, matches, compiler)?,
            read_limits(alloc, matches)?,
            value(matches, "CERT"),
        )),
        "pp" => Ok(Request::Pp(read_pp(alloc, matches, compiler)?)),
        _ => Ok(Request::Scan(given(matches, "PATH"), given(matches, "format"))),
    }
}

fn read_pp<'a>(
    alloc: Global,
    matches: &ArgMatches<'a>,
    compiler: &'a [String],
) -> Result<PpArgs<'a>, AllocError>
    ensures { IfOk result (λ p. seen_pp p ≡ preprocessing_in (rows_of (found_of matches.now)) (map string_bytes compiler.entry.now)) }
{
    Ok(PpArgs {
        files: read_files(alloc, matches, compiler)?,
        sources: values(alloc, matches, "SOURCE")?,
        without: given(matches, "without"),
        defines: given(matches, "defines"),
        compiler: given(matches, "compiler"),
        words: values(alloc, matches, "define")?,
        is_missing_empty: is_given(matches, "missing-empty"),
        has_markers: is_given(matches, "lines"),
        most_read: given(matches, "most-read"),
        most_output: given(matches, "most-output"),
        deps: given(matches, "deps"),
        status: given(matches, "status"),
    })
}

fn read_files<'a>(
    alloc: Global,
    matches: &ArgMatches<'a>,
    compiler: &'a [String],
) -> Result<FileList<'a>, AllocError>
    ensures { IfOk result (λ f. seen_files f ≡ files_in (rows_of (found_of matches.now)) (map string_bytes compiler.entry.now)) }
{
    Ok(FileList {
        build: given(matches, "build"),
        command: compiler,
        list: given(matches, "files"),
        is_null: is_given(matches, "null"),
        roots: values(alloc, matches, "root")?,
        exclude: values(alloc, matches, "exclude")?,
        dirs: values(alloc, matches, "include")?,
        quoted: values(alloc, matches, "iquote")?,
        system: values(alloc, matches, "isystem")?,
        last: values(alloc, matches, "idirafter")?,
    })
}

fn read_question<'a>(
    alloc: Global,
    matches: &ArgMatches<'a>,
    compiler: &'a [String],
) -> Result<QuestionArgs<'a>, AllocError>
    ensures { IfOk result (λ q. seen_question q ≡ question_in (rows_of (found_of matches.now)) (map string_bytes compiler.entry.now)) }
{
    Ok(QuestionArgs {
        files: read_files(alloc, matches, compiler)?,
        source: given(matches, "SOURCE"),
        header: given(matches, "HEADER"),
        from: values(alloc, matches, "from")?,
        to: values(alloc, matches, "to")?,
        without: given(matches, "without"),
        drop: values(alloc, matches, "drop")?,
        is_strict: is_given(matches, "strict"),
        external: values(alloc, matches, "external")?,
        undefined: values(alloc, matches, "undefined")?,
    })
}

/// The same, where each source of the build, or each `.c` file of the project, is one if no word says which.
fn read_who<'a>(
    alloc: Global,
    matches: &ArgMatches<'a>,
    compiler: &'a [String],
) -> Result<QuestionArgs<'a>, AllocError>
    ensures { IfOk result (λ q. seen_question q ≡ who_in (rows_of (found_of matches.now)) (map string_bytes compiler.entry.now)) }
{
    let mut question = read_question(alloc, matches, compiler)?;
    if question.from.is_empty() {
        let all = all_sources(has_build(question.files.build, compiler));
        question.from.push(all)?;
    }
    Ok(question)
}

/// The same, where each source of the build, if there is one, is one if no word says which.
fn read_ends<'a>(
    alloc: Global,
    matches: &ArgMatches<'a>,
    compiler: &'a [String],
) -> Result<QuestionArgs<'a>, AllocError>
    ensures { IfOk result (λ q. seen_question q ≡ ends_in (rows_of (found_of matches.now)) (map string_bytes compiler.entry.now)) }
{
    if has_build(given(matches, "build"), compiler) && given(matches, "SOURCE").is_none() {
        read_who(alloc, matches, compiler)
    } else {
        read_question(alloc, matches, compiler)
    }
}

/// About the source that a word names, or about others: each source of the build, or each `.c` file of the project, if no word says which.
fn read_cost<'a>(
    alloc: Global,
    matches: &ArgMatches<'a>,
    compiler: &'a [String],
) -> Result<QuestionArgs<'a>, AllocError>
    ensures { IfOk result (λ q. seen_question q ≡ cost_in (rows_of (found_of matches.now)) (map string_bytes compiler.entry.now)) }
{
    let source = given(matches, "of");
    let mut question = match source {
        Some(_) => read_question(alloc, matches, compiler)?,
        None => read_who(alloc, matches, compiler)?,
    };
    question.source = source;
    Ok(question)
}

/// Whether there is a build: a word names one, or it is that of a compiler's command.
fn has_build(build: Option<&str>, compiler: &[String]) -> bool
    ensures { result ≡ meaning.has_build (option_map (λ b. b.now) build.entry) (map string_bytes compiler.now) }
{
    build.is_some() || !compiler.is_empty()
}

/// The glob of the sources where no word names them.
fn all_sources(has_build: bool) -> &'static str
    ensures { result.now ≡ meaning.all_sources has_build }
{
    if has_build { "**" } else { "**.c" }
}

fn read_rules<'a>(alloc: Global, matches: &ArgMatches<'a>) -> Result<RuleArgs<'a>, AllocError>
    ensures { IfOk result (λ r. seen_rules r ≡ rules_in (rows_of (found_of matches.now))) }
{
    Ok(RuleArgs {
        file: given(matches, "RULES"),
        rules: values(alloc, matches, "rule")?,
        baseline: given(matches, "baseline"),
        written: given(matches, "write-baseline"),
    })
}

fn read_limits<'a>(alloc: Global, matches: &ArgMatches<'a>) -> Result<LimitArgs<'a>, AllocError>
    ensures { IfOk result (λ l. seen_limits l ≡ limits_in (rows_of (found_of matches.now))) }
{
    Ok(LimitArgs {
        fixed: given(matches, "fixed"),
        keep: values(alloc, matches, "keep")?,
        only: values(alloc, matches, "only")?,
        costs: given(matches, "costs"),
    })
}

/// The format of an answer, by the flag that shows chains whole.
fn read_format<'a>(matches: &ArgMatches<'a>, all: &str) -> FormatArgs<'a>
    ensures { seen_format result ≡ format_in all.now (rows_of (found_of matches.now)) }
{
    FormatArgs {
        name: given(matches, "format"),
        all: is_given(matches, all),
        fails: is_given(matches, "fail-if-reached"),
        most: given(matches, "max"),
    }
}

fn read_forms<'a>(matches: &ArgMatches<'a>) -> FormArgs<'a>
    ensures { seen_forms result ≡ forms_in (rows_of (found_of matches.now)) }
{
    FormArgs {
        blank: is_given(matches, "blank"),
        patch: is_given(matches, "patch"),
        format: read_format(matches, "all"),
    }
}

/// Whether a flag is given: `clap` then has the text `true` for it.
fn is_given(matches: &ArgMatches<'_>, flag: &str) -> bool
    ensures { result ≡ meaning.is_given flag.now (rows_of (found_of matches.now)) }
{
    match given(matches, flag) {
        Some(text) => text == "true",
        None => false,
    }
}

/// The value of an option or word, if it is given.
fn given<'a>(matches: &ArgMatches<'a>, name: &str) -> Option<&'a str>
    ensures { option_map (λ s. s.now) result ≡ first_of name.now (rows_of (found_of matches.now)) }
{
    matches.get_str(name)
}

/// The value of an option or word that is required, so that it is there once the words are taken.
fn value<'a>(matches: &ArgMatches<'a>, name: &str) -> &'a str
    ensures { result.now ≡ value_of name.now (rows_of (found_of matches.now)) }
{
    given(matches, name).unwrap_or("")
}

/// The values of an option or word, in order.
fn values<'a>(
    alloc: Global,
    matches: &ArgMatches<'a>,
    name: &str,
) -> Result<Vec<&'a str>, AllocError>
    ensures { IfOk result (λ v. map (λ s. s.now) v.items ≡ values_of name.now (rows_of (found_of matches.now))) }
{
    match matches.get_strs(name) {
        Some(values) => Vec::from_slice(alloc, values),
        None => Ok(Vec::new(alloc)),
    }
}
