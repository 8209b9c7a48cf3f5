//! Flags, options and words of the command line, as commands take them.
ghost use Rattle.std.specs.Prelude.{◌≡◌, false};
ghost use Rattle.clap.specs.Words.{rule_of};
ghost use Rattle.inc_args.specs.CommandLine as rules;

use clap::{Arg, ArgAction};
use std::alloc::Global;

/// The flag `--NAME`.
pub(crate) fn flag<'a>(alloc: Global, name: &'a str, help: &'a str) -> Arg<'a>
    ensures rule { rule_of result ≡ rules.flag name.entry.now }
    ensures local { result.global ≡ false }
{
    Arg::new(alloc, name)
        .long(name)
        .action(ArgAction::SetTrue)
        .help(help)
}

/// The option `--NAME VALUE`, which may be given once.
pub(crate) fn option<'a>(alloc: Global, name: &'a str, value: &'a str, help: &'a str) -> Arg<'a>
    ensures rule { rule_of result ≡ rules.option name.entry.now }
    ensures local { result.global ≡ false }
{
    Arg::new(alloc, name)
        .long(name)
        .value_name(value)
        .action(ArgAction::Set)
        .help(help)
}

/// The option with this letter and a value, which may be given once.
pub(crate) fn single<'a>(
    alloc: Global,
    letter: char,
    name: &'a str,
    value: &'a str,
    help: &'a str,
) -> Arg<'a>
    ensures rule { rule_of result ≡ rules.single letter name.entry.now }
    ensures local { result.global ≡ false }
{
    Arg::new(alloc, name)
        .short(letter)
        .value_name(value)
        .action(ArgAction::Set)
        .help(help)
}

/// The option with this letter and a value, which may be given again.
pub(crate) fn repeated<'a>(
    alloc: Global,
    letter: char,
    name: &'a str,
    value: &'a str,
    help: &'a str,
) -> Arg<'a>
    ensures rule { rule_of result ≡ rules.repeated letter name.entry.now }
    ensures local { result.global ≡ false }
{
    Arg::new(alloc, name)
        .short(letter)
        .value_name(value)
        .action(ArgAction::Append)
        .help(help)
}

/// The option `--NAME VALUE`, which may be given again.
pub(crate) fn repeated_option<'a>(
    alloc: Global,
    name: &'a str,
    value: &'a str,
    help: &'a str,
) -> Arg<'a>
    ensures rule { rule_of result ≡ rules.repeated_option name.entry.now }
    ensures local { result.global ≡ false }
{
    option(alloc, name, value, help).action(ArgAction::Append)
}

/// A word that must be there.
pub(crate) fn word<'a>(alloc: Global, name: &'a str, help: &'a str) -> Arg<'a>
    ensures rule { rule_of result ≡ rules.word name.entry.now }
    ensures local { result.global ≡ false }
{
    Arg::new(alloc, name).required(true).help(help)
}

/// The list of a project's files.
pub(crate) fn files<'a>(alloc: Global) -> Arg<'a>
    ensures rule { rule_of result ≡ rules.files }
    ensures local { result.global ≡ false }
{
    let help = "Read the paths of the project's files from LIST; `-` is standard input";
    option(alloc, "files", "LIST", help)
}

/// That the paths of the list end in NUL.
pub(crate) fn null<'a>(alloc: Global) -> Arg<'a>
    ensures rule { rule_of result ≡ rules.null }
    ensures local { result.global ≡ false }
{
    flag(
        alloc,
        "null",
        "Paths of LIST end in NUL, not in a line feed",
    )
    .short('0')
}

/// That no notes stand beside the answer.
pub(crate) fn quiet<'a>(alloc: Global) -> Arg<'a>
    ensures rule { rule_of result ≡ rules.quiet }
    ensures local { result.global ≡ false }
{
    flag(
        alloc,
        "quiet",
        "Print no notes on standard error beside the answer",
    )
    .short('q')
}

/// One source or several.
pub(crate) fn sources<'a>(alloc: Global) -> Arg<'a>
    ensures rule { rule_of result ≡ rules.sources }
    ensures local { result.global ≡ false }
{
    word(alloc, "SOURCE", "Files to start from, each by its path")
        .action(ArgAction::Append)
        .num_args(1..)
}

/// A word that need not be there.
pub(crate) fn optional_word<'a>(alloc: Global, name: &'a str, help: &'a str) -> Arg<'a>
    ensures rule { rule_of result ≡ rules.optional_word name.entry.now }
    ensures local { result.global ≡ false }
{
    Arg::new(alloc, name).help(help)
}

/// A file that need not be named.
pub(crate) fn path<'a>(alloc: Global) -> Arg<'a>
    ensures rule { rule_of result ≡ rules.path }
    ensures local { result.global ≡ false }
{
    optional_word(alloc, "PATH", "File to read [default: standard input]")
}
