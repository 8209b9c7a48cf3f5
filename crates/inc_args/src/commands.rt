//! The commands of the program.
ghost use Rattle.std.specs.Prelude.{◌≡◌, ◌∷◌, [], IfOk};
ghost use Rattle.clap.specs.Words.{app_of};
ghost use Rattle.inc_args.specs.CommandLine as line;
ghost use Rattle.inc_args.specs.CommandLine.{bound_rules, chain_rules, cost_rules, end_rules, file_rules, form_rules, format_rules, graph_rules, header_rules, incut, limit_rules, list_rules, macro_rules, note_rules, output_rules, reach_rules, rule_rules, search_rules, strict_rules, with_rules, drop_rules};

use crate::help::{
    ABOUT, ALL_HELP, CHECK_NOTES, COST_FORMAT_HELP, COST_NOTES, CUT_NOTES, EXAMPLES, EXTENDED_HELP,
    FORMAT_HELP, GNU_HELP, GRAPH_NOTES, GROUP_HELP, HEADER_HELP, MAX_HELP, PP_NOTES,
    RULE_FORMAT_HELP, RULES_NOTES, SCAN_FORMAT_HELP, SCAN_NOTES, SOURCES_HELP, TO_HELP,
    UNDEFINED_HELP, VERSION, WHO_NOTES, WHY_NOTES,
};
use crate::options::{
    files, flag, null, option, optional_word, path, quiet, repeated, repeated_option, single,
    sources, word,
};
use clap::Command;
use std::alloc::{AllocError, Global};

/// A command, with the flags of languages.
fn started<'a>(
    alloc: Global,
    name: &'a str,
    about: &'a str,
    notes: &'a str,
) -> Result<Command<'a>, AllocError>
    ensures { IfOk result (λ c. app_of c ≡ line.command name.entry.now (line.extended ∷ line.gnu ∷ [])) }
{
    Command::new(alloc, name)
        .about(about)
        .after_help(notes)
        .arg(flag(alloc, "extended", EXTENDED_HELP))?
        .arg(flag(alloc, "gnu", GNU_HELP))
}

/// Adds the options that tell the files of a project, where headers are searched, and what to take as removed.
fn with_files<'a>(alloc: Global, command: Command<'a>) -> Result<Command<'a>, AllocError>
    ensures { IfOk result (λ c. app_of c ≡ with_rules (app_of command.entry) file_rules) }
{
    // One after the other, so that the stack has the options of one alone.
    let command = with_list(alloc, command)?;
    with_search(alloc, command)
}

/// Adds the options that tell the files of a project.
fn with_list<'a>(alloc: Global, command: Command<'a>) -> Result<Command<'a>, AllocError>
    ensures { IfOk result (λ c. app_of c ≡ with_rules (app_of command.entry) list_rules) }
{
    let root = "Take the C files below DIR, without --files (repeatable) [default: .]";
    let exclude = "Leave out the files that GLOB fits (repeatable)";
    let follow = "Follow links, on the way to a file of LIST and below DIR";
    let build = "Take files and include path from BUILD, a compile_commands.json or its folder";
    command
        .arg(single(alloc, 'p', "build", "BUILD", build))?
        .arg(files(alloc))?
        .arg(null(alloc))?
        .arg(repeated_option(alloc, "root", "DIR", root))?
        .arg(repeated_option(alloc, "exclude", "GLOB", exclude))?
        .arg(flag(alloc, "follow", follow))
}

/// Adds the options that tell in which directories headers are searched, and what to take as removed.
fn with_search<'a>(alloc: Global, command: Command<'a>) -> Result<Command<'a>, AllocError>
    ensures { IfOk result (λ c. app_of c ≡ with_rules (app_of command.entry) search_rules) }
{
    let dirs = "Add DIR to the include path (repeatable)";
    let quoted = "Search DIR for names in quotes alone, before -I (repeatable)";
    let system = "Search DIR for system headers, after those of -I (repeatable)";
    let last = "Search DIR for system headers, after all others (repeatable)";
    let without = "Take the directives that MARKS lists as removed; `-` is standard input";
    command
        .arg(repeated(alloc, 'I', "include", "DIR", dirs))?
        .arg(repeated_option(alloc, "iquote", "DIR", quoted))?
        .arg(repeated_option(alloc, "isystem", "DIR", system))?
        .arg(repeated_option(alloc, "idirafter", "DIR", last))?
        .arg(option(alloc, "without", "MARKS", without))
}

/// Adds the option that tells of places what to take as removed.
fn with_drop<'a>(alloc: Global, command: Command<'a>) -> Result<Command<'a>, AllocError>
    ensures { IfOk result (λ c. app_of c ≡ with_rules (app_of command.entry) drop_rules) }
{
    let drop = "Take as removed GLOB:LINE, GLOB:NAME, or all directives of GLOB (repeatable)";
    command.arg(repeated_option(alloc, "drop", "WHERE", drop))
}

/// Adds these, after what tells the files of a project.
fn with_dropped<'a>(alloc: Global, command: Command<'a>) -> Result<Command<'a>, AllocError>
    ensures { IfOk result (λ c. app_of c ≡ with_rules (with_rules (app_of command.entry) file_rules) drop_rules) }
{
    with_drop(alloc, with_files(alloc, command)?)
}

/// Adds the options that tell whether a header that is not found is refused, and which are excepted.
fn with_strict<'a>(alloc: Global, command: Command<'a>) -> Result<Command<'a>, AllocError>
    ensures { IfOk result (λ c. app_of c ≡ with_rules (app_of command.entry) strict_rules) }
{
    let strict = "Refuse to answer where a header is not found";
    let external =
        "With --strict, except the headers whose names in includes GLOB fits (repeatable)";
    command
        .arg(flag(alloc, "strict", strict))?
        .arg(repeated_option(alloc, "external", "GLOB", external))
}

/// Adds the flag that turns notes off.
fn with_notes<'a>(alloc: Global, command: Command<'a>) -> Result<Command<'a>, AllocError>
    ensures { IfOk result (λ c. app_of c ≡ with_rules (app_of command.entry) note_rules) }
{
    command.arg(quiet(alloc))
}

/// Adds the flag with which the answer that a header is reached is negative.
fn with_reach<'a>(alloc: Global, command: Command<'a>) -> Result<Command<'a>, AllocError>
    ensures { IfOk result (λ c. app_of c ≡ with_rules (app_of command.entry) reach_rules) }
{
    let fails = "End with status 1 where a source includes the header, and with 0 where none does";
    command.arg(flag(alloc, "fail-if-reached", fails))
}

/// Adds the options that limit a cut.
fn with_limits<'a>(alloc: Global, command: Command<'a>) -> Result<Command<'a>, AllocError>
    ensures { IfOk result (λ c. app_of c ≡ with_rules (app_of command.entry) limit_rules) }
{
    let fixed = "Do not remove the directives that MARKS lists; `-` is standard input";
    let keep = "Do not remove GLOB:LINE, GLOB:NAME, or any directive of GLOB (repeatable)";
    let only = "Remove directives of the files alone that GLOB fits (repeatable)";
    let costs = "Read what it costs to remove directives from COSTS; `-` is standard input";
    command
        .arg(option(alloc, "fixed", "MARKS", fixed))?
        .arg(repeated_option(alloc, "keep", "WHERE", keep))?
        .arg(repeated_option(alloc, "only", "GLOB", only))?
        .arg(option(alloc, "costs", "COSTS", costs))
}

/// Adds the options that tell what is printed of a cut.
fn with_forms<'a>(alloc: Global, command: Command<'a>) -> Result<Command<'a>, AllocError>
    ensures { IfOk result (λ c. app_of c ≡ with_rules (app_of command.entry) form_rules) }
{
    let blank = "Print the files that hold the cut's directives, with these blanked";
    let patch = "Print a diff that removes the cut's directives; not with --blank";
    command
        .arg(flag(alloc, "blank", blank))?
        .arg(flag(alloc, "patch", patch))?
        .arg(option(alloc, "format", "FORMAT", FORMAT_HELP))?
        .arg(flag(alloc, "all", ALL_HELP))?
        .arg(option(alloc, "max", "N", MAX_HELP))
}

/// Adds the options that tell in which format an answer is printed, and how much of it.
fn with_format<'a>(alloc: Global, command: Command<'a>) -> Result<Command<'a>, AllocError>
    ensures { IfOk result (λ c. app_of c ≡ with_rules (app_of command.entry) format_rules) }
{
    command
        .arg(option(alloc, "format", "FORMAT", FORMAT_HELP))?
        .arg(flag(alloc, "all", ALL_HELP))?
        .arg(option(alloc, "max", "N", MAX_HELP))
}

/// Adds the options that tell which macros are defined, what is done without a header, and whether lines are marked.
fn with_macros<'a>(alloc: Global, command: Command<'a>) -> Result<Command<'a>, AllocError>
    ensures { IfOk result (λ c. app_of c ≡ with_rules (app_of command.entry) macro_rules) }
{
    let define = "Define a macro by NAME, NAME=BODY or 'NAME(PARAMETERS)=BODY' (repeatable)";
    let defines = "Take definitions from the #define lines of FILE; `-` is standard input";
    let compiler = "Take macros and system directories from the description of a compiler in FILE";
    let missing = "Take a header that is not found as an empty file, and do not stop there";
    let lines = "Print markers `# LINE \"FILE\"`, with which a compiler goes on from the output";
    command
        .arg(repeated(alloc, 'D', "define", "WORD", define))?
        .arg(option(alloc, "defines", "FILE", defines))?
        .arg(option(alloc, "compiler", "FILE", compiler))?
        .arg(flag(alloc, "missing-empty", missing))?
        .arg(flag(alloc, "lines", lines))
}

/// Adds the options that bound what each source takes.
fn with_bounds<'a>(alloc: Global, command: Command<'a>) -> Result<Command<'a>, AllocError>
    ensures { IfOk result (λ c. app_of c ≡ with_rules (app_of command.entry) bound_rules) }
{
    let most_read = "Stop a source once more than BYTES bytes are read for it";
    let most_output = "Stop a source before its output is longer than BYTES bytes";
    command
        .arg(option(alloc, "most-read", "BYTES", most_read))?
        .arg(option(alloc, "most-output", "BYTES", most_output))
}

/// Adds the options that tell what is written to files beside the answer.
fn with_outputs<'a>(alloc: Global, command: Command<'a>) -> Result<Command<'a>, AllocError>
    ensures { IfOk result (λ c. app_of c ≡ with_rules (app_of command.entry) output_rules) }
{
    let deps = "Write a make rule for each source to FILE: which files were read for it";
    let status = "Write to FILE how many bytes are printed of each source, and how it ended";
    command
        .arg(option(alloc, "deps", "FILE", deps))?
        .arg(option(alloc, "status", "FILE", status))
}

/// Adds what names the sources and the headers, a word for one of each or options, and what no build defines.
fn with_ends<'a>(alloc: Global, command: Command<'a>) -> Result<Command<'a>, AllocError>
    ensures { IfOk result (λ c. app_of c ≡ with_rules (app_of command.entry) end_rules) }
{
    let from = "Start from the files that GLOB fits (repeatable)";
    let source = "File to start from, by its path";
    command
        .arg(repeated_option(alloc, "undefined", "NAME", UNDEFINED_HELP))?
        .arg(repeated_option(alloc, "from", "GLOB", from))?
        .arg(repeated_option(alloc, "to", "GLOB", TO_HELP))?
        .arg(optional_word(alloc, "SOURCE", source))?
        .arg(optional_word(alloc, "HEADER", HEADER_HELP))
}

/// Adds what no build defines, and how it is printed which sources include a header.
fn with_chains<'a>(alloc: Global, command: Command<'a>) -> Result<Command<'a>, AllocError>
    ensures { IfOk result (λ c. app_of c ≡ with_rules (app_of command.entry) chain_rules) }
{
    let chains = "Print a shortest chain from each source, too";
    command
        .arg(repeated_option(alloc, "undefined", "NAME", UNDEFINED_HELP))?
        .arg(flag(alloc, "chains", chains))?
        .arg(option(alloc, "format", "FORMAT", FORMAT_HELP))?
        .arg(option(alloc, "max", "N", MAX_HELP))
}

/// Adds what names the headers and the sources, which need not be named.
fn with_headers<'a>(alloc: Global, command: Command<'a>) -> Result<Command<'a>, AllocError>
    ensures { IfOk result (λ c. app_of c ≡ with_rules (app_of command.entry) header_rules) }
{
    command
        .arg(repeated_option(alloc, "from", "GLOB", SOURCES_HELP))?
        .arg(repeated_option(alloc, "to", "GLOB", TO_HELP))?
        .arg(optional_word(alloc, "HEADER", HEADER_HELP))
}

/// Adds what names the sources, which need not be named, what no build defines, and the format of the answer.
fn with_sources<'a>(alloc: Global, command: Command<'a>) -> Result<Command<'a>, AllocError>
    ensures { IfOk result (λ c. app_of c ≡ with_rules (app_of command.entry) graph_rules) }
{
    command
        .arg(repeated_option(alloc, "undefined", "NAME", UNDEFINED_HELP))?
        .arg(option(alloc, "format", "FORMAT", FORMAT_HELP))?
        .arg(repeated_option(alloc, "from", "GLOB", SOURCES_HELP))
}

/// Adds the rules, what may still break them, where that is written, what no build defines, and the format of the answer.
fn with_rule_words<'a>(alloc: Global, command: Command<'a>) -> Result<Command<'a>, AllocError>
    ensures { IfOk result (λ c. app_of c ≡ with_rules (app_of command.entry) rule_rules) }
{
    let rule = "Check RULE, as 'src/*.c must not reach net/**', without RULES (repeatable)";
    let rules = "File with rules, one a line; `-` is standard input";
    let baseline = "Take as removed the directives that FILE names, each by a line PATH:NAME";
    let written = "Write such a FILE, with the directives that break rules now";
    command
        .arg(repeated_option(alloc, "undefined", "NAME", UNDEFINED_HELP))?
        .arg(option(alloc, "format", "FORMAT", RULE_FORMAT_HELP))?
        .arg(option(alloc, "baseline", "FILE", baseline))?
        .arg(option(alloc, "write-baseline", "FILE", written))?
        .arg(repeated(alloc, 'e', "rule", "RULE", rule))?
        .arg(optional_word(alloc, "RULES", rules))
}

/// Adds what names the sources and the groups of headers, which need not be named, what no build defines, the format of the answer, and how
/// much is printed.
fn with_cost_words<'a>(alloc: Global, command: Command<'a>) -> Result<Command<'a>, AllocError>
    ensures { IfOk result (λ c. app_of c ≡ with_rules (app_of command.entry) cost_rules) }
{
    let top = "Print the first N headers and the first N directives [default: 20]";
    let of = "Print the tree of this source, with what comes in through each file";
    command
        .arg(repeated_option(alloc, "undefined", "NAME", UNDEFINED_HELP))?
        .arg(option(alloc, "format", "FORMAT", COST_FORMAT_HELP))?
        .arg(option(alloc, "top", "N", top))?
        .arg(option(alloc, "of", "SOURCE", of))?
        .arg(repeated_option(alloc, "from", "GLOB", SOURCES_HELP))?
        .arg(repeated_option(alloc, "to", "GLOB", GROUP_HELP))
}

fn scan<'a>(alloc: Global) -> Result<Command<'a>, AllocError>
    ensures { IfOk result (λ c. app_of c ≡ line.scan) }
{
    let command = started(
        alloc,
        "scan",
        "List the include directives of a file",
        SCAN_NOTES,
    )?;
    command
        .arg(option(alloc, "format", "FORMAT", SCAN_FORMAT_HELP))?
        .arg(path(alloc))
}

fn why<'a>(alloc: Global) -> Result<Command<'a>, AllocError>
    ensures { IfOk result (λ c. app_of c ≡ line.why) }
{
    let command = started(
        alloc,
        "why",
        "Explain why a source includes a header",
        WHY_NOTES,
    )?;
    let command = with_strict(alloc, with_dropped(alloc, command)?)?;
    let command = with_reach(alloc, with_notes(alloc, command)?)?;
    with_ends(alloc, with_format(alloc, command)?)
}

fn who<'a>(alloc: Global) -> Result<Command<'a>, AllocError>
    ensures { IfOk result (λ c. app_of c ≡ line.who) }
{
    let command = started(
        alloc,
        "who",
        "List the sources that include a header",
        WHO_NOTES,
    )?;
    let command = with_strict(alloc, with_dropped(alloc, command)?)?;
    let command = with_reach(alloc, with_notes(alloc, command)?)?;
    with_headers(alloc, with_chains(alloc, command)?)
}

fn graph<'a>(alloc: Global) -> Result<Command<'a>, AllocError>
    ensures { IfOk result (λ c. app_of c ≡ line.graph) }
{
    let command = started(
        alloc,
        "graph",
        "List all includes that sources reach",
        GRAPH_NOTES,
    )?;
    let command = with_strict(alloc, with_dropped(alloc, command)?)?;
    with_sources(alloc, with_notes(alloc, command)?)
}

fn rules<'a>(alloc: Global) -> Result<Command<'a>, AllocError>
    ensures { IfOk result (λ c. app_of c ≡ line.rules) }
{
    let command = started(
        alloc,
        "rules",
        "Check rules on what files may and must include",
        RULES_NOTES,
    )?;
    let command = with_strict(alloc, with_dropped(alloc, command)?)?;
    with_rule_words(alloc, with_notes(alloc, command)?)
}

fn cost<'a>(alloc: Global) -> Result<Command<'a>, AllocError>
    ensures { IfOk result (λ c. app_of c ≡ line.cost) }
{
    let command = started(
        alloc,
        "cost",
        "List the headers and includes that bring most into the sources",
        COST_NOTES,
    )?;
    let command = with_strict(alloc, with_dropped(alloc, command)?)?;
    with_cost_words(alloc, with_notes(alloc, command)?)
}

fn cut<'a>(alloc: Global) -> Result<Command<'a>, AllocError>
    ensures { IfOk result (λ c. app_of c ≡ line.cut) }
{
    let about =
        "Find the fewest include directives to remove so that a source no longer includes a header";
    let command = started(alloc, "cut", about, CUT_NOTES)?;
    let command = with_strict(alloc, with_dropped(alloc, command)?)?;
    let command = with_limits(alloc, with_notes(alloc, command)?)?;
    with_ends(alloc, with_forms(alloc, command)?)
}

fn check<'a>(alloc: Global) -> Result<Command<'a>, AllocError>
    ensures { IfOk result (λ c. app_of c ≡ line.check) }
{
    let command = started(
        alloc,
        "check",
        "Check the output of `incut cut`",
        CHECK_NOTES,
    )?;
    let command = with_strict(alloc, with_dropped(alloc, command)?)?;
    let command = with_limits(alloc, with_notes(alloc, command)?)?;
    let help = "File with the output of `incut cut`; `-` is standard input";
    let command = command.arg(word(alloc, "CERT", help))?;
    with_ends(alloc, command)
}

fn pp<'a>(alloc: Global) -> Result<Command<'a>, AllocError>
    ensures { IfOk result (λ c. app_of c ≡ line.pp) }
{
    let command = started(alloc, "pp", "Preprocess sources", PP_NOTES)?;
    let command = with_notes(alloc, with_files(alloc, command)?)?;
    let command = with_macros(alloc, command)?;
    let command = with_bounds(alloc, command)?;
    with_outputs(alloc, command)?.arg(sources(alloc))
}

/// The program without its commands.
fn program<'a>(alloc: Global) -> Result<Command<'a>, AllocError>
    ensures { IfOk result (λ c. app_of c ≡ line.program) }
{
    Command::new(alloc, "incut")
        .version(VERSION)
        .about(ABOUT)
        .after_help(EXAMPLES)
        .arg(flag(alloc, "extended", EXTENDED_HELP))?
        .arg(flag(alloc, "gnu", GNU_HELP))
}

/// Adds the commands that tell what sources include.
fn with_views<'a>(alloc: Global, program: Command<'a>) -> Result<Command<'a>, AllocError>
    ensures { IfOk result (λ c. app_of c ≡ line.with_views (app_of program.entry)) }
{
    program
        .subcommand(scan(alloc)?)?
        .subcommand(why(alloc)?)?
        .subcommand(who(alloc)?)?
        .subcommand(graph(alloc)?)
}

/// Adds the commands that look at all that sources include.
fn with_surveys<'a>(alloc: Global, program: Command<'a>) -> Result<Command<'a>, AllocError>
    ensures { IfOk result (λ c. app_of c ≡ line.with_surveys (app_of program.entry)) }
{
    program.subcommand(rules(alloc)?)?.subcommand(cost(alloc)?)
}

/// Adds the commands that tell what to edit, check it, and preprocess.
fn with_edits<'a>(alloc: Global, program: Command<'a>) -> Result<Command<'a>, AllocError>
    ensures { IfOk result (λ c. app_of c ≡ line.with_edits (app_of program.entry)) }
{
    program
        .subcommand(cut(alloc)?)?
        .subcommand(check(alloc)?)?
        .subcommand(pp(alloc)?)
}

/// The program with its commands.
pub(crate) fn incut<'a>(alloc: Global) -> Result<Command<'a>, AllocError>
    ensures { IfOk result (λ c. app_of c ≡ incut) }
{
    // One part after the other, so that the stack has the commands of one alone.
    let command = with_views(alloc, program(alloc)?)?;
    let command = with_surveys(alloc, command)?;
    with_edits(alloc, command)
}
