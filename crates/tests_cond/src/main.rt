//! Prints what each controlling expression on standard input gives, in C17 and in the extended language. A line that is a
//! `#define` directive defines a macro for those after it. The examples are in `stdin`, what they must give is in `stdout`.
#![tactic(auto)]

ghost use Rattle.std.specs.Prelude.{◌≡◌};

use inc_cond::{CondFault, CondValue, HeaderSearch, value};
use inc_directive::{DirectiveKind, LineKind, classify};
use inc_expand::{Budget, Place};
use inc_lookup::Project;
use inc_macro::Macros;
use inc_text::{Language, splice_owned};
use inc_token::{Lines, Token, lex};
use itoa::Buffer;
use std::alloc::Global;
use std::process::ExitCode;
use tests_parts::{Stop, add, print, read_input};

fn main(rt: HostRuntime) -> ExitCode {
    match run(&rt) {
        Ok(()) => ExitCode::from(0),
        Err(_) => ExitCode::from(1),
    }
}

fn run(rt: &HostRuntime) -> Result<(), Stop> {
    let alloc = rt.alloc();
    let Ok(text) = splice_owned(alloc, read_input(rt)?, Language::C17) else {
        return Err(Stop);
    };
    let Ok(lines) = lex(alloc, &text, Language::C17) else {
        return Err(Stop);
    };
    let mut out = Vec::new(alloc);
    add_answers(alloc, &lines, &mut out)?;
    print(rt, &out)
}

/// Adds what the lines give, in a project of one file.
fn add_answers(alloc: Global, lines: &Lines<'_>, out: &mut Vec<u8>) -> Result<(), Stop> {
    let paths: [&[u8]; 1] = [b"-"];
    let Ok(project) = Project::new(alloc, 0, &paths, 0, &[]) else {
        return Err(Stop);
    };
    let Some(source) = project.at(0) else {
        return Err(Stop);
    };
    add_lines(
        alloc,
        lines,
        &HeaderSearch::new(&project, source, None),
        out,
    )
}

/// Adds what the lines give.
fn add_lines(
    alloc: Global,
    lines: &Lines<'_>,
    headers: &HeaderSearch<'_>,
    out: &mut Vec<u8>,
) -> Result<(), Stop> {
    let mut tables = Tables {
        c17: Macros::new(alloc, 1, Language::C17),
        extended: Macros::new(alloc, 1, Language::Extended),
    };
    for at in 0..lines.count() {
        let line = lines.line(at);
        if matches!(
            classify(line, Language::C17),
            LineKind::Other(DirectiveKind::Define)
        ) {
            tables.define(&line[line.len().min(2)..]);
        } else if !line.is_empty() {
            add_values(alloc, line, &tables, headers, out)?;
        }
    }
    Ok(())
}

/// The macros in each of the languages.
#[derive(Drop)]
struct Tables {
    c17: Macros,
    extended: Macros,
}

impl Tables {
    fn define(&mut self, definition: &[Token<'_>]) {
        let _ = self.c17.define(definition);
        let _ = self.extended.define(definition);
    }
}

/// Adds a line of what an expression gives in both languages.
fn add_values(
    alloc: Global,
    line: &[Token<'_>],
    tables: &Tables,
    headers: &HeaderSearch<'_>,
    out: &mut Vec<u8>,
) -> Result<(), Stop> {
    add_value_of(alloc, line, &tables.c17, headers, out)?;
    add(out, b" | ")?;
    add_value_of(alloc, line, &tables.extended, headers, out)?;
    add(out, b"\n")
}

/// Adds what an expression gives, which is the tokens of a line.
fn add_value_of(
    alloc: Global,
    line: &[Token<'_>],
    macros: &Macros,
    headers: &HeaderSearch<'_>,
    out: &mut Vec<u8>,
) -> Result<(), Stop> {
    let mut tokens = Vec::new(alloc);
    add_line(&mut tokens, line)?;
    add_value(alloc, &tokens, macros, headers, out)
}

/// Adds the tokens of a line, lent for as long as the macros are.
fn add_line<'a>(tokens: &mut Vec<Token<'a>>, line: &[Token<'a>]) -> Result<(), Stop> {
    for token in line {
        let token = Token {
            spelling: token.spelling,
            first: token.first,
            last: token.last,
            line: token.line,
            kind: token.kind,
            space: token.space,
        };
        tokens.push(token)?;
    }
    Ok(())
}

/// Adds what an expression gives.
fn add_value<'a>(
    alloc: Global,
    tokens: &[Token<'a>],
    macros: &'a Macros,
    headers: &'a HeaderSearch<'a>,
    out: &mut Vec<u8>,
) -> Result<(), Stop> {
    let place = Place {
        name: b"\"-\"",
        base: b"-",
        shift: 0,
        level: 0,
        is_system: false,
        date: *b"Jan  1 1970",
        time: *b"00:00:00",
        timestamp: *b"Thu Jan  1 00:00:00 1970",
    };
    let mut budget = Budget::new();
    let mut digits = Buffer::new();
    match value(alloc, tokens, macros, 5, &place, &mut budget, headers) {
        Ok(CondValue::Signed(number)) => add(out, digits.format(number).as_bytes()),
        Ok(CondValue::Unsigned(number)) => {
            add(out, digits.format(number).as_bytes())?;
            add(out, b"u")
        }
        Err(fault) => add(out, word_of(fault)),
    }
}

/// A fault in a word.
fn word_of(fault: CondFault) -> &'static [u8] {
    match fault {
        CondFault::Expand(_) => b"expand",
        CondFault::BadExpression => b"expression",
        CondFault::BadNumber => b"number",
        CondFault::BadCharacter => b"character",
        CondFault::TooNested => b"nested",
        CondFault::DivideByZero => b"zero",
        CondFault::BadShift => b"shift",
        CondFault::NoMemory => b"memory",
    }
}
