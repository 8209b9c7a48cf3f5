//! The program of `bench/expand`: defines and expands what a C file on standard input holds, and prints the tokens. Of directives
//! it knows `#define` and `#undef`; others are skipped, and so are those that are refused.
#![tactic(auto)]

ghost use Rattle.std.specs.Prelude.{◌≤◌, length};

use inc_directive::{DirectiveKind, LineKind, classify};
use inc_expand::{Budget, Item, Mode, Place, expand};
use inc_macro::Macros;
use inc_text::{Language, Reading, Writing, read_file, splice_owned, write_whole};
use inc_token::{Lines, Token, lex};
use std::alloc::Global;
use std::io;
use std::process::ExitCode;

/// How many bytes are printed at a time.
const PIECE_LEN: usize = 65_536;

/// A run of so many lines of text and more is expanded once a line ends in `;` or `}`, so that its budget serves for it.
const FEWEST_LINES: usize = 8;

/// Why the program ends before its input does.
#[derive(Clone, Copy)]
struct Stop;

fn main(rt: HostRuntime) -> ExitCode {
    match run(&rt) {
        Ok(()) => ExitCode::from(0),
        Err(_) => ExitCode::from(1),
    }
}

fn run(rt: &HostRuntime) -> Result<(), Stop> {
    let alloc = rt.alloc();
    let Ok(source) = read_file(alloc, &mut Reading::new(rt.reader()), 0) else {
        return Err(Stop);
    };
    let Ok(text) = splice_owned(alloc, source, Language::C17) else {
        return Err(Stop);
    };
    let Ok(lines) = lex(alloc, &text, Language::C17) else {
        return Err(Stop);
    };
    let mut out = Vec::new(alloc);
    let mut macros = Macros::new(alloc, 1, Language::C17);
    let mut begun = 0;
    for at in 0..lines.count() {
        let line = lines.line(at);
        let is_text = matches!(classify(line, Language::C17), LineKind::Text);
        if is_text && (at.saturating_sub(begun) < FEWEST_LINES || !ends_statement(line)) {
            continue;
        }
        let end = if is_text { at + 1 } else { at };
        expand_lines(alloc, &lines, begun, end, &macros, &mut out)?;
        begun = at + 1;
        take_directive(line, &mut macros);
        if out.len() > PIECE_LEN {
            print(rt, &mut out)?;
        }
    }
    expand_lines(alloc, &lines, begun, lines.count(), &macros, &mut out)?;
    print(rt, &mut out)
}

/// Whether a line ends in `;` or `}`.
fn ends_statement(line: &[Token<'_>]) -> bool {
    match line.last() {
        Some(last) => last.spelling == b";".as_slice() || last.spelling == b"}".as_slice(),
        None => false,
    }
}

/// Defines or undefines a macro.
fn take_directive(line: &[Token<'_>], macros: &mut Macros) {
    let operands = &line[line.len().min(2)..];
    match classify(line, Language::C17) {
        LineKind::Other(DirectiveKind::Define) => {
            let _ = macros.define(operands);
        }
        LineKind::Other(DirectiveKind::Undef) => {
            let _ = macros.undef(operands);
        }
        _ => {}
    }
}

/// Expands lines of text.
fn expand_lines(
    alloc: Global,
    lines: &Lines<'_>,
    from: usize,
    end: usize,
    macros: &Macros,
    out: &mut Vec<u8>,
) -> Result<(), Stop>
    requires { end ≤ length lines.now }
{
    let mut tokens = Vec::new(alloc);
    for at in from..end {
        add_line(&mut tokens, lines.line(at))?;
    }
    if tokens.is_empty() {
        return Ok(());
    }
    expand_tokens(alloc, &tokens, macros, out)
}

/// Adds the tokens of a line, lent for as long as the macros are.
fn add_line<'a>(tokens: &mut Vec<Token<'a>>, line: &[Token<'a>]) -> Result<(), Stop> {
    for token in line {
        let token = Token {
            spelling: token.spelling,
            first: token.first,
            last: token.last,
            line: token.line,
            kind: token.kind,
            space: token.space,
        };
        if tokens.push(token).is_err() {
            return Err(Stop);
        }
    }
    Ok(())
}

/// Expands tokens.
fn expand_tokens<'a>(
    alloc: Global,
    tokens: &[Token<'a>],
    macros: &'a Macros,
    out: &mut Vec<u8>,
) -> Result<(), Stop> {
    let place = Place {
        name: b"\"-\"",
        base: b"-",
        shift: 0,
        level: 0,
        is_system: false,
        date: *b"Jan  1 1970",
        time: *b"00:00:00",
        timestamp: *b"Thu Jan  1 00:00:00 1970",
    };
    let mut budget = Budget::new();
    match expand(alloc, tokens, macros, 5, Mode::Plain, &place, &mut budget) {
        Ok(items) => write_items(&items, out),
        Err(_) => Err(Stop),
    }
}

/// Writes the tokens of a run of lines, each physical line on one of its own.
fn write_items(items: &[Item<'_>], out: &mut Vec<u8>) -> Result<(), Stop> {
    let mut line = 0;
    for item in items {
        let gap: &[u8] = if line != 0 && item.line != line {
            b"\n"
        } else if line != 0 && item.space {
            b" "
        } else {
            b""
        };
        line = item.line;
        let written = out.extend_from_slice(gap).is_ok()
            && out.extend_from_slice(item.spelling.bytes()).is_ok();
        if !written {
            return Err(Stop);
        }
    }
    if line != 0 && out.push(b'\n').is_err() {
        return Err(Stop);
    }
    Ok(())
}

/// Prints what waits.
fn print(rt: &HostRuntime, out: &mut Vec<u8>) -> Result<(), Stop> {
    let written = write_whole(&mut Writing::new(io::writer(rt)), out);
    out.clear();
    match written {
        Ok(()) => Ok(()),
        Err(_) => Err(Stop),
    }
}
