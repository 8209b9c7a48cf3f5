//! Answers for the lines of tokens of a source.
ghost use Rattle.std.specs.Prelude.{◌==◌};

use crate::printing::{add_both, add_fault, add_printed};
use crate::texts::add_place;
use inc_directive::{
    DirectiveKind, FileFault, FileLines, LineKind, Plan, Target, balance, classify,
};
use inc_text::{Language, splice};
use inc_token::{IncludeName, Kind, Lines, Token};
use std::alloc::Global;
use tests_parts::{Stop, add, add_number, refusing};

/// So many bytes an answer in one language needs that is short.
const SHORT_ROOM: usize = 4_096;

/// Adds the tokens of each line.
pub fn add_tokens(lines: &Lines<'_>, out: &mut Vec<u8>) -> Result<(), Stop> {
    for i in 0..lines.count() {
        add_line(lines.line(i), out)?;
    }
    Ok(())
}

fn add_line(line: &[Token<'_>], out: &mut Vec<u8>) -> Result<(), Stop> {
    for token in line {
        add(out, if token.space { b"_" } else { b" " })?;
        add(out, class(token.kind))?;
        add(out, b":")?;
        add_printed(out, token.spelling)?;
    }
    add(out, b"\n")
}

/// The class of a token in a letter.
pub fn class(kind: Kind) -> &'static [u8] {
    match kind {
        Kind::HeaderName => b"h",
        Kind::Identifier => b"i",
        Kind::Number => b"n",
        Kind::Char => b"c",
        Kind::Str => b"s",
        Kind::Punct => b"p",
        Kind::Other => b"o",
    }
}

/// Adds how many tokens each line has.
pub fn add_token_count(lines: &Lines<'_>, out: &mut Vec<u8>) -> Result<(), Stop> {
    for i in 0..lines.count() {
        add_number(out, lines.line(i).len(), b"\n")?;
    }
    Ok(())
}

/// Adds the places of the tokens of each line, and the line that it ends on.
pub fn add_token_places(lines: &Lines<'_>, out: &mut Vec<u8>) -> Result<(), Stop> {
    for i in 0..lines.count() {
        add_places_in(lines.line(i), out)?;
        add(out, b" to line ")?;
        add_number(out, lines.last_line(i) as usize, b"\n")?;
    }
    Ok(())
}

fn add_places_in(line: &[Token<'_>], out: &mut Vec<u8>) -> Result<(), Stop> {
    for token in line {
        add_place(out, token.first, token.last, token.line)?;
    }
    Ok(())
}

/// Adds the kinds of the lines.
pub fn add_kinds(alloc: Global, lines: &Lines<'_>, out: &mut Vec<u8>) -> Result<(), Stop> {
    let c17 = kinds_in(alloc, lines, Language::C17)?;
    let extended = kinds_in(alloc, lines, Language::Extended)?;
    add_both(out, &c17, &extended)
}

/// The kinds of the lines in a language.
fn kinds_in(alloc: Global, lines: &Lines<'_>, language: Language) -> Result<Vec<u8>, Stop> {
    let mut out = Vec::with_capacity(alloc, SHORT_ROOM)?;
    let _refusing = refusing(alloc)?;
    for i in 0..lines.count() {
        add_kind(&mut out, &classify(lines.line(i), language))?;
    }
    Ok(out)
}

/// Adds the kind of a line, and the target of an include directive.
pub fn add_kind(out: &mut Vec<u8>, kind: &LineKind<'_>) -> Result<(), Stop> {
    add(out, name_of(kind))?;
    if let LineKind::Include(_, target) = kind {
        add_target(out, target)?;
    }
    add(out, b"\n")
}

fn name_of(kind: &LineKind<'_>) -> &'static [u8] {
    match *kind {
        LineKind::Text => b"text",
        LineKind::Include(IncludeName::Include, _) => b"include",
        LineKind::Include(IncludeName::IncludeNext, _) => b"include_next",
        LineKind::Include(IncludeName::Import, _) => b"import",
        LineKind::Other(directive) => other_name(directive),
    }
}

fn other_name(directive: DirectiveKind) -> &'static [u8] {
    match directive {
        DirectiveKind::If => b"if",
        DirectiveKind::Ifdef => b"ifdef",
        DirectiveKind::Ifndef => b"ifndef",
        DirectiveKind::Elif => b"elif",
        DirectiveKind::Elifdef => b"elifdef",
        DirectiveKind::Elifndef => b"elifndef",
        DirectiveKind::Else => b"else",
        DirectiveKind::Endif => b"endif",
        DirectiveKind::Define => b"define",
        DirectiveKind::Undef => b"undef",
        DirectiveKind::Line => b"line",
        DirectiveKind::Error => b"error",
        DirectiveKind::Warning => b"warning",
        DirectiveKind::Pragma => b"pragma",
        DirectiveKind::Ident => b"ident",
        DirectiveKind::Null => b"null",
        DirectiveKind::Foreign => b"foreign",
        DirectiveKind::Unknown => b"unknown",
    }
}

/// Adds what is after the name of an include directive.
fn add_target(out: &mut Vec<u8>, target: &Target<'_>) -> Result<(), Stop> {
    match *target {
        Target::Quoted(name) => {
            add(out, b" quoted ")?;
            add_printed(out, name)
        }
        Target::Angled(name) => {
            add(out, b" angled ")?;
            add_printed(out, name)
        }
        Target::ByName(name) => {
            add(out, b" by name ")?;
            add_printed(out, name)
        }
        Target::Computed => add(out, b" computed"),
        Target::Nothing => add(out, b" nothing"),
    }
}

/// The lines of a source that has lines of tokens, without the include directives on these physical lines.
fn file_of(
    alloc: Global,
    source: &[u8],
    language: Language,
    removed: &[u32],
) -> Result<FileLines, Stop> {
    let Ok(text) = splice(alloc, source, language) else {
        return Err(Stop);
    };
    match FileLines::new(alloc, text, language, removed) {
        Ok(file) => Ok(file),
        Err(_) => Err(Stop),
    }
}

/// Adds where the branches lead, or the fault of the groups.
pub fn add_links(
    alloc: Global,
    source: &[u8],
    lines: &Lines<'_>,
    out: &mut Vec<u8>,
) -> Result<(), Stop> {
    let c17 = links_in(alloc, source, lines, Language::C17)?;
    let extended = links_in(alloc, source, lines, Language::Extended)?;
    add_both(out, &c17, &extended)
}

/// Where the branches lead in a language, or the fault of the groups.
fn links_in(
    alloc: Global,
    source: &[u8],
    lines: &Lines<'_>,
    language: Language,
) -> Result<Vec<u8>, Stop> {
    let mut out = Vec::with_capacity(alloc, SHORT_ROOM)?;
    let file = file_of(alloc, source, language, &[])?;
    match balance(alloc, &file) {
        Err(fault) => add_fault(alloc, &mut out, FileFault::from(fault))?,
        Ok(plan) => {
            let _refusing = refusing(alloc)?;
            for part in 0..file.count() {
                add_link(&file, lines, &plan, part, &mut out)?;
            }
        }
    }
    Ok(out)
}

/// Adds the line of a part, and those of the next branch and of the end that it leads to.
fn add_link(
    file: &FileLines,
    lines: &Lines<'_>,
    plan: &Plan,
    part: usize,
    out: &mut Vec<u8>,
) -> Result<(), Stop> {
    if let Some(branch) = plan.branch(part) {
        add_number(out, line_of(file, lines, part)?, b" > ")?;
        add_number(out, line_of(file, lines, branch)?, b", ")?;
    }
    if let Some(end) = plan.end(part) {
        add_number(out, line_of(file, lines, end)?, b"\n")?;
    }
    Ok(())
}

/// The line of a part that has a token, among all lines of the file, counted from 0.
fn line_of(file: &FileLines, lines: &Lines<'_>, part: usize) -> Result<usize, Stop> {
    let line = file.first_line(part);
    for i in 0..lines.count() {
        if let Some(first) = lines.line(i).first() {
            if first.line == line {
                return Ok(i);
            }
        }
    }
    Err(Stop)
}

/// Adds where the first line leads, and the last one of the first half. Each is a part.
pub fn add_outer_links(
    alloc: Global,
    source: &[u8],
    lines: &Lines<'_>,
    out: &mut Vec<u8>,
) -> Result<(), Stop> {
    let file = file_of(alloc, source, Language::C17, &[])?;
    match balance(alloc, &file) {
        Err(fault) => add_fault(alloc, out, FileFault::from(fault)),
        Ok(plan) => {
            let last = (file.count() / 2).saturating_sub(1);
            add_link(&file, lines, &plan, 0, out)?;
            add_link(&file, lines, &plan, last, out)
        }
    }
}

/// Adds the first run of text lines as it is taken in once the directive on a line is removed: each token, after a space where it has one.
pub fn add_first_run(
    alloc: Global,
    source: &[u8],
    line: u32,
    out: &mut Vec<u8>,
) -> Result<(), Stop> {
    let file = file_of(alloc, source, Language::C17, &[line])?;
    let end = file.run_end(0);
    for token in file.run(alloc, 0, end)?.as_slice() {
        add(out, if token.space { b" " } else { b"" })?;
        add_printed(out, token.spelling)?;
    }
    add(out, b"\n")
}
