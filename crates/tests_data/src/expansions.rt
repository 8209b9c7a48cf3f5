//! Answers for macro expansion.
use crate::escapes::{add_source_line, bytes_of};
use crate::macros::{define, no_macros};
use crate::printing::add_printed;
use inc_expand::{Budget, Item, Mode, Place, expand};
use inc_macro::Macros;
use inc_text::{Language, splice};
use inc_token::{Lines, Token, lex};
use std::alloc::Global;
use tests_parts::{Stop, add, add_number, refusing};

/// What is printed of an expansion.
#[derive(Clone, Copy)]
enum Printed {
    /// Its tokens.
    Tokens,
    /// The units of work that it takes.
    Cost,
}

/// What is asked of texts.
#[derive(Clone, Copy)]
pub struct Asked {
    language: Language,
    mode: Mode,
    printed: Printed,
}

/// What they expand to.
pub const TEXT: Asked = Asked {
    language: Language::C17,
    mode: Mode::Plain,
    printed: Printed::Tokens,
};

/// What they expand to in GNU C.
pub const GNU_TEXT: Asked = Asked {
    language: Language::Gnu,
    mode: Mode::Plain,
    printed: Printed::Tokens,
};

/// What they expand to as controlling expressions.
pub const CONDITION: Asked = Asked {
    language: Language::C17,
    mode: Mode::Condition,
    printed: Printed::Tokens,
};

/// What their expansion costs.
pub const COST: Asked = Asked {
    language: Language::C17,
    mode: Mode::Plain,
    printed: Printed::Cost,
};

/// Adds what the texts of an example expand to, or what that costs. Lines that begin with `#define` are definitions, and one that begins with `--` begins another text.
pub fn add_expansions(
    alloc: Global,
    example: &str,
    asked: &Asked,
    out: &mut Vec<u8>,
) -> Result<(), Stop> {
    for lines in example.split("\n--") {
        add_expansion(alloc, example, lines, asked, out)?;
    }
    Ok(())
}

/// Adds what the text among lines of an example expands to, or what that costs.
fn add_expansion(
    alloc: Global,
    example: &str,
    lines: &str,
    asked: &Asked,
    out: &mut Vec<u8>,
) -> Result<(), Stop> {
    let macros = macros_of(alloc, example, asked.language)?;
    let Ok(text) = splice(alloc, &text_of(alloc, lines)?, asked.language) else {
        return Err(Stop);
    };
    let Ok(lines) = lex(alloc, &text, asked.language) else {
        return Err(Stop);
    };
    let tokens = tokens_of(alloc, &lines)?;
    expand_tokens(alloc, &tokens, &macros, asked, out)
}

/// The macros that an example defines.
fn macros_of(alloc: Global, example: &str, language: Language) -> Result<Macros, Stop> {
    let mut macros = no_macros(alloc, language)?;
    for line in example.split('\n') {
        if let Some(text) = line.strip_prefix("#define ") {
            if define(alloc, &mut macros, &bytes_of(alloc, text)?)?.is_err() {
                return Err(Stop);
            }
        }
    }
    Ok(macros)
}

/// The text among lines, of which the first is only the head.
fn text_of(alloc: Global, lines: &str) -> Result<Vec<u8>, Stop> {
    let mut text = Vec::new(alloc);
    for line in lines.split('\n').skip(1) {
        if !line.starts_with("#define ") {
            add_source_line(alloc, line, &mut text)?;
        }
    }
    Ok(text)
}

/// The tokens of all lines.
fn tokens_of<'a>(alloc: Global, lines: &Lines<'a>) -> Result<Vec<Token<'a>>, Stop> {
    let mut all = Vec::new(alloc);
    for i in 0..lines.count() {
        add_line(&mut all, lines.line(i))?;
    }
    Ok(all)
}

/// Adds the tokens of a line to others. A new-line between them is white space.
fn add_line<'a>(all: &mut Vec<Token<'a>>, line: &[Token<'a>]) -> Result<(), Stop> {
    let mut follows = all.len() > 0;
    for token in line {
        let mut token = *token;
        token.space = token.space || follows;
        follows = false;
        all.push(token)?;
    }
    Ok(())
}

/// A budget of which nothing is spent.
fn full_budget(alloc: Global) -> Result<Budget, Stop> {
    let _refusing = refusing(alloc)?;
    Ok(Budget::new())
}

/// Adds what tokens expand to, or what that costs, or the fault.
fn expand_tokens<'a>(
    alloc: Global,
    tokens: &[Token<'a>],
    macros: &'a Macros,
    asked: &Asked,
    out: &mut Vec<u8>,
) -> Result<(), Stop> {
    let place = Place {
        name: b"\"m.c\"",
        base: b"m.c",
        shift: 10,
        level: 0,
        is_system: false,
        date: *b"Jan  1 1970",
        time: *b"00:00:00",
        timestamp: *b"Thu Jan  1 00:00:00 1970",
    };
    let mut budget = full_budget(alloc)?;
    match expand(alloc, tokens, macros, 5, asked.mode, &place, &mut budget) {
        Err(fault) => add(out, format!(in alloc; "{fault}\n")?.as_bytes()),
        Ok(items) => {
            let _refusing = refusing(alloc)?;
            match asked.printed {
                Printed::Tokens => add_items(&items, out),
                Printed::Cost => {
                    let cost = 4_000_000_u32.saturating_sub(budget.left());
                    add_number(out, cost as usize, b"\n")
                }
            }
        }
    }
}

/// Adds the spellings of tokens, with a space where white space is before one.
fn add_items(items: &[Item<'_>], out: &mut Vec<u8>) -> Result<(), Stop> {
    for item in items {
        add(out, if item.space { b" " } else { b"" })?;
        add_printed(out, item.spelling.bytes())?;
    }
    add(out, b"\n")
}
