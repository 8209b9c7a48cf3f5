//! Answers for classes of tokens and for the macro table.
use crate::escapes::bytes_of;
use crate::lines::class;
use crate::printing::add_printed;
use inc_macro::{DefineFault, Definition, Macros, Role};
use inc_text::{Language, splice};
use inc_token::{kind_of, lex};
use std::alloc::Global;
use tests_parts::{Stop, add, add_number, refusing, split_word};

/// Adds, for each line, the class in which the whole of its bytes lies.
pub fn add_classes(
    alloc: Global,
    example: &str,
    language: Language,
    out: &mut Vec<u8>,
) -> Result<(), Stop> {
    for line in example.split('\n').skip(1) {
        let bytes = bytes_of(alloc, line)?;
        let _refusing = refusing(alloc)?;
        match kind_of(language, &bytes) {
            Some(kind) => add(out, class(kind))?,
            None => add(out, b"none")?,
        }
        add(out, b"\n")?;
    }
    Ok(())
}

/// Adds what the lines of an example make of a table, which is empty at first, and what they ask of it.
pub fn add_macros(
    alloc: Global,
    example: &str,
    language: Language,
    out: &mut Vec<u8>,
) -> Result<(), Stop> {
    let mut macros = no_macros(alloc, language)?;
    for line in example.split('\n').skip(1) {
        let (word, text) = split_word(line);
        add_turn(alloc, &mut macros, word, &bytes_of(alloc, text)?, out)?;
    }
    Ok(())
}

/// An empty table.
pub fn no_macros(alloc: Global, language: Language) -> Result<Macros, Stop> {
    let _refusing = refusing(alloc)?;
    Ok(Macros::new(alloc, 7, language))
}

fn add_turn(
    alloc: Global,
    macros: &mut Macros,
    word: &str,
    text: &[u8],
    out: &mut Vec<u8>,
) -> Result<(), Stop> {
    match word {
        "define" => add_defined(alloc, define(alloc, macros, text)?, out),
        "word" => add_defined(alloc, macros.define_word(text), out),
        "undef" => add_removed(alloc, undef(alloc, macros, text)?, out),
        _ => add_question(alloc, macros, word, text, out),
    }
}

/// Adds what a table says.
fn add_question(
    alloc: Global,
    macros: &Macros,
    word: &str,
    text: &[u8],
    out: &mut Vec<u8>,
) -> Result<(), Stop> {
    let _refusing = refusing(alloc)?;
    match word {
        "is" => add(
            out,
            if macros.is_defined(text) {
                b"yes\n"
            } else {
                b"no\n"
            },
        ),
        "roles" => add_roles(macros.get(text), out),
        "count" => add_number(out, macros.len(), b"\n"),
        _ => Err(Stop),
    }
}

/// Defines a macro by the text after `define`.
pub fn define(
    alloc: Global,
    macros: &mut Macros,
    text: &[u8],
) -> Result<Result<(), DefineFault>, Stop> {
    let language = macros.language();
    let Ok(text) = splice(alloc, text, language) else {
        return Err(Stop);
    };
    let Ok(lines) = lex(alloc, &text, language) else {
        return Err(Stop);
    };
    if lines.count() == 0 {
        return Ok(macros.define(&[]));
    }
    Ok(macros.define(lines.line(0)))
}

/// Removes a definition by the text after `undef`.
fn undef(
    alloc: Global,
    macros: &mut Macros,
    text: &[u8],
) -> Result<Result<bool, DefineFault>, Stop> {
    let language = macros.language();
    let Ok(text) = splice(alloc, text, language) else {
        return Err(Stop);
    };
    let Ok(lines) = lex(alloc, &text, language) else {
        return Err(Stop);
    };
    let _refusing = refusing(alloc)?;
    if lines.count() == 0 {
        return Ok(macros.undef(&[]));
    }
    Ok(macros.undef(lines.line(0)))
}

fn add_defined(
    alloc: Global,
    answer: Result<(), DefineFault>,
    out: &mut Vec<u8>,
) -> Result<(), Stop> {
    match answer {
        Ok(()) => add(out, b"defined\n"),
        Err(fault) => add(out, format!(in alloc; "{fault}\n")?.as_bytes()),
    }
}

fn add_removed(
    alloc: Global,
    answer: Result<bool, DefineFault>,
    out: &mut Vec<u8>,
) -> Result<(), Stop> {
    match answer {
        Ok(true) => add(out, b"removed\n"),
        Ok(false) => add(out, b"not defined\n"),
        Err(fault) => add_defined(alloc, Err(fault), out),
    }
}

/// Adds the tokens of a body: the role and the spelling of each, after `_` where white space is before it.
fn add_roles(definition: Option<&Definition>, out: &mut Vec<u8>) -> Result<(), Stop> {
    let Some(definition) = definition else {
        return add(out, b"none\n");
    };
    for i in 0..definition.body_len() {
        add(out, if definition.space(i) { b"_" } else { b" " })?;
        add_role(definition.role(i), out)?;
        add_printed(out, definition.spelling(i))?;
    }
    add(out, b"\n")
}

fn add_role(role: Role, out: &mut Vec<u8>) -> Result<(), Stop> {
    match role {
        Role::Itself => add(out, b"=:"),
        Role::Paste => add(out, b"P:"),
        Role::Hash => add(out, b"H:"),
        Role::AsWritten(n) => {
            add(out, b"w")?;
            add_number(out, n as usize, b":")
        }
        Role::Expanded(n) => {
            add(out, b"e")?;
            add_number(out, n as usize, b":")
        }
        Role::Comma(n) => {
            add(out, b"c")?;
            add_number(out, n as usize, b":")
        }
        Role::Optional(n) => {
            add(out, b"o")?;
            add_number(out, n as usize, b":")
        }
        Role::Nothing => add(out, b"-:"),
    }
}
