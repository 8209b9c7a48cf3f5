//! The kinds of examples, and the call that each is for.
//!
//! | Kind | The lines | The answer |
//! |---|---|---|
//! | `text`, `length` | a source | its text after phases 1 and 2; how long that is |
//! | `places` | a source | of each byte of its text the source bytes, from the first to the one after the last, and their line: as the text gives them, as a cursor does that goes forward, and those of the first byte as a cursor gives them that comes back |
//! | `tokens` | a source | the tokens of each line: class and spelling, after `_` where white space is before it. Classes are `h` header name, `i` identifier, `n` number, `c` character constant, `s` string literal, `p` punctuator, `o` other |
//! | `text of GNU C`, `tokens of GNU C`, `classes of GNU C` | as for C17 | the same of a source, or of bytes, of GNU C |
//! | `number of tokens`, `places of tokens` | a source | of each line how many it has; where they are, as for `places`, and the line that it ends on |
//! | `prefixes`, `shifted prefixes` | a source | of each directive its line, its name, and after `include` one token; the same of the source after 1, 2 .. 39 letters |
//! | `kinds`, `directives` | a source | the kind of each line; of each directive its line and kind |
//! | `directives of GNU C` | a source | the same of a source of GNU C, by the names of those that include |
//! | `links`, `outer and inner links` | a source | of each line that opens a section or a branch the lines of the next branch and of the end, counted from 0; of the first line and of the last one of the first half |
//! | `run without line N` | a source | the first run of text lines, once the directive on line N is removed |
//! | `classes` | bytes | the class in which the whole of them lies, or `none` |
//! | `macros` | what is done to a table or asked of it: `define TEXT`, `word TEXT` as of the command line, `undef TEXT`, `is NAME`, `roles NAME`, `count` | of each line what it gives; of roles those of the body's tokens: `=` itself, `P` and `H` the operators, `w0` and `e0` the first parameter as written and expanded |
//! | `macros of GNU C` | the same | the same of a table of GNU C |
//! | `expansion`, `condition`, `cost` | definitions, `#define TEXT`, and texts, between which a line begins with `--`; the number of a line is 10 more | the tokens of its expansion, as text or as a condition; the units of work that it takes |
//! | `expansion in GNU C` | the same | the tokens of its expansion as text of GNU C |
//! | `normal forms` | paths | the normal form of each, `itself` where the path is one, or `none` |
//! | `project` | `file PATH` and `dir PATH` for its files and search directories, and questions: `at PLACE`, `path PATH`, `quoted PLACE NAME` and `angled PLACE NAME` for an include of the file at a place | of each question the place and path of the file, or `none` |
//! | `held file` | what it holds | how many bytes are read |
//! | `graph` | `@PATH` for each file, and what it holds | the graph of `m.c` and `t.h` with the search directories `inc`, `two` and `three`, files and edges by their numbers |
//! | `graph of GNU C` | the same | the same of files of GNU C |
//! | `graph of two include paths`, `.. of GNU C` | the same | the graph of `m.c` with these search directories and of `n.c`, or `m.c` again, with `four` and `inc`, and of `t.h` |
//! | `marks` | `LINE PATH` | the mark of these, or `none` |
//! | `out of memory` | none | the message of that fault |
//!
//! In place of an answer there may be a fault. Where the extended language gives another answer than C17, it follows after `extended:`.
use crate::escapes::source_of;
use crate::expansions::{CONDITION, COST, GNU_TEXT, TEXT, add_expansions};
use crate::graphs::{add_graph, add_marks, add_two_paths};
use crate::lines::{
    add_first_run, add_kinds, add_links, add_outer_links, add_token_count, add_token_places,
    add_tokens,
};
use crate::lookups::{add_forms, add_held, add_project};
use crate::macros::{add_classes, add_macros};
use crate::printing::{add_fault, add_printed};
use crate::texts::{add_directives, add_gnu_directives, add_places, add_prefixes, add_shifted};
use inc_directive::FileFault;
use inc_text::{Language, Text, TextFault, splice};
use inc_token::{Lines, lex};
use std::alloc::Global;
use tests_parts::{Stop, add, add_number, refusing};

/// Adds the answer of an example.
pub fn add_answer(alloc: Global, example: &str, out: &mut Vec<u8>) -> Result<(), Stop> {
    let Some((kind, _)) = example.split_once(": ") else {
        return Err(Stop);
    };
    match kind {
        "classes" => add_classes(alloc, example, Language::C17, out),
        "classes of GNU C" => add_classes(alloc, example, Language::Gnu, out),
        "macros" => add_macros(alloc, example, Language::C17, out),
        "macros of GNU C" => add_macros(alloc, example, Language::Gnu, out),
        "expansion" => add_expansions(alloc, example, &TEXT, out),
        "expansion in GNU C" => add_expansions(alloc, example, &GNU_TEXT, out),
        "condition" => add_expansions(alloc, example, &CONDITION, out),
        "cost" => add_expansions(alloc, example, &COST, out),
        "normal forms" => add_forms(alloc, example, out),
        "project" => add_project(alloc, example, out),
        "graph" => add_graph(alloc, example, Language::C17, out),
        "graph of GNU C" => add_graph(alloc, example, Language::Gnu, out),
        "graph of two include paths" => add_two_paths(alloc, example, Language::C17, out),
        "graph of two include paths of GNU C" => add_two_paths(alloc, example, Language::Gnu, out),
        "marks" => add_marks(alloc, example, out),
        "held file" => add_held(alloc, source_of(alloc, example)?, out),
        "out of memory" => add_fault(alloc, out, FileFault::NoMemory),
        _ => add_answer_of_source(alloc, kind, &source_of(alloc, example)?, out),
    }
}

/// Adds the answer of an example whose lines are a source.
fn add_answer_of_source(
    alloc: Global,
    kind: &str,
    source: &[u8],
    out: &mut Vec<u8>,
) -> Result<(), Stop> {
    if kind == "shifted prefixes" {
        return add_shifted(alloc, source, out);
    }
    let language = language_of(kind);
    match splice(alloc, source, language) {
        Ok(text) => add_answer_of_text(alloc, kind, source, &text, out),
        Err(TextFault::TooLong) => add(out, b"too long\n"),
        Err(TextFault::NoMemory) => Err(Stop),
    }
}

/// The language of the source of an example of this kind.
fn language_of(kind: &str) -> Language {
    if kind.ends_with(" of GNU C") {
        Language::Gnu
    } else {
        Language::C17
    }
}

/// Adds the answer of an example by the text of its source.
fn add_answer_of_text(
    alloc: Global,
    kind: &str,
    source: &[u8],
    text: &Text,
    out: &mut Vec<u8>,
) -> Result<(), Stop> {
    match kind {
        "text" | "text of GNU C" => add_printed(out, text.bytes()),
        "length" => add_number(out, text.bytes().len(), b"\n"),
        "places" => add_places(alloc, text, out),
        "prefixes" => add_prefixes(alloc, text, out),
        "directives" => add_directives(alloc, source, out),
        "directives of GNU C" => add_gnu_directives(alloc, source, out),
        _ => match lex(alloc, text, language_of(kind)) {
            Ok(lines) => add_answer_of_lines(alloc, kind, source, &lines, out),
            Err(fault) => add_fault(alloc, out, FileFault::from(fault)),
        },
    }
}

/// Adds the answer of an example by its source, whose lines of tokens are these.
fn add_answer_of_lines(
    alloc: Global,
    kind: &str,
    source: &[u8],
    lines: &Lines<'_>,
    out: &mut Vec<u8>,
) -> Result<(), Stop> {
    match kind {
        "tokens" | "tokens of GNU C" => add_tokens(lines, out),
        "number of tokens" => add_token_count(lines, out),
        "places of tokens" => {
            let _refusing = refusing(alloc)?;
            add_token_places(lines, out)
        }
        "kinds" => add_kinds(alloc, lines, out),
        "links" => add_links(alloc, source, lines, out),
        "outer and inner links" => add_outer_links(alloc, source, lines, out),
        "run without line 1" => add_first_run(alloc, source, 1, out),
        "run without line 2" => add_first_run(alloc, source, 2, out),
        _ => Err(Stop),
    }
}
