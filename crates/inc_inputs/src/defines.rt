//! Lists of definitions, as compilers print them.
ghost use Rattle.std.specs.Prelude.{◌≡◌, ◌≤◌, ◌+◌, ◌==◌, ◌++◌, not, ℕ, Ok, Err, IfSome, map, drop, length, slice_index, option_map, filter_map, IfOk, IfErr, OnOk};
ghost use Rattle.std.specs.List.{list_any};
ghost use Rattle.inc_check.specs.declared.read_texts.CertFault.TheVariants as fault;
ghost use Rattle.inc_inputs.specs.Defines.{name_len, parameters_len, head_len, HasHead, begins_body, is_head, begins_definition, definition_in, word_of, words_for, words_in, defined_words, described_dirs, dir_in, names_dir, IsTaken};
ghost use Rattle.inc_macro.specs.Tables.{table_of};
ghost use Rattle.inc_text.specs.Ascii.{equals, open_parenthesis};

use crate::file_lists::{PathEnd, first_end, list_paths, without_return};
use crate::questions::{begins_answer, close_len, push_answer};
use inc_check::CertFault;
use inc_macro::Macros;
use inc_text::Language;
use std::alloc::{AllocError, Global};

/// How a line of a list begins.
const START: &[u8] = b"#define ";

/// How a line begins that names a directory.
const DIR_START: &[u8] = b"dir ";

/// The words that stand for the definitions of a list, in order, each as one of the command line: `NAME=BODY` or `NAME(PARAMETERS)=BODY`.
/// Those of names that are predefined in the language are left out, since these may not be defined. Before an LF a CR is dropped, and after the last line the
/// LF is optional. A list that describes a compiler may have lines `dir PATH`, which define nothing, and lines `has NAME(ARG) NUMBER`,
/// which stand for the words of answers.
pub fn read_defines(
    alloc: Global,
    language: Language,
    is_compiler: bool,
    text: &[u8],
) -> Result<Vec<Vec<u8>>, CertFault>
    ensures words { IfOk result (λ words. defined_words language is_compiler text.now ≡ Ok (map (λ w. w.items) words.items)) }
    ensures fault { IfErr result (λ f. (line : ℕ) → f ≡ fault.Malformed line → defined_words language is_compiler text.now ≡ Err line) }
{
    // A table without definitions has the predefined names alone.
    let predefined = Macros::new(alloc, 0, language);
    defined_words(alloc, &predefined, is_compiler, text)
}

/// The directories that a list names, in order.
pub(crate) fn described_dirs<'t>(alloc: Global, text: &'t [u8]) -> Result<Vec<&'t [u8]>, AllocError>
    ensures { IfOk result (λ dirs. map (λ d. d.now) dirs.items ≡ described_dirs text.now) }
{
    let lines = list_paths(alloc, text, PathEnd::LineFeed)?;
    dirs_in(alloc, &lines)
}

/// The directories that lines name, in order.
fn dirs_in<'t>(alloc: Global, lines: &[&'t [u8]]) -> Result<Vec<&'t [u8]>, AllocError>
    ensures { IfOk result (λ dirs. map (λ d. d.now) dirs.items ≡ filter_map dir_in (map (λ l. l.now) lines.now)) }
{
    let mut dirs = Vec::new(alloc);
    let mut left = lines;
    while let [line, rest @ ..] = left {
        if let Some(dir) = dir_in(line) {
            dirs.push(dir)?;
        }
        left = rest;
    }
    Ok(dirs)
}

/// The directory that a line names.
fn dir_in(line: &[u8]) -> Option<&[u8]>
    ensures { option_map (λ d. d.now) result ≡ dir_in line.now }
{
    if !names_dir(line) {
        return None;
    }
    Some(&line[4..])
}

/// Whether a line names a directory.
fn names_dir(line: &[u8]) -> bool
    ensures { result ≡ names_dir line.now }
{
    line.len() > 4 && &line[..4] == DIR_START
}

/// The words that stand for the definitions of a list, beside a table without definitions.
fn defined_words(
    alloc: Global,
    predefined: &Macros,
    is_compiler: bool,
    text: &[u8],
) -> Result<Vec<Vec<u8>>, CertFault>
    ensures words { IfOk result (λ words. defined_words (table_of predefined.now).language is_compiler text.now ≡ Ok (map (λ w. w.items) words.items)) }
    ensures fault { IfErr result (λ f. (line : ℕ) → f ≡ fault.Malformed line →
        defined_words (table_of predefined.now).language is_compiler text.now ≡ Err line) }
{
    let mut words = Vec::new(alloc);
    let mut line = 1;
    let mut at = 0;
    while let Some(length) = first_end(&text[at..], b'\n') {
        let piece = without_return(&text[at..at + length]);
        if !push_line(alloc, &mut words, predefined, is_compiler, piece)? {
            return Err(CertFault::Malformed { line });
        }
        at += length + 1;
        line += 1;
    }
    if at == text.len() {
        return Ok(words);
    }
    if !push_line(alloc, &mut words, predefined, is_compiler, &text[at..])? {
        return Err(CertFault::Malformed { line });
    }
    Ok(words)
}

/// Adds the words of a line, and reports whether the list may have such a line.
fn push_line(
    alloc: Global,
    words: &mut Vec<Vec<u8>>,
    predefined: &Macros,
    is_compiler: bool,
    line: &[u8],
) -> Result<bool, AllocError>
    ensures { IfOk result (λ is_taken. IsTaken (words_in (table_of predefined.now).language is_compiler line.now)
        (map (λ w. w.items) words.old.items) is_taken (map (λ w. w.items) words.new.items)) }
{
    if is_compiler && names_dir(line) {
        return Ok(true);
    }
    if is_compiler && begins_answer(line) {
        return push_answer(alloc, words, predefined.language(), line);
    }
    let Some(definition) = definition_in(line) else {
        return Ok(false);
    };
    push_word(alloc, words, predefined, definition)?;
    Ok(true)
}

/// A definition as it is after `#define `, and how long its name is, without and with its parameters.
#[derive(Clone, Copy)]
struct Defined<'a> {
    text: &'a [u8],
    name_len: usize,
    head_len: usize,
}

/// What a line defines.
fn definition_in(line: &[u8]) -> Option<Defined<'_>>
    ensures is { option_map (λ (d : Defined). d.text.now) result ≡ definition_in line.now }
    ensures head { IfSome result (λ d. HasHead d) }
{
    if !begins_definition(line) {
        return None;
    }
    let text = &line[START.len()..];
    let name_len = name_len(text);
    let head_len = name_len + parameters_len(&text[name_len..]);
    if !is_head(text, name_len, head_len) {
        return None;
    }
    Some(Defined {
        text,
        name_len,
        head_len,
    })
}

/// Whether a line begins with `#define `.
fn begins_definition(line: &[u8]) -> bool
    ensures { result ≡ begins_definition line.now }
{
    line.len() >= 8 && &line[..8] == START
}

/// How long the name is that a definition begins with.
fn name_len(text: &[u8]) -> usize
    ensures is { result ≡ name_len text.now }
    ensures within { result ≤ length text.now }
{
    text.iter()
        .take_while(|b| !(**b == b' ' || **b == b'('))
        .count()
}

/// How long the parameters are, with their brackets; one more than the text where there is no `)`.
fn parameters_len(text: &[u8]) -> usize
    ensures is { result ≡ parameters_len text.now }
    ensures within { result ≤ length text.now + 1 }
{
    if begins_parameters(text) {
        close_len(text) + 1
    } else {
        0
    }
}

/// Whether a text begins with `(`.
fn begins_parameters(text: &[u8]) -> bool
    ensures { result ≡ (slice_index text.now 0 == open_parenthesis) }
{
    matches!(text, [b'(', ..])
}

/// Whether so many bytes are a name with its parameters, and a body or nothing follows. The name alone has `own` bytes.
fn is_head(text: &[u8], own: usize, len: usize) -> bool
    requires { own ≡ name_len text.now }
    ensures { result ≡ is_head len text.now }
{
    0 < own && len <= text.len() && !has_equals_sign(&text[..len]) && begins_body(&text[len..])
}

/// Whether a text has a `=`, which would end a name in a word.
fn has_equals_sign(text: &[u8]) -> bool
    ensures { result ≡ list_any (λ b. b == equals) text.now }
{
    text.iter().any(|b| *b == b'=')
}

/// Whether a body follows, or nothing.
fn begins_body(text: &[u8]) -> bool
    ensures { result ≡ begins_body text.now }
{
    matches!(text, [] | [b' ', ..])
}

/// Adds the word of a definition, unless its name is predefined.
fn push_word(
    alloc: Global,
    words: &mut Vec<Vec<u8>>,
    predefined: &Macros,
    definition: Defined<'_>,
) -> Result<(), AllocError>
    requires { HasHead definition }
    ensures { OnOk result (map (λ w. w.items) words.new.items
        ≡ map (λ w. w.items) words.old.items ++ words_for (table_of predefined.now).language definition.entry.text.now) }
{
    let text = definition.text;
    if predefined.is_predefined(&text[..definition.name_len]) {
        return Ok(());
    }
    words.push(word_of(alloc, text, definition.head_len)?)?;
    Ok(())
}

/// The word of a definition, whose name with its parameters has so many bytes.
fn word_of(alloc: Global, text: &[u8], len: usize) -> Result<Vec<u8>, AllocError>
    requires { len ≤ length text.now }
    ensures { IfOk result (λ word. word.items ≡ word_of len text.now) }
{
    let mut word = Vec::with_capacity(alloc, text.len() + 1)?;
    word.extend_from_slice(&text[..len])?;
    word.push(b'=')?;
    word.extend_from_slice(body_behind(&text[len..]))?;
    Ok(word)
}

/// A text without its first byte, which ends a name.
fn body_behind(text: &[u8]) -> &[u8]
    ensures { result.now ≡ drop 1 text.now }
{
    match text {
        [_, body @ ..] => body,
        [] => &[],
    }
}
