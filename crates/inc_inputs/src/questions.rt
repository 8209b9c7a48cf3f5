//! Questions of GNU C to a compiler, as `__has_attribute(noreturn)`, and the answers that a list has.
ghost use Rattle.std.specs.Prelude.{◌≡◌, ◌≤◌, ◌+◌, ◌++◌, ℕ, List, IfOk, OnOk, flat_map, map, drop, length, option_map};
ghost use Rattle.std.specs.Borrow.{Bor};
ghost use Rattle.std.specs.List.{list_all, list_any};
ghost use Rattle.inc_inputs.specs.Defines.{IsTaken};
ghost use Rattle.inc_inputs.specs.Questions.{answer_in, answer_word, answer_words, asked_words, begins_answer, close_len, defines, ends_name, gnu_questions, has_question, is_answer, is_free, is_letter, is_name, is_spaced, open_len, parts_of, question_words, takes_away, with_default, with_defaults, with_questions};
ghost use Rattle.inc_inputs.specs.Views.{answered_in, macro_of};
ghost use Rattle.inc_inputs.specs.declared.build_macros.MacroWord.{MacroWord as AnyMacro};
ghost use Rattle.inc_macro.specs.Macros.{is_among};

use crate::build_macros::{MacroWord, name_in};
use crate::place_words::is_number;
use inc_text::Language;
use std::alloc::{AllocError, Global};

/// How a line begins that has an answer.
const START: &[u8] = b"has ";

/// What a line `has NAME(ARG) NUMBER` says.
#[derive(Clone, Copy)]
pub struct Answered<'a> {
    /// The name of the question.
    pub question: &'a [u8],
    /// What is asked about.
    pub operand: &'a [u8],
    /// The answer, with the space before it.
    pub number: &'a [u8],
}

/// Whether a line begins as one that has an answer.
pub(crate) fn begins_answer(line: &[u8]) -> bool
    ensures { result ≡ begins_answer line.now }
{
    line.len() >= 4 && &line[..4] == START
}

/// Adds the words of a line that has an answer, and reports whether it has one.
pub(crate) fn push_answer(
    alloc: Global,
    words: &mut Vec<Vec<u8>>,
    language: Language,
    line: &[u8],
) -> Result<bool, AllocError>
    ensures { IfOk result (λ is_taken. IsTaken (option_map (answer_words language) (answer_in line.now))
        (map (λ w. w.items) words.old.items) is_taken (map (λ w. w.items) words.new.items)) }
{
    let Some(answer) = answer_in(line) else {
        return Ok(false);
    };
    push_words(alloc, words, language, answer)?;
    Ok(true)
}

/// The answer that a line has.
fn answer_in(line: &[u8]) -> Option<Answered<'_>>
    ensures { option_map answered_in result ≡ answer_in line.now }
{
    if !begins_answer(line) {
        return None;
    }
    let parts = parts_of(&line[START.len()..]);
    if !is_answer(parts) {
        return None;
    }
    Some(parts)
}

/// The parts of `NAME(ARG) NUMBER`.
fn parts_of(text: &[u8]) -> Answered<'_>
    ensures { answered_in result ≡ parts_of text.now }
{
    let open = open_len(text);
    let inner = after(text, open);
    let close = close_len(inner);
    Answered {
        question: &text[..open],
        operand: &inner[..close],
        number: after(inner, close),
    }
}

/// Whether such parts are two names and a number.
fn is_answer(parts: Answered<'_>) -> bool
    ensures { result ≡ is_answer (answered_in parts.entry) }
{
    is_name(parts.question) && is_name(parts.operand) && is_spaced(parts.number)
}

/// Whether a text is a space and a number.
fn is_spaced(text: &[u8]) -> bool
    ensures { result ≡ is_spaced text.now }
{
    match text {
        [b, number @ ..] => *b == b' ' && is_number(number),
        [] => false,
    }
}

/// What follows a place, or nothing.
fn after(text: &[u8], at: usize) -> &[u8]
    ensures { result.now ≡ drop (at + 1) text.now }
{
    if at < text.len() {
        &text[at + 1..]
    } else {
        &[]
    }
}

/// How many bytes are before the first `(`.
fn open_len(text: &[u8]) -> usize
    ensures is { result ≡ open_len text.now }
    ensures within { result ≤ length text.now }
{
    text.iter().take_while(|b| **b != b'(').count()
}

/// How many bytes are before the first `)`.
pub(crate) fn close_len(text: &[u8]) -> usize
    ensures is { result ≡ close_len text.now }
    ensures within { result ≤ length text.now }
{
    text.iter().take_while(|b| **b != b')').count()
}

/// Whether a text is a name: letters, digits and `_`, no digit first.
fn is_name(text: &[u8]) -> bool
    ensures { result ≡ is_name text.now }
{
    match text {
        [first, ..] => !first.is_ascii_digit() && are_letters(text),
        [] => false,
    }
}

/// Whether each byte is a letter, a digit or `_`.
fn are_letters(text: &[u8]) -> bool
    ensures { result ≡ list_all is_letter text.now }
{
    text.iter().all(|b| is_letter(*b))
}

/// Whether a byte is one.
fn is_letter(b: u8) -> bool
    ensures { result ≡ is_letter b }
{
    b.is_ascii_alphanumeric() || b == b'_'
}

/// Adds the words of an answer, and before these those of its question, unless the language has that.
fn push_words(
    alloc: Global,
    words: &mut Vec<Vec<u8>>,
    language: Language,
    answer: Answered<'_>,
) -> Result<(), AllocError>
    ensures { OnOk result (map (λ w. w.items) words.new.items
        ≡ map (λ w. w.items) words.old.items ++ answer_words language (answered_in answer.entry)) }
{
    push_asked(alloc, words, language, answer.question)?;
    words.push(answer_word(alloc, answer)?)?;
    Ok(())
}

/// Adds the words of a question, unless the language has it.
fn push_asked(
    alloc: Global,
    words: &mut Vec<Vec<u8>>,
    language: Language,
    question: &[u8],
) -> Result<(), AllocError>
    ensures { OnOk result (map (λ w. w.items) words.new.items
        ≡ map (λ w. w.items) words.old.items ++ asked_words language question.now) }
{
    if has_question(language, question) {
        return Ok(());
    }
    push_question(alloc, words, question)
}

/// Whether the language has a question.
fn has_question(language: Language, name: &[u8]) -> bool
    ensures { result ≡ has_question language name.now }
{
    language.is_gnu() && is_gnu_question(name)
}

/// Whether GNU C has it.
fn is_gnu_question(name: &[u8]) -> bool
    ensures { result ≡ is_among name.now gnu_questions }
{
    name == b"__has_attribute".as_slice()
        || name == b"__has_builtin".as_slice()
        || name == b"__has_c_attribute".as_slice()
        || name == b"__has_cpp_attribute".as_slice()
}

/// Adds the words of a question.
fn push_question(alloc: Global, words: &mut Vec<Vec<u8>>, question: &[u8]) -> Result<(), AllocError>
    ensures { OnOk result (map (λ w. w.items) words.new.items
        ≡ map (λ w. w.items) words.old.items ++ question_words question.now) }
{
    words.push(word_of(alloc, question, b"(x)=", question, b"_(x)")?)?;
    words.push(word_of(alloc, question, b"_(x)=", question, b"_##x")?)?;
    Ok(())
}

/// The word of an answer.
fn answer_word(alloc: Global, answer: Answered<'_>) -> Result<Vec<u8>, AllocError>
    ensures { IfOk result (λ word. word.items ≡ answer_word (answered_in answer.entry)) }
{
    let mut word = word_of(alloc, answer.question, b"_", answer.operand, b"=")?;
    word.extend_from_slice(after(answer.number, 0))?;
    Ok(word)
}

/// Two names, each with what follows it.
fn word_of(
    alloc: Global,
    first: &[u8],
    middle: &[u8],
    second: &[u8],
    last: &[u8],
) -> Result<Vec<u8>, AllocError>
    ensures { IfOk result (λ word. word.items ≡ first.now ++ middle.now ++ second.now ++ last.now) }
{
    // room for most
    let mut word = Vec::with_capacity(alloc, 64)?;
    word.extend_from_slice(first)?;
    word.extend_from_slice(middle)?;
    word.extend_from_slice(second)?;
    word.extend_from_slice(last)?;
    Ok(word)
}

/// The words that define macros, after those of an entry, and the words of the questions of the language that none of these
/// defines or takes away. They come last, so that each of the others keeps its place.
pub fn with_questions<'a>(
    language: Language,
    words: Vec<&'a [u8]>,
    macros: &[MacroWord],
) -> Result<Vec<&'a [u8]>, AllocError>
    ensures { IfOk result (λ all. map (λ w. w.now) all.items
        ≡ with_questions language (map macro_of macros.now) (map (λ w. w.now) words.entry.items)) }
{
    let mut words = words;
    if language.is_gnu() {
        add_questions(&mut words, macros)?;
    }
    Ok(words)
}

/// Adds the words of the questions of GNU C whose names are free.
fn add_questions<'a>(words: &mut Vec<&'a [u8]>, macros: &[MacroWord]) -> Result<(), AllocError>
    ensures { OnOk result (map (λ w. w.now) words.new.items
        ≡ with_defaults (map macro_of macros.now) (map (λ w. w.now) words.old.items) (flat_map question_words gnu_questions)) }
{
    add_default(words, macros, b"__has_attribute(x)=__has_attribute_(x)")?;
    add_default(words, macros, b"__has_attribute_(x)=__has_attribute_##x")?;
    add_default(words, macros, b"__has_builtin(x)=__has_builtin_(x)")?;
    add_default(words, macros, b"__has_builtin_(x)=__has_builtin_##x")?;
    add_default(words, macros, b"__has_c_attribute(x)=__has_c_attribute_(x)")?;
    add_default(
        words,
        macros,
        b"__has_c_attribute_(x)=__has_c_attribute_##x",
    )?;
    add_default(
        words,
        macros,
        b"__has_cpp_attribute(x)=__has_cpp_attribute_(x)",
    )?;
    add_default(
        words,
        macros,
        b"__has_cpp_attribute_(x)=__has_cpp_attribute_##x",
    )?;
    Ok(())
}

/// Adds a word if its name is free.
fn add_default<'a>(
    words: &mut Vec<&'a [u8]>,
    macros: &[MacroWord],
    word: &'a [u8],
) -> Result<(), AllocError>
    ensures { OnOk result (map (λ w. w.now) words.new.items
        ≡ with_default (map macro_of macros.now) (map (λ w. w.now) words.old.items) word.now) }
{
    if is_free(words, macros, name_in(word)) {
        words.push(word)?;
    }
    Ok(())
}

/// Whether no word defines a name, and no word of an entry takes its definition away.
fn is_free(words: &[&[u8]], macros: &[MacroWord], name: &[u8]) -> bool
    ensures { result ≡ is_free (map macro_of macros.now) (map (λ w. w.now) words.now) name.now }
{
    !(is_defined(words, name) || is_taken_away(macros, name))
}

/// Whether a word defines a name.
fn is_defined(words: &[&[u8]], name: &[u8]) -> bool
    ensures { result ≡ list_any (defines name.now) (map (λ w. w.now) words.now) }
{
    any_defines(words, name)
}

/// The same, by the words as they lie.
fn any_defines(words: &[&[u8]], name: &[u8]) -> bool
    ensures { result ≡ list_any (λ (w : Bor (List ℕ)). defines name.now w.now) words.now }
{
    words.iter().any(|word| defines(name, word))
}

/// Whether a word defines a macro of this name.
fn defines(name: &[u8], word: &[u8]) -> bool
    ensures { result ≡ defines name.now word.now }
{
    word.len() >= name.len() && &word[..name.len()] == name && ends_name(&word[name.len()..])
}

/// Whether nothing follows a name, `=` or `(`.
fn ends_name(text: &[u8]) -> bool
    ensures { result ≡ ends_name text.now }
{
    matches!(text, [] | [b'=' | b'(', ..])
}

/// Whether a word of an entry takes the definition of a name away.
fn is_taken_away(macros: &[MacroWord], name: &[u8]) -> bool
    ensures { result ≡ list_any (takes_away name.now) (map macro_of macros.now) }
{
    any_takes_away(macros, name)
}

/// The same, by the words as they lie.
fn any_takes_away(macros: &[MacroWord], name: &[u8]) -> bool
    ensures { result ≡ list_any (λ (m : AnyMacro). takes_away name.now (macro_of m)) macros.now }
{
    macros.iter().any(|word| takes_away(word, name))
}

/// Whether this word does.
fn takes_away(word: &MacroWord, name: &[u8]) -> bool
    ensures { result ≡ takes_away name.now (macro_of word.now) }
{
    !word.defines && word.text.as_slice() == name
}
