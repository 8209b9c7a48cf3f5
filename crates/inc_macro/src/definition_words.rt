//! Words of the command line that define macros.
ghost use Rattle.std.specs.Prelude.{◌≡◌, ◌≢◌, ◌==◌, ◌++◌, ◌∷◌, [], Err, IfOk, IfErr, OnOk, map, position};
ghost use Rattle.std.specs.List.{list_all, list_any};
ghost use Rattle.inc_macro.specs.Macros.{tokens_or_bad, word_text, word_tokens};
ghost use Rattle.inc_macro.specs.WordLines.{is_plain, is_plain_byte, line_text, word_lines};
ghost use Rattle.inc_text.specs.Ascii.{equals, line_feed};
ghost use Rattle.inc_text.specs.PhaseText.{phase_text};
ghost use Rattle.inc_token.specs.TokenLines.{token_lines};
ghost use Rattle.inc_text.specs.declared.languages.Language.{Language};

use crate::faults::DefineFault;
use inc_text::{Language, Text, TextFault, splice_owned};
use memchr::memchr;
use std::alloc::{AllocError, Global};

/// The most bytes of a word that has a line among those of others.
const LONGEST_PLAIN: usize = 65_536;

/// Whether a word holds LF.
fn has_line_feed(word: &[u8]) -> bool
    ensures { result ≡ list_any (λ b. b == line_feed) word.now }
{
    memchr(b'\n', word).is_some()
}

/// The place of the first `=`.
fn equals_sign(word: &[u8]) -> Option<usize>
    ensures { result ≡ position (λ b. b == equals) word.now }
{
    memchr(b'=', word)
}

/// Adds the text after `define` that stands for a word: its first `=` becomes a space, and without one the body is `1`.
fn push_text(text: &mut Vec<u8>, word: &[u8]) -> Result<(), AllocError>
    ensures { OnOk result (text.new.items ≡ text.old.items ++ word_text word.now) }
{
    let begin = text.len();
    text.extend_from_slice(word)?;
    if let Some(at) = equals_sign(word) {
        text[begin + at] = b' ';
        return Ok(());
    }
    text.extend_from_slice(b" 1")?;
    Ok(())
}

/// The text that stands for a word.
fn word_text(alloc: Global, word: &[u8]) -> Result<Vec<u8>, AllocError>
    ensures { IfOk result (λ text. text.items ≡ word_text word.now) }
{
    let mut text = Vec::with_capacity(alloc, word.len() + 2)?;
    push_text(&mut text, word)?;
    Ok(text)
}

/// The text of a word after phases 1 and 2.
pub fn spliced_word(alloc: Global, word: &[u8], language: Language) -> Result<Text, DefineFault>
    ensures text { IfOk result (λ text. word_tokens language word.now ≡ tokens_or_bad (token_lines language text)) }
    ensures fault { IfErr result (λ fault. fault ≢ DefineFault.NoMemory → word_tokens language word.now ≡ Err fault) }
{
    if has_line_feed(word) {
        return Err(DefineFault::BadWord);
    }
    let text = word_text(alloc, word)?;
    match splice_owned(alloc, text, language) {
        Ok(text) => Ok(text),
        Err(TextFault::TooLong) => Err(DefineFault::BadWord),
        Err(TextFault::NoMemory) => Err(DefineFault::NoMemory),
    }
}

/// Whether a byte stands for itself and leaves other lines alone. A byte order mark would not at the start of a text.
#[inline(always)]
fn is_plain_byte(b: u8) -> bool
    ensures { result ≡ is_plain_byte b }
{
    !(b == b'\n' || b == b'\r' || b == b'?' || b == b'\\' || b == b'/' || b == 0xef)
}

/// Whether all bytes are so.
fn are_plain(bytes: &[u8]) -> bool
    ensures { result ≡ list_all is_plain_byte bytes.now }
{
    bytes.iter().all(|b| is_plain_byte(*b))
}

/// Whether a word has a line among those of others.
fn is_plain(word: &[u8]) -> bool
    ensures { result ≡ is_plain word.now }
{
    word.len() <= LONGEST_PLAIN && are_plain(word)
}

/// Adds the line of a word.
fn push_line(lines: &mut Vec<u8>, word: &[u8]) -> Result<(), AllocError>
    ensures { OnOk result (lines.new.items ≡ lines.old.items ++ (line_text word.now ++ line_feed ∷ [])) }
{
    if is_plain(word) {
        push_text(lines, word)?;
    }
    lines.push(b'\n')?;
    Ok(())
}

/// The lines of words.
fn word_lines(alloc: Global, words: &[&[u8]]) -> Result<Vec<u8>, AllocError>
    ensures { IfOk result (λ lines. lines.items ≡ word_lines (map (λ w. w.now) words.now)) }
{
    let mut lines = Vec::with_capacity(alloc, 16 * words.len())?;
    for i in 0..words.len() {
        push_line(&mut lines, words[i])?;
    }
    Ok(lines)
}

/// The text of the lines of words after phases 1 and 2.
pub fn spliced_lines(alloc: Global, words: &[&[u8]], language: Language) -> Result<Text, TextFault>
    ensures { IfOk result (λ text. text ≡ phase_text language (word_lines (map (λ w. w.now) words.now))) }
{
    let lines = word_lines(alloc, words)?;
    let text = splice_owned(alloc, lines, language)?;
    Ok(text)
}
