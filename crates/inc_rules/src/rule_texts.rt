//! Rules and their faults as words on a line.
ghost use Rattle.std.specs.Prelude.{◌≡◌, ◌++◌, codes, map, IfOk, OnOk};
ghost use Rattle.inc_rules.specs.RuleTexts.{fault_words, joined, said_after, said_before, space_at};

use crate::rules::FaultKind;
use std::alloc::{AllocError, Global};

/// Words with a space between two.
pub fn joined(alloc: Global, words: &[&[u8]]) -> Result<Vec<u8>, AllocError>
    ensures { IfOk result (λ text. text.items ≡ joined (map (λ w. w.now) words.now)) }
{
    let mut text = Vec::new(alloc);
    for (place, word) in words.iter().enumerate() {
        put_word(&mut text, word, place)?;
    }
    Ok(text)
}

/// Adds a word, and before it a space unless it is the first.
fn put_word(text: &mut Vec<u8>, word: &[u8], place: usize) -> Result<(), AllocError>
    ensures { OnOk result (text.new.items ≡ text.old.items ++ (space_at place ++ word.now)) }
{
    if place > 0 {
        text.push(b' ')?;
    }
    text.extend_from_slice(word)?;
    Ok(())
}

/// What is wrong with a line.
pub fn fault_words(alloc: Global, kind: FaultKind, words: &[&[u8]]) -> Result<Vec<u8>, AllocError>
    ensures { IfOk result (λ text. text.items ≡ fault_words (record { kind = kind; words = map (λ w. w.now) words.now })) }
{
    let mut text = Vec::from_slice(alloc, said_before(kind))?;
    text.extend_from_slice(b"'")?;
    text.extend_from_slice(&joined(alloc, words)?)?;
    text.extend_from_slice(b"'")?;
    text.extend_from_slice(said_after(kind))?;
    Ok(text)
}

/// What stands before the words of a fault.
fn said_before(kind: FaultKind) -> &'static [u8]
    ensures { result.now ≡ said_before kind }
{
    match kind {
        FaultKind::UnknownVerb => b"unknown verb ",
        FaultKind::Ends => b"nothing after ",
        FaultKind::Unexpected => b"unexpected ",
        FaultKind::BadGlob => b"",
    }
}

/// What stands after them.
fn said_after(kind: FaultKind) -> &'static [u8]
    ensures { result.now ≡ said_after kind }
{
    match kind {
        FaultKind::BadGlob => b" has a [ without ]",
        _ => b"",
    }
}
