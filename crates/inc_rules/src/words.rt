//! The words of a line, and the globs in words.
ghost use Rattle.std.specs.Prelude.{◌≡◌, ◌≤◌, ◌==◌, ◌++◌, ◌∷◌, [], filter, length, not, map, IfOk, OnOk};
ghost use Rattle.std.specs.List.{prefix_len};
ghost use Rattle.inc_text.specs.Ascii.{comma};
ghost use Rattle.inc_rules.specs.Rules.{begins_comment, globs_of, is_empty, is_space, parts_between, words_of};

use std::alloc::{AllocError, Global};

/// The words of a line, without those of a comment.
pub(crate) fn words_of<'t>(alloc: Global, line: &'t [u8]) -> Result<Vec<&'t [u8]>, AllocError>
    ensures { IfOk result (λ words. map (λ w. w.now) words.items ≡ words_of line.now) }
{
    line.split(|byte| is_space(*byte))
        .filter(|word| !word.is_empty())
        .take_while(|word| !begins_comment(word))
        .collect(alloc)
}

/// Whether a byte separates words.
fn is_space(byte: u8) -> bool
    ensures { result ≡ is_space byte }
{
    byte == b' ' || byte == b'\t' || byte == b'\r'
}

/// Whether a word begins a comment.
fn begins_comment(word: &[u8]) -> bool
    ensures { result ≡ begins_comment word.now }
{
    matches!(word, [b'#', ..])
}

/// The globs in words, each of which may have several.
pub(crate) fn globs_of<'t>(alloc: Global, words: &[&'t [u8]]) -> Result<Vec<&'t [u8]>, AllocError>
    ensures { IfOk result (λ globs. map (λ g. g.now) globs.items ≡ globs_of (map (λ w. w.now) words.now)) }
{
    let mut globs = Vec::new(alloc);
    for word in words {
        push_globs(&mut globs, word)?;
    }
    Ok(globs)
}

/// Adds the globs of a word.
fn push_globs<'t>(globs: &mut Vec<&'t [u8]>, word: &'t [u8]) -> Result<(), AllocError>
    ensures { OnOk result (map (λ g. g.now) globs.new.items
        ≡ map (λ g. g.now) globs.old.items ++ parts_between (λ b. b == comma) word.entry.now) }
{
    let mut at = 0;
    while at <= word.len() {
        let len = len_before(b',', &word[at..]);
        push_glob(globs, &word[at..at + len])?;
        at += len + 1;
    }
    Ok(())
}

/// Adds a glob, if it is not empty.
fn push_glob<'t>(globs: &mut Vec<&'t [u8]>, glob: &'t [u8]) -> Result<(), AllocError>
    ensures { OnOk result (map (λ g. g.now) globs.new.items
        ≡ map (λ g. g.now) globs.old.items ++ filter (λ part. not (is_empty part)) (glob.entry.now ∷ [])) }
{
    if glob.is_empty() {
        return Ok(());
    }
    globs.push(glob)?;
    Ok(())
}

/// How many bytes are before the first such byte, or all.
pub(crate) fn len_before(end: u8, text: &[u8]) -> usize
    ensures is { result ≡ prefix_len (λ b. not (b == end)) text.now }
    ensures within { result ≤ length text.now }
{
    text.iter().take_while(|byte| **byte != end).count()
}
