//! The command of a compiler as it stands: the entry that its words are, and which of them are sources.
ghost use Rattle.std.specs.Prelude.{◌≡◌, IfOk, map};
ghost use Rattle.std.specs.String.{string_bytes};
ghost use Rattle.inc_build.specs.CompilerCommands as spec;
ghost use Rattle.inc_build.specs.Views.{seen_entry, seen_word};

use crate::commands::Word;
use crate::entries::Entry;
use std::alloc::{AllocError, Global};

/// The entry that the words of a command are, for all of its sources. It lends the words.
pub fn command_entry<'v>(alloc: Global, words: &'v [String]) -> Result<Entry<'v>, AllocError>
    ensures { IfOk result (λ e. seen_entry e ≡ spec.command_entry (map string_bytes words.entry.now)) }
{
    let words = lent(alloc, words)?;
    Ok(Entry {
        directory: b"",
        file: b"",
        words,
    })
}

/// Words as those of an entry.
fn lent<'v>(alloc: Global, texts: &'v [String]) -> Result<Vec<Word<'v>>, AllocError>
    ensures { IfOk result (λ words. map seen_word words.items ≡ map string_bytes texts.entry.now) }
{
    let mut words = Vec::with_capacity(alloc, texts.len())?;
    for text in texts {
        words.push(Word::Lent(text.as_bytes()))?;
    }
    Ok(words)
}

/// Whether a word is a source of C, C++ or assembler by its end, as GCC has them.
pub(crate) fn is_source(word: &[u8]) -> bool
    ensures { result ≡ spec.is_source word.now }
{
    ends(word, b".c")
        || ends(word, b".h")
        || ends(word, b".S")
        || ends(word, b".sx")
        || ends(word, b".cc")
        || ends(word, b".cp")
        || ends(word, b".cxx")
        || ends(word, b".cpp")
        || ends(word, b".CPP")
        || ends(word, b".c++")
        || ends(word, b".C")
        || ends(word, b".hh")
        || ends(word, b".H")
        || ends(word, b".hp")
        || ends(word, b".hxx")
        || ends(word, b".hpp")
        || ends(word, b".HPP")
        || ends(word, b".h++")
        || ends(word, b".tcc")
}

/// Whether a word ends so.
fn ends(word: &[u8], end: &[u8]) -> bool
    ensures { result ≡ spec.ends word.now end.now }
{
    let at = word.len().saturating_sub(end.len());
    &word[at..] == end
}
