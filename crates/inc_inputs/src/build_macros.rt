//! The words of entries that define macros, and those that take definitions away.
ghost use Rattle.std.specs.Prelude.{◌≡◌, ◌≤◌, ◌++◌, ◌∷◌, [], List, ℕ, IfOk, OnOk, length, map};
ghost use Rattle.std.specs.List.{prefix_len};
ghost use Rattle.inc_build.specs.Views.{seen_item};
ghost use Rattle.inc_build.specs.declared.compiler_words.Kind.{Kind as AnyKind};
ghost use Rattle.inc_inputs.specs.BuildMacros.{kept_in, kept_word, stays, undefined_in, undefined_with};
ghost use Rattle.inc_inputs.specs.BuildProjects as spec;
ghost use Rattle.inc_inputs.specs.Views.{macro_of};

use inc_build::{Item, Kind};
use inc_text::{Key, KeyRef, SeededState};
use indexmap::IndexSet;
use std::alloc::{AllocError, Global};

/// A word of an entry that defines a macro, or takes a definition away.
#[derive(Drop)]
pub struct MacroWord {
    /// Whether it defines one.
    pub defines: bool,
    /// What follows `-D` or `-U`.
    pub text: Vec<u8>,
}

/// The words for macros of an entry.
pub(crate) fn macros_in(alloc: Global, items: &[Item<'_>]) -> Result<Vec<MacroWord>, AllocError>
    ensures { IfOk result (λ macros. map macro_of macros.items ≡ spec.macros_in (map seen_item items.now)) }
{
    let mut macros = Vec::new(alloc);
    let mut at = 0;
    while at < items.len() {
        push_item(alloc, &mut macros, items[at])?;
        at += 1;
    }
    Ok(macros)
}

/// Adds an item, if it is a word for a macro.
fn push_item(alloc: Global, macros: &mut Vec<MacroWord>, item: Item<'_>) -> Result<(), AllocError>
    ensures { OnOk result ((more : List (AnyKind × List ℕ)) →
        map macro_of macros.new.items ++ more ≡ map macro_of macros.old.items ++ spec.macro_in (seen_item item.entry) more) }
{
    if let Item::Given(kind, text) = item {
        push_given(alloc, macros, kind, text)?;
    }
    Ok(())
}

/// Adds the value of an option, if that is for macros.
fn push_given(
    alloc: Global,
    macros: &mut Vec<MacroWord>,
    kind: Kind,
    text: &[u8],
) -> Result<(), AllocError>
    ensures { OnOk result ((more : List (AnyKind × List ℕ)) →
        map macro_of macros.new.items ++ more ≡ map macro_of macros.old.items ++ spec.given_macro kind text.now more) }
{
    match kind {
        Kind::Defined => push_macro(alloc, macros, true, text),
        Kind::Undefined => push_macro(alloc, macros, false, text),
        _ => Ok(()),
    }
}

/// Adds a word for a macro.
fn push_macro(
    alloc: Global,
    macros: &mut Vec<MacroWord>,
    defines: bool,
    text: &[u8],
) -> Result<(), AllocError>
    ensures { OnOk result (map macro_of macros.new.items
        ≡ map macro_of macros.old.items ++ spec.macro_word defines text.now ∷ []) }
{
    let text = Vec::from_slice(alloc, text)?;
    macros.push(MacroWord { defines, text })?;
    Ok(())
}

/// Whether words for macros are the same.
pub(crate) fn are_same(first: &[MacroWord], second: &[MacroWord]) -> bool
    ensures { result ≡ spec.are_same (map macro_of first.now) (map macro_of second.now) }
{
    if first.len() != second.len() {
        return false;
    }
    let mut at = 0;
    while at < first.len() {
        if !is_same(&first[at], &second[at]) {
            return false;
        }
        at += 1;
    }
    true
}

/// Whether two words for macros are the same.
fn is_same(a: &MacroWord, b: &MacroWord) -> bool
    ensures { result ≡ spec.is_same (macro_of a.now) (macro_of b.now) }
{
    a.defines == b.defines && a.text == b.text
}

/// The words that define macros, after those of an entry, each of which defines one or takes away what was defined
/// before it. Each word is looked at once.
pub fn with_macros<'a>(
    alloc: Global,
    seed: u64,
    words: Vec<&'a [u8]>,
    macros: &'a [MacroWord],
) -> Result<Vec<&'a [u8]>, AllocError>
    ensures { IfOk result (λ all. map (λ w. w.now) all.items
        ≡ spec.with_macros (map (λ w. w.now) words.entry.items) (map macro_of macros.entry.now)) }
{
    let kept = kept_of(alloc, seed, macros)?;
    let mut more = kept.words;
    more.reverse();
    let undefined = kept.undefined;
    let mut words = words;
    words.retain(|word| stays(&undefined, word));
    words.extend_from_slice(&more)?;
    Ok(words)
}

/// What is left of the words for macros of an entry, from one of them on.
#[derive(Drop)]
struct Kept<'a> {
    /// The names whose definitions are taken away.
    undefined: IndexSet<Key, SeededState>,
    /// The words that define macros and stay, the last first.
    words: Vec<&'a [u8]>,
}

/// What is left of all of them. From the last word on it is known of each definition whether it is taken away.
fn kept_of<'a>(alloc: Global, seed: u64, macros: &'a [MacroWord]) -> Result<Kept<'a>, AllocError>
    ensures undefined { IfOk result (λ k. k.undefined.keys ≡ undefined_in (map macro_of macros.entry.now)) }
    ensures words { IfOk result (λ k. map (λ w. w.now) k.words.items ≡ kept_in (map macro_of macros.entry.now)) }
{
    let mut undefined = IndexSet::with_hasher(alloc, SeededState::new(seed));
    let mut words = Vec::new(alloc);
    let mut at = macros.len();
    while at > 0 {
        at -= 1;
        keep(alloc, &mut undefined, &mut words, &macros[at])?;
    }
    Ok(Kept { undefined, words })
}

/// Keeps a word that defines a macro, unless one after it takes that away, or the name that a word takes away.
fn keep<'a>(
    alloc: Global,
    undefined: &mut IndexSet<Key, SeededState>,
    words: &mut Vec<&'a [u8]>,
    word: &'a MacroWord,
) -> Result<(), AllocError>
    ensures undefined { OnOk result (undefined.new.keys ≡ undefined_with undefined.old.keys (macro_of word.entry.now)) }
    ensures words { OnOk result (map (λ w. w.now) words.new.items
        ≡ map (λ w. w.now) words.old.items ++ kept_word undefined.old.keys (macro_of word.entry.now)) }
{
    let text = word.text.as_slice();
    if !word.defines {
        let name = Key::copied(alloc, text)?;
        undefined.insert(name)?;
        return Ok(());
    }
    if stays(undefined, text) {
        words.push(text)?;
    }
    Ok(())
}

/// Whether a word that defines a macro stays where these names are taken away.
fn stays(undefined: &IndexSet<Key, SeededState>, word: &[u8]) -> bool
    ensures { result ≡ stays undefined.now.keys word.now }
{
    !undefined.contains(KeyRef {
        bytes: name_in(word),
    })
}

/// The name that a word defines.
pub(crate) fn name_in(word: &[u8]) -> &[u8]
    ensures { result.now ≡ spec.name_in word.now }
{
    &word[..name_len(word)]
}

/// How many bytes of a word are before `=` or `(`.
fn name_len(word: &[u8]) -> usize
    ensures len { result ≡ prefix_len spec.is_of_name word.now }
    ensures within { result ≤ length word.now }
{
    word.iter()
        .take_while(|byte| !(**byte == b'=' || **byte == b'('))
        .count()
}
