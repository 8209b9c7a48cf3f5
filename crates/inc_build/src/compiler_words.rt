//! What the words of a compiler's command ask for, as far as a question about includes goes.
ghost use Rattle.std.specs.Prelude.{◌≡◌, ◌≤◌, ◌<◌, ◌++◌, List, Some, IfOk, OnOk, length, map, option_map, is_some};
ghost use Rattle.inc_build.specs.CompilerWords as spec;
ghost use Rattle.inc_build.specs.Views.{seen_item, seen_reading, seen_value, seen_word};
ghost use Rattle.inc_build.specs.CompilerWords.{Item as Asked};

use crate::commands::Word;
use std::alloc::{AllocError, Global};

/// An option that has a value.
#[derive(Clone, Copy, PartialEq, Eq, Debug)]
pub enum Kind {
    /// `-iquote DIR`.
    Quoted,
    /// `-I DIR`.
    Searched,
    /// `-isystem DIR`.
    System,
    /// `-idirafter DIR`.
    Last,
    /// `-imacros FILE`.
    Macros,
    /// `-include FILE`.
    Included,
    /// `-D NAME`, `-D NAME=BODY`.
    Defined,
    /// `-U NAME`.
    Undefined,
}

/// What a compiler is asked by a word, or by an option and its value.
#[derive(Clone, Copy)]
pub enum Item<'w> {
    /// An option and its value.
    Given(Kind, &'w [u8]),
    /// The language that `-std=` names.
    Standard(&'w [u8]),
    /// `-nostdinc`.
    NoSystem,
    /// The file of `@FILE`, which has more words.
    Listed(&'w [u8]),
    /// An option that is not known here, or that lacks its value.
    Told(&'w [u8]),
    /// A word that is no option.
    Operand(&'w [u8]),
}

/// What the words of a command ask for, in their order. The first word is the compiler's name.
pub fn items<'w, 't>(alloc: Global, words: &'w [Word<'t>]) -> Result<Vec<Item<'w>>, AllocError>
    ensures { IfOk result (λ v. map seen_item v.items ≡ spec.items (map seen_word words.now)) }
{
    let mut items = Vec::new(alloc);
    let mut left = after_first(words);
    while let [word, rest @ ..] = left {
        let (item, takes_next) = reading(word.bytes(), first(rest));
        push_kept(&mut items, item)?;
        left = left_after(takes_next, rest);
    }
    Ok(items)
}

/// Adds what is kept of a word.
fn push_kept<'w>(items: &mut Vec<Item<'w>>, item: Option<Item<'w>>) -> Result<(), AllocError>
    ensures { OnOk result ((more : List Asked) →
        map seen_item items.new.items ++ more ≡ map seen_item items.old.items ++ spec.kept (option_map seen_item item.entry) more) }
{
    if let Some(item) = item {
        items.push(item)?;
    }
    Ok(())
}

/// The words after one, and after its value if that is the next word.
fn left_after<'w, 't>(takes_next: bool, words: &'w [Word<'t>]) -> &'w [Word<'t>]
    ensures rest { map seen_word result.now ≡ spec.left_after takes_next (map seen_word words.now) }
    ensures within { length result.now ≤ length words.now }
{
    if takes_next {
        after_first(words)
    } else {
        words
    }
}

/// The first of some words.
fn first<'w, 't>(words: &'w [Word<'t>]) -> Option<&'w [u8]>
    ensures { option_map (λ n. n.now) result ≡ spec.first (map seen_word words.now) }
{
    match words {
        [word, ..] => Some(word.bytes()),
        [] => None,
    }
}

/// The words after the first.
fn after_first<'w, 't>(words: &'w [Word<'t>]) -> &'w [Word<'t>]
    ensures rest { map seen_word result.now ≡ spec.after_first (map seen_word words.now) }
    ensures within { length result.now ≤ length words.now }
{
    match words {
        [_, rest @ ..] => rest,
        [] => words,
    }
}

/// What is kept of a word, and whether the next one is its value.
fn reading<'w>(word: &'w [u8], next: Option<&'w [u8]>) -> (Option<Item<'w>>, bool)
    ensures { seen_reading result ≡ spec.reading word.now (option_map (λ n. n.now) next.entry) }
{
    if is_option(word) {
        option_reading(word, next)
    } else {
        (Some(operand(word)), false)
    }
}

/// Whether a word is an option. `-` alone is standard input.
fn is_option(word: &[u8]) -> bool
    ensures { result ≡ spec.is_option word.now }
{
    after(b"-", word).is_some() && word != b"-".as_slice()
}

/// A word that is no option.
fn operand<'w>(word: &'w [u8]) -> Item<'w>
    ensures { seen_item result ≡ spec.operand word.now }
{
    match word {
        [b'@', path @ ..] => Item::Listed(path),
        _ => Item::Operand(word),
    }
}

/// What is kept of an option.
fn option_reading<'w>(word: &'w [u8], next: Option<&'w [u8]>) -> (Option<Item<'w>>, bool)
    ensures { seen_reading result ≡ spec.option_reading word.now (option_map (λ n. n.now) next.entry) }
{
    if is_passed_with_value(word) {
        return (None, next.is_some());
    }
    if is_told_with_value(word) {
        return (Some(Item::Told(word)), next.is_some());
    }
    match valued(word) {
        None => (no_value(word), false),
        Some((kind, value)) => with_value(word, kind, value, next),
    }
}

/// An option with its value, which is what follows it in its word, else the next one.
fn with_value<'w>(
    word: &'w [u8],
    kind: Kind,
    value: &'w [u8],
    next: Option<&'w [u8]>,
) -> (Option<Item<'w>>, bool)
    ensures { seen_reading result ≡ spec.with_value word.now kind value.now (option_map (λ n. n.now) next.entry) }
{
    if !value.is_empty() {
        return (Some(Item::Given(kind, value)), false);
    }
    match next {
        Some(value) => (Some(Item::Given(kind, value)), true),
        None => (Some(Item::Told(word)), false),
    }
}

/// The option with a value that a word begins with, and what follows it there.
fn valued<'w>(word: &'w [u8]) -> Option<(Kind, &'w [u8])>
    ensures { option_map seen_value result ≡ spec.valued spec.values word.now }
{
    if let Some(value) = after(b"-I", word) {
        Some((Kind::Searched, value))
    } else if let Some(value) = after(b"-D", word) {
        Some((Kind::Defined, value))
    } else if let Some(value) = after(b"-U", word) {
        Some((Kind::Undefined, value))
    } else if let Some(value) = after(b"-iquote", word) {
        Some((Kind::Quoted, value))
    } else if let Some(value) = after(b"-isystem", word) {
        Some((Kind::System, value))
    } else if let Some(value) = after(b"-idirafter", word) {
        Some((Kind::Last, value))
    } else if let Some(value) = after(b"-include", word) {
        Some((Kind::Included, value))
    } else if let Some(value) = after(b"-imacros", word) {
        Some((Kind::Macros, value))
    } else {
        None
    }
}

/// What is kept of an option without a value.
fn no_value<'w>(word: &'w [u8]) -> Option<Item<'w>>
    ensures { option_map seen_item result ≡ spec.no_value word.now }
{
    if word == b"-nostdinc".as_slice() {
        return Some(Item::NoSystem);
    }
    if let Some(name) = after(b"-std=", word) {
        return Some(Item::Standard(name));
    }
    if is_passed(word) || begins_as_passed(word) {
        None
    } else {
        Some(Item::Told(word))
    }
}

/// Whether an option and its value, which is the next word, are skipped.
fn is_passed_with_value(word: &[u8]) -> bool
    ensures { result ≡ spec.is_among spec.passed_with_value word.now }
{
    word == b"-o".as_slice()
        || word == b"-x".as_slice()
        || word == b"-MF".as_slice()
        || word == b"-MT".as_slice()
        || word == b"-MQ".as_slice()
        || word == b"-MJ".as_slice()
        || word == b"-arch".as_slice()
        || word == b"-L".as_slice()
        || word == b"-l".as_slice()
        || word == b"-aux-info".as_slice()
        || word == b"-dumpbase".as_slice()
        || word == b"-dumpdir".as_slice()
        || word == b"--param".as_slice()
}

/// Whether an option is reported that has the next word as its value.
fn is_told_with_value(word: &[u8]) -> bool
    ensures { result ≡ spec.is_among spec.told_with_value word.now }
{
    word == b"-isysroot".as_slice()
        || word == b"--sysroot".as_slice()
        || word == b"-iprefix".as_slice()
        || word == b"-iwithprefix".as_slice()
        || word == b"-iwithprefixbefore".as_slice()
        || word == b"-imultilib".as_slice()
        || word == b"-include-pch".as_slice()
        || word == b"-iframework".as_slice()
        || word == b"-framework".as_slice()
        || word == b"-target".as_slice()
        || word == b"-Xclang".as_slice()
        || word == b"-Xpreprocessor".as_slice()
        || word == b"-Xlinker".as_slice()
        || word == b"-Xassembler".as_slice()
}

/// Whether an option without a value is skipped.
fn is_passed(word: &[u8]) -> bool
    ensures { result ≡ spec.is_among spec.passed word.now }
{
    word == b"-c".as_slice()
        || word == b"-S".as_slice()
        || word == b"-E".as_slice()
        || word == b"-P".as_slice()
        || word == b"-w".as_slice()
        || word == b"-s".as_slice()
        || word == b"-v".as_slice()
        || word == b"-pg".as_slice()
        || word == b"-pipe".as_slice()
        || word == b"-pthread".as_slice()
        || word == b"-ansi".as_slice()
        || word == b"-pedantic".as_slice()
        || word == b"-pedantic-errors".as_slice()
        || word == b"-static".as_slice()
        || word == b"-shared".as_slice()
}

/// Whether an option is skipped for what it begins with.
fn begins_as_passed(word: &[u8]) -> bool
    ensures { result ≡ spec.begins_among spec.passed_fronts word.now }
{
    begins(b"-W", word)
        || begins(b"-f", word)
        || begins(b"-m", word)
        || begins(b"-O", word)
        || begins(b"-g", word)
        || begins(b"-M", word)
        || begins(b"-L", word)
        || begins(b"-l", word)
}

/// Whether a word begins with an option.
fn begins(option: &[u8], word: &[u8]) -> bool
    ensures { result ≡ spec.begins option.now word.now }
{
    after(option, word).is_some()
}

/// What follows an option in a word that begins with it.
fn after<'w>(option: &[u8], word: &'w [u8]) -> Option<&'w [u8]>
    ensures { option_map (λ v. v.now) result ≡ spec.after option.now word.now }
{
    word.strip_prefix(option)
}
