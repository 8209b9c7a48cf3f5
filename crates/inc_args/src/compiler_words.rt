//! Words that compilers have with one `-`.
ghost use Rattle.std.specs.Prelude.{◌≡◌, ◌++◌, true, IfOk, OnOk, map, option_map, unwrap_or};
ghost use Rattle.std.specs.String.{string_bytes};
ghost use Rattle.inc_args.specs.CompilerWords as spec;

use std::alloc::{AllocError, Global};

/// The words of the command line with `--iquote`, `--isystem` and `--idirafter` where they have `-isystem DIR`, `-isystemDIR` and the like, as compilers
/// take them; `None`, and no copy, where they have none of these. Words after a `--` stay.
pub fn as_options(alloc: Global, words: &[String]) -> Result<Option<Vec<String>>, AllocError>
    ensures { IfOk result (λ options. unwrap_or (option_map (λ o. map string_bytes o.items) options) (map string_bytes words.now)
        ≡ spec.as_options (map string_bytes words.now)) }
{
    if are_options(words) {
        return Ok(None);
    }
    let options = copied(alloc, words)?;
    Ok(Some(options))
}

/// Whether all words stay.
fn are_options(words: &[String]) -> bool
    ensures { result ≡ true → spec.as_options (map string_bytes words.now) ≡ map string_bytes words.now }
{
    let mut left = words;
    while let [word, rest @ ..] = left {
        if word.as_str() == "--" {
            return true;
        }
        if !stays(word.as_str()) {
            return false;
        }
        left = rest;
    }
    true
}

/// Whether a word is no option of compilers.
fn stays(word: &str) -> bool
    ensures { result ≡ true → spec.as_option word.now ≡ word.now }
{
    value_after("-isystem", word).is_none()
        && value_after("-idirafter", word).is_none()
        && value_after("-iquote", word).is_none()
}

/// The words, each as the command line takes it.
fn copied(alloc: Global, words: &[String]) -> Result<Vec<String>, AllocError>
    ensures { IfOk result (λ options. map string_bytes options.items ≡ spec.as_options (map string_bytes words.now)) }
{
    let mut options = Vec::with_capacity(alloc, words.len())?;
    let mut left = words;
    while let [word, rest @ ..] = left {
        if word.as_str() == "--" {
            push_all(alloc, &mut options, left)?;
            return Ok(options);
        }
        options.push(as_option(alloc, word.as_str())?)?;
        left = rest;
    }
    Ok(options)
}

/// Adds words as they are.
fn push_all(alloc: Global, options: &mut Vec<String>, words: &[String]) -> Result<(), AllocError>
    ensures { OnOk result (map string_bytes options.new.items ≡ map string_bytes options.old.items ++ map string_bytes words.now) }
{
    for word in words {
        options.push(String::from_str(alloc, word.as_str())?)?;
    }
    Ok(())
}

/// A word as the command line takes it.
fn as_option(alloc: Global, word: &str) -> Result<String, AllocError>
    ensures { IfOk result (λ option. string_bytes option ≡ spec.as_option word.now) }
{
    if let Some(value) = value_after("-isystem", word) {
        return long_option(alloc, "-isystem", value);
    }
    if let Some(value) = value_after("-idirafter", word) {
        return long_option(alloc, "-idirafter", value);
    }
    if let Some(value) = value_after("-iquote", word) {
        return long_option(alloc, "-iquote", value);
    }
    String::from_str(alloc, word)
}

/// What follows an option in a word that begins with it.
fn value_after<'w>(option: &str, word: &'w str) -> Option<&'w str>
    ensures { option_map (λ v. v.now) result ≡ spec.value_after option.now word.now }
{
    word.strip_prefix(option)
}

/// An option with one more `-`, and with a `=` before its value if that is in the same word.
fn long_option(alloc: Global, option: &str, value: &str) -> Result<String, AllocError>
    ensures { IfOk result (λ word. string_bytes word ≡ spec.long_option option.now value.now) }
{
    let mut word = String::from_str(alloc, "-")?;
    word.push_str(option)?;
    if !value.is_empty() {
        word.push_str("=")?;
        word.push_str(value)?;
    }
    Ok(word)
}
