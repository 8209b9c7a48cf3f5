//! The entries of a compilation database.
ghost use Rattle.std.specs.Prelude.{◌≡◌, ◌≢◌, ◌∷◌, Some, None, Ok, Err, IfOk, IfErr, codes, map, option_map, option_and_then};
ghost use Rattle.serde_json.specs.View.{items_view, view};
ghost use Rattle.serde_json.specs.Find.{as_array, as_str, get};
ghost use Rattle.inc_build.specs.Entries as spec;
ghost use Rattle.inc_build.specs.Views.{seen_entry, seen_word};

use crate::commands::{Word, shell_words};
use serde_json::Value;
use std::alloc::{AllocError, AllocFailed, Global};
use thiserror::Error;

/// The most bytes of a `directory`.
pub const LONGEST_DIRECTORY: usize = 4_096;

/// How a source is compiled.
#[derive(Drop)]
pub struct Entry<'v> {
    /// The directory in which the compiler runs.
    pub directory: &'v [u8],
    /// The source.
    pub file: &'v [u8],
    /// The words of the command.
    pub words: Vec<Word<'v>>,
}

/// Why an entry is none.
#[derive(Clone, Copy, Debug, PartialEq, Eq, Error)]
pub enum EntryFault {
    /// It is no object.
    #[error("no object")]
    NoObject,
    /// It has no string `directory`.
    #[error("no \"directory\"")]
    NoDirectory,
    /// Its `directory` is longer than any path that a system takes. Each relative word of the command is looked up from it.
    #[error("\"directory\" longer than 4096 bytes")]
    LongDirectory,
    /// It has no string `file`.
    #[error("no \"file\"")]
    NoFile,
    /// It has neither an array of strings `arguments` nor a string `command`.
    #[error("neither \"arguments\" nor \"command\"")]
    NoCommand,
    /// A quote of its `command` does not end.
    #[error("unterminated quote in \"command\"")]
    OpenQuote,
    /// Memory ran out.
    #[error("out of memory")]
    NoMemory,
}

impl From<AllocError> for EntryFault {
    ghost use Rattle.inc_build.specs.declared.entries.EntryFault.TheVariants.{NoMemory};
    ghost use Rattle.std.specs.Prelude.{◌≡◌};

    ghost from_gives = { λ _ e. e ≡ NoMemory };

    fn from(_error: AllocError) -> EntryFault {
        EntryFault::NoMemory
    }
}

/// An entry of a value of JSON, whose texts it lends.
pub fn read_entry<'v>(alloc: Global, value: &'v Value) -> Result<Entry<'v>, EntryFault>
    ensures entry { IfOk result (λ e. spec.entry (view value.now) ≡ Ok (seen_entry e)) }
    ensures fault { IfErr result (λ f. f ≢ EntryFault.NoMemory → spec.entry (view value.now) ≡ Err f) }
{
    if value.as_object().is_none() {
        return Err(EntryFault::NoObject);
    }
    let Some(directory) = text_at(value, "directory") else {
        return Err(EntryFault::NoDirectory);
    };
    if directory.len() > LONGEST_DIRECTORY {
        return Err(EntryFault::LongDirectory);
    }
    let Some(file) = text_at(value, "file") else {
        return Err(EntryFault::NoFile);
    };
    let words = words(alloc, value)?;
    Ok(Entry {
        directory,
        file,
        words,
    })
}

/// The words of the command.
fn words<'v>(alloc: Global, value: &'v Value) -> Result<Vec<Word<'v>>, EntryFault>
    ensures words { IfOk result (λ v. spec.words_or (spec.arguments (view value.now)) (view value.now) ≡ Ok (map seen_word v.items)) }
    ensures fault { IfErr result (λ f. f ≢ EntryFault.NoMemory → spec.words_or (spec.arguments (view value.now)) (view value.now) ≡ Err f) }
{
    if let Some(words) = arguments(alloc, value)? {
        return Ok(words);
    }
    let Some(command) = text_at(value, "command") else {
        return Err(EntryFault::NoCommand);
    };
    match shell_words(alloc, command)? {
        Some(words) => Ok(words),
        None => Err(EntryFault::OpenQuote),
    }
}

/// The strings of `arguments`, where it is an array of strings.
fn arguments<'v>(alloc: Global, value: &'v Value) -> Result<Option<Vec<Word<'v>>>, AllocError>
    ensures { IfOk result (λ words. option_map (λ v. map seen_word v.items) words ≡ spec.arguments (view value.now)) }
{
    match array_at(value, "arguments") {
        Some(items) => strings(alloc, items),
        None => Ok(None),
    }
}

/// Items as words, if all of them are strings.
fn strings<'v>(alloc: Global, items: &'v [Value]) -> Result<Option<Vec<Word<'v>>>, AllocError>
    ensures { IfOk result (λ words. option_map (λ v. map seen_word v.items) words ≡ spec.strings (items_view items.now)) }
{
    let mut words = Vec::with_capacity(alloc, items.len())?;
    for item in items {
        let Some(text) = text_of(item) else {
            return Ok(None);
        };
        words.push(Word::Lent(text))?;
    }
    Ok(Some(words))
}

/// A string.
fn text_of(value: &Value) -> Option<&[u8]>
    ensures { option_map (λ s. s.now) result ≡ as_str (view value.now) }
{
    match value.as_str() {
        Some(text) => Some(text.as_bytes()),
        None => None,
    }
}

/// A member of an object that is a string.
fn text_at<'v>(value: &'v Value, name: &str) -> Option<&'v [u8]>
    ensures { option_map (λ s. s.now) result ≡ spec.text_at name.now (view value.now) }
{
    match value.get(name) {
        Some(member) => text_of(member),
        None => None,
    }
}

/// A member of an object that is an array.
fn array_at<'v>(value: &'v Value, name: &str) -> Option<&'v [Value]>
    ensures { option_map (λ a. items_view a.now) result ≡ option_and_then as_array (get name.now (view value.now)) }
{
    match value.get(name) {
        Some(member) => array_of(member),
        None => None,
    }
}

/// An array.
pub(crate) fn array_of(value: &Value) -> Option<&[Value]>
    ensures { option_map (λ a. items_view a.now) result ≡ as_array (view value.now) }
{
    match value.as_array() {
        Some(items) => Some(items.as_slice()),
        None => None,
    }
}
