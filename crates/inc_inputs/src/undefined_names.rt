//! Names that a build may leave undefined.
ghost use Rattle.std.specs.Prelude.{◌≡◌, ◌≢◌, IfOk, MatchOption, None, Some, map};
ghost use Rattle.inc_token.specs.Spellings.{class_of};
ghost use Rattle.inc_inputs.specs.Reports.{out_of_memory, report_of};
ghost use Rattle.inc_inputs.specs.UndefinedNames.{is_identifier, name_report, names_report};

use crate::ends::add_word;
use crate::failures::{Failure, not_undefined};
use inc_macro::is_reserved;
use inc_text::Language;
use inc_token::{Kind, kind_of};
use std::alloc::{AllocError, Global};

/// What is to be reported of the first of these names that a build cannot leave undefined: no identifier, or a name that is predefined or
/// reserved.
pub fn names_failure(alloc: Global, language: Language, names: &[&str]) -> Option<Failure>
    ensures { MatchOption result (names_report language (map (λ n. n.now) names.now) ≡ None)
        (λ failure. report_of failure ≢ out_of_memory →
        names_report language (map (λ n. n.now) names.now) ≡ Some (report_of failure)) }
{
    for name in names {
        if let Some(failure) = name_failure(alloc, language, name) {
            return Some(failure);
        }
    }
    None
}

/// The same of one name.
fn name_failure(alloc: Global, language: Language, name: &str) -> Option<Failure>
    ensures { MatchOption result (name_report language name.now ≡ None)
        (λ failure. report_of failure ≢ out_of_memory → name_report language name.now ≡ Some (report_of failure)) }
{
    if !is_identifier(language, name.as_bytes()) {
        return Some(not_undefined(alloc, name, "' is not an identifier"));
    }
    if is_reserved(language, name.as_bytes()) {
        let said = "' is a predefined or reserved name";
        return Some(not_undefined(alloc, name, said));
    }
    None
}

/// Whether a text is an identifier.
fn is_identifier(language: Language, text: &[u8]) -> bool
    ensures { result ≡ is_identifier (class_of language text.now) }
{
    matches!(kind_of(language, text), Some(Kind::Identifier))
}

/// The bytes of words.
pub fn bytes_of_words<'w>(alloc: Global, words: &[&'w str]) -> Result<Vec<&'w [u8]>, AllocError>
    ensures { IfOk result (λ bytes. map (λ b. b.now) bytes.items ≡ map (λ w. w.now) words.now) }
{
    let mut bytes = Vec::with_capacity(alloc, words.len())?;
    for word in words {
        add_word(&mut bytes, word)?;
    }
    Ok(bytes)
}
