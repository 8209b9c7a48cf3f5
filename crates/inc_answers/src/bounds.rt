//! How many elements of lists are printed.
ghost use Rattle.std.specs.Prelude.{◌≡◌, ◌≤◌, ◌++◌, OnOk};
ghost use Rattle.inc_answers.specs.Bounds.{more_words, shown_count};

use crate::missing_notes::put_number;
use std::alloc::AllocError;

/// How many of so many elements are printed, where at most `most` are.
pub fn shown_count(most: Option<usize>, count: usize) -> usize
    ensures count { result ≡ shown_count most count }
    ensures within { result ≤ count }
{
    match most {
        Some(most) => most.min(count),
        None => count,
    }
}

/// Adds that so many elements more are not printed.
pub fn put_more(text: &mut Vec<u8>, count: usize) -> Result<(), AllocError>
    ensures { OnOk result (text.new.items ≡ text.old.items ++ more_words count) }
{
    text.extend_from_slice(b".. and ")?;
    put_number(text, count as u64)?;
    text.extend_from_slice(b" more")?;
    Ok(())
}
