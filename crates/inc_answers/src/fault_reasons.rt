//! The line that says why a file is bad, beside the refusal.
ghost use Rattle.std.specs.Prelude.{◌≡◌, ◌++◌, IfOk, OnOk};
ghost use Rattle.inc_directive.specs.FileDirectives.{bad_line};
ghost use Rattle.inc_answers.specs.FaultReasons.{bad_file_line, balance_words, fault_words, reason_line};

use crate::missing_notes::{Notes, put_number, put_shown};
use inc_directive::{BalanceFault, FileFault};
use std::alloc::{AllocError, Global};

/// The line on a file that is called so.
pub fn bad_file_line(alloc: Global, title: &[u8], fault: FileFault) -> Result<Notes, AllocError>
    ensures { IfOk result (λ notes. notes ≡ bad_file_line title.now fault) }
{
    reason_line(alloc, title, bad_line(fault), fault_words(fault))
}

/// The line that says in words what is at a line of a file that is called so.
pub fn reason_line(
    alloc: Global,
    title: &[u8],
    line: u32,
    words: &[u8],
) -> Result<Notes, AllocError>
    ensures { IfOk result (λ notes. notes ≡ reason_line title.now line words.now) }
{
    let mut text = Vec::new(alloc);
    put_reason(&mut text, title, line, words)?;
    Ok(Notes::of(text))
}

/// Adds that line.
pub fn put_reason(
    text: &mut Vec<u8>,
    title: &[u8],
    line: u32,
    words: &[u8],
) -> Result<(), AllocError>
    ensures { OnOk result (text.new.items ≡ text.old.items ++ reason_line title.now line words.now) }
{
    text.extend_from_slice(b"incut: ")?;
    put_shown(text, title)?;
    text.extend_from_slice(b":")?;
    put_number(text, u64::from(line))?;
    text.extend_from_slice(b": ")?;
    text.extend_from_slice(words)?;
    text.push(b'\n')?;
    Ok(())
}

/// The line of a fault; 0 where memory ran out, which is none.
pub fn bad_line(fault: FileFault) -> u32
    ensures { result ≡ bad_line fault }
{
    fault.line().unwrap_or(0)
}

/// A fault of a file in words.
fn fault_words(fault: FileFault) -> &'static [u8]
    ensures { result.now ≡ fault_words fault }
{
    match fault {
        FileFault::OpenComment { .. } => b"unterminated comment",
        FileFault::Balance(fault) => balance_words(fault),
        FileFault::NoMemory => b"",
    }
}

/// A fault of conditionals in words.
pub fn balance_words(fault: BalanceFault) -> &'static [u8]
    ensures { result.now ≡ balance_words fault }
{
    match fault {
        BalanceFault::OpenIf { .. } => b"unterminated #if",
        BalanceFault::StrayBranch { .. } => b"#elif, #else or #endif without #if",
        BalanceFault::AfterElse { .. } => b"#elif or #else after #else",
        BalanceFault::NoMemory => b"",
    }
}
