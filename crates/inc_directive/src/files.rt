//! The directives of a file, by its text.
ghost use Rattle.std.specs.Prelude.{◌≡◌, ◌≢◌, Ok, Err, IfOk, IfErr};
ghost use Rattle.inc_directive.specs.FileDirectives.{directives_in, file_directives, fault_line};
ghost use Rattle.inc_directive.specs.Groups.{file_lines};
ghost use Rattle.inc_directive.specs.Parts.{lines_of_parts};
ghost use Rattle.inc_token.specs.LineWalk.{lines_or_none};
ghost use Rattle.inc_token.specs.TokenLines.{token_lines};

use crate::file_lines::FileLines;
use crate::sections::{BalanceFault, check};
use inc_text::{Language, Text};
use inc_token::LexFault;
use std::alloc::{AllocError, Global};
use thiserror::Error;

/// Why a file has no directives to report: of its faults the first that holds in this order, an unterminated comment before all
/// faults of conditionals, and of these the first from the top.
#[derive(Clone, Copy, Debug, PartialEq, Eq, Error)]
pub enum FileFault {
    /// A `/*` has no `*/` after it.
    #[error("unterminated comment, begun on line {line}")]
    OpenComment {
        /// The physical line of the `/*`.
        line: u32,
    },
    /// Its conditionals do not balance. It is never that memory ran out.
    #[error("{0}")]
    Balance(BalanceFault),
    /// Memory ran out.
    #[error("out of memory")]
    NoMemory,
}

impl FileFault {
    /// The physical line of the fault; `None` where memory ran out, which is no fault of the file.
    pub fn line(self) -> Option<u32>
        ensures { result ≡ fault_line self }
    {
        match self {
            FileFault::OpenComment { line } => Some(line),
            FileFault::Balance(fault) => fault.line(),
            FileFault::NoMemory => None,
        }
    }
}

impl From<LexFault> for FileFault {
    ghost use Rattle.inc_directive.specs.FileDirectives.{lex_fault};

    ghost from_gives = { λ fault e. e ≡ lex_fault fault };

    fn from(fault: LexFault) -> FileFault {
        match fault {
            LexFault::OpenComment { line } => FileFault::OpenComment { line },
            LexFault::NoMemory => FileFault::NoMemory,
        }
    }
}

impl From<BalanceFault> for FileFault {
    ghost use Rattle.inc_directive.specs.FileDirectives.{balance_fault};

    ghost from_gives = { λ fault e. e ≡ balance_fault fault };

    fn from(fault: BalanceFault) -> FileFault {
        match fault {
            BalanceFault::NoMemory => FileFault::NoMemory,
            _ => FileFault::Balance(fault),
        }
    }
}

impl From<AllocError> for FileFault {
    ghost use Rattle.inc_directive.specs.declared.files.FileFault.TheVariants.{NoMemory};

    ghost from_gives = { λ _ e. e ≡ NoMemory };

    fn from(_error: AllocError) -> FileFault {
        FileFault::NoMemory
    }
}

/// The lines of a file by its text (ISO/IEC 9899:2018, 6.10), whose conditionals are balanced.
pub fn read_lines(alloc: Global, text: Text, language: Language) -> Result<FileLines, FileFault>
    ensures directives { IfOk result (λ file. file_directives language text
        ≡ Ok (directives_in (lines_of_parts file))) }
    ensures lines { IfOk result (λ file. lines_of_parts file
        ≡ file_lines language (lines_or_none (token_lines language text))) }
    ensures fault { IfErr result (λ fault. fault ≢ FileFault.NoMemory →
        file_directives language text ≡ Err fault) }
{
    let lines = FileLines::new(alloc, text, language, &[])?;
    check(alloc, &lines)?;
    Ok(lines)
}
