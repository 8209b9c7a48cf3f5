//! How a call that prints ends.
ghost use Rattle.std.specs.Prelude.{◌≡◌, []};
ghost use Rattle.inc_answers.specs.Printed.{end_of, reached_kind, with_baseline, with_texts};
ghost use Rattle.inc_answers.specs.declared.outcome.RunFault.TheVariants.{Write, NoMemory};

use crate::file_texts::FileText;
use crate::missing_notes::Notes;
use inc_lookup::FileId;
use inc_text::DeviceFault;
use std::alloc::AllocError;
use thiserror::Error;

/// How a call that prints ends once its text is written.
#[derive(Drop)]
pub struct End {
    /// Whether with its answer.
    pub kind: EndKind,
    /// What is noted beside the answer: of headers that were not found, which an answer about cuts takes as empty, and without which another
    /// one may be that no header is reached. After a refusal its reason, where there is more to say than its text does.
    pub notes: Notes,
    /// Rules for make, where they are asked for: of each source which files were read for it.
    pub rules: FileText,
    /// Of each source how many bytes are printed and how it ended, where that is asked for.
    pub endings: FileText,
    /// In words where and why sources stopped, a line for each that did.
    pub stops: Notes,
    /// The lines of a baseline, where one is asked for.
    pub baseline: FileText,
}

/// Whether a call that prints ends with its answer.
#[derive(Clone, Copy, Debug, PartialEq, Eq)]
pub enum EndKind {
    /// With its answer.
    Answered,
    /// With a negative answer.
    Negative,
    /// With a refusal, which is written as text too.
    Refused,
}

/// How a call ends with the answer that a header is reached, which is negative where it is asked to fail.
pub fn reached_kind(fails: bool) -> EndKind
    ensures { result ≡ reached_kind fails }
{
    if fails {
        EndKind::Negative
    } else {
        EndKind::Answered
    }
}

/// How a call ends beside whose answer nothing is noted.
pub fn plain(kind: EndKind) -> End
    ensures { result ≡ end_of [] kind }
{
    noted(kind, Notes::none())
}

/// How a call ends beside whose answer these are noted.
pub fn noted(kind: EndKind, notes: Notes) -> End
    ensures { result ≡ end_of notes kind }
{
    End {
        kind,
        notes,
        rules: FileText::none(),
        endings: FileText::none(),
        stops: Notes::none(),
        baseline: FileText::none(),
    }
}

/// How a call ends with these notes, rules for make, lines on how sources ended, and lines on why they stopped.
pub fn ended(kind: EndKind, notes: Notes, rules: FileText, endings: FileText, stops: Notes) -> End
    ensures { result ≡ with_texts rules endings stops (end_of notes kind) }
{
    End {
        kind,
        notes,
        rules,
        endings,
        stops,
        baseline: FileText::none(),
    }
}

/// The same where nothing else is noted.
pub fn texted(kind: EndKind, rules: FileText, endings: FileText, stops: Notes) -> End
    ensures { result ≡ with_texts rules endings stops (end_of [] kind) }
{
    ended(kind, Notes::none(), rules, endings, stops)
}

/// How a call ends with the lines of a baseline, beside whose answer nothing is noted.
pub fn lined(kind: EndKind, baseline: FileText) -> End
    ensures { result ≡ with_baseline baseline (end_of [] kind) }
{
    End {
        kind,
        notes: Notes::none(),
        rules: FileText::none(),
        endings: FileText::none(),
        stops: Notes::none(),
        baseline,
    }
}

/// Why a call that prints could not end.
#[derive(Clone, Copy, Debug, PartialEq, Eq, Error)]
pub enum RunFault {
    /// A file of the project cannot be read. Nothing is written.
    #[error("cannot read the file at {}", file.index())]
    CannotRead {
        /// The file.
        file: FileId,
    },
    /// A file of the project has more than 16,777,216 bytes. Nothing is written.
    #[error("the file at {} is too long", file.index())]
    FileTooLong {
        /// The file.
        file: FileId,
    },
    /// The certificate cannot be read. Nothing is written.
    #[error("cannot read the certificate")]
    CannotReadCertificate,
    /// The writer failed. A front of the text is written.
    #[error("cannot write")]
    Write,
    /// Memory ran out. Nothing is written.
    #[error("out of memory")]
    NoMemory,
}

impl From<DeviceFault> for RunFault {
    ghost from_gives = { λ _ e. e ≡ Write };

    fn from(_fault: DeviceFault) -> RunFault {
        RunFault::Write
    }
}

impl From<AllocError> for RunFault {
    ghost from_gives = { λ _ e. e ≡ NoMemory };

    fn from(_error: AllocError) -> RunFault {
        RunFault::NoMemory
    }
}
