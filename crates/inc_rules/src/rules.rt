//! Rules, and what is wrong with lines that have none.
ghost use Rattle.std.specs.Prelude.{◌≡◌};

use std::alloc::{AllocError, AllocFailed};

/// What a rule says of the files on its left side.
#[derive(Clone, Copy, Debug, PartialEq, Eq)]
pub enum Verb {
    /// No chain of includes may lead from them to a file of the right side.
    NotReach,
    /// They may not include one themselves.
    NotInclude,
    /// They must include one themselves.
    Include,
    /// The first include directive of each must lead to one.
    IncludeFirst,
}

/// A rule, with parts of the text that it was read from.
#[derive(Drop)]
pub struct Rule<'t> {
    /// The number of its line, from 1.
    pub line: usize,
    /// Its words, without those of a comment.
    pub words: Vec<&'t [u8]>,
    /// The glob of the files that it is about.
    pub left: &'t [u8],
    pub verb: Verb,
    /// The glob of the files of its right side.
    pub right: &'t [u8],
    /// Globs of files that it is not about.
    pub except: Vec<&'t [u8]>,
}

/// What is wrong with a line.
#[derive(Clone, Copy, Debug, PartialEq, Eq)]
pub enum FaultKind {
    /// These words, two at most, are no verb.
    UnknownVerb,
    /// The line ends after this word.
    Ends,
    /// This word does not belong here.
    Unexpected,
    /// This glob has a `[` without `]`.
    BadGlob,
}

/// Why a text has no rules.
#[derive(Drop)]
pub enum RuleFault<'t> {
    /// A line has no rule.
    Malformed {
        /// The number of the line, from 1.
        line: usize,
        kind: FaultKind,
        /// The words that say so.
        words: Vec<&'t [u8]>,
    },
    /// Memory ran out.
    NoMemory,
}

impl<'t> From<AllocError> for RuleFault<'t> {
    ghost use Rattle.inc_rules.specs.declared.rules.RuleFault.TheVariants.{NoMemory};

    ghost from_gives = { λ _ e. e ≡ NoMemory };

    fn from(_error: AllocError) -> RuleFault<'t> {
        RuleFault::NoMemory
    }
}

impl<'t, T: Drop> From<AllocFailed<T>> for RuleFault<'t> {
    ghost use Rattle.inc_rules.specs.declared.rules.RuleFault.TheVariants.{NoMemory};

    ghost from_gives = { λ _ e. e ≡ NoMemory };

    fn from(_error: AllocFailed<T>) -> RuleFault<'t> {
        RuleFault::NoMemory
    }
}
