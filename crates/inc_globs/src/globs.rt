//! Patterns and the paths that they fit.
ghost use Rattle.std.specs.Prelude.{◌≡◌, Some, None, Ok, Err, true, false, IfOk, IfErr, OnErr, map};
ghost use Rattle.inc_globs.specs.Globs.{fits, is_glob, pieces};
ghost use Rattle.inc_globs.specs.Rows.{IsRow};
ghost use Rattle.inc_globs.specs.Views.{seen_piece};

use crate::pieces::piece_at;
use crate::rows::{fill, put_piece};
use std::alloc::{AllocError, AllocFailed, Global};
use std::marker::Model;
use thiserror::Error;

/// A part of a pattern.
#[derive(Clone, Copy)]
pub(crate) enum Piece<'p> {
    /// A byte that stands for itself.
    Byte(u8),
    /// `?`: a byte but `/`.
    Any,
    /// `[..]`: one of some bytes, or of the others, but no `/`.
    Class {
        /// Whether `!` or `^` is before the bytes.
        negated: bool,
        /// Bytes, and ranges of them as `a-z`.
        members: &'p [u8],
    },
    /// `*`: any bytes but `/`.
    Name,
    /// `**`: any bytes.
    Path,
    /// `**/` where a component begins: any directories, or none.
    Directories,
}

/// Why a pattern is none.
#[derive(Clone, Copy, Debug, PartialEq, Eq, Error)]
pub enum GlobFault {
    /// A `[` has no `]`.
    #[error("unterminated [")]
    Unterminated,
    /// Memory ran out.
    #[error("out of memory")]
    NoMemory,
}

impl From<AllocError> for GlobFault {
    ghost use Rattle.inc_globs.specs.declared.globs.GlobFault.TheVariants.{NoMemory};

    ghost from_gives = { λ _ e. e ≡ NoMemory };

    fn from(_error: AllocError) -> GlobFault {
        GlobFault::NoMemory
    }
}

/// A pattern: `*` stands for any bytes but `/`, `**` for any bytes, `**/` where a component begins for any directories or none, `?` for
/// a byte but `/`, `[a-z]` and `[!a-z]` for a byte but `/` that is one of these, or is none of them. No byte makes another one stand for itself
/// but `[` and `]` around it.
#[derive(Drop)]
pub struct Glob<'p> {
    pieces: Vec<Piece<'p>>,
    /// For each rest of the path at hand, whether the pieces from some place on fit it.
    row: Vec<bool>,
}

impl<'p> Model for Glob<'p> {
    ghost use Rattle.std.specs.Prelude.{List, map};
    ghost use Rattle.inc_globs.specs.Globs.{Piece};
    ghost use Rattle.inc_globs.specs.Views.{seen_piece};

    ghost Value = { List Piece };

    ghost view = { λ g. map seen_piece g.pieces.items };
}

impl<T: Drop> From<AllocFailed<T>> for GlobFault {
    ghost use Rattle.inc_globs.specs.declared.globs.GlobFault.TheVariants.{NoMemory};

    ghost from_gives = { λ _ e. e ≡ NoMemory };

    fn from(_error: AllocFailed<T>) -> GlobFault {
        GlobFault::NoMemory
    }
}

impl<'p> Glob<'p> {
    /// The glob of a pattern, which is gone through once.
    pub fn new(alloc: Global, pattern: &'p [u8]) -> Result<Glob<'p>, GlobFault>
        ensures pieces { IfOk result (λ glob. pieces pattern.now ≡ Some glob) }
        ensures fault { IfErr result (λ fault. fault ≡ GlobFault.Unterminated → pieces pattern.now ≡ None) }
    {
        let mut pieces = Vec::new(alloc);
        let mut at = 0;
        let mut first = true;
        while at < pattern.len() {
            let Some((piece, len)) = piece_at(&pattern[at..], first) else {
                return Err(GlobFault::Unterminated);
            };
            pieces.push(piece)?;
            first = piece.ends_component();
            at += len;
        }
        Ok(Glob {
            pieces,
            row: Vec::new(alloc),
        })
    }

    /// Whether it fits a path. It takes one step for each piece and byte, and a byte of memory for each byte of the longest path so far.
    pub fn fits(&mut self, path: &[u8]) -> Result<bool, AllocError>
        ensures fits { IfOk result (λ yes. yes ≡ fits self.old path.now) }
        ensures same { self.new ≡ self.old }
    {
        if self.differs(path) {
            return Ok(false);
        }
        fill(&mut self.row, path)?;
        let mut left = self.pieces.len();
        while left > 0 {
            left -= 1;
            put_piece(&mut self.row, self.pieces[left], path);
        }
        Ok(self.row[0])
    }

    /// Whether the bytes that a pattern begins with, before any other piece, are no front of a path: so most paths are told apart.
    fn differs(&self, path: &[u8]) -> bool
        ensures { result ≡ true → fits self.now path.now ≡ false }
    {
        for index in 0..self.pieces.len() {
            let Piece::Byte(byte) = self.pieces[index] else {
                return false;
            };
            if index >= path.len() {
                return true;
            }
            if path[index] != byte {
                return true;
            }
        }
        false
    }
}

/// Whether a word is a pattern: it holds `*`, `?` or `[`.
pub fn is_glob(word: &[u8]) -> bool
    ensures { result ≡ is_glob word.now }
{
    for byte in word {
        if *byte == b'*' || *byte == b'?' || *byte == b'[' {
            return true;
        }
    }
    false
}
