//! The files that a preprocessing has read.
ghost use Rattle.std.specs.Prelude.{◌≡◌, ◌++◌, ◌∷◌, [], length, nat_eq, OnOk};
ghost use Rattle.std.specs.List.{list_any};

use inc_lookup::FileId;
use inc_text::{flag_at, set_flag};
use std::alloc::{AllocError, Global};
use std::marker::Model;

/// The files that were read, in order; whether one was read is known without a search.
#[derive(Drop)]
pub(crate) struct FilesRead {
    files: Vec<FileId>,
    /// For the files up to some place, whether they are in the list.
    flags: Vec<bool>,
}

impl Model for FilesRead {
    ghost use Rattle.std.specs.Prelude.{◌≡◌, ℕ, List, nat_eq};
    ghost use Rattle.std.specs.List.{list_any};
    ghost use Rattle.inc_text.specs.Flags.{flag_at};

    ghost Value = { List ℕ };

    ghost view = { λ r. r.files.items };

    ghost invariant = { λ r. (i : ℕ) → flag_at r.flags.items i ≡ list_any (nat_eq i) r.files.items };
}

impl FilesRead {
    /// No file is read yet.
    pub(crate) fn new(alloc: Global) -> FilesRead
        ensures { result ≡ [] }
    {
        FilesRead {
            files: Vec::new(alloc),
            flags: Vec::new(alloc),
        }
    }

    /// Adds a file.
    pub(crate) fn add(&mut self, file: FileId) -> Result<(), AllocError>
        ensures { OnOk result (self.new ≡ self.old ++ file ∷ []) }
    {
        self.files.push(file)?;
        match set_flag(&mut self.flags, file.index()) {
            Ok(()) => Ok(()),
            Err(error) => {
                self.files.pop();
                Err(error)
            }
        }
    }

    /// Whether a file is among them.
    pub(crate) fn has(&self, file: FileId) -> bool
        ensures { result ≡ list_any (nat_eq file) self.now }
    {
        flag_at(&self.flags, file.index())
    }

    /// How many there are, a file that was read twice counted twice.
    pub(crate) fn len(&self) -> usize
        ensures { result ≡ length self.now }
    {
        self.files.len()
    }

    /// All of them.
    pub(crate) fn files(&self) -> &[FileId]
        ensures { result.now ≡ self.now }
    {
        &self.files
    }
}
