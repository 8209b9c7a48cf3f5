//! What a whole preprocessing changes.
ghost use Rattle.std.specs.Prelude.{◌≡◌, ◌||◌, ℕ, List, length, nat_eq, bytes_eq, OnOk};
ghost use Rattle.std.specs.List.{list_any};
ghost use Rattle.inc_macro.specs.Tables.{table_of};
ghost use Rattle.inc_pp.specs.Includes.{with_once};
ghost use Rattle.inc_pp.specs.Preprocessing.{with_read};
ghost use Rattle.inc_pp.specs.StateViews.{state_of};
ghost use Rattle.inc_pp.specs.Tasks.{begun};

use crate::files_read::FilesRead;
use crate::output::Output;
use inc_expand::Budget;
use inc_lookup::FileId;
use inc_macro::{DistinctNames, Macros};
use inc_text::{SeededState, flag_at, set_flag};
use std::alloc::{AllocError, Global};

/// What a whole preprocessing changes.
#[derive(Drop)]
pub(crate) struct State {
    pub(crate) alloc: Global,
    /// That of the macro table.
    pub(crate) seed: u64,
    pub(crate) macros: Macros,
    /// For the files up to some place, whether they are read once.
    once: Vec<bool>,
    /// The names that `#pragma GCC poison` took away.
    pub(crate) poisoned: DistinctNames,
    pub(crate) budget: Budget,
    /// The files read so far.
    reads: FilesRead,
    /// How many bytes they have, those of a file that was read twice counted twice.
    bytes_read: u64,
    pub(crate) output: Output,
}

impl State {
    /// Nothing is read yet, all work units are there, and no count was given.
    pub(crate) fn new(alloc: Global, seed: u64, macros: Macros) -> State
        ensures { state_of result ≡ begun (table_of macros) }
    {
        State {
            alloc,
            seed,
            macros,
            once: Vec::new(alloc),
            poisoned: DistinctNames::new(alloc),
            budget: Budget::new(),
            reads: FilesRead::new(alloc),
            bytes_read: 0,
            output: Output::new(alloc),
        }
    }

    /// The files that were read.
    pub(crate) fn files_read(&self) -> &[FileId]
        ensures { result.now ≡ self.now.reads }
    {
        self.reads.files()
    }

    /// Adds a file of so many bytes to those that were read.
    pub(crate) fn add_read(&mut self, file: FileId, size: usize) -> Result<(), AllocError>
        ensures { OnOk result (state_of self.new ≡ with_read file size (state_of self.old)) }
    {
        // No memory holds the numbers of so many files.
        let Some(bytes_read) = self.bytes_read.checked_add(size as u64) else {
            return Err(AllocError);
        };
        self.reads.add(file)?;
        self.bytes_read = bytes_read;
        Ok(())
    }

    /// How many bytes were read.
    pub(crate) fn bytes_read(&self) -> u64
        ensures { result ≡ (state_of self.now).bytes_read }
    {
        self.bytes_read
    }

    /// How many files were read.
    pub(crate) fn reads(&self) -> usize
        ensures { result ≡ length self.now.reads }
    {
        self.reads.len()
    }

    /// Whether a file was read.
    pub(crate) fn has_read(&self, file: FileId) -> bool
        ensures { result ≡ list_any (nat_eq file) self.now.reads }
    {
        self.reads.has(file)
    }

    /// Has a file read once.
    pub(crate) fn set_once(&mut self, file: FileId) -> Result<(), AllocError>
        ensures done { OnOk result (state_of self.new ≡ with_once file (state_of self.old)) }
        ensures reads { (state_of self.new).reads ≡ (state_of self.old).reads }
    {
        set_flag(&mut self.once, file.index())
    }

    /// Has a name among those that were taken away.
    pub(crate) fn note_poisoned(&mut self, name: &[u8]) -> Result<(), AllocError>
        ensures done { OnOk result ((other : List ℕ) → (state_of self.new).poisoned other
            ≡ (bytes_eq other name.now || (state_of self.old).poisoned other)) }
        ensures others { record (state_of self.new) { poisoned = (state_of self.old).poisoned } ≡ state_of self.old }
    {
        if self.poisoned.contains(name) {
            return Ok(());
        }
        self.poisoned
            .add(self.alloc, SeededState::new(self.seed), name)?;
        Ok(())
    }

    /// Whether a file is read once.
    pub(crate) fn is_once(&self, file: FileId) -> bool
        ensures { result ≡ (state_of self.now).once file }
    {
        flag_at(&self.once, file.index())
    }
}
