//! Where the bytes of a project's files come from.
ghost use Rattle.std.specs.Prelude.{◌≡◌, ◌≤◌, ℕ, List, Result, map, vec_len, IfOk};
ghost use Rattle.inc_text.specs.declared.devices.TheConstants.{LONGEST_FILE};
ghost use Rattle.inc_text.specs.declared.devices.ReadFault.{ReadFault};
ghost use Rattle.inc_lookup.specs.Projects.{paths_of};
ghost use Rattle.inc_lookup.specs.Views.{seen_file, seen_answer};

use crate::projects::FileId;
use inc_text::{LONGEST_FILE, ReadFault};
use std::alloc::{AllocError, Global};

/// Where the bytes of a project's files come from.
pub trait Sources {
    // a reading of the file at a place may answer this, and leads from one state to another
    ghost gives: { Self → ℕ → Result (List ℕ) ReadFault → Self → Type 0 };

    /// All bytes of a file: at most 16,777,216.
    fn read(&mut self, alloc: Global, file: FileId) -> Result<Vec<u8>, ReadFault>
        ensures gives { gives self.old file (seen_answer result) self.new }
        ensures short { IfOk result (λ bytes. vec_len bytes ≤ LONGEST_FILE) };
}

/// A file by its path and its bytes, both of any bytes.
#[derive(Drop)]
pub struct SourceFile {
    /// The path, as it was written.
    pub path: Vec<u8>,
    /// What the file holds.
    pub bytes: Vec<u8>,
}

/// Files that are held in memory, where they are lent from. A file of a project is the one at its place.
#[derive(Drop)]
pub struct HeldFiles<'a> {
    /// The files, in the order of the project's list.
    pub files: &'a [SourceFile],
}

impl<'a> HeldFiles<'a> {
    /// The paths of the files, in their order, of which a project can be made.
    pub fn paths(&self, alloc: Global) -> Result<Vec<&'a [u8]>, AllocError>
        ensures { IfOk result (λ paths. map (λ p. p.now) paths.items
            ≡ paths_of (map seen_file self.now.files.now)) }
    {
        let mut paths = Vec::with_capacity(alloc, self.files.len())?;
        for file in self.files {
            paths.push(file.path.as_slice())?;
        }
        Ok(paths)
    }
}

impl Sources for HeldFiles<'_> {
    ghost use Rattle.inc_lookup.specs.Held.{held_gives};

    ghost gives = { held_gives };

    fn read(&mut self, alloc: Global, file: FileId) -> Result<Vec<u8>, ReadFault> {
        let Some(held) = self.files.get(file.index()) else {
            return Err(ReadFault::Read);
        };
        if held.bytes.len() > LONGEST_FILE {
            return Err(ReadFault::TooLong);
        }
        Ok(Vec::from_slice(alloc, &held.bytes)?)
    }
}
