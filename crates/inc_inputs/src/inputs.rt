//! What a run reads, and the files that it writes.
ghost use Rattle.std.specs.Prelude.{◌≡◌, ◌≤◌, ℕ, Bool, List, Result, Some, map, vec_len, is_ok, IfOk};
ghost use Rattle.inc_text.specs.declared.devices.TheConstants.{LONGEST_FILE};
ghost use Rattle.inc_text.specs.declared.devices.ReadFault.{ReadFault};
ghost use Rattle.inc_lookup.specs.Views.{seen_answer};
ghost use Rattle.inc_inputs.specs.Inputs.{FileAt, FilesBelow, Here, Input, ListedAt, WholeAt, StandardInput, listed, named};

use inc_lookup::{FileId, Sources};
use inc_text::{ByteSource, DeviceFault, ReadFault};
use std::alloc::{AllocError, Global};

/// The files, and the standard input, that a run reads, and the files that it writes.
pub trait Inputs: Drop {
    // a reading of an input may answer this, and leads from one state to another
    ghost gives: { Self → Input → Result (List ℕ) ReadFault → Self → Type 0 };
    // what is read piece by piece, for the input that a word names
    ghost opens: { Self → List ℕ → Self.Stream → Type 0 };

    // it is set whether links are followed on the way to the files of the list, and whether notes are turned off, and that leads from one
    // state to another
    ghost begins: { Self → (follows quiet : Bool) → Self → Type 0 };

    // a text that is to be the file of a name is written whole, or not, and that leads from one state to another
    ghost puts: { Self → (name text : List ℕ) → (whole : Bool) → Self → Type 0 };

    /// What is read piece by piece.
    type Stream: ByteSource + Drop;

    /// Sets whether links are followed on the way to the files of the list, and whether notes are turned off, before any file is read.
    fn begin(&mut self, follows: bool, is_quiet: bool)
        ensures { begins self.old follows is_quiet self.new };

    /// The bytes of the file of the project at this path of the list: at most 16,777,216.
    fn read_listed(&mut self, alloc: Global, path: &[u8]) -> Result<Vec<u8>, ReadFault>
        ensures gives { gives self.old (ListedAt path.now) (seen_answer result) self.new }
        ensures short { IfOk result (λ bytes. vec_len bytes ≤ LONGEST_FILE) };

    /// The bytes of the file at a path that a word is: at most 16,777,216.
    fn read_file(&mut self, alloc: Global, path: &[u8]) -> Result<Vec<u8>, ReadFault>
        ensures gives { gives self.old (FileAt path.now) (seen_answer result) self.new }
        ensures short { IfOk result (λ bytes. vec_len bytes ≤ LONGEST_FILE) };

    /// The bytes of standard input: at most 16,777,216.
    fn read_input(&mut self, alloc: Global) -> Result<Vec<u8>, ReadFault>
        ensures gives { gives self.old StandardInput (seen_answer result) self.new }
        ensures short { IfOk result (λ bytes. vec_len bytes ≤ LONGEST_FILE) };

    /// The paths of the files of C below a folder, each ended by NUL, but for those that one of the globs fits (`Excluded`). Which these are
    /// the inputs say.
    fn list_files(
        &mut self,
        alloc: Global,
        folder: &str,
        exclude: &[&str],
    ) -> Result<Vec<u8>, ReadFault>
        ensures { gives self.old (FilesBelow folder.now (map (λ g. g.now) exclude.now)) (seen_answer result) self.new };

    /// The bytes of the file at a path that a word is, however many these are, so that memory alone bounds them: a
    /// compilation database may be longer than source files.
    fn read_whole(&mut self, alloc: Global, path: &[u8]) -> Result<Vec<u8>, ReadFault>
        ensures { gives self.old (WholeAt path.now) (seen_answer result) self.new };

    /// The absolute path of the folder of the run.
    fn run_folder(&mut self, alloc: Global) -> Result<Vec<u8>, ReadFault>
        ensures { gives self.old Here (seen_answer result) self.new };

    /// What a word names, to be read piece by piece; `-` is standard input. Nothing is read yet.
    fn open(&self, alloc: Global, name: &str) -> Result<Self::Stream, AllocError>
        ensures { IfOk result (λ stream. opens self.now name.now stream) };

    /// Creates the file that a word names, or empties it if it is there, and writes a text to it.
    fn write_file(&mut self, name: &str, text: &[u8]) -> Result<(), DeviceFault>
        ensures { puts self.old name.now text.now (is_ok result) self.new };
}

/// The bytes of what a word names; `-` is standard input.
pub(crate) fn read_named<I: Inputs>(
    alloc: Global,
    inputs: &mut I,
    name: &str,
) -> Result<Vec<u8>, ReadFault>
    ensures { I.gives inputs.old (named name.now) (seen_answer result) inputs.new }
{
    if name == "-" {
        inputs.read_input(alloc)
    } else {
        inputs.read_file(alloc, name.as_bytes())
    }
}

/// The files of a list, under their paths as they are written there.
#[derive(Drop)]
pub struct ListedFiles<'a, I: Inputs> {
    pub inputs: I,
    pub paths: &'a [&'a [u8]],
}

impl<I: Inputs> Sources for ListedFiles<'_, I> {
    ghost use Rattle.std.specs.Prelude.{◌≡◌, map};

    ghost gives = { λ old file answer new. (new.paths ≡ old.paths)
        × listed I.gives (map (λ p. p.now) old.paths.now) old.inputs file answer new.inputs };

    fn read(&mut self, alloc: Global, file: FileId) -> Result<Vec<u8>, ReadFault> {
        match self.paths.get(file.index()) {
            Some(path) => self.inputs.read_listed(alloc, path),
            None => Err(ReadFault::Read),
        }
    }
}
