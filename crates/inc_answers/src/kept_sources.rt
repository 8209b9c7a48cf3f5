//! Sources of which the bytes are kept that they give.
ghost use Rattle.std.specs.Prelude.{◌≡◌, ◌≤◌, Some, None, length, replicate, option_map, IfOk, IfErr, IfSome};
ghost use Rattle.std.specs.List.{slice_set};
ghost use Rattle.inc_text.specs.declared.devices.TheConstants.{LONGEST_FILE};
ghost use Rattle.inc_answers.specs.KeptFiles.{kept_at};

use inc_lookup::{FileId, Sources};
use inc_text::ReadFault;
use std::alloc::{AllocError, Global};
use std::marker::Model;

/// The bytes of a file.
#[derive(Drop)]
struct KeptFile {
    bytes: Vec<u8>,
}

impl Model for KeptFile {
    ghost use Rattle.std.specs.Prelude.{ℕ, ◌≤◌, List, length};
    ghost use Rattle.inc_text.specs.declared.devices.TheConstants.{LONGEST_FILE};

    ghost Value = { List ℕ };

    ghost view = { λ f. f.bytes.items };

    ghost invariant = { λ f. length f.bytes.items ≤ LONGEST_FILE };
}

impl KeptFile {
    /// A file with these bytes.
    fn new(bytes: Vec<u8>) -> KeptFile
        requires { length bytes.items ≤ LONGEST_FILE }
        ensures { result ≡ bytes.items }
    {
        KeptFile { bytes }
    }

    /// Its bytes.
    fn bytes(&self) -> &[u8]
        ensures bytes { result.now ≡ self.now }
        ensures short { length result.now ≤ LONGEST_FILE }
    {
        &self.bytes
    }
}

/// The bytes of those files of a project that were read.
#[derive(Drop)]
pub struct KeptFiles {
    /// By their place in the project's list.
    files: Vec<Option<KeptFile>>,
}

impl Model for KeptFiles {
    ghost use Rattle.std.specs.Prelude.{ℕ, List, Option};

    ghost Value = { List (Option (List ℕ)) };

    ghost view = { λ k. k.files.items };
}

impl KeptFiles {
    /// Of so many files none is read.
    fn unread(alloc: Global, count: usize) -> Result<KeptFiles, AllocError>
        ensures { IfOk result (λ kept. kept ≡ replicate count None) }
    {
        let mut files = Vec::with_capacity(alloc, count)?;
        for _ in 0..count {
            files.push(None)?;
        }
        Ok(KeptFiles { files })
    }

    /// Keeps the bytes of a file of the project.
    fn keep(&mut self, file: FileId, bytes: Vec<u8>)
        requires { length bytes.items ≤ LONGEST_FILE }
        ensures { self.new ≡ slice_set self.old file (Some bytes.items) }
    {
        if file.index() < self.files.len() {
            self.files[file.index()] = Some(KeptFile::new(bytes));
        }
    }

    /// The bytes of a file; `None` where it was not read.
    pub fn bytes(&self, file: FileId) -> Option<&[u8]>
        ensures bytes { option_map (λ b. b.now) result ≡ kept_at self.now file }
        ensures short { IfSome result (λ b. length b.now ≤ LONGEST_FILE) }
    {
        match self.files.get(file.index())? {
            Some(kept) => Some(kept.bytes()),
            None => None,
        }
    }
}

/// Sources that keep the bytes of each file that is read of them.
#[derive(Drop)]
pub struct KeptSources<S: Sources> {
    sources: S,
    pub files: KeptFiles,
}

impl<S: Sources> KeptSources<S> {
    /// Sources for so many files; where memory ran out, the sources alone.
    pub fn new(alloc: Global, sources: S, count: usize) -> Result<KeptSources<S>, S>
        ensures sources { IfOk result (λ kept. kept.sources ≡ sources) }
        ensures files { IfOk result (λ kept. kept.files ≡ replicate count None) }
        ensures given_back { IfErr result (λ s. s ≡ sources) }
    {
        match KeptFiles::unread(alloc, count) {
            Ok(files) => Ok(KeptSources { sources, files }),
            Err(_) => Err(sources),
        }
    }

    /// Gives the sources back.
    pub fn into_sources(self) -> S
        ensures { result ≡ self.sources }
    {
        self.sources
    }
}

impl<S: Sources> Sources for KeptSources<S> {
    ghost use Rattle.inc_answers.specs.KeptFiles.{keeps};

    ghost gives = { keeps S.gives };

    fn read(&mut self, alloc: Global, file: FileId) -> Result<Vec<u8>, ReadFault> {
        let bytes = self.sources.read(alloc, file)?;
        let kept = Vec::from_slice(alloc, &bytes)?;
        self.files.keep(file, kept);
        Ok(bytes)
    }
}
