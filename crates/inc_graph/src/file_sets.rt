//! Sets of files of a project.
ghost use Rattle.std.specs.Prelude.{◌≡◌, ◌<◌, ◌++◌, ◌∷◌, [], IfOk, OnOk, if◌then◌else◌, length};
ghost use Rattle.std.specs.List.{All};
ghost use Rattle.inc_graph.specs.FileSets.{AreFlags};
ghost use Rattle.inc_graph.specs.IncludeGraph.{source_files};
ghost use Rattle.inc_graph.specs.Members.{is_member};
ghost use Rattle.inc_graph.specs.declared.building.Source.{Source};

use crate::building::Source;
use inc_lookup::FileId;
use std::alloc::{AllocError, Global};
use std::marker::Model;

/// Files of a project as a list, with a flag for each file of the project, so that no question whether a file is one of them walks along
/// the list.
#[derive(Drop)]
pub(crate) struct FileSet {
    files: Vec<FileId>,
    /// For each file of the project whether it is in the list.
    flags: Vec<bool>,
}

impl Model for FileSet {
    ghost use Rattle.std.specs.Prelude.{ℕ, List};
    ghost use Rattle.inc_graph.specs.FileSets.{AreFlags};

    ghost Value = { List ℕ };

    ghost view = { λ s. s.files.items };

    ghost invariant = { λ s. AreFlags s.files.items s.flags.items };
}

impl FileSet {
    /// These files of a project of so many.
    pub fn new(alloc: Global, count: usize, files: &[FileId]) -> Result<FileSet, AllocError>
        requires { All (λ f. f < count) files.now }
        ensures { IfOk result (λ set. set ≡ files.now) }
    {
        let mut flags = vec![in alloc; false; count]?;
        for file in files {
            flags[file.index()] = true;
        }
        Ok(FileSet {
            files: Vec::from_slice(alloc, files)?,
            flags,
        })
    }

    /// The files of sources in a project of so many, each once, where it comes first.
    pub fn of_sources(
        alloc: Global,
        count: usize,
        sources: &[Source],
    ) -> Result<FileSet, AllocError>
        requires { All (λ (s : Source). s.file < count) sources.now }
        ensures { IfOk result (λ set. set ≡ source_files sources.now) }
    {
        let mut files = Vec::new(alloc);
        let mut flags = vec![in alloc; false; count]?;
        for source in sources {
            add_file(&mut files, &mut flags, source.file)?;
        }
        Ok(FileSet { files, flags })
    }

    /// The files, in their order.
    pub fn as_slice(&self) -> &[FileId]
        ensures { result.now ≡ self.now }
    {
        &self.files
    }

    /// Whether a file is one of them.
    #[inline(always)]
    pub fn contains(&self, file: FileId) -> bool
        ensures { result ≡ is_member file self.now }
    {
        match self.flags.get(file.index()) {
            Some(flag) => *flag,
            None => false,
        }
    }
}

/// Adds a file, unless its flag is set, and sets that.
fn add_file(files: &mut Vec<FileId>, flags: &mut Vec<bool>, file: FileId) -> Result<(), AllocError>
    requires within { file < length flags.old.items }
    requires flags { AreFlags files.old.items flags.old.items }
    ensures files { OnOk result (files.new.items
        ≡ (if is_member file files.old.items then files.old.items else files.old.items ++ file ∷ [])) }
    ensures flags { OnOk result (AreFlags files.new.items flags.new.items) }
    ensures long { OnOk result (length flags.new.items ≡ length flags.old.items) }
{
    if flags[file.index()] {
        return Ok(());
    }
    files.push(file)?;
    flags[file.index()] = true;
    Ok(())
}
