//! Notes of the directories of include paths below which no file of the project is.
ghost use Rattle.std.specs.Prelude.{◌≡◌, ◌++◌, [], ◌∷◌, IfOk, OnOk, map};
ghost use Rattle.inc_build.specs.Builds.{with_name};
ghost use Rattle.inc_inputs.specs.BuildNotes.{none, with_lines};
ghost use Rattle.inc_inputs.specs.BuildProjects as spec;
ghost use Rattle.inc_inputs.specs.BuildReports.{some_lines};
ghost use Rattle.inc_inputs.specs.Views.{dirs_in, notes_in};

use crate::build_dirs::Dirs;
use crate::build_files::BuildFiles;
use crate::build_texts::Notes;
use inc_text::{Key, SeededState};
use indexmap::IndexSet;
use std::alloc::{AllocError, Global};

/// Adds notes of the directories of an include path and others below which no file of the project is, each once.
pub(crate) fn put_empty(
    alloc: Global,
    seed: u64,
    found: &BuildFiles,
    own: &Dirs,
    others: &[Dirs],
    notes: &mut Vec<u8>,
) -> Result<(), AllocError>
    ensures { OnOk result (notes.new.items ≡ notes.old.items ++ some_lines (spec.all_empty found.now [] (dirs_in own.now ∷ map dirs_in others.now))) }
{
    let empty = empty_notes(alloc, seed, found, own, others)?;
    empty.put(alloc, notes)?;
    Ok(())
}

/// The notes of the directories below which no file of the project is.
fn empty_notes(
    alloc: Global,
    seed: u64,
    found: &BuildFiles,
    own: &Dirs,
    others: &[Dirs],
) -> Result<Notes, AllocError>
    ensures { IfOk result (λ notes. notes_in notes ≡ with_lines none (spec.all_empty found.now [] (dirs_in own.now ∷ map dirs_in others.now))) }
{
    let mut empty = Empty::new(alloc, SeededState::new(seed));
    empty.add_path(alloc, found, own)?;
    empty.add_paths(alloc, found, others)?;
    Ok(empty.notes)
}

/// Notes of directories below which no file of the project is, and the directories that are known.
#[derive(Drop)]
struct Empty {
    notes: Notes,
    known: IndexSet<Key, SeededState>,
}

impl Empty {
    /// None.
    fn new(alloc: Global, keys: SeededState) -> Empty
        ensures notes { notes_in result.notes ≡ none }
        ensures known { result.known.keys ≡ [] }
    {
        Empty {
            notes: Notes::new(alloc),
            known: IndexSet::with_hasher(alloc, keys),
        }
    }

    /// Notes those of include paths.
    fn add_paths(
        &mut self,
        alloc: Global,
        found: &BuildFiles,
        paths: &[Dirs],
    ) -> Result<(), AllocError>
        ensures { OnOk result (notes_in self.new.notes ≡ with_lines (notes_in self.old.notes)
            (spec.all_empty found.now self.old.known.keys (map dirs_in paths.now))) }
    {
        let mut at = 0;
        while at < paths.len() {
            self.add_path(alloc, found, &paths[at])?;
            at += 1;
        }
        Ok(())
    }

    /// Notes those of an include path.
    fn add_path(&mut self, alloc: Global, found: &BuildFiles, dirs: &Dirs) -> Result<(), AllocError>
        ensures notes { OnOk result (notes_in self.new.notes ≡ with_lines (notes_in self.old.notes)
            (spec.path_empty found.now self.old.known.keys (dirs_in dirs.now))) }
        ensures known { OnOk result (self.new.known.keys ≡ spec.known_with self.old.known.keys (dirs_in dirs.now)) }
    {
        self.add_all(alloc, found, b"-I", &dirs.dirs)?;
        self.add_all(alloc, found, b"-iquote", &dirs.quoted)?;
        self.add_all(alloc, found, b"-isystem", &dirs.system)?;
        self.add_all(alloc, found, b"-idirafter", &dirs.last)?;
        Ok(())
    }

    /// Notes those of some directories that are not known yet.
    fn add_all(
        &mut self,
        alloc: Global,
        found: &BuildFiles,
        option: &[u8],
        dirs: &[Vec<u8>],
    ) -> Result<(), AllocError>
        ensures notes { OnOk result (notes_in self.new.notes ≡ with_lines (notes_in self.old.notes)
            (spec.empty_lines found.now option.now self.old.known.keys (map (λ d. d.items) dirs.now))) }
        ensures known { OnOk result (self.new.known.keys ≡ spec.once self.old.known.keys (map (λ d. d.items) dirs.now)) }
    {
        let mut at = 0;
        while at < dirs.len() {
            self.add(alloc, found, option, &dirs[at])?;
            at += 1;
        }
        Ok(())
    }

    /// Notes a directory, if it is not known yet.
    fn add(
        &mut self,
        alloc: Global,
        found: &BuildFiles,
        option: &[u8],
        dir: &[u8],
    ) -> Result<(), AllocError>
        ensures notes { OnOk result (notes_in self.new.notes ≡ with_lines (notes_in self.old.notes)
            (spec.if_empty found.now option.now self.old.known.keys dir.now)) }
        ensures known { OnOk result (self.new.known.keys ≡ with_name dir.now self.old.known.keys) }
    {
        let is_new = self.known.insert(Key::copied(alloc, dir)?)?;
        if is_new && !found.has_below(dir) {
            self.notes.add_empty(alloc, option, dir)?;
        }
        Ok(())
    }
}
