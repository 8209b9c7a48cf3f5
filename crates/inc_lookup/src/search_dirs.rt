//! The directories of an include path.
ghost use Rattle.std.specs.Prelude.{◌≡◌, ◌≢◌, ◌<◌, [], Ok, Err, IfOk, IfErr, OnOk, length, map, slice_index_or, ◌++◌};
ghost use Rattle.std.specs.List.{All};
ghost use Rattle.inc_lookup.specs.Invariants.{IsNormal};
ghost use Rattle.inc_lookup.specs.Projects.{each_once, project_of, search_of};

use crate::listings::{dir_paths, each_once};
use crate::path_lists::PathList;
use crate::projects::ProjectFault;
use std::alloc::{AllocError, Global};
use std::marker::Model;

/// An include path: the directories in which the files of include directives are looked for, in order, and how many of them, the first, are
/// for names between `"` alone. They are in normal form.
#[derive(Drop)]
pub struct IncludePath {
    dirs: Vec<Vec<u8>>,
    quoted: usize,
}

impl Model for IncludePath {
    ghost use Rattle.std.specs.Prelude.{map};
    ghost use Rattle.std.specs.List.{All};
    ghost use Rattle.inc_lookup.specs.Invariants.{IsNormal};
    ghost use Rattle.inc_lookup.specs.Projects.{SearchPath};

    ghost Value = { SearchPath };

    ghost view = { λ p. record { dirs = map (λ d. d.items) p.dirs.items; quoted = p.quoted } };

    ghost invariant = { λ p. All IsNormal (map (λ d. d.items) p.dirs.items) };
}

impl IncludePath {
    /// The include path of these directories, of which the first `quoted` are for names between `"` alone: that of a project with them and no
    /// files. The seed is that of a table, as of [`Project::new`](crate::Project::new).
    pub fn new(
        alloc: Global,
        seed: u64,
        quoted: usize,
        dirs: &[&[u8]],
    ) -> Result<IncludePath, ProjectFault>
        ensures path { IfOk result (λ path. project_of [] quoted (map (λ d. d.now) dirs.now)
            ≡ Ok (record { paths = []; search = path })) }
        ensures fault { IfErr result (λ fault. fault ≢ ProjectFault.NoMemory →
            project_of [] quoted (map (λ d. d.now) dirs.now) ≡ Err fault) }
    {
        let forms = dir_paths(alloc, dirs, 0)?;
        let path = IncludePath::of_forms(alloc, seed, quoted, &forms)?;
        Ok(path)
    }

    /// That of these directories, which are in normal form.
    pub(crate) fn of_forms(
        alloc: Global,
        seed: u64,
        quoted: usize,
        forms: &[Vec<u8>],
    ) -> Result<IncludePath, AllocError>
        requires { All IsNormal (map (λ v. v.items) forms.now) }
        ensures { IfOk result (λ path. path ≡ search_of quoted (map (λ v. v.items) forms.now)) }
    {
        let (first, others) = forms.split_at(quoted.min(forms.len()));
        let mut dirs = Vec::with_capacity(alloc, forms.len())?;
        add_once(alloc, seed, &mut dirs, first)?;
        let quoted = dirs.len();
        add_once(alloc, seed, &mut dirs, others)?;
        Ok(IncludePath { dirs, quoted })
    }

    /// How many directories there are.
    pub fn len(&self) -> usize
        ensures { result ≡ length self.now.dirs }
    {
        self.dirs.len()
    }

    /// How many of them, the first, are for names between `"` alone.
    pub(crate) fn quoted(&self) -> usize
        ensures { result ≡ self.now.quoted }
    {
        self.quoted
    }

    /// The directory at a place.
    pub(crate) fn dir(&self, index: usize) -> &[u8]
        requires { index < length self.now.dirs }
        ensures dir { result.now ≡ slice_index_or self.now.dirs index [] }
        ensures normal { IsNormal result.now }
    {
        &self.dirs[index]
    }
}

/// Adds copies of paths, each once, where it comes first among them.
fn add_once(
    alloc: Global,
    seed: u64,
    dirs: &mut Vec<Vec<u8>>,
    forms: &[Vec<u8>],
) -> Result<(), AllocError>
    ensures { OnOk result (map (λ d. d.items) dirs.new.items
        ≡ map (λ d. d.items) dirs.old.items ++ each_once (map (λ v. v.items) forms.now)) }
{
    let known = each_once(alloc, seed, forms)?;
    add_copies(alloc, dirs, &known)
}

/// Adds copies of the paths of a list.
fn add_copies(alloc: Global, dirs: &mut Vec<Vec<u8>>, list: &PathList<'_>) -> Result<(), AllocError>
    ensures { OnOk result (map (λ d. d.items) dirs.new.items ≡ map (λ d. d.items) dirs.old.items ++ list.now) }
{
    for index in 0..list.len() {
        dirs.push(Vec::from_slice(alloc, list.path(index))?)?;
    }
    Ok(())
}
