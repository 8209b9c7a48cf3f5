//! The project that a list names.
ghost use Rattle.std.specs.Prelude.{◌≡◌, ◌≢◌, Err, IfOk, map};
ghost use Rattle.inc_args.specs.Views.{seen_files};
ghost use Rattle.inc_inputs.specs.IncludePath.{dir_names, include_path};
ghost use Rattle.inc_inputs.specs.Reports.{out_of_memory};
ghost use Rattle.inc_inputs.specs.Texts.{listed_layout};
ghost use Rattle.inc_inputs.specs.Views.{seen_layout};

use crate::failures::{Failure, project_failure};
use inc_args::FileList;
use inc_lookup::{NamedDir, NamedPath, Project, named_path};
use std::alloc::{AllocError, Global};

/// The project of files with these paths and of this include path, with the seed of its table.
pub(crate) fn listed_project<'a>(
    alloc: Global,
    seed: u64,
    paths: &'a [&'a [u8]],
    path: &NamedPath<'_>,
) -> Result<Project<'a>, Failure>
    ensures { seen_layout result ≢ Err out_of_memory →
        seen_layout result ≡ listed_layout (map (λ p. p.now) paths.now) path.now }
{
    let dirs = names_of(alloc, &path.dirs)?;
    match Project::new(alloc, seed, paths, path.quoted, &dirs) {
        Ok(project) => Ok(project),
        Err(fault) => Err(project_failure(alloc, fault, paths, &dirs)?),
    }
}

/// The include path of a project. The compiler's directories are searched after those of the words, but for the last ones.
pub fn include_path<'a>(
    alloc: Global,
    seed: u64,
    files: &FileList<'a>,
    compiler: &[&'a [u8]],
) -> Result<NamedPath<'a>, AllocError>
    ensures { IfOk result (λ path. path ≡ include_path (seen_files files.now) (map (λ d. d.now) compiler.now)) }
{
    let quoted = bytes_of(alloc, &files.quoted)?;
    let own = bytes_of(alloc, &files.dirs)?;
    let mut system = bytes_of(alloc, &files.system)?;
    system.extend_from_slice(compiler)?;
    system.extend_from_slice(&bytes_of(alloc, &files.last)?)?;
    named_path(alloc, seed, &quoted, &own, &system)
}

/// Directories as they are written.
pub(crate) fn names_of<'a>(
    alloc: Global,
    dirs: &[NamedDir<'a>],
) -> Result<Vec<&'a [u8]>, AllocError>
    ensures { IfOk result (λ names. map (λ n. n.now) names.items ≡ dir_names dirs.now) }
{
    let mut names = Vec::with_capacity(alloc, dirs.len())?;
    for dir in dirs {
        names.push(dir.name)?;
    }
    Ok(names)
}

/// Words as bytes.
pub fn bytes_of<'a>(alloc: Global, words: &[&'a str]) -> Result<Vec<&'a [u8]>, AllocError>
    ensures { IfOk result (λ bytes. map (λ b. b.now) bytes.items ≡ map (λ s. s.now) words.now) }
{
    let mut bytes = Vec::with_capacity(alloc, words.len())?;
    for word in words {
        bytes.push(word.as_bytes())?;
    }
    Ok(bytes)
}
