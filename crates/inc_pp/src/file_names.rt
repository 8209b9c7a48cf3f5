//! How files are called.
ghost use Rattle.std.specs.Prelude.{◌≡◌, ◌++◌, IfOk, option_map, option_and_then};
ghost use Rattle.inc_pp.specs.FileNames as spec;

use crate::settings::Settings;
use inc_lookup::NamedDir;
use inc_text::Language;
use memchr::memrchr;
use std::alloc::{AllocError, Global};

/// The most bytes of a path that is spelled so, as of one in the list of files: what includes itself by a long name in which nothing but
/// `.` repeats would have longer paths the deeper it is read.
const LONGEST_SPELLING: usize = 4_096;

/// A path up to its last `/`, with it.
fn up_to_slash(path: &[u8]) -> &[u8]
    ensures { result.now ≡ spec.up_to_slash path.now }
{
    match memrchr(b'/', path) {
        Some(slash) => &path[..slash + 1],
        None => &[],
    }
}

/// Whether another byte than `/` ends a path.
fn needs_slash(dir: &[u8]) -> bool
    ensures { result ≡ spec.needs_slash dir.now }
{
    match dir.last() {
        Some(byte) => *byte != b'/',
        None => false,
    }
}

/// A name behind a path.
fn joined(alloc: Global, front: &[u8], name: &[u8]) -> Result<Vec<u8>, AllocError>
    ensures { IfOk result (λ path. path.items ≡ front.now ++ name.now) }
{
    let mut path = Vec::with_capacity(alloc, front.len().saturating_add(name.len()))?;
    path.extend_from_slice(front)?;
    path.extend_from_slice(name)?;
    Ok(path)
}

/// A name in a directory.
fn in_directory(alloc: Global, dir: &[u8], name: &[u8]) -> Result<Vec<u8>, AllocError>
    ensures { IfOk result (λ path. path.items ≡ spec.in_directory dir.now name.now) }
{
    if !needs_slash(dir) {
        return joined(alloc, dir, name);
    }
    let mut path = Vec::with_capacity(
        alloc,
        dir.len().saturating_add(name.len()).saturating_add(1),
    )?;
    path.extend_from_slice(dir)?;
    path.push(b'/')?;
    path.extend_from_slice(name)?;
    Ok(path)
}

/// The path of a file as it is spelled, which is found by a name in a file with the path `includer`. `next`: where an `#include_next` in
/// it goes on.
fn spelling_at(
    alloc: Global,
    dirs: &[NamedDir<'_>],
    includer: &[u8],
    name: &[u8],
    next: Option<usize>,
) -> Result<Option<Vec<u8>>, AllocError>
    ensures { IfOk result (λ path. option_map (λ p. p.items) path
        ≡ spec.spelling_at dirs.now includer.now name.now next) }
{
    let path = match next {
        None => Vec::from_slice(alloc, name)?,
        Some(0) => joined(alloc, up_to_slash(includer), name)?,
        Some(next) => match dirs.get(next - 1) {
            Some(dir) => in_directory(alloc, dir.name, name)?,
            None => return Ok(None),
        },
    };
    Ok(Some(path))
}

/// The same in GNU C. The other languages know no path but that in the list of files.
pub(crate) fn where_spelled(
    alloc: Global,
    settings: &Settings<'_>,
    includer: &[u8],
    name: &[u8],
    next: Option<usize>,
) -> Result<Option<Vec<u8>>, AllocError>
    ensures { IfOk result (λ path. option_map (λ p. p.items) path
        ≡ spec.where_spelled settings.now.language (spec.spelling_at settings.now.dirs includer.now name.now next)) }
{
    match settings.language() {
        Language::Gnu => {
            let path = spelling_at(alloc, settings.dirs(), includer, name, next)?;
            Ok(unless_long(path))
        }
        Language::C17 | Language::Extended => Ok(None),
    }
}

/// A path, unless it is too long.
fn unless_long(path: Option<Vec<u8>>) -> Option<Vec<u8>>
    ensures { option_map (λ p. p.items) result ≡ option_and_then spec.unless_long (option_map (λ p. p.items) path) }
{
    match path {
        Some(path) if path.len() <= LONGEST_SPELLING => Some(path),
        _ => None,
    }
}

/// The path of the source as it is spelled in GNU C.
pub(crate) fn source_spelled(
    alloc: Global,
    settings: &Settings<'_>,
) -> Result<Option<Vec<u8>>, AllocError>
    ensures { IfOk result (λ path. option_map (λ p. p.items) path
        ≡ spec.where_spelled settings.now.language settings.now.source) }
{
    match (settings.language(), settings.source()) {
        (Language::Gnu, Some(source)) => {
            let path = Vec::from_slice(alloc, source)?;
            Ok(unless_long(Some(path)))
        }
        _ => Ok(None),
    }
}

/// Whether a file is found in a directory with system headers. `next`: where an `#include_next` in it goes on.
pub(crate) fn is_in_system(dirs: &[NamedDir<'_>], next: Option<usize>) -> bool
    ensures { result ≡ spec.is_in_system dirs.now next }
{
    match next {
        None | Some(0) => false,
        Some(next) => match dirs.get(next - 1) {
            Some(dir) => dir.is_system,
            None => false,
        },
    }
}
