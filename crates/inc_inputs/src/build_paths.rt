//! The paths of a build, which are absolute, as the project has them.
ghost use Rattle.std.specs.Prelude.{◌≡◌, ◌==◌, true, IfOk, OnOk, option_map, slice_get, take, unwrap_or};
ghost use Rattle.std.specs.List.{join_with_byte};
ghost use Rattle.inc_build.specs.CompilerWords.{after};
ghost use Rattle.inc_build.specs.Paths.{components};
ghost use Rattle.inc_inputs.specs.BuildPaths as spec;
ghost use Rattle.inc_text.specs.Ascii.{slash};

use inc_build::path_from;
use std::alloc::{AllocError, Global};

/// How a project has the paths of a build.
#[derive(Clone, Copy)]
pub(crate) struct Forms<'h> {
    /// The folder of the run.
    pub(crate) here: &'h [u8],
    /// Whether they are relative to it where they are below it.
    pub(crate) is_relative: bool,
}

impl Forms<'_> {
    /// An absolute path as the project has it.
    pub(crate) fn of<'p>(&self, path: &'p [u8]) -> &'p [u8]
        ensures { result.now ≡ spec.form_of self.now.here.now self.now.is_relative path.now }
    {
        if !self.is_relative {
            return path;
        }
        if path == self.here {
            return b".";
        }
        below(self.here, path).unwrap_or(path)
    }

    /// A word, which is looked up from the folder of the run, as the project has it.
    pub(crate) fn of_word(&self, alloc: Global, word: &[u8]) -> Result<Vec<u8>, AllocError>
        ensures { IfOk result (λ form. form.items ≡ spec.form self.now.here.now self.now.is_relative word.now) }
    {
        let path = path_from(alloc, self.here, word)?;
        Vec::from_slice(alloc, self.of(&path))
    }
}

/// What follows a folder in the path of a file that is below it. Both are absolute and in normal form.
pub(crate) fn below<'p>(folder: &[u8], path: &'p [u8]) -> Option<&'p [u8]>
    ensures { option_map (λ p. p.now) result ≡ spec.below folder.now path.now }
{
    if folder == b"/".as_slice() {
        return after(b"/", path);
    }
    match after(folder, path) {
        Some(rest) => after(b"/", rest),
        None => None,
    }
}

/// What follows some bytes in a path that begins with them.
fn after<'p>(front: &[u8], path: &'p [u8]) -> Option<&'p [u8]>
    ensures { option_map (λ p. p.now) result ≡ after front.now path.now }
{
    if path.len() < front.len() || &path[..front.len()] != front {
        return None;
    }
    Some(&path[front.len()..])
}

/// Whether a path is a folder or is below it.
pub(crate) fn is_within(folder: &[u8], path: &[u8]) -> bool
    ensures { result ≡ spec.is_within folder.now path.now }
{
    folder == path || below(folder, path).is_some()
}

/// The folder that a file is in.
pub(crate) fn folder_of(alloc: Global, path: &[u8]) -> Result<Vec<u8>, AllocError>
    ensures { IfOk result (λ folder. folder.items ≡ spec.folder_of path.now) }
{
    path_from(alloc, path, b"..")
}

/// Makes a folder the deepest one that it and another one are in.
pub(crate) fn narrow(folder: &mut Vec<u8>, other: &[u8]) -> Result<(), AllocError>
    ensures { OnOk result (folder.new.items ≡ spec.common folder.old.items other.now) }
{
    let end = common_end(folder, other);
    folder.truncate(end);
    if folder.is_empty() {
        folder.push(b'/')?;
    }
    Ok(())
}

/// Where the components end that two paths have in common from their begin on.
fn common_end(a: &[u8], b: &[u8]) -> usize
    ensures { take result a.now ≡ join_with_byte slash (spec.common_components (components a.now) (components b.now)) }
{
    let mut at = 0;
    let mut end = 0;
    while at < a.len() && at < b.len() && a[at] == b[at] {
        if a[at] == b'/' {
            end = at;
        }
        at += 1;
    }
    if ends_component(a, at) & ends_component(b, at) {
        at
    } else {
        end
    }
}

/// Whether a component of a path ends at a place.
fn ends_component(path: &[u8], at: usize) -> bool
    ensures { result ≡ unwrap_or (option_map (λ b. b == slash) (slice_get path.now at)) true }
{
    match path.get(at) {
        Some(byte) => *byte == b'/',
        None => true,
    }
}
