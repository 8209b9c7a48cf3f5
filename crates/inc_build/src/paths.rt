//! Absolute paths in normal form.
ghost use Rattle.std.specs.Prelude.{◌≡◌, ◌==◌, ℕ, List, [], true, false, IfOk, OnOk};
ghost use Rattle.std.specs.List.{list_any};
ghost use Rattle.inc_build.specs.Paths as spec;
ghost use Rattle.inc_build.specs.PathTexts.{Shows};
ghost use Rattle.inc_text.specs.Ascii.{slash};

use memchr::{memchr, memrchr};
use std::alloc::{AllocError, Global};

/// The normal form of a path that is looked up from a directory, which is looked up from `/`: empty components and `.` are dropped, and `..` drops
/// the component before it. Above `/` there is `/`.
pub fn path_from(alloc: Global, directory: &[u8], path: &[u8]) -> Result<Vec<u8>, AllocError>
    ensures { IfOk result (λ form. form.items ≡ spec.path_from directory.now path.now) }
{
    let mut out = Vec::with_capacity(alloc, path.len())?;
    if !is_absolute(path) {
        push_components(&mut out, directory)?;
    }
    push_components(&mut out, path)?;
    if out.is_empty() {
        out.push(b'/')?;
    }
    Ok(out)
}

/// Whether a path begins with `/`.
fn is_absolute(path: &[u8]) -> bool
    ensures { result ≡ spec.is_absolute path.now }
{
    path.first() == Some(&b'/')
}

/// Adds the components of a path to one in normal form, in which each is after a `/`.
fn push_components(out: &mut Vec<u8>, path: &[u8]) -> Result<(), AllocError>
    ensures { OnOk result ((parts : List (List ℕ)) → Shows parts out.old.items →
        Shows (spec.with_components parts (spec.components path.now)) out.new.items) }
{
    let mut at = 0;
    while let Some(slash) = memchr(b'/', &path[at..]) {
        push_component(out, &path[at..at + slash])?;
        at += slash + 1;
    }
    push_component(out, &path[at..])?;
    Ok(())
}

/// Adds one component.
fn push_component(out: &mut Vec<u8>, component: &[u8]) -> Result<(), AllocError>
    requires { list_any (λ x. x == slash) component.now ≡ false }
    ensures { OnOk result ((parts : List (List ℕ)) → Shows parts out.old.items →
        Shows (spec.with_component parts component.now) out.new.items) }
{
    if component.is_empty() || component == b".".as_slice() {
        return Ok(());
    }
    if component == b"..".as_slice() {
        drop_last(out);
        return Ok(());
    }
    out.push(b'/')?;
    out.extend_from_slice(component)?;
    Ok(())
}

/// Takes the last component off, if there is one.
fn drop_last(out: &mut Vec<u8>)
    ensures { (parts : List (List ℕ)) → Shows parts out.old.items →
        Shows (spec.without_last parts) out.new.items }
{
    if let Some(slash) = memrchr(b'/', out.as_slice()) {
        out.truncate(slash);
    }
}
