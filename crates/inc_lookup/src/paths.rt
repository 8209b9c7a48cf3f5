//! Paths and their normal forms.
ghost use Rattle.std.specs.Prelude.{◌≡◌, ◌==◌, ℕ, List, Some, true, false, IfOk, IfSome, option_map};
ghost use Rattle.std.specs.List.{list_any};
ghost use Rattle.inc_lookup.specs.Paths.{is_absolute, without_last, with_component, with_components, components, normal_form};
ghost use Rattle.inc_lookup.specs.PathLists.{kept_form, is_before};
ghost use Rattle.inc_lookup.specs.PathParts.{Shows, ShowsAfter};
ghost use Rattle.inc_lookup.specs.SimpleNames.{has_end, is_simple_path};
ghost use Rattle.inc_text.specs.Ascii.{slash};

use crate::header_names::is_plain;
use crate::orders::{is_less_after, shared_len};
use crate::simple_names::{goes_on, is_simple};
use memchr::{memchr, memrchr};
use std::alloc::{AllocError, Global};

/// The normal form of a path: empty components and `.` are dropped, and `..` drops the component before it. `None` where
/// the path climbs above its start. A leading `/` stays.
pub fn normalise(alloc: Global, path: &[u8]) -> Result<Option<Vec<u8>>, AllocError>
    ensures { IfOk result (λ form. option_map (λ v. v.items) form ≡ normal_form path.now) }
{
    let mut out = Vec::new(alloc);
    if stays(path) {
        out.extend_from_slice(path)?;
        return Ok(Some(out));
    }
    if is_absolute(path) {
        out.push(b'/')?;
    }
    let root = out.len();
    if push_components(&mut out, root, path)? {
        Ok(Some(out))
    } else {
        Ok(None)
    }
}

/// Whether a path is in normal form already, as nearly all paths of a list are: a copy of it is the answer.
pub(crate) fn stays(path: &[u8]) -> bool
    ensures { result ≡ true → normal_form path.now ≡ Some path.now }
{
    if is_absolute(path) {
        return is_plain(&path[1..]);
    }
    is_plain(path)
}

/// A written path without the `./` that it may begin with.
pub(crate) fn kept_form(path: &[u8]) -> &[u8]
    ensures { result.now ≡ kept_form path.now }
{
    match path.strip_prefix(b"./") {
        Some(rest) => rest,
        None => path,
    }
}

/// The normal form of a path, if it is the path itself, or what is after a `./` that it begins with, as `find .` prints paths.
pub(crate) fn as_it_is(path: &[u8]) -> Option<&[u8]>
    ensures form { IfSome result (λ form. normal_form path.now ≡ Some form.now) }
    ensures kept { IfSome result (λ form. form.now ≡ kept_form path.now) }
{
    if let Some(rest) = path.strip_prefix(b"./") {
        return if is_plain(rest) { Some(rest) } else { None };
    }
    if stays(path) { Some(path) } else { None }
}

/// The same of a path that has simple names alone, and is on one line by that.
pub(crate) fn simple_form(path: &[u8]) -> Option<&[u8]>
    ensures form { IfSome result (λ form. (has_end path.now ≡ false) × (normal_form path.now ≡ Some form.now)) }
    ensures kept { IfSome result (λ form. form.now ≡ kept_form path.now) }
{
    if let Some(rest) = path.strip_prefix(b"./") {
        return if is_simple(rest) { Some(rest) } else { None };
    }
    if has_simple_names(path) {
        Some(path)
    } else {
        None
    }
}

/// The same of a path that is greater than another one, whose form is simple, and has its first byte. What the two have in common needs no test.
pub(crate) fn next_simple_form<'a>(last: &[u8], path: &'a [u8]) -> Option<&'a [u8]>
    requires { is_simple_path last.now ≡ true }
    ensures form { IfSome result (λ form. (has_end path.now ≡ false) × (normal_form path.now ≡ Some form.now)) }
    ensures kept { IfSome result (λ form. form.now ≡ kept_form path.now) }
    ensures simple { IfSome result (λ form. is_simple_path form.now ≡ true) }
    ensures after { IfSome result (λ form. is_before last.now form.now ≡ true) }
{
    let form = kept_form(path);
    if form.len() < path.len() && is_absolute(form) {
        return None;
    }
    if follows(last, form) {
        Some(form)
    } else {
        None
    }
}

/// Whether a path is greater than a simple one, has its first byte and is simple too. The last byte that they have in common is tested with the one
/// after it.
fn follows(last: &[u8], path: &[u8]) -> bool
    requires { is_simple_path last.now ≡ true }
    ensures simple { result ≡ true → is_simple_path path.now ≡ true }
    ensures after { result ≡ true → is_before last.now path.now ≡ true }
{
    let common = shared_len(last, path);
    if common > 0 && is_less_after(last, path, common) {
        return goes_on(path, common - 1);
    }
    false
}

/// Whether a path has simple names alone.
pub(crate) fn has_simple_names(path: &[u8]) -> bool
    ensures form { result ≡ true → normal_form path.now ≡ Some path.now }
    ensures line { result ≡ true → has_end path.now ≡ false }
    ensures simple { result ≡ true → is_simple_path path.now ≡ true }
{
    if is_absolute(path) {
        return is_simple(&path[1..]);
    }
    is_simple(path)
}

/// Whether a path begins with `/`.
pub(crate) fn is_absolute(path: &[u8]) -> bool
    ensures { result ≡ is_absolute path.now }
{
    path.first() == Some(&b'/')
}

/// Adds the components of `path` to a path in normal form, whose first `root` bytes are its leading `/`, if it has one. It says
/// whether the path stays below its start; where not, what is left of `out` is of no use.
fn push_components(out: &mut Vec<u8>, root: usize, path: &[u8]) -> Result<bool, AllocError>
    ensures { IfOk result (λ fits. (parts : List (List ℕ)) → Shows root parts out.old.items →
        ShowsAfter root (with_components parts
        (components path.now)) out.old.items fits out.new.items) }
{
    let mut at = 0;
    while let Some(slash) = memchr(b'/', &path[at..]) {
        if !push_component(out, root, &path[at..at + slash])? {
            return Ok(false);
        }
        at += slash + 1;
    }
    push_component(out, root, &path[at..])
}

/// Adds one component, and says whether the path stays below its start; where not, `out` stays.
pub(crate) fn push_component(
    out: &mut Vec<u8>,
    root: usize,
    component: &[u8],
) -> Result<bool, AllocError>
    requires { list_any (λ x. x == slash) component.now ≡ false }
    ensures shows { IfOk result (λ fits. (parts : List (List ℕ)) → Shows root parts out.old.items →
        ShowsAfter root (with_component parts component.now) out.old.items fits out.new.items) }
    ensures stays { IfOk result (λ fits. fits ≡ false → out.new ≡ out.old) }
{
    if component.is_empty() || component == b".".as_slice() {
        return Ok(true);
    }
    if component == b"..".as_slice() {
        return Ok(drop_last(out, root));
    }
    if out.len() > root {
        out.push(b'/')?;
    }
    out.extend_from_slice(component)?;
    Ok(true)
}

/// Takes the last component off, and says whether there was one.
pub(crate) fn drop_last(out: &mut Vec<u8>, root: usize) -> bool
    ensures shows { (parts : List (List ℕ)) → Shows root parts out.old.items →
        ShowsAfter root (without_last parts) out.old.items result out.new.items }
    ensures stays { result ≡ false → out.new ≡ out.old }
{
    if out.len() <= root {
        return false;
    }
    match memrchr(b'/', &out[root..]) {
        Some(slash) => out.truncate(root + slash),
        None => out.truncate(root),
    }
    true
}
