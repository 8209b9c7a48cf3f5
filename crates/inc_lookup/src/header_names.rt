//! Header names as they change a directory.
ghost use Rattle.std.specs.Prelude.{◌≡◌, ◌==◌, ◌+◌, ◌<◌, ◌≤◌, ◌^◌, ◌++◌, ◌∷◌, ℕ, List, Some, true, false, IfOk, OnOk};
ghost use Rattle.std.specs.List.{list_all, list_any};
ghost use Rattle.inc_lookup.specs.Paths.{with_components, components};
ghost use Rattle.inc_lookup.specs.PathParts.{Shows, ShowsAfter, is_kept};
ghost use Rattle.inc_lookup.specs.ReducedNames.{IsReduced, IsReducedTo, without_lasts};
ghost use Rattle.inc_text.specs.Ascii.{slash};

use crate::paths::{drop_last, push_component};
use memchr::memchr;
use std::alloc::{AllocError, Global};

/// A header name in the form in which it is put after directories, however long it was.
#[derive(Clone, Copy)]
pub(crate) struct Reduced<'n> {
    /// How many components it drops of a directory: the `..` that it has no component of its own for.
    pub climbs: usize,
    /// The components that it puts after, with `/` between them.
    pub rest: &'n [u8],
}

/// What a name is reduced to that is not plain.
#[derive(Drop)]
pub(crate) struct Reduction {
    pub climbs: usize,
    pub rest: Vec<u8>,
}

impl Reduction {
    /// Reduces a name.
    pub fn new(alloc: Global, name: &[u8]) -> Result<Reduction, AllocError>
        ensures { IfOk result (λ reduced. IsReduced name.now reduced.climbs reduced.rest.items) }
    {
        let mut reduced = Reduction {
            climbs: 0,
            rest: Vec::new(alloc),
        };
        let mut at = 0;
        while let Some(slash) = memchr(b'/', &name[at..]) {
            reduced.add(&name[at..at + slash])?;
            at += slash + 1;
        }
        reduced.add(&name[at..])?;
        Ok(reduced)
    }

    /// Adds one component.
    fn add(&mut self, component: &[u8]) -> Result<(), AllocError>
        requires bare { list_any (λ x. x == slash) component.now ≡ false }
        requires few { self.old.climbs < 2 ^ 63 }
        ensures goes_on { OnOk result ((cs left : List (List ℕ)) →
            IsReducedTo cs self.old.climbs self.old.rest.items (component.now ∷ left) →
            IsReducedTo cs self.new.climbs self.new.rest.items left) }
        ensures climbs { OnOk result (self.new.climbs ≤ self.old.climbs + 1) }
    {
        if !push_component(&mut self.rest, 0, component)? {
            self.climbs += 1;
        }
        Ok(())
    }
}

impl<'n> Reduced<'n> {
    /// Puts the name after a path in normal form, whose first `root` bytes are its leading `/`, if it has one. It says whether the
    /// path stays below its start; where not, what is left of `out` is of no use.
    pub fn push_onto(&self, out: &mut Vec<u8>, root: usize) -> Result<bool, AllocError>
        ensures { IfOk result (λ fits. (name : List ℕ) (parts : List (List ℕ)) →
            IsReduced name self.now.climbs self.now.rest.now → Shows root parts out.old.items →
            ShowsAfter root (with_components parts (components name))
            out.old.items fits out.new.items) }
    {
        if !drop_lasts(out, root, self.climbs) {
            return Ok(false);
        }
        push_names(out, root, self.rest)?;
        Ok(true)
    }
}

/// Whether a name is what it is reduced to: none of its components is empty, `.` or `..`.
pub(crate) fn is_plain(name: &[u8]) -> bool
    ensures { result ≡ list_all is_kept (components name.now) }
{
    let mut at = 0;
    while let Some(slash) = memchr(b'/', &name[at..]) {
        if !is_kept(&name[at..at + slash]) {
            return false;
        }
        at += slash + 1;
    }
    is_kept(&name[at..])
}

/// Whether a component stays in a normal form.
fn is_kept(component: &[u8]) -> bool
    requires { list_any (λ x. x == slash) component.now ≡ false }
    ensures { result ≡ is_kept component.now }
{
    if component.is_empty() || component == b".".as_slice() {
        return false;
    }
    component != b"..".as_slice()
}

/// Takes so many components off, and says whether there were as many.
fn drop_lasts(out: &mut Vec<u8>, root: usize, count: usize) -> bool
    ensures { (parts : List (List ℕ)) → Shows root parts out.old.items →
        ShowsAfter root (without_lasts count parts) out.old.items result out.new.items }
{
    for _ in 0..count {
        if !drop_last(out, root) {
            return false;
        }
    }
    true
}

/// Adds names with `/` between them.
fn push_names(out: &mut Vec<u8>, root: usize, names: &[u8]) -> Result<(), AllocError>
    ensures { OnOk result ((parts more : List (List ℕ)) → Shows root parts out.old.items →
        Shows 0 more names.now → ShowsAfter root (Some (parts ++ more))
        out.old.items true out.new.items) }
{
    if names.is_empty() {
        return Ok(());
    }
    if out.len() > root {
        out.push(b'/')?;
    }
    out.extend_from_slice(names)?;
    Ok(())
}
