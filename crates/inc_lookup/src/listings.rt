//! How the paths and directories that are handed in become those of a project.
ghost use Rattle.std.specs.Prelude.{◌≡◌, ◌≢◌, ◌+◌, ◌<◌, ◌≤◌, ◌^◌, ◌++◌, ◌∷◌, ℕ, List, [], Some, None, true, false, length, map, take, position, IfOk, IfErr, IfSome, MatchBool, OnOk, option_map};
ghost use Rattle.inc_lookup.specs.Invariants.{IsGoodForm, AreNormalForms, IsTabled, AreTabled};
ghost use Rattle.inc_lookup.specs.PathLists.{kept_form, kept_forms, is_before, Rises};
ghost use Rattle.inc_lookup.specs.Paths.{normal_form};
ghost use Rattle.inc_lookup.specs.SimpleNames.{has_end, is_simple_path, IsKnown};
ghost use Rattle.inc_lookup.specs.Projects.{each_once, is_bad_path, is_bad_file_path, is_no_file};
ghost use Rattle.inc_lookup.specs.declared.projects.TheConstants.{MOST_FILES};

use crate::orders::is_before;
use crate::path_lists::PathList;
use crate::paths::{as_it_is, has_simple_names, next_simple_form, normalise, simple_form};
use crate::projects::ProjectFault;
use memchr::memchr2;
use std::alloc::{AllocError, Global};

/// The most bytes of a path as it is handed in.
pub const LONGEST_PATH: usize = 4_096;

/// The paths of files, each once.
#[derive(Drop)]
pub(crate) struct PathTable<'a> {
    /// The normal paths, as long as no two are equal.
    pub paths: PathList<'a>,
    /// The places of the first two that are equal.
    pub same: Option<(usize, usize)>,
}

impl PathTable<'_> {
    /// Adds a path, unless two before it are equal.
    fn add(&mut self, path: &[u8]) -> Result<(), AllocError>
        ensures { OnOk result ((forms : List (List ℕ)) → IsTabled forms self.old.paths self.old.same →
            IsTabled (forms ++ path.now ∷ []) self.new.paths self.new.same) }
    {
        if self.same.is_some() {
            return Ok(());
        }
        let second = self.paths.len();
        // A path that is there keeps its place.
        let (first, is_new) = self.paths.insert(path)?;
        if is_new {
            return Ok(());
        }
        self.same = Some((first, second));
        Ok(())
    }

    /// Adds the normal form of a file's path, unless the path is bad, and reports whether it is not.
    fn add_file(&mut self, alloc: Global, path: &[u8]) -> Result<bool, AllocError>
        ensures { IfOk result (λ added. MatchBool added
            ((form : List ℕ) × IsGoodForm (is_bad_file_path path.now) (normal_form path.now) (Some form)
            × ((forms : List (List ℕ)) → IsTabled forms self.old.paths self.old.same →
            IsTabled (forms ++ form ∷ []) self.new.paths self.new.same))
            (is_bad_file_path path.now ≡ true)) }
    {
        // Nearly all paths of a list are such, and take no memory but their own.
        if let Some(form) = good_form(path) {
            self.add(form)?;
            return Ok(true);
        }
        let Some(form) = dir_path(alloc, path)? else {
            return Ok(false);
        };
        if is_no_file(&form) {
            return Ok(false);
        }
        self.add(&form)?;
        Ok(true)
    }
}

/// The normal paths of files, or the first that is bad. Those at the front that rise and are kept as they are written need no table; of the
/// others each is put into the table before the next is looked at.
pub(crate) fn file_paths<'a>(
    alloc: Global,
    seed: u64,
    paths: &'a [&'a [u8]],
) -> Result<PathTable<'a>, ProjectFault>
    ensures paths { IfOk result (λ table. AreTabled (map (λ p. p.now) paths.now) table.paths table.same) }
    ensures fault { IfErr result (λ fault. fault ≢ ProjectFault.NoMemory → (i : ℕ)
        × (fault ≡ ProjectFault.BadPath i)
        × (position is_bad_file_path (map (λ p. p.now) paths.now) ≡ Some i)) }
{
    let count = count_rising(paths);
    let mut table = PathTable {
        paths: PathList::rising(alloc, seed, &paths[..count], paths.len()),
        same: None,
    };
    for index in count..paths.len() {
        if !table.add_file(alloc, paths[index])? {
            return Err(ProjectFault::BadPath { index });
        }
    }
    Ok(table)
}

/// The last form of a list so far, and whether it is known to be a simple path.
#[derive(Clone, Copy)]
struct LastForm<'a> {
    form: &'a [u8],
    is_simple: bool,
}

/// How many paths at the front of a list rise and have the forms that are kept as their normal forms.
fn count_rising(paths: &[&[u8]]) -> usize
    ensures within { result ≤ length paths.now }
    ensures rises { Rises (kept_forms (map (λ p. p.now) (take result paths.now))) }
    ensures tabled { AreTabled (map (λ p. p.now) (take result paths.now))
        (kept_forms (map (λ p. p.now) (take result paths.now))) None }
{
    let mut last = LastForm {
        form: &[],
        is_simple: false,
    };
    for (index, path) in paths.iter().enumerate() {
        let Some(next) = next_form(&last, path) else {
            return index;
        };
        last = next;
    }
    paths.len()
}

/// The form of a path, if it is one that is kept and is greater than the last one.
fn next_form<'a>(last: &LastForm<'_>, path: &'a [u8]) -> Option<LastForm<'a>>
    requires { IsKnown last.now.form.now last.now.is_simple }
    ensures good { IfSome result (λ next.
        IsGoodForm (is_bad_file_path path.now) (normal_form path.now) (Some next.form.now)) }
    ensures kept { IfSome result (λ next. next.form.now ≡ kept_form path.now) }
    ensures after { IfSome result (λ next. is_before last.now.form.now next.form.now ≡ true) }
    ensures simple { IfSome result (λ next. IsKnown next.form.now next.is_simple) }
{
    // Nearly all paths of a sorted list are such, and of each only what it does not share with the one before it is tested.
    if last.is_simple {
        if let Some(form) = next_good_form(last.form, path) {
            return Some(LastForm {
                form,
                is_simple: true,
            });
        }
    }
    let form = good_form(path)?;
    if !is_before(last.form, form) {
        return None;
    }
    let is_simple = has_simple_names(form);
    Some(LastForm { form, is_simple })
}

/// The normal form of a path that is not bad, if it is a part of the path, is simple and comes after a simple one.
fn next_good_form<'a>(last: &[u8], path: &'a [u8]) -> Option<&'a [u8]>
    requires { is_simple_path last.now ≡ true }
    ensures good { IfSome result (λ form.
        IsGoodForm (is_bad_file_path path.now) (normal_form path.now) (Some form.now)) }
    ensures kept { IfSome result (λ form. form.now ≡ kept_form path.now) }
    ensures after { IfSome result (λ form. is_before last.now form.now ≡ true) }
    ensures simple { IfSome result (λ form. is_simple_path form.now ≡ true) }
{
    if path.len() > LONGEST_PATH {
        return None;
    }
    let form = next_simple_form(last, path)?;
    Some(form)
}

/// The normal paths of directories, or the first that is bad, counted on from `before`.
pub(crate) fn dir_paths(
    alloc: Global,
    dirs: &[&[u8]],
    before: usize,
) -> Result<Vec<Vec<u8>>, ProjectFault>
    requires few { before ≤ MOST_FILES }
    requires fits { length dirs.now < 2 ^ 63 }
    ensures paths { IfOk result (λ paths. AreNormalForms is_bad_path (map (λ d. d.now) dirs.now)
        (map (λ v. v.items) paths.items)) }
    ensures fault { IfErr result (λ fault. fault ≢ ProjectFault.NoMemory → (i : ℕ)
        × (fault ≡ ProjectFault.BadPath (before + i))
        × (position is_bad_path (map (λ d. d.now) dirs.now) ≡ Some i)) }
{
    let mut paths = Vec::new(alloc);
    for (index, dir) in dirs.iter().enumerate() {
        match dir_path(alloc, dir)? {
            Some(path) => paths.push(path)?,
            None => return Err(ProjectFault::BadPath {
                index: before + index,
            }),
        }
    }
    Ok(paths)
}

/// These paths in a table, each once, where it comes first.
pub(crate) fn each_once(
    alloc: Global,
    seed: u64,
    paths: &[Vec<u8>],
) -> Result<PathList<'static>, AllocError>
    ensures { IfOk result (λ list. list ≡ each_once (map (λ v. v.items) paths.now)) }
{
    let mut list = PathList::rising(alloc, seed, &[], paths.len());
    for path in paths {
        list.insert(path)?;
    }
    Ok(list)
}

/// The normal form of a path that is not bad, if it is a part of the path.
fn good_form(path: &[u8]) -> Option<&[u8]>
    ensures good { IfSome result (λ form.
        IsGoodForm (is_bad_file_path path.now) (normal_form path.now) (Some form.now)) }
    ensures kept { IfSome result (λ form. form.now ≡ kept_form path.now) }
{
    if path.len() > LONGEST_PATH {
        return None;
    }
    let form = line_form(path)?;
    if is_no_file(form) {
        return None;
    }
    Some(form)
}

/// The normal form of a path without NUL and LF, if it is a part of the path.
fn line_form(path: &[u8]) -> Option<&[u8]>
    ensures form { IfSome result (λ form. (has_end path.now ≡ false) × (normal_form path.now ≡ Some form.now)) }
    ensures kept { IfSome result (λ form. form.now ≡ kept_form path.now) }
{
    // Nearly all paths of a list are such, and one look at each byte shows it.
    if let Some(form) = simple_form(path) {
        return Some(form);
    }
    if memchr2(0, b'\n', path).is_some() {
        return None;
    }
    let form = as_it_is(path)?;
    Some(form)
}

/// Whether a normal form is that of no file.
fn is_no_file(form: &[u8]) -> bool
    ensures { result ≡ is_no_file (Some form.now) }
{
    form.is_empty() || form == b"/".as_slice()
}

/// The normal form of a directory's path, unless the path is bad.
fn dir_path(alloc: Global, path: &[u8]) -> Result<Option<Vec<u8>>, AllocError>
    ensures { IfOk result (λ form. IsGoodForm (is_bad_path path.now) (normal_form path.now)
        (option_map (λ v. v.items) form)) }
{
    if path.len() > LONGEST_PATH || memchr2(0, b'\n', path).is_some() {
        return Ok(None);
    }
    normalise(alloc, path)
}
