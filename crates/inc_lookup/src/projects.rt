//! The files of a project.
ghost use Rattle.std.specs.Prelude.{◌≡◌, ◌≢◌, ◌<◌, ◌≤◌, ℕ, List, true, false, Ok, Err, Some, None, length, map, IfOk, IfErr, IfSome, IsTrue, if◌then◌else◌, nat_lt};
ghost use Rattle.std.specs.List.{All};
ghost use Rattle.inc_lookup.specs.Invariants.{IsNormal, root_len};
ghost use Rattle.inc_lookup.specs.Paths.{is_absolute};
ghost use Rattle.inc_lookup.specs.PathSearch.{found_in};
ghost use Rattle.inc_lookup.specs.ReducedNames.{IsReduced};
ghost use Rattle.inc_lookup.specs.declared.listings.TheConstants.{LONGEST_PATH};
ghost use Rattle.inc_lookup.specs.declared.projects.Form.TheVariants.{Quoted};
ghost use Rattle.inc_lookup.specs.Projects.{project_of, found_file, found_place, found_as, found_at, joined_path, directory_of, is_clean_path, path_at, place_of};

use crate::header_names::{Reduced, Reduction, is_plain};
use crate::listings::{PathTable, dir_paths, file_paths};
use crate::path_lists::PathList;
use crate::paths::is_absolute;
use crate::search_dirs::IncludePath;
use memchr::memrchr;
use std::alloc::{AllocError, AllocFailed, Global};
use std::marker::Model;
use thiserror::Error;

/// How an include directive names its file (ISO/IEC 9899:2018, 6.10.2).
#[derive(Clone, Copy, Debug, PartialEq, Eq)]
pub enum Form {
    /// Between two `"`.
    Quoted,
    /// Between `<` and `>`.
    Angled,
}

/// Why files and directories make no project. Places count from 0, the files first and then the directories.
#[derive(Clone, Copy, Debug, PartialEq, Eq, Error)]
pub enum ProjectFault {
    /// There are more than [`MOST_FILES`] files.
    #[error("too many files")]
    TooManyFiles,
    /// A path is over 4,096 bytes, holds NUL or LF, climbs above its start, or is that of a file and names none.
    #[error("bad path at {index}")]
    BadPath {
        /// The place of the first such path.
        index: usize,
    },
    /// Two files have one normal path.
    #[error("the paths at {first} and {second} are one")]
    SamePath {
        /// The place of the first of them.
        first: usize,
        /// The least place whose path is at a place before.
        second: usize,
    },
    /// Memory ran out.
    #[error("out of memory")]
    NoMemory,
}

impl From<AllocError> for ProjectFault {
    ghost use Rattle.inc_lookup.specs.declared.projects.ProjectFault.TheVariants.{NoMemory};

    ghost from_gives = { λ _ e. e ≡ NoMemory };

    fn from(_error: AllocError) -> ProjectFault {
        ProjectFault::NoMemory
    }
}

impl<T: Drop> From<AllocFailed<T>> for ProjectFault {
    ghost use Rattle.inc_lookup.specs.declared.projects.ProjectFault.TheVariants.{NoMemory};

    ghost from_gives = { λ _ e. e ≡ NoMemory };

    fn from(_error: AllocFailed<T>) -> ProjectFault {
        ProjectFault::NoMemory
    }
}

/// A file of a project, by its place in the list. It is used with the project that it came from.
#[derive(Clone, Copy, Debug, PartialEq, Eq)]
pub struct FileId {
    index: u32,
}

impl Model for FileId {
    ghost use Rattle.std.specs.Prelude.{ℕ};

    ghost Value = { ℕ };

    ghost view = { λ f. f.index };

    ghost inverse = { λ n. record { index = n } };
}

impl FileId {
    /// The place in the list of files, from 0.
    pub fn index(self) -> usize
        ensures { result ≡ self }
    {
        self.index as usize
    }
}

/// A file that a search finds, and where an `#include_next` in it goes on.
#[derive(Clone, Copy, Debug, PartialEq, Eq)]
pub struct Found {
    /// The file.
    pub file: FileId,
    /// The directory of the include path, from 0, with which an `#include_next` in the file begins: the one after that in which the file was
    /// found, and the first for a file beside its includer. None where the name was absolute: there it looks as an `#include` does.
    pub next: Option<usize>,
}

/// A directive by its file and the physical line of its `#`, from 1.
#[derive(Clone, Copy, Debug, PartialEq, Eq)]
pub struct DirectiveId {
    /// The file that it is in.
    pub file: FileId,
    /// Its line.
    pub line: u32,
}

/// The paths of the files that are looked for and the directories to look in, in normal form. No bytes of a file are held.
///
/// A header name of which each component stays, as nearly all do, is looked up as it is; another one is reduced first, into memory of its
/// own.
#[derive(Drop)]
pub struct Project<'a> {
    /// The path of each file, in list order.
    paths: PathList<'a>,
    /// No path has more bytes.
    longest: usize,
    /// Its own include path.
    search: IncludePath,
    /// Tables of this run are hashed with it.
    seed: u64,
}

impl<'a> Model for Project<'a> {
    ghost use Rattle.inc_lookup.specs.Projects.{Layout};
    ghost use Rattle.inc_lookup.specs.Invariants.{IsKept};

    ghost Value = { Layout };

    ghost view = { λ p. record { paths = p.paths; search = p.search } };

    ghost invariant = { λ p. IsKept p.longest p.paths p.search.dirs };
}

/// The most files of a project.
pub const MOST_FILES: usize = 65_535;

impl<'a> Project<'a> {
    /// A project of files with these paths, in their order, and of these search directories, which are its own include path; the first
    /// `quoted` of them are for names between `"` alone. The seed is that of the table of paths and of all other tables of a run, so
    /// that whoever writes the files cannot choose names that make look-ups slow: a program draws it anew for each run.
    pub fn new(
        alloc: Global,
        seed: u64,
        paths: &'a [&'a [u8]],
        quoted: usize,
        dirs: &[&[u8]],
    ) -> Result<Project<'a>, ProjectFault>
        ensures project { IfOk result (λ project. project_of (map (λ p. p.now) paths.now) quoted
            (map (λ d. d.now) dirs.now) ≡ Ok project) }
        ensures fault { IfErr result (λ fault. fault ≢ ProjectFault.NoMemory →
            project_of (map (λ p. p.now) paths.now) quoted (map (λ d. d.now) dirs.now) ≡ Err fault) }
    {
        if paths.len() > MOST_FILES {
            return Err(ProjectFault::TooManyFiles);
        }
        let table = file_paths(alloc, seed, paths)?;
        let dirs = dir_paths(alloc, dirs, paths.len())?;
        let PathTable { paths, same } = table;
        if let Some((first, second)) = same {
            return Err(ProjectFault::SamePath { first, second });
        }
        let longest = paths.longest();
        let search = IncludePath::of_forms(alloc, seed, quoted, &dirs)?;
        Ok(Project {
            paths,
            longest,
            search,
            seed,
        })
    }

    /// The seed that it was made with.
    pub fn seed(&self) -> u64 {
        self.seed
    }

    /// Its own include path.
    pub fn include_path(&self) -> &IncludePath
        ensures { result.now ≡ self.now.search }
    {
        &self.search
    }

    /// How many files there are: at most [`MOST_FILES`].
    pub fn count(&self) -> usize
        ensures count { result ≡ length self.now.paths }
        ensures few { result ≤ MOST_FILES }
    {
        self.paths.len()
    }

    /// The file with this path, which is compared with normal forms as it is.
    pub fn file(&self, path: &[u8]) -> Option<FileId>
        ensures place { result ≡ place_of path.now self.now.paths }
        ensures within { IfSome result (λ file. file < length self.now.paths) }
        // No two files have one path.
        ensures only { (k : ℕ) → k < length self.now.paths → path_at self.now k ≡ path.now →
            result ≡ Some k }
    {
        let index = self.paths.place(path)?;
        Some(FileId {
            index: index as u32,
        })
    }

    /// No two files have one path. The function does nothing: what it ensures is what holds.
    pub fn each_path_once(&self)
        ensures { (i j : ℕ) → i < length self.now.paths → j < length self.now.paths →
            path_at self.now i ≡ path_at self.now j → i ≡ j }
    {
        let _longest = self.longest;
    }

    /// As [`Project::file`], without the table where the path is that of `near` or of `next`.
    pub fn file_near(&self, near: FileId, next: FileId, path: &[u8]) -> Option<FileId>
        requires near { near < length self.now.paths }
        requires next { next < length self.now.paths }
        ensures place { result ≡ place_of path.now self.now.paths }
        ensures within { IfSome result (λ file. file < length self.now.paths) }
        // No two files have one path.
        ensures only { (k : ℕ) → k < length self.now.paths → path_at self.now k ≡ path.now →
            result ≡ Some k }
    {
        let _longest = self.longest;
        if self.path(near) == path {
            return Some(near);
        }
        if self.path(next) == path {
            return Some(next);
        }
        self.file(path)
    }

    /// The file at a place of the list.
    pub fn at(&self, index: usize) -> Option<FileId>
        ensures { result ≡ (if nat_lt index (length self.now.paths) then Some index else None) }
    {
        if index < self.paths.len() {
            Some(FileId {
                index: index as u32,
            })
        } else {
            None
        }
    }

    /// The normal path of a file.
    pub fn path(&self, file: FileId) -> &[u8]
        requires { file < length self.now.paths }
        ensures path { result.now ≡ path_at self.now file }
        ensures normal { IsNormal result.now }
        // It is not empty and holds no LF.
        ensures clean { IsTrue (is_clean_path result.now) }
        ensures short { length result.now ≤ LONGEST_PATH }
    {
        self.paths.path(file.index as usize)
    }

    /// The file that an include directive names, which is in the file `from` (6.10.2): the first candidate whose normal
    /// form is in the list.
    pub fn find(
        &self,
        alloc: Global,
        from: FileId,
        form: Form,
        name: &[u8],
    ) -> Result<Option<FileId>, AllocError>
        requires { from < length self.now.paths }
        ensures found { IfOk result (λ found. found
            ≡ found_file self.now (path_at self.now from) form name.now) }
        ensures within { IfOk result (λ found. IfSome found
            (λ file. file < length self.now.paths)) }
    {
        match self.find_from(alloc, from, form, None, name)? {
            Some(found) => Ok(Some(found.file)),
            None => Ok(None),
        }
    }

    /// The file that a directive names, which is in the file `from`, and where an `#include_next` in that file goes on. `after`: of an
    /// `#include_next` the directory of the include path with which it begins, whatever its form. The name is reduced once; a plain one
    /// costs no memory for that.
    pub fn find_from(
        &self,
        alloc: Global,
        from: FileId,
        form: Form,
        after: Option<usize>,
        name: &[u8],
    ) -> Result<Option<Found>, AllocError>
        requires { from < length self.now.paths }
        ensures found { IfOk result (λ found. found
            ≡ found_place self.now (path_at self.now from) form after name.now) }
        ensures within { IfOk result (λ found. IfSome found
            (λ f. f.file < length self.now.paths)) }
    {
        self.find_in(alloc, &self.search, from, form, after, name)
    }

    /// As [`Project::find_from`], in another include path in place of the project's own.
    pub fn find_in(
        &self,
        alloc: Global,
        search: &IncludePath,
        from: FileId,
        form: Form,
        after: Option<usize>,
        name: &[u8],
    ) -> Result<Option<Found>, AllocError>
        requires { from < length self.now.paths }
        ensures found { IfOk result (λ found. found
            ≡ found_place (record { paths = self.now.paths; search = search.now }) (path_at self.now from) form after name.now) }
        ensures within { IfOk result (λ found. IfSome found
            (λ f. f.file < length self.now.paths)) }
    {
        if is_plain(name) {
            let plain = Reduced {
                climbs: 0,
                rest: name,
            };
            return self.look(alloc, search, from, form, after, &plain);
        }
        let reduction = Reduction::new(alloc, name)?;
        let reduced = Reduced {
            climbs: reduction.climbs,
            rest: &reduction.rest,
        };
        if is_absolute(name) {
            let mut buffer = Vec::new(alloc);
            return self.look_at(&mut buffer, b"/", &reduced, None);
        }
        self.look(alloc, search, from, form, after, &reduced)
    }

    /// The first file with this relative name where a directive of this form looks for it. All candidates are made in one buffer.
    fn look(
        &self,
        alloc: Global,
        search: &IncludePath,
        from: FileId,
        form: Form,
        after: Option<usize>,
        name: &Reduced<'_>,
    ) -> Result<Option<Found>, AllocError>
        requires { from < length self.now.paths }
        ensures found { IfOk result (λ found. (text : List ℕ) →
            IsReduced text name.now.climbs name.now.rest.now → is_absolute text ≡ false →
            found ≡ found_place (record { paths = self.now.paths; search = search.now }) (path_at self.now from) form after text) }
        ensures within { IfOk result (λ found. IfSome found
            (λ f. f.file < length self.now.paths)) }
    {
        let mut buffer = Vec::new(alloc);
        if let Some(first) = after {
            return self.look_in_dirs(&mut buffer, search, first, name);
        }
        match form {
            Form::Quoted => self.look_from(&mut buffer, search, from, name),
            Form::Angled => self.look_in_dirs(&mut buffer, search, search.quoted(), name),
        }
    }

    /// The first file with this name in the directory of a file and the include path.
    fn look_from(
        &self,
        buffer: &mut Vec<u8>,
        search: &IncludePath,
        from: FileId,
        name: &Reduced<'_>,
    ) -> Result<Option<Found>, AllocError>
        requires { from < length self.now.paths }
        ensures found { IfOk result (λ found. (text : List ℕ) →
            IsReduced text name.now.climbs name.now.rest.now → is_absolute text ≡ false →
            found ≡ found_place (record { paths = self.now.paths; search = search.now }) (path_at self.now from) Quoted None text) }
        ensures within { IfOk result (λ found. IfSome found
            (λ f. f.file < length self.now.paths)) }
    {
        let dir = directory_of(self.path(from));
        if let Some(found) = self.look_at(buffer, dir, name, Some(0))? {
            return Ok(Some(found));
        }
        self.look_in_dirs(buffer, search, 0, name)
    }

    /// The first file with this name in the directories of the include path from a place on.
    fn look_in_dirs(
        &self,
        buffer: &mut Vec<u8>,
        search: &IncludePath,
        first: usize,
        name: &Reduced<'_>,
    ) -> Result<Option<Found>, AllocError>
        ensures found { IfOk result (λ found. (text : List ℕ) →
            IsReduced text name.now.climbs name.now.rest.now → is_absolute text ≡ false →
            found ≡ found_in self.now.paths search.now.dirs first text) }
        ensures within { IfOk result (λ found. IfSome found
            (λ f. f.file < length self.now.paths)) }
    {
        for index in first..search.len() {
            let dir = search.dir(index);
            if let Some(found) = self.look_at(buffer, dir, name, Some(index + 1))? {
                return Ok(Some(found));
            }
        }
        Ok(None)
    }

    /// The file with this name in a directory whose path is a normal form. `next`: where an `#include_next` goes on in it.
    fn look_at(
        &self,
        buffer: &mut Vec<u8>,
        dir: &[u8],
        name: &Reduced<'_>,
        next: Option<usize>,
    ) -> Result<Option<Found>, AllocError>
        requires { IsNormal dir.now }
        ensures found { IfOk result (λ found. (text : List ℕ) →
            IsReduced text name.now.climbs name.now.rest.now →
            (is_absolute text ≡ true → 0 < length dir.now) →
            found ≡ found_at self.now.paths (record { path = joined_path dir.now text; next = next })) }
        ensures within { IfOk result (λ found. IfSome found
            (λ f. f.file < length self.now.paths)) }
    {
        match self.look_in(buffer, dir, name)? {
            Some(file) => Ok(Some(Found { file, next })),
            None => Ok(None),
        }
    }

    /// The file with this name in a directory whose path is a normal form. A name that is longer than every path is not put after it.
    fn look_in(
        &self,
        buffer: &mut Vec<u8>,
        dir: &[u8],
        name: &Reduced<'_>,
    ) -> Result<Option<FileId>, AllocError>
        requires { IsNormal dir.now }
        ensures found { IfOk result (λ found. (text : List ℕ) →
            IsReduced text name.now.climbs name.now.rest.now →
            (is_absolute text ≡ true → 0 < length dir.now) →
            found ≡ found_as self.now.paths (joined_path dir.now text)) }
        ensures within { IfOk result (λ found. IfSome found
            (λ file. file < length self.now.paths)) }
    {
        if name.rest.len() > self.longest {
            return Ok(None);
        }
        if dir.is_empty() && name.climbs == 0 {
            return Ok(self.file(name.rest));
        }
        buffer.reserve(self.longest)?;
        buffer.clear();
        buffer.extend_from_slice(dir)?;
        let root = root_len(dir);
        if name.push_onto(buffer, root)? {
            Ok(self.file(buffer))
        } else {
            Ok(None)
        }
    }
}

/// The length of the leading `/` of a path, 0 where it has none.
fn root_len(path: &[u8]) -> usize
    ensures { result ≡ root_len path.now }
{
    if is_absolute(path) { 1 } else { 0 }
}

/// The directory of a file by its normal path.
fn directory_of(path: &[u8]) -> &[u8]
    ensures directory { result.now ≡ directory_of path.now }
    ensures normal { IsNormal path.now → IsNormal result.now }
{
    match memrchr(b'/', path) {
        None => &[],
        Some(0) => &path[..1],
        Some(slash) => &path[..slash],
    }
}
