//! The C files below a folder of the host.
use crate::hindrances::fault_of;
use inc_inputs::{Excluded, Hindrance};
use inc_lookup::MOST_FILES;
use inc_text::ReadFault;
use std::alloc::{AllocError, Global};
use std::cell::Cell;
use std::fs;
use std::fs::{DirEntry, ReadDir, read_dir};
use std::io::ErrorKind;

/// How the names of files end that hold C, or parts of it that are included.
const SUFFIXES: [&str; 12] = [
    ".c", ".h", ".inc", ".def", ".tbl", ".tab.i", ".S", ".cc", ".hh", ".hpp", ".ipp", ".inl",
];

/// What is found on the way through the folders.
#[derive(Drop)]
struct Walk<'h> {
    /// Whether the file to which a link leads counts under the name of the link.
    follows: bool,
    /// What stood in the way of a folder that was not read.
    hindrance: &'h Cell<Hindrance>,
    /// The folders that are still to be read.
    folders: Vec<String>,
    /// The one that is read, which holds 8 KB of names.
    open: Vec<ReadDir>,
    /// The files.
    files: Vec<String>,
}

/// The paths of the C files below a folder, sorted byte by byte, each ended by NUL: regular files whose names end so, but for those that are
/// excluded. Links to folders are not followed, those to files only if `follows` is set; folders whose names begin with a dot are not
/// entered, and names that are not UTF-8 are skipped. The walk ends once there are more files than a project may have. A folder that cannot
/// be read is a fault, and `hindrance` keeps what stood in its way.
pub(crate) fn list_files(
    rt: &HostRuntime,
    folder: &str,
    excluded: &mut Excluded<'_>,
    follows: bool,
    hindrance: &Cell<Hindrance>,
) -> Result<Vec<u8>, ReadFault> {
    let mut walk = Walk {
        follows,
        hindrance,
        folders: Vec::new(rt.alloc()),
        open: Vec::new(rt.alloc()),
        files: Vec::new(rt.alloc()),
    };
    push_path(&mut walk.folders, rt.alloc(), folder)?;
    walk.read_all(rt, excluded)?;
    walk.files.sort()?;
    Ok(list_of(rt.alloc(), &walk.files)?)
}

impl Walk<'_> {
    /// Reads the folders that are left, and those below them.
    fn read_all(&mut self, rt: &HostRuntime, excluded: &mut Excluded<'_>) -> Result<(), ReadFault> {
        for _ in 0..u64::MAX {
            let Some(folder) = self.folders.pop() else {
                return Ok(());
            };
            if self.files.len() > MOST_FILES {
                return Ok(());
            }
            self.read_folder(rt, &folder, excluded)?;
        }
        Ok(())
    }

    /// Reads a folder.
    fn read_folder(
        &mut self,
        rt: &HostRuntime,
        folder: &String,
        excluded: &mut Excluded<'_>,
    ) -> Result<(), ReadFault> {
        self.open_folder(rt, folder)?;
        for _ in 0..u64::MAX {
            let Some(entry) = self.next_entry()? else {
                return Ok(());
            };
            self.take_entry(rt, &entry, excluded)?;
        }
        Ok(())
    }

    /// Opens a folder in place of the one before.
    // Apart, so that what `read_dir` takes of the stack is given back before entries are looked at.
    #[inline(never)]
    fn open_folder(&mut self, rt: &HostRuntime, folder: &String) -> Result<(), ReadFault> {
        self.open.clear();
        match read_dir(rt, folder.as_str()) {
            Ok(entries) => Ok(keep_open(&mut self.open, entries)?),
            Err(error) => Err(fault_of(error, self.hindrance)),
        }
    }

    /// The next entry of the open folder. A name that is not UTF-8 is skipped, since it could not be opened.
    fn next_entry(&mut self) -> Result<Option<DirEntry>, ReadFault> {
        for _ in 0..u64::MAX {
            let Some(entries) = self.open.last_mut() else {
                return Ok(None);
            };
            match entries.next() {
                None => return Ok(None),
                Some(Ok(entry)) => return Ok(Some(entry)),
                Some(Err(error)) if error.kind() == ErrorKind::InvalidFilename => {}
                Some(Err(error)) => return Err(fault_of(error, self.hindrance)),
            }
        }
        Ok(None)
    }

    /// Keeps a folder to be read, or a C file.
    fn take_entry(
        &mut self,
        rt: &HostRuntime,
        entry: &DirEntry,
        excluded: &mut Excluded<'_>,
    ) -> Result<(), ReadFault> {
        let kind = match entry.file_type() {
            Ok(kind) => kind,
            // It was there a moment ago.
            Err(error) if error.kind() == ErrorKind::NotFound => return Ok(()),
            Err(error) => return Err(fault_of(error, self.hindrance)),
        };
        let name = entry.file_name();
        let path = entry.path();
        let path = path.as_str();
        if kind.is_dir() && !name.starts_with('.') {
            push_path(&mut self.folders, rt.alloc(), path)?;
        } else if is_c(name) && (kind.is_file() || self.leads_to_file(rt, path)) {
            let path = path.strip_prefix("./").unwrap_or(path);
            if !excluded.has(path.as_bytes())? {
                push_path(&mut self.files, rt.alloc(), path)?;
            }
        }
        Ok(())
    }
}

impl Walk<'_> {
    /// Whether a link is followed, and leads to a file.
    #[inline(never)]
    fn leads_to_file(&self, rt: &HostRuntime, path: &str) -> bool {
        if !self.follows {
            return false;
        }
        match fs::metadata(rt, path) {
            Ok(found) => found.is_file(),
            Err(_) => false,
        }
    }
}

/// Whether a file of this name holds C.
fn is_c(name: &str) -> bool {
    SUFFIXES.iter().any(|suffix| name.ends_with(*suffix))
}

/// Adds a path.
fn push_path(paths: &mut Vec<String>, alloc: Global, path: &str) -> Result<(), AllocError> {
    paths.push(String::from_str(alloc, path)?)?;
    Ok(())
}

/// Keeps an open folder.
fn keep_open(open: &mut Vec<ReadDir>, entries: ReadDir) -> Result<(), AllocError> {
    open.push(entries)?;
    Ok(())
}

/// Paths, each ended by NUL.
fn list_of(alloc: Global, paths: &[String]) -> Result<Vec<u8>, AllocError> {
    let mut list = Vec::new(alloc);
    for path in paths {
        list.extend_from_slice(path.as_bytes())?;
        list.push(0)?;
    }
    Ok(list)
}
