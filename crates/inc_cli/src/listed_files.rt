//! The files of the host that a list names.
use crate::hindrances::hindrance_of;
use inc_inputs::Hindrance;
use inc_text::SeededState;
use indexmap::IndexSet;
use std::alloc::AllocError;
use std::fs;
use std::fs::{File, Metadata};
use std::io::{Error, ErrorKind};

/// Why a file of the list is not opened.
#[derive(Clone, Copy)]
pub(crate) enum Unopened {
    /// This stands in its way.
    Hindered(Hindrance),
    /// Memory ran out.
    NoMemory,
}

impl From<AllocError> for Unopened {
    fn from(_error: AllocError) -> Unopened {
        Unopened::NoMemory
    }
}

impl From<Error> for Unopened {
    fn from(error: Error) -> Unopened {
        match error.kind() {
            ErrorKind::OutOfMemory => Unopened::NoMemory,
            _ => Unopened::Hindered(hindrance_of(&error)),
        }
    }
}

/// Opens the files of a list: regular files alone, so that no device and no pipe is waited for, and, unless links are followed, files to
/// which no link leads, so that what is read lies where the list says. They are looked at by their paths before they are opened. So
/// nobody may change the tree meanwhile; but what is opened is still looked at before it is read.
#[derive(Drop)]
pub(crate) struct ListedFiles {
    follows: bool,
    /// The folders to which no link leads, as far as they were looked at, and those that words name.
    folders: IndexSet<String, SeededState>,
}

impl ListedFiles {
    /// No folder is known. Tables are hashed with the seed.
    pub fn new(rt: &HostRuntime, seed: u64) -> ListedFiles {
        ListedFiles {
            follows: false,
            folders: IndexSet::with_hasher(rt.alloc(), SeededState::new(seed)),
        }
    }

    /// Whether links are followed.
    pub fn follows(&self) -> bool {
        self.follows
    }

    /// Sets whether links are followed.
    pub fn follow(&mut self, follows: bool) {
        self.follows = follows;
    }

    /// Takes a folder that a word names as one to which no link leads.
    pub fn trust(&mut self, rt: &HostRuntime, folder: &str) -> Result<(), AllocError> {
        let folder = folder.strip_prefix("./").unwrap_or(folder);
        let folder = folder.trim_end_matches('/');
        self.folders.insert(String::from_str(rt.alloc(), folder)?)?;
        Ok(())
    }

    /// Opens the file at a path, and says how long it is.
    pub fn open(&mut self, rt: &HostRuntime, path: &str) -> Result<(File, usize), Unopened> {
        regular(&self.look_at(rt, path)?)?;
        let file = fs::open(rt, path)?;
        let opened = file.metadata()?;
        regular(&opened)?;
        Ok((file, opened.len() as usize))
    }

    /// What is at a path.
    fn look_at(&mut self, rt: &HostRuntime, path: &str) -> Result<Metadata, Unopened> {
        if self.follows {
            return Ok(fs::metadata(rt, path)?);
        }
        if self.is_beyond_link(rt, path)? {
            return Err(Unopened::Hindered(Hindrance::Link));
        }
        let found = fs::symlink_metadata(rt, path)?;
        if found.is_symlink() {
            return Err(Unopened::Hindered(Hindrance::Link));
        }
        Ok(found)
    }

    /// Whether a link leads to the folder of a path. Each folder is looked at once.
    fn is_beyond_link(&mut self, rt: &HostRuntime, path: &str) -> Result<bool, AllocError> {
        let Some((folder, _)) = path.rsplit_once('/') else {
            return Ok(false);
        };
        if self.folders.contains(folder) {
            return Ok(false);
        }
        if self.leads_through_link(rt, folder) {
            return Ok(true);
        }
        self.folders.insert(String::from_str(rt.alloc(), folder)?)?;
        Ok(false)
    }

    /// Whether a folder or one before it on its path is a link, up to one that is known.
    fn leads_through_link(&self, rt: &HostRuntime, folder: &str) -> bool {
        let mut folder = folder;
        for _ in 0..u64::MAX {
            if folder.is_empty() || self.folders.contains(folder) {
                return false;
            }
            if is_link(rt, folder) {
                return true;
            }
            match folder.rsplit_once('/') {
                Some((before, _)) => folder = before,
                None => return false,
            }
        }
        false
    }
}

/// Whether a path is that of a link. What cannot be looked at is none: the file cannot be opened then.
fn is_link(rt: &HostRuntime, path: &str) -> bool {
    match fs::symlink_metadata(rt, path) {
        Ok(found) => found.is_symlink(),
        Err(_) => false,
    }
}

/// Nothing stands in the way of a regular file.
fn regular(found: &Metadata) -> Result<(), Unopened> {
    if found.is_file() {
        Ok(())
    } else {
        Err(Unopened::Hindered(Hindrance::NoRegularFile))
    }
}
