//! Compilation databases.
ghost use Rattle.std.specs.Prelude.{◌≡◌, ◌≢◌, ◌<◌, ◌^◌, Some, None, Ok, Err, IfOk, IfErr, IsUtf8, map};
ghost use Rattle.serde_json.specs.Read.{read as read_json};
ghost use Rattle.serde_json.specs.View.{items_view, view};
ghost use Rattle.inc_build.specs.Databases as spec;
ghost use Rattle.inc_build.specs.Views.{seen_entry};

use crate::entries::{Entry, EntryFault, array_of, read_entry};
use serde_json::Value;
use std::alloc::{AllocError, AllocFailed, Global};
use thiserror::Error;

/// Why a compilation database is none.
#[derive(Clone, Copy, Debug, PartialEq, Eq, Error)]
pub enum DatabaseFault {
    /// It is no JSON. The place is where its reader stood.
    #[error("{line}:{column}: no JSON")]
    NoJson {
        /// The line, from 1 on.
        line: usize,
        /// The byte of that line, from 1 on.
        column: usize,
    },
    /// It is no array.
    #[error("no array")]
    NoArray,
    /// An entry is none.
    #[error("entry {number}: {fault}")]
    BadEntry {
        /// The number of the entry, from 1 on.
        number: usize,
        /// What it lacks.
        fault: EntryFault,
    },
    /// Memory ran out.
    #[error("out of memory")]
    NoMemory,
}

impl From<AllocError> for DatabaseFault {
    ghost use Rattle.inc_build.specs.declared.databases.DatabaseFault.TheVariants.{NoMemory};
    ghost use Rattle.std.specs.Prelude.{◌≡◌};

    ghost from_gives = { λ _ e. e ≡ NoMemory };

    fn from(_error: AllocError) -> DatabaseFault {
        DatabaseFault::NoMemory
    }
}

impl<T: Drop> From<AllocFailed<T>> for DatabaseFault {
    ghost use Rattle.inc_build.specs.declared.databases.DatabaseFault.TheVariants.{NoMemory};
    ghost use Rattle.std.specs.Prelude.{◌≡◌};

    ghost from_gives = { λ _ e. e ≡ NoMemory };

    fn from(_error: AllocFailed<T>) -> DatabaseFault {
        DatabaseFault::NoMemory
    }
}

/// The value of JSON that the bytes of a file stand for. What is read of it lends its texts.
pub fn read_database(alloc: Global, bytes: &[u8]) -> Result<Value, DatabaseFault>
    ensures value { IfOk result (λ value. read_json bytes.now ≡ Some (view value)) }
    ensures text { IfOk result (λ value. IsUtf8 bytes.now) }
    ensures fault { IfErr result (λ fault. fault ≢ DatabaseFault.NoMemory → IsUtf8 bytes.now → read_json bytes.now ≡ None) }
{
    match Value::from_slice(alloc, bytes) {
        Ok(value) => Ok(value),
        Err(error) => {
            if error.is_memory() {
                return Err(DatabaseFault::NoMemory);
            }
            Err(DatabaseFault::NoJson {
                line: error.line(),
                column: error.column(),
            })
        }
    }
}

/// The entries of a database, in their order.
pub fn read_entries<'v>(alloc: Global, database: &'v Value) -> Result<Vec<Entry<'v>>, DatabaseFault>
    ensures entries { IfOk result (λ es. spec.entries (view database.now) ≡ Ok (map seen_entry es.items)) }
    ensures fault { IfErr result (λ fault. fault ≢ DatabaseFault.NoMemory → spec.entries (view database.now) ≡ Err fault) }
{
    match array_of(database) {
        Some(items) => entries_of(alloc, items),
        None => Err(DatabaseFault::NoArray),
    }
}

/// Items as entries.
fn entries_of<'v>(alloc: Global, items: &'v [Value]) -> Result<Vec<Entry<'v>>, DatabaseFault>
    ensures entries { IfOk result (λ es. spec.entries_from 1 (items_view items.now) ≡ Ok (map seen_entry es.items)) }
    ensures fault { IfErr result (λ fault. fault ≢ DatabaseFault.NoMemory → spec.entries_from 1 (items_view items.now) ≡ Err fault) }
{
    let mut entries = Vec::with_capacity(alloc, items.len())?;
    let mut at = 0;
    while at < items.len() {
        let entry = numbered(at + 1, read_entry(alloc, &items[at]))?;
        entries.push(entry)?;
        at += 1;
    }
    Ok(entries)
}

/// An entry, or its fault with its number.
fn numbered<'v>(
    number: usize,
    entry: Result<Entry<'v>, EntryFault>,
) -> Result<Entry<'v>, DatabaseFault>
    ensures entry { IfOk result (λ e. entry.entry ≡ Ok e) }
    ensures fault { IfErr result (λ fault. spec.IsNumbered number entry.entry fault) }
{
    match entry {
        Ok(entry) => Ok(entry),
        Err(EntryFault::NoMemory) => Err(DatabaseFault::NoMemory),
        Err(fault) => Err(DatabaseFault::BadEntry { number, fault }),
    }
}
