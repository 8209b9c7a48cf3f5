//! The include path of an entry.
ghost use Rattle.std.specs.Prelude.{◌≡◌, ◌++◌, List, IfOk, OnOk, map};
ghost use Rattle.inc_build.specs.Configurations as spec;
ghost use Rattle.inc_build.specs.Configurations.{Row as Asked};
ghost use Rattle.inc_build.specs.Views.{seen_item, seen_row};

use crate::compiler_words::{Item, Kind};
use crate::paths::path_from;
use std::alloc::{AllocError, Global};

/// A directory that is searched, or a file that is read before the source.
#[derive(Drop)]
pub struct Row {
    /// How it is searched or read.
    pub kind: Kind,
    /// Its absolute path.
    pub path: Vec<u8>,
    /// Of a file the word that names it, by which it is searched where the path is that of none.
    pub name: Vec<u8>,
}

/// The include path that the items of an entry ask for, with relative words looked up from its directory: directories in the order in which they
/// are searched, and then the files of `-imacros` and of `-include`. A directory that is named twice is there twice.
pub fn configuration<'w>(
    alloc: Global,
    directory: &[u8],
    items: &[Item<'w>],
) -> Result<Vec<Row>, AllocError>
    ensures { IfOk result (λ rows. map seen_row rows.items ≡ spec.configuration directory.now (map seen_item items.now)) }
{
    let mut rows = Vec::new(alloc);
    push_rows(alloc, &mut rows, directory, Kind::Quoted, items)?;
    push_rows(alloc, &mut rows, directory, Kind::Searched, items)?;
    push_rows(alloc, &mut rows, directory, Kind::System, items)?;
    push_rows(alloc, &mut rows, directory, Kind::Last, items)?;
    push_rows(alloc, &mut rows, directory, Kind::Macros, items)?;
    push_rows(alloc, &mut rows, directory, Kind::Included, items)?;
    Ok(rows)
}

/// Adds those of one kind.
fn push_rows<'w>(
    alloc: Global,
    rows: &mut Vec<Row>,
    directory: &[u8],
    kind: Kind,
    items: &[Item<'w>],
) -> Result<(), AllocError>
    ensures { OnOk result (map seen_row rows.new.items
        ≡ map seen_row rows.old.items ++ spec.rows_of directory.now kind (map seen_item items.now)) }
{
    let mut at = 0;
    while at < items.len() {
        push_row(alloc, rows, directory, kind, items[at])?;
        at += 1;
    }
    Ok(())
}

/// Adds the row of an item, if it is of this kind.
fn push_row<'w>(
    alloc: Global,
    rows: &mut Vec<Row>,
    directory: &[u8],
    kind: Kind,
    item: Item<'w>,
) -> Result<(), AllocError>
    ensures { OnOk result ((more : List Asked) → map seen_row rows.new.items ++ more
        ≡ map seen_row rows.old.items ++ spec.row_or directory.now kind (seen_item item.entry) more) }
{
    if let Item::Given(given, value) = item {
        if is_kind(given, kind) {
            let path = path_from(alloc, directory, value)?;
            let name = Vec::from_slice(alloc, name_of(kind, value))?;
            rows.push(Row { kind, path, name })?;
        }
    }
    Ok(())
}

/// Of a file the word, of a directory nothing.
fn name_of<'w>(kind: Kind, value: &'w [u8]) -> &'w [u8]
    ensures { result.now ≡ spec.name_of kind value.now }
{
    match kind {
        Kind::Macros => value,
        Kind::Included => value,
        _ => &[],
    }
}

/// Whether two kinds are the same.
fn is_kind(a: Kind, b: Kind) -> bool
    ensures { result ≡ spec.is_kind a b }
{
    match (a, b) {
        (Kind::Quoted, Kind::Quoted) => true,
        (Kind::Searched, Kind::Searched) => true,
        (Kind::System, Kind::System) => true,
        (Kind::Last, Kind::Last) => true,
        (Kind::Macros, Kind::Macros) => true,
        (Kind::Included, Kind::Included) => true,
        (Kind::Defined, Kind::Defined) => true,
        (Kind::Undefined, Kind::Undefined) => true,
        _ => false,
    }
}
