//! For each rest of a path, whether the pieces from some place on fit it: a row of values, from which that of one piece more is made in place.
ghost use Rattle.std.specs.Prelude.{◌≡◌, ◌+◌, ℕ, List, Bool, [], OnOk, length};
ghost use Rattle.inc_globs.specs.Globs.{Directories, fits, fits_piece, many, one};
ghost use Rattle.inc_globs.specs.Rows.{IsRow};
ghost use Rattle.inc_globs.specs.Views.{seen_piece};

use crate::globs::Piece;
use std::alloc::AllocError;

/// The row of no pieces, which fit the empty rest alone.
pub(crate) fn fill(row: &mut Vec<bool>, path: &[u8]) -> Result<(), AllocError>
    ensures { OnOk result (IsRow (fits []) path.now row.new.items) }
{
    row.clear();
    row.resize(path.len(), false)?;
    row.push(true)?;
    Ok(())
}

/// The row of a piece and what it was before.
pub(crate) fn put_piece(row: &mut [bool], piece: Piece<'_>, path: &[u8])
    requires { length row.now ≡ length path.now + 1 }
    ensures { (rest : List ℕ → Bool) → IsRow rest path.now row.old →
        IsRow (fits_piece (seen_piece piece.entry) rest) path.now row.new }
{
    match piece {
        Piece::Byte(_) => put_one(row, piece, path),
        Piece::Any => put_one(row, piece, path),
        Piece::Class { .. } => put_one(row, piece, path),
        Piece::Name => put_many(row, piece, path),
        Piece::Path => put_many(row, piece, path),
        Piece::Directories => put_directories(row, path),
    }
}

/// The row of one byte that a piece stands for.
fn put_one(row: &mut [bool], piece: Piece<'_>, path: &[u8])
    requires { length row.now ≡ length path.now + 1 }
    ensures { (rest : List ℕ → Bool) → IsRow rest path.now row.old →
        IsRow (one (seen_piece piece.entry) rest) path.now row.new }
{
    for index in 0..path.len() {
        row[index] = piece.stands_for(path[index]) & row[index + 1];
    }
    row[path.len()] = false;
}

/// The row of any bytes that a piece stands for.
fn put_many(row: &mut [bool], piece: Piece<'_>, path: &[u8])
    requires { length row.now ≡ length path.now + 1 }
    ensures { (rest : List ℕ → Bool) → IsRow rest path.now row.old →
        IsRow (many (seen_piece piece.entry) rest) path.now row.new }
{
    let mut at = path.len();
    while at > 0 {
        at -= 1;
        row[at] = row[at] | (piece.stands_for(path[at]) & row[at + 1]);
    }
}

/// The row of any directories.
fn put_directories(row: &mut [bool], path: &[u8])
    requires { length row.now ≡ length path.now + 1 }
    ensures { (rest : List ℕ → Bool) → IsRow rest path.now row.old →
        IsRow (fits_piece Directories rest) path.now row.new }
{
    let mut at = path.len();
    let mut behind = row[at];
    let mut below = false;
    while at > 0 {
        at -= 1;
        below = (path[at] == b'/') & behind | below;
        behind = row[at];
        row[at] = behind | below;
    }
}
