//! The class of a spelling that was made, and not read from a text.
ghost use Rattle.std.specs.Prelude.{◌≡◌, length};
ghost use Rattle.inc_token.specs.Spellings.{class_of};
ghost use Rattle.inc_token.specs.WholePieces.{class_of_whole};

use crate::kinds::Kind;
use crate::pieces::{Piece, Progress, piece_at, skip_blanks};
use inc_text::Language;

/// The class of a piece at the front of a text of so many bytes, where it is a token and the whole text.
fn class_of_whole(piece: Piece, len: usize) -> Option<Kind>
    ensures { result ≡ class_of_whole piece len }
{
    match piece {
        Piece::Lexeme(kind, n) if n == len => Some(kind),
        _ => None,
    }
}

/// The class in which the whole of the bytes lies (ISO/IEC 9899:2018, 6.4), never `HeaderName`. `None` where it lies in none,
/// as bytes of white space, comments and two tokens do.
pub fn kind_of(language: Language, bytes: &[u8]) -> Option<Kind>
    ensures { result ≡ class_of language bytes.now }
{
    if bytes.is_empty() || skip_blanks(bytes, 0) > 0 {
        return None;
    }
    class_of_whole(
        piece_at(language, bytes, 0, Progress::Elsewhere),
        bytes.len(),
    )
}
