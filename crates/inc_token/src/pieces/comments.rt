//! Comments.
ghost use Rattle.std.specs.Prelude.{◌≡◌, ◌==◌, ◌+◌, ◌≤◌, not, length, drop};
ghost use Rattle.std.specs.List.{prefix_len};
ghost use Rattle.inc_token.specs.TokenLines.{block_comment, line_comment};
ghost use Rattle.inc_text.specs.Ascii.{line_feed};

use super::Piece;
use memchr::{memchr, memmem};

/// The comment whose `/*` is at a place.
pub(super) fn block(text: &[u8], at: usize) -> Piece
    requires { at + 2 ≤ length text.now }
    ensures { result ≡ block_comment (drop at text.now) }
{
    match memmem::find(&text[at + 2..], b"*/") {
        Some(inside) => Piece::Blank(inside + 4),
        None => Piece::Unclosed,
    }
}

/// How many bytes are at a place before the next LF, or before the end of the text.
pub(super) fn line_len(text: &[u8], at: usize) -> usize
    requires { at ≤ length text.now }
    ensures { result ≡ prefix_len (λ b. not (b == line_feed)) (drop at text.now) }
{
    let rest = &text[at..];
    match memchr(b'\n', rest) {
        Some(len) => len,
        None => rest.len(),
    }
}

/// The comment whose `//` is at a place: all up to the LF.
pub(super) fn line(text: &[u8], at: usize) -> Piece
    requires { at ≤ length text.now }
    ensures { result ≡ line_comment (drop at text.now) }
{
    Piece::Blank(line_len(text, at))
}
