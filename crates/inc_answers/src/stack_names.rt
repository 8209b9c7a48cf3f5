//! Paths as names in stacks, which semicolons part.
ghost use Rattle.std.specs.Prelude.{◌≡◌, ◌/◌, ◌%◌, ◌++◌, [], ◌∷◌, codes, flat_map};
ghost use Rattle.std.specs.Bool.{MatchBool, OnTrue};
ghost use Rattle.inc_answers.specs.MissingNotes.{hex_digit};
ghost use Rattle.inc_answers.specs.Sending.{Sends};
ghost use Rattle.inc_answers.specs.TreeText.{name_byte};

use crate::missing_notes::hex_digit;
use crate::output::Output;
use inc_text::ByteSink;

/// Sends a path as a name.
pub fn send_name<W: ByteSink>(out: &mut Output<W>, path: &[u8])
    ensures { Sends out.old out.new (flat_map name_byte path.now) }
{
    // Most paths stand as they are.
    if is_plain(path) {
        out.send(path);
        return;
    }
    for byte in path {
        send_byte(out, *byte);
    }
}

/// Whether each byte of a path stands as it is.
fn is_plain(path: &[u8]) -> bool
    ensures { OnTrue result (flat_map name_byte path.now ≡ path.now) }
{
    for byte in path {
        if !is_plain_byte(*byte) {
            return false;
        }
    }
    true
}

/// Whether a byte does: one of printable ASCII but the semicolon.
fn is_plain_byte(byte: u8) -> bool
    ensures { MatchBool result (name_byte byte ≡ byte ∷ []) (name_byte byte ≡ codes "\\x" ++ hex_digit (byte / 16) ∷ hex_digit (byte % 16) ∷ []) }
{
    byte > 31 && byte < 127 && byte != b';'
}

/// Sends a byte of a name.
fn send_byte<W: ByteSink>(out: &mut Output<W>, byte: u8)
    ensures { Sends out.old out.new (name_byte byte) }
{
    if is_plain_byte(byte) {
        out.send(&[byte]);
        return;
    }
    out.send(b"\\x");
    out.send(&[hex_digit(byte / 16), hex_digit(byte % 16)]);
}
