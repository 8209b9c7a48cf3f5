//! The pieces of a pattern.
ghost use Rattle.std.specs.Prelude.{◌≡◌, ◌||◌, ◌≤◌, ◌<◌, ℕ, option_map, Option, IfSome, length, drop};
ghost use Rattle.inc_globs.specs.Globs.{class_at, class_after, ends_component, is_in, members_len, piece_at, stands_for, stars_at};
ghost use Rattle.inc_globs.specs.Views.{seen_piece, seen_step};

use crate::globs::Piece;

/// The piece that a pattern begins with, and its length; `first`: a component begins with it. `None` where it is a class without an end.
pub(crate) fn piece_at<'p>(pattern: &'p [u8], first: bool) -> Option<(Piece<'p>, usize)>
    requires { 0 < length pattern.now }
    ensures piece { option_map seen_step result ≡ piece_at first pattern.now }
    ensures within { IfSome result (λ x. (1 ≤ x.1) × (x.1 ≤ length pattern.now)) }
{
    match pattern[0] {
        b'*' => Some(stars_at(pattern, first)),
        b'?' => Some((Piece::Any, 1)),
        b'[' => class_at(pattern),
        byte => Some((Piece::Byte(byte), 1)),
    }
}

/// The piece of a pattern that begins with `*`.
fn stars_at<'p>(pattern: &'p [u8], first: bool) -> (Piece<'p>, usize)
    requires { 0 < length pattern.now }
    ensures piece { seen_step result ≡ stars_at first pattern.now }
    ensures within { (1 ≤ result.1) × (result.1 ≤ length pattern.now) }
{
    if first && pattern.starts_with(b"**/") {
        (Piece::Directories, 3)
    } else if pattern.starts_with(b"**") {
        (Piece::Path, 2)
    } else {
        (Piece::Name, 1)
    }
}

/// The class that a pattern begins with, if it ends.
fn class_at<'p>(pattern: &'p [u8]) -> Option<(Piece<'p>, usize)>
    requires { 0 < length pattern.now }
    ensures piece { option_map seen_step result ≡ class_at (drop 1 pattern.now) }
    ensures within { IfSome result (λ x. (1 ≤ x.1) × (x.1 ≤ length pattern.now)) }
{
    let negated = pattern.len() > 1 && (pattern[1] == b'!' || pattern[1] == b'^');
    let before = if negated { 2 } else { 1 };
    let members = &pattern[before..];
    let len = members_len(members)?;
    let class = Piece::Class {
        negated,
        members: &members[..len],
    };
    Some((class, before + len + 1))
}

/// How many bytes are before the `]` that ends a class; the first of them may be one.
fn members_len(text: &[u8]) -> Option<usize>
    ensures len { result ≡ members_len text.now }
    ensures within { IfSome result (λ n. n < length text.now) }
{
    let mut at = 1;
    while at < text.len() {
        if text[at] == b']' {
            return Some(at);
        }
        at += 1;
    }
    None
}

impl<'p> Piece<'p> {
    /// Whether a component begins after it.
    pub(crate) fn ends_component(self) -> bool
        ensures { result ≡ ends_component (seen_piece self.entry) }
    {
        match self {
            Piece::Byte(byte) => byte == b'/',
            Piece::Directories => true,
            _ => false,
        }
    }

    /// Whether it stands for a byte.
    pub(crate) fn stands_for(self, byte: u8) -> bool
        ensures { result ≡ stands_for (seen_piece self.entry) byte }
    {
        match self {
            Piece::Byte(own) => own == byte,
            Piece::Any | Piece::Name => byte != b'/',
            Piece::Class { negated, members } => byte != b'/' && is_in(members, byte) != negated,
            Piece::Path | Piece::Directories => true,
        }
    }
}

/// Whether a byte is one of a class.
fn is_in(members: &[u8], byte: u8) -> bool
    ensures { result ≡ is_in members.now byte }
{
    let mut at = 0;
    while at < members.len() {
        let (fits, len) = first_member(&members[at..], byte);
        if fits {
            return true;
        }
        at += len;
    }
    false
}

/// Whether a byte is the member that a class begins with, or one of its first range, and the length of that.
fn first_member(members: &[u8], byte: u8) -> (bool, usize)
    requires { 0 < length members.now }
    ensures member { (result.0 || is_in (drop result.1 members.now) byte) ≡ is_in members.now byte }
    ensures within { (1 ≤ result.1) × (result.1 ≤ length members.now) }
{
    if members.len() <= 2 {
        return (members[0] == byte, 1);
    }
    if members[1] != b'-' {
        return (members[0] == byte, 1);
    }
    ((members[0] <= byte) & (byte <= members[2]), 3)
}
