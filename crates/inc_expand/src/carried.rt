//! Tokens on the way through an expansion.
ghost use Rattle.std.specs.Prelude.{◌≡◌, codes, bytes_eq};
ghost use Rattle.inc_expand.specs.Carriers.{bytes_in, carried_of};

use crate::hide_sets::{HideSets, SetId};
use inc_token::{Kind, Token};

/// The bytes of a token on the way: `'a` are the source and the macros, `'b` is what one expansion makes.
#[derive(Clone, Copy)]
pub(crate) enum Bytes<'a, 'b> {
    /// Of the source, or of a macro.
    Source(&'a [u8]),
    /// Made by `#`, `##` or a predefined name.
    Made(&'b [u8]),
}

/// A token on the way, with the set of the names that it hides. Its fields are in the order that leaves no gap between them.
#[derive(Clone, Copy)]
pub(crate) struct Carried<'a, 'b> {
    pub(crate) text: Bytes<'a, 'b>,
    pub(crate) set: SetId,
    pub(crate) line: u32,
    pub(crate) kind: Kind,
    pub(crate) space: bool,
}

impl<'a, 'b> Carried<'a, 'b> {
    /// Its bytes.
    pub(crate) fn bytes(&self) -> &[u8]
        ensures { result.now ≡ bytes_in self.now.text }
    {
        match self.text {
            Bytes::Source(bytes) => bytes,
            Bytes::Made(bytes) => bytes,
        }
    }
}

/// A token of a list that is handed in, which hides nothing.
pub(crate) fn of_source<'a, 'b>(token: &Token<'a>) -> Carried<'a, 'b>
    ensures { result ≡ carried_of token.now }
{
    Carried {
        text: Bytes::Source(token.spelling),
        line: token.line,
        set: HideSets::empty(),
        kind: token.kind,
        space: token.space,
    }
}

/// Whether it is `(`.
pub(crate) fn is_open(token: &Carried<'_, '_>) -> bool
    ensures { result ≡ bytes_eq (bytes_in token.now.text) (codes "(") }
{
    token.bytes() == b"(".as_slice()
}

/// Whether it is `)`.
pub(crate) fn is_close(token: &Carried<'_, '_>) -> bool
    ensures { result ≡ bytes_eq (bytes_in token.now.text) (codes ")") }
{
    token.bytes() == b")".as_slice()
}

/// Whether it is `,`.
pub(crate) fn is_comma(token: &Carried<'_, '_>) -> bool
    ensures { result ≡ bytes_eq (bytes_in token.now.text) (codes ",") }
{
    token.bytes() == b",".as_slice()
}
