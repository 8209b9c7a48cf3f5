//! What is kept of a token that is put out, beside its bytes.
ghost use Rattle.std.specs.Prelude.{◌≡◌, IfSome};
ghost use Rattle.inc_pp.specs.Labels.{kind_in, len_in, label_with, starts_in};

use inc_token::Kind;

/// A token without its bytes, in one number.
#[derive(Clone, Copy)]
pub(crate) struct Label {
    /// From the lowest bit: whether the token is the first of its line, three bits for its class, and how many bytes it has.
    word: u32,
}

impl Label {
    /// The label of a token with so many bytes. `None` where these are too many for a label.
    pub(crate) fn new(len: usize, kind: Kind, starts: bool) -> Option<Label>
        ensures { IfSome result (λ label. label ≡ label_with len kind starts) }
    {
        if len >= 1 << 28 {
            return None;
        }
        let first = if starts { 1 } else { 0 };
        Some(Label {
            word: len as u32 * 16 + kind.code() * 2 + first,
        })
    }

    /// How many bytes the token has.
    pub(crate) fn len(self) -> usize
        ensures { result ≡ len_in self }
    {
        (self.word / 16) as usize
    }

    /// The class of the token.
    pub(crate) fn kind(self) -> Kind
        ensures { result ≡ kind_in self }
    {
        Kind::from_code(self.word / 2 % 8)
    }

    /// Whether the token is the first of its line.
    pub(crate) fn starts(self) -> bool
        ensures { result ≡ starts_in self }
    {
        self.word % 2 == 1
    }
}
