//! Where the tokens of an expansion go.
ghost use Rattle.std.specs.Prelude.{◌≡◌, Bool, OnOk, map};
ghost use Rattle.inc_token.specs.Views.{seen};
ghost use Rattle.inc_expand.specs.Expansion.{Item};
ghost use Rattle.inc_expand.specs.Sinks.{Taken, item_of_source, seen_ref, carried_item};

use crate::carried::Carried;
use inc_token::{Kind, Token};
use std::alloc::AllocError;

/// A token of an expansion, as it is handed on.
#[derive(Clone, Copy, Debug)]
pub struct ItemRef<'t> {
    /// Its class.
    pub kind: Kind,
    /// Its bytes.
    pub bytes: &'t [u8],
    /// Its physical line: that of the name that it replaces, where it replaces one.
    pub line: u32,
    /// Whether white space is right before it.
    pub space: bool,
}

/// Takes the tokens of an expansion, one after the other.
///
/// So a preprocessing prints tokens as they are found: what no macro and no predefined name can replace goes from the tokens of a run to
/// the printed text without a copy on the way. Of a run with a fault, what was printed already is taken back.
pub trait Sink {
    // one more token is taken, the first of an expansion or another
    ghost takes: { Self → (first : Bool) → Item → Self → Type 0 };

    /// Takes one more token. `first`: it is the first of its expansion.
    fn take(&mut self, token: ItemRef<'_>, first: bool) -> Result<(), AllocError>
        ensures { OnOk result (takes self.old first (seen_ref token.entry) self.new) };

    /// Takes tokens that the expansion leaves as they are, one after the other. `first`: the first of them is the first of its expansion.
    fn take_source(&mut self, tokens: &[Token<'_>], first: bool) -> Result<(), AllocError>
        ensures { OnOk result (Taken takes first self.old (map item_of_source (map seen tokens.now)) self.new) };
}

/// A token on the way, as it is handed on.
pub(crate) fn item_ref<'t>(token: &'t Carried<'_, '_>) -> ItemRef<'t>
    ensures { seen_ref result ≡ carried_item token.now }
{
    ItemRef {
        kind: token.kind,
        bytes: token.bytes(),
        line: token.line,
        space: token.space,
    }
}
