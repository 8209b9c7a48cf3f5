//! The tokens that an expansion gives.
ghost use Rattle.std.specs.Prelude.{◌≡◌, map, IfOk};
ghost use Rattle.inc_expand.specs.Sets.{Sets};
ghost use Rattle.inc_expand.specs.Expansion.{item_of};
ghost use Rattle.inc_expand.specs.Carriers.{bytes_in, carrier, carriers};
ghost use Rattle.inc_expand.specs.Items.{spelling_bytes, seen_item};

use crate::carried::{Bytes, Carried};
use inc_token::Kind;
use std::alloc::{AllocError, Global};

/// The bytes of a token of an expansion.
#[derive(Drop)]
pub enum Spelling<'a> {
    /// Bytes of the source, or of a macro's definition.
    Source(&'a [u8]),
    /// Bytes that the expansion made.
    Made(Vec<u8>),
}

impl<'a> Spelling<'a> {
    /// The bytes.
    pub fn bytes(&self) -> &[u8]
        ensures { result.now ≡ spelling_bytes self.now }
    {
        match self {
            Spelling::Source(bytes) => bytes,
            Spelling::Made(bytes) => bytes,
        }
    }
}

/// A token of an expansion.
#[derive(Drop)]
pub struct Item<'a> {
    /// Its class.
    pub kind: Kind,
    /// Its bytes.
    pub spelling: Spelling<'a>,
    /// Its physical line: that of the name that it replaces, where it replaces one.
    pub line: u32,
    /// Whether white space is right before it.
    pub space: bool,
}

/// The bytes of a token on the way as those of the result.
fn spelling_of<'a>(alloc: Global, text: Bytes<'a, '_>) -> Result<Spelling<'a>, AllocError>
    ensures { IfOk result (λ spelling. spelling_bytes spelling ≡ bytes_in text.entry) }
{
    match text {
        Bytes::Source(bytes) => Ok(Spelling::Source(bytes)),
        Bytes::Made(bytes) => {
            let bytes = Vec::from_slice(alloc, bytes)?;
            Ok(Spelling::Made(bytes))
        }
    }
}

/// A token on the way as one of the result.
pub(crate) fn item_of<'a>(alloc: Global, token: &Carried<'a, '_>) -> Result<Item<'a>, AllocError>
    ensures { (s : Sets) → IfOk result (λ item. seen_item item ≡ item_of (carrier s token.now)) }
{
    let spelling = spelling_of(alloc, token.text)?;
    Ok(Item {
        kind: token.kind,
        spelling,
        line: token.line,
        space: token.space,
    })
}

/// Tokens on the way as those of the result.
pub(crate) fn items_of<'a>(
    alloc: Global,
    tokens: &[Carried<'a, '_>],
) -> Result<Vec<Item<'a>>, AllocError>
    ensures { (s : Sets) → IfOk result (λ items.
        map seen_item items.items ≡ map item_of (carriers s tokens.now)) }
{
    let mut items = Vec::with_capacity(alloc, tokens.len())?;
    for token in tokens {
        let item = item_of(alloc, token)?;
        items.push(item)?;
    }
    Ok(items)
}
