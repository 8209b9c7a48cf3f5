//! The text of a source after phases 1 and 2.
ghost use Rattle.std.specs.Prelude.{◌≡◌, ◌+◌, ◌<◌, ◌≤◌, ◌↔◌, length, IfOk, IsErrOf, IsTrue, Some, option_map, slice_get, Option};
ghost use Rattle.inc_text.specs.LineFeeds.{line_feeds_to};
ghost use Rattle.inc_text.specs.PhaseText.{Cell, phase_text, bytes_of, is_too_long, longest_text};

use crate::cursors::Cursor;
use crate::devices::LONGEST_FILE;
use crate::languages::Language;
use crate::line_feeds::{count_blocks, line_feeds_before};
use crate::origins::{origins_to, range_by, splices_to};
use crate::splicing::{MappedBytes, splice_bytes};
use std::alloc::{AllocError, Global};
use std::marker::Model;
use thiserror::Error;

/// Why a source has no text.
#[derive(Clone, Copy, Debug, PartialEq, Eq, Drop, Error)]
pub enum TextFault {
    /// The source has more than 16,777,216 bytes.
    #[error("file too long")]
    TooLong,
    /// Memory ran out.
    #[error("out of memory")]
    NoMemory,
}

impl From<AllocError> for TextFault {
    ghost use Rattle.std.specs.Prelude.{◌≡◌};
    ghost use Rattle.inc_text.specs.declared.phases.TextFault.TheVariants.{NoMemory};

    ghost from_gives = { λ _ e. e ≡ NoMemory };

    fn from(_error: AllocError) -> TextFault {
        TextFault::NoMemory
    }
}

/// The text of a source after translation phases 1 and 2 (ISO/IEC 9899:2018, 5.1.1.2), which owns its bytes and
/// what it knows of where they come from. It keeps no source.
///
/// A text that is made of a source that is handed over ([`splice_owned`]) takes the memory of it: bytes before the first that is dropped
/// or replaced stay where they are, and later ones move towards the front. An origin is kept only where a byte's source range is not the
/// plain continuation of the one before: at a byte order mark, CR LF, a trigraph, a splice, and the new-line that is added.
///
/// The line of a byte is 1 plus the LFs of the text before it plus the new-lines that splices took out before it. LFs are counted from the
/// last block of 512 bytes, so that lines take a hundredth of the text, and a splice 4 bytes.
#[derive(Drop)]
pub struct Text {
    parts: MappedBytes,
    /// How many LFs are before each block of the text.
    counts: Vec<u32>,
}

impl Model for Text {
    ghost use Rattle.std.specs.Prelude.{List};
    ghost use Rattle.inc_text.specs.PhaseText.{Cell};
    ghost use Rattle.inc_text.specs.Origins.{cells_at, TextKeeps};

    ghost Value = { List Cell };

    ghost view = { λ t. cells_at t.parts.origins.items t.parts.splices.items 0 0 t.parts.bytes.items };

    ghost invariant = { λ t. TextKeeps t.parts.origins.items t.parts.splices.items t.counts.items t.parts.bytes.items };
}

impl Text {
    /// The bytes of the text.
    pub fn bytes(&self) -> &[u8]
        ensures bytes { result.now ≡ bytes_of self.now }
        ensures len { length result.now ≡ length self.now }
        ensures short { length self.now ≤ longest_text }
    {
        &self.parts.bytes
    }

    /// The source bytes that a byte of the text stands for, from first to last, last excluded: three for a
    /// trigraph, two for CR LF, none for an added new-line. The search takes the logarithm of their number.
    pub fn range_of(&self, at: usize) -> (u32, u32)
        requires { at < length self.now }
        ensures { option_map (λ (c : Cell). (c.first, c.last)) (slice_get self.now at)
            ≡ Some result }
    {
        let origins = &self.parts.origins;
        let place = at as u32;
        range_by(origins, origins_to(origins, place), place)
    }

    /// The physical line of the source, from 1, on which a byte of the text begins. This looks at 512 bytes at most, and
    /// takes the logarithm of the number of splices.
    pub fn line_of(&self, at: usize) -> u32
        requires { at < length self.now }
        ensures { option_map (λ (c : Cell). c.line) (slice_get self.now at) ≡ Some result }
    {
        let splices = splices_to(&self.parts.splices, at as u32);
        let line_feeds = line_feeds_before(&self.parts.bytes, &self.counts, at);
        (1 + line_feeds + splices) as u32
    }

    /// A cursor at the start of the text.
    pub fn cursor(&self) -> Cursor<'_>
        ensures { result ≡ self.now }
    {
        Cursor::start(
            &self.parts.bytes,
            &self.parts.origins,
            &self.parts.splices,
            &self.counts,
        )
    }

    /// A cursor at a place of the text. This looks at 512 bytes at most, and takes the logarithm of the numbers of splices and of bytes that do
    /// not stand for one of the source each.
    #[inline(always)]
    pub fn cursor_at(&self, at: usize) -> Cursor<'_>
        requires { at ≤ length self.now }
        ensures { result ≡ self.now }
    {
        let line_feeds = line_feeds_before(&self.parts.bytes, &self.counts, at);
        Cursor::start_at(
            &self.parts.bytes,
            &self.parts.origins,
            &self.parts.splices,
            &self.counts,
            at,
            line_feeds,
        )
    }
}

/// Whether a source has more bytes than a file may have.
fn is_too_long(source: &[u8]) -> bool
    ensures { result ≡ is_too_long source.now }
{
    source.len() > LONGEST_FILE
}

/// The text of a source after phases 1 and 2: without a byte order mark EF BB BF, with one new-line for CR LF, with
/// trigraphs replaced (5.2.1.1; not in GNU C) and lines spliced, and ended by a new-line unless it is empty. The byte order mark,
/// CR LF and the last new-line are chosen here.
pub fn splice(alloc: Global, source: &[u8], language: Language) -> Result<Text, TextFault>
    ensures text { IfOk result (λ text. text ≡ phase_text language source.now) }
    ensures too_long { IsErrOf result TextFault.TooLong ↔ IsTrue (is_too_long source.now) }
{
    if is_too_long(source) {
        return Err(TextFault::TooLong);
    }
    let mut bytes = Vec::with_capacity(alloc, source.len() + 1)?;
    bytes.extend_from_slice(source)?;
    splice_owned(alloc, bytes, language)
}

/// The same of a source that is handed over: its memory becomes the text's, and no byte is moved before the first that is dropped or
/// replaced. Room for one byte more spares a copy where a new-line is added.
pub fn splice_owned(alloc: Global, source: Vec<u8>, language: Language) -> Result<Text, TextFault>
    ensures text { IfOk result (λ text. text ≡ phase_text language source.items) }
    ensures too_long { IsErrOf result TextFault.TooLong ↔ IsTrue (is_too_long source.items) }
{
    if is_too_long(&source) {
        return Err(TextFault::TooLong);
    }
    let parts = splice_bytes(alloc, source, language)?;
    let counts = count_blocks(alloc, &parts.bytes)?;
    Ok(Text { parts, counts })
}
