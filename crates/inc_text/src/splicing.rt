//! Translation phases 1 and 2 (ISO/IEC 9899:2018, 5.1.1.2): a text and where it comes from, in one pass over the source.
ghost use Rattle.std.specs.Prelude.{ℕ, List, ◌≡◌, ◌+◌, ◌<◌, ◌≤◌, ◌++◌, false, length, take, drop, slice_set, IfOk, OnOk};
ghost use Rattle.std.specs.List.{All};
ghost use Rattle.inc_text.specs.Origins.{IsMapped, IsSpliced, cells_at, ends_open, is_special, mark_len, origins_past, origins_with};
ghost use Rattle.inc_text.specs.PhaseText.{phase_text};
ghost use Rattle.inc_text.specs.declared.devices.TheConstants.{LONGEST_FILE};
ghost use Rattle.inc_text.specs.declared.languages.Language.{Language};

use crate::languages::Language;
use crate::origins::Origin;
use crate::plain_runs::plain_end;
use crate::source_pieces::{SourcePiece, piece_of};
use std::alloc::{AllocError, Global};
use std::simd::prelude::*;

/// How many bytes are moved at a time.
const LANES: usize = 32;

/// The bytes of a text, where they come from, and the places in it before which a line is spliced.
#[derive(Drop)]
pub struct MappedBytes {
    pub bytes: Vec<u8>,
    pub origins: Vec<Origin>,
    pub splices: Vec<u32>,
}

/// Whether some bytes end in another than LF.
fn ends_open(bytes: &[u8]) -> bool
    ensures { result ≡ ends_open bytes.now }
{
    !bytes.is_empty() && bytes[bytes.len() - 1] != b'\n'
}

/// Copies `len` bytes to an earlier place.
fn move_down(bytes: &mut [u8], from: usize, to: usize, len: usize)
    requires down { to ≤ from }
    requires within { from + len ≤ length bytes.old }
    ensures front { take (to + len) bytes.new ≡ take to bytes.old ++ take len (drop from bytes.old) }
    ensures back { drop (from + len) bytes.new ≡ drop (from + len) bytes.old }
    ensures len { length bytes.new ≡ length bytes.old }
{
    if to == from {
        return;
    }
    let mut done = 0;
    while len - done >= LANES {
        u8x32::from_slice(&bytes[from + done..]).copy_to_slice(&mut bytes[to + done..]);
        done += LANES;
    }
    bytes.copy_within(from + done..from + len, to + done);
}

/// A source that becomes its text in its own memory: the first `len` bytes are the text so far, and from some place on,
/// which is no earlier, the bytes are still those of the source.
#[derive(Drop)]
struct Splicer {
    bytes: Vec<u8>,
    len: usize,
    origins: Vec<Origin>,
    splices: Vec<u32>,
}

impl Splicer {
    /// Adds a byte that stands for `width` source bytes from place `at` of the source on.
    fn put_byte(&mut self, at: usize, byte: u8, width: u32) -> Result<(), AllocError>
        requires short { at + width ≤ LONGEST_FILE }
        requires fewer { self.old.len ≤ at }
        requires room { self.old.len < length self.old.bytes.items }
        ensures origins { OnOk result (self.new.origins.items
            ≡ origins_with self.old.origins.items self.old.len at width) }
        ensures splices { OnOk result (self.new.splices.items ≡ self.old.splices.items) }
        ensures bytes { OnOk result (self.new.bytes.items ≡ slice_set self.old.bytes.items self.old.len byte) }
        ensures len { OnOk result (self.new.len ≡ self.old.len + 1) }
    {
        let place = self.len;
        if width != 1 {
            self.origins.push(Origin {
                at: place as u32,
                ahead: (at + width as usize - place) as u32,
                width,
            })?;
        }
        self.bytes[place] = byte;
        self.len = place + 1;
        Ok(())
    }

    /// Skips `width` source bytes from place `at` of the source on, which stand for nothing.
    fn skip(&mut self, at: usize, width: u32) -> Result<(), AllocError>
        requires short { at + width ≤ LONGEST_FILE }
        requires fewer { self.old.len ≤ at }
        ensures origins { OnOk result (self.new.origins.items
            ≡ origins_past self.old.origins.items self.old.len at width) }
        ensures splices { self.new.splices.items ≡ self.old.splices.items }
        ensures bytes { self.new.bytes ≡ self.old.bytes }
        ensures len { self.new.len ≡ self.old.len }
    {
        let place = self.len;
        self.origins.push(Origin {
            at: place as u32,
            ahead: (at + width as usize + 1 - place) as u32,
            width: 1,
        })?;
        Ok(())
    }
}

impl Splicer {
    /// Adds the bytes from place `at` of the source on that stand for themselves, and says where they end.
    fn take_run(&mut self, at: usize) -> usize
        requires order { self.old.len ≤ at }
        requires within { at ≤ length self.old.bytes.items }
        ensures on { (at ≤ result) × (result ≤ length self.new.bytes.items) }
        ensures read { (language : Language) (source : List ℕ)
            → IsSpliced language source self.old.origins.items self.old.splices.items self.old.bytes.items self.old.len at
            → IsSpliced language source self.new.origins.items self.new.splices.items self.new.bytes.items self.new.len result }
    {
        let end = plain_end(&self.bytes, at);
        move_down(&mut self.bytes, at, self.len, end - at);
        self.len += end - at;
        end
    }

    /// Adds the piece at place `at` of the source, and says where it ends.
    fn take_piece(&mut self, language: Language, at: usize) -> Result<usize, AllocError>
        requires order { self.old.len ≤ at }
        requires more { at < length self.old.bytes.items }
        requires short { length self.old.bytes.items ≤ LONGEST_FILE }
        ensures on { IfOk result (λ next. at < next) }
        ensures read { IfOk result (λ next. (source : List ℕ)
            → IsSpliced language source self.old.origins.items self.old.splices.items self.old.bytes.items self.old.len at
            → IsSpliced language source self.new.origins.items self.new.splices.items self.new.bytes.items self.new.len next) }
    {
        match piece_of(language, &self.bytes[at..]) {
            SourcePiece::Byte(byte, width) => {
                self.put_byte(at, byte, width)?;
                Ok(at + width as usize)
            }
            SourcePiece::Splice(width) => {
                let place = self.len as u32;
                self.skip(at, width)?;
                self.splices.push(place)?;
                Ok(at + width as usize)
            }
        }
    }

    /// The text, once all of the source is read, with the LF that one without it at its end gets.
    fn finish(self) -> Result<MappedBytes, AllocError>
        requires order { self.len ≤ length self.bytes.items }
        requires short { length self.bytes.items ≤ LONGEST_FILE }
        ensures text { IfOk result (λ p. (language : Language) (source : List ℕ)
            → IsSpliced language source self.origins.items self.splices.items self.bytes.items self.len (length source)
            → cells_at p.origins.items p.splices.items 0 0 p.bytes.items ≡ phase_text language source) }
        ensures parts { IfOk result (λ p. (language : Language) (source : List ℕ)
            → IsSpliced language source self.origins.items self.splices.items self.bytes.items self.len (length source)
            → IsMapped p.origins.items p.splices.items p.bytes.items) }
    {
        let Splicer {
            mut bytes,
            len,
            mut origins,
            splices,
        } = self;
        let source_len = bytes.len();
        bytes.truncate(len);
        if ends_open(&bytes) {
            origins.push(Origin {
                at: len as u32,
                ahead: (source_len - len) as u32,
                width: 0,
            })?;
            bytes.push(b'\n')?;
        }
        Ok(MappedBytes {
            bytes,
            origins,
            splices,
        })
    }
}

/// How many bytes the byte order mark at the front has; 0 where there is none.
fn mark_len(source: &[u8]) -> usize
    ensures { result ≡ mark_len source.now }
{
    match source {
        [0xef, 0xbb, 0xbf, ..] => 3,
        _ => 0,
    }
}

/// The parts of the text of a source, in its own memory: bytes before the first that is dropped or replaced stay where they are.
pub fn splice_bytes(
    alloc: Global,
    source: Vec<u8>,
    language: Language,
) -> Result<MappedBytes, AllocError>
    requires { length source.items ≤ LONGEST_FILE }
    ensures text { IfOk result (λ p. cells_at p.origins.items p.splices.items 0 0 p.bytes.items
        ≡ phase_text language source.items) }
    ensures parts { IfOk result (λ p. IsMapped p.origins.items p.splices.items p.bytes.items) }
{
    let mut splicer = Splicer {
        bytes: source,
        len: 0,
        origins: Vec::new(alloc),
        splices: Vec::new(alloc),
    };
    let mut at = mark_len(&splicer.bytes);
    if at > 0 {
        splicer.skip(0, at as u32)?;
    }
    while at < splicer.bytes.len() {
        at = splicer.take_run(at);
        if at < splicer.bytes.len() {
            at = splicer.take_piece(language, at)?;
        }
    }
    splicer.finish()
}
