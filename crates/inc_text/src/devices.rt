//! Devices that bytes come from and go to.
ghost use Rattle.std.specs.Prelude.{◌≡◌, ◌+◌, ◌<◌, ◌≤◌, ◌||◌, ℕ, List, Option, Bool, false, length, take, drop, vec_len, IfOk, IfSome, OnOk, OnErr, IsErrOf, IsTrue, ◌↔◌, is_err};
ghost use Rattle.std.specs.Io.{ReadsAtMost, WritesAtMost};
ghost use Rattle.std.specs.Io.KnownBytes.{ReadConsumes, Consumes, WriteAppends, Appends, IsAtEnd};
ghost use Rattle.inc_text.specs.Devices.{AppendsFront};
ghost use Rattle.inc_text.specs.Wrapped.{reader_of, has_read_fault, writer_of, has_write_fault};
ghost use Rattle.inc_text.specs.declared.devices.TheConstants.{LONGEST_FILE};
ghost use Rattle.inc_text.specs.declared.devices.ReadFault.TheVariants.{Read, NoMemory};

use std::alloc::{AllocError, Global};
use std::io::{Read, Write};
use thiserror::Error;

/// A device refused a read or a write.
#[derive(Clone, Copy, Debug, PartialEq, Eq, Error)]
#[error("device fault")]
pub struct DeviceFault;

/// A source of bytes.
pub trait ByteSource {
    // the bytes that are left, where they are known
    ghost left: { Self → Option (List ℕ) };
    // a read has failed before
    ghost has_failed: { Self → Bool };

    /// Reads up to `into.len()` bytes into the front of `into`, and says how many. None where `into` has
    /// room means that the source has ended.
    fn read(&mut self, into: &mut [u8]) -> Result<usize, DeviceFault>
        ensures bound { ReadsAtMost result into.new }
        ensures bytes { ReadConsumes (left self.old) (left self.new) result into.new }
        ensures failed { has_failed self.new ≡ (has_failed self.old || is_err result) };

    /// Whether a read has failed.
    fn failed(&self) -> bool
        ensures { result ≡ has_failed self.now };
}

/// A sink of bytes.
pub trait ByteSink {
    // the bytes that it holds, where they are known
    ghost written: { Self → Option (List ℕ) };
    // a write has failed before
    ghost has_failed: { Self → Bool };

    /// Writes a front of `piece`, and says how many bytes: one or more of a piece that is not empty.
    fn write(&mut self, piece: &[u8]) -> Result<usize, DeviceFault>
        ensures bound { WritesAtMost result piece.now }
        ensures some { IfOk result (λ n. 0 < length piece.now → 0 < n) }
        ensures bytes { WriteAppends (written self.old) (written self.new) result piece.now }
        ensures failed { has_failed self.new ≡ (has_failed self.old || is_err result) };

    /// Whether a write has failed.
    fn failed(&self) -> bool
        ensures { result ≡ has_failed self.now };
}

/// The most bytes that a file may have.
pub const LONGEST_FILE: usize = 16_777_216;

/// Why a file was not read whole.
#[derive(Clone, Copy, Debug, PartialEq, Eq, Error)]
pub enum ReadFault {
    /// More than 16,777,216 bytes came.
    #[error("file too long")]
    TooLong,
    /// The source failed.
    #[error("cannot read")]
    Read,
    /// Memory ran out.
    #[error("out of memory")]
    NoMemory,
}

impl From<DeviceFault> for ReadFault {
    ghost from_gives = { λ _ e. e ≡ Read };

    fn from(_fault: DeviceFault) -> ReadFault {
        ReadFault::Read
    }
}

impl From<AllocError> for ReadFault {
    ghost from_gives = { λ _ e. e ≡ NoMemory };

    fn from(_error: AllocError) -> ReadFault {
        ReadFault::NoMemory
    }
}

/// How many bytes are asked of a source at a time.
const PIECE_LEN: usize = 65_536;

/// Takes room for the next bytes of a source after the first `len` bytes: as much as there is in the memory that is held, up to a piece,
/// or else a piece.
fn make_room(bytes: &mut Vec<u8>, len: usize) -> Result<(), AllocError>
    requires within { len ≤ vec_len bytes.old }
    requires short { len ≤ LONGEST_FILE }
    ensures front { take len bytes.new.items ≡ take len bytes.old.items }
    ensures room { OnOk result (len < vec_len bytes.new) }
{
    let held = bytes.capacity();
    let most = len + PIECE_LEN;
    let end = if len < held { most.min(held) } else { most };
    if bytes.len() < end {
        bytes.resize(end, 0)?;
    }
    Ok(())
}

/// Reads the next bytes of a source to a place, and says how many came: none where it has ended.
pub fn read_at<R: ByteSource>(r: &mut R, bytes: &mut [u8], at: usize) -> Result<usize, DeviceFault>
    requires { at < length bytes.old }
    ensures front { take at bytes.new ≡ take at bytes.old }
    ensures fits { IfOk result (λ n. at + n ≤ length bytes.new) }
    ensures bytes { IfOk result (λ n. Consumes (R.left r.old) (R.left r.new) (take n (drop at bytes.new))) }
    ensures end { IfOk result (λ n. n ≡ 0 → IsAtEnd (R.left r.new)) }
    ensures failed { R.has_failed r.new ≡ (R.has_failed r.old || is_err result) }
{
    r.read(&mut bytes[at..])
}

/// All bytes of a source, to its end, with room for one more. `expected` is how many they are thought to be: for so many, up to
/// [`LONGEST_FILE`], memory is taken at once, and they are read straight into it.
///
/// Of a source that is too long, a failing one and a want of memory the first that comes is answered. What was
/// read before is lost then, and the source is after it.
pub fn read_file<R: ByteSource>(
    alloc: Global,
    r: &mut R,
    expected: usize,
) -> Result<Vec<u8>, ReadFault>
    requires { R.has_failed r.old ≡ false }
    ensures bytes { IfOk result (λ v. IfSome (R.left r.old) (λ bytes. v.items ≡ bytes)) }
    ensures end { OnOk result (IsAtEnd (R.left r.new)) }
    ensures short { IfOk result (λ v. vec_len v ≤ LONGEST_FILE) }
    ensures too_long { IsErrOf result ReadFault.TooLong →
        IfSome (R.left r.old) (λ bytes. LONGEST_FILE < length bytes) }
    ensures read { IsErrOf result ReadFault.Read ↔ IsTrue (R.has_failed r.new) }
{
    let mut bytes = Vec::with_capacity(alloc, expected.min(LONGEST_FILE) + 1)?;
    let mut len = 0;
    loop {
        make_room(&mut bytes, len)?;
        let count = read_at(r, &mut bytes, len)?;
        if count == 0 {
            bytes.truncate(len);
            return Ok(bytes);
        }
        if count > LONGEST_FILE - len {
            return Err(ReadFault::TooLong);
        }
        len += count;
    }
}

/// Writes the whole of a text. After a fault a front of it is written.
pub fn write_whole<W: ByteSink>(w: &mut W, text: &[u8]) -> Result<(), DeviceFault>
    requires { W.has_failed w.old ≡ false }
    ensures whole { OnOk result (Appends (W.written w.old) (W.written w.new) text.now) }
    ensures front { OnErr result (AppendsFront (W.written w.old) (W.written w.new) text.now) }
    ensures failed { W.has_failed w.new ≡ is_err result }
{
    let mut done = 0;
    while done < text.len() {
        let rest = &text[done..];
        done += w.write(rest)?;
    }
    Ok(())
}

/// A source over a reader of std. It fails where the reader answers an error, and nowhere else.
#[derive(Drop)]
pub struct Reading<R> {
    reader: R,
    failed: bool,
}

impl<R: Read> Reading<R> {
    /// The bytes of a reader, from where it is.
    pub fn new(reader: R) -> Self
        ensures reader { reader_of result ≡ reader }
        ensures sound { has_read_fault result ≡ false }
    {
        Reading {
            reader,
            failed: false,
        }
    }
}

impl<R: Read> ByteSource for Reading<R> {
    ghost left = { λ s. R.remaining (reader_of s) };

    ghost has_failed = { has_read_fault };

    fn read(&mut self, into: &mut [u8]) -> Result<usize, DeviceFault> {
        match self.reader.read(into) {
            Ok(count) => Ok(count),
            Err(_) => {
                self.failed = true;
                Err(DeviceFault)
            }
        }
    }

    fn failed(&self) -> bool {
        self.failed
    }
}

/// A sink over a writer of std. It fails where the writer answers an error or takes nothing of a piece that is not
/// empty, and nowhere else.
#[derive(Drop)]
pub struct Writing<W> {
    writer: W,
    failed: bool,
}

impl<W: Write> Writing<W> {
    /// What is written goes to a writer.
    pub fn new(writer: W) -> Self
        ensures writer { writer_of result ≡ writer }
        ensures sound { has_write_fault result ≡ false }
    {
        Writing {
            writer,
            failed: false,
        }
    }
}

impl<W: Write> ByteSink for Writing<W> {
    ghost written = { λ s. W.contents (writer_of s) };

    ghost has_failed = { has_write_fault };

    fn write(&mut self, piece: &[u8]) -> Result<usize, DeviceFault> {
        match self.writer.write(piece) {
            Ok(count) if count > 0 || piece.is_empty() => Ok(count),
            _ => {
                self.failed = true;
                Err(DeviceFault)
            }
        }
    }

    fn failed(&self) -> bool {
        self.failed
    }
}
