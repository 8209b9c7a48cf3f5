//! What is read of a source and not used yet.
ghost use Rattle.std.specs.Prelude.{◌≡◌, ◌==◌, ◌<◌, ◌≤◌, ◌≢◌, ◌↔◌, ℕ, [], None, true, false, length, take, drop, position, is_err, IfOk, IfErr, OnOk, IsErrOf, IsTrue};
ghost use Rattle.std.specs.Io.KnownBytes.{Consumes, IsAtEnd};
ghost use Rattle.inc_check.specs.Ahead.{IsReadOn, IsEnough};
ghost use Rattle.inc_check.specs.declared.ahead.TheConstants.{LONGEST_LINE};
ghost use Rattle.inc_text.specs.Ascii.{line_feed};

use crate::judging::CheckFault;
use crate::lines::line_len;
use inc_text::{ByteSource, DeviceFault, read_at};
use std::alloc::Global;
use std::marker::Model;

/// So many bytes are asked of a source at a time.
const PIECE_LEN: usize = 65_536;

/// The most bytes of a line of a certificate. One that is printed has 4,107 at most: a number, a space, the path of a file. One
/// `PATH:LINE:` has the text of the directive behind that.
pub(crate) const LONGEST_LINE: usize = 8_192;

/// The bytes of a source that are read and not used yet.
///
/// They take 73,728 bytes at most, however long the lines of the source are: [`LONGEST_LINE`] and a piece. While a piece is read, there
/// are the piece and what is held after it beside them.
#[derive(Drop)]
pub(crate) struct Ahead {
    alloc: Global,
    bytes: Vec<u8>,
    /// How many of them are used.
    used: usize,
}

impl Model for Ahead {
    ghost use Rattle.std.specs.Prelude.{ℕ, List, drop, length};
    ghost use Rattle.inc_check.specs.Ahead.{IsHeld};

    ghost Value = { List ℕ };

    ghost view = { λ a. drop a.used a.bytes.items };

    ghost invariant = { λ a. IsHeld a.used (length a.bytes.items) };
}

impl Ahead {
    /// Nothing is read.
    pub fn new(alloc: Global) -> Ahead
        ensures { result ≡ [] }
    {
        Ahead {
            alloc,
            bytes: Vec::new(alloc),
            used: 0,
        }
    }

    /// What is read and not used.
    #[inline(always)]
    pub fn text(&self) -> &[u8]
        ensures { result.now ≡ self.now }
    {
        &self.bytes[self.used..]
    }

    /// Uses the first bytes, so many.
    #[inline(always)]
    pub fn skip(&mut self, count: usize)
        requires { count ≤ length self.old }
        ensures { self.new ≡ drop count self.old }
    {
        self.used += count;
    }

    /// Reads on to the end of a line, and says how long the first line is. `None` where none ends in what is held: the source has ended, or
    /// that is more than a line of a certificate has, and no more is asked of the source.
    #[inline(always)]
    pub fn find_line<R: ByteSource>(&mut self, r: &mut R) -> Result<Option<usize>, CheckFault>
        requires { R.has_failed r.old ≡ false }
        ensures read { OnOk result (IsReadOn (R.left r.old) (R.left r.new) self.old self.new) }
        ensures line { IfOk result (λ end. end ≡ position (λ b. b == line_feed) self.new) }
        ensures ended { IfOk result (λ end. end ≡ None → IsEnough (R.left r.new) self.new) }
        ensures failed { IsErrOf result CheckFault.CannotRead ↔ IsTrue (R.has_failed r.new) }
        ensures other { IfErr result (λ f. (n : ℕ) → f ≢ CheckFault.Malformed n) }
    {
        match line_len(self.text()) {
            Some(length) => Ok(Some(length)),
            None => self.read_line(r),
        }
    }

    /// The same where no line ends in what is read.
    #[inline(never)]
    fn read_line<R: ByteSource>(&mut self, r: &mut R) -> Result<Option<usize>, CheckFault>
        requires open { position (λ b. b == line_feed) self.old ≡ None }
        requires sound { R.has_failed r.old ≡ false }
        ensures read { OnOk result (IsReadOn (R.left r.old) (R.left r.new) self.old self.new) }
        ensures line { IfOk result (λ end. end ≡ position (λ b. b == line_feed) self.new) }
        ensures ended { IfOk result (λ end. end ≡ None → IsEnough (R.left r.new) self.new) }
        ensures failed { IsErrOf result CheckFault.CannotRead ↔ IsTrue (R.has_failed r.new) }
        ensures other { IfErr result (λ f. (n : ℕ) → f ≢ CheckFault.Malformed n) }
    {
        if self.text().len() > LONGEST_LINE {
            return Ok(None);
        }
        self.read_on(r)?;
        Ok(line_len(self.text()))
    }

    /// Reads a piece of the source, or what is left of it. A piece is longer than a line.
    fn read_on<R: ByteSource>(&mut self, r: &mut R) -> Result<(), CheckFault>
        requires short { length self.old ≤ LONGEST_LINE }
        requires sound { R.has_failed r.old ≡ false }
        ensures read { OnOk result (IsReadOn (R.left r.old) (R.left r.new) self.old self.new) }
        ensures ended { OnOk result (IsEnough (R.left r.new) self.new) }
        ensures failed { IsErrOf result CheckFault.CannotRead ↔ IsTrue (R.has_failed r.new) }
        ensures other { IfErr result (λ f. (n : ℕ) → f ≢ CheckFault.Malformed n) }
    {
        let held = self.text().len();
        let mut piece = vec![in self.alloc; 0; PIECE_LEN]?;
        let count = fill(r, &mut piece)?;
        let mut bytes = Vec::with_capacity(self.alloc, held + count)?;
        bytes.extend_from_slice(self.text())?;
        bytes.extend_from_slice(&piece[..count])?;
        self.bytes = bytes;
        self.used = 0;
        Ok(())
    }
}

/// Reads until there is no more room or the source has ended, and says how many bytes came.
fn fill<R: ByteSource>(r: &mut R, bytes: &mut Vec<u8>) -> Result<usize, DeviceFault>
    requires { R.has_failed r.old ≡ false }
    ensures long { length bytes.new.items ≡ length bytes.old.items }
    ensures within { IfOk result (λ count. count ≤ length bytes.new.items) }
    ensures read { IfOk result (λ count. Consumes (R.left r.old) (R.left r.new) (take count bytes.new.items)) }
    ensures ended { IfOk result (λ count. count < length bytes.new.items → IsAtEnd (R.left r.new)) }
    ensures failed { R.has_failed r.new ≡ is_err result }
{
    let mut done = 0;
    while done < bytes.len() {
        let count = read_at(r, bytes, done)?;
        if count == 0 {
            return Ok(done);
        }
        done += count;
    }
    Ok(done)
}
