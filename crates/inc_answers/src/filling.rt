//! Texts put into a list of bytes that has room for them.
ghost use Rattle.std.specs.Prelude.{◌≡◌, ◌+◌, ◌≤◌, ◌<◌, ◌++◌, ◌∷◌, [], length, take, decimal};
ghost use Rattle.inc_answers.specs.Numbers.{directive_text};

use itoa::write_digits;

/// The most digits of a number of 64 bits.
pub const MOST_DIGITS: usize = 20;

/// The most bytes of a directive's line beside its path: the digits of its number, a space and LF.
pub const MOST_BESIDE_PATH: usize = MOST_DIGITS + 2;

/// How many digits a number below 10,000 has.
#[inline(always)]
fn short_len(n: u64) -> usize
    requires { n < 10_000 }
    ensures { result ≡ length (decimal n) }
{
    if n < 10 {
        1
    } else if n < 100 {
        2
    } else if n < 1_000 {
        3
    } else {
        4
    }
}

/// How many digits a number has.
#[inline(always)]
fn number_len(n: u64) -> usize
    ensures len { result ≡ length (decimal n) }
    ensures few { result ≤ MOST_DIGITS }
{
    let mut left = n;
    let mut passed = 0;
    while left >= 10_000 {
        left /= 10_000;
        passed += 4;
    }
    passed + short_len(left)
}

/// Puts the digits of a number at a place, and answers the place after them.
#[inline(always)]
pub fn put_number(bytes: &mut Vec<u8>, at: usize, n: u64) -> usize
    requires { at + MOST_DIGITS ≤ length bytes.old.items }
    ensures end { result ≤ at + MOST_DIGITS }
    ensures long { length bytes.new.items ≡ length bytes.old.items }
    ensures put { take result bytes.new.items ≡ take at bytes.old.items ++ decimal n }
{
    let end = at + number_len(n);
    write_digits(n, bytes, end);
    end
}

/// Puts a byte at a place.
#[inline(always)]
pub fn put_byte(bytes: &mut Vec<u8>, at: usize, byte: u8)
    requires { at < length bytes.old.items }
    ensures long { length bytes.new.items ≡ length bytes.old.items }
    ensures put { take (at + 1) bytes.new.items ≡ take at bytes.old.items ++ byte ∷ [] }
{
    bytes[at] = byte;
}

/// Puts a text at a place, and answers the place after it.
#[inline(always)]
pub fn put_text(bytes: &mut Vec<u8>, at: usize, text: &[u8]) -> usize
    requires { at + length text.now ≤ length bytes.old.items }
    ensures end { result ≡ at + length text.now }
    ensures long { length bytes.new.items ≡ length bytes.old.items }
    ensures put { take result bytes.new.items ≡ take at bytes.old.items ++ text.now }
{
    let end = at + text.len();
    bytes[at..end].copy_from_slice(text);
    end
}

/// Puts the line of a directive at a place, and answers the place after it.
#[inline(always)]
pub fn put_directive(bytes: &mut Vec<u8>, at: usize, line: u32, path: &[u8]) -> usize
    requires { at + MOST_BESIDE_PATH + length path.now ≤ length bytes.old.items }
    ensures end { result ≤ length bytes.new.items }
    ensures put { take result bytes.new.items ≡ take at bytes.old.items ++ directive_text line path.now }
{
    let blank = put_number(bytes, at, u64::from(line));
    put_byte(bytes, blank, b' ');
    let end = put_text(bytes, blank + 1, path);
    put_byte(bytes, end, b'\n');
    end + 1
}
