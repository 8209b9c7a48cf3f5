//! Integer constants and character constants.
ghost use Rattle.std.specs.Prelude.{◌≡◌, ◌<◌, ◌≤◌, ◌+◌, ◌*◌, true, IfSome, length, take, codes, bytes_eq, option_and_then};
ghost use Rattle.std.specs.List.{prefix_len, list_all};
ghost use Rattle.inc_cond.specs.Constants as spec;
ghost use Rattle.inc_cond.specs.Numerals.{has_prefix, if_fits};

use crate::values::Value;
use inc_text::Language;

/// The value of an integer constant (ISO/IEC 9899:2018, 6.4.4.1); `None` where the text is none, or its value is 2^64 or more.
pub fn number_value(language: Language, text: &[u8]) -> Option<Value>
    ensures { result ≡ spec.number_value language text.now }
{
    if has_prefix(text, b'x', b'X') {
        return constant_in(16, &text[2..]);
    }
    if is_binary(language, text) {
        return constant_in(2, &text[2..]);
    }
    if begins_with_zero(text) {
        return constant_in(8, text);
    }
    constant_in(10, text)
}

/// Whether a text begins with `0b` or `0B`, in a language that knows binary constants.
fn is_binary(language: Language, text: &[u8]) -> bool
    ensures binary { result ≡ spec.is_binary language text.now }
    ensures long { result ≡ true → 2 ≤ length text.now }
{
    match language {
        Language::C17 => false,
        Language::Extended | Language::Gnu => has_prefix(text, b'b', b'B'),
    }
}

/// Whether a text begins with `0` and one of these letters.
fn has_prefix(text: &[u8], small: u8, capital: u8) -> bool
    ensures prefix { result ≡ has_prefix small capital text.now }
    ensures long { result ≡ true → 2 ≤ length text.now }
{
    text.len() >= 2 && text[0] == b'0' && (text[1] == small || text[1] == capital)
}

/// Whether a text begins with `0`.
fn begins_with_zero(text: &[u8]) -> bool
    ensures { result ≡ bytes_eq (take 1 text.now) (codes "0") }
{
    !text.is_empty() && text[0] == b'0'
}

/// The value of a digit, 16 where it is none.
fn digit_of(byte: u8) -> u32
    ensures { result ≡ spec.digit_of byte }
{
    match byte {
        b'0'..=b'9' => u32::from(byte - b'0'),
        b'a'..=b'f' => u32::from(byte - b'a') + 10,
        b'A'..=b'F' => u32::from(byte - b'A') + 10,
        _ => 16,
    }
}

/// Whether a byte is a digit of the base.
fn is_digit_in(base: u32, byte: u8) -> bool
    ensures { result ≡ spec.is_digit_in base byte }
{
    digit_of(byte) < base
}

/// How many digits of the base a text begins with.
pub(crate) fn digits_in(base: u32, text: &[u8]) -> usize
    ensures digits { result ≡ prefix_len (spec.is_digit_in base) text.now }
    ensures within { result ≤ length text.now }
{
    text.iter()
        .take_while(|byte| is_digit_in(base, **byte))
        .count()
}

/// The number that digits stand for; `None` where it is 2^64 or more.
pub(crate) fn number_in(base: u32, digits: &[u8]) -> Option<u64>
    requires { (1 ≤ base) × (base ≤ 16) }
    ensures { result ≡ if_fits (spec.number_in base digits.now) }
{
    let mut number = 0_u64;
    let mut left = digits;
    while let [digit, rest @ ..] = left {
        number = with_digit(base, number, *digit)?;
        left = rest;
    }
    Some(number)
}

/// A number with one more digit after it; `None` where that is 2^64 or more.
fn with_digit(base: u32, number: u64, digit: u8) -> Option<u64>
    requires { base ≤ 16 }
    ensures { result ≡ if_fits (number * base + spec.digit_of digit) }
{
    number
        .checked_mul(u64::from(base))?
        .checked_add(u64::from(digit_of(digit)))
}

/// Digits of the base and a suffix.
fn constant_in(base: u32, text: &[u8]) -> Option<Value>
    requires { (1 ≤ base) × (base ≤ 16) }
    ensures { result ≡ spec.constant_in base text.now }
{
    let count = digits_in(base, text);
    if count == 0 {
        return None;
    }
    let unsigned = suffix(&text[count..])?;
    let bits = number_in(base, &text[..count])?;
    Some(Value {
        unsigned: unsigned || bits >= 1 << 63,
        bits,
    })
}

/// Whether a suffix is that of an unsigned constant; `None` where it is no suffix.
fn suffix(text: &[u8]) -> Option<bool>
    ensures { result ≡ spec.suffix text.now }
{
    match text {
        b"" | b"l" | b"L" | b"ll" | b"LL" => Some(false),
        b"u"
        | b"U"
        | b"ul"
        | b"uL"
        | b"Ul"
        | b"UL"
        | b"ull"
        | b"uLL"
        | b"Ull"
        | b"ULL"
        | b"lu"
        | b"lU"
        | b"Lu"
        | b"LU"
        | b"llu"
        | b"llU"
        | b"LLu"
        | b"LLU" => Some(true),
        _ => None,
    }
}

/// The value of a character constant (6.4.4.4), with its quotes; `None` where it has none.
pub(crate) fn character_value(text: &[u8]) -> Option<Value>
    ensures { result ≡ spec.character_value text.now }
{
    if text.is_empty() {
        return None;
    }
    if text[0] == b'\'' {
        narrow_character(text)
    } else {
        wide_character(&text[1..])
    }
}

/// The value of a character constant without a prefix.
fn narrow_character(text: &[u8]) -> Option<Value>
    ensures { result
        ≡ option_and_then spec.narrow_value (spec.character_code (spec.unquoted text.now)) }
{
    narrow_value(character_code(unquoted(text))?)
}

/// The value of a character constant after its prefix.
fn wide_character(text: &[u8]) -> Option<Value>
    ensures { result
        ≡ option_and_then spec.wide_value (spec.character_code (spec.unquoted text.now)) }
{
    wide_value(character_code(unquoted(text))?)
}

/// Without the quotes at the ends.
pub(crate) fn unquoted(text: &[u8]) -> &[u8]
    ensures { result.now ≡ spec.unquoted text.now }
{
    if text.len() < 2 {
        &[]
    } else {
        &text[1..text.len() - 1]
    }
}

/// The code of what is between the quotes; `None` also where it is 2^64 or more.
fn character_code(text: &[u8]) -> Option<u64>
    ensures { result ≡ option_and_then if_fits (spec.character_code text.now) }
{
    match text {
        [b'\\', escape @ ..] => escape_code(escape),
        [byte] => Some(u64::from(*byte)),
        _ => None,
    }
}

/// The code of an escape sequence, after its `\`; `None` also where it is 2^64 or more.
fn escape_code(text: &[u8]) -> Option<u64>
    ensures { result ≡ option_and_then if_fits (spec.escape_code text.now) }
{
    match text {
        [b'x', digits @ ..] => code_in(16, digits.len(), digits),
        [b'0'..=b'7', ..] => code_in(8, 3, text),
        [byte] => simple_escape(*byte),
        _ => None,
    }
}

/// The code of digits of the base, one or more and at most so many; `None` also where it is 2^64 or more.
fn code_in(base: u32, most: usize, text: &[u8]) -> Option<u64>
    requires { (1 ≤ base) × (base ≤ 16) }
    ensures { result ≡ option_and_then if_fits (spec.code_in base most text.now) }
{
    if !are_digits(base, text) {
        return None;
    }
    if text.is_empty() {
        return None;
    }
    if text.len() > most {
        return None;
    }
    number_in(base, text)
}

/// Whether all bytes are digits of the base.
fn are_digits(base: u32, text: &[u8]) -> bool
    ensures { result ≡ list_all (spec.is_digit_in base) text.now }
{
    text.iter().all(|byte| is_digit_in(base, *byte))
}

/// The code of the escape sequence of one byte.
pub(crate) fn simple_escape(byte: u8) -> Option<u64>
    ensures code { result ≡ spec.simple_escape byte }
    ensures byte { IfSome result (λ code. code < 256) }
{
    match byte {
        b'\'' | b'"' | b'?' | b'\\' => Some(u64::from(byte)),
        b'a' => Some(7),
        b'b' => Some(8),
        b'f' => Some(12),
        b'n' => Some(10),
        b'r' => Some(13),
        b't' => Some(9),
        b'v' => Some(11),
        _ => None,
    }
}

/// A code as a signed number of 8 bits.
pub(crate) fn narrow_value(code: u64) -> Option<Value>
    ensures { result ≡ spec.narrow_value code }
{
    let bits = match code {
        0..=127 => code,
        128..=255 => code.wrapping_sub(256),
        _ => return None,
    };
    Some(Value {
        unsigned: false,
        bits,
    })
}

/// The code of a character with a prefix.
fn wide_value(code: u64) -> Option<Value>
    ensures { result ≡ spec.wide_value code }
{
    if code > 127 {
        return None;
    }
    Some(Value {
        unsigned: false,
        bits: code,
    })
}
