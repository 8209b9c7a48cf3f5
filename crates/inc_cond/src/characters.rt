//! Character constants of GNU C.
ghost use Rattle.std.specs.Prelude.{◌≡◌, ◌≤◌, ◌+◌, ◌∷◌, ℕ, Some, None, if◌then◌else◌, drop, length, nat_lt, option_map, IfSome};
ghost use Rattle.std.specs.List.{prefix_len};
ghost use Rattle.inc_cond.specs.Constants.{is_digit_in};
ghost use Rattle.inc_cond.specs.GnuCharacters as spec;

use crate::constants::{
    character_value, digits_in, narrow_value, number_in, simple_escape, unquoted,
};
use crate::values::Value;
use inc_text::Language;

/// The code of a character.
#[derive(Clone, Copy)]
struct Code {
    code: u32,
    /// How many bytes of a text it takes, or how many more after one that begins it.
    more: usize,
}

/// The value of a character constant (ISO/IEC 9899:2018, 6.4.4.4), with its quotes, in a language; `None` where it has none.
pub fn character_in(language: Language, text: &[u8]) -> Option<Value>
    ensures { result ≡ spec.character_in language text.now }
{
    match language {
        Language::Gnu => gnu_value(text),
        Language::C17 | Language::Extended => character_value(text),
    }
}

/// The same in GNU C.
fn gnu_value(text: &[u8]) -> Option<Value>
    ensures { result ≡ spec.gnu_value text.now }
{
    match text {
        [b'\'', ..] => int_in(unquoted(text)),
        [prefix, rest @ ..] => wide_value(*prefix, single(unquoted(rest))?),
        _ => None,
    }
}

/// What the text between the quotes comes to without a prefix.
fn int_in(text: &[u8]) -> Option<Value>
    ensures { result ≡ spec.int_from 0 0 0 text.now }
{
    let mut count = 0;
    let mut value = 0;
    let mut left = text;
    while let [first, rest @ ..] = left {
        let (next, after) = take_code(value, *first, rest)?;
        value = next;
        count += 1;
        left = after;
    }
    int_of(count, value)
}

/// Takes the code that a byte begins: gives what it and those before come to, and the bytes after it.
fn take_code<'t>(value: u32, first: u8, rest: &'t [u8]) -> Option<(u32, &'t [u8])>
    ensures taken { (count : ℕ) → IfSome result (λ r. spec.int_from count value 0 (first ∷ rest.now)
        ≡ spec.int_from (count + 1) r.0 0 r.1.now) }
    ensures none { (count : ℕ) → result ≡ None → spec.int_from count value 0 (first ∷ rest.now) ≡ None }
    ensures shorter { IfSome result (λ r. length r.1.now ≤ length rest.now) }
{
    let code = code_at(first, rest)?;
    let value = with_code(value, code.code)?;
    Some((value, after(rest, code.more)))
}

/// The bytes after so many.
fn after(text: &[u8], count: usize) -> &[u8]
    requires { count ≤ length text.now }
    ensures { result.now ≡ drop count text.now }
{
    &text[count..]
}

/// With one code more; `None` where that has more than 8 bits.
fn with_code(value: u32, code: u32) -> Option<u32>
    ensures { result ≡ (if nat_lt code 256 then Some (spec.with_code value code) else None) }
{
    if code > 255 {
        return None;
    }
    // The first of four bytes goes.
    Some(value % (1 << 24) * 256 + code)
}

/// What so many codes come to.
fn int_of(count: usize, value: u32) -> Option<Value>
    ensures { result ≡ spec.int_of count value }
{
    match count {
        0 => None,
        1 => narrow_value(u64::from(value)),
        _ => Some(int_value(value)),
    }
}

/// A number of 32 bits, which is signed.
fn int_value(n: u32) -> Value
    ensures { result ≡ spec.int_value n }
{
    let bits = u64::from(n);
    Value {
        unsigned: false,
        bits: if n < 1 << 31 {
            bits
        } else {
            bits + (u64::MAX - u64::from(u32::MAX))
        },
    }
}

/// The code of a text that has one alone.
fn single(text: &[u8]) -> Option<u32>
    ensures { result ≡ spec.single text.now }
{
    let [first, rest @ ..] = text else {
        return None;
    };
    if *first > 127 {
        return None;
    }
    let code = code_at(*first, rest)?;
    if code.more == rest.len() {
        Some(code.code)
    } else {
        None
    }
}

/// The code after its prefix.
fn wide_value(prefix: u8, code: u32) -> Option<Value>
    ensures { result ≡ spec.wide_value prefix code }
{
    if prefix == b'L' {
        return Some(int_value(code));
    }
    if prefix == b'u' && code >= 1 << 16 {
        return None;
    }
    Some(Value {
        unsigned: true,
        bits: u64::from(code),
    })
}

/// The code that a byte begins, and how many of the bytes after it go with it.
fn code_at(first: u8, rest: &[u8]) -> Option<Code>
    ensures code { result ≡ spec.code_at first rest.now }
    ensures within { IfSome result (λ c. c.more ≤ length rest.now) }
{
    if first == b'\\' {
        return escape_at(rest);
    }
    Some(Code {
        code: u32::from(first),
        more: 0,
    })
}

/// The code of an escape sequence that a text after `\` begins with, and how many bytes it has.
fn escape_at(text: &[u8]) -> Option<Code>
    ensures code { result ≡ spec.escape_at text.now }
    ensures within { IfSome result (λ c. c.more ≤ length text.now) }
{
    match text {
        [b'x', digits @ ..] => hexadecimal(digits),
        [b'0'..=b'7', ..] => code_of(8, digits_in(8, text).min(3), text),
        [byte, ..] => simple(*byte),
        _ => None,
    }
}

/// The code of hexadecimal digits after their `x`, which is counted too.
fn hexadecimal(digits: &[u8]) -> Option<Code>
    ensures code { result ≡ option_map spec.behind_byte
        (spec.code_of 16 (prefix_len (is_digit_in 16) digits.now) digits.now) }
    ensures within { IfSome result (λ c. c.more ≤ length digits.now + 1) }
{
    let found = code_of(16, digits_in(16, digits), digits)?;
    Some(Code {
        code: found.code,
        more: found.more + 1,
    })
}

/// The code of an escape sequence of one byte.
fn simple(byte: u8) -> Option<Code>
    ensures code { result ≡ spec.simple_at byte }
    ensures within { IfSome result (λ c. c.more ≡ 1) }
{
    let code = match byte {
        b'e' | b'E' => 27,
        _ => simple_escape(byte)? as u32,
    };
    Some(Code { code, more: 1 })
}

/// The code that so many digits stand for, and how many they are; `None` where there are none, or where it has more than 32 bits.
fn code_of(base: u32, count: usize, text: &[u8]) -> Option<Code>
    requires base { (1 ≤ base) × (base ≤ 16) }
    requires within { count ≤ length text.now }
    ensures code { result ≡ spec.code_of base count text.now }
    ensures within { IfSome result (λ c. c.more ≡ count) }
{
    if count == 0 {
        return None;
    }
    let number = number_in(base, &text[..count])?;
    if number >= 1 << 32 {
        return None;
    }
    Some(Code {
        code: number as u32,
        more: count,
    })
}
