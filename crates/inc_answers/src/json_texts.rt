//! Texts of JSON (RFC 8259).
ghost use Rattle.std.specs.Prelude.{◌≡◌, ◌++◌, OnOk};
ghost use Rattle.std.specs.Str.{is_utf8};
ghost use Rattle.inc_answers.specs.JsonTexts.{bytes_item, bytes_member, escaped, escaped_byte, hex, hex_byte, hex_text, key_text, number_member, string_text};

use crate::missing_notes::{hex_digit, put_number};
use std::alloc::AllocError;

/// Adds bytes that are UTF-8 as a string.
pub fn put_string(text: &mut Vec<u8>, bytes: &[u8]) -> Result<(), AllocError>
    ensures { OnOk result (text.new.items ≡ text.old.items ++ string_text bytes.now) }
{
    text.push(b'"')?;
    put_escapes(text, bytes)?;
    text.push(b'"')?;
    Ok(())
}

/// Adds the bytes of a string.
fn put_escapes(text: &mut Vec<u8>, bytes: &[u8]) -> Result<(), AllocError>
    ensures { OnOk result (text.new.items ≡ text.old.items ++ escaped bytes.now) }
{
    for byte in bytes {
        put_escaped(text, *byte)?;
    }
    Ok(())
}

/// Adds a byte of a string.
fn put_escaped(text: &mut Vec<u8>, byte: u8) -> Result<(), AllocError>
    ensures { OnOk result (text.new.items ≡ text.old.items ++ escaped_byte byte) }
{
    if byte == b'"' || byte == b'\\' {
        text.push(b'\\')?;
        text.push(byte)?;
        return Ok(());
    }
    if byte < 32 {
        text.extend_from_slice(b"\\u00")?;
        return put_hex_byte(text, byte);
    }
    text.push(byte)?;
    Ok(())
}

/// Adds a byte in base 16.
pub fn put_hex_byte(text: &mut Vec<u8>, byte: u8) -> Result<(), AllocError>
    ensures { OnOk result (text.new.items ≡ text.old.items ++ hex_byte byte) }
{
    text.push(hex_digit(byte / 16))?;
    text.push(hex_digit(byte % 16))?;
    Ok(())
}

/// Whether bytes are UTF-8.
fn is_utf8(bytes: &[u8]) -> bool
    ensures { result ≡ is_utf8 bytes.now }
{
    match str::from_utf8(bytes) {
        Ok(_) => true,
        Err(_) => false,
    }
}

/// Adds bytes in base 16, as a string.
pub fn put_hex(text: &mut Vec<u8>, bytes: &[u8]) -> Result<(), AllocError>
    ensures { OnOk result (text.new.items ≡ text.old.items ++ hex_text bytes.now) }
{
    text.push(b'"')?;
    put_digits(text, bytes)?;
    text.push(b'"')?;
    Ok(())
}

/// Adds bytes in base 16.
fn put_digits(text: &mut Vec<u8>, bytes: &[u8]) -> Result<(), AllocError>
    ensures { OnOk result (text.new.items ≡ text.old.items ++ hex bytes.now) }
{
    for byte in bytes {
        put_hex_byte(text, *byte)?;
    }
    Ok(())
}

/// Adds a key that needs no escape, in which this ends.
fn put_key(text: &mut Vec<u8>, key: &[u8], end: &[u8]) -> Result<(), AllocError>
    ensures { OnOk result (text.new.items ≡ text.old.items ++ key_text (key.now ++ end.now)) }
{
    text.push(b'"')?;
    text.extend_from_slice(key)?;
    text.extend_from_slice(end)?;
    text.extend_from_slice(b"\":")?;
    Ok(())
}

/// Adds a member whose value is a number.
pub fn put_number_member(text: &mut Vec<u8>, key: &[u8], n: u64) -> Result<(), AllocError>
    ensures { OnOk result (text.new.items ≡ text.old.items ++ number_member key.now n) }
{
    put_key(text, key, b"")?;
    put_number(text, n)
}

/// Adds a member whose value is bytes: a string where they are UTF-8, else in base 16 under a key of another name.
pub fn put_bytes_member(text: &mut Vec<u8>, key: &[u8], bytes: &[u8]) -> Result<(), AllocError>
    ensures { OnOk result (text.new.items ≡ text.old.items ++ bytes_member key.now bytes.now) }
{
    if is_utf8(bytes) {
        put_key(text, key, b"")?;
        return put_string(text, bytes);
    }
    put_key(text, key, b"_hex")?;
    put_hex(text, bytes)
}

/// Adds bytes as an item of a list: a string where they are UTF-8, else an object in which they are in base 16.
pub fn put_bytes_item(text: &mut Vec<u8>, bytes: &[u8]) -> Result<(), AllocError>
    ensures { OnOk result (text.new.items ≡ text.old.items ++ bytes_item bytes.now) }
{
    if is_utf8(bytes) {
        return put_string(text, bytes);
    }
    text.extend_from_slice(b"{\"path_hex\":")?;
    put_hex(text, bytes)?;
    text.push(b'}')?;
    Ok(())
}
