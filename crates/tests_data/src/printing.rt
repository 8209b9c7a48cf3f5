//! What answers are printed with.
use inc_directive::FileFault;
use std::alloc::Global;
use tests_parts::{Stop, add};

/// Adds a byte, one that is no printable ASCII by its number. A line feed stays.
fn add_byte(out: &mut Vec<u8>, byte: u8) -> Result<(), Stop> {
    if byte == b'\n' || (byte >= b' ' && byte < b'~') {
        return Ok(out.push(byte)?);
    }
    let digits = b"0123456789abcdef";
    let (high, low) = ((byte / 16) as usize, (byte % 16) as usize);
    add(out, &[b'~', digits[high], digits[low]])
}

/// Adds bytes as they are printed.
pub fn add_printed(out: &mut Vec<u8>, bytes: &[u8]) -> Result<(), Stop> {
    for byte in bytes {
        add_byte(out, *byte)?;
    }
    Ok(())
}

/// Adds the message of a fault.
pub fn add_fault(alloc: Global, out: &mut Vec<u8>, fault: FileFault) -> Result<(), Stop> {
    add(out, format!(in alloc; "{fault}\n")?.as_bytes())
}

/// Adds an answer in C17 and, where it is another one, that in the extended language.
pub fn add_both(out: &mut Vec<u8>, c17: &[u8], extended: &[u8]) -> Result<(), Stop> {
    add(out, c17)?;
    if extended != c17 {
        add(out, b"extended:\n")?;
        add(out, extended)?;
    }
    Ok(())
}
