//! The bytes that the lines of an example stand for.
use std::alloc::Global;
use tests_parts::{Stop, number};

/// The source of an example.
pub fn source_of(alloc: Global, example: &str) -> Result<Vec<u8>, Stop> {
    let mut source = Vec::new(alloc);
    for line in example.split('\n').skip(1) {
        add_source_line(alloc, line, &mut source)?;
    }
    Ok(source)
}

/// Adds a line of a source, with its line feed unless it ends in `~`.
pub fn add_source_line(alloc: Global, line: &str, source: &mut Vec<u8>) -> Result<(), Stop> {
    match line.strip_suffix('~') {
        Some(front) => add_line(alloc, front, b"", source),
        None => add_line(alloc, line, b"\n", source),
    }
}

/// The bytes of a text within a line.
pub fn bytes_of(alloc: Global, text: &str) -> Result<Vec<u8>, Stop> {
    let mut bytes = Vec::new(alloc);
    add_line(alloc, text, b"", &mut bytes)?;
    Ok(bytes)
}

/// Adds a line with its end, of which the part after `~(N)` is repeated.
fn add_line(alloc: Global, line: &str, end: &[u8], out: &mut Vec<u8>) -> Result<(), Stop> {
    let Some((front, again)) = line.split_once("~(") else {
        add_bytes(line, out)?;
        return Ok(out.extend_from_slice(end)?);
    };
    let Some((count, text)) = again.split_once(')') else {
        return Err(Stop);
    };
    add_bytes(front, out)?;
    let mut once = Vec::new(alloc);
    add_bytes(text, &mut once)?;
    once.extend_from_slice(end)?;
    for _ in 0..number(count)? {
        out.extend_from_slice(&once)?;
    }
    Ok(())
}

/// Adds the bytes of a text in which two hexadecimal digits follow each `~`.
fn add_bytes(text: &str, out: &mut Vec<u8>) -> Result<(), Stop> {
    let (front, codes) = text.split_once('~').unwrap_or((text, ""));
    out.extend_from_slice(front.as_bytes())?;
    for code in codes.split('~') {
        add_code(code, out)?;
    }
    Ok(())
}

/// Adds the byte of two hexadecimal digits, and the text after them.
fn add_code(code: &str, out: &mut Vec<u8>) -> Result<(), Stop> {
    if code.is_empty() {
        return Ok(());
    }
    let Some((digits, text)) = code.split_at_checked(2) else {
        return Err(Stop);
    };
    let Ok(byte) = u8::from_str_radix(digits, 16) else {
        return Err(Stop);
    };
    out.push(byte)?;
    Ok(out.extend_from_slice(text.as_bytes())?)
}
