//! What answers are read and printed with.
use crate::stops::Stop;
use inc_lookup::{FileId, Project};
use itoa::Buffer;

/// Adds bytes.
pub fn add(out: &mut Vec<u8>, bytes: &[u8]) -> Result<(), Stop> {
    Ok(out.extend_from_slice(bytes)?)
}

/// Adds a number and what is after it.
pub fn add_number(out: &mut Vec<u8>, number: usize, after: &[u8]) -> Result<(), Stop> {
    let mut digits = Buffer::new();
    add(out, digits.format(number).as_bytes())?;
    add(out, after)
}

/// Adds the path of a file.
pub fn add_path(project: &Project<'_>, file: FileId, out: &mut Vec<u8>) -> Result<(), Stop> {
    if project.at(file.index()).is_none() {
        return Err(Stop);
    }
    add(out, project.path(file))
}

/// The number of decimal digits.
pub fn number(digits: &str) -> Result<u32, Stop> {
    match digits.parse() {
        Ok(number) => Ok(number),
        Err(_) => Err(Stop),
    }
}

/// A line as its first word and what is after a space.
pub fn split_word(line: &str) -> (&str, &str) {
    line.split_once(' ').unwrap_or((line, ""))
}
