//! Examples on standard input.
use crate::printing::add;
use crate::stops::Stop;
use inc_text::{Reading, Writing, read_file, write_whole};
use std::alloc::Global;
use std::io;

/// What a program answers.
pub trait Answers {
    /// Adds the answer of an example, which begins with its kind.
    fn add(alloc: Global, example: &str, out: &mut Vec<u8>) -> Result<(), Stop>;
}

/// Prints the answers of all examples on standard input. A line `== KIND: NAME` begins one; what is before the first is a heading.
pub fn run<A: Answers>(rt: &HostRuntime) -> Result<(), Stop> {
    let input = read_input(rt)?;
    let Ok(examples) = str::from_utf8(&input) else {
        return Err(Stop);
    };
    let out = answers_of::<A>(rt.alloc(), examples)?;
    print(rt, &out)
}

/// All of standard input.
pub fn read_input(rt: &HostRuntime) -> Result<Vec<u8>, Stop> {
    match read_file(rt.alloc(), &mut Reading::new(rt.reader()), 0) {
        Ok(input) => Ok(input),
        Err(_) => Err(Stop),
    }
}

/// Writes bytes to standard output.
pub fn print(rt: &HostRuntime, out: &[u8]) -> Result<(), Stop> {
    match write_whole(&mut Writing::new(io::writer(rt)), out) {
        Ok(()) => Ok(()),
        Err(_) => Err(Stop),
    }
}

/// So many bytes a short answer needs, so that printing it takes no more memory.
const OUT_ROOM: usize = 65_536;

/// The answers of all examples, each after the line that begins it.
fn answers_of<A: Answers>(alloc: Global, examples: &str) -> Result<Vec<u8>, Stop> {
    let mut out = Vec::with_capacity(alloc, OUT_ROOM)?;
    let whole = examples.strip_suffix('\n').unwrap_or(examples);
    for example in whole.split("\n== ").skip(1) {
        let (head, _) = example.split_once('\n').unwrap_or((example, ""));
        add(&mut out, b"== ")?;
        add(&mut out, head.as_bytes())?;
        add(&mut out, b"\n")?;
        if A::add(alloc, example, &mut out).is_err() {
            add(&mut out, b"this example is malformed, or memory ran out\n")?;
        }
    }
    Ok(out)
}
