//! Answers for texts of marks and of costs.
use inc_check::{read_costs, read_marks};
use std::alloc::Global;
use tests_parts::{Stop, add, add_number};

/// Adds the marks that the lines of an example are the text of, `LINE:PATH` each, or the line that is malformed.
pub fn add_marks(alloc: Global, example: &str, out: &mut Vec<u8>) -> Result<(), Stop> {
    match read_marks(alloc, &text_of(alloc, example)?) {
        Ok(marks) => {
            for mark in &marks {
                add_directive(mark.line(), mark.path(), out)?;
            }
            Ok(())
        }
        Err(fault) => add(out, format!(in alloc; "{fault}\n")?.as_bytes()),
    }
}

/// Adds the costs that the lines of an example are the text of, `AMOUNT for LINE:PATH` each, or the line that is malformed.
pub fn add_cost_list(alloc: Global, example: &str, out: &mut Vec<u8>) -> Result<(), Stop> {
    match read_costs(alloc, &text_of(alloc, example)?) {
        Ok(costs) => {
            for cost in &costs {
                add_number(out, cost.amount() as usize, b" for ")?;
                let mark = cost.mark();
                add_directive(mark.line(), mark.path(), out)?;
            }
            Ok(())
        }
        Err(fault) => add(out, format!(in alloc; "{fault}\n")?.as_bytes()),
    }
}

/// The lines of an example, each with its line feed.
fn text_of(alloc: Global, example: &str) -> Result<Vec<u8>, Stop> {
    let mut text = Vec::new(alloc);
    for line in example.split('\n').skip(1) {
        text.extend_from_slice(line.as_bytes())?;
        text.push(b'\n')?;
    }
    Ok(text)
}

/// Adds a directive.
fn add_directive(line: u32, path: &[u8], out: &mut Vec<u8>) -> Result<(), Stop> {
    add_number(out, line as usize, b":")?;
    add(out, path)?;
    add(out, b"\n")
}
