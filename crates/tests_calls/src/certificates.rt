//! Answers for certificates and costs.
ghost use Rattle.std.specs.Prelude.{◌≡◌, length};

use crate::cuts::{Asked, add_verdict};
use inc_check::{CertFault, read_certificate};
use inc_graph::{Cost, LentMark};
use std::alloc::Global;
use tests_parts::{Stop, add, add_number, number, refusing};

/// Adds what the checker says of certificates, between which stands a line `--`.
pub fn add_verdicts(
    alloc: Global,
    asked: &Asked<'_>,
    certificates: &str,
    out: &mut Vec<u8>,
) -> Result<(), Stop>
    requires files { asked.now.graph.now.files ≡ length asked.now.project.now.paths }
    requires fixed { length asked.now.fixed.now ≡ length asked.now.graph.now.edges }
{
    for certificate in certificates.split("\n--\n") {
        add_verdict_of(alloc, asked, certificate, out)?;
    }
    Ok(())
}

/// Adds what the checker says of a certificate, whose last line lacks its line feed, or where it is malformed.
fn add_verdict_of(
    alloc: Global,
    asked: &Asked<'_>,
    certificate: &str,
    out: &mut Vec<u8>,
) -> Result<(), Stop>
    requires files { asked.now.graph.now.files ≡ length asked.now.project.now.paths }
    requires fixed { length asked.now.fixed.now ≡ length asked.now.graph.now.edges }
{
    let mut text = Vec::from_slice(alloc, certificate.as_bytes())?;
    text.push(b'\n')?;
    match read_certificate(alloc, &text) {
        Ok(certificate) => add_verdict(alloc, asked, &certificate, out),
        Err(fault) => add(out, format!(in alloc; "{fault}\n")?.as_bytes()),
    }
}

/// Adds, for each front of a certificate, the line where it breaks off; `0` where it is a certificate.
pub fn add_fronts(alloc: Global, example: &str, out: &mut Vec<u8>) -> Result<(), Stop> {
    let (_, lines) = example.split_once('\n').unwrap_or((example, ""));
    let mut text = Vec::from_slice(alloc, lines.as_bytes())?;
    text.push(b'\n')?;
    for len in 0..=text.len() {
        match read_certificate(alloc, &text[..len]) {
            Ok(_) => add(out, b"0")?,
            Err(CertFault::Malformed { line }) => add_number(out, line, b" ")?,
            Err(CertFault::NoMemory) => return Err(Stop),
        }
    }
    add(out, b"\n")
}

/// Adds, for each amount, whether a cost can have it.
pub fn add_costs(alloc: Global, example: &str, out: &mut Vec<u8>) -> Result<(), Stop> {
    let _refusing = refusing(alloc)?;
    for amount in example.split('\n').skip(1) {
        match Cost::new(LentMark::new(b"m.c", 1), number(amount)?) {
            Some(cost) => add_number(out, cost.amount() as usize, b"\n")?,
            None => add(out, b"none\n")?,
        }
    }
    Ok(())
}
