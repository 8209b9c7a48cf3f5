//! How texts are written.
ghost use Rattle.std.specs.Prelude.{◌≡◌, ◌<◌, ◌++◌, ◌∷◌, [], if◌then◌else◌, decimal, length, drop, IfOk, OnOk};
ghost use Rattle.inc_check.specs.Texts.{line_text, lines_text, count_line, mark_line, mark_lines, times_text, chain_lines, cut_lines, chains_lines, certificate_text, begins_return, is_open, without_returns, whole_lines};
ghost use Rattle.inc_graph.specs.Marks as spec;
ghost use Rattle.inc_text.specs.Ascii.{carriage_return, line_feed};

use crate::certificates::{Certificate, CountedMarks};
use inc_graph::LentMark;
use itoa::Buffer;
use memchr::memchr;
use std::alloc::{AllocError, Global};

/// The text of a certificate: `cut` and its directives, then `chains` and each of them.
pub fn write_certificate(alloc: Global, certificate: &Certificate) -> Result<Vec<u8>, AllocError>
    ensures { IfOk result (λ text. text.items ≡ certificate_text certificate.now) }
{
    let mut out = Vec::new(alloc);
    let cut = certificate.cut.as_slice();
    push_count(&mut out, b"cut ", cut.len())?;
    out.push(b'\n')?;
    push_marks(&mut out, cut)?;
    let chains = &certificate.chains;
    push_count(&mut out, b"chains ", chains.len())?;
    out.push(b'\n')?;
    for index in 0..chains.len() {
        let chain = chains.chain(index);
        push_chain(&mut out, &chain)?;
    }
    Ok(out)
}

/// Adds a word and a number.
fn push_count(out: &mut Vec<u8>, word: &[u8], n: usize) -> Result<(), AllocError>
    ensures { OnOk result (out.new.items ≡ out.old.items ++ (word.now ++ decimal n)) }
{
    let mut buffer = Buffer::new();
    out.extend_from_slice(word)?;
    out.extend_from_slice(buffer.format(n).as_bytes())?;
    Ok(())
}

/// Adds a chain.
fn push_chain(out: &mut Vec<u8>, chain: &CountedMarks) -> Result<(), AllocError>
    ensures { OnOk result (out.new.items ≡ out.old.items ++ lines_text (chain_lines chain.now)) }
{
    let marks = chain.marks.as_slice();
    push_count(out, b"chain ", marks.len())?;
    if chain.count != 1 {
        push_count(out, b" times ", chain.count as usize)?;
    }
    out.push(b'\n')?;
    push_marks(out, marks)
}

/// Adds a line for each mark.
fn push_marks(out: &mut Vec<u8>, marks: &[LentMark]) -> Result<(), AllocError>
    ensures { OnOk result (out.new.items ≡ out.old.items ++ lines_text (mark_lines marks.now)) }
{
    for mark in marks {
        push_mark(out, mark)?;
    }
    Ok(())
}

/// Adds the line of a mark.
fn push_mark(out: &mut Vec<u8>, mark: &LentMark) -> Result<(), AllocError>
    ensures { OnOk result (out.new.items ≡ out.old.items ++ line_text (mark_line mark.now)) }
{
    push_count(out, b"", mark.line() as usize)?;
    out.push(b' ')?;
    out.extend_from_slice(mark.path())?;
    out.push(b'\n')?;
    Ok(())
}

/// A list of lines as it is written by hand, as a text: each CR before LF is dropped, and a last line that is not ended is ended. A list
/// without CR is not copied.
pub fn whole_lines(alloc: Global, text: Vec<u8>) -> Result<Vec<u8>, AllocError>
    ensures { IfOk result (λ lines. lines.items ≡ whole_lines text.items) }
{
    match memchr(b'\r', &text) {
        Some(_) => copied_lines(alloc, &text),
        None => ended_lines(text),
    }
}

/// The same of a list without CR.
fn ended_lines(text: Vec<u8>) -> Result<Vec<u8>, AllocError>
    requires { without_returns text.items ≡ text.items }
    ensures { IfOk result (λ lines. lines.items ≡ whole_lines text.items) }
{
    let mut lines = text;
    let is_last_open = is_open(&lines);
    end_last(&mut lines, is_last_open)?;
    Ok(lines)
}

/// The same of a list that may have CR.
fn copied_lines(alloc: Global, text: &[u8]) -> Result<Vec<u8>, AllocError>
    ensures { IfOk result (λ lines. lines.items ≡ whole_lines text.now) }
{
    let mut lines = Vec::with_capacity(alloc, text.len())?;
    let mut at = 0;
    while let Some(passed) = memchr(b'\r', &text[at..]) {
        push_return(&mut lines, &text[at..at + passed], &text[at + passed..])?;
        at += passed + 1;
    }
    lines.extend_from_slice(&text[at..])?;
    end_last(&mut lines, is_open(text))?;
    Ok(lines)
}

/// Adds the LF that the last line lacks, if it does.
fn end_last(lines: &mut Vec<u8>, is_missing: bool) -> Result<(), AllocError>
    ensures { OnOk result (lines.new.items
        ≡ (if is_missing then lines.old.items ++ line_feed ∷ [] else lines.old.items)) }
{
    if is_missing {
        lines.push(b'\n')?;
    }
    Ok(())
}

/// Adds what is before a CR, and the CR, which `rest` begins with, unless LF follows it.
fn push_return(lines: &mut Vec<u8>, before: &[u8], rest: &[u8]) -> Result<(), AllocError>
    ensures { OnOk result (lines.new.items ≡ lines.old.items
        ++ (before.now ++ (if begins_return rest.now then [] else carriage_return ∷ []))) }
{
    lines.extend_from_slice(before)?;
    if !begins_return(rest) {
        lines.push(b'\r')?;
    }
    Ok(())
}

/// Whether a text begins with CR LF.
fn begins_return(text: &[u8]) -> bool
    ensures { result ≡ begins_return text.now }
{
    matches!(text, [b'\r', b'\n', ..])
}

/// Whether the last line of a text is not ended.
fn is_open(text: &[u8]) -> bool
    ensures { result ≡ is_open text.now }
{
    !text.is_empty() && text[text.len() - 1] != b'\n'
}
