//! The include directives of one file.
ghost use Rattle.std.specs.Prelude.{◌≡◌, Err, false, true, option_to_list, IfErr, IfOk};
ghost use Rattle.std.specs.List.{concat};
ghost use Rattle.inc_directive.specs.DirectiveViews.{seen_directive};
ghost use Rattle.inc_directive.specs.FileDirectives.{directives_in};
ghost use Rattle.inc_directive.specs.KindViews.{seen_target};
ghost use Rattle.inc_directive.specs.Parts.{lines_of_parts};
ghost use Rattle.inc_answers.specs.Printed.{answered, refused_for};
ghost use Rattle.inc_answers.specs.ScanForms.{form_text, refusal_form, scan, scan_result, too_long};
ghost use Rattle.inc_answers.specs.ScanText.{target_text, entry_of, scan_text};
ghost use Rattle.inc_answers.specs.Sending.{Sends};
ghost use Rattle.inc_answers.specs.Views.{seen_refusal};
ghost use Rattle.inc_answers.specs.Writing.{Prints, Writes, is_own};

use crate::fault_reasons::{bad_file_line, bad_line};
use crate::json_refusals::refusal_json;
use crate::lines::{send_count_line, send_line, send_number};
use crate::missing_notes::Notes;
use crate::outcome::{End, EndKind, RunFault, plain};
use crate::output::Output;
use crate::refusals::{Refusal, refuse_for};
use crate::scan_forms::{place_lines, scan_json};
use crate::subjects::Told;
use inc_directive::{Directive, DirectiveKind, FileFault, FileLines, LineKind, Target, read_lines};
use inc_text::{ByteSink, LONGEST_FILE, Language, TextFault, splice_owned};
use std::alloc::{AllocError, Global};

/// How the directives of a file are printed.
#[derive(Clone, Copy, Debug, PartialEq, Eq)]
pub enum ScanForm {
    /// In lines for scripts.
    Text,
    /// Each as it is written, with its file and line in front, as compilers and grep print a place.
    Gcc,
    /// As an object of JSON, on one line.
    Json,
}

/// Writes the include directives of a source, and those that are no directives of C but include too, in whatever
/// group they are. The path is only printed.
pub fn run_scan<W: ByteSink>(
    alloc: Global,
    path: &[u8],
    source: &[u8],
    language: Language,
    form: ScanForm,
    w: W,
) -> (Result<End, RunFault>, W)
    requires { W.has_failed w ≡ false }
    ensures written { Writes (λ p. p ≡ scan form language path.now path.now source.now)
        (W.written w) (W.written result.1) (W.has_failed result.1) result.0 }
    ensures own { IfErr result.0 (λ f. is_own f ≡ true) }
{
    if source.len() > LONGEST_FILE {
        return run_scan_too_long(alloc, form, w);
    }
    match copied(alloc, source) {
        Ok(bytes) => run_scan_owned(alloc, path, path, bytes, language, form, w),
        Err(_) => (Err(RunFault::NoMemory), w),
    }
}

/// A copy of a source, with room for one byte more.
fn copied(alloc: Global, source: &[u8]) -> Result<Vec<u8>, AllocError>
    ensures { IfOk result (λ bytes. bytes.items ≡ source.now) }
{
    let mut bytes = Vec::with_capacity(alloc, source.len() + 1)?;
    bytes.extend_from_slice(source)?;
    Ok(bytes)
}

/// The same of a source that is handed over, whose memory becomes that of its text. Room for one byte more spares a copy where a
/// new-line is added. The title is what the source is called beside its refusal.
pub fn run_scan_owned<W: ByteSink>(
    alloc: Global,
    path: &[u8],
    title: &[u8],
    source: Vec<u8>,
    language: Language,
    form: ScanForm,
    w: W,
) -> (Result<End, RunFault>, W)
    requires { W.has_failed w ≡ false }
    ensures written { Writes (λ p. p ≡ scan form language path.now title.now source.items)
        (W.written w) (W.written result.1) (W.has_failed result.1) result.0 }
    ensures own { IfErr result.0 (λ f. is_own f ≡ true) }
{
    let mut out = match Output::new(alloc, w) {
        Ok(out) => out,
        Err(w) => return (Err(RunFault::NoMemory), w),
    };
    let ended = scan_source(alloc, &mut out, path, title, source, language, form);
    out.finish(ended)
}

/// Writes the refusal of a source of more than 16,777,216 bytes, where a caller cannot hand it in whole.
pub fn run_scan_too_long<W: ByteSink>(
    alloc: Global,
    form: ScanForm,
    w: W,
) -> (Result<End, RunFault>, W)
    requires { W.has_failed w ≡ false }
    ensures written { Writes (λ p. p ≡ too_long form)
        (W.written w) (W.written result.1) (W.has_failed result.1) result.0 }
    ensures own { IfErr result.0 (λ f. is_own f ≡ true) }
{
    let mut out = match Output::new(alloc, w) {
        Ok(out) => out,
        Err(w) => return (Err(RunFault::NoMemory), w),
    };
    let ended = refuse_in(alloc, &mut out, form, Refusal::TooLong, Notes::none());
    out.finish(ended)
}

/// Sends the text for a source, and answers how the call ends.
fn scan_source<W: ByteSink>(
    alloc: Global,
    out: &mut Output<W>,
    path: &[u8],
    title: &[u8],
    source: Vec<u8>,
    language: Language,
    form: ScanForm,
) -> Result<End, RunFault>
    ensures sent { Prints (λ p. p ≡ scan form language path.now title.now source.items) out.old out.new result }
    ensures own { IfErr result (λ f. is_own f ≡ true) }
{
    let text = match splice_owned(alloc, source, language) {
        Ok(text) => text,
        Err(TextFault::TooLong) => {
            return refuse_in(alloc, out, form, Refusal::TooLong, Notes::none());
        }
        Err(TextFault::NoMemory) => return Err(RunFault::NoMemory),
    };
    match read_lines(alloc, text, language) {
        Ok(found) => send_found(alloc, out, path, &found, form),
        Err(fault) => match fault.line() {
            Some(_) => refuse_bad_file(alloc, out, path, title, fault, form),
            None => Err(RunFault::NoMemory),
        },
    }
}

/// Sends the refusal of a file with this path and fault, and says beside it what the fault is, under what the file is called.
fn refuse_bad_file<W: ByteSink>(
    alloc: Global,
    out: &mut Output<W>,
    path: &[u8],
    title: &[u8],
    fault: FileFault,
    form: ScanForm,
) -> Result<End, RunFault>
    ensures sent { Prints (λ p. p ≡ scan_result form path.now title.now (Err fault)) out.old out.new result }
    ensures own { IfErr result (λ f. is_own f ≡ true) }
{
    let reason = bad_file_line(alloc, title, fault)?;
    let line = bad_line(fault);
    refuse_in(alloc, out, form, Refusal::BadFile { path, line }, reason)
}

/// Sends a refusal, with a reason beside it.
fn refuse_in<W: ByteSink>(
    alloc: Global,
    out: &mut Output<W>,
    form: ScanForm,
    refusal: Refusal<'_>,
    reason: Notes,
) -> Result<End, RunFault>
    ensures sent { Prints (λ p. p ≡ refused_for reason (refusal_form form (seen_refusal refusal.entry))) out.old out.new result }
    ensures own { IfErr result (λ f. is_own f ≡ true) }
{
    if form != ScanForm::Json {
        return Ok(refuse_for(out, refusal, reason));
    }
    let report = Told {
        text: refusal_json(alloc, b"scan", refusal)?,
        kind: EndKind::Refused,
        notes: reason,
    };
    Ok(report.send(out))
}

/// Sends the directives of a file.
fn send_found<W: ByteSink>(
    alloc: Global,
    out: &mut Output<W>,
    path: &[u8],
    found: &FileLines,
    form: ScanForm,
) -> Result<End, RunFault>
    ensures sent { Prints (λ p. p ≡ answered (form_text form path.now (directives_in (lines_of_parts found.now)))) out.old out.new result }
    ensures own { IfErr result (λ f. is_own f ≡ true) }
{
    match form {
        ScanForm::Text => send_entries(out, found),
        ScanForm::Gcc => {
            let text = place_lines(alloc, path, found)?;
            out.send(&text);
        }
        ScanForm::Json => {
            let text = scan_json(alloc, path, found)?;
            out.send(&text);
        }
    }
    Ok(plain(EndKind::Answered))
}

/// Sends how many of the directives include, and a line for each.
fn send_entries<W: ByteSink>(out: &mut Output<W>, found: &FileLines)
    ensures { Sends out.old out.new (scan_text (directives_in (lines_of_parts found.now))) }
{
    send_count_line(out, b"directives", found.inclusion_count());
    let mut left = found.inclusions();
    while let Some(directive) = left.next() {
        send_entry(out, directive);
    }
}

/// Sends the printed line of a directive, if it has one.
fn send_entry<W: ByteSink>(out: &mut Output<W>, directive: Directive<'_>)
    ensures { Sends out.old out.new
        (concat (option_to_list (entry_of (seen_directive directive.entry)))) }
{
    match directive.kind {
        LineKind::Include(_, target) => {
            send_number(out, u64::from(directive.line));
            out.send(b" ");
            send_target(out, target);
            out.send(b"\n");
        }
        LineKind::Other(DirectiveKind::Foreign) => {
            send_number(out, u64::from(directive.line));
            send_line(out, b" foreign");
        }
        _ => {}
    }
}

fn send_target<W: ByteSink>(out: &mut Output<W>, target: Target<'_>)
    ensures { Sends out.old out.new (target_text (seen_target target.entry)) }
{
    match target {
        Target::Quoted(name) => {
            out.send(b"quoted ");
            out.send(name);
        }
        Target::Angled(name) => {
            out.send(b"angled ");
            out.send(name);
        }
        Target::ByName(_) | Target::Computed => out.send(b"computed"),
        Target::Nothing => out.send(b"nothing"),
    }
}
