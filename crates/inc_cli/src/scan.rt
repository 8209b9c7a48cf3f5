//! The include directives of one file.
ghost use Rattle.std.specs.Prelude.{◌≡◌, ◌≢◌, Err, false, option_map};
ghost use Rattle.inc_lookup.specs.Views.{seen_answer};
ghost use Rattle.inc_inputs.specs.Reports.{out_of_memory};
ghost use Rattle.inc_cli.specs.Scans.{IsScan, IsScanOf, scanned};
ghost use Rattle.inc_cli.specs.Views.{output_of, seen_end};

use crate::answering::end_of;
use crate::answers::Answer;
use crate::runs::Setup;
use inc_answers::{ScanForm, run_scan_owned, run_scan_too_long};
use inc_inputs::{Failure, Inputs, unread};
use inc_text::{ByteSink, ReadFault};
use std::alloc::Global;

/// Prints the include directives of a file; of standard input, under the path `-`, where there is no path.
pub(crate) fn list_directives<I: Inputs, O: ByteSink>(
    setup: &Setup,
    path: Option<&str>,
    form: ScanForm,
    inputs: I,
    out: O,
) -> (Result<Answer, Failure>, O)
    requires { O.has_failed out ≡ false }
    ensures { seen_end result.0 ≢ Err out_of_memory →
        IsScan I.gives setup.now.language form (option_map (λ p. p.now) path.entry) inputs
        (output_of (O.written out) (O.written result.1) (O.has_failed result.1)) (seen_end result.0) }
{
    let mut inputs = inputs;
    let source = read_scanned(setup.alloc, &mut inputs, path);
    print_directives(setup, path, form, source, out)
}

/// The bytes of a file; of standard input where there is no path.
fn read_scanned<I: Inputs>(
    alloc: Global,
    inputs: &mut I,
    path: Option<&str>,
) -> Result<Vec<u8>, ReadFault>
    ensures { I.gives inputs.old (scanned (option_map (λ p. p.now) path.entry)) (seen_answer result) inputs.new }
{
    match path {
        Some(path) => inputs.read_file(alloc, path.as_bytes()),
        None => inputs.read_input(alloc),
    }
}

/// Prints the include directives of what was read.
fn print_directives<O: ByteSink>(
    setup: &Setup,
    path: Option<&str>,
    form: ScanForm,
    source: Result<Vec<u8>, ReadFault>,
    out: O,
) -> (Result<Answer, Failure>, O)
    requires { O.has_failed out ≡ false }
    ensures { seen_end result.0 ≢ Err out_of_memory →
        IsScanOf setup.now.language form (option_map (λ p. p.now) path.entry) (seen_answer source)
        (output_of (O.written out) (O.written result.1) (O.has_failed result.1)) (seen_end result.0) }
{
    let alloc = setup.alloc;
    let name = path.unwrap_or("-").as_bytes();
    let title = path.unwrap_or("<stdin>").as_bytes();
    match source {
        Ok(source) => {
            let (ended, out) = run_scan_owned(
                alloc,
                name,
                title,
                source,
                setup.language,
                form,
                out,
            );
            (end_of(alloc, ended, Vec::new(alloc), &[], ""), out)
        }
        // Standard input is no file: what is too long is refused, as a source that is handed in.
        Err(ReadFault::TooLong) if path.is_none() => {
            let (ended, out) = run_scan_too_long(alloc, form, out);
            (end_of(alloc, ended, Vec::new(alloc), &[], ""), out)
        }
        Err(fault) => (Err(unread(alloc, fault, name)), out),
    }
}
