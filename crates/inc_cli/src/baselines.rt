//! Baselines that are written beside an answer.
ghost use Rattle.std.specs.Prelude.{◌≡◌, ◌≢◌, Err, IfOk, List, Ok, false, map};
ghost use Rattle.inc_cli.specs.Commands as commands;
ghost use Rattle.inc_cli.specs.Questions.{IsAnswered, IsKnown, Known, with_note, writes_by, writes_told};
ghost use Rattle.inc_cli.specs.Views.{answer_in, asked_in, output_of, seen_end};
ghost use Rattle.inc_cost.specs.Costs.{Group as Grouped};
ghost use Rattle.inc_inputs.specs.Reports.{out_of_memory};
ghost use Rattle.inc_inputs.specs.Steps.{Comes, comes_to, then};
ghost use Rattle.inc_inputs.specs.WrittenBaselines.{writes_baseline};
ghost use Rattle.inc_answers.specs.RuleViews.{seen_list};
ghost use Rattle.inc_answers.specs.Terms.{Limits};

use crate::answering::end_of;
use crate::answers::Answer;
use crate::runs::Setup;
use inc_answers::{EndKind, Question, RuleList};
use inc_inputs::{Failure, Inputs, ListedFiles, write_baseline};
use inc_lookup::Project;
use inc_report::{Format, run_baseline};
use inc_text::ByteSink;
use std::alloc::{AllocError, Global};

/// Answers what breaks rules beside the directives of their baseline, and writes that to the file of this name, in a project whose files have
/// these paths, beside these notes.
pub(crate) fn answer_written<I: Inputs, O: ByteSink>(
    setup: &Setup,
    format: Option<Format>,
    list: RuleList<'_>,
    name: &str,
    project: &Project<'_>,
    question: &Question<'_>,
    paths: &[&[u8]],
    notes: Vec<u8>,
    inputs: I,
    out: O,
) -> (Result<Answer, Failure>, O)
    requires { O.has_failed out ≡ false }
    ensures { (known : Known) (limits : Limits) (groups : List Grouped) → seen_end result.0 ≢ Err out_of_memory →
        let command = commands.WriteBaseline format (seen_list list.entry) name.now in
        IsAnswered I.gives I.puts (IsKnown known I.gives (record { opens = I.opens; left = I.Stream.left }) command) command
        (asked_in (map (λ p. p.now) paths.now) project.now question.now limits groups notes.items)
        inputs (output_of (O.written out) (O.written result.1) (O.has_failed result.1)) (seen_end result.0) }
{
    let alloc = setup.alloc;
    let files = ListedFiles { inputs, paths };
    let (ended, files, out) = run_baseline(alloc, project, files, question, list, format, out);
    let told = end_of(alloc, ended, notes, paths, "");
    let mut inputs = files.inputs;
    (write_beside(alloc, &mut inputs, name, told), out)
}

/// Writes the baseline that stands beside an answer.
fn write_beside<I: Inputs>(
    alloc: Global,
    inputs: &mut I,
    name: &str,
    told: Result<Answer, Failure>,
) -> Result<Answer, Failure>
    ensures { Comes (writes_told I.puts name.now (seen_end told)) inputs.old (seen_end result) inputs.new }
{
    match told {
        Ok(answer) => write_answered(alloc, inputs, name, answer),
        Err(failure) => Err(failure),
    }
}

/// The same of an answer, unless it is a refusal.
fn write_answered<I: Inputs>(
    alloc: Global,
    inputs: &mut I,
    name: &str,
    answer: Answer,
) -> Result<Answer, Failure>
    ensures { Comes (writes_by I.puts name.now (answer_in answer) answer.end.kind) inputs.old (seen_end result) inputs.new }
{
    match answer.end.kind {
        EndKind::Refused => Ok(answer),
        _ => write_lines(alloc, inputs, name, answer),
    }
}

/// The same of an answer that is none.
fn write_lines<I: Inputs>(
    alloc: Global,
    inputs: &mut I,
    name: &str,
    answer: Answer,
) -> Result<Answer, Failure>
    ensures { Comes (then (writes_baseline I.puts name.now answer.end.baseline) (λ note. comes_to (Ok (with_note (answer_in answer) note))))
        inputs.old (seen_end result) inputs.new }
{
    match write_baseline(alloc, inputs, name, answer.end.baseline.text()) {
        Ok(note) => Ok(noted(answer, &note)?),
        Err(failure) => Err(failure),
    }
}

/// An answer with one more note.
fn noted(answer: Answer, note: &[u8]) -> Result<Answer, AllocError>
    ensures { IfOk result (λ a. answer_in a ≡ with_note (answer_in answer) note.now) }
{
    let Answer { end, notes } = answer;
    let mut notes = notes;
    notes.extend_from_slice(note)?;
    Ok(Answer { end, notes })
}
