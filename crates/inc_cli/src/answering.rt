//! How questions are answered.
ghost use Rattle.std.specs.Prelude.{◌≡◌, ◌≢◌, ℕ, List, Err, None, Some, false, IfErr, map};
ghost use Rattle.inc_cli.specs.Commands as commands;
ghost use Rattle.inc_cli.specs.Commands.{certificate_of, details_of, named_form};
ghost use Rattle.inc_cli.specs.Outputs.{ended};
ghost use Rattle.inc_cli.specs.Questions.{IsKnown, IsKnownIn, Known, Prints};
ghost use Rattle.inc_cli.specs.Views.{asked_in, output_of, seen_command, seen_end};
ghost use Rattle.inc_cost.specs.Costs.{Group as Grouped};
ghost use Rattle.inc_inputs.specs.Inputs.{listed};
ghost use Rattle.inc_inputs.specs.Reports.{out_of_memory};
ghost use Rattle.inc_answers.specs.Questions.{FailsAt};
ghost use Rattle.inc_answers.specs.Writing.{is_of_certificate};

use crate::answers::Answer;
use crate::commands::{Command, RuleForm};
use crate::reports::run_failure;
use inc_answers::{
    CostWords, Details, End, Limits, Question, RunFault, TreeForm, run_cost, run_graph, run_trees,
    run_who, run_why,
};
use inc_cost::Group;
use inc_inputs::{Failure, Inputs, ListedFiles};
use inc_lookup::Project;
use inc_report::{
    NamedForm, run_baseline, run_blank, run_check, run_cut, run_named, run_patch, run_rules,
    run_sarif,
};
use inc_text::ByteSink;
use std::alloc::Global;

/// Answers a question of a project whose files are these.
pub(crate) fn answer<'l, I: Inputs, O: ByteSink>(
    alloc: Global,
    command: Command<'l>,
    project: &Project<'_>,
    question: &Question<'_>,
    limits: &'l Limits<'l>,
    groups: &'l [Group<'l>],
    files: ListedFiles<'_, I>,
    out: O,
) -> (Result<End, RunFault>, O)
    requires { O.has_failed out ≡ false }
    ensures printed { (known : Known) (notes : List ℕ) → Prints
        (λ new p. IsKnown known I.gives (record { opens = I.opens; left = I.Stream.left }) (seen_command command.entry)
        (asked_in (map (λ p. p.now) files.entry.paths.now) project.now question.now limits.now groups.now notes) files.entry.inputs new p)
        (λ new. FailsAt (listed I.gives (map (λ p. p.now) files.entry.paths.now)) files.entry.inputs new project.now question.now)
        (output_of (O.written out) (O.written result.1) (O.has_failed result.1)) result.0 }
    ensures certificate { certificate_of (seen_command command.entry) ≡ None → IfErr result.0 (λ f. is_of_certificate f ≡ false) }
{
    match command.named_form() {
        Some(form) => answer_named(
            alloc, command, form, project, question, limits, groups, files, out,
        ),
        None => answer_text(
            alloc, command, project, question, limits, groups, files, out,
        ),
    }
}

/// The same in a form.
fn answer_named<'l, I: Inputs, O: ByteSink>(
    alloc: Global,
    command: Command<'l>,
    form: NamedForm,
    project: &Project<'_>,
    question: &Question<'_>,
    limits: &'l Limits<'l>,
    groups: &'l [Group<'l>],
    files: ListedFiles<'_, I>,
    out: O,
) -> (Result<End, RunFault>, O)
    requires { O.has_failed out ≡ false }
    ensures printed { (known : Known) (notes : List ℕ) → Prints
        (λ new p. IsKnownIn known I.gives (record { opens = I.opens; left = I.Stream.left }) (Some form) (seen_command command.entry)
        (asked_in (map (λ p. p.now) files.entry.paths.now) project.now question.now limits.now groups.now notes) files.entry.inputs new p)
        (λ new. FailsAt (listed I.gives (map (λ p. p.now) files.entry.paths.now)) files.entry.inputs new project.now question.now)
        (output_of (O.written out) (O.written result.1) (O.has_failed result.1)) result.0 }
    ensures certificate { IfErr result.0 (λ f. is_of_certificate f ≡ false) }
{
    let details = details_of(command, limits, groups);
    let (ended, _, out) = run_named(alloc, project, files, question, &details, form, out);
    (ended, out)
}

/// The same as text.
fn answer_text<'l, I: Inputs, O: ByteSink>(
    alloc: Global,
    command: Command<'l>,
    project: &Project<'_>,
    question: &Question<'_>,
    limits: &'l Limits<'l>,
    groups: &'l [Group<'l>],
    files: ListedFiles<'_, I>,
    out: O,
) -> (Result<End, RunFault>, O)
    requires fresh { O.has_failed out ≡ false }
    requires text { named_form (seen_command command) ≡ None }
    ensures printed { (known : Known) (notes : List ℕ) → Prints
        (λ new p. IsKnownIn known I.gives (record { opens = I.opens; left = I.Stream.left }) None (seen_command command.entry)
        (asked_in (map (λ p. p.now) files.entry.paths.now) project.now question.now limits.now groups.now notes) files.entry.inputs new p)
        (λ new. FailsAt (listed I.gives (map (λ p. p.now) files.entry.paths.now)) files.entry.inputs new project.now question.now)
        (output_of (O.written out) (O.written result.1) (O.has_failed result.1)) result.0 }
    ensures certificate { certificate_of (seen_command command.entry) ≡ None → IfErr result.0 (λ f. is_of_certificate f ≡ false) }
{
    let mut files = files;
    match command {
        Command::Why(fails, most) => {
            run_why(alloc, project, &mut files, question, fails, most, out)
        }
        Command::Who(with_chains, fails, most) => run_who(
            alloc,
            project,
            &mut files,
            question,
            with_chains,
            fails,
            most,
            out,
        ),
        Command::Graph => run_graph(alloc, project, &mut files, question, out),
        Command::Cut => run_cut(alloc, project, &mut files, question, limits, out),
        Command::Blank => {
            let (ended, _, out) = run_blank(alloc, project, files, question, limits, out);
            (ended, out)
        }
        Command::Patch => {
            let (ended, _, out) = run_patch(alloc, project, files, question, limits, out);
            (ended, out)
        }
        Command::Rules(form, list, _) => match form {
            RuleForm::Lines => run_rules(alloc, project, &mut files, question, list.rules, out),
            RuleForm::Sarif => run_sarif(alloc, project, &mut files, question, list, out),
            // It is a form of its own.
            RuleForm::In(_) => unreachable!(),
        },
        Command::WriteBaseline(format, list, _) => {
            let (ended, _, out) = run_baseline(alloc, project, files, question, list, format, out);
            (ended, out)
        }
        Command::Cost(_, top) => {
            let (ended, _, out) = run_cost(alloc, project, files, question, top, groups, out);
            (ended, out)
        }
        Command::Tree(_) => {
            let lines = TreeForm::Lines;
            let (ended, _, out) = run_trees(alloc, project, files, question, lines, out);
            (ended, out)
        }
        Command::Folded => {
            let folded = TreeForm::Folded;
            let (ended, _, out) = run_trees(alloc, project, files, question, folded, out);
            (ended, out)
        }
        Command::Check(name) => answer_check(alloc, name, project, question, limits, files, out),
        // Its answer has a form.
        Command::Named(_) => unreachable!(),
    }
}

/// Answers whether the certificate of this name shows a smallest cut.
fn answer_check<I: Inputs, O: ByteSink>(
    alloc: Global,
    name: &str,
    project: &Project<'_>,
    question: &Question<'_>,
    limits: &Limits<'_>,
    files: ListedFiles<'_, I>,
    out: O,
) -> (Result<End, RunFault>, O)
    requires { O.has_failed out ≡ false }
    ensures { (known : Known) (groups : List Grouped) (notes : List ℕ) → Prints
        (λ new p. IsKnownIn known I.gives (record { opens = I.opens; left = I.Stream.left }) None (commands.Check name.now)
        (asked_in (map (λ p. p.now) files.entry.paths.now) project.now question.now limits.now groups notes) files.entry.inputs new p)
        (λ new. FailsAt (listed I.gives (map (λ p. p.now) files.entry.paths.now)) files.entry.inputs new project.now question.now)
        (output_of (O.written out) (O.written result.1) (O.has_failed result.1)) result.0 }
{
    let mut files = files;
    match files.inputs.open(alloc, name) {
        Ok(stream) => {
            let mut stream = stream;
            run_check(
                alloc,
                project,
                &mut files,
                question,
                limits,
                &mut stream,
                out,
            )
        }
        Err(_) => (Err(RunFault::NoMemory), out),
    }
}

/// What the answer to a command goes by beside the graph.
fn details_of<'d>(
    command: Command<'d>,
    limits: &'d Limits<'d>,
    groups: &'d [Group<'d>],
) -> Details<'d>
    ensures { result ≡ details_of (seen_command command.entry) limits.entry.now groups.entry.now }
{
    let costs = CostWords {
        most: command.top(),
        groups,
    };
    Details {
        limits,
        rules: command.rules(),
        costs,
    }
}

/// How a call that prints ended, with what was noted before it, or by what is reported of it.
pub(crate) fn end_of(
    alloc: Global,
    ending: Result<End, RunFault>,
    notes: Vec<u8>,
    paths: &[&[u8]],
    certificate: &str,
) -> Result<Answer, Failure>
    ensures { seen_end result ≢ Err out_of_memory →
        seen_end result ≡ ended notes.items (map (λ p. p.now) paths.now) certificate.now ending }
{
    match ending {
        Ok(end) => Ok(Answer { end, notes }),
        Err(fault) => Err(run_failure(alloc, fault, paths, certificate)?),
    }
}
