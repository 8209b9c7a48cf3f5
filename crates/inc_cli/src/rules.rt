//! Questions about rules.
ghost use Rattle.std.specs.Prelude.{◌≡◌, ◌≢◌, Err, false, map, option_map};
ghost use Rattle.inc_args.specs.Views.{seen_limits, seen_question, seen_rules};
ghost use Rattle.inc_cli.specs.Commands.{ruled_command};
ghost use Rattle.inc_cli.specs.Outputs.{IsRun};
ghost use Rattle.inc_cli.specs.Processes.{IsRuledBy};
ghost use Rattle.inc_cli.specs.Views.{output_of, seen_command, seen_end};
ghost use Rattle.inc_inputs.specs.Reports.{out_of_memory};
ghost use Rattle.inc_inputs.specs.RuleLists.{rule_text, ruled, rules_by, rules_given};
ghost use Rattle.inc_inputs.specs.Steps.{then};
ghost use Rattle.inc_inputs.specs.Views.{baseline_in};
ghost use Rattle.inc_answers.specs.RuleViews.{seen_list};
ghost use Rattle.inc_rules.specs.Views.{seen_rule};

use crate::answers::Answer;
use crate::commands::{Command, RuleForm};
use crate::questions::ask;
use crate::runs::Setup;
use inc_answers::RuleList;
use inc_args::{LimitArgs, QuestionArgs, RuleArgs};
use inc_inputs::{
    Baseline, Failure, Inputs, read_baseline, read_rule_text, rule_name, rules_in, words_failure,
};
use inc_rules::Rule;
use inc_text::ByteSink;

/// Reads the rules that words give, and the directives that may still break them, and answers which are broken.
pub(crate) fn ask_rules<I: Inputs, O: ByteSink>(
    setup: &Setup,
    form: RuleForm,
    question: &QuestionArgs<'_>,
    words: &RuleArgs<'_>,
    limits: &LimitArgs<'_>,
    inputs: I,
    out: O,
) -> (Result<Answer, Failure>, O)
    requires { O.has_failed out ≡ false }
    ensures { seen_end result.0 ≢ Err out_of_memory →
        IsRun (rules_given I.gives (seen_rules words.now))
        (IsRuledBy I.gives I.puts (record { opens = I.opens; left = I.Stream.left }) setup.now.language (seen_question question.now) (seen_limits limits.now)
        (seen_rules words.now) form) inputs
        (output_of (O.written out) (O.written result.1) (O.has_failed result.1)) (seen_end result.0) }
{
    match words_failure(words) {
        Some(failure) => (Err(failure), out),
        None => ask_rules_once(setup, form, question, words, limits, inputs, out),
    }
}

/// The same where nothing is wrong with the words.
fn ask_rules_once<I: Inputs, O: ByteSink>(
    setup: &Setup,
    form: RuleForm,
    question: &QuestionArgs<'_>,
    words: &RuleArgs<'_>,
    limits: &LimitArgs<'_>,
    inputs: I,
    out: O,
) -> (Result<Answer, Failure>, O)
    requires { O.has_failed out ≡ false }
    ensures { seen_end result.0 ≢ Err out_of_memory →
        IsRun (then (rule_text I.gives (seen_rules words.now)) (λ text. rules_by I.gives (seen_rules words.now) text))
        (IsRuledBy I.gives I.puts (record { opens = I.opens; left = I.Stream.left }) setup.now.language (seen_question question.now) (seen_limits limits.now)
        (seen_rules words.now) form) inputs
        (output_of (O.written out) (O.written result.1) (O.has_failed result.1)) (seen_end result.0) }
{
    let mut inputs = inputs;
    match read_rule_text(setup.alloc, &mut inputs, words) {
        Ok(text) => ask_rules_of(setup, form, question, words, limits, &text, inputs, out),
        Err(failure) => (Err(failure), out),
    }
}

/// The same of the text of their list.
fn ask_rules_of<I: Inputs, O: ByteSink>(
    setup: &Setup,
    form: RuleForm,
    question: &QuestionArgs<'_>,
    words: &RuleArgs<'_>,
    limits: &LimitArgs<'_>,
    text: &[u8],
    inputs: I,
    out: O,
) -> (Result<Answer, Failure>, O)
    requires { O.has_failed out ≡ false }
    ensures { seen_end result.0 ≢ Err out_of_memory →
        IsRun (rules_by I.gives (seen_rules words.now) text.now)
        (IsRuledBy I.gives I.puts (record { opens = I.opens; left = I.Stream.left }) setup.now.language (seen_question question.now) (seen_limits limits.now)
        (seen_rules words.now) form) inputs
        (output_of (O.written out) (O.written result.1) (O.has_failed result.1)) (seen_end result.0) }
{
    match rules_in(setup.alloc, text, rule_name(words)) {
        Ok(rules) => ask_ruled(setup, form, question, words, limits, &rules, inputs, out),
        Err(failure) => (Err(failure), out),
    }
}

/// The same of rules.
fn ask_ruled<I: Inputs, O: ByteSink>(
    setup: &Setup,
    form: RuleForm,
    question: &QuestionArgs<'_>,
    words: &RuleArgs<'_>,
    limits: &LimitArgs<'_>,
    rules: &[Rule<'_>],
    inputs: I,
    out: O,
) -> (Result<Answer, Failure>, O)
    requires { O.has_failed out ≡ false }
    ensures { seen_end result.0 ≢ Err out_of_memory →
        IsRun (ruled I.gives (seen_rules words.now) (map seen_rule rules.now))
        (IsRuledBy I.gives I.puts (record { opens = I.opens; left = I.Stream.left }) setup.now.language (seen_question question.now) (seen_limits limits.now)
        (seen_rules words.now) form) inputs
        (output_of (O.written out) (O.written result.1) (O.has_failed result.1)) (seen_end result.0) }
{
    let mut inputs = inputs;
    match read_baseline(setup.alloc, &mut inputs, words.baseline) {
        Ok(lines) => {
            let lines = &lines;
            let name = rule_name(words);
            let list = RuleList { name, rules };
            let name = words.baseline;
            let baseline = Baseline { name, lines };
            let command = ruled_command(form, list, baseline, words.written);
            ask(setup, command, question, limits, inputs, out)
        }
        Err(failure) => (Err(failure), out),
    }
}

/// The command that asks whether rules are broken, or with a word for a file which directives break them.
fn ruled_command<'a>(
    form: RuleForm,
    list: RuleList<'a>,
    baseline: Baseline<'a>,
    written: Option<&'a str>,
) -> Command<'a>
    ensures { seen_command result
        ≡ ruled_command form (seen_list list.entry) (baseline_in baseline.entry) (option_map (λ w. w.now) written.entry) }
{
    match written {
        Some(name) => Command::WriteBaseline(form.format(), list, name),
        None => Command::Rules(form, list, baseline),
    }
}
