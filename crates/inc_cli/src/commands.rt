//! Commands that ask about sources and headers.
ghost use Rattle.std.specs.Prelude.{◌≡◌, map, option_map};
ghost use Rattle.inc_cli.specs.Commands.{baseline_of, bounded, certificate_of, format_in, has_headers, headers_of, named_form, plain_form, rules_name, rules_of, top_of};
ghost use Rattle.inc_cli.specs.Views.{seen_command};
ghost use Rattle.inc_inputs.specs.Views.{baseline_in};
ghost use Rattle.inc_answers.specs.RuleViews.{seen_list};

use inc_answers::{Asked, RuleList};
use inc_inputs::Baseline;
use inc_report::{Format, NamedForm};

/// How broken rules are printed.
#[derive(Clone, Copy)]
pub(crate) enum RuleForm {
    /// As text.
    Lines,
    /// With directives as they are written.
    In(Format),
    /// As an object of SARIF.
    Sarif,
}

impl RuleForm {
    /// The format with directives as they are written, if it is one.
    pub(crate) fn format(self) -> Option<Format>
        ensures { result ≡ format_in self }
    {
        match self {
            RuleForm::In(format) => Some(format),
            _ => None,
        }
    }
}

/// What is asked about sources and headers.
#[derive(Clone, Copy)]
pub(crate) enum Command<'a> {
    /// Why the sources include the headers, by at most so many chains; that they do is a negative answer, or not.
    Why(bool, Option<usize>),
    /// Which sources include the headers, with their chains or without, and at most so many of them; that some do is a negative answer, or
    /// not.
    Who(bool, bool, Option<usize>),
    /// Which edges the sources reach, whatever the headers are.
    Graph,
    /// Which include directives to remove so that they no longer do.
    Cut,
    /// For the files of the cut with its directives blanked.
    Blank,
    /// For the diff that removes its directives.
    Patch,
    /// Why the sources include the headers, which edges they reach, or which directives to remove, with directives as they are written.
    Named(NamedForm),
    /// Which of these rules are broken without the directives of a baseline, in this form.
    Rules(RuleForm, RuleList<'a>, Baseline<'a>),
    /// Which directives break these rules, written to the file that this word names; and what breaks them beside these, as text or with
    /// directives as they are written.
    WriteBaseline(Option<Format>, RuleList<'a>, &'a str),
    /// What includes cost the sources, as text or with directives as they are written: at most so many headers, and as many directives.
    Cost(Option<Format>, usize),
    /// The trees of the sources, as text or with words.
    Tree(Option<Format>),
    /// The same as stacks.
    Folded,
    /// Whether the certificate that this word names shows a smallest cut.
    Check(&'a str),
}

impl<'a> Command<'a> {
    /// The same command with at most so many chains.
    pub(crate) fn bounded(self, most: Option<usize>) -> Command<'a>
        ensures { seen_command result ≡ bounded most (seen_command self.entry) }
    {
        match self {
            Command::Why(fails, _) => Command::Why(fails, most),
            Command::Who(with_chains, fails, _) => Command::Who(with_chains, fails, most),
            other => other,
        }
    }

    /// The word that names the certificate.
    pub(crate) fn certificate(self) -> Option<&'a str>
        ensures { option_map (λ n. n.now) result ≡ certificate_of (seen_command self.entry) }
    {
        match self {
            Command::Check(name) => Some(name),
            _ => None,
        }
    }

    /// The rules that it is about; none where it is not about rules.
    pub(crate) fn rules(self) -> RuleList<'a>
        ensures { seen_list result ≡ rules_of (seen_command self.entry) }
    {
        match self {
            Command::Rules(_, list, _) => list,
            Command::WriteBaseline(_, list, _) => list,
            _ => RuleList::none(),
        }
    }

    /// How much is printed of costs; nothing where it is not about these.
    pub(crate) fn top(self) -> usize
        ensures { result ≡ top_of (seen_command self.entry) }
    {
        match self {
            Command::Cost(_, top) => top,
            _ => 0,
        }
    }

    /// The form of its answer; none where that is text.
    pub(crate) fn named_form(self) -> Option<NamedForm>
        ensures { result ≡ named_form (seen_command self.entry) }
    {
        match self {
            Command::Named(form) => Some(form),
            Command::Rules(form, _, _) => plain_form(Asked::Rules, form.format()),
            Command::Cost(format, _) => plain_form(Asked::Cost, format),
            Command::Tree(format) => plain_form(Asked::Tree, format),
            _ => None,
        }
    }

    /// What their list is called.
    pub(crate) fn rules_name(self) -> Option<&'a str>
        ensures { option_map (λ n. n.now) result ≡ rules_name (seen_command self.entry) }
    {
        match self {
            Command::Rules(_, list, _) => Some(list.name),
            Command::WriteBaseline(_, list, _) => Some(list.name),
            _ => None,
        }
    }

    /// The directives that may still break them.
    pub(crate) fn baseline(self) -> Baseline<'a>
        ensures { baseline_in result ≡ baseline_of (seen_command self.entry) }
    {
        match self {
            Command::Rules(_, _, baseline) => baseline,
            _ => Baseline::none(),
        }
    }

    /// The word that names these.
    pub(crate) fn baseline_name(self) -> Option<&'a str>
        ensures { option_map (λ n. n.now) result ≡ (baseline_of (seen_command self.entry)).name }
    {
        self.baseline().name
    }

    /// Whether it is about headers, too.
    pub(crate) fn has_headers(self) -> bool
        ensures { result ≡ has_headers (seen_command self.entry) }
    {
        match self {
            Command::Graph | Command::Rules(..) | Command::WriteBaseline(..) => false,
            Command::Cost(..) | Command::Tree(_) | Command::Folded => false,
            Command::Named(form) => form.asked.has_headers(),
            _ => true,
        }
    }

    /// The paths of the headers, where it is about some.
    pub(crate) fn headers<'p>(self, to: &'p [&'p [u8]]) -> Option<&'p [&'p [u8]]>
        ensures { option_map (λ ps. map (λ p. p.now) ps.now) result
            ≡ headers_of (seen_command self.entry) (map (λ p. p.now) to.entry.now) }
    {
        if self.has_headers() {
            return Some(to);
        }
        None
    }
}

/// The answer to this in a format, without chains; none where there is no format.
fn plain_form(asked: Asked, format: Option<Format>) -> Option<NamedForm>
    ensures { result ≡ option_map (plain_form asked) format }
{
    match format {
        Some(format) => Some(NamedForm {
            asked,
            format,
            all: false,
            fails: false,
            most: None,
        }),
        None => None,
    }
}
