//! What is asked of a project.
ghost use Rattle.std.specs.Prelude.{◌≡◌};
ghost use Rattle.inc_answers.specs.CommandNames.{asks_headers, command_name};
ghost use Rattle.inc_answers.specs.RuleViews.{seen_list};
ghost use Rattle.inc_answers.specs.Terms.{is_whole, no_rules};

use inc_cost::Group;
use inc_graph::{Cost, Mark};
use inc_lookup::IncludePath;
use inc_rules::Rule;
use inc_text::Language;
use std::marker::Model;

/// A question about sources and headers of a project, or about sources alone. Where a path names no file, or a list of headers is empty, it
/// is refused.
#[derive(Drop)]
pub struct Question<'q> {
    /// The paths of the sources, which need not be in normal form.
    pub from: &'q [&'q [u8]],
    /// The paths of the headers, which need not be in normal form; `None` where the question is about sources alone.
    pub to: Option<&'q [&'q [u8]]>,
    /// The directives that are taken as removed, where they are include directives or none of C. Marks that name no such directive
    /// change nothing.
    pub without: &'q [Mark],
    /// The language of the files.
    pub language: Language,
    /// Names that no build defines on its command line: an include by such a name is no blocker where no file that the sources reach
    /// defines the name.
    pub undefined: &'q [&'q [u8]],
    /// The include paths beside the project's own.
    pub others: &'q [IncludePath],
    /// For each file of the project the numbers of the include paths with which it is read as a source: 0 is the project's own, and 1 the
    /// first of `others`. A file that has none, and one past the end, is read with each; numbers past the last say nothing.
    pub read_with: &'q [Vec<usize>],
    /// Whether the question is refused where an include is not found.
    pub is_strict: bool,
    /// Globs of the names of headers that are excepted from that, as they stand between the quotes or the brackets. One that is none
    /// excepts nothing.
    pub external: &'q [&'q [u8]],
}

impl<'q> Model for Question<'q> {
    ghost use Rattle.std.specs.Prelude.{map, option_map};
    ghost use Rattle.inc_answers.specs.Terms.{Question};

    ghost Value = { Question };

    ghost view = { λ q. record {
      from = map (λ p. p.now) q.from.now;
      to = option_map (λ ps. map (λ p. p.now) ps.now) q.to;
      without = q.without.now;
      language = q.language;
      undefined = map (λ n. n.now) q.undefined.now;
      others = q.others.now;
      read_with = map (λ v. v.items) q.read_with.now;
      is_strict = q.is_strict;
      external = map (λ n. n.now) q.external.now;
    } };
}

impl<'q> Question<'q> {
    /// Whether the files are read as they are: no directive is taken as removed, and no name as undefined.
    pub fn is_whole(&self) -> bool
        ensures { result ≡ is_whole self.now }
    {
        self.without.len() == 0 && self.undefined.len() == 0
    }
}

/// What limits a cut.
#[derive(Drop)]
pub struct Limits<'l> {
    /// The directives that may not be removed.
    pub fixed: &'l [Mark],
    /// For each file of the project whether none of its directives may be; none at all where no file is kept so.
    pub kept: &'l [bool],
    /// What the others cost, 1 where none is given. A cost of a fixed directive says nothing.
    pub costs: &'l [Cost<'l>],
}

impl<'l> Model for Limits<'l> {
    ghost use Rattle.inc_answers.specs.Terms.{Limits};

    ghost Value = { Limits };

    ghost view = { λ l. record { fixed = l.fixed.now; kept = l.kept.now; costs = l.costs.now } };
}

/// Rules, and what their list is called.
#[derive(Clone, Copy, Drop)]
pub struct RuleList<'r> {
    pub name: &'r str,
    pub rules: &'r [Rule<'r>],
}

impl<'r> RuleList<'r> {
    /// No rules.
    pub fn none() -> RuleList<'r>
        ensures { seen_list result ≡ no_rules }
    {
        RuleList {
            name: "",
            rules: &[],
        }
    }
}

/// How much is printed of what includes cost.
#[derive(Clone, Copy, Drop)]
pub struct CostWords<'c> {
    /// At most so many headers, and as many directives.
    pub most: usize,
    /// The groups of headers that are asked about.
    pub groups: &'c [Group<'c>],
}

/// What an answer goes by beside its graph.
#[derive(Drop)]
pub struct Details<'d> {
    /// What limits a cut.
    pub limits: &'d Limits<'d>,
    /// The rules that are asked about.
    pub rules: RuleList<'d>,
    /// How much is asked about costs.
    pub costs: CostWords<'d>,
}

impl<'d> Model for Details<'d> {
    ghost use Rattle.inc_answers.specs.CommandNames.{asks_headers, command_name};
    ghost use Rattle.inc_answers.specs.RuleViews.{seen_costs, seen_list};
    ghost use Rattle.inc_answers.specs.Terms.{Details};

    ghost Value = { Details };

    ghost view = { λ d. record { limits = d.limits.now; rules = seen_list d.rules; costs = seen_costs d.costs } };
}

/// What is asked.
#[derive(Clone, Copy, Debug, PartialEq, Eq)]
pub enum Asked {
    /// How a header reaches a source, as `run_why` prints it.
    Why,
    /// Which sources a header reaches, as `run_who` prints it.
    Who,
    /// Which edges the sources reach, as `run_graph` prints it.
    Graph,
    /// Which directives to remove so that no header does, as `run_cut` prints it.
    Cut,
    /// Which rules are broken, as `run_rules` prints it.
    Rules,
    /// What includes cost, as `run_cost` prints it.
    Cost,
    /// What comes in through each file of the trees of sources, as `run_trees` prints it.
    Tree,
}

impl Asked {
    /// Whether it is about headers, too.
    pub fn has_headers(self) -> bool
        ensures { result ≡ asks_headers self }
    {
        match self {
            Asked::Graph | Asked::Rules | Asked::Cost | Asked::Tree => false,
            _ => true,
        }
    }

    /// The name of the command.
    pub fn name(self) -> &'static [u8]
        ensures { result.now ≡ command_name self }
    {
        match self {
            Asked::Why => b"why",
            Asked::Who => b"who",
            Asked::Graph => b"graph",
            Asked::Cut => b"cut",
            Asked::Rules => b"rules",
            Asked::Cost | Asked::Tree => b"cost",
        }
    }
}
