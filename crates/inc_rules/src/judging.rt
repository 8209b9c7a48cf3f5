//! Which rules a graph breaks.
ghost use Rattle.std.specs.Prelude.{◌≡◌, [], length, map, IfOk};
ghost use Rattle.std.specs.List.{All};
ghost use Rattle.inc_rules.specs.Judging.{AreBreaks, AreJudged, IsWithin, is_broken};
ghost use Rattle.inc_rules.specs.Lines.{AreOpens};
ghost use Rattle.inc_rules.specs.Views.{seen_judged, seen_rule};

use crate::direct_rules::{across_chains, without_first, without_include};
use crate::open_lines::open_lines;
use crate::reach::reach_chains;
use crate::rule_files::{flagged, left_files, right_flags};
use crate::rules::{Rule, Verb};
use crate::sides::Sides;
use inc_graph::{EdgeId, Graph};
use inc_lookup::{FileId, Project};
use std::alloc::{AllocError, Global};

/// A rule, and what breaks it; it holds where nothing does.
#[derive(Drop)]
pub struct Judged<'r> {
    pub rule: &'r Rule<'r>,
    /// Chains of edges that may not be there: of a rule that files reach no others the first of the shortest from each, of one that they
    /// include no others the edges themselves.
    pub chains: Vec<Vec<EdgeId>>,
    /// Files that do not include what they must.
    pub files: Vec<FileId>,
}

/// What breaks each of these rules in a graph whose sources are the files of their left sides.
///
/// A rule takes a pass over the paths of the project with each of its globs, and one that files do not reach others a pass over the edges.
pub fn judge<'r>(
    alloc: Global,
    project: &Project<'_>,
    graph: &Graph,
    rules: &'r [Rule<'r>],
) -> Result<Vec<Judged<'r>>, AllocError>
    requires { graph.now.files ≡ length project.now.paths }
    ensures judged { IfOk result (λ js. AreJudged project.now graph.now (map seen_rule rules.entry.now) (map seen_judged js.items)) }
    ensures within { IfOk result (λ js. All (λ j. IsWithin graph.now (seen_judged j)) js.items) }
{
    // That its edges lead to its files.
    let _files = graph.files();
    let opens = open_lines(alloc, graph)?;
    let mut judged = Vec::with_capacity(alloc, rules.len())?;
    for rule in rules {
        judged.push(judge_rule(alloc, project, graph, &opens, rule)?)?;
    }
    Ok(judged)
}

/// What breaks a rule.
fn judge_rule<'r>(
    alloc: Global,
    project: &Project<'_>,
    graph: &Graph,
    opens: &[u32],
    rule: &'r Rule<'r>,
) -> Result<Judged<'r>, AllocError>
    requires files { graph.now.files ≡ length project.now.paths }
    requires opens { AreOpens graph.now opens.now }
    ensures rule { IfOk result (λ j. (seen_judged j).rule ≡ seen_rule rule.entry.now) }
    ensures breaks { IfOk result (λ j. AreBreaks project.now graph.now (seen_rule rule.entry.now) (seen_judged j).chains (seen_judged j).files) }
{
    // That its sources rise, and its edges lead to its files.
    let _files = graph.files();
    let mut sides = Sides::new(alloc, rule)?;
    let left = left_files(alloc, project, graph.sources(), &mut sides)?;
    let right = right_flags(alloc, project, &mut sides)?;
    let to = flagged(alloc, project, &right)?;
    match rule.verb {
        Verb::NotReach => {
            let chains = reach_chains(alloc, graph, &left, &to)?;
            Ok(by_chains(alloc, rule, chains))
        }
        Verb::NotInclude => {
            let chains = across_chains(alloc, graph, &left, &right)?;
            Ok(by_chains(alloc, rule, chains))
        }
        Verb::Include => {
            let files = without_include(alloc, graph, &left, &right)?;
            Ok(by_files(alloc, rule, files))
        }
        Verb::IncludeFirst => {
            let files = without_first(alloc, graph, opens, &left, &right)?;
            Ok(by_files(alloc, rule, files))
        }
    }
}

/// A rule that these chains break.
fn by_chains<'r>(alloc: Global, rule: &'r Rule<'r>, chains: Vec<Vec<EdgeId>>) -> Judged<'r>
    ensures { seen_judged result ≡ record { rule = seen_rule rule.entry.now; chains = map (λ c. c.items) chains.items; files = [] } }
{
    let files = Vec::new(alloc);
    Judged {
        rule,
        chains,
        files,
    }
}

/// A rule that these files break.
pub(crate) fn by_files<'r>(alloc: Global, rule: &'r Rule<'r>, files: Vec<FileId>) -> Judged<'r>
    ensures { seen_judged result ≡ record { rule = seen_rule rule.entry.now; chains = []; files = files.items } }
{
    let chains = Vec::new(alloc);
    Judged {
        rule,
        chains,
        files,
    }
}

impl<'r> Judged<'r> {
    /// Whether the rule is broken.
    pub fn is_broken(&self) -> bool
        ensures { result ≡ is_broken (seen_judged self.now) }
    {
        !(self.chains.is_empty() && self.files.is_empty())
    }
}
