//! The edges by which a graph breaks rules, and what breaks them beside these.
ghost use Rattle.std.specs.Prelude.{◌≡◌, ◌<◌, ◌==◌, ◌&&◌, ◌||◌, ◌++◌, ◌∷◌, ◌⊎◌, ◌↔◌, ℕ, [], true, false, filter, length, map, slice_index_or, IfOk, OnOk};
ghost use Rattle.std.specs.List.{All, list_any, range_with_len};
ghost use Rattle.inc_graph.specs.declared.graphs.Edge as graphs;
ghost use Rattle.inc_graph.specs.FileSets.{AreFlags};
ghost use Rattle.inc_lookup.specs.Projects.{Layout};
ghost use Rattle.inc_rules.specs.Breaking.{AreBreaking, IsBound, IsBreaking, lacking, lacking_files};
ghost use Rattle.inc_rules.specs.Judging.{IsWithin, left_files};
ghost use Rattle.inc_rules.specs.Lines.{AreOpens, AreRight};
ghost use Rattle.inc_rules.specs.Reaching.{is_entering};
ghost use Rattle.inc_rules.specs.Rules.{Rule as Asked};
ghost use Rattle.inc_rules.specs.Views.{seen_judged, seen_rule};

use crate::direct_rules::{has_flag, without_first, without_include};
use crate::judging::{Judged, by_files};
use crate::open_lines::open_lines;
use crate::reaching::reached_past;
use crate::rule_files::{left_files, right_flags};
use crate::rules::{Rule, Verb};
use crate::sides::Sides;
use inc_graph::{Edge, EdgeId, Graph, edge_numbered};
use inc_lookup::{FileId, Project};
use std::alloc::{AllocError, Global};

/// The edges by which a graph breaks these rules, whose left sides its sources are, by number: of one that files do not include others those
/// that do, and of one that they do not reach them each into a file of the right side from one that is reached past it. Without them no
/// rule that has one of these verbs is broken.
///
/// A rule takes a pass over the paths of the project with each of its globs, and one that files do not reach others a search.
pub fn breaking(
    alloc: Global,
    project: &Project<'_>,
    graph: &Graph,
    rules: &[Rule<'_>],
) -> Result<Vec<EdgeId>, AllocError>
    requires { graph.now.files ≡ length project.now.paths }
    ensures breaking { IfOk result (λ edges. AreBreaking project.now graph.now (map seen_rule rules.now) edges.items) }
    ensures within { IfOk result (λ edges. All (λ i. i < length graph.now.edges) edges.items) }
{
    let mut flags = vec![in alloc; false; graph.edges().len()]?;
    for rule in rules {
        flag_rule(&mut flags, alloc, project, graph, rule)?;
    }
    flagged_edges(alloc, graph, &flags)
}

/// Flags the edges by which a graph breaks a rule.
fn flag_rule(
    flags: &mut [bool],
    alloc: Global,
    project: &Project<'_>,
    graph: &Graph,
    rule: &Rule<'_>,
) -> Result<(), AllocError>
    requires files { graph.now.files ≡ length project.now.paths }
    requires long { length flags.old ≡ length graph.now.edges }
    ensures flags { OnOk result ((edge : ℕ) → edge < length flags.old → slice_index_or flags.new edge false ≡ true
        ↔ (slice_index_or flags.old edge false ≡ true) ⊎ IsBreaking project.now graph.now (seen_rule rule.now) edge) }
    ensures long { OnOk result (length flags.new ≡ length flags.old) }
{
    // That its sources are files of it, and its edges lead to its files.
    let _files = graph.files();
    let mut sides = Sides::new(alloc, rule)?;
    let left = left_files(alloc, project, graph.sources(), &mut sides)?;
    let right = right_flags(alloc, project, &mut sides)?;
    let bound = bound_files(alloc, graph, rule.verb, &left, &right)?;
    flag_entering(flags, graph.edges(), &bound, &right);
    Ok(())
}

/// For each file whether it may include none of the right side of a rule with this verb.
fn bound_files(
    alloc: Global,
    graph: &Graph,
    verb: Verb,
    left: &[FileId],
    right: &[bool],
) -> Result<Vec<bool>, AllocError>
    requires { All (λ f. f < graph.now.files) left.now }
    ensures { (layout : Layout) (r : Asked) → r.verb ≡ verb → left.now ≡ left_files layout graph.now r → AreRight graph.now.files layout r right.now →
        IfOk result (λ bound. (file : ℕ) → file < graph.now.files → slice_index_or bound.items file false ≡ true ↔ IsBound layout graph.now r file) }
{
    let _sound = graph.files();
    match verb {
        Verb::NotReach => reached_past(alloc, graph, left, right),
        Verb::NotInclude => flags_of(alloc, graph, left),
        Verb::Include => flags_of(alloc, graph, &[]),
        Verb::IncludeFirst => flags_of(alloc, graph, &[]),
    }
}

/// A flag for each file, which these files have.
fn flags_of(alloc: Global, graph: &Graph, files: &[FileId]) -> Result<Vec<bool>, AllocError>
    requires { All (λ f. f < graph.now.files) files.now }
    ensures { IfOk result (λ flags. AreFlags files.now flags.items) }
{
    let mut flags = vec![in alloc; false; graph.files()]?;
    for file in files {
        flags[file.index()] = true;
    }
    Ok(flags)
}

/// Flags those of these edges that lead from files that are bound to files of the right side.
fn flag_entering(flags: &mut [bool], edges: &[Edge], bound: &[bool], right: &[bool])
    requires { All (λ (e : graphs.Edge). e.id < length flags.old) edges.now }
    ensures long { length flags.new ≡ length flags.old }
    ensures each { (edge : ℕ) → edge < length flags.old → slice_index_or flags.new edge false
        ≡ (slice_index_or flags.old edge false || list_any (λ (e : graphs.Edge). (e.id == edge) && is_entering bound.now right.now e) edges.now) }
{
    for edge in edges {
        flag_if(flags, edge.id, enters(edge, bound, right));
    }
}

/// Flags an edge, if it is to have a flag.
fn flag_if(flags: &mut [bool], edge: EdgeId, enters: bool)
    requires { edge < length flags.old }
    ensures long { length flags.new ≡ length flags.old }
    ensures each { (i : ℕ) → i < length flags.old → slice_index_or flags.new i false ≡ (slice_index_or flags.old i false || ((edge == i) && enters)) }
{
    if enters {
        flags[edge.index()] = true;
    }
}

/// Whether an edge leads from a file that is bound to one of the right side.
fn enters(edge: &Edge, bound: &[bool], right: &[bool]) -> bool
    ensures { result ≡ is_entering bound.now right.now edge.now }
{
    has_flag(bound, edge.from) && has_flag(right, edge.to)
}

/// The edges with a flag, by number.
fn flagged_edges(alloc: Global, graph: &Graph, flags: &[bool]) -> Result<Vec<EdgeId>, AllocError>
    requires { length flags.now ≡ length graph.now.edges }
    ensures { IfOk result (λ found. found.items ≡ filter (λ i. slice_index_or flags.now i false) (range_with_len 0 (length flags.now))) }
{
    let mut found = Vec::new(alloc);
    for place in 0..flags.len() {
        push_flagged(&mut found, graph, flags, place)?;
    }
    Ok(found)
}

/// Adds the edge with this number if it has a flag.
fn push_flagged(
    found: &mut Vec<EdgeId>,
    graph: &Graph,
    flags: &[bool],
    number: usize,
) -> Result<(), AllocError>
    requires within { number < length graph.now.edges }
    requires flags { length flags.now ≡ length graph.now.edges }
    ensures { OnOk result (found.new.items ≡ found.old.items ++ filter (λ i. slice_index_or flags.now i false) (number ∷ [])) }
{
    if flags[number] {
        if let Some(edge) = edge_numbered(graph, number) {
            found.push(edge.id)?;
        }
    }
    Ok(())
}

/// What breaks each of these rules in a graph whose sources are the files of their left sides, where the edges of [`breaking`] may stay: the
/// files that do not include what they must.
pub fn lacking<'r>(
    alloc: Global,
    project: &Project<'_>,
    graph: &Graph,
    rules: &'r [Rule<'r>],
) -> Result<Vec<Judged<'r>>, AllocError>
    requires { graph.now.files ≡ length project.now.paths }
    ensures lacking { IfOk result (λ js. map seen_judged js.items ≡ map (lacking project.now graph.now) (map seen_rule rules.entry.now)) }
    ensures within { IfOk result (λ js. All (λ j. IsWithin graph.now (seen_judged j)) js.items) }
{
    // That its edges lead to its files.
    let _files = graph.files();
    let opens = open_lines(alloc, graph)?;
    let mut lacking = Vec::with_capacity(alloc, rules.len())?;
    for rule in rules {
        let files = lacking_files(alloc, project, graph, &opens, rule)?;
        lacking.push(by_files(alloc, rule, files))?;
    }
    Ok(lacking)
}

/// The files that do not include what a rule says that they must.
fn lacking_files(
    alloc: Global,
    project: &Project<'_>,
    graph: &Graph,
    opens: &[u32],
    rule: &Rule<'_>,
) -> Result<Vec<FileId>, AllocError>
    requires files { graph.now.files ≡ length project.now.paths }
    requires opens { AreOpens graph.now opens.now }
    ensures files { IfOk result (λ files. files.items ≡ lacking_files project.now graph.now (seen_rule rule.now)) }
{
    // That its sources are files of it, and its edges lead to its files.
    let _files = graph.files();
    let mut sides = Sides::new(alloc, rule)?;
    let left = left_files(alloc, project, graph.sources(), &mut sides)?;
    let right = right_flags(alloc, project, &mut sides)?;
    match rule.verb {
        Verb::NotReach => Ok(Vec::new(alloc)),
        Verb::NotInclude => Ok(Vec::new(alloc)),
        Verb::Include => without_include(alloc, graph, &left, &right),
        Verb::IncludeFirst => without_first(alloc, graph, opens, &left, &right),
    }
}
