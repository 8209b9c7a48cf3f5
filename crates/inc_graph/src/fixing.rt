//! Which edges of a graph marks fix.
ghost use Rattle.std.specs.Prelude.{◌≡◌, ◌<◌, ◌≤◌, ◌==◌, ◌&&◌, ℕ, true, false, length, map, if◌then◌else◌, IfOk};
ghost use Rattle.std.specs.List.{list_any};
ghost use Rattle.inc_graph.specs.IncludeGraph as spec_edge;
ghost use Rattle.inc_graph.specs.MissingLists.{Missing};
ghost use Rattle.inc_graph.specs.Cuts.{are_amounts};
ghost use Rattle.inc_graph.specs.Marks as spec;
ghost use Rattle.inc_graph.specs.MarkedEdges.{names_edge, is_reached, is_unknown, first_unknown};
ghost use Rattle.inc_graph.specs.Near.{IsNear};
ghost use Rattle.inc_graph.specs.Spots.{is_directive_at, is_unknown_at, AreEntered};

use crate::graphs::Graph;
use crate::indexes::counts_by_target;
use crate::lent_marks::LentMark;
use crate::marks::Mark;
use crate::naming::{Near, edge_at, edge_named};
use inc_lookup::{FileId, Project};
use std::alloc::{AllocError, AllocFailed, Global};
use thiserror::Error;

/// What is wrong with the marks of fixed directives, or with costs.
#[derive(Clone, Copy, Debug, PartialEq, Eq, Error)]
pub enum FixedFault {
    /// A mark names a line of a file that the graph looks at, and no include directive with a header name is there.
    #[error("no such directive")]
    NoSuchDirective {
        /// The place of the first such mark.
        index: usize,
    },
    /// The mark of a cost does so.
    #[error("no such cost")]
    NoSuchCost {
        /// The place of the first such cost.
        index: usize,
    },
    /// Two costs have one mark.
    #[error("a second cost")]
    CostTwice {
        /// The place of the first cost whose mark has a cost already.
        index: usize,
    },
    /// Memory ran out.
    #[error("out of memory")]
    NoMemory,
}

impl From<AllocError> for FixedFault {
    ghost use Rattle.inc_graph.specs.declared.fixing.FixedFault.TheVariants.{NoMemory};

    ghost from_gives = { λ _ e. e ≡ NoMemory };

    fn from(_error: AllocError) -> FixedFault {
        FixedFault::NoMemory
    }
}

impl<T: Drop> From<AllocFailed<T>> for FixedFault {
    ghost use Rattle.inc_graph.specs.declared.fixing.FixedFault.TheVariants.{NoMemory};

    ghost from_gives = { λ _ e. e ≡ NoMemory };

    fn from(_failed: AllocFailed<T>) -> FixedFault {
        FixedFault::NoMemory
    }
}

/// Whether a directive whose header is not found is on this line of the file.
fn is_missing_at(graph: &Graph, file: FileId, line: u32) -> bool
    ensures { result ≡ list_any (λ (d : Missing). (d.file == file) && (d.line == line))
        graph.now.missing }
{
    let _sound = graph.files();
    graph.missing().is_at(file, line)
}

/// Whether a directive with a header name is on this line of the file.
fn is_directive_at(graph: &Graph, file: FileId, line: u32) -> bool
    requires { file < graph.now.files }
    ensures { result ≡ is_directive_at graph.now file line }
{
    edge_at(graph, file, line).is_some() || is_missing_at(graph, file, line)
}

/// For each file how many edges lead to it.
pub(crate) fn entered_counts(alloc: Global, graph: &Graph) -> Result<Vec<u32>, AllocError>
    ensures { IfOk result (λ counts. AreEntered graph.now counts.items) }
{
    counts_by_target(alloc, graph.edges(), graph.files())
}

/// Whether the file is a source, or an edge leads to it.
fn is_reached(graph: &Graph, entered: &[u32], file: FileId) -> bool
    requires file { file < graph.now.files }
    requires entered { AreEntered graph.now entered.now }
    ensures { result ≡ is_reached graph.now file }
{
    graph.is_source(file) || entered[file.index()] != 0
}

/// Whether the file is reached and is no header, and no directive is on the line.
fn is_unknown_at(graph: &Graph, entered: &[u32], file: FileId, line: u32) -> bool
    requires file { file < graph.now.files }
    requires entered { AreEntered graph.now entered.now }
    ensures { result ≡ is_unknown_at graph.now file line }
{
    is_reached(graph, entered, file)
        && !graph.is_header(file)
        && !is_directive_at(graph, file, line)
}

/// Whether the mark names a line of a reached file that is no header, where no directive is.
pub(crate) fn is_unknown_in_file(
    project: &Project<'_>,
    graph: &Graph,
    entered: &[u32],
    mark: &LentMark<'_>,
) -> bool
    requires files { graph.now.files ≡ length project.now.paths }
    requires entered { AreEntered graph.now entered.now }
    ensures { result ≡ is_unknown project.now graph.now mark.now }
{
    let _few = graph.files();
    match project.file(mark.path()) {
        Some(file) => is_unknown_at(graph, entered, file, mark.line()),
        None => false,
    }
}

/// The same, where most marks name edges.
pub(crate) fn is_unknown(
    project: &Project<'_>,
    graph: &Graph,
    entered: &[u32],
    near: &mut Near,
    mark: &LentMark<'_>,
) -> bool
    requires files { graph.now.files ≡ length project.now.paths }
    requires entered { AreEntered graph.now entered.now }
    requires near { IsNear graph.now.files near.old }
    ensures unknown { result ≡ is_unknown project.now graph.now mark.now }
    ensures near { IsNear graph.now.files near.new }
{
    if edge_named(project, graph, near, mark).is_some() {
        return false;
    }
    is_unknown_in_file(project, graph, entered, mark)
}

/// The place of the first such mark.
pub(crate) fn first_unknown(
    project: &Project<'_>,
    graph: &Graph,
    entered: &[u32],
    marks: &[Mark],
) -> Option<usize>
    requires files { graph.now.files ≡ length project.now.paths }
    requires entered { AreEntered graph.now entered.now }
    ensures { result ≡ first_unknown project.now graph.now marks.now }
{
    let mut near = Near::start(graph);
    for index in 0..marks.len() {
        let mark = marks[index].lent();
        if is_unknown(project, graph, entered, &mut near, &mark) {
            return Some(index);
        }
    }
    None
}

/// Gives the edge of the mark the amount 0.
fn fix_mark(
    project: &Project<'_>,
    graph: &Graph,
    near: &mut Near,
    amounts: &mut Vec<u32>,
    mark: &LentMark<'_>,
)
    requires files { graph.now.files ≡ length project.now.paths }
    requires near { IsNear graph.now.files near.old }
    requires long { length amounts.old.items ≡ length graph.now.edges }
    ensures near { IsNear graph.now.files near.new }
    ensures long { length amounts.new.items ≡ length amounts.old.items }
    ensures amounts { (f : (e : spec_edge.Edge) → ℕ) → amounts.old.items ≡ map f graph.now.edges →
        amounts.new.items ≡ map (λ (e : spec_edge.Edge).
        if names_edge project.now mark.now e then 0 else f e) graph.now.edges }
    ensures within { are_amounts amounts.old.items ≡ true → are_amounts amounts.new.items ≡ true }
{
    if let Some(edge) = edge_named(project, graph, near, mark) {
        amounts[edge.index()] = 0;
    }
}

/// Gives the edges of the marks the amount 0.
pub(crate) fn fix_marks(
    project: &Project<'_>,
    graph: &Graph,
    amounts: &mut Vec<u32>,
    marks: &[Mark],
)
    requires files { graph.now.files ≡ length project.now.paths }
    requires long { length amounts.old.items ≡ length graph.now.edges }
    ensures long { length amounts.new.items ≡ length graph.now.edges }
    ensures amounts { (f : (e : spec_edge.Edge) → ℕ) → amounts.old.items ≡ map f graph.now.edges →
        amounts.new.items ≡ map (λ (e : spec_edge.Edge).
        if list_any (λ (m : spec.Mark). names_edge project.now m e) marks.now then 0 else f e)
        graph.now.edges }
    ensures within { are_amounts amounts.old.items ≡ true → are_amounts amounts.new.items ≡ true }
{
    let mut near = Near::start(graph);
    for index in 0..marks.len() {
        let mark = marks[index].lent();
        fix_mark(project, graph, &mut near, amounts, &mark);
    }
}
