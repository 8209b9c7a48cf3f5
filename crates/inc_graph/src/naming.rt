//! The edges that marks name.
ghost use Rattle.std.specs.Prelude.{◌≡◌, ◌<◌, ◌≤◌, ◌==◌, ◌&&◌, ℕ, true, Some, None, length, option_map, position, slice_get, IfSome, MatchBool, MatchOption};
ghost use Rattle.std.specs.List.Sorted.{IsNonDecreasingBy, IsPartitionPoint};
ghost use Rattle.inc_graph.specs.declared.graphs.Edge as declared;
ghost use Rattle.inc_graph.specs.IncludeGraph as spec;
ghost use Rattle.inc_graph.specs.Near.{IsNear, IsListed, IsNamedFrom, IsNamedElsewhere};
ghost use Rattle.inc_graph.specs.Views.{seen_edge};
ghost use Rattle.inc_graph.specs.MarkedEdges.{in_place, names_edge, edge_number};
ghost use Rattle.inc_lookup.specs.Projects.{path_at, place_of};

use crate::graphs::{Edge, EdgeId, Graph};
use crate::lent_marks::LentMark;
use inc_lookup::{FileId, Project};

/// Where a mark is looked for first. It changes how long a search takes, and never what it finds.
#[derive(Clone, Copy, Debug, PartialEq, Eq)]
pub struct Near {
    /// The file that the mark may name.
    pub file: FileId,
    /// Another one.
    pub next: FileId,
    /// The number of the edge that it may name.
    pub edge: usize,
    /// The file that the last mark named.
    last: FileId,
    /// The file that is as far after that one in the list as that one was after the file before.
    ahead: FileId,
    /// The file to which the edge of the last mark leads.
    to: FileId,
    /// Whether the last mark of another file than the one before named the file to which that led, as marks of a chain do.
    leads: bool,
}

impl Near {
    /// At the first edge.
    pub fn start(graph: &Graph) -> Near
        ensures { IsNear graph.now.files result }
    {
        let file = graph.first_file();
        Near {
            file,
            next: file,
            edge: 0,
            last: file,
            ahead: file,
            to: file,
            leads: false,
        }
    }

    /// Looks for the next mark in this file first, which a mark named.
    fn turn(&mut self, project: &Project<'_>, file: FileId)
        requires file { file < length project.now.paths }
        requires near { IsNear (length project.now.paths) self.old }
        ensures { IsNear (length project.now.paths) self.new }
    {
        self.file = file;
        if file != self.last {
            self.leads = file == self.to;
            self.ahead = file_ahead(project, self.last, file);
            self.last = file;
        }
    }

    /// Looks for the next mark at the edge after this one first, in its file or the next one that edges leave, or in the file that the
    /// marks so far lead to.
    fn pass(&mut self, graph: &Graph, edge: Edge)
        requires edge { edge.to < graph.now.files }
        requires near { IsNear graph.now.files self.old }
        ensures { IsNear graph.now.files self.new }
    {
        let number = edge.id.index().saturating_add(1);
        self.file = file_left(graph, number, self.file);
        self.next = if self.leads { edge.to } else { self.ahead };
        self.to = edge.to;
        self.edge = number;
    }
}

/// The file that is as far after a file as this is after another, or the file itself where the list has none there.
fn file_ahead(project: &Project<'_>, from: FileId, file: FileId) -> FileId
    requires { file < length project.now.paths }
    ensures { result < length project.now.paths }
{
    let twice = file.index().saturating_mul(2);
    match twice.checked_sub(from.index()) {
        Some(place) => match project.at(place) {
            Some(ahead) => ahead,
            None => file,
        },
        None => file,
    }
}

/// The longest path that is compared byte by byte.
const SHORT: usize = 8;

/// Whether two paths are the same. Bytes of short ones are compared one by one: a call that compares many at once takes longer.
#[inline(always)]
fn is_same_path(a: &[u8], b: &[u8]) -> bool
    ensures { MatchBool result (a.now ≡ b.now) (a.now ≡ b.now → ⊥) }
{
    if a.len() != b.len() {
        return false;
    }
    if a.len() > SHORT {
        return a == b;
    }
    for index in 0..a.len() {
        if a[index] != b[index] {
            return false;
        }
    }
    true
}

/// How many of these edges are on a line before this one, by binary search.
fn edges_before(edges: &[Edge], line: u32) -> usize
    requires { IsNonDecreasingBy (λ (e : declared.Edge). e.line) edges.now }
    ensures bound { result ≤ length edges.now }
    ensures point { IsPartitionPoint (λ (e : declared.Edge). e.line < line)
        (λ (e : declared.Edge). line ≤ e.line) edges.now result }
{
    edges.partition_point(|edge| edge.line < line)
}

/// The edge that leaves a file by the directive on this line, by binary search.
pub(crate) fn edge_at(graph: &Graph, file: FileId, line: u32) -> Option<EdgeId>
    requires { file < graph.now.files }
    ensures { result ≡ position (λ (e : spec.Edge). (e.from == file) && (e.line == line))
        graph.now.edges }
{
    let _sound = graph.files();
    let edges = graph.leaving(file);
    let place = edges_before(edges, line);
    let edge = edges.get(place)?;
    if edge.line == line {
        Some(edge.id)
    } else {
        None
    }
}

/// The edge with this number, if the graph has so many.
#[inline(always)]
pub fn edge_numbered(graph: &Graph, number: usize) -> Option<Edge>
    ensures listed { IfSome result (λ e. IsListed graph.now e) }
    ensures number { MatchOption result (length graph.now.edges ≤ number) (λ e. e.id ≡ number) }
{
    let edges = graph.edges();
    if number < edges.len() {
        Some(edges[number])
    } else {
        None
    }
}

/// The edge that leaves a file by the directive on this line itself, without a search where it is this one of the graph.
#[inline(always)]
fn edge_found(graph: &Graph, hint: Option<Edge>, file: FileId, line: u32) -> Option<Edge>
    requires file { file < graph.now.files }
    requires hint { IfSome hint (λ e. IsListed graph.now e) }
    ensures place { option_map (λ (e : declared.Edge). e.id) result
        ≡ position (λ (e : spec.Edge). (e.from == file) && (e.line == line)) graph.now.edges }
    ensures edge { IfSome result (λ e. slice_get graph.now.edges e.id ≡ Some (seen_edge e)) }
    ensures to { IfSome result (λ e. e.to < graph.now.files) }
{
    let edges = graph.edges();
    if let Some(edge) = hint {
        if edge.from == file && edge.line == line {
            return Some(edge);
        }
    }
    let id = edge_at(graph, file, line)?;
    Some(edges[id.index()])
}

/// The file with this path, in which the next mark is looked for first.
fn file_named(project: &Project<'_>, near: &mut Near, path: &[u8]) -> Option<FileId>
    requires { IsNear (length project.now.paths) near.old }
    ensures place { result ≡ place_of path.now project.now.paths }
    ensures within { IfSome result (λ file. file < length project.now.paths) }
    ensures only { (k : ℕ) → k < length project.now.paths → path_at project.now k ≡ path.now →
        result ≡ Some k }
    ensures near { IsNear (length project.now.paths) near.new }
{
    let file = project.file_near(near.file, near.next, path);
    if let Some(file) = file {
        near.turn(project, file);
    }
    file
}

/// The file that the edge with this number leaves, or this one where the graph has no such edge.
fn file_left(graph: &Graph, number: usize, other: FileId) -> FileId
    requires { other < graph.now.files }
    ensures { result < graph.now.files }
{
    let _sound = graph.files();
    match edge_numbered(graph, number) {
        Some(edge) => edge.from,
        None => other,
    }
}

/// The edge at a line of a file, if there is a file.
fn edge_in(graph: &Graph, near: &mut Near, file: Option<FileId>, line: u32) -> Option<EdgeId>
    requires file { IfSome file (λ f. f < graph.now.files) }
    requires near { IsNear graph.now.files near.old }
    ensures edge { result ≡ in_place graph.now file line }
    ensures near { IsNear graph.now.files near.new }
{
    let hint = edge_numbered(graph, near.edge);
    let edge = edge_found(graph, hint, file?, line)?;
    near.pass(graph, edge);
    Some(edge.id)
}

/// The edge that a mark names. Marks in the order of the edges, and those of a chain, are found without a table.
pub fn edge_named(
    project: &Project<'_>,
    graph: &Graph,
    near: &mut Near,
    mark: &LentMark<'_>,
) -> Option<EdgeId>
    requires files { graph.now.files ≡ length project.now.paths }
    requires near { IsNear graph.now.files near.old }
    ensures edge { result ≡ edge_number project.now graph.now mark.now }
    ensures within { IfSome result (λ edge. edge < length graph.now.edges) }
    // No two edges have one mark.
    ensures only { (k : ℕ) (e : spec.Edge) → slice_get graph.now.edges k ≡ Some e →
        names_edge project.now mark.now e ≡ true → result ≡ Some k }
    ensures near { IsNear graph.now.files near.new }
{
    edge_on(project, graph, near, mark.path(), mark.line())
}

/// As [`edge_named`], of the mark with this path and line.
pub fn edge_on(
    project: &Project<'_>,
    graph: &Graph,
    near: &mut Near,
    path: &[u8],
    line: u32,
) -> Option<EdgeId>
    requires files { graph.now.files ≡ length project.now.paths }
    requires near { IsNear graph.now.files near.old }
    ensures edge { result ≡ edge_number project.now graph.now (record { path = path.now; line = line }) }
    ensures within { IfSome result (λ edge. edge < length graph.now.edges) }
    // No two edges have one mark.
    ensures only { (k : ℕ) (e : spec.Edge) → slice_get graph.now.edges k ≡ Some e →
        names_edge project.now (record { path = path.now; line = line }) e ≡ true → result ≡ Some k }
    ensures near { IsNear graph.now.files near.new }
{
    let _sound = graph.files();
    let file = file_named(project, near, path);
    edge_in(graph, near, file, line)
}

/// The edge that the mark with this path and line names, where it leaves this file; `None` where the mark names no edge, or one that
/// leaves another file. No table is asked: a path is compared with that of the file alone. `near` is the number of the edge that is
/// looked at first.
#[inline(always)]
pub fn edge_leaving(
    project: &Project<'_>,
    graph: &Graph,
    file: FileId,
    near: usize,
    path: &[u8],
    line: u32,
) -> Option<Edge>
    requires files { graph.now.files ≡ length project.now.paths }
    requires file { file < graph.now.files }
    ensures edge { IfSome result (λ e. IsNamedFrom project.now graph.now file
        (record { path = path.now; line = line }) e) }
    ensures none { result ≡ None → IsNamedElsewhere project.now graph.now file (record { path = path.now; line = line }) }
{
    let hint = edge_numbered(graph, near);
    edge_leaving_by(project, graph, file, hint, path, line)
}

/// As [`edge_leaving`], with the edge that is looked at first itself, so that a walk that keeps it does not wait for the graph's list.
#[inline(always)]
pub fn edge_leaving_by(
    project: &Project<'_>,
    graph: &Graph,
    file: FileId,
    hint: Option<Edge>,
    path: &[u8],
    line: u32,
) -> Option<Edge>
    requires files { graph.now.files ≡ length project.now.paths }
    requires file { file < graph.now.files }
    requires hint { IfSome hint (λ e. IsListed graph.now e) }
    ensures edge { IfSome result (λ e. IsNamedFrom project.now graph.now file
        (record { path = path.now; line = line }) e) }
    ensures none { result ≡ None → IsNamedElsewhere project.now graph.now file (record { path = path.now; line = line }) }
{
    let _sound = graph.files();
    project.each_path_once();
    if !is_same_path(project.path(file), path) {
        return None;
    }
    edge_found(graph, hint, file, line)
}
