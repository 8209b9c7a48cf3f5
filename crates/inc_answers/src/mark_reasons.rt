//! Why marks are refused: which include directives are near one that names none, or where a mark has its first cost.
ghost use Rattle.std.specs.Prelude.{◌≡◌, ◌<◌, ◌++◌, decimal, fold, length, position, suc, IfOk, OnOk};
ghost use Rattle.inc_answers.specs.MarkReasons.{after_words, cost_place, cost_reason, cost_twice, earlier, first_cost, fixed_reason, is_cost_of, later, marks_reason, near_words, nearest_in, nearest_to, no_directive, no_lines, none_words, one_words, place, twice_reason, two_words, with_edge, with_line, with_line_of, with_missing};

use crate::asked::Limits;
use crate::missing_notes::{Notes, put_number, put_shown};
use inc_graph::{Cost, Edge, FixedFault, Graph, LentMark, Mark, MissingList};
use inc_lookup::{FileId, Project};
use std::alloc::{AllocError, Global};

/// The lines of include directives that are nearest to another line, 0 where none is.
#[derive(Clone, Copy)]
pub struct Nearest {
    /// The last one before it.
    pub before: u32,
    /// The first one behind it.
    pub after: u32,
}

/// What is said beside the refusal of marks or costs.
pub fn marks_reason(
    alloc: Global,
    project: &Project<'_>,
    graph: &Graph,
    limits: &Limits<'_>,
    fault: FixedFault,
) -> Result<Notes, AllocError>
    requires { graph.now.files ≡ length project.now.paths }
    ensures { IfOk result (λ notes. notes ≡ marks_reason project.now graph.now limits.now.fixed limits.now.costs fault) }
{
    match fault {
        FixedFault::NoSuchDirective { index } => {
            fixed_reason(alloc, project, graph, limits.fixed, index)
        }
        FixedFault::NoSuchCost { index } => cost_reason(alloc, project, graph, limits.costs, index),
        FixedFault::CostTwice { index } => twice_reason(alloc, limits.costs, index),
        FixedFault::NoMemory => Ok(Notes::none()),
    }
}

/// The same of the mark at a place among those of directives that may not be removed.
fn fixed_reason(
    alloc: Global,
    project: &Project<'_>,
    graph: &Graph,
    marks: &[Mark],
    index: usize,
) -> Result<Notes, AllocError>
    requires { graph.now.files ≡ length project.now.paths }
    ensures { IfOk result (λ notes. notes ≡ fixed_reason project.now graph.now marks.now index) }
{
    match marks.get(index) {
        Some(mark) => no_directive(alloc, project, graph, b"--fixed or --keep", mark.lent()),
        None => Ok(Notes::none()),
    }
}

/// The same of the cost at a place.
fn cost_reason(
    alloc: Global,
    project: &Project<'_>,
    graph: &Graph,
    costs: &[Cost<'_>],
    index: usize,
) -> Result<Notes, AllocError>
    requires { graph.now.files ≡ length project.now.paths }
    ensures { IfOk result (λ notes. notes ≡ cost_reason project.now graph.now costs.now index) }
{
    match costs.get(index) {
        Some(cost) => {
            let place = cost_place(alloc, index)?;
            no_directive(alloc, project, graph, &place, cost.mark())
        }
        None => Ok(Notes::none()),
    }
}

/// What is said of the cost at a place whose mark has one before.
fn twice_reason(alloc: Global, costs: &[Cost<'_>], index: usize) -> Result<Notes, AllocError>
    ensures { IfOk result (λ notes. notes ≡ twice_reason costs.now index) }
{
    match costs.get(index) {
        Some(cost) => cost_twice(alloc, costs, index, cost.mark()),
        None => Ok(Notes::none()),
    }
}

/// The line on such a cost.
fn cost_twice(
    alloc: Global,
    costs: &[Cost<'_>],
    index: usize,
    mark: LentMark<'_>,
) -> Result<Notes, AllocError>
    ensures { IfOk result (λ notes. notes ≡ cost_twice costs.now index mark.entry) }
{
    let mut text = Vec::new(alloc);
    text.extend_from_slice(b"incut: ")?;
    text.extend_from_slice(&cost_place(alloc, index)?)?;
    text.extend_from_slice(b": ")?;
    put_place(&mut text, mark.path(), mark.line())?;
    text.extend_from_slice(b" has a cost on line ")?;
    put_line_of(&mut text, first_cost(costs, &mark))?;
    text.extend_from_slice(b" already")?;
    text.push(b'\n')?;
    Ok(Notes::of(text))
}

/// The place of the first cost of a mark.
fn first_cost(costs: &[Cost<'_>], mark: &LentMark<'_>) -> usize
    ensures { result ≡ first_cost costs.now mark.now }
{
    place_of_cost(costs, mark).unwrap_or(0)
}

/// The same, if there is one.
fn place_of_cost(costs: &[Cost<'_>], mark: &LentMark<'_>) -> Option<usize>
    ensures { result ≡ position (is_cost_of mark.now) costs.now }
{
    costs.iter().position(|cost| is_cost_of(mark, cost))
}

/// Whether a cost has this mark.
fn is_cost_of(mark: &LentMark<'_>, cost: &Cost<'_>) -> bool
    ensures { result ≡ is_cost_of mark.now cost.now }
{
    let other = cost.mark();
    mark.path() == other.path() && mark.line() == other.line()
}

/// Where the cost at a place stands in its list, which has one on each line.
fn cost_place(alloc: Global, index: usize) -> Result<Vec<u8>, AllocError>
    ensures { IfOk result (λ text. text.items ≡ cost_place index) }
{
    let mut text = Vec::from_slice(alloc, b"--costs line ")?;
    put_line_of(&mut text, index)?;
    Ok(text)
}

/// Adds the line of the place of a list that has one on each line.
fn put_line_of(text: &mut Vec<u8>, index: usize) -> Result<(), AllocError>
    ensures { OnOk result (text.new.items ≡ text.old.items ++ decimal (suc index)) }
{
    // No list is that long.
    match index.checked_add(1) {
        Some(line) => put_number(text, line as u64),
        None => Err(AllocError),
    }
}

/// The line on a mark that names no include directive, and stands at this place.
fn no_directive(
    alloc: Global,
    project: &Project<'_>,
    graph: &Graph,
    place: &[u8],
    mark: LentMark<'_>,
) -> Result<Notes, AllocError>
    requires { graph.now.files ≡ length project.now.paths }
    ensures { IfOk result (λ notes. notes ≡ no_directive project.now graph.now place.now mark.entry) }
{
    let (path, line) = (mark.path(), mark.line());
    let near = nearest_to(project, graph, &mark);
    let mut text = Vec::new(alloc);
    text.extend_from_slice(b"incut: ")?;
    text.extend_from_slice(place)?;
    text.extend_from_slice(b": no include directive at ")?;
    put_place(&mut text, path, line)?;
    put_near(&mut text, path, near)?;
    text.push(b'\n')?;
    Ok(Notes::of(text))
}

/// Adds a place as compilers write it.
pub fn put_place(text: &mut Vec<u8>, path: &[u8], line: u32) -> Result<(), AllocError>
    ensures { OnOk result (text.new.items ≡ text.old.items ++ place path.now line) }
{
    put_shown(text, path)?;
    text.extend_from_slice(b":")?;
    put_number(text, u64::from(line))?;
    Ok(())
}

/// Adds that a file has no include directive, or where the nearest are.
fn put_near(text: &mut Vec<u8>, path: &[u8], near: Nearest) -> Result<(), AllocError>
    ensures { OnOk result (text.new.items ≡ text.old.items ++ near_words path.now near) }
{
    if near.before == 0 {
        return put_after(text, path, near.after);
    }
    if near.after == 0 {
        return put_one(text, path, near.before);
    }
    put_two(text, path, near)
}

/// The same where none is before.
fn put_after(text: &mut Vec<u8>, path: &[u8], after: u32) -> Result<(), AllocError>
    ensures { OnOk result (text.new.items ≡ text.old.items ++ after_words path.now after) }
{
    if after == 0 {
        return put_none(text, path);
    }
    put_one(text, path, after)
}

/// Adds that a file has no include directive.
fn put_none(text: &mut Vec<u8>, path: &[u8]) -> Result<(), AllocError>
    ensures { OnOk result (text.new.items ≡ text.old.items ++ none_words path.now) }
{
    text.extend_from_slice(b" (")?;
    put_shown(text, path)?;
    text.extend_from_slice(b" has no include directive)")?;
    Ok(())
}

/// Adds the nearest one.
fn put_one(text: &mut Vec<u8>, path: &[u8], line: u32) -> Result<(), AllocError>
    ensures { OnOk result (text.new.items ≡ text.old.items ++ one_words path.now line) }
{
    text.extend_from_slice(b" (the nearest is ")?;
    put_place(text, path, line)?;
    text.extend_from_slice(b")")?;
    Ok(())
}

/// Adds both.
fn put_two(text: &mut Vec<u8>, path: &[u8], near: Nearest) -> Result<(), AllocError>
    ensures { OnOk result (text.new.items ≡ text.old.items ++ two_words path.now near.before near.after) }
{
    text.extend_from_slice(b" (the nearest are ")?;
    put_place(text, path, near.before)?;
    text.extend_from_slice(b", ")?;
    put_place(text, path, near.after)?;
    text.extend_from_slice(b")")?;
    Ok(())
}

/// The nearest include directives in the file of a mark, to its line.
fn nearest_to(project: &Project<'_>, graph: &Graph, mark: &LentMark<'_>) -> Nearest
    requires { graph.now.files ≡ length project.now.paths }
    ensures { result ≡ nearest_to project.now graph.now mark.now }
{
    match project.file(mark.path()) {
        Some(file) => nearest_in(graph, mark.line(), file),
        None => Nearest::none(),
    }
}

/// The nearest include directives of a file to a line.
fn nearest_in(graph: &Graph, at: u32, file: FileId) -> Nearest
    requires { file < graph.now.files }
    ensures { result ≡ nearest_in graph.now at file }
{
    let near = nearest_edge(graph.leaving(file), at);
    nearest_missing(near, graph.missing(), file, at)
}

/// The nearest of these edges to a line.
fn nearest_edge(edges: &[Edge], at: u32) -> Nearest
    ensures { result ≡ fold (with_edge at) no_lines edges.now }
{
    let mut near = Nearest::none();
    for edge in edges {
        near = near.with_edge(at, *edge);
    }
    near
}

/// These, or nearer ones of a file whose header is not found.
fn nearest_missing(first: Nearest, missing: &MissingList, file: FileId, at: u32) -> Nearest
    ensures { result ≡ fold (with_missing file at) first missing.now }
{
    let mut near = first;
    for place in 0..missing.len() {
        let directive = missing.at(place);
        near = near.with_line_of(file, at, directive.file, directive.line);
    }
    near
}

impl Nearest {
    /// No lines.
    fn none() -> Nearest
        ensures { result ≡ no_lines }
    {
        Nearest {
            before: 0,
            after: 0,
        }
    }

    /// With the line of an edge.
    fn with_edge(self, at: u32, edge: Edge) -> Nearest
        ensures { result ≡ with_edge at self edge }
    {
        self.with_line(at, edge.line)
    }

    /// With a line more of a file, if it is this one.
    fn with_line_of(self, file: FileId, at: u32, other: FileId, line: u32) -> Nearest
        ensures { result ≡ with_line_of file at self other line }
    {
        if other == file {
            return self.with_line(at, line);
        }
        self
    }

    /// With a line more.
    fn with_line(self, at: u32, line: u32) -> Nearest
        ensures { result ≡ with_line at self line }
    {
        let Nearest { before, after } = self;
        if line < at {
            let before = later(before, line);
            return Nearest { before, after };
        }
        if at < line {
            let after = earlier(after, line);
            return Nearest { before, after };
        }
        self
    }
}

/// The later of two lines.
fn later(best: u32, line: u32) -> u32
    ensures { result ≡ later best line }
{
    if best < line {
        return line;
    }
    best
}

/// The earlier of two lines, of which the first may be 0 and none.
fn earlier(best: u32, line: u32) -> u32
    ensures { result ≡ earlier best line }
{
    if best == 0 || line < best {
        return line;
    }
    best
}
