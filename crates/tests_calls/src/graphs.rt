//! The graphs of examples.
ghost use Rattle.std.specs.Prelude.{◌≡◌, ◌<◌, length, IfOk, IsTrue};
ghost use Rattle.std.specs.List.{All};
ghost use Rattle.std.specs.List.Sorted.{IsStrictlyIncreasing};
ghost use Rattle.inc_graph.specs.IncludeGraph.{are_rising};
ghost use Rattle.inc_graph.specs.declared.building.Source.{Source};

use inc_cut::Step;
use inc_graph::{Cost, EdgeId, Fixed, Graph, LentMark, Mark, Setting, Source};
use inc_lookup::{DirectiveId, FileId, HeldFiles, Project};
use inc_text::Language;
use std::alloc::Global;
use tests_parts::{Stop, directive_of, file_of, number, split_word};

/// The file with this path, and after it the other one, if the project has it.
fn files_named(
    alloc: Global,
    project: &Project<'_>,
    first: &[u8],
    other: &[u8],
) -> Result<Vec<FileId>, Stop>
    ensures within { IfOk result (λ files. All (λ f. f < length project.now.paths) files.items) }
    ensures rising { IfOk result (λ files. IsStrictlyIncreasing files.items) }
    ensures some { IfOk result (λ files. 0 < length files.items) }
{
    let first = file_of(project, first)?;
    let mut files = Vec::new(alloc);
    files.push(first)?;
    if let Some(other) = project.file(other) {
        if first.index() >= other.index() {
            return Err(Stop);
        }
        files.push(other)?;
    }
    Ok(files)
}

/// The same as sources that are read with the project's own include path.
fn sources_named(
    alloc: Global,
    project: &Project<'_>,
    first: &[u8],
    other: &[u8],
) -> Result<Vec<Source>, Stop>
    ensures within { IfOk result (λ sources. All (λ (s : Source). s.file < length project.now.paths) sources.items) }
    ensures own { IfOk result (λ sources. All (λ (s : Source). s.path < 1) sources.items) }
    ensures rising { IfOk result (λ sources. IsTrue (are_rising sources.items)) }
    ensures some { IfOk result (λ sources. 0 < length sources.items) }
{
    let first = file_of(project, first)?;
    let mut sources = Vec::new(alloc);
    sources.push(Source {
        file: first,
        path: 0,
    })?;
    if let Some(other) = project.file(other) {
        if first.index() >= other.index() {
            return Err(Stop);
        }
        sources.push(Source {
            file: other,
            path: 0,
        })?;
    }
    Ok(sources)
}

/// The graph of the sources `m.c` and `n.c` and the headers `t.h` and `u.h`, of which the second may be missing.
pub fn graph_of(
    alloc: Global,
    project: &Project<'_>,
    held: &mut HeldFiles<'_>,
) -> Result<Graph, Stop>
    ensures { IfOk result (λ graph. graph.files ≡ length project.now.paths) }
{
    let sources = sources_named(alloc, project, b"m.c", b"n.c")?;
    let headers = files_named(alloc, project, b"t.h", b"u.h")?;
    let setting = Setting::new(alloc, 0, Language::C17, &[], &[])?;
    let Ok(graph) = Graph::build(alloc, &*project, held, &sources, &headers, &setting) else {
        return Err(Stop);
    };
    if graph.files() != project.count() {
        return Err(Stop);
    }
    Ok(graph)
}

/// What is fixed and what the others cost, by the lines `fixed LINE PATH` and `cost AMOUNT LINE PATH` of settings.
pub fn fixed_of(
    alloc: Global,
    project: &Project<'_>,
    graph: &Graph,
    settings: &str,
) -> Result<Fixed, Stop>
    requires { graph.now.files ≡ length project.now.paths }
    ensures { IfOk result (λ fixed. length fixed ≡ length graph.now.edges) }
{
    let mut marks = Vec::new(alloc);
    let mut costs = Vec::new(alloc);
    for line in settings.split('\n').skip(1) {
        let (word, rest) = split_word(line);
        match word {
            "fixed" => marks.push(mark_of(alloc, rest)?)?,
            "cost" => costs.push(cost_of(rest)?)?,
            "step" => {}
            _ => return Err(Stop),
        }
    }
    let Ok(fixed) = Fixed::with_costs(alloc, project, graph, &[], &marks, &costs) else {
        return Err(Stop);
    };
    if fixed.edges() != graph.edges().len() {
        return Err(Stop);
    }
    Ok(fixed)
}

/// The mark of `LINE PATH`.
fn mark_of(alloc: Global, directive: &str) -> Result<Mark, Stop> {
    let (line, path) = split_word(directive);
    match Mark::new(Vec::from_slice(alloc, path.as_bytes())?, number(line)?) {
        Some(mark) => Ok(mark),
        None => Err(Stop),
    }
}

/// The cost of `AMOUNT LINE PATH`.
fn cost_of(cost: &str) -> Result<Cost<'_>, Stop> {
    let (amount, directive) = split_word(cost);
    let (line, path) = split_word(directive);
    let mark = LentMark::new(path.as_bytes(), number(line)?);
    match Cost::new(mark, number(amount)?) {
        Some(cost) => Ok(cost),
        None => Err(Stop),
    }
}

/// The steps ahead of the lines `step LINE PATH` of settings.
pub fn path_of(
    alloc: Global,
    project: &Project<'_>,
    graph: &Graph,
    settings: &str,
) -> Result<Vec<Step>, Stop> {
    let mut path = Vec::new(alloc);
    for line in settings.split('\n').skip(1) {
        if let Some(directive) = line.strip_prefix("step ") {
            path.push(Step {
                edge: edge_of(graph, directive_of(project, directive)?)?,
                forward: true,
            })?;
        }
    }
    Ok(path)
}

/// The edge of a directive.
fn edge_of(graph: &Graph, directive: DirectiveId) -> Result<EdgeId, Stop> {
    for edge in graph.edges() {
        if edge.from == directive.file && edge.line == directive.line {
            return Ok(edge.id);
        }
    }
    Err(Stop)
}
