//! Answers for include graphs and marks.
use crate::escapes::bytes_of;
use crate::lookups::{held_file, project_of};
use crate::printing::add_printed;
use inc_graph::{BlockerKind, Edge, EdgeId, Graph, Mark, Setting, Source, TwoWayGraph};
use inc_lookup::{HeldFiles, IncludePath, SourceFile};
use inc_text::Language;
use std::alloc::Global;
use tests_parts::{Stop, add, add_number, number, refusing, split_word};

/// The files of an example: `@PATH` on a line begins one, and the lines after it are what it holds.
fn files_of(alloc: Global, example: &str) -> Result<Vec<SourceFile>, Stop> {
    let mut files = Vec::new(alloc);
    for file in example.split("\n@").skip(1) {
        let (path, text) = file.split_once('\n').unwrap_or((file, ""));
        let mut bytes = Vec::from_slice(alloc, text.as_bytes())?;
        if !bytes.is_empty() {
            bytes.push(b'\n')?;
        }
        files.push(held_file(alloc, path.as_bytes(), bytes)?)?;
    }
    Ok(files)
}

/// Adds the graph of the source `m.c` and the header `t.h`, with the search directories `inc`, `two` and `three`.
pub fn add_graph(
    alloc: Global,
    example: &str,
    language: Language,
    out: &mut Vec<u8>,
) -> Result<(), Stop> {
    let graph = graph_of(alloc, &files_of(alloc, example)?, language)?;
    add_graph_of(alloc, &graph, out)
}

/// Adds the graph of the sources `m.c`, and `n.c` or `m.c` again, and the header `t.h`: the first with the search directories `inc`, `two` and
/// `three`, and the second with `four` and `inc`.
pub fn add_two_paths(
    alloc: Global,
    example: &str,
    language: Language,
    out: &mut Vec<u8>,
) -> Result<(), Stop> {
    let graph = graph_of_two_paths(alloc, &files_of(alloc, example)?, language)?;
    add_graph_of(alloc, &graph, out)
}

/// Adds a graph.
fn add_graph_of(alloc: Global, graph: &Graph, out: &mut Vec<u8>) -> Result<(), Stop> {
    let two_way = TwoWayGraph::new(alloc, graph)?;
    add_parts(alloc, graph, &two_way, out)?;
    add_chains(alloc, graph, out)
}

/// Adds the parts of a graph.
fn add_parts(
    alloc: Global,
    graph: &Graph,
    two_way: &TwoWayGraph<'_>,
    out: &mut Vec<u8>,
) -> Result<(), Stop> {
    let _refusing = refusing(alloc)?;
    add(out, b"files ")?;
    add_number(out, graph.files(), b"\n")?;
    add_edges(graph.edges(), out)?;
    add_ends(two_way, out)?;
    add_missing(graph, out)?;
    add_blockers(graph, out)
}

fn graph_of(alloc: Global, files: &[SourceFile], language: Language) -> Result<Graph, Stop> {
    let mut held = HeldFiles { files };
    let paths = held.paths(alloc)?;
    let project = project_of(alloc, &paths)?;
    let (Some(source), Some(header)) = (project.file(b"m.c"), project.file(b"t.h")) else {
        return Err(Stop);
    };
    let setting = Setting::new(alloc, 0, language, &[], &[])?;
    let sources = [Source {
        file: source,
        path: 0,
    }];
    match Graph::build(alloc, &project, &mut held, &sources, &[header], &setting) {
        Ok(graph) => Ok(graph),
        Err(_) => Err(Stop),
    }
}

fn graph_of_two_paths(
    alloc: Global,
    files: &[SourceFile],
    language: Language,
) -> Result<Graph, Stop> {
    let mut held = HeldFiles { files };
    let paths = held.paths(alloc)?;
    let project = project_of(alloc, &paths)?;
    let (Some(first), Some(header)) = (project.file(b"m.c"), project.file(b"t.h")) else {
        return Err(Stop);
    };
    let second = project.file(b"n.c").unwrap_or(first);
    if second.index() < first.index() {
        return Err(Stop);
    }
    let Ok(other) = IncludePath::new(alloc, 0, 0, &[b"four", b"inc"]) else {
        return Err(Stop);
    };
    let others = [other];
    let setting = Setting::new(alloc, 0, language, &[], &[])?.with_paths(&others);
    let sources = [
        Source {
            file: first,
            path: 0,
        },
        Source {
            file: second,
            path: 1,
        },
    ];
    match Graph::build(alloc, &project, &mut held, &sources, &[header], &setting) {
        Ok(graph) => Ok(graph),
        Err(_) => Err(Stop),
    }
}

/// Adds edges by their numbers and those of their files.
fn add_edges(edges: &[Edge], out: &mut Vec<u8>) -> Result<(), Stop> {
    for edge in edges {
        add(out, b"edge ")?;
        add_number(out, edge.id.index(), b": ")?;
        add_number(out, edge.from.index(), b" > ")?;
        add_number(out, edge.to.index(), b" on line ")?;
        add_number(out, edge.line as usize, b"\n")?;
    }
    Ok(())
}

/// Adds the edges that leave the source and the header, and those that enter them.
fn add_ends(graph: &TwoWayGraph<'_>, out: &mut Vec<u8>) -> Result<(), Stop> {
    let (Some(source), Some(header)) = (graph.sources().first(), graph.headers().first()) else {
        return Err(Stop);
    };
    add(out, b"leaving the source:")?;
    add_leaving(graph.leaving(*source), out)?;
    add(out, b"leaving the header:")?;
    add_leaving(graph.leaving(*header), out)?;
    add(out, b"entering the source:")?;
    add_numbers(graph.entering(*source), out)?;
    add(out, b"entering the header:")?;
    add_numbers(graph.entering(*header), out)
}

fn add_leaving(edges: &[Edge], out: &mut Vec<u8>) -> Result<(), Stop> {
    for edge in edges {
        add(out, b" ")?;
        add_number(out, edge.id.index(), b"")?;
    }
    add(out, b"\n")
}

fn add_numbers(edges: &[EdgeId], out: &mut Vec<u8>) -> Result<(), Stop> {
    for edge in edges {
        add(out, b" ")?;
        add_number(out, edge.index(), b"")?;
    }
    add(out, b"\n")
}

/// Adds the includes that are missing.
fn add_missing(graph: &Graph, out: &mut Vec<u8>) -> Result<(), Stop> {
    let missing = graph.missing();
    for place in 0..missing.len() {
        let directive = missing.at(place);
        add(out, b"missing in ")?;
        add_number(out, directive.file.index(), b" on line ")?;
        add_number(out, directive.line as usize, b"\n")?;
    }
    Ok(())
}

/// Adds the includes that cannot be resolved.
fn add_blockers(graph: &Graph, out: &mut Vec<u8>) -> Result<(), Stop> {
    for blocker in graph.blockers() {
        add(
            out,
            match blocker.kind {
                BlockerKind::Computed => b"computed in ",
                BlockerKind::Foreign => b"foreign in ",
                BlockerKind::Several => b"several in ",
            },
        )?;
        add_number(out, blocker.file.index(), b" on line ")?;
        add_number(out, blocker.line as usize, b"\n")?;
    }
    Ok(())
}

/// Adds the first of the shortest chains, and that of each edge that ends one.
fn add_chains(alloc: Global, graph: &Graph, out: &mut Vec<u8>) -> Result<(), Stop> {
    match graph.shortest(alloc)? {
        None => add(out, b"no chain\n")?,
        Some(chain) => {
            add(out, b"shortest:")?;
            add_numbers(chain.edges.as_slice(), out)?;
        }
    }
    for chain in &graph.chains_by_last(alloc)? {
        add(out, b"chain:")?;
        add_numbers(chain.edges.as_slice(), out)?;
    }
    Ok(())
}

/// Adds, for each line `LINE PATH`, the mark of these, if they make one.
pub fn add_marks(alloc: Global, example: &str, out: &mut Vec<u8>) -> Result<(), Stop> {
    for line in example.split('\n').skip(1) {
        let (line, path) = split_word(line);
        let path = bytes_of(alloc, path)?;
        let _refusing = refusing(alloc)?;
        match Mark::new(path, number(line)?) {
            Some(mark) => add_mark(&mark, out)?,
            None => add(out, b"none\n")?,
        }
    }
    Ok(())
}

fn add_mark(mark: &Mark, out: &mut Vec<u8>) -> Result<(), Stop> {
    add_number(out, mark.line() as usize, b" ")?;
    add_printed(out, mark.path())?;
    add(out, b"\n")
}
