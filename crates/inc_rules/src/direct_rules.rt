//! Files that include what they may not, or do not include what they must.
ghost use Rattle.std.specs.Prelude.{◌≡◌, ◌++◌, ◌∷◌, ◌<◌, ◌≤◌, ◌&&◌, [], false, filter, flat_map, length, map, nat_lt, not, slice_get, slice_index, slice_index_or, IfOk, IfSome, OnOk};
ghost use Rattle.std.specs.List.{All, list_any};
ghost use Rattle.std.specs.Option.{option_map_or};
ghost use Rattle.inc_graph.specs.declared.graphs.Edge as graphs;
ghost use Rattle.inc_lookup.specs.Projects.{Layout};
ghost use Rattle.inc_rules.specs.Judging.{across_chain, across_chains, includes, includes_first};
ghost use Rattle.inc_rules.specs.Lines.{AreOpens, AreRight};
ghost use Rattle.inc_rules.specs.Rules.{Rule as Asked};

use inc_graph::{Edge, EdgeId, Graph};
use inc_lookup::FileId;
use std::alloc::{AllocError, Global};

/// Whether a file has a flag.
pub(crate) fn has_flag(flags: &[bool], file: FileId) -> bool
    ensures { result ≡ slice_index_or flags.now file false }
{
    match flags.get(file.index()) {
        Some(flag) => *flag,
        None => false,
    }
}

/// The edges from some files to files with a flag, each as a chain.
pub(crate) fn across_chains(
    alloc: Global,
    graph: &Graph,
    left: &[FileId],
    right: &[bool],
) -> Result<Vec<Vec<EdgeId>>, AllocError>
    requires { All (λ f. f < graph.now.files) left.now }
    ensures { (layout : Layout) (r : Asked) → AreRight graph.now.files layout r right.now →
        IfOk result (λ chains. map (λ c. c.items) chains.items ≡ flat_map (across_chains layout graph.now r) left.now) }
{
    let mut chains = Vec::new(alloc);
    for file in left {
        push_across(&mut chains, alloc, graph, *file, right)?;
    }
    Ok(chains)
}

/// Adds those of a file.
fn push_across(
    chains: &mut Vec<Vec<EdgeId>>,
    alloc: Global,
    graph: &Graph,
    file: FileId,
    right: &[bool],
) -> Result<(), AllocError>
    requires { file < graph.now.files }
    ensures { (layout : Layout) (r : Asked) → AreRight graph.now.files layout r right.now →
        OnOk result (map (λ c. c.items) chains.new.items ≡ map (λ c. c.items) chains.old.items ++ across_chains layout graph.now r file) }
{
    // That its edges lead to files of the graph.
    let _files = graph.files();
    push_edges(chains, alloc, graph.leaving(file), right)
}

/// Adds those of these edges that lead to files with a flag.
fn push_edges(
    chains: &mut Vec<Vec<EdgeId>>,
    alloc: Global,
    edges: &[Edge],
    right: &[bool],
) -> Result<(), AllocError>
    ensures { (layout : Layout) (r : Asked) → AreRight (length right.now) layout r right.now →
        All (λ (e : graphs.Edge). e.to < length right.now) edges.now →
        OnOk result (map (λ c. c.items) chains.new.items ≡ map (λ c. c.items) chains.old.items ++ flat_map (across_chain layout r) edges.now) }
{
    for edge in edges {
        push_edge(chains, alloc, edge, right)?;
    }
    Ok(())
}

/// Adds an edge if it leads to a file with a flag.
fn push_edge(
    chains: &mut Vec<Vec<EdgeId>>,
    alloc: Global,
    edge: &Edge,
    right: &[bool],
) -> Result<(), AllocError>
    ensures { (layout : Layout) (r : Asked) → AreRight (length right.now) layout r right.now → edge.now.to < length right.now →
        OnOk result (map (λ c. c.items) chains.new.items ≡ map (λ c. c.items) chains.old.items ++ across_chain layout r edge.now) }
{
    if has_flag(right, edge.to) {
        chains.push(Vec::from_slice(alloc, &[edge.id])?)?;
    }
    Ok(())
}

/// Those of some files that include no file with a flag.
pub(crate) fn without_include(
    alloc: Global,
    graph: &Graph,
    left: &[FileId],
    right: &[bool],
) -> Result<Vec<FileId>, AllocError>
    requires { All (λ f. f < graph.now.files) left.now }
    ensures { (layout : Layout) (r : Asked) → AreRight graph.now.files layout r right.now →
        IfOk result (λ files. files.items ≡ filter (λ f. not (includes layout graph.now r f)) left.now) }
{
    let mut files = Vec::new(alloc);
    for file in left {
        push_without(&mut files, graph, *file, right)?;
    }
    Ok(files)
}

/// Adds a file if it includes none with a flag.
fn push_without(
    files: &mut Vec<FileId>,
    graph: &Graph,
    file: FileId,
    right: &[bool],
) -> Result<(), AllocError>
    requires { file < graph.now.files }
    ensures { (layout : Layout) (r : Asked) → AreRight graph.now.files layout r right.now →
        OnOk result (files.new.items ≡ files.old.items ++ filter (λ f. not (includes layout graph.now r f)) (file ∷ [])) }
{
    if !includes(graph, file, right) {
        files.push(file)?;
    }
    Ok(())
}

/// Whether a file includes one with a flag.
fn includes(graph: &Graph, file: FileId, right: &[bool]) -> bool
    requires { file < graph.now.files }
    ensures { (layout : Layout) (r : Asked) → AreRight graph.now.files layout r right.now → result ≡ includes layout graph.now r file }
{
    // That its edges lead to files of the graph.
    let _files = graph.files();
    lead_to_flag(graph.leaving(file), right)
}

/// Whether one of these edges leads to a file with a flag.
fn lead_to_flag(edges: &[Edge], right: &[bool]) -> bool
    ensures { result ≡ list_any (λ (e : graphs.Edge). slice_index_or right.now e.to false) edges.now }
{
    edges.iter().any(|edge| has_flag(right, edge.to))
}

/// Those of some files whose first directive includes no file with a flag.
pub(crate) fn without_first(
    alloc: Global,
    graph: &Graph,
    opens: &[u32],
    left: &[FileId],
    right: &[bool],
) -> Result<Vec<FileId>, AllocError>
    requires left { All (λ f. f < graph.now.files) left.now }
    requires opens { AreOpens graph.now opens.now }
    ensures { (layout : Layout) (r : Asked) → AreRight graph.now.files layout r right.now →
        IfOk result (λ files. files.items ≡ filter (λ f. not (includes_first layout graph.now r f)) left.now) }
{
    let mut files = Vec::new(alloc);
    for file in left {
        push_without_first(&mut files, graph, opens, *file, right)?;
    }
    Ok(files)
}

/// Adds a file if its first directive includes none with a flag.
fn push_without_first(
    files: &mut Vec<FileId>,
    graph: &Graph,
    opens: &[u32],
    file: FileId,
    right: &[bool],
) -> Result<(), AllocError>
    requires file { file < graph.now.files }
    requires opens { AreOpens graph.now opens.now }
    ensures { (layout : Layout) (r : Asked) → AreRight graph.now.files layout r right.now →
        OnOk result (files.new.items ≡ files.old.items ++ filter (λ f. not (includes_first layout graph.now r f)) (file ∷ [])) }
{
    if !includes_first(graph, opens, file, right) {
        files.push(file)?;
    }
    Ok(())
}

/// Whether the first directive of a file includes one with a flag.
fn includes_first(graph: &Graph, opens: &[u32], file: FileId, right: &[bool]) -> bool
    requires file { file < graph.now.files }
    requires opens { AreOpens graph.now opens.now }
    ensures { (layout : Layout) (r : Asked) → AreRight graph.now.files layout r right.now → result ≡ includes_first layout graph.now r file }
{
    // That its edges lead to files of the graph.
    let _files = graph.files();
    first_leads_to_flag(graph.leaving(file), opens[file.index()], right)
}

/// The line of an edge.
fn line_of(edge: &Edge) -> u32
    ensures line { result ≡ edge.now.line }
    ensures short { edge.now.line ≤ 4_294_967_295 }
{
    edge.line
}

/// Whether the first of these edges leads to a file with a flag, and is not after this line.
fn first_leads_to_flag(edges: &[Edge], line: u32, right: &[bool]) -> bool
    ensures leads { result ≡ option_map_or (λ (e : graphs.Edge). slice_index_or right.now e.to false && not (nat_lt line e.line))
        (slice_get edges.now 0) false }
    ensures short { IfSome (slice_get edges.now 0) (λ (e : graphs.Edge). e.line ≤ 4_294_967_295) }
{
    match edges.first() {
        Some(edge) => {
            let first = line_of(edge);
            has_flag(right, edge.to) && first <= line
        }
        None => false,
    }
}
