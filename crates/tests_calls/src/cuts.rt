//! Answers for cuts by each search.
ghost use Rattle.std.specs.Prelude.{◌≡◌, ◌<◌, nat_lt, length, IfOk, OnOk};
ghost use Rattle.std.specs.List.{All, list_all};

use crate::certificates::add_verdicts;
use crate::edges::{add_edge, add_edges};
use crate::graphs::{fixed_of, graph_of, path_of};
use crate::looking::Looking;
use crate::searches::{Failing, Noting, Turning};
use inc_check::{Certificate, Verdict, certify, check, read_certificate, write_certificate};
use inc_cut::{
    CountedChains, CutAnswer, DepthSearch, LevelSearch, PathSearch, PhaseSearch, smallest_cut,
};
use inc_graph::{Counted, EdgeId, Fixed, Graph};
use inc_lookup::{HeldFiles, Project};
use std::alloc::Global;
use tests_parts::{Stop, add, add_number, files_of, project_of, settings_of};

/// What a cut is asked of.
#[derive(Drop)]
pub struct Asked<'a> {
    pub project: &'a Project<'a>,
    pub graph: &'a Graph,
    pub fixed: &'a Fixed,
}

/// What is printed of a graph.
#[derive(Clone, Copy)]
pub enum Printed {
    /// Its cut by each search, and what the checker says.
    Cuts,
    /// Its certificate by each search.
    Certificates,
    /// How a cut ends whose search has no memory.
    Failures,
    /// The first path of a search by levels.
    FirstPath,
    /// Its certificate by a search that looks at a path first.
    Looked,
    /// What the checker says of certificates.
    Verdicts,
}

/// Adds the answer of an example about the graph of its files.
pub fn add_asked(
    alloc: Global,
    example: &str,
    printed: Printed,
    out: &mut Vec<u8>,
) -> Result<(), Stop> {
    let (front, certificates) = example.split_once("\n--\n").unwrap_or((example, ""));
    let files = files_of(alloc, front)?;
    let mut held = HeldFiles { files: &files };
    let paths = held.paths(alloc)?;
    let project = project_of(alloc, &paths, &[])?;
    let graph = graph_of(alloc, &project, &mut held)?;
    let fixed = fixed_of(alloc, &project, &graph, settings_of(front))?;
    let asked = Asked {
        project: &project,
        graph: &graph,
        fixed: &fixed,
    };
    match printed {
        Printed::Cuts | Printed::Certificates => add_by_all(alloc, &asked, printed, out),
        Printed::Failures => add_failures(alloc, &asked, out),
        Printed::FirstPath => add_first_path(alloc, &asked, out),
        Printed::Looked => add_looked(alloc, &asked, settings_of(front), out),
        Printed::Verdicts => add_verdicts(alloc, &asked, certificates, out),
    }
}

/// Adds the cut by each search: the text by the first, and that the others give the same, or their text.
fn add_by_all(
    alloc: Global,
    asked: &Asked<'_>,
    printed: Printed,
    out: &mut Vec<u8>,
) -> Result<(), Stop>
    requires files { asked.now.graph.now.files ≡ length asked.now.project.now.paths }
    requires fixed { length asked.now.fixed.now ≡ length asked.now.graph.now.edges }
{
    let first = text_by(alloc, asked, &mut DepthSearch, printed)?;
    add(out, &first)?;
    let levels = text_by(alloc, asked, &mut LevelSearch, printed)?;
    add_other(b"breadth first: ", &first, &levels, out)?;
    let phases = text_by(alloc, asked, &mut PhaseSearch::new(alloc), printed)?;
    add_other(b"in phases: ", &first, &phases, out)?;
    let turns = text_by(alloc, asked, &mut Turning { is_deep: false }, printed)?;
    add_other(b"by turns: ", &first, &turns, out)
}

/// Adds the name of another search, and its text if it is not that of the first.
fn add_other(name: &[u8], first: &[u8], text: &[u8], out: &mut Vec<u8>) -> Result<(), Stop> {
    add(out, name)?;
    add(out, if text == first { b"the same\n" } else { text })
}

/// The cut by a search.
fn text_by<S: PathSearch>(
    alloc: Global,
    asked: &Asked<'_>,
    search: &mut S,
    printed: Printed,
) -> Result<Vec<u8>, Stop>
    requires files { asked.now.graph.now.files ≡ length asked.now.project.now.paths }
    requires fixed { length asked.now.fixed.now ≡ length asked.now.graph.now.edges }
{
    let mut out = Vec::new(alloc);
    match &smallest_cut(alloc, asked.graph, asked.fixed, search)? {
        CutAnswer::Cut { edges, chains } => {
            let certificate = certificate_of(alloc, asked, edges, chains)?;
            if let Printed::Certificates = printed {
                add_text(alloc, asked, &certificate, &mut out)?;
            } else {
                add(&mut out, b"cut")?;
                add_edges(asked.project, asked.graph, edges, &mut out)?;
                add(&mut out, b"\n")?;
                add_verdict(alloc, asked, &certificate, &mut out)?;
            }
        }
        CutAnswer::Fixed { chain } => {
            add(&mut out, b"no cut:")?;
            add_edges(asked.project, asked.graph, chain.edges.as_slice(), &mut out)?;
            add(&mut out, b"\n")?;
        }
    }
    Ok(out)
}

/// The certificate of a cut.
pub fn certificate_of<'a>(
    alloc: Global,
    asked: &Asked<'a>,
    edges: &[EdgeId],
    chains: &CountedChains,
) -> Result<Certificate<'a>, Stop>
    requires { asked.now.graph.now.files ≡ length asked.now.project.now.paths }
{
    if !are_edges(asked.graph.edges().len(), edges) {
        return Err(Stop);
    }
    let counted = counted_in(alloc, asked.graph, chains)?;
    Ok(certify(alloc, asked.project, asked.graph, edges, &counted)?)
}

/// Whether an edge is one of so many.
fn is_edge(count: usize, edge: EdgeId) -> bool
    ensures { result ≡ nat_lt edge count }
{
    edge.index() < count
}

/// Whether all of these edges are.
fn are_edges(count: usize, edges: &[EdgeId]) -> bool
    ensures { result ≡ list_all (λ i. nat_lt i count) edges.now }
{
    edges.iter().all(|edge| is_edge(count, *edge))
}

/// Chains in memory of their own.
fn counted_in(alloc: Global, graph: &Graph, chains: &CountedChains) -> Result<Vec<Counted>, Stop>
    ensures { IfOk result (λ list. All (λ (c : Counted). All (λ i. i < length graph.now.edges) c.chain.edges)
        list.items) }
{
    let mut list = Vec::new(alloc);
    for index in 0..chains.len() {
        add_counted(graph, chains.chain(alloc, index)?, &mut list)?;
    }
    Ok(list)
}

/// Adds a chain to others, if the graph has all of its edges.
fn add_counted(graph: &Graph, counted: Counted, list: &mut Vec<Counted>) -> Result<(), Stop>
    ensures { OnOk result (All (λ (c : Counted). All (λ i. i < length graph.now.edges) c.chain.edges) list.old.items →
        All (λ (c : Counted). All (λ i. i < length graph.now.edges) c.chain.edges) list.new.items) }
{
    if !are_edges(graph.edges().len(), counted.chain.edges.as_slice()) {
        return Err(Stop);
    }
    list.push(counted)?;
    Ok(())
}

/// Adds the text of a certificate, and what the checker says of it once it is read.
fn add_text(
    alloc: Global,
    asked: &Asked<'_>,
    certificate: &Certificate<'_>,
    out: &mut Vec<u8>,
) -> Result<(), Stop>
    requires files { asked.now.graph.now.files ≡ length asked.now.project.now.paths }
    requires fixed { length asked.now.fixed.now ≡ length asked.now.graph.now.edges }
{
    let text = write_certificate(alloc, certificate)?;
    add(out, &text)?;
    let Ok(read) = read_certificate(alloc, &text) else {
        return Err(Stop);
    };
    add_verdict(alloc, asked, &read, out)
}

/// Adds what the checker says of a certificate.
pub fn add_verdict(
    alloc: Global,
    asked: &Asked<'_>,
    certificate: &Certificate<'_>,
    out: &mut Vec<u8>,
) -> Result<(), Stop>
    requires files { asked.now.graph.now.files ≡ length asked.now.project.now.paths }
    requires fixed { length asked.now.fixed.now ≡ length asked.now.graph.now.edges }
{
    match check(alloc, asked.project, asked.graph, asked.fixed, certificate)? {
        Verdict::Yes => add(out, b"yes\n"),
        Verdict::No(reason) => add(out, format!(in alloc; "no, {reason:?}\n")?.as_bytes()),
    }
}

/// Adds how cuts end whose search has no memory when it is asked for the first time, for the second time, and so on until it has.
fn add_failures(alloc: Global, asked: &Asked<'_>, out: &mut Vec<u8>) -> Result<(), Stop>
    requires { length asked.now.fixed.now ≡ length asked.now.graph.now.edges }
{
    for left in 1..9 {
        add_number(out, left as usize, b": ")?;
        match smallest_cut(alloc, asked.graph, asked.fixed, &mut Failing { left }) {
            Ok(_) => return add(out, b"answered\n"),
            Err(_) => add(out, b"out of memory\n")?,
        }
    }
    Ok(())
}

/// Adds the steps of the first path that a search by levels finds for a cut.
fn add_first_path(alloc: Global, asked: &Asked<'_>, out: &mut Vec<u8>) -> Result<(), Stop>
    requires { length asked.now.fixed.now ≡ length asked.now.graph.now.edges }
{
    let mut search = Noting {
        first: Vec::new(alloc),
    };
    let _ = smallest_cut(alloc, asked.graph, asked.fixed, &mut search)?;
    for step in &search.first {
        add(out, if step.forward { b"" } else { b"back over " })?;
        add_edge(asked.project, asked.graph, step.edge, out)?;
        add(out, b"\n")?;
    }
    Ok(())
}

/// Adds how often a search gave the path of the settings, which it looked at first, and the certificate by it.
fn add_looked(
    alloc: Global,
    asked: &Asked<'_>,
    settings: &str,
    out: &mut Vec<u8>,
) -> Result<(), Stop>
    requires files { asked.now.graph.now.files ≡ length asked.now.project.now.paths }
    requires fixed { length asked.now.fixed.now ≡ length asked.now.graph.now.edges }
{
    let path = path_of(alloc, asked.project, asked.graph, settings)?;
    let mut search = Looking {
        path: &path,
        times: 0,
    };
    let text = text_by(alloc, asked, &mut search, Printed::Certificates)?;
    add_number(out, search.times as usize, b" by looking\n")?;
    add(out, &text)
}
