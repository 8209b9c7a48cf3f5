//! The part of a graph between some of its files and others.
ghost use Rattle.std.specs.Prelude.{◌≡◌, ◌<◌, ◌≤◌, ◌++◌, ◌∷◌, [], List, length, map, IfOk, OnOk};
ghost use Rattle.std.specs.List.{All};
ghost use Rattle.inc_graph.specs.Between.{between, kept_of, numbers_between};
ghost use Rattle.inc_graph.specs.IncludeGraph as spec;
ghost use Rattle.inc_graph.specs.IncludeGraph.{most_directives, AreEnds};
ghost use Rattle.inc_graph.specs.Views.{numbered, seen_edge};
ghost use Rattle.inc_graph.specs.declared.graphs.Edge as declared;

use crate::file_sets::FileSet;
use crate::graphs::{Edge, EdgeId, Graph, Parts};
use crate::missing_lists::MissingList;
use inc_lookup::FileId;
use std::alloc::{AllocError, Global};

/// The part of a graph between some of its files and others.
#[derive(Drop)]
pub struct Between {
    /// The part, whose edges have numbers of their own.
    pub graph: Graph,
    /// The number that each of its edges has in the whole graph.
    pub numbers: Vec<EdgeId>,
}

impl Graph {
    /// The part of the graph that leads from the files of `from` to those of `to`, which are its sources and headers: its edges are those
    /// that leave none of `to`. Of a graph without headers each such question is answered without a file being read again.
    pub fn between(
        &self,
        alloc: Global,
        from: &[FileId],
        to: &[FileId],
    ) -> Result<Between, AllocError>
        requires { AreEnds self.now.files from.now to.now }
        ensures graph { IfOk result (λ b. b.graph ≡ between from.now to.now self.now) }
        ensures numbers { IfOk result (λ b. b.numbers.items ≡ numbers_between to.now self.now) }
        ensures long { IfOk result (λ b. length b.numbers.items ≡ length b.graph.edges) }
        ensures within { IfOk result (λ b. All (λ i. i < length self.now.edges) b.numbers.items) }
    {
        let files = self.files();
        let all = self.edges();
        let sources = FileSet::new(alloc, files, from)?;
        let headers = FileSet::new(alloc, files, to)?;
        let mut numbers = Vec::with_capacity(alloc, all.len())?;
        let edges = edges_before(alloc, all, &headers, &mut numbers)?;
        let graph = Graph::new(
            alloc,
            Parts {
                files,
                sources,
                headers,
                edges,
                missing: MissingList::new(alloc),
                blockers: Vec::new(alloc),
                definitions: Vec::new(alloc),
            },
        )?;
        Ok(Between { graph, numbers })
    }
}

/// The edges that leave none of the headers, with their places among these as numbers. Puts the numbers that they had into a list.
fn edges_before(
    alloc: Global,
    edges: &[Edge],
    headers: &FileSet,
    numbers: &mut Vec<EdgeId>,
) -> Result<Vec<Edge>, AllocError>
    requires few { length edges.now ≤ most_directives }
    requires none { numbers.old.items ≡ [] }
    ensures edges { IfOk result (λ kept. kept.items ≡ numbered (map seen_edge (kept_of headers.now edges.now))) }
    ensures numbers { OnOk result (numbers.new.items ≡ map (λ (e : declared.Edge). e.id) (kept_of headers.now edges.now)) }
{
    let mut kept = Vec::with_capacity(alloc, edges.len())?;
    for edge in edges {
        if !headers.contains(edge.from) {
            keep_edge(&mut kept, numbers, edge)?;
        }
    }
    Ok(kept)
}

/// Adds an edge with its place as its number, and the number that it had to a list of these.
fn keep_edge(kept: &mut Vec<Edge>, numbers: &mut Vec<EdgeId>, edge: &Edge) -> Result<(), AllocError>
    requires { length kept.old.items < most_directives }
    ensures edges { OnOk result ((es : List spec.Edge) → kept.old.items ≡ numbered es →
        kept.new.items ≡ numbered (es ++ seen_edge edge.now ∷ [])) }
    ensures numbers { OnOk result (numbers.new.items ≡ numbers.old.items ++ edge.now.id ∷ []) }
{
    push_numbered(kept, edge)?;
    numbers.push(edge.id)?;
    Ok(())
}

/// Adds an edge with its place as its number.
fn push_numbered(edges: &mut Vec<Edge>, edge: &Edge) -> Result<(), AllocError>
    requires { length edges.old.items < most_directives }
    ensures { OnOk result ((es : List spec.Edge) → edges.old.items ≡ numbered es →
        edges.new.items ≡ numbered (es ++ seen_edge edge.now ∷ [])) }
{
    let id = EdgeId::new(edges.len() as u32);
    edges.push(Edge {
        id,
        from: edge.from,
        to: edge.to,
        line: edge.line,
    })?;
    Ok(())
}
