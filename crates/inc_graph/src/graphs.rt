//! The include graph, and what can be read of it.
ghost use Rattle.std.specs.Prelude.{◌≡◌, ◌≤◌, ◌<◌, ◌+◌, length, map, slice_index, slice_range, IfOk};
ghost use Rattle.std.specs.List.{All};
ghost use Rattle.inc_graph.specs.IncludeGraph.{IsSound};
ghost use Rattle.inc_graph.specs.Indexes.{edges_leaving, AreFollowing};
ghost use Rattle.inc_graph.specs.Members.{is_member};
ghost use Rattle.inc_graph.specs.MissingLists.{Missing};
ghost use Rattle.inc_graph.specs.Views.{numbered, seen_parts, AreParts};
ghost use Rattle.inc_lookup.specs.declared.projects.DirectiveId as declared;

use crate::file_sets::FileSet;
use crate::indexes::starts_by_source;
use crate::missing_lists::MissingList;
use inc_lookup::{DirectiveId, FileId};
use std::alloc::{AllocError, Global};
use std::marker::Model;

/// An edge of a graph by its number, its place among the graph's edges from 0. It is used with the graph that it came from.
#[derive(Clone, Copy, Debug, PartialEq, Eq)]
pub struct EdgeId {
    index: u32,
}

impl Model for EdgeId {
    ghost use Rattle.std.specs.Prelude.{ℕ};

    ghost Value = { ℕ };

    ghost view = { λ e. e.index };

    ghost inverse = { λ n. record { index = n } };
}

impl EdgeId {
    /// The edge with this number.
    pub(crate) fn new(index: u32) -> EdgeId
        ensures { result ≡ index }
    {
        EdgeId { index }
    }

    /// The number of the edge.
    pub fn index(self) -> usize
        ensures { result ≡ self }
    {
        self.index as usize
    }
}

/// An include directive whose header is found: it leads from its file to that header.
#[derive(Clone, Copy, Debug, PartialEq, Eq)]
pub struct Edge {
    /// Its number.
    pub id: EdgeId,
    /// The file that holds the directive.
    pub from: FileId,
    /// The file that the directive names.
    pub to: FileId,
    /// The physical line of its `#`, from 1.
    pub line: u32,
}

/// An include directive of which the graph can say nothing.
#[derive(Clone, Copy, Debug, PartialEq, Eq)]
pub struct Blocker {
    /// The file that it is in.
    pub file: FileId,
    /// The physical line of its `#`, from 1.
    pub line: u32,
    /// Why nothing can be said of it.
    pub kind: BlockerKind,
}

/// Why the graph can say nothing of an include directive.
#[derive(Clone, Copy, Debug, PartialEq, Eq)]
pub enum BlockerKind {
    /// Its header name is made by macros.
    Computed,
    /// The language has no such directive, as C has no `#embed`.
    Foreign,
    /// It leads to several files, by how its own file is found: an `#include_next`, or one of a file that is found in several include paths.
    Several,
}

/// What a graph is made of.
#[derive(Drop)]
pub(crate) struct Parts {
    /// How many files the project has.
    pub files: usize,
    pub sources: FileSet,
    pub headers: FileSet,
    /// By the place of the file in the list, then by line, so that those that leave a file are together.
    pub edges: Vec<Edge>,
    pub missing: MissingList,
    pub blockers: Vec<Blocker>,
    /// Where the files define names that no build defines.
    pub definitions: Vec<DirectiveId>,
}

/// The include directives between sources and headers of a project, in whatever group they are. It is used with the project
/// that it was built of. [`TwoWayGraph`](crate::TwoWayGraph) has the edges that lead to a file, too.
#[derive(Drop)]
pub struct Graph {
    parts: Parts,
    /// For each file the place of its first edge, and then how many edges there are.
    leaving: Vec<usize>,
}

impl Model for Graph {
    ghost use Rattle.inc_graph.specs.IncludeGraph as spec;
    ghost use Rattle.inc_graph.specs.Indexes.{IsIndex, edges_leaving};
    ghost use Rattle.inc_graph.specs.Views.{seen_parts, AreParts};

    ghost Value = { spec.Graph };

    ghost view = { λ g. seen_parts g.parts };

    ghost invariant = { λ g. AreParts g.parts
        × IsIndex g.parts.files g.leaving.items g.parts.edges.items (edges_leaving (seen_parts g.parts).edges) };
}

impl Graph {
    /// The graph of these parts, which puts the edges of each file together.
    pub(crate) fn new(alloc: Global, parts: Parts) -> Result<Graph, AllocError>
        requires { AreParts parts }
        ensures { IfOk result (λ graph. graph ≡ seen_parts parts) }
    {
        let leaving = starts_by_source(alloc, &parts.edges, parts.files)?;
        Ok(Graph { parts, leaving })
    }

    /// How many files the project has.
    pub fn files(&self) -> usize
        ensures files { result ≡ self.now.files }
        ensures sound { IsSound self.now }
    {
        self.parts.files
    }

    /// The files that the graph starts from, in the order of the list.
    pub fn sources(&self) -> &[FileId]
        ensures sources { result.now ≡ self.now.sources }
        ensures within { All (λ f. f < self.now.files) result.now }
        ensures some { 0 < length result.now + length self.now.headers }
    {
        self.parts.sources.as_slice()
    }

    /// The files that the chains lead to, in the order of the list. No edge leaves one of them.
    pub fn headers(&self) -> &[FileId]
        ensures headers { result.now ≡ self.now.headers }
        ensures within { All (λ f. f < self.now.files) result.now }
    {
        self.parts.headers.as_slice()
    }

    /// Whether a file is a source.
    #[inline(always)]
    pub fn is_source(&self, file: FileId) -> bool
        ensures { result ≡ is_member file self.now.sources }
    {
        self.parts.sources.contains(file)
    }

    /// Whether a file is a header that the chains lead to.
    #[inline(always)]
    pub fn is_header(&self, file: FileId) -> bool
        ensures { result ≡ is_member file self.now.headers }
    {
        self.parts.headers.contains(file)
    }

    /// The file that the first edge leaves, or where there is no edge a header or a source: a file for what has to name one.
    pub fn first_file(&self) -> FileId
        ensures { result < self.now.files }
    {
        match self.edges().first() {
            Some(edge) => edge.from,
            None => self.first_end(),
        }
    }

    /// The first header, or where there is none the first source.
    fn first_end(&self) -> FileId
        ensures { result < self.now.files }
    {
        match self.headers().first() {
            Some(header) => *header,
            None => self.sources()[0],
        }
    }

    /// The edges, in order of their numbers: by the place of the file in the list, then by line.
    pub fn edges(&self) -> &[Edge]
        ensures edges { result.now ≡ numbered self.now.edges }
        ensures sound { IsSound self.now }
    {
        &self.parts.edges
    }

    /// The edges that leave a file, in order of their numbers; none for a file that no source reaches.
    pub fn leaving(&self, file: FileId) -> &[Edge]
        requires { file < self.now.files }
        ensures { result.now ≡ edges_leaving self.now.edges file }
    {
        let place = file.index();
        &self.parts.edges[self.leaving[place]..self.leaving[place + 1]]
    }

    /// The number of the first of the edges that leave a file; the numbers of the others follow it.
    #[inline(always)]
    pub fn first_leaving(&self, file: FileId) -> usize
        requires { file < self.now.files }
        ensures { AreFollowing result (edges_leaving self.now.edges file) }
    {
        self.leaving[file.index()]
    }

    /// The direct include directives whose header is not found, by file and line.
    pub fn missing(&self) -> &MissingList
        ensures missing { result.now ≡ self.now.missing }
        ensures within { All (λ (m : Missing). m.file < self.now.files) result.now }
    {
        &self.parts.missing
    }

    /// The include directives of which the graph can say nothing, by file and line.
    pub fn blockers(&self) -> &[Blocker]
        ensures blockers { result.now ≡ self.now.blockers }
        ensures within { All (λ (b : Blocker). b.file < self.now.files) result.now }
    {
        &self.parts.blockers
    }

    /// Where the files that the graph was built of define names that no build defines, by file and line, in whatever group.
    pub fn definitions(&self) -> &[DirectiveId]
        ensures definitions { result.now ≡ self.now.definitions }
        ensures within { All (λ (d : declared.DirectiveId). d.file < self.now.files) result.now }
    {
        &self.parts.definitions
    }
}
