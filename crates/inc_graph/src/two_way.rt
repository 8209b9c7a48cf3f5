//! Graphs whose edges can be followed back.
ghost use Rattle.std.specs.Prelude.{◌≡◌, ◌<◌, length, IfOk};
ghost use Rattle.std.specs.List.{All};
ghost use Rattle.inc_graph.specs.Chains.{target};
ghost use Rattle.inc_graph.specs.IncludeGraph.{IsSound};
ghost use Rattle.inc_graph.specs.Indexes.{edges_leaving, edges_entering, AreFollowing};
ghost use Rattle.inc_graph.specs.Members.{is_member};
ghost use Rattle.inc_graph.specs.Views.{numbered};

use crate::graphs::{Edge, EdgeId, Graph};
use crate::indexes::{ids_by_target, starts_by_target, targets_of};
use inc_lookup::FileId;
use std::alloc::{AllocError, Global};
use std::marker::Model;

/// A graph with the edges that lead to each file. It takes four bytes an edge, and the time to sort them, which a walk ahead alone saves.
#[derive(Drop)]
pub struct TwoWayGraph<'g> {
    graph: &'g Graph,
    /// The edges by the file that they lead to, then by number.
    entering: Vec<EdgeId>,
    /// For each file the place of the first edge that leads to it, and then how many edges there are.
    entered: Vec<usize>,
    /// The file that each edge leads to, once they are listed.
    targets: Vec<FileId>,
}

impl<'g> Model for TwoWayGraph<'g> {
    ghost use Rattle.inc_graph.specs.IncludeGraph as spec;
    ghost use Rattle.inc_graph.specs.Indexes.{IsIndex, AreTargets, edges_entering};

    ghost Value = { spec.Graph };

    ghost view = { λ g. g.graph.now };

    ghost invariant = { λ g. IsIndex g.graph.now.files g.entered.items g.entering.items (edges_entering g.graph.now.edges)
        × AreTargets g.graph.now.edges g.targets.items };
}

impl<'g> TwoWayGraph<'g> {
    /// A graph with the edges that lead to each file.
    pub fn new(alloc: Global, graph: &'g Graph) -> Result<TwoWayGraph<'g>, AllocError>
        ensures { IfOk result (λ two_way. two_way ≡ graph.now) }
    {
        let entered = starts_by_target(alloc, graph.edges(), graph.files())?;
        let entering = ids_by_target(alloc, graph.edges(), graph.files(), &entered)?;
        Ok(TwoWayGraph {
            graph,
            entering,
            entered,
            targets: Vec::new(alloc),
        })
    }

    /// Lists the files that the edges lead to, for walks that go along many edges: they then read these files alone and not the whole edges,
    /// which take four times the memory.
    pub fn list_targets(&mut self, alloc: Global) -> Result<(), AllocError>
        ensures { self.new ≡ self.old }
    {
        self.targets = targets_of(alloc, self.graph.edges())?;
        Ok(())
    }

    /// The edges that lead to a file, in order of their numbers; none for a file that no source reaches.
    #[inline(always)]
    pub fn entering(&self, file: FileId) -> &[EdgeId]
        requires { file < self.now.files }
        ensures { result.now ≡ edges_entering self.now.edges file }
    {
        let place = file.index();
        &self.entering[self.entered[place]..self.entered[place + 1]]
    }

    /// As [`Graph::leaving`].
    #[inline(always)]
    pub fn leaving(&self, file: FileId) -> &'g [Edge]
        requires { file < self.now.files }
        ensures { result.now ≡ edges_leaving self.now.edges file }
    {
        self.graph.leaving(file)
    }

    /// The number of the first of the edges that leave a file; the numbers of the others follow it.
    #[inline(always)]
    pub fn first_leaving(&self, file: FileId) -> usize
        requires { file < self.now.files }
        ensures { AreFollowing result (edges_leaving self.now.edges file) }
    {
        self.graph.first_leaving(file)
    }

    /// The edge at a place among the edges, which is its number.
    #[inline(always)]
    pub fn id(&self, place: usize) -> EdgeId
        requires { place < length self.now.edges }
        ensures { result ≡ place }
    {
        // A graph has few edges.
        let _sound = self.graph.files();
        EdgeId::new(place as u32)
    }

    /// The file that the edge at a place leads to.
    #[inline(always)]
    pub fn target(&self, place: usize) -> FileId
        requires { place < length self.now.edges }
        ensures { result ≡ target self.now place }
    {
        if self.targets.is_empty() {
            return self.graph.edges()[place].to;
        }
        self.targets[place]
    }

    /// As [`Graph::edges`].
    #[inline(always)]
    pub fn edges(&self) -> &'g [Edge]
        ensures edges { result.now ≡ numbered self.now.edges }
        ensures sound { IsSound self.now }
    {
        self.graph.edges()
    }

    /// As [`Graph::files`].
    #[inline(always)]
    pub fn files(&self) -> usize
        ensures files { result ≡ self.now.files }
        ensures sound { IsSound self.now }
    {
        self.graph.files()
    }

    /// As [`Graph::sources`].
    #[inline(always)]
    pub fn sources(&self) -> &'g [FileId]
        ensures sources { result.now ≡ self.now.sources }
        ensures within { All (λ f. f < self.now.files) result.now }
    {
        self.graph.sources()
    }

    /// As [`Graph::headers`].
    #[inline(always)]
    pub fn headers(&self) -> &'g [FileId]
        ensures headers { result.now ≡ self.now.headers }
        ensures within { All (λ f. f < self.now.files) result.now }
    {
        self.graph.headers()
    }

    /// As [`Graph::first_file`].
    pub fn first_file(&self) -> FileId
        ensures { result < self.now.files }
    {
        self.graph.first_file()
    }

    /// As [`Graph::is_header`].
    #[inline(always)]
    pub fn is_header(&self, file: FileId) -> bool
        ensures { result ≡ is_member file self.now.headers }
    {
        self.graph.is_header(file)
    }
}
