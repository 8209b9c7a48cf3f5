//! The chains of a certificate, and the sums of their counts.
ghost use Rattle.std.specs.Prelude.{◌≡◌, ◌<◌, ◌&&◌, ◌++◌, ◌∷◌, [], ℕ, List, None, true, false, length, set, slice_index, if◌then◌else◌, IfOk, OnOk, OnErr, IfSome, MatchBool, MatchOption};
ghost use Rattle.std.specs.List.{All, list_all};
ghost use Rattle.inc_lookup.specs.Projects.{Layout};
ghost use Rattle.inc_graph.specs.IncludeGraph as spec_graph;
ghost use Rattle.inc_graph.specs.Marks as spec;
ghost use Rattle.inc_graph.specs.MarkedEdges.{edge_number};
ghost use Rattle.inc_graph.specs.Members.{is_member};
ghost use Rattle.inc_graph.specs.Near.{IsNear, IsListed, IsNamedFrom};
ghost use Rattle.inc_check.specs.Certificates.{is_counted_chain};
ghost use Rattle.inc_check.specs.declared.certificates.CountedMarks as marked;
ghost use Rattle.inc_check.specs.Checking.{AreSums, IsFitted, IsSummed, IsSumming, IsReadyFor, IsNamedNowhere, IsStepped};

use crate::checking::hints::Hints;
use crate::checking::sums::Sums;
use inc_graph::{Edge, EdgeNumbers, Graph, LentMark, Near, edge_leaving_by, edge_on};
use inc_lookup::{FileId, Project};
use std::alloc::{AllocError, Global};

/// The sums of the counts of chains that are given mark by mark. No mark is kept: the first leads from a source, and each other from the
/// file that the chain has led to so far, or the chain is none of the graph.
#[derive(Drop)]
pub(crate) struct ChainSums {
    /// For each edge the counts of the chains through it, that of the chain that is being read with them.
    through: EdgeNumbers,
    /// The counts of the chains that are read whole.
    total: u64,
    /// For each file the number of the last chain that visits it, from 1 on; so they serve many chains and are never cleared.
    stamps: Vec<u32>,
    /// Edges that the next marks may name.
    hints: Hints,
    /// The number of the chain that is being read.
    stamp: u32,
    /// Whether a mark of it is read.
    begun: bool,
    /// The file that it has led to; before its first mark that in which this is looked for first.
    at: FileId,
    /// The source from which the chain before it leads.
    start: FileId,
    /// Where the first mark of a chain from another source is looked for first.
    near: Near,
    /// Whether a chain without marks is one of the graph.
    empty: bool,
    /// Whether each chain that is read whole is one of the graph that counts, and the one that is being read can be.
    good: bool,
}

impl ChainSums {
    /// No chains.
    pub(crate) fn new(alloc: Global, graph: &Graph) -> Result<ChainSums, AllocError>
        ensures fitted { IfOk result (λ t. IsFitted graph.now t) }
        ensures summed { IfOk result (λ t. (layout : Layout) → IsSummed layout graph.now [] t) }
    {
        let through = EdgeNumbers::zeros(alloc, graph.edges().len())?;
        let stamps = vec![in alloc; 0; graph.files()]?;
        let hints = Hints::none(alloc, graph)?;
        Ok(ChainSums {
            through,
            total: 0,
            stamps,
            hints,
            stamp: 0,
            begun: false,
            at: graph.first_file(),
            start: graph.first_file(),
            near: Near::start(graph),
            empty: graph.has_empty_chain(),
            good: true,
        })
    }

    /// Begins a chain that counts so often.
    #[inline(always)]
    pub(crate) fn begin(&mut self, graph: &Graph, count: u32) -> Result<(), AllocError>
        requires fitted { IsFitted graph.now self.old }
        ensures fitted { IsFitted graph.now self.new }
        ensures begun { OnOk result ((layout : Layout) (chains : List marked.CountedMarks) →
            IsSummed layout graph.now chains self.old →
            IsSumming layout graph.now chains count [] self.new) }
    {
        let Some(stamp) = self.stamp.checked_add(1) else {
            return Err(AllocError);
        };
        self.hints.ready(graph, self.start)?;
        self.stamp = stamp;
        self.begun = false;
        self.at = self.start;
        self.good = are_both(self.good, count != 0);
        Ok(())
    }

    /// Goes on along the next mark of a chain that counts so often.
    #[inline(always)]
    pub(crate) fn go(
        &mut self,
        project: &Project<'_>,
        graph: &Graph,
        mark: &LentMark<'_>,
        count: u32,
    ) -> Result<(), AllocError>
        requires files { graph.now.files ≡ length project.now.paths }
        requires fitted { IsFitted graph.now self.old }
        ensures fitted { IsFitted graph.now self.new }
        ensures summed { OnOk result ((chains : List marked.CountedMarks) (marks : List spec.Mark) →
            IsSumming project.now graph.now chains count marks self.old →
            IsSumming project.now graph.now chains count (marks ++ mark.now ∷ []) self.new) }
    {
        if self.good {
            match self.next_edge(project, graph, mark) {
                Some(edge) => {
                    let goes = self.step(graph, edge, count)?;
                    self.good = goes;
                }
                None => self.good = false,
            }
        }
        Ok(())
    }

    /// The edge that a mark names, where it leaves the file that the chain has led to, or is the first of the chain and leaves a source,
    /// at which the chain is then.
    #[inline(always)]
    fn next_edge(
        &mut self,
        project: &Project<'_>,
        graph: &Graph,
        mark: &LentMark<'_>,
    ) -> Option<Edge>
        requires files { graph.now.files ≡ length project.now.paths }
        requires fitted { IsFitted graph.now self.old }
        ensures fitted { IsFitted graph.now self.new }
        ensures edge { IfSome result (λ e. IsNamedFrom project.now graph.now self.new.at mark.now e
            × IsReadyFor graph.now self.old self.new) }
        ensures none { result ≡ None → IsNamedNowhere project.now graph.now self.old mark.now }
    {
        let hint = self.hints.of(graph, self.at);
        let edge = edge_leaving_by(project, graph, self.at, hint, mark.path(), mark.line());
        if self.begun {
            return edge;
        }
        self.first_edge(project, graph, edge, mark)
    }

    /// The edge that the first mark of a chain names, where it leaves a source. One that leaves the file that is looked at first is found.
    fn first_edge(
        &mut self,
        project: &Project<'_>,
        graph: &Graph,
        found: Option<Edge>,
        mark: &LentMark<'_>,
    ) -> Option<Edge>
        requires files { graph.now.files ≡ length project.now.paths }
        requires fitted { IsFitted graph.now self.old }
        requires first { self.old.begun ≡ false }
        requires found { IfSome found (λ e. IsNamedFrom project.now graph.now self.old.at mark.now e) }
        ensures fitted { IsFitted graph.now self.new }
        ensures edge { IfSome result (λ e. IsNamedFrom project.now graph.now self.new.at mark.now e
            × IsReadyFor graph.now self.old self.new) }
        ensures none { result ≡ None → IsNamedNowhere project.now graph.now self.old mark.now }
    {
        let _sound = graph.files();
        let edge = self.edge_or_found(project, graph, found, mark)?;
        if !graph.is_source(edge.from) {
            return None;
        }
        self.start_at(edge.from);
        Some(edge)
    }

    /// Is at a source, from which the chain leads.
    fn start_at(&mut self, file: FileId)
        requires { file < length self.old.stamps.items }
        ensures stamps { self.new.stamps.items ≡ set self.old.stamps.items file self.old.stamp }
        ensures rest { self.new ≡ record self.old { begun = true; at = file; start = file; stamps = self.new.stamps } }
    {
        self.begun = true;
        self.at = file;
        self.start = file;
        self.stamps[file.index()] = self.stamp;
    }

    /// The edge that a mark names, which may be found already.
    fn edge_or_found(
        &mut self,
        project: &Project<'_>,
        graph: &Graph,
        found: Option<Edge>,
        mark: &LentMark<'_>,
    ) -> Option<Edge>
        requires files { graph.now.files ≡ length project.now.paths }
        requires near { IsNear graph.now.files self.old.near }
        requires found { IfSome found (λ e. IsNamedFrom project.now graph.now self.old.at mark.now e) }
        ensures edge { IfSome result (λ e. IsNamedFrom project.now graph.now e.from mark.now e) }
        ensures none { result ≡ None → edge_number project.now graph.now mark.now ≡ None }
        ensures near { IsNear graph.now.files self.new.near }
        ensures kept { self.new ≡ record self.old { near = self.new.near } }
    {
        match found {
            Some(edge) => Some(edge),
            None => self.edge_anywhere(project, graph, mark),
        }
    }

    /// The edge that a mark names.
    #[inline(never)]
    fn edge_anywhere(
        &mut self,
        project: &Project<'_>,
        graph: &Graph,
        mark: &LentMark<'_>,
    ) -> Option<Edge>
        requires files { graph.now.files ≡ length project.now.paths }
        requires near { IsNear graph.now.files self.old.near }
        ensures edge { IfSome result (λ e. IsNamedFrom project.now graph.now e.from mark.now e) }
        ensures none { result ≡ None → edge_number project.now graph.now mark.now ≡ None }
        ensures near { IsNear graph.now.files self.new.near }
        ensures kept { self.new ≡ record self.old { near = self.new.near } }
    {
        let _sound = graph.files();
        let edge = edge_on(project, graph, &mut self.near, mark.path(), mark.line())?;
        Some(graph.edges()[edge.index()])
    }

    /// Takes an edge into the chain; false where it leads to a file that the chain visits already.
    #[inline(always)]
    fn step(&mut self, graph: &Graph, edge: Edge, count: u32) -> Result<bool, AllocError>
        requires to { edge.to < length self.old.stamps.items }
        requires edge { edge.id < length self.old.through }
        ensures hints { All (λ e. IsListed graph.now e) self.old.hints.edges.items →
            All (λ e. IsListed graph.now e) self.new.hints.edges.items }
        ensures stepped { IfOk result (λ steps. MatchBool steps
            (IsStepped self.old self.new edge count × (slice_index self.old.stamps.items edge.to ≡ self.old.stamp → ⊥))
            ((self.new ≡ self.old) × (slice_index self.old.stamps.items edge.to ≡ self.old.stamp))) }
        ensures failed { OnErr result (IsFitted graph.now self.old → IsFitted graph.now self.new) }
    {
        let to = edge.to.index();
        if self.stamps[to] == self.stamp {
            return Ok(false);
        }
        let place = edge.id.index();
        self.hints
            .aim(graph, self.at, place.saturating_add(1), edge.to)?;
        let sum = self.through.at(place).saturating_add(u64::from(count));
        self.through.put(place, sum)?;
        self.stamps[to] = self.stamp;
        self.at = edge.to;
        Ok(true)
    }

    /// Ends the chain that is being read, which counts so often.
    #[inline(always)]
    pub(crate) fn end(&mut self, graph: &Graph, count: u32)
        requires fitted { IsFitted graph.now self.old }
        ensures fitted { IsFitted graph.now self.new }
        ensures summed { (layout : Layout) (chains : List marked.CountedMarks) (marks : List spec.Mark) →
            IsSumming layout graph.now chains count marks self.old →
            IsSummed layout graph.now (chains ++ record { count = count; marks = marks } ∷ []) self.new }
    {
        self.total = self.total.saturating_add(u64::from(count));
        let ends = self.ends(graph);
        self.good = are_both(self.good, ends);
    }

    /// Whether the chain that is being read has led to a header, or has no marks and is one of the graph so.
    #[inline(always)]
    fn ends(&self, graph: &Graph) -> bool
        ensures { result ≡ (if self.now.begun then is_member self.now.at graph.now.headers else self.now.empty) }
    {
        if self.begun {
            graph.is_header(self.at)
        } else {
            self.empty
        }
    }

    /// The sums, where each chain is one of the graph that counts.
    pub(crate) fn sums(self) -> Option<Sums>
        ensures { (layout : Layout) (g : spec_graph.Graph) (chains : List marked.CountedMarks) →
            IsSummed layout g chains self → MatchOption result
            (list_all (is_counted_chain layout g) chains ≡ false)
            (λ s. AreSums layout g chains s.through s.total) }
    {
        let ChainSums {
            through,
            total,
            good,
            ..
        } = self;
        if good {
            Some(Sums { through, total })
        } else {
            None
        }
    }
}

/// Whether both hold.
#[inline(always)]
fn are_both(a: bool, b: bool) -> bool
    ensures { result ≡ (a && b) }
{
    a && b
}
