//! The edges of a certificate's cut.
ghost use Rattle.std.specs.Prelude.{◌≡◌, ◌<◌, ◌&&◌, ◌++◌, ◌∷◌, [], List, ℕ, not, true, false, length, IfOk, IfSome, MatchBool};
ghost use Rattle.inc_lookup.specs.Projects.{Layout};
ghost use Rattle.inc_graph.specs.Cuts.{fixed_by};
ghost use Rattle.inc_graph.specs.MarkedEdges.{edge_number};
ghost use Rattle.inc_graph.specs.Marks as spec;
ghost use Rattle.inc_graph.specs.Near.{IsNear};
ghost use Rattle.inc_check.specs.Checking.{IsCutFor, IsCutOf, IsPut, IsNearAlone};

use inc_graph::{EdgeId, Fixed, Graph, LentMark, Near, edge_leaving, edge_on};
use inc_lookup::Project;
use std::alloc::{AllocError, Global};

/// The edges that the marks of a cut name, as far as a verdict asks for them: no list of them is kept.
#[derive(Drop)]
pub(crate) struct CutEdges {
    /// For each edge of the graph whether a mark names it.
    pub flags: Vec<bool>,
    /// What they cost, at most the greatest number of 64 bits.
    pub cost: u64,
    /// Whether each mark so far names an edge that is not fixed. After one that does not nothing is added.
    pub editable: bool,
    /// Whether no edge is named twice. After one that is, flags and cost say nothing.
    pub once: bool,
    /// Where the next mark is looked for first.
    near: Near,
}

impl CutEdges {
    /// No marks.
    pub(crate) fn new(alloc: Global, graph: &Graph) -> Result<CutEdges, AllocError>
        ensures fitted { IfOk result (λ cut. IsCutFor graph.now cut) }
        ensures of { IfOk result (λ cut. (layout : Layout) (amounts : List ℕ) →
            IsCutOf layout graph.now amounts [] cut) }
    {
        let flags = vec![in alloc; false; graph.edges().len()]?;
        Ok(CutEdges {
            flags,
            cost: 0,
            editable: true,
            once: true,
            near: Near::start(graph),
        })
    }

    /// Adds the edge that a mark names.
    #[inline(always)]
    pub(crate) fn add(
        &mut self,
        project: &Project<'_>,
        graph: &Graph,
        fixed: &Fixed,
        mark: &LentMark<'_>,
    )
        requires files { graph.now.files ≡ length project.now.paths }
        requires fixed { length fixed.now ≡ length graph.now.edges }
        requires fitted { IsCutFor graph.now self.old }
        ensures fitted { IsCutFor graph.now self.new }
        ensures of { (marks : List spec.Mark) → IsCutOf project.now graph.now fixed.now marks self.old →
            IsCutOf project.now graph.now fixed.now (marks ++ mark.now ∷ []) self.new }
    {
        if !self.editable {
            return;
        }
        match self.edge_named(project, graph, mark) {
            Some(edge) => self.put(fixed, edge),
            None => self.editable = false,
        }
    }

    /// The edge that a mark names: most are the next one of the file of the last.
    #[inline(always)]
    fn edge_named(
        &mut self,
        project: &Project<'_>,
        graph: &Graph,
        mark: &LentMark<'_>,
    ) -> Option<EdgeId>
        requires files { graph.now.files ≡ length project.now.paths }
        requires near { IsNear graph.now.files self.old.near }
        ensures edge { result ≡ edge_number project.now graph.now mark.now }
        ensures within { IfSome result (λ edge. edge < length graph.now.edges) }
        ensures near { IsNear graph.now.files self.new.near }
        ensures kept { IsNearAlone self.old self.new }
    {
        let near = self.near;
        match edge_leaving(
            project,
            graph,
            near.file,
            near.edge,
            mark.path(),
            mark.line(),
        ) {
            Some(edge) => {
                self.near.edge = edge.id.index().saturating_add(1);
                Some(edge.id)
            }
            None => edge_on(project, graph, &mut self.near, mark.path(), mark.line()),
        }
    }

    /// Adds an edge, unless it is fixed.
    #[inline(always)]
    fn put(&mut self, fixed: &Fixed, edge: EdgeId)
        requires flag { edge < length self.old.flags.items }
        requires fixed { edge < length fixed.now }
        requires editable { self.old.editable ≡ true }
        ensures { MatchBool self.new.editable
            ((fixed_by fixed.now edge ≡ false) × IsPut fixed.now edge self.old self.new)
            ((fixed_by fixed.now edge ≡ true) × (self.new ≡ record self.old { editable = false })) }
    {
        let place = edge.index();
        let amount = fixed.amount(place);
        if amount == 0 {
            self.editable = false;
            return;
        }
        if self.flags[place] {
            self.once = false;
        }
        self.flags[place] = true;
        self.cost = self.cost.saturating_add(u64::from(amount));
    }
}
