//! Which edges of a graph are fixed and what the others cost, by marks and costs.
ghost use Rattle.std.specs.Prelude.{◌≡◌, ◌≢◌, ◌++◌, ◌∷◌, ℕ, true, List, [], Some, None, length, slice_get, IfOk, IfErr, OnOk};
ghost use Rattle.inc_lookup.specs.Projects.{Layout};
ghost use Rattle.inc_graph.specs.EdgeCosts.{AreCostsFor, AreCostsOf, trouble_fault};
ghost use Rattle.inc_graph.specs.IncludeGraph as edge;
ghost use Rattle.inc_graph.specs.Marks as spec;
ghost use Rattle.inc_graph.specs.MarkedEdges.{amounts_by, marks_fault, edge_number, names_edge};

use crate::costs::Cost;
use crate::fixed::Fixed;
use crate::fixing::{
    FixedFault, entered_counts, first_unknown, fix_marks, is_unknown, is_unknown_in_file,
};
use crate::graphs::Graph;
use crate::kept_edges::keep_edges;
use crate::marks::Mark;
use crate::naming::{Near, edge_named};
use inc_lookup::Project;
use inc_text::{KeyRef, SeededState};
use indexmap::IndexSet;
use std::alloc::{AllocError, Global};

/// What is wrong with costs, as far as they are taken.
#[derive(Clone, Copy, Debug, PartialEq, Eq)]
pub(crate) enum CostTrouble {
    /// Nothing is.
    Nothing,
    /// The mark of the one at this place is the first that names a line where no include directive is.
    Unknown(usize),
    /// There is no such mark, and the one at this place is the first whose mark has a cost already.
    Twice(usize),
}

/// A mark as a key of a table.
#[derive(Clone, Copy, PartialEq, Eq, Hash, Drop)]
struct MarkKey<'a> {
    path: KeyRef<'a>,
    line: u32,
}

/// What the edges of a graph cost, by costs that are taken one after the other. The edge of each is looked for once,
/// and nothing is kept of it but what the edge costs; only marks that name no edge are kept. It is used with the project and the graph
/// that it was made for.
#[derive(Drop)]
struct EdgeCosts<'a> {
    /// For each file how many edges lead to it.
    entered: Vec<u32>,
    near: Near,
    /// By the number of the edge: 1 where no cost is given.
    amounts: Vec<u32>,
    /// For each edge whether a cost is given.
    given: Vec<bool>,
    /// The marks that name no edge.
    others: IndexSet<MarkKey<'a>, SeededState>,
    trouble: CostTrouble,
}

impl<'a> EdgeCosts<'a> {
    /// Each edge costs 1: no cost is taken. The seed is that of a table of marks.
    fn new(alloc: Global, graph: &Graph, seed: u64) -> Result<EdgeCosts<'a>, AllocError>
        ensures fitted { IfOk result (λ costs. AreCostsFor graph.now costs) }
        ensures none { IfOk result (λ costs. (layout : Layout) → AreCostsOf layout graph.now [] costs) }
    {
        let count = graph.edges().len();
        Ok(EdgeCosts {
            entered: entered_counts(alloc, graph)?,
            near: Near::start(graph),
            amounts: vec![in alloc; 1; count]?,
            given: vec![in alloc; false; count]?,
            others: IndexSet::with_hasher(alloc, SeededState::new(seed)),
            trouble: CostTrouble::Nothing,
        })
    }

    /// Takes the cost that comes after so many others.
    #[inline(always)]
    fn take(
        &mut self,
        project: &Project<'_>,
        graph: &Graph,
        index: usize,
        cost: &Cost<'a>,
    ) -> Result<(), AllocError>
        requires files { graph.now.files ≡ length project.now.paths }
        requires fitted { AreCostsFor graph.now self.old }
        ensures fitted { AreCostsFor graph.now self.new }
        ensures taken { OnOk result ((costs : List spec.Cost) → length costs ≡ index →
            AreCostsOf project.now graph.now costs self.old →
            AreCostsOf project.now graph.now (costs ++ cost.now ∷ []) self.new) }
    {
        match self.trouble {
            CostTrouble::Nothing => self.put(project, graph, index, cost),
            CostTrouble::Unknown(_) => Ok(()),
            CostTrouble::Twice(_) => {
                self.look(project, graph, index, cost);
                Ok(())
            }
        }
    }

    /// The same where nothing is wrong so far.
    #[inline(always)]
    fn put(
        &mut self,
        project: &Project<'_>,
        graph: &Graph,
        index: usize,
        cost: &Cost<'a>,
    ) -> Result<(), AllocError>
        requires files { graph.now.files ≡ length project.now.paths }
        requires fitted { AreCostsFor graph.now self.old }
        requires sound { self.old.trouble ≡ CostTrouble.Nothing }
        ensures fitted { AreCostsFor graph.now self.new }
        ensures taken { OnOk result ((costs : List spec.Cost) → length costs ≡ index →
            AreCostsOf project.now graph.now costs self.old →
            AreCostsOf project.now graph.now (costs ++ cost.now ∷ []) self.new) }
    {
        let Some(edge) = edge_named(project, graph, &mut self.near, &cost.mark()) else {
            return self.put_other(project, graph, index, cost);
        };
        if self.given[edge.index()] {
            self.trouble = CostTrouble::Twice(index);
        } else {
            self.given[edge.index()] = true;
            self.amounts[edge.index()] = cost.amount();
        }
        Ok(())
    }

    /// Keeps a mark that names no edge.
    fn put_other(
        &mut self,
        project: &Project<'_>,
        graph: &Graph,
        index: usize,
        cost: &Cost<'a>,
    ) -> Result<(), AllocError>
        requires files { graph.now.files ≡ length project.now.paths }
        requires fitted { AreCostsFor graph.now self.old }
        requires sound { self.old.trouble ≡ CostTrouble.Nothing }
        requires other { (edge_number project.now graph.now cost.now.mark ≡ None)
            × ((k : ℕ) (e : edge.Edge) → slice_get graph.now.edges k ≡ Some e →
            names_edge project.now cost.now.mark e ≡ true → edge_number project.now graph.now cost.now.mark ≡ Some k) }
        ensures fitted { AreCostsFor graph.now self.new }
        ensures taken { OnOk result ((costs : List spec.Cost) → length costs ≡ index →
            AreCostsOf project.now graph.now costs self.old →
            AreCostsOf project.now graph.now (costs ++ cost.now ∷ []) self.new) }
    {
        let mark = cost.mark();
        if is_unknown_in_file(project, graph, &self.entered, &mark) {
            self.trouble = CostTrouble::Unknown(index);
            return Ok(());
        }
        let key = MarkKey {
            path: KeyRef { bytes: mark.path() },
            line: mark.line(),
        };
        if !self.others.insert(key)? {
            self.trouble = CostTrouble::Twice(index);
        }
        Ok(())
    }

    /// Looks whether the mark of a cost that comes after a second one names a line where no include directive is: this is answered first.
    fn look(&mut self, project: &Project<'_>, graph: &Graph, index: usize, cost: &Cost<'a>)
        requires files { graph.now.files ≡ length project.now.paths }
        requires fitted { AreCostsFor graph.now self.old }
        requires twice { (i : ℕ) × (self.old.trouble ≡ CostTrouble.Twice i) }
        ensures fitted { AreCostsFor graph.now self.new }
        ensures taken { (costs : List spec.Cost) → length costs ≡ index →
            AreCostsOf project.now graph.now costs self.old →
            AreCostsOf project.now graph.now (costs ++ cost.now ∷ []) self.new }
    {
        if is_unknown(project, graph, &self.entered, &mut self.near, &cost.mark()) {
            self.trouble = CostTrouble::Unknown(index);
        }
    }

    /// What is wrong with the costs that are taken, if anything is.
    fn fault(&self) -> Option<FixedFault>
        ensures { result ≡ trouble_fault self.now.trouble }
    {
        match self.trouble {
            CostTrouble::Nothing => None,
            CostTrouble::Unknown(index) => Some(FixedFault::NoSuchCost { index }),
            CostTrouble::Twice(index) => Some(FixedFault::CostTwice { index }),
        }
    }
}

impl Fixed {
    /// The edges that leave a file with a flag, and those that the marks name, as fixed, and the others at their costs, 1 where none is
    /// given. There is a flag for each file of the project, or none at all. A cost of a fixed edge says nothing. Of faults a mark without
    /// a directive is answered first, then such a cost, then a second cost.
    pub fn with_costs(
        alloc: Global,
        project: &Project<'_>,
        graph: &Graph,
        kept: &[bool],
        marks: &[Mark],
        costs: &[Cost<'_>],
    ) -> Result<Fixed, FixedFault>
        requires files { graph.now.files ≡ length project.now.paths }
        ensures fixed { IfOk result (λ fixed. (fixed ≡ amounts_by project.now graph.now kept.now marks.now costs.now)
            × (marks_fault project.now graph.now marks.now costs.now ≡ None)) }
        ensures fault { IfErr result (λ fault. fault ≢ FixedFault.NoMemory →
            marks_fault project.now graph.now marks.now costs.now ≡ Some fault) }
    {
        if kept.is_empty() && marks.is_empty() && costs.is_empty() {
            return Ok(Fixed::ones(alloc, graph.edges().len()));
        }
        let mut taken = EdgeCosts::new(alloc, graph, project.seed())?;
        for index in 0..costs.len() {
            taken.take(project, graph, index, &costs[index])?;
        }
        Fixed::by_costs(project, graph, kept, marks, taken)
    }

    /// The same, once the costs are taken.
    fn by_costs(
        project: &Project<'_>,
        graph: &Graph,
        kept: &[bool],
        marks: &[Mark],
        costs: EdgeCosts<'_>,
    ) -> Result<Fixed, FixedFault>
        requires files { graph.now.files ≡ length project.now.paths }
        requires fitted { AreCostsFor graph.now costs }
        ensures fixed { IfOk result (λ fixed. (cs : List spec.Cost) → AreCostsOf project.now graph.now cs costs.entry →
            (fixed ≡ amounts_by project.now graph.now kept.now marks.now cs)
            × (marks_fault project.now graph.now marks.now cs ≡ None)) }
        ensures fault { IfErr result (λ fault. (cs : List spec.Cost) → AreCostsOf project.now graph.now cs costs.entry →
            marks_fault project.now graph.now marks.now cs ≡ Some fault) }
    {
        if let Some(index) = first_unknown(project, graph, &costs.entered, marks) {
            return Err(FixedFault::NoSuchDirective { index });
        }
        if let Some(fault) = costs.fault() {
            return Err(fault);
        }
        let mut amounts = costs.amounts;
        fix_marks(project, graph, &mut amounts, marks);
        keep_edges(graph, &mut amounts, kept);
        Ok(Fixed::of_amounts(amounts))
    }
}
