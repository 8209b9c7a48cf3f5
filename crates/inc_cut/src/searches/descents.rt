//! Depth-first search for an augmenting path: it goes on from the file that it reached last.
ghost use Rattle.std.specs.Prelude.{◌≡◌, ◌<◌, ◌++◌, [], ◌∷◌, ℕ, Bool, length, slice_set, slice_index_or, true, false, IfOk, IsTrue};
ghost use Rattle.std.specs.Bool.{OnTrue, OnFalse};
ghost use Rattle.inc_graph.specs.IncludeGraph.{IsSound};
ghost use Rattle.inc_graph.specs.Members.{is_member};
ghost use Rattle.inc_cut.specs.Flows.{IsFound, step_from, is_walk_by, is_path_by};
ghost use Rattle.inc_cut.specs.Descents.{IsDescent, IsBetween, IsLook, left_to_reach};

use crate::flows::{Flow, Found, PathSearch, Step};
use crate::searches::next_steps::{NextStep, step_at, step_source, with_target};
use crate::steps::{OpenSteps, StepTest};
use inc_graph::{Fixed, TwoWayGraph};
use inc_lookup::FileId;
use std::alloc::{AllocError, Global};

/// Searches depth first. It looks at each step from a file once, and stops where it reaches a header.
#[derive(Clone, Copy, Debug)]
pub struct DepthSearch;

impl PathSearch for DepthSearch {
    fn search(
        &mut self,
        alloc: Global,
        graph: &TwoWayGraph<'_>,
        fixed: &Fixed,
        flow: &Flow,
    ) -> Result<Found, AllocError> {
        search_by_depth(alloc, graph, &OpenSteps { fixed, flow })
    }

    fn give_back(&mut self, _steps: Vec<Step>) {}
}

/// Searches depth first over the steps that pass a test.
fn search_by_depth<T: StepTest>(
    alloc: Global,
    graph: &TwoWayGraph<'_>,
    test: &T,
) -> Result<Found, AllocError>
    requires { T.edges test.now ≡ length graph.now.edges }
    ensures { IfOk result (λ found. IsFound graph.now (T.passes test.now) found) }
{
    let mut descent = Descent::start(alloc, graph)?;
    for source in graph.sources() {
        if descent.descend(graph, test, *source)? {
            return Ok(Found::Path(descent.steps));
        }
    }
    Ok(Found::Reach(descent.reached))
}

/// Where a search depth first is.
#[derive(Drop)]
struct Descent {
    /// For each file whether it is reached.
    reached: Vec<bool>,
    /// For each file how many of its steps are looked at.
    looked: Vec<usize>,
    /// The steps from a source to the file.
    steps: Vec<Step>,
    file: FileId,
}

impl Descent {
    /// Before the first source.
    fn start(alloc: Global, graph: &TwoWayGraph<'_>) -> Result<Descent, AllocError>
        ensures { IfOk result (λ descent. (test : Step → Bool) → IsBetween graph.now test
            descent.reached.items descent.looked.items) }
    {
        Ok(Descent {
            reached: vec![in alloc; false; graph.files()]?,
            looked: vec![in alloc; 0; graph.files()]?,
            steps: Vec::new(alloc),
            file: graph.first_file(),
        })
    }

    /// Goes to what a source reaches; true where that is a header.
    fn descend<T: StepTest>(
        &mut self,
        graph: &TwoWayGraph<'_>,
        test: &T,
        source: FileId,
    ) -> Result<bool, AllocError>
        requires edges { T.edges test.now ≡ length graph.now.edges }
        requires source { is_member source graph.now.sources ≡ true }
        requires between { IsBetween graph.now (T.passes test.now)
            self.old.reached.items self.old.looked.items }
        ensures path { IfOk result (λ goes. OnTrue goes
            (IsTrue (is_path_by graph.now (T.passes test.now) self.new.steps.items))) }
        ensures between { IfOk result (λ goes. OnFalse goes
            (IsBetween graph.now (T.passes test.now) self.new.reached.items self.new.looked.items)) }
        ensures source { IfOk result (λ goes. OnFalse goes
            (slice_index_or self.new.reached.items source false ≡ true)) }
        ensures grown { IfOk result (λ goes. OnFalse goes ((f : ℕ) →
            slice_index_or self.old.reached.items f false ≡ true → slice_index_or self.new.reached.items f false ≡ true)) }
    {
        if self.reached[source.index()] {
            return Ok(false);
        }
        self.begin(source);
        while !graph.is_header(self.file) {
            if !self.turn(graph, test)? {
                return Ok(false);
            }
        }
        Ok(true)
    }

    /// Is at a source that is not reached yet.
    fn begin(&mut self, source: FileId)
        requires { source < length self.old.reached.items }
        ensures reached { self.new.reached.items ≡ slice_set self.old.reached.items source true }
        ensures looked { self.new.looked.items ≡ self.old.looked.items }
        ensures steps { self.new.steps.items ≡ [] }
        ensures file { self.new.file ≡ source }
    {
        self.reached[source.index()] = true;
        self.steps.clear();
        self.file = source;
    }

    /// Goes a step on where there is one, else a step back; false where all is reached that the source reaches.
    fn turn<T: StepTest>(&mut self, graph: &TwoWayGraph<'_>, test: &T) -> Result<bool, AllocError>
        requires edges { T.edges test.now ≡ length graph.now.edges }
        requires apart { is_member self.old.file graph.now.headers ≡ false }
        requires descent { IsDescent graph.now (T.passes test.now)
            self.old.reached.items self.old.looked.items self.old.steps.items self.old.file }
        ensures descent { IfOk result (λ goes. OnTrue goes (IsDescent graph.now (T.passes test.now)
            self.new.reached.items self.new.looked.items self.new.steps.items self.new.file)) }
        ensures less { IfOk result (λ goes. OnTrue goes
            (left_to_reach self.new.reached.items self.new.steps.items
            < left_to_reach self.old.reached.items self.old.steps.items)) }
        ensures end { IfOk result (λ goes. OnFalse goes
            (IsBetween graph.now (T.passes test.now) self.new.reached.items self.new.looked.items)) }
        ensures grown { IfOk result (λ goes. (f : ℕ) →
            slice_index_or self.old.reached.items f false ≡ true → slice_index_or self.new.reached.items f false ≡ true) }
    {
        match self.look(graph, test) {
            Some(next) => {
                self.go_on(next)?;
                Ok(true)
            }
            None => Ok(self.go_back(graph)),
        }
    }

    /// Goes along a step.
    fn go_on(&mut self, next: NextStep) -> Result<(), AllocError>
        requires { next.to < length self.old.reached.items }
        ensures reached { IfOk result (λ _. self.new.reached.items
            ≡ slice_set self.old.reached.items next.to true) }
        ensures looked { IfOk result (λ _. self.new.looked.items ≡ self.old.looked.items) }
        ensures steps { IfOk result (λ _. self.new.steps.items
            ≡ self.old.steps.items ++ next.step ∷ []) }
        ensures file { IfOk result (λ _. self.new.file ≡ next.to) }
    {
        self.reached[next.to.index()] = true;
        self.steps.push(next.step)?;
        self.file = next.to;
        Ok(())
    }

    /// Goes back along the last step; false where there is none.
    fn go_back(&mut self, graph: &TwoWayGraph<'_>) -> bool
        requires { (test : Step → Bool) × (a b : ℕ) ×
            IsTrue (is_walk_by graph.now test a self.old.steps.items b) }
        ensures reached { self.new.reached.items ≡ self.old.reached.items }
        ensures looked { self.new.looked.items ≡ self.old.looked.items }
        ensures back { OnTrue result ((s : Step) ×
            (self.old.steps.items ≡ self.new.steps.items ++ s ∷ []) ×
            (self.new.file ≡ step_from graph.now s)) }
        ensures none { OnFalse result (self.old.steps.items ≡ []) }
    {
        let Some(step) = self.steps.pop() else {
            return false;
        };
        self.file = step_source(graph, step);
        true
    }

    /// The next step from the file that passes and leads to a file that is not reached.
    fn look<T: StepTest>(&mut self, graph: &TwoWayGraph<'_>, test: &T) -> Option<NextStep>
        requires edges { T.edges test.now ≡ length graph.now.edges }
        requires sound { IsSound graph.now }
        requires file { self.old.file < graph.now.files }
        requires reached { length self.old.reached.items ≡ graph.now.files }
        requires looked { length self.old.looked.items ≡ graph.now.files }
        ensures reached { self.new.reached.items ≡ self.old.reached.items }
        ensures steps { self.new.steps.items ≡ self.old.steps.items }
        ensures file { self.new.file ≡ self.old.file }
        ensures look { IsLook graph.now (T.passes test.now) self.old.reached.items
            self.old.looked.items self.new.looked.items self.old.file result }
    {
        let (ahead, back) = (graph.leaving(self.file), graph.entering(self.file));
        let steps = ahead.len() + back.len();
        for index in self.looked[self.file.index()]..steps {
            let step = step_at(graph, ahead, back, index, self.file);
            let next = with_target(graph, &step, self.file);
            if test.passes(next.step) && !self.reached[next.to.index()] {
                self.looked[self.file.index()] = index + 1;
                return Some(next);
            }
        }
        self.looked[self.file.index()] = steps;
        None
    }
}
