//! Dinic's algorithm with capacity scaling: a search for augmenting paths that goes on between calls along the level graph that it found.
ghost use Rattle.std.specs.Prelude.{◌≡◌, ◌<◌, ◌≤◌, ◌+◌, ℕ, Bool, Vec, length, nat_lt, option_map, slice_get, Some, IfOk, IfSome, IsTrue};
ghost use Rattle.std.specs.Bool.{OnTrue};
ghost use Rattle.std.specs.Global.{Global};
ghost use Rattle.inc_graph.specs.IncludeGraph as spec;
ghost use Rattle.inc_graph.specs.IncludeGraph.{IsSound};
ghost use Rattle.inc_cut.specs.Flows.{AreFor, IsFound, is_open_by, is_path_by};
ghost use Rattle.inc_cut.specs.Phases.{IsUp, IsWay, IsPathIfSome, left_over, levels_end, rank};
ghost use Rattle.inc_cut.specs.Searches.{IsFinished};

use crate::flows::{Flow, Found, PathSearch, Step};
use crate::goals::levels_of;
use crate::searches::headed::Heading;
use crate::searches::next_steps::{NextStep, step_at, step_source, with_target};
use crate::searches::{answer, reach_by_levels};
use crate::steps::{AheadSteps, OpenSteps, StepTest, WideSteps};
use inc_graph::{Edge, EdgeId, Fixed, Search, TwoWayGraph, Visit};
use inc_lookup::FileId;
use std::alloc::{AllocError, Global};
use std::mem;

/// Of how many edges of sources the greatest cost is taken: it is no more than a hint.
const LOOKED_AT: usize = 1_000;

/// The greatest cost at the sources is at most so many times the room that is asked for, before any room will do.
const LEAST_PART: u64 = 256;

/// So many times the files of a shortest path may be given up by one search that asks for room.
const PATIENCE: u32 = 4;

/// After so many searches by levels a largest flow is guessed at, and headed for.
const MOST_PHASES: u32 = 8;

/// Dinic's algorithm with capacity scaling: a search for augmenting paths in the level graph of an earlier breadth-first search, which is
/// begun anew where it gives no path, once its flow is a blocking flow. A file that gives no path is not looked at again until then. First it looks for paths with much room, so that few
/// paths carry most of the flow: two thirds of the greatest cost at the sources, then two thirds of that, and so on. Where a search gives
/// up many files, few paths with so much room are left, and it asks for less at once: to look at all files would take longer than all
/// paths do.
///
/// Where levels were searched often, there are paths of many lengths: then a largest flow is guessed at in one go, and the paths are those
/// along which the flow comes nearer to it, each of them checked. What is left after these is found as before.
#[derive(Drop)]
pub struct PhaseSearch {
    /// For each file of the graph the number of files on a shortest path to it when levels were last searched; 0 where there was none
    /// or the file gives no path.
    levels: Vec<u16>,
    /// For each file how many of its steps give no path.
    tried: Vec<u32>,
    /// The levels before files were given up.
    ranks: Vec<u16>,
    /// The greatest cost at the sources.
    most: u64,
    /// Steps with less room are left out.
    least: u64,
    /// The place of the source from which the next path is looked for first: those before it give no path.
    next: usize,
    /// How many files a search that asks for room may give up.
    patience: u32,
    /// Whether steps back are looked at. By the first levels none that is open leads up: what flows then was sent along edges that do.
    turns_back: bool,
    /// The list of a path that was given back, for the next one.
    spare: Vec<Step>,
    /// How often levels were searched since a flow was guessed at.
    phases: u32,
    heading: Heading,
}

impl PathSearch for PhaseSearch {
    fn search(
        &mut self,
        alloc: Global,
        graph: &TwoWayGraph<'_>,
        fixed: &Fixed,
        flow: &Flow,
    ) -> Result<Found, AllocError> {
        if self.levels.len() != graph.files() {
            self.begin(alloc, graph, fixed)?;
        }
        if let Some(ahead) = self.head_on(alloc, graph, fixed, flow)? {
            return Ok(Found::Path(ahead));
        }
        let mut least = self.least;
        while least > 1 {
            let wide = WideSteps { fixed, flow, least };
            if let Some(path) = self.go_on(alloc, graph, &wide, self.patience)? {
                return Ok(Found::Path(path));
            }
            least = self.narrow(least);
        }
        let patience = self.last_patience();
        self.find_within(alloc, graph, &OpenSteps { fixed, flow }, patience)
    }

    fn give_back(&mut self, steps: Vec<Step>) {
        self.spare = steps;
    }
}

/// Steps from a source to a file.
#[derive(Drop)]
pub(super) struct Way {
    pub steps: Vec<Step>,
    pub file: FileId,
    /// How many files may still be given up.
    pub patience: u32,
}

impl PhaseSearch {
    /// A search that keeps no levels yet.
    pub fn new(alloc: Global) -> PhaseSearch {
        PhaseSearch {
            levels: Vec::new(alloc),
            tried: Vec::new(alloc),
            ranks: Vec::new(alloc),
            most: 0,
            least: 0,
            next: 0,
            patience: 0,
            turns_back: true,
            spare: Vec::new(alloc),
            phases: 0,
            heading: Heading::none(alloc),
        }
    }

    /// A search along the edges with flow, by levels that rise along each of them where the flow has no circle.
    pub(crate) fn along(
        alloc: Global,
        graph: &TwoWayGraph<'_>,
        flow: &Flow,
    ) -> Result<PhaseSearch, AllocError>
        requires { length flow.now ≡ length graph.now.edges }
    {
        let mut search = PhaseSearch::new(alloc);
        search.levels = levels_of(alloc, graph, flow)?;
        search.tried = vec![in alloc; 0; graph.files()]?;
        search.turns_back = false;
        Ok(search)
    }

    /// Searches by levels, and finds with how much room to begin. Where nothing flows yet, the open steps are those ahead.
    fn begin(
        &mut self,
        alloc: Global,
        graph: &TwoWayGraph<'_>,
        fixed: &Fixed,
    ) -> Result<(), AllocError> {
        let edges = graph.edges().len();
        let search = reach_by_levels(alloc, graph, &AheadSteps { edges })?;
        self.keep(alloc, graph, &search)?;
        self.turns_back = false;
        self.most = most_cost(graph, fixed);
        self.least = self.most / 3 * 2;
        self.patience = self.patience_by(graph.headers());
        self.ranks = Vec::with_capacity(alloc, self.levels.len())?;
        self.ranks.extend_from_slice(&self.levels)
    }

    /// A path towards the flow that is guessed at, where levels were searched often.
    fn head_on(
        &mut self,
        alloc: Global,
        graph: &TwoWayGraph<'_>,
        fixed: &Fixed,
        flow: &Flow,
    ) -> Result<Option<Vec<Step>>, AllocError>
        requires { AreFor graph.now fixed.now flow.now }
        ensures { IfOk result (λ path. IsPathIfSome graph.now (is_open_by fixed.now flow.now)
            (option_map (λ (steps : Vec Step Global). steps.items) path)) }
    {
        if self.phases >= MOST_PHASES {
            self.phases = 0;
            self.heading.begin(alloc, graph, fixed, flow)?;
        }
        if !self.heading.is_begun() {
            return Ok(None);
        }
        let is_done = self.heading.is_done();
        let path = self
            .heading
            .path(alloc, graph, fixed, flow, &mut self.spare)?;
        if path.is_none() && !is_done {
            self.phases = MOST_PHASES;
        }
        Ok(path)
    }

    /// How many files a search that asks for room may give up, by how many there are on a shortest path to a header.
    fn patience_by(&self, headers: &[FileId]) -> u32 {
        let mut least = 0;
        for header in headers {
            least = lower_level(least, self.level_of(*header));
        }
        u32::from(least).saturating_mul(PATIENCE)
    }

    /// The level of a file, 0 where there is none.
    fn level_of(&self, file: FileId) -> u16 {
        match self.levels.get(file.index()) {
            Some(level) => *level,
            None => 0,
        }
    }

    /// Looks for paths with less room, by the levels that were found.
    fn narrow(&mut self, least: u64) -> u64
        requires { 1 < least }
        ensures { result < least }
    {
        let next = least / 3 * 2;
        let chosen = if next > self.most / LEAST_PART {
            next
        } else {
            1
        };
        self.least = chosen;
        self.next = 0;
        self.tried.fill(0);
        if self.ranks.len() == self.levels.len() {
            self.levels.copy_from_slice(&self.ranks);
        }
        chosen
    }

    /// How many files a search for any room may give up before levels are searched anew. After widths few paths are left, so that most of
    /// what it would give up is given up in vain; but levels are searched anew for that once only.
    fn last_patience(&self) -> u32 {
        if self.turns_back || self.most <= 1 {
            u32::MAX
        } else {
            self.patience.saturating_mul(PATIENCE)
        }
    }

    /// A path of steps that pass a test, or where there is none the files that they reach.
    pub(crate) fn find<T: StepTest>(
        &mut self,
        alloc: Global,
        graph: &TwoWayGraph<'_>,
        test: &T,
    ) -> Result<Found, AllocError>
        requires { T.edges test.now ≡ length graph.now.edges }
        ensures { IfOk result (λ found. IsFound graph.now (T.passes test.now) found) }
    {
        self.find_within(alloc, graph, test, u32::MAX)
    }

    /// The same, by levels anew as soon as more than so many files are given up.
    fn find_within<T: StepTest>(
        &mut self,
        alloc: Global,
        graph: &TwoWayGraph<'_>,
        test: &T,
        patience: u32,
    ) -> Result<Found, AllocError>
        requires { T.edges test.now ≡ length graph.now.edges }
        ensures { IfOk result (λ found. IsFound graph.now (T.passes test.now) found) }
    {
        if let Some(path) = self.go_on(alloc, graph, test, patience)? {
            return Ok(Found::Path(path));
        }
        let search = reach_by_levels(alloc, graph, test)?;
        self.keep(alloc, graph, &search)?;
        self.turns_back = true;
        self.phases = self.phases.saturating_add(1);
        answer(alloc, graph, &search)
    }

    /// A path along the levels that are kept, if it is found before more than so many files are given up. It is no part of its caller, so
    /// that the walk has the registers for itself.
    #[inline(never)]
    fn go_on<T: StepTest>(
        &mut self,
        alloc: Global,
        graph: &TwoWayGraph<'_>,
        test: &T,
        patience: u32,
    ) -> Result<Option<Vec<Step>>, AllocError>
        requires { T.edges test.now ≡ length graph.now.edges }
        ensures { IfOk result (λ path. IsPathIfSome graph.now (T.passes test.now)
            (option_map (λ (steps : Vec Step Global). steps.items) path)) }
    {
        if self.levels.len() != graph.files() || self.tried.len() != graph.files() {
            return Ok(None);
        }
        let mut steps = mem::replace(&mut self.spare, Vec::new(alloc));
        steps.clear();
        let sources = graph.sources();
        let mut way = Way {
            steps,
            file: graph.first_file(),
            patience,
        };
        for next in self.next..sources.len() {
            self.next = next;
            way.steps.clear();
            way.file = sources[next];
            if self.climb(graph, test, &mut way)? {
                return Ok(Some(way.steps));
            }
            if way.patience == 0 {
                return Ok(None);
            }
        }
        Ok(None)
    }

    /// Goes from a source to a header; false where no way leads there, or no more files may be given up.
    #[inline(always)]
    fn climb<T: StepTest>(
        &mut self,
        graph: &TwoWayGraph<'_>,
        test: &T,
        way: &mut Way,
    ) -> Result<bool, AllocError>
        requires edges { T.edges test.now ≡ length graph.now.edges }
        requires tried { length self.old.tried.items ≡ graph.now.files }
        requires way { IsWay graph.now (T.passes test.now) self.old.levels.items
            way.old.steps.items way.old.file }
        ensures tried { IfOk result (λ _. length self.new.tried.items ≡ graph.now.files) }
        ensures levels { IfOk result (λ _. length self.new.levels.items ≡ graph.now.files) }
        ensures path { IfOk result (λ goes. OnTrue goes
            (IsTrue (is_path_by graph.now (T.passes test.now) way.new.steps.items))) }
    {
        while !graph.is_header(way.file) {
            if !self.turn(graph, test, way)? {
                return Ok(false);
            }
        }
        Ok(true)
    }

    /// Goes a step on where there is one, else a step back; false where there is none back.
    fn turn<T: StepTest>(
        &mut self,
        graph: &TwoWayGraph<'_>,
        test: &T,
        way: &mut Way,
    ) -> Result<bool, AllocError>
        requires edges { T.edges test.now ≡ length graph.now.edges }
        requires tried { length self.old.tried.items ≡ graph.now.files }
        requires way { IsWay graph.now (T.passes test.now) self.old.levels.items
            way.old.steps.items way.old.file }
        ensures tried { IfOk result (λ _. length self.new.tried.items ≡ graph.now.files) }
        ensures levels { IfOk result (λ _. length self.new.levels.items ≡ graph.now.files) }
        ensures way { IfOk result (λ goes. OnTrue goes
            (IsWay graph.now (T.passes test.now) self.new.levels.items
            way.new.steps.items way.new.file)) }
        ensures less { IfOk result (λ goes. OnTrue goes
            (left_over self.new.levels.items way.new.file
            < left_over self.old.levels.items way.old.file)) }
    {
        match self.next_step(graph, test, way.file) {
            Some(next) => {
                way.steps.push(next.step)?;
                way.file = next.to;
                Ok(true)
            }
            None => Ok(self.go_back(graph, way)),
        }
    }

    /// Gives up the file at the end of the way; false where it is a source, or no more files may be given up.
    fn go_back(&mut self, graph: &TwoWayGraph<'_>, way: &mut Way) -> bool
        requires { (test : Step → Bool) ×
            IsWay graph.now test self.old.levels.items way.old.steps.items way.old.file }
        ensures tried { self.new.tried.items ≡ self.old.tried.items }
        ensures long { length self.new.levels.items ≡ length self.old.levels.items }
        ensures way { OnTrue result ((test : Step → Bool) →
            IsWay graph.now test self.old.levels.items way.old.steps.items way.old.file →
            IsWay graph.now test self.new.levels.items way.new.steps.items way.new.file) }
        ensures less { OnTrue result (left_over self.new.levels.items way.new.file
            < left_over self.old.levels.items way.old.file) }
    {
        let Some(step) = way.steps.pop() else {
            return false;
        };
        if way.patience == 0 {
            return false;
        }
        way.patience -= 1;
        self.levels[way.file.index()] = 0;
        way.file = step_source(graph, step);
        true
    }

    /// The first step from a file that passes and leads to a greater level, of those that are not tried.
    fn next_step<T: StepTest>(
        &mut self,
        graph: &TwoWayGraph<'_>,
        test: &T,
        file: FileId,
    ) -> Option<NextStep>
        requires sound { IsSound graph.now }
        requires edges { T.edges test.now ≡ length graph.now.edges }
        requires levels { length self.old.levels.items ≡ graph.now.files }
        requires tried { length self.old.tried.items ≡ graph.now.files }
        requires within { file < graph.now.files }
        ensures levels { self.new.levels.items ≡ self.old.levels.items }
        ensures tried { length self.new.tried.items ≡ graph.now.files }
        ensures next { IfSome result (λ next. IsUp graph.now (T.passes test.now)
            self.old.levels.items file next) }
    {
        let (ahead, back) = (graph.leaving(file), graph.entering(file));
        let steps = ahead.len() + self.taken_back(back.len());
        for index in self.tried[file.index()] as usize..steps {
            let step = &step_at(graph, ahead, back, index, file);
            // Of a step that is used up no more is read: where it leads is elsewhere in memory.
            if test.is_spent(*step) {
                continue;
            }
            let next = with_target(graph, step, file);
            if leads_up(&self.levels, file, next.to) && test.passes(next.step) {
                self.tried[file.index()] = hint_of(index);
                return Some(next);
            }
        }
        self.tried[file.index()] = hint_of(steps);
        None
    }

    /// How many of so many steps back are looked at: all or none.
    #[inline(always)]
    fn taken_back(&self, steps: usize) -> usize
        ensures { result ≤ steps }
    {
        if self.turns_back { steps } else { 0 }
    }

    /// Keeps the levels of a search by levels.
    fn keep(
        &mut self,
        alloc: Global,
        graph: &TwoWayGraph<'_>,
        search: &Search<Step>,
    ) -> Result<(), AllocError>
        requires { (test : Step → Bool) × IsFinished graph.now test search.now }
    {
        self.next = 0;
        self.tried = vec![in alloc; 0; graph.files()]?;
        self.levels = vec![in alloc; 0; graph.files()]?;
        for visit in search.visits() {
            self.levels[visit.file.index()] = self.level_before(search, *visit).saturating_add(1);
        }
        Ok(())
    }

    /// The level of the file from which a file was reached; 0 for a source.
    fn level_before(&self, search: &Search<Step>, visit: Visit<Step>) -> u16
        requires { (g : spec.Graph) × (test : Step → Bool) × (place : ℕ) ×
            IsFinished g test search.now ×
            (slice_get search.now.visits place ≡ Some visit) ×
            (length self.now.levels.items ≡ g.files) }
    {
        match visit.parent {
            Some(parent) => self.levels[search.file(usize::from(parent.from)).index()],
            None => 0,
        }
    }
}

/// Whether a file has a greater level than another.
pub(super) fn leads_up(levels: &[u16], file: FileId, to: FileId) -> bool
    requires file { file < length levels.now }
    requires to { to < length levels.now }
    ensures up { result ≡ nat_lt (rank levels.now file) (rank levels.now to) }
    ensures most { rank levels.now to < levels_end }
{
    levels[file.index()] < levels[to.index()]
}

/// A number of steps as it is kept. No file has more than two steps for each directive of the graph.
#[inline(always)]
fn hint_of(steps: usize) -> u32 {
    steps.min(u32::MAX as usize) as u32
}

/// The lower of two levels, of which 0 is none.
fn lower_level(a: u16, b: u16) -> u16 {
    if a == 0 || (b != 0 && b < a) { b } else { a }
}

/// The greatest cost of the first edges of the sources.
fn most_cost(graph: &TwoWayGraph<'_>, fixed: &Fixed) -> u64 {
    let mut most = 0;
    let mut left = LOOKED_AT;
    for source in graph.sources() {
        let ahead = graph.leaving(*source);
        let looked = &ahead[..ahead.len().min(left)];
        most = most.max(greatest_cost(fixed, looked));
        left = left.saturating_sub(looked.len());
    }
    most
}

/// The greatest cost of edges.
fn greatest_cost(fixed: &Fixed, edges: &[Edge]) -> u64 {
    let mut most = 0;
    for edge in edges {
        most = most.max(cost_of(fixed, edge.id));
    }
    most
}

/// The cost of an edge, 0 where it is fixed.
fn cost_of(fixed: &Fixed, edge: EdgeId) -> u64 {
    if edge.index() >= fixed.edges() {
        return 0;
    }
    match fixed.cost(edge) {
        Some(cost) => u64::from(cost),
        None => 0,
    }
}
