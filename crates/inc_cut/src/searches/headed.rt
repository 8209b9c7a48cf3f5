//! Paths towards a flow that is guessed, each of which is checked.
ghost use Rattle.std.specs.Prelude.{◌≡◌, length, option_map, Vec, IfOk, IsTrue};
ghost use Rattle.std.specs.Bool.{OnTrue};
ghost use Rattle.std.specs.Global.{Global};
ghost use Rattle.inc_cut.specs.Flows.{AreFor, is_open_by, is_path_by};
ghost use Rattle.inc_cut.specs.Phases.{IsWay, IsPathIfSome};
ghost use Rattle.inc_cut.specs.declared.flows.Step.{Step};

use crate::flows::{Flow, Step, edge_count};
use crate::goals::Goal;
use crate::searches::next_steps::{step_source, with_target};
use crate::searches::scaled_dinic::{Way, leads_up};
use crate::steps::{OpenSteps, StepTest};
use inc_graph::{Fixed, TwoWayGraph};
use std::alloc::{AllocError, Global};
use std::mem;

/// How many steps for each file and edge of the graph are looked at for the first guess. For each one that was not found so, twice as many.
const PATIENCE: usize = 32;

/// A flow to head for, once a search asks for it, and room for the path that is checked.
#[derive(Drop)]
pub(super) struct Heading {
    goal: Option<Goal>,
    /// The last path that was looked for.
    steps: Vec<Step>,
    /// For each file its place on that path, from 1.
    levels: Vec<u16>,
    /// How long the next flow is looked for.
    patience: usize,
}

impl Heading {
    /// No flow to head for.
    pub fn none(alloc: Global) -> Heading {
        Heading {
            goal: None,
            steps: Vec::new(alloc),
            levels: Vec::new(alloc),
            patience: PATIENCE,
        }
    }

    /// Guesses at a largest flow, and heads for it.
    pub fn begin(
        &mut self,
        alloc: Global,
        graph: &TwoWayGraph<'_>,
        fixed: &Fixed,
        flow: &Flow,
    ) -> Result<(), AllocError>
        requires { AreFor graph.now fixed.now flow.now }
    {
        self.steps.clear();
        self.levels = vec![in alloc; 0; graph.files()]?;
        let goal = Goal::new(alloc, graph, fixed, flow, self.patience)?;
        if !goal.is_done {
            self.patience = self.patience.saturating_mul(2);
        }
        self.goal = Some(goal);
        Ok(())
    }

    /// Whether there is a flow to head for.
    pub fn is_begun(&self) -> bool {
        self.goal.is_some()
    }

    /// Whether the flow to head for was looked for to the end, if there is one.
    pub fn is_done(&self) -> bool {
        match &self.goal {
            Some(goal) => goal.is_done,
            None => true,
        }
    }

    /// A path of open steps along which the flow comes nearer to the one that it heads for; none where none is found.
    pub fn path(
        &mut self,
        alloc: Global,
        graph: &TwoWayGraph<'_>,
        fixed: &Fixed,
        flow: &Flow,
        spare: &mut Vec<Step>,
    ) -> Result<Option<Vec<Step>>, AllocError>
        requires { AreFor graph.now fixed.now flow.now }
        ensures { IfOk result (λ path. IsPathIfSome graph.now (is_open_by fixed.now flow.now)
            (option_map (λ (steps : Vec Step Global). steps.items) path)) }
    {
        let Some(goal) = &mut self.goal else {
            return Ok(None);
        };
        let Some(source) = goal.path(graph, flow, &mut self.steps)? else {
            self.goal = None;
            return Ok(None);
        };
        number(graph, &mut self.levels, &self.steps);
        let test = OpenSteps { fixed, flow };
        let path = checked(
            alloc,
            graph,
            &test,
            &self.levels,
            &self.steps,
            source,
            spare,
        )?;
        if path.is_none() {
            self.goal = None;
        }
        Ok(path)
    }
}

/// Gives the files on a path their places on it.
fn number(graph: &TwoWayGraph<'_>, levels: &mut Vec<u16>, steps: &[Step]) {
    let mut level = 1_u16;
    for step in steps {
        put_level(graph, levels, *step, level);
        level = level.saturating_add(1);
    }
}

/// Gives the file from which a step leads a level, and that to which it leads the next.
fn put_level(graph: &TwoWayGraph<'_>, levels: &mut Vec<u16>, step: Step, level: u16) {
    let Some(edge) = graph.edges().get(step.edge.index()) else {
        return;
    };
    let (from, to) = if step.forward {
        (edge.from, edge.to)
    } else {
        (edge.to, edge.from)
    };
    if from.index() < levels.len() && to.index() < levels.len() {
        levels[from.index()] = level;
        levels[to.index()] = level.saturating_add(1);
    }
}

/// The steps, if they are a path from the source at a place of the graph's sources on which each file has a greater level than the one before,
/// in the list that is spare.
fn checked<T: StepTest>(
    alloc: Global,
    graph: &TwoWayGraph<'_>,
    test: &T,
    levels: &[u16],
    steps: &[Step],
    source: usize,
    spare: &mut Vec<Step>,
) -> Result<Option<Vec<Step>>, AllocError>
    requires { T.edges test.now ≡ length graph.now.edges }
    ensures { IfOk result (λ path. IsPathIfSome graph.now (T.passes test.now)
        (option_map (λ (steps : Vec Step Global). steps.items) path)) }
{
    let sources = graph.sources();
    if source >= sources.len() || levels.len() != graph.files() {
        return Ok(None);
    }
    let mut list = mem::replace(spare, Vec::new(alloc));
    list.clear();
    let mut way = Way {
        steps: list,
        file: sources[source],
        patience: 0,
    };
    if arrives(graph, test, levels, steps, &mut way)? {
        return Ok(Some(way.steps));
    }
    Ok(None)
}

/// Goes on by each of the steps to a header; false where one cannot be gone, or the last one leads to no header.
fn arrives<T: StepTest>(
    graph: &TwoWayGraph<'_>,
    test: &T,
    levels: &[u16],
    steps: &[Step],
    way: &mut Way,
) -> Result<bool, AllocError>
    requires edges { T.edges test.now ≡ length graph.now.edges }
    requires way { IsWay graph.now (T.passes test.now) levels.now way.old.steps.items way.old.file }
    ensures { IfOk result (λ goes. OnTrue goes
        (IsTrue (is_path_by graph.now (T.passes test.now) way.new.steps.items))) }
{
    if !follow(graph, test, levels, steps, way)? {
        return Ok(false);
    }
    Ok(graph.is_header(way.file))
}

/// Goes on by each of the steps; false where one cannot be gone.
fn follow<T: StepTest>(
    graph: &TwoWayGraph<'_>,
    test: &T,
    levels: &[u16],
    steps: &[Step],
    way: &mut Way,
) -> Result<bool, AllocError>
    requires edges { T.edges test.now ≡ length graph.now.edges }
    requires way { IsWay graph.now (T.passes test.now) levels.now way.old.steps.items way.old.file }
    ensures { IfOk result (λ goes. OnTrue goes
        (IsWay graph.now (T.passes test.now) levels.now way.new.steps.items way.new.file)) }
{
    for step in steps {
        if !go(graph, test, levels, *step, way)? {
            return Ok(false);
        }
    }
    Ok(true)
}

/// Goes on by a step; false where it leads from another file, does not pass, or leads to no greater level.
fn go<T: StepTest>(
    graph: &TwoWayGraph<'_>,
    test: &T,
    levels: &[u16],
    step: Step,
    way: &mut Way,
) -> Result<bool, AllocError>
    requires edges { T.edges test.now ≡ length graph.now.edges }
    requires way { IsWay graph.now (T.passes test.now) levels.now way.old.steps.items way.old.file }
    ensures { IfOk result (λ goes. OnTrue goes
        (IsWay graph.now (T.passes test.now) levels.now way.new.steps.items way.new.file)) }
{
    if step.edge.index() >= edge_count(graph) || step_source(graph, step) != way.file {
        return Ok(false);
    }
    let next = with_target(graph, &step, way.file);
    if !leads_up(levels, way.file, next.to) || !test.passes(step) {
        return Ok(false);
    }
    way.steps.push(step)?;
    way.file = next.to;
    Ok(true)
}
