//! A guess at a largest flow: a preflow that is pushed from the sources towards the headers, the highest file first (Goldberg and Tarjan).
//! What cannot go on is left where it is.
ghost use Rattle.std.specs.Prelude.{◌≡◌, length};

use crate::flows::{Flow, Step, edge_count};
use crate::goals::arcs::{Arc, arc_at, room, turned};
use crate::goals::tables::Table;
use inc_graph::{Fixed, TwoWayGraph};
use inc_lookup::FileId;
use std::alloc::{AllocError, Global};

/// So many steps for each file and edge of the graph are looked at before heights are searched anew.
const PERIOD: usize = 4;

/// A preflow on its way.
#[derive(Drop)]
struct Preflow {
    /// What each edge carries.
    carried: Table,
    /// What has come to each file and not gone on.
    excess: Vec<u64>,
    /// How far each file is from a header, at least; the number of files for sources, and for files from which none is reached.
    heights: Table,
    /// How many files have each height.
    counts: Table,
    /// Whether a height was left by its last file since heights were searched: from the files above it no header is reached any more.
    has_gap: bool,
    /// How many steps of each file lead nowhere at its height.
    tried: Table,
    /// 1 for sources and headers, where nothing goes on.
    ends: Table,
    /// For each height 1 plus the first file that has something to push, and for each file 1 plus the next one; 0 where there is none.
    firsts: Table,
    nexts: Table,
    /// No file with something to push is higher.
    highest: usize,
    /// Each file by its place.
    names: Vec<FileId>,
    /// How many steps were looked at, all in all and when heights were last searched.
    work: usize,
    searched: usize,
}

/// What the edges carry by a preflow, and whether nothing was left to push.
#[derive(Drop)]
pub(super) struct Pushed {
    pub carried: Table,
    pub is_done: bool,
}

/// What the edges carry by a preflow that goes on from a flow. Once so many steps for each file and edge of the graph were looked at, what
/// has come to the headers until then has to do.
pub(super) fn preflow_from(
    alloc: Global,
    graph: &TwoWayGraph<'_>,
    fixed: &Fixed,
    flow: &Flow,
    patience: usize,
) -> Result<Pushed, AllocError>
    requires { length flow.now ≡ length graph.now.edges }
{
    let mut preflow = Preflow::new(alloc, graph, flow)?;
    preflow.leave_sources(graph, fixed);
    let size = graph.files().saturating_add(graph.edges().len());
    let most = size.saturating_mul(patience);
    preflow.measure(alloc, graph, fixed)?;
    for _ in 0..most {
        if preflow.is_due(size) {
            preflow.measure(alloc, graph, fixed)?;
        }
        let Some(file) = preflow.take_highest() else {
            return Ok(preflow.ended(true));
        };
        if preflow.work > most {
            break;
        }
        preflow.discharge(graph, fixed, file);
    }
    Ok(preflow.ended(false))
}

impl Preflow {
    /// A flow, from which nothing is pushed yet.
    fn new(alloc: Global, graph: &TwoWayGraph<'_>, flow: &Flow) -> Result<Preflow, AllocError>
        requires { length flow.now ≡ length graph.now.edges }
    {
        let files = graph.files();
        let mut preflow = Preflow {
            carried: Table::new(alloc, graph.edges().len(), 0)?,
            excess: vec![in alloc; 0; files]?,
            heights: Table::new(alloc, files, 0)?,
            counts: Table::new(alloc, files, 0)?,
            has_gap: false,
            tried: Table::new(alloc, files, 0)?,
            ends: Table::new(alloc, files, 0)?,
            firsts: Table::new(alloc, files, 0)?,
            nexts: Table::new(alloc, files, 0)?,
            highest: 0,
            names: vec![in alloc; graph.first_file(); files]?,
            work: 0,
            searched: 0,
        };
        preflow.end_at(graph.sources());
        preflow.end_at(graph.headers());
        for place in 0..edge_count(graph) {
            let amount = flow.on(graph.id(place)).min(u64::from(u32::MAX));
            preflow.carried.put(place, amount as u32);
            preflow.name(graph.target(place));
        }
        Ok(preflow)
    }

    /// Whether heights are to be searched anew, in a graph of so many files and edges: at once where there is a gap, but not more often than
    /// it takes to search them.
    fn is_due(&self, size: usize) -> bool {
        let since = self.work.saturating_sub(self.searched);
        since > size && (self.has_gap || since > size.saturating_mul(PERIOD))
    }

    /// What it carries.
    fn ended(self, is_done: bool) -> Pushed {
        Pushed {
            carried: self.carried,
            is_done,
        }
    }

    /// Marks files at which nothing goes on.
    fn end_at(&mut self, files: &[FileId]) {
        for file in files {
            self.ends.put(file.index(), 1);
        }
    }

    /// Notes a file by its place.
    fn name(&mut self, file: FileId) {
        if file.index() < self.names.len() {
            self.names[file.index()] = file;
        }
    }

    /// What has come to a file.
    fn excess_at(&self, file: FileId) -> u64 {
        match self.excess.get(file.index()) {
            Some(excess) => *excess,
            None => 0,
        }
    }

    /// Writes what has come to a file.
    fn put_excess(&mut self, file: FileId, excess: u64) {
        if file.index() < self.excess.len() {
            self.excess[file.index()] = excess;
        }
    }

    /// Fills all edges that leave sources.
    fn leave_sources(&mut self, graph: &TwoWayGraph<'_>, fixed: &Fixed) {
        for source in graph.sources() {
            self.leave(graph, fixed, *source);
        }
    }

    /// Fills the edges that leave a source.
    fn leave(&mut self, graph: &TwoWayGraph<'_>, fixed: &Fixed, source: FileId) {
        if source.index() >= graph.files() {
            return;
        }
        for edge in graph.leaving(source) {
            let step = &Step::ahead(edge.id);
            let amount = room(fixed, &self.carried, *step);
            self.carry(*step, edge.to, amount);
        }
    }

    /// Has so much more flow by a step to a file.
    fn carry(&mut self, step: Step, to: FileId, amount: u32) {
        let place = step.edge.index();
        let now = self.carried.at(place);
        if step.forward {
            self.carried.put(place, now.saturating_add(amount));
        } else {
            self.carried.put(place, now.saturating_sub(amount));
        }
        let excess = self.excess_at(to).saturating_add(u64::from(amount));
        self.put_excess(to, excess);
    }

    /// Searches how far each file is from a header, over the steps with room, and lists the files that have something to push.
    fn measure(
        &mut self,
        alloc: Global,
        graph: &TwoWayGraph<'_>,
        fixed: &Fixed,
    ) -> Result<(), AllocError> {
        let none = (graph.files() % (1 << 32)) as u32;
        self.heights.fill(none);
        self.tried.fill(0);
        let mut reached = Vec::with_capacity(alloc, graph.files())?;
        for header in graph.headers() {
            self.heights.put(header.index(), 0);
            reached.push(*header)?;
        }
        self.reach_back(graph, fixed, &mut reached)?;
        self.searched = self.work;
        self.count_heights();
        self.list_active();
        Ok(())
    }

    /// Counts the files of each height.
    fn count_heights(&mut self) {
        self.has_gap = false;
        self.counts.fill(0);
        for place in 0..self.heights.len() {
            let height = self.heights.at(place);
            self.count(height);
        }
    }

    /// Counts one more file of a height.
    fn count(&mut self, height: u32) {
        let now = self.counts.at(height as usize);
        self.counts.put(height as usize, now.saturating_add(1));
    }

    /// Reaches the files from which those that are reached are, one height after the other.
    fn reach_back(
        &mut self,
        graph: &TwoWayGraph<'_>,
        fixed: &Fixed,
        reached: &mut Vec<FileId>,
    ) -> Result<(), AllocError> {
        for place in 0..graph.files() {
            let Some(file) = reached.get(place) else {
                break;
            };
            let file = *file;
            self.reach_from(graph, fixed, file, reached)?;
        }
        Ok(())
    }

    /// Reaches the files from which a step with room leads to a file.
    fn reach_from(
        &mut self,
        graph: &TwoWayGraph<'_>,
        fixed: &Fixed,
        file: FileId,
        reached: &mut Vec<FileId>,
    ) -> Result<(), AllocError> {
        let none = (graph.files() % (1 << 32)) as u32;
        let height = self.heights.at(file.index()).saturating_add(1);
        for number in 0..steps_at(graph, file) {
            let Some(arc) = arc_at(graph, file, number) else {
                break;
            };
            let other = arc.to.index();
            if self.heights.at(other) == none
                && self.ends.at(other) == 0
                && room(fixed, &self.carried, turned(arc.step)) > 0
            {
                self.heights.put(other, height);
                reached.push(arc.to)?;
            }
        }
        Ok(())
    }

    /// Lists the files that have something to push, by their heights.
    fn list_active(&mut self) {
        self.firsts.fill(0);
        self.highest = 0;
        for place in 0..self.names.len() {
            if let Some(file) = self.names.get(place) {
                let file = *file;
                if file.index() == place && self.excess_at(file) > 0 {
                    self.list(file);
                }
            }
        }
    }

    /// Lists a file that has something to push, if that can go on.
    fn list(&mut self, file: FileId) {
        let height = self.heights.at(file.index());
        if self.ends.at(file.index()) != 0 || height as usize >= self.names.len() {
            return;
        }
        let place = (file.index() % (1 << 32)) as u32;
        self.nexts
            .put(file.index(), self.firsts.at(height as usize));
        self.firsts.put(height as usize, place.saturating_add(1));
        self.highest = self.highest.max(height as usize);
    }

    /// Takes a file off the list, one of the highest that have something to push.
    fn take_highest(&mut self) -> Option<FileId> {
        for _ in 0..self.names.len() {
            let first = self.firsts.at(self.highest) as usize;
            if let Some(place) = first.checked_sub(1) {
                self.firsts.put(self.highest, self.nexts.at(place));
                return match self.names.get(place) {
                    Some(file) => Some(*file),
                    None => None,
                };
            }
            let Some(lower) = self.highest.checked_sub(1) else {
                return None;
            };
            self.highest = lower;
        }
        None
    }

    /// Pushes what has come to a file on, to files that are lower by one; lifts the file where something is left.
    fn discharge(&mut self, graph: &TwoWayGraph<'_>, fixed: &Fixed, file: FileId) {
        let height = self.heights.at(file.index());
        let first = self.tried.at(file.index()) as usize;
        for number in first..steps_at(graph, file) {
            let Some(arc) = arc_at(graph, file, number) else {
                break;
            };
            self.work = self.work.saturating_add(1);
            if self.heights.at(arc.to.index()).saturating_add(1) != height {
                continue;
            }
            if self.push(fixed, file, arc) {
                self.tried.put(file.index(), (number % (1 << 32)) as u32);
                return;
            }
        }
        self.lift(graph, fixed, file);
    }

    /// Pushes as much on by a step as it has room for; true where nothing is left to push.
    fn push(&mut self, fixed: &Fixed, file: FileId, arc: Arc) -> bool {
        let excess = self.excess_at(file);
        let amount = u64::from(room(fixed, &self.carried, arc.step)).min(excess) as u32;
        if amount == 0 {
            return false;
        }
        let to = arc.to;
        let was_empty = self.excess_at(to) == 0;
        self.carry(arc.step, to, amount);
        if was_empty {
            self.list(to);
        }
        let left = excess.saturating_sub(u64::from(amount));
        self.put_excess(file, left);
        left == 0
    }

    /// Lifts a file above the lowest one to which a step with room leads.
    fn lift(&mut self, graph: &TwoWayGraph<'_>, fixed: &Fixed, file: FileId) {
        let mut lowest = (graph.files() % (1 << 32)) as u32;
        let steps = steps_at(graph, file);
        for number in 0..steps {
            let Some(arc) = arc_at(graph, file, number) else {
                break;
            };
            let height = self.heights.at(arc.to.index());
            if height < lowest && room(fixed, &self.carried, arc.step) > 0 {
                lowest = height;
            }
        }
        self.work = self.work.saturating_add(steps);
        let height = self.heights.at(file.index());
        self.leave_height(height);
        self.count(lowest.saturating_add(1));
        self.heights.put(file.index(), lowest.saturating_add(1));
        self.tried.put(file.index(), 0);
        self.list(file);
    }

    /// Counts one file less of a height.
    fn leave_height(&mut self, height: u32) {
        let left = self.counts.at(height as usize).saturating_sub(1);
        self.counts.put(height as usize, left);
        self.has_gap = self.has_gap || left == 0;
    }
}

/// How many steps a file has.
fn steps_at(graph: &TwoWayGraph<'_>, file: FileId) -> usize {
    if file.index() >= graph.files() {
        return 0;
    }
    let ahead = graph.leaving(file).len();
    ahead.saturating_add(graph.entering(file).len())
}
