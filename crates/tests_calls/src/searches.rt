//! Searches of the tests' own.
use inc_cut::{DepthSearch, Flow, Found, LevelSearch, PathSearch, Step};
use inc_graph::{Fixed, TwoWayGraph};
use std::alloc::{AllocError, Global};

/// Searches depth first and breadth first by turns.
#[derive(Drop)]
pub struct Turning {
    pub is_deep: bool,
}

impl PathSearch for Turning {
    fn search(
        &mut self,
        alloc: Global,
        graph: &TwoWayGraph<'_>,
        fixed: &Fixed,
        flow: &Flow,
    ) -> Result<Found, AllocError> {
        self.is_deep = !self.is_deep;
        if self.is_deep {
            return DepthSearch.search(alloc, graph, fixed, flow);
        }
        LevelSearch.search(alloc, graph, fixed, flow)
    }

    fn give_back(&mut self, _steps: Vec<Step>) {}
}

/// Searches depth first, and has no memory when it is asked as often as this.
#[derive(Drop)]
pub struct Failing {
    pub left: u32,
}

impl PathSearch for Failing {
    fn search(
        &mut self,
        alloc: Global,
        graph: &TwoWayGraph<'_>,
        fixed: &Fixed,
        flow: &Flow,
    ) -> Result<Found, AllocError> {
        self.left = self.left.saturating_sub(1);
        if self.left == 0 {
            return Err(AllocError);
        }
        DepthSearch.search(alloc, graph, fixed, flow)
    }

    fn give_back(&mut self, _steps: Vec<Step>) {}
}

/// Searches breadth first, and notes the first path.
#[derive(Drop)]
pub struct Noting {
    pub first: Vec<Step>,
}

impl PathSearch for Noting {
    fn search(
        &mut self,
        alloc: Global,
        graph: &TwoWayGraph<'_>,
        fixed: &Fixed,
        flow: &Flow,
    ) -> Result<Found, AllocError> {
        let found = LevelSearch.search(alloc, graph, fixed, flow)?;
        if let Found::Path(steps) = &found {
            if self.first.is_empty() {
                self.first = Vec::from_slice(alloc, steps)?;
            }
        }
        Ok(found)
    }

    fn give_back(&mut self, _steps: Vec<Step>) {}
}
