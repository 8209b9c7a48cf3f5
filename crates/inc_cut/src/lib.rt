//! The smallest cut of an include graph, which is a minimum cut: it is found by a maximum flow (the max-flow min-cut theorem; where each
//! edge costs 1, Menger's theorem). Flows through the graph, and the searches for augmenting paths that raise them.
#![tactic(auto)]

mod chains;
mod flows;
mod goals;
pub mod laws;
mod searches;
mod smallest;
mod steps;

pub use chains::CountedChains;
pub use flows::{Flow, Found, PathSearch, Step};
pub use searches::{DepthSearch, LevelSearch, PhaseSearch};
pub use smallest::{CutAnswer, smallest_cut};
