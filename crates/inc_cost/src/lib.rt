//! What each include directive brings into all sources, and what its removal saves.
#![tactic(auto)]

mod adding;
mod branches;
mod certified;
mod checking;
mod costs;
mod ends;
mod entries;
mod groups;
mod hints;
mod numbers;
mod ranking;
mod searched;
mod searches;
mod shares;
mod totals;
mod trees;

pub use branches::{Branch, branches_of};
pub use costs::{Amounts, Costs};
pub use groups::{Group, GroupCost, group_cost};
pub use ranking::dearest;
pub use totals::total;
pub use trees::{Node, TreeWalk, forest, own_weight};
