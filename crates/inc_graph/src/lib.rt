//! The include graph of a project: which include directives lead from file to file, and by which headers reach sources.
#![tactic(auto)]

mod between;
pub mod between_laws;
mod building;
mod chains;
mod costs;
pub mod cut_laws;
mod edge_costs;
mod edge_numbers;
mod file_sets;
mod fixed;
mod fixing;
mod graphs;
mod header_names;
mod indexes;
mod kept_edges;
pub mod laws;
mod lent_marks;
pub mod mark_laws;
mod marks;
mod missing_lists;
mod naming;
pub mod path_laws;
mod search;
pub mod set_laws;
mod settings;
mod two_way;

pub use between::Between;
pub use building::{GraphRefusal, Source};
pub use chains::{Chain, ShortestChains, SourceChains};
pub use costs::Cost;
pub use edge_numbers::EdgeNumbers;
pub use fixed::{Counted, Fixed, MOST_COST};
pub use fixing::FixedFault;
pub use graphs::{Blocker, BlockerKind, Edge, EdgeId, Graph};
pub use header_names::HeaderName;
pub use lent_marks::LentMark;
pub use marks::Mark;
pub use missing_lists::{Missing, MissingList};
pub use naming::{Near, edge_leaving, edge_leaving_by, edge_named, edge_numbered, edge_on};
pub use search::{ParentStep, Search, Visit};
pub use settings::Setting;
pub use two_way::TwoWayGraph;
