//! The files of a project, and the search for the file that an include directive names.
#![tactic(auto)]

mod directive_sets;
mod header_names;
mod include_path;
pub mod laws;
mod listings;
mod name_lists;
mod orders;
mod path_keys;
mod path_lists;
mod paths;
mod projects;
mod search_dirs;
mod simple_names;
mod sources;

pub use directive_sets::DirectiveSet;
pub use include_path::{NamedDir, NamedPath, named_path};
pub use listings::LONGEST_PATH;
pub use name_lists::NameList;
pub use paths::normalise;
pub use projects::{DirectiveId, FileId, Form, Found, MOST_FILES, Project, ProjectFault};
pub use search_dirs::IncludePath;
pub use sources::{HeldFiles, SourceFile, Sources};
