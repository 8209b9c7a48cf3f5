//! Compilation databases (`compile_commands.json`): which sources a build compiles, and by which words.
#![tactic(auto)]

mod builds;
mod commands;
mod compiler_commands;
mod compiler_words;
mod configurations;
mod databases;
mod entries;
pub mod laws;
mod paths;

pub use builds::{Build, Use};
pub use commands::{Word, shell_words};
pub use compiler_commands::command_entry;
pub use compiler_words::{Item, Kind, items};
pub use configurations::{Row, configuration};
pub use databases::{DatabaseFault, read_database, read_entries};
pub use entries::{Entry, EntryFault, read_entry};
pub use paths::path_from;
