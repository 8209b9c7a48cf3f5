//! Translation phases 1 and 2 of C (ISO/IEC 9899:2018, 5.1.1.2), with the source places and lines of what is
//! left, and the devices that bytes come from and go to.
#![tactic(auto)]

mod cursors;
mod devices;
mod flags;
mod keys;
mod languages;
pub mod laws;
mod line_feeds;
mod lists;
mod origins;
mod phases;
mod plain_runs;
mod source_pieces;
mod splicing;

pub use cursors::{Cursor, SourceRange};
pub use devices::{
    ByteSink, ByteSource, DeviceFault, LONGEST_FILE, ReadFault, Reading, Writing, read_at,
    read_file, write_whole,
};
pub use flags::{flag_at, set_flag};
pub use keys::{Key, KeyRef, SeededState};
pub use languages::Language;
pub use lists::Items;
pub use phases::{Text, TextFault, splice, splice_owned};
