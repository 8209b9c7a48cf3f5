//! The C preprocessor (ISO/IEC 9899:2018, 5.1.1.2 phases 1 to 4; 6.10).
#![tactic(auto)]

pub mod blanking_laws;
mod causes;
mod conditions;
mod directive_calls;
mod directives;
mod entries;
mod expansions;
mod faults;
mod file_names;
mod files;
mod files_read;
mod frames;
mod guards;
mod headers;
mod held_files;
mod includes;
mod labels;
mod line_numbers;
mod line_steps;
mod lines;
mod literals;
mod measures;
pub mod memory_laws;
mod open_calls;
mod operators;
mod outcomes;
mod output;
mod poison;
mod pragmas;
mod runs;
mod settings;
mod states;
mod waiting;
mod walks;

pub use causes::{Cause, Stop};
pub use files::Files;
pub use outcomes::{Outcome, PpRefusal, preprocess, preprocess_with};
pub use output::{OutTokenRef, OutTokens, Output};
pub use settings::{Missing, Settings};
pub use walks::Job;
