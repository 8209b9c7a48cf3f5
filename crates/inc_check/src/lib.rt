//! Certificates of cuts: a cut and the chains that show that no other is cheaper, by the paths and lines of their directives.
#![tactic(auto)]

mod ahead;
mod certificates;
mod certifying;
mod checking;
mod judging;
pub mod laws;
mod line_parts;
mod lines;
mod placed_marks;
mod read_texts;
mod verdicts;
mod writing;

pub use certificates::{Certificate, Chains, CountedMarks, MarkList};
pub use certifying::certify;
pub use checking::check;
pub use judging::{CheckFault, check_source};
pub use line_parts::{mark_in, number_behind, number_in};
pub use placed_marks::{digits_len, place_in};
pub use read_texts::{CertFault, read_certificate, read_costs, read_marks};
pub use verdicts::{Reason, Verdict};
pub use writing::{whole_lines, write_certificate};
