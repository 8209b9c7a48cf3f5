//! Translation phase 3 of C (ISO/IEC 9899:2018, 5.1.1.2 and 6.4): the lines of preprocessing tokens of a text.
#![tactic(auto)]

mod blanking;
pub mod blanking_laws;
mod classes;
mod kinds;
pub mod laws;
mod lexing;
mod line_tokens;
mod lines;
pub mod memory_laws;
mod pieces;

pub use blanking::blank;
pub use classes::kind_of;
pub use kinds::{IncludeName, Kind};
pub use line_tokens::{LineTokens, lex_end, lex_line, lex_lines, lex_token};
pub use lines::{
    LexFault, LineSketch, Lines, Operand, Prefix, Stretch, TextLines, TextRun, Token, include_name,
    is_hash, lex, line_prefix, text_lines,
};
