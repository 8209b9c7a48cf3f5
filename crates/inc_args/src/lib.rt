//! The command line of `incut`: what its words ask for.
#![tactic(auto)]

mod commands;
mod compiler_command;
mod compiler_words;
mod faults;
mod help;
mod options;
mod reading;
mod requests;

pub use compiler_words::as_options;
pub use faults::ArgsFault;
pub use reading::read_args;
pub use requests::{
    Arguments, FileList, FormArgs, FormatArgs, LanguageArgs, LimitArgs, PpArgs, QuestionArgs,
    Request, RuleArgs,
};
