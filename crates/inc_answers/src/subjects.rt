//! What an answer is about.
ghost use Rattle.inc_answers.specs.Told.{told_printed};
ghost use Rattle.inc_answers.specs.Writing.{SendsWhole};

use crate::kept_sources::KeptFiles;
use crate::missing_notes::Notes;
use crate::outcome::{End, EndKind, noted};
use crate::output::Output;
use inc_graph::Graph;
use inc_lookup::Project;
use inc_text::{ByteSink, Language};

/// The graph of a question, with its project and what is kept of its files.
#[derive(Clone, Copy)]
pub struct Subject<'s> {
    pub project: &'s Project<'s>,
    pub graph: &'s Graph,
    pub files: &'s KeptFiles,
    pub language: Language,
}

/// The text of an answer, how the call ends, and what is noted beside it.
#[derive(Drop)]
pub struct Told {
    pub text: Vec<u8>,
    pub kind: EndKind,
    pub notes: Notes,
}

impl Told {
    /// Sends the text, and says how the call ends.
    pub fn send<W: ByteSink>(self, out: &mut Output<W>) -> End
        ensures { SendsWhole (told_printed self) out.old out.new result }
    {
        out.send(&self.text);
        noted(self.kind, self.notes)
    }
}
