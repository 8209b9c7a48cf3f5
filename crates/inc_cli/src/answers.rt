//! How a run ends that is answered.
use inc_answers::End;

/// How a run ends that is answered, and what is noted beside the answer.
#[derive(Drop)]
pub struct Answer {
    /// How the call ended that printed the answer.
    pub end: End,
    /// What is noted of the words that ask for it: a line for each note.
    pub notes: Vec<u8>,
}
