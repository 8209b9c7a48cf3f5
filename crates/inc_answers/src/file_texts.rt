//! Texts that are handed up beside an answer, for files.
ghost use Rattle.std.specs.Prelude.{◌≡◌, []};

use std::marker::Model;

/// A text for a file.
#[derive(Drop)]
pub struct FileText {
    /// None where there is nothing: then no memory is taken.
    text: Option<Vec<u8>>,
}

impl Model for FileText {
    ghost use Rattle.std.specs.Prelude.{ℕ, List, []};
    ghost use Rattle.std.specs.Option.{option_map_or};

    ghost Value = { List ℕ };

    ghost view = { λ t. option_map_or (λ b. b.items) t.text [] };
}

impl FileText {
    /// Nothing.
    pub fn none() -> FileText
        ensures { result ≡ [] }
    {
        FileText { text: None }
    }

    /// These bytes.
    pub fn of(text: Vec<u8>) -> FileText
        ensures { result ≡ text.items }
    {
        FileText { text: Some(text) }
    }

    /// The bytes.
    pub fn text(&self) -> &[u8]
        ensures { result.now ≡ self.now }
    {
        match &self.text {
            Some(text) => text,
            None => &[],
        }
    }
}
