//! What is asked of the sources that are to be preprocessed.

use inc_graph::Mark;
use inc_pp::Settings;
use std::marker::Model;

/// Sources of a project that are to be preprocessed.
#[derive(Drop)]
pub struct PpQuestion<'q> {
    /// Their paths, which need not be in normal form.
    pub sources: &'q [&'q [u8]],
    /// Words that define macros before the first line, in order, as `-D` words of a compiler do.
    pub words: &'q [&'q [u8]],
    /// Language, date and time, and what an include directive does whose header is not found.
    pub settings: &'q Settings<'q>,
    /// The include directives that are taken as removed. Marks that name none change nothing.
    pub without: &'q [Mark],
    /// Whether rules for make are asked for, beside what is printed.
    pub has_rules: bool,
    /// Whether it is asked for how each source ended, beside what is printed.
    pub has_endings: bool,
}

impl<'q> Model for PpQuestion<'q> {
    ghost use Rattle.std.specs.Prelude.{map};
    ghost use Rattle.inc_report.specs.PpTerms.{PpQuestion};

    ghost Value = { PpQuestion };

    ghost view = { λ q. record {
      sources = map (λ s. s.now) q.sources.now;
      words = map (λ w. w.now) q.words.now;
      settings = q.settings.now;
      without = q.without.now;
      has_rules = q.has_rules;
      has_endings = q.has_endings;
    } };
}
