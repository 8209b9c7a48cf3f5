//! The lines of a text, one after the other. Of each no more is looked at than its kind rests on, and the rest is skipped.
//!
//! The kind of a directive rests on its `#` or the digraph `%:`, its name, and where that includes on one token more. After that the next LF,
//! quote or slash is found sixteen bytes at a time, literals and comments are skipped whole, and no token is made. A line that begins with
//! another byte than `#`, `%` or `/` is skipped from that byte on. Of quotes that open no literal only the first of each kind is followed
//! to the end of its line, so that no line takes more time than its length.
ghost use Rattle.std.specs.Prelude.{◌≡◌, ◌<◌, ◌≤◌, ◌∷◌, List, Ok, Err, IfErr, IfOk, length, option_map};
ghost use Rattle.inc_token.specs.LineWalk.{TakesStretch, line_in, lines_at};
ghost use Rattle.inc_token.specs.Prefixes.{prefix_of};
ghost use Rattle.inc_token.specs.TokenLines.{TokenLine};
ghost use Rattle.inc_token.specs.Views.{seen_prefix};
ghost use Rattle.inc_text.specs.PhaseText.{longest_text};

use super::LexFault;
use super::fronts::{LineSketch, Prefix, TextRun, Walk};
use inc_text::{Language, Text};
use std::marker::Model;

/// Lines of text, perhaps none, and the line after them.
#[derive(Clone, Copy, Debug)]
pub struct Stretch<'a> {
    /// The lines of text, as many as are skipped at once.
    pub text: TextRun,
    /// The line after them: a directive, or another line of text. At the end of the text there is none.
    pub line: Option<LineSketch<'a>>,
}

/// The lines of a text, from the top. They take no memory, and the time of all is in proportion to the text.
#[derive(Drop)]
pub struct TextLines<'a> {
    walk: Walk<'a>,
}

impl<'a> Model for TextLines<'a> {
    ghost use Rattle.inc_token.specs.LineFronts.{IsPlaced};
    ghost use Rattle.inc_token.specs.LineWalk.{Place};

    ghost Value = { Place };

    ghost view = { λ t. record { language = t.walk.language; text = t.walk.cursor; at = t.walk.at } };

    ghost invariant = { λ t. IsPlaced t.walk };
}

/// The lines of a text from a place on, at which one begins.
#[inline(always)]
pub fn text_lines<'a>(text: &'a Text, language: Language, at: usize) -> TextLines<'a>
    requires { at ≤ length text.now }
    ensures lines { result ≡ record { language = language; text = text.now; at = at } }
    ensures short { length text.now ≤ longest_text }
{
    TextLines {
        walk: Walk::new(text, language, at),
    }
}

/// What the kind of a directive rests on, if the line that begins here is one.
#[inline(never)]
pub fn line_prefix<'a>(text: &'a Text, language: Language, at: usize) -> Option<Prefix<'a>>
    requires within { at ≤ length text.now }
    requires line { (l : TokenLine) × (ls : List TokenLine) × (lines_at language text.now at ≡ Ok (l ∷ ls)) }
    ensures { (l : TokenLine) (ls : List TokenLine) → lines_at language text.now at ≡ Ok (l ∷ ls) →
        option_map (seen_prefix text.now) result ≡ prefix_of language l.tokens }
{
    let mut walk = Walk::new(text, language, at);
    match walk.sketch(at) {
        Ok(line) => line.prefix,
        // No fault is from here on.
        Err(_) => unreachable!(),
    }
}

impl<'a> TextLines<'a> {
    /// The lines of text from here on, and the line after them, which may be one of text too. After a fault nothing is said of further calls.
    /// `LexFault::NoMemory` never comes.
    #[inline(always)]
    pub fn next(&mut self) -> Result<Stretch<'a>, LexFault>
        ensures next { IfOk result (λ next. TakesStretch self.old next self.new) }
        ensures fault { IfErr result (λ fault. lines_at self.old.language self.old.text self.old.at ≡ Err fault) }
    {
        let text = self.walk.skip_text()?;
        let line = self.walk.line(text.end)?;
        Ok(Stretch { text, line })
    }

    /// The physical line of a byte of the text. Where places come in order it takes no more time for all than the text has bytes.
    #[inline(always)]
    pub fn line_of(&mut self, at: usize) -> u32
        requires { at < length self.old.text }
        ensures line { result ≡ line_in self.old.text at }
        ensures same { self.new ≡ self.old }
    {
        self.walk.line_of(at)
    }
}
