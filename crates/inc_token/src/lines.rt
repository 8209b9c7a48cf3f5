//! Token lines.
ghost use Rattle.std.specs.Prelude.{◌≡◌, ◌≢◌, ◌≤◌, ◌<◌, true, length, map, IfOk, IfErr, Some, Ok, Err, option_map, slice_get};
ghost use Rattle.inc_token.specs.Lexing.{LiesIn, placed};
ghost use Rattle.inc_token.specs.LineEnds.{start_of};
ghost use Rattle.inc_token.specs.Views.{seen};
ghost use Rattle.inc_token.specs.TokenLines.{TokenLine, token_lines, is_hash, include_name, is_include_name};
ghost use Rattle.inc_token.specs.declared.lines.LexFault.TheVariants.{NoMemory};

mod fronts;
mod sketches;

use crate::kinds::{IncludeName, Kind};
use crate::lexing::{PlacedToken, lex_into};
pub use fronts::{LineSketch, Operand, Prefix, TextRun};
use inc_text::{Language, Text};
pub use sketches::{Stretch, TextLines, line_prefix, text_lines};
use std::alloc::{AllocError, AllocFailed, Global};
use std::marker::Model;
use thiserror::Error;

/// A preprocessing token: 32 bytes, its spelling lent from the text.
#[derive(Clone, Copy, Debug)]
pub struct Token<'a> {
    /// Its bytes, after phases 1 and 2.
    pub spelling: &'a [u8],
    /// The first source byte that it stands for, from 0.
    pub first: u32,
    /// The source byte after the last one that it stands for.
    pub last: u32,
    /// The physical line of its first byte, from 1.
    pub line: u32,
    /// Its class.
    pub kind: Kind,
    /// Whether white space or a comment is right before it on its line.
    pub space: bool,
}

/// Why a text has no token lines.
#[derive(Clone, Copy, Debug, PartialEq, Eq, Error)]
pub enum LexFault {
    /// A `/*` has no `*/` after it.
    #[error("unterminated comment, begun on line {line}")]
    OpenComment {
        /// The physical line of the `/*`.
        line: u32,
    },
    /// Memory ran out.
    #[error("out of memory")]
    NoMemory,
}

impl From<AllocError> for LexFault {
    ghost from_gives = { λ _ e. e ≡ NoMemory };

    fn from(_error: AllocError) -> LexFault {
        LexFault::NoMemory
    }
}

impl<T: Drop> From<AllocFailed<T>> for LexFault {
    ghost from_gives = { λ _ e. e ≡ NoMemory };

    fn from(_failed: AllocFailed<T>) -> LexFault {
        LexFault::NoMemory
    }
}

/// Where a line ends.
#[derive(Clone, Copy)]
pub(crate) struct LineEnd {
    /// How many tokens of the text are up to there.
    pub(crate) tokens: u32,
    /// The physical line of the LF.
    pub(crate) last_line: u32,
}

/// The token lines of a text, which it borrows: all tokens in one list, and for each line how many there are up to its end.
#[derive(Drop)]
pub struct Lines<'a> {
    tokens: Vec<Token<'a>>,
    ends: Vec<LineEnd>,
}

impl<'a> Model for Lines<'a> {
    ghost use Rattle.std.specs.Prelude.{List, length, map};
    ghost use Rattle.inc_token.specs.Views.{seen};
    ghost use Rattle.inc_token.specs.TokenLines.{TokenLine};
    ghost use Rattle.inc_token.specs.LineEnds.{lines_of, AreInOrder};

    ghost Value = { List TokenLine };

    ghost view = { λ l. lines_of (map seen l.tokens.items) 0 l.ends.items };

    ghost invariant = { λ l. AreInOrder 0 l.ends.items (length l.tokens.items) };
}

impl<'a> Lines<'a> {
    /// How many lines there are.
    pub fn count(&self) -> usize
        ensures { result ≡ length self.now }
    {
        self.ends.len()
    }

    /// The tokens of a line, counted from 0.
    pub fn line(&self, i: usize) -> &[Token<'a>]
        requires { i < length self.now }
        ensures { option_map (λ (l : TokenLine). l.tokens) (slice_get self.now i)
            ≡ Some (map seen result.now) }
    {
        let tokens = self.tokens.as_slice();
        let ends = self.ends.as_slice();
        let from = start_of(ends, i);
        let to = start_of(ends, i + 1);
        &tokens[from..to]
    }

    /// The physical line of the LF that ends a line, which is counted from 0.
    pub fn last_line(&self, i: usize) -> u32
        requires { i < length self.now }
        ensures { option_map (λ (l : TokenLine). l.last_line) (slice_get self.now i) ≡ Some result }
    {
        self.ends[i].last_line
    }
}

/// The place of the first token of a line, which is counted from 0, or of the first token after the last line.
#[inline(always)]
pub(crate) fn start_of(ends: &[LineEnd], i: usize) -> usize
    requires { i ≤ length ends.now }
    ensures { result ≡ start_of 0 ends.now i }
{
    if i == 0 {
        0
    } else {
        ends[i - 1].tokens as usize
    }
}

/// Whether a token is `#` or the digraph `%:`, which acts as `#` (ISO/IEC 9899:2018, 6.4.6).
#[inline(always)]
pub fn is_hash(spelling: &[u8]) -> bool
    ensures { result ≡ is_hash spelling.now }
{
    matches!(spelling, b"#" | b"%:")
}

/// The name by which a directive includes, if the token after its `#` is spelled so.
#[inline(always)]
pub fn include_name(language: Language, spelling: &[u8]) -> Option<IncludeName>
    ensures { result ≡ include_name language spelling.now }
{
    match language {
        Language::C17 | Language::Extended => plain_include(spelling),
        Language::Gnu => gnu_include(spelling),
    }
}

/// The name of the include directive of C.
#[inline(always)]
fn plain_include(spelling: &[u8]) -> Option<IncludeName>
    ensures { result ≡ include_name Language.C17 spelling.now }
{
    if spelling == b"include".as_slice() {
        Some(IncludeName::Include)
    } else {
        None
    }
}

/// The name of an include directive of GNU C.
#[inline(never)]
fn gnu_include(spelling: &[u8]) -> Option<IncludeName>
    ensures { result ≡ include_name Language.Gnu spelling.now }
{
    if spelling == b"include".as_slice() {
        Some(IncludeName::Include)
    } else if spelling == b"include_next".as_slice() {
        Some(IncludeName::IncludeNext)
    } else if spelling == b"import".as_slice() {
        Some(IncludeName::Import)
    } else {
        None
    }
}

/// Whether a token is the name of an include directive.
#[inline(always)]
pub(crate) fn is_include_name(language: Language, spelling: &[u8]) -> bool
    ensures { result ≡ is_include_name language spelling.now }
{
    include_name(language, spelling).is_some()
}

/// The token lines of a text. Most texts have no more than a token in six bytes, so that few need a longer list.
pub fn lex<'a>(alloc: Global, text: &'a Text, language: Language) -> Result<Lines<'a>, LexFault>
    ensures lines { IfOk result (λ lines. token_lines language text.now ≡ Ok lines) }
    ensures fault { IfErr result (λ fault. fault ≢ LexFault.NoMemory →
        token_lines language text.now ≡ Err fault) }
{
    let mut tokens = Vec::with_capacity(alloc, text.bytes().len() / 6)?;
    let ends = lex_into(alloc, text, language, &mut tokens)?;
    Ok(Lines { tokens, ends })
}

/// A token that lends its spelling from its text.
#[inline(always)]
pub(crate) fn lent<'a>(text: &'a [u8], token: PlacedToken) -> Token<'a>
    requires { LiesIn (length text.now) token }
    ensures { seen result ≡ placed text.now token }
{
    Token {
        spelling: &text[token.at..token.at + token.len],
        first: token.first,
        last: token.last,
        line: token.line,
        kind: token.kind,
        space: token.space,
    }
}
