//! A walk over a text that gives one token or line end at a time, and the lists that its tokens are put into.
ghost use Rattle.std.specs.Prelude.{◌≡◌, ◌≢◌, ◌+◌, ◌≤◌, ◌<◌, ◌++◌, [], ◌∷◌, List, length, map, drop, OnOk, IfOk, IfErr, IfSome, IfNone, Ok, Err};
ghost use Rattle.inc_text.specs.PhaseText.{bytes_of};
ghost use Rattle.inc_token.specs.LineEnds.{AreInOrder, lines_of};
ghost use Rattle.inc_token.specs.Lexing.{Gives, IsBare, IsOnLine, IsWalk, LiesIn, line_left, placed, rest_of};
ghost use Rattle.inc_token.specs.LineWalk.{lines_at};
ghost use Rattle.inc_token.specs.TokenLines.{Tok, piece_at, progress_with, token_lines};
ghost use Rattle.inc_token.specs.Views.{seen};
ghost use Rattle.inc_token.specs.declared.lines.LexFault.TheVariants.{NoMemory};

use crate::kinds::Kind;
use crate::lines::{LexFault, LineEnd, Token, is_hash, is_include_name, lent};
use crate::pieces::{Piece, Progress, Unmatched, next_piece, skip_blanks};
use inc_text::{Cursor, Language, Text};
use std::alloc::Global;

/// A token at a place of a text.
#[derive(Clone, Copy)]
pub(crate) struct PlacedToken {
    /// The place of its first byte.
    pub(crate) at: usize,
    /// How many bytes it has.
    pub(crate) len: usize,
    /// The first source byte that it stands for.
    pub(crate) first: u32,
    /// The source byte after the last one that it stands for.
    pub(crate) last: u32,
    /// The physical line of its first byte.
    pub(crate) line: u32,
    /// Its class.
    pub(crate) kind: Kind,
    /// Whether white space is right before it on its line.
    pub(crate) space: bool,
}

/// What a walk comes to.
#[derive(Clone, Copy)]
pub(crate) enum Step {
    /// A token.
    Token(PlacedToken),
    /// The LF that ends a line, which is on this physical line.
    LineEnd(u32),
    /// White space or a comment.
    Blank,
    /// The end of the text.
    End,
}

/// A walk over a text: the place, and what the line has so far.
#[derive(Drop)]
pub(crate) struct Lexer<'a> {
    language: Language,
    bytes: &'a [u8],
    cursor: Cursor<'a>,
    at: usize,
    progress: Progress,
    /// Whether white space is right before the place.
    space: bool,
    unmatched: Unmatched,
}

impl<'a> Lexer<'a> {
    /// A walk that begins.
    fn new(text: &'a Text, language: Language) -> Lexer<'a>
        ensures walk { IsWalk result }
        ensures same { result.cursor ≡ text.now }
        ensures bytes { result.bytes.now ≡ bytes_of text.now }
        ensures rest { rest_of result ≡ token_lines language text.now }
    {
        Lexer {
            language,
            bytes: text.bytes(),
            cursor: text.cursor(),
            at: 0,
            progress: Progress::AtStart,
            space: false,
            unmatched: Unmatched::none(),
        }
    }

    /// A walk that begins at a line.
    #[inline(always)]
    pub(crate) fn at_line(text: &'a Text, language: Language, at: usize) -> Lexer<'a>
        requires { at ≤ length text.now }
        ensures walk { IsWalk result }
        ensures same { result.cursor ≡ text.now }
        ensures bytes { result.bytes.now ≡ bytes_of text.now }
        ensures rest { rest_of result ≡ lines_at language text.now at }
    {
        Lexer {
            language,
            bytes: text.bytes(),
            cursor: text.cursor_at(at),
            at,
            progress: Progress::AtStart,
            space: false,
            unmatched: Unmatched::none(),
        }
    }

    /// Goes over the white space at the place.
    fn skip(&mut self)
        requires { IsWalk self.old }
        ensures walk { IsWalk self.new }
        ensures after { self.old.at ≤ self.new.at }
        ensures bare { IsBare self.new }
        ensures same { self.new.cursor ≡ self.old.cursor }
        ensures bytes { self.new.bytes.now ≡ self.old.bytes.now }
        ensures rest { rest_of self.new ≡ rest_of self.old }
    {
        let after = skip_blanks(self.bytes, self.at);
        if self.at < after {
            self.at = after;
            self.space = true;
        }
    }

    /// Goes over the white space at the place and over what is after it.
    #[inline(always)]
    pub(crate) fn next(&mut self) -> Result<Step, LexFault>
        requires { IsWalk self.old }
        ensures gives { IfOk result (λ step. Gives self.old step self.new) }
        ensures fault { IfErr result (λ fault. rest_of self.old ≡ Err fault) }
    {
        self.skip();
        if self.at >= self.bytes.len() {
            return Ok(Step::End);
        }
        let step = self.take()?;
        Ok(step)
    }

    /// The next token of the line, or none at its end, which is gone over.
    pub(crate) fn next_in_line(&mut self) -> Option<Token<'a>>
        requires { IsOnLine self.old }
        ensures some { IfSome result (λ t. IsOnLine self.new
            × (line_left self.old ≡ seen t ∷ line_left self.new)) }
        ensures none { IfNone result (line_left self.old ≡ []) }
    {
        'steps: loop {
            match self.next() {
                Ok(Step::Token(token)) => return Some(lent(self.bytes, token)),
                Ok(Step::LineEnd(_)) => return None,
                Ok(Step::Blank) => {}
                // The line ends, and no fault comes before.
                Ok(Step::End) | Err(_) => unreachable!(),
            }
        }
    }

    /// Goes over what is at the place.
    #[inline(always)]
    fn take(&mut self) -> Result<Step, LexFault>
        requires walk { IsWalk self.old }
        requires bare { IsBare self.old }
        requires left { self.old.at < length self.old.cursor }
        ensures gives { IfOk result (λ step. Gives self.old step self.new) }
        ensures fault { IfErr result (λ fault. rest_of self.old ≡ Err fault) }
    {
        match next_piece(
            self.language,
            self.bytes,
            self.at,
            self.progress,
            &mut self.unmatched,
        ) {
            Piece::Blank(len) => {
                self.at += len;
                self.space = true;
                Ok(Step::Blank)
            }
            Piece::NewLine => Ok(Step::LineEnd(self.end_line())),
            Piece::Lexeme(kind, len) => Ok(Step::Token(self.take_token(kind, len))),
            Piece::Unclosed => {
                let line = self.cursor.place_of(self.at).line;
                Err(LexFault::OpenComment { line })
            }
        }
    }

    /// Goes over the LF at the place, which ends the line, and gives its physical line.
    fn end_line(&mut self) -> u32
        requires walk { IsWalk self.old }
        requires left { self.old.at < length self.old.cursor }
        requires new_line { piece_at self.old.language self.old.progress (drop self.old.at self.old.bytes.now)
            ≡ Piece.NewLine }
        ensures { Gives self.old (Step.LineEnd result) self.new }
    {
        let line = self.cursor.place_of(self.at).line;
        self.progress = Progress::AtStart;
        self.space = false;
        self.at += 1;
        line
    }

    /// Goes over the token of so many bytes at the place.
    #[inline(always)]
    fn take_token(&mut self, kind: Kind, len: usize) -> PlacedToken
        requires walk { IsWalk self.old }
        requires left { self.old.at < length self.old.cursor }
        requires some { 1 ≤ len }
        requires fits { self.old.at + len ≤ length self.old.cursor }
        requires lexeme { piece_at self.old.language self.old.progress (drop self.old.at self.old.bytes.now)
            ≡ Piece.Lexeme kind len }
        ensures { Gives self.old (Step.Token result) self.new }
    {
        let at = self.at;
        let end = at + len;
        let space = self.space;
        let range = self.cursor.range_between(at, end);
        self.progress = progress_with(self.language, self.progress, &self.bytes[at..end]);
        self.at = end;
        self.space = false;
        PlacedToken {
            at,
            len,
            first: range.first,
            last: range.last,
            line: range.line,
            kind,
            space,
        }
    }
}

/// What the line has once a token is added.
#[inline(always)]
fn progress_with(language: Language, progress: Progress, spelling: &[u8]) -> Progress
    ensures { result ≡ progress_with language progress spelling.now }
{
    match progress {
        Progress::AtStart if is_hash(spelling) => Progress::AfterHash,
        Progress::AfterHash if is_include_name(language, spelling) => Progress::AfterInclude,
        _ => Progress::Elsewhere,
    }
}

/// Puts the tokens of a text into an empty list, and gives the ends of its lines. Where that fails, some may have been added.
#[inline(always)]
pub(crate) fn lex_into<'a>(
    alloc: Global,
    text: &'a Text,
    language: Language,
    tokens: &mut Vec<Token<'a>>,
) -> Result<Vec<LineEnd>, LexFault>
    requires { tokens.old.items ≡ [] }
    ensures lines { IfOk result (λ ends. token_lines language text.now
        ≡ Ok (lines_of (map seen tokens.new.items) 0 ends.items)) }
    ensures order { IfOk result (λ ends. AreInOrder 0 ends.items (length (map seen tokens.new.items))) }
    ensures fault { IfErr result (λ fault. fault ≢ LexFault.NoMemory →
        token_lines language text.now ≡ Err fault) }
{
    let bytes = text.bytes();
    let mut ends = Vec::new(alloc);
    let mut lexer = Lexer::new(text, language);
    'steps: loop {
        match lexer.next()? {
            Step::Token(token) => tokens.push(lent(bytes, token))?,
            Step::LineEnd(last_line) => {
                let tokens = tokens.len() as u32;
                ends.push(LineEnd { tokens, last_line })?;
            }
            Step::Blank => {}
            Step::End => return Ok(ends),
        }
    }
}
