//! The front of a line: whether it has a token, and what the kind of a directive rests on.
ghost use Rattle.std.specs.Prelude.{◌≡◌, ◌≤◌, ◌<◌, ◌+◌, Ok, Err, IfOk, IfErr, IfSome, false, length, take, drop, slice_index};
ghost use Rattle.inc_token.specs.LineFronts.{Brief, Begun, Nothing, Hash, Known, EndsLine, EndsText, FailsAhead, HasMoved, IsBrief, IsFrontIn, IsFrontOf, IsPlaced, IsTextFront, TakesFirst, TakesNext, ahead_of, begins_text, begun_of, directive, seen_brief};
ghost use Rattle.inc_token.specs.LineWalk.{EndsAt, IsPrefixIn, IsRun, TakesLine, line_in, lines_at};
ghost use Rattle.inc_token.specs.Views.{seen_prefix};
ghost use Rattle.inc_token.specs.Spellings.{is_blank};
ghost use Rattle.inc_token.specs.TokenLines.{piece_at};
ghost use Rattle.inc_text.specs.PhaseText.{longest_text};

use super::{LexFault, is_hash, is_include_name};
use crate::kinds::Kind;
use crate::pieces::{
    Piece, Progress, Skipped, is_single_hash, line_feeds_at, piece_at, skip_blanks, skip_line,
};
use inc_text::{Cursor, Language, Text};
use std::marker::Model;

/// The token after the name of an include directive (ISO/IEC 9899:2018, 6.10.2), its spelling lent from the text.
#[derive(Clone, Copy, Debug)]
pub struct Operand<'a> {
    /// Its class; a header name counts there.
    pub kind: Kind,
    /// Its bytes, after phases 1 and 2.
    pub spelling: &'a [u8],
}

/// What the kind of a directive rests on (ISO/IEC 9899:2018, 6.10), lent from the text.
#[derive(Clone, Copy, Debug)]
pub struct Prefix<'a> {
    /// The place of its `#`.
    pub hash: usize,
    /// The bytes of the token after the `#`; a null directive (6.10.7) has none.
    pub name: Option<&'a [u8]>,
    /// The token after the name of an include directive, if one is on the line; no other directive has one.
    pub operand: Option<Operand<'a>>,
    /// The place after the last of these tokens.
    pub end: usize,
}

/// What a line begins with.
#[derive(Clone, Copy)]
pub(crate) enum Front {
    /// No token: the line ends, or the text does.
    Empty,
    /// The `#` of a directive, which is at this place.
    Hash(usize),
    /// Another token.
    Text,
}

/// Lines of text, one after the other.
#[derive(Clone, Copy, Debug)]
pub struct TextRun {
    /// The place at which the first of them begins.
    pub start: usize,
    /// How many they are.
    pub lines: u16,
    /// Whether none of them has a token.
    pub is_blank: bool,
    /// The place at which the line after them begins.
    pub end: usize,
}

/// What a walk over a text finds out about a line.
#[derive(Clone, Copy, Debug)]
pub struct LineSketch<'a> {
    /// The place at which it begins.
    pub start: usize,
    /// Whether it has no token.
    pub is_blank: bool,
    /// What the kind of a directive rests on; a line of text has none.
    pub prefix: Option<Prefix<'a>>,
}

/// The most lines of text that are skipped at once.
const MOST_LINES: u16 = 65_535;

/// A place of a text.
#[derive(Drop)]
pub(crate) struct Walk<'a> {
    language: Language,
    bytes: &'a [u8],
    cursor: Cursor<'a>,
    at: usize,
}

/// Whether no directive and no comment begins with a byte: a line that begins with it is one of text, and its first token need not be
/// known. A `%` may begin the digraph `%:`, which is a `#`.
#[inline(always)]
fn begins_text(b: u8) -> bool
    ensures { result ≡ begins_text b }
{
    !matches!(b, b'\n' | b'#' | b'%' | b'/')
}

impl<'a> Walk<'a> {
    /// A place of a text.
    #[inline(always)]
    pub(crate) fn new(text: &'a Text, language: Language, at: usize) -> Walk<'a>
        requires { at ≤ length text.now }
        ensures walk { IsPlaced result }
        ensures same { result.cursor ≡ text.now }
        ensures spoken { result.language ≡ language }
        ensures at { result.at ≡ at }
        ensures short { length text.now ≤ longest_text }
    {
        Walk {
            language,
            bytes: text.bytes(),
            cursor: text.cursor(),
            at,
        }
    }

    /// Goes over the white space at the place.
    #[inline(always)]
    fn skip_blanks(&mut self)
        requires { IsPlaced self.old }
        ensures moved { HasMoved self.old self.new }
        ensures bare { self.new.at < length self.new.cursor →
            is_blank (slice_index self.new.bytes.now self.new.at) ≡ false }
        ensures ahead { (begun : Begun) → ahead_of begun self.new ≡ ahead_of begun self.old }
    {
        self.at = skip_blanks(self.bytes, self.at);
    }

    /// Goes over the white space at the place, and gives what is after it, which is a new-line at the end of the text.
    #[inline(always)]
    fn piece(&mut self, progress: Progress) -> Piece
        requires { IsPlaced self.old }
        ensures moved { HasMoved self.old self.new }
        ensures piece { result ≡ piece_at self.new.language progress (drop self.new.at self.new.bytes.now) }
        ensures ahead { (begun : Begun) → ahead_of begun self.new ≡ ahead_of begun self.old }
    {
        self.skip_blanks();
        if self.at < self.bytes.len() {
            piece_at(self.language, self.bytes, self.at, progress)
        } else {
            Piece::NewLine
        }
    }

    /// Goes over the token of so many bytes at the place.
    fn take(&mut self, kind: Kind, len: usize) -> Operand<'a>
        requires walk { IsPlaced self.old }
        requires fits { self.old.at + len ≤ length self.old.cursor }
        ensures walk { IsPlaced self.new }
        ensures same { self.new.cursor ≡ self.old.cursor }
        ensures spoken { self.new.language ≡ self.old.language }
        ensures after { self.new.at ≡ self.old.at + len }
        ensures kind { result.kind ≡ kind }
        ensures spelling { result.spelling.now ≡ take len (drop self.old.at self.old.bytes.now) }
    {
        let end = self.at + len;
        let bytes = self.bytes;
        let spelling = &bytes[self.at..end];
        self.at = end;
        Operand { kind, spelling }
    }

    /// Goes to the next token of the line and over it, or to the end of the line where it has none left.
    #[inline(always)]
    fn next_token(&mut self, progress: Progress) -> Result<Option<Operand<'a>>, LexFault>
        requires { IsPlaced self.old }
        ensures moved { HasMoved self.old self.new }
        ensures token { IfOk result (λ token. TakesNext progress self.old token self.new) }
        ensures ends { IfOk result (λ token. IfSome token (λ t. EndsAt self.new.bytes.now self.new.at t.spelling.now)) }
        ensures fault { IfErr result (λ fault. FailsAhead progress self.old fault) }
    {
        'gaps: loop {
            match self.piece(progress) {
                Piece::Blank(len) => self.at += len,
                Piece::NewLine => return Ok(None),
                Piece::Lexeme(kind, len) => return Ok(Some(self.take(kind, len))),
                Piece::Unclosed => {
                    let line = self.cursor.place_of(self.at).line;
                    return Err(LexFault::OpenComment { line });
                }
            }
        }
    }

    /// Skips what is left of a line, and the LF that ends it. Says whether an LF does, since the text may end inside the line.
    #[inline(always)]
    pub(crate) fn end_line(&mut self) -> Result<bool, LexFault>
        requires { IsPlaced self.old }
        ensures moved { HasMoved self.old self.new }
        ensures ends { IfOk result (λ ended. EndsLine self.old ended self.new) }
        ensures fault { IfErr result (λ fault. (b : Brief) → ahead_of (Known b) self.old ≡ Err fault) }
    {
        match skip_line(self.language, self.bytes, self.at) {
            Skipped::ToLineEnd(stop) => {
                if stop < self.bytes.len() {
                    self.at = stop + 1;
                    Ok(true)
                } else {
                    self.at = stop;
                    Ok(false)
                }
            }
            Skipped::ToOpenComment(stop) => {
                let line = self.cursor.place_of(stop).line;
                Err(LexFault::OpenComment { line })
            }
        }
    }

    /// Goes over the first token of a line, which is of so many bytes, and says whether it begins a directive.
    #[inline(always)]
    fn take_word(&mut self, len: usize) -> Front
        requires walk { IsPlaced self.old }
        requires fits { self.old.at + len ≤ length self.old.cursor }
        requires some { 1 ≤ len }
        requires stands { (kind : Kind) ×
            (piece_at self.old.language Progress.AtStart (drop self.old.at self.old.bytes.now) ≡ Piece.Lexeme kind len) }
        ensures moved { HasMoved self.old self.new }
        ensures front { ahead_of Nothing self.old ≡ ahead_of (begun_of self.old.cursor result) self.new }
        ensures hash { IsFrontIn (length self.old.cursor) result }
    {
        let start = self.at;
        self.at += len;
        if is_hash(&self.bytes[start..start + len]) {
            return Front::Hash(start);
        }
        Front::Text
    }

    /// Goes over what is at the place, where the line has no token so far and no white space is. Of a comment it gives nothing.
    #[inline(always)]
    fn take_first(&mut self) -> Result<Option<Front>, LexFault>
        requires walk { IsPlaced self.old }
        requires left { self.old.at < length self.old.cursor }
        requires bare { is_blank (slice_index self.old.bytes.now self.old.at) ≡ false }
        ensures moved { HasMoved self.old self.new }
        ensures first { IfOk result (λ front. TakesFirst self.old front self.new) }
        ensures hash { IfOk result (λ front. IfSome front (IsFrontIn (length self.old.cursor))) }
        ensures fault { IfErr result (λ fault. ahead_of Nothing self.old ≡ Err fault) }
    {
        if is_single_hash(self.bytes, self.at) {
            return Ok(Some(self.take_word(1)));
        }
        if begins_text(self.bytes[self.at]) {
            return Ok(Some(Front::Text));
        }
        match piece_at(self.language, self.bytes, self.at, Progress::AtStart) {
            Piece::Blank(len) => {
                self.at += len;
                Ok(None)
            }
            Piece::NewLine => Ok(Some(Front::Empty)),
            Piece::Lexeme(_, len) => Ok(Some(self.take_word(len))),
            Piece::Unclosed => {
                let line = self.cursor.place_of(self.at).line;
                Err(LexFault::OpenComment { line })
            }
        }
    }

    /// Goes to the first token of the line that begins at the place, and over it where it begins a directive.
    #[inline(always)]
    pub(crate) fn front(&mut self) -> Result<Front, LexFault>
        requires { IsPlaced self.old }
        ensures moved { HasMoved self.old self.new }
        ensures front { IfOk result (λ front.
            ahead_of Nothing self.old ≡ ahead_of (begun_of self.old.cursor front) self.new) }
        ensures hash { IfOk result (IsFrontIn (length self.old.cursor)) }
        ensures fault { IfErr result (λ fault. ahead_of Nothing self.old ≡ Err fault) }
    {
        self.skip_blanks();
        while self.at < self.bytes.len() {
            if let Some(front) = self.take_first()? {
                return Ok(front);
            }
            self.skip_blanks();
        }
        Ok(Front::Empty)
    }

    /// Goes over the name of the directive whose `#` is at this place before, and the operand of an include directive.
    #[inline(always)]
    fn prefix(&mut self, hash: usize) -> Result<Prefix<'a>, LexFault>
        requires walk { IsPlaced self.old }
        requires hash { hash < length self.old.cursor }
        ensures moved { HasMoved self.old self.new }
        ensures prefix { IfOk result (λ p. ahead_of (Hash (line_in self.old.cursor hash)) self.old
            ≡ ahead_of (Known (directive (seen_prefix self.old.cursor p))) self.new) }
        ensures whole { IfOk result (λ p. IsBrief self.old.language (directive (seen_prefix self.old.cursor p))) }
        ensures places { IfOk result (λ p. IsPrefixIn self.old.cursor p) }
        ensures fault { IfErr result (λ fault. ahead_of (Hash (line_in self.old.cursor hash)) self.old ≡ Err fault) }
    {
        let Some(name) = self.next_token(Progress::AfterHash)? else {
            return Ok(Prefix {
                hash,
                name: None,
                operand: None,
                end: self.at,
            });
        };
        if !is_include_name(self.language, name.spelling) {
            return Ok(Prefix {
                hash,
                name: Some(name.spelling),
                operand: None,
                end: self.at,
            });
        }
        let operand = self.next_token(Progress::AfterInclude)?;
        Ok(Prefix {
            hash,
            name: Some(name.spelling),
            operand,
            end: self.at,
        })
    }

    /// Goes to the front of the line that begins at the place, and says whether the line has no token where it is one of text. Of a line that may
    /// be a directive it gives nothing, and at the end of the text.
    #[inline(always)]
    fn text_front(&mut self) -> Result<Option<bool>, LexFault>
        requires { IsPlaced self.old }
        ensures moved { HasMoved self.old self.new }
        ensures front { IfOk result (λ front. IsTextFront self.old front self.new) }
        ensures fault { IfErr result (λ fault. ahead_of Nothing self.old ≡ Err fault) }
    {
        self.skip_blanks();
        if self.at >= self.bytes.len() {
            return Ok(None);
        }
        let first = self.bytes[self.at];
        if begins_text(first) {
            return Ok(Some(false));
        }
        if first == b'\n' {
            return Ok(Some(true));
        }
        if first != b'/' {
            return Ok(None);
        }
        self.commented_front()
    }

    /// The same of a line that begins with a slash, and so perhaps with a comment.
    fn commented_front(&mut self) -> Result<Option<bool>, LexFault>
        requires { IsPlaced self.old }
        ensures moved { HasMoved self.old self.new }
        ensures front { IfOk result (λ front. IsTextFront self.old front self.new) }
        ensures fault { IfErr result (λ fault. ahead_of Nothing self.old ≡ Err fault) }
    {
        let at = self.at;
        match self.front()? {
            Front::Empty => Ok(Some(true)),
            Front::Text => Ok(Some(false)),
            Front::Hash(_) => {
                self.at = at;
                Ok(None)
            }
        }
    }

    /// Ends a line of text at whose front the walk is, and skips the empty lines after it. Says how many lines that are, at most so many; 0 where
    /// the text ends inside the line.
    #[inline(always)]
    fn end_text(&mut self, most: u16) -> Result<u16, LexFault>
        requires walk { IsPlaced self.old }
        requires some { 0 < most }
        ensures moved { HasMoved self.old self.new }
        ensures lines { IfOk result (λ lines. EndsText self.old lines self.new) }
        ensures few { IfOk result (λ lines. lines ≤ most) }
        ensures fault { IfErr result (λ fault. (b : Brief) → ahead_of (Known b) self.old ≡ Err fault) }
    {
        let line_feeds = line_feeds_at(self.bytes, self.at, most);
        if line_feeds > 0 {
            self.at += line_feeds as usize;
            return Ok(line_feeds);
        }
        if self.end_line()? { Ok(1) } else { Ok(0) }
    }

    /// Skips lines of text, from one on that begins at the place. It stops at the front of a line that may be a directive.
    #[inline(always)]
    pub(crate) fn skip_text(&mut self) -> Result<TextRun, LexFault>
        requires { IsPlaced self.old }
        ensures moved { HasMoved self.old self.new }
        ensures run { IfOk result (λ run. IsRun self.old.language self.old.cursor self.old.at run) }
        ensures front { IfOk result (λ run. IsFrontOf run.end self.new) }
        ensures fault { IfErr result (λ fault. lines_at self.old.language self.old.cursor self.old.at ≡ Err fault) }
    {
        let mut run = TextRun {
            start: self.at,
            lines: 0,
            is_blank: true,
            end: self.at,
        };
        while run.lines < MOST_LINES {
            let Some(is_blank) = self.text_front()? else {
                return Ok(run);
            };
            let lines = self.end_text(MOST_LINES - run.lines)?;
            if lines == 0 {
                return Ok(run);
            }
            run.lines += lines;
            run.is_blank = run.is_blank && is_blank;
            run.end = self.at;
        }
        Ok(run)
    }

    /// What there is to tell of the line at whose front the walk is, and which begins at this place before.
    #[inline(always)]
    pub(crate) fn sketch(&mut self, start: usize) -> Result<LineSketch<'a>, LexFault>
        requires { IsPlaced self.old }
        ensures moved { HasMoved self.old self.new }
        ensures start { IfOk result (λ s. s.start ≡ start) }
        ensures brief { IfOk result (λ s. IsBrief self.old.language (seen_brief self.old.cursor s)) }
        ensures places { IfOk result (λ s. IfSome s.prefix (IsPrefixIn self.old.cursor)) }
        ensures ahead { IfOk result (λ s. ahead_of Nothing self.old ≡ ahead_of (Known (seen_brief self.old.cursor s)) self.new) }
        ensures fault { IfErr result (λ fault. ahead_of Nothing self.old ≡ Err fault) }
    {
        match self.front()? {
            Front::Empty => Ok(LineSketch {
                start,
                is_blank: true,
                prefix: None,
            }),
            Front::Text => Ok(LineSketch {
                start,
                is_blank: false,
                prefix: None,
            }),
            Front::Hash(hash) => {
                let prefix = self.prefix(hash)?;
                Ok(LineSketch {
                    start,
                    is_blank: false,
                    prefix: Some(prefix),
                })
            }
        }
    }

    /// The line at whose front the walk is, and which begins at this place before; `None` at the end of the text.
    #[inline(always)]
    pub(crate) fn line(&mut self, start: usize) -> Result<Option<LineSketch<'a>>, LexFault>
        requires walk { IsPlaced self.old }
        requires front { IsFrontOf start self.old }
        ensures moved { HasMoved self.old self.new }
        ensures line { IfOk result (λ line. TakesLine (record { language = self.old.language; text = self.old.cursor; at = start }) line
            (record { language = self.new.language; text = self.new.cursor; at = self.new.at })) }
        ensures fault { IfErr result (λ fault. lines_at self.old.language self.old.cursor start ≡ Err fault) }
    {
        if self.at >= self.bytes.len() {
            return Ok(None);
        }
        let sketch = self.sketch(start)?;
        if !self.end_line()? {
            return Ok(None);
        }
        Ok(Some(sketch))
    }

    /// The physical line of a byte of the text. From one place to a later one it counts LFs.
    pub(crate) fn line_of(&mut self, at: usize) -> u32
        requires walk { IsPlaced self.old }
        requires within { at < length self.old.cursor }
        ensures line { result ≡ line_in self.old.cursor at }
        ensures walk { IsPlaced self.new }
        ensures same { self.new.cursor ≡ self.old.cursor }
        ensures spoken { self.new.language ≡ self.old.language }
        ensures at { self.new.at ≡ self.old.at }
    {
        self.cursor.line_of(at)
    }
}
