//! The tokens of lines of a text, which are lexed where they are wanted.
ghost use Rattle.std.specs.Prelude.{◌≡◌, ◌≤◌, ◌++◌, [], ◌∷◌, List, Ok, drop, length, map, option_map, slice_get, take, OnOk, IfSome, IfNone};
ghost use Rattle.inc_token.specs.LineWalk.{lines_at, spaced_token, tokens_of_lines};
ghost use Rattle.inc_token.specs.TokenLines.{TokenLine};
ghost use Rattle.inc_token.specs.Views.{seen};

use crate::lexing::{Lexer, Step};
use crate::lines::{Token, lent};
use inc_text::{Language, Text};
use std::alloc::AllocError;
use std::marker::Model;

/// Adds the tokens of so many lines to a list, the first of which begins here. Where they are wanted spaced, the first token of each
/// line has white space before it, since a line end is there. Where memory runs out, nothing is promised of what the list holds. It is
/// no part of its caller, so that the walk has the registers for itself.
#[inline(never)]
pub fn lex_lines<'a>(
    text: &'a Text,
    language: Language,
    at: usize,
    count: usize,
    is_spaced: bool,
    tokens: &mut Vec<Token<'a>>,
) -> Result<(), AllocError>
    requires within { at ≤ length text.now }
    requires lines { (ls : List TokenLine) × (lines_at language text.now at ≡ Ok ls) × (count ≤ length ls) }
    ensures { (ls : List TokenLine) → lines_at language text.now at ≡ Ok ls →
        OnOk result (map seen tokens.new.items
        ≡ map seen tokens.old.items ++ tokens_of_lines is_spaced (take count ls)) }
{
    let bytes = text.bytes();
    let mut lexer = Lexer::at_line(text, language, at);
    let mut left = count;
    let mut is_first = is_spaced;
    while left > 0 {
        match lexer.next() {
            Ok(Step::Token(token)) => {
                tokens.push(spaced(lent(bytes, token), is_first))?;
                is_first = false;
            }
            Ok(Step::LineEnd(_)) => {
                left -= 1;
                is_first = is_spaced;
            }
            Ok(Step::Blank) => {}
            // The text has so many lines, and no fault from here on.
            Ok(Step::End) | Err(_) => unreachable!(),
        }
    }
    Ok(())
}

/// A token, with white space before it where that is wanted.
#[inline(always)]
fn spaced(token: Token<'_>, is_spaced: bool) -> Token<'_>
    ensures { seen result ≡ spaced_token is_spaced (seen token.entry) }
{
    Token {
        spelling: token.spelling,
        first: token.first,
        last: token.last,
        line: token.line,
        kind: token.kind,
        space: is_spaced || token.space,
    }
}

/// A token, counted from 0, of the line that begins here, if it has so many.
#[inline(never)]
pub fn lex_token<'a>(
    text: &'a Text,
    language: Language,
    at: usize,
    place: usize,
) -> Option<Token<'a>>
    requires within { at ≤ length text.now }
    requires line { (l : TokenLine) × (ls : List TokenLine) × (lines_at language text.now at ≡ Ok (l ∷ ls)) }
    ensures { (l : TokenLine) (ls : List TokenLine) → lines_at language text.now at ≡ Ok (l ∷ ls) →
        option_map seen result ≡ slice_get l.tokens place }
{
    let bytes = text.bytes();
    let mut lexer = Lexer::at_line(text, language, at);
    let mut left = place;
    'steps: loop {
        match lexer.next() {
            Ok(Step::Token(token)) => {
                if left == 0 {
                    return Some(lent(bytes, token));
                }
                left -= 1;
            }
            Ok(Step::LineEnd(_)) => return None,
            Ok(Step::Blank) => {}
            // The line ends, and no fault comes before.
            Ok(Step::End) | Err(_) => unreachable!(),
        }
    }
}

/// The physical line of the LF that ends the line that begins here. The whole line is lexed.
#[inline(never)]
pub fn lex_end(text: &Text, language: Language, at: usize) -> u32
    requires within { at ≤ length text.now }
    requires line { (l : TokenLine) × (ls : List TokenLine) × (lines_at language text.now at ≡ Ok (l ∷ ls)) }
    ensures { (l : TokenLine) (ls : List TokenLine) → lines_at language text.now at ≡ Ok (l ∷ ls) →
        result ≡ l.last_line }
{
    let mut lexer = Lexer::at_line(text, language, at);
    'steps: loop {
        match lexer.next() {
            Ok(Step::Token(_) | Step::Blank) => {}
            Ok(Step::LineEnd(line)) => return line,
            // The line ends, and no fault comes before.
            Ok(Step::End) | Err(_) => unreachable!(),
        }
    }
}

/// The tokens of one line, one after the other. They take no memory.
#[derive(Drop)]
pub struct LineTokens<'a> {
    lexer: Lexer<'a>,
    /// Whether the line has ended.
    is_over: bool,
}

impl<'a> Model for LineTokens<'a> {
    ghost use Rattle.std.specs.Prelude.{◌≡◌, List, [], false, if◌then◌else◌};
    ghost use Rattle.inc_token.specs.Lexing.{IsOnLine, line_left};
    ghost use Rattle.inc_token.specs.TokenLines.{Tok};

    ghost Value = { List Tok };

    ghost view = { λ t. if t.is_over then [] else line_left t.lexer };

    ghost invariant = { λ t. t.is_over ≡ false → IsOnLine t.lexer };
}

/// The tokens of the line that begins here.
pub fn lex_line<'a>(text: &'a Text, language: Language, at: usize) -> LineTokens<'a>
    requires within { at ≤ length text.now }
    requires line { (l : TokenLine) × (ls : List TokenLine) × (lines_at language text.now at ≡ Ok (l ∷ ls)) }
    ensures { (l : TokenLine) (ls : List TokenLine) → lines_at language text.now at ≡ Ok (l ∷ ls) →
        result ≡ l.tokens }
{
    LineTokens {
        lexer: Lexer::at_line(text, language, at),
        is_over: false,
    }
}

impl<'a> LineTokens<'a> {
    /// The next token, if there is one.
    pub fn next(&mut self) -> Option<Token<'a>>
        ensures some { IfSome result (λ t. self.old ≡ seen t ∷ self.new) }
        ensures none { IfNone result (self.old ≡ []) }
        ensures rest { self.new ≡ drop 1 self.old }
    {
        if self.is_over {
            return None;
        }
        let next = self.lexer.next_in_line();
        self.is_over = next.is_none();
        next
    }
}
