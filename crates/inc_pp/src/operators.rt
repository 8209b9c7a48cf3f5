//! Pragma operators (ISO/IEC 9899:2018, 6.10.9), among tokens that are put out as their expansion gives them.
ghost use Rattle.std.specs.Prelude.{◌≡◌, ◌==◌, ◌||◌, List, [], ◌∷◌, false, None, Some, Ok, Err, IfOk, IfErr, OnOk, codes, bytes_eq, map, option_map};
ghost use Rattle.std.specs.List.{list_any};
ghost use Rattle.inc_text.specs.Ascii.{apostrophe, quotation_mark};
ghost use Rattle.inc_token.specs.Views.{seen};
ghost use Rattle.inc_macro.specs.Macros.{first_tokens};
ghost use Rattle.inc_expand.specs.Expansion.{Item};
ghost use Rattle.inc_expand.specs.Places.{place_value};
ghost use Rattle.inc_expand.specs.Sinks.{item_of_source, seen_ref};
ghost use Rattle.inc_pp.specs.Operators.{Grows, marks_in, outcome, outcome_behind, tokens_in_text};
ghost use Rattle.inc_pp.specs.Pragmas as spec;

use crate::causes::Cause;
use crate::lines::operands;
use crate::output::Output;
use crate::pragmas::{changes_macros, names_once, pragma_line, put_tokens};
use inc_expand::{ItemRef, Place, Sink};
use inc_text::{Language, Text};
use inc_token::{Kind, LexFault, Lines, Token, lex};
use std::alloc::{AllocError, Global};

/// What a token has to be.
#[derive(Clone, Copy)]
pub(crate) enum Wanted {
    /// Any token.
    Token,
    /// The `(` after `_Pragma`.
    Open,
    /// The string literal after it.
    Literal,
    /// The `)` after that.
    Close,
}

/// Expanded tokens that are put out one after the other, but for those of operators, whose pragmas take their places. None is kept but the
/// bytes of a literal before its `)`.
#[derive(Drop)]
pub(crate) struct Operators<'p> {
    alloc: Global,
    language: Language,
    /// Where the tokens are, if lines are marked.
    marks: Option<Place<'p>>,
    /// What was put out before, and by now.
    pub(crate) output: Output,
    /// The physical line of the token after which the next one goes on with a line; none where that begins one.
    last: Option<u32>,
    /// Whether a pragma has the file at hand read once.
    once: bool,
    next: Wanted,
    /// The literal of an operator that is not over.
    literal: Vec<u8>,
    /// What is wrong with the first operator that is none. Once there is something, no later token counts.
    fault: Option<Cause>,
}

impl<'p> Operators<'p> {
    /// No token, after what was put out before.
    pub(crate) fn new(
        alloc: Global,
        language: Language,
        marks: Option<Place<'p>>,
        output: Output,
    ) -> Operators<'p>
        ensures none { (is : List Item) → outcome result is ≡ spec.before (record { tokens = output; once = false })
            (spec.laid language (option_map place_value marks.entry) None is) }
        ensures marks { marks_in result ≡ option_map place_value marks.entry }
        ensures output { result.output ≡ output }
    {
        Operators {
            alloc,
            language,
            marks,
            output,
            last: None,
            once: false,
            next: Wanted::Token,
            literal: Vec::new(alloc),
            fault: None,
        }
    }

    /// Whether a pragma has the file at hand read once, where no more tokens come, or why they have a fault.
    pub(crate) fn finish(&self) -> Result<bool, Cause>
        ensures done { IfOk result (λ once. outcome self.now []
            ≡ Ok (record { tokens = self.now.output; once = once })) }
        ensures fault { IfErr result (λ cause. outcome self.now [] ≡ Err cause) }
    {
        if let Some(cause) = self.fault {
            return Err(cause);
        }
        match self.next {
            Wanted::Token => Ok(self.once),
            Wanted::Open => Err(Cause::BadPragma),
            Wanted::Literal => Err(Cause::BadPragma),
            Wanted::Close => Err(Cause::BadPragma),
        }
    }

    /// Takes a token that begins an operator or is none of one.
    fn take_token(&mut self, token: ItemRef<'_>) -> Result<(), AllocError>
        requires good { self.old.fault ≡ None }
        requires next { self.old.next ≡ Wanted.Token }
        ensures same { OnOk result ((is : List Item) →
            outcome self.new is ≡ outcome self.old (seen_ref token.entry ∷ is)) }
        ensures grows { OnOk result (Grows self.old.output self.new.output) }
    {
        if is_operator(self.language, token) {
            self.next = Wanted::Open;
            return Ok(());
        }
        self.output
            .put_next(self.language, &self.marks, self.last, token)?;
        self.last = line_behind(self.language, token);
        Ok(())
    }

    /// Takes the token after `_Pragma`.
    fn take_open(&mut self, token: ItemRef<'_>)
        requires good { self.old.fault ≡ None }
        requires next { self.old.next ≡ Wanted.Open }
        ensures same { (is : List Item) → outcome self.new is ≡ outcome self.old (seen_ref token.entry ∷ is) }
        ensures output { self.new.output ≡ self.old.output }
    {
        if token.bytes == b"(".as_slice() {
            self.next = Wanted::Literal;
        } else {
            self.fault = Some(Cause::BadPragma);
        }
    }

    /// Takes the token after `_Pragma (`.
    fn take_literal(&mut self, token: ItemRef<'_>) -> Result<(), AllocError>
        requires good { self.old.fault ≡ None }
        requires next { self.old.next ≡ Wanted.Literal }
        ensures same { OnOk result ((is : List Item) →
            outcome self.new is ≡ outcome self.old (seen_ref token.entry ∷ is)) }
        ensures output { OnOk result (self.new.output ≡ self.old.output) }
    {
        if token.kind != Kind::Str {
            self.fault = Some(Cause::BadPragma);
            return Ok(());
        }
        self.literal = Vec::from_slice(self.alloc, token.bytes)?;
        self.next = Wanted::Close;
        Ok(())
    }

    /// Takes the token after `_Pragma (` and its literal.
    fn take_close(&mut self, token: ItemRef<'_>) -> Result<(), AllocError>
        requires good { self.old.fault ≡ None }
        requires next { self.old.next ≡ Wanted.Close }
        ensures same { OnOk result ((is : List Item) →
            outcome self.new is ≡ outcome self.old (seen_ref token.entry ∷ is)) }
        ensures grows { OnOk result (Grows self.old.output self.new.output) }
    {
        if token.bytes != b")".as_slice() {
            self.fault = Some(Cause::BadPragma);
            return Ok(());
        }
        self.act(token.line)?;
        Ok(())
    }

    /// Does what the pragma of the literal says. `line`: the physical line of the `)` after it.
    fn act(&mut self, line: u32) -> Result<(), AllocError>
        requires { self.old.fault ≡ None }
        ensures same { OnOk result ((is : List Item) → outcome self.new is
            ≡ outcome_behind (spec.pragma_tokens self.old.language self.old.literal.items) line self.old is) }
        ensures grows { OnOk result (Grows self.old.output self.new.output) }
    {
        match pragma_line(self.alloc, &self.literal, self.language)? {
            Some(text) => {
                self.act_on_text(&text, line)?;
                Ok(())
            }
            None => {
                self.fault = Some(Cause::BadPragma);
                Ok(())
            }
        }
    }

    /// Does what the pragma says whose line is the first of a text.
    fn act_on_text(&mut self, text: &Text, line: u32) -> Result<(), AllocError>
        requires { self.old.fault ≡ None }
        ensures same { OnOk result ((is : List Item) → outcome self.new is
            ≡ outcome_behind (tokens_in_text self.old.language (Some text.now)) line self.old is) }
        ensures grows { OnOk result (Grows self.old.output self.new.output) }
    {
        match lex(self.alloc, text, self.language) {
            Ok(lines) => {
                self.act_on_line(first_line(&lines), line)?;
                Ok(())
            }
            Err(LexFault::OpenComment { .. }) => {
                self.fault = Some(Cause::BadPragma);
                Ok(())
            }
            Err(LexFault::NoMemory) => Err(AllocError),
        }
    }

    /// Does what the pragma of a line says, unless it would put a definition aside or take one back, or take a name away: the tokens
    /// behind it are expanded already.
    fn act_on_line(&mut self, tokens: &[Token<'_>], line: u32) -> Result<(), AllocError>
        requires { self.old.fault ≡ None }
        ensures same { OnOk result ((is : List Item) → outcome self.new is
            ≡ outcome_behind (spec.operated self.old.language (map seen tokens.now)) line self.old is) }
        ensures grows { OnOk result (Grows self.old.output self.new.output) }
    {
        if changes_macros(self.language, operands(tokens)) {
            self.fault = Some(Cause::BadPragma);
            return Ok(());
        }
        self.act_on_other(tokens, line)?;
        Ok(())
    }

    /// Does what another pragma of a line says.
    fn act_on_other(&mut self, tokens: &[Token<'_>], line: u32) -> Result<(), AllocError>
        requires { self.old.fault ≡ None }
        ensures same { OnOk result ((is : List Item) → outcome self.new is
            ≡ outcome_behind (Ok (map seen tokens.now)) line self.old is) }
        ensures grows { OnOk result (Grows self.old.output self.new.output) }
    {
        if names_once(operands(tokens)) {
            self.once = true;
        } else {
            let put = put_tokens(self.language, tokens);
            self.output
                .put_own_line(self.language, &self.marks, line, put)?;
        }
        self.last = None;
        self.next = Wanted::Token;
        Ok(())
    }
}

impl<'p> Sink for Operators<'p> {
    ghost use Rattle.inc_pp.specs.Operators.{takes_operand};

    ghost takes = { takes_operand };

    fn take(&mut self, token: ItemRef<'_>, _first: bool) -> Result<(), AllocError> {
        if self.fault.is_some() {
            return Ok(());
        }
        match self.next {
            Wanted::Token => self.take_token(token),
            Wanted::Open => {
                self.take_open(token);
                Ok(())
            }
            Wanted::Literal => self.take_literal(token),
            Wanted::Close => self.take_close(token),
        }
    }

    fn take_source(&mut self, tokens: &[Token<'_>], first: bool) -> Result<(), AllocError> {
        let mut is_first = first;
        for token in tokens {
            self.take(source_ref(token), is_first)?;
            is_first = false;
        }
        Ok(())
    }
}

/// Whether a token begins an operator.
fn is_operator(language: Language, token: ItemRef<'_>) -> bool
    ensures { result ≡ spec.is_operator language (seen_ref token.entry) }
{
    language.is_gnu() && token.kind == Kind::Identifier && token.bytes == b"_Pragma".as_slice()
}

/// Whether some bytes hold a quote.
fn has_quote(bytes: &[u8]) -> bool
    ensures { result ≡ list_any (λ b. (b == apostrophe) || (b == quotation_mark)) bytes.now }
{
    bytes.iter().any(|b| *b == b'\'' || *b == b'"')
}

/// Whether a token is a lone quote.
fn is_lone(language: Language, token: ItemRef<'_>) -> bool
    ensures { result ≡ spec.is_lone language (seen_ref token.entry) }
{
    language.is_gnu() && token.kind == Kind::Other && has_quote(token.bytes)
}

/// The physical line of the token after which the next one goes on with a line; none after a lone quote.
fn line_behind(language: Language, token: ItemRef<'_>) -> Option<u32>
    ensures { result ≡ spec.line_behind language (seen_ref token.entry) }
{
    if is_lone(language, token) {
        None
    } else {
        Some(token.line)
    }
}

/// The tokens of the first line.
fn first_line<'l, 'a>(lines: &'l Lines<'a>) -> &'l [Token<'a>]
    ensures { map seen result.now ≡ first_tokens lines.now }
{
    if lines.count() == 0 {
        return &[];
    }
    lines.line(0)
}

/// A token of a source as one of an expansion.
pub(crate) fn source_ref<'t>(token: &'t Token<'_>) -> ItemRef<'t>
    ensures { seen_ref result ≡ item_of_source (seen token.now) }
{
    ItemRef {
        kind: token.kind,
        bytes: token.spelling,
        line: token.line,
        space: token.space,
    }
}
