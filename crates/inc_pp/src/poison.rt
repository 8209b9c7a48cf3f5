//! Names that `#pragma GCC poison` takes away in GNU C, and lines that have one of them.
ghost use Rattle.std.specs.Prelude.{◌≡◌, ◌<◌, true, length, map, slice_get, Ok, Err, Some, IfErr, OnOk};
ghost use Rattle.std.specs.List.{list_all, list_any};
ghost use Rattle.inc_token.specs.Views.{seen};
ghost use Rattle.inc_directive.specs.Groups.{FileLine};
ghost use Rattle.inc_directive.specs.LineKinds.{line_of_tokens};
ghost use Rattle.inc_directive.specs.Parts.{DirectivePart};
ghost use Rattle.inc_token.specs.declared.lines.Token.{Token as LentToken};
ghost use Rattle.inc_pp.specs.HeldFiles.{NonePoisoned};
ghost use Rattle.inc_pp.specs.Poison as spec;
ghost use Rattle.inc_pp.specs.StateViews.{among, state_of};
ghost use Rattle.inc_pp.specs.Stops.{IfStop, halt_at};
ghost use Rattle.inc_pp.specs.Tasks.{File};

use crate::causes::Cause;
use crate::faults::Break;
use crate::lines::{after_first, first_line};
use crate::states::State;
use inc_directive::FileLines;
use inc_macro::{DistinctNames, is_reserved};
use inc_text::Language;
use inc_token::{Kind, Token};
use std::alloc::AllocError;

/// Whether a pragma with this after its name takes names away.
pub(crate) fn names_poison(language: Language, tokens: &[Token<'_>]) -> bool
    ensures { result ≡ spec.names_poison language (map seen tokens.now) }
{
    match tokens {
        [first, second, ..] => {
            language.is_gnu()
                && first.spelling == b"GCC".as_slice()
                && second.spelling == b"poison".as_slice()
        }
        _ => false,
    }
}

/// Whether the tokens of a directive after its `#` are those of such a pragma.
fn poisons(language: Language, tokens: &[Token<'_>]) -> bool
    ensures { result ≡ spec.poisons language (map seen tokens.now) }
{
    match tokens {
        [] => false,
        [name, rest @ ..] => name.spelling == b"pragma".as_slice() && names_poison(language, rest),
    }
}

/// Whether a token is a name that may be taken away.
fn is_poisonable(language: Language, token: &Token<'_>) -> bool
    ensures { result ≡ spec.is_poisonable language (seen token.now) }
{
    token.kind == Kind::Identifier && !is_reserved(language, token.spelling)
}

/// Whether all tokens are.
fn are_poisonable(language: Language, tokens: &[Token<'_>]) -> bool
    ensures { result ≡ list_all (λ (t : LentToken). spec.is_poisonable language (seen t)) tokens.now }
{
    tokens.iter().all(|token| is_poisonable(language, token))
}

/// Whether names have one among them.
fn has_name(names: &DistinctNames, name: &[u8]) -> bool
    ensures { result ≡ among names.now name.now }
{
    names.contains(name)
}

/// Whether a token is a name that was taken away.
fn is_poisoned(poisoned: &DistinctNames, token: &Token<'_>) -> bool
    ensures { result ≡ spec.is_poisoned (among poisoned.now) (seen token.now) }
{
    token.kind == Kind::Identifier && has_name(poisoned, token.spelling)
}

/// Whether any token is.
fn has_poisoned(poisoned: &DistinctNames, tokens: &[Token<'_>]) -> bool
    ensures { result ≡ list_any (λ (t : LentToken). spec.is_poisoned (among poisoned.now) (seen t)) tokens.now }
{
    tokens.iter().any(|token| is_poisoned(poisoned, token))
}

impl State {
    /// Whether no name was taken away, so that no line has to be looked through.
    pub(crate) fn none_poisoned(&self) -> bool
        ensures { result ≡ true → NonePoisoned (state_of self.now) }
    {
        !self.poisoned.exceeds(0)
    }

    /// Takes a name away.
    fn poison(&mut self, name: &[u8]) -> Result<(), AllocError>
        ensures done { OnOk result (state_of self.new ≡ spec.poison name.now (state_of self.old)) }
        ensures reads { (state_of self.new).reads ≡ (state_of self.old).reads }
    {
        self.macros.remove(name);
        self.note_poisoned(name)?;
        Ok(())
    }

    /// Takes the names away that these tokens are.
    fn poison_all(&mut self, tokens: &[Token<'_>]) -> Result<(), AllocError>
        ensures done { OnOk result (state_of self.new ≡ spec.poison_all (map seen tokens.now) (state_of self.old)) }
        ensures reads { (state_of self.new).reads ≡ (state_of self.old).reads }
    {
        let mut left = tokens;
        while let [token, rest @ ..] = left {
            self.poison(token.spelling)?;
            left = rest;
        }
        Ok(())
    }

    /// Does what the pragma with these tokens after `GCC poison` says.
    pub(crate) fn obey_poison(&mut self, tokens: &[Token<'_>], line: u32) -> Result<(), Break>
        ensures done { OnOk result (spec.poisoned_by (map seen tokens.now) (state_of self.old) ≡ Ok (state_of self.new)) }
        ensures reads { (state_of self.new).reads ≡ (state_of self.old).reads }
        ensures stop { IfErr result (λ fault. IfStop fault (λ at cause. (at ≡ line)
            × (spec.poisoned_by (map seen tokens.now) (state_of self.old) ≡ Err cause)
            × (state_of self.new ≡ state_of self.old))) }
    {
        if !are_poisonable(self.macros.language(), tokens) {
            return Err(Break::Stop {
                line,
                cause: Cause::BadPragma,
            });
        }
        self.poison_all(tokens)?;
        Ok(())
    }

    /// Stops at tokens of text where a name among them was taken away.
    pub(crate) fn ask(&self, tokens: &[Token<'_>]) -> Result<(), Break>
        ensures done { OnOk result (spec.asked (state_of self.now).poisoned (map seen tokens.now) ≡ Ok (map seen tokens.now)) }
        ensures stop { IfErr result (λ fault. IfStop fault (λ line cause. (line ≡ line_of_tokens (map seen tokens.now))
            × (spec.asked (state_of self.now).poisoned (map seen tokens.now) ≡ Err cause))) }
    {
        if has_poisoned(&self.poisoned, tokens) {
            return Err(Break::Stop {
                line: first_line(tokens),
                cause: Cause::Poisoned,
            });
        }
        Ok(())
    }

    /// The same of the tokens of a directive.
    fn ask_directive(&self, tokens: &[Token<'_>]) -> Result<(), Break>
        ensures done { OnOk result (spec.asked_directive (state_of self.now) (map seen tokens.now) ≡ Ok (map seen tokens.now)) }
        ensures stop { IfErr result (λ fault. IfStop fault (λ line cause. (line ≡ line_of_tokens (map seen tokens.now))
            × (spec.asked_directive (state_of self.now) (map seen tokens.now) ≡ Err cause))) }
    {
        if poisons(self.macros.language(), after_first(tokens)) {
            return Ok(());
        }
        self.ask(tokens)
    }

    /// The same of a directive of a file. Where no name was taken away the line is not lexed.
    pub(crate) fn ask_line(&self, lines: &FileLines, i: usize) -> Result<(), Break>
        requires within { i < length lines.now }
        ensures done { OnOk result ((f : File) (l : FileLine) → slice_get lines.now i ≡ Some (DirectivePart l) →
            spec.line_asked f l (state_of self.now) ≡ Ok l.tokens) }
        ensures stop { IfErr result (λ fault. IfStop fault (λ line cause. (f : File) (l : FileLine) →
            slice_get lines.now i ≡ Some (DirectivePart l) →
            spec.line_asked f l (state_of self.now) ≡ Err (halt_at f (state_of self.now) line cause))) }
    {
        if self.none_poisoned() {
            return Ok(());
        }
        let tokens = lines.line(self.alloc, i)?;
        match self.ask_directive(&tokens) {
            Ok(()) => Ok(()),
            Err(fault) => Err(fault),
        }
    }
}
