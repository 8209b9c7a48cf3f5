//! Conditions of if-sections (ISO/IEC 9899:2018, 6.10.1).
ghost use Rattle.std.specs.Prelude.{◌≡◌, ◌<◌, true, Ok, Err, Some, length, map, ok_or, option_map, slice_get, IfOk, IfErr, OnErr};
ghost use Rattle.inc_token.specs.Views.{seen};
ghost use Rattle.inc_directive.specs.Groups.{FileLine};
ghost use Rattle.inc_directive.specs.Parts.{DirectivePart, lines_of_parts};
ghost use Rattle.inc_directive.specs.KindViews.{seen_kind};
ghost use Rattle.inc_macro.specs.Tables.{table_of};
ghost use Rattle.inc_expand.specs.Expansion.{Meter, Place};
ghost use Rattle.inc_expand.specs.Places.{place_value};
ghost use Rattle.inc_cond.specs.Standing.{all_stand};
ghost use Rattle.inc_pp.specs.Sections as spec;
ghost use Rattle.inc_pp.specs.StateViews.{only, state_of};
ghost use Rattle.inc_pp.specs.declared.causes.Cause.TheVariants.{BadName};
ghost use Rattle.inc_directive.specs.LineKinds.{line_of_tokens};
ghost use Rattle.inc_pp.specs.Runs.{with_meter};
ghost use Rattle.inc_pp.specs.Steps.{name_defined, opposite, place_under, test_of, value_true};
ghost use Rattle.inc_pp.specs.Stops.{AreOf, IfStop, IsSearched, halt_at};
ghost use Rattle.inc_pp.specs.Tasks.{File};

use crate::causes::Cause;
use crate::expansions::Around;
use crate::faults::Break;
use crate::line_numbers::Here;
use crate::lines::{first_line, operands};
use crate::settings::Settings;
use crate::states::State;
use inc_cond::{CondFault, CondValue, HeaderSearch, all_stand, standing_value, value};
use inc_directive::{DirectiveKind, FileLines, LineKind};
use inc_expand::Budget;
use inc_macro::Macros;
use inc_token::{Kind, LineTokens, Token};
use std::alloc::Global;

/// What a line asks that begins a branch.
#[derive(Clone, Copy)]
enum Test {
    /// Whether a name is that of a macro.
    Defined,
    /// Whether it is that of none.
    Undefined,
    /// Whether a value is not 0.
    Value,
}

/// What a line of this kind asks.
fn test_of(kind: LineKind<'_>) -> Test
    ensures { result ≡ test_of (seen_kind kind.entry) }
{
    match kind {
        LineKind::Other(DirectiveKind::Ifdef | DirectiveKind::Elifdef) => Test::Defined,
        LineKind::Other(DirectiveKind::Ifndef | DirectiveKind::Elifndef) => Test::Undefined,
        _ => Test::Value,
    }
}

impl State {
    /// Whether the branch of a line is taken.
    pub(crate) fn takes(
        &mut self,
        settings: &Settings<'_>,
        headers: &HeaderSearch<'_>,
        lines: &FileLines,
        i: usize,
        here: &Here,
    ) -> Result<bool, Break>
        requires within { i < length lines.now }
        requires kinds { AreOf settings.now.language (lines_of_parts lines.now) }
        ensures done { IfOk result (λ taken. (f : File) (l : FileLine) → IsSearched settings.now headers.now f →
            slice_get lines.now i ≡ Some (DirectivePart l) →
            spec.is_taken f l (state_of self.old) here.now ≡ Ok (taken, state_of self.new)) }
        ensures reads { (state_of self.new).reads ≡ (state_of self.old).reads }
        ensures stop { IfErr result (λ fault. IfStop fault (λ line cause.
            (state_of self.new ≡ state_of self.old) × ((f : File) (l : FileLine) → IsSearched settings.now headers.now f →
            slice_get lines.now i ≡ Some (DirectivePart l) →
            spec.is_taken f l (state_of self.old) here.now ≡ Err (halt_at f (state_of self.old) line cause)))) }
    {
        match self.ask_line(lines, i) {
            Ok(()) => {}
            Err(fault) => return Err(fault),
        }
        match self.chooses(settings, headers, lines, i, here) {
            Ok(taken) => Ok(taken),
            Err(fault) => Err(fault),
        }
    }

    /// The same of a line in which no name was taken away.
    fn chooses(
        &mut self,
        settings: &Settings<'_>,
        headers: &HeaderSearch<'_>,
        lines: &FileLines,
        i: usize,
        here: &Here,
    ) -> Result<bool, Break>
        requires within { i < length lines.now }
        requires kinds { AreOf settings.now.language (lines_of_parts lines.now) }
        ensures done { IfOk result (λ taken. (f : File) (l : FileLine) → IsSearched settings.now headers.now f →
            slice_get lines.now i ≡ Some (DirectivePart l) →
            spec.is_chosen f l (state_of self.old) here.now ≡ Ok (taken, state_of self.new)) }
        ensures reads { (state_of self.new).reads ≡ (state_of self.old).reads }
        ensures stop { IfErr result (λ fault. IfStop fault (λ line cause.
            (state_of self.new ≡ state_of self.old) × ((f : File) (l : FileLine) → IsSearched settings.now headers.now f →
            slice_get lines.now i ≡ Some (DirectivePart l) →
            spec.is_chosen f l (state_of self.old) here.now ≡ Err (halt_at f (state_of self.old) line cause)))) }
    {
        match test_of(lines.kind(i)) {
            Test::Defined => defined_at(&self.macros, lines, i),
            Test::Undefined => undefined_at(&self.macros, lines, i),
            Test::Value => {
                let taken = self.is_true_at(settings, headers, lines, i, here)?;
                Ok(taken)
            }
        }
    }

    /// Whether the value of the operands of a line is not 0.
    fn is_true_at(
        &mut self,
        settings: &Settings<'_>,
        headers: &HeaderSearch<'_>,
        lines: &FileLines,
        i: usize,
        here: &Here,
    ) -> Result<bool, Break>
        requires within { i < length lines.now }
        ensures done { IfOk result (λ taken. (l : FileLine) → slice_get lines.now i ≡ Some (DirectivePart l) →
            value_true headers.now (place_under settings.now here.now) (table_of self.old.macros)
            self.old.budget (spec.operands l) ≡ Ok (taken, self.new.budget)) }
        ensures stop { IfErr result (λ fault. IfStop fault (λ line cause. (self.new.budget ≡ self.old.budget)
            × ((l : FileLine) → slice_get lines.now i ≡ Some (DirectivePart l) → (line ≡ line_of_tokens l.tokens)
            × (value_true headers.now (place_under settings.now here.now) (table_of self.old.macros)
            self.old.budget (spec.operands l) ≡ Err cause)))) }
        ensures kept { state_of self.new ≡ with_meter self.new.budget (state_of self.old) }
    {
        if stands_alone(&self.macros, lines, i) {
            return standing_true(self.alloc, &self.macros, headers, lines, i);
        }
        self.is_true_in_list(settings, headers, lines, i, here)
    }

    /// The same, by a list of the tokens of the line.
    fn is_true_in_list(
        &mut self,
        settings: &Settings<'_>,
        headers: &HeaderSearch<'_>,
        lines: &FileLines,
        i: usize,
        here: &Here,
    ) -> Result<bool, Break>
        requires within { i < length lines.now }
        ensures done { IfOk result (λ taken. (l : FileLine) → slice_get lines.now i ≡ Some (DirectivePart l) →
            value_true headers.now (place_under settings.now here.now) (table_of self.old.macros)
            self.old.budget (spec.operands l) ≡ Ok (taken, self.new.budget)) }
        ensures stop { IfErr result (λ fault. IfStop fault (λ line cause. (self.new.budget ≡ self.old.budget)
            × ((l : FileLine) → slice_get lines.now i ≡ Some (DirectivePart l) → (line ≡ line_of_tokens l.tokens)
            × (value_true headers.now (place_under settings.now here.now) (table_of self.old.macros)
            self.old.budget (spec.operands l) ≡ Err cause)))) }
        ensures kept { state_of self.new ≡ with_meter self.new.budget (state_of self.old) }
    {
        // Lent anew, for as long as the macros.
        let lines = &*lines;
        let here = &*here;
        let settings = &*settings;
        let tokens = lines.line(self.alloc, i)?;
        let around = Around {
            alloc: self.alloc,
            seed: self.seed,
            macros: &self.macros,
            place: here.place(settings),
            line: first_line(&tokens),
        };
        let taken = value_true(&around, headers, operands(&tokens), &mut self.budget)?;
        Ok(taken)
    }
}

/// Whether a line is long, and none of its operands is replaced.
fn stands_alone(macros: &Macros, lines: &FileLines, i: usize) -> bool
    requires within { i < length lines.now }
    ensures { result ≡ true → (l : FileLine) → slice_get lines.now i ≡ Some (DirectivePart l) →
        all_stand (table_of macros.now) (spec.operands l) ≡ true }
{
    if !lines.is_long(i) {
        return false;
    }
    let mut tokens = operand_walk(lines, i);
    all_stand(macros, &mut tokens)
}

/// A walk over the operands of a line.
fn operand_walk(lines: &FileLines, i: usize) -> LineTokens<'_>
    requires within { i < length lines.now }
    ensures { (l : FileLine) → slice_get lines.now i ≡ Some (DirectivePart l) → result ≡ spec.operands l }
{
    let mut tokens = lines.tokens(i);
    let _hash = tokens.next();
    let _name = tokens.next();
    tokens
}

/// Whether the value of the operands of a line is not 0, none of which is replaced.
fn standing_true<'a>(
    alloc: Global,
    macros: &'a Macros,
    headers: &'a HeaderSearch<'a>,
    lines: &FileLines,
    i: usize,
) -> Result<bool, Break>
    requires within { i < length lines.now }
    requires stand { (l : FileLine) → slice_get lines.now i ≡ Some (DirectivePart l) →
        all_stand (table_of macros.now) (spec.operands l) ≡ true }
    ensures done { IfOk result (λ taken. (place : Place) (meter : Meter) (l : FileLine) →
        slice_get lines.now i ≡ Some (DirectivePart l) →
        value_true headers.now place (table_of macros.now) meter (spec.operands l) ≡ Ok (taken, meter)) }
    ensures stop { IfErr result (λ fault. IfStop fault (λ line cause. (place : Place) (meter : Meter) (l : FileLine) →
        slice_get lines.now i ≡ Some (DirectivePart l) → (line ≡ line_of_tokens l.tokens)
        × (value_true headers.now place (table_of macros.now) meter (spec.operands l) ≡ Err cause))) }
{
    let mut tokens = operand_walk(lines, i);
    let value = match standing_value(alloc, &mut tokens, macros, headers) {
        Ok(value) => value,
        Err(CondFault::NoMemory) => return Err(Break::NoMemory),
        Err(fault) => {
            return Err(Break::Stop {
                line: lines.first_line(i),
                cause: Cause::Condition(fault),
            });
        }
    };
    Ok(is_true(value))
}

/// Whether the first operand of a line is the name of a macro.
pub(crate) fn defined_at(macros: &Macros, lines: &FileLines, i: usize) -> Result<bool, Break>
    requires within { i < length lines.now }
    ensures done { IfOk result (λ defined. (l : FileLine) → slice_get lines.now i ≡ Some (DirectivePart l) →
        name_defined (table_of macros.now) (spec.operands l) ≡ Ok defined) }
    ensures stop { IfErr result (λ fault. IfStop fault (λ line cause. (l : FileLine) →
        slice_get lines.now i ≡ Some (DirectivePart l) → (line ≡ line_of_tokens l.tokens)
        × (name_defined (table_of macros.now) (spec.operands l) ≡ Err cause))) }
{
    match is_macro(macros, lines.token(i, 2)) {
        Some(defined) => Ok(defined),
        None => Err(Break::Stop {
            line: lines.first_line(i),
            cause: Cause::BadName,
        }),
    }
}

/// Whether a token is the name of a macro; `None` where it is no name.
fn is_macro(macros: &Macros, token: Option<Token<'_>>) -> Option<bool>
    ensures { ok_or result BadName
        ≡ name_defined (table_of macros.now) (only (option_map seen token.entry)) }
{
    match token {
        Some(name) if name.kind == Kind::Identifier => Some(macros.is_defined(name.spelling)),
        _ => None,
    }
}

/// Whether the first operand of a line is the name of no macro.
fn undefined_at(macros: &Macros, lines: &FileLines, i: usize) -> Result<bool, Break>
    requires within { i < length lines.now }
    ensures done { IfOk result (λ answer. (l : FileLine) → slice_get lines.now i ≡ Some (DirectivePart l) →
        opposite (name_defined (table_of macros.now) (spec.operands l)) ≡ Ok answer) }
    ensures stop { IfErr result (λ fault. IfStop fault (λ line cause. (l : FileLine) →
        slice_get lines.now i ≡ Some (DirectivePart l) → (line ≡ line_of_tokens l.tokens)
        × (opposite (name_defined (table_of macros.now) (spec.operands l)) ≡ Err cause))) }
{
    match defined_at(macros, lines, i) {
        Ok(defined) => Ok(!defined),
        Err(fault) => Err(fault),
    }
}

/// Whether the value of tokens is not 0.
fn value_true<'a>(
    around: &Around<'a>,
    headers: &'a HeaderSearch<'a>,
    tokens: &[Token<'a>],
    budget: &mut Budget,
) -> Result<bool, Break>
    ensures done { IfOk result (λ is_true.
        value_true headers.now (place_value around.now.place) (table_of around.now.macros.now) budget.old
        (map seen tokens.now)
        ≡ Ok (is_true, budget.new)) }
    ensures stop { IfErr result (λ fault. IfStop fault (λ line cause. (line ≡ around.now.line)
        × (value_true headers.now (place_value around.now.place) (table_of around.now.macros.now) budget.old
        (map seen tokens.now)
        ≡ Err cause))) }
    ensures left { OnErr result (budget.new ≡ budget.old) }
{
    match value(
        around.alloc,
        tokens,
        around.macros,
        around.seed,
        &around.place,
        budget,
        headers,
    ) {
        Ok(value) => Ok(is_true(value)),
        Err(CondFault::NoMemory) => Err(Break::NoMemory),
        Err(fault) => Err(Break::Stop {
            line: around.line,
            cause: Cause::Condition(fault),
        }),
    }
}

/// Whether a value is not 0.
fn is_true(value: CondValue) -> bool
    ensures { result ≡ spec.is_true value }
{
    match value {
        CondValue::Signed(value) => value != 0,
        CondValue::Unsigned(value) => value != 0,
    }
}
