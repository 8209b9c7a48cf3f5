//! Directives of no if-section (ISO/IEC 9899:2018, 6.10.2 to 6.10.7).
ghost use Rattle.std.specs.Prelude.{◌≡◌, ◌<◌, true, Ok, Err, Some, length, map, slice_get, IfOk, IfErr, IfSome, OnOk, option_map};
ghost use Rattle.inc_token.specs.Views.{seen};
ghost use Rattle.inc_directive.specs.Groups.{FileLine};
ghost use Rattle.inc_directive.specs.Parts.{DirectivePart, lines_of_parts};
ghost use Rattle.inc_directive.specs.LineKinds.{line_of_tokens};
ghost use Rattle.inc_directive.specs.KindViews.{seen_kind};
ghost use Rattle.inc_expand.specs.Items.{seen_item};
ghost use Rattle.inc_expand.specs.Places.{place_value};
ghost use Rattle.inc_macro.specs.Tables.{table_of};
ghost use Rattle.inc_pp.specs.Directives as spec;
ghost use Rattle.inc_pp.specs.DirectiveSteps.{changed_by, define_by, pragma_by, put_by, renumbered_at, restacked_by, undef_by};
ghost use Rattle.inc_pp.specs.Includes.{included, most_reads};
ghost use Rattle.inc_pp.specs.Pragmas.{stacked};
ghost use Rattle.inc_pp.specs.Runs.{with_meter};
ghost use Rattle.inc_pp.specs.StateViews.{state_of};
ghost use Rattle.inc_pp.specs.Sections.{operands};
ghost use Rattle.inc_pp.specs.Steps.{place_under};
ghost use Rattle.inc_pp.specs.Stops.{AreOf, IfStop, IsIn, IsUnder, halt_at};
ghost use Rattle.inc_pp.specs.Tasks.{File, IsWithin};

use crate::causes::Cause;
use crate::entries::{Entry, entry_of};
use crate::expansions::{Around, expanded};
use crate::faults::Break;
use crate::includes::sought;
use crate::line_numbers::{Here, Numbering, renumbered};
use crate::lines::{after_first, first_line, operands};
use crate::poison::names_poison;
use crate::pragmas::{is_stacking, names_once, put_tokens, stacked_name};
use crate::settings::{Settings, is_too_much};
use crate::states::State;
use inc_directive::{DirectiveKind, FileLines, LineKind};
use inc_expand::{Budget, Item, Place};
use inc_lookup::{DirectiveId, FileId, Found, Project};
use inc_macro::DefineFault;
use inc_token::{Kind, Token};
use std::alloc::AllocError;

impl State {
    /// Does what a directive of no if-section in the file `at` says, and answers the file that is to be read of an include, if any.
    /// `nests`: includes may nest one deeper.
    pub(crate) fn control(
        &mut self,
        project: &Project<'_>,
        settings: &Settings<'_>,
        lines: &FileLines,
        i: usize,
        at: &Found,
        nests: bool,
        here: &mut Here,
    ) -> Result<Option<Entry>, Break>
        requires within { i < length lines.now }
        requires kinds { AreOf settings.now.language (lines_of_parts lines.now) }
        requires file { at.now.file < length project.now.paths }
        ensures done { IfOk result (λ found. (f : File) (l : FileLine) →
            IsIn project.now settings.now at.now nests f → slice_get lines.now i ≡ Some (DirectivePart l) →
            spec.control_read f l (state_of self.old) here.old ≡ included f.deeper found (state_of self.new) here.new) }
        ensures within { IfOk result (λ found. IfSome found (λ k. IsWithin project.now k × (nests ≡ true))) }
        ensures fits { IfOk result (λ found. IfSome found (λ _. length (state_of self.new).reads < most_reads)) }
        ensures reads { (state_of self.new).reads ≡ (state_of self.old).reads }
        ensures stop { IfErr result (λ fault. IfStop fault (λ line cause.
            ((state_of self.new).output ≡ (state_of self.old).output)
            × ((state_of self.new).reads ≡ (state_of self.old).reads)
            × ((f : File) (l : FileLine) → IsIn project.now settings.now at.now nests f → slice_get lines.now i ≡ Some (DirectivePart l) →
            spec.control_read f l (state_of self.old) here.old ≡ Err (halt_at f (state_of self.old) line cause)))) }
    {
        match self.ask_line(lines, i) {
            Ok(()) => {}
            Err(fault) => return Err(fault),
        }
        match self.control_line(project, settings, lines, i, at, nests, here) {
            Ok(found) => Ok(found),
            Err(fault) => Err(fault),
        }
    }

    /// The same of a line in which no name was taken away.
    fn control_line(
        &mut self,
        project: &Project<'_>,
        settings: &Settings<'_>,
        lines: &FileLines,
        i: usize,
        at: &Found,
        nests: bool,
        here: &mut Here,
    ) -> Result<Option<Entry>, Break>
        requires within { i < length lines.now }
        requires kinds { AreOf settings.now.language (lines_of_parts lines.now) }
        requires file { at.now.file < length project.now.paths }
        ensures done { IfOk result (λ found. (f : File) (l : FileLine) →
            IsIn project.now settings.now at.now nests f → slice_get lines.now i ≡ Some (DirectivePart l) →
            spec.control_line f l (state_of self.old) here.old ≡ included f.deeper found (state_of self.new) here.new) }
        ensures within { IfOk result (λ found. IfSome found (λ k. IsWithin project.now k × (nests ≡ true))) }
        ensures fits { IfOk result (λ found. IfSome found (λ _. length (state_of self.new).reads < most_reads)) }
        ensures reads { (state_of self.new).reads ≡ (state_of self.old).reads }
        ensures stop { IfErr result (λ fault. IfStop fault (λ line cause.
            ((state_of self.new).output ≡ (state_of self.old).output)
            × ((state_of self.new).reads ≡ (state_of self.old).reads)
            × ((f : File) (l : FileLine) → IsIn project.now settings.now at.now nests f → slice_get lines.now i ≡ Some (DirectivePart l) →
            spec.control_line f l (state_of self.old) here.old ≡ Err (halt_at f (state_of self.old) line cause)))) }
    {
        match lines.kind(i) {
            LineKind::Include(by, target) => {
                let header = self.header(settings, lines, i, here, target)?;
                let there = sought(self.alloc, project, at, by, &header)?;
                let found = self.led_to(settings, nests, lines, i, by, &there)?;
                let this = DirectiveId {
                    file: at.file,
                    line: lines.first_line(i),
                };
                let entry = entry_of(self.alloc, project, settings, this, here, &header, found)?;
                Ok(entry)
            }
            LineKind::Other(kind) => {
                self.obey(settings, lines, i, at.file, kind, here)?;
                Ok(None)
            }
            LineKind::Text => Ok(None),
        }
    }

    /// Does what a directive says that is no include and of no section.
    fn obey(
        &mut self,
        settings: &Settings<'_>,
        lines: &FileLines,
        i: usize,
        file: FileId,
        kind: DirectiveKind,
        here: &mut Here,
    ) -> Result<(), Break>
        requires within { i < length lines.now }
        ensures done { OnOk result ((f : File) (l : FileLine) → IsUnder settings.now f → f.index ≡ file →
            slice_get lines.now i ≡ Some (DirectivePart l) →
            spec.changed kind f l (state_of self.old) here.old ≡ Ok (state_of self.new, here.new)) }
        ensures reads { (state_of self.new).reads ≡ (state_of self.old).reads }
        ensures stop { IfErr result (λ fault. IfStop fault (λ line cause.
            ((state_of self.new).output ≡ (state_of self.old).output)
            × ((f : File) (l : FileLine) → IsUnder settings.now f → f.index ≡ file →
            slice_get lines.now i ≡ Some (DirectivePart l) → (line ≡ line_of_tokens l.tokens)
            × (spec.changed kind f l (state_of self.old) here.old ≡ Err cause)))) }
    {
        match kind {
            DirectiveKind::Line => {
                let numbering = self.renumbered(settings, lines, i, here)?;
                here.renumber(numbering);
                Ok(())
            }
            kind => {
                let tokens = lines.line(self.alloc, i)?;
                let language = self.macros.language();
                let marks = here.marks(settings);
                self.change(kind, &tokens, file, &marks, settings.most_output())?;
                here.obey(kind, language, &tokens);
                Ok(())
            }
        }
    }

    /// What `#line` or a line marker makes of the numbers of lines.
    fn renumbered(
        &mut self,
        settings: &Settings<'_>,
        lines: &FileLines,
        i: usize,
        here: &Here,
    ) -> Result<Numbering, Break>
        requires within { i < length lines.now }
        ensures done { IfOk result (λ after. (l : FileLine) → slice_get lines.now i ≡ Some (DirectivePart l) →
            renumbered_at here.now l.last_line (place_under settings.now here.now) (table_of self.old.macros)
            self.old.budget l.tokens ≡ Ok (after, self.new.budget)) }
        ensures stop { IfErr result (λ fault. IfStop fault (λ line cause. (l : FileLine) →
            slice_get lines.now i ≡ Some (DirectivePart l) →
            (line ≡ line_of_tokens l.tokens)
            × (renumbered_at here.now l.last_line (place_under settings.now here.now) (table_of self.old.macros)
            self.old.budget l.tokens ≡ Err cause))) }
        ensures kept { state_of self.new ≡ with_meter self.new.budget (state_of self.old) }
    {
        // Lent anew, for as long as the macros.
        let lines = &*lines;
        let here = &*here;
        let settings = &*settings;
        let tokens = lines.line(self.alloc, i)?;
        let around = Around {
            alloc: self.alloc,
            seed: self.seed,
            macros: &self.macros,
            place: here.place(settings),
            line: first_line(&tokens),
        };
        let last = lines.last_line(i);
        let after = line_change(&around, here, last, &tokens, &mut self.budget)?;
        Ok(after)
    }

    /// What a directive changes that is no include, no `#line` and of no section. `marks`: where the tokens are, if lines are marked.
    /// `most`: how many bytes the text of all that is put out has at most, if there is a limit.
    fn change(
        &mut self,
        kind: DirectiveKind,
        tokens: &[Token<'_>],
        file: FileId,
        marks: &Option<Place<'_>>,
        most: Option<u64>,
    ) -> Result<(), Break>
        ensures done { OnOk result (changed_by most (option_map place_value marks.now) kind file (map seen tokens.now) (state_of self.old)
            ≡ Ok (state_of self.new)) }
        ensures reads { (state_of self.new).reads ≡ (state_of self.old).reads }
        ensures stop { IfErr result (λ fault. IfStop fault (λ line cause. (line ≡ line_of_tokens (map seen tokens.now))
            × (changed_by most (option_map place_value marks.now) kind file (map seen tokens.now) (state_of self.old) ≡ Err cause)
            × (state_of self.new ≡ state_of self.old))) }
    {
        match kind {
            DirectiveKind::Define => self.define(tokens),
            DirectiveKind::Undef => self.undef(tokens),
            DirectiveKind::Pragma => self.obey_pragma(tokens, file, marks, most),
            DirectiveKind::Error => Err(Break::Stop {
                line: first_line(tokens),
                cause: Cause::ErrorDirective,
            }),
            DirectiveKind::Foreign | DirectiveKind::Unknown => Err(Break::Stop {
                line: first_line(tokens),
                cause: Cause::UnknownDirective,
            }),
            _ => Ok(()),
        }
    }

    /// Defines a macro by the tokens of its directive.
    fn define(&mut self, tokens: &[Token<'_>]) -> Result<(), Break>
        ensures done { OnOk result (define_by (map seen tokens.now) (state_of self.old)
            ≡ Ok (state_of self.new)) }
        ensures reads { (state_of self.new).reads ≡ (state_of self.old).reads }
        ensures stop { IfErr result (λ fault. IfStop fault (λ line cause. (line ≡ line_of_tokens (map seen tokens.now))
            × (define_by (map seen tokens.now) (state_of self.old) ≡ Err cause)
            × (state_of self.new ≡ state_of self.old))) }
    {
        match self.macros.define(operands(tokens)) {
            Ok(()) => Ok(()),
            Err(DefineFault::NoMemory) => Err(Break::NoMemory),
            Err(fault) => Err(Break::Stop {
                line: first_line(tokens),
                cause: Cause::Define(fault),
            }),
        }
    }

    /// Removes the definition of a name by the tokens of its directive.
    fn undef(&mut self, tokens: &[Token<'_>]) -> Result<(), Break>
        ensures done { OnOk result (undef_by (map seen tokens.now) (state_of self.old)
            ≡ Ok (state_of self.new)) }
        ensures reads { (state_of self.new).reads ≡ (state_of self.old).reads }
        ensures stop { IfErr result (λ fault. IfStop fault (λ line cause. (line ≡ line_of_tokens (map seen tokens.now))
            × (undef_by (map seen tokens.now) (state_of self.old) ≡ Err cause)
            × (state_of self.new ≡ state_of self.old))) }
    {
        match self.macros.undef(operands(tokens)) {
            Ok(_) => Ok(()),
            Err(fault) => Err(Break::Stop {
                line: first_line(tokens),
                cause: Cause::Define(fault),
            }),
        }
    }

    /// Has the file read once, has a definition put aside or taken back, has names taken away, or puts another pragma out as it is, or not
    /// at all.
    fn obey_pragma(
        &mut self,
        tokens: &[Token<'_>],
        file: FileId,
        marks: &Option<Place<'_>>,
        most: Option<u64>,
    ) -> Result<(), Break>
        ensures done { OnOk result (pragma_by most (option_map place_value marks.now) file (map seen tokens.now) (state_of self.old)
            ≡ Ok (state_of self.new)) }
        ensures reads { (state_of self.new).reads ≡ (state_of self.old).reads }
        ensures stop { IfErr result (λ fault. IfStop fault (λ line cause. (line ≡ line_of_tokens (map seen tokens.now))
            × (pragma_by most (option_map place_value marks.now) file (map seen tokens.now) (state_of self.old) ≡ Err cause)
            × (state_of self.new ≡ state_of self.old))) }
    {
        if names_once(operands(tokens)) {
            self.set_once(file)?;
            return Ok(());
        }
        if is_stacking(self.macros.language(), operands(tokens)) {
            self.restack(tokens)?;
            return Ok(());
        }
        if names_poison(self.macros.language(), operands(tokens)) {
            self.obey_poison(operands(operands(tokens)), first_line(tokens))?;
            return Ok(());
        }
        self.put_pragma(tokens, marks, most)?;
        Ok(())
    }

    /// Puts the definition of a macro aside or takes it back, by the tokens of the pragma.
    fn restack(&mut self, tokens: &[Token<'_>]) -> Result<(), Break>
        ensures done { OnOk result (restacked_by (map seen tokens.now) (state_of self.old) ≡ Ok (state_of self.new)) }
        ensures reads { (state_of self.new).reads ≡ (state_of self.old).reads }
        ensures stop { IfErr result (λ fault. IfStop fault (λ line cause. (line ≡ line_of_tokens (map seen tokens.now))
            × (restacked_by (map seen tokens.now) (state_of self.old) ≡ Err cause)
            × (state_of self.new ≡ state_of self.old))) }
    {
        match operands(tokens) {
            [word, rest @ ..] => match stacked_name(rest) {
                Some(name) => {
                    self.stack(word, name)?;
                    Ok(())
                }
                None => Err(bad_pragma(tokens)),
            },
            [] => Err(bad_pragma(tokens)),
        }
    }

    /// The same for the macro of this name, by the name of the pragma.
    fn stack(&mut self, word: &Token<'_>, name: &[u8]) -> Result<(), AllocError>
        ensures done { OnOk result (state_of self.new
            ≡ spec.with_table (stacked (seen word.now) name.now (table_of self.old.macros)) (state_of self.old)) }
        ensures reads { (state_of self.new).reads ≡ (state_of self.old).reads }
    {
        if word.spelling == b"push_macro".as_slice() {
            self.macros.push(name)?;
            return Ok(());
        }
        self.macros.pop(name)?;
        Ok(())
    }

    /// Puts a pragma out as it is, or not at all. Where the text of all that is put out is too long with it, nothing is put out.
    fn put_pragma(
        &mut self,
        tokens: &[Token<'_>],
        marks: &Option<Place<'_>>,
        most: Option<u64>,
    ) -> Result<(), Break>
        ensures done { OnOk result (put_by most (option_map place_value marks.now) (map seen tokens.now) (state_of self.old) ≡ Ok (state_of self.new)) }
        ensures reads { (state_of self.new).reads ≡ (state_of self.old).reads }
        ensures stop { IfErr result (λ fault. IfStop fault (λ line cause. (line ≡ line_of_tokens (map seen tokens.now))
            × (put_by most (option_map place_value marks.now) (map seen tokens.now) (state_of self.old) ≡ Err cause)
            × (state_of self.new ≡ state_of self.old))) }
    {
        let language = self.macros.language();
        let put = put_tokens(language, tokens);
        let line = first_line(tokens);
        let already = self.output.count();
        self.output.put_own_line(language, marks, line, put)?;
        if is_too_much(most, self.output.text().len() as u64) {
            self.output.truncate(already);
            return Err(Break::Stop {
                line,
                cause: Cause::TooMuchOutput,
            });
        }
        Ok(())
    }
}

/// The stop at a pragma that has to name a macro, and does not.
fn bad_pragma(tokens: &[Token<'_>]) -> Break
    ensures { result ≡ Break.Stop (line_of_tokens (map seen tokens.now)) Cause.BadPragma }
{
    Break::Stop {
        line: first_line(tokens),
        cause: Cause::BadPragma,
    }
}

/// Whether a directive is a line marker, which has a number in place of the name `line`.
fn is_marker(tokens: &[Token<'_>]) -> bool
    ensures { result ≡ spec.is_marker (map seen tokens.now) }
{
    match tokens {
        [_, name, ..] => name.kind == Kind::Number,
        _ => false,
    }
}

/// The tokens that say a number of lines and perhaps a name, once they are expanded.
fn line_operands<'l, 'a>(tokens: &'l [Token<'a>]) -> &'l [Token<'a>]
    ensures { map seen result.now ≡ spec.line_operands (map seen tokens.now) }
{
    if is_marker(tokens) {
        after_first(tokens)
    } else {
        operands(tokens)
    }
}

/// The items that count of those that the tokens of a directive expand to: flags are after the first two of a line marker.
fn counted<'l, 'a>(tokens: &[Token<'_>], items: &'l [Item<'a>]) -> &'l [Item<'a>]
    ensures { map seen_item result.now ≡ spec.counted (map seen tokens.now) (map seen_item items.now) }
{
    if is_marker(tokens) && items.len() > 2 {
        &items[..2]
    } else {
        items
    }
}

/// What `#line` or a line marker with these tokens makes of the numbers of lines; it ends on the given line.
fn line_change<'a>(
    around: &Around<'a>,
    here: &Here,
    last: u32,
    tokens: &[Token<'a>],
    budget: &mut Budget,
) -> Result<Numbering, Break>
    ensures done { IfOk result (λ after.
        renumbered_at here.now last (place_value around.now.place) (table_of around.now.macros.now)
        budget.old (map seen tokens.now) ≡ Ok (after, budget.new)) }
    ensures stop { IfErr result (λ fault. IfStop fault (λ line cause. (line ≡ around.now.line)
        × (renumbered_at here.now last (place_value around.now.place) (table_of around.now.macros.now)
        budget.old (map seen tokens.now) ≡ Err cause))) }
{
    let items = expanded(around, line_operands(tokens), budget)?;
    let language = around.macros.language();
    match renumbered(around.alloc, language, here, last, counted(tokens, &items))? {
        Some(after) => Ok(after),
        None => Err(Break::Stop {
            line: around.line,
            cause: Cause::BadLine,
        }),
    }
}
