//! The files that include directives lead to (ISO/IEC 9899:2018, 6.10.2).
ghost use Rattle.std.specs.Prelude.{◌≡◌, ◌<◌, true, Ok, Err, Some, length, map, slice_get, IfOk, IfErr, IfSome, OnOk};
ghost use Rattle.inc_token.specs.Views.{seen};
ghost use Rattle.inc_directive.specs.Groups.{FileLine};
ghost use Rattle.inc_directive.specs.Parts.{DirectivePart, part_line};
ghost use Rattle.inc_directive.specs.LineKinds.{Computed, line_of_tokens, search_after};
ghost use Rattle.inc_lookup.specs.Projects.{found_place, path_at};
ghost use Rattle.inc_directive.specs.KindViews.{seen_target};
ghost use Rattle.inc_macro.specs.Tables.{table_of};
ghost use Rattle.inc_expand.specs.Places.{place_value};
ghost use Rattle.inc_pp.specs.Includes.{after_found, is_done, is_import, most_reads, not_found};
ghost use Rattle.inc_pp.specs.DirectiveSteps.{header_at, wanted_at};
ghost use Rattle.inc_pp.specs.Runs.{with_meter};
ghost use Rattle.inc_pp.specs.StateViews.{state_of};
ghost use Rattle.inc_pp.specs.Sections.{operands};
ghost use Rattle.inc_pp.specs.Steps.{place_under};
ghost use Rattle.inc_pp.specs.Stops.{IfStop};

use crate::causes::Cause;
use crate::expansions::{Around, expanded};
use crate::faults::Break;
use crate::headers::{Header, HeaderName, header_in};
use crate::line_numbers::Here;
use crate::lines::{first_line, operands};
use crate::settings::{Missing, Settings};
use crate::states::State;
use inc_directive::{FileLines, Target, search_after};
use inc_expand::Budget;
use inc_lookup::{FileId, Form, Found, Project};
use inc_token::{IncludeName, Token};
use std::alloc::{AllocError, Global};

/// The most files that are read.
const MOST_READS: usize = 100_000;

impl State {
    /// The header that the target of an include directive names.
    pub(crate) fn header<'a>(
        &mut self,
        settings: &Settings<'_>,
        lines: &FileLines,
        i: usize,
        here: &Here,
        target: Target<'a>,
    ) -> Result<Header<'a>, Break>
        requires within { i < length lines.now }
        ensures done { IfOk result (λ header. (l : FileLine) → slice_get lines.now i ≡ Some (DirectivePart l) →
            header_at (seen_target target.entry) (place_under settings.now here.now) (table_of self.old.macros)
            self.old.budget (operands l) ≡ Ok (header, self.new.budget)) }
        ensures stop { IfErr result (λ fault. IfStop fault (λ line cause. (l : FileLine) →
            slice_get lines.now i ≡ Some (DirectivePart l) →
            (line ≡ line_of_tokens l.tokens)
            × (header_at (seen_target target.entry) (place_under settings.now here.now) (table_of self.old.macros)
            self.old.budget (operands l) ≡ Err cause))) }
        ensures kept { state_of self.new ≡ with_meter self.new.budget (state_of self.old) }
    {
        match target {
            Target::Quoted(name) => Ok(Header {
                form: Form::Quoted,
                name: HeaderName::Written(name),
            }),
            Target::Angled(name) => Ok(Header {
                form: Form::Angled,
                name: HeaderName::Written(name),
            }),
            Target::ByName(_) | Target::Computed => {
                self.expanded_header(settings, lines, i, here)
            }
            Target::Nothing => Err(Break::Stop {
                line: lines.first_line(i),
                cause: Cause::BadInclude,
            }),
        }
    }

    /// The header that the tokens of an include directive name once they are expanded.
    fn expanded_header<'h>(
        &mut self,
        settings: &Settings<'_>,
        lines: &FileLines,
        i: usize,
        here: &Here,
    ) -> Result<Header<'h>, Break>
        requires within { i < length lines.now }
        ensures done { IfOk result (λ header. (l : FileLine) → slice_get lines.now i ≡ Some (DirectivePart l) →
            header_at Computed (place_under settings.now here.now) (table_of self.old.macros)
            self.old.budget (operands l) ≡ Ok (header, self.new.budget)) }
        ensures stop { IfErr result (λ fault. IfStop fault (λ line cause. (l : FileLine) →
            slice_get lines.now i ≡ Some (DirectivePart l) →
            (line ≡ line_of_tokens l.tokens)
            × (header_at Computed (place_under settings.now here.now) (table_of self.old.macros)
            self.old.budget (operands l) ≡ Err cause))) }
        ensures kept { state_of self.new ≡ with_meter self.new.budget (state_of self.old) }
    {
        // Lent anew, for as long as the macros.
        let lines = &*lines;
        let here = &*here;
        let settings = &*settings;
        let tokens = lines.line(self.alloc, i)?;
        let around = Around {
            alloc: self.alloc,
            seed: self.seed,
            macros: &self.macros,
            place: here.place(settings),
            line: first_line(&tokens),
        };
        let header = computed_header(&around, operands(&tokens), &mut self.budget)?;
        Ok(header)
    }

    /// The file that an include directive leads to which finds this one, or none. `nests`: includes may nest one deeper.
    pub(crate) fn led_to(
        &mut self,
        settings: &Settings<'_>,
        nests: bool,
        lines: &FileLines,
        i: usize,
        by: IncludeName,
        found: &Option<Found>,
    ) -> Result<Option<Found>, Break>
        ensures done { IfOk result (λ wanted. (wanted_at by settings.now.missing nests (state_of self.old) found.now ≡ Ok wanted)
            × (state_of self.new ≡ after_found by found.now (state_of self.old))) }
        ensures stop { IfErr result (λ fault. IfStop fault (λ line cause. (line ≡ part_line lines.now i)
            × (wanted_at by settings.now.missing nests (state_of self.old) found.now ≡ Err cause)
            × (state_of self.new ≡ state_of self.old))) }
        ensures reads { (state_of self.new).reads ≡ (state_of self.old).reads }
        ensures one { IfOk result (λ wanted. IfSome wanted (λ at. (found.now ≡ Some at) × (nests ≡ true))) }
        ensures fits { IfOk result (λ wanted. IfSome wanted (λ _. length (state_of self.new).reads < most_reads)) }
    {
        match self.wanted(by, settings.missing(), nests, found) {
            Ok(wanted) => {
                self.mark(by, found)?;
                Ok(wanted)
            }
            Err(cause) => Err(Break::Stop {
                line: lines.first_line(i),
                cause,
            }),
        }
    }

    /// Has the file that `#import` has found read once.
    fn mark(&mut self, by: IncludeName, found: &Option<Found>) -> Result<(), AllocError>
        ensures done { OnOk result (state_of self.new ≡ after_found by found.now (state_of self.old)) }
        ensures reads { (state_of self.new).reads ≡ (state_of self.old).reads }
    {
        match found {
            Some(at) if is_import(by) => self.set_once(at.file),
            _ => Ok(()),
        }
    }

    /// The file that is to be read of the one that was found, if any. `nests`: includes may nest one deeper.
    fn wanted(
        &self,
        by: IncludeName,
        missing: Missing,
        nests: bool,
        found: &Option<Found>,
    ) -> Result<Option<Found>, Cause>
        ensures wanted { result ≡ wanted_at by missing nests (state_of self.now) found.now }
        ensures one { IfOk result (λ wanted. IfSome wanted (λ at. (found.now ≡ Some at) × (nests ≡ true))) }
        ensures fits { IfOk result (λ wanted. IfSome wanted (λ _. length (state_of self.now).reads < most_reads)) }
    {
        let Some(at) = found else {
            return not_found(missing);
        };
        if self.is_done(by, at.file) {
            return Ok(None);
        }
        if !nests {
            return Err(Cause::TooDeep);
        }
        if self.reads() >= MOST_READS {
            return Err(Cause::TooManyReads);
        }
        Ok(Some(*at))
    }

    /// Whether an include directive does nothing at a file that it finds.
    fn is_done(&self, by: IncludeName, file: FileId) -> bool
        ensures { result ≡ is_done by (state_of self.now) file }
    {
        self.is_once(file) || (is_import(by) && self.has_read(file))
    }
}

/// Whether a directive is `#import`.
fn is_import(by: IncludeName) -> bool
    ensures { result ≡ is_import by }
{
    match by {
        IncludeName::Import => true,
        IncludeName::Include | IncludeName::IncludeNext => false,
    }
}

/// The file that a header names in an include directive of the file `from`, if it is there.
pub(crate) fn sought(
    alloc: Global,
    project: &Project<'_>,
    from: &Found,
    by: IncludeName,
    header: &Header<'_>,
) -> Result<Option<Found>, AllocError>
    requires { from.now.file < length project.now.paths }
    ensures found { IfOk result (λ found. found ≡ found_place project.now (path_at project.now from.now.file)
        header.now.form (search_after by from.now.next) header.now.name) }
    ensures within { IfOk result (λ found. IfSome found (λ at. at.file < length project.now.paths)) }
{
    let after = search_after(by, from.next);
    project.find_from(alloc, from.file, header.form(), after, header.name())
}

/// The header that tokens name once they are expanded.
fn computed_header<'h, 'a>(
    around: &Around<'a>,
    operands: &[Token<'a>],
    budget: &mut Budget,
) -> Result<Header<'h>, Break>
    ensures done { IfOk result (λ header.
        header_at Computed (place_value around.now.place) (table_of around.now.macros.now)
        budget.old (map seen operands.now) ≡ Ok (header, budget.new)) }
    ensures stop { IfErr result (λ fault. IfStop fault (λ line cause. (line ≡ around.now.line)
        × (header_at Computed (place_value around.now.place) (table_of around.now.macros.now)
        budget.old (map seen operands.now) ≡ Err cause))) }
{
    let items = expanded(around, operands, budget)?;
    match header_in(around.alloc, &items)? {
        Some(header) => Ok(header),
        None => Err(Break::Stop {
            line: around.line,
            cause: Cause::BadInclude,
        }),
    }
}

/// An include whose file is not found.
fn not_found(missing: Missing) -> Result<Option<Found>, Cause>
    ensures { result ≡ not_found missing }
{
    match missing {
        Missing::Stop => Err(Cause::NoSuchHeader),
        Missing::Empty => Ok(None),
    }
}
