//! A file that is held: its lines, and where its sections lead.
ghost use Rattle.std.specs.Prelude.{List, ◌≡◌, ◌≢◌, ◌<◌, true, Ok, Err, length, OnOk, IfOk, IfErr, IfSome};
ghost use Rattle.inc_token.specs.TokenLines.{TokenLine, token_lines};
ghost use Rattle.inc_directive.specs.Groups.{Group, file_lines, group_tree};
ghost use Rattle.inc_directive.specs.Jumps.{IsPlanOf};
ghost use Rattle.inc_directive.specs.Parts.{lines_from, lines_of_parts};
ghost use Rattle.inc_directive.specs.Removal.{is_among, with_removed};
ghost use Rattle.inc_directive.specs.declared.sections.BalanceFault.{BalanceFault};
ghost use Rattle.inc_pp.specs.Choices.{StopsAt, LeadsTo};
ghost use Rattle.inc_pp.specs.Files.{lines_or_fault, of_balance, of_lex, text_tree};
ghost use Rattle.inc_macro.specs.Tables.{table_of};
ghost use Rattle.inc_pp.specs.HeldFiles.{IsSkipped};
ghost use Rattle.inc_pp.specs.Includes.{most_reads};
ghost use Rattle.inc_pp.specs.StateViews.{state_of};
ghost use Rattle.inc_pp.specs.Stops.{IfStop, IsIn, AreOf};
ghost use Rattle.inc_pp.specs.Tasks.{File, IsWithin};
ghost use Rattle.inc_pp.specs.Walks.{lines_read};

use crate::causes::Cause;
use crate::entries::Entry;
use crate::faults::Break;
use crate::frames::Frame;
use crate::guards::guard_name;
use crate::line_steps::read_on;
use crate::settings::Settings;
use crate::states::State;
use inc_directive::laws::sections_close;
use inc_directive::{BalanceFault, FileLines, Plan, balance};
use inc_lookup::Project;
use inc_macro::Macros;
use inc_text::{Language, Text};
use inc_token::LexFault;
use std::alloc::Global;
use std::marker::Model;

/// The lines of a file, and where its sections lead.
#[derive(Drop)]
pub(crate) struct HeldFile {
    lines: FileLines,
    plan: Plan,
    /// The name of its guard, if it has one. While that is the name of a macro, the file counts as read and is not entered.
    guard: Option<Vec<u8>>,
}

impl Model for HeldFile {
    ghost use Rattle.std.specs.Prelude.{List, IfSome};
    ghost use Rattle.inc_directive.specs.Parts.{FilePart};
    ghost use Rattle.inc_pp.specs.HeldFiles.{HasGuard, IsPlanned};

    ghost Value = { List FilePart };

    ghost view = { λ h. h.lines };

    ghost invariant = { λ h. record {
      planned : IsPlanned h.lines h.plan;
      guard : IfSome h.guard (λ name. HasGuard h.lines name.items);
    } };
}

impl HeldFile {
    /// The lines of a text, without the include directives on these physical lines, and where its sections lead, or its fault.
    pub(crate) fn new(
        alloc: Global,
        text: Text,
        language: Language,
        removed: &[u32],
    ) -> Result<HeldFile, Break>
        ensures held { IfOk result (λ held. (tree : Group)
            × (text_tree language (is_among removed.now) text ≡ Ok tree) × (group_tree (lines_of_parts held) ≡ Ok tree)) }
        ensures kinds { IfOk result (λ held. AreOf language (lines_of_parts held)) }
        ensures fault { IfErr result (λ fault. IfStop fault (λ line cause.
            text_tree language (is_among removed.now) text ≡ Err (cause, line))) }
    {
        // A fact for the proof: this call does nothing.
        sections_close();
        let lines = lines_of(alloc, text, language, removed)?;
        let plan = plan_of(alloc, &lines)?;
        let guard = guard_name(alloc, &lines, &plan)?;
        Ok(HeldFile { lines, plan, guard })
    }

    /// Whether the file changes nothing, since the name of its guard is that of one of these macros.
    pub(crate) fn is_guarded(&self, macros: &Macros) -> bool
        ensures { result ≡ true → IsSkipped (table_of macros.now) self.now }
    {
        match &self.guard {
            Some(name) => macros.is_defined(name),
            None => false,
        }
    }

    /// How many parts there are.
    pub(crate) fn count(&self) -> usize
        ensures { result ≡ length self.now }
    {
        self.lines.count()
    }

    /// Reads on from the next part of the file up to an include directive, whose file it reports, or to the end of the file.
    pub(crate) fn read(
        &self,
        state: &mut State,
        project: &Project<'_>,
        settings: &Settings<'_>,
        frame: &mut Frame,
        nests: bool,
    ) -> Result<Option<Entry>, Break>
        requires within { frame.old.part < length self.now }
        requires file { frame.old.at.file < length project.now.paths }
        requires kinds { AreOf settings.now.language (lines_of_parts self.now) }
        ensures leads { IfOk result (λ found. (f : File) →
            IsIn project.now settings.now frame.old.at nests f →
            LeadsTo self.now f frame.old.part (state_of state.old) frame.old.here
            found frame.new.part (state_of state.new) frame.new.here) }
        ensures onward { OnOk result (frame.old.part < frame.new.part) }
        ensures same { OnOk result (frame.new.at ≡ frame.old.at) }
        ensures found { IfOk result (λ found. IfSome found (λ k. IsWithin project.now k
            × (nests ≡ true) × (length (state_of state.new).reads < most_reads))) }
        ensures reads { (state_of state.new).reads ≡ (state_of state.old).reads }
        ensures stop { IfErr result (λ fault. IfStop fault (λ at cause. (f : File) →
            IsIn project.now settings.now frame.old.at nests f →
            StopsAt f (lines_read f (lines_from frame.old.part self.now) (state_of state.old)
            frame.old.here) at cause (state_of state.new))) }
    {
        let lines = &self.lines;
        let plan = &self.plan;
        let count = lines.count();
        while frame.part < count {
            match read_on(lines, plan, state, project, settings, frame, nests) {
                Ok(Some(found)) => return Ok(Some(found)),
                Ok(None) => {}
                Err(fault) => return Err(fault),
            }
        }
        Ok(None)
    }
}

/// The lines of a text, without the include directives on these physical lines.
fn lines_of(
    alloc: Global,
    text: Text,
    language: Language,
    removed: &[u32],
) -> Result<FileLines, Break>
    ensures lines { IfOk result (λ lines. (ls : List TokenLine) × (token_lines language text ≡ Ok ls)
        × (lines_of_parts lines ≡ file_lines language (with_removed language (is_among removed.now) ls))) }
    ensures fault { IfErr result (λ fault. IfStop fault (λ line cause.
        lines_or_fault (token_lines language text) ≡ Err (cause, line))) }
{
    match FileLines::new(alloc, text, language, removed) {
        Ok(lines) => Ok(lines),
        Err(fault) => Err(lex_stop(fault)),
    }
}

/// Where a text has a fault that has no token lines.
fn lex_stop(fault: LexFault) -> Break
    ensures { IfStop result (λ line cause. (fault ≢ LexFault.NoMemory) × (of_lex fault ≡ (cause, line))) }
{
    match fault {
        LexFault::OpenComment { line } => Break::Stop {
            line,
            cause: Cause::Lex(fault),
        },
        LexFault::NoMemory => Break::NoMemory,
    }
}

/// Where the sections of lines lead.
fn plan_of(alloc: Global, lines: &FileLines) -> Result<Plan, Break>
    ensures plan { IfOk result (λ plan. IsPlanOf lines.now plan) }
    ensures fault { IfErr result (λ fault. IfStop fault (λ line cause. (why : BalanceFault)
        × (group_tree (lines_of_parts lines.now) ≡ Err why) × (of_balance why ≡ (cause, line)))) }
{
    match balance(alloc, lines) {
        Ok(plan) => Ok(plan),
        Err(fault) => Err(balance_stop(fault)),
    }
}

/// Where the sections of a file have a fault.
fn balance_stop(fault: BalanceFault) -> Break
    ensures { IfStop result (λ line cause. (fault ≢ BalanceFault.NoMemory) × (of_balance fault ≡ (cause, line))) }
{
    match fault {
        BalanceFault::OpenIf { line }
        | BalanceFault::StrayBranch { line }
        | BalanceFault::AfterElse { line } => Break::Stop {
            line,
            cause: Cause::Balance(fault),
        },
        BalanceFault::NoMemory => Break::NoMemory,
    }
}
