//! The if-sections of a file: where their branches lead.
//!
//! The parts are walked from the last one to the first. A part that opens a branch leads to the next branch of its section and
//! to its `#endif`, which are after it: a walk from the first part would have to find the open ones again at each `#endif`, to
//! write there where they lead. From the last part on, all of that is known when a part is met, so that each is taken once
//! and nothing is written twice. It is also the way of the definition, in which a line is before the group that follows it,
//! and of several faults the one that is first is met last and takes the place of the others.
ghost use Rattle.std.specs.Prelude.{◌≡◌, ◌≢◌, ◌<◌, ◌^◌, [], IfOk, IfErr, IfSome, OnOk, Ok, Err, option_map};
ghost use Rattle.inc_directive.specs.Groups.{Group, Link, group_tree, link_at};
ghost use Rattle.inc_directive.specs.Jumps.{IsPlanOf, fault_in};
ghost use Rattle.inc_directive.specs.Parts.{lines_of_parts};
ghost use Rattle.inc_directive.specs.Plans.{lead_of, link_by, closing_at, else_closing_at, jump_to, before_line, before_opening, before_branch, before_endif, jump_of, first_of, first_fault};
ghost use Rattle.inc_directive.specs.Below.{outlook_of};
ghost use Rattle.inc_directive.specs.FileDirectives.{balance_line};
ghost use Rattle.inc_directive.specs.declared.sections.BalanceFault.TheVariants.{NoMemory};

use crate::file_lines::FileLines;
use crate::kinds::Role;
use std::alloc::{AllocFailed, Global};
use std::marker::Model;
use thiserror::Error;

/// Why a file's lines form no groups: the first fault from the top.
#[derive(Clone, Copy, Debug, PartialEq, Eq, Error)]
pub enum BalanceFault {
    /// The file ends within an if-section, whose innermost open one begins here.
    #[error("unterminated #if, begun on line {line}")]
    OpenIf {
        /// The physical line of the `#` of the directive that opens it.
        line: u32,
    },
    /// An `#elif`, `#else` or `#endif` outside an if-section.
    #[error("line {line}: #elif, #else or #endif without #if")]
    StrayBranch {
        /// The physical line of its `#`.
        line: u32,
    },
    /// An `#elif` or `#else` after the `#else` of its if-section.
    #[error("line {line}: #elif or #else after #else")]
    AfterElse {
        /// The physical line of its `#`.
        line: u32,
    },
    /// Memory ran out.
    #[error("out of memory")]
    NoMemory,
}

impl BalanceFault {
    /// The physical line of the fault; `None` where memory ran out.
    pub fn line(self) -> Option<u32>
        ensures { result ≡ balance_line self }
    {
        match self {
            BalanceFault::OpenIf { line }
            | BalanceFault::StrayBranch { line }
            | BalanceFault::AfterElse { line } => Some(line),
            BalanceFault::NoMemory => None,
        }
    }
}

impl<T: Drop> From<AllocFailed<T>> for BalanceFault {
    ghost from_gives = { λ _ e. e ≡ NoMemory };

    fn from(_failed: AllocFailed<T>) -> BalanceFault {
        BalanceFault::NoMemory
    }
}

/// A part that opens a section or a branch, and where it leads. Parts are counted from 0.
#[derive(Clone, Copy)]
pub(crate) struct Jump {
    /// The part.
    place: usize,
    /// The part of the next branch or, where there is none, of the `#endif`.
    branch: usize,
    /// The part of the `#endif`.
    end: usize,
}

/// Where a part leads that opens a section or a branch.
#[derive(Clone, Copy)]
struct Lead {
    /// The part of the next branch or, where there is none, of the `#endif`.
    branch: u32,
    /// The part of the `#endif`.
    end: u32,
}

/// Where the branches of a file's sections lead, for each part of the file.
#[derive(Drop)]
pub struct Plan {
    leads: Vec<Option<Lead>>,
}

impl Model for Plan {
    ghost use Rattle.std.specs.Prelude.{List};
    ghost use Rattle.inc_directive.specs.Groups.{Link};
    ghost use Rattle.inc_directive.specs.Plans.{links_from};

    ghost Value = { List Link };

    ghost view = { λ p. links_from 0 p.leads.items };
}

impl Plan {
    /// The part of the next branch or, where there is none, of the `#endif` of the section, for a part that opens a section
    /// or a branch; `None` for each other part. Parts are counted from 0.
    pub fn branch(&self, part: usize) -> Option<usize>
        ensures { result ≡ option_map (λ (k : Link). k.branch) (link_at self.now part) }
    {
        match self.lead(part) {
            Some(lead) => Some(lead.branch as usize),
            None => None,
        }
    }

    /// The part of the `#endif` of the section, for a part that opens a section or a branch; `None` for each other part.
    pub fn end(&self, part: usize) -> Option<usize>
        ensures { result ≡ option_map (λ (k : Link). k.end) (link_at self.now part) }
    {
        match self.lead(part) {
            Some(lead) => Some(lead.end as usize),
            None => None,
        }
    }

    /// Where a part leads, if it opens a section or a branch.
    fn lead(&self, part: usize) -> Option<Lead>
        ensures { option_map (link_by part) result ≡ link_at self.now part }
    {
        *self.leads.get(part)?
    }
}

/// How the section of an ending closes.
#[derive(Clone, Copy)]
enum Closing {
    /// By the `#endif` that is this part of the file.
    At(usize),
    /// Not at all: the file ends before.
    Missing,
    /// Not at all: this fault comes first.
    Refused(BalanceFault),
}

/// The first ending after a part of a section that begins before the part: an `#elif`, an `#else` or the `#endif`.
#[derive(Clone, Copy)]
struct Pending {
    /// Its part of the file.
    place: usize,
    /// What a fault at it names.
    line: u32,
    is_endif: bool,
    closing: Closing,
}

/// What the parts before a part have to know of what is after it.
#[derive(Drop)]
pub(crate) struct Below {
    /// The first endings of the sections that begin before, the outermost first.
    pending: Vec<Pending>,
    /// The first fault after these.
    fault: Option<BalanceFault>,
}

impl Below {
    /// Below the last part of a file.
    pub(crate) fn new(alloc: Global) -> Below
        ensures { outlook_of result ≡ record { pending = []; fault = None } }
    {
        Below {
            pending: Vec::new(alloc),
            fault: None,
        }
    }

    /// Goes before a part, and says where it leads. The place is that of the part among all that are taken, and the line is what a
    /// fault at it names: the same place, since the physical line is looked for of one part alone (`fault_in`).
    #[inline(always)]
    pub(crate) fn take(
        &mut self,
        role: Role,
        place: usize,
        line: u32,
    ) -> Result<Option<Jump>, BalanceFault>
        ensures outlook { OnOk result (outlook_of self.new
            ≡ before_line role place line (outlook_of self.old)) }
        ensures jump { IfOk result (λ jump. jump ≡ jump_of role place (outlook_of self.old)) }
        ensures fault { IfErr result (λ fault. fault ≡ NoMemory) }
    {
        match role {
            Role::IfGroup => {
                let closing = closing_at(self.next(), self.fault);
                Ok(self.open(closing, place, line))
            }
            Role::ElifGroup => {
                let closing = closing_at(self.next(), self.fault);
                self.branch(closing, place, line)
            }
            Role::ElseGroup => {
                let closing = else_closing_at(self.next(), self.fault);
                self.branch(closing, place, line)
            }
            Role::EndifLine => {
                self.end(place, line)?;
                Ok(None)
            }
            Role::TextLine | Role::ControlLine => Ok(None),
        }
    }

    /// The ending that comes next.
    #[inline(always)]
    fn next(&self) -> Option<Pending>
        ensures { result ≡ first_of (outlook_of self.now).pending }
    {
        self.pending.last().copied()
    }

    /// Goes before a part that opens a section, which closes so.
    #[inline(always)]
    fn open(&mut self, closing: Closing, place: usize, line: u32) -> Option<Jump>
        ensures outlook { outlook_of self.new ≡ before_opening closing line (outlook_of self.old) }
        ensures jump { result ≡ jump_to place (first_of (outlook_of self.old).pending) closing }
    {
        let next = self.pending.pop();
        let fault = match closing {
            Closing::At(_) => return jump_to(place, next, closing),
            Closing::Missing => BalanceFault::OpenIf { line },
            Closing::Refused(fault) => fault,
        };
        // What is after the first fault is never looked at.
        self.pending.clear();
        self.fault = Some(fault);
        None
    }

    /// Goes before a branch of a section, which closes so: `#elif`, `#elifdef`, `#elifndef` or `#else`.
    fn branch(
        &mut self,
        closing: Closing,
        place: usize,
        line: u32,
    ) -> Result<Option<Jump>, BalanceFault>
        ensures outlook { OnOk result (outlook_of self.new
            ≡ before_branch closing place line (outlook_of self.old)) }
        ensures jump { IfOk result (λ jump. jump
            ≡ jump_to place (first_of (outlook_of self.old).pending) closing) }
        ensures fault { IfErr result (λ fault. fault ≡ NoMemory) }
    {
        let next = self.pending.pop();
        self.pending.push(Pending {
            place,
            line,
            is_endif: false,
            closing,
        })?;
        Ok(jump_to(place, next, closing))
    }

    /// Goes before an `#endif`.
    #[inline(always)]
    fn end(&mut self, place: usize, line: u32) -> Result<(), BalanceFault>
        ensures outlook { OnOk result (outlook_of self.new
            ≡ before_endif place line (outlook_of self.old)) }
        ensures fault { IfErr result (λ fault. fault ≡ NoMemory) }
    {
        self.pending.push(Pending {
            place,
            line,
            is_endif: true,
            closing: Closing::At(place),
        })?;
        Ok(())
    }

    /// The first fault of the file, where this is what is after its beginning.
    pub(crate) fn first_fault(self) -> Option<BalanceFault>
        ensures { result ≡ first_fault (outlook_of self).pending (outlook_of self).fault }
    {
        match self.next() {
            Some(ending) => Some(BalanceFault::StrayBranch { line: ending.line }),
            None => self.fault,
        }
    }
}

/// How a section closes that holds a part with a condition before this ending, or before the fault where there is none.
fn closing_at(next: Option<Pending>, fault: Option<BalanceFault>) -> Closing
    ensures { result ≡ closing_at next fault }
{
    match next {
        Some(ending) => ending.closing,
        None => match fault {
            Some(fault) => Closing::Refused(fault),
            None => Closing::Missing,
        },
    }
}

/// The same for an `#else`, after which only the `#endif` may come.
fn else_closing_at(next: Option<Pending>, fault: Option<BalanceFault>) -> Closing
    ensures { result ≡ else_closing_at next fault }
{
    match next {
        Some(ending) if ending.is_endif => ending.closing,
        Some(ending) => Closing::Refused(BalanceFault::AfterElse { line: ending.line }),
        None => closing_at(None, fault),
    }
}

/// Where a part leads that is before this ending of its section.
fn jump_to(place: usize, next: Option<Pending>, closing: Closing) -> Option<Jump>
    ensures { result ≡ jump_to place next closing }
{
    match (next, closing) {
        (Some(ending), Closing::At(end)) => Some(Jump {
            place,
            branch: ending.place,
            end,
        }),
        _ => None,
    }
}

/// The if-sections of a file's lines (ISO/IEC 9899:2018, 6.10.1).
pub fn balance(alloc: Global, lines: &FileLines) -> Result<Plan, BalanceFault>
    ensures plan { IfOk result (λ plan. IsPlanOf lines.now plan) }
    ensures fault { IfErr result (λ fault. fault ≢ BalanceFault.NoMemory →
        group_tree (lines_of_parts lines.now) ≡ Err fault) }
{
    let mut below = Below::new(alloc);
    let mut leads = Vec::new(alloc);
    for i in (0..lines.count()).rev() {
        let jump = below.take(lines.role(i), i, i as u32)?;
        leads.push(lead_of(jump))?;
    }
    if let Some(fault) = below.first_fault() {
        return Err(fault_in(lines, fault));
    }
    // The last part came first.
    leads.reverse();
    Ok(Plan { leads })
}

/// Checks that the if-sections of a file's lines are balanced.
pub(crate) fn check(alloc: Global, lines: &FileLines) -> Result<(), BalanceFault>
    ensures tree { OnOk result ((tree : Group) × (group_tree (lines_of_parts lines.now) ≡ Ok tree)) }
    ensures fault { IfErr result (λ fault. fault ≢ BalanceFault.NoMemory →
        group_tree (lines_of_parts lines.now) ≡ Err fault) }
{
    let mut below = Below::new(alloc);
    for i in (0..lines.count()).rev() {
        below.take(lines.role(i), i, i as u32)?;
    }
    match below.first_fault() {
        Some(fault) => Err(fault_in(lines, fault)),
        None => Ok(()),
    }
}

/// A jump from a part to others.
fn lead_of(jump: Option<Jump>) -> Option<Lead>
    requires { IfSome jump (λ j. (j.branch < 2 ^ 32) × (j.end < 2 ^ 32)) }
    ensures { result ≡ option_map lead_of jump }
{
    let jump = jump?;
    Some(Lead {
        branch: jump.branch as u32,
        end: jump.end as u32,
    })
}

/// A fault that has a part as its line, with the physical line of that part's `#`.
fn fault_in(lines: &FileLines, fault: BalanceFault) -> BalanceFault
    ensures { result ≡ fault_in lines.now fault }
{
    match fault {
        BalanceFault::OpenIf { line } => BalanceFault::OpenIf {
            line: lines.first_line(line as usize),
        },
        BalanceFault::StrayBranch { line } => BalanceFault::StrayBranch {
            line: lines.first_line(line as usize),
        },
        BalanceFault::AfterElse { line } => BalanceFault::AfterElse {
            line: lines.first_line(line as usize),
        },
        BalanceFault::NoMemory => BalanceFault::NoMemory,
    }
}
