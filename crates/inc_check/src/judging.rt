//! Certificates that are judged as they are read.
ghost use Rattle.std.specs.Prelude.{◌≡◌, ◌==◌, ◌++◌, ◌∷◌, [], List, ℕ, Some, None, if◌then◌else◌, take, length, option_map, position, codes, false, IfOk, OnOk, IfErr, IsErrOf, IsTrue, MatchBool, ◌+◌, ◌↔◌};
ghost use Rattle.inc_lookup.specs.Projects.{Layout};
ghost use Rattle.inc_graph.specs.Cuts.{fixed_by, costs_by};
ghost use Rattle.inc_check.specs.Certificates.{IsVerdict};
ghost use Rattle.inc_check.specs.declared.certificates.Certificate.{Certificate};
ghost use Rattle.inc_check.specs.declared.read_texts.Stage.TheVariants as stages;
ghost use Rattle.inc_check.specs.Judging.{IsBegun, IsClosed, IsJudged, IsJudgedAfter, IsJudgedWhole, IsJudgeOf};
ghost use Rattle.inc_check.specs.Reading as spec;
ghost use Rattle.inc_check.specs.CertificateText.{IsCertificateText, CertificateFormat};
ghost use Rattle.inc_check.specs.Texts.{IsMalformed, OfBytes};
ghost use Rattle.inc_text.specs.Ascii.{line_feed};

use crate::ahead::Ahead;
use crate::checking::chain_sums::ChainSums;
use crate::checking::cut_edges::CutEdges;
use crate::checking::verdict_of;
use crate::line_parts::{head_in, number_behind, short_mark_in};
use crate::read_texts::Stage;
use crate::verdicts::Verdict;
use inc_graph::{Fixed, Graph, LentMark};
use inc_lookup::Project;
use inc_text::{ByteSource, DeviceFault};
use std::alloc::{AllocError, Global};
use thiserror::Error;

/// Why there is no verdict on a certificate.
#[derive(Clone, Copy, Debug, PartialEq, Eq, Error)]
pub enum CheckFault {
    /// It is malformed.
    #[error("line {line} is malformed")]
    Malformed {
        /// The first line that does not fit or is not ended, from 1.
        line: usize,
    },
    /// Its source failed.
    #[error("cannot read")]
    CannotRead,
    /// Memory ran out.
    #[error("out of memory")]
    NoMemory,
}

impl From<DeviceFault> for CheckFault {
    ghost use Rattle.inc_check.specs.declared.judging.CheckFault.TheVariants.{CannotRead};

    ghost from_gives = { λ _ e. e ≡ CannotRead };

    fn from(_fault: DeviceFault) -> CheckFault {
        CheckFault::CannotRead
    }
}

impl From<AllocError> for CheckFault {
    ghost use Rattle.inc_check.specs.declared.judging.CheckFault.TheVariants.{NoMemory};

    ghost from_gives = { λ _ e. e ≡ NoMemory };

    fn from(_error: AllocError) -> CheckFault {
        CheckFault::NoMemory
    }
}

/// A certificate, as far as it is read: what its marks come to in a graph, without the marks, so that a certificate of any length needs no
/// list of them.
///
/// Kept are one flag for each edge (is it in the cut?) and the sum of the costs, and one number for each edge (how often do chains go
/// through it?). A mark of a chain must leave the file that the chain has led to, so that its path is compared with that of one file, and
/// no table is asked. Where a chain goes through many files, the edges that it may use next are looked up ahead: these are guesses, and an
/// edge is used only once its path and line are compared, so that a wrong one costs time and never an answer.
///
/// After a mark that leads nowhere the verdict is no, but reading goes on: a malformed line further down is reported first.
#[derive(Drop)]
struct Judge {
    stage: Stage,
    cut: CutEdges,
    chains: ChainSums,
    /// How often the chain that is being read counts.
    count: u32,
    /// How many directives the cut or chain that is being read still has.
    marks_left: u32,
    /// How many chains there are still after it.
    chains_left: u32,
}

impl Judge {
    /// Nothing is read.
    fn new(alloc: Global, graph: &Graph) -> Result<Judge, AllocError>
        ensures of { IfOk result (λ j. IsJudgeOf graph.now j) }
        ensures start { IfOk result (λ j. (layout : Layout) (amounts : List ℕ) →
            IsJudged layout graph.now amounts j spec.start) }
    {
        let cut = CutEdges::new(alloc, graph)?;
        let chains = ChainSums::new(alloc, graph)?;
        Ok(Judge {
            stage: Stage::Start,
            cut,
            chains,
            count: 0,
            marks_left: 0,
            chains_left: 0,
        })
    }

    /// Reads the first line of a text, which ends here, and says whether it fits. Where not, what is left is of no use.
    #[inline(always)]
    fn take_line(
        &mut self,
        project: &Project<'_>,
        graph: &Graph,
        fixed: &Fixed,
        text: &[u8],
        end: usize,
    ) -> Result<bool, AllocError>
        requires files { graph.now.files ≡ length project.now.paths }
        requires fixed { length fixed.now ≡ length graph.now.edges }
        requires of { IsJudgeOf graph.now self.old }
        requires ended { position (λ b. b == line_feed) text.now ≡ Some end }
        ensures of { IsJudgeOf graph.now self.new }
        ensures judged { IfOk result (λ fits. (s : spec.State) → IsJudged project.now graph.now fixed.now self.old s →
            IsJudgedAfter project.now graph.now fixed.now self.new (spec.step s (take end text.now)) fits) }
    {
        if self.marks_left > 0 {
            return self.take_mark(project, graph, fixed, text, end);
        }
        self.take_head(graph, &text[..end])
    }

    /// Reads a directive: the first line of a text, which ends here.
    #[inline(always)]
    fn take_mark(
        &mut self,
        project: &Project<'_>,
        graph: &Graph,
        fixed: &Fixed,
        text: &[u8],
        end: usize,
    ) -> Result<bool, AllocError>
        requires files { graph.now.files ≡ length project.now.paths }
        requires fixed { length fixed.now ≡ length graph.now.edges }
        requires of { IsJudgeOf graph.now self.old }
        requires ended { position (λ b. b == line_feed) text.now ≡ Some end }
        ensures of { IsJudgeOf graph.now self.new }
        ensures judged { IfOk result (λ fits. (s : spec.State) → IsJudged project.now graph.now fixed.now self.old s →
            IsJudgedAfter project.now graph.now fixed.now self.new
            (spec.with_mark s (spec.short_mark_in (take end text.now))) fits) }
    {
        let Some(mark) = short_mark_in(text, end) else {
            return Ok(false);
        };
        self.put(project, graph, fixed, &mark)?;
        self.marks_left = self.marks_left.saturating_sub(1);
        Ok(true)
    }

    /// Adds a mark to the cut or the chain that is being read.
    #[inline(always)]
    fn put(
        &mut self,
        project: &Project<'_>,
        graph: &Graph,
        fixed: &Fixed,
        mark: &LentMark<'_>,
    ) -> Result<(), AllocError>
        requires files { graph.now.files ≡ length project.now.paths }
        requires fixed { length fixed.now ≡ length graph.now.edges }
        requires of { IsJudgeOf graph.now self.old }
        ensures of { IsJudgeOf graph.now self.new }
        ensures left { self.new.marks_left ≡ self.old.marks_left }
        ensures judged { OnOk result ((s : spec.State) → IsJudged project.now graph.now fixed.now self.old s →
            IsJudged project.now graph.now fixed.now self.new (record s { marks = s.marks ++ mark.now ∷ [] })) }
    {
        match self.stage {
            Stage::Chain => {
                self.chains.go(project, graph, mark, self.count)?;
                Ok(())
            }
            // No directive is read there.
            Stage::Chains => Ok(()),
            Stage::Start | Stage::Cut => {
                self.cut.add(project, graph, fixed, mark);
                Ok(())
            }
        }
    }

    /// Reads a line that is no directive.
    #[inline(always)]
    fn take_head(&mut self, graph: &Graph, line: &[u8]) -> Result<bool, AllocError>
        requires of { IsJudgeOf graph.now self.old }
        ensures of { IsJudgeOf graph.now self.new }
        ensures judged { IfOk result (λ fits. (layout : Layout) (amounts : List ℕ) (s : spec.State) →
            IsJudged layout graph.now amounts self.old s →
            IsJudgedAfter layout graph.now amounts self.new (spec.with_head s.stage s line.now) fits) }
    {
        match self.stage {
            Stage::Start => Ok(self.take_cut(line)),
            Stage::Cut => Ok(self.take_chains(line)),
            Stage::Chains | Stage::Chain => self.take_chain(graph, line),
        }
    }

    /// Reads how many directives the cut has.
    fn take_cut(&mut self, line: &[u8]) -> bool
        ensures kept { (self.new.cut ≡ self.old.cut) × (self.new.chains ≡ self.old.chains) }
        ensures read { (if result then Some self.new else None)
            ≡ option_map (λ n. record self.old { stage = stages.Cut; marks_left = n }) (spec.number_behind (codes "cut ") line.now) }
    {
        let Some(n) = number_behind(b"cut ", line) else {
            return false;
        };
        self.stage = Stage::Cut;
        self.marks_left = n;
        true
    }

    /// Reads how many chains there are.
    fn take_chains(&mut self, line: &[u8]) -> bool
        ensures kept { (self.new.cut ≡ self.old.cut) × (self.new.chains ≡ self.old.chains) }
        ensures read { (if result then Some self.new else None)
            ≡ option_map (λ n. record self.old { stage = stages.Chains; chains_left = n }) (spec.number_behind (codes "chains ") line.now) }
    {
        let Some(n) = number_behind(b"chains ", line) else {
            return false;
        };
        self.stage = Stage::Chains;
        self.chains_left = n;
        true
    }

    /// Reads the head of a chain.
    #[inline(always)]
    fn take_chain(&mut self, graph: &Graph, line: &[u8]) -> Result<bool, AllocError>
        requires of { IsJudgeOf graph.now self.old }
        ensures of { IsJudgeOf graph.now self.new }
        ensures judged { IfOk result (λ fits. (layout : Layout) (amounts : List ℕ) (s : spec.State) →
            IsJudged layout graph.now amounts self.old s →
            IsBegun s.stage → IsJudgedAfter layout graph.now amounts self.new (spec.with_next s line.now) fits) }
    {
        if self.chains_left == 0 {
            return Ok(false);
        }
        let Some(head) = head_in(line) else {
            return Ok(false);
        };
        self.close(graph);
        self.chains.begin(graph, head.count)?;
        self.stage = Stage::Chain;
        self.count = head.count;
        self.marks_left = head.length;
        self.chains_left -= 1;
        Ok(true)
    }

    /// Ends the chain that is being read, if one is.
    #[inline(always)]
    fn close(&mut self, graph: &Graph)
        requires of { IsJudgeOf graph.now self.old }
        ensures of { IsJudgeOf graph.now self.new }
        ensures left { self.new.chains_left ≡ self.old.chains_left }
        ensures closed { (layout : Layout) (amounts : List ℕ) (s : spec.State) →
            IsJudged layout graph.now amounts self.old s →
            IsBegun s.stage → IsClosed layout graph.now amounts self.new s }
    {
        if self.stage == Stage::Chain {
            self.chains.end(graph, self.count);
        }
    }

    /// Ends the certificate, and says whether all of it is read.
    fn finish(&mut self, graph: &Graph) -> bool
        requires of { IsJudgeOf graph.now self.old }
        ensures of { IsJudgeOf graph.now self.new }
        ensures whole { (layout : Layout) (amounts : List ℕ) (s : spec.State) →
            IsJudged layout graph.now amounts self.old s →
            IsJudgedWhole layout graph.now amounts self.new (spec.whole s) result }
    {
        if !is_begun(self.stage) || self.marks_left > 0 || self.chains_left > 0 {
            return false;
        }
        self.close(graph);
        true
    }
}

/// Whether the line that says how many chains there are is read.
fn is_begun(stage: Stage) -> bool
    ensures { MatchBool result (IsBegun stage) ((stage ≡ stages.Chains → ⊥) × (stage ≡ stages.Chain → ⊥)) }
{
    match stage {
        Stage::Chains => true,
        Stage::Chain => true,
        Stage::Start => false,
        Stage::Cut => false,
    }
}

/// As [`check`](crate::check) of the certificate that [`read_certificate`](crate::read_certificate) reads, with no list of its marks and
/// no text of it: each line is judged as it is read. A certificate that is malformed is so wherever that is, also after a mark that names
/// no edge; no more of it is read then. A source that has failed before is not read.
pub fn check_source<R: ByteSource>(
    alloc: Global,
    project: &Project<'_>,
    graph: &Graph,
    fixed: &Fixed,
    r: &mut R,
) -> Result<Verdict, CheckFault>
    requires files { graph.now.files ≡ length project.now.paths }
    requires fixed { length fixed.now ≡ length graph.now.edges }
    ensures verdict { IfOk result (λ v. OfBytes (R.left r.old) (λ text. (c : Certificate) × IsCertificateText text c
        × IsVerdict project.now graph.now (fixed_by fixed.now) (costs_by fixed.now) c v)) }
    ensures fault { IfErr result (λ f. (line : ℕ) → f ≡ CheckFault.Malformed line →
        OfBytes (R.left r.old) (λ text. IsMalformed CertificateFormat text line)) }
    ensures failed { IsErrOf result CheckFault.CannotRead ↔ IsTrue (R.has_failed r.new) }
{
    if r.failed() {
        return Err(CheckFault::CannotRead);
    }
    let mut judge = Judge::new(alloc, graph)?;
    let mut ahead = Ahead::new(alloc);
    let mut line: usize = 1;
    while let Some(length) = ahead.find_line(r)? {
        if !judge.take_line(project, graph, fixed, ahead.text(), length)? {
            return Err(CheckFault::Malformed { line });
        }
        ahead.skip(length + 1);
        line = next_line(line)?;
    }
    if !ahead.text().is_empty() {
        return Err(CheckFault::Malformed { line });
    }
    if !judge.finish(graph) {
        return Err(CheckFault::Malformed { line });
    }
    let Judge { cut, chains, .. } = judge;
    Ok(verdict_of(alloc, graph, fixed, &cut, chains.sums())?)
}

/// The number of the next line. No source has so many lines that there is none.
fn next_line(line: usize) -> Result<usize, CheckFault>
    ensures next { IfOk result (λ next. next ≡ line + 1) }
    ensures none { IfErr result (λ f. f ≡ CheckFault.NoMemory) }
{
    match line.checked_add(1) {
        Some(next) => Ok(next),
        None => Err(CheckFault::NoMemory),
    }
}
