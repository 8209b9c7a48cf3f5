//! How texts are read.
ghost use Rattle.std.specs.Prelude.{◌≡◌, ◌==◌, ℕ, List, [], Some, None, if◌then◌else◌, length, take, position, codes, IfOk, OnOk, IfErr};
ghost use Rattle.inc_check.specs.CertificateText.{IsCertificateText, CertificateFormat};
ghost use Rattle.inc_check.specs.Texts.{IsMarksText, IsCostsText, IsMalformed, MarksFormat, CostsFormat};
ghost use Rattle.inc_check.specs.Reading as spec;
ghost use Rattle.inc_check.specs.declared.read_texts.CertFault.TheVariants as fault;
ghost use Rattle.inc_text.specs.Ascii.{line_feed};

use crate::certificates::{Certificate, OpenChains};
use crate::line_parts::{cost_in, head_in, mark_in, number_behind, short_mark_in};
use crate::lines::line_len;
use inc_graph::{Cost, LentMark, Mark};
use inc_text::Items;
use std::alloc::{AllocError, AllocFailed, Global};
use std::marker::Model;
use std::mem;
use thiserror::Error;

/// Why a text is not read.
#[derive(Clone, Copy, Debug, PartialEq, Eq, Error)]
pub enum CertFault {
    /// It is no text of its format.
    #[error("line {line} is malformed")]
    Malformed {
        /// The first line that does not fit or is not ended, from 1.
        line: usize,
    },
    /// Memory ran out.
    #[error("out of memory")]
    NoMemory,
}

impl From<AllocError> for CertFault {
    ghost use Rattle.inc_check.specs.declared.read_texts.CertFault.TheVariants.{NoMemory};

    ghost from_gives = { λ _ e. e ≡ NoMemory };

    fn from(_error: AllocError) -> CertFault {
        CertFault::NoMemory
    }
}

impl<T: Drop> From<AllocFailed<T>> for CertFault {
    ghost use Rattle.inc_check.specs.declared.read_texts.CertFault.TheVariants.{NoMemory};

    ghost from_gives = { λ _ e. e ≡ NoMemory };

    fn from(_error: AllocFailed<T>) -> CertFault {
        CertFault::NoMemory
    }
}

/// How far a certificate is read.
#[derive(Clone, Copy, Debug, PartialEq, Eq)]
pub(crate) enum Stage {
    /// Nothing is.
    Start,
    /// In its cut.
    Cut,
    /// Before its first chain.
    Chains,
    /// In a chain.
    Chain,
}

/// A certificate, as far as it is read.
#[derive(Drop)]
struct Reading<'a> {
    stage: Stage,
    cut: Vec<LentMark<'a>>,
    /// The chains that are read whole, and the directives of the cut or chain that is being read.
    chains: OpenChains<'a>,
    /// How often that chain counts.
    count: u32,
    /// How many directives it still has.
    marks_left: u32,
    /// How many chains there are still after it.
    chains_left: u32,
}

impl<'a> Model for Reading<'a> {
    ghost use Rattle.inc_check.specs.Reading.{State};

    ghost Value = { State };

    ghost view = { λ r. record {
      stage = r.stage;
      cut = r.cut.items;
      chains = r.chains.chains;
      marks = r.chains.marks;
      count = r.count;
      marks_left = r.marks_left;
      chains_left = r.chains_left;
    } };
}

impl<'a> Reading<'a> {
    /// Nothing is read.
    fn new(alloc: Global) -> Reading<'a>
        ensures { result ≡ spec.start }
    {
        Reading {
            stage: Stage::Start,
            cut: Vec::new(alloc),
            chains: OpenChains::new(alloc),
            count: 0,
            marks_left: 0,
            chains_left: 0,
        }
    }

    /// Reads the first line of a text, which ends here, and says whether it fits. Where not, what is left is of no use.
    fn take_line(&mut self, alloc: Global, text: &'a [u8], end: usize) -> Result<bool, AllocError>
        requires { position (λ b. b == line_feed) text.now ≡ Some end }
        ensures { IfOk result (λ fits. (if fits then Some self.new else None)
            ≡ spec.step self.old (take end text.now)) }
    {
        if self.marks_left > 0 {
            return self.take_mark(text, end);
        }
        let line = &text[..end];
        match self.stage {
            Stage::Start => Ok(self.take_cut(line)),
            Stage::Cut => self.take_chains(alloc, line),
            Stage::Chains | Stage::Chain => self.take_chain(line),
        }
    }

    /// Reads a directive: the first line of a text, which ends here.
    fn take_mark(&mut self, text: &'a [u8], end: usize) -> Result<bool, AllocError>
        requires { position (λ b. b == line_feed) text.now ≡ Some end }
        ensures { IfOk result (λ fits. (if fits then Some self.new else None)
            ≡ spec.with_mark self.old (spec.short_mark_in (take end text.now))) }
    {
        let Some(mark) = short_mark_in(text, end) else {
            return Ok(false);
        };
        self.chains.push(mark)?;
        self.marks_left = self.marks_left.saturating_sub(1);
        Ok(true)
    }

    /// Reads how many directives the cut has.
    fn take_cut(&mut self, line: &[u8]) -> bool
        ensures { (if result then Some self.new else None)
            ≡ spec.with_cut self.old (spec.number_behind (codes "cut ") line.now) }
    {
        let Some(n) = number_behind(b"cut ", line) else {
            return false;
        };
        self.stage = Stage::Cut;
        self.marks_left = n;
        true
    }

    /// Reads how many chains there are.
    fn take_chains(&mut self, alloc: Global, line: &[u8]) -> Result<bool, AllocError>
        ensures { IfOk result (λ fits. (if fits then Some self.new else None)
            ≡ spec.with_chains self.old (spec.number_behind (codes "chains ") line.now)) }
    {
        let Some(n) = number_behind(b"chains ", line) else {
            return Ok(false);
        };
        self.cut = self.chains.take_marks(alloc)?;
        self.stage = Stage::Chains;
        self.chains_left = n;
        Ok(true)
    }

    /// Reads the head of a chain.
    #[inline(always)]
    fn take_chain(&mut self, line: &[u8]) -> Result<bool, AllocError>
        ensures { IfOk result (λ fits. (if fits then Some self.new else None) ≡ spec.with_next self.old line.now) }
    {
        if self.chains_left == 0 {
            return Ok(false);
        }
        let Some(head) = head_in(line) else {
            return Ok(false);
        };
        self.close()?;
        self.stage = Stage::Chain;
        self.count = head.count;
        self.marks_left = head.length;
        self.chains_left -= 1;
        Ok(true)
    }

    /// Puts the chain that is being read, if one is, after those that are read whole.
    #[inline(always)]
    fn close(&mut self) -> Result<(), AllocError>
        ensures { OnOk result (self.new ≡ record self.old { chains = spec.closed self.old; marks = [] }) }
    {
        if self.stage == Stage::Chain {
            self.chains.close(self.count)?;
        } else {
            self.chains.clear();
        }
        Ok(())
    }

    /// The certificate, where all of it is read. Nothing is left of it.
    fn finish(&mut self, alloc: Global) -> Result<Option<Certificate<'a>>, AllocError>
        ensures { IfOk result (λ certificate. certificate ≡ spec.whole self.old) }
    {
        let is_begun = self.stage == Stage::Chains || self.stage == Stage::Chain;
        if !is_begun || self.marks_left > 0 || self.chains_left > 0 {
            return Ok(None);
        }
        self.close()?;
        Ok(Some(Certificate {
            cut: Items::new(mem::replace(&mut self.cut, Vec::new(alloc))),
            chains: self.chains.finish(alloc),
        }))
    }
}

/// Reads a certificate, as [`write_certificate`](crate::write_certificate) writes it, where a directive may also stand as `PATH:LINE:`.
/// A text is that of at most one certificate. Its marks lend their paths from the text.
pub fn read_certificate(alloc: Global, text: &[u8]) -> Result<Certificate<'_>, CertFault>
    ensures read { IfOk result (λ certificate. IsCertificateText text.now certificate) }
    ensures fault { IfErr result (λ f. (line : ℕ) → f ≡ fault.Malformed line →
        IsMalformed CertificateFormat text.now line) }
{
    let mut reading = Reading::new(alloc);
    let mut line = 1;
    let mut at = 0;
    while let Some(length) = line_len(&text[at..]) {
        if !reading.take_line(alloc, &text[at..], length)? {
            return Err(CertFault::Malformed { line });
        }
        at += length + 1;
        line += 1;
    }
    if at < text.len() {
        return Err(CertFault::Malformed { line });
    }
    match reading.finish(alloc)? {
        Some(certificate) => Ok(certificate),
        None => Err(CertFault::Malformed { line }),
    }
}

/// Reads marks: directives, one a line.
pub fn read_marks(alloc: Global, text: &[u8]) -> Result<Vec<Mark>, CertFault>
    ensures read { IfOk result (λ marks. IsMarksText text.now marks.items) }
    ensures fault { IfErr result (λ f. (line : ℕ) → f ≡ fault.Malformed line →
        IsMalformed MarksFormat text.now line) }
{
    let mut marks = Vec::new(alloc);
    let mut line = 1;
    let mut at = 0;
    while let Some(length) = line_len(&text[at..]) {
        let Some(mark) = mark_in(alloc, &text[at..], length)? else {
            return Err(CertFault::Malformed { line });
        };
        marks.push(mark)?;
        at += length + 1;
        line += 1;
    }
    if at < text.len() {
        return Err(CertFault::Malformed { line });
    }
    Ok(marks)
}

/// Reads costs: one a line, the amount and the directive. They lend their paths from the text.
pub fn read_costs(alloc: Global, text: &[u8]) -> Result<Vec<Cost<'_>>, CertFault>
    ensures read { IfOk result (λ costs. IsCostsText text.now costs.items) }
    ensures fault { IfErr result (λ f. (line : ℕ) → f ≡ fault.Malformed line →
        IsMalformed CostsFormat text.now line) }
{
    let mut costs = Vec::new(alloc);
    let mut line = 1;
    let mut at = 0;
    while let Some(length) = line_len(&text[at..]) {
        let Some(cost) = cost_in(&text[at..], length) else {
            return Err(CertFault::Malformed { line });
        };
        costs.push(cost)?;
        at += length + 1;
        line += 1;
    }
    if at < text.len() {
        return Err(CertFault::Malformed { line });
    }
    Ok(costs)
}
