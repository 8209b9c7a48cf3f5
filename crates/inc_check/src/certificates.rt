//! What a certificate is made of.
ghost use Rattle.std.specs.Prelude.{◌≡◌, ◌<◌, ◌==◌, ◌++◌, ◌∷◌, [], length, slice_index_or, IfOk, OnOk, OnErr};
ghost use Rattle.inc_check.specs.ChainLists.{none_open, with_mark, with_chain, without_marks};

use inc_graph::LentMark;
use inc_text::Items;
use std::alloc::{AllocError, Global};
use std::marker::Model;
use std::mem;

/// Marks that lie in a longer list.
#[derive(Drop)]
pub struct MarkList<'a> {
    marks: &'a [LentMark<'a>],
}

impl<'a> Model for MarkList<'a> {
    ghost use Rattle.std.specs.Prelude.{List};
    ghost use Rattle.inc_graph.specs.Marks.{Mark};

    ghost Value = { List Mark };

    ghost view = { λ l. l.marks.now };
}

impl<'a> MarkList<'a> {
    /// The marks, in order.
    pub fn as_slice(&self) -> &'a [LentMark<'a>]
        ensures { result.now ≡ self.now }
    {
        self.marks
    }
}

/// A chain by the marks of its edges, and how often it counts.
#[derive(Drop)]
pub struct CountedMarks<'a> {
    /// How often the chain counts. A text holds counts from 1 on.
    pub count: u32,
    /// The directives of the chain, from the source on.
    pub marks: MarkList<'a>,
}

/// Where the marks of a chain lie among those of all chains, and how often it counts.
#[derive(Clone, Copy)]
pub(crate) struct ChainPart {
    begin: u32,
    len: u32,
    count: u32,
}

/// Chains by the marks of their edges. All marks lie in one list, so that a chain takes no allocation of its own.
#[derive(Drop)]
pub struct Chains<'a> {
    marks: Vec<LentMark<'a>>,
    parts: Vec<ChainPart>,
}

impl<'a> Model for Chains<'a> {
    ghost use Rattle.std.specs.Prelude.{List};
    ghost use Rattle.inc_check.specs.declared.certificates.CountedMarks.{CountedMarks};
    ghost use Rattle.inc_check.specs.ChainLists.{chains_in, AreParts};

    ghost Value = { List CountedMarks };

    ghost view = { λ c. chains_in c.marks.items c.parts.items };

    ghost invariant = { λ c. AreParts c.marks.items c.parts.items };
}

impl<'a> Chains<'a> {
    /// No chains.
    pub fn new(alloc: Global) -> Chains<'a>
        ensures { result ≡ [] }
    {
        Chains {
            marks: Vec::new(alloc),
            parts: Vec::new(alloc),
        }
    }

    /// How many chains there are.
    pub fn len(&self) -> usize
        ensures { result ≡ length self.now }
    {
        self.parts.len()
    }

    /// Whether there is no chain.
    pub fn is_empty(&self) -> bool
        ensures { result ≡ (length self.now == 0) }
    {
        self.len() == 0
    }

    /// The chain at a place.
    pub fn chain(&self, index: usize) -> CountedMarks<'_>
        requires { index < length self.now }
        ensures { result ≡ slice_index_or self.now index result }
    {
        let part = self.parts[index];
        let begin = part.begin as usize;
        let end = begin + part.len as usize;
        CountedMarks {
            count: part.count,
            marks: MarkList {
                marks: &self.marks[begin..end],
            },
        }
    }

    /// Adds a chain that counts so often, and takes its marks. Where memory runs out, nothing changes.
    pub fn push(&mut self, count: u32, marks: &mut Vec<LentMark<'a>>) -> Result<(), AllocError>
        ensures pushed { OnOk result (self.new
            ≡ self.old ++ record { count = count; marks = marks.old.items } ∷ []) }
        ensures taken { OnOk result (marks.new.items ≡ []) }
        ensures same { OnErr result ((self.new ≡ self.old) × (marks.new.items ≡ marks.old.items)) }
    {
        let Ok(len) = u32::try_from(marks.len()) else {
            return Err(AllocError);
        };
        let Ok(begin) = u32::try_from(self.marks.len()) else {
            return Err(AllocError);
        };
        // Once there is room for the part, no marks can be there without it.
        self.parts.reserve(1)?;
        self.marks.append(marks)?;
        self.parts.push_reserved(ChainPart { begin, len, count });
        Ok(())
    }
}

/// Chains that are being read, and marks of which the next one is made. All marks lie in one list from the start, so that none is
/// moved where its chain ends.
#[derive(Drop)]
pub(crate) struct OpenChains<'a> {
    marks: Vec<LentMark<'a>>,
    parts: Vec<ChainPart>,
    /// Where the marks of the next chain begin.
    begin: usize,
}

impl<'a> Model for OpenChains<'a> {
    ghost use Rattle.std.specs.Prelude.{drop};
    ghost use Rattle.inc_check.specs.ChainLists.{OpenList, chains_in, IsOpen};

    ghost Value = { OpenList };

    ghost view = { λ o. record {
      chains = chains_in o.marks.items o.parts.items;
      marks = drop o.begin o.marks.items;
    } };

    ghost invariant = { λ o. IsOpen o.marks.items o.parts.items o.begin };
}

impl<'a> OpenChains<'a> {
    /// No chains and no marks.
    pub fn new(alloc: Global) -> OpenChains<'a>
        ensures { result ≡ none_open }
    {
        OpenChains {
            marks: Vec::new(alloc),
            parts: Vec::new(alloc),
            begin: 0,
        }
    }

    /// Adds a mark of the next chain.
    pub fn push(&mut self, mark: LentMark<'a>) -> Result<(), AllocError>
        ensures { OnOk result (self.new ≡ with_mark self.old mark.entry) }
    {
        self.marks.push(mark)?;
        Ok(())
    }

    /// Makes a chain that counts so often of the marks that are there.
    #[inline(always)]
    pub fn close(&mut self, count: u32) -> Result<(), AllocError>
        ensures { OnOk result (self.new ≡ with_chain self.old count) }
    {
        let end = self.marks.len();
        let Ok(len) = u32::try_from(end - self.begin) else {
            return Err(AllocError);
        };
        let Ok(begin) = u32::try_from(self.begin) else {
            return Err(AllocError);
        };
        self.parts.push(ChainPart { begin, len, count })?;
        self.begin = end;
        Ok(())
    }

    /// Drops the marks of the next chain.
    pub fn clear(&mut self)
        ensures { self.new ≡ without_marks self.old }
    {
        self.marks.truncate(self.begin);
    }

    /// Takes the marks of the next chain. Those of the first one, as a cut is, are not copied.
    pub fn take_marks(&mut self, alloc: Global) -> Result<Vec<LentMark<'a>>, AllocError>
        ensures marks { IfOk result (λ marks. marks.items ≡ self.old.marks) }
        ensures left { OnOk result (self.new ≡ without_marks self.old) }
    {
        if self.begin == 0 {
            return Ok(mem::replace(&mut self.marks, Vec::new(alloc)));
        }
        self.marks.split_off(self.begin)
    }

    /// The chains that are read. None are left.
    pub fn finish(&mut self, alloc: Global) -> Chains<'a>
        ensures { result ≡ self.old.chains }
    {
        self.begin = 0;
        Chains {
            marks: mem::replace(&mut self.marks, Vec::new(alloc)),
            parts: mem::replace(&mut self.parts, Vec::new(alloc)),
        }
    }
}

/// A cut, and chains that show that no other is cheaper, by marks.
#[derive(Drop)]
pub struct Certificate<'a> {
    /// The directives of the cut.
    pub cut: Items<LentMark<'a>>,
    /// The chains.
    pub chains: Chains<'a>,
}
