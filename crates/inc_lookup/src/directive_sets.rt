//! Sets of directives.
ghost use Rattle.std.specs.Prelude.{◌≡◌, ◌==◌, ℕ, IfOk, List, map};
ghost use Rattle.std.specs.List.{list_any};
ghost use Rattle.inc_lookup.specs.DirectiveLists.{is_listed, place_cmp, AreInOrder};

use crate::projects::{DirectiveId, FileId};
use std::alloc::{AllocError, Global};
use std::cmp::Ordering;
use std::marker::Model;

/// A list of directives that finds each by its file and line in the time of a logarithm.
#[derive(Drop)]
pub struct DirectiveSet<'r> {
    listed: &'r [DirectiveId],
    /// The same, by file and line.
    sorted: Vec<DirectiveId>,
}

impl<'r> Model for DirectiveSet<'r> {
    ghost use Rattle.std.specs.Prelude.{List};
    ghost use Rattle.inc_lookup.specs.declared.projects.DirectiveId.{DirectiveId};
    ghost use Rattle.inc_lookup.specs.DirectiveLists.{AreInOrder};

    ghost Value = { List DirectiveId };

    ghost view = { λ s. s.listed.now };

    ghost invariant = { λ s. AreInOrder s.listed.now s.sorted.items };
}

impl<'r> DirectiveSet<'r> {
    /// The set of these directives.
    pub fn new(alloc: Global, listed: &'r [DirectiveId]) -> Result<DirectiveSet<'r>, AllocError>
        ensures { IfOk result (λ set. set ≡ listed.now) }
    {
        let sorted = sorted(alloc, listed)?;
        Ok(DirectiveSet { listed, sorted })
    }

    /// Whether a directive at this line of a file is in the set.
    pub fn contains(&self, file: FileId, line: u32) -> bool
        ensures { result ≡ is_listed self.now file line }
    {
        let wanted = DirectiveId { file, line };
        self.sorted
            .binary_search_by(|id| compare(*id, wanted))
            .is_ok()
    }

    /// The lines of a file at which a directive is in the set, from the top. The time is that of a logarithm and of these lines.
    pub fn lines_in(&self, alloc: Global, file: FileId) -> Result<Vec<u32>, AllocError>
        ensures { IfOk result (λ lines. (line : ℕ) →
            list_any (λ k. k == line) lines.items ≡ is_listed self.now file line) }
    {
        let from = self
            .sorted
            .partition_point(|id| id.file.index() < file.index());
        let rest = &self.sorted[from..];
        let count = rest.partition_point(|id| id.file == file);
        let lines = lines_of(alloc, &rest[..count])?;
        Ok(lines)
    }
}

/// How two directives lie: by file, and in one file by line.
fn compare(a: DirectiveId, b: DirectiveId) -> Ordering
    ensures { result ≡ place_cmp a b }
{
    a.file
        .index()
        .cmp(&b.file.index())
        .then(a.line.cmp(&b.line))
}

/// These directives, by file and line.
fn sorted(alloc: Global, ids: &[DirectiveId]) -> Result<Vec<DirectiveId>, AllocError>
    ensures { IfOk result (λ sorted. AreInOrder ids.now sorted.items) }
{
    let mut sorted = Vec::from_slice(alloc, ids)?;
    sorted.sort_unstable_by(|a, b| compare(*a, *b));
    Ok(sorted)
}

/// The lines of these directives.
fn lines_of(alloc: Global, ids: &[DirectiveId]) -> Result<Vec<u32>, AllocError>
    ensures { IfOk result (λ lines. lines.items ≡ map (λ (d : DirectiveId). d.line) ids.now) }
{
    let mut lines = Vec::with_capacity(alloc, ids.len())?;
    for id in ids {
        lines.push(id.line)?;
    }
    Ok(lines)
}
