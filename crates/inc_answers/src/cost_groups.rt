//! What groups of headers cost, and how many directives the smallest cut before each has.
ghost use Rattle.std.specs.Prelude.{◌≡◌, ◌<◌, ◌==◌, ◌&&◌, ◌++◌, [], ℕ, not, codes, flat_map, filter, length, map, slice_index_or, suc, false, IfOk};
ghost use Rattle.std.specs.List.{All, list_any};
ghost use Rattle.std.specs.List.Sorted.{IsStrictlyIncreasing};
ghost use Rattle.std.specs.Bool.{OnTrue};
ghost use Rattle.inc_graph.specs.FileSets.{AreFlags};
ghost use Rattle.inc_graph.specs.MarkedEdges.{amounts_by};
ghost use Rattle.inc_graph.specs.Members.{is_member};
ghost use Rattle.inc_answers.specs.CostGroups as spec;
ghost use Rattle.inc_answers.specs.CostGroups.{AreCosted, AreGroupsRanked, IsCosted, IsCounted, IsCutBefore, IsOpen, cut_words, costed_line, group_files, group_headers, group_line, open_files, part_to};
ghost use Rattle.inc_answers.specs.Numbers.{count_text};
ghost use Rattle.inc_answers.specs.Sending.{Sends};

use crate::lines::{send_count_line, send_line, send_number};
use crate::named_files::{NameFault, files_at, flagged_files};
use crate::nearest_cuts::nearest_cut;
use crate::output::Output;
use inc_cost::{Group, dearest, group_cost};
use inc_cut::CutAnswer;
use inc_graph::{Blocker, Fixed, Graph};
use inc_lookup::{FileId, Project};
use inc_text::ByteSink;
use std::alloc::{AllocError, Global};
use std::marker::Model;

/// More groups are not ranked: their places would not fit into the keys of the ranking.
const MOST_GROUPS: usize = 1 << 32;

/// How many directives the smallest cut before some headers has.
#[derive(Clone, Copy, Debug, PartialEq, Eq)]
pub enum CutCount {
    /// It is not known: a directive that the sources reach before the headers may lead to them, too.
    Blocked,
    /// There is no cut.
    Fixed,
    /// So many.
    Smallest(usize),
}

/// What a group of headers costs.
#[derive(Drop)]
pub struct Costed<'g> {
    pub name: &'g [u8],
    /// How much less all sources weigh without the directives that lead into the group.
    pub bytes: u64,
    /// Of how many sources that takes something away.
    pub count: u64,
    /// In how few directives that can be had.
    pub cut: CutCount,
}

impl<'g> Model for Costed<'g> {
    ghost use Rattle.inc_answers.specs.CostGroups.{Costed};

    ghost Value = { Costed };

    ghost view = { λ c. record { name = c.name.now; bytes = c.bytes; count = c.count; cut = c.cut } };
}

/// What groups cost, and their places, the dearest first.
#[derive(Drop)]
pub struct RankedGroups<'g> {
    pub costed: Vec<Costed<'g>>,
    pub places: Vec<usize>,
}

/// What each of some groups costs the sources of a graph whose files have these sizes. A group takes two searches from each source, and the
/// time of `cut`.
pub fn rank_groups<'g>(
    alloc: Global,
    project: &Project<'_>,
    graph: &Graph,
    sizes: &[u32],
    groups: &[Group<'g>],
) -> Result<RankedGroups<'g>, AllocError>
    requires { graph.now.files ≡ length project.now.paths }
    ensures costed { IfOk result (λ r. AreCosted project.now graph.now sizes.now groups.now r.costed.items) }
    ensures ranked { IfOk result (λ r. AreGroupsRanked r.costed.items r.places.items) }
{
    let costed = cost_groups(alloc, project, graph, sizes, groups)?;
    let places = rank(alloc, &costed)?;
    Ok(RankedGroups { costed, places })
}

/// What each of some groups costs, in their order.
fn cost_groups<'g>(
    alloc: Global,
    project: &Project<'_>,
    graph: &Graph,
    sizes: &[u32],
    groups: &[Group<'g>],
) -> Result<Vec<Costed<'g>>, AllocError>
    requires { graph.now.files ≡ length project.now.paths }
    ensures { IfOk result (λ costed. AreCosted project.now graph.now sizes.now groups.now costed.items) }
{
    let mut costed = Vec::new(alloc);
    for group in groups {
        costed.push(cost_group(alloc, project, graph, sizes, group)?)?;
    }
    Ok(costed)
}

/// What a group costs.
fn cost_group<'g>(
    alloc: Global,
    project: &Project<'_>,
    graph: &Graph,
    sizes: &[u32],
    group: &Group<'g>,
) -> Result<Costed<'g>, AllocError>
    requires { graph.now.files ≡ length project.now.paths }
    ensures { IfOk result (λ c. IsCosted project.now graph.now sizes.now group.now c) }
{
    let headers = group_headers(alloc, project, graph, group)?;
    let flags = flags_of(alloc, graph.files(), &headers)?;
    let cost = group_cost(alloc, graph, sizes, &flags)?;
    let cut = count_cut(alloc, project, graph, &headers)?;
    Ok(Costed {
        name: group.name,
        bytes: cost.bytes,
        count: cost.count,
        cut,
    })
}

/// The files of a group that are no sources.
fn group_headers(
    alloc: Global,
    project: &Project<'_>,
    graph: &Graph,
    group: &Group<'_>,
) -> Result<Vec<FileId>, AllocError>
    requires { graph.now.files ≡ length project.now.paths }
    ensures headers { IfOk result (λ headers. headers.items ≡ group_headers project.now graph.now group.now) }
    ensures within { IfOk result (λ headers. All (λ f. f < graph.now.files) headers.items) }
    ensures rise { IfOk result (λ headers. IsStrictlyIncreasing headers.items) }
{
    let files = group_files(alloc, project, group)?;
    let headers = without_sources(alloc, graph, &files)?;
    Ok(headers)
}

/// The files of a group.
fn group_files(
    alloc: Global,
    project: &Project<'_>,
    group: &Group<'_>,
) -> Result<Vec<FileId>, AllocError>
    ensures files { IfOk result (λ files. files.items ≡ group_files project.now group.now) }
    ensures within { IfOk result (λ files. All (λ f. f < length project.now.paths) files.items) }
    ensures rise { IfOk result (λ files. IsStrictlyIncreasing files.items) }
{
    match files_at(alloc, project, &group.paths) {
        Ok(files) => Ok(files),
        Err(NameFault::Unnamed(_)) => Ok(Vec::new(alloc)),
        Err(NameFault::NoMemory) => Err(AllocError),
    }
}

/// Those of some files that are no sources.
fn without_sources(
    alloc: Global,
    graph: &Graph,
    files: &[FileId],
) -> Result<Vec<FileId>, AllocError>
    ensures { IfOk result (λ kept. kept.items ≡ filter (λ f. not (is_member f graph.now.sources)) files.now) }
{
    let mut kept = Vec::new(alloc);
    for file in files {
        if !graph.is_source(*file) {
            kept.push(*file)?;
        }
    }
    Ok(kept)
}

/// For each of so many files whether it is one of these.
fn flags_of(alloc: Global, count: usize, files: &[FileId]) -> Result<Vec<bool>, AllocError>
    requires { All (λ f. f < count) files.now }
    ensures flags { IfOk result (λ flags. AreFlags files.now flags.items) }
    ensures long { IfOk result (λ flags. length flags.items ≡ count) }
{
    let mut flags = vec![in alloc; false; count]?;
    for file in files {
        flags[file.index()] = true;
    }
    Ok(flags)
}

/// How many directives the smallest cut before some headers has.
fn count_cut(
    alloc: Global,
    project: &Project<'_>,
    graph: &Graph,
    headers: &[FileId],
) -> Result<CutCount, AllocError>
    requires files { graph.now.files ≡ length project.now.paths }
    requires within { All (λ f. f < graph.now.files) headers.now }
    requires rise { IsStrictlyIncreasing headers.now }
    ensures { IfOk result (λ count. IsCutBefore graph.now headers.now count) }
{
    if headers.is_empty() {
        return Ok(CutCount::Smallest(0));
    }
    // That its sources rise.
    let _sound = graph.files();
    let part = graph.between(alloc, graph.sources(), headers)?;
    if is_open(alloc, project, graph, headers, &part.graph)? {
        return Ok(CutCount::Blocked);
    }
    count_smallest(alloc, project, &part.graph)
}

/// Whether a chain of the part of a graph that leads to headers leads to a file with a directive of which nothing can be said.
fn is_open(
    alloc: Global,
    project: &Project<'_>,
    graph: &Graph,
    headers: &[FileId],
    part: &Graph,
) -> Result<bool, AllocError>
    requires files { graph.now.files ≡ length project.now.paths }
    requires within { All (λ f. f < graph.now.files) headers.now }
    requires part { part.now ≡ part_to graph.now headers.now }
    ensures chain { IfOk result (λ yes. OnTrue yes (IsOpen graph.now headers.now)) }
    ensures none { IfOk result (λ yes. yes ≡ false → IsOpen graph.now headers.now → ⊥) }
{
    let open = open_files(alloc, project, graph, headers)?;
    if open.is_empty() {
        return Ok(false);
    }
    // That its sources rise.
    let _sound = graph.files();
    let ways = part.between(alloc, graph.sources(), &open)?;
    Ok(ways.graph.shortest(alloc)?.is_some())
}

/// The files that are none of some headers, with a directive of which nothing can be said.
fn open_files(
    alloc: Global,
    project: &Project<'_>,
    graph: &Graph,
    headers: &[FileId],
) -> Result<Vec<FileId>, AllocError>
    requires files { graph.now.files ≡ length project.now.paths }
    requires within { All (λ f. f < graph.now.files) headers.now }
    ensures files { IfOk result (λ files. files.items ≡ open_files graph.now headers.now) }
{
    let among = flags_of(alloc, graph.files(), headers)?;
    let flags = open_flags(alloc, graph.blockers(), &among)?;
    flagged_files(alloc, project, &flags)
}

/// For each file whether one of some directives is in it, and it has no flag.
fn open_flags(alloc: Global, blockers: &[Blocker], among: &[bool]) -> Result<Vec<bool>, AllocError>
    requires { All (λ (b : Blocker). b.file < length among.now) blockers.now }
    ensures flags { IfOk result (λ flags. (f : ℕ) → slice_index_or flags.items f false
        ≡ list_any (λ (b : Blocker). b.file == f) blockers.now && not (slice_index_or among.now f false)) }
    ensures long { IfOk result (λ flags. length flags.items ≡ length among.now) }
{
    let mut flags = vec![in alloc; false; among.len()]?;
    for blocker in blockers {
        flags[blocker.file.index()] = !among[blocker.file.index()];
    }
    Ok(flags)
}

/// How many edges the smallest cut of a graph has, each of which may be removed.
fn count_smallest(
    alloc: Global,
    project: &Project<'_>,
    part: &Graph,
) -> Result<CutCount, AllocError>
    requires { part.now.files ≡ length project.now.paths }
    ensures { IfOk result (λ count. IsCounted part.now count) }
{
    let fixed = without_marks(alloc, project, part)?;
    let answer = &nearest_cut(alloc, part, &fixed)?;
    match answer {
        CutAnswer::Cut { edges, .. } => Ok(CutCount::Smallest(edges.len())),
        CutAnswer::Fixed { .. } => Ok(CutCount::Fixed),
    }
}

/// What the edges of a graph cost where none is marked.
fn without_marks(alloc: Global, project: &Project<'_>, graph: &Graph) -> Result<Fixed, AllocError>
    requires { graph.now.files ≡ length project.now.paths }
    ensures { IfOk result (λ fixed. fixed ≡ amounts_by project.now graph.now [] [] []) }
{
    // Nothing is marked, so that nothing but memory is missing.
    match Fixed::with_costs(alloc, project, graph, &[], &[], &[]) {
        Ok(fixed) => Ok(fixed),
        Err(_) => Err(AllocError),
    }
}

/// The places of groups, the dearest first.
fn rank(alloc: Global, costed: &[Costed<'_>]) -> Result<Vec<usize>, AllocError>
    ensures { IfOk result (λ places. AreGroupsRanked costed.now places.items) }
{
    let keys = keys_of(alloc, costed)?;
    if keys.len() > MOST_GROUPS {
        return Err(AllocError);
    }
    dearest(alloc, &keys, keys.len())
}

/// One more than each group costs.
fn keys_of(alloc: Global, costed: &[Costed<'_>]) -> Result<Vec<u64>, AllocError>
    ensures { IfOk result (λ keys. keys.items ≡ map (λ (c : spec.Costed). suc c.bytes) costed.now) }
{
    let mut keys = Vec::new(alloc);
    for group in costed {
        match group.bytes.checked_add(1) {
            Some(key) => keys.push(key)?,
            None => return Err(AllocError),
        }
    }
    Ok(keys)
}

/// Sends how many groups there are, and each.
pub fn send_groups<W: ByteSink>(out: &mut Output<W>, groups: &RankedGroups<'_>)
    requires { All (λ i. i < length groups.now.costed.items) groups.now.places.items }
    ensures { Sends out.old out.new (count_text (codes "groups") (length groups.now.places.items)
        ++ flat_map (group_line groups.now.costed.items) groups.now.places.items) }
{
    send_count_line(out, b"groups", groups.places.len());
    send_each_group(out, &groups.costed, &groups.places);
}

/// Sends each of some groups.
fn send_each_group<W: ByteSink>(out: &mut Output<W>, costed: &[Costed<'_>], places: &[usize])
    requires { All (λ i. i < length costed.now) places.now }
    ensures { Sends out.old out.new (flat_map (group_line costed.now) places.now) }
{
    for place in places {
        send_group(out, costed, *place);
    }
}

/// Sends what the group at a place costs, and its name.
fn send_group<W: ByteSink>(out: &mut Output<W>, costed: &[Costed<'_>], place: usize)
    requires { place < length costed.now }
    ensures { Sends out.old out.new (group_line costed.now place) }
{
    send_costed(out, &costed[place]);
}

/// Sends what a group costs, and its name.
fn send_costed<W: ByteSink>(out: &mut Output<W>, costed: &Costed<'_>)
    ensures { Sends out.old out.new (costed_line costed.now) }
{
    send_number(out, costed.bytes);
    out.send(b" ");
    send_number(out, costed.count);
    out.send(b" ");
    send_cut(out, costed.cut);
    out.send(b" ");
    send_line(out, costed.name);
}

/// Sends how many directives a cut has.
fn send_cut<W: ByteSink>(out: &mut Output<W>, cut: CutCount)
    ensures { Sends out.old out.new (cut_words cut) }
{
    match cut {
        CutCount::Blocked => out.send(b"blocked"),
        CutCount::Fixed => out.send(b"fixed"),
        CutCount::Smallest(count) => send_number(out, count as u64),
    }
}
