//! What all sources reach, by which headers and directives most of it comes in, and what groups of headers cost.
ghost use Rattle.std.specs.Prelude.{◌≡◌, ◌<◌, ◌++◌, None, false, codes, flat_map, length, replicate, IfOk, IfSome, IfErr};
ghost use Rattle.inc_lookup.specs.Given.{HoldsOfGiven};
ghost use Rattle.inc_lookup.specs.Projects.{path_at};
ghost use Rattle.inc_check.specs.Texts.{line_text};
ghost use Rattle.inc_cost.specs.Costs.{AreDearest};
ghost use Rattle.inc_graph.specs.Members.{is_member};
ghost use Rattle.inc_answers.specs.CostViews.{AreWithin, IsInside, seen_amounts, seen_ranked};
ghost use Rattle.inc_answers.specs.CostText.{amount_text, cost_text, edge_line, header_bytes, header_bytes_at, header_line, total_line, unknown_text, IsCostBy, IsCostFor, IsRanked};
ghost use Rattle.inc_answers.specs.Numbers.{count_text};
ghost use Rattle.inc_answers.specs.Questions.{FailsAt};
ghost use Rattle.inc_answers.specs.Sending.{Sends};
ghost use Rattle.inc_answers.specs.Strictness.{Strict, strays_of};
ghost use Rattle.inc_answers.specs.Writing.{Prints, Writes, is_of_certificate, unread_of};

use crate::answer_notes::empty_notes;
use crate::asked::Question;
use crate::cost_groups::{RankedGroups, rank_groups, send_groups};
use crate::edges::send_edges;
use crate::lines::{send_count_line, send_line, send_number};
use crate::outcome::{End, EndKind, RunFault, noted};
use crate::output::Output;
use crate::questions::{find_graph, refuse_question};
use crate::sized_sources::SizedSources;
use crate::strictness::{refuse_strays, strays_of};
use inc_cost::{Amounts, Costs, Group, dearest};
use inc_graph::{EdgeId, Graph};
use inc_lookup::{Project, Sources};
use inc_text::ByteSink;
use std::alloc::{AllocError, Global};

/// Writes how many bytes of files all sources reach together, each source counted by itself; then the headers that bring most of them, with
/// what would not be reached without the header, and the directives without which most of them would not be reached, each by itself: of
/// both at most `most`, the greatest amounts first. After each amount is the number of sources that have a part in it. Between them each group
/// of headers, with what would not be reached if none of its headers were read, and how many directives the smallest cut before it has. Then
/// how many includes are not found, which are noted, and of how many nothing can be said.
///
/// The sources are given back with the sink. Files are read when they are reached, each once, and of their bytes none is kept. All memory is
/// taken before the first byte is written.
pub fn run_cost<S: Sources, W: ByteSink>(
    alloc: Global,
    project: &Project<'_>,
    sources: S,
    question: &Question<'_>,
    most: usize,
    groups: &[Group<'_>],
    w: W,
) -> (Result<End, RunFault>, S, W)
    requires { W.has_failed w ≡ false }
    ensures written { Writes (λ p. HoldsOfGiven S.gives sources result.1 project.now
        (IsCostBy most groups.now question.now p))
        (W.written w) (W.written result.2) (W.has_failed result.2) result.0 }
    ensures unread { IfErr result.0 (λ fault. IfSome (unread_of fault)
        (FailsAt S.gives sources result.1 project.now question.now)) }
    ensures certificate { IfErr result.0 (λ f. is_of_certificate f ≡ false) }
{
    let mut out = match Output::new(alloc, w) {
        Ok(out) => out,
        Err(w) => return (Err(RunFault::NoMemory), sources, w),
    };
    let mut sized = match SizedSources::new(alloc, sources, project.count()) {
        Ok(sized) => sized,
        Err(sources) => return (Err(RunFault::NoMemory), sources, out.into_sink()),
    };
    let ended = weigh(alloc, project, &mut sized, question, most, groups, &mut out);
    let (result, w) = out.finish(ended);
    (result, sized.into_sources(), w)
}

/// Sends what includes cost the sources of a question, or why there is no answer.
fn weigh<S: Sources, W: ByteSink>(
    alloc: Global,
    project: &Project<'_>,
    sized: &mut SizedSources<S>,
    question: &Question<'_>,
    most: usize,
    groups: &[Group<'_>],
    out: &mut Output<W>,
) -> Result<End, RunFault>
    requires { sized.old.sizes.items ≡ replicate (length project.now.paths) 0 }
    ensures sent { Prints (λ p. HoldsOfGiven S.gives sized.old.sources sized.new.sources project.now
        (IsCostBy most groups.now question.now p)) out.old out.new result }
    ensures unread { IfErr result (λ fault. IfSome (unread_of fault)
        (FailsAt S.gives sized.old.sources sized.new.sources project.now question.now)) }
    ensures certificate { IfErr result (λ f. is_of_certificate f ≡ false) }
{
    match find_graph(alloc, project, sized, question) {
        Ok(graph) => {
            let sizes = &sized.sizes;
            weigh_strictly(alloc, project, question, &graph, sizes, most, groups, out)
        }
        Err(cause) => refuse_question(alloc, project, question, cause, out),
    }
}

/// Sends what the includes of a graph cost, or the refusal of directives whose header is not found.
fn weigh_strictly<W: ByteSink>(
    alloc: Global,
    project: &Project<'_>,
    question: &Question<'_>,
    graph: &Graph,
    sizes: &[u32],
    most: usize,
    groups: &[Group<'_>],
    out: &mut Output<W>,
) -> Result<End, RunFault>
    requires files { graph.now.files ≡ length project.now.paths }
    ensures sent { Prints (Strict (strays_of question.now) (IsCostFor sizes.now most groups.now) project.now graph.now) out.old out.new result }
    ensures read { IfErr result (λ f. unread_of f ≡ None) }
    ensures certificate { IfErr result (λ f. is_of_certificate f ≡ false) }
{
    let strays = strays_of(alloc, question, graph)?;
    if strays.is_empty() {
        return weigh_graph(alloc, project, graph, sizes, most, groups, out);
    }
    refuse_strays(alloc, project, graph, &strays, out)
}

/// Sends what the includes of a graph cost whose files have these sizes.
fn weigh_graph<W: ByteSink>(
    alloc: Global,
    project: &Project<'_>,
    graph: &Graph,
    sizes: &[u32],
    most: usize,
    groups: &[Group<'_>],
    out: &mut Output<W>,
) -> Result<End, RunFault>
    requires { graph.now.files ≡ length project.now.paths }
    ensures sent { Prints (IsCostFor sizes.now most groups.now project.now graph.now) out.old out.new result }
    ensures read { IfErr result (λ f. unread_of f ≡ None) }
    ensures certificate { IfErr result (λ f. is_of_certificate f ≡ false) }
{
    let ranked = rank_costs(alloc, project, graph, sizes, most, groups)?;
    let notes = empty_notes(alloc, project, graph)?;
    send_ranked(out, project, graph, &ranked);
    Ok(noted(EndKind::Answered, notes))
}

/// What includes cost, with the places of what is printed of it.
#[derive(Drop)]
pub struct Ranked<'g> {
    pub costs: Costs,
    /// Of files that are no sources.
    pub headers: Vec<usize>,
    pub groups: RankedGroups<'g>,
    pub edges: Vec<usize>,
}

/// What includes cost in a graph whose files have these sizes: the headers and the edges that cost most, at most so many of each, and groups.
pub fn rank_costs<'g>(
    alloc: Global,
    project: &Project<'_>,
    graph: &Graph,
    sizes: &[u32],
    most: usize,
    groups: &[Group<'g>],
) -> Result<Ranked<'g>, AllocError>
    requires { graph.now.files ≡ length project.now.paths }
    ensures ranked { IfOk result (λ r. IsRanked sizes.now most groups.now project.now graph.now (seen_ranked r)) }
    ensures within { IfOk result (λ r. IsInside project.now graph.now r) }
{
    let costs = Costs::new(alloc, graph, sizes)?;
    let groups = rank_groups(alloc, project, graph, sizes, groups)?;
    let ranked = rank(alloc, project, graph, costs, groups, most)?;
    Ok(ranked)
}

/// The headers and the edges that cost most, at most so many of each, beside groups.
fn rank<'g>(
    alloc: Global,
    project: &Project<'_>,
    graph: &Graph,
    costs: Costs,
    groups: RankedGroups<'g>,
    most: usize,
) -> Result<Ranked<'g>, AllocError>
    requires files { graph.now.files ≡ length project.now.paths }
    requires brought { length costs.files.bytes.items ≡ graph.now.files }
    requires saved { length costs.edges.bytes.items ≡ length graph.now.edges }
    ensures same { IfOk result (λ r. r.costs ≡ costs) }
    ensures groups { IfOk result (λ r. r.groups ≡ groups.entry) }
    ensures headers { IfOk result (λ r. AreDearest (header_bytes graph.now costs.files.bytes.items) most r.headers.items) }
    ensures edges { IfOk result (λ r. AreDearest costs.edges.bytes.items most r.edges.items) }
{
    let _sound = graph.files();
    let bytes = header_bytes(alloc, project, graph, &costs.files.bytes)?;
    let headers = dearest(alloc, &bytes, most)?;
    let edges = dearest(alloc, &costs.edges.bytes, most)?;
    Ok(Ranked {
        costs,
        headers,
        groups,
        edges,
    })
}

/// What each file brings that is no source, 0 for sources.
fn header_bytes(
    alloc: Global,
    project: &Project<'_>,
    graph: &Graph,
    bytes: &[u64],
) -> Result<Vec<u64>, AllocError>
    requires files { graph.now.files ≡ length project.now.paths }
    requires bytes { length bytes.now ≡ graph.now.files }
    ensures { IfOk result (λ found. found.items ≡ header_bytes graph.now bytes.now) }
{
    let count = project.count();
    let mut found = Vec::with_capacity(alloc, count)?;
    for place in 0..count {
        found.push(header_bytes_at(project, graph, bytes, place))?;
    }
    Ok(found)
}

/// What the file at a place brings, if it is no source.
fn header_bytes_at(project: &Project<'_>, graph: &Graph, bytes: &[u64], place: usize) -> u64
    requires place { place < length project.now.paths }
    requires bytes { length bytes.now ≡ length project.now.paths }
    ensures { result ≡ header_bytes_at graph.now bytes.now place }
{
    if is_source_at(project, graph, place) {
        return 0;
    }
    bytes[place]
}

/// Whether the file at a place is a source.
fn is_source_at(project: &Project<'_>, graph: &Graph, place: usize) -> bool
    requires { place < length project.now.paths }
    ensures { result ≡ is_member place graph.now.sources }
{
    match project.at(place) {
        Some(file) => graph.is_source(file),
        None => false,
    }
}

/// Sends what all sources reach, and what costs most.
fn send_ranked<W: ByteSink>(
    out: &mut Output<W>,
    project: &Project<'_>,
    graph: &Graph,
    ranked: &Ranked<'_>,
)
    requires files { graph.now.files ≡ length project.now.paths }
    requires within { IsInside project.now graph.now ranked.now }
    ensures { Sends out.old out.new (cost_text project.now graph.now (seen_ranked ranked.now)) }
{
    send_total(out, ranked.costs.total, graph.sources().len());
    send_headers(out, project, &ranked.costs.files, &ranked.headers);
    send_groups(out, &ranked.groups);
    send_directives(out, project, graph, &ranked.costs.edges, &ranked.edges);
    send_unknown(out, graph);
}

/// Sends how many includes are not found, and of how many nothing can be said.
pub fn send_unknown<W: ByteSink>(out: &mut Output<W>, graph: &Graph)
    ensures { Sends out.old out.new (unknown_text graph.now) }
{
    send_count_line(out, b"missing", graph.missing().len());
    send_count_line(out, b"blocked", graph.blockers().len());
}

/// Sends what all sources reach together, and how many there are.
pub fn send_total<W: ByteSink>(out: &mut Output<W>, total: u64, sources: usize)
    ensures { Sends out.old out.new (total_line total sources) }
{
    out.send(b"cost ");
    send_number(out, total);
    out.send(b" ");
    send_number(out, sources as u64);
    out.send(b"\n");
}

/// Sends what an edge or a file has.
fn send_amount<W: ByteSink>(out: &mut Output<W>, amounts: &Amounts, place: usize)
    requires bytes { place < length amounts.now.bytes.items }
    requires counts { place < length amounts.now.counts.items }
    ensures { Sends out.old out.new (amount_text (seen_amounts amounts.now) place) }
{
    send_number(out, amounts.bytes[place]);
    out.send(b" ");
    send_number(out, amounts.counts[place]);
    out.send(b" ");
}

/// Sends how many headers there are, and each.
fn send_headers<W: ByteSink>(
    out: &mut Output<W>,
    project: &Project<'_>,
    brought: &Amounts,
    headers: &[usize],
)
    requires { AreWithin (length project.now.paths) brought.now headers.now }
    ensures { Sends out.old out.new (count_text (codes "headers") (length headers.now)
        ++ flat_map (header_line project.now (seen_amounts brought.now)) headers.now) }
{
    send_count_line(out, b"headers", headers.len());
    send_each_header(out, project, brought, headers);
}

/// Sends each of some headers.
fn send_each_header<W: ByteSink>(
    out: &mut Output<W>,
    project: &Project<'_>,
    brought: &Amounts,
    headers: &[usize],
)
    requires { AreWithin (length project.now.paths) brought.now headers.now }
    ensures { Sends out.old out.new (flat_map (header_line project.now (seen_amounts brought.now)) headers.now) }
{
    for header in headers {
        send_header(out, project, brought, *header);
    }
}

/// Sends what a header brings, and its path.
fn send_header<W: ByteSink>(
    out: &mut Output<W>,
    project: &Project<'_>,
    brought: &Amounts,
    header: usize,
)
    requires path { header < length project.now.paths }
    requires bytes { header < length brought.now.bytes.items }
    requires counts { header < length brought.now.counts.items }
    ensures { Sends out.old out.new (header_line project.now (seen_amounts brought.now) header) }
{
    send_amount(out, brought, header);
    send_path(out, project, header);
}

/// Sends the path of the file at a place.
fn send_path<W: ByteSink>(out: &mut Output<W>, project: &Project<'_>, place: usize)
    requires { place < length project.now.paths }
    ensures { Sends out.old out.new (line_text (path_at project.now place)) }
{
    if let Some(file) = project.at(place) {
        send_line(out, project.path(file));
    }
}

/// Sends how many directives there are, and each.
fn send_directives<W: ByteSink>(
    out: &mut Output<W>,
    project: &Project<'_>,
    graph: &Graph,
    saved: &Amounts,
    edges: &[usize],
)
    requires files { graph.now.files ≡ length project.now.paths }
    requires edges { AreWithin (length graph.now.edges) saved.now edges.now }
    ensures { Sends out.old out.new (count_text (codes "directives") (length edges.now)
        ++ flat_map (edge_line project.now graph.now (seen_amounts saved.now)) edges.now) }
{
    send_count_line(out, b"directives", edges.len());
    send_each_edge(out, project, graph, saved, edges);
}

/// Sends each of some edges.
fn send_each_edge<W: ByteSink>(
    out: &mut Output<W>,
    project: &Project<'_>,
    graph: &Graph,
    saved: &Amounts,
    edges: &[usize],
)
    requires files { graph.now.files ≡ length project.now.paths }
    requires edges { AreWithin (length graph.now.edges) saved.now edges.now }
    ensures { Sends out.old out.new (flat_map (edge_line project.now graph.now (seen_amounts saved.now)) edges.now) }
{
    for edge in edges {
        send_edge(out, project, graph, saved, *edge);
    }
}

/// Sends what goes with an edge, and its directive.
fn send_edge<W: ByteSink>(
    out: &mut Output<W>,
    project: &Project<'_>,
    graph: &Graph,
    saved: &Amounts,
    edge: usize,
)
    requires files { graph.now.files ≡ length project.now.paths }
    requires edge { edge < length graph.now.edges }
    requires bytes { edge < length saved.now.bytes.items }
    requires counts { edge < length saved.now.counts.items }
    ensures { Sends out.old out.new (edge_line project.now graph.now (seen_amounts saved.now) edge) }
{
    let id = id_of(graph, edge);
    send_amount(out, saved, edge);
    send_edges(out, project, graph, &[id]);
}

/// The edge at a place.
pub fn id_of(graph: &Graph, place: usize) -> EdgeId
    requires { place < length graph.now.edges }
    ensures { result ≡ place }
{
    let edge = graph.edges()[place];
    edge.id
}
