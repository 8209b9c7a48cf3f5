//! What `why`, `who`, `graph` and `cut` answer, as objects of JSON.
ghost use Rattle.std.specs.Prelude.{◌≡◌, ◌≤◌, ◌∷◌, [], length, option_map, IfOk, OnOk};
ghost use Rattle.inc_graph.specs.Cuts as cuts;
ghost use Rattle.inc_answers.specs.JsonAnswers.{about_of, about_subject, cut_json, fixed_json, found_text, from_text, front_text, graph_json, puts, sets_ends, to_text, who_json, status_text, why_ends, why_json};

use crate::json_parts::JsonText;
use crate::outcome::EndKind;
use crate::subjects::Subject;
use inc_cut::CountedChains;
use inc_graph::{EdgeId, ShortestChains, SourceChains};
use inc_lookup::FileId;
use std::alloc::{AllocError, Global};

/// How a header reaches a source, by a shortest chain if there is one and by the chains that are left, of a call that ends so.
pub fn why_json(
    alloc: Global,
    subject: Subject<'_>,
    kind: EndKind,
    shortest: Option<&[EdgeId]>,
    chains: &mut ShortestChains<'_>,
) -> Result<Vec<u8>, AllocError>
    ensures { IfOk result (λ text. text.items ≡ why_json kind (about_subject subject.entry)
        (option_map (λ c. c.now) shortest.entry) chains.old.left) }
{
    let mut json = JsonText::new(alloc, subject)?;
    put_front(&mut json, chains, b"why")?;
    let (sources, headers) = (subject.graph.sources(), subject.graph.headers());
    put_ends(&mut json, sources, headers, shortest, kind)?;
    Ok(json.into_text())
}

/// Adds what `why` and `who` begin with: the directives of which nothing can be said, the chains that are left, and the command with
/// this name.
fn put_front(
    json: &mut JsonText<'_>,
    chains: &mut ShortestChains<'_>,
    command: &[u8],
) -> Result<(), AllocError>
    ensures { OnOk result (json.new ≡ puts json.old
        (front_text command.now (about_of json.old) chains.old.left)) }
{
    json.put(b"{\"blocked\":")?;
    json.put_blocked()?;
    json.put(b",\"chains\":")?;
    json.put_chains(chains)?;
    json.put(b",\"command\":\"")?;
    json.put(command)?;
    json.put(b"\",\"format\":1,")
}

/// Adds the rest of `why`.
fn put_ends(
    json: &mut JsonText<'_>,
    sources: &[FileId],
    headers: &[FileId],
    shortest: Option<&[EdgeId]>,
    kind: EndKind,
) -> Result<(), AllocError>
    ensures { OnOk result (json.new ≡ puts json.old (why_ends kind (about_of json.old) sources.now headers.now
        (option_map (λ c. c.now) shortest.entry))) }
{
    match sources {
        [source] => put_ends_of(json, *source, headers, shortest, kind),
        _ => put_sets(json, shortest, kind),
    }
}

/// The same where the question has one source.
fn put_ends_of(
    json: &mut JsonText<'_>,
    source: FileId,
    headers: &[FileId],
    shortest: Option<&[EdgeId]>,
    kind: EndKind,
) -> Result<(), AllocError>
    ensures { OnOk result (json.new ≡ puts json.old (why_ends kind (about_of json.old) (source ∷ []) headers.now
        (option_map (λ c. c.now) shortest.entry))) }
{
    match headers {
        [header] => put_pair(json, source, *header, shortest, kind),
        _ => put_sets(json, shortest, kind),
    }
}

/// The same where it has one source and one header.
fn put_pair(
    json: &mut JsonText<'_>,
    source: FileId,
    header: FileId,
    shortest: Option<&[EdgeId]>,
    kind: EndKind,
) -> Result<(), AllocError>
    ensures { OnOk result (json.new ≡ puts json.old (why_ends kind (about_of json.old) (source ∷ []) (header ∷ [])
        (option_map (λ c. c.now) shortest.entry))) }
{
    json.put_file(b"header", header)?;
    put_found(json, shortest)?;
    json.put(b",")?;
    json.put_file(b"source", source)?;
    json.put(status_text(kind))?;
    json.put(b"}\n")
}

/// The same where it has several, or none.
fn put_sets(
    json: &mut JsonText<'_>,
    shortest: Option<&[EdgeId]>,
    kind: EndKind,
) -> Result<(), AllocError>
    ensures { OnOk result (json.new ≡ puts json.old (sets_ends kind (about_of json.old)
        (option_map (λ c. c.now) shortest.entry))) }
{
    put_from(json)?;
    put_found(json, shortest)?;
    json.put(status_text(kind))?;
    json.put(b",")?;
    put_to(json)?;
    json.put(b"}\n")
}

/// The status of a call that ends so, under its key.
pub fn status_text(kind: EndKind) -> &'static [u8]
    ensures { result.now ≡ status_text kind }
{
    match kind {
        EndKind::Answered => b",\"status\":0",
        EndKind::Negative => b",\"status\":1",
        EndKind::Refused => b",\"status\":4",
    }
}

/// Adds the names of headers that are not found, and a shortest chain if there is one.
fn put_found(json: &mut JsonText<'_>, shortest: Option<&[EdgeId]>) -> Result<(), AllocError>
    ensures { OnOk result (json.new ≡ puts json.old (found_text (about_of json.old)
        (option_map (λ c. c.now) shortest.entry))) }
{
    json.put(b",\"missing\":")?;
    json.put_missing()?;
    json.put(b",\"shortest\":")?;
    json.put_shortest(shortest)
}

/// Adds the sources of the graph, under their key.
pub fn put_from(json: &mut JsonText<'_>) -> Result<(), AllocError>
    ensures { OnOk result (json.new ≡ puts json.old (from_text (about_of json.old))) }
{
    let graph = json.graph();
    json.put(b"\"from\":")?;
    json.put_files(graph.sources())
}

/// Adds the headers of the graph, under their key.
fn put_to(json: &mut JsonText<'_>) -> Result<(), AllocError>
    ensures { OnOk result (json.new ≡ puts json.old (to_text (about_of json.old))) }
{
    let graph = json.graph();
    json.put(b"\"to\":")?;
    json.put_files(graph.headers())
}

/// Which sources reach a header: those that are left, and the chains that are left, of a call that ends so.
pub fn who_json(
    alloc: Global,
    subject: Subject<'_>,
    kind: EndKind,
    reaching: &mut SourceChains<'_>,
    chains: &mut ShortestChains<'_>,
    all: bool,
) -> Result<Vec<u8>, AllocError>
    ensures { IfOk result (λ text. text.items ≡ who_json kind all (about_subject subject.entry)
        reaching.old.left chains.old.left) }
{
    let mut json = JsonText::new(alloc, subject)?;
    put_front(&mut json, chains, b"who")?;
    put_from(&mut json)?;
    json.put(b",\"missing\":")?;
    json.put_missing()?;
    json.put(b",\"sources\":")?;
    json.put_sources(reaching, all)?;
    json.put(status_text(kind))?;
    json.put(b",")?;
    put_to(&mut json)?;
    json.put(b"}\n")?;
    Ok(json.into_text())
}

/// Which edges the sources reach.
pub fn graph_json(alloc: Global, subject: Subject<'_>) -> Result<Vec<u8>, AllocError>
    ensures { IfOk result (λ text. text.items ≡ graph_json (about_subject subject.entry)) }
{
    let mut json = JsonText::new(alloc, subject)?;
    json.put(b"{\"blocked\":")?;
    json.put_blocked()?;
    json.put(b",\"command\":\"graph\",\"edges\":")?;
    json.put_all_edges()?;
    json.put(b",\"format\":1,")?;
    put_from(&mut json)?;
    json.put(b",\"missing\":")?;
    json.put_missing()?;
    json.put(b",\"status\":0}\n")?;
    Ok(json.into_text())
}

/// A cut and the chains that show that none is cheaper.
pub fn cut_json(
    alloc: Global,
    subject: Subject<'_>,
    cut: &[EdgeId],
    chains: &CountedChains,
) -> Result<Vec<u8>, AllocError>
    requires few { length chains.now ≤ 4_294_967_295 }
    ensures { IfOk result (λ text. text.items ≡ cut_json (about_subject subject.entry) cut.now chains.now) }
{
    let mut json = JsonText::new(alloc, subject)?;
    json.put(b"{\"chains\":")?;
    json.put_counted(chains)?;
    json.put(b",\"command\":\"cut\",\"cost\":")?;
    json.put_number(cost_of(chains))?;
    json.put(b",\"cut\":")?;
    json.put_edges(cut)?;
    json.put(b",\"format\":1,")?;
    put_from(&mut json)?;
    json.put(b",\"status\":0,")?;
    put_to(&mut json)?;
    json.put(b"}\n")?;
    Ok(json.into_text())
}

/// How often the chains count, which is what the cut costs.
fn cost_of(chains: &CountedChains) -> u64
    requires few { length chains.now ≤ 4_294_967_295 }
    ensures { result ≡ cuts.total_count chains.now }
{
    let mut cost = 0u64;
    for place in 0..chains.len() {
        cost += u64::from(chains.count(place));
    }
    cost
}

/// A chain of fixed edges, where there is no cut.
pub fn fixed_json(
    alloc: Global,
    subject: Subject<'_>,
    chain: &[EdgeId],
) -> Result<Vec<u8>, AllocError>
    ensures { IfOk result (λ text. text.items ≡ fixed_json (about_subject subject.entry) chain.now) }
{
    let mut json = JsonText::new(alloc, subject)?;
    json.put(b"{\"chain\":")?;
    json.put_edges(chain)?;
    json.put(b",\"command\":\"cut\",\"fixed\":true,\"format\":1,")?;
    put_from(&mut json)?;
    json.put(b",\"status\":1,")?;
    put_to(&mut json)?;
    json.put(b"}\n")?;
    Ok(json.into_text())
}
