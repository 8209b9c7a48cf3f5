//! What `cost` answers, as an object of JSON.
ghost use Rattle.std.specs.Prelude.{◌≡◌, ◌<◌, length, map, IfOk, OnOk};
ghost use Rattle.std.specs.List.{All};
ghost use Rattle.inc_answers.specs.CostJson.{bytes_text, cost_json, costed_item, count_member, cut_value, edge_item, group_item, header_item};
ghost use Rattle.inc_answers.specs.CostViews.{AreWithin, IsInside, seen_amounts, seen_ranked};
ghost use Rattle.inc_answers.specs.JsonAnswers.{about_of, about_subject, puts};
ghost use Rattle.inc_answers.specs.JsonTexts.{list_of};

use crate::cost::{Ranked, id_of};
use crate::cost_groups::{Costed, CutCount, RankedGroups};
use crate::json_answers::put_from;
use crate::json_parts::JsonText;
use crate::subjects::Subject;
use inc_cost::Amounts;
use std::alloc::{AllocError, Global};

/// What is ranked of a graph.
pub fn cost_json(
    alloc: Global,
    subject: Subject<'_>,
    ranked: &Ranked<'_>,
) -> Result<Vec<u8>, AllocError>
    requires files { subject.graph.now.files ≡ length subject.project.now.paths }
    requires within { IsInside subject.project.now subject.graph.now ranked.now }
    ensures { IfOk result (λ text. text.items ≡ cost_json (about_subject subject.entry) (seen_ranked ranked.now)) }
{
    let mut json = JsonText::new(alloc, subject)?;
    json.put(b"{\"blocked\":")?;
    json.put_blocked()?;
    json.put(b",")?;
    json.put_number_member(b"bytes", ranked.costs.total)?;
    json.put(b",\"command\":\"cost\",\"directives\":")?;
    put_edges(&mut json, &ranked.costs.edges, &ranked.edges)?;
    json.put(b",\"format\":1,")?;
    put_from(&mut json)?;
    json.put(b",\"groups\":")?;
    put_groups(&mut json, &ranked.groups)?;
    json.put(b",\"headers\":")?;
    put_headers(&mut json, &ranked.costs.files, &ranked.headers)?;
    json.put(b",\"missing\":")?;
    json.put_missing()?;
    json.put(b",\"status\":0}\n")?;
    Ok(json.into_text())
}

/// Adds what directives save, as a list.
fn put_edges(json: &mut JsonText<'_>, saved: &Amounts, edges: &[usize]) -> Result<(), AllocError>
    requires { AreWithin (length json.old.graph.edges) saved.now edges.now }
    ensures { OnOk result (json.new ≡ puts json.old (list_of (map (edge_item (about_of json.old) (seen_amounts saved.now)) edges.now))) }
{
    json.put(b"[")?;
    for place in 0..edges.len() {
        json.put_comma(place)?;
        put_edge(json, saved, edges[place])?;
    }
    json.put(b"]")
}

/// Adds what a directive saves.
fn put_edge(json: &mut JsonText<'_>, saved: &Amounts, edge: usize) -> Result<(), AllocError>
    requires edge { edge < length json.old.graph.edges }
    requires bytes { edge < length saved.now.bytes.items }
    requires counts { edge < length saved.now.counts.items }
    ensures { OnOk result (json.new ≡ puts json.old (edge_item (about_of json.old) (seen_amounts saved.now) edge)) }
{
    let id = id_of(json.graph(), edge);
    json.put(b"{")?;
    put_bytes(json, saved, edge)?;
    json.put(b",\"directive\":")?;
    json.put_edge(id)?;
    json.put(b",")?;
    put_count(json, saved, edge)?;
    json.put(b"}")
}

/// Adds how many bytes an edge or a file has.
fn put_bytes(json: &mut JsonText<'_>, amounts: &Amounts, place: usize) -> Result<(), AllocError>
    requires { place < length amounts.now.bytes.items }
    ensures { OnOk result (json.new ≡ puts json.old (bytes_text (seen_amounts amounts.now) place)) }
{
    json.put_number_member(b"bytes", amounts.bytes[place])
}

/// Adds of how many sources that is.
fn put_count(json: &mut JsonText<'_>, amounts: &Amounts, place: usize) -> Result<(), AllocError>
    requires { place < length amounts.now.counts.items }
    ensures { OnOk result (json.new ≡ puts json.old (count_member (seen_amounts amounts.now) place)) }
{
    json.put_number_member(b"sources", amounts.counts[place])
}

/// Adds what groups of headers cost, as a list.
fn put_groups(json: &mut JsonText<'_>, groups: &RankedGroups<'_>) -> Result<(), AllocError>
    requires { All (λ i. i < length groups.now.costed.items) groups.now.places.items }
    ensures { OnOk result (json.new ≡ puts json.old (list_of (map (group_item groups.now.costed.items) groups.now.places.items))) }
{
    put_each_group(json, &groups.costed, &groups.places)
}

/// Adds what the groups at these places cost, as a list.
fn put_each_group(
    json: &mut JsonText<'_>,
    costed: &[Costed<'_>],
    places: &[usize],
) -> Result<(), AllocError>
    requires { All (λ i. i < length costed.now) places.now }
    ensures { OnOk result (json.new ≡ puts json.old (list_of (map (group_item costed.now) places.now))) }
{
    json.put(b"[")?;
    for place in 0..places.len() {
        json.put_comma(place)?;
        put_group_at(json, costed, places[place])?;
    }
    json.put(b"]")
}

/// Adds what the group at a place costs.
fn put_group_at(
    json: &mut JsonText<'_>,
    costed: &[Costed<'_>],
    place: usize,
) -> Result<(), AllocError>
    requires { place < length costed.now }
    ensures { OnOk result (json.new ≡ puts json.old (group_item costed.now place)) }
{
    put_group(json, &costed[place])
}

/// Adds what a group of headers costs.
fn put_group(json: &mut JsonText<'_>, costed: &Costed<'_>) -> Result<(), AllocError>
    ensures { OnOk result (json.new ≡ puts json.old (costed_item costed.now)) }
{
    json.put(b"{")?;
    json.put_number_member(b"bytes", costed.bytes)?;
    json.put(b",\"cut\":")?;
    put_cut(json, costed.cut)?;
    json.put(b",")?;
    json.put_bytes_member(b"glob", costed.name)?;
    json.put(b",")?;
    json.put_number_member(b"sources", costed.count)?;
    json.put(b"}")
}

/// Adds how many directives a cut has, or a word.
fn put_cut(json: &mut JsonText<'_>, cut: CutCount) -> Result<(), AllocError>
    ensures { OnOk result (json.new ≡ puts json.old (cut_value cut)) }
{
    match cut {
        CutCount::Blocked => json.put(b"\"blocked\""),
        CutCount::Fixed => json.put(b"\"fixed\""),
        CutCount::Smallest(count) => json.put_number(count as u64),
    }
}

/// Adds what headers bring, as a list.
fn put_headers(
    json: &mut JsonText<'_>,
    brought: &Amounts,
    headers: &[usize],
) -> Result<(), AllocError>
    requires { AreWithin (length json.old.layout.paths) brought.now headers.now }
    ensures { OnOk result (json.new ≡ puts json.old (list_of (map (header_item (about_of json.old) (seen_amounts brought.now)) headers.now))) }
{
    json.put(b"[")?;
    for place in 0..headers.len() {
        json.put_comma(place)?;
        put_header(json, brought, headers[place])?;
    }
    json.put(b"]")
}

/// Adds what a header brings.
fn put_header(json: &mut JsonText<'_>, brought: &Amounts, header: usize) -> Result<(), AllocError>
    requires bytes { header < length brought.now.bytes.items }
    requires counts { header < length brought.now.counts.items }
    ensures { OnOk result (json.new ≡ puts json.old (header_item (about_of json.old) (seen_amounts brought.now) header)) }
{
    json.put(b"{")?;
    put_bytes(json, brought, header)?;
    json.put(b",")?;
    json.put_file_at(b"path", header)?;
    json.put(b",")?;
    put_count(json, brought, header)?;
    json.put(b"}")
}
