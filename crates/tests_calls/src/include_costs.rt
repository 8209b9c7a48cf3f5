//! Answers for what includes cost.
ghost use Rattle.std.specs.Prelude.{◌≡◌, length};

use crate::edges::add_edge;
use crate::graphs::graph_of;
use inc_cost::{Amounts, Costs, dearest, group_cost, total};
use inc_graph::Graph;
use inc_lookup::{HeldFiles, Project};
use std::alloc::Global;
use tests_parts::{
    Stop, add, add_number, file_of, files_of, number, project_of, settings_of, split_word,
};

/// How many of the dearest files are printed.
const DEAREST: usize = 4;

/// Adds what the includes of an example cost its sources.
pub fn add_include_costs(alloc: Global, example: &str, out: &mut Vec<u8>) -> Result<(), Stop> {
    let files = files_of(alloc, example)?;
    let mut held = HeldFiles { files: &files };
    let paths = held.paths(alloc)?;
    let project = project_of(alloc, &paths, &[])?;
    let graph = graph_of(alloc, &project, &mut held)?;
    add_costs_of(alloc, &project, &paths, &graph, settings_of(example), out)
}

/// Adds what the includes of a graph cost, with the weights and the group of settings.
fn add_costs_of(
    alloc: Global,
    project: &Project<'_>,
    paths: &[&[u8]],
    graph: &Graph,
    settings: &str,
    out: &mut Vec<u8>,
) -> Result<(), Stop> {
    let weights = weights_of(alloc, settings)?;
    add_total(alloc, graph, &weights, out)?;
    let costs = Costs::new(alloc, graph, &weights)?;
    add_edges(project, graph, &costs.edges, out)?;
    add_files(paths, &costs.files, out)?;
    add_dearest(alloc, paths, &costs.files, out)?;
    let group = group_of(alloc, project, settings, graph.files())?;
    add_group(alloc, graph, &weights, &group, out)
}

/// Adds what the sources of a graph weigh.
fn add_total(alloc: Global, graph: &Graph, weights: &[u32], out: &mut Vec<u8>) -> Result<(), Stop> {
    add(out, b"total ")?;
    add_number(out, total(alloc, graph, weights, &[])? as usize, b"\n")
}

/// Adds what a group of files costs.
fn add_group(
    alloc: Global,
    graph: &Graph,
    weights: &[u32],
    group: &[bool],
    out: &mut Vec<u8>,
) -> Result<(), Stop> {
    let cost = group_cost(alloc, graph, weights, group)?;
    add(out, b"group ")?;
    add_number(out, cost.bytes as usize, b" ")?;
    add_number(out, cost.count as usize, b"\n")
}

/// The weights of the lines `weight AMOUNT`.
fn weights_of(alloc: Global, settings: &str) -> Result<Vec<u32>, Stop> {
    let mut weights = Vec::new(alloc);
    for line in settings.split('\n').skip(1) {
        let (word, amount) = split_word(line);
        if word == "weight" {
            weights.push(number(amount)?)?;
        }
    }
    Ok(weights)
}

/// A flag for each file, true for those of the lines `group PATH`.
fn group_of(
    alloc: Global,
    project: &Project<'_>,
    settings: &str,
    count: usize,
) -> Result<Vec<bool>, Stop> {
    let mut group = vec![in alloc; false; count]?;
    for line in settings.split('\n').skip(1) {
        let (word, path) = split_word(line);
        if word == "group" {
            let place = file_of(project, path.as_bytes())?.index();
            if place < group.len() {
                group[place] = true;
            }
        }
    }
    Ok(group)
}

/// Adds for each edge `LINE:PATH BYTES COUNT`.
fn add_edges(
    project: &Project<'_>,
    graph: &Graph,
    amounts: &Amounts,
    out: &mut Vec<u8>,
) -> Result<(), Stop> {
    for edge in graph.edges() {
        add_edge(project, graph, edge.id, out)?;
        add_amount(amounts, edge.id.index(), out)?;
    }
    Ok(())
}

/// Adds for each file `PATH BYTES COUNT`.
fn add_files(paths: &[&[u8]], amounts: &Amounts, out: &mut Vec<u8>) -> Result<(), Stop> {
    for place in 0..paths.len() {
        add(out, paths[place])?;
        add_amount(amounts, place, out)?;
    }
    Ok(())
}

/// Adds the amount at a place and ends the line.
fn add_amount(amounts: &Amounts, place: usize, out: &mut Vec<u8>) -> Result<(), Stop> {
    let (Some(bytes), Some(count)) = (amounts.bytes.get(place), amounts.counts.get(place)) else {
        return Err(Stop);
    };
    add(out, b" ")?;
    add_number(out, *bytes as usize, b" ")?;
    add_number(out, *count as usize, b"\n")
}

/// Adds the paths of the dearest files.
fn add_dearest(
    alloc: Global,
    paths: &[&[u8]],
    amounts: &Amounts,
    out: &mut Vec<u8>,
) -> Result<(), Stop> {
    if amounts.bytes.len() > 65_535 {
        return Err(Stop);
    }
    add(out, b"dearest")?;
    for place in dearest(alloc, &amounts.bytes, DEAREST)? {
        let Some(path) = paths.get(place) else {
            return Err(Stop);
        };
        add(out, b" ")?;
        add(out, path)?;
    }
    add(out, b"\n")
}
