//! Answers for all projects that are made of some includes.
ghost use Rattle.std.specs.Prelude.{◌≡◌, length};

use crate::cuts::{Asked, certificate_of};
use crate::graphs::graph_of;
use inc_check::{Verdict, check};
use inc_cut::{CutAnswer, DepthSearch, LevelSearch, PathSearch, PhaseSearch, smallest_cut};
use inc_graph::{Fixed, Mark};
use inc_lookup::{HeldFiles, SourceFile};
use std::alloc::Global;
use tests_parts::{Stop, add, add_number, project_of};

/// The files of each project.
static PATHS: [&[u8]; 4] = [b"m.c", b"a.h", b"b.h", b"t.h"];

/// The includes that a project can have: the place of the file, and the line.
static INCLUDES: [(usize, &[u8]); 7] = [
    (0, b"#include \"a.h\"\n"),
    (0, b"#include \"b.h\"\n"),
    (0, b"#include \"t.h\"\n"),
    (1, b"#include \"b.h\"\n"),
    (1, b"#include \"t.h\"\n"),
    (2, b"#include \"a.h\"\n"),
    (2, b"#include \"t.h\"\n"),
];

/// 3 to the number of includes.
const PROJECTS: u32 = 2_187;

/// A project: its files, and the marks of its fixed includes.
#[derive(Drop)]
struct Member {
    files: Vec<SourceFile>,
    fixed: Vec<Mark>,
}

/// How many projects have a cut of 0, 1 .. 7 directives, and how many have none.
#[derive(Clone, Copy)]
struct Sizes {
    cuts: [u32; 8],
    none: u32,
}

impl Sizes {
    fn new() -> Sizes {
        Sizes {
            cuts: [0; 8],
            none: 0,
        }
    }

    /// Counts a project whose cut has this size, or which has none.
    fn count(&mut self, size: Option<usize>) {
        match size {
            Some(size) => {
                if let Some(count) = self.cuts.get_mut(size) {
                    *count = count.saturating_add(1);
                }
            }
            None => self.none = self.none.saturating_add(1),
        }
    }
}

/// Adds how many projects have cuts of each size, by each search.
pub fn add_family(alloc: Global, out: &mut Vec<u8>) -> Result<(), Stop> {
    let mut depth = Sizes::new();
    let mut levels = Sizes::new();
    let mut phases = Sizes::new();
    for number in 0..PROJECTS {
        let member = made(alloc, number)?;
        depth.count(size_by(alloc, &member, &mut DepthSearch)?);
        levels.count(size_by(alloc, &member, &mut LevelSearch)?);
        phases.count(size_by(alloc, &member, &mut PhaseSearch::new(alloc))?);
    }
    add(out, b"depth first: ")?;
    add_sizes(&depth, out)?;
    add(out, b"breadth first: ")?;
    add_sizes(&levels, out)?;
    add(out, b"in phases: ")?;
    add_sizes(&phases, out)
}

/// Adds how many projects have a cut of each size, and how many have none.
fn add_sizes(sizes: &Sizes, out: &mut Vec<u8>) -> Result<(), Stop> {
    for count in &sizes.cuts {
        add_number(out, *count as usize, b" ")?;
    }
    add(out, b"and ")?;
    add_number(out, sizes.none as usize, b" without a cut\n")
}

/// The project of this number, which has a digit in base 3 for each include: 0 where the project lacks it, 1 where it has it, and 2 where it is fixed, too.
fn made(alloc: Global, number: u32) -> Result<Member, Stop> {
    let mut member = Member {
        files: empty_files(alloc)?,
        fixed: Vec::new(alloc),
    };
    let mut left = number;
    for (place, line) in &INCLUDES {
        if left % 3 > 0 {
            add_include(alloc, &mut member, *place, line, left % 3 == 2)?;
        }
        left /= 3;
    }
    Ok(member)
}

/// Files that hold nothing.
fn empty_files(alloc: Global) -> Result<Vec<SourceFile>, Stop> {
    let mut files = Vec::new(alloc);
    for path in &PATHS {
        files.push(SourceFile {
            path: Vec::from_slice(alloc, path)?,
            bytes: Vec::new(alloc),
        })?;
    }
    Ok(files)
}

/// Adds an include to the file at a place of a project.
fn add_include(
    alloc: Global,
    member: &mut Member,
    place: usize,
    line: &[u8],
    is_fixed: bool,
) -> Result<(), Stop> {
    let Some(file) = member.files.get_mut(place) else {
        return Err(Stop);
    };
    file.bytes.extend_from_slice(line)?;
    if is_fixed {
        let at = (file.bytes.len() / line.len().max(1)) % 8;
        let Some(mark) = Mark::new(Vec::from_slice(alloc, &file.path)?, at as u32) else {
            return Err(Stop);
        };
        member.fixed.push(mark)?;
    }
    Ok(())
}

/// The size of the cut of a project, which the checker accepts; `None` where there is none.
fn size_by<S: PathSearch>(
    alloc: Global,
    member: &Member,
    search: &mut S,
) -> Result<Option<usize>, Stop> {
    let mut held = HeldFiles {
        files: &member.files,
    };
    let paths = held.paths(alloc)?;
    let project = project_of(alloc, &paths, &[])?;
    let graph = graph_of(alloc, &project, &mut held)?;
    let Ok(fixed) = Fixed::with_costs(alloc, &project, &graph, &[], &member.fixed, &[]) else {
        return Err(Stop);
    };
    if fixed.edges() != graph.edges().len() {
        return Err(Stop);
    }
    let asked = Asked {
        project: &project,
        graph: &graph,
        fixed: &fixed,
    };
    size_of(alloc, &asked, search)
}

/// The size of a cut, which the checker accepts; `None` where there is none.
fn size_of<S: PathSearch>(
    alloc: Global,
    asked: &Asked<'_>,
    search: &mut S,
) -> Result<Option<usize>, Stop>
    requires files { asked.now.graph.now.files ≡ length asked.now.project.now.paths }
    requires fixed { length asked.now.fixed.now ≡ length asked.now.graph.now.edges }
{
    match &smallest_cut(alloc, asked.graph, asked.fixed, search)? {
        CutAnswer::Cut { edges, chains } => {
            let certificate = certificate_of(alloc, asked, edges, chains)?;
            match check(alloc, asked.project, asked.graph, asked.fixed, &certificate)? {
                Verdict::Yes => Ok(Some(edges.len())),
                Verdict::No(_) => Err(Stop),
            }
        }
        CutAnswer::Fixed { .. } => Ok(None),
    }
}
