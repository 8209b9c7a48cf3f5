//! Includes that are not found, for whose sake the answer to a strict question is refused.
ghost use Rattle.std.specs.Prelude.{◌≡◌, ◌<◌, ◌++◌, ◌∷◌, [], filter, flat_map, length, map, not, IfErr, IfOk, OnOk};
ghost use Rattle.std.specs.List.{All};
ghost use Rattle.inc_check.specs.Texts.{marks_text};
ghost use Rattle.inc_globs.specs.Globs.{fits};
ghost use Rattle.inc_graph.specs.MissingLists as graphs;
ghost use Rattle.inc_graph.specs.MissingLists.{missing_at, seen_missing};
ghost use Rattle.inc_answers.specs.MarkTexts.{missing_mark};
ghost use Rattle.inc_answers.specs.Sending.{Sends};
ghost use Rattle.inc_answers.specs.Strictness.{fits_name, not_found, open_strays_of, stray_reason, stray_reasons, strays, strays_of};
ghost use Rattle.inc_answers.specs.Writing.{Prints};

use crate::asked::Question;
use crate::fault_reasons::put_reason;
use crate::lines::{send_directive, send_line};
use crate::missing_names::spelled;
use crate::missing_notes::{Notes, put_shown};
use crate::near_names::{most_of, put_more};
use crate::outcome::{End, EndKind, RunFault, noted};
use crate::output::Output;
use inc_globs::{Glob, GlobFault};
use inc_graph::{Graph, HeaderName, Missing, MissingList};
use inc_lookup::Project;
use inc_text::ByteSink;
use std::alloc::{AllocError, Global};

/// The directives of a graph that refuse the answer to a question, by their places among those whose header is not found.
pub fn strays_of(
    alloc: Global,
    question: &Question<'_>,
    graph: &Graph,
) -> Result<Vec<usize>, RunFault>
    ensures strays { IfOk result (λ places. map (missing_at graph.now.missing) places.items ≡ strays_of question.now graph.now) }
    ensures within { IfOk result (λ places. All (λ i. i < length graph.now.missing) places.items) }
    ensures fault { IfErr result (λ f. f ≡ RunFault.NoMemory) }
{
    if !question.is_strict {
        return Ok(Vec::new(alloc));
    }
    strays(alloc, graph.missing(), question.external)
}

/// The same where blockers are refused before them.
pub fn open_strays_of(
    alloc: Global,
    question: &Question<'_>,
    graph: &Graph,
) -> Result<Vec<usize>, RunFault>
    ensures strays { IfOk result (λ places. map (missing_at graph.now.missing) places.items ≡ open_strays_of question.now graph.now) }
    ensures within { IfOk result (λ places. All (λ i. i < length graph.now.missing) places.items) }
    ensures fault { IfErr result (λ f. f ≡ RunFault.NoMemory) }
{
    if graph.blockers().is_empty() {
        return strays_of(alloc, question, graph);
    }
    Ok(Vec::new(alloc))
}

/// The directives whose header none of these globs fits.
fn strays(alloc: Global, missing: &MissingList, globs: &[&[u8]]) -> Result<Vec<usize>, RunFault>
    ensures strays { IfOk result (λ places. map (missing_at missing.now) places.items
        ≡ strays (map (λ g. g.now) globs.now) missing.now) }
    ensures within { IfOk result (λ places. All (λ i. i < length missing.now) places.items) }
    ensures fault { IfErr result (λ f. f ≡ RunFault.NoMemory) }
{
    let mut places = all_places(alloc, missing)?;
    for glob in globs {
        places = unfit(alloc, missing, &places, glob)?;
    }
    Ok(places)
}

/// The places of all directives.
fn all_places(alloc: Global, missing: &MissingList) -> Result<Vec<usize>, AllocError>
    ensures all { IfOk result (λ places. map (missing_at missing.now) places.items ≡ missing.now) }
    ensures within { IfOk result (λ places. All (λ i. i < length missing.now) places.items) }
{
    let mut places = Vec::with_capacity(alloc, missing.len())?;
    for place in 0..missing.len() {
        places.push(place)?;
    }
    Ok(places)
}

/// Those of some places whose header a glob does not fit.
fn unfit(
    alloc: Global,
    missing: &MissingList,
    places: &[usize],
    glob: &[u8],
) -> Result<Vec<usize>, RunFault>
    requires { All (λ i. i < length missing.now) places.now }
    ensures left { IfOk result (λ left. map (missing_at missing.now) left.items
        ≡ filter (λ (m : graphs.Missing). not (fits_name m.header.name glob.now)) (map (missing_at missing.now) places.now)) }
    ensures within { IfOk result (λ left. All (λ i. i < length missing.now) left.items) }
    ensures fault { IfErr result (λ f. f ≡ RunFault.NoMemory) }
{
    match Glob::new(alloc, glob) {
        Ok(glob) => Ok(unfit_by(alloc, missing, places, glob)?),
        Err(GlobFault::Unterminated) => Ok(Vec::from_slice(alloc, places)?),
        Err(GlobFault::NoMemory) => Err(RunFault::NoMemory),
    }
}

/// The same of a glob that is read.
fn unfit_by(
    alloc: Global,
    missing: &MissingList,
    places: &[usize],
    glob: Glob<'_>,
) -> Result<Vec<usize>, AllocError>
    requires { All (λ i. i < length missing.now) places.now }
    ensures left { IfOk result (λ left. map (missing_at missing.now) left.items
        ≡ filter (λ (m : graphs.Missing). not (fits glob.entry m.header.name)) (map (missing_at missing.now) places.now)) }
    ensures within { IfOk result (λ left. All (λ i. i < length missing.now) left.items) }
{
    let mut glob = glob;
    let mut left = Vec::new(alloc);
    for place in places {
        push_unfit(&mut left, missing, &mut glob, *place)?;
    }
    Ok(left)
}

/// Adds a place, unless the glob fits the header that is named there.
fn push_unfit(
    left: &mut Vec<usize>,
    missing: &MissingList,
    glob: &mut Glob<'_>,
    place: usize,
) -> Result<(), AllocError>
    requires { place < length missing.now }
    ensures left { OnOk result (map (missing_at missing.now) left.new.items ≡ map (missing_at missing.now) left.old.items
        ++ filter (λ (m : graphs.Missing). not (fits glob.old m.header.name)) (missing_at missing.now place ∷ [])) }
    ensures within { OnOk result (All (λ i. i < length missing.now) left.old.items → All (λ i. i < length missing.now) left.new.items) }
    ensures same { glob.new ≡ glob.old }
{
    let directive = missing.at(place);
    if !glob.fits(directive.header.name)? {
        left.push(place)?;
    }
    Ok(())
}

/// Sends the refusal by these directives, and each of them, and says how the call ends.
pub fn refuse_strays<W: ByteSink>(
    alloc: Global,
    project: &Project<'_>,
    graph: &Graph,
    strays: &[usize],
    out: &mut Output<W>,
) -> Result<End, RunFault>
    requires files { graph.now.files ≡ length project.now.paths }
    requires within { All (λ i. i < length graph.now.missing) strays.now }
    ensures sent { Prints (λ p. p ≡ not_found project.now (map (missing_at graph.now.missing) strays.now)) out.old out.new result }
    ensures fault { IfErr result (λ f. f ≡ RunFault.NoMemory) }
{
    let reasons = stray_reasons(alloc, project, graph, strays)?;
    send_line(out, b"refused 12 missing");
    send_strays(out, project, graph.missing(), strays);
    Ok(noted(EndKind::Refused, reasons))
}

/// Sends each of these directives.
fn send_strays<W: ByteSink>(
    out: &mut Output<W>,
    project: &Project<'_>,
    missing: &MissingList,
    strays: &[usize],
)
    requires files { All (λ (m : graphs.Missing). m.file < length project.now.paths) missing.now }
    requires within { All (λ i. i < length missing.now) strays.now }
    ensures { Sends out.old out.new (marks_text (map (missing_mark project.now) (map (missing_at missing.now) strays.now))) }
{
    for place in strays {
        let directive = missing.at(*place);
        send_directive(out, directive.line, project.path(directive.file));
    }
}

/// What is said beside the refusal by these directives.
pub fn stray_reasons(
    alloc: Global,
    project: &Project<'_>,
    graph: &Graph,
    strays: &[usize],
) -> Result<Notes, AllocError>
    requires files { graph.now.files ≡ length project.now.paths }
    requires within { All (λ i. i < length graph.now.missing) strays.now }
    ensures { IfOk result (λ notes. notes ≡ stray_reasons project.now (map (missing_at graph.now.missing) strays.now)) }
{
    let count = most_of(strays.len());
    let mut text = Vec::new(alloc);
    put_strays(&mut text, alloc, project, graph.missing(), &strays[..count])?;
    put_more(&mut text, strays.len() - count)?;
    text.extend_from_slice(
        b"incut: if other projects have such headers, name them with --external NAME\n",
    )?;
    Ok(Notes::of(text))
}

/// Adds the line on each of these.
fn put_strays(
    text: &mut Vec<u8>,
    alloc: Global,
    project: &Project<'_>,
    missing: &MissingList,
    strays: &[usize],
) -> Result<(), AllocError>
    requires files { All (λ (m : graphs.Missing). m.file < length project.now.paths) missing.now }
    requires within { All (λ i. i < length missing.now) strays.now }
    ensures { OnOk result (text.new.items ≡ text.old.items
        ++ flat_map (stray_reason project.now) (map (missing_at missing.now) strays.now)) }
{
    for place in strays {
        put_stray(text, alloc, project, missing.at(*place))?;
    }
    Ok(())
}

/// Adds the line on one.
fn put_stray(
    text: &mut Vec<u8>,
    alloc: Global,
    project: &Project<'_>,
    directive: Missing<HeaderName<'_>>,
) -> Result<(), AllocError>
    requires { directive.file < length project.now.paths }
    ensures { OnOk result (text.new.items ≡ text.old.items ++ stray_reason project.now (seen_missing directive.entry)) }
{
    let written = spelled(alloc, directive.header)?;
    let mut words = Vec::new(alloc);
    put_shown(&mut words, &written)?;
    words.extend_from_slice(b" is not found")?;
    put_reason(text, project.path(directive.file), directive.line, &words)
}
