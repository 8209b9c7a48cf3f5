//! One step of a walk over the parts of a file.
ghost use Rattle.std.specs.Prelude.{◌≡◌, ◌<◌, ◌⊎◌, true, None, Some, length, slice_get, OnOk, IfOk, IfErr, IfSome};
ghost use Rattle.inc_directive.specs.Parts.{FilePart, lines_from, lines_of_parts, part_role};
ghost use Rattle.inc_directive.specs.declared.kinds.Role.TheVariants.{IfGroup, ElifGroup, ElseGroup, TextLine, ControlLine};
ghost use Rattle.inc_pp.specs.Choices.{StopsAt, LeadsTo};
ghost use Rattle.inc_pp.specs.HeldFiles.{IsPlanned};
ghost use Rattle.inc_pp.specs.Includes.{most_reads};
ghost use Rattle.inc_pp.specs.StateViews.{state_of};
ghost use Rattle.inc_pp.specs.Stops.{IfStop, IsSearched, IsUnder, IsIn, AreOf};
ghost use Rattle.inc_pp.specs.Tasks.{File, IsWithin};
ghost use Rattle.inc_pp.specs.Tasks as spec;
ghost use Rattle.inc_pp.specs.Walks.{lines_read};

use crate::entries::Entry;
use crate::faults::Break;
use crate::frames::Frame;
use crate::line_numbers::Here;
use crate::settings::Settings;
use crate::states::State;
use inc_cond::HeaderSearch;
use inc_directive::{FileLines, Plan, Role};
use inc_lookup::Project;

/// The part that a section leads to which this part opens: the first of the first group whose condition is true, or the one
/// after the `#endif`.
fn choose(
    lines: &FileLines,
    plan: &Plan,
    state: &mut State,
    settings: &Settings<'_>,
    headers: &HeaderSearch<'_>,
    part: usize,
    here: &Here,
) -> Result<usize, Break>
    requires within { part < length lines.now }
    requires opens { (p : FilePart) → slice_get lines.now part ≡ Some p → part_role p ≡ IfGroup }
    requires planned { IsPlanned lines.now plan.now }
    requires kinds { AreOf settings.now.language (lines_of_parts lines.now) }
    ensures next { IfOk result (λ next. (f : File) → IsSearched settings.now headers.now f →
        lines_read f (lines_from part lines.now) (state_of state.old) here.now
        ≡ lines_read f (lines_from next lines.now) (state_of state.new) here.now) }
    ensures onward { IfOk result (λ next. part < next) }
    ensures reads { (state_of state.new).reads ≡ (state_of state.old).reads }
    ensures stop { IfErr result (λ fault. IfStop fault (λ at cause. (f : File) →
        IsSearched settings.now headers.now f →
        StopsAt f (lines_read f (lines_from part lines.now) (state_of state.old) here.now)
        at cause (state_of state.new))) }
{
    let _count = lines.count();
    let mut at = part;
    loop {
        match state.takes(settings, headers, lines, at, here) {
            Ok(true) => return Ok(at + 1),
            Ok(false) => {}
            Err(fault) => return Err(fault),
        }
        let Some(next) = plan.branch(at) else {
            // Each line of a section with a condition leads to the next branch.
            unreachable!()
        };
        match lines.role(next) {
            Role::ElifGroup => at = next,
            _ => return Ok(next + 1),
        }
    }
}

/// The part that a branch leads to which is run into from the group before it: the `#endif`.
fn end_of(lines: &FileLines, plan: &Plan, part: usize) -> usize
    requires within { part < length lines.now }
    requires branch { (p : FilePart) → slice_get lines.now part ≡ Some p →
        (part_role p ≡ ElifGroup) ⊎ (part_role p ≡ ElseGroup) }
    requires planned { IsPlanned lines.now plan.now }
    ensures leads { (f : File) (s : spec.State) (h : spec.Here) →
        lines_read f (lines_from part lines.now) s h ≡ lines_read f (lines_from result lines.now) s h }
    ensures onward { part < result }
{
    match plan.end(part) {
        Some(end) => end,
        // Each branch leads to its #endif.
        None => unreachable!(),
    }
}

/// Puts out the run of text lines that begins at the next part.
fn read_run(
    lines: &FileLines,
    state: &mut State,
    settings: &Settings<'_>,
    frame: &mut Frame,
) -> Result<(), Break>
    requires within { frame.old.part < length lines.now }
    requires text { (p : FilePart) → slice_get lines.now frame.old.part ≡ Some p →
        part_role p ≡ TextLine }
    ensures leads { OnOk result ((f : File) → IsUnder settings.now f → f.index ≡ frame.old.at.file →
        LeadsTo lines.now f frame.old.part (state_of state.old) frame.old.here
        None frame.new.part (state_of state.new) frame.new.here) }
    ensures onward { OnOk result (frame.old.part < frame.new.part) }
    ensures same { OnOk result (frame.new.at ≡ frame.old.at) }
    ensures reads { (state_of state.new).reads ≡ (state_of state.old).reads }
    ensures stop { IfErr result (λ fault. IfStop fault (λ at cause. (f : File) →
        IsUnder settings.now f → f.index ≡ frame.old.at.file →
        StopsAt f (lines_read f (lines_from frame.old.part lines.now) (state_of state.old)
        frame.old.here) at cause (state_of state.new))) }
{
    let _count = lines.count();
    let part = frame.part;
    let end = lines.run_end(part);
    let at = frame.at;
    let here = &mut frame.here;
    match state.put_run(settings, lines, part, end, at.file, here) {
        Ok(()) => {
            frame.part = end;
            Ok(())
        }
        Err(fault) => Err(fault),
    }
}

/// Reads the directive that is the next part, which is of no section, and reports the file that it leads to, if any.
fn read_control(
    lines: &FileLines,
    state: &mut State,
    project: &Project<'_>,
    settings: &Settings<'_>,
    frame: &mut Frame,
    nests: bool,
) -> Result<Option<Entry>, Break>
    requires control { (p : FilePart) → slice_get lines.now frame.old.part ≡ Some p →
        part_role p ≡ ControlLine }
    requires within { frame.old.part < length lines.now }
    requires file { frame.old.at.file < length project.now.paths }
    requires kinds { AreOf settings.now.language (lines_of_parts lines.now) }
    ensures leads { IfOk result (λ found. (f : File) →
        IsIn project.now settings.now frame.old.at nests f →
        LeadsTo lines.now f frame.old.part (state_of state.old) frame.old.here
        found frame.new.part (state_of state.new) frame.new.here) }
    ensures onward { OnOk result (frame.old.part < frame.new.part) }
    ensures same { OnOk result (frame.new.at ≡ frame.old.at) }
    ensures found { IfOk result (λ found. IfSome found (λ k. IsWithin project.now k
        × (nests ≡ true) × (length (state_of state.new).reads < most_reads))) }
    ensures reads { (state_of state.new).reads ≡ (state_of state.old).reads }
    ensures stop { IfErr result (λ fault. IfStop fault (λ at cause. (f : File) →
        IsIn project.now settings.now frame.old.at nests f →
        StopsAt f (lines_read f (lines_from frame.old.part lines.now) (state_of state.old)
        frame.old.here) at cause (state_of state.new))) }
{
    let _count = lines.count();
    let part = frame.part;
    let at = frame.at;
    let here = &mut frame.here;
    match state.release_for(lines, part, here) {
        Ok(()) => {}
        Err(fault) => return Err(fault),
    }
    match state.control(project, settings, lines, part, &at, nests, here) {
        Ok(found) => {
            frame.part = part + 1;
            Ok(found)
        }
        Err(fault) => Err(fault),
    }
}

/// Reads on from the next part of the file, and reports the file that is to be read before the part after it, if any.
pub(crate) fn read_on(
    lines: &FileLines,
    plan: &Plan,
    state: &mut State,
    project: &Project<'_>,
    settings: &Settings<'_>,
    frame: &mut Frame,
    nests: bool,
) -> Result<Option<Entry>, Break>
    requires planned { IsPlanned lines.now plan.now }
    requires within { frame.old.part < length lines.now }
    requires file { frame.old.at.file < length project.now.paths }
    requires kinds { AreOf settings.now.language (lines_of_parts lines.now) }
    ensures leads { IfOk result (λ found. (f : File) →
        IsIn project.now settings.now frame.old.at nests f →
        LeadsTo lines.now f frame.old.part (state_of state.old) frame.old.here
        found frame.new.part (state_of state.new) frame.new.here) }
    ensures onward { OnOk result (frame.old.part < frame.new.part) }
    ensures same { OnOk result (frame.new.at ≡ frame.old.at) }
    ensures found { IfOk result (λ found. IfSome found (λ k. IsWithin project.now k
        × (nests ≡ true) × (length (state_of state.new).reads < most_reads))) }
    ensures reads { (state_of state.new).reads ≡ (state_of state.old).reads }
    ensures stop { IfErr result (λ fault. IfStop fault (λ at cause. (f : File) →
        IsIn project.now settings.now frame.old.at nests f →
        StopsAt f (lines_read f (lines_from frame.old.part lines.now) (state_of state.old)
        frame.old.here) at cause (state_of state.new))) }
{
    let _count = lines.count();
    let part = frame.part;
    match lines.role(part) {
        Role::TextLine => read_run(lines, state, settings, frame)?,
        Role::ControlLine => {
            return read_control(lines, state, project, settings, frame, nests);
        }
        Role::IfGroup => {
            let headers = HeaderSearch::new(project, frame.at.file, frame.at.next);
            frame.part = choose(lines, plan, state, settings, &headers, part, &frame.here)?;
        }
        Role::ElifGroup | Role::ElseGroup => frame.part = end_of(lines, plan, part),
        Role::EndifLine => frame.part = part + 1,
    }
    Ok(None)
}
