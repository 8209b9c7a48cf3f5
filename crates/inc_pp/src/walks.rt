//! The walk over the lines of the files that are read.
ghost use Rattle.std.specs.Prelude.{◌≡◌, ◌<◌, ◌≤◌, ◌+◌, ◌∷◌, ◌++◌, ℕ, true, List, None, Some, [], length, reverse, OnOk, IfErr};
ghost use Rattle.inc_lookup.specs.Given.{Given};
ghost use Rattle.inc_macro.specs.Macros.{Table};
ghost use Rattle.inc_pp.specs.StateViews.{state_of};
ghost use Rattle.inc_pp.specs.WalkJobs.{AreSharedIn, first_frame, frames_left, job_in, over_by, walk_left};
ghost use Rattle.inc_pp.specs.Walks.{held_at, parts_in};
ghost use Rattle.inc_directive.specs.Parts.{FilePart};
ghost use Rattle.inc_pp.specs.HeldFiles.{IsSkipped, NonePoisoned};
ghost use Rattle.inc_pp.specs.WalkStates.{IsWalk, IsEntering, IsOver, EndsBy};
ghost use Rattle.inc_pp.specs.Tasks.{IsWithin, begun};

use crate::causes::Cause;
use crate::entries::Entry;
use crate::faults::Break;
use crate::files::Files;
use crate::frames::Frame;
use crate::line_numbers::Here;
use crate::settings::Settings;
use crate::states::State;
use inc_lookup::{DirectiveSet, FileId, Project, Sources};
use std::alloc::{AllocError, Global};

/// How deep includes nest at most; the source is at depth 0.
const MOST_DEPTH: usize = 200;

/// What stays the same in a preprocessing, and in all that share their files.
#[derive(Clone, Copy)]
pub struct Job<'j, 'r> {
    pub alloc: Global,
    pub project: &'j Project<'j>,
    /// Language, date and time, and what an include directive does whose header is not found.
    pub settings: &'j Settings<'j>,
    /// The include directives that are taken as removed.
    pub removed: &'j DirectiveSet<'r>,
}

impl<'j, 'r> Job<'j, 'r> {
    /// Puts a file on top of those that are being read, at its first part.
    fn open(&self, frames: &mut Vec<Frame>, to: Entry) -> Result<(), AllocError>
        requires within { to.at.file < length self.now.project.now.paths }
        ensures { OnOk result (frames.new.items ≡ frames.old.items
            ++ first_frame self.now.project.now to ∷ []) }
    {
        let at = to.at;
        let here = Here::start(self.alloc, self.project, to)?;
        frames.push(Frame { at, part: 0, here })?;
        Ok(())
    }

    /// Begins to read a file, which is then the one at hand.
    fn enter<S: Sources>(
        &self,
        sources: &mut S,
        files: &mut Files,
        state: &mut State,
        frames: &mut Vec<Frame>,
        at_hand: &mut FileId,
        to: Entry,
    ) -> Result<(), Break>
        requires within { IsWithin self.now.project.now to }
        requires wide { length files.old ≡ length self.now.project.now.paths }
        ensures entered { OnOk result ((origin : S) (source : ℕ) (table : Table) (earlier : List Given) →
            IsEntering S.gives origin sources.old (job_in self.now source table earlier) files.old
            (reverse frames.old.items) to (state_of state.old) →
            IsWalk S.gives origin sources.new (job_in self.now source table earlier) files.new
            (reverse frames.new.items) (state_of state.new)) }
        ensures wide { OnOk result (length files.new ≡ length files.old) }
        ensures reads { OnOk result ((state_of state.new).reads ≡ (state_of state.old).reads ++ to.at.file ∷ []) }
        ensures left { OnOk result ((origin : S) (source : ℕ) (table : Table) (earlier : List Given) →
            IsEntering S.gives origin sources.old (job_in self.now source table earlier) files.old
            (reverse frames.old.items) to (state_of state.old) →
            frames_left files.new (reverse frames.new.items)
            ≤ frames_left files.old (reverse frames.old.items) + 18_446_744_073_709_551_617) }
        ensures over { IfErr result (λ end. (origin : S) (source : ℕ) (table : Table) (earlier : List Given) →
            IsEntering S.gives origin sources.old (job_in self.now source table earlier) files.old
            (reverse frames.old.items) to (state_of state.old) →
            EndsBy S.gives origin sources.new (job_in self.now source table earlier) files.new
            (state_of state.new) at_hand.new end) }
    {
        let _few = self.project.count();
        let at = to.at;
        let file = at.file;
        *at_hand = file;
        let removed = self.removed;
        let language = self.settings.language();
        let size = match files.known_size(self.alloc, sources, removed, language, file) {
            Ok(size) => size,
            Err(why) => return Err(why),
        };
        state.add_read(file, size)?;
        if self.settings.is_too_much(state.bytes_read()) {
            let by = to.by;
            *at_hand = by.file;
            return Err(Break::Stop {
                line: by.line,
                cause: Cause::TooMuchRead,
            });
        }
        if is_skipped(files, file, state) {
            return Ok(());
        }
        if let Some((cause, line)) = files.fault(file) {
            return Err(Break::Stop { line, cause });
        }
        self.open(frames, to)?;
        let _parts = count_in(files, file);
        Ok(())
    }

    /// Reads on in the innermost file, which is no longer among the others and is the one at hand up to an include.
    fn advance<S: Sources>(
        &self,
        sources: &mut S,
        files: &mut Files,
        state: &mut State,
        frames: &mut Vec<Frame>,
        at_hand: &mut FileId,
        frame: Frame,
    ) -> Result<(), Break>
        requires walk { (origin : S) × (source : ℕ) × (table : Table) × (earlier : List Given)
            × IsWalk S.gives origin sources.old (job_in self.now source table earlier) files.old
            (frame ∷ reverse frames.old.items) (state_of state.old) }
        ensures walk { OnOk result ((origin : S) (source : ℕ) (table : Table) (earlier : List Given) →
            IsWalk S.gives origin sources.old (job_in self.now source table earlier) files.old
            (frame ∷ reverse frames.old.items) (state_of state.old) →
            IsWalk S.gives origin sources.new (job_in self.now source table earlier) files.new
            (reverse frames.new.items) (state_of state.new)) }
        ensures less { OnOk result (
            walk_left files.new (reverse frames.new.items) (length (state_of state.new).reads)
            < walk_left files.old (frame ∷ reverse frames.old.items)
            (length (state_of state.old).reads)) }
        ensures over { IfErr result (λ end. (origin : S) (source : ℕ) (table : Table) (earlier : List Given) →
            IsWalk S.gives origin sources.old (job_in self.now source table earlier) files.old
            (frame ∷ reverse frames.old.items) (state_of state.old) →
            EndsBy S.gives origin sources.new (job_in self.now source table earlier) files.new
            (state_of state.new) at_hand.new end) }
    {
        let mut frame = frame;
        let at = frame.at;
        let file = at.file;
        *at_hand = file;
        let nests = frames.len() < MOST_DEPTH;
        let Some(held) = files.get(file) else {
            // Each file that is being read is held.
            return Ok(());
        };
        let settings = self.settings;
        if frame.part >= held.count() {
            match frame.here.release() {
                Ok(()) => return Ok(()),
                Err(why) => return Err(why),
            }
        }
        let found = match held.read(state, self.project, settings, &mut frame, nests) {
            Ok(found) => found,
            Err(why) => return Err(why),
        };
        frames.push(frame)?;
        match found {
            Some(to) => self.enter(sources, files, state, frames, at_hand, to),
            None => Ok(()),
        }
    }

    /// Reads a source file and the files that it includes. Where it ends before, the file at hand is the one where it does.
    pub(crate) fn walk<S: Sources>(
        &self,
        sources: &mut S,
        files: &mut Files,
        state: &mut State,
        at_hand: &mut FileId,
        source: FileId,
    ) -> Result<(), Break>
        requires within { source < length self.now.project.now.paths }
        requires begun { (table : Table) × (state_of state.old ≡ begun table) }
        requires shared { (origin : S) × (earlier : List Given) × AreSharedIn S.gives origin sources.old
            self.now files.old earlier }
        ensures over { OnOk result ((origin : S) (table : Table) (earlier : List Given) →
            state_of state.old ≡ begun table →
            AreSharedIn S.gives origin sources.old self.now files.old earlier →
            IsOver S.gives origin sources.new (job_in self.now source table earlier) files.new
            (over_by (state_of state.new) None)) }
        ensures ends { IfErr result (λ end. (origin : S) (table : Table) (earlier : List Given) →
            state_of state.old ≡ begun table →
            AreSharedIn S.gives origin sources.old self.now files.old earlier →
            EndsBy S.gives origin sources.new (job_in self.now source table earlier) files.new
            (state_of state.new) at_hand.new end) }
    {
        let mut frames = Vec::new(self.alloc);
        let at = Entry::source(self.alloc, self.settings, source)?;
        match self.enter(sources, files, state, &mut frames, at_hand, at) {
            Ok(()) => {}
            Err(end) => return Err(end),
        }
        while let Some(frame) = frames.pop() {
            match self.advance(sources, files, state, &mut frames, at_hand, frame) {
                Ok(()) => {}
                Err(end) => return Err(end),
            }
        }
        Ok(())
    }
}

/// Whether a file is held that changes nothing, since the name of its guard is that of a macro, and no name was taken away.
fn is_skipped(files: &Files, file: FileId, state: &State) -> bool
    ensures { result ≡ true → (ps : List FilePart) × (held_at files.now file ≡ Some ps)
        × IsSkipped (state_of state.now).table ps × NonePoisoned (state_of state.now) }
{
    if !state.none_poisoned() {
        return false;
    }
    match files.get(file) {
        Some(held) => held.is_guarded(&state.macros),
        None => false,
    }
}

/// How many parts a file has that is held.
fn count_in(files: &Files, file: FileId) -> usize
    ensures { result ≡ length (parts_in files.now file) }
{
    match files.get(file) {
        Some(held) => held.count(),
        None => 0,
    }
}
