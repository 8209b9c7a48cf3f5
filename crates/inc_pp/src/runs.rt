//! Runs of text lines.
ghost use Rattle.std.specs.Prelude.{◌≡◌, ◌≢◌, ◌≤◌, ◌-◌, ◌<◌, ◌&&◌, [], Ok, Err, Some, length, slice_get, map, not, take, drop, if◌then◌else◌, OnOk, IfOk, IfErr};
ghost use Rattle.inc_directive.specs.LineKinds.{line_of_tokens};
ghost use Rattle.inc_directive.specs.Groups.{FileLine};
ghost use Rattle.inc_directive.specs.Parts.{DirectivePart, lines_of_parts};
ghost use Rattle.inc_token.specs.Views.{seen};
ghost use Rattle.inc_pp.specs.Directives.{ends_call, released_for};
ghost use Rattle.inc_pp.specs.OpenCalls.{open_in_call};
ghost use Rattle.inc_pp.specs.Runs.{asked_read, is_unclosed, line_of_run, run_expanded, run_given, run_opened, run_read, text_read, tokens_read, with_once};
ghost use Rattle.inc_pp.specs.Sections.{operands};
ghost use Rattle.inc_pp.specs.StateViews.{state_of};
ghost use Rattle.inc_pp.specs.Stops.{IfStop, IsUnder, halt_at, is_unclosed_stop};
ghost use Rattle.inc_pp.specs.Tasks.{File};

use crate::causes::Cause;
use crate::directive_calls::ends_call;
use crate::expansions::{Around, put_expanded, put_open};
use crate::faults::Break;
use crate::line_numbers::Here;
use crate::lines::{first_line, operands};
use crate::open_calls::open_behind;
use crate::settings::Settings;
use crate::states::State;
use crate::waiting::Open;
use inc_directive::FileLines;
use inc_expand::ExpandFault;
use inc_lookup::FileId;
use inc_token::Token;
use std::alloc::AllocError;

/// Whether a fault is that a call has no end.
fn is_unclosed(fault: &Break) -> bool
    ensures { result ≡ is_unclosed_stop fault.now }
{
    match fault {
        Break::Stop { line: _, cause } => is_unclosed_cause(cause),
        Break::Unread(_) => false,
        Break::NoMemory => false,
    }
}

/// Whether a cause is.
fn is_unclosed_cause(cause: &Cause) -> bool
    ensures { result ≡ is_unclosed cause.now }
{
    match cause {
        Cause::Expand(ExpandFault::UnclosedCall) => true,
        _ => false,
    }
}

/// Whether a run with a fault is one with an open call.
fn is_open_run(is_gnu: bool, fault: &Break) -> bool
    ensures { result ≡ (is_gnu && is_unclosed_stop fault.now) }
{
    is_gnu && is_unclosed(fault)
}

impl State {
    /// Expands text lines of a file as one list, from one part up to another and with those that wait, and puts the tokens out; or lets them wait
    /// for the rest of a call.
    pub(crate) fn put_run(
        &mut self,
        settings: &Settings<'_>,
        lines: &FileLines,
        from: usize,
        to: usize,
        file: FileId,
        here: &mut Here,
    ) -> Result<(), Break>
        requires ordered { from ≤ to }
        requires within { to ≤ length lines.now }
        ensures done { OnOk result ((f : File) → IsUnder settings.now f → f.index ≡ file →
            run_read f (lines_of_parts (take (to - from) (drop from lines.now))) (state_of self.old) here.old
            ≡ Ok (state_of self.new, here.new)) }
        ensures reads { (state_of self.new).reads ≡ (state_of self.old).reads }
        ensures stop { IfErr result (λ fault. IfStop fault (λ line cause.
            (state_of self.new ≡ state_of self.old) × ((f : File) → IsUnder settings.now f → f.index ≡ file →
            run_read f (lines_of_parts (take (to - from) (drop from lines.now))) (state_of self.old) here.old
            ≡ Err (halt_at f (state_of self.old) line cause)))) }
    {
        if lines.are_blank(from, to) {
            return Ok(());
        }
        let tokens = lines.run(self.alloc, from, to)?;
        if tokens.is_empty() {
            return Ok(());
        }
        self.put_text(settings, &tokens, file, here)
    }

    /// The same of the tokens of text lines.
    fn put_text(
        &mut self,
        settings: &Settings<'_>,
        tokens: &[Token<'_>],
        file: FileId,
        here: &mut Here,
    ) -> Result<(), Break>
        requires some { map seen tokens.now ≢ [] }
        ensures done { OnOk result ((f : File) → IsUnder settings.now f → f.index ≡ file →
            text_read f (map seen tokens.now) (state_of self.old) here.old ≡ Ok (state_of self.new, here.new)) }
        ensures reads { (state_of self.new).reads ≡ (state_of self.old).reads }
        ensures stop { IfErr result (λ fault. IfStop fault (λ line cause.
            (state_of self.new ≡ state_of self.old) × ((f : File) → IsUnder settings.now f → f.index ≡ file →
            text_read f (map seen tokens.now) (state_of self.old) here.old ≡ Err (halt_at f (state_of self.old) line cause)))) }
    {
        match self.ask(tokens) {
            Ok(()) => {}
            Err(fault) => return Err(fault),
        }
        match self.wait_or_put(settings, tokens, file, here) {
            Ok(()) => Ok(()),
            Err(fault) => Err(fault),
        }
    }

    /// Has tokens of text lines wait where the call that waits is open after them; else puts them out.
    fn wait_or_put(
        &mut self,
        settings: &Settings<'_>,
        tokens: &[Token<'_>],
        file: FileId,
        here: &mut Here,
    ) -> Result<(), Break>
        ensures done { OnOk result ((f : File) → IsUnder settings.now f → f.index ≡ file →
            asked_read f (map seen tokens.now) (state_of self.old) here.old ≡ Ok (state_of self.new, here.new)) }
        ensures reads { (state_of self.new).reads ≡ (state_of self.old).reads }
        ensures stop { IfErr result (λ fault. IfStop fault (λ line cause.
            (state_of self.new ≡ state_of self.old) × ((f : File) → IsUnder settings.now f → f.index ≡ file →
            asked_read f (map seen tokens.now) (state_of self.old) here.old ≡ Err (halt_at f (state_of self.old) line cause)))) }
    {
        let deep = open_behind(here.deep, tokens)?;
        if deep > 0 {
            here.wait(tokens, deep)?;
            return Ok(());
        }
        match self.put_tokens(settings, tokens, file, here) {
            Ok(()) => Ok(()),
            Err(fault) => Err(fault),
        }
    }

    /// Puts tokens out, and those that wait before them, up to the call that is open at their end, which waits then.
    fn put_tokens(
        &mut self,
        settings: &Settings<'_>,
        tokens: &[Token<'_>],
        file: FileId,
        here: &mut Here,
    ) -> Result<(), Break>
        ensures done { OnOk result ((f : File) → IsUnder settings.now f → f.index ≡ file →
            tokens_read f (map seen tokens.now) (state_of self.old) here.old ≡ Ok (state_of self.new, here.new)) }
        ensures reads { (state_of self.new).reads ≡ (state_of self.old).reads }
        ensures stop { IfErr result (λ fault. IfStop fault (λ line cause.
            (state_of self.new ≡ state_of self.old) × ((f : File) → IsUnder settings.now f → f.index ≡ file →
            tokens_read f (map seen tokens.now) (state_of self.old) here.old ≡ Err (halt_at f (state_of self.old) line cause)))) }
    {
        match self.put_given(settings, tokens, file, here) {
            Ok(held) => {
                here.hold(held);
                Ok(())
            }
            Err(fault) => Err(fault),
        }
    }

    /// Puts tokens out, and those that wait before them, up to the call that is open at their end.
    fn put_given(
        &mut self,
        settings: &Settings<'_>,
        tokens: &[Token<'_>],
        file: FileId,
        here: &Here,
    ) -> Result<Open, Break>
        ensures done { IfOk result (λ held. (f : File) → IsUnder settings.now f → f.index ≡ file →
            run_given f here.now (state_of self.old) (map seen tokens.now) ≡ Ok (state_of self.new, held.waiting)) }
        ensures deep { IfOk result (λ held. held.deep ≡ open_in_call held.waiting) }
        ensures reads { (state_of self.new).reads ≡ (state_of self.old).reads }
        ensures stop { IfErr result (λ fault. IfStop fault (λ line cause.
            (state_of self.new ≡ state_of self.old) × (line ≡ line_of_run here.now.waiting (map seen tokens.now)) × ((f : File) → IsUnder settings.now f → f.index ≡ file →
            run_given f here.now (state_of self.old) (map seen tokens.now) ≡ Err cause))) }
    {
        if here.waiting.is_empty() {
            match self.put_closed(settings, tokens, file, here) {
                Ok(held) => return Ok(held),
                Err(fault) => return Err(fault),
            }
        }
        match self.put_opened(settings, tokens, file, here) {
            Ok(held) => Ok(held),
            Err(fault) => Err(fault),
        }
    }

    /// The same where none wait: mostly no call is open.
    fn put_closed(
        &mut self,
        settings: &Settings<'_>,
        tokens: &[Token<'_>],
        file: FileId,
        here: &Here,
    ) -> Result<Open, Break>
        requires none { here.now.waiting ≡ [] }
        ensures done { IfOk result (λ held. (f : File) → IsUnder settings.now f → f.index ≡ file →
            run_given f here.now (state_of self.old) (map seen tokens.now) ≡ Ok (state_of self.new, held.waiting)) }
        ensures deep { IfOk result (λ held. held.deep ≡ open_in_call held.waiting) }
        ensures reads { (state_of self.new).reads ≡ (state_of self.old).reads }
        ensures stop { IfErr result (λ fault. IfStop fault (λ line cause.
            (state_of self.new ≡ state_of self.old) × (line ≡ line_of_run here.now.waiting (map seen tokens.now)) × ((f : File) → IsUnder settings.now f → f.index ≡ file →
            run_given f here.now (state_of self.old) (map seen tokens.now) ≡ Err cause))) }
    {
        let is_gnu = self.macros.language().is_gnu();
        match self.put_asked(settings, tokens, file, here) {
            Ok(()) => Ok(Open::none(self.alloc)),
            Err(fault) => {
                if !is_open_run(is_gnu, &fault) {
                    return Err(fault);
                }
                match self.put_opened(settings, tokens, file, here) {
                    Ok(held) => Ok(held),
                    Err(fault) => Err(fault),
                }
            }
        }
    }

    /// Expands tokens of a file, with those that wait, up to the call that is open at their end, and puts out what is before it.
    fn put_opened(
        &mut self,
        settings: &Settings<'_>,
        tokens: &[Token<'_>],
        file: FileId,
        here: &Here,
    ) -> Result<Open, Break>
        ensures done { IfOk result (λ held. (f : File) → IsUnder settings.now f → f.index ≡ file →
            run_opened f here.now (state_of self.old) (map seen tokens.now) ≡ Ok (state_of self.new, held.waiting)) }
        ensures deep { IfOk result (λ held. held.deep ≡ open_in_call held.waiting) }
        ensures reads { (state_of self.new).reads ≡ (state_of self.old).reads }
        ensures stop { IfErr result (λ fault. IfStop fault (λ line cause.
            (state_of self.new ≡ state_of self.old) × (line ≡ line_of_run here.now.waiting (map seen tokens.now)) × ((f : File) → IsUnder settings.now f → f.index ≡ file →
            run_opened f here.now (state_of self.old) (map seen tokens.now) ≡ Err cause))) }
    {
        // Lent anew, for as long as the macros.
        let here = &*here;
        let settings = &*settings;
        let tokens = &*tokens;
        let waiting = here.waiting.tokens()?;
        let around = Around {
            alloc: self.alloc,
            seed: self.seed,
            macros: &self.macros,
            place: here.place(settings),
            line: here.line_of_run(tokens),
        };
        let marks = here.marks(settings);
        let (once, held) = put_open(
            &around,
            marks,
            &waiting,
            tokens,
            &mut self.budget,
            &mut self.output,
            settings.most_output(),
        )?;
        self.note_once(file, once)?;
        Ok(held)
    }

    /// Stops before a directive of a file where a call waits that does not go over it.
    pub(crate) fn release_for(&self, lines: &FileLines, i: usize, here: &Here) -> Result<(), Break>
        requires within { i < length lines.now }
        ensures done { OnOk result ((f : File) (l : FileLine) → slice_get lines.now i ≡ Some (DirectivePart l) →
            released_for l f (state_of self.now) here.now ≡ Ok (state_of self.now, here.now)) }
        ensures stop { IfErr result (λ fault. IfStop fault (λ line cause. (f : File) (l : FileLine) →
            slice_get lines.now i ≡ Some (DirectivePart l) →
            released_for l f (state_of self.now) here.now ≡ Err (halt_at f (state_of self.now) line cause))) }
    {
        let Some(name) = here.waiting.name() else {
            return Ok(());
        };
        if self.goes_over(name, lines, i)? {
            return Ok(());
        }
        match here.release() {
            Ok(()) => Ok(()),
            Err(fault) => Err(fault),
        }
    }

    /// Whether a call by this name goes over a directive of a file.
    fn goes_over(&self, name: &[u8], lines: &FileLines, i: usize) -> Result<bool, AllocError>
        requires within { i < length lines.now }
        ensures { IfOk result (λ over. (l : FileLine) → slice_get lines.now i ≡ Some (DirectivePart l) →
            over ≡ not (ends_call l.kind (state_of self.now).table.language (Some name.now) (operands l))) }
    {
        let tokens = lines.line(self.alloc, i)?;
        Ok(!ends_call(
            lines.kind(i),
            self.macros.language(),
            name,
            operands(&tokens),
        ))
    }

    /// Expands tokens of a file as one list, and puts them out.
    fn put_asked(
        &mut self,
        settings: &Settings<'_>,
        tokens: &[Token<'_>],
        file: FileId,
        here: &Here,
    ) -> Result<(), Break>
        ensures done { OnOk result ((f : File) → IsUnder settings.now f → f.index ≡ file →
            run_expanded f here.now (state_of self.old) (map seen tokens.now) ≡ Ok (state_of self.new)) }
        ensures reads { (state_of self.new).reads ≡ (state_of self.old).reads }
        ensures stop { IfErr result (λ fault. IfStop fault (λ line cause.
            (state_of self.new ≡ state_of self.old) × (line ≡ line_of_tokens (map seen tokens.now)) × ((f : File) → IsUnder settings.now f → f.index ≡ file →
            run_expanded f here.now (state_of self.old) (map seen tokens.now) ≡ Err cause))) }
    {
        // Lent anew, for as long as the macros.
        let here = &*here;
        let settings = &*settings;
        let tokens = &*tokens;
        let around = Around {
            alloc: self.alloc,
            seed: self.seed,
            macros: &self.macros,
            place: here.place(settings),
            line: first_line(tokens),
        };
        let marks = here.marks(settings);
        let once = put_expanded(
            &around,
            marks,
            tokens,
            &mut self.budget,
            &mut self.output,
            settings.most_output(),
        )?;
        self.note_once(file, once)?;
        Ok(())
    }

    /// Has a file read once, or changes nothing.
    fn note_once(&mut self, file: FileId, once: bool) -> Result<(), AllocError>
        ensures done { OnOk result (state_of self.new
            ≡ (if once then with_once file (state_of self.old) else state_of self.old)) }
        ensures reads { (state_of self.new).reads ≡ (state_of self.old).reads }
    {
        if once {
            self.set_once(file)?;
        }
        Ok(())
    }
}
