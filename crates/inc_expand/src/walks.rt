//! The expansion of lists of tokens (ISO/IEC 9899:2018, 6.10.3.4).
ghost use Rattle.std.specs.Prelude.{◌≡◌, ◌≢◌, ℕ, suc, ◌+◌, ◌-◌, ◌<◌, ◌≤◌, ◌&&◌, List, [], ◌∷◌, true, false, nat_lt, drop, get_or, length, Ok, Err, None, Some, IfOk, OnOk, IfErr};
ghost use Rattle.inc_expand.specs.declared.rules.Rule.{Rule as RuleSeen};
ghost use Rattle.inc_expand.specs.Sets.{Sets, size, holds, Keeps};
ghost use Rattle.inc_expand.specs.Elements.{elements_of};
ghost use Rattle.inc_expand.specs.Expansion.{Expander, IsCall, IsObject, IsPredefined, all_levels, call_behind, case_of, is_expanded_in, levels, rule_in, spent};
ghost use Rattle.inc_expand.specs.Carriers.{bytes_in, carrier, carriers, AreKnown};
ghost use Rattle.inc_expand.specs.Arguments.{ArgumentValue, AreKnownIn};
ghost use Rattle.inc_expand.specs.Cases.{surroundings_value};
ghost use Rattle.inc_expand.specs.Frames.{answer, call_result, unwound, with_front, AreFrames, ArePassedOn, IsCallRefused, IsCallReplaced, IsGone, IsKnownCall, IsKnownLevel, IsNoted, IsTurn};
ghost use Rattle.inc_expand.specs.Joins.{tokens_in};
ghost use Rattle.inc_expand.specs.Places.{content_value};
ghost use Rattle.inc_expand.specs.Slots.{inside_tokens};
ghost use Rattle.inc_expand.specs.Walks.{IsNotPlaced, IsPlaced, IsRefused, IsReplaced};

use crate::arguments::{Arguments, Inside};
use crate::body_elements::expanded_parameters;
use crate::budgets::{Budget, units_after};
use crate::calls::{bound, take_call};
use crate::carried::Carried;
use crate::cases::{Case, Surroundings, pass};
use crate::contexts::taken;
use crate::faults::ExpandFault;
use crate::frames::{Call, Frame, Frames, Level};
use crate::hide_sets::{HideSets, SetId};
use crate::optionals::substituted;
use crate::pastes::Segment;
use crate::plain_bodies::{is_plain, replace_plain};
use crate::predefined::{Predefined, paid_text};
use crate::puts::put;
use crate::rules::{Rule, rule_of};
use crate::stacks::{LEAST_ROOM, Stack};
use bumpalo::Bump;
use inc_macro::{Definition, Parameters};
use std::alloc::{AllocError, Global};
use std::mem::replace;

/// What an expansion changes: the sets that it makes, and the budget.
#[derive(Drop)]
pub(crate) struct Work<'a> {
    pub(crate) sets: HideSets<'a>,
    pub(crate) meter: Budget,
}

/// How many levels there are above that of a list that is handed in.
pub(crate) fn levels_above() -> u32
    ensures { suc result ≡ all_levels }
{
    1_000
}

/// How many levels there are above that of an argument of a list that is handed in.
pub(crate) fn levels_above_arguments() -> u32
    ensures { suc (suc result) ≡ all_levels }
{
    999
}

/// Pays for a replacement.
fn pay(budget: &mut Budget, segments: &[Segment<'_, '_, '_>]) -> Result<(), ExpandFault>
    ensures enough { OnOk result (nat_lt budget.old.units (1 + length (tokens_in segments.now)) ≡ false) }
    ensures paid { OnOk result (budget.new ≡ spent (1 + length (tokens_in segments.now)) budget.old) }
    ensures over { IfErr result (λ fault. (fault ≡ ExpandFault.OverBudget)
        × (nat_lt budget.old.units (1 + length (tokens_in segments.now)) ≡ true)) }
{
    let units = budget.left();
    match units_after(units, segments) {
        Some(left) => {
            budget.set_left(left);
            Ok(())
        }
        None => Err(ExpandFault::OverBudget),
    }
}

/// Replaces a predefined name.
pub(crate) fn replace_predefined<'a, 'b>(
    arena: &'b Bump,
    work: &mut Work<'a>,
    token: &Carried<'a, 'b>,
    made: &Predefined<'a, 'b>,
    list: &mut Stack<'a, 'b>,
) -> Result<(), ExpandFault>
    requires name { made.now.name.now ≡ bytes_in token.now.text }
    requires token { token.now.set < size work.old.sets }
    requires list { AreKnown (size work.old.sets) list.old }
    ensures replaced { (rule : RuleSeen) (deeper : Expander) → OnOk result
        (IsReplaced rule deeper (IsPredefined made.now.kind (content_value made.now.content))
        token.now work.old work.new list.old list.new) }
    ensures fault { (rule : RuleSeen) (deeper : Expander) → IfErr result (λ fault. fault ≢ ExpandFault.NoMemory
        → IsRefused rule deeper (IsPredefined made.now.kind (content_value made.now.content))
        token.now work.old list.old fault) }
{
    if work.meter.left() < 2 {
        return Err(ExpandFault::OverBudget);
    }
    let text = paid_text(arena, &mut work.meter, made.content)?;
    let set = work.sets.with(token.set, made.name)?;
    list.push(Carried {
        text,
        line: token.line,
        set,
        kind: made.kind,
        space: token.space,
    })?;
    Ok(())
}

/// Takes a call whose `(` is next from a list: gives what is inside, and its `)`.
pub(crate) fn call_of<'a, 'b>(
    alloc: Global,
    list: &mut Stack<'a, 'b>,
) -> Result<(Inside<'a, 'b>, Carried<'a, 'b>), ExpandFault>
    ensures call { (s : Sets) → IfOk result (λ r. call_behind 0 (drop 1 (carriers s list.old))
        ≡ Some (record { inside = carriers s (inside_tokens r.0); close = carrier s r.1; rest = carriers s list.new })) }
    ensures known { (n : ℕ) → AreKnown n list.old
        → IfOk result (λ r. AreKnown n (inside_tokens r.0) × (r.1.set < n) × AreKnown n list.new) }
    ensures fault { (s : Sets) → IfErr result (λ fault. fault ≢ ExpandFault.NoMemory
        → (fault ≡ ExpandFault.UnclosedCall) × (call_behind 0 (drop 1 (carriers s list.old)) ≡ None)) }
{
    let _ = list.pop();
    let call = take_call(alloc, list)?;
    list.release();
    Ok(call)
}

/// The names that the replacement of a call hides, the macro's own aside: those that both its name and its `)` hide.
fn hidden_by_both<'a>(
    sets: &mut HideSets<'a>,
    name: &Carried<'a, '_>,
    close: &Carried<'a, '_>,
) -> Result<SetId, AllocError>
    requires name { name.now.set < size sets.old }
    requires close { close.now.set < size sets.old }
    ensures keeps { Keeps sets.old sets.new }
    ensures known { IfOk result (λ r. r < size sets.new) }
    ensures members { IfOk result (λ r. (n : List ℕ) → holds sets.new r n
        ≡ (holds sets.old name.now.set n && holds sets.old close.now.set n)) }
{
    sets.meet(name.set, close.set)
}

impl<'a: 'b, 'b> Surroundings<'a, 'b> {
    /// Why a name is not replaced again.
    #[inline(always)]
    pub(crate) fn rule(&self) -> Rule
        ensures { result ≡ rule_in (surroundings_value self.now) }
    {
        rule_of(self.macros.language())
    }

    /// Replaces a macro's name or call by a body whose places may be joined.
    fn replace_joined(
        &self,
        work: &mut Work<'a>,
        token: &Carried<'a, 'b>,
        hidden: SetId,
        macro_: &'a Definition,
        args: &Arguments<'a, 'b>,
        list: &mut Stack<'a, 'b>,
    ) -> Result<(), ExpandFault>
        requires hidden { hidden < size work.old.sets }
        requires args { AreKnownIn (size work.old.sets) args.now }
        requires list { AreKnown (size work.old.sets) list.old }
        ensures replaced { OnOk result
            (IsPlaced (rule_in (surroundings_value self.now)) macro_.now args.now token.now hidden work.old work.new list.old list.new) }
        ensures fault { IfErr result (λ fault. fault ≢ ExpandFault.NoMemory
            → IsNotPlaced (rule_in (surroundings_value self.now)) macro_.now args.now token.now hidden work.old list.old fault) }
    {
        let rule = self.rule();
        let segments = substituted(self.alloc, self.arena, rule, &mut work.sets, macro_, args)?;
        pay(&mut work.meter, &segments)?;
        let names = work.sets.with(hidden, macro_.name())?;
        put(list, rule, &mut work.sets, token, names, &segments)?;
        Ok(())
    }

    /// Replaces a macro's name or call: the names that the replacement hides are these and the macro's own.
    fn replace_by(
        &self,
        work: &mut Work<'a>,
        token: &Carried<'a, 'b>,
        hidden: SetId,
        macro_: &'a Definition,
        args: &Arguments<'a, 'b>,
        list: &mut Stack<'a, 'b>,
    ) -> Result<(), ExpandFault>
        requires hidden { hidden < size work.old.sets }
        requires args { AreKnownIn (size work.old.sets) args.now }
        requires list { AreKnown (size work.old.sets) list.old }
        ensures replaced { OnOk result
            (IsPlaced (rule_in (surroundings_value self.now)) macro_.now args.now token.now hidden work.old work.new list.old list.new) }
        ensures fault { IfErr result (λ fault. fault ≢ ExpandFault.NoMemory
            → IsNotPlaced (rule_in (surroundings_value self.now)) macro_.now args.now token.now hidden work.old list.old fault) }
    {
        if is_plain(macro_) {
            replace_plain(self.rule(), work, token, hidden, macro_, args, list)?;
            return Ok(());
        }
        self.replace_joined(work, token, hidden, macro_, args, list)?;
        Ok(())
    }

    /// Replaces the name of an object-like macro.
    pub(crate) fn replace_object(
        &self,
        work: &mut Work<'a>,
        token: &Carried<'a, 'b>,
        macro_: &'a Definition,
        list: &mut Stack<'a, 'b>,
    ) -> Result<(), ExpandFault>
        requires token { token.now.set < size work.old.sets }
        requires list { AreKnown (size work.old.sets) list.old }
        ensures replaced { (deeper : Expander) → OnOk result
            (IsReplaced (rule_in (surroundings_value self.now)) deeper (IsObject macro_.now) token.now
            work.old work.new list.old list.new) }
        ensures fault { (deeper : Expander) → IfErr result (λ fault. fault ≢ ExpandFault.NoMemory
            → IsRefused (rule_in (surroundings_value self.now)) deeper (IsObject macro_.now) token.now work.old list.old fault) }
    {
        let none = Arguments::none(self.alloc);
        self.replace_by(work, token, token.set, macro_, &none, list)?;
        Ok(())
    }

    /// Takes the tokens of an argument for what they expand to where all of them pass alone, with so many levels above its list, or where
    /// none is asked for; otherwise reports that it needs a level of its own.
    fn pass_argument(&self, deeper: u32, call: &mut Call<'a, 'b>, at: usize) -> bool
        requires noted { IsNoted call.old }
        requires within { at < length call.old.args }
        ensures passed { result ≡ true
            → ArePassedOn (surroundings_value self.now) deeper call.old at call.new (at + 1) }
        ensures same { result ≡ false → call.new ≡ call.old }
        ensures wanted { result ≡ false → is_expanded_in (elements_of call.old.macro_.now) at ≡ true }
    {
        if !call.wanted[at] {
            return true;
        }
        if !self.pass(deeper, call.args.written(at)) {
            return false;
        }
        call.args.pass(at);
        true
    }

    /// Passes arguments from a parameter on, up to the first one that needs a level of its own, and gives that one's parameter; or how many
    /// there are, where there is none.
    fn pass_arguments(&self, deeper: u32, call: &mut Call<'a, 'b>, from: usize) -> usize
        requires { IsNoted call.old }
        ensures passed { ArePassedOn (surroundings_value self.now) deeper call.old from call.new result }
        ensures stays { result < length call.new.args
            → is_expanded_in (elements_of call.new.macro_.now) result ≡ true }
    {
        let mut at = from;
        while at < call.args.len() {
            if !self.pass_argument(deeper, call, at) {
                return at;
            }
            at += 1;
        }
        at
    }

    /// Replaces a call whose arguments are expanded.
    pub(crate) fn replace_call(
        &self,
        work: &mut Work<'a>,
        call: &Call<'a, 'b>,
        list: &mut Stack<'a, 'b>,
    ) -> Result<(), ExpandFault>
        requires call { IsKnownCall (size work.old.sets) call.now }
        requires list { AreKnown (size work.old.sets) list.old }
        ensures replaced { OnOk result (IsCallReplaced (rule_in (surroundings_value self.now)) call.now work.old work.new list.old list.new) }
        ensures fault { IfErr result (λ fault. fault ≢ ExpandFault.NoMemory
            → IsCallRefused (rule_in (surroundings_value self.now)) call.now work.old list.old fault) }
    {
        let both = hidden_by_both(&mut work.sets, &call.name, &call.close)?;
        self.replace_by(work, &call.name, both, call.macro_, &call.args, list)?;
        Ok(())
    }

    /// Begins the expansion of an argument: its call waits.
    fn open(
        &self,
        frames: &mut Frames<'a, 'b>,
        call: Call<'a, 'b>,
        at: usize,
        level: &mut Level<'a, 'b>,
    ) -> Result<(), ExpandFault>
        requires { at < length call.args }
        ensures frames { OnOk result (frames.new
            ≡ record { call = call.entry; at = at; level = level.old } ∷ frames.old) }
        ensures deeper { OnOk result (level.new.deeper + 1 ≡ level.old.deeper) }
        ensures list { (d : ArgumentValue) → OnOk result (level.new.list ≡ (get_or call.entry.args at d).written) }
        ensures out { OnOk result (level.new.out.items ≡ []) }
        ensures fault { IfErr result (λ fault. fault ≢ ExpandFault.NoMemory
            → (fault ≡ ExpandFault.OverBudget) × (level.old.deeper ≡ 0)) }
    {
        if level.deeper == 0 {
            return Err(ExpandFault::OverBudget);
        }
        let list = call.args.list(self.alloc, at)?;
        let out = Vec::with_capacity(self.alloc, LEAST_ROOM)?;
        let deeper = level.deeper - 1;
        let below = replace(level, Level { deeper, list, out });
        frames.push(Frame {
            call,
            at,
            level: below,
        })?;
        Ok(())
    }

    /// Goes on with a call whose arguments are expanded up to a parameter: begins the expansion of the next one that needs a level of
    /// its own, or replaces the call.
    #[inline(always)]
    fn go_on(
        &self,
        work: &mut Work<'a>,
        frames: &mut Frames<'a, 'b>,
        mut call: Call<'a, 'b>,
        from: usize,
        level: &mut Level<'a, 'b>,
    ) -> Result<(), ExpandFault>
        requires frames { AreFrames (size work.old.sets) frames.old }
        requires call { IsKnownCall (size work.old.sets) call }
        requires noted { IsNoted call }
        requires level { IsKnownLevel (size work.old.sets) level.old }
        ensures gone { OnOk result (IsGone (surroundings_value self.now)
            work.old frames.old call.entry from level.old work.new frames.new level.new) }
        ensures fault { IfErr result (λ fault. fault ≢ ExpandFault.NoMemory
            → unwound (surroundings_value self.now) work.old.sets frames.old
            (call_result (surroundings_value self.now) work.old.sets work.old.meter from call.entry level.old) ≡ Err fault) }
    {
        let at = self.pass_arguments(level.deeper, &mut call, from);
        if at < call.args.len() {
            self.open(frames, call, at, level)?;
            return Ok(());
        }
        self.replace_call(work, &call, &mut level.list)?;
        Ok(())
    }

    /// Begins a call, whose `(` is next.
    fn begin_call(
        &self,
        work: &mut Work<'a>,
        frames: &mut Frames<'a, 'b>,
        token: &Carried<'a, 'b>,
        macro_: &'a Definition,
        params: &'a Parameters,
        level: &mut Level<'a, 'b>,
    ) -> Result<(), ExpandFault>
        requires frames { AreFrames (size work.old.sets) frames.old }
        requires token { token.now.set < size work.old.sets }
        requires level { IsKnownLevel (size work.old.sets) level.old }
        requires case { case_of (surroundings_value self.now) (carrier work.old.sets token.now)
            (carriers work.old.sets level.old.list)
            ≡ IsCall macro_.now params.now (drop 1 (carriers work.old.sets level.old.list)) }
        ensures turn { OnOk result (IsTurn (surroundings_value self.now)
            work.old frames.old (with_front token.now level.old) work.new frames.new level.new) }
        ensures fault { IfErr result (λ fault. fault ≢ ExpandFault.NoMemory
            → answer (surroundings_value self.now) work.old.sets work.old.meter frames.old
            (with_front token.now level.old) ≡ Err fault) }
    {
        let (written, close) = call_of(self.alloc, &mut level.list)?;
        let rule = self.rule();
        let inside = taken(self.alloc, rule, &work.sets, close.set, written)?;
        let args = bound(self.alloc, params, inside)?;
        let call = Call {
            name: *token,
            macro_,
            close,
            wanted: expanded_parameters(macro_),
            args,
        };
        self.go_on(work, frames, call, 0, level)?;
        Ok(())
    }

    /// Goes on with the call that waited for the expansion of an argument, which is over.
    fn close(
        &self,
        work: &mut Work<'a>,
        frames: &mut Frames<'a, 'b>,
        frame: Frame<'a, 'b>,
        level: &mut Level<'a, 'b>,
    ) -> Result<(), ExpandFault>
        requires frames { AreFrames (size work.old.sets) (frame ∷ frames.old) }
        requires level { IsKnownLevel (size work.old.sets) level.old }
        requires over { level.old.list ≡ [] }
        ensures turn { OnOk result (IsTurn (surroundings_value self.now)
            work.old (frame.entry ∷ frames.old) level.old work.new frames.new level.new) }
        ensures fault { IfErr result (λ fault. fault ≢ ExpandFault.NoMemory
            → answer (surroundings_value self.now) work.old.sets work.old.meter (frame.entry ∷ frames.old)
            level.old ≡ Err fault) }
    {
        let Frame {
            mut call,
            at,
            level: below,
        } = frame;
        let Level {
            deeper: _,
            list: _,
            out,
        } = replace(level, below);
        call.args.expand(at, out);
        self.go_on(work, frames, call, at + 1, level)?;
        Ok(())
    }

    /// Treats the token that was taken from the front of a list: it passes, or is replaced, or its call is begun.
    fn treat(
        &self,
        work: &mut Work<'a>,
        frames: &mut Frames<'a, 'b>,
        token: &Carried<'a, 'b>,
        level: &mut Level<'a, 'b>,
    ) -> Result<(), ExpandFault>
        requires frames { AreFrames (size work.old.sets) frames.old }
        requires token { token.now.set < size work.old.sets }
        requires level { IsKnownLevel (size work.old.sets) level.old }
        ensures turn { OnOk result (IsTurn (surroundings_value self.now)
            work.old frames.old (with_front token.now level.old) work.new frames.new level.new) }
        ensures fault { IfErr result (λ fault. fault ≢ ExpandFault.NoMemory
            → answer (surroundings_value self.now) work.old.sets work.old.meter frames.old
            (with_front token.now level.old) ≡ Err fault) }
    {
        let case = self.case_of(&work.sets, token, &level.list)?;
        match case {
            Case::Passes(count) => {
                level.out.push(*token)?;
                pass(&mut level.out, &mut level.list, count)?;
                Ok(())
            }
            Case::IsPredefined(made) => {
                replace_predefined(self.arena, work, token, &made, &mut level.list)?;
                Ok(())
            }
            Case::IsObject(macro_) => {
                self.replace_object(work, token, macro_, &mut level.list)?;
                Ok(())
            }
            Case::IsCall(macro_, params) => {
                self.begin_call(work, frames, token, macro_, params, level)?;
                Ok(())
            }
        }
    }

    /// A step of an expansion: treats the next token, or goes on with the innermost call that waits. Reports whether there was one to do.
    #[inline(always)]
    pub(crate) fn step(
        &self,
        work: &mut Work<'a>,
        frames: &mut Frames<'a, 'b>,
        level: &mut Level<'a, 'b>,
    ) -> Result<bool, ExpandFault>
        requires frames { AreFrames (size work.old.sets) frames.old }
        requires level { IsKnownLevel (size work.old.sets) level.old }
        ensures turn { IfOk result (λ more. more ≡ true → IsTurn (surroundings_value self.now)
            work.old frames.old level.old work.new frames.new level.new) }
        ensures over { IfOk result (λ more. more ≡ false
            → (frames.old ≡ []) × (level.old.list ≡ []) × (level.new ≡ level.old) × (work.new ≡ work.old)) }
        ensures fault { IfErr result (λ fault. fault ≢ ExpandFault.NoMemory
            → answer (surroundings_value self.now) work.old.sets work.old.meter frames.old level.old ≡ Err fault) }
    {
        if let Some(token) = level.list.pop() {
            self.treat(work, frames, &token, level)?;
            return Ok(true);
        }
        match frames.pop() {
            Some(frame) => {
                self.close(work, frames, frame, level)?;
                Ok(true)
            }
            None => Ok(false),
        }
    }

    /// What a list that is handed in expands to.
    pub(crate) fn expanded(
        &self,
        work: &mut Work<'a>,
        list: Stack<'a, 'b>,
    ) -> Result<Vec<Carried<'a, 'b>>, ExpandFault>
        requires { AreKnown (size work.old.sets) list }
        ensures expanded { IfOk result (λ out.
            levels (surroundings_value self.now) all_levels work.old.meter (carriers work.old.sets list.entry)
            ≡ Ok (carriers work.new.sets out.items, work.new.meter)) }
        ensures fault { IfErr result (λ fault. fault ≢ ExpandFault.NoMemory
            → levels (surroundings_value self.now) all_levels work.old.meter
            (carriers work.old.sets list.entry) ≡ Err fault) }
    {
        let out = self.expanded_at(work, levels_above(), list)?;
        Ok(out)
    }

    /// What a list expands to that has so many levels above it.
    pub(crate) fn expanded_at(
        &self,
        work: &mut Work<'a>,
        deeper: u32,
        list: Stack<'a, 'b>,
    ) -> Result<Vec<Carried<'a, 'b>>, ExpandFault>
        requires { AreKnown (size work.old.sets) list }
        ensures expanded { IfOk result (λ out.
            levels (surroundings_value self.now) (suc deeper) work.old.meter (carriers work.old.sets list.entry)
            ≡ Ok (carriers work.new.sets out.items, work.new.meter)) }
        ensures keeps { OnOk result (Keeps work.old.sets work.new.sets) }
        ensures known { IfOk result (λ out. AreKnown (size work.new.sets) out.items) }
        ensures fault { IfErr result (λ fault. fault ≢ ExpandFault.NoMemory
            → levels (surroundings_value self.now) (suc deeper) work.old.meter
            (carriers work.old.sets list.entry) ≡ Err fault) }
    {
        let out = Vec::with_capacity(self.alloc, list.len().max(LEAST_ROOM))?;
        let mut frames = Frames::new(self.alloc);
        let mut level = Level { deeper, list, out };
        while self.step(work, &mut frames, &mut level)? {}
        let Level {
            deeper: _,
            list: _,
            out,
        } = level;
        Ok(out)
    }
}
