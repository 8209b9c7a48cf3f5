//! Expansions of lists that go on in later lines: a call that is open at the end waits.
ghost use Rattle.std.specs.Prelude.{◌≡◌, ◌≢◌, ◌+◌, ◌-◌, ◌<◌, ℕ, suc, List, Bool, true, false, [], ◌∷◌, drop, length, is_some, Ok, Err, IfOk, IfErr, OnOk};
ghost use Rattle.inc_expand.specs.declared.frames.Call.{Call as CallValue};
ghost use Rattle.inc_expand.specs.Arguments.{argument_values};
ghost use Rattle.inc_expand.specs.Carriers.{carrier, carriers, AreKnown};
ghost use Rattle.inc_expand.specs.Cases.{surroundings_value};
ghost use Rattle.inc_expand.specs.Elements.{elements_of};
ghost use Rattle.inc_expand.specs.Expansion.{IsCall, call_behind, case_of, expanded_arguments, levels, rule_in};
ghost use Rattle.inc_expand.specs.Frames.{IsKnownCall, IsNoted};
ghost use Rattle.inc_expand.specs.OpenWalks.{AreExpanded, IsOpenStep, arguments_left};
ghost use Rattle.inc_expand.specs.Openings as spec;
ghost use Rattle.inc_expand.specs.Sets.{Sets, size};
ghost use Rattle.inc_expand.specs.Walks.{IsRefused, IsReplaced};

use crate::body_elements::expanded_parameters;
use crate::calls::{bound, depth_after, ends_call};
use crate::carried::Carried;
use crate::cases::{Case, Surroundings, pass};
use crate::contexts::taken;
use crate::faults::ExpandFault;
use crate::frames::Call;
use crate::stacks::Stack;
use crate::walks::{Work, call_of, levels_above_arguments, replace_predefined};
use inc_macro::{Definition, Parameters};

/// Whether the `)` of a call is in a list whose first token is its `(`.
fn has_close(list: &Stack<'_, '_>) -> bool
    ensures { (s : Sets) → result ≡ is_some (call_behind 0 (drop 1 (carriers s list.now))) }
{
    let count = list.len().saturating_sub(1);
    let mut deep = 0;
    for i in 0..count {
        let Some(token) = list.get(i + 1) else {
            return false;
        };
        if ends_call(deep, &token) {
            return true;
        }
        deep = depth_after(deep, &token);
    }
    false
}

impl<'a: 'b, 'b> Surroundings<'a, 'b> {
    /// Expands the argument of a parameter, where the body asks for it.
    fn expand_argument(
        &self,
        work: &mut Work<'a>,
        call: &mut Call<'a, 'b>,
        at: usize,
    ) -> Result<(), ExpandFault>
        requires call { IsKnownCall (size work.old.sets) call.old }
        requires noted { IsNoted call.old }
        requires within { at < length call.old.args }
        ensures done { OnOk result (AreExpanded (surroundings_value self.now) work.old call.old at work.new call.new (at + 1)) }
        ensures fault { IfErr result (λ fault. fault ≢ ExpandFault.NoMemory →
            arguments_left (surroundings_value self.now) call.old work.old.sets work.old.meter at ≡ Err fault) }
    {
        if !call.wanted[at] {
            return Ok(());
        }
        let list = call.args.list(self.alloc, at)?;
        let out = self.expanded_at(work, levels_above_arguments(), list)?;
        call.args.expand(at, out);
        Ok(())
    }

    /// Expands the arguments of a call that the body asks for, each as a list by itself.
    fn expand_arguments(
        &self,
        work: &mut Work<'a>,
        call: &mut Call<'a, 'b>,
    ) -> Result<(), ExpandFault>
        requires call { IsKnownCall (size work.old.sets) call.old }
        requires noted { IsNoted call.old }
        ensures done { OnOk result (AreExpanded (surroundings_value self.now) work.old call.old 0 work.new call.new (length call.new.args)) }
        ensures fault { IfErr result (λ fault. fault ≢ ExpandFault.NoMemory →
            arguments_left (surroundings_value self.now) call.old work.old.sets work.old.meter 0 ≡ Err fault) }
    {
        let mut at = 0;
        while at < call.args.len() {
            self.expand_argument(work, call, at)?;
            at += 1;
        }
        Ok(())
    }

    /// Replaces a call, whose `(` is next and whose `)` is in the list.
    fn replace_whole(
        &self,
        work: &mut Work<'a>,
        token: &Carried<'a, 'b>,
        macro_: &'a Definition,
        params: &'a Parameters,
        list: &mut Stack<'a, 'b>,
    ) -> Result<(), ExpandFault>
        requires token { token.now.set < size work.old.sets }
        requires list { AreKnown (size work.old.sets) list.old }
        ensures replaced { OnOk result (IsReplaced (rule_in (surroundings_value self.now))
            (levels (surroundings_value self.now) spec.levels_above)
            (IsCall macro_.now params.now (drop 1 (carriers work.old.sets list.old)))
            token.now work.old work.new list.old list.new) }
        ensures fault { IfErr result (λ fault. fault ≢ ExpandFault.NoMemory
            → IsRefused (rule_in (surroundings_value self.now))
            (levels (surroundings_value self.now) spec.levels_above)
            (IsCall macro_.now params.now (drop 1 (carriers work.old.sets list.old)))
            token.now work.old list.old fault) }
    {
        let (written, close) = call_of(self.alloc, list)?;
        let inside = taken(self.alloc, self.rule(), &work.sets, close.set, written)?;
        let args = bound(self.alloc, params, inside)?;
        let mut call = Call {
            name: *token,
            macro_,
            close,
            wanted: expanded_parameters(macro_),
            args,
        };
        self.expand_arguments(work, &mut call)?;
        self.replace_call(work, &call, list)?;
        Ok(())
    }

    /// Treats the token that was taken from the front of a list: it passes, or is replaced. Where it begins a call that is open, it is put back, and
    /// nothing goes on.
    fn open_step(
        &self,
        work: &mut Work<'a>,
        token: &Carried<'a, 'b>,
        list: &mut Stack<'a, 'b>,
        out: &mut Vec<Carried<'a, 'b>>,
    ) -> Result<bool, ExpandFault>
        requires token { token.now.set < size work.old.sets }
        requires list { AreKnown (size work.old.sets) list.old }
        requires out { AreKnown (size work.old.sets) out.old.items }
        ensures onward { IfOk result (λ more. more ≡ true → IsOpenStep (surroundings_value self.now)
            token.now work.old work.new list.old list.new out.old.items out.new.items) }
        ensures waits { IfOk result (λ more. more ≡ false → (list.new ≡ token.now ∷ list.old) × (out.new ≡ out.old) × (work.new ≡ work.old)
            × ((k : ℕ) → spec.opened (surroundings_value self.now) (levels (surroundings_value self.now) spec.levels_above) (suc k) work.old.meter
            (carriers work.old.sets (token.now ∷ list.old)) ≡ Ok (spec.waits work.old.meter (carriers work.old.sets (token.now ∷ list.old))))) }
        ensures fault { IfErr result (λ fault. fault ≢ ExpandFault.NoMemory →
            (k : ℕ) → spec.opened (surroundings_value self.now) (levels (surroundings_value self.now) spec.levels_above) (suc k) work.old.meter
            (carriers work.old.sets (token.now ∷ list.old)) ≡ Err fault) }
    {
        let case = self.case_of(&work.sets, token, list)?;
        match case {
            Case::Passes(count) => {
                out.push(*token)?;
                pass(out, list, count)?;
                Ok(true)
            }
            Case::IsPredefined(made) => {
                replace_predefined(self.arena, work, token, &made, list)?;
                Ok(true)
            }
            Case::IsObject(macro_) => {
                self.replace_object(work, token, macro_, list)?;
                Ok(true)
            }
            Case::IsCall(macro_, params) => {
                let more = self.call_step(work, token, macro_, params, list)?;
                Ok(more)
            }
        }
    }

    /// The same of a call.
    fn call_step(
        &self,
        work: &mut Work<'a>,
        token: &Carried<'a, 'b>,
        macro_: &'a Definition,
        params: &'a Parameters,
        list: &mut Stack<'a, 'b>,
    ) -> Result<bool, ExpandFault>
        requires token { token.now.set < size work.old.sets }
        requires list { AreKnown (size work.old.sets) list.old }
        ensures onward { IfOk result (λ more. more ≡ true →
            (spec.is_open_call (IsCall macro_.now params.now (drop 1 (carriers work.old.sets list.old))) ≡ false)
            × IsReplaced (rule_in (surroundings_value self.now)) (levels (surroundings_value self.now) spec.levels_above)
            (IsCall macro_.now params.now (drop 1 (carriers work.old.sets list.old)))
            token.now work.old work.new list.old list.new) }
        ensures waits { IfOk result (λ more. more ≡ false → (list.new ≡ token.now ∷ list.old) × (work.new ≡ work.old)
            × (spec.is_open_call (IsCall macro_.now params.now (drop 1 (carriers work.old.sets list.old))) ≡ true)) }
        ensures fault { IfErr result (λ fault. fault ≢ ExpandFault.NoMemory →
            (spec.is_open_call (IsCall macro_.now params.now (drop 1 (carriers work.old.sets list.old))) ≡ false)
            × IsRefused (rule_in (surroundings_value self.now)) (levels (surroundings_value self.now) spec.levels_above)
            (IsCall macro_.now params.now (drop 1 (carriers work.old.sets list.old)))
            token.now work.old list.old fault) }
    {
        if !has_close(list) {
            list.push(*token)?;
            return Ok(false);
        }
        self.replace_whole(work, token, macro_, params, list)?;
        Ok(true)
    }

    /// What a list gives that is handed in and goes on in later lines. Left in the list is the call that is open at its end.
    pub(crate) fn opened(
        &self,
        work: &mut Work<'a>,
        list: &mut Stack<'a, 'b>,
    ) -> Result<Vec<Carried<'a, 'b>>, ExpandFault>
        requires { AreKnown (size work.old.sets) list.old }
        ensures opened { IfOk result (λ out. spec.opened (surroundings_value self.now) (levels (surroundings_value self.now) spec.levels_above)
            (length list.old + work.old.meter.units + 1) work.old.meter (carriers work.old.sets list.old)
            ≡ Ok (record { given = carriers work.new.sets out.items; call = carriers work.new.sets list.new; meter = work.new.meter })) }
        ensures known { OnOk result (AreKnown (size work.new.sets) list.new) }
        ensures fault { IfErr result (λ fault. fault ≢ ExpandFault.NoMemory →
            spec.opened (surroundings_value self.now) (levels (surroundings_value self.now) spec.levels_above)
            (length list.old + work.old.meter.units + 1) work.old.meter (carriers work.old.sets list.old) ≡ Err fault) }
    {
        let mut out = Vec::new(self.alloc);
        while let Some(token) = list.pop() {
            let more = self.open_step(work, &token, list, &mut out)?;
            if !more {
                return Ok(out);
            }
        }
        Ok(out)
    }
}
