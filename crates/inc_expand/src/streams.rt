//! Expansions whose tokens are handed on as soon as they are known.
ghost use Rattle.std.specs.Prelude.{◌≢◌, map, OnOk, IfErr};
ghost use Rattle.inc_expand.specs.Sets.{size};
ghost use Rattle.inc_expand.specs.Carriers.{AreKnown};
ghost use Rattle.inc_expand.specs.Cases.{surroundings_value};
ghost use Rattle.inc_expand.specs.Sinks.{carried_item};
ghost use Rattle.inc_expand.specs.Streams.{AreHanded, ArePassed, IsHandedOn, IsOver, IsStopped};

use crate::carried::Carried;
use crate::cases::Surroundings;
use crate::faults::ExpandFault;
use crate::frames::{Frames, Level};
use crate::sinks::{Sink, item_ref};
use crate::stacks::Stack;
use crate::walks::{Work, levels_above};
use std::alloc::AllocError;

/// Hands tokens on. `first`: none of their expansion was handed on before.
fn hand_on<S: Sink>(
    tokens: &[Carried<'_, '_>],
    sink: &mut S,
    first: &mut bool,
) -> Result<(), AllocError>
    ensures { OnOk result
        (AreHanded S.takes first.old first.new sink.old sink.new (map carried_item tokens.now)) }
{
    for token in tokens {
        sink.take(item_ref(token), *first)?;
        *first = false;
    }
    Ok(())
}

impl<'a: 'b, 'b> Surroundings<'a, 'b> {
    /// Hands on the ordinary tokens at the front of a list, where they are those of the list that was handed in.
    fn hand_on_source<S: Sink>(
        &self,
        list: &mut Stack<'a, 'b>,
        sink: &mut S,
        first: &mut bool,
    ) -> Result<(), AllocError>
        ensures { OnOk result (ArePassed S.takes (surroundings_value self.now)
            first.old first.new sink.old sink.new list.old list.new) }
    {
        let source = list.source();
        let passed = self.ordinary_count(source);
        sink.take_source(&source[..passed], *first)?;
        *first = *first && passed == 0;
        list.skip(passed);
        Ok(())
    }

    /// Hands on the ordinary tokens at the front of a list that replacements have put there: most tokens of bodies are such.
    fn hand_on_put<S: Sink>(
        &self,
        list: &mut Stack<'a, 'b>,
        sink: &mut S,
        first: &mut bool,
    ) -> Result<(), AllocError>
        ensures { OnOk result (ArePassed S.takes (surroundings_value self.now)
            first.old first.new sink.old sink.new list.old list.new) }
    {
        while let Some(token) = list.front() {
            if !self.passes_alone(token) {
                return Ok(());
            }
            sink.take(item_ref(token), *first)?;
            *first = false;
            list.drop_front();
        }
        Ok(())
    }

    /// Hands on the ordinary tokens at the front of a list.
    fn hand_on_ordinary<S: Sink>(
        &self,
        list: &mut Stack<'a, 'b>,
        sink: &mut S,
        first: &mut bool,
    ) -> Result<(), AllocError>
        ensures { OnOk result (ArePassed S.takes (surroundings_value self.now)
            first.old first.new sink.old sink.new list.old list.new) }
    {
        self.hand_on_put(list, sink, first)?;
        self.hand_on_source(list, sink, first)?;
        Ok(())
    }

    /// Hands on what the list that is handed in has given, where no call waits, and the ordinary tokens at its front.
    #[inline(always)]
    fn hand_on_level<S: Sink>(
        &self,
        frames: &Frames<'a, 'b>,
        level: &mut Level<'a, 'b>,
        sink: &mut S,
        first: &mut bool,
    ) -> Result<(), AllocError>
        ensures { OnOk result (IsHandedOn S.takes (surroundings_value self.now)
            first.old first.new sink.old sink.new frames.now level.old level.new) }
    {
        if !frames.is_empty() {
            return Ok(());
        }
        hand_on(&level.out, sink, first)?;
        level.out.clear();
        self.hand_on_ordinary(&mut level.list, sink, first)?;
        Ok(())
    }

    /// Expands a list that is handed in, and hands each token on as soon as it is known.
    pub(crate) fn stream<S: Sink>(
        &self,
        work: &mut Work<'a>,
        list: Stack<'a, 'b>,
        sink: &mut S,
    ) -> Result<(), ExpandFault>
        requires { AreKnown (size work.old.sets) list }
        ensures over { OnOk result (IsOver S.takes (surroundings_value self.now)
            work.old work.new list.entry sink.old sink.new) }
        ensures fault { IfErr result (λ fault. fault ≢ ExpandFault.NoMemory →
            IsStopped S.takes (surroundings_value self.now) work.old list.entry sink.old sink.new fault) }
    {
        let mut frames = Frames::new(self.alloc);
        let mut level = Level {
            deeper: levels_above(),
            list,
            out: Vec::new(self.alloc),
        };
        let mut first = true;
        while self.step(work, &mut frames, &mut level)? {
            self.hand_on_level(&frames, &mut level, sink, &mut first)?;
        }
        Ok(())
    }
}
