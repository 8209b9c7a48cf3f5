//! How long the text of a run is, before any of it is put out.
ghost use Rattle.std.specs.Prelude.{◌≡◌, ◌+◌, [], List, None, Ok, Err, nat_lt, map, option_map, OnOk, IfOk, IfErr};
ghost use Rattle.inc_token.specs.Views.{seen};
ghost use Rattle.inc_macro.specs.Tables.{table_of};
ghost use Rattle.inc_expand.specs.Expansion.{Item as ItemSeen};
ghost use Rattle.inc_expand.specs.Items.{seen_item};
ghost use Rattle.inc_expand.specs.Places.{place_value};
ghost use Rattle.inc_pp.specs.Measures.{length_after, measured, text_length};
ghost use Rattle.inc_pp.specs.Pragmas.{laid};
ghost use Rattle.inc_pp.specs.Steps.{fitting, laid_at, short_of};
ghost use Rattle.inc_pp.specs.Stops.{IfStop};

use crate::causes::Cause;
use crate::expansions::{Around, item_ref};
use crate::faults::Break;
use crate::operators::{Operators, source_ref};
use crate::output::Output;
use inc_expand::{Budget, ExpandFault, Item, ItemRef, Place, Sink, expand_into};
use inc_text::Language;
use inc_token::Token;
use std::alloc::{AllocError, Global};

/// Expanded tokens that are taken one after the other, of whose text the length alone is kept.
#[derive(Drop)]
pub(crate) struct Measure<'p> {
    /// What they put out, of which nothing stays but that of the last one.
    operators: Operators<'p>,
    /// How many bytes the text before that has.
    bytes: u64,
}

impl<'p> Measure<'p> {
    /// No token.
    fn new(alloc: Global, language: Language, marks: Option<Place<'p>>) -> Measure<'p>
        ensures { (is : List ItemSeen) → measured result is
            ≡ length_after 0 (laid language (option_map place_value marks.entry) None is) }
    {
        Measure {
            operators: Operators::new(alloc, language, marks, Output::empty(alloc)),
            bytes: 0,
        }
    }

    /// Counts what was put out, and lets it go.
    fn count(&mut self) -> Result<(), AllocError>
        ensures same { OnOk result ((is : List ItemSeen) → measured self.new is ≡ measured self.old is) }
        ensures none { OnOk result (self.new.operators.output ≡ []) }
    {
        // No memory holds the text of so many tokens.
        let Some(bytes) = self
            .bytes
            .checked_add(self.operators.output.text().len() as u64)
        else {
            return Err(AllocError);
        };
        self.operators.output.truncate(0);
        self.bytes = bytes;
        Ok(())
    }

    /// The length of the text, where no more tokens come. `line`: the physical line at which a fault of theirs stops the preprocessing.
    fn finish(&mut self, line: u32) -> Result<u64, Break>
        ensures done { IfOk result (λ bytes. measured self.old [] ≡ Ok bytes) }
        ensures stop { IfErr result (λ fault. IfStop fault (λ at cause. (at ≡ line) × (measured self.old [] ≡ Err cause))) }
    {
        self.count()?;
        match self.operators.finish() {
            Ok(_) => Ok(self.bytes),
            Err(cause) => Err(Break::Stop { line, cause }),
        }
    }
}

impl<'p> Sink for Measure<'p> {
    ghost use Rattle.inc_pp.specs.Measures.{takes_measured};

    ghost takes = { takes_measured };

    fn take(&mut self, token: ItemRef<'_>, first: bool) -> Result<(), AllocError> {
        self.operators.take(token, first)?;
        self.count()?;
        Ok(())
    }

    fn take_source(&mut self, tokens: &[Token<'_>], first: bool) -> Result<(), AllocError> {
        let mut is_first = first;
        for token in tokens {
            self.take(source_ref(token), is_first)?;
            is_first = false;
        }
        Ok(())
    }
}

/// How long the text of what tokens put out is, once they are expanded. No token of it is kept.
fn expanded_length<'a>(
    around: &Around<'a>,
    marks: Option<Place<'a>>,
    tokens: &[Token<'a>],
    budget: &Budget,
) -> Result<u64, Break>
    ensures done { IfOk result (λ bytes.
        text_length (laid_at (option_map place_value marks.entry) (place_value around.now.place) (table_of around.now.macros.now) budget.now (map seen tokens.now))
        ≡ Ok bytes) }
    ensures stop { IfErr result (λ fault. IfStop fault (λ line cause. (line ≡ around.now.line)
        × (laid_at (option_map place_value marks.entry) (place_value around.now.place) (table_of around.now.macros.now) budget.now (map seen tokens.now)
        ≡ Err cause))) }
{
    let mut left = *budget;
    let mut measure = Measure::new(around.alloc, around.macros.language(), marks);
    match expand_into(
        around.alloc,
        tokens,
        around.macros,
        around.seed,
        &around.place,
        &mut left,
        &mut measure,
    ) {
        Ok(()) => match measure.finish(around.line) {
            Ok(bytes) => Ok(bytes),
            Err(fault) => Err(fault),
        },
        Err(ExpandFault::NoMemory) => Err(Break::NoMemory),
        Err(fault) => Err(Break::Stop {
            line: around.line,
            cause: Cause::Expand(fault),
        }),
    }
}

/// How long the text of what expanded tokens put out is.
fn items_length<'a>(
    around: &Around<'a>,
    marks: Option<Place<'a>>,
    items: &[Item<'_>],
) -> Result<u64, Break>
    ensures done { IfOk result (λ bytes.
        length_after 0 (laid (table_of around.now.macros.now).language (option_map place_value marks.entry) None (map seen_item items.now)) ≡ Ok bytes) }
    ensures stop { IfErr result (λ fault. IfStop fault (λ line cause. (line ≡ around.now.line)
        × (laid (table_of around.now.macros.now).language (option_map place_value marks.entry) None (map seen_item items.now) ≡ Err cause))) }
{
    let mut measure = Measure::new(around.alloc, around.macros.language(), marks);
    measure_all(items, &mut measure)?;
    match measure.finish(around.line) {
        Ok(bytes) => Ok(bytes),
        Err(fault) => Err(fault),
    }
}

/// Hands expanded tokens on, one after the other.
fn measure_all(items: &[Item<'_>], measure: &mut Measure<'_>) -> Result<(), AllocError>
    ensures { OnOk result (measured measure.new [] ≡ measured measure.old (map seen_item items.now)) }
{
    let mut left = items;
    while let [item, rest @ ..] = left {
        measure.take(item_ref(item), false)?;
        left = rest;
    }
    Ok(())
}

/// Whether a text has no room for so many bytes more.
fn is_over(most: u64, already: usize, bytes: u64) -> bool
    ensures { result ≡ nat_lt most (already + bytes) }
{
    let already = already as u64;
    already > most || bytes > most - already
}

/// Stops where tokens would put out more than there is room for, once they are expanded, or where they have a fault. `most`: how many
/// bytes the text of all that is put out has at most, if there is a limit.
pub(crate) fn check_expanded<'a>(
    around: &Around<'a>,
    marks: Option<Place<'a>>,
    tokens: &[Token<'a>],
    budget: &Budget,
    output: &Output,
    most: Option<u64>,
) -> Result<(), Break>
    ensures fits { OnOk result (
        fitting most output.now (laid_at (option_map place_value marks.entry) (place_value around.now.place) (table_of around.now.macros.now) budget.now (map seen tokens.now))
        ≡ laid_at (option_map place_value marks.entry) (place_value around.now.place) (table_of around.now.macros.now) budget.now (map seen tokens.now)) }
    ensures stop { IfErr result (λ fault. IfStop fault (λ line cause. (line ≡ around.now.line)
        × (fitting most output.now (laid_at (option_map place_value marks.entry) (place_value around.now.place) (table_of around.now.macros.now) budget.now (map seen tokens.now))
        ≡ Err cause))) }
{
    let Some(most) = most else {
        return Ok(());
    };
    let bytes = expanded_length(around, marks, tokens, budget)?;
    if is_over(most, output.text().len(), bytes) {
        return Err(Break::Stop {
            line: around.line,
            cause: Cause::TooMuchOutput,
        });
    }
    Ok(())
}

/// The same of tokens that are expanded.
pub(crate) fn check_items<'a>(
    around: &Around<'a>,
    marks: Option<Place<'a>>,
    items: &[Item<'_>],
    output: &Output,
    most: Option<u64>,
) -> Result<(), Break>
    ensures fits { OnOk result (
        short_of most output.now (laid (table_of around.now.macros.now).language (option_map place_value marks.entry) None (map seen_item items.now))
        ≡ laid (table_of around.now.macros.now).language (option_map place_value marks.entry) None (map seen_item items.now)) }
    ensures stop { IfErr result (λ fault. IfStop fault (λ line cause. (line ≡ around.now.line)
        × (short_of most output.now (laid (table_of around.now.macros.now).language (option_map place_value marks.entry) None (map seen_item items.now))
        ≡ Err cause))) }
{
    let Some(most) = most else {
        return Ok(());
    };
    let bytes = items_length(around, marks, items)?;
    if is_over(most, output.text().len(), bytes) {
        return Err(Break::Stop {
            line: around.line,
            cause: Cause::TooMuchOutput,
        });
    }
    Ok(())
}
