//! Expansions whose faults stop the preprocessing.
ghost use Rattle.std.specs.Prelude.{◌≡◌, ◌++◌, [], List, false, true, None, Ok, Err, map, option_map, OnOk, IfOk, IfErr, OnErr};
ghost use Rattle.inc_token.specs.Views.{seen};
ghost use Rattle.inc_macro.specs.Tables.{table_of};
ghost use Rattle.inc_expand.specs.Expansion.{Item as ItemSeen};
ghost use Rattle.inc_expand.specs.HeldTokens.{seen_ref};
ghost use Rattle.inc_expand.specs.Items.{seen_item};
ghost use Rattle.inc_expand.specs.Places.{place_value};
ghost use Rattle.inc_expand.specs.Sinks.{seen_ref as seen_item_ref};
ghost use Rattle.inc_pp.specs.OpenCalls.{open_in_call};
ghost use Rattle.inc_pp.specs.Operators.{Grows, marks_in, outcome};
ghost use Rattle.inc_pp.specs.Pragmas.{before, laid};
ghost use Rattle.inc_pp.specs.Steps.{expansion_at, fitting, fitting_open, laid_at, open_expansion_at, opened_at};
ghost use Rattle.inc_pp.specs.Stops.{IfStop};
ghost use Rattle.inc_pp.specs.Tasks.{OutToken, line_tokens};

use crate::causes::Cause;
use crate::faults::Break;
use crate::measures::{check_expanded, check_items};
use crate::operators::Operators;
use crate::output::Output;
use crate::waiting::Open;
use inc_expand::{
    Budget, ExpandFault, HeldRef, Item, ItemRef, Mode, Place, Sink, expand, expand_into,
    expand_open,
};
use inc_macro::Macros;
use inc_token::Token;
use std::alloc::{AllocError, Global};
use std::mem::replace;

/// What the expansion of tokens reads.
#[derive(Clone, Copy)]
pub(crate) struct Around<'a> {
    pub(crate) alloc: Global,
    pub(crate) seed: u64,
    pub(crate) macros: &'a Macros,
    pub(crate) place: Place<'a>,
    /// The physical line at which a fault stops the preprocessing.
    pub(crate) line: u32,
}

/// Expands tokens of text, of an include directive or of a `#line`.
pub(crate) fn expanded<'a>(
    around: &Around<'a>,
    tokens: &[Token<'a>],
    budget: &mut Budget,
) -> Result<Vec<Item<'a>>, Break>
    ensures done { IfOk result (λ items.
        expansion_at (place_value around.now.place) (table_of around.now.macros.now) budget.old (map seen tokens.now)
        ≡ Ok (map seen_item items.items, budget.new)) }
    ensures stop { IfErr result (λ fault. IfStop fault (λ line cause. (line ≡ around.now.line)
        × (expansion_at (place_value around.now.place) (table_of around.now.macros.now) budget.old
        (map seen tokens.now) ≡ Err cause))) }
    ensures left { OnErr result (budget.new ≡ budget.old) }
{
    match expand(
        around.alloc,
        tokens,
        around.macros,
        around.seed,
        Mode::Plain,
        &around.place,
        budget,
    ) {
        Ok(items) => Ok(items),
        Err(ExpandFault::NoMemory) => Err(Break::NoMemory),
        Err(fault) => Err(Break::Stop {
            line: around.line,
            cause: Cause::Expand(fault),
        }),
    }
}

/// Expands tokens of text, and puts out what they give: one line, or several where pragmas are among them. It answers whether one of these
/// has the file at hand read once. Where there is a fault, or the text of all that is put out would be too long, nothing is put out.
/// `marks`: where the tokens are, if lines are marked. `most`: how many bytes the text has at most, if there is a limit.
pub(crate) fn put_expanded<'a>(
    around: &Around<'a>,
    marks: Option<Place<'a>>,
    tokens: &[Token<'a>],
    budget: &mut Budget,
    output: &mut Output,
    most: Option<u64>,
) -> Result<bool, Break>
    ensures done { IfOk result (λ once. (out : List OutToken) × (output.new ≡ output.old ++ out)
        × (fitting most output.old (laid_at (option_map place_value marks.entry) (place_value around.now.place) (table_of around.now.macros.now) budget.old (map seen tokens.now))
        ≡ Ok (record { tokens = out; once = once }, budget.new))) }
    ensures stop { IfErr result (λ fault. IfStop fault (λ line cause. (line ≡ around.now.line)
        × (output.new ≡ output.old)
        × (fitting most output.old (laid_at (option_map place_value marks.entry) (place_value around.now.place) (table_of around.now.macros.now) budget.old (map seen tokens.now))
        ≡ Err cause))) }
    ensures left { OnErr result (budget.new ≡ budget.old) }
{
    check_expanded(around, marks, tokens, budget, output, most)?;
    let once = put_unbounded(around, marks, tokens, budget, output)?;
    Ok(once)
}

/// The same without a limit.
fn put_unbounded<'a>(
    around: &Around<'a>,
    marks: Option<Place<'a>>,
    tokens: &[Token<'a>],
    budget: &mut Budget,
    output: &mut Output,
) -> Result<bool, Break>
    ensures done { IfOk result (λ once. (out : List OutToken) × (output.new ≡ output.old ++ out)
        × (laid_at (option_map place_value marks.entry) (place_value around.now.place) (table_of around.now.macros.now) budget.old (map seen tokens.now)
        ≡ Ok (record { tokens = out; once = once }, budget.new))) }
    ensures stop { IfErr result (λ fault. IfStop fault (λ line cause. (line ≡ around.now.line)
        × (output.new ≡ output.old)
        × (laid_at (option_map place_value marks.entry) (place_value around.now.place) (table_of around.now.macros.now) budget.old (map seen tokens.now)
        ≡ Err cause))) }
    ensures left { OnErr result (budget.new ≡ budget.old) }
{
    if marks.is_some() || around.macros.language().is_gnu() {
        let once = put_operated(around, marks, tokens, budget, output)?;
        return Ok(once);
    }
    put_plain(around, tokens, budget, output)?;
    Ok(false)
}

/// Expands tokens of text, and puts them out as one line: none of them is an operator. Where there is a fault, nothing is put out.
fn put_plain<'a>(
    around: &Around<'a>,
    tokens: &[Token<'a>],
    budget: &mut Budget,
    output: &mut Output,
) -> Result<(), Break>
    ensures done { OnOk result ((items : List ItemSeen) × (output.new ≡ output.old ++ line_tokens true items)
        × (expansion_at (place_value around.now.place) (table_of around.now.macros.now) budget.old
        (map seen tokens.now)
        ≡ Ok (items, budget.new))) }
    ensures stop { IfErr result (λ fault. IfStop fault (λ line cause. (line ≡ around.now.line)
        × (output.new ≡ output.old)
        × (expansion_at (place_value around.now.place) (table_of around.now.macros.now) budget.old
        (map seen tokens.now) ≡ Err cause))) }
    ensures left { OnErr result (budget.new ≡ budget.old) }
{
    let count = output.count();
    match expand_into(
        around.alloc,
        tokens,
        around.macros,
        around.seed,
        &around.place,
        budget,
        output,
    ) {
        Ok(()) => Ok(()),
        Err(ExpandFault::NoMemory) => Err(Break::NoMemory),
        Err(fault) => {
            output.truncate(count);
            Err(Break::Stop {
                line: around.line,
                cause: Cause::Expand(fault),
            })
        }
    }
}

/// The same where lines are marked, or in GNU C, where `_Pragma` is an operator.
fn put_operated<'a>(
    around: &Around<'a>,
    marks: Option<Place<'a>>,
    tokens: &[Token<'a>],
    budget: &mut Budget,
    output: &mut Output,
) -> Result<bool, Break>
    ensures done { IfOk result (λ once. (out : List OutToken) × (output.new ≡ output.old ++ out)
        × (laid_at (option_map place_value marks.entry) (place_value around.now.place) (table_of around.now.macros.now) budget.old (map seen tokens.now)
        ≡ Ok (record { tokens = out; once = once }, budget.new))) }
    ensures stop { IfErr result (λ fault. IfStop fault (λ line cause. (line ≡ around.now.line)
        × (output.new ≡ output.old)
        × (laid_at (option_map place_value marks.entry) (place_value around.now.place) (table_of around.now.macros.now) budget.old (map seen tokens.now)
        ≡ Err cause))) }
    ensures left { OnErr result (budget.new ≡ budget.old) }
{
    let already = output.count();
    let mut left = *budget;
    let before = replace(output, Output::empty(around.alloc));
    let mut operators = Operators::new(around.alloc, around.macros.language(), marks, before);
    let result = operated(around, tokens, &mut left, &mut operators);
    *output = operators.output;
    match result {
        Ok(once) => {
            *budget = left;
            Ok(once)
        }
        Err(fault) => {
            output.truncate(already);
            Err(fault)
        }
    }
}

/// Expands tokens of text, and hands them on. It answers whether a pragma has the file at hand read once.
fn operated<'a>(
    around: &Around<'a>,
    tokens: &[Token<'a>],
    budget: &mut Budget,
    operators: &mut Operators<'a>,
) -> Result<bool, Break>
    requires { (is : List ItemSeen) → outcome operators.old is
        ≡ before (record { tokens = operators.old.output; once = false }) (laid (table_of around.now.macros.now).language (marks_in operators.old) None is) }
    ensures done { IfOk result (λ once. (out : List OutToken) × (operators.new.output ≡ operators.old.output ++ out)
        × (laid_at (marks_in operators.old) (place_value around.now.place) (table_of around.now.macros.now) budget.old (map seen tokens.now)
        ≡ Ok (record { tokens = out; once = once }, budget.new))) }
    ensures stop { IfErr result (λ fault. IfStop fault (λ line cause. (line ≡ around.now.line)
        × Grows operators.old.output operators.new.output
        × (laid_at (marks_in operators.old) (place_value around.now.place) (table_of around.now.macros.now) budget.old (map seen tokens.now)
        ≡ Err cause))) }
{
    match expand_into(
        around.alloc,
        tokens,
        around.macros,
        around.seed,
        &around.place,
        budget,
        operators,
    ) {
        Ok(()) => match operators.finish() {
            Ok(once) => Ok(once),
            Err(cause) => Err(Break::Stop {
                line: around.line,
                cause,
            }),
        },
        Err(ExpandFault::NoMemory) => Err(Break::NoMemory),
        Err(fault) => Err(Break::Stop {
            line: around.line,
            cause: Cause::Expand(fault),
        }),
    }
}

/// Expands tokens that wait and those of text lines as one list, up to the call that is open at its end, and puts out what is before that. It answers
/// whether a pragma has the file at hand read once, and gives the call. Where there is a fault, or the text of all that is put out would be too
/// long, nothing is put out.
pub(crate) fn put_open<'a>(
    around: &Around<'a>,
    marks: Option<Place<'a>>,
    waiting: &[HeldRef<'a>],
    tokens: &[Token<'a>],
    budget: &mut Budget,
    output: &mut Output,
    most: Option<u64>,
) -> Result<(bool, Open), Break>
    ensures done { IfOk result (λ r. (out : List OutToken) × (output.new ≡ output.old ++ out)
        × (fitting_open most output.old (opened_at (option_map place_value marks.entry) (place_value around.now.place) (table_of around.now.macros.now) budget.old
        (map seen_ref waiting.now) (map seen tokens.now))
        ≡ Ok (record { tokens = out; once = r.0 }, r.1.waiting, budget.new))) }
    ensures deep { IfOk result (λ r. r.1.deep ≡ open_in_call r.1.waiting) }
    ensures stop { IfErr result (λ fault. IfStop fault (λ line cause. (line ≡ around.now.line)
        × (output.new ≡ output.old)
        × (fitting_open most output.old (opened_at (option_map place_value marks.entry) (place_value around.now.place) (table_of around.now.macros.now) budget.old
        (map seen_ref waiting.now) (map seen tokens.now)) ≡ Err cause))) }
    ensures left { OnErr result (budget.new ≡ budget.old) }
{
    let mut left = *budget;
    let (items, held) = opened(around, waiting, tokens, &mut left)?;
    let given = &*items;
    check_items(around, marks, given, output, most)?;
    let once = put_items(around, marks, given, output)?;
    *budget = left;
    Ok((once, held))
}

/// Expands tokens that wait and those of text lines as one list, up to the call that is open at its end.
fn opened<'a>(
    around: &Around<'a>,
    waiting: &[HeldRef<'a>],
    tokens: &[Token<'a>],
    budget: &mut Budget,
) -> Result<(Vec<Item<'a>>, Open), Break>
    ensures done { IfOk result (λ r.
        open_expansion_at (place_value around.now.place) (table_of around.now.macros.now) budget.old (map seen_ref waiting.now) (map seen tokens.now)
        ≡ Ok (map seen_item r.0.items, r.1.waiting, budget.new)) }
    ensures deep { IfOk result (λ r. r.1.deep ≡ open_in_call r.1.waiting) }
    ensures stop { IfErr result (λ fault. IfStop fault (λ line cause. (line ≡ around.now.line)
        × (open_expansion_at (place_value around.now.place) (table_of around.now.macros.now) budget.old (map seen_ref waiting.now) (map seen tokens.now) ≡ Err cause))) }
{
    match expand_open(
        around.alloc,
        waiting,
        tokens,
        around.macros,
        around.seed,
        &around.place,
        budget,
    ) {
        Ok((items, call)) => {
            let held = Open::of_call(around.alloc, &call)?;
            Ok((items, held))
        }
        Err(ExpandFault::NoMemory) => Err(Break::NoMemory),
        Err(fault) => Err(Break::Stop {
            line: around.line,
            cause: Cause::Expand(fault),
        }),
    }
}

/// Puts expanded tokens out. It answers whether a pragma has the file at hand read once. Where there is a fault, nothing is put out.
fn put_items<'a>(
    around: &Around<'a>,
    marks: Option<Place<'a>>,
    items: &[Item<'_>],
    output: &mut Output,
) -> Result<bool, Break>
    ensures done { IfOk result (λ once. (out : List OutToken) × (output.new ≡ output.old ++ out)
        × (laid (table_of around.now.macros.now).language (option_map place_value marks.entry) None (map seen_item items.now) ≡ Ok (record { tokens = out; once = once }))) }
    ensures stop { IfErr result (λ fault. IfStop fault (λ line cause. (line ≡ around.now.line)
        × (output.new ≡ output.old)
        × (laid (table_of around.now.macros.now).language (option_map place_value marks.entry) None (map seen_item items.now) ≡ Err cause))) }
{
    let already = output.count();
    let before = replace(output, Output::empty(around.alloc));
    let mut operators = Operators::new(around.alloc, around.macros.language(), marks, before);
    let result = take_items(around.line, items, &mut operators);
    *output = operators.output;
    match result {
        Ok(once) => Ok(once),
        Err(fault) => {
            output.truncate(already);
            Err(fault)
        }
    }
}

/// Hands expanded tokens on. It answers whether a pragma has the file at hand read once.
fn take_items(line: u32, items: &[Item<'_>], operators: &mut Operators<'_>) -> Result<bool, Break>
    ensures done { IfOk result (λ once. (outcome operators.old (map seen_item items.now)
        ≡ Ok (record { tokens = operators.new.output; once = once })) × Grows operators.old.output operators.new.output) }
    ensures stop { IfErr result (λ fault. IfStop fault (λ at cause. (at ≡ line)
        × Grows operators.old.output operators.new.output
        × (outcome operators.old (map seen_item items.now) ≡ Err cause))) }
{
    take_all(items, operators)?;
    match operators.finish() {
        Ok(once) => Ok(once),
        Err(cause) => Err(Break::Stop { line, cause }),
    }
}

/// Hands expanded tokens on, one after the other.
fn take_all(items: &[Item<'_>], operators: &mut Operators<'_>) -> Result<(), AllocError>
    ensures same { OnOk result (outcome operators.new [] ≡ outcome operators.old (map seen_item items.now)) }
    ensures grows { OnOk result (Grows operators.old.output operators.new.output) }
{
    let mut left = items;
    while let [item, rest @ ..] = left {
        operators.take(item_ref(item), false)?;
        left = rest;
    }
    Ok(())
}

/// An expanded token, lent.
pub(crate) fn item_ref<'t>(item: &'t Item<'_>) -> ItemRef<'t>
    ensures { seen_item_ref result ≡ seen_item item.now }
{
    ItemRef {
        kind: item.kind,
        bytes: item.spelling.bytes(),
        line: item.line,
        space: item.space,
    }
}
