//! Tokens joined by `##`, from left to right (ISO/IEC 9899:2018, 6.10.3.3).
ghost use Rattle.std.specs.Prelude.{◌≡◌, ◌≢◌, ◌<◌, ◌≤◌, ◌∷◌, [], ◌++◌, ℕ, List, length, map, true, false, None, Some, Ok, Err, IfOk, IfErr, OnOk, IfSome, option_map, option_to_list};
ghost use Rattle.inc_token.specs.Spellings.{class_of};
ghost use Rattle.inc_expand.specs.Sets.{Sets, size, holds, Keeps};
ghost use Rattle.inc_expand.specs.Expansion.{Carrier, Part, Piece, Paste, as_part, hidden_by_paste, operand, spaced, pasted, paste_from, tokens_of, made_kind, spoken};
ghost use Rattle.inc_expand.specs.Carriers.{carrier, carriers, AreKnown};
ghost use Rattle.inc_expand.specs.Lent.{lent_tokens};
ghost use Rattle.inc_expand.specs.Joins.{tokens_in, before_of, put_before, rest_of, IsKnown, IsKnownBefore, IsOpened};

use crate::carried::{Bytes, Carried};
use crate::faults::ExpandFault;
use crate::hide_sets::{HideSets, SetId};
use crate::lent::Lent;
use crate::rules::Rule;
use crate::strings::LONGEST;
use bumpalo::Bump;
use inc_token::{Kind, kind_of};
use std::alloc::{AllocError, Global};

/// Some tokens of a replacement: one, or those of an argument, which are not copied.
#[derive(Clone, Copy)]
pub(crate) enum Segment<'s, 'a, 'b> {
    One(Carried<'a, 'b>),
    Several(Lent<'s, 'a, 'b>),
}

/// What is before the place of a walk over a replacement.
#[derive(Clone, Copy)]
pub(crate) enum LeftSide<'a, 'b> {
    /// Nothing, or a placemarker.
    Nothing,
    Whole(Carried<'a, 'b>),
    /// A token that `##` made, whose bytes are those of the joiner.
    Made { set: SetId, kind: Kind, space: bool },
}

/// The class of the bytes of a token that `##` makes.
fn made_class(rule: Rule, text: &[u8]) -> Option<Kind>
    ensures { result ≡ class_of (spoken rule) text.now }
{
    kind_of(rule.language(), text)
}

/// Adds bytes to those of a token, and gives the class of them all.
fn lengthen(rule: Rule, text: &mut Vec<u8>, bytes: &[u8]) -> Result<Kind, ExpandFault>
    ensures kind { IfOk result (λ kind. made_kind rule (text.old.items ++ bytes.now) ≡ Ok kind) }
    ensures text { OnOk result (text.new.items ≡ text.old.items ++ bytes.now) }
    ensures fault { IfErr result (λ fault. fault ≢ ExpandFault.NoMemory
        → made_kind rule (text.old.items ++ bytes.now) ≡ Err fault) }
{
    if bytes.len() > LONGEST || text.len() > LONGEST - bytes.len() {
        return Err(ExpandFault::TokenTooLong);
    }
    text.extend_from_slice(bytes)?;
    match made_class(rule, text) {
        Some(kind) => Ok(kind),
        None => Err(ExpandFault::BadPaste),
    }
}

/// Adds a token, where there is one.
fn push_one<'s, 'a, 'b>(
    done: &mut Vec<Segment<'s, 'a, 'b>>,
    token: Option<Carried<'a, 'b>>,
) -> Result<(), ExpandFault>
    ensures tokens { OnOk result (tokens_in done.new.items
        ≡ tokens_in done.old.items ++ option_to_list token.entry) }
    ensures fault { IfErr result (λ fault. fault ≡ ExpandFault.NoMemory) }
{
    match token {
        Some(token) => {
            done.push(Segment::One(token))?;
            Ok(())
        }
        None => Ok(()),
    }
}

/// What a token hides that `##` makes of two which hide these.
#[inline(always)]
fn set_of_paste<'a>(
    rule: Rule,
    sets: &mut HideSets<'a>,
    a: SetId,
    b: SetId,
) -> Result<SetId, AllocError>
    requires a { a < size sets.old }
    requires b { b < size sets.old }
    ensures keeps { Keeps sets.old sets.new }
    ensures known { IfOk result (λ r. r < size sets.new) }
    ensures members { IfOk result (λ r. (n : List ℕ) → holds sets.new r n
        ≡ hidden_by_paste rule (holds sets.old a) (holds sets.old b) n) }
{
    match rule {
        Rule::BySets => sets.meet(a, b),
        Rule::ByContexts => Ok(HideSets::empty()),
    }
}

/// A walk over the parts of a replacement that does each `##` on the way.
#[derive(Drop)]
pub(crate) struct Joiner<'s, 'a, 'b> {
    alloc: Global,
    arena: &'b Bump,
    rule: Rule,
    done: Vec<Segment<'s, 'a, 'b>>,
    before: LeftSide<'a, 'b>,
    /// A `##` is right before the place.
    joins: bool,
    /// The bytes of a token that `##` made: it grows with each further `##`.
    text: Vec<u8>,
}

impl<'s, 'a, 'b> Joiner<'s, 'a, 'b> {
    /// A walk that begins, with room for so many segments.
    pub(crate) fn new(
        alloc: Global,
        arena: &'b Bump,
        rule: Rule,
        room: usize,
    ) -> Result<Joiner<'s, 'a, 'b>, AllocError>
        ensures rest { (s : Sets) (parts : List Part) → IfOk result (λ joiner. rest_of s joiner parts
            ≡ put_before [] (paste_from rule false None parts)) }
        ensures known { (n : ℕ) → IfOk result (λ joiner. IsKnown n joiner) }
    {
        let done = Vec::with_capacity(alloc, room)?;
        Ok(Joiner {
            alloc,
            arena,
            rule,
            done,
            before: LeftSide::Nothing,
            joins: false,
            text: Vec::new(alloc),
        })
    }

    /// Passes a `##`.
    pub(crate) fn paste(&mut self)
        ensures rest { (s : Sets) (parts : List Part) → rest_of s self.new parts
            ≡ rest_of s self.old (Paste ∷ parts) }
        ensures known { (n : ℕ) → IsKnown n self.old → IsKnown n self.new }
    {
        self.joins = true;
    }

    /// The token before the place.
    fn last(&self) -> Result<Option<Carried<'a, 'b>>, ExpandFault>
        ensures token { (s : Sets) → IfOk result (λ last. option_map (carrier s) last
            ≡ before_of s self.now.text.items self.now.before) }
        ensures known { (n : ℕ) → IsKnownBefore n self.now.before
            → IfOk result (λ last. IfSome last (λ t. t.set < n)) }
        ensures fault { IfErr result (λ fault. fault ≡ ExpandFault.NoMemory) }
    {
        match self.before {
            LeftSide::Nothing => Ok(None),
            LeftSide::Whole(token) => Ok(Some(token)),
            LeftSide::Made { set, kind, space } => {
                let bytes = self.arena.try_alloc_slice_copy(&self.text)?;
                Ok(Some(Carried {
                    text: Bytes::Made(bytes),
                    line: 0,
                    set,
                    kind,
                    space,
                }))
            }
        }
    }

    /// Leaves what is before the place as it is.
    fn settle(&mut self) -> Result<(), ExpandFault>
        ensures done { (s : Sets) → OnOk result (carriers s (tokens_in self.new.done.items)
            ≡ carriers s (tokens_in self.old.done.items)
            ++ tokens_of (before_of s self.old.text.items self.old.before)) }
        ensures before { OnOk result (self.new.before ≡ LeftSide.Nothing) }
        ensures joins { OnOk result (self.new.joins ≡ self.old.joins) }
        ensures rule { OnOk result (self.new.rule ≡ self.old.rule) }
        ensures known { (n : ℕ) → IsKnown n self.old → OnOk result (IsKnown n self.new) }
        ensures fault { IfErr result (λ fault. fault ≡ ExpandFault.NoMemory) }
    {
        let last = self.last()?;
        push_one(&mut self.done, last)?;
        self.before = LeftSide::Nothing;
        Ok(())
    }

    /// Makes the bytes those of the token before the place, and gives its set and whether white space is before it.
    fn opened(&mut self) -> Result<Option<(SetId, bool)>, ExpandFault>
        ensures opened { (s : Sets) → IfOk result
            (IsOpened s self.new.text.items (before_of s self.old.text.items self.old.before)) }
        ensures same { self.new ≡ record self.old { text = self.new.text } }
        ensures known { (n : ℕ) → IsKnownBefore n self.old.before
            → IfOk result (λ r. IfSome r (λ p. p.0 < n)) }
        ensures fault { (s : Sets) (b : Carrier)
            → IfErr result (λ fault. fault ≢ ExpandFault.NoMemory
            → pasted self.old.rule (before_of s self.old.text.items self.old.before) (Some b) ≡ Err fault) }
    {
        match self.before {
            LeftSide::Nothing => Ok(None),
            LeftSide::Whole(token) => {
                if token.bytes().len() > LONGEST {
                    return Err(ExpandFault::TokenTooLong);
                }
                self.text.clear();
                self.text.extend_from_slice(token.bytes())?;
                Ok(Some((token.set, token.space)))
            }
            LeftSide::Made { set, space, .. } => Ok(Some((set, space))),
        }
    }

    /// Joins what is before the place with a token.
    fn join(&mut self, sets: &mut HideSets<'a>, token: Carried<'a, 'b>) -> Result<(), ExpandFault>
        requires known { IsKnown (size sets.old) self.old }
        requires token { token.set < size sets.old }
        ensures keeps { Keeps sets.old sets.new }
        ensures pasted { OnOk result (pasted self.old.rule
            (before_of sets.old self.old.text.items self.old.before) (Some (carrier sets.old token.entry))
            ≡ Ok (before_of sets.new self.new.text.items self.new.before)) }
        ensures done { OnOk result (self.new.done ≡ self.old.done) }
        ensures joins { OnOk result (self.new.joins ≡ self.old.joins) }
        ensures rule { OnOk result (self.new.rule ≡ self.old.rule) }
        ensures known { OnOk result (IsKnown (size sets.new) self.new) }
        ensures fault { IfErr result (λ fault. fault ≢ ExpandFault.NoMemory
            → pasted self.old.rule (before_of sets.old self.old.text.items self.old.before)
            (Some (carrier sets.old token.entry)) ≡ Err fault) }
    {
        let Some((set, space)) = self.opened()? else {
            self.before = LeftSide::Whole(token);
            return Ok(());
        };
        let kind = lengthen(self.rule, &mut self.text, token.bytes())?;
        let set = set_of_paste(self.rule, sets, set, token.set)?;
        self.before = LeftSide::Made { set, kind, space };
        Ok(())
    }

    /// Passes a token.
    pub(crate) fn token(
        &mut self,
        sets: &mut HideSets<'a>,
        token: Carried<'a, 'b>,
    ) -> Result<(), ExpandFault>
        requires known { IsKnown (size sets.old) self.old }
        requires token { token.set < size sets.old }
        ensures keeps { Keeps sets.old sets.new }
        ensures rest { (parts : List Part) → OnOk result (rest_of sets.new self.new parts
            ≡ rest_of sets.old self.old (as_part (carrier sets.old token.entry) ∷ parts)) }
        ensures joins { OnOk result (self.new.joins ≡ false) }
        ensures known { OnOk result (IsKnown (size sets.new) self.new) }
        ensures fault { (parts : List Part) → IfErr result (λ fault. fault ≢ ExpandFault.NoMemory
            → rest_of sets.old self.old (as_part (carrier sets.old token.entry) ∷ parts)
            ≡ Err fault) }
    {
        if self.joins {
            self.joins = false;
            self.join(sets, token)?;
            return Ok(());
        }
        self.settle()?;
        self.before = LeftSide::Whole(token);
        Ok(())
    }

    /// Passes a placemarker.
    pub(crate) fn placemarker(&mut self) -> Result<(), ExpandFault>
        ensures rest { (s : Sets) (parts : List Part) → OnOk result (rest_of s self.new parts
            ≡ rest_of s self.old (Piece None ∷ parts)) }
        ensures known { (n : ℕ) → IsKnown n self.old → OnOk result (IsKnown n self.new) }
        ensures fault { IfErr result (λ fault. fault ≡ ExpandFault.NoMemory) }
    {
        if self.joins {
            self.joins = false;
            return Ok(());
        }
        self.settle()?;
        Ok(())
    }

    /// Passes tokens that no `##` is before.
    fn run(&mut self, tokens: Lent<'s, 'a, 'b>) -> Result<(), ExpandFault>
        requires joins { self.old.joins ≡ false }
        ensures rest { (s : Sets) (parts : List Part) → OnOk result (rest_of s self.new parts
            ≡ rest_of s self.old (map as_part (carriers s (lent_tokens tokens.entry)) ++ parts)) }
        ensures known { (n : ℕ) → IsKnown n self.old → AreKnown n (lent_tokens tokens.entry)
            → OnOk result (IsKnown n self.new) }
        ensures fault { IfErr result (λ fault. fault ≡ ExpandFault.NoMemory) }
    {
        let len = tokens.len();
        if len == 0 {
            return Ok(());
        }
        self.settle()?;
        self.done.push(Segment::Several(tokens.front(len - 1)))?;
        self.before = LeftSide::Whole(tokens.at(len - 1));
        Ok(())
    }

    /// Passes the tokens of an argument, the first of them with this white space before it.
    pub(crate) fn argument(
        &mut self,
        sets: &mut HideSets<'a>,
        space: bool,
        tokens: Lent<'s, 'a, 'b>,
    ) -> Result<(), ExpandFault>
        requires known { IsKnown (size sets.old) self.old }
        requires tokens { AreKnown (size sets.old) (lent_tokens tokens) }
        ensures keeps { Keeps sets.old sets.new }
        ensures rest { (parts : List Part) → OnOk result (rest_of sets.new self.new parts
            ≡ rest_of sets.old self.old (map as_part (spaced space (carriers sets.old (lent_tokens tokens.entry))) ++ parts)) }
        ensures known { OnOk result (IsKnown (size sets.new) self.new) }
        ensures fault { (parts : List Part) → IfErr result (λ fault. fault ≢ ExpandFault.NoMemory
            → rest_of sets.old self.old (map as_part (spaced space (carriers sets.old (lent_tokens tokens.entry)))
            ++ parts) ≡ Err fault) }
    {
        let len = tokens.len();
        if len == 0 {
            return Ok(());
        }
        let mut first = tokens.at(0);
        first.space = space;
        self.token(sets, first)?;
        self.run(tokens.behind(1))?;
        Ok(())
    }

    /// Passes the tokens of an argument beside `##`: one without tokens is a placemarker.
    pub(crate) fn operand(
        &mut self,
        sets: &mut HideSets<'a>,
        space: bool,
        tokens: Lent<'s, 'a, 'b>,
    ) -> Result<(), ExpandFault>
        requires known { IsKnown (size sets.old) self.old }
        requires tokens { AreKnown (size sets.old) (lent_tokens tokens) }
        ensures keeps { Keeps sets.old sets.new }
        ensures rest { (parts : List Part) → OnOk result (rest_of sets.new self.new parts
            ≡ rest_of sets.old self.old (operand (spaced space (carriers sets.old (lent_tokens tokens.entry))) ++ parts)) }
        ensures known { OnOk result (IsKnown (size sets.new) self.new) }
        ensures fault { (parts : List Part) → IfErr result (λ fault. fault ≢ ExpandFault.NoMemory
            → rest_of sets.old self.old (operand (spaced space (carriers sets.old (lent_tokens tokens.entry))) ++ parts) ≡ Err fault) }
    {
        let len = tokens.len();
        if len == 0 {
            self.placemarker()?;
            return Ok(());
        }
        self.argument(sets, space, tokens)?;
        Ok(())
    }

    /// All tokens, without placemarkers.
    pub(crate) fn finish(mut self) -> Result<Vec<Segment<'s, 'a, 'b>>, ExpandFault>
        ensures tokens { (s : Sets) → IfOk result (λ all. rest_of s self.entry []
            ≡ Ok (carriers s (tokens_in all.items))) }
        ensures known { (n : ℕ) → IsKnown n self.entry
            → IfOk result (λ all. AreKnown n (tokens_in all.items)) }
        ensures fault { IfErr result (λ fault. fault ≡ ExpandFault.NoMemory) }
    {
        self.settle()?;
        let Joiner {
            alloc: _,
            arena: _,
            rule: _,
            done,
            before: _,
            joins: _,
            text: _,
        } = self;
        Ok(done)
    }
}
