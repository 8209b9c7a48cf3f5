//! The tokens of an expression, which are read as their expansion gives them.
ghost use Rattle.std.specs.Prelude.{◌≡◌, ◌≢◌, ◌<◌, ◌≤◌, false, true, List, [], ◌∷◌, ◌++◌, None, Some, Err, Ok, IfOk, IfErr, OnOk, nat_lt, if◌then◌else◌, drop, length, map};
ghost use Rattle.inc_token.specs.Views.{seen};
ghost use Rattle.inc_macro.specs.Tables.{table_of};
ghost use Rattle.inc_expand.specs.Expansion.{Item as SeenItem};
ghost use Rattle.inc_expand.specs.Items.{seen_item, spelling_bytes};
ghost use Rattle.inc_expand.specs.Sinks.{item_of_source, seen_ref};
ghost use Rattle.inc_cond.specs.Conditions.{value_of_items};
ghost use Rattle.inc_cond.specs.Known.{bounded};
ghost use Rattle.inc_cond.specs.Headers.{HeaderSearch};
ghost use Rattle.inc_cond.specs.Operands.{begins_question, first_symbol, given, outcome, unread, IsReady};
ghost use Rattle.inc_cond.specs.SymbolViews.{seen_taken};
ghost use Rattle.inc_cond.specs.Symbols.{asks, asks_header};
ghost use Rattle.inc_cond.specs.declared.questions.Question.{Question};

use crate::faults::CondFault;
use crate::headers::HeaderSearch;
use crate::known::{Known, MOST_NESTING};
use crate::questions::{Progress, Question};
use crate::symbols::{Symbol, are_enough, asks_header, is_asking, is_next_question, symbol_of};
use crate::values::Value;
use crate::walks::Walk;
use inc_expand::{Item, ItemRef, Sink, Spelling};
use inc_macro::Macros;
use inc_token::Token;
use std::alloc::{AllocError, Global};

/// The tokens of an expression, one after the other. None is kept, but for a `defined` and up to three tokens after it, until it is known
/// what it asks for, and the name of a header while it comes.
#[derive(Drop)]
pub struct Operands<'m> {
    alloc: Global,
    macros: &'m Macros,
    headers: &'m HeaderSearch<'m>,
    /// A question whether a header is found, of which tokens are still to come.
    question: Option<Question>,
    /// What is not read yet: nothing, or `defined` and what is after it.
    waiting: Vec<Item<'m>>,
    walk: Walk,
    /// The first constant that has no value. Once there is one, no later token counts.
    fault: Option<CondFault>,
}

impl<'m> Operands<'m> {
    /// No token.
    pub fn new(alloc: Global, macros: &'m Macros, headers: &'m HeaderSearch<'m>) -> Operands<'m>
        ensures { (is : List SeenItem) → outcome result is ≡ value_of_items headers.now (table_of macros.now) is }
    {
        Operands {
            alloc,
            macros,
            headers,
            question: None,
            waiting: Vec::new(alloc),
            walk: Walk::new(alloc),
            fault: None,
        }
    }

    /// The value of the tokens, where no more come.
    pub fn finish(&mut self) -> Result<Value, CondFault>
        ensures value { IfOk result (λ value. outcome self.old [] ≡ Ok value) }
        ensures fault { IfErr result (λ fault. fault ≢ CondFault.NoMemory → outcome self.old [] ≡ Err fault) }
    {
        while self.fault.is_none() && !self.waiting.is_empty() {
            self.read_waiting()?;
        }
        if let Some(fault) = self.fault {
            return Err(fault);
        }
        if self.question.is_some() {
            return Err(CondFault::BadExpression);
        }
        match self.walk.finish()? {
            Some(known) => value_within(known),
            None => Err(CondFault::BadExpression),
        }
    }

    /// Reads a token that asks for none after it.
    fn read_alone(&mut self, token: ItemRef<'_>) -> Result<(), AllocError>
        requires none { self.old.waiting.items ≡ [] }
        requires no_question { self.old.question ≡ None }
        requires good { self.old.fault ≡ None }
        requires alone { asks token.kind token.bytes.now ≡ false }
        requires no_header { asks_header (table_of self.old.macros.now) token.kind token.bytes.now ≡ false }
        ensures { OnOk result ((is : List SeenItem) →
            outcome self.new is ≡ outcome self.old (seen_ref token.entry ∷ is)) }
    {
        match symbol_of(self.macros, token.kind, token.bytes, &[]) {
            Ok((symbol, _)) => self.walk.take(symbol)?,
            Err(fault) => self.fault = Some(fault),
        }
        Ok(())
    }

    /// Takes the next token of the question that was begun.
    fn answer(&mut self, token: ItemRef<'_>) -> Result<(), AllocError>
        requires { self.old.fault ≡ None }
        ensures same { OnOk result ((q : Question) → self.old.question ≡ Some q → (is : List SeenItem) →
            given self.new is ≡ given self.old (seen_ref token.entry ∷ is)) }
        ensures waiting { OnOk result (self.new.waiting ≡ self.old.waiting) }
    {
        let Some(question) = self.question.take() else {
            return Ok(());
        };
        match question.take(self.alloc, self.headers, token)? {
            Progress::More(question) => self.question = Some(question),
            Progress::Answer(found) => self.walk.take(Symbol::Constant(Value::truth(found)))?,
            Progress::Bad => self.fault = Some(CondFault::BadExpression),
        }
        Ok(())
    }

    /// Reads a token before which none waits, and which is a `defined` at most where it answers a question.
    fn read_next(&mut self, token: ItemRef<'_>) -> Result<(), AllocError>
        requires none { self.old.waiting.items ≡ [] }
        requires good { self.old.fault ≡ None }
        requires alone { self.old.question ≡ None → asks token.kind token.bytes.now ≡ false }
        ensures { OnOk result ((is : List SeenItem) →
            outcome self.new is ≡ outcome self.old (seen_ref token.entry ∷ is)) }
    {
        if self.question.is_some() {
            return self.answer(token);
        }
        if asks_header(self.macros, token.kind, token.bytes) {
            self.question = Some(Question::new(is_next_question(token.bytes)));
            return Ok(());
        }
        self.read_alone(token)
    }

    /// Lets a token wait, and reads those of which it is now known what they are.
    fn wait(&mut self, token: ItemRef<'_>) -> Result<(), AllocError>
        requires { self.old.fault ≡ None }
        ensures { OnOk result ((is : List SeenItem) →
            outcome self.new is ≡ outcome self.old (seen_ref token.entry ∷ is)) }
    {
        self.waiting.push(kept(self.alloc, token)?)?;
        while self.fault.is_none() && self.is_ready() {
            self.read_waiting()?;
        }
        Ok(())
    }

    /// Whether the first token that waits can be read, whatever comes after those that wait.
    fn is_ready(&self) -> bool
        ensures ready { result ≡ true → (is : List SeenItem) → IsReady self.now is }
        ensures some { result ≡ true → 0 < length self.now.waiting.items }
    {
        match self.waiting.as_slice() {
            [] => false,
            [first, rest @ ..] => {
                self.question.is_some()
                    || self.asks_header(first)
                    || !is_asking(first.kind, first.spelling.bytes())
                    || are_enough(rest)
            }
        }
    }

    /// Whether a token asks for a header.
    fn asks_header(&self, item: &Item<'_>) -> bool
        ensures { result ≡ asks_header (table_of self.now.macros.now) item.now.kind (spelling_bytes item.now.spelling) }
    {
        asks_header(self.macros, item.kind, item.spelling.bytes())
    }

    /// Reads the first token that waits, with those that go with it.
    fn read_waiting(&mut self) -> Result<(), AllocError>
        requires some { 0 < length self.old.waiting.items }
        requires good { self.old.fault ≡ None }
        ensures same { OnOk result ((is : List SeenItem) → IsReady self.old is →
            outcome self.new is ≡ outcome self.old is) }
        ensures fewer { OnOk result (unread self.new < unread self.old) }
    {
        if self.question.is_some() {
            let first = self.waiting.remove(0);
            return self.answer(lent(&first));
        }
        if self.asks_header(&self.waiting[0]) {
            let first = self.waiting.remove(0);
            self.question = Some(Question::new(is_next_question(first.spelling.bytes())));
            return Ok(());
        }
        self.read_first()
    }

    /// Reads the first token that waits, which asks for no header, with those that go with it.
    fn read_first(&mut self) -> Result<(), AllocError>
        requires some { 0 < length self.old.waiting.items }
        requires good { self.old.fault ≡ None }
        requires no_question { self.old.question ≡ None }
        requires no_header { begins_question (table_of self.old.macros.now) (map seen_item self.old.waiting.items) ≡ false }
        ensures same { OnOk result ((is : List SeenItem) → IsReady self.old is →
            outcome self.new is ≡ outcome self.old is) }
        ensures fewer { OnOk result (unread self.new < unread self.old) }
    {
        match first_symbol(self.macros, &self.waiting) {
            Ok((symbol, taken)) => {
                self.walk.take(symbol)?;
                drop_first(&mut self.waiting, 1 + taken);
            }
            Err(fault) => self.fault = Some(fault),
        }
        Ok(())
    }
}

impl<'m> Sink for Operands<'m> {
    ghost use Rattle.inc_cond.specs.Operands.{takes_token};

    ghost takes = { takes_token };

    fn take(&mut self, token: ItemRef<'_>, _first: bool) -> Result<(), AllocError> {
        if self.fault.is_some() {
            return Ok(());
        }
        if self.waiting.is_empty()
            && (self.question.is_some() || !is_asking(token.kind, token.bytes))
        {
            self.read_next(token)?;
            return Ok(());
        }
        self.wait(token)?;
        Ok(())
    }

    fn take_source(&mut self, tokens: &[Token<'_>], first: bool) -> Result<(), AllocError> {
        let mut is_first = first;
        for token in tokens {
            self.take(source_ref(token), is_first)?;
            is_first = false;
        }
        Ok(())
    }
}

/// A token that is kept as one that is handed on.
fn lent<'t>(item: &'t Item<'_>) -> ItemRef<'t>
    ensures { seen_ref result ≡ seen_item item.now }
{
    ItemRef {
        kind: item.kind,
        bytes: item.spelling.bytes(),
        line: item.line,
        space: item.space,
    }
}

/// A token of a source as one of an expansion.
pub fn source_ref<'t>(token: &'t Token<'_>) -> ItemRef<'t>
    ensures { seen_ref result ≡ item_of_source (seen token.now) }
{
    ItemRef {
        kind: token.kind,
        bytes: token.spelling,
        line: token.line,
        space: token.space,
    }
}

/// What the first of these tokens is, which asks for no header, and how many of the others go with it.
fn first_symbol<'t>(
    macros: &Macros,
    waiting: &'t [Item<'_>],
) -> Result<(Symbol<'t>, usize), CondFault>
    requires some { 0 < length waiting.now }
    requires no_header { begins_question (table_of macros.now) (map seen_item waiting.now) ≡ false }
    ensures symbol { (search : HeaderSearch) → IfOk result (λ s.
        first_symbol search (table_of macros.now) (map seen_item waiting.now) ≡ Ok (seen_taken s)) }
    ensures fault { (search : HeaderSearch) → IfErr result (λ fault.
        first_symbol search (table_of macros.now) (map seen_item waiting.now) ≡ Err fault) }
    ensures within { IfOk result (λ s. s.1 < length waiting.now) }
{
    match waiting {
        [] => Ok((Symbol::Stray, 0)),
        [first, rest @ ..] => symbol_of(macros, first.kind, first.spelling.bytes(), rest),
    }
}

/// Takes tokens off the front.
fn drop_first(waiting: &mut Vec<Item<'_>>, count: usize)
    requires { count ≤ length waiting.old.items }
    ensures { waiting.new.items ≡ drop count waiting.old.items }
{
    for _ in 0..count {
        let _ = waiting.remove(0);
    }
}

/// The bytes of a token in memory of their own, where they are not those that are often beside `defined`.
fn kept_bytes<'m>(alloc: Global, bytes: &[u8]) -> Result<Spelling<'m>, AllocError>
    ensures { IfOk result (λ spelling. spelling_bytes spelling ≡ bytes.now) }
{
    match bytes {
        b"defined" => Ok(Spelling::Source(b"defined")),
        b"(" => Ok(Spelling::Source(b"(")),
        b")" => Ok(Spelling::Source(b")")),
        _ => {
            let bytes = Vec::from_slice(alloc, bytes)?;
            Ok(Spelling::Made(bytes))
        }
    }
}

/// A token that does not borrow its bytes.
fn kept<'m>(alloc: Global, token: ItemRef<'_>) -> Result<Item<'m>, AllocError>
    ensures { IfOk result (λ item. seen_item item ≡ seen_ref token.entry) }
{
    let spelling = kept_bytes(alloc, token.bytes)?;
    Ok(Item {
        kind: token.kind,
        spelling,
        line: token.line,
        space: token.space,
    })
}

/// The value of an expression that is not nested too deep.
fn value_within(known: Known) -> Result<Value, CondFault>
    ensures { result ≡ bounded known }
{
    if known.nesting > MOST_NESTING {
        return Err(CondFault::TooNested);
    }
    known.value
}
