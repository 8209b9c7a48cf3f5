//! The tokens that a preprocessing puts out.
ghost use Rattle.std.specs.Prelude.{◌≡◌, ◌++◌, ◌∷◌, ◌<◌, ◌+◌, ◌-◌, [], true, length, map, take, drop, OnOk, OnErr, IfOk, Some, option_map};
ghost use Rattle.std.specs.Vec.{vec_capacity, vec_len};
ghost use Rattle.inc_text.specs.Ascii.{line_feed};
ghost use Rattle.inc_token.specs.Views.{seen};
ghost use Rattle.inc_token.specs.TokenLines.{Tok};
ghost use Rattle.inc_expand.specs.Expansion.{Item, item_of, of_source};
ghost use Rattle.inc_expand.specs.Places.{place_value};
ghost use Rattle.inc_expand.specs.Sinks.{item_of_source, seen_ref};
ghost use Rattle.inc_pp.specs.LineMarkers.{marker, next_token, own_line};
ghost use Rattle.inc_pp.specs.OutTokens.{GoesOn, ended, seen_token, separator, with_token};
ghost use Rattle.inc_pp.specs.Printed.{printed};
ghost use Rattle.inc_pp.specs.Tasks.{line_tokens};

use crate::labels::Label;
use inc_expand::{ItemRef, Place, Sink};
use inc_text::Language;
use inc_token::{Kind, Token};
use itoa::Buffer;
use std::alloc::{AllocError, Global};
use std::marker::Model;

/// For so many bytes and tokens there is room from the start, which is about what a source puts out that includes a few headers of a system.
const FIRST_BYTES: usize = 32_768;

const FIRST_TOKENS: usize = 8_192;

/// The tokens that a preprocessing puts out, as the text that they are printed as, and 4 bytes for each.
#[derive(Drop)]
pub struct Output {
    text: Vec<u8>,
    labels: Vec<Label>,
}

impl Model for Output {
    ghost use Rattle.std.specs.Prelude.{List};
    ghost use Rattle.inc_pp.specs.Labels.{tokens_in};
    ghost use Rattle.inc_pp.specs.OutTokens.{IsKept};
    ghost use Rattle.inc_pp.specs.Tasks.{OutToken};

    ghost Value = { List OutToken };

    ghost view = { λ o. tokens_in o.labels.items o.text.items };

    ghost invariant = { λ o. IsKept o.labels.items o.text.items };
}

/// A token that was put out.
#[derive(Clone, Copy, Debug)]
pub struct OutTokenRef<'a> {
    /// Its class.
    pub kind: Kind,
    /// Its bytes.
    pub spelling: &'a [u8],
    /// Whether it is the first of its line.
    pub starts: bool,
}

impl Output {
    /// Nothing.
    pub(crate) fn new(alloc: Global) -> Output
        ensures { result ≡ [] }
    {
        let mut text = Vec::new(alloc);
        let mut labels = Vec::new(alloc);
        // Hints: nothing is put out yet, and growing step by step would copy the first tokens often.
        let _ = text.reserve(FIRST_BYTES);
        let _ = labels.reserve(FIRST_TOKENS);
        Output { text, labels }
    }

    /// Nothing, and no room for anything.
    pub(crate) fn empty(alloc: Global) -> Output
        ensures { result ≡ [] }
    {
        Output {
            text: Vec::new(alloc),
            labels: Vec::new(alloc),
        }
    }

    /// The tokens as a text: a space between two of a line, and each line ended by LF.
    pub fn text(&self) -> &[u8]
        ensures { result.now ≡ printed self.now }
    {
        &self.text
    }

    /// How many tokens there are.
    pub fn count(&self) -> usize
        ensures { result ≡ length self.now }
    {
        self.labels.len()
    }

    /// A walk over the tokens, from the first.
    pub fn tokens(&self) -> OutTokens<'_>
        ensures { result ≡ self.now }
    {
        OutTokens {
            text: &self.text,
            labels: &self.labels,
        }
    }

    /// Puts one more token out.
    #[inline(always)]
    pub(crate) fn push(
        &mut self,
        kind: Kind,
        spelling: &[u8],
        starts: bool,
    ) -> Result<(), AllocError>
        ensures { OnOk result (self.new ≡ self.old
            ++ record { kind = kind; spelling = spelling.now; starts = starts } ∷ []) }
    {
        let Some(label) = Label::new(spelling.len(), kind, starts) else {
            return Err(AllocError);
        };
        // Once there is room, no label can be missing for the text.
        self.labels.reserve(1)?;
        push_text(&mut self.text, spelling, starts)?;
        self.labels.push_reserved(label);
        Ok(())
    }

    /// Takes the last token back.
    fn pop(&mut self)
        ensures { self.new ≡ take (length self.old - 1) self.old }
    {
        if let Some(label) = self.labels.pop() {
            let end = end_before(self.text.len(), label.len());
            self.text.truncate(end);
            end_line(&mut self.text);
        }
    }

    /// Takes the tokens after the first so many back.
    pub(crate) fn truncate(&mut self, count: usize)
        ensures { self.new ≡ take count self.old }
    {
        while self.count() > count {
            self.pop();
        }
    }

    /// Puts tokens of a source out as a line of their own, behind a marker where lines are marked. `line`: the physical line that they
    /// are from.
    pub(crate) fn put_own_line(
        &mut self,
        language: Language,
        marks: &Option<Place<'_>>,
        line: u32,
        tokens: &[Token<'_>],
    ) -> Result<(), AllocError>
        ensures { OnOk result (self.new ≡ self.old ++ own_line language (option_map place_value marks.now) line
            (map (λ (t : Tok). item_of (of_source t)) (map seen tokens.now))) }
    {
        if tokens.len() == 0 {
            return Ok(());
        }
        if let Some(place) = marks {
            self.put_marker(language, place, line)?;
        }
        self.put_line(tokens, true)
    }

    /// Puts a token of an expansion out after one that is from the physical line `last`, or after none.
    #[inline(always)]
    pub(crate) fn put_next(
        &mut self,
        language: Language,
        marks: &Option<Place<'_>>,
        last: Option<u32>,
        token: ItemRef<'_>,
    ) -> Result<(), AllocError>
        ensures { OnOk result (self.new ≡ self.old
            ++ next_token language (option_map place_value marks.now) last (seen_ref token.entry)) }
    {
        if let Some(place) = marks {
            return self.put_marked(language, place, last, token);
        }
        self.push(token.kind, token.bytes, last.is_none())
    }

    /// The same where lines are marked.
    fn put_marked(
        &mut self,
        language: Language,
        place: &Place<'_>,
        last: Option<u32>,
        token: ItemRef<'_>,
    ) -> Result<(), AllocError>
        ensures { OnOk result (self.new ≡ self.old
            ++ next_token language (Some (place_value place.now)) last (seen_ref token.entry)) }
    {
        let starts = self.put_line_change(language, place, last, token.line)?;
        self.push(token.kind, token.bytes, starts)
    }

    /// Puts a marker out where a token from a line does not go on with what comes before, and answers whether it begins a line.
    fn put_line_change(
        &mut self,
        language: Language,
        place: &Place<'_>,
        last: Option<u32>,
        line: u32,
    ) -> Result<bool, AllocError>
        ensures { IfOk result (λ starts. (i : Item) → i.line ≡ line → self.new ++ line_tokens starts (i ∷ [])
            ≡ self.old ++ next_token language (Some (place_value place.now)) last i) }
    {
        if let Some(last) = last {
            if line == last {
                return Ok(false);
            }
            if u64::from(line) == u64::from(last) + 1 {
                return Ok(true);
            }
        }
        self.put_marker(language, place, line)?;
        Ok(true)
    }

    /// Puts the marker of a physical line out.
    fn put_marker(
        &mut self,
        language: Language,
        place: &Place<'_>,
        line: u32,
    ) -> Result<(), AllocError>
        ensures { OnOk result (self.new ≡ self.old ++ marker language (place_value place.now) line) }
    {
        let mut buffer = Buffer::new();
        let number = buffer.format(place.presumed_line(language, line));
        self.push(Kind::Punct, b"#", true)?;
        self.push(Kind::Number, number.as_bytes(), false)?;
        self.push(Kind::Str, place.name, false)?;
        if place.is_system {
            self.push(Kind::Number, b"3", false)?;
        }
        Ok(())
    }

    /// Puts tokens of a source out, with no new line between them. `first`: the first of them begins a line.
    fn put_line(&mut self, tokens: &[Token<'_>], first: bool) -> Result<(), AllocError>
        ensures { OnOk result (self.new ≡ self.old
            ++ line_tokens first (map item_of_source (map seen tokens.now))) }
    {
        let mut starts = first;
        for token in tokens {
            self.push(token.kind, token.spelling, starts)?;
            starts = false;
        }
        Ok(())
    }
}

impl Sink for Output {
    ghost use Rattle.inc_pp.specs.OutTokens.{takes_item};

    ghost takes = { takes_item };

    #[inline(always)]
    fn take(&mut self, token: ItemRef<'_>, first: bool) -> Result<(), AllocError> {
        self.push(token.kind, token.bytes, first)
    }

    fn take_source(&mut self, tokens: &[Token<'_>], first: bool) -> Result<(), AllocError> {
        self.put_line(tokens, first)?;
        Ok(())
    }
}

/// Where the last token of a text begins.
fn end_before(end: usize, len: usize) -> usize
    ensures { result ≡ end - (len + 1) }
{
    end.saturating_sub(len).saturating_sub(1)
}

/// Ends a text by an LF in place of its last byte.
fn end_line(text: &mut Vec<u8>)
    ensures { text.new.items ≡ ended line_feed text.old.items }
{
    let end = text.len();
    if end > 0 {
        text[end - 1] = b'\n';
    }
}

/// Adds a token and the LF after it to a text, whose last LF becomes what is between the two tokens. On a fault the text is as it was.
#[inline(always)]
fn push_text(text: &mut Vec<u8>, spelling: &[u8], starts: bool) -> Result<(), AllocError>
    ensures done { OnOk result (text.new.items ≡ with_token starts spelling.now text.old.items) }
    ensures same { OnErr result (text.new.items ≡ text.old.items) }
{
    let end = text.len();
    push_line(text, spelling)?;
    if end > 0 {
        text[end - 1] = separator(starts);
    }
    Ok(())
}

/// Adds bytes and an LF after them. On a fault the text is as it was.
#[inline(always)]
fn push_line(text: &mut Vec<u8>, spelling: &[u8]) -> Result<(), AllocError>
    ensures done { OnOk result (text.new.items ≡ text.old.items ++ (spelling.now ++ (line_feed ∷ []))) }
    ensures same { OnErr result (text.new.items ≡ text.old.items) }
{
    text.reserve(spelling.len() + 1)?;
    push_bytes(text, spelling)?;
    text.push_reserved(b'\n');
    Ok(())
}

/// Adds bytes to a text that has room for them and for one more. Many tokens are one byte, which takes no call that copies.
#[inline(always)]
fn push_bytes(text: &mut Vec<u8>, bytes: &[u8]) -> Result<(), AllocError>
    requires { vec_len text.old + length bytes.now < vec_capacity text.old }
    ensures done { OnOk result (text.new.items ≡ text.old.items ++ bytes.now) }
    ensures same { OnErr result (text.new.items ≡ text.old.items) }
    ensures room { OnOk result (vec_len text.new < vec_capacity text.new) }
{
    if let [byte] = bytes {
        text.push_reserved(*byte);
        return Ok(());
    }
    text.extend_from_slice(bytes)?;
    Ok(())
}

/// What is before a token.
fn separator(starts: bool) -> u8
    ensures { result ≡ separator starts }
{
    if starts { b'\n' } else { b' ' }
}

/// The tokens that a walk has still before it.
#[derive(Drop)]
pub struct OutTokens<'a> {
    text: &'a [u8],
    /// The labels of these tokens.
    labels: &'a [Label],
}

impl<'a> Model for OutTokens<'a> {
    ghost use Rattle.std.specs.Prelude.{List};
    ghost use Rattle.inc_pp.specs.Labels.{tokens_in};
    ghost use Rattle.inc_pp.specs.OutTokens.{IsKept};
    ghost use Rattle.inc_pp.specs.Tasks.{OutToken};

    ghost Value = { List OutToken };

    ghost view = { λ o. tokens_in o.labels.now o.text.now };

    ghost invariant = { λ o. IsKept o.labels.now o.text.now };
}

impl<'a> OutTokens<'a> {
    /// The next token, in constant time; `None` at the end.
    pub fn next(&mut self) -> Option<OutTokenRef<'a>>
        ensures { GoesOn self.old (option_map seen_token result) self.new }
    {
        let text = self.text;
        let [label, labels @ ..] = self.labels else {
            return None;
        };
        let label = *label;
        let len = label.len();
        self.labels = labels;
        self.text = text_behind(text, len);
        Some(OutTokenRef {
            kind: label.kind(),
            spelling: &text[..len],
            starts: label.starts(),
        })
    }
}

/// The text after a token of so many bytes and the byte after it.
fn text_behind(text: &[u8], len: usize) -> &[u8]
    requires { len < length text.now }
    ensures { result.now ≡ drop (len + 1) text.now }
{
    &text[len + 1..]
}
