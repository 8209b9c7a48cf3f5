//! The words of a command, as a shell splits it.
ghost use Rattle.std.specs.Prelude.{◌≡◌, ◌≤◌, ◌<◌, ◌++◌, [], ◌∷◌, true, false, if◌then◌else◌, List, ℕ, IfOk, OnOk, Some, None, length, map, option_map, drop, take};
ghost use Rattle.std.specs.List.{prefix_len};
ghost use Rattle.inc_build.specs.Commands as spec;
ghost use Rattle.inc_build.specs.Views.{seen_walk, seen_word};

use std::alloc::{AllocError, Global};
use std::mem::replace;

/// A word. Where it has no quotes it is lent by the text that it stands in.
#[derive(Drop)]
pub enum Word<'t> {
    /// A part of the text.
    Lent(&'t [u8]),
    /// What is left of a part of the text without its quotes.
    Owned(Vec<u8>),
}

impl<'t> Word<'t> {
    /// Its bytes.
    pub fn bytes(&self) -> &[u8]
        ensures { result.now ≡ seen_word self.now }
    {
        match self {
            Word::Lent(bytes) => *bytes,
            Word::Owned(bytes) => bytes.as_slice(),
        }
    }
}

/// What the next byte is read in.
#[derive(Clone, Copy, PartialEq, Eq)]
pub(crate) enum Mode {
    /// Outside quotes.
    Bare,
    /// After a `\` outside quotes.
    Escaped,
    /// Within `''`.
    Single,
    /// Within `""`.
    Double,
    /// After a `\` within `""`.
    DoubleEscaped,
}

/// A place within a command, and the word at hand.
#[derive(Drop)]
pub(crate) struct Walk {
    mode: Mode,
    /// Whether a word has begun, perhaps an empty one in quotes.
    is_begun: bool,
    word: Vec<u8>,
}

/// The words of a command; `None` where a quote does not end. Nothing is expanded.
pub fn shell_words<'t>(alloc: Global, text: &'t [u8]) -> Result<Option<Vec<Word<'t>>>, AllocError>
    ensures { IfOk result (λ words. option_map (λ v. map seen_word v.items) words ≡ spec.shell_words text.now) }
{
    let mut words = Vec::new(alloc);
    let mut walk = Walk::new(alloc);
    let mut at = 0;
    while at < text.len() {
        let len = walk.lent_len(&text[at..]);
        if len > 0 {
            words.push(Word::Lent(&text[at..at + len]))?;
            at += len;
        } else {
            walk.take(alloc, text[at], &mut words)?;
            at += 1;
        }
    }
    if !walk.close()? {
        return Ok(None);
    }
    walk.finish(alloc, &mut words)?;
    Ok(Some(words))
}

impl Walk {
    /// The place where a command begins.
    fn new(alloc: Global) -> Walk
        ensures { seen_walk result ≡ spec.start }
    {
        Walk {
            mode: Mode::Bare,
            is_begun: false,
            word: Vec::new(alloc),
        }
    }

    /// How long the word is that the text begins with, where it can be lent; else 0.
    fn lent_len(&self, text: &[u8]) -> usize
        ensures within { result ≤ length text.now }
        ensures start { 0 < result → seen_walk self.now ≡ spec.start }
        ensures word { 0 < result → spec.words_from spec.start text.now
            ≡ option_map (λ ws. take result text.now ∷ ws) (spec.words_from spec.start (drop result text.now)) }
    {
        if self.is_begun || !self.word.is_empty() || self.mode != Mode::Bare {
            return 0;
        }
        let len = plain_len(text);
        if stops(text, len) { len } else { 0 }
    }

    /// Goes on by a byte, and adds the word that ends with it.
    fn take<'t>(
        &mut self,
        alloc: Global,
        byte: u8,
        words: &mut Vec<Word<'t>>,
    ) -> Result<(), AllocError>
        ensures { OnOk result ((rest : List ℕ) →
            option_map (λ ws. map seen_word words.new.items ++ ws) (spec.words_from (seen_walk self.new) rest)
            ≡ option_map (λ ws. map seen_word words.old.items ++ ws) (spec.words_from (seen_walk self.old) (byte ∷ rest))) }
    {
        if self.ends(byte) {
            self.finish(alloc, words)?;
            Ok(())
        } else {
            self.step(byte)?;
            Ok(())
        }
    }

    /// Whether a byte ends the word at hand, if there is one.
    fn ends(&self, byte: u8) -> bool
        ensures { result ≡ spec.ends (seen_walk self.now) byte }
    {
        match self.mode {
            Mode::Bare => is_blank(byte),
            _ => false,
        }
    }

    /// Adds the word at hand, if there is one.
    fn finish<'t>(&mut self, alloc: Global, words: &mut Vec<Word<'t>>) -> Result<(), AllocError>
        ensures words { OnOk result ((more : List (List ℕ)) →
            map seen_word words.new.items ++ more ≡ map seen_word words.old.items ++ spec.finished (seen_walk self.old) more) }
        ensures mode { OnOk result (self.new.mode ≡ self.old.mode) }
        ensures empty { OnOk result ((self.new.is_begun ≡ false) × (self.new.word.items ≡ [])) }
    {
        let word = replace(&mut self.word, Vec::new(alloc));
        if self.is_begun {
            words.push(Word::Owned(word))?;
        }
        self.is_begun = false;
        Ok(())
    }

    /// Whether the text may end here. A `\` at the end stands for itself.
    fn close(&mut self) -> Result<bool, AllocError>
        ensures { IfOk result (λ fits. spec.at_end self.old.mode (seen_walk self.old)
            ≡ (if fits then Some (spec.finished (seen_walk self.new) []) else None)) }
    {
        match self.mode {
            Mode::Bare => Ok(true),
            Mode::Escaped => {
                self.put(Mode::Bare, b'\\')?;
                Ok(true)
            }
            _ => Ok(false),
        }
    }

    /// Adds a byte to the word.
    fn put(&mut self, mode: Mode, byte: u8) -> Result<(), AllocError>
        ensures { OnOk result (seen_walk self.new ≡ spec.put mode byte (seen_walk self.old)) }
    {
        self.word.push(byte)?;
        self.mode = mode;
        self.is_begun = true;
        Ok(())
    }

    /// Goes on by a byte that ends no word.
    fn step(&mut self, byte: u8) -> Result<(), AllocError>
        ensures { OnOk result (seen_walk self.new ≡ spec.stepped (seen_walk self.old) byte) }
    {
        match self.mode {
            Mode::Bare => self.step_bare(byte),
            Mode::Escaped => self.step_escaped(byte),
            Mode::Single => self.step_single(byte),
            Mode::Double => self.step_double(byte),
            Mode::DoubleEscaped => self.step_double_escaped(byte),
        }
    }

    fn step_bare(&mut self, byte: u8) -> Result<(), AllocError>
        ensures { OnOk result (seen_walk self.new ≡ spec.in_mode Mode.Bare (seen_walk self.old) byte) }
    {
        match byte {
            b'\\' => self.mode = Mode::Escaped,
            b'\'' => self.begin(Mode::Single),
            b'"' => self.begin(Mode::Double),
            _ => self.put(Mode::Bare, byte)?,
        }
        Ok(())
    }

    fn step_escaped(&mut self, byte: u8) -> Result<(), AllocError>
        ensures { OnOk result (seen_walk self.new ≡ spec.in_mode Mode.Escaped (seen_walk self.old) byte) }
    {
        match byte {
            b'\n' => self.mode = Mode::Bare,
            _ => self.put(Mode::Bare, byte)?,
        }
        Ok(())
    }

    fn step_single(&mut self, byte: u8) -> Result<(), AllocError>
        ensures { OnOk result (seen_walk self.new ≡ spec.in_mode Mode.Single (seen_walk self.old) byte) }
    {
        match byte {
            b'\'' => self.mode = Mode::Bare,
            _ => self.put(Mode::Single, byte)?,
        }
        Ok(())
    }

    fn step_double(&mut self, byte: u8) -> Result<(), AllocError>
        ensures { OnOk result (seen_walk self.new ≡ spec.in_mode Mode.Double (seen_walk self.old) byte) }
    {
        match byte {
            b'"' => self.mode = Mode::Bare,
            b'\\' => self.mode = Mode::DoubleEscaped,
            _ => self.put(Mode::Double, byte)?,
        }
        Ok(())
    }

    fn step_double_escaped(&mut self, byte: u8) -> Result<(), AllocError>
        ensures { OnOk result (seen_walk self.new ≡ spec.in_mode Mode.DoubleEscaped (seen_walk self.old) byte) }
    {
        match byte {
            b'\n' => self.mode = Mode::Double,
            b'"' | b'\\' | b'$' | b'`' => self.put(Mode::Double, byte)?,
            _ => {
                self.put(Mode::Double, b'\\')?;
                self.put(Mode::Double, byte)?;
            }
        }
        Ok(())
    }

    /// Begins a word, perhaps an empty one, with a quote.
    fn begin(&mut self, mode: Mode)
        ensures { seen_walk self.new ≡ spec.begun mode (seen_walk self.old) }
    {
        self.mode = mode;
        self.is_begun = true;
    }
}

/// Whether a word that ends at a place ends with the text or with a blank.
fn stops(text: &[u8], at: usize) -> bool
    requires { at ≤ length text.now }
    ensures { result ≡ spec.stops (drop at text.now) }
{
    at == text.len() || is_blank(text[at])
}

/// How many bytes the text begins with that are none of blanks, quotes and `\`.
fn plain_len(text: &[u8]) -> usize
    ensures within { result ≤ length text.now }
    ensures len { result ≡ prefix_len spec.is_plain text.now }
{
    text.iter().take_while(|byte| is_plain(**byte)).count()
}

/// Whether a byte stands for itself.
fn is_plain(byte: u8) -> bool
    ensures { result ≡ spec.is_plain byte }
{
    !is_blank(byte) && byte != b'\\' && byte != b'\'' && byte != b'"'
}

/// Whether a byte is a blank.
fn is_blank(byte: u8) -> bool
    ensures { result ≡ spec.is_blank byte }
{
    byte == b' ' || byte == b'\t' || byte == b'\n' || byte == b'\r'
}
