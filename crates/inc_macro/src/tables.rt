//! The macro table.
ghost use Rattle.std.specs.Prelude.{◌≡◌, ◌≢◌, true, false, None, Ok, Err, map, length, is_some, IfNone, IfOk, IfErr, IfSome, OnOk, OnErr, option_map};
ghost use Rattle.inc_text.specs.PhaseText.{phase_text};
ghost use Rattle.inc_token.specs.TokenLines.{token_lines};
ghost use Rattle.inc_token.specs.Views.{seen};
ghost use Rattle.inc_macro.specs.Macros.{asks_headers, define, define_word, pop_macro, push_macro, redefined, undef, is_among, is_defined, no_macros, predefined_names, with_found, with_new, with_other, with_words};
ghost use Rattle.inc_macro.specs.Tables.{IsNamed, table_of};
ghost use Rattle.inc_macro.specs.WordLines.{StandFor, define_line, word_lines};

use crate::define_directives::{definition_in, name_at};
use crate::definition_words::{spliced_lines, spliced_word};
use crate::definitions::{Definition, same_definition};
use crate::faults::{DefineFault, WordFault};
use crate::named::Named;
use crate::reserved_names::{asks_headers, is_predefined};
use crate::slots::{is_taken, place_in, slot_of, take_slot};
use crate::stacks::Stacks;
use inc_text::{KeyRef, Language, SeededState, Text, TextFault};
use inc_token::{LexFault, Lines, Token, lex};
use indexmap::IndexSet;
use std::alloc::{AllocError, Global};
use std::marker::Model;

/// The macros that are defined, the predefined ones aside.
///
/// The table is a set of definitions that are equal where their names are, so that it keeps no copy of a name. Its hash begins with a
/// seed, so that a header cannot choose names that collide. Most names of macros are where their slot says, and cost no hash either; a new
/// name is hashed by its insertion alone.
#[derive(Drop)]
pub struct Macros {
    alloc: Global,
    language: Language,
    keys: SeededState,
    table: IndexSet<Named, SeededState>,
    /// The slot of each name that was ever in the table is taken: it holds one more than the place of the name that took it last.
    /// Most names of a text are those of no macro, and most of these have a slot that is not taken, so that they cost no hash;
    /// a look at the place saves the hash of most names that are found.
    slots: Vec<u16>,
    /// What `#pragma push_macro` put aside.
    stacks: Stacks,
}

impl Model for Macros {
    ghost use Rattle.inc_macro.specs.NameSlots.{HasSlots};
    ghost use Rattle.inc_macro.specs.Tables.{Kept, entries_of, AreApart};

    ghost Value = { Kept };

    ghost view = { λ m. record { language = m.language; entries = entries_of m.table.keys; stacks = m.stacks } };

    ghost invariant = { λ m. HasSlots m.slots.items (entries_of m.table.keys) × AreApart m.table.keys };
}

impl Macros {
    /// A table without macros, which takes its memory from `alloc`. Whoever writes the names cannot choose ones that
    /// make look-ups slow unless the seed is known, so a program takes a new one for each run. The language says which
    /// names are predefined, and whether a macro may be defined otherwise once it is.
    pub fn new(alloc: Global, seed: u64, language: Language) -> Macros
        ensures { table_of result ≡ no_macros language }
    {
        let keys = SeededState::new(seed);
        Macros {
            alloc,
            language,
            keys,
            table: IndexSet::with_hasher(alloc, keys),
            slots: Vec::new(alloc),
            stacks: Stacks::new(alloc, keys),
        }
    }

    /// Takes room for so many more macros, which are about to be defined. A hint: it changes nothing, also where memory runs out.
    fn expect(&mut self, count: usize)
        ensures { self.new ≡ self.old }
    {
        let _ = self.table.reserve(count);
    }

    /// Defines a macro by the tokens after `define` (ISO/IEC 9899:2018, 6.10.3). A definition that says what the
    /// name's definition says changes nothing; another one takes its place in GNU C alone. Each refusal leaves the table
    /// as it was.
    pub fn define(&mut self, tokens: &[Token<'_>]) -> Result<(), DefineFault>
        ensures done { OnOk result (define (map seen tokens.now) (table_of self.old)
            ≡ Ok (table_of self.new)) }
        ensures fault { let all = map seen tokens.now in
            IfErr result (λ fault. fault ≢ DefineFault.NoMemory → define all (table_of self.old) ≡ Err fault) }
        ensures same { OnErr result (self.new ≡ self.old) }
        ensures language { self.new.language ≡ self.old.language }
    {
        let definition = definition_in(self.alloc, self.keys, self.language, tokens)?;
        let spelling = definition.name();
        // by its slot, so that a new name is hashed by its insertion alone
        if let Some(old) = self.get(spelling) {
            if same_definition(old, &definition) {
                return Ok(());
            }
            return self.redefine(definition);
        }
        let named = Named::new(definition);
        self.add(named)?;
        Ok(())
    }

    /// Adds the definition of a name that has none. In line, since a call would move the definition once more.
    #[inline(always)]
    fn add(&mut self, definition: Named) -> Result<(), AllocError>
        requires { (table_of self.old).find definition.name ≡ None }
        ensures done { OnOk result (with_new definition (table_of self.old) ≡ table_of self.new) }
        ensures same { OnErr result (self.new ≡ self.old) }
        ensures language { self.new.language ≡ self.old.language }
    {
        let slot = slot_of(definition.definition().name());
        take_slot(&mut self.slots, slot, self.table.len())?;
        self.table.insert(definition)?;
        Ok(())
    }

    /// Takes a definition in place of the one that its name has, where the language allows that.
    fn redefine(&mut self, definition: Definition) -> Result<(), DefineFault>
        requires { is_some ((table_of self.old).find definition.name) ≡ true }
        ensures done { let before = table_of self.old in
            OnOk result (redefined before.language definition before ≡ Ok (table_of self.new)) }
        ensures fault { let before = table_of self.old in
            IfErr result (λ fault. fault ≢ DefineFault.NoMemory → redefined before.language definition before ≡ Err fault) }
        ensures same { OnErr result (self.new ≡ self.old) }
        ensures language { self.new.language ≡ self.old.language }
    {
        match self.language {
            Language::C17 | Language::Extended => Err(DefineFault::Redefinition),
            Language::Gnu => {
                let named = Named::new(definition);
                self.exchange(named)?;
                Ok(())
            }
        }
    }

    /// Takes a definition in place of the one that its name has. The name keeps its slot.
    fn exchange(&mut self, definition: Named) -> Result<(), AllocError>
        requires { is_some ((table_of self.old).find definition.name) ≡ true }
        ensures done { OnOk result (with_other definition (table_of self.old) ≡ table_of self.new) }
        ensures same { OnErr result (self.new ≡ self.old) }
        ensures language { self.new.language ≡ self.old.language }
    {
        self.table.replace(definition)?;
        Ok(())
    }

    /// Defines a macro by a word of the command line: its first `=` ends the name, and without one the body is `1`.
    /// Each refusal leaves the table as it was.
    pub fn define_word(&mut self, word: &[u8]) -> Result<(), DefineFault>
        ensures done { OnOk result (define_word word.now (table_of self.old)
            ≡ Ok (table_of self.new)) }
        ensures fault { let table = table_of self.old in
            IfErr result (λ fault. fault ≢ DefineFault.NoMemory → define_word word.now table ≡ Err fault) }
        ensures same { OnErr result (self.new ≡ self.old) }
        ensures language { self.new.language ≡ self.old.language }
    {
        let text = spliced_word(self.alloc, word, self.language())?;
        self.define_line(&text)
    }

    /// The same of the first line of a text.
    fn define_line(&mut self, text: &Text) -> Result<(), DefineFault>
        ensures done { OnOk result (define_line text.now (table_of self.old)
            ≡ Ok (table_of self.new)) }
        ensures fault { let table = table_of self.old in
            IfErr result (λ fault. fault ≢ DefineFault.NoMemory → define_line text.now table ≡ Err fault) }
        ensures same { OnErr result (self.new ≡ self.old) }
        ensures language { self.new.language ≡ self.old.language }
    {
        let lines = match lex(self.alloc, text, self.language) {
            Ok(lines) => lines,
            Err(LexFault::OpenComment { .. }) => return Err(DefineFault::BadWord),
            Err(LexFault::NoMemory) => return Err(DefineFault::NoMemory),
        };
        if lines.count() == 0 {
            return self.define(&[]);
        }
        self.define(lines.line(0))
    }

    /// A table of the macros that words of the command line define, one after the other. Most words need no text of their own: they are
    /// the lines of one.
    pub fn with_words(
        alloc: Global,
        seed: u64,
        language: Language,
        words: &[&[u8]],
    ) -> Result<Macros, WordFault>
        ensures done { let all = map (λ w. w.now) words.now in
            IfOk result (λ macros. with_words 0 all (no_macros language) ≡ Ok (table_of macros)) }
        ensures fault { let all = map (λ w. w.now) words.now in
            IfErr result (λ why. why.fault ≢ DefineFault.NoMemory →
            with_words 0 all (no_macros language) ≡ Err (why.index, why.fault)) }
    {
        let mut macros = Macros::new(alloc, seed, language);
        macros.expect(words.len());
        match macros.define_words(words) {
            Ok(()) => Ok(macros),
            Err(why) => Err(why),
        }
    }

    /// Defines macros by words, up to the first that makes no definition.
    fn define_words(&mut self, words: &[&[u8]]) -> Result<(), WordFault>
        ensures done { let all = map (λ w. w.now) words.now in
            OnOk result (with_words 0 all (table_of self.old) ≡ Ok (table_of self.new)) }
        ensures fault { let all = map (λ w. w.now) words.now in
            IfErr result (λ why. why.fault ≢ DefineFault.NoMemory →
            with_words 0 all (table_of self.old) ≡ Err (why.index, why.fault)) }
    {
        match spliced_lines(self.alloc, words, self.language()) {
            Ok(text) => self.define_lines(words, &text),
            Err(TextFault::TooLong) => self.define_each(words),
            Err(TextFault::NoMemory) => Err(WordFault {
                index: 0,
                fault: DefineFault::NoMemory,
            }),
        }
    }

    /// The same, each by itself.
    fn define_each(&mut self, words: &[&[u8]]) -> Result<(), WordFault>
        ensures done { let all = map (λ w. w.now) words.now in
            OnOk result (with_words 0 all (table_of self.old) ≡ Ok (table_of self.new)) }
        ensures fault { let all = map (λ w. w.now) words.now in
            IfErr result (λ why. why.fault ≢ DefineFault.NoMemory →
            with_words 0 all (table_of self.old) ≡ Err (why.index, why.fault)) }
    {
        for i in 0..words.len() {
            match self.define_word(words[i]) {
                Ok(()) => {}
                Err(fault) => return Err(WordFault { index: i, fault }),
            }
        }
        Ok(())
    }

    /// The same by the text of their lines.
    fn define_lines(&mut self, words: &[&[u8]], text: &Text) -> Result<(), WordFault>
        requires { text.now ≡ phase_text self.old.language (word_lines (map (λ w. w.now) words.now)) }
        ensures done { let all = map (λ w. w.now) words.now in
            OnOk result (with_words 0 all (table_of self.old) ≡ Ok (table_of self.new)) }
        ensures fault { let all = map (λ w. w.now) words.now in
            IfErr result (λ why. why.fault ≢ DefineFault.NoMemory →
            with_words 0 all (table_of self.old) ≡ Err (why.index, why.fault)) }
    {
        match lex(self.alloc, text, self.language) {
            Ok(lines) => self.define_lexed(words, &lines),
            // No comment begins on such a line.
            Err(LexFault::OpenComment { .. }) => unreachable!(),
            Err(LexFault::NoMemory) => Err(WordFault {
                index: 0,
                fault: DefineFault::NoMemory,
            }),
        }
    }

    /// The same by the tokens of their lines.
    fn define_lexed(&mut self, words: &[&[u8]], lines: &Lines<'_>) -> Result<(), WordFault>
        requires { token_lines self.old.language (phase_text self.old.language (word_lines (map (λ w. w.now) words.now)))
            ≡ Ok lines.now }
        ensures done { let all = map (λ w. w.now) words.now in
            OnOk result (with_words 0 all (table_of self.old) ≡ Ok (table_of self.new)) }
        ensures fault { let all = map (λ w. w.now) words.now in
            IfErr result (λ why. why.fault ≢ DefineFault.NoMemory →
            with_words 0 all (table_of self.old) ≡ Err (why.index, why.fault)) }
    {
        for i in 0..words.len() {
            match self.define_known(words[i], lines.line(i)) {
                Ok(()) => {}
                Err(fault) => return Err(WordFault { index: i, fault }),
            }
        }
        Ok(())
    }

    /// Defines a macro by a word and its tokens, which are left out where they are not known.
    fn define_known(&mut self, word: &[u8], tokens: &[Token<'_>]) -> Result<(), DefineFault>
        requires { StandFor (map seen tokens.now) word.now (table_of self.old) }
        ensures done { OnOk result (define_word word.now (table_of self.old)
            ≡ Ok (table_of self.new)) }
        ensures fault { let table = table_of self.old in
            IfErr result (λ fault. fault ≢ DefineFault.NoMemory → define_word word.now table ≡ Err fault) }
        ensures language { self.new.language ≡ self.old.language }
    {
        if tokens.is_empty() {
            return self.define_word(word);
        }
        self.define(tokens)
    }

    /// Removes the definition of the name that the tokens after `undef` begin with (6.10.3.5), and reports whether
    /// there was one. Takes no memory.
    pub fn undef(&mut self, tokens: &[Token<'_>]) -> Result<bool, DefineFault>
        ensures done { let all = map seen tokens.now in
            IfOk result (λ removed. undef all (table_of self.old) ≡ Ok (removed, table_of self.new)) }
        ensures fault { IfErr result (λ fault. undef (map seen tokens.now) (table_of self.old)
            ≡ Err fault) }
        ensures same { OnErr result (self.new ≡ self.old) }
    {
        let name = name_at(self.language, tokens)?;
        let removed = self.table.swap_remove(KeyRef { bytes: name });
        Ok(removed)
    }

    /// Puts what a name has aside, its definition or that it has none: `#pragma push_macro` of GNU C. [`Macros::pop`] takes it back.
    pub fn push(&mut self, name: &[u8]) -> Result<(), AllocError>
        ensures { OnOk result (push_macro name.now (table_of self.old) ≡ table_of self.new) }
    {
        let definition = self.share(name)?;
        self.stacks.push(self.alloc, name, definition)?;
        Ok(())
    }

    /// The definition of a name, to be kept in another place too: the table shares it from then on.
    fn share(&mut self, name: &[u8]) -> Result<Option<Named>, AllocError>
        ensures definition { IfOk result (λ definition. definition ≡ (table_of self.old).find name.now) }
        ensures named { IfOk result (IsNamed name.now) }
        ensures same { OnOk result (table_of self.new ≡ table_of self.old) }
    {
        match self.take(name) {
            Some(named) => {
                let (kept, other) = named.shared(self.alloc)?;
                self.add(kept)?;
                Ok(Some(other))
            }
            None => Ok(None),
        }
    }

    /// Takes the definition of a name out, if it has one.
    fn take(&mut self, name: &[u8]) -> Option<Named>
        ensures definition { result ≡ (table_of self.old).find name.now }
        ensures named { IsNamed name.now result }
        ensures rest { IfSome result (λ definition. with_new definition (table_of self.new) ≡ table_of self.old) }
        ensures absent { IfSome result (λ definition. (table_of self.new).find definition.name ≡ None) }
        ensures same { IfNone result (self.new ≡ self.old) }
    {
        self.table.swap_take(KeyRef { bytes: name })
    }

    /// Has a name have again what was put aside of it last: `#pragma pop_macro` of GNU C. Where nothing was, it changes nothing.
    pub fn pop(&mut self, name: &[u8]) -> Result<(), AllocError>
        ensures { OnOk result (pop_macro name.now (table_of self.old) ≡ table_of self.new) }
    {
        match self.stacks.pop(self.alloc, name)? {
            Some(definition) => {
                self.restore(name, definition)?;
                Ok(())
            }
            None => Ok(()),
        }
    }

    /// Has a name have this definition, or none.
    fn restore(&mut self, name: &[u8], definition: Option<Named>) -> Result<(), AllocError>
        requires { IsNamed name.now definition }
        ensures { OnOk result (with_found name.now definition (table_of self.old) ≡ table_of self.new) }
    {
        match definition {
            Some(named) => {
                self.restore_definition(named)?;
                Ok(())
            }
            None => {
                self.remove(name);
                Ok(())
            }
        }
    }

    /// Has a name have no definition. What was put aside of it stays.
    pub fn remove(&mut self, name: &[u8])
        ensures { with_found name.now None (table_of self.old) ≡ table_of self.new }
    {
        self.table.swap_remove(KeyRef { bytes: name });
    }

    /// Has the name of a definition have it.
    fn restore_definition(&mut self, definition: Named) -> Result<(), AllocError>
        ensures { OnOk result (with_found definition.name (Some definition) (table_of self.old) ≡ table_of self.new) }
    {
        if self.get(definition.definition().name()).is_some() {
            self.exchange(definition)?;
            return Ok(());
        }
        self.add(definition)?;
        Ok(())
    }

    /// The definition of a name, which a predefined macro does not have.
    #[inline(always)]
    pub fn get(&self, name: &[u8]) -> Option<&Definition>
        ensures { option_map (λ d. d.now) result ≡ (table_of self.now).find name.now }
    {
        if !self.may_have(name) {
            return None;
        }
        self.find(name)
    }

    /// The same, once the name's slot is known to be taken. It is apart, so that where it is not taken the test is all that a name costs.
    #[inline(never)]
    fn find(&self, name: &[u8]) -> Option<&Definition>
        ensures { option_map (λ d. d.now) result ≡ (table_of self.now).find name.now }
    {
        let place = place_in(&self.slots, slot_of(name));
        if let Some(named) = self.table.get_index(place) {
            if named.definition().name() == name {
                return Some(named.definition());
            }
        }
        match self.table.get(KeyRef { bytes: name }) {
            Some(named) => Some(named.definition()),
            None => None,
        }
    }

    /// The language whose names are predefined.
    pub fn language(&self) -> Language
        ensures { result ≡ (table_of self.now).language }
    {
        self.language
    }

    /// Whether a name is that of a predefined macro (6.10.8).
    #[inline(always)]
    pub fn is_predefined(&self, name: &[u8]) -> bool
        ensures { result ≡ is_among name.now (predefined_names (table_of self.now).language) }
    {
        is_predefined(self.language, name)
    }

    /// Whether a name is that of a macro, a predefined one or another, or one by which GNU C asks whether a header is found.
    #[inline(always)]
    pub fn is_defined(&self, name: &[u8]) -> bool
        ensures { result ≡ is_defined name.now (table_of self.now) }
    {
        self.is_predefined(name) || self.get(name).is_some() || self.asks_headers(name)
    }

    /// Whether `#if` asks by this name whether a header is found: `__has_include` and `__has_include_next` of GNU C.
    #[inline(always)]
    pub fn asks_headers(&self, name: &[u8]) -> bool
        ensures { result ≡ asks_headers (table_of self.now).language name.now }
    {
        asks_headers(self.language, name)
    }

    /// Whether a name's slot is taken, without which the name has no definition.
    #[inline(always)]
    fn may_have(&self, name: &[u8]) -> bool
        ensures { result ≡ false → (table_of self.now).find name.now ≡ None }
    {
        is_taken(&self.slots, slot_of(name))
    }

    /// How many macros have a definition.
    pub fn len(&self) -> usize
        ensures { result ≡ (table_of self.now).size }
    {
        self.table.len()
    }
}
