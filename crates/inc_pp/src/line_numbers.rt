//! Names and numbers of lines (ISO/IEC 9899:2018, 6.10.4).
ghost use Rattle.std.specs.Prelude.{◌≡◌, ◌<◌, ◌*◌, ◌+◌, ◌++◌, ◌&&◌, [], Some, Ok, Err, bytes_eq, codes, length, None, map, nat_le, if◌then◌else◌, IfOk, IfErr, OnOk, option_map};
ghost use Rattle.std.specs.List.{list_all};
ghost use Rattle.inc_token.specs.Spellings.{is_digit};
ghost use Rattle.inc_token.specs.Views.{seen};
ghost use Rattle.inc_expand.specs.Items.{seen_item};
ghost use Rattle.inc_expand.specs.Places.{place_value};
ghost use Rattle.inc_cond.specs.Constants.{digit_of, number_in};
ghost use Rattle.inc_pp.specs.Directives as spec;
ghost use Rattle.inc_pp.specs.DirectiveSteps.{here_by};
ghost use Rattle.inc_pp.specs.LineMarkers.{marks_of};
ghost use Rattle.inc_expand.specs.Openings.{held_source};
ghost use Rattle.inc_pp.specs.Runs.{line_of_run, released, with_waiting};
ghost use Rattle.inc_pp.specs.Stops.{IfStop, halt_at};
ghost use Rattle.inc_pp.specs.Steps.{place_under};
ghost use Rattle.inc_pp.specs.Tasks.{File, State, start};

use crate::causes::Cause;
use crate::entries::{Entry, Standing};
use crate::faults::Break;
use crate::headers::is_plain_string;
use crate::lines::{first_line, operands};
use crate::literals::literal_of;
use crate::settings::Settings;
use crate::waiting::{Open, Waiting};
use inc_directive::DirectiveKind;
use inc_expand::{ExpandFault, Item, Place};
use inc_lookup::Project;
use inc_text::Language;
use inc_token::{Kind, Token};
use std::alloc::{AllocError, Global};
use std::marker::Model;

/// What is known of the file at hand.
#[derive(Drop)]
pub(crate) struct Here {
    /// Presumed minus physical line.
    pub(crate) shift: i64,
    /// The literal for `__FILE__`.
    pub(crate) name: Vec<u8>,
    /// How it came to be read.
    pub(crate) standing: Standing,
    /// The tokens of text lines that wait for the rest of a call.
    pub(crate) waiting: Waiting,
    /// How many parentheses of the call are open.
    pub(crate) deep: usize,
}

impl Model for Here {
    ghost use Rattle.inc_pp.specs.Tasks.{Here};

    ghost Value = { Here };

    ghost view = { λ h. record { shift = h.shift; name = h.name.items; standing = h.standing; waiting = h.waiting; deep = h.deep } };
}

/// How lines are numbered, and what their file is called.
#[derive(Drop)]
pub(crate) struct Numbering {
    /// Presumed minus physical line.
    shift: i64,
    /// The literal for `__FILE__`.
    name: Vec<u8>,
}

impl Model for Numbering {
    ghost use Rattle.inc_pp.specs.Directives.{Numbering};

    ghost Value = { Numbering };

    ghost view = { λ n. record { shift = n.shift; name = n.name.items } };
}

impl Here {
    /// How a file begins.
    pub(crate) fn start(
        alloc: Global,
        project: &Project<'_>,
        entry: Entry,
    ) -> Result<Here, AllocError>
        requires { entry.at.file < length project.now.paths }
        ensures { IfOk result (λ here. here ≡ start project.now entry) }
    {
        let Entry {
            at,
            standing,
            by: _,
        } = entry;
        let name = literal_of(alloc, standing.path(project, at.file))?;
        Ok(Here {
            shift: 0,
            name,
            standing,
            waiting: Waiting::none(alloc),
            deep: 0,
        })
    }

    /// Where the tokens of the file are.
    pub(crate) fn place<'h>(&'h self, settings: &'h Settings<'h>) -> Place<'h>
        ensures { place_value result ≡ place_under settings.now self.now }
    {
        Place {
            name: &self.name,
            base: settings.base(),
            shift: self.shift,
            level: self.standing.level(),
            is_system: self.standing.is_system(),
            date: settings.date(),
            time: settings.time(),
            timestamp: settings.timestamp(),
        }
    }

    /// Has the lines that follow numbered so.
    pub(crate) fn renumber(&mut self, numbering: Numbering)
        ensures { self.new ≡ spec.with_numbering numbering self.old }
    {
        let Numbering { shift, name } = numbering;
        self.shift = shift;
        self.name = name;
    }

    /// Has more tokens wait, with so many parentheses open after them.
    pub(crate) fn wait(&mut self, tokens: &[Token<'_>], deep: usize) -> Result<(), AllocError>
        ensures { OnOk result (self.new ≡ with_waiting (self.old.waiting ++ map held_source (map seen tokens.now)) deep self.old) }
    {
        self.waiting.add(tokens)?;
        self.deep = deep;
        Ok(())
    }

    /// Has an open call wait in place of what waits.
    pub(crate) fn hold(&mut self, held: Open)
        ensures { self.new ≡ with_waiting held.waiting held.deep self.old }
    {
        let Open { waiting, deep } = held;
        self.waiting = waiting;
        self.deep = deep;
    }

    /// Stops where a call waits: it has no end.
    pub(crate) fn release(&self) -> Result<(), Break>
        ensures done { OnOk result ((f : File) (s : State) → released f s self.now ≡ Ok (s, self.now)) }
        ensures stop { IfErr result (λ fault. IfStop fault (λ line cause. (f : File) (s : State) →
            released f s self.now ≡ Err (halt_at f s line cause))) }
    {
        match self.waiting.first_line() {
            None => Ok(()),
            Some(line) => Err(Break::Stop {
                line,
                cause: Cause::Expand(ExpandFault::UnclosedCall),
            }),
        }
    }

    /// The line at which a fault of a run stops the preprocessing: that of the first token that waits, or of the first of these.
    pub(crate) fn line_of_run(&self, tokens: &[Token<'_>]) -> u32
        ensures { result ≡ line_of_run self.now.waiting (map seen tokens.now) }
    {
        match self.waiting.first_line() {
            None => first_line(tokens),
            Some(line) => line,
        }
    }

    /// Takes what a directive of no section says of the lines that follow in the file: `#line` is not among these.
    pub(crate) fn obey(&mut self, kind: DirectiveKind, language: Language, tokens: &[Token<'_>])
        ensures { self.new ≡ here_by kind language (map seen tokens.now) self.old }
    {
        if let DirectiveKind::Pragma = kind {
            self.standing
                .note_system(names_system(language, operands(tokens)));
        }
    }

    /// The same where lines are marked; else `None`.
    pub(crate) fn marks<'h>(&'h self, settings: &'h Settings<'h>) -> Option<Place<'h>>
        ensures { option_map place_value result ≡ marks_of settings.now (place_under settings.now self.now) }
    {
        if settings.has_markers() {
            Some(self.place(settings))
        } else {
            None
        }
    }
}

/// How lines are numbered after a `#line` with these tokens, in a directive whose last line is the given one.
pub(crate) fn renumbered(
    alloc: Global,
    language: Language,
    here: &Here,
    last: u32,
    items: &[Item<'_>],
) -> Result<Option<Numbering>, AllocError>
    ensures { IfOk result (λ after. after
        ≡ spec.renumbered language here.now last (map seen_item items.now)) }
{
    let [first, rest @ ..] = items else {
        return Ok(None);
    };
    let Some(line) = line_number(language, first) else {
        return Ok(None);
    };
    let Some(name) = line_name(here, rest) else {
        return Ok(None);
    };
    let name = Vec::from_slice(alloc, name)?;
    Ok(Some(Numbering {
        shift: i64::from(line) - (i64::from(last) + 1),
        name,
    }))
}

/// Whether the operands of a pragma are those of `#pragma GCC system_header` in GNU C.
fn names_system(language: Language, tokens: &[Token<'_>]) -> bool
    ensures { result ≡ spec.names_system language (map seen tokens.now) }
{
    match tokens {
        [first, second, ..] => {
            language.is_gnu()
                && first.spelling == b"GCC".as_slice()
                && is_system_header(second.spelling)
        }
        _ => false,
    }
}

/// Whether a name is that of the pragma.
fn is_system_header(name: &[u8]) -> bool
    ensures { result ≡ bytes_eq name.now (codes "system_header") }
{
    name == b"system_header".as_slice()
}

/// The name that `#line` gives by the tokens after its number.
fn line_name<'h>(here: &'h Here, items: &'h [Item<'_>]) -> Option<&'h [u8]>
    ensures { option_map (λ name. name.now) result
        ≡ spec.line_name here.now (map seen_item items.now) }
{
    match items {
        [] => Some(&here.name),
        [name] if is_plain_string(name) => Some(name.spelling.bytes()),
        _ => None,
    }
}

/// The number that `#line` gives.
fn line_number(language: Language, item: &Item<'_>) -> Option<u32>
    ensures { result ≡ spec.line_number language (seen_item item.now) }
{
    if item.kind != Kind::Number {
        return None;
    }
    let number = decimal(item.spelling.bytes(), most_line(language))?;
    if number < least_line(language) {
        return None;
    }
    Some(number)
}

/// The least number that `#line` may give.
fn least_line(language: Language) -> u32
    ensures { result ≡ spec.least_line language }
{
    match language {
        Language::C17 | Language::Extended => 1,
        Language::Gnu => 0,
    }
}

/// The greatest one.
fn most_line(language: Language) -> u32
    ensures { result ≡ spec.most_line language }
{
    match language {
        Language::C17 | Language::Extended => 2_147_483_647,
        Language::Gnu => 4_294_967_295,
    }
}

/// The value of decimal digits, up to the given number. Zeros may be before it.
fn decimal(text: &[u8], most: u32) -> Option<u32>
    ensures { result ≡ (if list_all is_digit text.now && nat_le (number_in 10 text.now) most
        then Some (number_in 10 text.now) else None) }
{
    let mut number = 0;
    for byte in text {
        number = with_digit(number, *byte, most)?;
    }
    Some(number)
}

/// A number with one more digit after it; `None` where the byte is none, or the number is too large.
fn with_digit(number: u32, byte: u8, most: u32) -> Option<u32>
    ensures { result ≡ (if is_digit byte && nat_le (number * 10 + digit_of byte) most
        then Some (number * 10 + digit_of byte) else None) }
{
    if !byte.is_ascii_digit() {
        return None;
    }
    let more = u64::from(number) * 10 + u64::from(byte - b'0');
    if more > u64::from(most) {
        return None;
    }
    Some(more as u32)
}
