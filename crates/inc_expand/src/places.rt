//! Where and how a list of tokens is expanded.
ghost use Rattle.std.specs.Prelude.{◌≡◌, ◌+ℤ◌, pos, nat_abs};
ghost use Rattle.inc_expand.specs.Expansion.{presumed_line};
ghost use Rattle.inc_expand.specs.Places.{place_value};

use inc_text::Language;

/// How many numbers of lines there are in GNU C, 0 among them.
const LINES: u64 = 4_294_967_296;

/// What an expansion is for.
#[derive(Clone, Copy, Debug, PartialEq, Eq)]
pub enum Mode {
    /// Text.
    Plain,
    /// A controlling expression, in which `defined` keeps the name that it asks for (6.10.1).
    Condition,
}

/// Where tokens are, and when, for `__FILE__`, `__LINE__`, `__DATE__` and `__TIME__` (6.10.8.1) and what GNU C adds to them.
#[derive(Clone, Copy, Debug)]
pub struct Place<'a> {
    /// The string literal that `__FILE__` gives, with its quotes.
    pub name: &'a [u8],
    /// The path of the source, as `__BASE_FILE__` spells it between its quotes.
    pub base: &'a [u8],
    /// What is added to a physical line to make the presumed one.
    pub shift: i64,
    /// How many includes the tokens are below the source.
    pub level: u32,
    /// Whether they are those of a system header.
    pub is_system: bool,
    /// The day, as `Mmm dd yyyy`.
    pub date: [u8; 11],
    /// The time, as `hh:mm:ss`.
    pub time: [u8; 8],
    /// When a file was written, as `Ddd Mmm dd hh:mm:ss yyyy`.
    pub timestamp: [u8; 24],
}

impl<'a> Place<'a> {
    /// The line that `__LINE__` gives for a physical line.
    pub fn presumed_line(&self, language: Language, line: u32) -> u64
        ensures { result ≡ presumed_line language (place_value self.now) line }
    {
        match language {
            Language::C17 | Language::Extended => shifted(self.shift, line),
            Language::Gnu => shifted(self.shift, line) % LINES,
        }
    }
}

/// A physical line with what is added to it.
fn shifted(shift: i64, line: u32) -> u64
    ensures { result ≡ nat_abs (pos line +ℤ shift) }
{
    let line = u64::from(line);
    if shift < 0 {
        line.abs_diff(shift.unsigned_abs())
    } else {
        line + shift as u64
    }
}
