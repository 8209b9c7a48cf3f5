//! Classes of tokens, and the language settings.
ghost use Rattle.std.specs.Prelude.{◌≡◌};
ghost use Rattle.inc_token.specs.KindCodes.{code_of, kind_of};

/// The class of a preprocessing token (ISO/IEC 9899:2018, 6.4).
#[derive(Clone, Copy, Debug, PartialEq, Eq)]
pub enum Kind {
    /// The name of a header in an include directive, with its delimiters (6.4.7).
    HeaderName,
    /// 6.4.2.
    Identifier,
    /// A preprocessing number (6.4.8).
    Number,
    /// A character constant (6.4.4.4).
    Char,
    /// A string literal (6.4.5).
    Str,
    /// 6.4.6.
    Punct,
    /// A byte that is no white space and begins none of the others; in GNU C a quote without a partner, with its prefix and the rest of its
    /// line, too.
    Other,
}

impl Kind {
    /// The number of the class, below 8, for tables that keep a token in few bits.
    pub fn code(self) -> u32
        ensures { result ≡ code_of self }
    {
        match self {
            Kind::HeaderName => 0,
            Kind::Identifier => 1,
            Kind::Number => 2,
            Kind::Char => 3,
            Kind::Str => 4,
            Kind::Punct => 5,
            Kind::Other => 6,
        }
    }

    /// The class with a number; [`Kind::Other`] for each number that is none's.
    pub fn from_code(code: u32) -> Kind
        ensures { result ≡ kind_of code }
    {
        match code {
            0 => Kind::HeaderName,
            1 => Kind::Identifier,
            2 => Kind::Number,
            3 => Kind::Char,
            4 => Kind::Str,
            5 => Kind::Punct,
            _ => Kind::Other,
        }
    }
}

/// The name by which a directive includes.
#[derive(Clone, Copy, Debug, PartialEq, Eq)]
pub enum IncludeName {
    /// `#include` (ISO/IEC 9899:2018, 6.10.2).
    Include,
    /// `#include_next`, of GNU C alone: it searches from the directory after the one in which its file was found.
    IncludeNext,
    /// `#import`, of GNU C alone: it reads no file that was read before.
    Import,
}
