//! The language settings.
ghost use Rattle.std.specs.Prelude.{◌≡◌};
ghost use Rattle.inc_text.specs.Languages.{is_gnu};

/// The language that a source is written in.
#[derive(Clone, Copy, Debug, PartialEq, Eq)]
pub enum Language {
    /// ISO/IEC 9899:2018.
    C17,
    /// The same with `#elifdef`, `#elifndef`, `#warning` and binary constants, as in ISO/IEC 9899:2024.
    Extended,
    /// GNU C, as gcc has it under `-std=gnu17`: without trigraphs, with `$` as a letter, and with its own directives and macros.
    Gnu,
}

impl Language {
    /// Whether this is GNU C.
    #[inline(always)]
    pub fn is_gnu(self) -> bool
        ensures { result ≡ is_gnu self }
    {
        match self {
            Language::C17 | Language::Extended => false,
            Language::Gnu => true,
        }
    }
}
