//! Why a name is not replaced again (ISO/IEC 9899:2018, 6.10.3.4 paragraph 2).
ghost use Rattle.std.specs.Prelude.{◌≡◌};
ghost use Rattle.inc_expand.specs.Expansion.{rule_of, spoken};

use inc_text::Language;

/// Which names a token hides.
#[derive(Clone, Copy)]
pub(crate) enum Rule {
    /// Those whose replacement it came from, for good.
    BySets,
    /// Those in whose replacement it stands; for good only its own, and only where it was met there.
    ByContexts,
}

impl Rule {
    /// The language whose tokens `##` makes.
    pub(crate) fn language(self) -> Language
        ensures { result ≡ spoken self }
    {
        match self {
            Rule::BySets => Language::C17,
            Rule::ByContexts => Language::Gnu,
        }
    }
}

/// The rule of a language.
pub(crate) fn rule_of(language: Language) -> Rule
    ensures { result ≡ rule_of language }
{
    match language {
        Language::C17 | Language::Extended => Rule::BySets,
        Language::Gnu => Rule::ByContexts,
    }
}
