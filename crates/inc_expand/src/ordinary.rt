//! Tokens that pass alone: arguments of such tokens need no expansion.
ghost use Rattle.std.specs.Prelude.{◌≡◌, ◌≤◌, ℕ, true, Ok, length, map, take};
ghost use Rattle.inc_token.specs.Views.{seen};
ghost use Rattle.inc_expand.specs.Sets.{Sets};
ghost use Rattle.inc_expand.specs.Expansion.{Meter, levels, of_source};
ghost use Rattle.inc_expand.specs.Carriers.{carrier, carriers};
ghost use Rattle.inc_expand.specs.Cases.{surroundings_value};
ghost use Rattle.inc_expand.specs.Lent.{lent_tokens};
ghost use Rattle.inc_expand.specs.Streams.{PassAlone, PassesAlone};

use crate::carried::Carried;
use crate::cases::Surroundings;
use crate::lent::Lent;
use crate::places::Mode;
use inc_token::{Kind, Token};

impl<'a: 'b, 'b> Surroundings<'a, 'b> {
    /// Whether a token is seen at a glance to pass alone, whatever comes after it and whatever it hides.
    #[inline(always)]
    pub(crate) fn passes_alone(&self, token: &Carried<'a, 'b>) -> bool
        ensures { (s : Sets) → result ≡ true →
            PassesAlone (surroundings_value self.now) (carrier s token.now) }
    {
        match self.mode {
            Mode::Condition => match token.kind {
                Kind::Identifier => false,
                _ => true,
            },
            Mode::Plain => match token.kind {
                Kind::Identifier => !self.macros.is_defined(token.bytes()),
                _ => true,
            },
        }
    }

    /// Whether a token of text is seen at a glance to pass alone, whatever comes after it.
    fn is_ordinary(&self, token: &Token<'a>) -> bool
        ensures { result ≡ true →
            PassesAlone (surroundings_value self.now) (of_source (seen token.now)) }
    {
        match self.mode {
            Mode::Condition => match token.kind {
                Kind::Identifier => false,
                _ => true,
            },
            Mode::Plain => match token.kind {
                Kind::Identifier => !self.macros.is_defined(token.spelling),
                _ => true,
            },
        }
    }

    /// How many tokens at the front of a list that is handed in are ordinary.
    pub(crate) fn ordinary_count(&self, tokens: &[Token<'a>]) -> usize
        ensures alone { PassAlone (surroundings_value self.now)
            (map of_source (map seen (take result tokens.now))) }
        ensures within { result ≤ length tokens.now }
    {
        let mut count = 0;
        while count < tokens.len() && self.is_ordinary(&tokens[count]) {
            count += 1;
        }
        count
    }

    /// Whether all tokens of a list of replacements are seen at a glance to pass alone.
    fn carried_pass_alone(&self, tokens: &[Carried<'a, 'b>]) -> bool
        ensures { (s : Sets) → result ≡ true →
            PassAlone (surroundings_value self.now) (carriers s tokens.now) }
    {
        for token in tokens {
            if !self.passes_alone(token) {
                return false;
            }
        }
        true
    }

    /// Whether all tokens are seen at a glance to pass alone.
    fn pass_alone(&self, tokens: Lent<'_, 'a, 'b>) -> bool
        ensures { (s : Sets) → result ≡ true →
            PassAlone (surroundings_value self.now) (carriers s (lent_tokens tokens.entry)) }
    {
        match tokens {
            Lent::Source(tokens) => self.ordinary_count(tokens) == tokens.len(),
            Lent::Carried(tokens) => self.carried_pass_alone(tokens),
        }
    }

    /// Whether the tokens of an argument are seen at a glance to expand to themselves, with so many levels above its list. Most arguments
    /// are such, and need no list of their own.
    pub(crate) fn pass(&self, deeper: u32, tokens: Lent<'_, 'a, 'b>) -> bool
        ensures { (s : Sets) (meter : Meter) → result ≡ true →
            levels (surroundings_value self.now) deeper meter (carriers s (lent_tokens tokens.entry))
            ≡ Ok (carriers s (lent_tokens tokens.entry), meter) }
    {
        if deeper == 0 {
            return false;
        }
        self.pass_alone(tokens)
    }
}
