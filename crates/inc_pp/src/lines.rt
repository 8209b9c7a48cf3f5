//! Parts of a directive's line.
ghost use Rattle.std.specs.Prelude.{◌≡◌, map, drop};
ghost use Rattle.inc_directive.specs.LineKinds.{line_of_tokens};
ghost use Rattle.inc_token.specs.Views.{seen};

use inc_token::Token;

/// The physical line of the first token, 0 where there is none.
pub(crate) fn first_line(tokens: &[Token<'_>]) -> u32
    ensures { result ≡ line_of_tokens (map seen tokens.now) }
{
    match tokens {
        [] => 0,
        [first, ..] => first.line,
    }
}

/// The tokens after `#`.
pub(crate) fn after_first<'t, 'a>(tokens: &'t [Token<'a>]) -> &'t [Token<'a>]
    ensures { map seen result.now ≡ drop 1 (map seen tokens.now) }
{
    match tokens {
        [_, rest @ ..] => rest,
        [] => &[],
    }
}

/// The tokens after `#` and the directive's name.
pub(crate) fn operands<'t, 'a>(tokens: &'t [Token<'a>]) -> &'t [Token<'a>]
    ensures { map seen result.now ≡ drop 2 (map seen tokens.now) }
{
    match tokens {
        [_, _, rest @ ..] => rest,
        _ => &[],
    }
}
