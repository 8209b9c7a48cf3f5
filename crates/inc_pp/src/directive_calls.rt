//! Directives that a call of GNU C goes over, and those that it does not.
ghost use Rattle.std.specs.Prelude.{◌≡◌, Some, map};
ghost use Rattle.inc_directive.specs.KindViews.{seen_kind};
ghost use Rattle.inc_directive.specs.LineKinds.{Other};
ghost use Rattle.inc_macro.specs.Macros.{is_among};
ghost use Rattle.inc_token.specs.Views.{seen};
ghost use Rattle.inc_pp.specs.Directives as spec;

use crate::pragmas::changes_macros;
use inc_directive::{DirectiveKind, LineKind};
use inc_text::Language;
use inc_token::Token;

/// Whether pragmas of this name are put out by gcc behind the other directives in a call.
fn is_late_name(name: &[u8]) -> bool
    ensures { result ≡ is_among name.now spec.late_names }
{
    name == b"message".as_slice() || name == b"redefine_extname".as_slice()
}

/// The same of a pragma with this after its name.
fn names_late(tokens: &[Token<'_>]) -> bool
    ensures { result ≡ spec.names_late (map seen tokens.now) }
{
    match tokens {
        [] => false,
        [first, ..] => is_late_name(first.spelling),
    }
}

/// Whether a call does not go over a pragma with this after its name.
fn ends_by_pragma(language: Language, tokens: &[Token<'_>]) -> bool
    ensures { result ≡ spec.ends_by_pragma language (map seen tokens.now) }
{
    changes_macros(language, tokens) || names_late(tokens)
}

/// Whether the first token is this name.
fn names_call(name: &[u8], tokens: &[Token<'_>]) -> bool
    ensures { result ≡ spec.names_call (Some name.now) (map seen tokens.now) }
{
    match tokens {
        [] => false,
        [first, ..] => first.spelling == name,
    }
}

/// Whether a call by a name does not go over a directive with these operands that is no include.
fn ends_by(kind: DirectiveKind, language: Language, name: &[u8], tokens: &[Token<'_>]) -> bool
    ensures { result ≡ spec.ends_call (Other kind) language (Some name.now) (map seen tokens.now) }
{
    match kind {
        DirectiveKind::Line => true,
        DirectiveKind::Define => names_call(name, tokens),
        DirectiveKind::Undef => names_call(name, tokens),
        DirectiveKind::Pragma => ends_by_pragma(language, tokens),
        _ => false,
    }
}

/// Whether a call by a name does not go over a directive with these operands.
pub(crate) fn ends_call(
    kind: LineKind<'_>,
    language: Language,
    name: &[u8],
    tokens: &[Token<'_>],
) -> bool
    ensures { result ≡ spec.ends_call (seen_kind kind.entry) language (Some name.now) (map seen tokens.now) }
{
    match kind {
        LineKind::Text => false,
        LineKind::Include(_, _) => true,
        LineKind::Other(other) => ends_by(other, language, name, tokens),
    }
}
