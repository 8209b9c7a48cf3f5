//! Kinds of lines.
ghost use Rattle.std.specs.Prelude.{◌≡◌, ◌++◌, map, option_map, unwrap_or};
ghost use Rattle.inc_token.specs.Prefixes.{first_operand};
ghost use Rattle.inc_token.specs.Spellings.{class_of};
ghost use Rattle.inc_token.specs.Views.{seen, seen_operand};
ghost use Rattle.inc_directive.specs.declared.kinds.DirectiveKind.TheVariants.{Unknown};
ghost use Rattle.inc_directive.specs.LineKinds.{search_after, line_kind, other_kind, directive_kind, kind_of_name, named_kind, kind_in, named_kinds, extended_kinds, added_kinds, unnamed_kind, marker_kind, target_of, expanded_target, header_target, inner_bytes};
ghost use Rattle.inc_directive.specs.KindViews.{seen_kind, seen_target};

use inc_text::Language;
use inc_token::{IncludeName, Kind, Operand, Prefix, Token, include_name, is_hash, kind_of};

/// What an include directive names (ISO/IEC 9899:2018, 6.10.2).
#[derive(Clone, Copy, Debug)]
pub enum Target<'a> {
    /// The name between two `"`.
    Quoted(&'a [u8]),
    /// The name between `<` and `>`.
    Angled(&'a [u8]),
    /// Tokens that are to be expanded, the first of which is this identifier.
    ByName(&'a [u8]),
    /// Other tokens that are to be expanded.
    Computed,
    /// Nothing.
    Nothing,
}

/// What a directive is that is no include directive, by its name.
#[derive(Clone, Copy, Debug, PartialEq, Eq)]
pub enum DirectiveKind {
    /// `#if`.
    If,
    /// `#ifdef`.
    Ifdef,
    /// `#ifndef`.
    Ifndef,
    /// `#elif`.
    Elif,
    /// `#elifdef`, which C17 does not know.
    Elifdef,
    /// `#elifndef`, which C17 does not know.
    Elifndef,
    /// `#else`.
    Else,
    /// `#endif`.
    Endif,
    /// `#define`.
    Define,
    /// `#undef`.
    Undef,
    /// `#line`, or a line marker of GNU C, as `# 3 "f" 1`.
    Line,
    /// `#error`.
    Error,
    /// `#warning`, which C17 does not know.
    Warning,
    /// `#pragma`.
    Pragma,
    /// `#ident` or `#sccs`, of GNU C alone.
    Ident,
    /// `#` and nothing else.
    Null,
    /// `#embed`, which is no directive of C17, and but for GNU C `#include_next` and `#import`.
    Foreign,
    /// Any other directive.
    Unknown,
}

/// What a line is: text, or a directive by its first tokens.
#[derive(Clone, Copy, Debug)]
pub enum LineKind<'a> {
    /// No directive.
    Text,
    /// An include directive, by its name.
    Include(IncludeName, Target<'a>),
    /// Any other directive.
    Other(DirectiveKind),
}

/// What a line is to the groups of its file (ISO/IEC 9899:2018, 6.10 paragraph 1).
#[derive(Clone, Copy, Debug, PartialEq, Eq)]
pub enum Role {
    /// Opens an if-group, and with it an if-section.
    IfGroup,
    /// Opens an elif-group.
    ElifGroup,
    /// Opens an else-group.
    ElseGroup,
    /// Ends an if-section.
    EndifLine,
    /// No directive.
    TextLine,
    /// Any other directive; one that C does not know counts too.
    ControlLine,
}

/// The kind of a line by its tokens. `%:` acts as `#` (6.4.6).
pub fn classify<'a>(line: &[Token<'a>], language: Language) -> LineKind<'a>
    ensures { seen_kind result ≡ line_kind language (map seen line.now) }
{
    match line {
        [] => LineKind::Text,
        [first, rest @ ..] => {
            if is_hash(first.spelling) {
                directive_kind(rest, language)
            } else {
                LineKind::Text
            }
        }
    }
}

/// The kind of a directive by the tokens after its `#`.
fn directive_kind<'a>(tokens: &[Token<'a>], language: Language) -> LineKind<'a>
    ensures { seen_kind result ≡ directive_kind language (map seen tokens.now) }
{
    match tokens {
        [] => LineKind::Other(DirectiveKind::Null),
        [name, rest @ ..] => named_kind(name.spelling, first_operand(rest), language),
    }
}

/// The first of the tokens after the name of an include directive.
fn first_operand<'a>(tokens: &[Token<'a>]) -> Option<Operand<'a>>
    ensures { option_map seen_operand result ≡ first_operand (map seen tokens.now) }
{
    match tokens {
        [] => None,
        [first, ..] => Some(Operand {
            kind: first.kind,
            spelling: first.spelling,
        }),
    }
}

/// The kind of a directive by its prefix, which is that of its whole line.
#[inline(always)]
pub(crate) fn prefix_kind<'a>(prefix: Prefix<'a>, language: Language) -> LineKind<'a>
    ensures { seen_kind result ≡ kind_of_name language (option_map (λ name. name.now) prefix.entry.name)
        (option_map seen_operand prefix.entry.operand) }
{
    match prefix.name {
        None => LineKind::Other(DirectiveKind::Null),
        Some(name) => named_kind(name, prefix.operand, language),
    }
}

/// The kind of a directive by its name and the token after it, which counts of an include directive alone.
#[inline(always)]
fn named_kind<'a>(name: &[u8], operand: Option<Operand<'a>>, language: Language) -> LineKind<'a>
    ensures { seen_kind result ≡ named_kind language name.now
        (option_map seen_operand operand.entry) }
{
    match include_name(language, name) {
        Some(by) => LineKind::Include(by, target_of(operand)),
        None => LineKind::Other(other_kind(name, language)),
    }
}

/// The kind of a directive other than an include directive, by its name.
#[inline(always)]
fn other_kind(name: &[u8], language: Language) -> DirectiveKind
    ensures { result ≡ other_kind language name.now }
{
    match known_kind(name) {
        Some(kind) => kind,
        None => match language {
            Language::C17 => DirectiveKind::Unknown,
            Language::Extended => extended_kind(name).unwrap_or(DirectiveKind::Unknown),
            Language::Gnu => gnu_kind(name),
        },
    }
}

/// The kind of a directive that each language knows, the include directive aside.
#[inline(always)]
fn known_kind(name: &[u8]) -> Option<DirectiveKind>
    ensures { result ≡ kind_in named_kinds name.now }
{
    if name == b"if".as_slice() {
        Some(DirectiveKind::If)
    } else if name == b"ifdef".as_slice() {
        Some(DirectiveKind::Ifdef)
    } else if name == b"ifndef".as_slice() {
        Some(DirectiveKind::Ifndef)
    } else if name == b"elif".as_slice() {
        Some(DirectiveKind::Elif)
    } else if name == b"else".as_slice() {
        Some(DirectiveKind::Else)
    } else if name == b"endif".as_slice() {
        Some(DirectiveKind::Endif)
    } else if name == b"define".as_slice() {
        Some(DirectiveKind::Define)
    } else if name == b"undef".as_slice() {
        Some(DirectiveKind::Undef)
    } else if name == b"line".as_slice() {
        Some(DirectiveKind::Line)
    } else if name == b"error".as_slice() {
        Some(DirectiveKind::Error)
    } else if name == b"pragma".as_slice() {
        Some(DirectiveKind::Pragma)
    } else if name == b"include_next".as_slice() {
        Some(DirectiveKind::Foreign)
    } else if name == b"import".as_slice() {
        Some(DirectiveKind::Foreign)
    } else if name == b"embed".as_slice() {
        Some(DirectiveKind::Foreign)
    } else {
        None
    }
}

/// The kind of a directive that the extended language adds.
fn extended_kind(name: &[u8]) -> Option<DirectiveKind>
    ensures { result ≡ kind_in extended_kinds name.now }
{
    if name == b"elifdef".as_slice() {
        Some(DirectiveKind::Elifdef)
    } else if name == b"elifndef".as_slice() {
        Some(DirectiveKind::Elifndef)
    } else if name == b"warning".as_slice() {
        Some(DirectiveKind::Warning)
    } else {
        None
    }
}

/// The kind of a directive that GNU C adds, which knows those of the extended language too, or of a line marker.
fn gnu_kind(name: &[u8]) -> DirectiveKind
    ensures { result ≡ unwrap_or (kind_in (added_kinds Language.Gnu) name.now)
        (unnamed_kind Language.Gnu name.now) }
{
    match extended_kind(name) {
        Some(kind) => kind,
        None => {
            if name == b"ident".as_slice() {
                DirectiveKind::Ident
            } else if name == b"sccs".as_slice() {
                DirectiveKind::Ident
            } else {
                marker_kind(name)
            }
        }
    }
}

/// The kind of a directive that may be a line marker, with a number in place of a name.
fn marker_kind(name: &[u8]) -> DirectiveKind
    ensures { result ≡ marker_kind (class_of Language.Gnu name.now) }
{
    match kind_of(Language::Gnu, name) {
        Some(Kind::Number) => DirectiveKind::Line,
        _ => DirectiveKind::Unknown,
    }
}

/// The target that the token after the name of an include directive gives.
fn target_of<'a>(operand: Option<Operand<'a>>) -> Target<'a>
    ensures { seen_target result ≡ target_of (option_map seen_operand operand.entry) }
{
    match operand {
        None => Target::Nothing,
        Some(first) => {
            if first.kind == Kind::HeaderName {
                header_target(first.spelling)
            } else {
                expanded_target(first)
            }
        }
    }
}

/// The target that tokens give which are to be expanded, by the first of them.
fn expanded_target<'a>(first: Operand<'a>) -> Target<'a>
    ensures { seen_target result ≡ expanded_target first.entry.kind first.entry.spelling.now }
{
    match first.kind {
        Kind::Identifier => Target::ByName(first.spelling),
        _ => Target::Computed,
    }
}

/// The target that a header name gives: the name without its delimiters.
fn header_target<'a>(spelling: &'a [u8]) -> Target<'a>
    ensures { seen_target result ≡ header_target spelling.now }
{
    let name = inner_bytes(spelling);
    if spelling.first() == Some(&b'"') {
        Target::Quoted(name)
    } else {
        Target::Angled(name)
    }
}

/// A text without its first and its last byte.
fn inner_bytes(text: &[u8]) -> &[u8]
    ensures { result.now ≡ inner_bytes text.now }
{
    if text.len() < 2 {
        return &[];
    }
    &text[1..text.len() - 1]
}

/// The directory of the include path, from 0, with which the search of an include directive begins, where that of an `#include_next` in the
/// same file begins at `next`. `None`: with the file's own directory if the name is quoted, and then the first.
pub fn search_after(by: IncludeName, next: Option<usize>) -> Option<usize>
    ensures { result ≡ search_after by next }
{
    match by {
        IncludeName::IncludeNext => next,
        IncludeName::Include | IncludeName::Import => None,
    }
}
