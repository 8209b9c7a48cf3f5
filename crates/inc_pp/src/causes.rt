//! Where and why a preprocessing stops.
use inc_cond::CondFault;
use inc_directive::BalanceFault;
use inc_expand::ExpandFault;
use inc_lookup::FileId;
use inc_macro::DefineFault;
use inc_token::LexFault;

/// Why a preprocessing stops. None of these is that memory ran out.
#[derive(Clone, Copy, Debug, PartialEq, Eq)]
pub enum Cause {
    /// The file has an unterminated comment.
    Lex(LexFault),
    /// The conditionals of the file do not balance.
    Balance(BalanceFault),
    /// A `#define` or `#undef` makes no definition, or removes none.
    Define(DefineFault),
    /// Macros cannot be expanded.
    Expand(ExpandFault),
    /// The condition of an `#if` or `#elif` has no value.
    Condition(CondFault),
    /// The header of an include directive is not found.
    NoSuchHeader,
    /// An include directive names no header.
    BadInclude,
    /// A `#line` has no number from 1 to 2,147,483,647, or something else than one string after it.
    BadLine,
    /// An `#ifdef`, `#ifndef`, `#elifdef` or `#elifndef` has no name.
    BadName,
    /// A directive that C does not have.
    UnknownDirective,
    /// An `#error`.
    ErrorDirective,
    /// Includes are nested more than 200 deep.
    TooDeep,
    /// More than 100,000 files would be read.
    TooManyReads,
    /// A `_Pragma` is followed by something else than a string literal in parentheses, or its text is no line: a comment in it has no end;
    /// or its pragma is `push_macro`, `pop_macro` or `GCC poison`; or a `#pragma` of the first two has no name in a string literal in
    /// parentheses, or one of the last something else than names that may be undefined.
    BadPragma,
    /// A line that is read has a name that `#pragma GCC poison` took away.
    Poisoned,
    /// More bytes would be read than the settings allow. The stop is at the include directive that leads to the file, or at the first
    /// line of the source.
    TooMuchRead,
    /// The text of what is put out would be longer than the settings allow. The stop is at the first of the text lines with which it
    /// is, or at the pragma.
    TooMuchOutput,
}

/// Where and why a preprocessing stopped.
#[derive(Clone, Copy, Debug, PartialEq, Eq)]
pub struct Stop {
    /// The file.
    pub file: FileId,
    /// The physical line: that of the directive, or of the first token of a run of text lines.
    pub line: u32,
    /// Why.
    pub cause: Cause,
}
