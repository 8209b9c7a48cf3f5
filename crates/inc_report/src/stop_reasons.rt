//! The line that says why a preprocessing stopped, beside its stop.
ghost use Rattle.std.specs.Prelude.{◌≡◌, ◌<◌, IfOk, IfSome, length};
ghost use Rattle.inc_report.specs.StopReasons.{cause_words, condition_words, define_words, expand_words, stop_reason, stop_reasons};

use inc_answers::fault_reasons::{balance_words, reason_line};
use inc_answers::missing_notes::Notes;
use inc_cond::CondFault;
use inc_expand::ExpandFault;
use inc_lookup::Project;
use inc_macro::DefineFault;
use inc_pp::{Cause, Stop};
use std::alloc::{AllocError, Global};

/// The line on a stop, if there is one.
pub(crate) fn stop_reasons(
    alloc: Global,
    project: &Project<'_>,
    stop: Option<Stop>,
) -> Result<Notes, AllocError>
    requires { IfSome stop (λ s. s.file < length project.now.paths) }
    ensures { IfOk result (λ notes. notes ≡ stop_reasons project.now stop) }
{
    match stop {
        Some(stop) => stop_reason(alloc, project, stop),
        None => Ok(Notes::none()),
    }
}

/// The line on a stop.
fn stop_reason(alloc: Global, project: &Project<'_>, stop: Stop) -> Result<Notes, AllocError>
    requires { stop.file < length project.now.paths }
    ensures { IfOk result (λ notes. notes ≡ stop_reason project.now stop) }
{
    let words = cause_words(stop.cause);
    reason_line(alloc, project.path(stop.file), stop.line, words)
}

/// A cause in words.
fn cause_words(cause: Cause) -> &'static [u8]
    ensures { result.now ≡ cause_words cause }
{
    match cause {
        Cause::Lex(_) => b"unterminated comment",
        Cause::Balance(fault) => balance_words(fault),
        Cause::Define(fault) => define_words(fault),
        Cause::Expand(fault) => expand_words(fault),
        Cause::Condition(fault) => condition_words(fault),
        Cause::NoSuchHeader => b"header not found",
        Cause::BadInclude => b"an include without a header name",
        Cause::BadLine => b"bad #line",
        Cause::BadName => b"no macro name",
        Cause::UnknownDirective => b"unknown directive",
        Cause::ErrorDirective => b"#error",
        Cause::TooDeep => b"includes nested more than 200 deep",
        Cause::TooManyReads => b"more than 100,000 files read",
        Cause::BadPragma => b"bad pragma",
        Cause::Poisoned => b"poisoned name",
        Cause::TooMuchRead => b"too many bytes read",
        Cause::TooMuchOutput => b"too much output",
    }
}

/// A fault of a definition in words.
fn define_words(fault: DefineFault) -> &'static [u8]
    ensures { result.now ≡ define_words fault }
{
    match fault {
        DefineFault::NoName => b"no macro name",
        DefineFault::ReservedName => b"the macro name is reserved",
        DefineFault::BadParameters => b"bad macro parameters",
        DefineFault::TooManyParameters => b"more than 255 macro parameters",
        DefineFault::StrayVaArgs => b"__VA_ARGS__ in a macro without `...`",
        DefineFault::HashWithoutParameter => b"`#` without a parameter after it",
        DefineFault::PasteAtEnd => b"`##` at an end of the macro body",
        DefineFault::Redefinition => b"the macro is defined otherwise",
        DefineFault::BadWord => b"bad macro definition",
        DefineFault::BadOptional => b"bad __VA_OPT__",
        DefineFault::BadComma => b"`,` in a chain of `##`",
        DefineFault::NoMemory => b"",
    }
}

/// A fault of an expansion in words.
fn expand_words(fault: ExpandFault) -> &'static [u8]
    ensures { result.now ≡ expand_words fault }
{
    match fault {
        ExpandFault::UnclosedCall => b"unterminated call of a macro",
        ExpandFault::ArgumentCount => b"wrong number of macro arguments",
        ExpandFault::BadString => b"`#` does not give a string literal",
        ExpandFault::BadPaste => b"`##` does not give a token",
        ExpandFault::TokenTooLong => b"token of more than 65,536 bytes",
        ExpandFault::OverBudget => b"macro expansion takes too much work",
        ExpandFault::NoMemory => b"",
    }
}

/// A fault of a condition in words.
fn condition_words(fault: CondFault) -> &'static [u8]
    ensures { result.now ≡ condition_words fault }
{
    match fault {
        CondFault::Expand(fault) => expand_words(fault),
        CondFault::BadExpression => b"bad expression in a condition",
        CondFault::BadNumber => b"not an integer constant below 2^64",
        CondFault::BadCharacter => b"character constant without a value",
        CondFault::TooNested => b"condition nested more than 256 deep",
        CondFault::DivideByZero => b"division by zero",
        CondFault::BadShift => b"shift by less than 0 or more than 63",
        CondFault::NoMemory => b"",
    }
}
