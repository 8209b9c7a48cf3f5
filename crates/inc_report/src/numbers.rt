//! The numbers of causes and faults.
ghost use Rattle.std.specs.Prelude.{◌≡◌};
ghost use Rattle.inc_report.specs.PpText as spec;

use inc_cond::CondFault;
use inc_directive::BalanceFault;
use inc_expand::ExpandFault;
use inc_macro::DefineFault;
use inc_pp::Cause;

/// The number of a cause, and that of the fault inside it, or 0.
pub(crate) fn cause_numbers(cause: Cause) -> (u64, u64)
    ensures { result ≡ spec.cause_numbers cause }
{
    match cause {
        Cause::Lex(_) => (1, 1),
        Cause::Balance(fault) => (2, balance_number(fault)),
        Cause::Define(fault) => (3, define_number(fault)),
        Cause::Expand(fault) => (4, expand_number(fault)),
        Cause::Condition(fault) => (5, condition_number(fault)),
        Cause::NoSuchHeader => (6, 0),
        Cause::BadInclude => (7, 0),
        Cause::BadLine => (8, 0),
        Cause::BadName => (9, 0),
        Cause::UnknownDirective => (10, 0),
        Cause::ErrorDirective => (11, 0),
        Cause::TooDeep => (12, 0),
        Cause::TooManyReads => (13, 0),
        Cause::BadPragma => (14, 0),
        Cause::Poisoned => (15, 0),
        Cause::TooMuchRead => (17, 0),
        Cause::TooMuchOutput => (18, 0),
    }
}

/// The number of a fault of conditionals.
fn balance_number(fault: BalanceFault) -> u64
    ensures { result ≡ spec.balance_number fault }
{
    match fault {
        BalanceFault::OpenIf { .. } => 1,
        BalanceFault::StrayBranch { .. } => 2,
        BalanceFault::AfterElse { .. } => 3,
        BalanceFault::NoMemory => 0,
    }
}

/// The number of a fault of a definition.
pub(crate) fn define_number(fault: DefineFault) -> u64
    ensures { result ≡ spec.define_number fault }
{
    match fault {
        DefineFault::NoName => 1,
        DefineFault::ReservedName => 2,
        DefineFault::BadParameters => 3,
        DefineFault::TooManyParameters => 4,
        DefineFault::StrayVaArgs => 5,
        DefineFault::HashWithoutParameter => 6,
        DefineFault::PasteAtEnd => 7,
        DefineFault::Redefinition => 8,
        DefineFault::BadWord => 9,
        DefineFault::BadOptional => 10,
        DefineFault::BadComma => 11,
        DefineFault::NoMemory => 0,
    }
}

/// The number of a fault of an expansion.
fn expand_number(fault: ExpandFault) -> u64
    ensures { result ≡ spec.expand_number fault }
{
    match fault {
        ExpandFault::UnclosedCall => 1,
        ExpandFault::ArgumentCount => 2,
        ExpandFault::BadString => 3,
        ExpandFault::BadPaste => 4,
        ExpandFault::TokenTooLong => 5,
        ExpandFault::OverBudget => 6,
        ExpandFault::NoMemory => 0,
    }
}

/// The number of a fault of a condition.
fn condition_number(fault: CondFault) -> u64
    ensures { result ≡ spec.condition_number fault }
{
    match fault {
        CondFault::Expand(_) => 1,
        CondFault::BadExpression => 2,
        CondFault::BadNumber => 3,
        CondFault::BadCharacter => 4,
        CondFault::TooNested => 5,
        CondFault::DivideByZero => 6,
        CondFault::BadShift => 7,
        CondFault::NoMemory => 0,
    }
}
