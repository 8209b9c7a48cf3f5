//! What the tokens of a body are for the expansion of its macro.
ghost use Rattle.std.specs.Prelude.{◌≡◌, ◌&&◌, bytes_eq, option_map};
ghost use Rattle.inc_token.specs.TokenLines.{is_hash};
ghost use Rattle.inc_macro.specs.Macros.{is_comma, is_paste, takes_comma, va_opt};
ghost use Rattle.inc_macro.specs.Roles.{is_plain_role, is_hash_operator, name_role, optional_at, word_role, role_at, before_after, before_next, comma_role, parameter_at};

use crate::parameters::Parameters;

/// What a token of a macro's body is for its expansion (ISO/IEC 9899:2018, 6.10.3.1 to 6.10.3.3). Parameters are
/// counted from 0, and the variable arguments are the last.
#[derive(Clone, Copy, Debug, PartialEq, Eq)]
pub enum Role {
    /// It stands for itself.
    Itself,
    /// The operator `##`, or `%:%:`. One that is right after such an operator is its operand, and stands for
    /// itself.
    Paste,
    /// The operator `#`, or `%:`, of a function-like macro.
    Hash,
    /// A parameter whose argument is taken as it is written, since it is beside `##` or after `#`.
    AsWritten(u8),
    /// A parameter whose argument is expanded.
    Expanded(u8),
    /// A `,` of GNU C, which stands unless these variable arguments are left out.
    Comma(u8),
    /// The `##` after such a `,`, which pastes nothing.
    Nothing,
    /// The `__VA_OPT__` of GNU C: whether what is in the parentheses after it stands depends on these variable arguments.
    Optional(u8),
}

/// Whether a token stands for itself, or is a parameter whose argument is expanded.
pub fn is_plain_role(role: Role) -> bool
    ensures { result ≡ is_plain_role role }
{
    matches!(role, Role::Itself | Role::Expanded(_))
}

/// What is right before a token of a body.
#[derive(Clone, Copy, Debug, PartialEq, Eq)]
pub enum Before {
    /// No operator.
    Neither,
    /// The operator `#`.
    AfterHash,
    /// The operator `##`.
    AfterPaste,
    /// A `##` that is the operand of another.
    AfterPastedPaste,
    /// A `,` that goes with the variable arguments.
    AfterComma,
}

/// Whether a token is spelled as the operator `#`.
pub fn is_hash(spelling: &[u8]) -> bool
    ensures { result ≡ is_hash spelling.now }
{
    matches!(spelling, b"#" | b"%:")
}

/// Whether a token is spelled as the operator `##`.
pub fn is_paste(spelling: &[u8]) -> bool
    ensures { result ≡ is_paste spelling.now }
{
    matches!(spelling, b"##" | b"%:%:")
}

/// Whether a token is spelled as a `,`.
pub fn is_comma(spelling: &[u8]) -> bool
    ensures { result ≡ is_comma spelling.now }
{
    matches!(spelling, b",")
}

/// Whether a token is the operator `#`.
fn is_hash_operator(params: &Option<Parameters>, spelling: &[u8]) -> bool
    ensures { result ≡ is_hash_operator params.now spelling.now }
{
    params.is_some() && is_hash(spelling)
}

/// The role of a token that is no operator, by its place among the parameters.
fn word_role(is_written: bool, parameter: Option<u8>) -> Role
    ensures { result ≡ word_role is_written parameter }
{
    match parameter {
        None => Role::Itself,
        Some(n) if is_written => Role::AsWritten(n),
        Some(n) => Role::Expanded(n),
    }
}

/// The same, where `optional` is the place of the variable arguments if the token is `__VA_OPT__`.
fn name_role(is_written: bool, parameter: Option<u8>, optional: Option<u8>) -> Role
    ensures { result ≡ name_role is_written parameter optional }
{
    match optional {
        None => word_role(is_written, parameter),
        Some(n) => Role::Optional(n),
    }
}

/// The role of a token. `ends`: a `##` comes next.
pub fn role_at(params: &Option<Parameters>, before: Before, ends: bool, spelling: &[u8]) -> Role
    ensures { result ≡ role_at params.now before ends spelling.now }
{
    if before == Before::AfterHash {
        return name_role(
            true,
            parameter_at(params, spelling),
            optional_at(params, spelling),
        );
    }
    if is_paste(spelling) {
        return match before {
            Before::AfterPaste => Role::Itself,
            Before::AfterComma => Role::Nothing,
            _ => Role::Paste,
        };
    }
    if is_hash_operator(params, spelling) {
        return Role::Hash;
    }
    name_role(
        before != Before::Neither || ends,
        parameter_at(params, spelling),
        optional_at(params, spelling),
    )
}

/// The place of the parameter with this name.
fn parameter_at(params: &Option<Parameters>, name: &[u8]) -> Option<u8>
    ensures { result ≡ parameter_at params.now name.now }
{
    match params {
        Some(params) => params.place_of(name),
        None => None,
    }
}

/// Whether a token is spelled `__VA_OPT__`.
pub fn is_va_opt(spelling: &[u8]) -> bool
    ensures { result ≡ bytes_eq va_opt spelling.now }
{
    b"__VA_OPT__".as_slice() == spelling
}

/// Whether it is, and has a meaning in a macro with these parameters.
fn is_optional(params: &Parameters, spelling: &[u8]) -> bool
    ensures { result ≡ (takes_comma params.now && bytes_eq va_opt spelling.now) }
{
    params.takes_comma() && is_va_opt(spelling)
}

/// The place of the variable arguments, where this is the `__VA_OPT__` of GNU C.
fn optional_at(params: &Option<Parameters>, spelling: &[u8]) -> Option<u8>
    ensures { result ≡ optional_at params.now spelling.now }
{
    match params {
        Some(params) if is_optional(params, spelling) => Some(params.count() as u8),
        _ => None,
    }
}

/// The role of a token, where `comma` is the place of the variable arguments that it goes with, if it is a `,` that goes with some.
pub fn comma_role(comma: Option<u8>, role: Role) -> Role
    ensures { result ≡ comma_role comma role }
{
    match comma {
        None => role,
        Some(n) => Role::Comma(n),
    }
}

/// What is before the token after such a `,`, or after any other token.
pub fn before_after(comma: Option<u8>, before: Before) -> Before
    ensures { result ≡ before_after comma before }
{
    match comma {
        None => before,
        Some(_) => Before::AfterComma,
    }
}

/// What is before the token after this one.
pub fn before_next(params: &Option<Parameters>, before: Before, spelling: &[u8]) -> Before
    ensures { result ≡ before_next params.now before spelling.now }
{
    if is_paste(spelling) {
        match before {
            Before::AfterPaste => Before::AfterPastedPaste,
            _ => Before::AfterPaste,
        }
    } else if is_hash_operator(params, spelling) {
        Before::AfterHash
    } else {
        Before::Neither
    }
}
