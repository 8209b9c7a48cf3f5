//! Names that are predefined or reserved.
ghost use Rattle.std.specs.Prelude.{◌≡◌, ◌==◌, ◌||◌};
ghost use Rattle.inc_macro.specs.Macros.{asked_names, asks_headers, gnu_names, header_questions, is_among, is_reserved, place_names, predefined_names};

use inc_text::Language;

/// Whether a predefined macro has a name of this length: that test is all that most names cost.
#[inline(always)]
fn is_predefined_length(length: usize) -> bool
    ensures { result ≡ ((length == 8) || ((length == 11) || ((length == 13) || ((length == 15)
        || ((length == 16) || (length == 17)))))) }
{
    length == 8 || length == 11 || length == 13 || length == 15 || length == 16 || length == 17
}

/// Whether a name is that of a predefined macro (ISO/IEC 9899:2018, 6.10.8).
#[inline(always)]
pub fn is_predefined(language: Language, name: &[u8]) -> bool
    ensures { result ≡ is_among name.now (predefined_names language) }
{
    if !is_predefined_length(name.len()) {
        return false;
    }
    is_listed(language, name)
}

/// The same, by all names.
fn is_listed(language: Language, name: &[u8]) -> bool
    ensures { result ≡ is_among name.now (predefined_names language) }
{
    match language {
        Language::C17 | Language::Extended => is_place(name) || is_conformance(name),
        Language::Gnu => is_place(name) || is_gnu_name(name),
    }
}

/// Whether a name says where or when a token is read.
fn is_place(name: &[u8]) -> bool
    ensures { result ≡ is_among name.now place_names }
{
    name == b"__LINE__".as_slice()
        || name == b"__FILE__".as_slice()
        || name == b"__DATE__".as_slice()
        || name == b"__TIME__".as_slice()
}

/// Whether a name is one of those that GNU C adds.
fn is_gnu_name(name: &[u8]) -> bool
    ensures { result ≡ is_among name.now gnu_names }
{
    name == b"__BASE_FILE__".as_slice()
        || name == b"__INCLUDE_LEVEL__".as_slice()
        || name == b"__TIMESTAMP__".as_slice()
        || name == b"__COUNTER__".as_slice()
}

/// Whether a name says what an implementation conforms to.
fn is_conformance(name: &[u8]) -> bool
    ensures { is_among name.now (predefined_names Language.C17)
        ≡ (is_among name.now place_names || result) }
{
    name == b"__STDC__".as_slice()
        || name == b"__STDC_HOSTED__".as_slice()
        || name == b"__STDC_VERSION__".as_slice()
}

/// The name that stands for the variable arguments (6.10.3 paragraph 5).
pub const VA_ARGS: &[u8] = b"__VA_ARGS__";

/// Whether a name may not be defined, nor its definition removed.
pub fn is_reserved(language: Language, name: &[u8]) -> bool
    ensures { result ≡ is_reserved language name.now }
{
    is_asked(language, name) || is_predefined(language, name)
}

/// Whether `#if` or a replacement list asks by this name.
fn is_asked(language: Language, name: &[u8]) -> bool
    ensures { result ≡ is_among name.now (asked_names language) }
{
    match language {
        Language::C17 | Language::Extended => is_asked_in_c(name),
        Language::Gnu => is_asked_in_gnu(name),
    }
}

/// The same in C.
fn is_asked_in_c(name: &[u8]) -> bool
    ensures { result ≡ is_among name.now (asked_names Language.C17) }
{
    name == b"defined".as_slice() || name == VA_ARGS
}

/// The same in GNU C.
fn is_asked_in_gnu(name: &[u8]) -> bool
    ensures { result ≡ is_among name.now (asked_names Language.Gnu) }
{
    name == b"defined".as_slice()
        || name == VA_ARGS
        || name == b"__VA_OPT__".as_slice()
        || is_header_question(name)
}

/// Whether `#if` asks by this name whether a header is found.
fn is_header_question(name: &[u8]) -> bool
    ensures { result ≡ is_among name.now header_questions }
{
    name == b"__has_include".as_slice() || name == b"__has_include_next".as_slice()
}

/// Whether `#if` asks by this name in this language whether a header is found.
#[inline(always)]
pub fn asks_headers(language: Language, name: &[u8]) -> bool
    ensures { result ≡ asks_headers language name.now }
{
    match language {
        Language::C17 | Language::Extended => false,
        Language::Gnu => is_header_question(name),
    }
}
