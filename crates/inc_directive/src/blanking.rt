//! Sources in which include directives are blanked.
ghost use Rattle.std.specs.Prelude.{◌≡◌, ◌≤◌, ◌||◌, ℕ, Ok, IfOk, OnOk, filter, length, map};
ghost use Rattle.inc_text.specs.Flags.{flag_at};
ghost use Rattle.inc_text.specs.PhaseText.{phase_text};
ghost use Rattle.inc_text.specs.declared.devices.TheConstants.{LONGEST_FILE};
ghost use Rattle.inc_token.specs.Blanking.{blanked_lines};
ghost use Rattle.inc_token.specs.TokenLines.{token_lines};
ghost use Rattle.inc_token.specs.Views.{seen};
ghost use Rattle.inc_directive.specs.BlankedSources.{blanked_source, includes_on, is_include_on};
ghost use Rattle.inc_directive.specs.LineKinds.{line_kind, line_of_tokens};
ghost use Rattle.inc_directive.specs.Removal.{is_among, is_include, is_removed};

use crate::kinds::{LineKind, classify};
use inc_text::{Language, Text, TextFault, flag_at, set_flag, splice};
use inc_token::{LexFault, Lines, Token, blank, lex};
use std::alloc::{AllocError, Global};

/// A source with each include directive blanked that begins on one of these physical lines. A source in which a comment is not closed
/// stays as it is. The time is that of lexing the source.
pub fn blank_includes(
    alloc: Global,
    source: &[u8],
    language: Language,
    remove: &[u32],
) -> Result<Vec<u8>, AllocError>
    requires { length source.now ≤ LONGEST_FILE }
    ensures { IfOk result (λ bytes. bytes.items
        ≡ blanked_source language (is_among remove.now) source.now) }
{
    match splice(alloc, source, language) {
        Ok(text) => blank_text(alloc, source, &text, language, remove),
        // The source is not too long.
        Err(TextFault::TooLong) => unreachable!(),
        Err(TextFault::NoMemory) => Err(AllocError),
    }
}

/// The same, where the text of the source is at hand.
fn blank_text(
    alloc: Global,
    source: &[u8],
    text: &Text,
    language: Language,
    remove: &[u32],
) -> Result<Vec<u8>, AllocError>
    requires { text.now ≡ phase_text language source.now }
    ensures { IfOk result (λ bytes. bytes.items
        ≡ blanked_source language (is_among remove.now) source.now) }
{
    match lex(alloc, text, language) {
        Ok(lines) => blank_directives(alloc, source, &lines, language, remove),
        Err(LexFault::NoMemory) => Err(AllocError),
        Err(LexFault::OpenComment { .. }) => Vec::from_slice(alloc, source),
    }
}

/// The same, where the lines of the source are at hand.
fn blank_directives(
    alloc: Global,
    source: &[u8],
    lines: &Lines<'_>,
    language: Language,
    remove: &[u32],
) -> Result<Vec<u8>, AllocError>
    requires { token_lines language (phase_text language source.now) ≡ Ok lines.now }
    ensures { IfOk result (λ bytes. bytes.items
        ≡ blanked_lines (is_removed language (is_among remove.now)) lines.now source.now) }
{
    let flags = flag_includes(alloc, lines, language)?;
    let begun = keep_flagged(alloc, remove, &flags)?;
    let bytes = blank(alloc, source, lines, &begun)?;
    Ok(bytes)
}

/// Flags that say on which physical lines an include directive begins.
fn flag_includes(
    alloc: Global,
    lines: &Lines<'_>,
    language: Language,
) -> Result<Vec<bool>, AllocError>
    ensures { IfOk result (λ flags. (n : ℕ) → flag_at flags.items n ≡ includes_on language lines.now n) }
{
    let mut flags = Vec::new(alloc);
    for i in 0..lines.count() {
        flag_include(&mut flags, lines.line(i), language)?;
    }
    Ok(flags)
}

/// Flags the physical line on which these tokens begin, if they are an include directive.
fn flag_include(
    flags: &mut Vec<bool>,
    tokens: &[Token<'_>],
    language: Language,
) -> Result<(), AllocError>
    ensures { OnOk result ((n : ℕ) → flag_at flags.new.items n
        ≡ (is_include_on language n (map seen tokens.now) || flag_at flags.old.items n)) }
{
    if is_include(tokens, language) {
        set_flag(flags, first_line(tokens) as usize)?;
    }
    Ok(())
}

/// Whether these tokens are an include directive.
fn is_include(tokens: &[Token<'_>], language: Language) -> bool
    ensures { result ≡ is_include (line_kind language (map seen tokens.now)) }
{
    matches!(classify(tokens, language), LineKind::Include(..))
}

/// The physical line of the first token, 0 where there is none.
fn first_line(tokens: &[Token<'_>]) -> u32
    ensures { result ≡ line_of_tokens (map seen tokens.now) }
{
    match tokens.first() {
        Some(token) => token.line,
        None => 0,
    }
}

/// Those of the numbers whose flag is set.
fn keep_flagged(alloc: Global, numbers: &[u32], flags: &[bool]) -> Result<Vec<u32>, AllocError>
    ensures { IfOk result (λ kept. kept.items ≡ filter (flag_at flags.now) numbers.now) }
{
    let mut kept = Vec::new(alloc);
    for &number in numbers {
        if flag_at(flags, number as usize) {
            kept.push(number)?;
        }
    }
    Ok(kept)
}
