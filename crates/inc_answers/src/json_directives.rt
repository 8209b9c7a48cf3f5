//! Directives as objects of JSON.
ghost use Rattle.std.specs.Prelude.{◌≡◌, ◌++◌, option_map, OnOk};
ghost use Rattle.inc_directive.specs.KindViews.{seen_kind, seen_target};
ghost use Rattle.inc_answers.specs.JsonDirectives.{by_text, directive_text, form_text, how_text, target_text, to_text, what_text};

use crate::json_texts::{put_bytes_member, put_number_member};
use inc_directive::{DirectiveKind, LineKind, Target};
use inc_token::IncludeName;
use std::alloc::AllocError;

/// Adds a directive on a line of the file with this path, of this kind, which leads to the file with that path if it leads to one.
pub fn put_directive(
    text: &mut Vec<u8>,
    kind: LineKind<'_>,
    line: u32,
    path: &[u8],
    to: Option<&[u8]>,
) -> Result<(), AllocError>
    ensures { OnOk result (text.new.items ≡ text.old.items
        ++ directive_text (seen_kind kind.entry) line path.now (option_map (λ p. p.now) to.entry)) }
{
    text.push(b'{')?;
    put_form(text, kind)?;
    put_number_member(text, b"line", u64::from(line))?;
    put_what(text, kind)?;
    text.push(b',')?;
    put_bytes_member(text, b"path", path)?;
    put_to(text, to)?;
    text.push(b'}')?;
    Ok(())
}

/// Adds by what name a directive includes, where that is not `include`, and in which form it names a header.
fn put_form(text: &mut Vec<u8>, kind: LineKind<'_>) -> Result<(), AllocError>
    ensures { OnOk result (text.new.items ≡ text.old.items ++ how_text (seen_kind kind.entry)) }
{
    match kind {
        LineKind::Include(by, target) => {
            text.extend_from_slice(by_text(by))?;
            text.extend_from_slice(form_text(target))?;
            Ok(())
        }
        LineKind::Other(DirectiveKind::Foreign) => {
            text.extend_from_slice(b"\"form\":\"foreign\",")?;
            Ok(())
        }
        _ => Ok(()),
    }
}

/// By what name a directive includes, where that is not `include`.
fn by_text(by: IncludeName) -> &'static [u8]
    ensures { result.now ≡ by_text by }
{
    match by {
        IncludeName::Include => b"",
        IncludeName::IncludeNext => b"\"by\":\"include_next\",",
        IncludeName::Import => b"\"by\":\"import\",",
    }
}

/// In which form a directive names a header.
fn form_text(target: Target<'_>) -> &'static [u8]
    ensures { result.now ≡ form_text (seen_target target.entry) }
{
    match target {
        Target::Quoted(_) => b"\"form\":\"quoted\",",
        Target::Angled(_) => b"\"form\":\"angled\",",
        Target::ByName(_) | Target::Computed => b"\"form\":\"computed\",",
        Target::Nothing => b"\"form\":\"nothing\",",
    }
}

/// Adds what a directive names: a header, or the macro that makes its name.
fn put_what(text: &mut Vec<u8>, kind: LineKind<'_>) -> Result<(), AllocError>
    ensures { OnOk result (text.new.items ≡ text.old.items ++ what_text (seen_kind kind.entry)) }
{
    match kind {
        LineKind::Include(_, target) => put_target(text, target),
        _ => Ok(()),
    }
}

/// The same of an include directive.
fn put_target(text: &mut Vec<u8>, target: Target<'_>) -> Result<(), AllocError>
    ensures { OnOk result (text.new.items ≡ text.old.items ++ target_text (seen_target target.entry)) }
{
    match target {
        Target::Quoted(name) | Target::Angled(name) => {
            text.push(b',')?;
            put_bytes_member(text, b"name", name)
        }
        Target::ByName(name) => {
            text.push(b',')?;
            put_bytes_member(text, b"macro", name)
        }
        _ => Ok(()),
    }
}

/// Adds the path of the file that a directive leads to, if it leads to one.
fn put_to(text: &mut Vec<u8>, to: Option<&[u8]>) -> Result<(), AllocError>
    ensures { OnOk result (text.new.items ≡ text.old.items ++ to_text (option_map (λ p. p.now) to.entry)) }
{
    match to {
        Some(to) => {
            text.push(b',')?;
            put_bytes_member(text, b"to", to)
        }
        None => Ok(()),
    }
}
