//! The string literal that `__FILE__` gives.
ghost use Rattle.std.specs.Prelude.{◌≡◌, ◌∷◌, [], ◌++◌, OnOk, IfOk};
ghost use Rattle.inc_expand.specs.Expansion.{escaped, in_quotes};

use std::alloc::{AllocError, Global};

/// The literal of a path, with its quotes.
pub(crate) fn literal_of(alloc: Global, path: &[u8]) -> Result<Vec<u8>, AllocError>
    ensures { IfOk result (λ text. text.items ≡ in_quotes (escaped path.now)) }
{
    // Few paths have a byte that is escaped.
    let mut text = Vec::with_capacity(alloc, path.len() + 2)?;
    text.push(b'"')?;
    push_escaped(&mut text, path)?;
    text.push(b'"')?;
    Ok(text)
}

/// Adds bytes with a `\` before each `"` and `\`.
fn push_escaped(text: &mut Vec<u8>, bytes: &[u8]) -> Result<(), AllocError>
    ensures { OnOk result (text.new.items ≡ text.old.items ++ escaped bytes.now) }
{
    for byte in bytes {
        push_escaped_byte(text, *byte)?;
    }
    Ok(())
}

/// Adds a byte, with a `\` before it where it is `"` or `\`.
fn push_escaped_byte(text: &mut Vec<u8>, byte: u8) -> Result<(), AllocError>
    ensures { OnOk result (text.new.items ≡ text.old.items ++ escaped (byte ∷ [])) }
{
    if byte == b'"' || byte == b'\\' {
        text.push(b'\\')?;
    }
    text.push(byte)?;
    Ok(())
}
