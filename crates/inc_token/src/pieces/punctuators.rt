//! Punctuators, by at most four bytes.
ghost use Rattle.std.specs.Prelude.{◌≡◌, ◌<◌, length, drop, slice_index};
ghost use Rattle.inc_token.specs.Scanning.{is_single, is_assigned, is_doubled, less_len, greater_len, percent_len, ungrouped_len, symbol_len, punctuator_len};

/// The byte at a place, 0 after the end.
fn byte_at(text: &[u8], at: usize) -> u8
    ensures { result ≡ slice_index text.now at }
{
    if at < text.len() { text[at] } else { 0 }
}

/// Whether a byte begins no punctuator but itself.
#[inline(always)]
pub(super) fn is_single_byte(b: u8) -> bool
    ensures { result ≡ is_single b }
{
    matches!(
        b,
        b'[' | b']' | b'(' | b')' | b'{' | b'}' | b'~' | b'?' | b';' | b','
    )
}

/// Whether a byte is alone or before =.
fn is_assigned_byte(b: u8) -> bool
    ensures { result ≡ is_assigned b }
{
    matches!(b, b'*' | b'/' | b'!' | b'^' | b'=')
}

/// Whether a byte is alone, before = or twice.
fn is_doubled_byte(b: u8) -> bool
    ensures { result ≡ is_doubled b }
{
    matches!(b, b'+' | b'&' | b'|')
}

/// The length of the punctuator that begins with `<` and two bytes.
fn less(second: u8, third: u8) -> usize
    ensures { result ≡ less_len second third }
{
    match second {
        b'<' => { if third == b'=' { 3 } else { 2 } }
        b'=' | b':' | b'%' => 2,
        _ => 1,
    }
}

/// The same for `>`.
fn greater(second: u8, third: u8) -> usize
    ensures { result ≡ greater_len second third }
{
    match second {
        b'>' => { if third == b'=' { 3 } else { 2 } }
        b'=' => 2,
        _ => 1,
    }
}

/// The same for `%` and three bytes.
fn percent(second: u8, third: u8, fourth: u8) -> usize
    ensures { result ≡ percent_len second third fourth }
{
    match second {
        b':' => {
            if third == b'%' && fourth == b':' {
                4
            } else {
                2
            }
        }
        b'=' | b'>' => 2,
        _ => 1,
    }
}

/// The length of the punctuator that four bytes begin with where the first one is in none of the three groups, 0 where
/// there is none.
fn ungrouped(first: u8, second: u8, third: u8, fourth: u8) -> usize
    ensures { result ≡ ungrouped_len first second third fourth }
{
    match first {
        b'-' => {
            if matches!(second, b'>' | b'-' | b'=') {
                2
            } else {
                1
            }
        }
        b'.' => {
            if second == b'.' && third == b'.' {
                3
            } else {
                1
            }
        }
        b'#' => { if second == b'#' { 2 } else { 1 } }
        b':' => { if second == b'>' { 2 } else { 1 } }
        b'<' => less(second, third),
        b'>' => greater(second, third),
        b'%' => percent(second, third, fourth),
        _ => 0,
    }
}

/// The length of the punctuator that four bytes begin with, 0 where there is none.
fn symbol(first: u8, second: u8, third: u8, fourth: u8) -> usize
    ensures { result ≡ symbol_len first second third fourth }
{
    if is_single_byte(first) {
        1
    } else if is_assigned_byte(first) {
        if second == b'=' { 2 } else { 1 }
    } else if is_doubled_byte(first) {
        if second == b'=' || second == first {
            2
        } else {
            1
        }
    } else {
        ungrouped(first, second, third, fourth)
    }
}

/// The length of the punctuator at a place, 0 where there is none.
pub(super) fn symbol_at(text: &[u8], at: usize) -> usize
    requires { at < length text.now }
    ensures { result ≡ punctuator_len (drop at text.now) }
{
    symbol(
        text[at],
        byte_at(text, at + 1),
        byte_at(text, at + 2),
        byte_at(text, at + 3),
    )
}
