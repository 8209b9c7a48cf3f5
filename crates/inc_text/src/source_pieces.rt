//! What a source goes on with: a byte after phase 1, or a line splice.
ghost use Rattle.std.specs.Prelude.{◌≡◌, ◌+◌, ◌<◌, ◌≤◌, drop, length};
ghost use Rattle.std.specs.List.{prefix_len};
ghost use Rattle.inc_text.specs.Origins.{end_len, new_line_len, trigraph_of, piece_of, width_of};
ghost use Rattle.inc_text.specs.PhaseText.{is_passed, trigraph};
ghost use Rattle.inc_text.specs.declared.devices.TheConstants.{LONGEST_FILE};

use crate::languages::Language;

/// What a source goes on with.
#[derive(Clone, Copy)]
pub enum SourcePiece {
    /// A byte of the text, and how many source bytes it stands for.
    Byte(u8, u32),
    /// A `\` and a new-line, perhaps with white space between them, of so many source bytes, which stand for nothing.
    Splice(u32),
}

/// How many bytes the new-line at the front has; 0 where there is none.
fn new_line_len(source: &[u8]) -> usize
    ensures value { result ≡ new_line_len source.now }
    ensures within { result ≤ length source.now }
{
    match source {
        [b'\n', ..] => 1,
        [b'\r', b'\n', ..] => 2,
        _ => 0,
    }
}

/// Whether a byte is white space that GNU C passes over between the `\` and the new-line of a splice.
fn is_passed(language: Language, byte: u8) -> bool
    ensures { result ≡ is_passed language byte }
{
    language.is_gnu() && matches!(byte, b' ' | b'\t' | 11 | 12)
}

/// The place after such white space that is at a place.
fn passed_end(language: Language, source: &[u8], at: usize) -> usize
    requires { at ≤ length source.now }
    ensures end { result ≡ at + prefix_len (is_passed language) (drop at source.now) }
    ensures within { result ≤ length source.now }
{
    let mut at = at;
    while at < source.len() && is_passed(language, source[at]) {
        at += 1;
    }
    at
}

/// How many bytes the new-line at the front has with such white space before it; 0 where there is none.
fn end_len(language: Language, source: &[u8]) -> usize
    ensures value { result ≡ end_len language source.now }
    ensures within { result ≤ length source.now }
{
    let passed = passed_end(language, source, 0);
    let new_line = new_line_len(&source[passed..]);
    if new_line > 0 { passed + new_line } else { 0 }
}

/// What `??` and this byte are replaced by (ISO/IEC 9899:2018, 5.2.1.1); 0 where that is no trigraph, as none is in GNU C.
fn trigraph(language: Language, third: u8) -> u8
    ensures { result ≡ trigraph language third }
{
    match language {
        Language::C17 | Language::Extended => standard_trigraph(third),
        Language::Gnu => 0,
    }
}

/// The same in the languages that have trigraphs.
fn standard_trigraph(third: u8) -> u8
    ensures { result ≡ trigraph Language.C17 third }
{
    match third {
        b'=' => b'#',
        b'(' => b'[',
        b'/' => b'\\',
        b')' => b']',
        b'\'' => b'^',
        b'<' => b'{',
        b'!' => b'|',
        b'>' => b'}',
        b'-' => b'~',
        _ => 0,
    }
}

/// What the trigraph at the front is replaced by; 0 where there is none.
fn trigraph_of(language: Language, source: &[u8]) -> u8
    ensures value { result ≡ trigraph_of language source.now }
    ensures within { 0 < result → 3 ≤ length source.now }
{
    match source {
        [b'?', b'?', third, ..] => trigraph(language, *third),
        _ => 0,
    }
}

/// What a source that is not empty goes on with.
pub fn piece_of(language: Language, source: &[u8]) -> SourcePiece
    requires some { 0 < length source.now }
    requires short { length source.now ≤ LONGEST_FILE }
    ensures value { result ≡ piece_of language source.now }
    ensures some { 0 < width_of result }
    ensures within { width_of result ≤ length source.now }
{
    let lines = new_line_len(source);
    let replaced = trigraph_of(language, source);
    let (byte, width) = if lines > 0 {
        (b'\n', lines)
    } else if replaced > 0 {
        (replaced, 3)
    } else {
        (source[0], 1)
    };
    if byte == b'\\' {
        let dropped = end_len(language, &source[width..]);
        if dropped > 0 {
            return SourcePiece::Splice((width + dropped) as u32);
        }
    }
    SourcePiece::Byte(byte, width as u32)
}
