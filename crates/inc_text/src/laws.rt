//! What holds of the text of every source. These functions do nothing: their contracts are the laws, and are proved.
ghost use Rattle.std.specs.Prelude.{◌≡◌, ◌==◌, ◌+◌, ◌≤◌, ◌++◌, ◌∷◌, [], ℕ, List, false, length, take, count_by, if◌then◌else◌};
ghost use Rattle.std.specs.List.{All, AllPairs};
ghost use Rattle.inc_text.specs.Origins.{ends_open, is_special, mark_len};
ghost use Rattle.inc_text.specs.PhaseText.{Cell, added_new_line, bytes_of, cells_from, ended_by, phase_text};
ghost use Rattle.inc_text.specs.TextLaws.{AreLinesFrom};
ghost use Rattle.inc_text.specs.Ascii.{line_feed};
ghost use Rattle.inc_text.specs.declared.languages.Language.{Language};

/// The bytes of a text stand for bytes of its source, in order, and no two for the same.
pub fn ranges_lie_in_order()
    ensures within { (language : Language) (source : List ℕ) → All
        (λ (c : Cell). (c.first ≤ c.last) × (c.last ≤ length source)) (phase_text language source) }
    ensures apart { (language : Language) (source : List ℕ) → AllPairs
        (λ (a b : Cell). a.last ≤ b.first) (phase_text language source) }
{}

/// The line of a byte is 1 and the number of line feeds before what it stands for, and lines never fall.
pub fn lines_count_line_feeds()
    ensures lines { (language : Language) (source : List ℕ)
        → All (λ (c : Cell). c.line ≡ 1 + count_by (λ b. b == line_feed) (take c.first source)) (phase_text language source) }
    ensures rise { (language : Language) (source : List ℕ) → AllPairs
        (λ (a b : Cell). a.line ≤ b.line) (phase_text language source) }
{}

/// The lines of a text begin at 1, never fall, and rise after each line feed.
pub fn lines_ascend()
    ensures { (language : Language) (bytes : List ℕ) → AreLinesFrom 1 (phase_text language bytes) }
{}

/// A source without CR, `?`, `\` and a byte order mark is its own text, each byte being for itself, but for the
/// new-line that is added to one that ends in another byte.
pub fn plain_source_stays()
    ensures cells { (language : Language) (source : List ℕ) → All (λ b. is_special b ≡ false) source → mark_len source ≡ 0
        → phase_text language source ≡ ended_by (added_new_line source) (cells_from 0 1 source) }
    ensures bytes { (language : Language) (source : List ℕ) → All (λ b. is_special b ≡ false) source → mark_len source ≡ 0
        → bytes_of (phase_text language source) ≡ (if ends_open source then source ++ line_feed ∷ [] else source) }
{}
