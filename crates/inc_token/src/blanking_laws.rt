//! What holds of every source in which lines of tokens are blanked. The functions do nothing: what they ensure is what holds.
ghost use Rattle.std.specs.Prelude.{◌≡◌, ◌==◌, ◌⊎◌, ℕ, Bool, List, length, slice_index};
ghost use Rattle.inc_text.specs.Ascii.{blank, line_feed};
ghost use Rattle.inc_token.specs.BlankedLines.{BlankedLines};
ghost use Rattle.inc_token.specs.Blanking.{blanked_lines};
ghost use Rattle.inc_token.specs.TokenLines.{Tok, TokenLine};

/// A blanked source has as many bytes as before and its line feeds where they were, and each of its bytes is as it was or a space.
pub fn blanked_bytes_stay_in_place()
    ensures length { (test : List Tok → Bool) (lines : List TokenLine) (source : List ℕ) →
        length (blanked_lines test lines source) ≡ length source }
    ensures line_feeds { (test : List Tok → Bool) (lines : List TokenLine) (source : List ℕ) (k : ℕ) →
        (slice_index (blanked_lines test lines source) k == line_feed) ≡ (slice_index source k == line_feed) }
    ensures bytes { (test : List Tok → Bool) (lines : List TokenLine) (source : List ℕ) (k : ℕ) →
        (slice_index (blanked_lines test lines source) k ≡ slice_index source k)
        ⊎ (slice_index (blanked_lines test lines source) k ≡ blank) }
{}

/// The token lines of a blanked source are those of the source, with one or more empty lines in place of each blanked one. All
/// other tokens keep their class, their bytes, their range, their line and the white space before them.
pub fn blanked_lines_are_empty()
    ensures { BlankedLines }
{}
