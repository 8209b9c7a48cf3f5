//! What holds of the token lines of every text. The functions do nothing: what they ensure is what holds.
ghost use Rattle.std.specs.Prelude.{◌≡◌, ◌≢◌, ℕ, List, IfOk, IsTrue, false};
ghost use Rattle.std.specs.List.{list_all};
ghost use Rattle.inc_text.specs.PhaseText.{Cell};
ghost use Rattle.inc_token.specs.Spellings.{is_spelling};
ghost use Rattle.inc_text.specs.TextLaws.{AreLinesFrom};
ghost use Rattle.inc_token.specs.TokenLaws.{AreParts, AreTokenLinesFrom, Part, has_spellings};
ghost use Rattle.inc_token.specs.TokenLines.{token_lines};
ghost use Rattle.inc_token.specs.declared.kinds.Kind.{Kind};
ghost use Rattle.inc_text.specs.declared.languages.Language.{Language};
ghost use Rattle.inc_token.specs.declared.kinds.Kind.TheVariants.{HeaderName};

/// Each token of each line of a text lies in the class that it is said to lie in.
pub fn tokens_lie_in_their_classes()
    ensures { (language : Language) (cells : List Cell) → IfOk (token_lines language cells)
        (λ lines. IsTrue (list_all (has_spellings language) lines)) }
{}

/// A text is its tokens in order, with nothing but white space, comments and the LFs that end its lines between them.
/// A token has the bytes, the source range and the line of its part of the text, and knows whether a gap is before it.
pub fn tokens_and_gaps_are_the_text()
    ensures { (language : Language) (cells : List Cell) → IfOk (token_lines language cells)
        (λ lines. (parts : List Part) × AreParts language cells false lines parts) }
{}

/// Where the lines of a text never fall and rise after each line feed, the tokens of each line of tokens are on later
/// physical lines than all tokens of the lines of tokens before it.
pub fn token_lines_ascend()
    ensures { (language : Language) (line : ℕ) (cells : List Cell) → AreLinesFrom line cells →
        IfOk (token_lines language cells) (AreTokenLinesFrom line) }
{}

/// No text lies in two classes. A header name, which counts only after the name of an include directive, may be a string literal as well.
pub fn classes_exclude_one_another()
    ensures { (language : Language) (a b : Kind) (text : List ℕ) → a ≢ HeaderName → b ≢ HeaderName →
        IsTrue (is_spelling language a text) → IsTrue (is_spelling language b text) → a ≡ b }
{}
