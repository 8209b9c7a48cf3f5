//! What the definitions never give. The functions do nothing: what they ensure is what holds.
ghost use Rattle.std.specs.Prelude.{◌≢◌, List, IfErr};
ghost use Rattle.inc_text.specs.PhaseText.{Cell};
ghost use Rattle.inc_token.specs.TokenLines.{token_lines};
ghost use Rattle.inc_text.specs.declared.languages.Language.{Language};
ghost use Rattle.inc_token.specs.declared.lines.LexFault.TheVariants.{NoMemory};

/// No text is refused because memory ran out: `lex` says so only where memory runs out.
pub fn texts_need_no_memory()
    ensures { (language : Language) (cells : List Cell) → IfErr (token_lines language cells) (λ fault. fault ≢ NoMemory) }
{}
