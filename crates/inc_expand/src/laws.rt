//! What holds of all expansions. The functions do nothing: what they ensure is what holds.
ghost use Rattle.inc_text.specs.declared.languages.Language.{Language};
ghost use Rattle.inc_text.specs.declared.languages.Language.TheVariants.{Gnu};
ghost use Rattle.std.specs.Prelude.{◌≡◌, ◌≢◌, ◌≤◌, ℕ, List, None, Ok, IfOk, IfErr, IsTrue, map};
ghost use Rattle.std.specs.List.{All, list_all};
ghost use Rattle.inc_token.specs.TokenLaws.{is_spelled};
ghost use Rattle.inc_token.specs.TokenLines.{Tok};
ghost use Rattle.inc_expand.specs.Expansion.{Meter, Surroundings, expansion, predefined, of_source, item_of};
ghost use Rattle.inc_expand.specs.Contexts.{expansion_read};
ghost use Rattle.inc_expand.specs.declared.faults.ExpandFault.TheVariants.{NoMemory};
ghost use Rattle.inc_expand.specs.PlainTables.{HasPlainMacros};
ghost use Rattle.inc_expand.specs.SpelledItems.{is_spelled_item, HasLiterals, HasSpelledBodies};

/// An expansion never leaves more work units than it got.
pub fn units_are_never_won()
    ensures { (s : Surroundings) (meter : Meter) (tokens : List Tok) →
        IfOk (expansion s meter tokens) (λ r. r.1.units ≤ meter.units) }
{}

/// No list is refused because memory ran out: `expand` says so only where memory runs out.
pub fn lists_need_no_memory()
    ensures { (s : Surroundings) (meter : Meter) (tokens : List Tok) →
        IfErr (expansion s meter tokens) (λ fault. fault ≢ NoMemory) }
{}

/// A list in which no token is spelled as a macro or a predefined name expands to itself, and that costs nothing.
pub fn other_tokens_are_left_alone()
    ensures { (s : Surroundings) (meter : Meter) (tokens : List Tok) →
        All (λ (t : Tok). (predefined s t.line t.spelling ≡ None) × (s.table.find t.spelling ≡ None)) tokens →
        expansion s meter tokens ≡ Ok (map (λ t. item_of (of_source t)) tokens, meter) }
{}

/// Where the tokens that are handed in and those of the macros' bodies lie in the classes that they are said to lie in, and
/// what `__FILE__`, `__BASE_FILE__`, `__DATE__`, `__TIME__` and `__TIMESTAMP__` give are string literals, each item of an expansion lies in
/// its class. That is so in each language, which is that of the table: `##` makes tokens of it.
pub fn items_lie_in_their_classes()
    ensures { (language : Language) (s : Surroundings) (meter : Meter) (tokens : List Tok) → s.table.language ≡ language →
        HasSpelledBodies language s.table → HasLiterals s.place → IsTrue (list_all (is_spelled language) tokens) →
        IfOk (expansion s meter tokens) (λ r. IsTrue (list_all (is_spelled_item language) r.0)) }
{}

/// In GNU C no name is replaced that gcc does not replace: the expansion is the one that goes by the ends of replacements, which stay in the
/// list of tokens, where the tokens and the bodies lie in their classes.
pub fn names_are_hidden_as_by_gcc()
    ensures { (s : Surroundings) (meter : Meter) (tokens : List Tok) → s.table.language ≡ Gnu →
        HasSpelledBodies Gnu s.table → HasLiterals s.place → IsTrue (list_all (is_spelled Gnu) tokens) →
        expansion s meter tokens ≡ expansion_read s meter tokens }
{}

/// Where no macro takes arguments, and no body has `#` or `##`, that is so in each language: what C17 leaves open (6.10.3.4), and where the
/// languages part, is open with calls and pastes alone.
pub fn names_without_arguments_are_hidden_as_by_gcc()
    ensures { (s : Surroundings) (meter : Meter) (tokens : List Tok) → HasPlainMacros s.table →
        HasSpelledBodies Gnu s.table → HasLiterals s.place → IsTrue (list_all (is_spelled Gnu) tokens) →
        expansion s meter tokens ≡ expansion_read s meter tokens }
{}
