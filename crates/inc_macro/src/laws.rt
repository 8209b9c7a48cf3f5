//! What holds of all definitions of macros. The functions do nothing: what they ensure is what holds.
ghost use Rattle.std.specs.Prelude.{◌≡◌, ◌≢◌, ℕ, List, [], None, Ok, IfOk, IfErr, true};
ghost use Rattle.inc_token.specs.TokenLines.{Tok};
ghost use Rattle.inc_macro.specs.Macros.{Table, define, define_word, pop_macro, push_macro, undef, name_at};
ghost use Rattle.inc_macro.specs.declared.faults.DefineFault.TheVariants.{NoMemory};

/// A definition that is accepted changes nothing when it comes again.
pub fn a_definition_twice_changes_nothing()
    ensures { (ts : List Tok) (table : Table) →
        IfOk (define ts table) (λ after. define ts after ≡ Ok after) }
{}

/// No definition is refused because memory ran out: `define`, `define_word` and `undef` say so only where it does.
pub fn definitions_need_no_memory()
    ensures define { (tokens : List Tok) (table : Table) →
        IfErr (define tokens table) (λ fault. fault ≢ NoMemory) }
    ensures word { (word : List ℕ) (table : Table) →
        IfErr (define_word word table) (λ fault. fault ≢ NoMemory) }
    ensures undef { (tokens : List Tok) (table : Table) →
        IfErr (undef tokens table) (λ fault. fault ≢ NoMemory) }
{}

/// Removing a macro that was new gives the table before its definition.
pub fn undef_of_a_new_macro_gives_the_table_before()
    ensures { (ts us : List Tok) (name : List ℕ) (table : Table) → name_at table.language ts ≡ Ok name →
        name_at table.language us ≡ Ok name
        → table.find name ≡ None → IfOk (define ts table) (λ after. undef us after ≡ Ok (true, table)) }
{}

/// A definition and its removal leave all other names alone.
pub fn other_names_are_left_alone()
    ensures define { (ts : List Tok) (name other : List ℕ) (table : Table) → name_at table.language ts ≡ Ok name →
        other ≢ name
        → IfOk (define ts table) (λ after. after.find other ≡ table.find other) }
    ensures undef { (ts : List Tok) (name other : List ℕ) (table : Table) → name_at table.language ts ≡ Ok name →
        other ≢ name
        → IfOk (undef ts table) (λ r. r.1.find other ≡ table.find other) }
{}

/// What a name had comes back, whatever was defined since it was put aside, and nothing else does.
pub fn a_name_has_again_what_was_put_aside()
    ensures back { (name : List ℕ) (table after : Table) → after.aside ≡ (push_macro name table).aside
        → ((pop_macro name after).find name ≡ table.find name) × ((pop_macro name after).aside name ≡ table.aside name) }
    ensures nothing { (name : List ℕ) (table : Table) → table.aside name ≡ [] → pop_macro name table ≡ table }
    ensures others { (name other : List ℕ) (table : Table) → other ≢ name
        → ((push_macro name table).aside other ≡ table.aside other)
        × ((pop_macro name table).find other ≡ table.find other) × ((pop_macro name table).aside other ≡ table.aside other) }
{}
