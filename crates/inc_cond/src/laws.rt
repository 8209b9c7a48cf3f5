//! Laws of the definitions that the contracts rest on. Their functions do nothing.
ghost use Rattle.std.specs.Prelude.{◌≡◌, ◌≢◌, ◌↔◌, ℕ, Some, List, IfErr, option_map};
ghost use Rattle.inc_token.specs.TokenLines.{Tok};
ghost use Rattle.inc_macro.specs.Macros.{Table};
ghost use Rattle.inc_expand.specs.Expansion.{Meter, Place};
ghost use Rattle.inc_expand.specs.declared.faults.ExpandFault.TheVariants as expand;
ghost use Rattle.inc_cond.specs.Conditions.{condition};
ghost use Rattle.inc_cond.specs.Headers.{HeaderSearch};
ghost use Rattle.inc_cond.specs.declared.faults.CondFault.TheVariants.{Expand, NoMemory};
ghost use Rattle.inc_cond.specs.Symbols.{Symbol};
ghost use Rattle.inc_cond.specs.Expressions.{Expression, IsExpressionOf, expression_of, made_of};
ghost use Rattle.inc_cond.specs.Known.{known_of, knowns};

/// What the reading gives is the one expression that the grammar gives for these symbols, and it gives nothing only where
/// the grammar has none.
pub fn reads_the_grammar()
    ensures { (ss : List Symbol) (e : Expression) → (expression_of ss ≡ Some e) ↔ IsExpressionOf ss e }
{}

/// What is kept of an expression as it is read is what its tree has.
pub fn known_of_the_tree()
    ensures { (ss : List Symbol) → option_map known_of (expression_of ss) ≡ made_of knowns ss }
{}

/// No condition is refused because memory ran out, nor in its expansion: `value` says so only where memory runs
/// out, and then by its own name.
pub fn conditions_need_no_memory()
    ensures { (search : HeaderSearch) (table : Table) (place : Place) (meter : Meter) (tokens : List Tok) →
        IfErr (condition search table place meter tokens)
        (λ fault. (fault ≢ NoMemory) × (fault ≢ Expand expand.NoMemory)) }
{}
