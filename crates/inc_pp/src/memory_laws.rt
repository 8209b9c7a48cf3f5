//! What the definitions never give. The functions do nothing: what they ensure is what holds.
ghost use Rattle.std.specs.Prelude.{◌≢◌, ℕ, List, IfOk, IfErr, IfSome};
ghost use Rattle.inc_lookup.specs.Projects.{Listing};
ghost use Rattle.inc_lookup.specs.declared.projects.DirectiveId.{DirectiveId};
ghost use Rattle.inc_macro.specs.declared.faults.DefineFault.TheVariants.{NoMemory};
ghost use Rattle.inc_pp.specs.MemoryCauses.{IsNotMemory};
ghost use Rattle.inc_pp.specs.Preprocessing.{preprocessing};
ghost use Rattle.inc_pp.specs.Settings.{Settings};

/// No preprocessing stops because memory ran out, whatever the fault in the cause is one of, and no word is refused for it:
/// `preprocess` says so by `PpRefusal::NoMemory` alone.
pub fn preprocessings_need_no_memory()
    ensures stopped { (listing : Listing) (source : ℕ) (words : List (List ℕ)) (settings : Settings)
        (without : List DirectiveId) →
        IfOk (preprocessing listing source words settings without) (λ o. IfSome o.stop (λ stop. IsNotMemory stop.cause)) }
    ensures refused { (listing : Listing) (source : ℕ) (words : List (List ℕ)) (settings : Settings)
        (without : List DirectiveId) →
        IfErr (preprocessing listing source words settings without) (λ refusal. refusal.1 ≢ NoMemory) }
{}
