//! What the definitions never give. The functions do nothing: what they ensure is what holds.
ghost use Rattle.std.specs.Prelude.{◌≢◌, List, IfErr};
ghost use Rattle.inc_directive.specs.Groups.{FileLine, group_tree};
ghost use Rattle.inc_directive.specs.declared.sections.BalanceFault.TheVariants.{NoMemory};

/// No file is refused because memory ran out: `balance` says so only where memory runs out.
pub fn trees_need_no_memory()
    ensures { (lines : List FileLine) → IfErr (group_tree lines) (λ fault. fault ≢ NoMemory) }
{}
