//! What holds of the smallest and the nearest cuts of every graph. The functions do nothing: what they ensure is what holds.
ghost use Rattle.std.specs.Prelude.{◌≡◌, ◌⊎◌, ℕ, Bool, List, length, IsTrue};
ghost use Rattle.std.specs.List.Sorted.{IsStrictlyIncreasing};
ghost use Rattle.inc_graph.specs.IncludeGraph.{Graph, IsSound};
ghost use Rattle.inc_graph.specs.Cuts.{Counted, Fixed, Costs, AreCosts, are_amounts, fixed_by, costs_by, IsCheapest, IsCut, IsFixedChain, IsNearest};
ghost use Rattle.inc_cut.specs.Flows.{IsFlow, IsReach, is_open_by, leaving};

/// Where each editable edge costs something, there is one nearest cut.
pub fn nearest_is_one()
    ensures { (g : Graph) (fixed : Fixed) (cost : Costs) (a b : List ℕ) →
        AreCosts g fixed cost → IsNearest g fixed cost a → IsNearest g fixed cost b →
        IsStrictlyIncreasing a → IsStrictlyIncreasing b → a ≡ b }
{}

/// The edges that lead out of what open steps reach are the nearest cut, where they are a cheapest set.
pub fn reach_gives_nearest()
    ensures { (g : Graph) (amounts flows : List ℕ) (value : ℕ) (reach : ℕ → Bool) →
        IsFlow g amounts flows value → IsReach g (is_open_by amounts flows) reach →
        IsCheapest g (fixed_by amounts) (costs_by amounts) (leaving g reach) →
        IsNearest g (fixed_by amounts) (costs_by amounts) (leaving g reach) }
{}

/// Every graph has a chain of fixed edges, or a smallest cut with chains that show that none is cheaper.
pub fn smallest_exists()
    ensures { (g : Graph) (amounts : List ℕ) →
        IsSound g → length amounts ≡ length g.edges → IsTrue (are_amounts amounts) →
        ((chain : List ℕ) × IsFixedChain g (fixed_by amounts) chain)
        ⊎ ((set : List ℕ) × (chains : List Counted) ×
        IsCut g (fixed_by amounts) (costs_by amounts) set chains) }
{}
