//! What holds of separating sets, their costs and certificates in every graph. The functions do nothing: what they ensure is what holds.
ghost use Rattle.std.specs.Prelude.{◌≡◌, ◌↔◌, ℕ, List, map, IsTrue};
ghost use Rattle.inc_graph.specs.IncludeGraph.{Graph};
ghost use Rattle.inc_graph.specs.Cuts.{Fixed, Costs, Counted, chains_in, counted_once, is_editable, one_each, IsSeparating, IsFixedChain, IsCheapest, IsCostCertificate, IsSmallest, IsCertificate};

/// Where counted chains fit into the costs and total the cost of a separating set, no separating set costs less.
pub fn certificate_is_cheapest()
    ensures { (g : Graph) (fixed : Fixed) (cost : Costs) (set : List ℕ) (chains : List Counted) →
        IsCostCertificate g fixed cost set chains → IsCheapest g fixed cost set }
{}

/// Where a chain has fixed edges alone, nothing separates.
pub fn fixed_chain_leaves_no_cut()
    ensures { (g : Graph) (fixed : Fixed) (chain : List ℕ) → IsFixedChain g fixed chain →
        (set : List ℕ) → ¬ IsSeparating g fixed set }
{}

/// Where each editable edge costs 1, the cheapest separating sets are those with the fewest edges.
pub fn cheapest_of_one()
    ensures { (g : Graph) (fixed : Fixed) (set : List ℕ) →
        IsCheapest g fixed one_each set ↔ IsSmallest g fixed set }
{}

/// Where each editable edge costs 1, each chain of a certificate counts once and no two share an editable edge; and as many
/// chains as the set has edges, no two of which share an editable edge, are a certificate.
pub fn costs_of_one()
    ensures { (g : Graph) (fixed : Fixed) (set : List ℕ) →
        ((chains : List Counted) → IsCostCertificate g fixed one_each set chains →
        (chains ≡ map counted_once (chains_in chains)) × IsCertificate g fixed set (chains_in chains))
        × ((chains : List (List ℕ)) → IsCertificate g fixed set chains →
        IsCostCertificate g fixed one_each set (map counted_once chains)) }
{}

/// The same of any costs that are 1 on each editable edge, whatever they are elsewhere.
pub fn costs_that_are_all_one()
    ensures cheapest { (g : Graph) (fixed : Fixed) (cost : Costs) (set : List ℕ) →
        ((i : ℕ) → IsTrue (is_editable g fixed i) → cost i ≡ 1) →
        IsCheapest g fixed cost set ↔ IsSmallest g fixed set }
    ensures certificate { (g : Graph) (fixed : Fixed) (cost : Costs) (set : List ℕ)
        (chains : List Counted) → ((i : ℕ) → IsTrue (is_editable g fixed i) → cost i ≡ 1) →
        IsCostCertificate g fixed cost set chains ↔ IsCostCertificate g fixed one_each set chains }
{}

/// Where as many chains as a separating set has edges share no editable edge, no separating set has fewer edges.
pub fn certificate_is_smallest()
    ensures { (g : Graph) (fixed : Fixed) (set : List ℕ) (chains : List (List ℕ)) →
        IsCertificate g fixed set chains → IsSmallest g fixed set }
{}
