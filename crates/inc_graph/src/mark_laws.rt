//! What holds of marks in every graph. The functions do nothing: what they ensure is what holds.
ghost use Rattle.std.specs.Prelude.{◌≡◌, ◌≤◌, ◌||◌, ℕ, Bool, false, List, Some, Ok, slice_get, IsTrue};
ghost use Rattle.std.specs.List.{All, list_any};
ghost use Rattle.inc_graph.specs.Settings.{Setting};
ghost use Rattle.inc_lookup.specs.Projects.{Layout, Listing};
ghost use Rattle.inc_graph.specs.Cuts.{fixed_by, costs_by, is_editable};
ghost use Rattle.inc_graph.specs.IncludeGraph.{Edge, Graph, Start, IsClosure, is_found, IsGraphAnswer, LeadsToOne};
ghost use Rattle.inc_graph.specs.MarkedEdges.{names_edge, is_kept, is_reached, amount_for, amounts_by};
ghost use Rattle.inc_graph.specs.Marks.{Mark, Cost};
ghost use Rattle.inc_graph.specs.declared.building.Source.{Source};

/// The fixed edges are those that leave a kept file and those that marks name, and each other edge has the cost that is given for its
/// directive.
pub fn amounts_mark_their_edges()
    ensures fixed { (layout : Layout) (g : Graph) (kept : List Bool) (marks : List Mark) (costs : List Cost)
        (i : ℕ) (e : Edge) →
        All (λ (c : Cost). 1 ≤ c.amount) costs → slice_get g.edges i ≡ Some e →
        fixed_by (amounts_by layout g kept marks costs) i ≡ (is_kept kept e || list_any (λ m. names_edge layout m e) marks) }
    ensures costs { (layout : Layout) (g : Graph) (kept : List Bool) (marks : List Mark) (costs : List Cost)
        (i : ℕ) (e : Edge) →
        All (λ (c : Cost). 1 ≤ c.amount) costs → slice_get g.edges i ≡ Some e →
        fixed_by (amounts_by layout g kept marks costs) i ≡ false →
        costs_by (amounts_by layout g kept marks costs) i ≡ amount_for layout costs e }
{}

/// Where no cost is given, or each is 1, each edge that is not fixed costs 1.
pub fn amounts_without_costs_are_one()
    ensures { (layout : Layout) (g : Graph) (kept : List Bool) (marks : List Mark) (costs : List Cost) →
        All (λ (c : Cost). c.amount ≡ 1) costs → (i : ℕ) →
        IsTrue (is_editable g (fixed_by (amounts_by layout g kept marks costs)) i) →
        costs_by (amounts_by layout g kept marks costs) i ≡ 1 }
{}

/// The files that marks are looked for in, the sources and those that an edge leads to, are the closure of sources and headers, where no
/// directive leads to several files.
pub fn reached_files_are_the_closure()
    ensures { (setting : Setting) (listing : Listing) (sources : List Source) (headers : List ℕ) (g : Graph)
        (starts : ℕ → List Start) →
        IsGraphAnswer setting listing sources headers (Ok g) → LeadsToOne g →
        IsClosure setting listing sources headers starts →
        (file : ℕ) → is_reached g file ≡ is_found (starts file) }
{}
