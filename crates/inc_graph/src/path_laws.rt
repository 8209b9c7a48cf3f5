//! What each include path has in a graph of several. The functions do nothing: what they ensure is what holds.
ghost use Rattle.std.specs.Prelude.{◌≡◌, ◌↔◌, ◌⊎◌, ℕ, List, Ok, Contains, map};
ghost use Rattle.std.specs.List.{All};
ghost use Rattle.std.specs.List.Sorted.{IsStrictlyIncreasing};
ghost use Rattle.inc_lookup.specs.declared.projects.Found.{Found};
ghost use Rattle.inc_lookup.specs.Projects.{Listing, layout_of};
ghost use Rattle.inc_graph.specs.Cuts.{Fixed, IsSeparating};
ghost use Rattle.inc_graph.specs.IncludeGraph.{Edge, Graph, InClosure, IsGraphAnswer, IsReached, LeadsToOne, source_files};
ghost use Rattle.inc_graph.specs.OnePath.{SeparatesIn, listing_alone, setting_alone, sources_alone};
ghost use Rattle.inc_graph.specs.Settings.{Setting, layouts_of};
ghost use Rattle.inc_graph.specs.declared.building.Source.{Source};
ghost use Rattle.inc_graph.specs.declared.graphs.BlockerKind.TheVariants.{Several};

/// What is reached in an include path is what is reached in the graph of it alone, from the sources that are read with it. So the closure
/// is the union of those.
pub fn include_paths_are_reached_alone()
    ensures reached { (setting : Setting) (listing : Listing) (sources : List Source) (headers : List ℕ)
        (path : ℕ) (at : Found) →
        IsReached setting listing sources headers path at ↔
        IsReached (setting_alone setting) (listing_alone setting listing path) (sources_alone path sources) headers 0 at }
    ensures closure { (setting : Setting) (listing : Listing) (sources : List Source) (headers : List ℕ) (file : ℕ) →
        InClosure setting listing sources headers file ↔
        ((path : ℕ) × InClosure (setting_alone setting) (listing_alone setting listing path) (sources_alone path sources) headers file) }
{}

/// An edge of the graph of an include path alone is one of the graph of all, or its directive leads to several files there. Where none does,
/// a set that separates in the graph of all separates in that of each: each chain has the directive of an edge of the set.
pub fn include_paths_are_cut_alone()
    ensures edges { (setting : Setting) (listing : Listing) (sources : List Source) (headers : List ℕ) (path : ℕ)
        (whole part : Graph) → IsGraphAnswer setting listing sources headers (Ok whole) →
        IsGraphAnswer (setting_alone setting) (listing_alone setting listing path) (sources_alone path sources) headers (Ok part) →
        (e : Edge) → Contains part.edges e →
        Contains whole.edges e ⊎ Contains whole.blockers (record { file = e.from; line = e.line; kind = Several }) }
    ensures cuts { (setting : Setting) (listing : Listing) (sources : List Source) (headers : List ℕ) (path : ℕ)
        (whole part : Graph) → IsGraphAnswer setting listing sources headers (Ok whole) →
        IsGraphAnswer (setting_alone setting) (listing_alone setting listing path) (sources_alone path sources) headers (Ok part) →
        LeadsToOne whole → (fixed : Fixed) (set : List ℕ) → IsSeparating whole fixed set → SeparatesIn whole set part }
{}

/// Where all sources are read with the project's own include path, all that they reach is found in it, and in no other; files that are
/// sources so, in the order of the list, are the sources of the graph.
pub fn one_include_path()
    ensures layout { (setting : Setting) (listing : Listing) → layouts_of setting listing 0 ≡ layout_of listing }
    ensures reached { (setting : Setting) (listing : Listing) (sources : List Source) (headers : List ℕ) →
        All (λ (s : Source). s.path ≡ 0) sources → (path : ℕ) (at : Found) →
        IsReached setting listing sources headers path at → path ≡ 0 }
    ensures sources { (files : List ℕ) → IsStrictlyIncreasing files →
        source_files (map (λ f. record { file = f; path = 0 }) files) ≡ files }
{}
