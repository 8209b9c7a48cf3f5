//! What sets of files come to where there is one source and one header. The functions do nothing: what they ensure is what holds.
ghost use Rattle.std.specs.Prelude.{◌≡◌, ◌≢◌, ◌↔◌, ◌==◌, ◌&&◌, ◌||◌, not, ℕ, List, [], ◌∷◌, Option, Some, Contains, filter, length, IsTrue};
ghost use Rattle.std.specs.List.{list_any, range_with_len};
ghost use Rattle.inc_graph.specs.Settings.{Setting, layouts_of};
ghost use Rattle.inc_directive.specs.FileDirectives.{Directive};
ghost use Rattle.inc_lookup.specs.declared.projects.Found.{Found};
ghost use Rattle.inc_lookup.specs.Projects.{Listing};
ghost use Rattle.inc_graph.specs.Chains.{is_walk, files_on, is_chain};
ghost use Rattle.inc_graph.specs.Cuts.{meets, IsNear};
ghost use Rattle.inc_graph.specs.IncludeGraph.{Edge, Graph, Start, graph_directives, found_by, as_source, IsStep, IsTour, InClosure, is_found, inner_files};
ghost use Rattle.inc_graph.specs.MarkedEdges.{is_reached};
ghost use Rattle.inc_graph.specs.Members.{is_member, is_distinct};

/// The member of a list of one is the one.
pub fn members_of_one()
    ensures { (f one : ℕ) → is_member f (one ∷ []) ≡ (f == one) }
{}

/// The closure of a source and a header is what steps reach from the source, in its include path; a step is an include directive of a file
/// that is not the header. Its other files than the header are those whose directives are the graph's.
pub fn closures_of_one()
    ensures closure { (setting : Setting) (listing : Listing) (source path header file : ℕ) →
        InClosure setting listing (record { file = source; path = path } ∷ []) (header ∷ []) file ↔
        ((next : Option ℕ) × (tour : List Found)
        × IsTour setting listing (header ∷ []) path (as_source source) tour (record { file = file; next = next })) }
    ensures step { (setting : Setting) (listing : Listing) (header path : ℕ) (a b : Found) →
        IsStep setting listing (header ∷ []) path a b ↔
        ((d : Directive) × Contains (graph_directives setting listing a.file) d
        × (found_by (layouts_of setting listing path) a d ≡ Some b) × (a.file ≢ header)) }
    ensures inner { (listing : Listing) (starts : ℕ → List Start) (header : ℕ) →
        inner_files listing starts (header ∷ [])
        ≡ filter (λ f. is_found (starts f) && not (f == header)) (range_with_len 0 (length listing.files)) }
{}

/// A chain leads from the source to the header, no file twice. Every definition of shortest chains, of separating sets, of what they cost
/// and of certificates speaks of chains alone.
pub fn chains_of_one()
    ensures { (g : Graph) (source header : ℕ) → g.sources ≡ source ∷ [] → g.headers ≡ header ∷ [] →
        (chain : List ℕ) → is_chain g chain
        ≡ (is_walk g source chain header && is_distinct (files_on g source chain)) }
{}

/// The near side of a set is what walks from the source reach outside it, and a mark is looked for in the source and in each file that an
/// edge leads to.
pub fn near_sides_of_one()
    ensures near { (g : Graph) (source : ℕ) → g.sources ≡ source ∷ [] → (set : List ℕ) (file : ℕ) →
        IsNear g set file ↔
        ((walk : List ℕ) × IsTrue (is_walk g source walk file) × IsTrue (not (meets walk set))) }
    ensures reached { (g : Graph) (source : ℕ) → g.sources ≡ source ∷ [] → (file : ℕ) →
        is_reached g file ≡ ((file == source) || list_any (λ (e : Edge). e.to == file) g.edges) }
{}
