//! What holds of every include graph. The functions do nothing: what they ensure is what holds.
ghost use Rattle.std.specs.Prelude.{◌≡◌, ◌≤◌, ◌↔◌, ℕ, false, List, [], Contains, Option, Result, Ok, length, map, IsTrue};
ghost use Rattle.inc_text.specs.PhaseText.{phase_text};
ghost use Rattle.inc_text.specs.declared.languages.Language.{Language};
ghost use Rattle.inc_directive.specs.FileDirectives.{file_directives};
ghost use Rattle.inc_lookup.specs.DirectiveLists.{is_listed};
ghost use Rattle.inc_graph.specs.Settings.{Setting, setting_of};
ghost use Rattle.inc_lookup.specs.Given.{HoldsOfGiven};
ghost use Rattle.inc_lookup.specs.Held.{held_gives};
ghost use Rattle.inc_lookup.specs.Projects.{File, Layout, Listing, layout_of, bytes_at};
ghost use Rattle.inc_lookup.specs.Views.{seen_file};
ghost use Rattle.inc_lookup.specs.declared.sources.HeldFiles.{HeldFiles};
ghost use Rattle.inc_graph.specs.Chains.{is_walk, is_chain, IsWalkedTo, IsShortestOrNone, AreChainsByLast};
ghost use Rattle.inc_graph.specs.Members.{is_member};
ghost use Rattle.inc_graph.specs.IncludeGraph.{Edge, Graph, Start, read_directives, edges_from, InClosure, IsClosure, is_found, IsGraphAnswer, LeadsToOne};
ghost use Rattle.inc_graph.specs.ReadFiles.{IsOfClosure};
ghost use Rattle.inc_graph.specs.Reaching.{Reaching, AreReaching};
ghost use Rattle.inc_graph.specs.declared.building.GraphRefusal.{GraphRefusal};
ghost use Rattle.inc_graph.specs.declared.building.Source.{Source};

/// Two lists of the ways in which each file of the closure of sources and headers is found have the same ways, and so the same files.
pub fn closures_are_one()
    ensures ways { (setting : Setting) (listing : Listing) (sources : List Source) (headers : List ℕ)
        (a b : ℕ → List Start) →
        IsClosure setting listing sources headers a → IsClosure setting listing sources headers b →
        (file : ℕ) (start : Start) → Contains (a file) start → Contains (b file) start }
    ensures files { (setting : Setting) (listing : Listing) (sources : List Source) (headers : List ℕ)
        (a b : ℕ → List Start) →
        IsClosure setting listing sources headers a → IsClosure setting listing sources headers b →
        (file : ℕ) → is_found (a file) ≡ is_found (b file) }
{}

/// Two answers for sources and headers, each their graph or the refusal in its place, are the same.
pub fn graphs_are_one()
    ensures { (setting : Setting) (listing : Listing) (sources : List Source) (headers : List ℕ)
        (a b : Result Graph GraphRefusal) → IsGraphAnswer setting listing sources headers a →
        IsGraphAnswer setting listing sources headers b → a ≡ b }
{}

/// Two answers to which is the first of a graph's shortest chains, or that it has no chain, are the same.
pub fn shortest_chains_are_one()
    ensures { (g : Graph) (a b : Option (List ℕ)) → IsShortestOrNone g a → IsShortestOrNone g b →
        a ≡ b }
{}

/// Two lists of the first shortest chains that a graph's edges end, from one edge on, are the same.
pub fn chains_by_last_are_one()
    ensures { (g : Graph) (first : ℕ) (a b : List (List ℕ)) → AreChainsByLast g first a →
        AreChainsByLast g first b → a ≡ b }
{}

/// Two lists of the sources that reach a header, each with the first of its shortest chains, are the same.
pub fn reaching_sources_are_one()
    ensures { (g : Graph) (sources : List ℕ) (a b : List Reaching) → AreReaching g sources a →
        AreReaching g sources b → a ≡ b }
{}

/// A walk from a source to a header holds a chain, whose edges are all among those of the walk and no more than it has. So where
/// there is no chain there is no walk.
pub fn walks_hold_chains()
    ensures { (g : Graph) (source header : ℕ) (walk : List ℕ) → IsTrue (is_member source g.sources) →
        IsTrue (is_member header g.headers) → IsTrue (is_walk g source walk header) →
        (chain : List ℕ) × IsTrue (is_chain g chain)
        × ((edge : ℕ) → IsTrue (is_member edge chain) → IsTrue (is_member edge walk))
        × (length chain ≤ length walk) }
{}

/// The files of the closure are those that walks from the sources reach over the edges of the graph, where no directive leads to several
/// files.
pub fn closure_is_what_walks_reach()
    ensures { (setting : Setting) (listing : Listing) (sources : List Source) (headers : List ℕ) (g : Graph) →
        IsGraphAnswer setting listing sources headers (Ok g) → LeadsToOne g → (file : ℕ) →
        InClosure setting listing sources headers file ↔
        IsWalkedTo g file }
{}

/// Of held files the graph, or the refusal in its place, is that of every listing with their bytes and the project's paths and
/// directories.
pub fn held_files_have_the_graph()
    ensures { (old new : HeldFiles) (layout : Layout) (setting : Setting) (sources : List Source) (headers : List ℕ)
        (answer : Result Graph GraphRefusal) (listing : Listing) →
        HoldsOfGiven held_gives old new layout (λ given listing.
        IsGraphAnswer setting listing sources headers answer
        × IsOfClosure setting sources headers given listing) →
        layout_of listing ≡ layout → map (λ (f : File). f.bytes) listing.files
        ≡ map (λ (f : File). f.bytes) (map seen_file old.files.now) →
        IsGraphAnswer setting listing sources headers answer }
{}

/// Where nothing is taken as removed, the directives of a file are all that it has.
pub fn nothing_removed_changes_nothing()
    ensures { (language : Language) (names : List (List ℕ)) (listing : Listing) (file : ℕ) →
        read_directives (setting_of language [] names) listing file
        ≡ file_directives language (phase_text language (bytes_at listing file)) }
{}

/// No edge is by a directive that is taken as removed.
pub fn removed_directives_lead_nowhere()
    ensures { (setting : Setting) (listing : Listing) (starts : List Start) (file : ℕ) (e : Edge) →
        Contains (edges_from setting listing starts file) e →
        is_listed setting.removed file e.line ≡ false }
{}
