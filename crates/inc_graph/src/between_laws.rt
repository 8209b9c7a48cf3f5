//! What holds of the part of a graph between some of its files and others. The functions do nothing: what they ensure is what holds.
ghost use Rattle.std.specs.Prelude.{◌≡◌, ◌≤◌, ◌<◌, ℕ, List, length, slice_get, slice_index_or, IsTrue};
ghost use Rattle.std.specs.List.{All};
ghost use Rattle.inc_graph.specs.Between.{between, edges_at, in_whole, numbers_between};
ghost use Rattle.inc_graph.specs.Chains.{is_walk, is_chain};
ghost use Rattle.inc_graph.specs.IncludeGraph.{Graph};
ghost use Rattle.inc_graph.specs.Members.{is_member};

/// Where a walk of a graph leads from one of some files to one of others, there is a chain between them that has no more edges. So where
/// there is no chain, none of the files reaches one of the others.
pub fn walks_between()
    ensures { (g : Graph) (from to : List ℕ) (source header : ℕ) (walk : List ℕ) →
        IsTrue (is_member source from) → IsTrue (is_member header to) → IsTrue (is_walk g source walk header) →
        (chain : List ℕ) × IsTrue (is_chain (between from to g) chain) × (length chain ≤ length walk) }
{}

/// A chain between some files and others is, by the numbers that its edges have in the graph, a walk of the graph from one of the files
/// to one of the others, edge by edge.
pub fn chains_between()
    ensures { (g : Graph) (from to : List ℕ) (chain : List ℕ) → IsTrue (is_chain (between from to g) chain) →
        (source : ℕ) × (header : ℕ) × IsTrue (is_member source from) × IsTrue (is_member header to)
        × IsTrue (is_walk g source (in_whole to g chain) header)
        × (edges_at g (in_whole to g chain) ≡ edges_at (between from to g) chain) }
{}

/// Each edge of the part has a number in the graph, by which it is the same edge there.
pub fn numbers_keep_edges()
    ensures edges { (g : Graph) (from to : List ℕ) (i : ℕ) → i < length (between from to g).edges →
        slice_get (between from to g).edges i ≡ slice_get g.edges (slice_index_or (numbers_between to g) i 0) }
    ensures within { (g : Graph) (to : List ℕ) → All (λ i. i < length g.edges) (numbers_between to g) }
    ensures long { (g : Graph) (from to : List ℕ) →
        length (numbers_between to g) ≡ length (between from to g).edges }
{}
