//! What holds of the edges by which a graph breaks rules. The functions do nothing: what they ensure is what holds.
ghost use Rattle.std.specs.Prelude.{◌≡◌, ℕ, List, Some, slice_get, IsTrue};
ghost use Rattle.inc_graph.specs.Chains.{is_walk, leaves, target};
ghost use Rattle.inc_graph.specs.IncludeGraph.{Graph};
ghost use Rattle.inc_graph.specs.Members.{is_member};
ghost use Rattle.inc_lookup.specs.Projects.{Layout};
ghost use Rattle.inc_rules.specs.Breaking.{AreBreaking, IsBreaking};
ghost use Rattle.inc_rules.specs.Judging.{is_right_file, left_files};
ghost use Rattle.inc_rules.specs.Rules.{Rule};
ghost use Rattle.inc_rules.specs.declared.rules.Verb.TheVariants.{NotInclude, NotReach};

/// Each walk from a file that a rule is about, which may not reach its right side, to a file of that side has one of the edges by which the
/// graph breaks rules, and so is each edge between them where it may not include that side. So without these edges no such rule is
/// broken.
pub fn no_rule_is_broken_without()
    ensures reach { (layout : Layout) (g : Graph) (rules : List Rule) (edges : List ℕ) (k : ℕ) (r : Rule) (source file : ℕ) (walk : List ℕ) →
        AreBreaking layout g rules edges → slice_get rules k ≡ Some r → r.verb ≡ NotReach →
        IsTrue (is_member source (left_files layout g r)) → IsTrue (is_walk g source walk file) → IsTrue (is_right_file layout r file) →
        (edge : ℕ) × IsTrue (is_member edge walk) × IsTrue (is_member edge edges) }
    ensures include { (layout : Layout) (g : Graph) (rules : List Rule) (edges : List ℕ) (k : ℕ) (r : Rule) (source edge : ℕ) →
        AreBreaking layout g rules edges → slice_get rules k ≡ Some r → r.verb ≡ NotInclude →
        IsTrue (is_member source (left_files layout g r)) → IsTrue (leaves g source edge) → IsTrue (is_right_file layout r (target g edge)) →
        IsTrue (is_member edge edges) }
{}

/// Each of these edges is one of a rule: it leads to a file of the right side from one that may not include any.
pub fn each_breaks_a_rule()
    ensures { (layout : Layout) (g : Graph) (rules : List Rule) (edges : List ℕ) (edge : ℕ) →
        AreBreaking layout g rules edges → IsTrue (is_member edge edges) →
        (k : ℕ) × (r : Rule) × (slice_get rules k ≡ Some r) × IsBreaking layout g r edge }
{}
