//! What holds of texts and verdicts. The functions do nothing: what they ensure is what holds.
ghost use Rattle.std.specs.Prelude.{◌≡◌, ◌<◌, ℕ, List, length, nat_le, IsTrue};
ghost use Rattle.std.specs.List.{All, list_all};
ghost use Rattle.inc_lookup.specs.Projects.{Layout};
ghost use Rattle.inc_graph.specs.IncludeGraph.{Graph, IsSound};
ghost use Rattle.inc_graph.specs.Marks.{Mark, Cost};
ghost use Rattle.inc_graph.specs.Cuts.{Fixed, Costs, Counted, IsCheapest, IsCostCertificate};
ghost use Rattle.inc_check.specs.declared.certificates.Certificate.{Certificate};
ghost use Rattle.inc_check.specs.declared.verdicts.Verdict.TheVariants.{Yes};
ghost use Rattle.inc_check.specs.Certificates.{certificate_of, chains_of, edge_numbers, marks_of, IsEachPathOnce, IsVerdict};
ghost use Rattle.inc_check.specs.CertificateText.{IsCertificateText, CertificateFormat};
ghost use Rattle.inc_check.specs.Texts.{IsMarksText, IsCostsText, MarksFormat, CostsFormat, IsOfLongest, certificate_text, greatest_number, is_small_chain, is_small_list};

/// A text is that of at most one certificate.
pub fn certificate_text_is_one()
    ensures { (text : List ℕ) (c d : Certificate) →
        IsCertificateText text c → IsCertificateText text d → c ≡ d }
{}

/// The text that is written of a certificate is read as that certificate, if its numbers and paths are no greater than a text may hold.
pub fn written_certificate_is_read()
    ensures { (c : Certificate) → IsTrue (is_small_list c.cut) → IsTrue (list_all is_small_chain c.chains) →
        IsTrue (nat_le (length c.chains) greatest_number) → IsCertificateText (certificate_text c) c }
{}

/// A text is that of at most one list of marks, and of at most one list of costs.
pub fn list_text_is_one()
    ensures marks { (text : List ℕ) (a b : List Mark) → IsMarksText text a → IsMarksText text b → a ≡ b }
    ensures costs { (text : List ℕ) (a b : List Cost) → IsCostsText text a → IsCostsText text b → a ≡ b }
{}

/// The line where an input breaks off is the one after its longest part, from its front, that begins a text of the format.
pub fn malformed_line_is_of_longest()
    ensures marks { IsOfLongest MarksFormat }
    ensures costs { IsOfLongest CostsFormat }
    ensures certificates { IsOfLongest CertificateFormat }
{}

/// Where a checker says yes, the marks of the cut name edges of the graph that form a cheapest separating set: the chains show it.
pub fn yes_is_cheapest()
    ensures certificate { (layout : Layout) (g : Graph) (fixed : Fixed) (cost : Costs) (c : Certificate) →
        IsVerdict layout g fixed cost c Yes →
        IsCostCertificate g fixed cost (edge_numbers layout g c.cut) (chains_of layout g c.chains) }
    ensures cheapest { (layout : Layout) (g : Graph) (fixed : Fixed) (cost : Costs) (c : Certificate) →
        IsVerdict layout g fixed cost c Yes →
        IsCheapest g fixed cost (edge_numbers layout g c.cut) }
{}

/// Where no two files have one path, the marks of edges name these edges and no others.
pub fn marks_name_their_edges()
    ensures { (layout : Layout) (g : Graph) (edges : List ℕ) → IsEachPathOnce layout → IsSound g →
        g.files ≡ length layout.paths → All (λ i. i < length g.edges) edges →
        edge_numbers layout g (marks_of layout g edges) ≡ edges }
{}

/// Where no two files have one path, a checker says yes to the certificate of a separating set and of chains that show that it is
/// the cheapest.
pub fn cuts_are_accepted()
    ensures { (layout : Layout) (g : Graph) (fixed : Fixed) (cost : Costs) (set : List ℕ)
        (chains : List Counted) → IsEachPathOnce layout → IsSound g →
        g.files ≡ length layout.paths → IsCostCertificate g fixed cost set chains →
        IsVerdict layout g fixed cost (certificate_of layout g set chains) Yes }
{}
