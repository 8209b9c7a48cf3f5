//! What holds of lists. The functions do nothing: what they ensure is what holds.
ghost use Rattle.std.specs.Prelude.{◌≡◌, ℕ, List, Ok, filter, is_some, not};
ghost use Rattle.inc_lookup.specs.Projects.{Layout, found_as};
ghost use Rattle.inc_graph.specs.Members.{is_member};
ghost use Rattle.inc_graph.specs.Marks.{Mark};
ghost use Rattle.inc_check.specs.CertificateText.{IsCertificateText};
ghost use Rattle.inc_check.specs.Texts.{IsMarksText, whole_lines};
ghost use Rattle.inc_check.specs.declared.certificates.Certificate.{Certificate};
ghost use Rattle.inc_inputs.specs.Ends.{named_files, once};
ghost use Rattle.inc_inputs.specs.MarkLists.{listed_marks};

/// A text of directives as they are printed, one a line, lists these, and the text of a certificate those of its cut.
pub fn printed_directives_are_listed()
    ensures marks { (text : List ℕ) (ms : List Mark) → IsMarksText (whole_lines text) ms → listed_marks text ≡ Ok ms }
    ensures cut { (text : List ℕ) (c : Certificate) → IsCertificateText (whole_lines text) c → listed_marks text ≡ Ok c.cut }
{}

/// Paths of which each file is taken once name the files that all of them name; those that name none are all there, in their order.
pub fn words_name_each_file_once()
    ensures files { (layout : Layout) (paths : List (List ℕ)) (file : ℕ) →
        is_member file (named_files layout (once layout paths)) ≡ is_member file (named_files layout paths) }
    ensures others { (layout : Layout) (paths : List (List ℕ)) →
        filter (λ p. not (is_some (found_as layout.paths p))) (once layout paths) ≡ filter (λ p. not (is_some (found_as layout.paths p))) paths }
{}
