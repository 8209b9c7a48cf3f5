//! What holds of every printed answer, and of every cut. The functions do nothing: what they ensure is what holds.
ghost use Rattle.std.specs.Prelude.{◌≡◌, ℕ, Bool, List, [], ◌∷◌, Option, Ok, Err};
ghost use Rattle.std.specs.Option.{option_map_or};
ghost use Rattle.inc_lookup.specs.Projects.{Layout, Listing};
ghost use Rattle.inc_answers.specs.GraphText.{IsGraph};
ghost use Rattle.inc_report.specs.KeptOut.{CutKeepsHeadersOut, AnsweredCutKeepsHeadersOut, NothingUnreachedIsRead, NothingIsReadWithoutChain, UnreachedIsKeptOut};
ghost use Rattle.inc_answers.specs.NamedFiles.{file_at, files_at};
ghost use Rattle.inc_answers.specs.Printed.{Printed};
ghost use Rattle.inc_answers.specs.Terms.{Question};
ghost use Rattle.inc_answers.specs.WhoText.{IsWho};
ghost use Rattle.inc_answers.specs.WhyText.{IsWhy};

/// Two answers to how a header reaches a source are the same, in their text and in how the call ends. So the clauses of `run_why`
/// leave it one text.
pub fn answers_to_why_are_one()
    ensures { (fails : Bool) (most : Option ℕ) (q : Question) (listing : Listing) (a b : Printed) →
        IsWhy fails most q listing a → IsWhy fails most q listing b → a ≡ b }
{}

/// Two answers to which sources reach a header are the same, with chains or without.
pub fn answers_to_who_are_one()
    ensures { (with_chains fails : Bool) (most : Option ℕ) (q : Question) (listing : Listing) (a b : Printed) →
        IsWho with_chains fails most q listing a → IsWho with_chains fails most q listing b → a ≡ b }
{}

/// Two answers to which edges the sources reach are the same.
pub fn answers_to_graph_are_one()
    ensures { (q : Question) (listing : Listing) (a b : Printed) → IsGraph q listing a → IsGraph q listing b → a ≡ b }
{}

/// One path names its file alone, if it names one: with one path each, a question is one about a source and a header.
pub fn files_of_one_path()
    ensures { (layout : Layout) (path : List ℕ) →
        files_at layout (path ∷ []) ≡ option_map_or (λ f. Ok (f ∷ [])) (file_at layout path) (Err 0) }
{}

/// Once the directives of a separating set are removed, no preprocessing of a source reads a header, whatever words of the command
/// line it begins with. This holds where no file of the closure but perhaps the headers is bad and no blocker is, and so of each graph
/// that is answered and has no blocker.
pub fn cuts_keep_the_headers_out()
    ensures files { CutKeepsHeadersOut }
    ensures answered { AnsweredCutKeepsHeadersOut }
{}

/// Where no chain leads from a source to a header, no preprocessing of a source reads a header, without the directives that the setting takes
/// as removed. This holds of each graph that is answered and has no blocker.
pub fn unreached_headers_are_not_read()
    ensures { UnreachedIsKeptOut }
{}

/// No preprocessing of a source, without the directives that the setting takes as removed, reads a file to which no walk of its graph
/// leads from the source; nor one of some files, where the source is one of others from which no chain leads to these. This holds of
/// each graph that is answered without headers and has no blocker.
pub fn nothing_unreached_is_read()
    ensures walks { NothingUnreachedIsRead }
    ensures chains { NothingIsReadWithoutChain }
{}
