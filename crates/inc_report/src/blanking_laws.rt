//! What holds of the files of every cut, with its directives blanked. The function does nothing: what it ensures is what holds.
ghost use Rattle.inc_report.specs.BlankedCuts.{BlankedCutKeepsHeadersOut};

/// Where the directives of a separating set are blanked in the files of the project, no preprocessing of a source of them
/// reads a header, whatever words define macros. This holds of each graph that is answered and has no blocker.
pub fn blanked_cuts_keep_the_headers_out()
    ensures { BlankedCutKeepsHeadersOut }
{}
