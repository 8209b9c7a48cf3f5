//! What holds of every project in whose files include directives are blanked. The function does nothing: what it ensures is
//! what holds.
ghost use Rattle.inc_pp.specs.BlankedProjects.{BlankingIsRemoval, BlankingSomeIsRemoval};

/// The files of a project with some include directives blanked preprocess as the old files do with these directives removed, under
/// any definitions and settings: the same tokens come out, the same files are read, and where one stops the other does.
pub fn blanking_is_removal()
    ensures all { BlankingIsRemoval }
    // Some directives are blanked, and others are taken as removed.
    ensures some { BlankingSomeIsRemoval }
{}
