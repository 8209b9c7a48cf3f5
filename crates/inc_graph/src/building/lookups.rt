//! The search for the files of include directives in one include path.
ghost use Rattle.std.specs.Prelude.{◌≡◌, ◌<◌, length, IfOk, IfSome};
ghost use Rattle.inc_lookup.specs.Projects.{found_place, path_at};

use inc_lookup::{FileId, Form, Found, IncludePath, Project};
use std::alloc::{AllocError, Global};
use std::marker::Model;

/// The files of a project, and an include path in which they are looked for.
#[derive(Drop)]
pub(crate) struct Lookup<'p> {
    project: &'p Project<'p>,
    search: &'p IncludePath,
}

impl<'p> Model for Lookup<'p> {
    ghost use Rattle.inc_lookup.specs.Projects.{Layout};

    ghost Value = { Layout };

    ghost view = { λ l. record { paths = l.project.now.paths; search = l.search.now } };
}

impl<'p> Lookup<'p> {
    /// In this include path.
    pub(crate) fn new(project: &'p Project<'p>, search: &'p IncludePath) -> Lookup<'p>
        ensures { result ≡ record { paths = project.now.paths; search = search.now } }
    {
        Lookup { project, search }
    }

    /// How many files there are.
    pub(crate) fn count(&self) -> usize
        ensures { result ≡ length self.now.paths }
    {
        self.project.count()
    }

    /// The file that a directive names, as [`Project::find_from`] has it.
    pub(crate) fn find_from(
        &self,
        alloc: Global,
        from: FileId,
        form: Form,
        after: Option<usize>,
        name: &[u8],
    ) -> Result<Option<Found>, AllocError>
        requires { from < length self.now.paths }
        ensures found { IfOk result (λ found. found
            ≡ found_place self.now (path_at self.now from) form after name.now) }
        ensures within { IfOk result (λ found. IfSome found
            (λ f. f.file < length self.now.paths)) }
    {
        self.project
            .find_in(alloc, self.search, from, form, after, name)
    }
}
