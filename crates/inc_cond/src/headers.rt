//! Where questions of a condition look for headers.
ghost use Rattle.std.specs.Prelude.{◌≡◌, ◌<◌, length, IfOk};
ghost use Rattle.inc_cond.specs.Headers.{is_found};

use inc_lookup::{FileId, Form, Project};
use std::alloc::{AllocError, Global};
use std::marker::Model;

/// Where `__has_include` and `__has_include_next` of a condition look for headers.
#[derive(Drop)]
pub struct HeaderSearch<'p> {
    project: &'p Project<'p>,
    file: FileId,
    next: Option<usize>,
}

impl<'p> Model for HeaderSearch<'p> {
    ghost use Rattle.std.specs.Prelude.{◌<◌, length};
    ghost use Rattle.inc_cond.specs.Headers.{HeaderSearch};

    ghost Value = { HeaderSearch };

    ghost view = { λ s. record { layout = s.project.now; file = s.file; next = s.next } };

    ghost invariant = { λ s. s.file < length s.project.now.paths };
}

impl<'p> HeaderSearch<'p> {
    /// From a file of a project, in which an `#include_next` begins with the directory `next` of the include path, or as an `#include`.
    pub fn new(project: &'p Project<'p>, file: FileId, next: Option<usize>) -> HeaderSearch<'p>
        requires { file < length project.now.paths }
        ensures { result ≡ record { layout = project.now; file = file; next = next } }
    {
        HeaderSearch {
            project,
            file,
            next,
        }
    }

    /// Whether a header is found. `is_next`: as `#include_next` would find it.
    pub(crate) fn finds(
        &self,
        alloc: Global,
        is_next: bool,
        form: Form,
        name: &[u8],
    ) -> Result<bool, AllocError>
        ensures { IfOk result (λ found. found
            ≡ is_found self.now is_next (record { form = form; name = name.now })) }
    {
        let after = if is_next { self.next } else { None };
        let found = self.project.find_from(alloc, self.file, form, after, name)?;
        Ok(found.is_some())
    }
}
