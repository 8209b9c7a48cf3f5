//! Files that are to be read.
ghost use Rattle.std.specs.Prelude.{◌≡◌, ◌<◌, ◌&&◌, ◌||◌, IfOk, length, nat_lt, option_map};
ghost use Rattle.inc_pp.specs.FileNames.{included_standing, source_standing};
ghost use Rattle.inc_pp.specs.Includes.{entry_in};
ghost use Rattle.inc_pp.specs.Tasks.{shown_path, source_at};

use crate::file_names::{is_in_system, source_spelled, where_spelled};
use crate::headers::Header;
use crate::line_numbers::Here;
use crate::settings::Settings;
use inc_lookup::{DirectiveId, FileId, Found, Project};
use std::alloc::{AllocError, Global};
use std::marker::Model;

/// How a file comes to be read.
#[derive(Drop)]
pub(crate) struct Standing {
    /// Its path as it is spelled; `None`: that in the list.
    spelled: Option<Vec<u8>>,
    /// How many includes it is below the source.
    level: u32,
    /// Whether it is a system header, or has become one.
    is_system: bool,
}

impl Model for Standing {
    ghost use Rattle.std.specs.Prelude.{option_map};
    ghost use Rattle.inc_pp.specs.FileNames.{Standing};

    ghost Value = { Standing };

    ghost view = { λ s. record { spelled = option_map (λ p. p.items) s.spelled; level = s.level; is_system = s.is_system } };
}

impl Standing {
    /// That of the source.
    fn of_source(alloc: Global, settings: &Settings<'_>) -> Result<Standing, AllocError>
        ensures { IfOk result (λ standing. standing ≡ source_standing settings.now) }
    {
        let spelled = source_spelled(alloc, settings)?;
        Ok(Standing {
            spelled,
            level: 0,
            is_system: false,
        })
    }

    /// That of a file that a name has found in a file with this one, and with the path `includer`.
    fn of_included(
        &self,
        alloc: Global,
        settings: &Settings<'_>,
        includer: &[u8],
        name: &[u8],
        next: Option<usize>,
    ) -> Result<Standing, AllocError>
        ensures { IfOk result (λ standing. standing
            ≡ included_standing settings.now includer.now self.now name.now next) }
    {
        let spelled = where_spelled(alloc, settings, includer, name, next)?;
        // No memory holds so many files that are being read.
        let Some(level) = self.level.checked_add(1) else {
            return Err(AllocError);
        };
        Ok(Standing {
            spelled,
            level,
            is_system: self.is_system || is_in_system(settings.dirs(), next),
        })
    }

    /// The path of the file that has this one: as it is spelled, else that in the list.
    pub(crate) fn path<'p>(&'p self, project: &'p Project<'_>, file: FileId) -> &'p [u8]
        requires { file < length project.now.paths }
        ensures { result.now ≡ shown_path project.now file self.now.spelled }
    {
        match &self.spelled {
            Some(path) => path,
            None => project.path(file),
        }
    }

    /// How many includes it is below the source.
    pub(crate) fn level(&self) -> u32
        ensures { result ≡ self.now.level }
    {
        self.level
    }

    /// Whether it is a system header, or has become one.
    pub(crate) fn is_system(&self) -> bool
        ensures { result ≡ self.now.is_system }
    {
        self.is_system
    }

    /// Has a header become one of the system's, where `names_system` says so. It never does so of the source.
    pub(crate) fn note_system(&mut self, names_system: bool)
        ensures { self.new ≡ record self.old { is_system = self.old.is_system || (nat_lt 0 self.old.level && names_system) } }
    {
        self.is_system = self.is_system || (self.level > 0 && names_system);
    }
}

/// A file that is to be read.
#[derive(Drop)]
pub(crate) struct Entry {
    /// The file, and where an `#include_next` in it goes on.
    pub(crate) at: Found,
    /// How it comes to be read.
    pub(crate) standing: Standing,
    /// The directive that leads to it; of the source its first line.
    pub(crate) by: DirectiveId,
}

impl Entry {
    /// The source, which no search has found.
    pub(crate) fn source(
        alloc: Global,
        settings: &Settings<'_>,
        file: FileId,
    ) -> Result<Entry, AllocError>
        ensures { IfOk result (λ entry. entry ≡ source_at settings.now file) }
    {
        let standing = Standing::of_source(alloc, settings)?;
        Ok(Entry {
            at: Found { file, next: None },
            standing,
            by: DirectiveId { file, line: 1 },
        })
    }
}

/// The file that an include directive leads to, if any.
pub(crate) fn entry_of(
    alloc: Global,
    project: &Project<'_>,
    settings: &Settings<'_>,
    by: DirectiveId,
    here: &Here,
    header: &Header<'_>,
    found: Option<Found>,
) -> Result<Option<Entry>, AllocError>
    requires { by.file < length project.now.paths }
    ensures { IfOk result (λ entry. entry
        ≡ option_map (entry_in project.now settings.now by here.now header.now.name) found) }
{
    let Some(at) = found else {
        return Ok(None);
    };
    let includer = here.standing.path(project, by.file);
    let standing = here
        .standing
        .of_included(alloc, settings, includer, header.name(), at.next)?;
    Ok(Some(Entry { at, standing, by }))
}
