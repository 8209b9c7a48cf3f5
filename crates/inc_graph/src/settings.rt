//! How the files of a project are read for a graph.
ghost use Rattle.std.specs.Prelude.{◌≡◌, ◌<◌, ◌≤◌, ◌+◌, IfOk, length, map};
ghost use Rattle.inc_lookup.specs.DirectiveLists.{is_listed};
ghost use Rattle.inc_graph.specs.IncludeGraph.{undefined_place};
ghost use Rattle.inc_graph.specs.Settings.{setting_of, with_paths, layout_in};

use crate::building::lookups::Lookup;
use inc_lookup::{DirectiveId, DirectiveSet, FileId, IncludePath, NameList, Project};
use inc_text::Language;
use std::alloc::{AllocError, Global};
use std::marker::Model;

/// The language of the files, the directives that are taken as removed, names that no build defines, and include paths beside the project's
/// own.
#[derive(Drop)]
pub struct Setting<'r> {
    language: Language,
    removed: DirectiveSet<'r>,
    undefined: NameList,
    others: &'r [IncludePath],
}

impl<'r> Model for Setting<'r> {
    ghost use Rattle.inc_graph.specs.Settings.{Setting};

    ghost Value = { Setting };

    ghost view = { λ s. record { language = s.language; removed = s.removed; undefined = s.undefined; others = s.others.now } };
}

impl<'r> Setting<'r> {
    /// A language, without some directives: each of `removed` that is an include directive, or one that C does not have, counts as a line of
    /// text without tokens; where no such directive is at its line nothing changes. The names of `undefined` are those that no build
    /// defines on its command line: an include by such a name is no blocker where no file defines the name. The seed is that of a table.
    /// There is no include path but the project's own.
    pub fn new(
        alloc: Global,
        seed: u64,
        language: Language,
        removed: &'r [DirectiveId],
        undefined: &[&[u8]],
    ) -> Result<Setting<'r>, AllocError>
        ensures { IfOk result (λ setting. setting
            ≡ setting_of language removed.now (map (λ n. n.now) undefined.now)) }
    {
        let removed = DirectiveSet::new(alloc, removed)?;
        let undefined = NameList::new(alloc, seed, undefined)?;
        Ok(Setting {
            language,
            removed,
            undefined,
            others: &[],
        })
    }

    /// The same with include paths beside the project's own. A source names one by its number: 0 is the project's own, and 1 the first of
    /// these.
    pub fn with_paths(self, others: &'r [IncludePath]) -> Setting<'r>
        ensures { result ≡ with_paths self.entry others.now }
    {
        let Setting {
            language,
            removed,
            undefined,
            ..
        } = self;
        Setting {
            language,
            removed,
            undefined,
            others,
        }
    }

    /// How many include paths there are.
    pub(crate) fn path_count(&self) -> usize
        ensures { result ≡ length self.now.others + 1 }
    {
        self.others.len() + 1
    }

    /// The search in the include path of this number.
    pub(crate) fn lookup<'p>(&'p self, project: &'p Project<'p>, path: usize) -> Lookup<'p>
        requires { path ≤ length self.now.others }
        ensures { result ≡ layout_in self.now.others project.now path }
    {
        if path == 0 {
            return Lookup::new(project, project.include_path());
        }
        match self.others.get(path - 1) {
            Some(search) => Lookup::new(project, search),
            None => unreachable!(),
        }
    }

    /// The language.
    pub(crate) fn language(&self) -> Language
        ensures { result ≡ self.now.language }
    {
        self.language
    }

    /// Whether a directive at this line is taken as removed, where it can be.
    pub(crate) fn removes(&self, file: FileId, line: u32) -> bool
        ensures { result ≡ is_listed self.now.removed file line }
    {
        self.removed.contains(file, line)
    }

    /// How many names there are that no build defines, each counted once.
    pub(crate) fn undefined_count(&self) -> usize
        ensures { result ≡ length self.now.undefined }
    {
        self.undefined.len()
    }

    /// The place of a name among those that no build defines, if it is one.
    pub(crate) fn undefined_place(&self, name: &[u8]) -> Option<usize>
        ensures { result ≡ undefined_place self.now.undefined name.now }
    {
        self.undefined.place(name)
    }
}
