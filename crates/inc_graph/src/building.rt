//! How a graph is built of a project.
ghost use Rattle.std.specs.Prelude.{◌≡◌, ◌<◌, ◌+◌, length, IfOk, IfErr, IfSome, Ok, Err};
ghost use Rattle.inc_lookup.specs.Given.{HoldsOfGiven, FailsAfter};
ghost use Rattle.inc_graph.specs.IncludeGraph.{AreAsked, IsGraphAnswer, IsRefusalWithin, source_files};
ghost use Rattle.inc_graph.specs.ReadFiles.{IsOfClosure, IsReachedAfter, IsOfFiles, read_fault_of};

mod closures;
mod directs;
mod entries;
mod file_entries;
mod gathering;
pub(crate) mod lookups;
mod nexts;
mod places;
mod states;

use crate::building::closures::read_closure;
use crate::building::gathering::{add_states, count_directives, defined_names, first_bad};
use crate::file_sets::FileSet;
use crate::graphs::{Graph, Parts};
use crate::missing_lists::MissingList;
use crate::settings::Setting;
use inc_directive::FileFault;
use inc_lookup::{FileId, Project, Sources};
use std::alloc::{AllocError, AllocFailed, Global};
use thiserror::Error;

/// A source, and the include path in which the files are looked for that its include directives name, and theirs.
#[derive(Clone, Copy, Debug, PartialEq, Eq)]
pub struct Source {
    /// The file.
    pub file: FileId,
    /// The number of the include path: 0 for the project's own, and 1 for the first of the others of a [`Setting`].
    pub path: usize,
}

/// Why a project has no graph for sources and headers.
#[derive(Clone, Copy, Debug, PartialEq, Eq, Error)]
pub enum GraphRefusal {
    /// A file that a source reaches has an unterminated comment, or conditionals that do not balance.
    #[error("a bad file: {fault}")]
    BadFile {
        /// The place of the first such file.
        file: FileId,
        /// Its first fault, which is never that memory ran out.
        fault: FileFault,
    },
    /// There are more than 1,000,000 directives.
    #[error("too many directives")]
    TooManyDirectives,
    /// A file that a source reaches cannot be read.
    #[error("a file that cannot be read")]
    CannotRead {
        /// The place of the file.
        file: FileId,
    },
    /// A file that a source reaches has more than 16,777,216 bytes.
    #[error("a file that is too long")]
    FileTooLong {
        /// The place of the file.
        file: FileId,
    },
    /// Memory ran out.
    #[error("out of memory")]
    NoMemory,
}

impl From<AllocError> for GraphRefusal {
    ghost use Rattle.inc_graph.specs.declared.building.GraphRefusal.TheVariants.{NoMemory};

    ghost from_gives = { λ _ e. e ≡ NoMemory };

    fn from(_error: AllocError) -> GraphRefusal {
        GraphRefusal::NoMemory
    }
}

impl<T: Drop> From<AllocFailed<T>> for GraphRefusal {
    ghost use Rattle.inc_graph.specs.declared.building.GraphRefusal.TheVariants.{NoMemory};

    ghost from_gives = { λ _ e. e ≡ NoMemory };

    fn from(_failed: AllocFailed<T>) -> GraphRefusal {
        GraphRefusal::NoMemory
    }
}

impl Graph {
    /// The graph of the files that include directives reach from the files of `from` without leaving from those of `to`, each source in its
    /// include path. Each of these files is read once, when it is reached, those of `to` never; its bytes are given up before the next is
    /// read. The first reading that fails is answered. Then of several bad files the first of the list is answered, before too many
    /// directives.
    pub fn build<'p, S: Sources>(
        alloc: Global,
        project: &'p Project<'p>,
        sources: &mut S,
        from: &[Source],
        to: &[FileId],
        setting: &'p Setting<'p>,
    ) -> Result<Graph, GraphRefusal>
        requires { AreAsked (length project.now.paths) (length setting.now.others + 1) from.now to.now }
        ensures graph { IfOk result (λ graph.
            HoldsOfGiven S.gives sources.old sources.new project.now (λ given listing.
            IsGraphAnswer setting.now listing from.now to.now (Ok graph)
            × IsOfClosure setting.now from.now to.now given listing)) }
        ensures refusal { IfErr result (λ fault. IsOfFiles fault →
            HoldsOfGiven S.gives sources.old sources.new project.now (λ given listing.
            IsGraphAnswer setting.now listing from.now to.now (Err fault)
            × IsOfClosure setting.now from.now to.now given listing)) }
        ensures unread { IfErr result (λ fault. IfSome (read_fault_of fault) (λ r.
            FailsAfter S.gives sources.old sources.new project.now r.0 r.1
            (IsReachedAfter setting.now from.now to.now r.0))) }
        ensures within { IfErr result (λ fault. IsRefusalWithin (length project.now.paths) fault) }
    {
        let starts = FileSet::of_sources(alloc, project.count(), from)?;
        let to = FileSet::new(alloc, project.count(), to)?;
        Graph::build_in(alloc, project, sources, from, starts, to, setting)
    }

    /// The same with the files in sets.
    fn build_in<'p, S: Sources>(
        alloc: Global,
        project: &'p Project<'p>,
        sources: &mut S,
        from: &[Source],
        starts: FileSet,
        to: FileSet,
        setting: &'p Setting<'p>,
    ) -> Result<Graph, GraphRefusal>
        requires asked { AreAsked (length project.now.paths) (length setting.now.others + 1) from.now to }
        requires starts { starts ≡ source_files from.now }
        ensures graph { IfOk result (λ graph.
            HoldsOfGiven S.gives sources.old sources.new project.now (λ given listing.
            IsGraphAnswer setting.now listing from.now to (Ok graph)
            × IsOfClosure setting.now from.now to given listing)) }
        ensures refusal { IfErr result (λ fault. IsOfFiles fault →
            HoldsOfGiven S.gives sources.old sources.new project.now (λ given listing.
            IsGraphAnswer setting.now listing from.now to (Err fault)
            × IsOfClosure setting.now from.now to given listing)) }
        ensures unread { IfErr result (λ fault. IfSome (read_fault_of fault) (λ r.
            FailsAfter S.gives sources.old sources.new project.now r.0 r.1
            (IsReachedAfter setting.now from.now to r.0))) }
        ensures within { IfErr result (λ fault. IsRefusalWithin (length project.now.paths) fault) }
    {
        let states = read_closure(alloc, project, sources, from, &to, setting)?;
        if let Some(refusal) = first_bad(project, &states) {
            return Err(refusal);
        }
        let Some(count) = count_directives(&states) else {
            return Err(GraphRefusal::TooManyDirectives);
        };
        let mut parts = Parts {
            files: project.count(),
            sources: starts,
            headers: to,
            edges: Vec::with_capacity(alloc, count)?,
            missing: MissingList::new(alloc),
            blockers: Vec::new(alloc),
            definitions: Vec::new(alloc),
        };
        let defined = defined_names(alloc, &states, setting.undefined_count())?;
        add_states(&mut parts, project, &states, &defined)?;
        // The graph's own lists take their room.
        drop(states);
        Ok(Graph::new(alloc, parts)?)
    }
}
