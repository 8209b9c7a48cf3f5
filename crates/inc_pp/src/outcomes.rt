//! Preprocessing of a source file.
ghost use Rattle.std.specs.Prelude.{◌≡◌, ◌≢◌, ◌<◌, ℕ, List, Some, Ok, Err, length, map, IfOk, IfErr, IfSome};
ghost use Rattle.inc_text.specs.declared.devices.ReadFault.{ReadFault};
ghost use Rattle.inc_lookup.specs.Given.{Given, HoldsOfGiven, FailsAfter};
ghost use Rattle.inc_lookup.specs.Projects.{Listing};
ghost use Rattle.inc_pp.specs.Preprocessing.{named_settings, preprocessing};
ghost use Rattle.inc_pp.specs.Printed.{printed};
ghost use Rattle.inc_pp.specs.Readings.{IsOutcome, IsNextRead, IsNextReadAfter};
ghost use Rattle.inc_macro.specs.Tables.{table_of};
ghost use Rattle.inc_pp.specs.Refusals.{IfBadDefinition, IsRefusalWithin, read_fault_of};
ghost use Rattle.inc_pp.specs.StateViews.{state_of};
ghost use Rattle.inc_pp.specs.Shared.{AreShared, IsSharedOutcome};
ghost use Rattle.inc_pp.specs.WalkJobs.{AreSharedIn, job_in, over_by};
ghost use Rattle.inc_pp.specs.WalkStates.{IsNext, IsOver};

use crate::causes::Stop;
use crate::faults::Break;
use crate::files::Files;
use crate::output::OutTokens;
use crate::settings::Settings;
use crate::states::State;
use crate::walks::Job;
use inc_lookup::{DirectiveId, DirectiveSet, FileId, Project, Sources};
use inc_macro::{DefineFault, Macros, WordFault};
use inc_text::ReadFault;
use std::alloc::{AllocError, Global};
use std::marker::Model;
use thiserror::Error;

/// Why there is no outcome of a preprocessing.
#[derive(Clone, Copy, Debug, PartialEq, Eq, Error)]
pub enum PpRefusal {
    /// A word of the command line makes no definition.
    #[error("word {index} makes no definition: {fault}")]
    BadDefinition {
        /// The place of the first such word, from 0.
        index: usize,
        /// Why.
        fault: DefineFault,
    },
    /// A file that is to be read cannot be read.
    #[error("a file that cannot be read")]
    CannotRead {
        /// The place of the file.
        file: FileId,
    },
    /// A file that is to be read has more than 16,777,216 bytes.
    #[error("a file that is too long")]
    FileTooLong {
        /// The place of the file.
        file: FileId,
    },
    /// Memory ran out.
    #[error("out of memory")]
    NoMemory,
}

impl From<AllocError> for PpRefusal {
    ghost use Rattle.inc_pp.specs.declared.outcomes.PpRefusal.TheVariants.{NoMemory};

    ghost from_gives = { λ _ e. e ≡ NoMemory };

    fn from(_error: AllocError) -> PpRefusal {
        PpRefusal::NoMemory
    }
}

/// What a preprocessing gives: the tokens that it puts out, the files that it reads, and where it stops, if it does. All memory that the
/// preprocessing took is given back with it, and none before: a program that is about to end can forget it.
#[derive(Drop)]
pub struct Outcome {
    state: State,
    stop: Option<Stop>,
    /// The files that were read, where no preprocessing is to share them any more.
    files: Option<Files>,
}

impl Model for Outcome {
    ghost use Rattle.inc_pp.specs.Preprocessing.{Outcome};

    ghost Value = { Outcome };

    ghost view = { λ o. record { tokens = o.state.output; reads = o.state.reads; stop = o.stop } };
}

impl Outcome {
    /// What a walk has put out and read, and where it stopped.
    fn new(state: State, stop: Option<Stop>) -> Outcome
        ensures { result ≡ over_by (state_of state) stop }
    {
        Outcome {
            state,
            stop,
            files: None,
        }
    }

    /// The same, with the files that were read for it and those that shared them. They go with it.
    pub fn with_files(self, files: Files) -> Outcome
        ensures { result ≡ self }
    {
        let Outcome {
            state,
            stop,
            files: _,
        } = self;
        Outcome {
            state,
            stop,
            files: Some(files),
        }
    }

    /// The tokens as text: one space between two tokens of a line, and each line ended by LF. It is held in this form.
    pub fn text(&self) -> &[u8]
        ensures { result.now ≡ printed self.now.tokens }
    {
        self.state.output.text()
    }

    /// The tokens, one after the other.
    pub fn tokens(&self) -> OutTokens<'_>
        ensures { result ≡ self.now.tokens }
    {
        self.state.output.tokens()
    }

    /// The files that were read, the source first, and a file that is read twice, twice.
    pub fn reads(&self) -> &[FileId]
        ensures { result.now ≡ self.now.reads }
    {
        self.state.files_read()
    }

    /// Where it stopped before the end of the source. What was put out and read before is kept.
    pub fn stop(&self) -> Option<Stop>
        ensures { result ≡ self.now.stop }
    {
        self.stop
    }
}

/// Preprocesses a source file (ISO/IEC 9899:2018, 5.1.1.2 phases 1 to 4). The words define macros first, as `-D` words of a compiler do,
/// in their order. The include directives of `without` are taken as removed: each counts as a line of text without tokens. Files are
/// read when an include directive leads to them, each once.
pub fn preprocess<S: Sources>(
    alloc: Global,
    project: &Project<'_>,
    sources: &mut S,
    source: FileId,
    words: &[&[u8]],
    settings: &Settings<'_>,
    without: &[DirectiveId],
) -> Result<Outcome, PpRefusal>
    requires source { source < length project.now.paths }
    ensures outcome { IfOk result (λ outcome.
        HoldsOfGiven S.gives sources.old sources.new project.now
        (IsOutcome source (map (λ w. w.now) words.now) settings.now without.now outcome)) }
    ensures stop { IfOk result (λ outcome. IfSome outcome.stop
        (λ s. s.file < length project.now.paths)) }
    ensures definition { IfErr result (λ fault. IfBadDefinition fault (λ index why.
        (sources.new ≡ sources.old) × ((listing : Listing) →
        preprocessing listing source (map (λ w. w.now) words.now) settings.now without.now
        ≡ Err (index, why)))) }
    ensures unread { IfErr result (λ fault. IfSome (read_fault_of fault) (λ r.
        FailsAfter S.gives sources.old sources.new project.now r.0 r.1
        (IsNextRead source (map (λ w. w.now) words.now) settings.now without.now r.0))) }
    ensures within { IfErr result (λ fault. IsRefusalWithin (length project.now.paths) fault) }
{
    let removed = DirectiveSet::new(alloc, without)?;
    let mut files = Files::new(alloc, project)?;
    let job = Job {
        alloc,
        project,
        settings,
        removed: &removed,
    };
    match preprocess_with(&job, sources, &mut files, source, words) {
        Ok(outcome) => Ok(outcome.with_files(files)),
        Err(fault) => Err(fault),
    }
}

/// The same, with files that several preprocessings share: each is read and split into lines once, whichever source leads to it first.
/// All have to be of one project and one language, and have the same directives removed. After a stop the files can be used on, after a
/// refusal only where it is that of a word: after any other one the sources may have given bytes that no file has.
pub fn preprocess_with<S: Sources>(
    job: &Job<'_, '_>,
    sources: &mut S,
    files: &mut Files,
    source: FileId,
    words: &[&[u8]],
) -> Result<Outcome, PpRefusal>
    requires source { source < length job.now.project.now.paths }
    requires shared { (first : S) × (earlier : List Given) × AreShared S.gives first sources.old
        job.now.project.now job.now.settings.now.language job.now.removed.now files.old earlier }
    ensures outcome { IfOk result (λ outcome. (first : S) (earlier : List Given) →
        AreShared S.gives first sources.old job.now.project.now job.now.settings.now.language job.now.removed.now files.old
        earlier → IsSharedOutcome S.gives first sources.new job.now.project.now earlier source
        (map (λ w. w.now) words.now) job.now.settings.now job.now.removed.now files.new outcome) }
    ensures stop { IfOk result (λ outcome. IfSome outcome.stop
        (λ s. s.file < length job.now.project.now.paths)) }
    ensures definition { IfErr result (λ fault. IfBadDefinition fault (λ index why.
        (sources.new ≡ sources.old) × (files.new ≡ files.old) × ((listing : Listing) →
        preprocessing listing source (map (λ w. w.now) words.now) job.now.settings.now job.now.removed.now
        ≡ Err (index, why)))) }
    ensures unread { IfErr result (λ fault. IfSome (read_fault_of fault) (λ r.
        (first : S) (earlier : List Given) →
        AreShared S.gives first sources.old job.now.project.now job.now.settings.now.language job.now.removed.now files.old
        earlier → FailsAfter S.gives first sources.new job.now.project.now r.0 r.1
        (IsNextReadAfter earlier source (map (λ w. w.now) words.now) job.now.settings.now job.now.removed.now r.0))) }
    ensures within { IfErr result (λ fault. IsRefusalWithin (length job.now.project.now.paths) fault) }
{
    let macros = match Macros::with_words(
        job.alloc,
        job.project.seed(),
        job.settings.language(),
        words,
    ) {
        Ok(macros) => macros,
        Err(
            WordFault {
                fault: DefineFault::NoMemory,
                ..
            },
        ) => return Err(PpRefusal::NoMemory),
        Err(WordFault { index, fault }) => return Err(PpRefusal::BadDefinition { index, fault }),
    };
    let settings = named_settings(job.project, job.settings, source);
    let named = Job {
        alloc: job.alloc,
        project: job.project,
        settings: &settings,
        removed: job.removed,
    };
    preprocess_in(&named, sources, files, source, macros)
}

/// The settings with a name of the source: its path in the list, where they have none.
fn named_settings<'n>(
    project: &'n Project<'_>,
    settings: &Settings<'n>,
    source: FileId,
) -> Settings<'n>
    requires { source < length project.now.paths }
    ensures { result ≡ named_settings project.now source settings.now }
{
    let name = match settings.source() {
        Some(name) => name,
        None => project.path(source),
    };
    settings.with_source(name)
}

/// The same, with the macros of the words.
fn preprocess_in<S: Sources>(
    job: &Job<'_, '_>,
    sources: &mut S,
    files: &mut Files,
    source: FileId,
    macros: Macros,
) -> Result<Outcome, PpRefusal>
    requires source { source < length job.now.project.now.paths }
    requires shared { (first : S) × (earlier : List Given) × AreSharedIn S.gives first sources.old
        job.now files.old earlier }
    ensures outcome { IfOk result (λ outcome. (first : S) (earlier : List Given) →
        AreSharedIn S.gives first sources.old job.now files.old earlier →
        IsOver S.gives first sources.new (job_in job.now source (table_of macros) earlier) files.new
        outcome) }
    ensures stop { IfOk result (λ outcome. IfSome outcome.stop
        (λ s. s.file < length job.now.project.now.paths)) }
    ensures good { IfErr result (λ fault. IfBadDefinition fault (λ index why. ⊥)) }
    ensures unread { IfErr result (λ fault. IfSome (read_fault_of fault) (λ r.
        (first : S) (earlier : List Given) →
        AreSharedIn S.gives first sources.old job.now files.old earlier →
        FailsAfter S.gives first sources.new job.now.project.now r.0 r.1
        (IsNext (job_in job.now source (table_of macros) earlier) r.0))) }
    ensures within { IfErr result (λ fault. IsRefusalWithin (length job.now.project.now.paths) fault) }
{
    let mut state = State::new(job.alloc, job.project.seed(), macros);
    let mut at_hand = source;
    match job.walk(sources, files, &mut state, &mut at_hand, source) {
        Ok(()) => Ok(Outcome::new(state, None)),
        Err(Break::Stop { line, cause }) => {
            let file = at_hand;
            Ok(Outcome::new(state, Some(Stop { file, line, cause })))
        }
        Err(Break::Unread(fault)) => Err(unread(at_hand, fault)),
        Err(Break::NoMemory) => Err(PpRefusal::NoMemory),
    }
}

/// The refusal where a file is not read.
fn unread(file: FileId, fault: ReadFault) -> PpRefusal
    ensures told { fault ≢ ReadFault.NoMemory → read_fault_of result ≡ Some (file, fault) }
    ensures within { (files : ℕ) → file < files → IsRefusalWithin files result }
    ensures good { IfBadDefinition result (λ index why. ⊥) }
{
    match fault {
        ReadFault::TooLong => PpRefusal::FileTooLong { file },
        ReadFault::Read => PpRefusal::CannotRead { file },
        ReadFault::NoMemory => PpRefusal::NoMemory,
    }
}
