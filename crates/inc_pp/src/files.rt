//! The files of a project that were read.
ghost use Rattle.std.specs.Prelude.{◌≡◌, ◌≢◌, ◌<◌, ◌≤◌, length, option_map, None, Some, Ok, Err, IfOk, IfErr};
ghost use Rattle.inc_text.specs.PhaseText.{phase_text};
ghost use Rattle.inc_text.specs.declared.devices.ReadFault.{ReadFault};
ghost use Rattle.inc_text.specs.declared.devices.TheConstants.{LONGEST_FILE};
ghost use Rattle.inc_directive.specs.Groups.{Group, group_tree};
ghost use Rattle.inc_directive.specs.Parts.{lines_of_parts};
ghost use Rattle.inc_lookup.specs.DirectiveLists.{is_listed};
ghost use Rattle.inc_pp.specs.Files.{text_tree};
ghost use Rattle.inc_pp.specs.Stops.{AreOf, IfBadFile, IfStop, IfUnread};
ghost use Rattle.inc_pp.specs.Walks.{fault_at, held_at, if_fault, if_parts, known_at, size_at};
ghost use Rattle.inc_pp.specs.Shared.{AreUnread, IsKnownBy, IsLoadedBy};

use crate::causes::Cause;
use crate::faults::Break;
use crate::held_files::HeldFile;
use inc_lookup::{DirectiveSet, FileId, Project, Sources};
use inc_text::{Language, ReadFault, Text, TextFault, splice_owned};
use std::alloc::{AllocError, Global};
use std::marker::Model;

/// What a file turned out to be that was read.
#[derive(Drop)]
pub(crate) struct ReadFile {
    /// How many bytes it has.
    size: usize,
    /// Its lines, or its fault.
    lines: Result<HeldFile, (Cause, u32)>,
}

/// The same in memory of its own, since most files of a list are never read, and take little room then.
#[derive(Drop)]
struct KnownFile {
    file: Box<ReadFile>,
}

impl Model for KnownFile {
    ghost use Rattle.inc_pp.specs.Walks.{Known};

    ghost Value = { Known };

    ghost view = { λ k. record { size = k.file.value.size; lines = k.file.value.lines } };
}

impl KnownFile {
    /// What a file turned out to be, in memory of its own.
    fn new(alloc: Global, file: ReadFile) -> Result<KnownFile, AllocError>
        ensures { IfOk result (λ known. known ≡ record { size = file.size; lines = file.lines }) }
    {
        let file = Box::new(alloc, file)?;
        Ok(KnownFile { file })
    }

    /// How many bytes it has.
    fn size(&self) -> usize
        ensures { result ≡ self.now.size }
    {
        self.file.size
    }

    /// Its lines.
    fn held(&self) -> Option<&HeldFile>
        ensures { option_map (λ h. h.now) result ≡ if_parts self.now.lines }
    {
        match &self.file.lines {
            Ok(held) => Some(held),
            Err(_) => None,
        }
    }

    /// Its fault.
    fn fault(&self) -> Option<(Cause, u32)>
        ensures { result ≡ if_fault self.now.lines }
    {
        match &self.file.lines {
            Ok(_) => None,
            Err(fault) => Some(*fault),
        }
    }
}

/// The files of a project that were read, for all preprocessings that share them: the lines of each, or its fault. A file of the list that
/// is not read takes 8 bytes. The files are lent to one preprocessing after the other ([`preprocess_with`](crate::preprocess_with)).
#[derive(Drop)]
pub struct Files {
    /// By their place in the project's list.
    held: Vec<Option<KnownFile>>,
}

impl Model for Files {
    ghost use Rattle.inc_pp.specs.Walks.{Held};

    ghost Value = { Held };

    ghost view = { λ f. f.held.items };
}

impl Files {
    /// None of a project's files is read yet.
    pub fn new(alloc: Global, project: &Project<'_>) -> Result<Files, AllocError>
        ensures { IfOk result (λ files. AreUnread project.now files) }
    {
        let count = project.count();
        let mut held = Vec::with_capacity(alloc, count)?;
        for _ in 0..count {
            held.push(None)?;
        }
        Ok(Files { held })
    }

    /// A file, if it was read and has no fault.
    pub(crate) fn get(&self, file: FileId) -> Option<&HeldFile>
        ensures { option_map (λ h. h.now) result ≡ held_at self.now file }
    {
        match self.held.get(file.index())? {
            Some(known) => known.held(),
            None => None,
        }
    }

    /// The fault of a file and its physical line, if it was read and has one.
    pub(crate) fn fault(&self, file: FileId) -> Option<(Cause, u32)>
        ensures { result ≡ fault_at self.now file }
    {
        match self.held.get(file.index())? {
            Some(known) => known.fault(),
            None => None,
        }
    }

    /// How many bytes a file has, if it was read.
    fn size(&self, file: FileId) -> Option<usize>
        ensures { result ≡ size_at self.now file }
    {
        match self.held.get(file.index())? {
            Some(known) => Some(known.size()),
            None => None,
        }
    }

    /// How many bytes a file has. It is read, if it was not.
    pub(crate) fn known_size<S: Sources>(
        &mut self,
        alloc: Global,
        sources: &mut S,
        removed: &DirectiveSet<'_>,
        language: Language,
        file: FileId,
    ) -> Result<usize, Break>
        requires within { file < length self.old }
        ensures known { IfOk result (λ size. IsKnownBy S.gives language removed.now file sources.old self.old sources.new self.new size) }
        ensures never { IfErr result (λ fault. IfBadFile fault (λ line cause. ⊥)) }
        ensures unread { IfErr result (λ fault. IfUnread fault (λ why.
            (known_at self.old file ≡ None) × (self.new ≡ self.old)
            × S.gives sources.old file (Err why) sources.new × (why ≢ ReadFault.NoMemory))) }
    {
        if let Some(size) = self.size(file) {
            return Ok(size);
        }
        match self.load(alloc, sources, removed, language, file) {
            Ok(size) => Ok(size),
            Err(fault) => Err(fault),
        }
    }

    /// Reads a file, and holds it or its fault. Its bytes become the text that is held.
    fn load<S: Sources>(
        &mut self,
        alloc: Global,
        sources: &mut S,
        removed: &DirectiveSet<'_>,
        language: Language,
        file: FileId,
    ) -> Result<usize, Break>
        requires within { file < length self.old }
        ensures loaded { IfOk result (λ size. IsLoadedBy S.gives language removed.now file sources.old self.old sources.new self.new size) }
        ensures never { IfErr result (λ fault. IfBadFile fault (λ line cause. ⊥)) }
        ensures unread { IfErr result (λ fault. IfUnread fault (λ why. (self.new ≡ self.old)
            × S.gives sources.old file (Err why) sources.new × (why ≢ ReadFault.NoMemory))) }
    {
        let bytes = read_source(alloc, sources, file)?;
        let size = bytes.len();
        let lines = lines_in(alloc, bytes, removed, language, file)?;
        let known = KnownFile::new(alloc, ReadFile { size, lines })?;
        self.held[file.index()] = Some(known);
        Ok(size)
    }
}

/// The bytes of a file.
fn read_source<S: Sources>(alloc: Global, sources: &mut S, file: FileId) -> Result<Vec<u8>, Break>
    ensures gives { IfOk result (λ bytes. S.gives sources.old file (Ok bytes.items) sources.new) }
    ensures short { IfOk result (λ bytes. length bytes.items ≤ LONGEST_FILE) }
    ensures good { IfErr result (λ fault. IfBadFile fault (λ line cause. ⊥)) }
    ensures unread { IfErr result (λ fault. IfUnread fault (λ why.
        S.gives sources.old file (Err why) sources.new × (why ≢ ReadFault.NoMemory))) }
{
    match sources.read(alloc, file) {
        Ok(bytes) => Ok(bytes),
        Err(ReadFault::NoMemory) => Err(Break::NoMemory),
        Err(fault) => Err(Break::Unread(fault)),
    }
}

/// What a file with these bytes turns out to be: its lines, or its fault.
fn lines_in(
    alloc: Global,
    bytes: Vec<u8>,
    removed: &DirectiveSet<'_>,
    language: Language,
    file: FileId,
) -> Result<Result<HeldFile, (Cause, u32)>, AllocError>
    requires short { length bytes.items ≤ LONGEST_FILE }
    ensures kinds { IfOk result (λ lines. IfOk lines (λ held. AreOf language (lines_of_parts held))) }
    ensures tree { IfOk result (λ lines. IfOk lines (λ held. (tree : Group) × (group_tree (lines_of_parts held) ≡ Ok tree)
        × (text_tree language (is_listed removed.now file) (phase_text language bytes.items) ≡ Ok tree))) }
    ensures fault { IfOk result (λ lines. IfErr lines (λ fault.
        text_tree language (is_listed removed.now file) (phase_text language bytes.items) ≡ Err fault)) }
{
    match held_file(alloc, bytes, removed, language, file) {
        Ok(held) => Ok(Ok(held)),
        Err(Break::Stop { line, cause }) => Ok(Err((cause, line))),
        Err(_) => Err(AllocError),
    }
}

/// The lines of a file with these bytes and where its sections lead, or its fault. It is asked once which of its directives are removed.
fn held_file(
    alloc: Global,
    bytes: Vec<u8>,
    removed: &DirectiveSet<'_>,
    language: Language,
    file: FileId,
) -> Result<HeldFile, Break>
    requires short { length bytes.items ≤ LONGEST_FILE }
    ensures held { IfOk result (λ held. (tree : Group)
        × (text_tree language (is_listed removed.now file) (phase_text language bytes.items) ≡ Ok tree)
        × (group_tree (lines_of_parts held) ≡ Ok tree)) }
    ensures kinds { IfOk result (λ held. AreOf language (lines_of_parts held)) }
    ensures fault { IfErr result (λ fault. IfStop fault (λ line cause.
        text_tree language (is_listed removed.now file) (phase_text language bytes.items) ≡ Err (cause, line))) }
{
    let text = match splice_owned(alloc, bytes, language) {
        Ok(text) => text,
        // The bytes are not too many.
        Err(TextFault::TooLong) => unreachable!(),
        Err(TextFault::NoMemory) => return Err(Break::NoMemory),
    };
    let lines = removed.lines_in(alloc, file)?;
    HeldFile::new(alloc, text, language, &lines)
}
