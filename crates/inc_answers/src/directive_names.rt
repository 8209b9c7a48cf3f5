//! How directives of files are written that were read.
ghost use Rattle.std.specs.Prelude.{◌≡◌, ◌<◌, ◌≤◌, ◌++◌, ◌∷◌, Some, [], length, map, option_map, IfOk, OnOk};
ghost use Rattle.std.specs.List.{slice_set};
ghost use Rattle.std.specs.List.Sorted.{IsNonDecreasingBy, IsPartitionPoint};
ghost use Rattle.inc_text.specs.declared.devices.TheConstants.{LONGEST_FILE};
ghost use Rattle.inc_directive.specs.DirectiveViews.{seen_directive};
ghost use Rattle.inc_directive.specs.FileDirectives as directives;
ghost use Rattle.inc_directive.specs.KindViews.{seen_kind, seen_target};
ghost use Rattle.inc_directive.specs.Parts.{inclusions_in};
ghost use Rattle.inc_answers.specs.DirectiveNames.{by_words, file_inclusions, kept_kind, kind_in, kind_words, kept_name, target_words, written};
ghost use Rattle.inc_answers.specs.JsonDirectives.{directive_text};
ghost use Rattle.inc_answers.specs.MissingNotes.{shown};
ghost use Rattle.inc_answers.specs.NameTables.{kept_target, known_at, seen_kept, seen_named, seen_parts};
ghost use Rattle.inc_answers.specs.declared.directive_names.NamedLine as declared;

use crate::json_directives::put_directive;
use crate::kept_sources::KeptFiles;
use crate::missing_notes::put_shown;
use inc_directive::laws::directives_ascend;
use inc_directive::{Directive, DirectiveKind, FileLines, LineKind, Target, read_lines};
use inc_lookup::DirectiveId;
use inc_text::{Language, TextFault, splice};
use inc_token::IncludeName;
use std::alloc::{AllocError, Global};
use std::marker::Model;

/// How many bytes of a directive are printed.
const LONGEST_NAME: usize = 200;

/// What an include directive is, without the name in it.
#[derive(Clone, Copy)]
enum KeptKind {
    /// By its own name, and with what it names.
    Include(IncludeName, KeptTarget),
    /// Any other directive.
    Other(DirectiveKind),
    /// No directive.
    Text,
}

/// What an include directive names, without the name.
#[derive(Clone, Copy)]
enum KeptTarget {
    Quoted,
    Angled,
    ByName,
    Computed,
    Nothing,
}

/// An include directive by its line.
#[derive(Drop)]
pub struct NamedLine {
    line: u32,
    kind: KeptKind,
    /// The name in it, if there is one.
    name: Vec<u8>,
}

impl NamedLine {
    /// What it is.
    pub fn kind(&self) -> LineKind<'_>
        ensures { seen_kind result ≡ seen_kept self.now }
    {
        match self.kind {
            KeptKind::Include(by, target) => LineKind::Include(by, self.target(target)),
            KeptKind::Other(kind) => LineKind::Other(kind),
            KeptKind::Text => LineKind::Text,
        }
    }

    /// What it names.
    fn target(&self, target: KeptTarget) -> Target<'_>
        ensures { seen_target result ≡ kept_target self.now.name.items target }
    {
        match target {
            KeptTarget::Quoted => Target::Quoted(&self.name),
            KeptTarget::Angled => Target::Angled(&self.name),
            KeptTarget::ByName => Target::ByName(&self.name),
            KeptTarget::Computed => Target::Computed,
            KeptTarget::Nothing => Target::Nothing,
        }
    }
}

/// The include directives of a file, from the top.
#[derive(Drop)]
struct FileNames {
    lines: Vec<NamedLine>,
}

impl Model for FileNames {
    ghost use Rattle.std.specs.Prelude.{List, map};
    ghost use Rattle.std.specs.List.{slice_set};
    ghost use Rattle.std.specs.List.Sorted.{IsNonDecreasingBy};
    ghost use Rattle.inc_directive.specs.FileDirectives.{Directive};
    ghost use Rattle.inc_answers.specs.NameTables.{seen_named};
    ghost use Rattle.inc_answers.specs.declared.directive_names.NamedLine as declared;

    ghost Value = { List Directive };

    ghost view = { λ f. map seen_named f.lines.items };

    ghost invariant = { λ f. IsNonDecreasingBy (λ (n : declared.NamedLine). n.line) f.lines.items };
}

impl FileNames {
    /// What the directive on a line is; `Text` where none is there.
    fn kind(&self, line: u32) -> LineKind<'_>
        ensures { seen_kind result ≡ kind_in self.now line }
    {
        let place = lines_before(&self.lines, line);
        match self.lines.get(place) {
            Some(named) => kind_if(named, line),
            None => LineKind::Text,
        }
    }
}

/// How many of these directives are on a line before this one, by binary search.
fn lines_before(lines: &[NamedLine], line: u32) -> usize
    requires { IsNonDecreasingBy (λ (n : declared.NamedLine). n.line) lines.now }
    ensures bound { result ≤ length lines.now }
    ensures point { IsPartitionPoint (λ (n : declared.NamedLine). n.line < line)
        (λ (n : declared.NamedLine). line ≤ n.line) lines.now result }
{
    lines.partition_point(|named| named.line < line)
}

/// What a directive is, if it is on this line.
fn kind_if(named: &NamedLine, line: u32) -> LineKind<'_>
    ensures { seen_kind result ≡ kind_in (seen_named named.now ∷ []) line }
{
    if named.line == line {
        return named.kind();
    }
    LineKind::Text
}

/// How the directives are written of files that were read: of each file once a directive of it is asked for.
#[derive(Drop)]
pub struct NameTable<'k> {
    kept: &'k KeptFiles,
    language: Language,
    /// By the place of the file.
    files: Vec<Option<FileNames>>,
}

impl<'k> Model for NameTable<'k> {
    ghost use Rattle.inc_answers.specs.NameTables.{AreNames, NameSource};

    ghost Value = { NameSource };

    ghost view = { λ t. record { kept = t.kept.now; language = t.language } };

    ghost invariant = { λ t. AreNames t.language t.kept.now t.files.items };
}

impl<'k> NameTable<'k> {
    /// The names of the directives of so many files.
    pub fn new(
        alloc: Global,
        kept: &'k KeptFiles,
        language: Language,
        count: usize,
    ) -> Result<NameTable<'k>, AllocError>
        ensures { IfOk result (λ table. table ≡ record { kept = kept.now; language = language }) }
    {
        let mut files = Vec::with_capacity(alloc, count)?;
        for _ in 0..count {
            files.push(None)?;
        }
        Ok(NameTable {
            kept,
            language,
            files,
        })
    }

    /// Adds a directive as it is written, and as it is shown on a line.
    pub fn put_name(
        &mut self,
        text: &mut Vec<u8>,
        alloc: Global,
        directive: DirectiveId,
    ) -> Result<(), AllocError>
        ensures text { OnOk result (text.new.items
            ≡ text.old.items ++ shown (kept_name self.old.language self.old.kept directive)) }
        ensures same { self.new ≡ self.old }
    {
        let Some(bytes) = self.kept.bytes(directive.file) else {
            return Ok(());
        };
        let place = directive.file.index();
        match known(&self.files, place) {
            Some(names) => put_written(text, alloc, names.kind(directive.line)),
            None => {
                let names = names_of(alloc, bytes, self.language)?;
                put_written(text, alloc, names.kind(directive.line))?;
                keep_names(&mut self.files, place, names);
                Ok(())
            }
        }
    }

    /// A directive, by itself.
    pub fn line(&mut self, alloc: Global, directive: DirectiveId) -> Result<NamedLine, AllocError>
        ensures line { IfOk result (λ n. seen_kept n ≡ kept_kind self.old.language self.old.kept directive) }
        ensures same { self.new ≡ self.old }
    {
        let line = directive.line;
        let Some(bytes) = self.kept.bytes(directive.file) else {
            let kind = LineKind::Text;
            return named(alloc, Directive { line, kind });
        };
        let place = directive.file.index();
        match known(&self.files, place) {
            Some(names) => {
                let kind = names.kind(line);
                named(alloc, Directive { line, kind })
            }
            None => {
                let names = names_of(alloc, bytes, self.language)?;
                let kind = names.kind(line);
                let found = named(alloc, Directive { line, kind })?;
                keep_names(&mut self.files, place, names);
                Ok(found)
            }
        }
    }

    /// Adds a directive as an object of JSON, in the file with this path, which leads to the file with that path if it leads to one.
    pub fn put_object(
        &mut self,
        text: &mut Vec<u8>,
        alloc: Global,
        directive: DirectiveId,
        path: &[u8],
        to: Option<&[u8]>,
    ) -> Result<(), AllocError>
        ensures text { OnOk result (text.new.items ≡ text.old.items
            ++ directive_text (kept_kind self.old.language self.old.kept directive) directive.line path.now (option_map (λ p. p.now) to.entry)) }
        ensures same { self.new ≡ self.old }
    {
        let line = directive.line;
        let Some(bytes) = self.kept.bytes(directive.file) else {
            return put_directive(text, LineKind::Text, line, path, to);
        };
        let place = directive.file.index();
        match known(&self.files, place) {
            Some(names) => put_directive(text, names.kind(line), line, path, to),
            None => {
                let names = names_of(alloc, bytes, self.language)?;
                put_directive(text, names.kind(line), line, path, to)?;
                keep_names(&mut self.files, place, names);
                Ok(())
            }
        }
    }
}

/// Adds a directive of this kind as it is written, and as it is shown on a line.
pub fn put_written(text: &mut Vec<u8>, alloc: Global, kind: LineKind<'_>) -> Result<(), AllocError>
    ensures { OnOk result (text.new.items ≡ text.old.items ++ shown (written (seen_kind kind.entry))) }
{
    let mut name = Vec::new(alloc);
    put_kind(&mut name, kind)?;
    name.truncate(LONGEST_NAME);
    put_shown(text, &name)
}

/// What is known of the directives of a file.
fn known(files: &[Option<FileNames>], place: usize) -> Option<&FileNames>
    ensures { option_map (λ n. n.now) result ≡ known_at files.now place }
{
    match files.get(place) {
        Some(Some(names)) => Some(names),
        _ => None,
    }
}

/// Keeps what is known of the directives of a file.
fn keep_names(files: &mut Vec<Option<FileNames>>, place: usize, names: FileNames)
    ensures { files.new.items ≡ slice_set files.old.items place (Some names) }
{
    if place < files.len() {
        files[place] = Some(names);
    }
}

/// How the include directives of a file with these bytes are written.
fn names_of(alloc: Global, bytes: &[u8], language: Language) -> Result<FileNames, AllocError>
    requires { length bytes.now ≤ LONGEST_FILE }
    ensures { IfOk result (λ names. names ≡ file_inclusions language bytes.now) }
{
    let text = match splice(alloc, bytes, language) {
        Ok(text) => text,
        // It is not too long.
        Err(TextFault::TooLong) => unreachable!(),
        Err(TextFault::NoMemory) => return Err(AllocError),
    };
    directives_ascend();
    match read_lines(alloc, text, language) {
        Ok(found) => names_in(alloc, &found),
        Err(fault) => match fault.line() {
            Some(_) => Ok(FileNames {
                lines: Vec::new(alloc),
            }),
            None => Err(AllocError),
        },
    }
}

/// How the include directives among the lines of a file are written.
fn names_in(alloc: Global, found: &FileLines) -> Result<FileNames, AllocError>
    requires { IsNonDecreasingBy (λ (d : directives.Directive). d.line) (inclusions_in found.now) }
    ensures { IfOk result (λ names. names ≡ inclusions_in found.now) }
{
    let mut lines = Vec::new(alloc);
    let mut left = found.inclusions();
    while let Some(directive) = left.next() {
        lines.push(named(alloc, directive)?)?;
    }
    Ok(FileNames { lines })
}

/// A directive by its line.
fn named(alloc: Global, directive: Directive<'_>) -> Result<NamedLine, AllocError>
    ensures { IfOk result (λ n. seen_named n ≡ seen_directive directive.entry) }
{
    let (kind, name) = parts_of(directive.kind);
    let name = Vec::from_slice(alloc, name)?;
    Ok(NamedLine {
        line: directive.line,
        kind,
        name,
    })
}

/// A kind of line and the name in it.
fn parts_of(kind: LineKind<'_>) -> (KeptKind, &[u8])
    ensures { seen_parts result.0 result.1.now ≡ seen_kind kind.entry }
{
    match kind {
        LineKind::Include(by, target) => {
            let (target, name) = target_parts(target);
            (KeptKind::Include(by, target), name)
        }
        LineKind::Other(kind) => (KeptKind::Other(kind), &[]),
        LineKind::Text => (KeptKind::Text, &[]),
    }
}

/// What an include directive names, and the name.
fn target_parts(target: Target<'_>) -> (KeptTarget, &[u8])
    ensures { kept_target result.1.now result.0 ≡ seen_target target.entry }
{
    match target {
        Target::Quoted(name) => (KeptTarget::Quoted, name),
        Target::Angled(name) => (KeptTarget::Angled, name),
        Target::ByName(name) => (KeptTarget::ByName, name),
        Target::Computed => (KeptTarget::Computed, &[]),
        Target::Nothing => (KeptTarget::Nothing, &[]),
    }
}

/// Adds a directive of any kind.
fn put_kind(text: &mut Vec<u8>, kind: LineKind<'_>) -> Result<(), AllocError>
    ensures { OnOk result (text.new.items ≡ text.old.items ++ kind_words (seen_kind kind.entry)) }
{
    match kind {
        LineKind::Include(by, target) => {
            text.extend_from_slice(by_words(by))?;
            put_target(text, target)
        }
        LineKind::Other(DirectiveKind::Foreign) => {
            text.extend_from_slice(b"#include_next, #import or #embed")?;
            Ok(())
        }
        _ => Ok(()),
    }
}

/// The name of a directive that includes.
fn by_words(by: IncludeName) -> &'static [u8]
    ensures { result.now ≡ by_words by }
{
    match by {
        IncludeName::Include => b"#include",
        IncludeName::IncludeNext => b"#include_next",
        IncludeName::Import => b"#import",
    }
}

/// Adds what a directive names.
fn put_target(text: &mut Vec<u8>, target: Target<'_>) -> Result<(), AllocError>
    ensures { OnOk result (text.new.items ≡ text.old.items ++ target_words (seen_target target.entry)) }
{
    match target {
        Target::Quoted(name) => put_between(text, b" \"", name, b"\""),
        Target::Angled(name) => put_between(text, b" <", name, b">"),
        Target::ByName(name) => put_between(text, b" ", name, b""),
        Target::Computed => put_between(text, b" ..", b"", b""),
        Target::Nothing => Ok(()),
    }
}

/// Adds a name between two texts.
pub fn put_between(
    text: &mut Vec<u8>,
    before: &[u8],
    name: &[u8],
    after: &[u8],
) -> Result<(), AllocError>
    ensures { OnOk result (text.new.items ≡ text.old.items ++ (before.now ++ name.now) ++ after.now) }
{
    text.extend_from_slice(before)?;
    text.extend_from_slice(name)?;
    text.extend_from_slice(after)?;
    Ok(())
}
