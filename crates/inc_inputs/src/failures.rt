//! Why the program gives no answer, and what it reports of that.
ghost use Rattle.std.specs.Prelude.{◌≡◌, ◌≢◌, ◌<◌, ◌++◌, ◌==◌, [], IfOk, OnOk, map, slice_index_or, codes, decimal};
ghost use Rattle.std.specs.List.{list_any};
ghost use Rattle.inc_text.specs.Ascii.{line_feed, nul};
ghost use Rattle.inc_inputs.specs.Reports.{about_option, bad_glob, bad_path_reason, baseline_report, fits_none, hex_digit, hindrance_name, hindrance_number, hindrance_of, malformed_baseline, malformed_rules, no_directive, no_line, no_name, out_of_memory, report_of, read_report, list_report, compiler_report, definitions_report, project_report, several_headers, shown, shown_byte};

use inc_check::CertFault;
use inc_lookup::{LONGEST_PATH, ProjectFault, normalise};
use inc_rules::{FaultKind, fault_words};
use inc_text::ReadFault;
use itoa::Buffer;
use std::alloc::{AllocError, AllocFailed, Global};

/// What stood in the way of what could not be read or written.
#[derive(Clone, Copy, Debug, PartialEq, Eq)]
pub enum Hindrance {
    /// Nothing that is known.
    Other,
    /// A link on the way to a file of the list, or the file is one.
    Link,
    /// A file of the list is a device, a pipe or a folder.
    NoRegularFile,
    /// No file is there.
    Missing,
    /// It is a folder.
    Folder,
    /// It is none, or what its path takes for one is none.
    NoFolder,
    /// The system does not permit it.
    Denied,
    /// No space is left.
    Full,
    /// Another fault, by the number that the system gives it.
    Fault(u32),
}

impl Hindrance {
    /// What is reported of it after a path, but for its number.
    pub fn name(self) -> &'static [u8]
        ensures { result.now ≡ hindrance_name self }
    {
        match self {
            Hindrance::Other => b"",
            Hindrance::Link => b": is a link",
            Hindrance::NoRegularFile => b": is not a regular file",
            Hindrance::Missing => b": no such file",
            Hindrance::Folder => b": is a folder",
            Hindrance::NoFolder => b": is not a folder",
            Hindrance::Denied => b": permission denied",
            Hindrance::Full => b": no space left",
            Hindrance::Fault(_) => b": error ",
        }
    }

    /// The number of a fault of the system in decimal, of others nothing.
    pub fn number(self, digits: &mut Buffer) -> &[u8]
        ensures { result.now ≡ hindrance_number self }
    {
        match self {
            Hindrance::Fault(number) => digits.format(number).as_bytes(),
            _ => b"",
        }
    }
}

/// Why the program ends without an answer. Paths are as they were written, those of lists as they are shown.
#[derive(Drop)]
pub enum Failure {
    /// An argument is not UTF-8.
    NotUtf8,
    /// A file, or standard input under the name `-`, cannot be read.
    CannotRead(Vec<u8>),
    /// Standard output cannot be written.
    CannotWrite,
    /// A file cannot be written.
    CannotWriteFile(Vec<u8>),
    /// A file has more than 16,777,216 bytes.
    FileTooLong(Vec<u8>),
    /// The list has more than 65,535 files.
    TooManyFiles,
    /// A path of the list or a search directory is over 4,096 bytes, holds NUL, climbs above the start, or names no file.
    BadPath(Vec<u8>),
    /// A path of the list names a file that an earlier path of the list names.
    SamePath(Vec<u8>),
    /// The list makes no project, and looks like JSON: what is reported of it, and a line on that.
    NoList(Vec<u8>),
    /// A list of directives or of costs is malformed, at this line and of this path: `N of PATH`.
    MalformedList(Vec<u8>),
    /// The same of what describes a compiler.
    MalformedCompiler(Vec<u8>),
    /// Two arguments ask for standard input.
    InputTwice,
    /// A file is to be written under the name `-`.
    NoFile,
    /// Two texts are to be written to one file.
    OneFile,
    /// A cut is asked for as files and as a diff.
    TwoForms,
    /// A cut is asked for as files or as a diff, and in a format.
    FormatOfFiles,
    /// A format has a name that none has.
    NoFormat,
    /// The same of `scan`.
    NoScanFormat,
    /// How many chains are printed at most is no number.
    NoMost,
    /// How many headers and directives are printed at most is no number.
    NoTop,
    /// One source is named, and others, groups of headers or how much is printed.
    OfAlone,
    /// Stacks are asked for, and groups of headers or how much is printed.
    FoldedAlone,
    /// How many bytes are read at most is no number.
    NoMostRead,
    /// How many bytes are printed at most is no number.
    NoMostOutput,
    /// The files are said to be in two languages.
    TwoLanguages,
    /// The files are listed, and are to be found below folders.
    TwoLists,
    /// A word names the list of the files, and others files that are left out.
    ListAndGlobs,
    /// A compilation database is named, and a compiler's command stands after `--`.
    TwoBuilds,
    /// A compiler's command names no source.
    NoCommandSource,
    /// A baseline is to be read, and one to be written.
    TwoBaselines,
    /// The words name no source and header, or name them in two ways.
    NoEnds,
    /// The words name no header, or name headers in two ways.
    NoHeaders,
    /// A glob has a `[` without `]`: the option, the glob, and that.
    BadGlob(Vec<u8>),
    /// A place has no number of a line, or one that no line has: the option, the place, and that.
    NoLine(Vec<u8>),
    /// A name cannot be left undefined by a build: the option, the name, and why.
    NotUndefined(Vec<u8>),
    /// A glob fits no file of the list: the option, the glob, and that.
    FitsNone(Vec<u8>),
    /// The files of a place have no directive of its name: the option, the place, and that.
    NoDirective(Vec<u8>),
    /// Several paths end in a word for a header: the word, and two of them.
    SeveralHeaders(Vec<u8>),
    /// A compilation database is none, or does not answer a question: its path, and why.
    Build(Vec<u8>),
    /// Each source is a header, too.
    NoSourceLeft,
    /// The words give no rules, or give them in two ways.
    NoRules,
    /// A line of a list of rules, or of a baseline, has none, or a rule has a glob that fits no file: the name of the list, the line, and why.
    /// Or no line of a baseline can name a file: that, and its path.
    MalformedRules(Vec<u8>),
    /// No rule is about a file of the project.
    NoSubject,
    /// Memory ran out.
    NoMemory,
}

impl From<AllocError> for Failure {
    ghost use Rattle.inc_inputs.specs.declared.failures.Failure.TheVariants.{NoMemory};

    ghost from_gives = { λ _ e. e ≡ NoMemory };

    fn from(_error: AllocError) -> Failure {
        Failure::NoMemory
    }
}

impl<T: Drop> From<AllocFailed<T>> for Failure {
    ghost use Rattle.inc_inputs.specs.declared.failures.Failure.TheVariants.{NoMemory};

    ghost from_gives = { λ _ e. e ≡ NoMemory };

    fn from(_failed: AllocFailed<T>) -> Failure {
        Failure::NoMemory
    }
}

/// The failure to report where the file at this path was not read whole.
pub fn read_failure(alloc: Global, fault: ReadFault, path: &[u8]) -> Result<Failure, AllocError>
    ensures { IfOk result (λ failure. report_of failure ≡ read_report fault path.now) }
{
    Ok(match fault {
        ReadFault::TooLong => Failure::FileTooLong(Vec::from_slice(alloc, path)?),
        ReadFault::Read => Failure::CannotRead(Vec::from_slice(alloc, path)?),
        ReadFault::NoMemory => Failure::NoMemory,
    })
}

/// The same, or that memory ran out.
pub fn unread(alloc: Global, fault: ReadFault, path: &[u8]) -> Failure
    ensures { report_of result ≢ out_of_memory → report_of result ≡ read_report fault path.now }
{
    match read_failure(alloc, fault, path) {
        Ok(failure) => failure,
        Err(_) => Failure::NoMemory,
    }
}

/// The failure to report where the list of directives or costs at this path does not read as one.
pub fn list_failure(alloc: Global, fault: CertFault, path: &[u8]) -> Result<Failure, AllocError>
    ensures { IfOk result (λ failure. report_of failure ≡ list_report fault path.now) }
{
    Ok(match fault {
        CertFault::Malformed { line } => Failure::MalformedList(line_of(alloc, line, path)?),
        CertFault::NoMemory => Failure::NoMemory,
    })
}

/// The same of a list of definitions, which may describe a compiler.
pub(crate) fn definitions_failure(
    alloc: Global,
    is_compiler: bool,
    fault: CertFault,
    path: &[u8],
) -> Result<Failure, AllocError>
    ensures { IfOk result (λ failure. report_of failure ≡ definitions_report is_compiler fault path.now) }
{
    if is_compiler {
        compiler_failure(alloc, fault, path)
    } else {
        list_failure(alloc, fault, path)
    }
}

/// The same of what describes a compiler.
fn compiler_failure(alloc: Global, fault: CertFault, path: &[u8]) -> Result<Failure, AllocError>
    ensures { IfOk result (λ failure. report_of failure ≡ compiler_report fault path.now) }
{
    Ok(match fault {
        CertFault::Malformed { line } => Failure::MalformedCompiler(line_of(alloc, line, path)?),
        CertFault::NoMemory => Failure::NoMemory,
    })
}

/// A line and the path of its list.
fn line_of(alloc: Global, line: usize, path: &[u8]) -> Result<Vec<u8>, AllocError>
    ensures { IfOk result (λ text. text.items ≡ decimal line ++ codes " of " ++ path.now) }
{
    let mut buffer = Buffer::new();
    let mut text = Vec::new(alloc);
    text.extend_from_slice(buffer.format(line).as_bytes())?;
    text.extend_from_slice(b" of ")?;
    text.extend_from_slice(path)?;
    Ok(text)
}

/// The failure to report of a line of a list of rules with this name.
pub(crate) fn rules_failure(
    alloc: Global,
    name: &[u8],
    line: usize,
    kind: FaultKind,
    words: &[&[u8]],
) -> Failure
    ensures { report_of result ≢ out_of_memory → report_of result
        ≡ malformed_rules name.now line (record { kind = kind; words = map (λ w. w.now) words.now }) }
{
    match rules_text(alloc, name, line, kind, words) {
        Ok(text) => Failure::MalformedRules(text),
        Err(_) => Failure::NoMemory,
    }
}

/// A line of a list, and what is wrong with it.
fn rules_text(
    alloc: Global,
    name: &[u8],
    line: usize,
    kind: FaultKind,
    words: &[&[u8]],
) -> Result<Vec<u8>, AllocError>
    ensures { IfOk result (λ text. text.items
        ≡ (malformed_rules name.now line (record { kind = kind; words = map (λ w. w.now) words.now })).message) }
{
    let mut buffer = Buffer::new();
    let mut text = Vec::new(alloc);
    put_shown(&mut text, name)?;
    text.extend_from_slice(b":")?;
    text.extend_from_slice(buffer.format(line).as_bytes())?;
    text.extend_from_slice(b": ")?;
    put_shown(&mut text, &fault_words(alloc, kind, words)?)?;
    Ok(text)
}

/// The failure to report of a baseline of this name.
pub(crate) fn baseline_failure(
    alloc: Global,
    fault: CertFault,
    name: &[u8],
) -> Result<Failure, AllocError>
    ensures { IfOk result (λ failure. report_of failure ≡ baseline_report fault name.now) }
{
    Ok(match fault {
        CertFault::Malformed { line } => {
            Failure::MalformedRules(baseline_text(alloc, name, line)?)
        }
        CertFault::NoMemory => Failure::NoMemory,
    })
}

/// That a line of a baseline is malformed.
fn baseline_text(alloc: Global, name: &[u8], line: usize) -> Result<Vec<u8>, AllocError>
    ensures { IfOk result (λ text. text.items ≡ (malformed_baseline name.now line).message) }
{
    let mut buffer = Buffer::new();
    let mut text = Vec::new(alloc);
    put_shown(&mut text, name)?;
    text.extend_from_slice(b":")?;
    text.extend_from_slice(buffer.format(line).as_bytes())?;
    text.extend_from_slice(b": not PATH:NAME")?;
    Ok(text)
}

/// The failure to report of a glob that does not end.
pub(crate) fn glob_failure(alloc: Global, option: &str, word: &[u8]) -> Failure
    ensures { report_of result ≢ out_of_memory → report_of result ≡ bad_glob option.now word.now }
{
    match option_text(alloc, option, word, "' has a [ without ]") {
        Ok(text) => Failure::BadGlob(text),
        Err(_) => Failure::NoMemory,
    }
}

/// The failure to report of a glob that fits no file.
pub(crate) fn unfit(alloc: Global, option: &str, word: &[u8]) -> Failure
    ensures { report_of result ≢ out_of_memory → report_of result ≡ fits_none option.now word.now }
{
    match option_text(alloc, option, word, "' fits no file") {
        Ok(text) => Failure::FitsNone(text),
        Err(_) => Failure::NoMemory,
    }
}

/// The failure to report of a place that names no line.
pub(crate) fn unlined(alloc: Global, option: &str, word: &[u8]) -> Failure
    ensures { report_of result ≢ out_of_memory → report_of result ≡ no_line option.now word.now }
{
    match option_text(alloc, option, word, "' names no line") {
        Ok(text) => Failure::NoLine(text),
        Err(_) => Failure::NoMemory,
    }
}

/// The failure to report of a place whose files have no directive of its name.
pub(crate) fn undirected(alloc: Global, option: &str, word: &[u8]) -> Failure
    ensures { report_of result ≢ out_of_memory → report_of result ≡ no_directive option.now word.now }
{
    match option_text(alloc, option, word, "' names no include directive") {
        Ok(text) => Failure::NoDirective(text),
        Err(_) => Failure::NoMemory,
    }
}

/// The failure to report of a name that cannot be left undefined.
pub(crate) fn not_undefined(alloc: Global, name: &str, said: &str) -> Failure
    ensures { report_of result ≢ out_of_memory →
        report_of result ≡ about_option (codes "--undefined") name.now said.now 2 }
{
    match option_text(alloc, "--undefined", name.as_bytes(), said) {
        Ok(text) => Failure::NotUndefined(text),
        Err(_) => Failure::NoMemory,
    }
}

/// The failure to report of a path that no line of a baseline can name.
pub(crate) fn unnameable(alloc: Global, path: &[u8]) -> Failure
    ensures { report_of result ≢ out_of_memory → report_of result ≡ no_name path.now }
{
    match unnameable_text(alloc, path) {
        Ok(text) => Failure::MalformedRules(text),
        Err(_) => Failure::NoMemory,
    }
}

/// That no line of a baseline can name this path.
fn unnameable_text(alloc: Global, path: &[u8]) -> Result<Vec<u8>, AllocError>
    ensures { IfOk result (λ text. text.items ≡ codes "no line of a baseline can name " ++ shown path.now) }
{
    let mut text = Vec::new(alloc);
    text.extend_from_slice(b"no line of a baseline can name ")?;
    put_shown(&mut text, path)?;
    Ok(text)
}

/// The failure to report of a word for a header in which several paths end, of two of these.
pub(crate) fn several_headers(alloc: Global, word: &[u8], first: &[u8], second: &[u8]) -> Failure
    ensures { report_of result ≢ out_of_memory →
        report_of result ≡ several_headers word.now first.now second.now }
{
    match word_text(alloc, word, first, second) {
        Ok(text) => Failure::SeveralHeaders(text),
        Err(_) => Failure::NoMemory,
    }
}

/// A word and two paths, as they are shown.
fn word_text(alloc: Global, word: &[u8], first: &[u8], second: &[u8]) -> Result<Vec<u8>, AllocError>
    ensures { IfOk result (λ text. text.items ≡ word.now ++ codes ": " ++ shown first.now ++ codes ", " ++ shown second.now) }
{
    let mut text = Vec::new(alloc);
    text.extend_from_slice(word)?;
    text.extend_from_slice(b": ")?;
    put_shown(&mut text, first)?;
    text.extend_from_slice(b", ")?;
    put_shown(&mut text, second)?;
    Ok(text)
}

/// An option with a word, and what is said of it.
fn option_text(alloc: Global, option: &str, word: &[u8], said: &str) -> Result<Vec<u8>, AllocError>
    ensures { IfOk result (λ text. text.items ≡ option.now ++ codes " '" ++ word.now ++ said.now) }
{
    let mut text = Vec::new(alloc);
    text.extend_from_slice(option.as_bytes())?;
    text.extend_from_slice(b" '")?;
    text.extend_from_slice(word)?;
    text.extend_from_slice(said.as_bytes())?;
    Ok(text)
}

/// The failure to report where these paths and directories make no project.
pub fn project_failure(
    alloc: Global,
    fault: ProjectFault,
    paths: &[&[u8]],
    dirs: &[&[u8]],
) -> Result<Failure, AllocError>
    ensures { IfOk result (λ failure. report_of failure ≡
        project_report fault (map (λ p. p.now) paths.now ++ map (λ d. d.now) dirs.now)) }
{
    Ok(match fault {
        ProjectFault::TooManyFiles => Failure::TooManyFiles,
        ProjectFault::BadPath { index } => {
            Failure::BadPath(bad_path(alloc, given(index, paths, dirs))?)
        }
        ProjectFault::SamePath { second, .. } => {
            Failure::SamePath(written(alloc, second, paths, dirs)?)
        }
        ProjectFault::NoMemory => Failure::NoMemory,
    })
}

/// A path that makes no project, and why.
fn bad_path(alloc: Global, path: &[u8]) -> Result<Vec<u8>, AllocError>
    ensures { IfOk result (λ text. text.items ≡ shown path.now ++ bad_path_reason path.now) }
{
    let reason = bad_path_reason(alloc, path)?;
    let mut text = shown(alloc, path)?;
    text.extend_from_slice(reason)?;
    Ok(text)
}

/// Why a path makes no project.
fn bad_path_reason(alloc: Global, path: &[u8]) -> Result<&'static [u8], AllocError>
    ensures { IfOk result (λ reason. reason.now ≡ bad_path_reason path.now) }
{
    if holds_nul(path) {
        return Ok(b": holds NUL (try -0)");
    }
    if holds_line_feed(path) {
        return Ok(b": holds a line feed");
    }
    if path.len() > LONGEST_PATH {
        return Ok(b": longer than 4096 bytes");
    }
    match normalise(alloc, path)? {
        None => Ok(b": climbs above the folder of the run"),
        Some(_) => Ok(b": names a folder"),
    }
}

fn holds_nul(path: &[u8]) -> bool
    ensures { result ≡ list_any (λ b. b == nul) path.now }
{
    path.iter().any(|b| *b == 0)
}

fn holds_line_feed(path: &[u8]) -> bool
    ensures { result ≡ list_any (λ b. b == line_feed) path.now }
{
    path.iter().any(|b| *b == b'\n')
}

/// The path at a place, as it was written, but on one line: those of the files come first, and then the directories.
pub fn written(
    alloc: Global,
    index: usize,
    paths: &[&[u8]],
    dirs: &[&[u8]],
) -> Result<Vec<u8>, AllocError>
    ensures { IfOk result (λ path. path.items ≡
        shown (slice_index_or (map (λ p. p.now) paths.now ++ map (λ d. d.now) dirs.now) index [])) }
{
    shown(alloc, given(index, paths, dirs))
}

/// The path at a place.
fn given<'p>(index: usize, paths: &[&'p [u8]], dirs: &[&'p [u8]]) -> &'p [u8]
    ensures { result.now ≡ slice_index_or (map (λ p. p.now) paths.now ++ map (λ d. d.now) dirs.now) index [] }
{
    if index < paths.len() {
        return paths[index];
    }
    match dirs.get(index - paths.len()) {
        Some(dir) => dir,
        None => &[],
    }
}

/// A path as it is shown: a control byte as `\xNN`, so that it stays on its line, whoever chose it.
fn shown(alloc: Global, path: &[u8]) -> Result<Vec<u8>, AllocError>
    ensures { IfOk result (λ text. text.items ≡ shown path.now) }
{
    let mut text = Vec::new(alloc);
    put_shown(&mut text, path)?;
    Ok(text)
}

/// Adds a path as it is shown.
pub(crate) fn put_shown(text: &mut Vec<u8>, path: &[u8]) -> Result<(), AllocError>
    ensures { OnOk result (text.new.items ≡ text.old.items ++ shown path.now) }
{
    for byte in path {
        put_shown_byte(text, *byte)?;
    }
    Ok(())
}

/// Adds a byte of a path as it is shown.
fn put_shown_byte(text: &mut Vec<u8>, byte: u8) -> Result<(), AllocError>
    ensures { OnOk result (text.new.items ≡ text.old.items ++ shown_byte byte) }
{
    if 31 < byte && byte != 127 {
        text.push(byte)?;
        return Ok(());
    }
    text.extend_from_slice(b"\\x")?;
    text.push(hex_digit(byte / 16))?;
    text.push(hex_digit(byte % 16))?;
    Ok(())
}

/// A digit in base 16.
fn hex_digit(n: u8) -> u8
    requires { n < 16 }
    ensures { result ≡ hex_digit n }
{
    if n < 10 { 48 + n } else { 87 + n }
}

impl Failure {
    /// What is reported: a text, and the path that follows it.
    pub fn message(&self) -> (&'static [u8], &[u8])
        ensures { result.0.now ++ result.1.now ≡ (report_of self.now).message }
    {
        match self {
            Failure::NotUtf8 => (b"an argument is not UTF-8", b""),
            Failure::CannotRead(path) => (b"cannot read ", path),
            Failure::CannotWrite => (b"cannot write", b""),
            Failure::CannotWriteFile(name) => (b"cannot write ", name),
            Failure::FileTooLong(path) => (b"file too long: ", path),
            Failure::TooManyFiles => (b"too many files: the most is 65535", b""),
            Failure::BadPath(path) => (b"bad path: ", path),
            Failure::SamePath(path) => (b"same path twice: ", path),
            Failure::MalformedList(at) => (b"malformed list: line ", at),
            Failure::MalformedCompiler(at) => (b"malformed compiler: line ", at),
            Failure::InputTwice => (b"standard input can be read only once", b""),
            Failure::NoFile => (b"'-' is no file to write", b""),
            Failure::OneFile => (b"--deps and --status name one file", b""),
            Failure::TwoForms => (b"--blank and --patch exclude each other", b""),
            Failure::FormatOfFiles => (b"--format excludes --blank and --patch", b""),
            Failure::NoFormat => (b"--format is text, gcc, json or dot", b""),
            Failure::NoMost => (b"--max is a number", b""),
            Failure::NoTop => (b"--top is a number", b""),
            Failure::OfAlone => (b"--of excludes --from, --to and --top", b""),
            Failure::FoldedAlone => (b"--format folded excludes --to and --top", b""),
            Failure::NoMostRead => (b"--most-read is a number", b""),
            Failure::NoMostOutput => (b"--most-output is a number", b""),
            Failure::NoScanFormat => (b"--format of scan is text, gcc or json", b""),
            Failure::TwoLanguages => (b"--extended and --gnu exclude each other", b""),
            Failure::TwoLists => (b"--files and --root exclude each other", b""),
            Failure::ListAndGlobs => (b"--files and --exclude exclude each other", b""),
            Failure::TwoBuilds => (b"-p and -- exclude each other", b""),
            Failure::NoCommandSource => (b"-- names no source", b""),
            Failure::TwoBaselines => (b"--baseline and --write-baseline exclude each other", b""),
            Failure::NoEnds => (b"name SOURCE and HEADER, or give --from and --to", b""),
            Failure::NoHeaders => (b"name HEADER, or give --to", b""),
            Failure::BadGlob(text)
            | Failure::NoLine(text)
            | Failure::NotUndefined(text)
            | Failure::Build(text)
            | Failure::FitsNone(text)
            | Failure::NoDirective(text)
            | Failure::NoList(text)
            | Failure::MalformedRules(text) => (b"", text),
            Failure::NoRules => (b"name RULES, or give rules with -e", b""),
            Failure::NoSubject => (b"no rule is about a file of the project", b""),
            Failure::SeveralHeaders(text) => (b"several files end in ", text),
            Failure::NoSourceLeft => (b"each file of --from is one of --to", b""),
            Failure::NoMemory => (b"out of memory", b""),
        }
    }

    /// What stood in the way, where it is that something cannot be read or written.
    pub fn hindrance(&self, hindrance: Hindrance) -> Hindrance
        ensures { result ≡ hindrance_of hindrance (report_of self.now) }
    {
        if self.status() == 3 {
            hindrance
        } else {
            Hindrance::Other
        }
    }

    /// The exit status.
    pub fn status(&self) -> u8
        ensures { result ≡ (report_of self.now).status }
    {
        match self {
            Failure::NotUtf8
            | Failure::InputTwice
            | Failure::NoFile
            | Failure::OneFile
            | Failure::TwoForms
            | Failure::FormatOfFiles
            | Failure::NoFormat
            | Failure::NoMost
            | Failure::NoTop
            | Failure::OfAlone
            | Failure::FoldedAlone
            | Failure::NoMostRead
            | Failure::NoMostOutput
            | Failure::NoScanFormat
            | Failure::TwoLanguages
            | Failure::TwoLists
            | Failure::ListAndGlobs
            | Failure::TwoBuilds
            | Failure::NoCommandSource
            | Failure::TwoBaselines
            | Failure::NoEnds
            | Failure::NoHeaders
            | Failure::BadGlob(_)
            | Failure::NoLine(_)
            | Failure::NotUndefined(_)
            | Failure::Build(_)
            | Failure::NoRules => 2,
            Failure::CannotRead(_) | Failure::CannotWrite | Failure::CannotWriteFile(_) => 3,
            Failure::FileTooLong(_)
            | Failure::TooManyFiles
            | Failure::BadPath(_)
            | Failure::SamePath(_)
            | Failure::NoList(_)
            | Failure::MalformedList(_)
            | Failure::MalformedCompiler(_)
            | Failure::FitsNone(_)
            | Failure::NoDirective(_)
            | Failure::SeveralHeaders(_)
            | Failure::NoSourceLeft
            | Failure::MalformedRules(_)
            | Failure::NoSubject => 4,
            Failure::NoMemory => 5,
        }
    }
}
