//! The host's files and its standard input.
ghost use Rattle.std.specs.Prelude.{◌≡◌, false};
ghost use Rattle.std.specs.Io.{ReadsAtMost, WritesAtMost};

use crate::folders::list_files;
use crate::hindrances::{fault_of, hindrance_of};
use crate::listed_files::{ListedFiles, Unopened};
use crate::progress::Progress;
use crate::reports::{report, usage_status};
use crate::runs::{Ended, run};
use crate::shown::{Character, escaped};
use clap::Error as UsageError;
use inc_inputs::{Excluded, Failure, Hindrance, Inputs};
use inc_text::{ByteSink, ByteSource, DeviceFault, ReadFault, read_file};
use std::alloc::{AllocError, Global};
use std::cell::Cell;
use std::fs::File;
use std::io::{Error, ErrorKind, IsTerminal, Read, Write};
use std::random::RandomSource;
use std::{env, fs, io, str};

/// What the host has: std says of none of its bytes what they are.
#[derive(Drop)]
pub struct HostInputs<'a> {
    rt: &'a HostRuntime,
    listed: ListedFiles,
    hindrance: &'a Cell<Hindrance>,
    progress: &'a Progress,
}

impl<'a> HostInputs<'a> {
    /// The files and the standard input of the process. `hindrance` keeps what stood in the way of what was read or written last, and
    /// `progress` counts the files of the list.
    pub(crate) fn new(
        rt: &'a HostRuntime,
        seed: u64,
        hindrance: &'a Cell<Hindrance>,
        progress: &'a Progress,
    ) -> HostInputs<'a> {
        HostInputs {
            rt,
            listed: ListedFiles::new(rt, seed),
            hindrance,
            progress,
        }
    }
}

impl<'a> Inputs for HostInputs<'a> {
    ghost gives = { λ old input answer new. Unit {0} };

    ghost opens = { λ inputs name stream. Unit {0} };

    ghost begins = { λ old follows quiet new. Unit {0} };

    ghost puts = { λ old name text whole new. Unit {0} };

    type Stream = HostStream<'a>;

    fn begin(&mut self, follows: bool, is_quiet: bool) {
        self.listed.follow(follows);
        self.progress.begin(self.rt, is_quiet);
    }

    fn read_listed(&mut self, alloc: Global, path: &[u8]) -> Result<Vec<u8>, ReadFault> {
        self.hindrance.set(Hindrance::Other);
        self.progress.count(self.rt);
        // A path that is not UTF-8 cannot be opened.
        let Ok(name) = str::from_utf8(path) else {
            return Err(ReadFault::Read);
        };
        match self.listed.open(self.rt, name) {
            Ok((file, expected)) => {
                read_file(alloc, &mut HostReader::new(file, self.hindrance), expected)
            }
            Err(Unopened::NoMemory) => Err(ReadFault::NoMemory),
            Err(Unopened::Hindered(hindrance)) => {
                self.hindrance.set(hindrance);
                Err(ReadFault::Read)
            }
        }
    }

    fn read_file(&mut self, alloc: Global, path: &[u8]) -> Result<Vec<u8>, ReadFault> {
        let file = self.open_named(path)?;
        let expected = expected_len(&file);
        read_file(alloc, &mut HostReader::new(file, self.hindrance), expected)
    }

    fn read_input(&mut self, alloc: Global) -> Result<Vec<u8>, ReadFault> {
        self.hindrance.set(Hindrance::Other);
        let mut reader = HostReader::new(self.rt.reader(), self.hindrance);
        read_file(alloc, &mut reader, 0)
    }

    fn list_files(
        &mut self,
        alloc: Global,
        folder: &str,
        exclude: &[&str],
    ) -> Result<Vec<u8>, ReadFault> {
        self.hindrance.set(Hindrance::Other);
        self.listed.trust(self.rt, folder)?;
        let mut excluded = Excluded::new(alloc, exclude)?;
        let follows = self.listed.follows();
        list_files(self.rt, folder, &mut excluded, follows, self.hindrance)
    }

    fn read_whole(&mut self, alloc: Global, path: &[u8]) -> Result<Vec<u8>, ReadFault> {
        let file = self.open_named(path)?;
        let expected = expected_len(&file);
        read_whole(alloc, &mut HostReader::new(file, self.hindrance), expected)
    }

    fn run_folder(&mut self, alloc: Global) -> Result<Vec<u8>, ReadFault> {
        self.hindrance.set(Hindrance::Other);
        match env::current_dir(self.rt) {
            Ok(folder) => Ok(Vec::from_slice(alloc, folder.as_str().as_bytes())?),
            Err(error) => Err(fault_of(error, self.hindrance)),
        }
    }

    fn open(&self, alloc: Global, name: &str) -> Result<HostStream<'a>, AllocError> {
        Ok(HostStream {
            rt: self.rt,
            name: String::from_str(alloc, name)?,
            file: None,
            hindrance: self.hindrance,
            failed: false,
        })
    }

    fn write_file(&mut self, name: &str, text: &[u8]) -> Result<(), DeviceFault> {
        match fs::write(self.rt, name, text) {
            Ok(()) => Ok(()),
            Err(error) => {
                self.hindrance.set(hindrance_of(&error));
                Err(DeviceFault)
            }
        }
    }
}

impl HostInputs<'_> {
    /// Opens the file at a path that a word is.
    fn open_named(&self, path: &[u8]) -> Result<File, ReadFault> {
        self.hindrance.set(Hindrance::Other);
        // A path that is not UTF-8 cannot be opened.
        let Ok(name) = str::from_utf8(path) else {
            return Err(ReadFault::Read);
        };
        match fs::open(self.rt, name) {
            Ok(file) => Ok(file),
            Err(error) => Err(fault_of(error, self.hindrance)),
        }
    }
}

/// How many bytes are asked of a file at a time.
const PIECE_LEN: usize = 65_536;

/// All bytes of a file, however many these are. Memory is taken at once for as many as the host says.
fn read_whole<R: Read>(
    alloc: Global,
    reader: &mut HostReader<'_, R>,
    expected: usize,
) -> Result<Vec<u8>, ReadFault> {
    let mut bytes = Vec::with_capacity(alloc, expected)?;
    let mut piece = vec![in alloc; 0u8; PIECE_LEN]?;
    for _ in 0..u64::MAX {
        let Ok(count) = reader.read(&mut piece) else {
            return Err(ReadFault::Read);
        };
        if count == 0 {
            break;
        }
        bytes.extend_from_slice(&piece[..count])?;
    }
    Ok(bytes)
}

/// How many bytes a file has by what the host says. A host that cannot say it has the file read as it comes.
fn expected_len(file: &File) -> usize {
    match file.metadata() {
        Ok(known) => known.len() as usize,
        Err(_) => 0,
    }
}

/// Reads the next bytes; where a signal comes before the first of them, anew.
fn read_again<R: Read>(reader: &mut R, into: &mut [u8]) -> Result<usize, Error>
    ensures { ReadsAtMost result into.new }
{
    for _ in 0..u64::MAX {
        match reader.read(into) {
            Err(error) if error.kind() == ErrorKind::Interrupted => {}
            read => return read,
        }
    }
    Err(too_many_signals())
}

/// Writes the first bytes of a piece; where a signal comes before the first of them, anew.
fn write_again<W: Write>(writer: &mut W, piece: &[u8]) -> Result<usize, Error>
    ensures { WritesAtMost result piece.now }
{
    for _ in 0..u64::MAX {
        match writer.write(piece) {
            Err(error) if error.kind() == ErrorKind::Interrupted => {}
            written => return written,
        }
    }
    Err(too_many_signals())
}

/// What no process lives to see.
fn too_many_signals() -> Error {
    Error::new(ErrorKind::Interrupted, "too many signals")
}

/// A file or standard input, from where it is.
#[derive(Drop)]
struct HostReader<'a, R> {
    reader: R,
    /// What stands in its way.
    hindrance: &'a Cell<Hindrance>,
    failed: bool,
}

impl<'a, R: Read> HostReader<'a, R> {
    /// The bytes that a reader gives. `hindrance` keeps what stands in its way.
    fn new(reader: R, hindrance: &'a Cell<Hindrance>) -> Self
        ensures { result.failed ≡ false }
    {
        HostReader {
            reader,
            hindrance,
            failed: false,
        }
    }
}

impl<R: Read> ByteSource for HostReader<'_, R> {
    ghost use Rattle.std.specs.Prelude.{None};

    // std says nothing of the bytes that a file or standard input gives
    ghost left = { λ s. None };

    ghost has_failed = { λ s. s.failed };

    fn read(&mut self, into: &mut [u8]) -> Result<usize, DeviceFault> {
        match read_again(&mut self.reader, into) {
            Ok(count) => Ok(count),
            Err(error) => {
                self.hindrance.set(hindrance_of(&error));
                self.failed = true;
                Err(DeviceFault)
            }
        }
    }

    fn failed(&self) -> bool {
        self.failed
    }
}

/// What a word names, which is opened when it is first read; `-` is standard input. It may be of any length, since the certificate of a
/// large cut is longer than source files may be.
#[derive(Drop)]
pub struct HostStream<'a> {
    rt: &'a HostRuntime,
    name: String,
    file: Option<File>,
    /// What stands in its way.
    hindrance: &'a Cell<Hindrance>,
    failed: bool,
}

impl HostStream<'_> {
    /// Reads the next bytes of the host's file.
    fn read_host(&mut self, into: &mut [u8]) -> Result<usize, Error>
        ensures bound { ReadsAtMost result into.new }
        ensures same { self.new.failed ≡ self.old.failed }
    {
        if self.name.as_str() == "-" {
            return read_again(&mut self.rt.stdin(), into);
        }
        if self.file.is_none() {
            self.file = Some(fs::open(self.rt, self.name.as_str())?);
        }
        match &mut self.file {
            Some(file) => read_again(file, into),
            None => Ok(0),
        }
    }
}

impl ByteSource for HostStream<'_> {
    ghost use Rattle.std.specs.Prelude.{None};

    // std says nothing of the bytes that a file or standard input gives
    ghost left = { λ s. None };

    ghost has_failed = { λ s. s.failed };

    fn read(&mut self, into: &mut [u8]) -> Result<usize, DeviceFault> {
        match self.read_host(into) {
            Ok(count) => Ok(count),
            Err(error) => {
                self.hindrance.set(hindrance_of(&error));
                self.failed = true;
                Err(DeviceFault)
            }
        }
    }

    fn failed(&self) -> bool {
        self.failed
    }
}

/// Which of standard output and standard error are pipes that nobody reads any more.
#[derive(Drop)]
struct Pipes {
    output: Cell<bool>,
    messages: Cell<bool>,
}

impl Pipes {
    /// Somebody reads both, as far as it is known.
    fn new() -> Self {
        Pipes {
            output: Cell::new(false),
            messages: Cell::new(false),
        }
    }
}

/// Standard output or standard error. What is written to one of them is dropped once it is a pipe that nobody reads any more. Once standard
/// output is one, as after `| head`, messages are dropped, too, so that the process ends without one. The line on progress is taken away
/// before anything is written. A terminal is shown bytes that it would take as orders, as `\xNN`.
#[derive(Drop)]
struct HostSink<'a, W> {
    rt: &'a HostRuntime,
    writer: W,
    progress: &'a Progress,
    /// Whether nobody reads it any more.
    gone: &'a Cell<bool>,
    /// Whether nobody reads standard output any more.
    output_gone: &'a Cell<bool>,
    /// How much of a character a terminal got; none where it is no terminal.
    shown: Option<Character>,
    /// What stands in the way of what is written.
    hindrance: &'a Cell<Hindrance>,
    failed: bool,
}

impl<'a, W: Write> HostSink<'a, W> {
    /// Standard output.
    fn output(
        rt: &'a HostRuntime,
        writer: W,
        pipes: &'a Pipes,
        progress: &'a Progress,
        hindrance: &'a Cell<Hindrance>,
        is_terminal: bool,
    ) -> Self
        ensures { result.failed ≡ false }
    {
        HostSink {
            rt,
            writer,
            progress,
            gone: &pipes.output,
            output_gone: &pipes.output,
            shown: shown_by(is_terminal),
            hindrance,
            failed: false,
        }
    }

    /// Standard error.
    fn messages(
        rt: &'a HostRuntime,
        writer: W,
        pipes: &'a Pipes,
        progress: &'a Progress,
        hindrance: &'a Cell<Hindrance>,
    ) -> Self
        ensures { result.failed ≡ false }
    {
        HostSink {
            rt,
            writer,
            progress,
            gone: &pipes.messages,
            output_gone: &pipes.output,
            shown: shown_by(rt.stderr().is_terminal()),
            hindrance,
            failed: false,
        }
    }
}

/// No character has begun, where it is a terminal.
fn shown_by(is_terminal: bool) -> Option<Character> {
    if is_terminal {
        Some(Character::none())
    } else {
        None
    }
}

impl<W: Write> HostSink<'_, W> {
    /// Writes the first bytes of a piece to where the stream leads.
    fn send(&mut self, piece: &[u8]) -> Result<usize, Error>
        ensures bound { WritesAtMost result piece.now }
        ensures same { self.new.failed ≡ self.old.failed }
    {
        let Some(character) = self.shown else {
            return write_again(&mut self.writer, piece);
        };
        let len = character.shown_len(piece);
        if len == 0 {
            return self.send_escaped(piece);
        }
        let count = write_again(&mut self.writer, &piece[..len])?;
        self.shown = Some(character.with_all(&piece[..count]));
        Ok(count)
    }

    /// Writes what is shown in place of the first byte of a piece.
    fn send_escaped(&mut self, piece: &[u8]) -> Result<usize, Error>
        ensures bound { WritesAtMost result piece.now }
        ensures same { self.new.failed ≡ self.old.failed }
    {
        let [byte, ..] = piece else {
            return Ok(0);
        };
        self.writer.write_all(&escaped(*byte))?;
        self.shown = Some(Character::none());
        Ok(1)
    }
}

impl<W: Write> ByteSink for HostSink<'_, W> {
    ghost use Rattle.std.specs.Prelude.{None};

    // std says nothing of the bytes that have come to where a stream leads
    ghost written = { λ s. None };

    ghost has_failed = { λ s. s.failed };

    fn write(&mut self, piece: &[u8]) -> Result<usize, DeviceFault> {
        if self.gone.get() || self.output_gone.get() {
            return Ok(piece.len());
        }
        self.progress.clear(self.rt);
        match self.send(piece) {
            Ok(count) if count > 0 || piece.is_empty() => return Ok(count),
            Err(error) if error.kind() == ErrorKind::BrokenPipe => self.gone.set(true),
            Err(error) => self.hindrance.set(hindrance_of(&error)),
            _ => self.hindrance.set(Hindrance::Other),
        }
        self.failed = true;
        Err(DeviceFault)
    }

    fn failed(&self) -> bool {
        self.failed
    }
}

/// Runs the program for the words of the process, and gives the exit status.
pub fn run_process(rt: &HostRuntime) -> u8 {
    let pipes = Pipes::new();
    let progress = Progress::new();
    let hindrance = Cell::new(Hindrance::Other);
    let messages = HostSink::messages(rt, rt.stderr(), &pipes, &progress, &hindrance);
    match words_of(rt) {
        Ok(words) => run_or_help(rt, words, &pipes, &progress, &hindrance, messages),
        Err(failure) => report(&failure, Hindrance::Other, messages).0,
    }
}

/// Runs the program for these words. Where there are none, and standard input is a terminal, it prints the help in place of waiting for a
/// source.
fn run_or_help<'a, E: ByteSink + Drop>(
    rt: &'a HostRuntime,
    words: Vec<String>,
    pipes: &'a Pipes,
    progress: &'a Progress,
    hindrance: &'a Cell<Hindrance>,
    messages: E,
) -> u8
    requires { E.has_failed messages ≡ false }
{
    if words.len() > 1 || !rt.stdin().is_terminal() {
        return run_words(rt, &words, pipes, progress, hindrance, messages);
    }
    match with_help(rt, words) {
        Ok(words) => unasked(run_words(rt, &words, pipes, progress, hindrance, messages)),
        Err(failure) => report(&failure, Hindrance::Other, messages).0,
    }
}

/// The words of the process and `--help`.
fn with_help(rt: &HostRuntime, words: Vec<String>) -> Result<Vec<String>, Failure> {
    let mut words = words;
    words.push(String::from_str(rt.alloc(), "--help")?)?;
    Ok(words)
}

/// The status of a help that nobody asked for: that of bad words.
fn unasked(status: u8) -> u8 {
    if status == 0 { 2 } else { status }
}

/// Runs the program for these words.
fn run_words<'a, E: ByteSink + Drop>(
    rt: &'a HostRuntime,
    words: &[String],
    pipes: &'a Pipes,
    progress: &'a Progress,
    hindrance: &'a Cell<Hindrance>,
    messages: E,
) -> u8
    requires { E.has_failed messages ≡ false }
{
    let is_terminal = rt.stdout().is_terminal();
    let out = HostSink::output(rt, io::writer(rt), pipes, progress, hindrance, is_terminal);
    let seed = new_seed(rt);
    let inputs = HostInputs::new(rt, seed, hindrance, progress);
    let (ended, _out, messages) = run(
        rt.alloc(),
        seed,
        words,
        is_terminal,
        inputs,
        hindrance,
        out,
        messages,
    );
    progress.clear(rt);
    match ended {
        Ended::Status(status) => status,
        Ended::Usage(error) => print_usage(rt, &error, messages),
    }
}

/// Prints a text of `clap`. Help and the version go to standard output; where that cannot be written, it is reported.
fn print_usage<E: ByteSink + Drop>(rt: &HostRuntime, error: &UsageError, messages: E) -> u8
    requires { E.has_failed messages ≡ false }
{
    match error.print(rt) {
        Err(fault) if fault.kind() == ErrorKind::BrokenPipe => Failure::CannotWrite.status(),
        Err(fault) if !error.use_stderr() => {
            report(&Failure::CannotWrite, hindrance_of(&fault), messages).0
        }
        _ => usage_status(error),
    }
}

/// The words of the process.
fn words_of(rt: &HostRuntime) -> Result<Vec<String>, Failure> {
    match env::args(rt) {
        Ok(words) => Ok(words.collect::<Vec<String>>(rt.alloc())?),
        Err(error) if error.kind() == ErrorKind::OutOfMemory => Err(Failure::NoMemory),
        Err(_) => Err(Failure::NotUtf8),
    }
}

/// A seed for the tables of this run, so that whoever writes the files that are read cannot choose names that make look-ups slow.
/// Where the system gives no random bytes, look-ups are still right.
fn new_seed(rt: &HostRuntime) -> u64 {
    let mut bytes = [0u8; 8];
    match rt.fill_bytes(&mut bytes) {
        Ok(()) => u64::from_le_bytes(bytes),
        Err(_) => 0,
    }
}
