//! Answers for preprocessing.
ghost use Rattle.std.specs.Prelude.{◌≤◌, length};

use inc_lookup::{DirectiveId, FileId, HeldFiles, NamedDir, Project};
use inc_pp::{Missing, Outcome, PpRefusal, Settings, preprocess};
use inc_text::Language;
use inc_token::Kind;
use std::alloc::Global;
use tests_parts::{
    Stop, add, add_number, add_path, directive_of, file_of, files_of, project_of, refusing,
    settings_of, split_word,
};

/// Adds what the preprocessing of `m.c` gives. What a function holds while another may fail makes it dear to prove, so that each of these holds
/// little.
pub fn add_preprocessing(alloc: Global, example: &str, out: &mut Vec<u8>) -> Result<(), Stop> {
    let lines = settings_of(example);
    let files = files_of(alloc, example)?;
    let mut held = HeldFiles { files: &files };
    let paths = held.paths(alloc)?;
    let project = project_in(alloc, &paths, lines)?;
    add_by_settings(alloc, &project, &mut held, lines, out)
}

/// The same of a project.
fn add_by_settings(
    alloc: Global,
    project: &Project<'_>,
    held: &mut HeldFiles<'_>,
    lines: &str,
    out: &mut Vec<u8>,
) -> Result<(), Stop> {
    match settings_in(alloc, lines)? {
        Some(settings) => add_by_names(alloc, project, held, &settings, lines, out),
        None => add(out, b"no settings\n"),
    }
}

/// The same by settings, which get the lines `source PATH`, `shown DIRECTORY`, `system DIRECTORY` and `markers`.
fn add_by_names(
    alloc: Global,
    project: &Project<'_>,
    held: &mut HeldFiles<'_>,
    settings: &Settings<'_>,
    lines: &str,
    out: &mut Vec<u8>,
) -> Result<(), Stop> {
    let dirs = shown_in(alloc, lines)?;
    let settings = settings.with_dirs(&dirs);
    let settings = settings.with_markers(lines.split('\n').any(|line| line == "markers"));
    match words_in(alloc, lines, "source ")?.first() {
        Some(source) => {
            let settings = settings.with_source(source);
            add_by_words(alloc, project, held, &settings, lines, out)
        }
        None => add_by_words(alloc, project, held, &settings, lines, out),
    }
}

/// The same by settings.
fn add_by_words(
    alloc: Global,
    project: &Project<'_>,
    held: &mut HeldFiles<'_>,
    settings: &Settings<'_>,
    lines: &str,
    out: &mut Vec<u8>,
) -> Result<(), Stop> {
    let source = file_of(project, b"m.c")?;
    let without = without_in(alloc, project, lines)?;
    let words = words_in(alloc, lines, "word ")?;
    let ended = preprocess(alloc, project, held, source, &words, settings, &without);
    add_ended(alloc, project, ended, out)
}

/// Adds what a preprocessing gives.
fn add_ended(
    alloc: Global,
    project: &Project<'_>,
    ended: Result<Outcome, PpRefusal>,
    out: &mut Vec<u8>,
) -> Result<(), Stop> {
    match ended {
        Ok(outcome) => {
            let _refusing = refusing(alloc)?;
            add_outcome(project, &outcome, out)
        }
        Err(fault) => add(out, format!(in alloc; "{fault}\n")?.as_bytes()),
    }
}

/// The project of files with these paths, and of the search directories of the lines `dir DIRECTORY`.
fn project_in<'a>(alloc: Global, paths: &'a [&'a [u8]], lines: &str) -> Result<Project<'a>, Stop> {
    let dirs = words_in(alloc, lines, "dir ")?;
    project_of(alloc, paths, &dirs)
}

/// The settings of the lines `date DATE`, `time TIME`, `timestamp TIMESTAMP`, `empty` and `gnu`; `None` where these make none.
fn settings_in<'n>(alloc: Global, lines: &str) -> Result<Option<Settings<'n>>, Stop> {
    let _refusing = refusing(alloc)?;
    let mut date = *b"Jan  1 1970";
    let mut time = *b"00:00:00";
    let mut timestamp = *b"Thu Jan  1 00:00:00 1970";
    let mut missing = Missing::Stop;
    let mut language = Language::C17;
    for line in lines.split('\n').skip(1) {
        let (word, rest) = split_word(line);
        match word {
            "date" => fill(&mut date, rest)?,
            "time" => fill(&mut time, rest)?,
            "timestamp" => fill(&mut timestamp, rest)?,
            "empty" => missing = Missing::Empty,
            "gnu" => language = Language::Gnu,
            _ => {}
        }
    }
    Ok(Settings::new(language, date, time, timestamp, missing))
}

/// The directories of the lines `shown DIRECTORY` and `system DIRECTORY`.
fn shown_in<'a>(alloc: Global, lines: &'a str) -> Result<Vec<NamedDir<'a>>, Stop> {
    let mut dirs = Vec::new(alloc);
    for line in lines.split('\n').skip(1) {
        let (word, rest) = split_word(line);
        if word == "shown" || word == "system" {
            dirs.push(NamedDir {
                name: rest.as_bytes(),
                is_system: word == "system",
            })?;
        }
    }
    Ok(dirs)
}

/// Fills bytes with a text of as many.
fn fill(bytes: &mut [u8], text: &str) -> Result<(), Stop> {
    if bytes.len() != text.len() {
        return Err(Stop);
    }
    bytes.copy_from_slice(text.as_bytes());
    Ok(())
}

/// The directives of the lines `without LINE PATH`.
fn without_in(alloc: Global, project: &Project<'_>, lines: &str) -> Result<Vec<DirectiveId>, Stop> {
    let mut without = Vec::new(alloc);
    for line in lines.split('\n').skip(1) {
        if let Some(directive) = line.strip_prefix("without ") {
            without.push(directive_of(project, directive)?)?;
        }
    }
    Ok(without)
}

/// What is after this beginning in each line that has it.
fn words_in<'a>(alloc: Global, lines: &'a str, beginning: &str) -> Result<Vec<&'a [u8]>, Stop> {
    let mut words = Vec::new(alloc);
    for line in lines.split('\n').skip(1) {
        if let Some(word) = line.strip_prefix(beginning) {
            words.push(word.as_bytes())?;
        }
    }
    Ok(words)
}

/// Adds the tokens, the files that are read, and where it stops.
fn add_outcome(project: &Project<'_>, outcome: &Outcome, out: &mut Vec<u8>) -> Result<(), Stop> {
    add_tokens(outcome, out)?;
    add_reads(project, outcome.reads(), out)?;
    if let Some(stop) = outcome.stop() {
        add(out, b"stop in line ")?;
        add_number(out, stop.line as usize, b" of ")?;
        add_path(project, stop.file, out)?;
        add(out, b"\n")?;
    }
    Ok(())
}

/// Adds each token, in a line of its own where it begins one; then the text, if it is another one.
fn add_tokens(outcome: &Outcome, out: &mut Vec<u8>) -> Result<(), Stop> {
    let mut tokens = outcome.tokens();
    // A text has no more tokens than bytes.
    for _ in outcome.text() {
        if let Some(token) = tokens.next() {
            add(out, if token.starts { b"\n" } else { b" " })?;
            add(out, class(token.kind))?;
            add(out, token.spelling)?;
        }
    }
    add(out, b"\n")
}

/// The class of a token in a letter.
fn class(kind: Kind) -> &'static [u8] {
    match kind {
        Kind::Identifier => b"i:",
        Kind::Number => b"n:",
        Kind::Char => b"c:",
        Kind::Str => b"s:",
        Kind::Punct => b"p:",
        Kind::HeaderName | Kind::Other => b"o:",
    }
}

/// Adds the files that are read, with how often each is read in a row.
fn add_reads(project: &Project<'_>, reads: &[FileId], out: &mut Vec<u8>) -> Result<(), Stop> {
    let mut at = 0;
    add(out, b"reads")?;
    while at < reads.len() {
        let times = times_in_front(&reads[at..]);
        add(out, b" ")?;
        add_number(out, times, b" ")?;
        add_path(project, reads[at], out)?;
        at += times.max(1);
    }
    add(out, b"\n")
}

/// How often a list begins with one file.
fn times_in_front(reads: &[FileId]) -> usize
    ensures { result ≤ length reads.now }
{
    let mut times = 0;
    while times < reads.len() && reads[times] == reads[0] {
        times += 1;
    }
    times
}
