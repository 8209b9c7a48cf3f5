//! Prints what a compilation database stands for, for the examples on standard input. They are in `stdin`, and what they must give is in `stdout`: it follows from the rules of
//! the shell and of gcc's options, and was never what this program printed.
//!
//! A line `== KIND: NAME` begins an example. What is before the first one is a heading.
//!
//! | Kind | What is after the line | The answer |
//! |---|---|---|
//! | `command` | a command, as a shell reads it | its words, each in brackets on a line of its own |
//! | `words` | the same, of a compiler | what its words ask for |
//! | `paths` | lines `DIRECTORY PATH` | the absolute path of each |
//! | `database` | JSON | its entries: directory, file and words; or its fault |
//! | `build` | a line with the directory from which others are looked up, and JSON | the include paths with their numbers, and then the sources, each with the numbers of its entries and of their include paths |
#![tactic(auto)]

use inc_build::{
    Build, Entry, Item, Kind, Row, Use, Word, items, path_from, read_database, read_entries,
    shell_words,
};
use std::alloc::Global;
use std::process::ExitCode;
use tests_parts::{Answers, Stop, add, add_number, run, split_word};

fn main(rt: HostRuntime) -> ExitCode {
    match run::<Builds>(&rt) {
        Ok(()) => ExitCode::from(0),
        Err(_) => ExitCode::from(1),
    }
}

/// Answers by calls about databases.
struct Builds;

impl Answers for Builds {
    fn add(alloc: Global, example: &str, out: &mut Vec<u8>) -> Result<(), Stop> {
        let Some((kind, _)) = example.split_once(": ") else {
            return Err(Stop);
        };
        let (_, text) = example.split_once('\n').unwrap_or((example, ""));
        match kind {
            "command" => add_command(alloc, text, out),
            "words" => add_asked(alloc, text, out),
            "paths" => add_paths(alloc, text, out),
            "database" => add_database(alloc, text, out),
            "build" => add_build(alloc, text, out),
            _ => Err(Stop),
        }
    }
}

/// Adds the words of a command.
fn add_command(alloc: Global, text: &str, out: &mut Vec<u8>) -> Result<(), Stop> {
    match shell_words(alloc, text.as_bytes())? {
        Some(words) => add_words(&words, out),
        None => add(out, b"a quote does not end\n"),
    }
}

/// Adds words, in brackets.
fn add_words(words: &[Word<'_>], out: &mut Vec<u8>) -> Result<(), Stop> {
    for word in words {
        add(out, b"[")?;
        add(out, word.bytes())?;
        add(out, b"]\n")?;
    }
    Ok(())
}

/// Adds what the words of a command ask for.
fn add_asked(alloc: Global, text: &str, out: &mut Vec<u8>) -> Result<(), Stop> {
    let Some(words) = shell_words(alloc, text.as_bytes())? else {
        return Err(Stop);
    };
    let items = items(alloc, &words)?;
    for item in &items {
        add_item(*item, out)?;
        add(out, b"\n")?;
    }
    Ok(())
}

/// Adds an item.
fn add_item(item: Item<'_>, out: &mut Vec<u8>) -> Result<(), Stop> {
    let (name, value) = match item {
        Item::Given(kind, value) => (option_of(kind), value),
        Item::Standard(name) => (b"standard ".as_slice(), name),
        Item::NoSystem => (b"no system".as_slice(), b"".as_slice()),
        Item::Listed(path) => (b"words of ".as_slice(), path),
        Item::Told(name) => (b"unknown ".as_slice(), name),
        Item::Operand(word) => (b"operand ".as_slice(), word),
    };
    add(out, name)?;
    add(out, value)
}

/// An option, and a blank.
fn option_of(kind: Kind) -> &'static [u8] {
    match kind {
        Kind::Quoted => b"-iquote ",
        Kind::Searched => b"-I ",
        Kind::System => b"-isystem ",
        Kind::Last => b"-idirafter ",
        Kind::Macros => b"-imacros ",
        Kind::Included => b"-include ",
        Kind::Defined => b"-D ",
        Kind::Undefined => b"-U ",
    }
}

/// Adds the absolute path of each line.
fn add_paths(alloc: Global, text: &str, out: &mut Vec<u8>) -> Result<(), Stop> {
    for line in text.split('\n') {
        let (directory, path) = split_word(line);
        add(
            out,
            &path_from(alloc, directory.as_bytes(), path.as_bytes())?,
        )?;
        add(out, b"\n")?;
    }
    Ok(())
}

/// Adds the entries of a database.
fn add_database(alloc: Global, text: &str, out: &mut Vec<u8>) -> Result<(), Stop> {
    let value = match read_database(alloc, text.as_bytes()) {
        Ok(value) => value,
        Err(fault) => return add(out, format!(in alloc; "{fault}\n")?.as_bytes()),
    };
    match read_entries(alloc, &value) {
        Ok(entries) => add_entries(&entries, out),
        Err(fault) => add(out, format!(in alloc; "{fault}\n")?.as_bytes()),
    }
}

/// Adds entries.
fn add_entries(entries: &[Entry<'_>], out: &mut Vec<u8>) -> Result<(), Stop> {
    for entry in entries {
        add(out, entry.directory)?;
        add(out, b" ")?;
        add(out, entry.file)?;
        add(out, b"\n")?;
        add_words(&entry.words, out)?;
    }
    Ok(())
}

/// Adds the include paths and sources of a build.
fn add_build(alloc: Global, text: &str, out: &mut Vec<u8>) -> Result<(), Stop> {
    let (base, json) = text.split_once('\n').unwrap_or((text, ""));
    let Ok(value) = read_database(alloc, json.as_bytes()) else {
        return Err(Stop);
    };
    match read_entries(alloc, &value) {
        Ok(entries) => add_build_of(alloc, base, &entries, out),
        Err(_) => Err(Stop),
    }
}

/// Adds those of entries.
fn add_build_of(
    alloc: Global,
    base: &str,
    entries: &[Entry<'_>],
    out: &mut Vec<u8>,
) -> Result<(), Stop> {
    let build = Build::new(alloc, 0, base.as_bytes(), entries)?;
    for number in 0..build.configurations().len() {
        add_number(out, number, b":\n")?;
        add_rows(&build.configurations()[number], out)?;
    }
    for number in 0..build.source_count() {
        add_source(&build, number, out)?;
    }
    Ok(())
}

/// Adds an include path.
fn add_rows(rows: &[Row], out: &mut Vec<u8>) -> Result<(), Stop> {
    for row in rows {
        add(out, option_of(row.kind))?;
        add(out, &row.path)?;
        if !row.name.is_empty() {
            add(out, b" as ")?;
            add(out, &row.name)?;
        }
        add(out, b"\n")?;
    }
    Ok(())
}

/// Adds a source, unless it is not found by its path.
fn add_source(build: &Build, number: usize, out: &mut Vec<u8>) -> Result<(), Stop> {
    let Some(path) = build.source(number) else {
        return Err(Stop);
    };
    if build.source_number(path) != Some(number) {
        return Err(Stop);
    }
    add(out, path)?;
    add(out, b"\n")?;
    for one in build.uses(number) {
        add_use(*one, out)?;
    }
    Ok(())
}

/// Adds an entry of a source.
fn add_use(one: Use, out: &mut Vec<u8>) -> Result<(), Stop> {
    add_number(out, one.entry, b" by ")?;
    add_number(out, one.configuration, b"\n")
}
