//! The lines on words that name no file of the project, and what they may have meant.
ghost use Rattle.std.specs.Prelude.{◌≡◌, ◌<◌, ◌++◌, ◌∷◌, [], codes, decimal, flat_map, get_or, length, map, min, IfOk, OnOk};
ghost use Rattle.inc_answers.specs.NearNames.{apart, guess_text, guesses, last_name, least, more_line, nearest, or_path, path_apart, unnamed, unnamed_at, unnamed_line, unnamed_lines, source_notes};

use crate::missing_notes::{Notes, put_number, put_shown};
use crate::named_files::file_at;
use inc_lookup::Project;
use std::alloc::{AllocError, Global};
use strsim::generic_levenshtein;

/// The most paths that a word may have meant.
const MOST_NEAR: usize = 3;

/// The longest name that is compared, so that a guess takes time that is linear in the list.
const LONGEST_COMPARED: usize = 64;

/// Further than any name is that is near.
const FAR: usize = 65;

/// The most words that have a line.
const MOST_UNNAMED: usize = 10;

/// The line on the word at a place, which names no file; none where there is no such word.
pub fn unnamed_at(
    alloc: Global,
    project: &Project<'_>,
    what: &[u8],
    words: &[&[u8]],
    place: usize,
) -> Result<Notes, AllocError>
    ensures { IfOk result (λ notes. notes ≡ unnamed_at what.now project.now.paths (map (λ w. w.now) words.now) place) }
{
    let Some(word) = words.get(place) else {
        return Ok(Notes::none());
    };
    let mut text = Vec::new(alloc);
    put_unnamed(&mut text, alloc, project, what, word)?;
    Ok(Notes::of(text))
}

/// The lines on the sources that name no file.
pub fn unnamed_sources(
    alloc: Global,
    project: &Project<'_>,
    words: &[&[u8]],
) -> Result<Notes, AllocError>
    ensures { IfOk result (λ notes. notes ≡ source_notes project.now (map (λ w. w.now) words.now)) }
{
    let unnamed = unnamed_words(alloc, project, words)?;
    if unnamed.is_empty() {
        return Ok(Notes::none());
    }
    let mut text = Vec::new(alloc);
    put_lines(&mut text, alloc, project, &unnamed)?;
    Ok(Notes::of(text))
}

/// The words that name no file.
fn unnamed_words<'w>(
    alloc: Global,
    project: &Project<'_>,
    words: &[&'w [u8]],
) -> Result<Vec<&'w [u8]>, AllocError>
    ensures { IfOk result (λ found. map (λ w. w.now) found.items ≡ unnamed project.now (map (λ w. w.now) words.now)) }
{
    let mut found = Vec::new(alloc);
    for word in words {
        if file_at(alloc, project, word)?.is_none() {
            found.push(*word)?;
        }
    }
    Ok(found)
}

/// Adds the lines on sources that name no file.
fn put_lines(
    text: &mut Vec<u8>,
    alloc: Global,
    project: &Project<'_>,
    words: &[&[u8]],
) -> Result<(), AllocError>
    ensures { OnOk result (text.new.items
        ≡ text.old.items ++ unnamed_lines (codes "source") project.now.paths (map (λ w. w.now) words.now)) }
{
    let count = most_of(words.len());
    put_each(text, alloc, project, &words[..count])?;
    put_more(text, words.len() - count)?;
    Ok(())
}

/// How many of so many words have a line.
pub fn most_of(count: usize) -> usize
    ensures most { result ≡ min 10 count }
{
    if count < MOST_UNNAMED {
        count
    } else {
        MOST_UNNAMED
    }
}

/// Adds the line on each of these sources.
fn put_each(
    text: &mut Vec<u8>,
    alloc: Global,
    project: &Project<'_>,
    words: &[&[u8]],
) -> Result<(), AllocError>
    ensures { OnOk result (text.new.items ≡ text.old.items
        ++ flat_map (unnamed_line (codes "source") project.now.paths) (map (λ w. w.now) words.now)) }
{
    for word in words {
        put_unnamed(text, alloc, project, b"source", word)?;
    }
    Ok(())
}

/// Adds how many words more there are than have a line, if there are more.
pub fn put_more(text: &mut Vec<u8>, count: usize) -> Result<(), AllocError>
    ensures { OnOk result (text.new.items ≡ text.old.items ++ more_line count) }
{
    if count == 0 {
        return Ok(());
    }
    put_more_line(text, count)
}

/// Adds the line that says how many words more there are than have a line.
fn put_more_line(text: &mut Vec<u8>, count: usize) -> Result<(), AllocError>
    ensures { OnOk result (text.new.items ≡ text.old.items ++ (codes "incut: .. and " ++ decimal count ++ codes " more" ++ 10 ∷ [])) }
{
    text.extend_from_slice(b"incut: .. and ")?;
    put_number(text, count as u64)?;
    text.extend_from_slice(b" more")?;
    text.push(b'\n')?;
    Ok(())
}

/// Adds the line on a word that names no file.
fn put_unnamed(
    text: &mut Vec<u8>,
    alloc: Global,
    project: &Project<'_>,
    what: &[u8],
    word: &[u8],
) -> Result<(), AllocError>
    ensures { OnOk result (text.new.items ≡ text.old.items ++ unnamed_line what.now project.now.paths word.now) }
{
    let guesses = guesses(alloc, project, word)?;
    text.extend_from_slice(b"incut: no such ")?;
    text.extend_from_slice(what)?;
    text.extend_from_slice(b": ")?;
    put_shown(text, word)?;
    put_guesses(text, &guesses)?;
    text.push(b'\n')?;
    Ok(())
}

/// Adds what a word may have meant.
fn put_guesses(text: &mut Vec<u8>, guesses: &[&[u8]]) -> Result<(), AllocError>
    ensures { OnOk result (text.new.items ≡ text.old.items ++ guess_text (map (λ p. p.now) guesses.now)) }
{
    if guesses.is_empty() {
        return Ok(());
    }
    text.extend_from_slice(b"; did you mean ")?;
    put_shown(text, guesses[0])?;
    put_others(text, &guesses[1..])?;
    text.extend_from_slice(b"?")?;
    Ok(())
}

/// Adds the paths after the first.
fn put_others(text: &mut Vec<u8>, paths: &[&[u8]]) -> Result<(), AllocError>
    ensures { OnOk result (text.new.items ≡ text.old.items ++ flat_map or_path (map (λ p. p.now) paths.now)) }
{
    for path in paths {
        put_other(text, path)?;
    }
    Ok(())
}

/// Adds one path more.
fn put_other(text: &mut Vec<u8>, path: &[u8]) -> Result<(), AllocError>
    ensures { OnOk result (text.new.items ≡ text.old.items ++ or_path path.now) }
{
    text.extend_from_slice(b" or ")?;
    put_shown(text, path)
}

/// The paths that a word may have meant, in the order of the project.
fn guesses<'p>(
    alloc: Global,
    project: &'p Project<'_>,
    word: &[u8],
) -> Result<Vec<&'p [u8]>, AllocError>
    ensures { IfOk result (λ paths. map (λ p. p.now) paths.items ≡ guesses word.now project.now.paths) }
{
    let name = last_name(word);
    let least = least(alloc, project, name)?;
    nearest(alloc, project, name, least)
}

/// The first paths that are so far from a name; none where that is far.
fn nearest<'p>(
    alloc: Global,
    project: &'p Project<'_>,
    name: &[u8],
    least: usize,
) -> Result<Vec<&'p [u8]>, AllocError>
    ensures { IfOk result (λ paths. map (λ p. p.now) paths.items ≡ nearest name.now least project.now.paths) }
{
    let mut paths = Vec::new(alloc);
    if least == FAR {
        return Ok(paths);
    }
    for place in 0..project.count() {
        let path = path_of(project, place);
        if path_apart(alloc, name, path)? == least {
            paths.push(path)?;
            if paths.len() == MOST_NEAR {
                return Ok(paths);
            }
        }
    }
    Ok(paths)
}

/// How far the nearest path is from a name.
fn least(alloc: Global, project: &Project<'_>, name: &[u8]) -> Result<usize, AllocError>
    ensures { IfOk result (λ d. d ≡ least name.now project.now.paths) }
{
    let mut least = FAR;
    for place in 0..project.count() {
        let distance = path_apart(alloc, name, path_of(project, place))?;
        if distance < least {
            least = distance;
        }
    }
    Ok(least)
}

/// The path of the file at a place of the list.
fn path_of<'p>(project: &'p Project<'_>, place: usize) -> &'p [u8]
    requires { place < length project.now.paths }
    ensures { result.now ≡ get_or project.now.paths place [] }
{
    match project.at(place) {
        Some(file) => project.path(file),
        None => unreachable!(),
    }
}

/// How far the last component of a path is from a name.
fn path_apart(alloc: Global, name: &[u8], path: &[u8]) -> Result<usize, AllocError>
    ensures { IfOk result (λ d. d ≡ path_apart name.now path.now) }
{
    apart(alloc, name, last_name(path))
}

/// How far another name is from a name.
fn apart(alloc: Global, name: &[u8], other: &[u8]) -> Result<usize, AllocError>
    ensures { IfOk result (λ d. d ≡ apart name.now other.now) }
{
    if name == other {
        return Ok(0);
    }
    if name.len() > LONGEST_COMPARED || other.len() > LONGEST_COMPARED {
        return Ok(FAR);
    }
    let distance = generic_levenshtein(alloc, name, other)?;
    if distance > name.len() / 3 {
        return Ok(FAR);
    }
    Ok(distance)
}

/// What is behind the last `/` of a path.
fn last_name(path: &[u8]) -> &[u8]
    ensures { result.now ≡ last_name path.now }
{
    let mut begin = 0;
    for place in 0..path.len() {
        if path[place] == b'/' {
            begin = place + 1;
        }
    }
    &path[begin..]
}
