//! Notes of files that words of `--from` and of `--to` both stand for.
ghost use Rattle.std.specs.Prelude.{◌≡◌, ◌<◌, ◌∷◌, ◌++◌, ◌&&◌, [], IfOk, OnOk, codes, false, filter, length, map, slice_index_or};
ghost use Rattle.std.specs.List.{range_with_len};
ghost use Rattle.inc_inputs.specs.BothNotes.{both_line, both_lines};
ghost use Rattle.inc_inputs.specs.BuildNotes.{none, with_lines};
ghost use Rattle.inc_inputs.specs.BuildReports.{some_lines};
ghost use Rattle.inc_inputs.specs.Reports.{shown};
ghost use Rattle.inc_inputs.specs.Views.{notes_in};

use crate::build_texts::Notes;
use crate::ends::{flag_files, has_flag};
use crate::failures::put_shown;
use inc_lookup::{FileId, Project};
use std::alloc::{AllocError, Global};

/// What is noted of the files that paths of sources and paths of headers both name: a line for each file, however many paths name it.
pub(crate) fn both_notes(
    alloc: Global,
    project: &Project<'_>,
    sources: &[&[u8]],
    headers: &[&[u8]],
) -> Result<Vec<u8>, AllocError>
    ensures { IfOk result (λ notes. notes.items
        ≡ some_lines (both_lines project.now (map (λ p. p.now) sources.now) (map (λ p. p.now) headers.now))) }
{
    let both = both_kept(alloc, project, sources, headers)?;
    let mut notes = Vec::new(alloc);
    both.put(alloc, &mut notes)?;
    Ok(notes)
}

/// The notes of these files.
fn both_kept(
    alloc: Global,
    project: &Project<'_>,
    sources: &[&[u8]],
    headers: &[&[u8]],
) -> Result<Notes, AllocError>
    ensures { IfOk result (λ notes. notes_in notes
        ≡ with_lines none (both_lines project.now (map (λ p. p.now) sources.now) (map (λ p. p.now) headers.now))) }
{
    let from = flag_files(alloc, project, sources)?;
    let to = flag_files(alloc, project, headers)?;
    let mut notes = Notes::new(alloc);
    add_both(&mut notes, alloc, project, &from, &to)?;
    Ok(notes)
}

/// Adds those of the files that have both flags.
fn add_both(
    notes: &mut Notes,
    alloc: Global,
    project: &Project<'_>,
    from: &[bool],
    to: &[bool],
) -> Result<(), AllocError>
    ensures { OnOk result (notes_in notes.new ≡ with_lines (notes_in notes.old) (map (both_line project.now)
        (filter (λ f. slice_index_or from.now f false && slice_index_or to.now f false) (range_with_len 0 (length project.now.paths))))) }
{
    for place in 0..project.count() {
        add_file(notes, alloc, project, from, to, place)?;
    }
    Ok(())
}

/// Adds that of the file at a place of the project, if it has both flags.
fn add_file(
    notes: &mut Notes,
    alloc: Global,
    project: &Project<'_>,
    from: &[bool],
    to: &[bool],
    place: usize,
) -> Result<(), AllocError>
    requires { place < length project.now.paths }
    ensures { OnOk result (notes_in notes.new ≡ with_lines (notes_in notes.old) (map (both_line project.now)
        (filter (λ f. slice_index_or from.now f false && slice_index_or to.now f false) (place ∷ [])))) }
{
    let Some(file) = project.at(place) else {
        unreachable!()
    };
    if is_both(from, to, file) {
        let line = both_line(alloc, project.path(file))?;
        notes.add(&line)?;
    }
    Ok(())
}

/// Whether a file has both flags.
fn is_both(from: &[bool], to: &[bool], file: FileId) -> bool
    ensures { result ≡ (slice_index_or from.now file false && slice_index_or to.now file false) }
{
    has_flag(from, file) && has_flag(to, file)
}

/// The line of the file of a path.
fn both_line(alloc: Global, path: &[u8]) -> Result<Vec<u8>, AllocError>
    ensures { IfOk result (λ line. line.items ≡ shown path.now ++ codes " is in --from and --to; taken as a header alone") }
{
    let mut line = Vec::new(alloc);
    put_shown(&mut line, path)?;
    line.extend_from_slice(b" is in --from and --to; taken as a header alone")?;
    Ok(line)
}
