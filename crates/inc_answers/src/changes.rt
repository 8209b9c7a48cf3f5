//! The files that a cut changes, where its directives are blanked.
ghost use Rattle.std.specs.Prelude.{◌≡◌, ◌<◌, ◌∷◌, ◌++◌, ℕ, List, Some, [], length, is_some, IfOk, OnOk, IsTrue};
ghost use Rattle.std.specs.List.{All};
ghost use Rattle.inc_lookup.specs.declared.projects.DirectiveId as lookup;
ghost use Rattle.inc_graph.specs.Cuts.{directives_of};
ghost use Rattle.inc_answers.specs.Changes.{AreRising, changes, first_lines};
ghost use Rattle.inc_answers.specs.ChangeSteps.{change_at};
ghost use Rattle.inc_answers.specs.KeptFiles.{OfKept, kept_at};

use crate::edges::edge_at;
use crate::kept_sources::KeptFiles;
use inc_directive::blank_includes;
use inc_graph::{EdgeId, Graph};
use inc_lookup::{DirectiveId, FileId, Project};
use inc_text::Language;
use std::alloc::{AllocError, Global};
use std::marker::Model;

/// A file that changes.
#[derive(Drop)]
pub struct Change<'a> {
    pub path: &'a [u8],
    /// Its bytes as they were read.
    pub before: &'a [u8],
    /// As many bytes, with the directives of a cut blanked.
    pub after: Vec<u8>,
}

impl<'a> Model for Change<'a> {
    ghost use Rattle.std.specs.Prelude.{◌≤◌, length};
    ghost use Rattle.inc_text.specs.declared.devices.TheConstants.{LONGEST_FILE};
    ghost use Rattle.inc_answers.specs.Changes as spec;

    ghost Value = { spec.Change };

    ghost view = { λ c. record { path = c.path.now; before = c.before.now; after = c.after.items } };

    ghost invariant = { λ c. length c.before.now ≤ LONGEST_FILE };
}

/// The directives of edges.
pub fn directives_of(
    alloc: Global,
    graph: &Graph,
    edges: &[EdgeId],
) -> Result<Vec<DirectiveId>, AllocError>
    requires { All (λ i. i < length graph.now.edges) edges.now }
    ensures { IfOk result (λ ids. ids.items ≡ directives_of graph.now edges.now) }
{
    let mut ids = Vec::with_capacity(alloc, edges.len())?;
    for edge in edges {
        let found = edge_at(graph, *edge);
        ids.push(DirectiveId {
            file: found.from,
            line: found.line,
        })?;
    }
    Ok(ids)
}

/// The changes of the files that hold these directives, which are in order of their files.
pub fn changes_of<'a>(
    alloc: Global,
    project: &'a Project<'_>,
    files: &'a KeptFiles,
    directives: &[DirectiveId],
    language: Language,
) -> Result<Vec<Change<'a>>, AllocError>
    requires within { All (λ (d : lookup.DirectiveId). d.file < length project.now.paths) directives.now }
    requires kept { All (λ (d : lookup.DirectiveId). IsTrue (is_some (kept_at files.now d.file))) directives.now }
    requires rising { AreRising 0 directives.now }
    ensures { IfOk result (λ found. OfKept files.now project.now (λ listing.
        found.items ≡ changes language listing directives.now)) }
{
    let mut changes = Vec::new(alloc);
    let mut at = 0;
    while at < directives.len() {
        let file = directives[at].file;
        let lines = first_lines(alloc, &directives[at..], file)?;
        add_change(&mut changes, alloc, project, files, file, &lines, language)?;
        at += lines.len();
    }
    Ok(changes)
}

/// The lines of the first directives of a list, up to one that is in another file.
fn first_lines(
    alloc: Global,
    directives: &[DirectiveId],
    file: FileId,
) -> Result<Vec<u32>, AllocError>
    ensures { IfOk result (λ lines. lines.items ≡ first_lines file directives.now) }
{
    let mut lines = Vec::new(alloc);
    for directive in directives {
        if directive.file != file {
            return Ok(lines);
        }
        lines.push(directive.line)?;
    }
    Ok(lines)
}

/// Adds the change of a file whose directives on these lines are blanked.
fn add_change<'a>(
    changes: &mut Vec<Change<'a>>,
    alloc: Global,
    project: &'a Project<'_>,
    files: &'a KeptFiles,
    file: FileId,
    lines: &[u32],
    language: Language,
) -> Result<(), AllocError>
    requires within { file < length project.now.paths }
    requires kept { IsTrue (is_some (kept_at files.now file)) }
    ensures { OnOk result ((before : List ℕ) × (kept_at files.now file ≡ Some before)
        × (changes.new.items ≡ changes.old.items ++ change_at project.now language file lines.now before ∷ [])) }
{
    let Some(before) = files.bytes(file) else {
        unreachable!()
    };
    let after = blank_includes(alloc, before, language, lines)?;
    let path = project.path(file);
    changes.push(Change {
        path,
        before,
        after,
    })?;
    Ok(())
}
