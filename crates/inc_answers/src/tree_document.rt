//! The document in which `cost` shows the trees of sources.
ghost use Rattle.std.specs.Prelude.{◌≡◌, ◌<◌, ◌++◌, ◌∷◌, [], length, map, replicate, IfOk, OnOk};
ghost use Rattle.std.specs.List.{All};
ghost use Rattle.inc_cost.specs.declared.branches.Branch.{Branch};
ghost use Rattle.inc_answers.specs.Documents as spec;
ghost use Rattle.inc_answers.specs.TreeDocument.{branch_block, branch_words, indent, tree_document};

use crate::cost_document::add_total;
use crate::documents::{Document, put_counted};
use crate::missing_notes::put_shown;
use crate::why_document::add_unresolved;
use inc_cost::Branch;
use inc_graph::Graph;
use inc_lookup::Project;
use std::alloc::{AllocError, Global};

/// By how many directives, one after the other, lines are indented at most: trees can be as deep as there are files.
const MOST_DEEP: u32 = 100;

/// The document of the files of trees.
pub fn tree_document(
    alloc: Global,
    project: &Project<'_>,
    graph: &Graph,
    total: u64,
    branches: &[Branch],
) -> Result<Document, AllocError>
    requires { All (λ (b : Branch). b.file < length project.now.paths) branches.now }
    ensures { IfOk result (λ document. document ≡ tree_document project.now graph.now total branches.now) }
{
    let mut document = Document::new(alloc);
    add_total(&mut document, alloc, total, graph.sources().len())?;
    add_branches(&mut document, alloc, project, branches)?;
    add_unresolved(&mut document, alloc, graph, true)?;
    Ok(document)
}

/// Adds a line for each file.
fn add_branches(
    document: &mut Document,
    alloc: Global,
    project: &Project<'_>,
    branches: &[Branch],
) -> Result<(), AllocError>
    requires { All (λ (b : Branch). b.file < length project.now.paths) branches.now }
    ensures { OnOk result (document.new ≡ document.old ++ map (branch_block project.now) branches.now) }
{
    for branch in branches {
        add_branch(document, alloc, project, branch)?;
    }
    Ok(())
}

/// Adds what comes in through a file.
fn add_branch(
    document: &mut Document,
    alloc: Global,
    project: &Project<'_>,
    branch: &Branch,
) -> Result<(), AllocError>
    requires { branch.now.file < length project.now.paths }
    ensures { OnOk result (document.new ≡ document.old ++ branch_block project.now branch.now ∷ []) }
{
    let mut text = Vec::new(alloc);
    put_branch(&mut text, project, branch)?;
    document.add_words(text)
}

/// Puts what comes in through a file, and what it has itself.
fn put_branch(text: &mut Vec<u8>, project: &Project<'_>, branch: &Branch) -> Result<(), AllocError>
    requires { branch.now.file < length project.now.paths }
    ensures { OnOk result (text.new.items ≡ text.old.items ++ branch_words project.now branch.now) }
{
    put_indent(text, branch.depth)?;
    put_shown(text, project.path(branch.file))?;
    text.extend_from_slice(b": ")?;
    put_counted(text, branch.whole as usize, b" byte, ", b" bytes, ")?;
    put_counted(text, branch.own as usize, b" of its own", b" of its own")
}

/// Puts two spaces for each directive on the way to a file.
fn put_indent(text: &mut Vec<u8>, depth: u32) -> Result<(), AllocError>
    ensures { OnOk result (text.new.items ≡ text.old.items ++ indent depth) }
{
    put_spaces(text, 2 * depth.min(MOST_DEEP))
}

/// Puts so many spaces.
fn put_spaces(text: &mut Vec<u8>, count: u32) -> Result<(), AllocError>
    ensures { OnOk result (text.new.items ≡ text.old.items ++ replicate count 32) }
{
    for _ in 0..count {
        text.push(b' ')?;
    }
    Ok(())
}
