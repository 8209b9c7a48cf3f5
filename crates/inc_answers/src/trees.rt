//! The trees of sources: what comes in through each file, or the files on the way to each.
ghost use Rattle.std.specs.Prelude.{◌≡◌, ◌<◌, ◌++◌, [], None, false, codes, flat_map, length, replicate, IfOk, IfSome, IfErr};
ghost use Rattle.std.specs.List.{All};
ghost use Rattle.inc_cost.specs.Trees.{IsFor, own};
ghost use Rattle.inc_cost.specs.declared.branches.Branch as spec;
ghost use Rattle.inc_cost.specs.declared.trees.Node as nodes;
ghost use Rattle.inc_lookup.specs.Given.{HoldsOfGiven};
ghost use Rattle.inc_answers.specs.Numbers.{count_text};
ghost use Rattle.inc_answers.specs.Questions.{FailsAt};
ghost use Rattle.inc_answers.specs.Sending.{Sends};
ghost use Rattle.inc_answers.specs.Strictness.{Strict, strays_of};
ghost use Rattle.inc_answers.specs.TreeText.{AreTreesBy, AreTreesFor, branch_line, folded_text, more_names, stack_line, stack_names, stacks_from, tree_branches, tree_text};
ghost use Rattle.inc_answers.specs.Writing.{Prints, Writes, is_of_certificate, unread_of};
ghost use Rattle.inc_answers.specs.declared.trees.TreeForm.TheVariants.{Folded, Lines};

use crate::answer_notes::empty_notes;
use crate::asked::Question;
use crate::cost::{send_total, send_unknown};
use crate::lines::{send_count_line, send_line, send_number};
use crate::outcome::{End, EndKind, RunFault, noted};
use crate::output::Output;
use crate::questions::{find_graph, refuse_question};
use crate::sized_sources::SizedSources;
use crate::stack_names::send_name;
use crate::strictness::{refuse_strays, strays_of};
use crate::ways::Way;
use inc_cost::{Branch, Node, TreeWalk, branches_of, forest, own_weight, total};
use inc_graph::Graph;
use inc_lookup::{FileId, Project, Sources};
use inc_text::ByteSink;
use std::alloc::{AllocError, Global};

/// How trees are written.
#[derive(Clone, Copy, Debug, PartialEq, Eq)]
pub enum TreeForm {
    /// A line for each file with what comes in through it, in the order of the trees.
    Lines,
    /// A line for each file that has bytes: the files on the way to it, and how many bytes it has.
    Folded,
}

/// Writes the trees of sources: the files that each reaches, in the order in which one meets them who follows each directive where it stands,
/// and goes into no file of a source twice. In lines with what comes in through each file, what it has itself, and by how many directives it is
/// reached; or as stacks, from the source to the file. Headers that are not found are noted.
///
/// The sources are given back with the sink. Files are read when they are reached, each once, and of their bytes none is kept. All memory is
/// taken before the first byte is written: stacks need none that grows with how many sources there are.
pub fn run_trees<S: Sources, W: ByteSink>(
    alloc: Global,
    project: &Project<'_>,
    sources: S,
    question: &Question<'_>,
    form: TreeForm,
    w: W,
) -> (Result<End, RunFault>, S, W)
    requires { W.has_failed w ≡ false }
    ensures written { Writes (λ p. HoldsOfGiven S.gives sources result.1 project.now
        (AreTreesBy form question.now p))
        (W.written w) (W.written result.2) (W.has_failed result.2) result.0 }
    ensures unread { IfErr result.0 (λ fault. IfSome (unread_of fault)
        (FailsAt S.gives sources result.1 project.now question.now)) }
    ensures certificate { IfErr result.0 (λ f. is_of_certificate f ≡ false) }
{
    let mut out = match Output::new(alloc, w) {
        Ok(out) => out,
        Err(w) => return (Err(RunFault::NoMemory), sources, w),
    };
    let mut sized = match SizedSources::new(alloc, sources, project.count()) {
        Ok(sized) => sized,
        Err(sources) => return (Err(RunFault::NoMemory), sources, out.into_sink()),
    };
    let ended = grow(alloc, project, &mut sized, question, form, &mut out);
    let (result, w) = out.finish(ended);
    (result, sized.into_sources(), w)
}

/// Sends the trees of the sources of a question, or why there is no answer.
fn grow<S: Sources, W: ByteSink>(
    alloc: Global,
    project: &Project<'_>,
    sized: &mut SizedSources<S>,
    question: &Question<'_>,
    form: TreeForm,
    out: &mut Output<W>,
) -> Result<End, RunFault>
    requires { sized.old.sizes.items ≡ replicate (length project.now.paths) 0 }
    ensures sent { Prints (λ p. HoldsOfGiven S.gives sized.old.sources sized.new.sources project.now
        (AreTreesBy form question.now p)) out.old out.new result }
    ensures unread { IfErr result (λ fault. IfSome (unread_of fault)
        (FailsAt S.gives sized.old.sources sized.new.sources project.now question.now)) }
    ensures certificate { IfErr result (λ f. is_of_certificate f ≡ false) }
{
    match find_graph(alloc, project, sized, question) {
        Ok(graph) => {
            let sizes = &sized.sizes;
            grow_strictly(alloc, project, question, &graph, sizes, form, out)
        }
        Err(cause) => refuse_question(alloc, project, question, cause, out),
    }
}

/// Sends the trees of the sources of a graph, or the refusal of directives whose header is not found.
fn grow_strictly<W: ByteSink>(
    alloc: Global,
    project: &Project<'_>,
    question: &Question<'_>,
    graph: &Graph,
    sizes: &[u32],
    form: TreeForm,
    out: &mut Output<W>,
) -> Result<End, RunFault>
    requires files { graph.now.files ≡ length project.now.paths }
    ensures sent { Prints (Strict (strays_of question.now) (AreTreesFor form sizes.now) project.now graph.now) out.old out.new result }
    ensures read { IfErr result (λ f. unread_of f ≡ None) }
    ensures certificate { IfErr result (λ f. is_of_certificate f ≡ false) }
{
    let strays = strays_of(alloc, question, graph)?;
    if strays.is_empty() {
        return send_trees(alloc, project, graph, sizes, form, out);
    }
    refuse_strays(alloc, project, graph, &strays, out)
}

/// Sends the trees of the sources of a graph.
fn send_trees<W: ByteSink>(
    alloc: Global,
    project: &Project<'_>,
    graph: &Graph,
    sizes: &[u32],
    form: TreeForm,
    out: &mut Output<W>,
) -> Result<End, RunFault>
    requires { graph.now.files ≡ length project.now.paths }
    ensures sent { Prints (AreTreesFor form sizes.now project.now graph.now) out.old out.new result }
    ensures read { IfErr result (λ f. unread_of f ≡ None) }
    ensures certificate { IfErr result (λ f. is_of_certificate f ≡ false) }
{
    match form {
        TreeForm::Lines => send_lines(alloc, project, graph, sizes, out),
        TreeForm::Folded => send_folded(alloc, project, graph, sizes, out),
    }
}

/// Sends a line for each file of the trees of a graph.
fn send_lines<W: ByteSink>(
    alloc: Global,
    project: &Project<'_>,
    graph: &Graph,
    sizes: &[u32],
    out: &mut Output<W>,
) -> Result<End, RunFault>
    requires { graph.now.files ≡ length project.now.paths }
    ensures sent { Prints (AreTreesFor Lines sizes.now project.now graph.now) out.old out.new result }
    ensures read { IfErr result (λ f. unread_of f ≡ None) }
    ensures certificate { IfErr result (λ f. is_of_certificate f ≡ false) }
{
    let total = total(alloc, graph, sizes, &[])?;
    let branches = tree_branches(alloc, graph, sizes)?;
    let notes = empty_notes(alloc, project, graph)?;
    send_tree(out, project, graph, total, &branches);
    Ok(noted(EndKind::Answered, notes))
}

/// The files of the trees of all sources, with what they weigh.
pub fn tree_branches(alloc: Global, graph: &Graph, sizes: &[u32]) -> Result<Vec<Branch>, AllocError>
    ensures branches { IfOk result (λ found. found.items ≡ tree_branches sizes.now graph.now) }
    ensures within { IfOk result (λ found. All (λ (b : spec.Branch). b.file < graph.now.files) found.items) }
{
    let nodes = forest(alloc, graph)?;
    let branches = branches_of(alloc, sizes, &nodes)?;
    Ok(branches)
}

/// Sends what all sources reach together, and the files of their trees.
fn send_tree<W: ByteSink>(
    out: &mut Output<W>,
    project: &Project<'_>,
    graph: &Graph,
    total: u64,
    branches: &[Branch],
)
    requires { All (λ (b : spec.Branch). b.file < length project.now.paths) branches.now }
    ensures { Sends out.old out.new (tree_text project.now graph.now total branches.now) }
{
    send_total(out, total, graph.sources().len());
    send_branches(out, project, branches);
    send_unknown(out, graph);
}

/// Sends how many files there are, and each.
fn send_branches<W: ByteSink>(out: &mut Output<W>, project: &Project<'_>, branches: &[Branch])
    requires { All (λ (b : spec.Branch). b.file < length project.now.paths) branches.now }
    ensures { Sends out.old out.new (count_text (codes "tree") (length branches.now)
        ++ flat_map (branch_line project.now) branches.now) }
{
    send_count_line(out, b"tree", branches.len());
    send_each_branch(out, project, branches);
}

/// Sends each of some files.
fn send_each_branch<W: ByteSink>(out: &mut Output<W>, project: &Project<'_>, branches: &[Branch])
    requires { All (λ (b : spec.Branch). b.file < length project.now.paths) branches.now }
    ensures { Sends out.old out.new (flat_map (branch_line project.now) branches.now) }
{
    for branch in branches {
        send_branch(out, project, branch);
    }
}

/// Sends what comes in through a file, what it has itself, how deep it is, and its path.
fn send_branch<W: ByteSink>(out: &mut Output<W>, project: &Project<'_>, branch: &Branch)
    requires { branch.now.file < length project.now.paths }
    ensures { Sends out.old out.new (branch_line project.now branch.now) }
{
    send_number(out, branch.whole);
    out.send(b" ");
    send_number(out, u64::from(branch.own));
    out.send(b" ");
    send_number(out, u64::from(branch.depth));
    out.send(b" ");
    send_line(out, project.path(branch.file));
}

/// Sends the stacks of the trees of a graph.
fn send_folded<W: ByteSink>(
    alloc: Global,
    project: &Project<'_>,
    graph: &Graph,
    sizes: &[u32],
    out: &mut Output<W>,
) -> Result<End, RunFault>
    requires { graph.now.files ≡ length project.now.paths }
    ensures sent { Prints (AreTreesFor Folded sizes.now project.now graph.now) out.old out.new result }
    ensures read { IfErr result (λ f. unread_of f ≡ None) }
    ensures certificate { IfErr result (λ f. is_of_certificate f ≡ false) }
{
    let mut walk = TreeWalk::new(alloc, graph)?;
    let mut way = Way::new(alloc, graph)?;
    let notes = empty_notes(alloc, project, graph)?;
    send_each_source(out, project, graph, sizes, &mut walk, &mut way);
    Ok(noted(EndKind::Answered, notes))
}

/// Sends the stacks of each source.
fn send_each_source<W: ByteSink>(
    out: &mut Output<W>,
    project: &Project<'_>,
    graph: &Graph,
    sizes: &[u32],
    walk: &mut TreeWalk,
    way: &mut Way,
)
    requires files { graph.now.files ≡ length project.now.paths }
    requires walk { IsFor graph.now walk.old }
    requires room { way.old.room ≡ walk.old.room }
    ensures { Sends out.old out.new (folded_text project.now graph.now sizes.now) }
{
    for source in graph.sources() {
        walk.walk(graph, *source);
        send_stacks(out, project, sizes, walk, way);
    }
}

/// Sends the stacks of the tree of a walk.
fn send_stacks<W: ByteSink>(
    out: &mut Output<W>,
    project: &Project<'_>,
    sizes: &[u32],
    walk: &TreeWalk,
    way: &mut Way,
)
    requires within { All (λ (n : nodes.Node). n.file < length project.now.paths) walk.now.tree }
    requires room { way.old.room ≡ walk.now.room }
    ensures sent { Sends out.old out.new (stacks_from project.now sizes.now [] walk.now.tree) }
    ensures room { way.new.room ≡ way.old.room }
{
    way.clear();
    for node in walk.nodes() {
        way.step(node);
        send_stack(out, project, way.files(), own_weight(sizes, node));
    }
}

/// Sends the files on the way to one that has bytes, and how many.
fn send_stack<W: ByteSink>(out: &mut Output<W>, project: &Project<'_>, way: &[FileId], bytes: u32)
    requires { All (λ f. f < length project.now.paths) way.now }
    ensures { Sends out.old out.new (stack_line project.now way.now bytes) }
{
    if bytes == 0 {
        return;
    }
    send_names(out, project, way);
    out.send(b" ");
    send_number(out, u64::from(bytes));
    out.send(b"\n");
}

/// Sends the names of files, with `;` between them.
fn send_names<W: ByteSink>(out: &mut Output<W>, project: &Project<'_>, way: &[FileId])
    requires { All (λ f. f < length project.now.paths) way.now }
    ensures { Sends out.old out.new (stack_names project.now way.now) }
{
    if way.is_empty() {
        return;
    }
    send_name(out, project.path(way[0]));
    send_more_names(out, project, &way[1..]);
}

/// Sends the names of files, each behind `;`.
fn send_more_names<W: ByteSink>(out: &mut Output<W>, project: &Project<'_>, way: &[FileId])
    requires { All (λ f. f < length project.now.paths) way.now }
    ensures { Sends out.old out.new (more_names project.now way.now) }
{
    for file in way {
        out.send(b";");
        send_name(out, project.path(*file));
    }
}
