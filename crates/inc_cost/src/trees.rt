//! The trees of sources: what each reaches, in the order in which a walk that follows each directive where it stands meets it.
ghost use Rattle.std.specs.Prelude.{◌≡◌, ◌<◌, ◌≤◌, ◌==◌, ◌+◌, ◌∷◌, [], length, map, not, slice_get, IfOk, IfSome};
ghost use Rattle.std.specs.List.{All};
ghost use Rattle.inc_graph.specs.Indexes.{edges_leaving};
ghost use Rattle.inc_cost.specs.Shares.{AreListed};
ghost use Rattle.inc_cost.specs.Trees.{IsFor, IsWalking, begun, child, files_in, forest, is_met, own, steps_left, tree_of, with_node, with_waiting, without_first};

use crate::totals::weight;
use inc_graph::{Edge, Graph};
use inc_lookup::FileId;
use std::alloc::{AllocError, Global};
use std::marker::Model;

/// A file of a tree.
#[derive(Clone, Copy, Debug, PartialEq, Eq)]
pub struct Node {
    /// The file.
    pub file: FileId,
    /// By how many directives, one after the other, it was met from the source.
    pub depth: u32,
}

/// What the file of a node weighs; nothing where it has no weight.
pub fn own_weight(weights: &[u32], node: &Node) -> u32
    ensures { result ≡ own weights.now node.now }
{
    weight(weights, node.file)
}

/// The trees of all sources of a graph, one after the other.
pub fn forest(alloc: Global, graph: &Graph) -> Result<Vec<Node>, AllocError>
    ensures nodes { IfOk result (λ nodes. nodes.items ≡ forest graph.now graph.now.sources) }
    ensures within { IfOk result (λ nodes. All (λ (n : Node). n.file < graph.now.files) nodes.items) }
{
    let mut walk = TreeWalk::new(alloc, graph)?;
    let mut nodes = Vec::new(alloc);
    for source in graph.sources() {
        walk.walk(graph, *source);
        nodes.extend_from_slice(walk.nodes())?;
    }
    Ok(nodes)
}

/// Room for so many nodes; what is in it says nothing.
fn room_for(alloc: Global, file: FileId, count: usize) -> Result<Vec<Node>, AllocError>
    ensures { IfOk result (λ nodes. length nodes.items ≡ count) }
{
    let nodes = vec![in alloc; Node { file, depth: 0 }; count]?;
    Ok(nodes)
}

/// A walk from one source after the other. All of its memory is taken when it is made.
#[derive(Drop)]
pub struct TreeWalk {
    /// For each file whether it is in the tree.
    flags: Vec<bool>,
    /// The tree so far: the first `count` of these.
    tree: Vec<Node>,
    count: usize,
    /// What waits, the next one first: those from `first` on.
    waiting: Vec<Node>,
    first: usize,
}

impl Model for TreeWalk {
    ghost use Rattle.std.specs.Prelude.{drop, length, take};
    ghost use Rattle.inc_cost.specs.Trees.{Walk, IsKept};

    ghost Value = { Walk };

    ghost view = { λ w. record {
      files = length w.flags.items;
      room = length w.waiting.items;
      tree = take w.count w.tree.items;
      waiting = drop w.first w.waiting.items;
    } };

    ghost invariant = { λ w. IsKept w.flags.items w.tree.items w.count w.waiting.items w.first };
}

impl TreeWalk {
    /// A walk through a graph. The memory is that of some numbers for each file and each edge.
    pub fn new(alloc: Global, graph: &Graph) -> Result<TreeWalk, AllocError>
        ensures { IfOk result (λ walk. IsFor graph.now walk) }
    {
        let room = graph.edges().len() + 1;
        let flags = vec![in alloc; false; graph.files()]?;
        let tree = room_for(alloc, graph.first_file(), room)?;
        let waiting = room_for(alloc, graph.first_file(), room)?;
        Ok(TreeWalk {
            flags,
            tree,
            count: 0,
            waiting,
            first: 0,
        })
    }

    /// The files of the tree, in order.
    pub fn nodes(&self) -> &[Node]
        ensures nodes { result.now ≡ self.now.tree }
        ensures few { length result.now ≤ self.now.room }
    {
        &self.tree[..self.count]
    }

    /// Walks from a source. The time is that of as many steps as the project has files and as edges leave the files that are reached.
    pub fn walk(&mut self, graph: &Graph, source: FileId)
        requires sized { IsFor graph.now self.old }
        requires source { source < graph.now.files }
        ensures tree { self.new.tree ≡ tree_of graph.now source }
        ensures listed { AreListed graph.now source (files_in self.new.tree) }
        ensures within { All (λ (n : Node). n.file < graph.now.files) self.new.tree }
        ensures sized { IsFor graph.now self.new }
    {
        let _sound = graph.files();
        self.begin(source);
        while self.is_going() {
            self.step(graph, source);
        }
    }

    /// Begins with the source alone.
    fn begin(&mut self, source: FileId)
        requires { 0 < self.old.room }
        ensures { self.new ≡ begun self.old source }
    {
        self.flags.fill(false);
        self.count = 0;
        self.first = self.waiting.len() - 1;
        self.waiting[self.first] = Node {
            file: source,
            depth: 0,
        };
    }

    /// Whether something waits.
    fn is_going(&self) -> bool
        ensures { result ≡ not (length self.now.waiting == 0) }
    {
        self.first < self.waiting.len()
    }

    /// Goes on by one step.
    fn step(&mut self, graph: &Graph, _source: FileId)
        requires walking { IsWalking graph.now _source self.old }
        requires going { 0 < length self.old.waiting }
        ensures walking { IsWalking graph.now _source self.new }
        ensures fewer { steps_left graph.now self.new.tree self.new.waiting < steps_left graph.now self.old.tree self.old.waiting }
    {
        let _sound = graph.files();
        let file = self.next_file();
        let depth = self.next_depth();
        self.leave_out();
        if !self.is_met(file) {
            self.put(file, depth);
            self.put_children(graph, file, depth);
        }
    }

    /// The file of the node that waits first.
    fn next_file(&self) -> FileId
        requires { 0 < length self.now.waiting }
        ensures { IfSome (slice_get self.now.waiting 0) (λ n. result ≡ n.file) }
    {
        self.waiting[self.first].file
    }

    /// Its depth.
    fn next_depth(&self) -> u32
        requires { 0 < length self.now.waiting }
        ensures { IfSome (slice_get self.now.waiting 0) (λ n. result ≡ n.depth) }
    {
        self.waiting[self.first].depth
    }

    /// Leaves it out.
    fn leave_out(&mut self)
        requires { 0 < length self.old.waiting }
        ensures { self.new ≡ without_first self.old }
    {
        self.first += 1;
    }

    /// Whether a file is in the tree.
    fn is_met(&self, file: FileId) -> bool
        requires { file < self.now.files }
        ensures { result ≡ is_met self.now.tree file }
    {
        self.flags[file.index()]
    }

    /// Puts a file at the end of the tree.
    fn put(&mut self, file: FileId, depth: u32)
        requires file { file < self.old.files }
        requires room { length self.old.tree < self.old.room }
        ensures { self.new ≡ with_node self.old (record { file = file; depth = depth }) }
    {
        self.flags[file.index()] = true;
        self.tree[self.count] = Node { file, depth };
        self.count += 1;
    }

    /// Puts the files before those that wait to which the edges lead that leave a file, the first of them first.
    fn put_children(&mut self, graph: &Graph, file: FileId, depth: u32)
        requires file { file < graph.now.files }
        requires depth { depth < 4_294_967_295 }
        requires room { length (edges_leaving graph.now.edges file) + length self.old.waiting ≤ self.old.room }
        ensures { self.new ≡ with_waiting self.old (map (child depth) (edges_leaving graph.now.edges file)) }
    {
        let edges = graph.leaving(file);
        let mut place = edges.len();
        while place > 0 {
            place -= 1;
            self.put_child(&edges[place], depth);
        }
    }

    /// Puts the file before those that wait to which an edge leads.
    fn put_child(&mut self, edge: &Edge, depth: u32)
        requires depth { depth < 4_294_967_295 }
        requires room { length self.old.waiting < self.old.room }
        ensures { self.new ≡ with_waiting self.old (child depth edge.now ∷ []) }
    {
        self.first -= 1;
        self.waiting[self.first] = Node {
            file: edge.to,
            depth: depth + 1,
        };
    }
}
