//! The files on the way from a source to a node of its tree.
ghost use Rattle.std.specs.Prelude.{◌≡◌, ◌<◌, ◌≤◌, ◌+◌, [], suc, length, IfOk};
ghost use Rattle.inc_answers.specs.TreeText.{way_to};

use inc_cost::Node;
use inc_graph::Graph;
use inc_lookup::FileId;
use std::alloc::{AllocError, Global};
use std::marker::Model;

/// The files on the way to a node, which changes from node to node. All of its memory is taken when it is made.
#[derive(Drop)]
pub struct Way {
    /// The first `len` of these.
    files: Vec<FileId>,
    len: usize,
}

impl Model for Way {
    ghost use Rattle.std.specs.Prelude.{◌≤◌, length, take};
    ghost use Rattle.inc_answers.specs.Ways.{Held};

    ghost Value = { Held };

    ghost view = { λ w. record { room = length w.files.items; files = take w.len w.files.items } };

    ghost invariant = { λ w. w.len ≤ length w.files.items };
}

impl Way {
    /// A way to no node, with room for the longest in a graph.
    pub fn new(alloc: Global, graph: &Graph) -> Result<Way, AllocError>
        ensures { IfOk result (λ way. way.room ≡ suc (length graph.now.edges)) }
    {
        let room = graph.edges().len() + 1;
        let files = vec![in alloc; graph.first_file(); room]?;
        Ok(Way { files, len: 0 })
    }

    /// Forgets all files.
    pub fn clear(&mut self)
        ensures files { self.new.files ≡ [] }
        ensures room { self.new.room ≡ self.old.room }
    {
        self.len = 0;
    }

    /// Goes on to the next node of a tree.
    pub fn step(&mut self, node: &Node)
        requires { length self.old.files < self.old.room }
        ensures files { self.new.files ≡ way_to self.old.files node.now }
        ensures room { self.new.room ≡ self.old.room }
        ensures longer { length self.new.files ≤ length self.old.files + 1 }
    {
        let at = self.len.min(node.depth as usize);
        self.files[at] = node.file;
        self.len = at + 1;
    }

    /// The files, from the source on.
    pub fn files(&self) -> &[FileId]
        ensures { result.now ≡ self.now.files }
    {
        &self.files[..self.len]
    }
}
