//! What the nodes of trees weigh, each with all below it.
ghost use Rattle.std.specs.Prelude.{◌≡◌, ◌<◌, ◌+◌, ◌∷◌, [], List, length, reverse, IfNone, IfOk, IfSome, OnOk};
ghost use Rattle.std.specs.Option.{option_map_or};
ghost use Rattle.inc_cost.specs.Branches.{AreHeld, behind, held_below};
ghost use Rattle.inc_cost.specs.Trees.{branches};
ghost use Rattle.inc_cost.specs.declared.trees.Node.{Node};

use crate::totals::weight;
use crate::trees::Node;
use inc_lookup::FileId;
use std::alloc::{AllocError, Global};
use std::marker::Model;

/// A node of a tree with what it weighs.
#[derive(Clone, Copy, Debug, PartialEq, Eq)]
pub struct Branch {
    /// Its file.
    pub file: FileId,
    /// By how many directives, one after the other, it was met from the source.
    pub depth: u32,
    /// What the file weighs.
    pub own: u32,
    /// What it weighs with all files below it.
    pub whole: u64,
}

/// The nodes of trees, which stand one after the other, with what they weigh. No step is taken over a node twice.
pub fn branches_of(
    alloc: Global,
    weights: &[u32],
    nodes: &[Node],
) -> Result<Vec<Branch>, AllocError>
    ensures { IfOk result (λ found. found.items ≡ branches weights.now nodes.now) }
{
    let mut held = Held::none(alloc);
    let mut found = Vec::with_capacity(alloc, nodes.len())?;
    let mut place = nodes.len();
    while place > 0 {
        place -= 1;
        found.push(held.branch(weights, &nodes[place])?)?;
    }
    found.reverse();
    Ok(found)
}

/// What a node weighs with all below it that stand behind it.
#[derive(Clone, Copy, Debug, PartialEq, Eq)]
struct Part {
    depth: u32,
    whole: u64,
}

/// The nodes behind a place up to the end that none of them before it has above it, the first of them first.
#[derive(Drop)]
struct Held {
    parts: Vec<Part>,
}

impl Model for Held {
    ghost use Rattle.std.specs.Prelude.{List, reverse};
    ghost use Rattle.inc_cost.specs.declared.branches.Part.{Part};

    ghost Value = { List Part };

    ghost view = { λ h. reverse h.parts.items };
}

impl Held {
    /// None.
    fn none(alloc: Global) -> Held
        ensures { result ≡ [] }
    {
        Held {
            parts: Vec::new(alloc),
        }
    }

    /// What a node weighs that stands before those that are held, which it then takes the place of where they are below it.
    fn branch(&mut self, weights: &[u32], node: &Node) -> Result<Branch, AllocError>
        ensures branch { IfOk result (λ b. (nodes : List Node) → AreHeld weights.now nodes self.old → branches weights.now (node.now ∷ nodes) ≡ b ∷ branches weights.now nodes) }
        ensures held { OnOk result ((nodes : List Node) → AreHeld weights.now nodes self.old → AreHeld weights.now (node.now ∷ nodes) self.new) }
    {
        let own = weight(weights, node.file);
        let under = self.take_below(node.depth)?;
        let whole = sum(u64::from(own), under)?;
        self.push(node.depth, whole)?;
        Ok(Branch {
            file: node.file,
            depth: node.depth,
            own,
            whole,
        })
    }

    /// Takes those that are deeper, and returns what they weigh.
    fn take_below(&mut self, depth: u32) -> Result<u64, AllocError>
        ensures sum { IfOk result (λ n. n ≡ held_below depth self.old) }
        ensures behind { OnOk result (self.new ≡ behind depth self.old) }
    {
        let mut total = 0;
        while let Some(whole) = self.pop_below(depth) {
            total = sum(total, whole)?;
        }
        Ok(total)
    }

    /// Takes the first where it is deeper.
    fn pop_below(&mut self, depth: u32) -> Option<u64>
        ensures sum { option_map_or (λ n. n + held_below depth self.new) result 0 ≡ held_below depth self.old }
        ensures behind { behind depth self.new ≡ behind depth self.old }
        ensures fewer { IfSome result (λ n. length self.new < length self.old) }
        ensures none { IfNone result (self.new ≡ behind depth self.old) }
    {
        match self.parts.last() {
            Some(part) if part.depth > depth => {
                let whole = part.whole;
                self.parts.pop();
                Some(whole)
            }
            _ => None,
        }
    }

    /// Puts one before the others.
    fn push(&mut self, depth: u32, whole: u64) -> Result<(), AllocError>
        ensures { OnOk result (self.new ≡ record { depth = depth; whole = whole } ∷ self.old) }
    {
        self.parts.push(Part { depth, whole })?;
        Ok(())
    }
}

/// The sum of two amounts. All files together have fewer bytes than 64 bits count.
fn sum(a: u64, b: u64) -> Result<u64, AllocError>
    ensures { IfOk result (λ n. n ≡ a + b) }
{
    match a.checked_add(b) {
        Some(sum) => Ok(sum),
        None => Err(AllocError),
    }
}
