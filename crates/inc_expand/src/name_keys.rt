//! Names as keys of a table. A name is hashed by one write of all its bytes.
ghost use Rattle.std.specs.Prelude.{[], ◌∷◌, nat_eq};
ghost use Rattle.std.specs.Cmp.Lexicographic.{pointwise};
ghost use Rattle.std.specs.Ordering.{on};
ghost use Rattle.std.specs.Cmp.Rules.{comparing, hashing};
ghost use Rattle.std.proofs.Common.{rules};

use std::hash::{Hash, Hasher};

/// A name.
#[derive(Clone, Copy)]
pub(crate) struct Name<'a> {
    /// Its bytes.
    pub(crate) bytes: &'a [u8],
}

impl<'a> PartialEq for Name<'a> {
    ghost eq = { on (λ n. n.bytes.now) (pointwise nat_eq) };

    ghost laws = { Prim.search (comparing, rules) };

    fn eq(&self, other: &Name<'a>) -> bool {
        self.bytes == other.bytes
    }
}

impl<'a> Eq for Name<'a> {
    ghost laws = { Prim.search (comparing, rules) };
}

impl<'a> Hash for Name<'a> {
    ghost hash_input = { λ n. n.bytes.now ∷ [] };

    ghost respects_eq = { Prim.search (hashing, rules) };

    fn hash<H: Hasher>(&self, state: &mut H) {
        state.write(self.bytes);
    }
}
