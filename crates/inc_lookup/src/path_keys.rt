//! The paths of a table.
ghost use Rattle.std.specs.Prelude.{◌≡◌, [], ◌∷◌, IfOk, bytes_eq, nat_eq};
ghost use Rattle.std.specs.Cmp.Lexicographic.{pointwise, nat_list_eq_equiv};
ghost use Rattle.std.specs.Cmp.{partial_equiv_from_equiv};
ghost use Rattle.std.specs.Cmp.Rules.{hashing};
ghost use Rattle.std.proofs.Common.{rules};

use inc_text::KeyRef;
use indexmap::Equivalent;
use smallvec::SmallVec;
use std::alloc::{AllocError, Global};
use std::hash::{Hash, Hasher};
use std::marker::Model;

/// A path of so many bytes takes no allocation of its own.
const SHORT_PATH: usize = 16;

/// A path as the key of a table, in no more room than it needs. It is hashed by one write of all its bytes, as a [`KeyRef`] is.
#[derive(Drop)]
pub(crate) struct PathKey {
    bytes: SmallVec<u8, SHORT_PATH>,
}

impl Model for PathKey {
    ghost use Rattle.std.specs.Prelude.{ℕ, List};

    ghost Value = { List ℕ };

    ghost view = { λ k. k.bytes.items };
}

impl PathKey {
    /// A key with a copy of these bytes.
    pub fn copied(alloc: Global, bytes: &[u8]) -> Result<PathKey, AllocError>
        ensures { IfOk result (λ key. key ≡ bytes.now) }
    {
        let bytes = SmallVec::from_slice(alloc, bytes)?;
        Ok(PathKey { bytes })
    }

    /// Its bytes.
    pub fn bytes(&self) -> &[u8]
        ensures { result.now ≡ self.now }
    {
        self.bytes.as_slice()
    }
}

impl PartialEq for PathKey {
    ghost eq = { pointwise nat_eq };

    ghost laws = { partial_equiv_from_equiv nat_list_eq_equiv };

    fn eq(&self, other: &PathKey) -> bool {
        self.bytes() == other.bytes()
    }
}

impl Eq for PathKey {
    ghost laws = { nat_list_eq_equiv };
}

impl Hash for PathKey {
    ghost hash_input = { λ k. k ∷ [] };

    ghost respects_eq = { Prim.search (hashing, rules) };

    fn hash<H: Hasher>(&self, state: &mut H) {
        state.write(self.bytes());
    }
}

impl<'a> Equivalent<PathKey> for KeyRef<'a> {
    ghost equivalent = { λ k key. bytes_eq k.bytes.now key };

    ghost respects_hash = { λ k key. Prim.search (hashing, rules) };

    ghost respects_eq = { λ k x y. nat_list_eq_equiv.congr k.bytes.now x y };

    fn equivalent(&self, key: &PathKey) -> bool {
        self.bytes == key.bytes()
    }
}
