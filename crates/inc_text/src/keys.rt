//! Keys of tables that a source chooses: bytes, hashed in one write after a seed.
ghost use Rattle.std.specs.Prelude.{◌≡◌, [], ◌∷◌, IfOk, bytes_eq, nat_eq};
ghost use Rattle.std.specs.Cmp.Lexicographic.{pointwise, nat_list_eq_equiv};
ghost use Rattle.std.specs.Cmp.{partial_equiv_from_equiv};
ghost use Rattle.std.specs.Ordering.{on};
ghost use Rattle.std.specs.Cmp.Rules.{comparing, hashing};
ghost use Rattle.std.proofs.Common.{rules};
ghost use Rattle.inc_text.specs.Keys.{seeded};

use indexmap::Equivalent;
use std::alloc::{AllocError, Global};
use std::hash::{BuildHasher, DefaultHasher, Hash, Hasher};
use std::marker::Model;

/// Begins each hash with a seed, so that whoever writes the keys of a table cannot choose ones that collide unless the seed
/// is known. The hash is SipHash-1-3 of the eight bytes of the seed and of what is written after them.
#[derive(Clone, Copy)]
pub struct SeededState {
    seed: u64,
}

impl SeededState {
    /// Hashes that begin with this seed, which a program takes anew for each run.
    pub fn new(seed: u64) -> SeededState
        ensures { result ≡ record { seed = seed } }
    {
        SeededState { seed }
    }
}

impl BuildHasher for SeededState {
    type Hasher = DefaultHasher;

    ghost build_hasher = { seeded };

    fn build_hasher(&self) -> DefaultHasher {
        let mut hasher = DefaultHasher::new();
        hasher.write_u64(self.seed);
        hasher
    }
}

/// A key that a table owns. It is hashed by one write of all its bytes.
#[derive(Drop)]
pub struct Key {
    bytes: Vec<u8>,
}

impl Model for Key {
    ghost use Rattle.std.specs.Prelude.{ℕ, List};

    ghost Value = { List ℕ };

    ghost view = { λ k. k.bytes.items };
}

impl Key {
    /// The key with these bytes. It takes no memory.
    pub fn from_bytes(bytes: Vec<u8>) -> Key
        ensures { result ≡ bytes.items }
    {
        Key { bytes }
    }

    /// A key with a copy of these bytes.
    pub fn copied(alloc: Global, bytes: &[u8]) -> Result<Key, AllocError>
        ensures { IfOk result (λ key. key ≡ bytes.now) }
    {
        Ok(Key::from_bytes(Vec::from_slice(alloc, bytes)?))
    }

    /// Its bytes.
    pub fn bytes(&self) -> &[u8]
        ensures { result.now ≡ self.now }
    {
        &self.bytes
    }
}

impl PartialEq for Key {
    ghost eq = { pointwise nat_eq };

    ghost laws = { partial_equiv_from_equiv nat_list_eq_equiv };

    fn eq(&self, other: &Key) -> bool {
        self.bytes == other.bytes
    }
}

impl Eq for Key {
    ghost laws = { nat_list_eq_equiv };
}

impl Hash for Key {
    ghost hash_input = { λ k. k ∷ [] };

    ghost respects_eq = { Prim.search (hashing, rules) };

    fn hash<H: Hasher>(&self, state: &mut H) {
        state.write(&self.bytes);
    }
}

/// A key to look for, which borrows its bytes. It is hashed as a [`Key`] is.
#[derive(Clone, Copy)]
pub struct KeyRef<'a> {
    /// Its bytes.
    pub bytes: &'a [u8],
}

impl<'a> PartialEq for KeyRef<'a> {
    ghost eq = { on (λ k. k.bytes.now) (pointwise nat_eq) };

    ghost laws = { Prim.search (comparing, rules) };

    fn eq(&self, other: &KeyRef<'a>) -> bool {
        self.bytes == other.bytes
    }
}

impl<'a> Eq for KeyRef<'a> {
    ghost laws = { Prim.search (comparing, rules) };
}

impl<'a> Hash for KeyRef<'a> {
    ghost hash_input = { λ k. k.bytes.now ∷ [] };

    ghost respects_eq = { Prim.search (hashing, rules) };

    fn hash<H: Hasher>(&self, state: &mut H) {
        state.write(self.bytes);
    }
}

impl<'a> Equivalent<Key> for KeyRef<'a> {
    ghost equivalent = { λ k key. bytes_eq k.bytes.now key };

    ghost respects_hash = { λ k key. Prim.search (hashing, rules) };

    ghost respects_eq = { λ k x y. nat_list_eq_equiv.congr k.bytes.now x y };

    fn equivalent(&self, key: &Key) -> bool {
        self.bytes == key.bytes.as_slice()
    }
}
