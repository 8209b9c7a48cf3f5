//! Definitions as they are in a table.
ghost use Rattle.std.specs.Prelude.{◌≡◌, [], ◌∷◌, IfOk, bytes_eq, nat_eq};
ghost use Rattle.std.specs.Cmp.Lexicographic.{pointwise, nat_list_eq_equiv};
ghost use Rattle.std.specs.Ordering.{on};
ghost use Rattle.std.specs.Cmp.Rules.{comparing, hashing};
ghost use Rattle.std.proofs.Common.{rules};

use crate::definitions::Definition;
use inc_text::KeyRef;
use indexmap::Equivalent;
use std::alloc::{AllocError, Global};
use std::hash::{Hash, Hasher};
use std::marker::Model;
use std::rc::Rc;

/// A definition in one place, or in several.
#[derive(Drop)]
enum Held {
    /// The only one that has it.
    Own(Definition),
    /// One of those that have it.
    Shared(Rc<Definition>),
}

/// A definition that a table tells apart from others by its name alone, so that the table keeps no copy of the name. It is hashed by
/// one write of all bytes of its name, as a [`KeyRef`] is. What is put aside shares it, however large its body is; a definition that
/// never is needs no allocation of its own.
#[derive(Drop)]
pub(crate) struct Named {
    held: Held,
}

impl Model for Named {
    ghost use Rattle.inc_macro.specs.Macros.{Definition as Defined};
    ghost use Rattle.inc_macro.specs.Holders.{held_definition};

    ghost Value = { Defined };

    ghost view = { λ n. held_definition n.held };
}

impl Named {
    /// This definition.
    pub(crate) fn new(definition: Definition) -> Named
        ensures { result ≡ definition }
    {
        Named {
            held: Held::Own(definition),
        }
    }

    /// The same definition twice, of which no copy is made.
    pub(crate) fn shared(self, alloc: Global) -> Result<(Named, Named), AllocError>
        ensures { IfOk result (λ both. (both.0 ≡ self) × (both.1 ≡ self)) }
    {
        let one = self.into_shared(alloc)?;
        let other = one.clone()?;
        Ok((
            Named {
                held: Held::Shared(one),
            },
            Named {
                held: Held::Shared(other),
            },
        ))
    }

    /// This definition as one that can be shared.
    fn into_shared(self, alloc: Global) -> Result<Rc<Definition>, AllocError>
        ensures { IfOk result (λ one. one.value ≡ self) }
    {
        match self.held {
            Held::Own(definition) => {
                let one = Rc::new(alloc, definition)?;
                Ok(one)
            }
            Held::Shared(one) => Ok(one),
        }
    }

    /// The definition.
    #[inline(always)]
    pub(crate) fn definition(&self) -> &Definition
        ensures { result.now ≡ self.now }
    {
        match &self.held {
            Held::Own(definition) => definition,
            Held::Shared(definition) => definition.as_ref(),
        }
    }
}

impl PartialEq for Named {
    ghost eq = { on (λ n. n.name) (pointwise nat_eq) };

    ghost laws = { Prim.search (comparing, rules) };

    fn eq(&self, other: &Named) -> bool {
        self.definition().name() == other.definition().name()
    }
}

impl Eq for Named {
    ghost laws = { Prim.search (comparing, rules) };
}

impl Hash for Named {
    ghost hash_input = { λ n. n.name ∷ [] };

    ghost respects_eq = { Prim.search (hashing, rules) };

    fn hash<H: Hasher>(&self, state: &mut H) {
        state.write(self.definition().name());
    }
}

impl<'a> Equivalent<Named> for KeyRef<'a> {
    ghost equivalent = { λ k n. bytes_eq k.bytes.now n.name };

    ghost respects_hash = { λ k n. Prim.search (hashing, rules) };

    ghost respects_eq = { λ k m n. nat_list_eq_equiv.congr k.bytes.now m.name n.name };

    fn equivalent(&self, key: &Named) -> bool {
        self.bytes == key.definition().name()
    }
}
