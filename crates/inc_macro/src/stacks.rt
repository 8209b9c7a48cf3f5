//! What `#pragma push_macro` puts aside, and `#pragma pop_macro` takes back.
ghost use Rattle.std.specs.Prelude.{◌≡◌, ℕ, List, [], ◌∷◌, ◌++◌, false, IfOk, IfSome, MatchOption, OnOk, bytes_eq, if◌then◌else◌};
ghost use Rattle.std.specs.List.{AllByRecursion};
ghost use Rattle.inc_macro.specs.Tables.{IsNamed, stack_of};

use crate::named::Named;
use inc_text::{Key, KeyRef, SeededState};
use indexmap::IndexMap;
use std::alloc::{AllocError, Global};
use std::marker::Model;

/// What is put aside of one name, the last of it last: a definition, or `None` where the name had none.
#[derive(Drop)]
struct Stack {
    definitions: Vec<Option<Named>>,
}

impl Model for Stack {
    ghost use Rattle.std.specs.Prelude.{List, Option};
    ghost use Rattle.inc_macro.specs.Macros.{Definition};

    ghost Value = { List (Option Definition) };

    ghost view = { λ s. s.definitions.items };
}

impl Stack {
    /// Nothing.
    fn new(alloc: Global) -> Stack
        ensures { result ≡ [] }
    {
        Stack {
            definitions: Vec::new(alloc),
        }
    }

    /// Puts one more aside.
    fn push(&mut self, definition: Option<Named>) -> Result<(), AllocError>
        ensures { OnOk result (self.new ≡ self.old ++ definition ∷ []) }
    {
        self.definitions.push(definition)?;
        Ok(())
    }

    /// Takes the last back.
    fn pop(&mut self) -> Option<Option<Named>>
        ensures { MatchOption result (self.old ≡ []) (λ definition. self.old ≡ self.new ++ definition ∷ []) }
    {
        self.definitions.pop()
    }
}

/// The stacks of the names of which something is put aside. The names are hashed as those of the table are.
#[derive(Drop)]
pub(crate) struct Stacks {
    map: IndexMap<Key, Stack, SeededState>,
}

impl Model for Stacks {
    ghost use Rattle.inc_macro.specs.Tables.{AreNamed, Stacks as Aside};

    ghost Value = { Aside };

    ghost view = { λ s. s.map.entries };

    ghost invariant = { λ s. AreNamed s.map.entries };
}

impl Stacks {
    /// Nothing is put aside. Takes no memory.
    pub(crate) fn new(alloc: Global, keys: SeededState) -> Stacks
        ensures { result ≡ [] }
    {
        Stacks {
            map: IndexMap::with_hasher(alloc, keys),
        }
    }

    /// Takes out the stack of a name.
    fn take(&mut self, alloc: Global, name: &[u8]) -> Stack
        ensures stack { result ≡ stack_of self.old name.now }
        ensures named { AllByRecursion (IsNamed name.now) result }
        ensures others { (other : List ℕ) → stack_of self.new other
            ≡ (if bytes_eq name.now other then [] else stack_of self.old other) }
    {
        match self.map.swap_remove(KeyRef { bytes: name }) {
            Some(stack) => stack,
            None => Stack::new(alloc),
        }
    }

    /// Has this as the stack of a name.
    fn put(&mut self, alloc: Global, name: &[u8], stack: Stack) -> Result<(), AllocError>
        requires { AllByRecursion (IsNamed name.now) stack }
        ensures { OnOk result ((other : List ℕ) → stack_of self.new other
            ≡ (if bytes_eq name.now other then stack else stack_of self.old other)) }
    {
        let key = Key::copied(alloc, name)?;
        self.map.insert(key, stack)?;
        Ok(())
    }

    /// Puts what a name has aside: its definition, or none.
    pub(crate) fn push(
        &mut self,
        alloc: Global,
        name: &[u8],
        definition: Option<Named>,
    ) -> Result<(), AllocError>
        requires { IsNamed name.now definition }
        ensures { OnOk result ((other : List ℕ) → stack_of self.new other
            ≡ (if bytes_eq name.now other then stack_of self.old name.now ++ definition ∷ [] else stack_of self.old other)) }
    {
        let mut stack = self.take(alloc, name);
        stack.push(definition)?;
        self.put(alloc, name, stack)?;
        Ok(())
    }

    /// Takes back what was put aside of a name last, if something is.
    pub(crate) fn pop(
        &mut self,
        alloc: Global,
        name: &[u8],
    ) -> Result<Option<Option<Named>>, AllocError>
        ensures last { IfOk result (λ popped. MatchOption popped ((stack_of self.old name.now ≡ []) × (stack_of self.new name.now ≡ []))
            (λ definition. stack_of self.old name.now ≡ stack_of self.new name.now ++ definition ∷ [])) }
        ensures named { IfOk result (λ popped. IfSome popped (IsNamed name.now)) }
        ensures others { OnOk result ((other : List ℕ) → bytes_eq name.now other ≡ false →
            stack_of self.new other ≡ stack_of self.old other) }
    {
        let mut stack = self.take(alloc, name);
        match stack.pop() {
            Some(definition) => {
                self.put(alloc, name, stack)?;
                Ok(Some(definition))
            }
            None => Ok(None),
        }
    }
}
