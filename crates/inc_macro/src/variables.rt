//! The variable arguments of macros.
ghost use Rattle.std.specs.Prelude.{◌≡◌, ◌∷◌, [], IfOk, bytes_eq};
ghost use Rattle.inc_macro.specs.Macros.{is_among, is_gnu, named, same_variables, unnamed, with_variable};

use crate::reserved_names::VA_ARGS;
use inc_text::{Key, Language};
use std::alloc::{AllocError, Global};
use std::marker::Model;

/// The variable arguments of a macro.
#[derive(Drop)]
pub struct Variable {
    /// What they are called, where that is not `__VA_ARGS__`.
    own_name: Option<Box<Key>>,
    takes_comma: bool,
}

impl Model for Variable {
    ghost use Rattle.std.specs.Option.{option_map_or};
    ghost use Rattle.inc_macro.specs.Macros.{Variable as VariableArguments, va_args};

    ghost Value = { VariableArguments };

    ghost view = { λ v. record { name = option_map_or (λ b. b.value) v.own_name va_args; takes_comma = v.takes_comma } };
}

impl Variable {
    /// Those that `...` alone stands for.
    pub fn unnamed(language: Language) -> Variable
        ensures { result ≡ unnamed language }
    {
        Variable {
            own_name: None,
            takes_comma: language.is_gnu(),
        }
    }

    /// Those that a name before the `...` stands for, in GNU C.
    pub fn named(alloc: Global, name: &[u8]) -> Result<Variable, AllocError>
        ensures { IfOk result (λ variable. variable ≡ named name.now) }
    {
        let key = Key::copied(alloc, name)?;
        let own_name = Box::new(alloc, key)?;
        Ok(Variable {
            own_name: Some(own_name),
            takes_comma: true,
        })
    }

    /// What they are called.
    fn name(&self) -> &[u8]
        ensures { result.now ≡ self.now.name }
    {
        match &self.own_name {
            Some(key) => key.bytes(),
            None => VA_ARGS,
        }
    }

    /// Whether they are called so.
    pub fn is_called(&self, name: &[u8]) -> bool
        ensures { result ≡ bytes_eq name.now self.now.name }
    {
        name == self.name()
    }

    /// Whether a `,` before a `##` before them goes with them.
    pub fn takes_comma(&self) -> bool
        ensures { result ≡ self.now.takes_comma }
    {
        self.takes_comma
    }
}

/// Whether there are variable arguments, and they are called so.
pub fn is_called(variable: &Option<Variable>, name: &[u8]) -> bool
    ensures { result ≡ is_among name.now (with_variable [] variable.now) }
{
    match variable {
        Some(variable) => variable.is_called(name),
        None => false,
    }
}

/// Whether two macros have variable arguments of one name, or both none.
pub fn same_variables(old: &Option<Variable>, new: &Option<Variable>) -> bool
    ensures { result ≡ same_variables old.now new.now }
{
    match (old, new) {
        (None, None) => true,
        (Some(old), Some(new)) => new.is_called(old.name()),
        _ => false,
    }
}
