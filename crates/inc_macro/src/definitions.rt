//! Definitions of macros.
ghost use Rattle.std.specs.Prelude.{◌≡◌, ◌<◌, length, Some, option_map, slice_get};
ghost use Rattle.std.specs.List.{list_all};
ghost use Rattle.inc_macro.specs.Macros.{BodyToken, same_definition, spellings};
ghost use Rattle.inc_macro.specs.Roles.{is_plain_role, roles_of, roles_from};
ghost use Rattle.inc_macro.specs.declared.roles.Before.TheVariants.{Neither};

use crate::bodies::{Body, same_body};
use crate::parameters::{Parameters, same_params};
use crate::roles::Role;
use inc_token::Kind;
use std::marker::Model;

/// The definition of a macro (ISO/IEC 9899:2018, 6.10.3). What each token of its body is for an expansion is known
/// from the definition on, so that an expansion compares no names of parameters.
///
/// Its name and the spellings of its body are in one buffer. A token of the body takes eight bytes: where its spelling ends, its kind, its
/// white space and its role.
#[derive(Drop)]
pub struct Definition {
    params: Option<Parameters>,
    /// The macro's name is in it.
    body: Body,
}

impl Model for Definition {
    ghost use Rattle.std.specs.Prelude.{◌≡◌};
    ghost use Rattle.inc_macro.specs.Macros.{Definition as Defined, spellings};
    ghost use Rattle.inc_macro.specs.Roles.{roles_from};
    ghost use Rattle.inc_macro.specs.declared.roles.Before.TheVariants.{Neither};

    ghost Value = { Defined };

    ghost view = { λ d. record { name = d.body.name; params = d.params; body = d.body.tokens } };

    ghost invariant = { λ d. d.body.roles ≡ roles_from d.params Neither (spellings d.body.tokens) };
}

impl Definition {
    /// The definition with this body, whose roles are those that the parameters give.
    pub(crate) fn new(params: Option<Parameters>, body: Body) -> Definition
        requires { body.roles ≡ roles_from params Neither (spellings body.tokens) }
        ensures { result ≡ record { name = body.name; params = params; body = body.tokens } }
    {
        Definition { params, body }
    }

    /// The macro's name.
    pub fn name(&self) -> &[u8]
        ensures { result.now ≡ self.now.name }
    {
        self.body.name()
    }

    /// The parameters of a function-like macro; an object-like one has none.
    pub fn params(&self) -> Option<&Parameters>
        ensures { option_map (λ p. p.now) result ≡ self.now.params }
    {
        self.params.as_ref()
    }

    /// Whether the body has no operator `#` or `##`, and no parameter beside one.
    pub fn is_plain(&self) -> bool
        ensures { result ≡ list_all is_plain_role (roles_of self.now) }
    {
        self.body.is_plain()
    }

    /// How many tokens the body has.
    pub fn body_len(&self) -> usize
        ensures { result ≡ length self.now.body }
    {
        self.body.len()
    }

    /// The spelling of a token of the body, counted from 0.
    pub fn spelling(&self, i: usize) -> &[u8]
        requires { i < length self.now.body }
        ensures { option_map (λ (b : BodyToken). b.spelling) (slice_get self.now.body i)
            ≡ Some result.now }
    {
        self.body.spelling(i)
    }

    /// The class of a token of the body, counted from 0.
    pub fn kind(&self, i: usize) -> Kind
        requires { i < length self.now.body }
        ensures { option_map (λ (b : BodyToken). b.kind) (slice_get self.now.body i) ≡ Some result }
    {
        self.body.kind(i)
    }

    /// Whether white space is before a token of the body, counted from 0.
    pub fn space(&self, i: usize) -> bool
        requires { i < length self.now.body }
        ensures { option_map (λ (b : BodyToken). b.space) (slice_get self.now.body i)
            ≡ Some result }
    {
        self.body.space(i)
    }

    /// What a token of the body is for the expansion, counted from 0.
    pub fn role(&self, i: usize) -> Role
        requires { i < length self.now.body }
        ensures { slice_get (roles_of self.now) i ≡ Some result }
    {
        self.body.role(i)
    }
}

/// Whether a definition says what another says (ISO/IEC 9899:2018, 6.10.3 paragraphs 1 and 2).
pub(crate) fn same_definition(old: &Definition, new: &Definition) -> bool
    ensures { result ≡ same_definition old.now new.now }
{
    same_params(&old.params, &new.params) && same_body(&old.body, &new.body)
}
