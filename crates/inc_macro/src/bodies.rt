//! Bodies of macros.
ghost use Rattle.std.specs.Prelude.{◌≡◌, ◌+◌, ◌<◌, ◌≤◌, [], ◌∷◌, ◌++◌, ◌&&◌, drop, length, IfOk, OnOk, OnErr, Some, option_map, slice_get};
ghost use Rattle.std.specs.List.{list_all};
ghost use Rattle.inc_macro.specs.Bodies.{start_of};
ghost use Rattle.inc_macro.specs.Macros.{BodyToken, same_body};
ghost use Rattle.inc_macro.specs.Roles.{is_plain_role};

use crate::roles::{Role, is_plain_role};
use inc_token::Kind;
use std::alloc::{AllocError, Global};
use std::marker::Model;

/// A token of a body: where its spelling ends in the buffer, and what it is.
#[derive(Clone, Copy)]
struct Part {
    end: u32,
    kind: Kind,
    space: bool,
    role: Role,
}

/// The name of a macro and the tokens of its body with their roles. All spellings are in one buffer, which begins with the name.
#[derive(Drop)]
pub struct Body {
    spellings: Vec<u8>,
    name_len: usize,
    parts: Vec<Part>,
    /// Whether no token is an operator `#` or `##`, or a parameter that is taken as it is written.
    is_plain: bool,
}

impl Model for Body {
    ghost use Rattle.std.specs.Prelude.{◌≡◌, map, length, take};
    ghost use Rattle.std.specs.List.{list_all};
    ghost use Rattle.inc_macro.specs.Bodies.{Kept, tokens_from, role_of, EndAt};
    ghost use Rattle.inc_macro.specs.Roles.{is_plain_role};

    ghost Value = { Kept };

    ghost view = { λ b.
        record {
          name = take b.name_len b.spellings.items;
          tokens = tokens_from b.spellings.items b.name_len b.parts.items;
          roles = map role_of b.parts.items;
        } };

    ghost invariant = { λ b. EndAt b.name_len b.parts.items (length b.spellings.items)
        × (b.is_plain ≡ list_all is_plain_role (map role_of b.parts.items)) };
}

impl Body {
    /// A body without tokens of the macro with this name, which has room for so many tokens, and for so many bytes of their
    /// spellings.
    pub fn with_room(
        alloc: Global,
        name: &[u8],
        tokens: usize,
        bytes: usize,
    ) -> Result<Body, AllocError>
        ensures name { IfOk result (λ body. body.name ≡ name.now) }
        ensures tokens { IfOk result (λ body. body.tokens ≡ []) }
        ensures roles { IfOk result (λ body. body.roles ≡ []) }
    {
        let name_len = name.len();
        let mut spellings = Vec::with_capacity(alloc, bytes.saturating_add(name_len))?;
        spellings.extend_from_slice(name)?;
        let parts = Vec::with_capacity(alloc, tokens)?;
        Ok(Body {
            spellings,
            name_len,
            parts,
            is_plain: true,
        })
    }

    /// The name of the macro.
    pub fn name(&self) -> &[u8]
        ensures { result.now ≡ self.now.name }
    {
        &self.spellings[..self.name_len]
    }

    /// Whether each token stands for itself or for an argument that is expanded.
    pub fn is_plain(&self) -> bool
        ensures { result ≡ list_all is_plain_role self.now.roles }
    {
        self.is_plain
    }

    /// How many tokens there are.
    pub fn len(&self) -> usize
        ensures tokens { result ≡ length self.now.tokens }
        ensures roles { result ≡ length self.now.roles }
    {
        self.parts.len()
    }

    /// Adds a token. Where memory runs out the body is of no further use.
    pub fn push(
        &mut self,
        kind: Kind,
        spelling: &[u8],
        space: bool,
        role: Role,
    ) -> Result<(), AllocError>
        ensures tokens { let token : BodyToken = record
            { kind = kind; spelling = spelling.now; space = space } in
            OnOk result (self.new.tokens ≡ self.old.tokens ++ token ∷ []) }
        ensures roles { OnOk result (self.new.roles ≡ self.old.roles ++ role ∷ []) }
        ensures name { OnOk result (self.new.name ≡ self.old.name) }
    {
        let end = end_after(self.spellings.len(), spelling.len())?;
        let is_plain = stays_plain(self.is_plain, role);
        // Once this is done, no part can be missing after its spelling.
        self.parts.reserve(1)?;
        self.spellings.extend_from_slice(spelling)?;
        self.parts.push(Part {
            end,
            kind,
            space,
            role,
        })?;
        self.is_plain = is_plain;
        Ok(())
    }

    /// The spelling of a token, counted from 0.
    pub fn spelling(&self, i: usize) -> &[u8]
        requires { i < length self.now.tokens }
        ensures { option_map (λ (b : BodyToken). b.spelling) (slice_get self.now.tokens i)
            ≡ Some result.now }
    {
        let from = start_of(&self.parts, self.name_len, i);
        let to = self.parts[i].end as usize;
        &self.spellings[from..to]
    }

    /// The class of a token, counted from 0.
    pub fn kind(&self, i: usize) -> Kind
        requires { i < length self.now.tokens }
        ensures { option_map (λ (b : BodyToken). b.kind) (slice_get self.now.tokens i)
            ≡ Some result }
    {
        self.parts[i].kind
    }

    /// Whether white space is before a token, counted from 0.
    pub fn space(&self, i: usize) -> bool
        requires { i < length self.now.tokens }
        ensures { option_map (λ (b : BodyToken). b.space) (slice_get self.now.tokens i)
            ≡ Some result }
    {
        self.parts[i].space
    }

    /// What a token is for the expansion, counted from 0.
    pub fn role(&self, i: usize) -> Role
        requires { i < length self.now.roles }
        ensures { slice_get self.now.roles i ≡ Some result }
    {
        self.parts[i].role
    }
}

/// Where a buffer of this length ends with so many bytes more. An end that a part has no room for is refused as if memory had run out.
fn end_after(length: usize, more: usize) -> Result<u32, AllocError>
    ensures { IfOk result (λ end. end ≡ length + more) }
{
    let end = length.saturating_add(more);
    if end > u32::MAX as usize {
        return Err(AllocError);
    }
    Ok(end as u32)
}

/// Whether a body is plain with one more token, where it was plain or was not.
fn stays_plain(was_plain: bool, role: Role) -> bool
    ensures { result ≡ (was_plain && is_plain_role role) }
{
    was_plain && is_plain_role(role)
}

/// Where the spelling of a token begins, that of the first one being here.
fn start_of(parts: &[Part], first: usize, i: usize) -> usize
    requires { i ≤ length parts.now }
    ensures { result ≡ start_of first parts.now i }
{
    if i == 0 {
        first
    } else {
        parts[i - 1].end as usize
    }
}

/// Whether two bodies have the same spelling at a place, and white space before both tokens or before none.
fn same_token(old: &Body, new: &Body, i: usize) -> bool
    requires old { i < length old.now.tokens }
    requires new { i < length new.now.tokens }
    ensures { same_body (drop i old.now.tokens) (drop i new.now.tokens)
        ≡ (result && same_body (drop (i + 1) old.now.tokens) (drop (i + 1) new.now.tokens)) }
{
    old.spelling(i) == new.spelling(i) && old.space(i) == new.space(i)
}

/// Whether two bodies have the same spellings, and white space before the same tokens.
pub fn same_body(old: &Body, new: &Body) -> bool
    ensures { result ≡ same_body old.now.tokens new.now.tokens }
{
    if old.len() != new.len() {
        return false;
    }
    for i in 0..old.len() {
        if !same_token(old, new, i) {
            return false;
        }
    }
    true
}
