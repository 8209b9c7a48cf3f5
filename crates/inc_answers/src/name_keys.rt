//! The names of headers as keys of a table.
ghost use Rattle.std.specs.Prelude.{◌≡◌, [], ◌∷◌, bytes_eq, nat_eq};
ghost use Rattle.std.specs.Cmp.Lexicographic.{pointwise, nat_list_eq_equiv};
ghost use Rattle.std.specs.Cmp.{partial_equiv_from_equiv};
ghost use Rattle.std.specs.Cmp.Rules.{hashing};
ghost use Rattle.std.proofs.Common.{rules};
ghost use Rattle.inc_graph.specs.HeaderNames.{seen_name};
ghost use Rattle.inc_answers.specs.MissingNames.{inner, spelled};

use inc_graph::HeaderName;
use inc_lookup::Form;
use std::hash::{Hash, Hasher};
use std::marker::Model;

/// A name, by how it stands in a directive, as the key of a table. None of its bytes is copied; it is hashed by one write of those between
/// its first and its last.
#[derive(Drop)]
pub struct NameKey<'m> {
    header: HeaderName<'m>,
}

impl<'m> Model for NameKey<'m> {
    ghost use Rattle.std.specs.Prelude.{ℕ, List};
    ghost use Rattle.inc_graph.specs.HeaderNames.{seen_name};
    ghost use Rattle.inc_answers.specs.MissingNames.{spelled};

    ghost Value = { List ℕ };

    ghost view = { λ k. spelled (seen_name k.header) };
}

impl<'m> NameKey<'m> {
    /// The key of a name.
    pub fn new(header: HeaderName<'m>) -> NameKey<'m>
        ensures { result ≡ spelled (seen_name header.entry) }
    {
        NameKey { header }
    }

    /// The bytes between its first and its last.
    fn name(&self) -> &[u8]
        ensures { result.now ≡ inner self.now }
    {
        self.header.name
    }
}

/// Whether two names are in one form and the same.
fn is_same(a: HeaderName<'_>, b: HeaderName<'_>) -> bool
    ensures { result ≡ bytes_eq (spelled (seen_name a.entry)) (spelled (seen_name b.entry)) }
{
    match (a.form, b.form) {
        (Form::Quoted, Form::Quoted) => a.name == b.name,
        (Form::Angled, Form::Angled) => a.name == b.name,
        _ => false,
    }
}

impl<'m> PartialEq for NameKey<'m> {
    ghost eq = { pointwise nat_eq };

    ghost laws = { partial_equiv_from_equiv nat_list_eq_equiv };

    fn eq(&self, other: &NameKey<'m>) -> bool {
        is_same(self.header, other.header)
    }
}

impl<'m> Eq for NameKey<'m> {
    ghost laws = { nat_list_eq_equiv };
}

impl<'m> Hash for NameKey<'m> {
    ghost hash_input = { λ k. inner k ∷ [] };

    ghost respects_eq = { Prim.search (hashing, rules) };

    fn hash<H: Hasher>(&self, state: &mut H) {
        state.write(self.name());
    }
}
