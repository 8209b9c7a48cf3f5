//! The names of headers that are not found.
ghost use Rattle.std.specs.Prelude.{◌≡◌, ◌<◌, ◌++◌, ◌∷◌, [], length, IfOk, OnOk, OnErr};
ghost use Rattle.inc_graph.specs.HeaderNames.{name_at, seen_name};

use inc_lookup::Form;
use std::alloc::{AllocError, Global};
use std::marker::Model;

/// A header as an include directive names it.
#[derive(Clone, Copy)]
pub struct HeaderName<'n> {
    /// Whether it stands between two `"` or between `<` and `>`.
    pub form: Form,
    /// What stands between them.
    pub name: &'n [u8],
}

/// Where the bytes of a name lie among those of all.
#[derive(Clone, Copy)]
pub(crate) struct NamePart {
    form: Form,
    begin: u32,
    len: u32,
}

/// Names of headers by numbers, which are their places. All bytes lie in one list, so that a name takes no allocation of its own.
#[derive(Drop)]
pub(crate) struct HeaderNames {
    bytes: Vec<u8>,
    parts: Vec<NamePart>,
}

impl Model for HeaderNames {
    ghost use Rattle.std.specs.Prelude.{List};
    ghost use Rattle.inc_graph.specs.HeaderNames as spec;
    ghost use Rattle.inc_graph.specs.HeaderNames.{names_in, AreParts};

    ghost Value = { List spec.HeaderName };

    ghost view = { λ n. names_in n.bytes.items n.parts.items };

    ghost invariant = { λ n. AreParts n.bytes.items n.parts.items };
}

impl HeaderNames {
    /// No names.
    pub(crate) fn new(alloc: Global) -> HeaderNames
        ensures { result ≡ [] }
    {
        HeaderNames {
            bytes: Vec::new(alloc),
            parts: Vec::new(alloc),
        }
    }

    /// The name with this number.
    pub(crate) fn at(&self, number: u32) -> HeaderName<'_>
        requires { number < length self.now }
        ensures { seen_name result ≡ name_at self.now number }
    {
        let part = self.parts[number as usize];
        let begin = part.begin as usize;
        let end = begin + part.len as usize;
        HeaderName {
            form: part.form,
            name: &self.bytes[begin..end],
        }
    }

    /// Adds a name, and gives its number. Where memory runs out, nothing changes.
    pub(crate) fn push(&mut self, header: HeaderName<'_>) -> Result<u32, AllocError>
        ensures number { IfOk result (λ number. number ≡ length self.old) }
        ensures pushed { OnOk result (self.new ≡ self.old ++ seen_name header.entry ∷ []) }
        ensures same { OnErr result (self.new ≡ self.old) }
    {
        let number = short(self.parts.len())?;
        let begin = short(self.bytes.len())?;
        let len = short(header.name.len())?;
        // Once there is room for the part, no bytes can be there without it.
        self.parts.reserve(1)?;
        self.bytes.extend_from_slice(header.name)?;
        self.parts.push_reserved(NamePart {
            form: header.form,
            begin,
            len,
        });
        Ok(number)
    }
}

/// A place or a length, in 4 bytes.
pub(crate) fn short(place: usize) -> Result<u32, AllocError>
    ensures { IfOk result (λ short. short ≡ place) }
{
    match u32::try_from(place) {
        Ok(short) => Ok(short),
        Err(_) => Err(AllocError),
    }
}
