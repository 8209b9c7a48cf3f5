//! A walk over the directives of a file that include.
ghost use Rattle.std.specs.Prelude.{◌≡◌, ◌+◌, ◌≤◌, length, option_map};
ghost use Rattle.inc_directive.specs.FileDirectives.{GoesOn};
ghost use Rattle.inc_directive.specs.DirectiveViews.{seen_directive};
ghost use Rattle.inc_directive.specs.Parts.{AreIncluded, directive_with, directives_from};

use crate::kinds::LineKind;
use crate::parts::{Inclusion, Part, Tag, is_removable, kind_of};
use std::marker::Model;

/// A directive. A name in it is lent from the text of the file.
#[derive(Clone, Copy, Debug)]
pub struct Directive<'a> {
    /// What it is.
    pub kind: LineKind<'a>,
    /// The physical line of its `#`, from 1.
    pub line: u32,
}

/// The directives of a file that include, and those that are none of C but include too, which a walk has still before it.
#[derive(Drop)]
pub struct DirectiveIter<'a> {
    text: &'a [u8],
    parts: &'a [Part],
    /// What is kept of the directives among these parts.
    inclusions: &'a [Inclusion],
}

impl<'a> Model for DirectiveIter<'a> {
    ghost use Rattle.std.specs.Prelude.{List, length};
    ghost use Rattle.inc_directive.specs.FileDirectives.{Directive};
    ghost use Rattle.inc_directive.specs.Parts.{AreIncluded, directives_from};

    ghost Value = { List Directive };

    ghost view = { λ d. directives_from d.text.now d.parts.now d.inclusions.now };

    ghost invariant = { λ d. AreIncluded (length d.text.now) d.parts.now d.inclusions.now };
}

impl<'a> DirectiveIter<'a> {
    /// The directives of these parts.
    pub(crate) fn new(
        text: &'a [u8],
        parts: &'a [Part],
        inclusions: &'a [Inclusion],
    ) -> DirectiveIter<'a>
        requires { AreIncluded (length text.now) parts.now inclusions.now }
        ensures { result ≡ directives_from text.now parts.now inclusions.now }
    {
        DirectiveIter {
            text,
            parts,
            inclusions,
        }
    }

    /// The next directive; `None` at the end.
    pub fn next(&mut self) -> Option<Directive<'a>>
        ensures { GoesOn self.old (option_map seen_directive result) self.new }
    {
        while let [part, parts @ ..] = self.parts {
            self.parts = parts;
            if !is_removable(part.tag) {
                continue;
            }
            let [inclusion, inclusions @ ..] = self.inclusions else {
                // Each such part has one.
                unreachable!()
            };
            self.inclusions = inclusions;
            return Some(directive_with(self.text, part.tag, *inclusion));
        }
        None
    }
}

/// The directive that is kept with a tag.
#[inline(always)]
fn directive_with<'a>(text: &'a [u8], tag: Tag, inclusion: Inclusion) -> Directive<'a>
    requires { inclusion.at + inclusion.len ≤ length text.now }
    ensures { seen_directive result ≡ directive_with text.now tag inclusion }
{
    let from = inclusion.at as usize;
    Directive {
        kind: kind_of(tag, &text[from..from + inclusion.len as usize]),
        line: inclusion.line,
    }
}
