//! How the lines of a file are kept: in parts, of a few bytes each.
ghost use Rattle.std.specs.Prelude.{◌≡◌, [], unwrap_or};
ghost use Rattle.inc_directive.specs.Groups.{role};
ghost use Rattle.inc_directive.specs.LineKinds.{Other};
ghost use Rattle.inc_directive.specs.Parts.{kind_of, is_blank, is_named, is_removable_tag, is_text, name_of, IsTagOf};
ghost use Rattle.inc_directive.specs.KindViews.{seen_kind};

use crate::kinds::{DirectiveKind, LineKind, Role, Target};
use inc_token::IncludeName;

/// What a part of a file is: lines of text, or the kind of a directive without the name that an include directive has.
#[derive(Clone, Copy)]
pub(crate) enum Tag {
    /// Lines of text, one of which has a token at least.
    Text,
    /// Lines of text without tokens.
    Blank,
    /// An include directive that is removed: a line of text without tokens.
    Removed,
    Quoted(IncludeName),
    Angled(IncludeName),
    ByName(IncludeName),
    Computed(IncludeName),
    Nothing(IncludeName),
    /// Any other directive.
    Other(DirectiveKind),
}

/// A directive, or lines of text: 8 bytes, so that a file of short directives takes little more room than its text.
#[derive(Clone, Copy)]
pub(crate) struct Part {
    /// The place of the text at which its first line begins.
    pub(crate) start: u32,
    /// How many lines it has; a directive has one.
    pub(crate) lines: u16,
    pub(crate) tag: Tag,
}

/// What is kept of a directive that includes beside its part.
#[derive(Clone, Copy)]
pub(crate) struct Inclusion {
    /// The physical line of its `#`.
    pub(crate) line: u32,
    /// The place of the name in it, if it has one.
    pub(crate) at: u32,
    /// How many bytes the name has.
    pub(crate) len: u32,
}

impl Part {
    /// What its lines are to the groups of its file, which rests on no name.
    #[inline(always)]
    pub(crate) fn role(self) -> Role
        ensures { result ≡ role (kind_of self.tag []) }
    {
        match self.tag {
            Tag::Text | Tag::Blank | Tag::Removed => Role::TextLine,
            Tag::Quoted(_) | Tag::Angled(_) | Tag::ByName(_) | Tag::Computed(_) | Tag::Nothing(_) =>
                Role::ControlLine,
            Tag::Other(kind) => role_of(kind),
        }
    }
}

/// What a directive is to the groups of its file.
#[inline(always)]
fn role_of(kind: DirectiveKind) -> Role
    ensures { result ≡ role (Other kind) }
{
    match kind {
        DirectiveKind::If | DirectiveKind::Ifdef | DirectiveKind::Ifndef => Role::IfGroup,
        DirectiveKind::Elif | DirectiveKind::Elifdef | DirectiveKind::Elifndef => Role::ElifGroup,
        DirectiveKind::Else => Role::ElseGroup,
        DirectiveKind::Endif => Role::EndifLine,
        _ => Role::ControlLine,
    }
}

/// The kind with a tag. A name counts where the tag has one.
pub(crate) fn kind_of<'a>(tag: Tag, name: &'a [u8]) -> LineKind<'a>
    ensures { seen_kind result ≡ kind_of tag name.now }
{
    match tag {
        Tag::Text | Tag::Blank | Tag::Removed => LineKind::Text,
        Tag::Quoted(by) => LineKind::Include(by, Target::Quoted(name)),
        Tag::Angled(by) => LineKind::Include(by, Target::Angled(name)),
        Tag::ByName(by) => LineKind::Include(by, Target::ByName(name)),
        Tag::Computed(by) => LineKind::Include(by, Target::Computed),
        Tag::Nothing(by) => LineKind::Include(by, Target::Nothing),
        Tag::Other(kind) => LineKind::Other(kind),
    }
}

/// The tag of a kind.
#[inline(always)]
pub(crate) fn tag_of(kind: LineKind<'_>) -> Tag
    ensures { IsTagOf (seen_kind kind.entry) result (unwrap_or (name_of (seen_kind kind.entry)) []) }
{
    match kind {
        LineKind::Text => Tag::Text,
        LineKind::Include(by, Target::Quoted(_)) => Tag::Quoted(by),
        LineKind::Include(by, Target::Angled(_)) => Tag::Angled(by),
        LineKind::Include(by, Target::ByName(_)) => Tag::ByName(by),
        LineKind::Include(by, Target::Computed) => Tag::Computed(by),
        LineKind::Include(by, Target::Nothing) => Tag::Nothing(by),
        LineKind::Other(kind) => Tag::Other(kind),
    }
}

/// Whether a kind with this tag has a name.
#[inline(always)]
pub(crate) fn is_named(tag: Tag) -> bool
    ensures { result ≡ is_named tag }
{
    matches!(tag, Tag::Quoted(_) | Tag::Angled(_) | Tag::ByName(_))
}

/// Whether a part with this tag is lines of text.
#[inline(always)]
pub(crate) fn is_text(tag: Tag) -> bool
    ensures { result ≡ is_text tag }
{
    matches!(tag, Tag::Text | Tag::Blank | Tag::Removed)
}

/// Whether a part with this tag is lines without tokens.
#[inline(always)]
pub(crate) fn is_blank(tag: Tag) -> bool
    ensures { result ≡ is_blank tag }
{
    matches!(tag, Tag::Blank | Tag::Removed)
}

/// Whether a directive with this tag can be taken as removed.
#[inline(always)]
pub(crate) fn is_removable(tag: Tag) -> bool
    ensures { result ≡ is_removable_tag tag }
{
    matches!(
        tag,
        Tag::Quoted(_)
            | Tag::Angled(_)
            | Tag::ByName(_)
            | Tag::Computed(_)
            | Tag::Nothing(_)
            | Tag::Other(DirectiveKind::Foreign)
    )
}
