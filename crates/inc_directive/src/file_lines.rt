//! The lines of a file. Their tokens are lexed where they are wanted, since a file is read in part.
ghost use Rattle.std.specs.Prelude.{ℕ, Bool, List, false, true, ◌≡◌, ◌↔◌, ◌≢◌, ◌≤◌, ◌<◌, ◌-◌, ◌++◌, [], Ok, Err, IfOk, IfErr, IfSome, Some, OnOk, length, map, take, drop, option_and_then, option_map, option_to_list, slice_get};
ghost use Rattle.std.specs.List.{All, prefix_len};
ghost use Rattle.inc_token.specs.LineWalk.{EndsAt, IsPrefixIn, IsSketch};
ghost use Rattle.inc_token.specs.TokenLines.{TokenLine, token_lines};
ghost use Rattle.inc_token.specs.Views.{seen, seen_operand};
ghost use Rattle.inc_directive.specs.Groups.{FileLine, file_lines};
ghost use Rattle.std.specs.List.Sorted.{IsNonDecreasing};
ghost use Rattle.inc_directive.specs.Removal.{is_among, with_removed};
ghost use Rattle.inc_directive.specs.Runs.{run_tokens};
ghost use Rattle.inc_directive.specs.KindViews.{seen_kind};
ghost use Rattle.inc_directive.specs.Parts.{DirectivePart, FilePart, AreNumbered, AreSplit, IsNameAt, IsPart, IsPartOf, inclusions_in, is_include_tag, is_text, lines_of_parts, part_definition, part_kind, part_line, part_role, text_parts, text_tag};
ghost use Rattle.inc_directive.specs.declared.kinds.Role.TheVariants.{TextLine};
ghost use Rattle.inc_text.specs.PhaseText.{longest_text};

use crate::kinds::{DirectiveKind, LineKind, Role, prefix_kind};
use crate::parts::{
    Inclusion, Part, Tag, is_blank, is_named, is_removable, is_text, kind_of, tag_of,
};
use crate::walks::DirectiveIter;
use inc_text::{Language, Text};
use inc_token::{
    Kind, LexFault, LineSketch, LineTokens, Operand, Prefix, TextLines, TextRun, Token, lex_end,
    lex_line, lex_lines, lex_token, line_prefix, text_lines,
};
use std::alloc::{AllocError, Global};
use std::marker::Model;

/// A list of the tokens of a line that is no longer needs little memory: 32 bytes for each token.
const LONG_LINE: usize = 4_096;

/// The lines of a file: its text, in parts of 8 bytes each. A part is a directive, or lines of text one after the other, 65,535 at most, so that
/// text takes no memory beside its own. A directive that includes takes 12 bytes more.
#[derive(Drop)]
pub struct FileLines {
    language: Language,
    text: Text,
    parts: Vec<Part>,
    /// What is kept of the directives that include, from the top.
    inclusions: Vec<Inclusion>,
}

impl Model for FileLines {
    ghost use Rattle.std.specs.Prelude.{List};
    ghost use Rattle.inc_token.specs.LineWalk.{lines_or_none};
    ghost use Rattle.inc_token.specs.TokenLines.{token_lines};
    ghost use Rattle.inc_directive.specs.Parts.{FilePart, AreLines, parts_from};

    ghost Value = { List FilePart };

    ghost view = { λ f. parts_from f.language 0 f.parts.items (lines_or_none (token_lines f.language f.text)) };

    ghost invariant = { λ f. AreLines f.language f.text f.parts.items f.inclusions.items (lines_or_none (token_lines f.language f.text)) };
}

impl FileLines {
    /// The lines of a file by its text. An include directive whose `#` is on one of the physical lines `removed`, which are in any order,
    /// becomes a line of text without tokens.
    pub fn new(
        alloc: Global,
        text: Text,
        language: Language,
        removed: &[u32],
    ) -> Result<FileLines, LexFault>
        ensures lines { IfOk result (λ file. (ls : List TokenLine) × (token_lines language text ≡ Ok ls)
            × (lines_of_parts file ≡ file_lines language (with_removed language (is_among removed.now) ls))) }
        ensures fault { IfErr result (λ fault. fault ≢ LexFault.NoMemory → token_lines language text ≡ Err fault) }
    {
        let removed = sorted(alloc, removed)?;
        let (parts, inclusions) = split(alloc, &text, language, &removed)?;
        Ok(FileLines {
            language,
            text,
            parts,
            inclusions,
        })
    }

    /// How many parts there are.
    pub fn count(&self) -> usize
        ensures count { result ≡ length self.now }
        ensures few { result ≤ longest_text }
        ensures parts { All IsPart self.now }
        ensures numbered { AreNumbered 0 (lines_of_parts self.now) }
    {
        self.parts.len()
    }

    /// A walk over the directives that include, from the top.
    pub fn inclusions(&self) -> DirectiveIter<'_>
        ensures { result ≡ inclusions_in self.now }
    {
        DirectiveIter::new(self.text.bytes(), &self.parts, &self.inclusions)
    }

    /// How many directives that include there are.
    pub fn inclusion_count(&self) -> usize
        ensures { result ≡ length (inclusions_in self.now) }
    {
        self.inclusions.len()
    }

    /// What a part is to the groups of the file. Parts are counted from 0.
    pub fn role(&self, i: usize) -> Role
        requires { i < length self.now }
        ensures { option_map part_role (slice_get self.now i) ≡ Some result }
    {
        self.parts[i].role()
    }

    /// The kind of a part.
    pub fn kind(&self, i: usize) -> LineKind<'_>
        requires { i < length self.now }
        ensures { option_map part_kind (slice_get self.now i) ≡ Some (seen_kind result) }
    {
        let part = self.parts[i];
        if !is_named(part.tag) {
            return kind_of(part.tag, &[]);
        }
        // The name is in the text.
        match line_prefix(&self.text, self.language, part.start as usize) {
            Some(prefix) => prefix_kind(prefix, self.language),
            None => LineKind::Text,
        }
    }

    /// The physical line of the LF that ends a directive.
    pub fn last_line(&self, i: usize) -> u32
        requires { i < length self.now }
        ensures { (l : FileLine) → slice_get self.now i ≡ Some (DirectivePart l) → result ≡ l.last_line }
    {
        lex_end(&self.text, self.language, self.parts[i].start as usize)
    }

    /// The physical line of the first token of a part, 0 where its first line has none, and where there is no such part.
    pub fn first_line(&self, i: usize) -> u32
        ensures { result ≡ part_line self.now i }
    {
        let Some(part) = self.parts.get(i) else {
            return 0;
        };
        if is_blank(part.tag) {
            return 0;
        }
        match lex_token(&self.text, self.language, part.start as usize, 0) {
            Some(first) => first.line,
            None => 0,
        }
    }

    /// A token of a directive, counted from 0, if it has so many.
    pub fn token(&self, i: usize, k: usize) -> Option<Token<'_>>
        requires { i < length self.now }
        ensures { (l : FileLine) → slice_get self.now i ≡ Some (DirectivePart l) →
            option_map seen result ≡ slice_get l.tokens k }
    {
        lex_token(&self.text, self.language, self.parts[i].start as usize, k)
    }

    /// The name that a part defines, if it is a `#define` of one.
    pub fn defined_name(&self, i: usize) -> Option<&[u8]>
        requires { i < length self.now }
        ensures { option_map (λ name. name.now) result ≡ option_and_then part_definition (slice_get self.now i) }
    {
        let LineKind::Other(DirectiveKind::Define) = self.kind(i) else {
            return None;
        };
        match self.token(i, 2) {
            Some(name) => Some(name.spelling),
            None => None,
        }
    }

    /// The tokens of a directive.
    pub fn line<'a>(&'a self, alloc: Global, i: usize) -> Result<Vec<Token<'a>>, AllocError>
        requires { i < length self.now }
        ensures { IfOk result (λ tokens. (l : FileLine) → slice_get self.now i ≡ Some (DirectivePart l) →
            map seen tokens.items ≡ l.tokens) }
    {
        let start = self.parts[i].start as usize;
        // Few lines have more than a token in three bytes.
        let room = self.bytes_between(i, i + 1) / 3 + 4;
        let mut line = Vec::with_capacity(alloc, room)?;
        lex_lines(&self.text, self.language, start, 1, false, &mut line)?;
        Ok(line)
    }

    /// A walk over the tokens of a directive, none of which is kept.
    pub fn tokens(&self, i: usize) -> LineTokens<'_>
        requires { i < length self.now }
        ensures { (l : FileLine) → slice_get self.now i ≡ Some (DirectivePart l) → result ≡ l.tokens }
    {
        lex_line(&self.text, self.language, self.parts[i].start as usize)
    }

    /// Whether a part is so long that a list of its tokens is better not made, as a hint.
    pub fn is_long(&self, i: usize) -> bool {
        self.bytes_between(i, i.saturating_add(1)) > LONG_LINE
    }

    /// The first part, from this one on, that is no text, or the number of parts.
    pub fn run_end(&self, from: usize) -> usize
        requires { from ≤ length self.now }
        ensures after { from ≤ result }
        ensures within { result ≤ length self.now }
        ensures text { All (λ (p : FilePart). part_role p ≡ TextLine) (take (result - from)
            (drop from self.now)) }
        ensures end { IfSome (slice_get self.now result) (λ (p : FilePart). part_role p ≢ TextLine) }
    {
        from + texts_first(&self.parts[from..])
    }

    /// Whether no line of the parts, from one on up to another, has a token.
    pub fn are_blank(&self, from: usize, to: usize) -> bool
        requires order { from ≤ to }
        requires within { to ≤ length self.now }
        ensures { (result ≡ true) ↔ (run_tokens (lines_of_parts (take (to - from) (drop from self.now))) ≡ []) }
    {
        let mut i = from;
        while i < to && is_blank(self.parts[i].tag) {
            i += 1;
        }
        i == to
    }

    /// The tokens of some parts as one list, in which the first of each line has white space before it.
    pub fn run<'a>(
        &'a self,
        alloc: Global,
        from: usize,
        to: usize,
    ) -> Result<Vec<Token<'a>>, AllocError>
        requires order { from ≤ to }
        requires within { to ≤ length self.now }
        ensures { IfOk result (λ tokens. map seen tokens.items
            ≡ run_tokens (lines_of_parts (take (to - from) (drop from self.now)))) }
    {
        // Few texts have more than a token in four bytes.
        let room = self.bytes_between(from, to) / 4 + 8;
        let mut run = Vec::with_capacity(alloc, room)?;
        for i in from..to {
            let part = self.parts[i];
            if !is_blank(part.tag) {
                let start = part.start as usize;
                lex_lines(
                    &self.text,
                    self.language,
                    start,
                    part.lines as usize,
                    true,
                    &mut run,
                )?;
            }
        }
        Ok(run)
    }

    /// How many bytes the parts have from one on up to another, as a hint.
    fn bytes_between(&self, from: usize, to: usize) -> usize {
        self.place(to).saturating_sub(self.place(from))
    }

    /// Where a part begins, or where the text ends, as a hint.
    fn place(&self, i: usize) -> usize {
        match self.parts.get(i) {
            Some(part) => part.start as usize,
            None => self.text.bytes().len(),
        }
    }
}

/// These numbers, from the least up.
fn sorted(alloc: Global, numbers: &[u32]) -> Result<Vec<u32>, AllocError>
    ensures same { IfOk result (λ sorted. (n : ℕ) → is_among sorted.items n ≡ is_among numbers.now n) }
    ensures rising { IfOk result (λ sorted. IsNonDecreasing sorted.items) }
{
    let mut sorted = Vec::from_slice(alloc, numbers)?;
    sorted.sort_unstable();
    Ok(sorted)
}

/// Whether the number is one of these, which rise.
#[inline(always)]
fn is_among(numbers: &[u32], number: u32) -> bool
    requires { IsNonDecreasing numbers.now }
    ensures { result ≡ is_among numbers.now number }
{
    numbers.binary_search(&number).is_ok()
}

/// The parts of a text, and what is kept of its directives that include. The lines of those that are removed rise.
fn split(
    alloc: Global,
    text: &Text,
    language: Language,
    removed: &[u32],
) -> Result<(Vec<Part>, Vec<Inclusion>), LexFault>
    requires { IsNonDecreasing removed.now }
    ensures lines { IfOk result (λ found. (ls : List TokenLine)
        × AreSplit language text.now (is_among removed.now) found.0.items found.1.items ls) }
    ensures fault { IfErr result (λ fault. fault ≢ LexFault.NoMemory → token_lines language text.now ≡ Err fault) }
{
    let mut parts = Vec::new(alloc);
    let mut inclusions = Vec::new(alloc);
    let mut walk = text_lines(text, language, 0);
    'lines: loop {
        let next = walk.next()?;
        push_text(&mut parts, next.text)?;
        let Some(line) = next.line else {
            break;
        };
        let (part, inclusion) = part_of(line, &mut walk, language, removed);
        push_inclusion(&mut inclusions, inclusion)?;
        parts.push(part)?;
    }
    parts.shrink_to_fit();
    inclusions.shrink_to_fit();
    Ok((parts, inclusions))
}

/// Adds lines of text as a part, if there are any.
#[inline(always)]
fn push_text(parts: &mut Vec<Part>, run: TextRun) -> Result<(), AllocError>
    requires { run.start ≤ longest_text }
    ensures { OnOk result (parts.new.items ≡ parts.old.items ++ text_parts run) }
{
    if run.lines == 0 {
        return Ok(());
    }
    parts.push(Part {
        start: run.start as u32,
        lines: run.lines,
        tag: text_tag(run.is_blank),
    })?;
    Ok(())
}

/// Adds what is kept of a directive that includes, if it is one.
#[inline(always)]
fn push_inclusion(
    inclusions: &mut Vec<Inclusion>,
    inclusion: Option<Inclusion>,
) -> Result<(), AllocError>
    ensures { OnOk result (inclusions.new.items ≡ inclusions.old.items ++ option_to_list inclusion) }
{
    if let Some(inclusion) = inclusion {
        inclusions.push(inclusion)?;
    }
    Ok(())
}

/// A line as a part, and what is kept of it beside that if it is a directive that includes and is not removed.
#[inline(always)]
fn part_of(
    line: LineSketch<'_>,
    walk: &mut TextLines<'_>,
    language: Language,
    removed: &[u32],
) -> (Part, Option<Inclusion>)
    requires start { line.start ≤ length walk.old.text }
    requires short { length walk.old.text ≤ longest_text }
    requires places { IfSome line.prefix (IsPrefixIn walk.old.text) }
    requires rising { IsNonDecreasing removed.now }
    ensures start { result.0.start ≡ line.entry.start }
    ensures part { (l : TokenLine) → IsSketch language walk.old.text l line.entry →
        IsPartOf language walk.old.text (is_among removed.now) l result.0 result.1 }
    ensures same { walk.new ≡ walk.old }
{
    let start = line.start as u32;
    let Some(prefix) = line.prefix else {
        let tag = text_tag(line.is_blank);
        return (
            Part {
                start,
                lines: 1,
                tag,
            },
            None,
        );
    };
    let tag = tag_of(prefix_kind(prefix, language));
    if !is_removable(tag) {
        return (
            Part {
                start,
                lines: 1,
                tag,
            },
            None,
        );
    }
    let line = walk.line_of(prefix.hash);
    if is_include(tag) && is_among(removed, line) {
        let tag = Tag::Removed;
        return (
            Part {
                start,
                lines: 1,
                tag,
            },
            None,
        );
    }
    let (at, len) = name_place(prefix);
    (
        Part {
            start,
            lines: 1,
            tag,
        },
        Some(Inclusion { line, at, len }),
    )
}

/// The place of the name in an include directive, and how many bytes it has; both are of no use where it has none.
#[inline(always)]
fn name_place(prefix: Prefix<'_>) -> (u32, u32)
    requires { IfSome prefix.operand (λ o. (length o.spelling.now ≤ prefix.end) × (prefix.end ≤ longest_text)) }
    ensures { (text : List ℕ) → IfSome prefix.entry.operand (λ o. EndsAt text prefix.entry.end o.spelling.now) →
        IsNameAt text (option_map seen_operand prefix.entry.operand) result.0 result.1 }
{
    match prefix.operand {
        Some(operand) => operand_place(operand, prefix.end),
        None => (0, 0),
    }
}

/// The place of the name that a token gives which ends at a place of the text: without the delimiters of a header name.
#[inline(always)]
fn operand_place(operand: Operand<'_>, end: usize) -> (u32, u32)
    requires within { length operand.spelling.now ≤ end }
    requires short { end ≤ longest_text }
    ensures { (text : List ℕ) → EndsAt text end operand.entry.spelling.now →
        IsNameAt text (Some (seen_operand operand.entry)) result.0 result.1 }
{
    let len = operand.spelling.len();
    if operand.kind != Kind::HeaderName {
        return ((end - len) as u32, len as u32);
    }
    if len > 2 {
        ((end - len + 1) as u32, (len - 2) as u32)
    } else {
        (0, 0)
    }
}

/// The tag of lines of text, by whether none of them has a token.
#[inline(always)]
fn text_tag(is_blank: bool) -> Tag
    ensures { result ≡ text_tag is_blank }
{
    if is_blank { Tag::Blank } else { Tag::Text }
}

/// Whether a directive with this tag is an include directive.
#[inline(always)]
fn is_include(tag: Tag) -> bool
    ensures { result ≡ is_include_tag tag }
{
    matches!(
        tag,
        Tag::Quoted(_) | Tag::Angled(_) | Tag::ByName(_) | Tag::Computed(_) | Tag::Nothing(_)
    )
}

/// How many parts come first that are text.
fn texts_first(parts: &[Part]) -> usize
    ensures { result ≡ prefix_len (λ (p : Part). is_text p.tag) parts.now }
{
    parts.iter().take_while(|part| is_text(part.tag)).count()
}
