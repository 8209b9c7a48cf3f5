//! Questions of GNU C whether a header is found: `__has_include` and `__has_include_next`.
ghost use Rattle.std.specs.Prelude.{◌≡◌, ◌∷◌, ◌++◌, [], List, IfOk, if◌then◌else◌, bytes_eq, codes};
ghost use Rattle.inc_text.specs.Ascii.{blank};
ghost use Rattle.inc_expand.specs.Expansion.{Item as SeenItem};
ghost use Rattle.inc_expand.specs.Sinks.{seen_ref};
ghost use Rattle.inc_cond.specs.Headers.{is_plain_string};
ghost use Rattle.inc_cond.specs.Questions.{answer_after, answer_at, answer_to};

use crate::constants::unquoted;
use crate::headers::HeaderSearch;
use inc_expand::ItemRef;
use inc_lookup::Form;
use inc_token::Kind;
use std::alloc::{AllocError, Global};

/// A question of which tokens are still to come.
#[derive(Drop)]
pub struct Question {
    /// It is `__has_include_next`.
    is_next: bool,
    stage: Stage,
}

/// What comes next.
#[derive(Drop)]
pub enum Stage {
    /// The `(`.
    Open,
    /// A string, or `<`.
    Name,
    /// More of a name that a `>` ends, which begins so.
    Angled(Vec<u8>),
    /// The `)`, after the name of a header that is found or not.
    Close(bool),
}

/// What a question is after one more token.
#[derive(Drop)]
pub enum Progress {
    /// More tokens are to come.
    More(Question),
    /// The header is found, or not.
    Answer(bool),
    /// It is no question that can be answered.
    Bad,
}

impl Question {
    /// A question of which no token has come.
    pub fn new(is_next: bool) -> Question
        ensures { result ≡ record { is_next = is_next; stage = Stage.Open } }
    {
        Question {
            is_next,
            stage: Stage::Open,
        }
    }

    /// Takes its next token. The header is looked for at the end of its name.
    pub fn take(
        self,
        alloc: Global,
        search: &HeaderSearch<'_>,
        token: ItemRef<'_>,
    ) -> Result<Progress, AllocError>
        ensures { IfOk result (λ progress. (is : List SeenItem) →
            answer_to search.now self (seen_ref token.entry ∷ is) ≡ answer_after search.now progress is) }
    {
        let Question { is_next, stage } = self;
        match stage {
            Stage::Open => Ok(opened(is_next, token.bytes)),
            Stage::Name => begun(alloc, search, is_next, token),
            Stage::Angled(name) => gone_on(alloc, search, is_next, name, token),
            Stage::Close(found) => Ok(ended(found, token.bytes)),
        }
    }
}

/// A question that goes on.
fn more(is_next: bool, stage: Stage) -> Progress
    ensures { result ≡ Progress.More (record { is_next = is_next; stage = stage }) }
{
    Progress::More(Question { is_next, stage })
}

/// Takes the `(`.
fn opened(is_next: bool, text: &[u8]) -> Progress
    ensures { result ≡ (if bytes_eq text.now (codes "(") then Progress.More (record { is_next = is_next; stage = Stage.Name }) else Progress.Bad) }
{
    if text == b"(".as_slice() {
        more(is_next, Stage::Name)
    } else {
        Progress::Bad
    }
}

/// Takes the first token after the `(`.
fn begun(
    alloc: Global,
    search: &HeaderSearch<'_>,
    is_next: bool,
    token: ItemRef<'_>,
) -> Result<Progress, AllocError>
    ensures { IfOk result (λ progress. (is : List SeenItem) →
        answer_at search.now is_next Stage.Name (seen_ref token.entry ∷ is) ≡ answer_after search.now progress is) }
{
    if is_plain_string(token) {
        let found = search.finds(alloc, is_next, Form::Quoted, unquoted(token.bytes))?;
        return Ok(more(is_next, Stage::Close(found)));
    }
    if token.bytes == b"<".as_slice() {
        return Ok(more(is_next, Stage::Angled(Vec::new(alloc))));
    }
    Ok(Progress::Bad)
}

/// Takes a token of a name that a `>` ends.
fn gone_on(
    alloc: Global,
    search: &HeaderSearch<'_>,
    is_next: bool,
    name: Vec<u8>,
    token: ItemRef<'_>,
) -> Result<Progress, AllocError>
    ensures { IfOk result (λ progress. (is : List SeenItem) →
        answer_at search.now is_next (Stage.Angled name) (seen_ref token.entry ∷ is) ≡ answer_after search.now progress is) }
{
    let mut name = spaced(name, token.space)?;
    if token.bytes == b">".as_slice() {
        let found = search.finds(alloc, is_next, Form::Angled, &name)?;
        return Ok(more(is_next, Stage::Close(found)));
    }
    name.extend_from_slice(token.bytes)?;
    Ok(more(is_next, Stage::Angled(name)))
}

/// A name with the white space before a token.
fn spaced(name: Vec<u8>, space: bool) -> Result<Vec<u8>, AllocError>
    ensures { IfOk result (λ after. after.items ≡ (if space then name.items ++ blank ∷ [] else name.items)) }
{
    let mut name = name;
    if space {
        name.push(b' ')?;
    }
    Ok(name)
}

/// Takes the `)`.
fn ended(found: bool, text: &[u8]) -> Progress
    ensures { result ≡ (if bytes_eq text.now (codes ")") then Progress.Answer found else Progress.Bad) }
{
    if text == b")".as_slice() {
        Progress::Answer(found)
    } else {
        Progress::Bad
    }
}

/// Whether a token is a string literal without a prefix.
fn is_plain_string(token: ItemRef<'_>) -> bool
    ensures { result ≡ is_plain_string (seen_ref token.entry) }
{
    matches!(token.kind, Kind::Str) && token.bytes.first() == Some(&b'"')
}
