//! What a line of a text holds.
ghost use Rattle.std.specs.Prelude.{◌≡◌, ◌≤◌, ◌==◌, Some, None, if◌then◌else◌, nat_le, length, take, position, codes, IfOk, IfSome};
ghost use Rattle.std.specs.Bool.{OnTrue};
ghost use Rattle.std.specs.Str.Parse.{digits_value, AllDigits};
ghost use Rattle.inc_check.specs.Texts.{greatest_number};
ghost use Rattle.inc_check.specs.Reading.{number_in, mark_in, listed_mark, short_mark_in, cost_in, cost_with, number_behind, head_at_blank, head_of, head_in};
ghost use Rattle.inc_text.specs.Ascii.{blank, line_feed};

use crate::ahead::LONGEST_LINE;
use crate::lines::blank_before;
use crate::placed_marks::placed_mark;
use inc_graph::{Cost, LentMark, Mark};
use inc_lookup::LONGEST_PATH;
use std::alloc::{AllocError, Global};

/// The most digits of a number of a text.
const MOST_DIGITS: usize = 10;

/// The most digits of a number that is read without a look at how great it is.
const FEW_DIGITS: usize = 9;

/// A number that a text begins with, and how many digits it has.
#[derive(Clone, Copy)]
struct FrontNumber {
    value: u32,
    digits: usize,
}

/// How many directives a chain has, and how often it counts.
#[derive(Clone, Copy, Debug, PartialEq, Eq)]
pub(crate) struct ChainHead {
    pub length: u32,
    pub count: u32,
}

/// The number that these digits write, without leading zeros.
pub fn number_in(digits: &[u8]) -> Option<u32>
    ensures { result ≡ number_in digits.now }
{
    if digits.is_empty() || digits.len() > MOST_DIGITS {
        return None;
    }
    if digits[0] == b'0' && digits.len() > 1 {
        return None;
    }
    let mut value: u64 = 0;
    for digit in digits {
        if !digit.is_ascii_digit() {
            return None;
        }
        value = value * 10 + u64::from(*digit - b'0');
    }
    small(value)
}

/// The number, if a text may hold it.
fn small(value: u64) -> Option<u32>
    ensures { result ≡ (if nat_le value greatest_number then Some value else None) }
{
    if value <= u64::from(u32::MAX) {
        Some(value as u32)
    } else {
        None
    }
}

/// Where the first space is.
fn first_blank(text: &[u8]) -> Option<usize>
    ensures { result ≡ position (λ b. b == blank) text.now }
{
    text.iter().position(|b| *b == b' ')
}

/// The same, by vectors.
#[inline(always)]
fn blank_in(text: &[u8]) -> Option<usize>
    ensures { result ≡ position (λ b. b == blank) text.now }
{
    blank_before(text, text.len())
}

/// The digits that a text begins with, at most so many of them.
#[inline(always)]
fn front_digits(text: &[u8], most: usize) -> FrontNumber
    requires few { most ≤ 9 }
    requires within { most ≤ length text.now }
    ensures most { result.digits ≤ most }
    ensures digits { AllDigits 10 (take result.digits text.now) }
    ensures value { result.value ≡ digits_value 10 (take result.digits text.now) }
{
    let mut value: u32 = 0;
    let mut digits = 0;
    while digits < most && text[digits].is_ascii_digit() {
        value = value * 10 + u32::from(text[digits] - b'0');
        digits += 1;
    }
    FrontNumber { value, digits }
}

/// As many bytes of a line of this length as a number of few digits has, or all of them.
#[inline(always)]
fn few_of(len: usize) -> usize
    ensures few { result ≤ 9 }
    ensures within { result ≤ len }
{
    if len < FEW_DIGITS { len } else { FEW_DIGITS }
}

/// The number before the first space of a line, the first of a text, which ends here. `None` where it has more digits than most
/// lines do, or is none.
#[inline(always)]
fn front_number(text: &[u8], end: usize) -> Option<FrontNumber>
    requires { position (λ b. b == line_feed) text.now ≡ Some end }
    ensures { IfSome result (λ n. (Some n.digits ≡ position (λ b. b == blank) (take end text.now))
        × (Some n.value ≡ number_in (take n.digits (take end text.now)))) }
{
    let most = few_of(end);
    let number = front_digits(text, most);
    if number.digits == 0 {
        return None;
    }
    if text[0] == b'0' {
        return None;
    }
    if text[number.digits] == b' ' {
        Some(number)
    } else {
        None
    }
}

/// The directive that a line names: the first of a text, which ends here. Nothing behind the line is read, so lines without a space
/// cost no more than others.
#[inline(always)]
pub fn mark_in(alloc: Global, text: &[u8], end: usize) -> Result<Option<Mark>, AllocError>
    requires { position (λ b. b == line_feed) text.now ≡ Some end }
    ensures { IfOk result (λ mark. mark ≡ mark_in (take end text.now)) }
{
    let line = &text[..end];
    let Some(blank) = blank_in(line) else {
        return Ok(None);
    };
    let Some(number) = number_in(&line[..blank]) else {
        return Ok(None);
    };
    let at = blank + 1;
    Mark::in_front(alloc, &text[at..], end - at, number)
}

/// The same, with its path lent from the text.
#[inline(always)]
pub(crate) fn lent_mark_in(text: &[u8], end: usize) -> Option<LentMark<'_>>
    requires { position (λ b. b == line_feed) text.now ≡ Some end }
    ensures { result ≡ mark_in (take end text.now) }
{
    // Most lines have few digits.
    let Some(number) = front_number(text, end) else {
        return any_mark_in(text, end);
    };
    let at = number.digits + 1;
    LentMark::in_front(&text[at..], end - at, number.value)
}

/// The same, whatever the line begins with.
fn any_mark_in(text: &[u8], end: usize) -> Option<LentMark<'_>>
    requires { position (λ b. b == line_feed) text.now ≡ Some end }
    ensures { result ≡ mark_in (take end text.now) }
{
    let line = &text[..end];
    let Some(blank) = blank_before(text, end) else {
        return None;
    };
    let Some(number) = number_in(&line[..blank]) else {
        return None;
    };
    let at = blank + 1;
    LentMark::in_front(&text[at..], end - at, number)
}

/// The directive that a line of a list names: the first of a text, which ends here. A line that is `LINE PATH` is taken as that, whatever
/// its path holds.
#[inline(always)]
fn listed_mark_in(text: &[u8], end: usize) -> Option<LentMark<'_>>
    requires { position (λ b. b == line_feed) text.now ≡ Some end }
    ensures { result ≡ listed_mark (take end text.now) }
{
    // Most lines are as they are printed.
    if let Some(mark) = lent_mark_in(text, end) {
        return Some(mark);
    }
    placed_mark(&text[..end])
}

/// The directive that a line of a certificate names. Its path is no longer than that of a file may be, and the line no longer than one
/// of which the end is read, wherever the text comes from.
#[inline(always)]
pub(crate) fn short_mark_in(text: &[u8], end: usize) -> Option<LentMark<'_>>
    requires { position (λ b. b == line_feed) text.now ≡ Some end }
    ensures { result ≡ short_mark_in (take end text.now) }
{
    if end > LONGEST_LINE {
        return None;
    }
    let Some(mark) = listed_mark_in(text, end) else {
        return None;
    };
    if mark.path().len() > LONGEST_PATH {
        return None;
    }
    Some(mark)
}

/// The cost that a line gives a directive: the first of a text, which ends here.
#[inline(always)]
pub(crate) fn cost_in(text: &[u8], end: usize) -> Option<Cost<'_>>
    requires { position (λ b. b == line_feed) text.now ≡ Some end }
    ensures { result ≡ cost_in (take end text.now) }
{
    // Most lines have few digits.
    let Some(amount) = front_number(text, end) else {
        return any_cost_in(text, end);
    };
    let at = amount.digits + 1;
    let mark = lent_mark_in(&text[at..], end - at);
    cost_with(Some(amount.value), mark)
}

/// The same, whatever the line begins with.
fn any_cost_in(text: &[u8], end: usize) -> Option<Cost<'_>>
    requires { position (λ b. b == line_feed) text.now ≡ Some end }
    ensures { result ≡ cost_in (take end text.now) }
{
    let line = &text[..end];
    let Some(blank) = blank_before(text, end) else {
        return None;
    };
    let amount = number_in(&line[..blank]);
    let at = blank + 1;
    let mark = lent_mark_in(&text[at..], end - at);
    cost_with(amount, mark)
}

/// The cost of so much for this directive.
#[inline(always)]
fn cost_with(amount: Option<u32>, mark: Option<LentMark<'_>>) -> Option<Cost<'_>>
    ensures { result ≡ cost_with amount mark.entry }
{
    match amount {
        Some(amount) => match mark {
            Some(mark) => Cost::new(mark, amount),
            None => None,
        },
        None => None,
    }
}

/// The number after a word.
pub fn number_behind(word: &[u8], text: &[u8]) -> Option<u32>
    ensures { result ≡ number_behind word.now text.now }
{
    match text.strip_prefix(word) {
        Some(digits) => number_in(digits),
        None => None,
    }
}

/// Whether a line is the head of a chain of one directive that counts once.
#[inline(always)]
fn is_one(line: &[u8]) -> bool
    ensures { OnTrue result (line.now ≡ codes "chain 1") }
{
    matches!(line, [b'c', b'h', b'a', b'i', b'n', b' ', b'1'])
}

/// The head of a chain. One that counts once does not say so.
#[inline(always)]
pub(crate) fn head_in(line: &[u8]) -> Option<ChainHead>
    ensures { result ≡ head_in line.now }
{
    // Most heads of chains of one directive.
    if is_one(line) {
        return Some(ChainHead {
            length: 1,
            count: 1,
        });
    }
    match line.strip_prefix(b"chain ".as_slice()) {
        Some(text) => head_behind(text),
        None => None,
    }
}

/// The same of what is after the word.
fn head_behind(text: &[u8]) -> Option<ChainHead>
    ensures { result ≡ head_at_blank text.now (position (λ b. b == blank) text.now) }
{
    match first_blank(text) {
        Some(blank) => head_at(&text[..blank], &text[blank..]),
        None => head_once(text),
    }
}

/// The head of a chain that counts once.
fn head_once(digits: &[u8]) -> Option<ChainHead>
    ensures { result ≡ head_at_blank digits.now None }
{
    let length = number_in(digits)?;
    Some(ChainHead { length, count: 1 })
}

/// The head of a chain that says how often it counts.
fn head_at(digits: &[u8], rest: &[u8]) -> Option<ChainHead>
    ensures { result ≡ head_of (number_in digits.now) (number_behind (codes " times ") rest.now) }
{
    let length = number_in(digits)?;
    head_with(length, number_behind(b" times ", rest))
}

/// The head of a chain of so many directives.
fn head_with(length: u32, count: Option<u32>) -> Option<ChainHead>
    ensures { result ≡ head_of (Some length) count }
{
    match count {
        Some(count) => {
            if count > 1 {
                Some(ChainHead { length, count })
            } else {
                None
            }
        }
        None => None,
    }
}
