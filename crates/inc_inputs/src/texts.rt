//! The lists that a question about a project rests on.
ghost use Rattle.std.specs.Prelude.{◌≡◌, ℕ, List, Ok, Err, IfOk, IfErr, map, option_map};
ghost use Rattle.inc_check.specs.Texts.{IsCostsText, CostsFormat, IsMalformed, whole_lines};
ghost use Rattle.inc_inputs.specs.MarkLists.{first_line, lines_of, marks_in, no_marks};
ghost use Rattle.inc_inputs.specs.Reports.{report_of, IsListReport};
ghost use Rattle.inc_inputs.specs.Texts.{are_twice, marks_of, texts_beside, texts_by, texts_of};
ghost use Rattle.inc_inputs.specs.Steps.{Comes, reads, reads_if};
ghost use Rattle.inc_inputs.specs.Views.{mark_list_in, seen_mark_list, seen_text, seen_texts, texts_in};
ghost use Rattle.inc_args.specs.Views.{seen_limits, seen_question};

use crate::failures::{Failure, list_failure, read_failure};
use crate::inputs::{Inputs, read_named};
use crate::mark_lists::{first_line, marks_in};
use crate::project_lists::read_list;
use inc_args::{LimitArgs, QuestionArgs};
use inc_check::{read_costs, whole_lines};
use inc_graph::{Cost, Mark};
use std::alloc::Global;

/// What was read for a question.
#[derive(Drop)]
pub struct Texts {
    /// The list of the project's files.
    pub list: Vec<u8>,
    /// The directives that may not be removed.
    pub fixed: Vec<Mark>,
    /// Those that are taken as removed.
    pub without: Vec<Mark>,
    /// What the others cost, each line ended by LF alone.
    pub costs: Vec<u8>,
    /// Where these lists begin.
    pub firsts: Firsts,
}

/// The lines of the first directives of lists.
#[derive(Clone, Copy)]
pub struct Firsts {
    pub without: usize,
    pub fixed: usize,
}

/// A list of directives that was read.
#[derive(Drop)]
pub(crate) struct MarkList {
    pub(crate) marks: Vec<Mark>,
    /// The line of the first.
    pub(crate) first: usize,
}

impl MarkList {
    /// A list that is not there.
    fn none(alloc: Global) -> MarkList
        ensures { mark_list_in result ≡ no_marks }
    {
        MarkList {
            marks: Vec::new(alloc),
            first: 1,
        }
    }
}

/// Whether of several words more than one is `-`, standard input, which can be read only once.
pub fn are_twice(names: &[Option<&str>]) -> bool
    ensures { result ≡ are_twice (map (option_map (λ n. n.now)) names.now) }
{
    let count = names.iter().filter(|name| **name == Some("-")).count();
    count > 1
}

/// Reads what a question rests on.
pub fn read_texts<I: Inputs>(
    alloc: Global,
    inputs: &mut I,
    question: &QuestionArgs<'_>,
    limits: &LimitArgs<'_>,
) -> Result<Texts, Failure>
    ensures { Comes (texts_of I.gives (seen_question question.now) (seen_limits limits.now))
        inputs.old (seen_texts result) inputs.new }
{
    let list = read_list(alloc, inputs, &question.files)?;
    read_texts_beside(alloc, inputs, list, question, limits)
}

/// The same where the list is known.
pub fn read_texts_beside<I: Inputs>(
    alloc: Global,
    inputs: &mut I,
    list: Vec<u8>,
    question: &QuestionArgs<'_>,
    limits: &LimitArgs<'_>,
) -> Result<Texts, Failure>
    ensures { Comes (texts_beside I.gives list.items (seen_question question.now) (seen_limits limits.now))
        inputs.old (seen_texts result) inputs.new }
{
    let fixed = read_directives(alloc, inputs, limits.fixed)?;
    let without = read_directives(alloc, inputs, question.without)?;
    let costs = whole_lines(alloc, read_text_if(alloc, inputs, limits.costs)?)?;
    Ok(texts_by(list, fixed, without, costs))
}

/// What was read, by its parts.
fn texts_by(list: Vec<u8>, fixed: MarkList, without: MarkList, costs: Vec<u8>) -> Texts
    ensures { (text : List ℕ) → costs.items ≡ whole_lines text →
        texts_in result ≡ texts_by list.items (mark_list_in fixed) (mark_list_in without) text }
{
    let firsts = Firsts {
        without: without.first,
        fixed: fixed.first,
    };
    Texts {
        list,
        fixed: fixed.marks,
        without: without.marks,
        costs,
        firsts,
    }
}

/// The text that a word names.
pub(crate) fn read_text<I: Inputs>(
    alloc: Global,
    inputs: &mut I,
    name: &str,
) -> Result<Vec<u8>, Failure>
    ensures { Comes (reads I.gives name.now) inputs.old (seen_text result) inputs.new }
{
    match read_named(alloc, inputs, name) {
        Ok(text) => Ok(text),
        Err(fault) => Err(read_failure(alloc, fault, name.as_bytes())?),
    }
}

/// The same; an empty one where nothing is named.
fn read_text_if<I: Inputs>(
    alloc: Global,
    inputs: &mut I,
    name: Option<&str>,
) -> Result<Vec<u8>, Failure>
    ensures { Comes (reads_if I.gives (option_map (λ n. n.now) name.entry)) inputs.old (seen_text result) inputs.new }
{
    match name {
        Some(name) => read_text(alloc, inputs, name),
        None => Ok(Vec::new(alloc)),
    }
}

/// The directives of a list; none where no list is named.
pub(crate) fn read_directives<I: Inputs>(
    alloc: Global,
    inputs: &mut I,
    name: Option<&str>,
) -> Result<MarkList, Failure>
    ensures { Comes (marks_of I.gives (option_map (λ n. n.now) name.entry)) inputs.old (seen_mark_list result) inputs.new }
{
    let Some(name) = name else {
        return Ok(MarkList::none(alloc));
    };
    let text = whole_lines(alloc, read_text(alloc, inputs, name)?)?;
    list_of(alloc, &text, name)
}

/// The list of directives that has a text and this name.
fn list_of(alloc: Global, text: &[u8], name: &str) -> Result<MarkList, Failure>
    ensures read { IfOk result (λ list. marks_in (lines_of text.now) ≡ Ok list.marks.items) }
    ensures first { IfOk result (λ list. list.first ≡ first_line (lines_of text.now)) }
    ensures fault { IfErr result (λ failure.
        IsListReport (λ line. marks_in (lines_of text.now) ≡ Err line) name.now (report_of failure)) }
{
    match marks_of(alloc, text, name) {
        Ok(marks) => Ok(MarkList {
            marks,
            first: first_line(text),
        }),
        Err(failure) => Err(failure),
    }
}

/// The directives of a text, which is that of the list of this name.
fn marks_of(alloc: Global, text: &[u8], name: &str) -> Result<Vec<Mark>, Failure>
    ensures read { IfOk result (λ marks. marks_in (lines_of text.now) ≡ Ok marks.items) }
    ensures fault { IfErr result (λ failure.
        IsListReport (λ line. marks_in (lines_of text.now) ≡ Err line) name.now (report_of failure)) }
{
    match marks_in(alloc, text) {
        Ok(marks) => Ok(marks),
        Err(fault) => Err(list_failure(alloc, fault, name.as_bytes())?),
    }
}

/// The costs of a text, which is that of the list of this name.
pub fn costs_of<'t>(alloc: Global, text: &'t [u8], name: &str) -> Result<Vec<Cost<'t>>, Failure>
    ensures read { IfOk result (λ costs. IsCostsText text.now costs.items) }
    ensures fault { IfErr result (λ failure.
        IsListReport (IsMalformed CostsFormat text.now) name.now (report_of failure)) }
{
    match read_costs(alloc, text) {
        Ok(costs) => Ok(costs),
        Err(fault) => Err(list_failure(alloc, fault, name.as_bytes())?),
    }
}
