//! Words that are globs: of names of headers that another project has, and of files that are left out.
ghost use Rattle.std.specs.Prelude.{◌≡◌, ◌≢◌, ℕ, List, None, Some, false, filter_map, map, IfOk, MatchOption};
ghost use Rattle.std.specs.List.{list_any};
ghost use Rattle.inc_args.specs.Views.{seen_files, seen_question};
ghost use Rattle.inc_globs.specs.Globs.{fits, pieces};
ghost use Rattle.inc_inputs.specs.GlobWords.{exclude_report, globs_report, is_excluded, named_report, pattern_report};
ghost use Rattle.inc_inputs.specs.Reports.{out_of_memory, report_of};

use crate::failures::{Failure, glob_failure};
use crate::undefined_names::names_failure;
use inc_args::{FileList, QuestionArgs};
use inc_globs::{Glob, GlobFault};
use inc_lookup::normalise;
use inc_text::Language;
use std::alloc::{AllocError, Global};
use std::marker::Model;

/// What is to be reported of the words of a question, whatever the project: of the first name that a build cannot leave undefined, or of
/// the first word that is no glob.
pub fn named_failure(
    alloc: Global,
    language: Language,
    question: &QuestionArgs<'_>,
) -> Option<Failure>
    ensures { MatchOption result (named_report language (seen_question question.now) ≡ None)
        (λ failure. report_of failure ≢ out_of_memory →
        named_report language (seen_question question.now) ≡ Some (report_of failure)) }
{
    if let Some(failure) = names_failure(alloc, language, &question.undefined) {
        return Some(failure);
    }
    pattern_failure(alloc, question)
}

/// The same of the words that are globs: those for headers of another project, and then those for files that are left out.
fn pattern_failure(alloc: Global, question: &QuestionArgs<'_>) -> Option<Failure>
    ensures { MatchOption result (pattern_report (seen_question question.now) ≡ None)
        (λ failure. report_of failure ≢ out_of_memory →
        pattern_report (seen_question question.now) ≡ Some (report_of failure)) }
{
    if let Some(failure) = globs_failure(alloc, "--external", &question.external) {
        return Some(failure);
    }
    exclude_failure(alloc, &question.files)
}

/// What is to be reported of the first word for files that are left out that is no glob.
pub fn exclude_failure(alloc: Global, files: &FileList<'_>) -> Option<Failure>
    ensures { MatchOption result (exclude_report (seen_files files.now) ≡ None)
        (λ failure. report_of failure ≢ out_of_memory →
        exclude_report (seen_files files.now) ≡ Some (report_of failure)) }
{
    globs_failure(alloc, "--exclude", &files.exclude)
}

/// The same of the words of an option.
fn globs_failure(alloc: Global, option: &str, words: &[&str]) -> Option<Failure>
    ensures { MatchOption result (globs_report option.now (map (λ w. w.now) words.now) ≡ None)
        (λ failure. report_of failure ≢ out_of_memory →
        globs_report option.now (map (λ w. w.now) words.now) ≡ Some (report_of failure)) }
{
    for word in words {
        match Glob::new(alloc, word.as_bytes()) {
            Ok(_) => {}
            Err(GlobFault::Unterminated) => {
                return Some(glob_failure(alloc, option, word.as_bytes()));
            }
            Err(GlobFault::NoMemory) => return Some(Failure::NoMemory),
        }
    }
    None
}

/// Globs of files that are left out of a project.
#[derive(Drop)]
pub struct Excluded<'w> {
    alloc: Global,
    globs: Vec<Glob<'w>>,
}

impl<'w> Model for Excluded<'w> {
    ghost use Rattle.std.specs.Prelude.{List};
    ghost use Rattle.inc_globs.specs.Globs.{Piece};

    ghost Value = { List (List Piece) };

    ghost view = { λ e. e.globs.items };
}

impl<'w> Excluded<'w> {
    /// Those of the words of `--exclude`; one that is no glob leaves nothing out.
    pub fn new(alloc: Global, words: &[&'w str]) -> Result<Excluded<'w>, AllocError>
        ensures { IfOk result (λ e. e ≡ filter_map pieces (map (λ w. w.now) words.now)) }
    {
        let mut globs = Vec::new(alloc);
        for word in words {
            match Glob::new(alloc, word.as_bytes()) {
                Ok(glob) => globs.push(glob)?,
                Err(GlobFault::Unterminated) => {}
                Err(GlobFault::NoMemory) => return Err(AllocError),
            }
        }
        Ok(Excluded { alloc, globs })
    }

    /// Whether the file at this path is one of them: takes a step for each glob, each part of it and each byte.
    pub fn has(&mut self, path: &[u8]) -> Result<bool, AllocError>
        ensures has { (words : List (List ℕ)) → self.old ≡ filter_map pieces words → IfOk result (λ yes. yes ≡ is_excluded words path.now) }
        ensures same { self.new ≡ self.old }
    {
        match normalise(self.alloc, path)? {
            Some(form) => fits_any(&mut self.globs, &form),
            None => Ok(false),
        }
    }
}

/// Whether one of some globs fits a path.
fn fits_any(globs: &mut Vec<Glob<'_>>, path: &[u8]) -> Result<bool, AllocError>
    ensures fits { IfOk result (λ yes. yes ≡ list_any (λ ps. fits ps path.now) globs.old.items) }
    ensures same { globs.new.items ≡ globs.old.items }
{
    for index in 0..globs.len() {
        if globs[index].fits(path)? {
            return Ok(true);
        }
    }
    Ok(false)
}
