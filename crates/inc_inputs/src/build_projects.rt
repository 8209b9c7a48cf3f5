//! The project that a question with a build is about, and the words that stand in place of those of the question.
ghost use Rattle.std.specs.Prelude.{◌≡◌, ◌≢◌, ◌++◌, [], ◌∷◌, None, Some, Err, Ok, false, true, IfErr, IfOk, OnOk, map, option_map};
ghost use Rattle.inc_args.specs.Views.{seen_files, seen_pp, seen_question};
ghost use Rattle.inc_inputs.specs.BuildProjects as spec;
ghost use Rattle.inc_inputs.specs.BuildReports.{skipped_line, some_lines};
ghost use Rattle.inc_inputs.specs.BuildSteps.{found, found_by, found_here, found_if, found_in, found_of_command, found_of_words, found_on};
ghost use Rattle.inc_inputs.specs.Reports.{not_utf8, out_of_memory, report_of};
ghost use Rattle.std.specs.Str.{is_utf8};
ghost use Rattle.inc_inputs.specs.Steps.{Comes};
ghost use Rattle.inc_inputs.specs.Views.{added_in, chosen_in, database_in, dirs_in, ground_in, project_in, seen_found, seen_project, words_in};

use crate::build_choices::{BuildWords, Choice, choose, header_form};
use crate::build_dirs::{Dirs, all_dirs, other_dirs};
use crate::build_empty::put_empty;
use crate::build_entries::{check_uses, first_macros, rows_at, skipped_notes, skipped_of};
use crate::build_files::{BuildFiles, read_files};
use crate::build_grounds::{
    Database, Ground, command_ground, ground_of, read_here, read_named_database,
};
use crate::build_macros::MacroWord;
use crate::build_sources::{BuildSource, compiled_of, used_paths};
use crate::build_texts::put_absent;
use crate::failures::Failure;
use crate::inputs::Inputs;
use inc_args::{FileList, PpArgs, QuestionArgs};
use inc_build::Use;
use inc_text::SeededState;
use indexmap::IndexSet;
use std::alloc::{AllocError, Global};
use std::str;

/// A project as data: what is read for it, and the words in place of those of the question.
#[derive(Drop)]
pub struct BuildProject {
    /// The paths of its files, each ended by NUL.
    pub list: Vec<u8>,
    dirs: Dirs,
    sources: Vec<Vec<u8>>,
    headers: Vec<Vec<u8>>,
    /// The words for macros of its entries.
    pub macros: Vec<MacroWord>,
    /// What it adds to those of the question.
    pub added: Added,
}

/// What a build adds to the words of a question.
#[derive(Drop)]
pub struct Added {
    /// Whether there is a build.
    pub is_build: bool,
    /// What is noted.
    pub notes: Vec<u8>,
    /// The directories of the include paths beside the project's own.
    pub others: Vec<Dirs>,
    /// With which include paths the sources are compiled; none where there is one.
    pub compiled: Vec<BuildSource>,
}

impl Added {
    /// Nothing, where there is no build.
    pub fn none(alloc: Global) -> Added
        ensures { added_in result ≡ spec.none_added }
    {
        Added {
            is_build: false,
            notes: Vec::new(alloc),
            others: Vec::new(alloc),
            compiled: Vec::new(alloc),
        }
    }
}

/// The project of a question, if there is a build.
pub fn find_question<I: Inputs>(
    alloc: Global,
    seed: u64,
    inputs: &mut I,
    question: &QuestionArgs<'_>,
) -> Result<Option<BuildProject>, Failure>
    ensures { let q = seen_question question.now in
        Comes (found_if I.gives q.files (spec.words_of_question q)) inputs.old (seen_project result) inputs.new }
{
    match question_words(alloc, question) {
        Ok(words) => find_if(alloc, seed, inputs, &question.files, &words),
        Err(_) => Err(Failure::NoMemory),
    }
}

/// What a question asks of a build.
fn question_words<'a>(
    alloc: Global,
    question: &QuestionArgs<'a>,
) -> Result<BuildWords<'a>, AllocError>
    ensures { IfOk result (λ words. words_in words ≡ spec.words_of_question (seen_question question.now)) }
{
    Ok(BuildWords {
        sources: alone_or(alloc, question.source, &question.from)?,
        headers: alone_or(alloc, question.header, &question.to)?,
        has_globs: question.source.is_none(),
        has_macros: false,
    })
}

/// The project of a preprocessing, if there is a build.
pub fn find_preprocessing<I: Inputs>(
    alloc: Global,
    seed: u64,
    inputs: &mut I,
    args: &PpArgs<'_>,
) -> Result<Option<BuildProject>, Failure>
    ensures { let p = seen_pp args.now in
        Comes (found_if I.gives p.files (spec.words_of_pp p)) inputs.old (seen_project result) inputs.new }
{
    match pp_words(alloc, args) {
        Ok(words) => find_if(alloc, seed, inputs, &args.files, &words),
        Err(_) => Err(Failure::NoMemory),
    }
}

/// What a preprocessing asks of a build.
fn pp_words<'a>(alloc: Global, args: &PpArgs<'a>) -> Result<BuildWords<'a>, AllocError>
    ensures { IfOk result (λ words. words_in words ≡ spec.words_of_pp (seen_pp args.now)) }
{
    Ok(BuildWords {
        sources: Vec::from_slice(alloc, &args.sources)?,
        headers: Vec::new(alloc),
        has_globs: false,
        has_macros: true,
    })
}

/// A word, or those of an option where there is none.
fn alone_or<'a>(
    alloc: Global,
    word: Option<&'a str>,
    words: &[&'a str],
) -> Result<Vec<&'a str>, AllocError>
    ensures { IfOk result (λ all. map (λ w. w.now) all.items
        ≡ spec.or_words (option_map (λ w. w.now) word.entry) (map (λ w. w.now) words.now)) }
{
    let Some(word) = word else {
        return Vec::from_slice(alloc, words);
    };
    let mut alone = Vec::new(alloc);
    alone.push(word)?;
    Ok(alone)
}

/// The project of a build, if a word names one, or words are a compiler's command; both exclude each other.
fn find_if<I: Inputs>(
    alloc: Global,
    seed: u64,
    inputs: &mut I,
    files: &FileList<'_>,
    words: &BuildWords<'_>,
) -> Result<Option<BuildProject>, Failure>
    ensures { Comes (found_if I.gives (seen_files files.now) (words_in words.now)) inputs.old (seen_project result) inputs.new }
{
    match files.build {
        Some(_) if !files.command.is_empty() => Err(Failure::TwoBuilds),
        Some(build) => find_named(alloc, seed, inputs, build, files, words),
        None if !files.command.is_empty() => find_command(alloc, seed, inputs, files, words),
        None => Ok(None),
    }
}

/// The project of a compiler's command.
fn find_command<I: Inputs>(
    alloc: Global,
    seed: u64,
    inputs: &mut I,
    files: &FileList<'_>,
    words: &BuildWords<'_>,
) -> Result<Option<BuildProject>, Failure>
    ensures { Comes (found_of_words I.gives (seen_files files.now) (words_in words.now) None true) inputs.old (seen_project result) inputs.new }
{
    match find_run(alloc, seed, inputs, files, words) {
        Ok(found) => Ok(Some(found)),
        Err(failure) => Err(failure),
    }
}

/// The same, once the folder of the run is read.
fn find_run<I: Inputs>(
    alloc: Global,
    seed: u64,
    inputs: &mut I,
    files: &FileList<'_>,
    words: &BuildWords<'_>,
) -> Result<BuildProject, Failure>
    ensures { Comes (found_of_command I.gives (seen_files files.now) (words_in words.now)) inputs.old (seen_found result) inputs.new }
{
    match read_here(alloc, inputs) {
        Ok(here) => find_here(alloc, seed, inputs, here, files, words),
        Err(failure) => Err(failure),
    }
}

/// The same in a folder of the run.
fn find_here<I: Inputs>(
    alloc: Global,
    seed: u64,
    inputs: &mut I,
    here: Vec<u8>,
    files: &FileList<'_>,
    words: &BuildWords<'_>,
) -> Result<BuildProject, Failure>
    ensures { Comes (found_here I.gives here.items (seen_files files.now) (words_in words.now)) inputs.old (seen_found result) inputs.new }
{
    match command_ground(alloc, seed, here, files) {
        Ok(ground) => find_on(alloc, seed, inputs, &ground, files, words),
        Err(failure) => Err(failure),
    }
}

/// The project of the build that a word names.
fn find_named<I: Inputs>(
    alloc: Global,
    seed: u64,
    inputs: &mut I,
    build: &str,
    files: &FileList<'_>,
    words: &BuildWords<'_>,
) -> Result<Option<BuildProject>, Failure>
    ensures { Comes (found_of_words I.gives (seen_files files.now) (words_in words.now) (Some build.now) false) inputs.old (seen_project result) inputs.new }
{
    match find(alloc, seed, inputs, build, files, words) {
        Ok(found) => Ok(Some(found)),
        Err(failure) => Err(failure),
    }
}

/// Reads what a project rests on, finds its files, and then what words stand for.
fn find<I: Inputs>(
    alloc: Global,
    seed: u64,
    inputs: &mut I,
    build: &str,
    files: &FileList<'_>,
    words: &BuildWords<'_>,
) -> Result<BuildProject, Failure>
    ensures { Comes (found I.gives build.now (seen_files files.now) (words_in words.now)) inputs.old (seen_found result) inputs.new }
{
    match read_here(alloc, inputs) {
        Ok(here) => find_in(alloc, seed, inputs, here, build, files, words),
        Err(failure) => Err(failure),
    }
}

/// The same in a folder of the run.
fn find_in<I: Inputs>(
    alloc: Global,
    seed: u64,
    inputs: &mut I,
    here: Vec<u8>,
    build: &str,
    files: &FileList<'_>,
    words: &BuildWords<'_>,
) -> Result<BuildProject, Failure>
    ensures { Comes (found_in I.gives here.items build.now (seen_files files.now) (words_in words.now)) inputs.old (seen_found result) inputs.new }
{
    match read_named_database(alloc, inputs, build) {
        Ok(database) => find_by(alloc, seed, inputs, here, &database, files, words),
        Err(failure) => Err(failure),
    }
}

/// The same by a database.
fn find_by<I: Inputs>(
    alloc: Global,
    seed: u64,
    inputs: &mut I,
    here: Vec<u8>,
    database: &Database,
    files: &FileList<'_>,
    words: &BuildWords<'_>,
) -> Result<BuildProject, Failure>
    ensures { Comes (found_by I.gives here.items (database_in database.now) (seen_files files.now) (words_in words.now)) inputs.old (seen_found result) inputs.new }
{
    match ground_of(alloc, seed, here, database, files) {
        Ok(ground) => find_on(alloc, seed, inputs, &ground, files, words),
        Err(failure) => Err(failure),
    }
}

/// The same by what a project rests on.
fn find_on<I: Inputs>(
    alloc: Global,
    seed: u64,
    inputs: &mut I,
    ground: &Ground<'_>,
    files: &FileList<'_>,
    words: &BuildWords<'_>,
) -> Result<BuildProject, Failure>
    ensures { Comes (found_on I.gives (ground_in ground.now) (seen_files files.now) (words_in words.now)) inputs.old (seen_found result) inputs.new }
{
    match read_files(alloc, seed, inputs, ground, files) {
        Ok(found) => project_by(alloc, seed, ground, &found, files, words),
        Err(failure) => Err(failure),
    }
}

/// The project by its files.
fn project_by(
    alloc: Global,
    seed: u64,
    ground: &Ground<'_>,
    found: &BuildFiles,
    files: &FileList<'_>,
    words: &BuildWords<'_>,
) -> Result<BuildProject, Failure>
    ensures { let g = ground_in ground.now in let w = words_in words.now in seen_found result ≢ Err out_of_memory →
        seen_found result ≡ spec.found_by_choice g found.now (seen_files files.now) w (spec.chosen g found.now w) }
{
    match choose(alloc, seed, ground, found, words) {
        Ok(choice) => project_of(alloc, seed, ground, found, files, words, choice),
        Err(failure) => Err(failure),
    }
}

/// The project of the entries that are chosen.
fn project_of(
    alloc: Global,
    seed: u64,
    ground: &Ground<'_>,
    found: &BuildFiles,
    files: &FileList<'_>,
    words: &BuildWords<'_>,
    choice: Choice,
) -> Result<BuildProject, Failure>
    ensures { seen_found result ≢ Err out_of_memory → seen_found result
        ≡ spec.found_by_choice (ground_in ground.now) found.now (seen_files files.now) (words_in words.now) (Ok (chosen_in choice)) }
{
    match check_uses(alloc, ground, words.has_macros, &choice.uses) {
        Ok(()) => checked_project(alloc, seed, ground, found, files, &words.headers, choice),
        Err(failure) => Err(failure),
    }
}

/// The project of entries that are not refused.
fn checked_project(
    alloc: Global,
    seed: u64,
    ground: &Ground<'_>,
    found: &BuildFiles,
    files: &FileList<'_>,
    headers: &[&str],
    choice: Choice,
) -> Result<BuildProject, Failure>
    ensures { seen_found result ≢ Err out_of_memory → seen_found result
        ≡ Ok (spec.found_of_uses (ground_in ground.now) found.now (map (λ h. h.now) headers.now) (seen_files files.now) (chosen_in choice)) }
{
    match made_project(alloc, seed, ground, found, files, headers, choice) {
        Ok(project) => Ok(project),
        Err(_) => Err(Failure::NoMemory),
    }
}

/// The same, or that memory ran out.
fn made_project(
    alloc: Global,
    seed: u64,
    ground: &Ground<'_>,
    found: &BuildFiles,
    files: &FileList<'_>,
    headers: &[&str],
    choice: Choice,
) -> Result<BuildProject, AllocError>
    ensures { IfOk result (λ project. project_in project
        ≡ spec.found_of_uses (ground_in ground.now) found.now (map (λ h. h.now) headers.now) (seen_files files.now) (chosen_in choice)) }
{
    let dirs = all_dirs(alloc, ground, rows_at(ground, &choice.uses), files)?;
    let used = used_paths(alloc, seed, &choice.uses)?;
    let added = added_by(alloc, seed, ground, found, files, &choice, &dirs, &used)?;
    let headers = headers_of(alloc, ground, found, headers)?;
    let macros = first_macros(alloc, ground, &choice.uses)?;
    let list = found.list(alloc)?;
    Ok(BuildProject {
        list,
        dirs,
        sources: choice.sources,
        headers,
        macros,
        added,
    })
}

/// What is added by include paths with these numbers, of which the first has these directories.
fn added_by(
    alloc: Global,
    seed: u64,
    ground: &Ground<'_>,
    found: &BuildFiles,
    files: &FileList<'_>,
    choice: &Choice,
    own: &Dirs,
    used: &IndexSet<usize, SeededState>,
) -> Result<Added, AllocError>
    ensures { let g = ground_in ground.now in let u = used.now.keys in IfOk result (λ added. added_in added
        ≡ spec.added_by g found.now (chosen_in choice.now) (dirs_in own.now) (spec.other_dirs g (seen_files files.now) u) (spec.compiled_of g u)) }
{
    let others = other_dirs(alloc, ground, used.as_slice(), files)?;
    let compiled = compiled_of(alloc, ground, used)?;
    let notes = notes_of(alloc, seed, ground, found, choice, own, &others)?;
    Ok(Added {
        is_build: true,
        notes,
        others,
        compiled,
    })
}

/// Words for headers in their form.
fn headers_of(
    alloc: Global,
    ground: &Ground<'_>,
    found: &BuildFiles,
    words: &[&str],
) -> Result<Vec<Vec<u8>>, AllocError>
    ensures { IfOk result (λ headers. map (λ h. h.items) headers.items
        ≡ map (spec.header_form (ground_in ground.now) found.now) (map (λ w. w.now) words.now)) }
{
    let mut headers = Vec::new(alloc);
    for word in words {
        headers.push(header_form(alloc, ground, found, word.as_bytes())?)?;
    }
    Ok(headers)
}

/// What is noted of a project with an include path and others.
fn notes_of(
    alloc: Global,
    seed: u64,
    ground: &Ground<'_>,
    found: &BuildFiles,
    choice: &Choice,
    own: &Dirs,
    others: &[Dirs],
) -> Result<Vec<u8>, AllocError>
    ensures { let g = ground_in ground.now in let c = chosen_in choice.now in IfOk result (λ notes. notes.items
        ≡ spec.notes_of g.name found.now c.absent (spec.skipped_of g.entries [] c.uses) (dirs_in own.now ∷ map dirs_in others.now)) }
{
    let mut notes = Vec::new(alloc);
    put_absent(alloc, &mut notes, ground.name, choice.absent)?;
    put_skipped(alloc, seed, ground, &choice.uses, &mut notes)?;
    put_empty(alloc, seed, found, own, others, &mut notes)?;
    Ok(notes)
}

/// Adds notes of the options of entries that are skipped.
fn put_skipped(
    alloc: Global,
    seed: u64,
    ground: &Ground<'_>,
    uses: &[Use],
    notes: &mut Vec<u8>,
) -> Result<(), AllocError>
    ensures { OnOk result (notes.new.items
        ≡ notes.old.items ++ some_lines (map (skipped_line (ground_in ground.now).name) (spec.skipped_of (ground_in ground.now).entries [] uses.now))) }
{
    let skipped = skipped_of(alloc, seed, ground, uses)?;
    let own = skipped_notes(alloc, ground.name, &skipped)?;
    own.put(alloc, notes)?;
    Ok(())
}

impl BuildProject {
    /// The question with these words in place of its own.
    pub fn question<'f>(
        &'f self,
        alloc: Global,
        question: &QuestionArgs<'f>,
    ) -> Result<QuestionArgs<'f>, Failure>
        ensures question { IfOk result (λ q. seen_question q ≡ spec.found_question (project_in self.now) (seen_question question.now)) }
        ensures texts { IfOk result (λ _. spec.words_fault (project_in self.now) ≡ None) }
        ensures fault { IfErr result (λ f. report_of f ≢ out_of_memory → spec.words_fault (project_in self.now) ≡ Some (report_of f)) }
    {
        let files = self.files(alloc)?;
        let (sources, headers) = self.ends(alloc)?;
        let drop = Vec::from_slice(alloc, &question.drop)?;
        let undefined = Vec::from_slice(alloc, &question.undefined)?;
        let external = Vec::from_slice(alloc, &question.external)?;
        let source = in_place(question.source, &sources);
        let header = in_place(question.header, &headers);
        let from = unless_named(alloc, question.source, sources);
        let to = unless_named(alloc, question.header, headers);
        Ok(QuestionArgs {
            files,
            source,
            header,
            from,
            to,
            without: question.without,
            drop,
            is_strict: question.is_strict,
            external,
            undefined,
        })
    }

    /// The preprocessing with these words in place of its own.
    pub fn preprocessing<'f>(
        &'f self,
        alloc: Global,
        args: &PpArgs<'f>,
    ) -> Result<PpArgs<'f>, Failure>
        ensures words { IfOk result (λ p. seen_pp p ≡ spec.found_preprocessing (project_in self.now) (seen_pp args.now)) }
        ensures texts { IfOk result (λ _. spec.words_fault (project_in self.now) ≡ None) }
        ensures fault { IfErr result (λ f. report_of f ≢ out_of_memory → spec.words_fault (project_in self.now) ≡ Some (report_of f)) }
    {
        let files = self.files(alloc)?;
        let (sources, _) = self.ends(alloc)?;
        let words = Vec::from_slice(alloc, &args.words)?;
        Ok(PpArgs {
            files,
            sources,
            without: args.without,
            defines: args.defines,
            compiler: args.compiler,
            words,
            is_missing_empty: args.is_missing_empty,
            has_markers: args.has_markers,
            most_read: args.most_read,
            most_output: args.most_output,
            deps: args.deps,
            status: args.status,
        })
    }

    /// The words for sources and headers.
    fn ends(&self, alloc: Global) -> Result<(Vec<&str>, Vec<&str>), Failure>
        ensures sources { IfOk result (λ ends. map (λ t. t.now) ends.0.items ≡ (project_in self.now).sources) }
        ensures headers { IfOk result (λ ends. map (λ t. t.now) ends.1.items ≡ (project_in self.now).headers) }
        ensures all { IfOk result (λ _. spec.are_ends_utf8 (project_in self.now) ≡ true) }
        ensures fault { IfErr result (λ f. report_of f ≢ out_of_memory →
            (report_of f ≡ not_utf8) × (spec.are_ends_utf8 (project_in self.now) ≡ false)) }
    {
        let sources = texts_of(alloc, &self.sources)?;
        let headers = texts_of(alloc, &self.headers)?;
        Ok((sources, headers))
    }

    /// The files of the project: their list is known, and NUL ends each path of it.
    fn files(&self, alloc: Global) -> Result<FileList<'_>, Failure>
        ensures files { IfOk result (λ f. seen_files f ≡ spec.found_files (project_in self.now)) }
        ensures all { IfOk result (λ _. spec.are_dirs_utf8 (project_in self.now) ≡ true) }
        ensures fault { IfErr result (λ f. report_of f ≢ out_of_memory →
            (report_of f ≡ not_utf8) × (spec.are_dirs_utf8 (project_in self.now) ≡ false)) }
    {
        Ok(FileList {
            build: None,
            command: &[],
            list: None,
            is_null: true,
            roots: Vec::new(alloc),
            exclude: Vec::new(alloc),
            dirs: texts_of(alloc, &self.dirs.dirs)?,
            quoted: texts_of(alloc, &self.dirs.quoted)?,
            system: texts_of(alloc, &self.dirs.system)?,
            last: texts_of(alloc, &self.dirs.last)?,
        })
    }
}

/// The first of some words in place of a word.
fn in_place<'f>(word: Option<&'f str>, found: &[&'f str]) -> Option<&'f str>
    ensures { option_map (λ w. w.now) result ≡ spec.in_place (option_map (λ w. w.now) word.entry) (map (λ w. w.now) found.now) }
{
    let Some(word) = word else {
        return None;
    };
    match found.first() {
        Some(first) => Some(*first),
        None => Some(word),
    }
}

/// Words in place of those of an option, where no word stands in place of these.
fn unless_named<'f>(alloc: Global, word: Option<&str>, found: Vec<&'f str>) -> Vec<&'f str>
    ensures { map (λ w. w.now) result.items
        ≡ spec.unless_named (option_map (λ w. w.now) word.entry) (map (λ w. w.now) found.entry.items) }
{
    match word {
        Some(_) => Vec::new(alloc),
        None => found,
    }
}

/// Words as texts. They come from the command line, from JSON and from names of files, all of which are UTF-8.
fn texts_of(alloc: Global, words: &[Vec<u8>]) -> Result<Vec<&str>, Failure>
    ensures texts { IfOk result (λ texts. map (λ t. t.now) texts.items ≡ map (λ w. w.items) words.now) }
    ensures all { IfOk result (λ _. spec.are_utf8 (map (λ w. w.items) words.now) ≡ true) }
    ensures fault { IfErr result (λ f. report_of f ≢ out_of_memory →
        (report_of f ≡ not_utf8) × (spec.are_utf8 (map (λ w. w.items) words.now) ≡ false)) }
{
    let mut texts = Vec::with_capacity(alloc, words.len())?;
    for word in words {
        let text = text_of(word)?;
        texts.push(text)?;
    }
    Ok(texts)
}

/// A word as a text.
fn text_of(word: &[u8]) -> Result<&str, Failure>
    ensures text { IfOk result (λ text. text.now ≡ word.now) }
    ensures is { IfOk result (λ _. is_utf8 word.now ≡ true) }
    ensures fault { IfErr result (λ f. (report_of f ≡ not_utf8) × (is_utf8 word.now ≡ false)) }
{
    match str::from_utf8(word) {
        Ok(text) => Ok(text),
        Err(_) => Err(Failure::NotUtf8),
    }
}
