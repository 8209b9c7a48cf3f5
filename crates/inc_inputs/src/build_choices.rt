//! Which entries of a compilation database a question is about.
ghost use Rattle.std.specs.Prelude.{◌≡◌, ◌≢◌, ◌++◌, ◌∷◌, ℕ, List, [], Some, Err, Ok, IfOk, OnOk, length, slice_get};
ghost use Rattle.inc_globs.specs.Globs.{pieces};
ghost use Rattle.inc_inputs.specs.BuildProjects as spec;
ghost use Rattle.inc_inputs.specs.Reports.{out_of_memory};
ghost use Rattle.inc_inputs.specs.Views.{chosen_in, ground_in, seen_chosen, words_in};

use crate::build_files::BuildFiles;
use crate::build_grounds::Ground;
use crate::build_texts::one_more;
use crate::failures::{Failure, glob_failure, unfit};
use inc_build::{Use, path_from};
use inc_globs::{Glob, GlobFault, is_glob};
use inc_text::SeededState;
use indexmap::IndexSet;
use std::alloc::{AllocError, Global};

/// What words ask of a build.
#[derive(Drop)]
pub(crate) struct BuildWords<'a> {
    /// Those for sources.
    pub(crate) sources: Vec<&'a str>,
    /// Those for headers.
    pub(crate) headers: Vec<&'a str>,
    /// Whether a word for sources may be a glob.
    pub(crate) has_globs: bool,
    /// Whether macros count.
    pub(crate) has_macros: bool,
}

/// What words for sources come to.
#[derive(Drop)]
pub(crate) struct Choice {
    /// The words in their place.
    pub(crate) sources: Vec<Vec<u8>>,
    /// The entries that count.
    pub(crate) uses: Vec<Use>,
    /// Whether a source has no entry of its own, so that each entry counts.
    pub(crate) has_all: bool,
    /// How many sources of the build are no files of the project.
    pub(crate) absent: usize,
}

/// What words for sources come to: an entry of its own is one of the absolute path of a word; a glob stands for the
/// sources of the build that it fits, as the project has them, and where it fits none for files of the project, as
/// ever. Each entry counts once.
pub(crate) fn choose(
    alloc: Global,
    seed: u64,
    ground: &Ground<'_>,
    files: &BuildFiles,
    words: &BuildWords<'_>,
) -> Result<Choice, Failure>
    ensures { seen_chosen result ≢ Err out_of_memory →
        seen_chosen result ≡ spec.chosen (ground_in ground.now) files.now (words_in words.now) }
{
    match choose_each(alloc, ground, files, words) {
        Ok(choice) => with_all_once(alloc, seed, ground, choice),
        Err(failure) => Err(failure),
    }
}

/// The same with each entry once, and with all entries where a source has none of its own.
fn with_all_once(
    alloc: Global,
    seed: u64,
    ground: &Ground<'_>,
    choice: Choice,
) -> Result<Choice, Failure>
    ensures { seen_chosen result ≢ Err out_of_memory →
        seen_chosen result ≡ Ok (spec.with_each_once (spec.with_all (ground_in ground.now) (chosen_in choice))) }
{
    match with_all(alloc, ground, choice) {
        Ok(choice) => with_each_once(alloc, seed, choice),
        Err(failure) => Err(failure),
    }
}

/// The same with each entry once.
fn with_each_once(alloc: Global, seed: u64, choice: Choice) -> Result<Choice, Failure>
    ensures { seen_chosen result ≢ Err out_of_memory →
        seen_chosen result ≡ Ok (spec.with_each_once (chosen_in choice)) }
{
    match each_once(alloc, seed, &choice.uses) {
        Ok(uses) => Ok(Choice {
            sources: choice.sources,
            uses,
            has_all: choice.has_all,
            absent: choice.absent,
        }),
        Err(_) => Err(Failure::NoMemory),
    }
}

/// Entries, each once, where it comes first.
fn each_once(alloc: Global, seed: u64, uses: &[Use]) -> Result<Vec<Use>, AllocError>
    ensures { IfOk result (λ once. once.items ≡ spec.each_once [] uses.now) }
{
    let mut known = IndexSet::with_hasher(alloc, SeededState::new(seed));
    let mut once = Vec::new(alloc);
    let mut at = 0;
    while at < uses.len() {
        add_use(&mut known, &mut once, uses[at])?;
        at += 1;
    }
    Ok(once)
}

/// Adds an entry, unless its number is known.
fn add_use(
    known: &mut IndexSet<usize, SeededState>,
    once: &mut Vec<Use>,
    one: Use,
) -> Result<(), AllocError>
    ensures once { known.old.keys ≡ spec.entries_in once.old.items → OnOk result (once.new.items ≡ spec.with_use one once.old.items) }
    ensures known { known.old.keys ≡ spec.entries_in once.old.items → OnOk result (known.new.keys ≡ spec.entries_in once.new.items) }
{
    let is_new = known.insert(one.entry)?;
    if !is_new {
        return Ok(());
    }
    once.push(one)?;
    Ok(())
}

/// What words for sources come to, where only entries of their own count.
fn choose_each(
    alloc: Global,
    ground: &Ground<'_>,
    files: &BuildFiles,
    words: &BuildWords<'_>,
) -> Result<Choice, Failure>
    ensures { seen_chosen result ≢ Err out_of_memory → seen_chosen result
        ≡ spec.with_each (ground_in ground.now) files.now words.now.has_globs (words_in words.now).sources spec.none_chosen }
{
    let mut choice = Choice {
        sources: Vec::new(alloc),
        uses: Vec::new(alloc),
        has_all: false,
        absent: 0,
    };
    let mut at = 0;
    while at < words.sources.len() {
        let word = words.sources[at].as_bytes();
        choice = match with_one(alloc, ground, files, words.has_globs, word, choice) {
            Ok(next) => next,
            Err(failure) => return Err(failure),
        };
        at += 1;
    }
    Ok(choice)
}

/// The same with all entries in place of those that are chosen, where a source has no entry of its own.
fn with_all(alloc: Global, ground: &Ground<'_>, choice: Choice) -> Result<Choice, Failure>
    ensures { seen_chosen result ≢ Err out_of_memory →
        seen_chosen result ≡ Ok (spec.with_all (ground_in ground.now) (chosen_in choice)) }
{
    if !choice.has_all {
        return Ok(choice);
    }
    match all_uses(alloc, ground) {
        Ok(uses) => Ok(Choice {
            sources: choice.sources,
            uses,
            has_all: true,
            absent: choice.absent,
        }),
        Err(_) => Err(Failure::NoMemory),
    }
}

/// All entries, by their sources.
fn all_uses(alloc: Global, ground: &Ground<'_>) -> Result<Vec<Use>, AllocError>
    ensures { IfOk result (λ uses. uses.items ≡ spec.all_uses (ground_in ground.now).build) }
{
    let mut uses = Vec::new(alloc);
    for number in 0..ground.build.source_count() {
        uses.extend_from_slice(ground.build.uses(number))?;
    }
    Ok(uses)
}

/// A choice with what one more word comes to.
fn with_one(
    alloc: Global,
    ground: &Ground<'_>,
    files: &BuildFiles,
    has_globs: bool,
    word: &[u8],
    choice: Choice,
) -> Result<Choice, Failure>
    ensures { seen_chosen result ≢ Err out_of_memory → seen_chosen result
        ≡ spec.with_one (ground_in ground.now) files.now has_globs word.now (chosen_in choice) }
{
    if has_globs && is_glob(word) {
        return with_glob(alloc, ground, files, word, choice);
    }
    with_word(alloc, ground, files, word, choice)
}

/// A choice with a word for one source.
fn with_word(
    alloc: Global,
    ground: &Ground<'_>,
    files: &BuildFiles,
    word: &[u8],
    choice: Choice,
) -> Result<Choice, Failure>
    ensures { let g = ground_in ground.now in seen_chosen result ≢ Err out_of_memory →
        seen_chosen result ≡ Ok (spec.with_word g files.now word.now (spec.source_number g word.now) (chosen_in choice)) }
{
    let mut choice = choice;
    match choice.add_word(alloc, ground, files, word) {
        Ok(()) => Ok(choice),
        Err(_) => Err(Failure::NoMemory),
    }
}

/// A choice with the sources that a glob stands for.
fn with_glob(
    alloc: Global,
    ground: &Ground<'_>,
    files: &BuildFiles,
    word: &[u8],
    choice: Choice,
) -> Result<Choice, Failure>
    ensures { seen_chosen result ≢ Err out_of_memory → seen_chosen result
        ≡ spec.with_glob (ground_in ground.now) files.now word.now (pieces word.now) (chosen_in choice) }
{
    match Glob::new(alloc, word) {
        Ok(glob) => with_fitting(alloc, ground, files, word, glob, choice),
        Err(GlobFault::Unterminated) => Err(glob_failure(alloc, "--from", word)),
        Err(GlobFault::NoMemory) => Err(Failure::NoMemory),
    }
}

/// A choice with the sources of the build that a glob fits, or with the glob where it fits none. One that fits only
/// sources that are no files is refused.
fn with_fitting(
    alloc: Global,
    ground: &Ground<'_>,
    files: &BuildFiles,
    word: &[u8],
    glob: Glob<'_>,
    choice: Choice,
) -> Result<Choice, Failure>
    ensures { let g = ground_in ground.now in let c = chosen_in choice in seen_chosen result ≢ Err out_of_memory →
        seen_chosen result ≡ spec.after_glob word.now c (spec.with_fitting g files.now glob.entry 0 g.build.sources c) }
{
    let count = choice.sources.len();
    let absent = choice.absent;
    let mut choice = choice;
    match choice.add_fitting(alloc, ground, files, glob) {
        Ok(()) => after_glob(alloc, word, count, absent, choice),
        Err(_) => Err(Failure::NoMemory),
    }
}

/// A choice after a glob, before which it had so many sources.
fn after_glob(
    alloc: Global,
    word: &[u8],
    count: usize,
    absent: usize,
    choice: Choice,
) -> Result<Choice, Failure>
    ensures { (old : spec.Chosen) → length old.sources ≡ count → old.absent ≡ absent → seen_chosen result ≢ Err out_of_memory →
        seen_chosen result ≡ spec.after_glob word.now old (chosen_in choice) }
{
    if choice.sources.len() != count {
        return Ok(choice);
    }
    if absent < choice.absent {
        return Err(unfit(alloc, "--from", word));
    }
    let mut choice = choice;
    match choice.add_any(alloc, word) {
        Ok(()) => Ok(choice),
        Err(_) => Err(Failure::NoMemory),
    }
}

impl Choice {
    /// Adds a word for one source.
    fn add_word(
        &mut self,
        alloc: Global,
        ground: &Ground<'_>,
        files: &BuildFiles,
        word: &[u8],
    ) -> Result<(), AllocError>
        ensures { let g = ground_in ground.now in OnOk result (chosen_in self.new
            ≡ spec.with_word g files.now word.now (spec.source_number g word.now) (chosen_in self.old)) }
    {
        let path = word_form(alloc, ground, files, word)?;
        match source_number(alloc, ground, word)? {
            Some(number) => self.add_source(path, ground.build.uses(number)),
            None => self.add_any(alloc, &path),
        }
    }

    /// Adds a source with its entries.
    fn add_source(&mut self, path: Vec<u8>, uses: &[Use]) -> Result<(), AllocError>
        ensures { OnOk result (chosen_in self.new ≡ record (chosen_in self.old) {
          sources = (chosen_in self.old).sources ++ path.items ∷ [];
          uses = (chosen_in self.old).uses ++ uses.now;
        }) }
    {
        self.sources.push(path)?;
        self.uses.extend_from_slice(uses)
    }

    /// Adds a word without an entry of its own.
    fn add_any(&mut self, alloc: Global, word: &[u8]) -> Result<(), AllocError>
        ensures { OnOk result (chosen_in self.new ≡ spec.with_any word.now (chosen_in self.old)) }
    {
        self.sources.push(Vec::from_slice(alloc, word)?)?;
        self.has_all = true;
        Ok(())
    }

    /// Adds the sources of the build that a glob fits.
    fn add_fitting(
        &mut self,
        alloc: Global,
        ground: &Ground<'_>,
        files: &BuildFiles,
        glob: Glob<'_>,
    ) -> Result<(), AllocError>
        ensures { let g = ground_in ground.now in OnOk result (chosen_in self.new
            ≡ spec.with_fitting g files.now glob.entry 0 g.build.sources (chosen_in self.old)) }
    {
        let mut glob = glob;
        for number in 0..ground.build.source_count() {
            self.add_number(alloc, ground, files, &mut glob, number)?;
        }
        Ok(())
    }

    /// Adds the source of a number, if a glob fits it.
    fn add_number(
        &mut self,
        alloc: Global,
        ground: &Ground<'_>,
        files: &BuildFiles,
        glob: &mut Glob<'_>,
        number: usize,
    ) -> Result<(), AllocError>
        ensures added { (source : List ℕ) → slice_get (ground_in ground.now).build.sources number ≡ Some source → OnOk result (chosen_in self.new
            ≡ spec.with_fit (ground_in ground.now) files.now glob.old number source (chosen_in self.old)) }
        ensures same { glob.new ≡ glob.old }
    {
        match ground.build.source(number) {
            Some(source) => self.add_fit(alloc, ground, files, glob, number, source),
            None => Ok(()),
        }
    }

    /// Adds a source of the build, which has this number, if a glob fits it.
    fn add_fit(
        &mut self,
        alloc: Global,
        ground: &Ground<'_>,
        files: &BuildFiles,
        glob: &mut Glob<'_>,
        number: usize,
        source: &[u8],
    ) -> Result<(), AllocError>
        ensures added { OnOk result (chosen_in self.new
            ≡ spec.with_fit (ground_in ground.now) files.now glob.old number source.now (chosen_in self.old)) }
        ensures same { glob.new ≡ glob.old }
    {
        let path = ground.forms().of(source);
        if glob.fits(path)? {
            self.add_numbered(alloc, ground, files, number, path)?;
        }
        Ok(())
    }

    /// Adds the source of a number by its path, if that is one of a file.
    fn add_numbered(
        &mut self,
        alloc: Global,
        ground: &Ground<'_>,
        files: &BuildFiles,
        number: usize,
        path: &[u8],
    ) -> Result<(), AllocError>
        ensures { OnOk result (chosen_in self.new
            ≡ spec.with_source (ground_in ground.now) files.now number path.now (chosen_in self.old)) }
    {
        if files.has(path) {
            return self.add_source(Vec::from_slice(alloc, path)?, ground.build.uses(number));
        }
        self.absent = one_more(self.absent)?;
        Ok(())
    }
}

/// The number of the source that a word names, which is looked up from the folder of the run.
fn source_number(
    alloc: Global,
    ground: &Ground<'_>,
    word: &[u8],
) -> Result<Option<usize>, AllocError>
    ensures { IfOk result (λ number. number ≡ spec.source_number (ground_in ground.now) word.now) }
{
    let path = path_from(alloc, &ground.here, word)?;
    Ok(ground.build.source_number(&path))
}

/// The path of a file for which a word stands; another word stays.
fn word_form(
    alloc: Global,
    ground: &Ground<'_>,
    files: &BuildFiles,
    word: &[u8],
) -> Result<Vec<u8>, AllocError>
    ensures { IfOk result (λ form. form.items ≡ spec.word_form (ground_in ground.now) files.now word.now) }
{
    let path = ground.forms().of_word(alloc, word)?;
    if files.has(&path) {
        return Ok(path);
    }
    Vec::from_slice(alloc, word)
}

/// A word for headers: the path of a file for which it stands, and else the word, as a glob or a name is one.
pub(crate) fn header_form(
    alloc: Global,
    ground: &Ground<'_>,
    files: &BuildFiles,
    word: &[u8],
) -> Result<Vec<u8>, AllocError>
    ensures { IfOk result (λ form. form.items ≡ spec.header_form (ground_in ground.now) files.now word.now) }
{
    if is_glob(word) {
        return Vec::from_slice(alloc, word);
    }
    word_form(alloc, ground, files, word)
}
