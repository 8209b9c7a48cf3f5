//! The lists that a preprocessing rests on.
ghost use Rattle.std.specs.Prelude.{◌≡◌, IfOk, map, option_map};
ghost use Rattle.inc_args.specs.Views.{seen_pp};
ghost use Rattle.inc_inputs.specs.Defines.{described_dirs};
ghost use Rattle.inc_inputs.specs.PpTexts.{defined_by, pp_texts, pp_texts_beside};
ghost use Rattle.inc_inputs.specs.Steps.{Comes};
ghost use Rattle.inc_inputs.specs.Views.{seen_defined, seen_pp_texts};

use crate::defines::{described_dirs, read_defines};
use crate::failures::{Failure, definitions_failure};
use crate::inputs::Inputs;
use crate::project_lists::read_list;
use crate::texts::{read_directives, read_text};
use inc_args::PpArgs;
use inc_graph::Mark;
use inc_text::Language;
use std::alloc::{AllocError, Global};

/// A list of definitions.
#[derive(Drop)]
pub struct Defined {
    /// Its text.
    pub text: Vec<u8>,
    /// The words that stand for its definitions.
    pub words: Vec<Vec<u8>>,
}

impl Defined {
    /// The directories that it names, in order.
    pub fn dirs(&self, alloc: Global) -> Result<Vec<&[u8]>, AllocError>
        ensures { IfOk result (λ dirs. map (λ d. d.now) dirs.items ≡ described_dirs self.now.text.items) }
    {
        described_dirs(alloc, &self.text)
    }
}

/// What was read for a preprocessing.
#[derive(Drop)]
pub struct PpTexts {
    /// The list of the project's files.
    pub list: Vec<u8>,
    /// What describes a compiler.
    pub compiler: Defined,
    /// The words that stand for the definitions of a list, which come after those of the compiler.
    pub defines: Vec<Vec<u8>>,
    /// The directives that are taken as removed.
    pub without: Vec<Mark>,
}

/// Reads what a preprocessing rests on.
pub fn read_pp_texts<I: Inputs>(
    alloc: Global,
    inputs: &mut I,
    language: Language,
    args: &PpArgs<'_>,
) -> Result<PpTexts, Failure>
    ensures { Comes (pp_texts I.gives language (seen_pp args.now)) inputs.old (seen_pp_texts result) inputs.new }
{
    let list = read_list(alloc, inputs, &args.files)?;
    read_pp_texts_beside(alloc, inputs, language, list, args)
}

/// The same where the list is known.
pub fn read_pp_texts_beside<I: Inputs>(
    alloc: Global,
    inputs: &mut I,
    language: Language,
    list: Vec<u8>,
    args: &PpArgs<'_>,
) -> Result<PpTexts, Failure>
    ensures { Comes (pp_texts_beside I.gives language list.items (seen_pp args.now)) inputs.old (seen_pp_texts result) inputs.new }
{
    let compiler = read_defined(alloc, inputs, language, true, args.compiler)?;
    let defines = read_defined(alloc, inputs, language, false, args.defines)?.words;
    let without = read_directives(alloc, inputs, args.without)?;
    Ok(PpTexts {
        list,
        compiler,
        defines,
        without: without.marks,
    })
}

/// A list of definitions, which may describe a compiler; an empty one where none is named.
fn read_defined<I: Inputs>(
    alloc: Global,
    inputs: &mut I,
    language: Language,
    is_compiler: bool,
    name: Option<&str>,
) -> Result<Defined, Failure>
    ensures { Comes (defined_by I.gives language is_compiler (option_map (λ n. n.now) name.entry)) inputs.old (seen_defined result) inputs.new }
{
    let Some(name) = name else {
        return Ok(Defined {
            text: Vec::new(alloc),
            words: Vec::new(alloc),
        });
    };
    let text = read_text(alloc, inputs, name)?;
    match read_defines(alloc, language, is_compiler, &text) {
        Ok(words) => Ok(Defined { text, words }),
        Err(fault) => Err(definitions_failure(alloc, is_compiler, fault, name.as_bytes())?),
    }
}
