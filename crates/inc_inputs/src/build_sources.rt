//! With which of the include paths that count a build compiles its sources.
ghost use Rattle.std.specs.Prelude.{◌≡◌, ◌++◌, ◌∷◌, [], ℕ, List, Some, IfOk, OnOk, map, slice_get};
ghost use Rattle.inc_build.specs.declared.builds.Use.{Use as AnyUse};
ghost use Rattle.inc_inputs.specs.BuildProjects as spec;
ghost use Rattle.inc_inputs.specs.Views.{ground_in, source_in};

use crate::build_grounds::Ground;
use inc_build::Use;
use inc_text::SeededState;
use indexmap::IndexSet;
use std::alloc::{AllocError, Global};

/// A source of a build.
#[derive(Drop)]
pub struct BuildSource {
    /// Its path, as the project has it.
    pub(crate) path: Vec<u8>,
    /// The include paths with which entries compile it, by their places among those that count.
    pub(crate) paths: Vec<usize>,
}

/// The numbers of the include paths of entries, each once, where it comes first.
pub(crate) fn used_paths(
    alloc: Global,
    seed: u64,
    uses: &[Use],
) -> Result<IndexSet<usize, SeededState>, AllocError>
    ensures { IfOk result (λ used. used.keys ≡ spec.used_paths uses.now) }
{
    let mut used = IndexSet::with_hasher(alloc, SeededState::new(seed));
    let mut at = 0;
    while at < uses.len() {
        add_number(&mut used, uses[at].configuration)?;
        at += 1;
    }
    Ok(used)
}

/// Adds a number, unless it is there.
fn add_number(numbers: &mut IndexSet<usize, SeededState>, number: usize) -> Result<(), AllocError>
    ensures { OnOk result (numbers.new.keys ≡ spec.with_number number numbers.old.keys) }
{
    numbers.insert(number)?;
    Ok(())
}

/// The sources of a build with their include paths by these numbers, where there are several.
pub(crate) fn compiled_of(
    alloc: Global,
    ground: &Ground<'_>,
    used: &IndexSet<usize, SeededState>,
) -> Result<Vec<BuildSource>, AllocError>
    ensures { IfOk result (λ sources. map source_in sources.items ≡ spec.compiled_of (ground_in ground.now) used.now.keys) }
{
    if used.len() > 1 {
        return sources_of(alloc, ground, used);
    }
    Ok(Vec::new(alloc))
}

/// The sources of a build with their include paths by these numbers.
fn sources_of(
    alloc: Global,
    ground: &Ground<'_>,
    used: &IndexSet<usize, SeededState>,
) -> Result<Vec<BuildSource>, AllocError>
    ensures { let g = ground_in ground.now in IfOk result (λ sources. map source_in sources.items ≡ spec.build_sources g used.now.keys 0 g.build.sources) }
{
    let mut sources = Vec::new(alloc);
    for number in 0..ground.build.source_count() {
        add_source(alloc, ground, used, number, &mut sources)?;
    }
    Ok(sources)
}

/// Adds the source of a number.
fn add_source(
    alloc: Global,
    ground: &Ground<'_>,
    used: &IndexSet<usize, SeededState>,
    number: usize,
    sources: &mut Vec<BuildSource>,
) -> Result<(), AllocError>
    ensures { let g = ground_in ground.now in (source : List ℕ) → slice_get g.build.sources number ≡ Some source → OnOk result (map source_in sources.new.items
        ≡ map source_in sources.old.items ++ spec.build_source g used.now.keys number source ∷ []) }
{
    let Some(source) = ground.build.source(number) else {
        return Ok(());
    };
    let path = Vec::from_slice(alloc, ground.forms().of(source))?;
    let paths = places_of(alloc, used, ground.build.uses(number))?;
    sources.push(BuildSource { path, paths })?;
    Ok(())
}

/// The places of the include paths of entries among these numbers.
fn places_of(
    alloc: Global,
    used: &IndexSet<usize, SeededState>,
    uses: &[Use],
) -> Result<Vec<usize>, AllocError>
    ensures { IfOk result (λ places. places.items ≡ spec.path_places used.now.keys uses.now) }
{
    let mut places = Vec::new(alloc);
    let mut at = 0;
    while at < uses.len() {
        add_place(used, uses[at], &mut places)?;
        at += 1;
    }
    Ok(places)
}

/// Adds the place of the include path of an entry, if it is among these numbers.
fn add_place(
    used: &IndexSet<usize, SeededState>,
    one: Use,
    places: &mut Vec<usize>,
) -> Result<(), AllocError>
    ensures { OnOk result ((more : List AnyUse) → places.new.items ++ spec.path_places used.now.keys more ≡ places.old.items ++ spec.path_places used.now.keys (one ∷ more)) }
{
    if let Some(place) = used.get_index_of(&one.configuration) {
        places.push(place)?;
    }
    Ok(())
}
