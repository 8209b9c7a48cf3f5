//! The direct include directives of the files that are read, where there are several include paths: each is looked up once in each include
//! path in which its file is found.
ghost use Rattle.std.specs.Prelude.{◌≡◌, ◌<◌, ◌++◌, ◌∷◌, [], length, replicate, slice_index_or, IfOk, OnOk};
ghost use Rattle.std.specs.List.{slice_set};
ghost use Rattle.inc_graph.specs.Nexts.{seen_placed, nexts_among};

use crate::building::lookups::Lookup;
use crate::building::nexts::Next;
use crate::header_names::{HeaderName, HeaderNames};
use inc_lookup::FileId;
use inc_token::IncludeName;
use std::alloc::{AllocError, Global};
use std::marker::Model;

/// A direct include directive as it is kept.
#[derive(Clone, Copy)]
struct KeptDirect {
    /// Its place among the include directives of its file.
    index: u32,
    by: IncludeName,
    /// The number of its header.
    header: u32,
}

/// A direct include directive at its place among the include directives of its file.
#[derive(Clone, Copy)]
pub(crate) struct PlacedDirect<'d> {
    /// The place.
    pub index: u32,
    /// Which directive it is.
    pub by: IncludeName,
    /// The header that it names.
    pub header: HeaderName<'d>,
}

/// The direct include directives of a file, from the top.
#[derive(Drop)]
pub(crate) struct Directs {
    kept: Vec<KeptDirect>,
    names: HeaderNames,
}

impl Model for Directs {
    ghost use Rattle.std.specs.Prelude.{◌<◌, List, length, map};
    ghost use Rattle.std.specs.List.{All};
    ghost use Rattle.inc_graph.specs.Nexts.{Direct, named_direct};
    ghost use Rattle.inc_graph.specs.declared.building.directs.KeptDirect.{KeptDirect};

    ghost Value = { List Direct };

    ghost view = { λ d. map (named_direct d.names) d.kept.items };

    ghost invariant = { λ d. All (λ (k : KeptDirect). k.header < length d.names) d.kept.items };
}

impl Directs {
    /// None.
    pub(crate) fn new(alloc: Global) -> Directs
        ensures { result ≡ [] }
    {
        Directs {
            kept: Vec::new(alloc),
            names: HeaderNames::new(alloc),
        }
    }

    /// Adds one.
    pub(crate) fn push(&mut self, direct: PlacedDirect<'_>) -> Result<(), AllocError>
        ensures { OnOk result (self.new ≡ self.old ++ seen_placed direct.entry ∷ []) }
    {
        let PlacedDirect { index, by, header } = direct;
        let header = self.names.push(header)?;
        self.kept.push(KeptDirect { index, by, header })?;
        Ok(())
    }

    /// How many there are.
    pub(crate) fn len(&self) -> usize
        ensures { result ≡ length self.now }
    {
        self.kept.len()
    }

    /// The one at a place of the list.
    pub(crate) fn at(&self, place: usize) -> PlacedDirect<'_>
        requires { place < length self.now }
        ensures { seen_placed result ≡ slice_index_or self.now place (seen_placed result) }
    {
        let kept = self.kept[place];
        PlacedDirect {
            index: kept.index,
            by: kept.by,
            header: self.names.at(kept.header),
        }
    }

    /// The `#include_next` directives among them, in a file of an include path.
    pub(crate) fn nexts(
        &self,
        alloc: Global,
        lookup: &Lookup<'_>,
        file: FileId,
    ) -> Result<Vec<Next>, AllocError>
        requires { file < length lookup.now.paths }
        ensures { IfOk result (λ nexts. nexts.items ≡ nexts_among lookup.now file self.now) }
    {
        let mut nexts = Vec::new(alloc);
        for place in 0..self.len() {
            add_next(&mut nexts, alloc, lookup, file, &self.at(place))?;
        }
        Ok(nexts)
    }
}

/// Adds a direct include directive, if it is an `#include_next`.
fn add_next(
    nexts: &mut Vec<Next>,
    alloc: Global,
    lookup: &Lookup<'_>,
    file: FileId,
    direct: &PlacedDirect<'_>,
) -> Result<(), AllocError>
    requires { file < length lookup.now.paths }
    ensures { OnOk result (nexts.new.items
        ≡ nexts.old.items ++ nexts_among lookup.now file (seen_placed direct.now ∷ [])) }
{
    if let IncludeName::IncludeNext = direct.by {
        let index = direct.index as usize;
        nexts.push(Next::new(alloc, lookup, file, index, direct.header)?)?;
    }
    Ok(())
}

/// The direct include directives of each file of a project that is read. Where there is one include path none are kept.
#[derive(Drop)]
pub(crate) struct DirectLists {
    /// For each file of the project 1 plus the place of its list, or 0 where it has none.
    places: Vec<u32>,
    lists: Vec<Directs>,
    none: Directs,
}

impl Model for DirectLists {
    ghost use Rattle.std.specs.Prelude.{◌≡◌, ◌≤◌, [], List, length, map};
    ghost use Rattle.std.specs.List.{All};
    ghost use Rattle.inc_graph.specs.Nexts.{Direct, kept_at};

    ghost Value = { List (List Direct) };

    ghost view = { λ d. map (kept_at d.lists.items) d.places.items };

    ghost invariant = { λ d. (d.none ≡ []) × All (λ k. k ≤ length d.lists.items) d.places.items };
}

impl DirectLists {
    /// Of so many files none has any.
    pub(crate) fn none(alloc: Global, count: usize) -> Result<DirectLists, AllocError>
        ensures { IfOk result (λ lists. lists ≡ replicate count []) }
    {
        Ok(DirectLists {
            places: vec![in alloc; 0; count]?,
            lists: Vec::new(alloc),
            none: Directs::new(alloc),
        })
    }

    /// Those of a file.
    pub(crate) fn of(&self, file: FileId) -> &Directs
        requires { file < length self.now }
        ensures { result.now ≡ slice_index_or self.now file [] }
    {
        let place = self.places[file.index()] as usize;
        match self.lists.get(place.wrapping_sub(1)) {
            Some(directs) => directs,
            None => &self.none,
        }
    }

    /// Keeps those of a file that is read now, unless none are kept.
    pub(crate) fn set(&mut self, file: FileId, directs: Directs) -> Result<(), AllocError>
        ensures { OnOk result (self.new ≡ slice_set self.old file directs) }
    {
        if file.index() >= self.places.len() {
            return Ok(());
        }
        self.lists.push(directs)?;
        let Ok(place) = u32::try_from(self.lists.len()) else {
            return Err(AllocError);
        };
        self.places[file.index()] = place;
        Ok(())
    }
}
