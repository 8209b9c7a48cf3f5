//! Sources of which it is noted how many bytes each file has.
ghost use Rattle.std.specs.Prelude.{◌≡◌, replicate, IfOk, IfErr};
ghost use Rattle.std.specs.List.{slice_set};

use inc_lookup::{FileId, Sources};
use inc_text::ReadFault;
use std::alloc::{AllocError, Global};

/// Sources that note how many bytes they gave of each file, and keep none of them.
#[derive(Drop)]
pub struct SizedSources<S: Sources> {
    sources: S,
    /// By the place of the file; 0 of one that was not read.
    pub sizes: Vec<u32>,
}

impl<S: Sources> SizedSources<S> {
    /// Sources for so many files; where memory ran out, the sources alone.
    pub fn new(alloc: Global, sources: S, count: usize) -> Result<SizedSources<S>, S>
        ensures sources { IfOk result (λ sized. sized.sources ≡ sources) }
        ensures sizes { IfOk result (λ sized. sized.sizes.items ≡ replicate count 0) }
        ensures given_back { IfErr result (λ s. s ≡ sources) }
    {
        match no_sizes(alloc, count) {
            Ok(sizes) => Ok(SizedSources { sources, sizes }),
            Err(_) => Err(sources),
        }
    }

    /// Gives the sources back.
    pub fn into_sources(self) -> S
        ensures { result ≡ self.sources }
    {
        self.sources
    }
}

/// Of so many files none is read.
fn no_sizes(alloc: Global, count: usize) -> Result<Vec<u32>, AllocError>
    ensures { IfOk result (λ sizes. sizes.items ≡ replicate count 0) }
{
    let mut sizes = Vec::with_capacity(alloc, count)?;
    for _ in 0..count {
        sizes.push(0)?;
    }
    Ok(sizes)
}

/// Notes how many bytes a file of the project has.
fn note(sizes: &mut Vec<u32>, file: FileId, count: u32)
    ensures { sizes.new.items ≡ slice_set sizes.old.items file count }
{
    if file.index() < sizes.len() {
        sizes[file.index()] = count;
    }
}

impl<S: Sources> Sources for SizedSources<S> {
    ghost use Rattle.inc_answers.specs.FileSizes.{sizes};

    ghost gives = { sizes S.gives };

    fn read(&mut self, alloc: Global, file: FileId) -> Result<Vec<u8>, ReadFault> {
        let bytes = self.sources.read(alloc, file)?;
        note(&mut self.sizes, file, bytes.len() as u32);
        Ok(bytes)
    }
}
