//! Answers as documents, and their texts.
ghost use Rattle.std.specs.Prelude.{◌≡◌, ◌<◌, ◌==◌, ◌++◌, ◌∷◌, [], if◌then◌else◌, length, IfOk, OnOk};
ghost use Rattle.std.specs.List.{All};
ghost use Rattle.inc_lookup.specs.Projects.{path_at};
ghost use Rattle.inc_answers.specs.DirectiveNames.{kept_name};
ghost use Rattle.inc_answers.specs.Documents as spec;
ghost use Rattle.inc_answers.specs.Documents.{block_text, counted, document_text, edge_places, first_places, listed, more_blocks, place_text, places, seen_block};
ghost use Rattle.inc_answers.specs.MissingNotes.{shown};

use crate::bounds::{put_more, shown_count};
use crate::changes::directives_of;
use crate::directive_names::NameTable;
use crate::kept_sources::KeptFiles;
use crate::missing_notes::{put_number, put_shown};
use inc_graph::{EdgeId, Graph};
use inc_lookup::{DirectiveId, FileId, Project};
use inc_text::Language;
use std::alloc::{AllocError, Global};
use std::marker::Model;

/// A line or a directive.
#[derive(Drop)]
pub enum Block {
    /// A line of words.
    Words(Vec<u8>),
    /// A directive.
    Place(DirectiveId),
    /// A directive behind words on its line.
    Led(Vec<u8>, DirectiveId),
}

/// Lines and directives.
#[derive(Drop)]
pub struct Document {
    blocks: Vec<Block>,
}

impl Model for Document {
    ghost use Rattle.std.specs.Prelude.{List, map};
    ghost use Rattle.inc_answers.specs.Documents as spec;

    ghost Value = { List spec.Block };

    ghost view = { λ d. map spec.seen_block d.blocks.items };
}

impl Document {
    /// Nothing.
    pub fn new(alloc: Global) -> Document
        ensures { result ≡ [] }
    {
        Document {
            blocks: Vec::new(alloc),
        }
    }

    /// Adds a line.
    pub fn add_words(&mut self, text: Vec<u8>) -> Result<(), AllocError>
        ensures { OnOk result (self.new ≡ self.old ++ spec.Words text.items ∷ []) }
    {
        self.blocks.push(Block::Words(text))?;
        Ok(())
    }

    /// Adds a directive.
    fn add_place(&mut self, directive: DirectiveId) -> Result<(), AllocError>
        ensures { OnOk result (self.new ≡ self.old ++ spec.Place directive ∷ []) }
    {
        self.blocks.push(Block::Place(directive))?;
        Ok(())
    }

    /// Adds a directive behind words.
    pub fn add_led(&mut self, text: Vec<u8>, directive: DirectiveId) -> Result<(), AllocError>
        ensures { OnOk result (self.new ≡ self.old ++ spec.Led text.items directive ∷ []) }
    {
        self.blocks.push(Block::Led(text, directive))?;
        Ok(())
    }

    /// Adds directives.
    pub fn add_places(&mut self, directives: &[DirectiveId]) -> Result<(), AllocError>
        ensures { OnOk result (self.new ≡ self.old ++ places directives.now) }
    {
        for directive in directives {
            self.add_place(*directive)?;
        }
        Ok(())
    }

    /// Adds the directives of edges.
    pub fn add_edges(
        &mut self,
        alloc: Global,
        graph: &Graph,
        edges: &[EdgeId],
    ) -> Result<(), AllocError>
        requires { All (λ i. i < length graph.now.edges) edges.now }
        ensures { OnOk result (self.new ≡ self.old ++ edge_places graph.now edges.now) }
    {
        let directives = directives_of(alloc, graph, edges)?;
        self.add_places(&directives)
    }

    /// Adds that so many elements more are not printed, where some are.
    pub fn add_more(&mut self, alloc: Global, count: usize) -> Result<(), AllocError>
        ensures { OnOk result (self.new ≡ self.old ++ more_blocks count) }
    {
        if count == 0 {
            return Ok(());
        }
        let mut text = Vec::new(alloc);
        put_more(&mut text, count)?;
        self.add_words(text)
    }

    /// Adds at most so many directives, and how many more there are.
    fn add_first(
        &mut self,
        alloc: Global,
        directives: &[DirectiveId],
        most: Option<usize>,
    ) -> Result<(), AllocError>
        ensures { OnOk result (self.new ≡ self.old ++ first_places most directives.now) }
    {
        let shown = shown_count(most, directives.len());
        self.add_places(&directives[..shown])?;
        self.add_more(alloc, directives.len() - shown)
    }

    /// Adds how many directives there are, and at most so many of them; nothing where there are none.
    pub fn add_list(
        &mut self,
        alloc: Global,
        one: &[u8],
        many: &[u8],
        directives: &[DirectiveId],
        most: Option<usize>,
    ) -> Result<(), AllocError>
        ensures { OnOk result (self.new ≡ self.old ++ listed most one.now many.now directives.now) }
    {
        if directives.is_empty() {
            return Ok(());
        }
        let mut text = Vec::new(alloc);
        put_counted(&mut text, directives.len(), one, many)?;
        self.add_words(text)?;
        self.add_first(alloc, directives, most)
    }

    /// Its text, by what is kept of the files of its directives.
    pub fn text(
        &self,
        alloc: Global,
        project: &Project<'_>,
        files: &KeptFiles,
        language: Language,
    ) -> Result<Vec<u8>, AllocError>
        ensures { IfOk result (λ text. text.items
            ≡ document_text (kept_name language files.now) project.now self.now) }
    {
        let mut names = NameTable::new(alloc, files, language, project.count())?;
        let mut text = Vec::new(alloc);
        for block in &self.blocks {
            put_block(&mut text, alloc, project, &mut names, block)?;
        }
        Ok(text)
    }
}

/// Adds a line or a directive.
fn put_block(
    text: &mut Vec<u8>,
    alloc: Global,
    project: &Project<'_>,
    names: &mut NameTable<'_>,
    block: &Block,
) -> Result<(), AllocError>
    ensures text { OnOk result (text.new.items ≡ text.old.items
        ++ block_text (kept_name names.old.language names.old.kept) project.now (seen_block block.now)) }
    ensures same { names.new ≡ names.old }
{
    match block {
        Block::Words(words) => put_words(text, words),
        Block::Place(directive) => put_place(text, alloc, project, names, *directive),
        Block::Led(words, directive) => {
            text.extend_from_slice(words)?;
            put_place(text, alloc, project, names, *directive)
        }
    }
}

/// Adds a line.
fn put_words(text: &mut Vec<u8>, words: &[u8]) -> Result<(), AllocError>
    ensures { OnOk result (text.new.items ≡ text.old.items ++ (words.now ++ 10 ∷ [])) }
{
    text.extend_from_slice(words)?;
    text.push(b'\n')?;
    Ok(())
}

/// Adds a directive: its file, its line, and how it is written.
fn put_place(
    text: &mut Vec<u8>,
    alloc: Global,
    project: &Project<'_>,
    names: &mut NameTable<'_>,
    directive: DirectiveId,
) -> Result<(), AllocError>
    ensures text { OnOk result (text.new.items ≡ text.old.items
        ++ place_text project.now directive (kept_name names.old.language names.old.kept directive)) }
    ensures same { names.new ≡ names.old }
{
    put_path(text, project, directive.file)?;
    text.extend_from_slice(b":")?;
    put_number(text, u64::from(directive.line))?;
    text.extend_from_slice(b": ")?;
    names.put_name(text, alloc, directive)?;
    text.push(b'\n')?;
    Ok(())
}

/// Adds the path of a file, as it is shown on a line.
pub fn put_path(text: &mut Vec<u8>, project: &Project<'_>, file: FileId) -> Result<(), AllocError>
    ensures { OnOk result (text.new.items ≡ text.old.items ++ shown (path_at project.now file)) }
{
    match project.at(file.index()) {
        Some(known) => put_shown(text, project.path(known)),
        None => Ok(()),
    }
}

/// Adds a number, and what follows it where that is 1 and where it is not.
pub fn put_counted(text: &mut Vec<u8>, n: usize, one: &[u8], many: &[u8]) -> Result<(), AllocError>
    ensures { OnOk result (text.new.items ≡ text.old.items ++ counted n one.now many.now) }
{
    put_number(text, n as u64)?;
    text.extend_from_slice(either(n, one, many))?;
    Ok(())
}

/// The first text where the number is 1, else the second.
fn either<'t>(n: usize, one: &'t [u8], many: &'t [u8]) -> &'t [u8]
    ensures { result.now ≡ (if n == 1 then one.now else many.now) }
{
    if n == 1 { one } else { many }
}
