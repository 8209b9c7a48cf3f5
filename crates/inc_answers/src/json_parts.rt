//! Parts of the answers as texts of JSON: paths, directives, and lists of them.
ghost use Rattle.std.specs.Prelude.{◌≡◌, ◌<◌, ◌++◌, None, codes, decimal, length, map, option_map, slice_get, IfOk, OnOk};
ghost use Rattle.std.specs.List.{All};
ghost use Rattle.inc_graph.specs.Views.{seen_edge};
ghost use Rattle.inc_lookup.specs.Projects.{path_at};
ghost use Rattle.inc_answers.specs.Fitting.{counted_as};
ghost use Rattle.inc_answers.specs.JsonAnswers.{about_of, begun, blocked_text, blocker_text, blockers_text, chain_if, chains_text, counted_item, counted_text, edge_text, edges_text, file_item, file_member, files_text, links_text, missing_item, missing_text, named_form, names_text, numbered_text, place_text, puts, shortest_text, source_item, sources_text, stray_text};
ghost use Rattle.inc_answers.specs.JsonDirectives.{directive_text};
ghost use Rattle.inc_answers.specs.JsonTexts.{bytes_member, comma_at, list_of, number_member};
ghost use Rattle.inc_answers.specs.Views.{AreWithin, seen_name, seen_names};

use crate::directive_names::NameTable;
use crate::json_texts::{put_bytes_item, put_bytes_member, put_number_member};
use crate::missing_names::{MissingName, MissingNames};
use crate::missing_notes::put_number;
use crate::subjects::Subject;
use inc_cut::CountedChains;
use inc_graph::{Blocker, Edge, EdgeId, Graph, ShortestChains, SourceChains};
use inc_lookup::{DirectiveId, FileId, Form, Project};
use std::alloc::{AllocError, Global};
use std::marker::Model;

/// A text of JSON about a graph.
#[derive(Drop)]
pub struct JsonText<'s> {
    alloc: Global,
    project: &'s Project<'s>,
    graph: &'s Graph,
    names: NameTable<'s>,
    text: Vec<u8>,
}

impl<'s> Model for JsonText<'s> {
    ghost use Rattle.inc_answers.specs.JsonAnswers.{JsonOut};

    ghost Value = { JsonOut };

    ghost view = { λ j. record { layout = j.project.now; graph = j.graph.now; names = j.names; text = j.text.items } };
}

impl<'s> JsonText<'s> {
    /// An empty text.
    pub fn new(alloc: Global, subject: Subject<'s>) -> Result<JsonText<'s>, AllocError>
        ensures { IfOk result (λ j. j ≡ begun subject.entry) }
    {
        let count = subject.project.count();
        let names = NameTable::new(alloc, subject.files, subject.language, count)?;
        Ok(JsonText::with_names(alloc, subject, names))
    }

    /// The same by these names of its directives.
    pub fn with_names(alloc: Global, subject: Subject<'s>, names: NameTable<'s>) -> JsonText<'s>
        requires { names ≡ record { kept = subject.files.now; language = subject.language } }
        ensures { result ≡ begun subject.entry }
    {
        let Subject { project, graph, .. } = subject;
        JsonText {
            alloc,
            project,
            graph,
            names,
            text: Vec::new(alloc),
        }
    }

    /// The text.
    pub fn into_text(self) -> Vec<u8>
        ensures { result.items ≡ self.entry.text }
    {
        self.text
    }

    /// Adds bytes as they are.
    pub fn put(&mut self, bytes: &[u8]) -> Result<(), AllocError>
        ensures { OnOk result (self.new ≡ puts self.old bytes.now) }
    {
        self.text.extend_from_slice(bytes)?;
        Ok(())
    }

    /// Adds a number.
    pub fn put_number(&mut self, n: u64) -> Result<(), AllocError>
        ensures { OnOk result (self.new ≡ puts self.old (decimal n)) }
    {
        put_number(&mut self.text, n)
    }

    /// Adds a member whose value is a number.
    pub fn put_number_member(&mut self, key: &[u8], n: u64) -> Result<(), AllocError>
        ensures { OnOk result (self.new ≡ puts self.old (number_member key.now n)) }
    {
        put_number_member(&mut self.text, key, n)
    }

    /// Adds what stands before an item at a place: a comma, unless it is the first.
    pub fn put_comma(&mut self, place: usize) -> Result<(), AllocError>
        ensures { OnOk result (self.new ≡ puts self.old (comma_at place)) }
    {
        let before: &[u8] = if place == 0 { b"" } else { b"," };
        self.put(before)
    }

    /// The graph.
    pub fn graph(&self) -> &'s Graph
        ensures { result.now ≡ self.now.graph }
    {
        self.graph
    }

    /// The path of a file; nothing of none.
    fn path(&self, file: FileId) -> &'s [u8]
        ensures { result.now ≡ path_at self.now.layout file }
    {
        self.path_at(file.index())
    }

    /// The path of the file at a place; nothing where there is none.
    fn path_at(&self, place: usize) -> &'s [u8]
        ensures { result.now ≡ path_at self.now.layout place }
    {
        let Some(known) = self.project.at(place) else {
            return &[];
        };
        self.project.path(known)
    }

    /// Adds a member that has the path of a file.
    pub fn put_file(&mut self, key: &[u8], file: FileId) -> Result<(), AllocError>
        ensures { OnOk result (self.new ≡ puts self.old (file_member key.now (about_of self.old) file)) }
    {
        let path = self.path(file);
        put_bytes_member(&mut self.text, key, path)
    }

    /// Adds a member that has the path of the file at a place.
    pub fn put_file_at(&mut self, key: &[u8], place: usize) -> Result<(), AllocError>
        ensures { OnOk result (self.new ≡ puts self.old (file_member key.now (about_of self.old) place)) }
    {
        let path = self.path_at(place);
        put_bytes_member(&mut self.text, key, path)
    }

    /// Adds the path of a file, as an item of a list.
    fn put_path(&mut self, file: FileId) -> Result<(), AllocError>
        ensures { OnOk result (self.new ≡ puts self.old (file_item (about_of self.old) file)) }
    {
        let path = self.path(file);
        put_bytes_item(&mut self.text, path)
    }

    /// Adds the paths of files, as a list.
    pub fn put_files(&mut self, files: &[FileId]) -> Result<(), AllocError>
        ensures { OnOk result (self.new ≡ puts self.old (files_text (about_of self.old) files.now)) }
    {
        self.put(b"[")?;
        for place in 0..files.len() {
            self.put_comma(place)?;
            self.put_path(files[place])?;
        }
        self.put(b"]")
    }

    /// Adds a directive, and where it leads if it leads to a file.
    fn put_place(&mut self, directive: DirectiveId, to: Option<FileId>) -> Result<(), AllocError>
        ensures { OnOk result (self.new ≡ puts self.old (place_text (about_of self.old) directive to)) }
    {
        let path = self.path(directive.file);
        match to {
            Some(file) => {
                let to = self.path(file);
                self.put_directive(directive, path, Some(to))
            }
            None => self.put_directive(directive, path, None),
        }
    }

    /// The same with the paths.
    fn put_directive(
        &mut self,
        directive: DirectiveId,
        path: &[u8],
        to: Option<&[u8]>,
    ) -> Result<(), AllocError>
        ensures { OnOk result (self.new ≡ puts self.old (directive_text
            ((about_of self.old).kind directive) directive.line path.now (option_map (λ p. p.now) to.entry))) }
    {
        self.names
            .put_object(&mut self.text, self.alloc, directive, path, to)
    }

    /// Adds the directive of an edge; nothing of none.
    pub fn put_edge(&mut self, edge: EdgeId) -> Result<(), AllocError>
        ensures { OnOk result (self.new ≡ puts self.old (numbered_text (about_of self.old) edge)) }
    {
        let graph = self.graph();
        match edge_of(graph, edge) {
            Some(found) => self.put_link(found),
            None => self.put(b""),
        }
    }

    /// Adds the directive of this edge.
    fn put_link(&mut self, edge: &Edge) -> Result<(), AllocError>
        ensures { OnOk result (self.new ≡ puts self.old (edge_text (about_of self.old) (seen_edge edge.now))) }
    {
        let directive = DirectiveId {
            file: edge.from,
            line: edge.line,
        };
        self.put_place(directive, Some(edge.to))
    }

    /// Adds the directives of all edges, as a list.
    pub fn put_all_edges(&mut self) -> Result<(), AllocError>
        ensures { OnOk result (self.new ≡ puts self.old (links_text (about_of self.old) self.old.graph.edges)) }
    {
        let graph = self.graph();
        self.put_links(graph.edges())
    }

    /// Adds the directives of these edges, as a list.
    fn put_links(&mut self, edges: &[Edge]) -> Result<(), AllocError>
        ensures { OnOk result (self.new ≡ puts self.old (list_of
            (map (λ (e : Edge). edge_text (about_of self.old) (seen_edge e)) edges.now))) }
    {
        self.put(b"[")?;
        for place in 0..edges.len() {
            self.put_comma(place)?;
            self.put_link(&edges[place])?;
        }
        self.put(b"]")
    }

    /// Adds the directives of edges, as a list.
    pub fn put_edges(&mut self, edges: &[EdgeId]) -> Result<(), AllocError>
        ensures { OnOk result (self.new ≡ puts self.old (edges_text (about_of self.old) edges.now)) }
    {
        self.put(b"[")?;
        for place in 0..edges.len() {
            self.put_comma(place)?;
            self.put_edge(edges[place])?;
        }
        self.put(b"]")
    }

    /// Adds the directives of which nothing can be said, as a list.
    pub fn put_blocked(&mut self) -> Result<(), AllocError>
        ensures { OnOk result (self.new ≡ puts self.old (blocked_text (about_of self.old))) }
    {
        let graph = self.graph();
        self.put_blockers(graph.blockers())
    }

    /// Adds such directives, as a list.
    fn put_blockers(&mut self, blockers: &[Blocker]) -> Result<(), AllocError>
        ensures { OnOk result (self.new ≡ puts self.old (blockers_text (about_of self.old) blockers.now)) }
    {
        self.put(b"[")?;
        for place in 0..blockers.len() {
            self.put_comma(place)?;
            let blocker = blockers[place];
            self.put_blocker(blocker)?;
        }
        self.put(b"]")
    }

    /// Adds one of them.
    fn put_blocker(&mut self, blocker: Blocker) -> Result<(), AllocError>
        ensures { OnOk result (self.new ≡ puts self.old (blocker_text (about_of self.old) blocker)) }
    {
        let directive = DirectiveId {
            file: blocker.file,
            line: blocker.line,
        };
        self.put_place(directive, None)
    }

    /// Adds the directives at these places of those whose header is not found, as a list.
    pub fn put_strays(&mut self, strays: &[usize]) -> Result<(), AllocError>
        requires { All (λ i. i < length self.old.graph.missing) strays.now }
        ensures { OnOk result (self.new ≡ puts self.old
            (list_of (map (stray_text (about_of self.old)) strays.now))) }
    {
        self.put(b"[")?;
        for place in 0..strays.len() {
            self.put_comma(place)?;
            let stray = strays[place];
            self.put_stray(stray)?;
        }
        self.put(b"]")
    }

    /// Adds one of them.
    fn put_stray(&mut self, place: usize) -> Result<(), AllocError>
        requires { place < length self.old.graph.missing }
        ensures { OnOk result (self.new ≡ puts self.old (stray_text (about_of self.old) place)) }
    {
        let graph = self.graph();
        let missing = graph.missing().at(place);
        let directive = DirectiveId {
            file: missing.file,
            line: missing.line,
        };
        self.put_place(directive, None)
    }

    /// Adds the names of headers that are not found, as a list.
    pub fn put_missing(&mut self) -> Result<(), AllocError>
        ensures { OnOk result (self.new ≡ puts self.old (missing_text (about_of self.old))) }
    {
        let graph = self.graph();
        let names = MissingNames::of(self.alloc, self.project.seed(), graph.missing())?;
        self.put_names(&names)
    }

    /// Adds these names of the graph, as a list.
    fn put_names(&mut self, names: &MissingNames<'_>) -> Result<(), AllocError>
        requires { AreWithin (length self.old.graph.missing) names.now.names.items }
        ensures { OnOk result (self.new ≡ puts self.old
            (names_text (about_of self.old) (seen_names self.old.graph.missing names.now))) }
    {
        self.put(b"[")?;
        for place in 0..names.len() {
            self.put_comma(place)?;
            self.put_missing_name(names.at(place))?;
        }
        self.put(b"]")
    }

    /// Adds the name of a header that is not found: how many directives have it, and the first of these.
    fn put_missing_name(&mut self, name: MissingName) -> Result<(), AllocError>
        requires { name.place < length self.old.graph.missing }
        ensures { OnOk result (self.new ≡ puts self.old
            (missing_item (about_of self.old) (seen_name self.old.graph.missing name))) }
    {
        let graph = self.graph();
        let first = graph.missing().at(name.place);
        self.put_count(name.count, first.file, first.line)?;
        self.put(named_form(first.header.form))?;
        self.put_bytes_member(b"name", first.header.name)?;
        self.put(b"}")
    }

    /// Adds what it begins with: how many directives have the name, and the first of these.
    fn put_count(&mut self, count: usize, file: FileId, line: u32) -> Result<(), AllocError>
        ensures { OnOk result (self.new ≡ puts self.old (codes "{" ++ number_member (codes "count") count
            ++ codes ",\"first\":" ++ place_text (about_of self.old) (record { file = file; line = line }) None)) }
    {
        let directive = DirectiveId { file, line };
        self.put(b"{")?;
        self.put_number_member(b"count", count as u64)?;
        self.put(b",\"first\":")?;
        self.put_place(directive, None)
    }

    /// Adds a member that has bytes.
    pub fn put_bytes_member(&mut self, key: &[u8], bytes: &[u8]) -> Result<(), AllocError>
        ensures { OnOk result (self.new ≡ puts self.old (bytes_member key.now bytes.now)) }
    {
        put_bytes_member(&mut self.text, key, bytes)
    }

    /// Adds lists of edges, as a list.
    pub fn put_edge_lists(&mut self, chains: &[Vec<EdgeId>]) -> Result<(), AllocError>
        ensures { OnOk result (self.new ≡ puts self.old
            (chains_text (about_of self.old) (map (λ c. c.items) chains.now))) }
    {
        self.put(b"[")?;
        for place in 0..chains.len() {
            self.put_comma(place)?;
            self.put_edges(&chains[place])?;
        }
        self.put(b"]")
    }

    /// Adds each chain that is left, as a list.
    pub fn put_chains(&mut self, chains: &mut ShortestChains<'_>) -> Result<(), AllocError>
        ensures { OnOk result (self.new ≡ puts self.old (chains_text (about_of self.old) chains.old.left)) }
    {
        self.put(b"[")?;
        let mut place = 0usize;
        while chains.advance() {
            self.put_comma(place)?;
            self.put_edges(chains.edges())?;
            place = 1;
        }
        self.put(b"]")
    }

    /// Adds a shortest chain, or that there is none.
    pub fn put_shortest(&mut self, shortest: Option<&[EdgeId]>) -> Result<(), AllocError>
        ensures { OnOk result (self.new ≡ puts self.old (shortest_text (about_of self.old)
            (option_map (λ c. c.now) shortest.entry))) }
    {
        match shortest {
            Some(chain) => self.put_edges(chain),
            None => self.put(b"null"),
        }
    }

    /// Adds each source that is left, as a list.
    pub fn put_sources(
        &mut self,
        reaching: &mut SourceChains<'_>,
        all: bool,
    ) -> Result<(), AllocError>
        ensures { OnOk result (self.new ≡ puts self.old
            (sources_text all (about_of self.old) reaching.old.left)) }
    {
        self.put(b"[")?;
        let mut place = 0usize;
        while reaching.advance() {
            self.put_comma(place)?;
            self.put_source(reaching, all)?;
            place = 1;
        }
        self.put(b"]")
    }

    /// Adds the source at hand: how many directives its shortest chain has, and these where each is to be shown.
    fn put_source(&mut self, reaching: &mut SourceChains<'_>, all: bool) -> Result<(), AllocError>
        ensures source { OnOk result (self.new ≡ puts self.old
            (source_item all (about_of self.old) reaching.old.at)) }
        ensures left { reaching.new.left ≡ reaching.old.left }
    {
        self.put(b"{")?;
        self.put_chain_if(reaching, all)?;
        self.put_number_member(b"length", u64::from(reaching.len()))?;
        self.put(b",")?;
        self.put_file(b"path", reaching.source())?;
        self.put(b"}")
    }

    /// Adds the chain of the source at hand, where chains are to be shown whole.
    fn put_chain_if(&mut self, reaching: &mut SourceChains<'_>, all: bool) -> Result<(), AllocError>
        ensures chain { OnOk result (self.new ≡ puts self.old
            (chain_if all (about_of self.old) reaching.old.at.chain)) }
        ensures at { reaching.new.at ≡ reaching.old.at }
        ensures left { reaching.new.left ≡ reaching.old.left }
    {
        if !all {
            return self.put(b"");
        }
        reaching.make();
        self.put(b"\"chain\":")?;
        self.put_edges(reaching.edges())?;
        self.put(b",")
    }

    /// Adds the chains that show that a cut is the cheapest, as a list.
    pub fn put_counted(&mut self, chains: &CountedChains) -> Result<(), AllocError>
        ensures { OnOk result (self.new ≡ puts self.old (counted_text (about_of self.old) chains.now)) }
    {
        self.put(b"[")?;
        for place in 0..chains.len() {
            self.put_comma(place)?;
            self.put_counted_chain(chains.edges(place), chains.count(place))?;
        }
        self.put(b"]")
    }

    /// Adds one of them, which counts so often.
    fn put_counted_chain(&mut self, edges: &[EdgeId], count: u32) -> Result<(), AllocError>
        ensures { OnOk result (self.new ≡ puts self.old
            (counted_item (about_of self.old) (counted_as edges.now count))) }
    {
        self.put(b"{\"edges\":")?;
        self.put_edges(edges)?;
        self.put(b",")?;
        self.put_number_member(b"times", u64::from(count))?;
        self.put(b"}")
    }
}

/// The edge with a number, if the graph has one.
pub fn edge_of(graph: &Graph, edge: EdgeId) -> Option<&Edge>
    ensures { option_map (λ e. seen_edge e.now) result ≡ slice_get graph.now.edges edge }
{
    match graph.edges().get(edge.index()) {
        Some(found) => Some(found),
        None => None,
    }
}

/// What stands between the first directive with a name and the name.
fn named_form(form: Form) -> &'static [u8]
    ensures { result.now ≡ named_form form }
{
    match form {
        Form::Quoted => b",\"form\":\"quoted\",",
        Form::Angled => b",\"form\":\"angled\",",
    }
}
