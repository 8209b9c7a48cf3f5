//! Edges that the marks of files may name next.
ghost use Rattle.std.specs.Prelude.{◌≡◌, IfOk, IfSome};
ghost use Rattle.std.specs.List.{All};
ghost use Rattle.inc_graph.specs.IncludeGraph.{Graph};
ghost use Rattle.inc_graph.specs.Near.{IsListed};

use inc_graph::{Edge, Graph, edge_numbered};
use inc_lookup::FileId;
use std::alloc::{AllocError, Global};

/// How many edges of a file are copied at once.
const AHEAD: usize = 8;

/// For how many files edges are copied at once.
const TOGETHER: usize = 32;

/// The place of a file whose edges are still to be copied.
const WAITING: usize = u32::MAX as usize;

/// The edges that are still to be copied for a file: those from a number on.
#[derive(Clone, Copy)]
struct Wanted {
    file: FileId,
    number: usize,
    /// The place of the file before.
    place: usize,
}

/// For files the edges that their next marks may name. They change how long a search takes, and never what it finds.
///
/// Chains that go through many files touch another part of the graph's edges with each mark, and would wait for each of them. So some
/// edges of a file are copied when one of them is needed, and the chains that follow wait for none; and they are copied for many files at
/// once, so that the waits for these overlap. Where marks of one file follow each other, so do its edges, which are read as they are.
#[derive(Drop)]
pub(crate) struct Hints {
    /// Edges of the graph, [`AHEAD`] together for each file that has some here. The first ones are of no file.
    edges: Vec<Edge>,
    /// For each file the place of the edge that its next mark may name; 0 where it has none here, [`WAITING`] where it is to get some.
    places: Vec<u32>,
    /// What is still to be copied.
    wanted: Vec<Wanted>,
    /// The file of the last mark.
    last: FileId,
    /// The number of the edge that the next mark of this file may name.
    next: usize,
}

impl Hints {
    /// None yet.
    pub fn none(alloc: Global, graph: &Graph) -> Result<Hints, AllocError>
        ensures { IfOk result (λ hints. All (λ e. IsListed graph.now e) hints.edges.items) }
    {
        let last = graph.first_file();
        let Some(edge) = edge_numbered(graph, 0) else {
            return Ok(Hints {
                edges: Vec::new(alloc),
                places: Vec::new(alloc),
                wanted: Vec::new(alloc),
                last,
                next: 0,
            });
        };
        let edges = vec![in alloc; edge; AHEAD]?;
        let places = vec![in alloc; 0; graph.files()]?;
        Ok(Hints {
            edges,
            places,
            wanted: Vec::new(alloc),
            last,
            next: 0,
        })
    }

    /// Where the edge is that the next mark of a file may name.
    #[inline(always)]
    fn place_of(&self, file: FileId) -> usize {
        match self.places.get(file.index()) {
            Some(place) => *place as usize,
            None => 0,
        }
    }

    /// The edge that the next mark of a file may name.
    #[inline(always)]
    pub fn of(&self, graph: &Graph, file: FileId) -> Option<Edge>
        ensures { All (λ e. IsListed graph.now e) self.now.edges.items → IfSome result (λ e. IsListed graph.now e) }
    {
        if file == self.last {
            return edge_numbered(graph, self.next);
        }
        let place = self.place_of(file);
        if place < self.edges.len() {
            Some(self.edges[place])
        } else {
            None
        }
    }

    /// Copies what is still to be copied where the next mark is one of a file that waits for it.
    #[inline(always)]
    pub fn ready(&mut self, graph: &Graph, file: FileId) -> Result<(), AllocError>
        ensures { All (λ e. IsListed graph.now e) self.old.edges.items → All (λ e. IsListed graph.now e) self.new.edges.items }
    {
        if self.place_of(file) == WAITING {
            self.copy_wanted(graph)?;
        }
        Ok(())
    }

    /// Has the next mark of a file looked for at the edge with this number first, if that edge leaves the file. `to` is the file that the
    /// chain has led to.
    #[inline(always)]
    pub fn aim(
        &mut self,
        graph: &Graph,
        file: FileId,
        number: usize,
        to: FileId,
    ) -> Result<(), AllocError>
        ensures { All (λ e. IsListed graph.now e) self.old.edges.items → All (λ e. IsListed graph.now e) self.new.edges.items }
    {
        self.next = number;
        if file != self.last {
            self.last = file;
            self.turn_to(graph, file, number)?;
        }
        self.ready(graph, to)
    }

    /// Has the next mark of a file looked for at the place of the edge with this number, or a place made for it.
    #[inline(always)]
    fn turn_to(&mut self, graph: &Graph, file: FileId, number: usize) -> Result<(), AllocError>
        ensures { All (λ e. IsListed graph.now e) self.old.edges.items → All (λ e. IsListed graph.now e) self.new.edges.items }
    {
        let place = self.place_of(file);
        let next = place.saturating_add(1);
        if self.is_at(next, number) {
            self.turn(file, next);
            return Ok(());
        }
        self.put_off(
            graph,
            Wanted {
                file,
                number,
                place,
            },
        )
    }

    /// Whether the edge with this number is at a place.
    #[inline(always)]
    fn is_at(&self, place: usize, number: usize) -> bool {
        match self.edges.get(place) {
            Some(edge) => edge.id.index() == number,
            None => false,
        }
    }

    /// Has the next mark of a file looked for at a place first.
    #[inline(always)]
    fn turn(&mut self, file: FileId, place: usize)
        ensures edges { self.new.edges ≡ self.old.edges }
        ensures wanted { self.new.wanted ≡ self.old.wanted }
    {
        let here = file.index();
        if here < self.places.len() {
            self.places[here] = place.min(WAITING) as u32;
        }
    }

    /// Has edges copied for a file as soon as that is due for some others too.
    #[inline(never)]
    fn put_off(&mut self, graph: &Graph, wanted: Wanted) -> Result<(), AllocError>
        ensures { All (λ e. IsListed graph.now e) self.old.edges.items → All (λ e. IsListed graph.now e) self.new.edges.items }
    {
        self.turn(wanted.file, WAITING);
        self.wanted.push(wanted)?;
        if self.wanted.len() >= TOGETHER {
            self.copy_wanted(graph)?;
        }
        Ok(())
    }

    /// Copies what is still to be copied.
    #[inline(never)]
    fn copy_wanted(&mut self, graph: &Graph) -> Result<(), AllocError>
        ensures { All (λ e. IsListed graph.now e) self.old.edges.items → All (λ e. IsListed graph.now e) self.new.edges.items }
    {
        while let Some(wanted) = self.wanted.pop() {
            self.copy(graph, wanted)?;
        }
        Ok(())
    }

    /// Copies edges that leave a file, from one on, and has its next mark looked for there first.
    #[inline(always)]
    fn copy(&mut self, graph: &Graph, wanted: Wanted) -> Result<(), AllocError>
        ensures edges { All (λ e. IsListed graph.now e) self.old.edges.items → All (λ e. IsListed graph.now e) self.new.edges.items }
        ensures wanted { self.new.wanted ≡ self.old.wanted }
    {
        let Wanted {
            file,
            number,
            place,
        } = wanted;
        self.turn(file, place);
        let Some(edge) = edge_numbered(graph, number) else {
            return Ok(());
        };
        if edge.from != file {
            return Ok(());
        }
        let begin = self.begin_of(place, edge)?;
        self.turn(file, begin);
        self.fill(graph, begin, number);
        Ok(())
    }

    /// Where the edges of a file begin of which this is the place. Where it has none yet, places are made for them, which hold this edge.
    #[inline(always)]
    fn begin_of(&mut self, place: usize, edge: Edge) -> Result<usize, AllocError>
        ensures edges { (g : Graph) → IsListed g edge → All (λ e. IsListed g e) self.old.edges.items → All (λ e. IsListed g e) self.new.edges.items }
        ensures wanted { self.new.wanted ≡ self.old.wanted }
    {
        if place >= AHEAD {
            return Ok(place - place % AHEAD);
        }
        let begin = self.edges.len();
        self.edges.resize(begin.saturating_add(AHEAD), edge)?;
        Ok(begin)
    }

    /// Puts the edges from this number on at the places of a file, which begin here. The last few edges of the graph are put one by one.
    #[inline(always)]
    fn fill(&mut self, graph: &Graph, begin: usize, number: usize)
        ensures edges { All (λ e. IsListed graph.now e) self.old.edges.items → All (λ e. IsListed graph.now e) self.new.edges.items }
        ensures wanted { self.new.wanted ≡ self.old.wanted }
    {
        let edges = graph.edges();
        let places = self.edges.len();
        if begin <= places
            && places - begin >= AHEAD
            && number <= edges.len()
            && edges.len() - number >= AHEAD
        {
            self.edges[begin..begin + AHEAD].copy_from_slice(&edges[number..number + AHEAD]);
            return;
        }
        self.fill_each(graph, begin, number);
    }

    /// The same, one by one.
    #[inline(never)]
    fn fill_each(&mut self, graph: &Graph, begin: usize, number: usize)
        ensures edges { All (λ e. IsListed graph.now e) self.old.edges.items → All (λ e. IsListed graph.now e) self.new.edges.items }
        ensures wanted { self.new.wanted ≡ self.old.wanted }
    {
        for ahead in 0..AHEAD {
            self.put(
                graph,
                begin.saturating_add(ahead),
                number.saturating_add(ahead),
            );
        }
    }

    /// Puts the edge with this number at a place, if the graph has it.
    #[inline(always)]
    fn put(&mut self, graph: &Graph, place: usize, number: usize)
        ensures edges { All (λ e. IsListed graph.now e) self.old.edges.items → All (λ e. IsListed graph.now e) self.new.edges.items }
        ensures wanted { self.new.wanted ≡ self.old.wanted }
    {
        let Some(edge) = edge_numbered(graph, number) else {
            return;
        };
        if place < self.edges.len() {
            self.edges[place] = edge;
        }
    }
}
