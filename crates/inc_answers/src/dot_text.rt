//! Answers as graphs that graphviz draws.
ghost use Rattle.std.specs.Prelude.{◌≡◌, ◌<◌, ◌++◌, ◌∷◌, ℕ, List, [], None, Some, false, flat_map, length, map, option_map, slice_get, slice_index_or, IfOk, IfSome, OnOk};
ghost use Rattle.std.specs.List.{All, concat};
ghost use Rattle.inc_graph.specs.Cuts as cuts;
ghost use Rattle.inc_graph.specs.FileSets.{AreFlags};
ghost use Rattle.inc_answers.specs.DotText.{all_drawn, dot_byte, dot_path, dot_text, drawn, drawn_in, edge_line, ends_text, fixed_in, flagged, label_text, look};
ghost use Rattle.inc_graph.specs.IncludeGraph as spec;
ghost use Rattle.inc_graph.specs.Views.{seen_edge};
ghost use Rattle.inc_answers.specs.RulesDocument.{all_chains};
ghost use Rattle.inc_rules.specs.Judging.{IsWithin};
ghost use Rattle.inc_rules.specs.Views.{seen_judged};

use crate::json_texts::put_hex_byte;
use crate::missing_notes::put_number;
use crate::subjects::Subject;
use inc_cut::CountedChains;
use inc_graph::{Edge, EdgeId, Fixed, Graph, ShortestChains};
use inc_lookup::Project;
use inc_rules::Judged;
use std::alloc::{AllocError, Global};

/// Flags an edge.
fn flag(flags: &mut [bool], edge: EdgeId)
    requires { edge < length flags.old }
    ensures flags { (done : List ℕ) → AreFlags done flags.old → AreFlags (done ++ edge ∷ []) flags.new }
    ensures long { length flags.new ≡ length flags.old }
{
    flags[edge.index()] = true;
}

/// Flags edges.
fn flag_edges(flags: &mut [bool], edges: &[EdgeId])
    requires { All (λ i. i < length flags.old) edges.now }
    ensures flags { (done : List ℕ) → AreFlags done flags.old → AreFlags (done ++ edges.now) flags.new }
    ensures long { length flags.new ≡ length flags.old }
{
    for edge in edges {
        flag(flags, *edge);
    }
}

/// Flags the edges of the chains that are left.
fn flag_chains(flags: &mut [bool], chains: &mut ShortestChains<'_>)
    requires { All (λ chain. All (λ i. i < length flags.old) chain) chains.old.left }
    ensures flags { (done : List ℕ) → AreFlags done flags.old → AreFlags (done ++ concat chains.old.left) flags.new }
    ensures long { length flags.new ≡ length flags.old }
{
    while chains.advance() {
        flag_edges(flags, chains.edges());
    }
}

/// Flags the edges of lists of them.
fn flag_lists(flags: &mut [bool], lists: &[Vec<EdgeId>])
    requires { All (λ c. All (λ i. i < length flags.old) c.items) lists.now }
    ensures flags { (done : List ℕ) → AreFlags done flags.old → AreFlags (done ++ flat_map (λ c. c.items) lists.now) flags.new }
    ensures long { length flags.new ≡ length flags.old }
{
    for edges in lists {
        flag_edges(flags, edges);
    }
}

/// Flags the edges of the chains that break rules.
fn flag_judged(flags: &mut [bool], judged: &[Judged<'_>])
    requires { All (λ j. All (λ c. All (λ i. i < length flags.old) c.items) j.chains.items) judged.now }
    ensures flags { (done : List ℕ) → AreFlags done flags.old →
        AreFlags (done ++ flat_map (λ j. flat_map (λ c. c.items) j.chains.items) judged.now) flags.new }
    ensures long { length flags.new ≡ length flags.old }
{
    for rule in judged {
        flag_lists(flags, &rule.chains);
    }
}

/// Flags the edges of the chains of a certificate.
fn flag_counted(flags: &mut [bool], chains: &CountedChains)
    requires { All (λ (c : cuts.Counted). All (λ i. i < length flags.old) c.chain) chains.now }
    ensures flags { (done : List ℕ) → AreFlags done flags.old → AreFlags (done ++ flat_map (λ (c : cuts.Counted). c.chain) chains.now) flags.new }
    ensures long { length flags.new ≡ length flags.old }
{
    for place in 0..chains.len() {
        flag_edges(flags, chains.edges(place));
    }
}

/// A flag for each edge of a graph.
fn no_flags(alloc: Global, graph: &Graph) -> Result<Vec<bool>, AllocError>
    ensures flags { IfOk result (λ flags. AreFlags [] flags.items) }
    ensures long { IfOk result (λ flags. length flags.items ≡ length graph.now.edges) }
{
    let count = graph.edges().len();
    let flags = vec![in alloc; false; count]?;
    Ok(flags)
}

/// Flags of these edges.
fn edge_flags(alloc: Global, graph: &Graph, edges: &[EdgeId]) -> Result<Vec<bool>, AllocError>
    requires { All (λ i. i < length graph.now.edges) edges.now }
    ensures { IfOk result (λ flags. AreFlags edges.now flags.items) }
{
    let mut flags = no_flags(alloc, graph)?;
    flag_edges(&mut flags, edges);
    Ok(flags)
}

/// Flags of the edges of the chains that are left.
fn chain_flags(
    alloc: Global,
    graph: &Graph,
    chains: &mut ShortestChains<'_>,
) -> Result<Vec<bool>, AllocError>
    requires { All (λ chain. All (λ i. i < length graph.now.edges) chain) chains.old.left }
    ensures { IfOk result (λ flags. AreFlags (concat chains.old.left) flags.items) }
{
    let mut flags = no_flags(alloc, graph)?;
    flag_chains(&mut flags, chains);
    Ok(flags)
}

/// Flags of the edges of a cut and of the chains of its certificate.
fn cut_flags(
    alloc: Global,
    graph: &Graph,
    cut: &[EdgeId],
    chains: &CountedChains,
) -> Result<Vec<bool>, AllocError>
    requires cut { All (λ i. i < length graph.now.edges) cut.now }
    requires chains { All (λ (c : cuts.Counted). All (λ i. i < length graph.now.edges) c.chain) chains.now }
    ensures { IfOk result (λ flags. AreFlags (cut.now ++ flat_map (λ (c : cuts.Counted). c.chain) chains.now) flags.items) }
{
    let mut flags = no_flags(alloc, graph)?;
    flag_cut(&mut flags, cut, chains);
    Ok(flags)
}

/// Flags the edges of a cut, and then those of the chains of its certificate.
fn flag_cut(flags: &mut [bool], cut: &[EdgeId], chains: &CountedChains)
    requires cut { All (λ i. i < length flags.old) cut.now }
    requires chains { All (λ (c : cuts.Counted). All (λ i. i < length flags.old) c.chain) chains.now }
    ensures flags { AreFlags [] flags.old → AreFlags (cut.now ++ flat_map (λ (c : cuts.Counted). c.chain) chains.now) flags.new }
    ensures long { length flags.new ≡ length flags.old }
{
    flag_edges(flags, cut);
    flag_counted(flags, chains);
}

/// The whole graph.
pub fn graph_dot(alloc: Global, subject: Subject<'_>) -> Result<Vec<u8>, AllocError>
    requires { subject.graph.now.files ≡ length subject.project.now.paths }
    ensures { IfOk result (λ text. text.items ≡ dot_text subject.entry.project.now subject.entry.graph.now all_drawn) }
{
    let Subject { project, graph, .. } = subject;
    dot_text(alloc, project, graph, None, &[], None)
}

/// The graph of the chains that are left.
pub fn chains_dot(
    alloc: Global,
    subject: Subject<'_>,
    chains: &mut ShortestChains<'_>,
) -> Result<Vec<u8>, AllocError>
    requires files { subject.graph.now.files ≡ length subject.project.now.paths }
    requires chains { All (λ chain. All (λ i. i < length subject.graph.now.edges) chain) chains.old.left }
    ensures { IfOk result (λ text. text.items ≡ dot_text subject.entry.project.now subject.entry.graph.now (drawn (concat chains.old.left) [] None)) }
{
    let Subject { project, graph, .. } = subject;
    let edges = chain_flags(alloc, graph, chains)?;
    dot_text(alloc, project, graph, Some(&edges), &[], None)
}

/// Flags of the edges of the chains that break rules.
fn judged_flags(
    alloc: Global,
    graph: &Graph,
    judged: &[Judged<'_>],
) -> Result<Vec<bool>, AllocError>
    requires { All (λ j. IsWithin graph.now (seen_judged j)) judged.now }
    ensures { IfOk result (λ flags. AreFlags (concat (all_chains (map seen_judged judged.now))) flags.items) }
{
    let mut flags = no_flags(alloc, graph)?;
    flag_judged(&mut flags, judged);
    Ok(flags)
}

/// The graph of the chains that break rules.
pub fn rules_dot(
    alloc: Global,
    subject: Subject<'_>,
    judged: &[Judged<'_>],
) -> Result<Vec<u8>, AllocError>
    requires files { subject.graph.now.files ≡ length subject.project.now.paths }
    requires within { All (λ j. IsWithin subject.graph.now (seen_judged j)) judged.now }
    ensures { IfOk result (λ text. text.items ≡ dot_text subject.entry.project.now subject.entry.graph.now
        (drawn (concat (all_chains (map seen_judged judged.now))) [] None)) }
{
    let Subject { project, graph, .. } = subject;
    let flags = judged_flags(alloc, graph, judged)?;
    dot_text(alloc, project, graph, Some(&flags), &[], None)
}

/// The graph of some edges.
pub fn edges_dot(
    alloc: Global,
    subject: Subject<'_>,
    edges: &[EdgeId],
) -> Result<Vec<u8>, AllocError>
    requires files { subject.graph.now.files ≡ length subject.project.now.paths }
    requires edges { All (λ i. i < length subject.graph.now.edges) edges.now }
    ensures { IfOk result (λ text. text.items ≡ dot_text subject.entry.project.now subject.entry.graph.now (drawn edges.now [] None)) }
{
    let Subject { project, graph, .. } = subject;
    let flags = edge_flags(alloc, graph, edges)?;
    dot_text(alloc, project, graph, Some(&flags), &[], None)
}

/// The graph of a cut and of the chains that show that none is cheaper.
pub fn cut_dot(
    alloc: Global,
    subject: Subject<'_>,
    cut: &[EdgeId],
    chains: &CountedChains,
    fixed: &Fixed,
) -> Result<Vec<u8>, AllocError>
    requires files { subject.graph.now.files ≡ length subject.project.now.paths }
    requires fixed { length fixed.now ≡ length subject.graph.now.edges }
    requires cut { All (λ i. i < length subject.graph.now.edges) cut.now }
    requires chains { All (λ (c : cuts.Counted). All (λ i. i < length subject.graph.now.edges) c.chain) chains.now }
    ensures { IfOk result (λ text. text.items ≡ dot_text subject.entry.project.now subject.entry.graph.now
        (drawn (cut.now ++ flat_map (λ (c : cuts.Counted). c.chain) chains.now) cut.now (Some fixed.now))) }
{
    let Subject { project, graph, .. } = subject;
    let removed = edge_flags(alloc, graph, cut)?;
    let edges = cut_flags(alloc, graph, cut, chains)?;
    dot_text(alloc, project, graph, Some(&edges), &removed, Some(fixed))
}

/// The graph of a chain of fixed edges.
pub fn fixed_dot(
    alloc: Global,
    subject: Subject<'_>,
    chain: &[EdgeId],
    fixed: &Fixed,
) -> Result<Vec<u8>, AllocError>
    requires files { subject.graph.now.files ≡ length subject.project.now.paths }
    requires fixed { length fixed.now ≡ length subject.graph.now.edges }
    requires chain { All (λ i. i < length subject.graph.now.edges) chain.now }
    ensures { IfOk result (λ text. text.items ≡ dot_text subject.entry.project.now subject.entry.graph.now (drawn chain.now [] (Some fixed.now))) }
{
    let Subject { project, graph, .. } = subject;
    let edges = edge_flags(alloc, graph, chain)?;
    dot_text(alloc, project, graph, Some(&edges), &[], Some(fixed))
}

/// The graph of the edges with a flag, or of all where there are no flags, of which a cut removes those with one in `removed`, and none may remove those that are fixed.
fn dot_text(
    alloc: Global,
    project: &Project<'_>,
    graph: &Graph,
    edges: Option<&[bool]>,
    removed: &[bool],
    fixed: Option<&Fixed>,
) -> Result<Vec<u8>, AllocError>
    requires files { graph.now.files ≡ length project.now.paths }
    requires fixed { IfSome fixed (λ f. length f.now ≡ length graph.now.edges) }
    ensures { IfOk result (λ text. text.items
        ≡ dot_text project.now graph.now (flagged (option_map (λ e. e.now) edges.entry) removed.now (option_map (λ f. f.now) fixed.entry))) }
{
    let mut text = Vec::from_slice(alloc, b"digraph incut {\n")?;
    for number in 0..graph.edges().len() {
        if is_drawn(edges, number) {
            let look = look(has_flag(removed, number), is_fixed(fixed, number));
            put_numbered(&mut text, project, graph, number, look)?;
        }
    }
    text.extend_from_slice(b"}\n")?;
    Ok(text)
}

/// Adds the line of the edge with this number.
fn put_numbered(
    text: &mut Vec<u8>,
    project: &Project<'_>,
    graph: &Graph,
    number: usize,
    look: &[u8],
) -> Result<(), AllocError>
    requires files { graph.now.files ≡ length project.now.paths }
    requires number { number < length graph.now.edges }
    ensures { (e : spec.Edge) → slice_get graph.now.edges number ≡ Some e →
        OnOk result (text.new.items ≡ text.old.items ++ edge_line project.now e look.now) }
{
    let edge = graph.edges()[number];
    put_edge(text, project, edge, look)
}

/// Whether an edge is drawn.
fn is_drawn(edges: Option<&[bool]>, edge: usize) -> bool
    ensures { result ≡ drawn_in (option_map (λ e. e.now) edges.entry) edge }
{
    match edges {
        Some(flags) => has_flag(flags, edge),
        None => true,
    }
}

/// Whether there is a flag at a place.
fn has_flag(flags: &[bool], place: usize) -> bool
    ensures { result ≡ slice_index_or flags.now place false }
{
    match flags.get(place) {
        Some(flag) => *flag,
        None => false,
    }
}

/// Whether an edge is fixed.
fn is_fixed(fixed: Option<&Fixed>, edge: usize) -> bool
    requires { IfSome fixed (λ f. edge < length f.now) }
    ensures { result ≡ fixed_in (option_map (λ f. f.now) fixed.entry) edge }
{
    match fixed {
        Some(fixed) => fixed.amount(edge) == 0,
        None => false,
    }
}

/// Adds the line of an edge.
fn put_edge(
    text: &mut Vec<u8>,
    project: &Project<'_>,
    edge: Edge,
    look: &[u8],
) -> Result<(), AllocError>
    requires from { edge.from < length project.now.paths }
    requires to { edge.to < length project.now.paths }
    ensures { OnOk result (text.new.items ≡ text.old.items ++ edge_line project.now (seen_edge edge) look.now) }
{
    let line = edge.line;
    put_ends(text, project, edge)?;
    put_label(text, line, look)
}

/// Adds from which file an edge leads to which.
fn put_ends(text: &mut Vec<u8>, project: &Project<'_>, edge: Edge) -> Result<(), AllocError>
    requires from { edge.from < length project.now.paths }
    requires to { edge.to < length project.now.paths }
    ensures { OnOk result (text.new.items ≡ text.old.items ++ ends_text project.now (seen_edge edge)) }
{
    text.extend_from_slice(b"  ")?;
    put_path(text, project.path(edge.from))?;
    text.extend_from_slice(b" -> ")?;
    put_path(text, project.path(edge.to))
}

/// Adds the line of a directive, and how its edge is drawn.
fn put_label(text: &mut Vec<u8>, line: u32, look: &[u8]) -> Result<(), AllocError>
    ensures { OnOk result (text.new.items ≡ text.old.items ++ label_text line look.now) }
{
    text.extend_from_slice(b" [label=\"")?;
    put_number(text, u64::from(line))?;
    text.push(b'"')?;
    text.extend_from_slice(look)?;
    text.extend_from_slice(b"];\n")
}

/// How an edge is drawn that a cut removes, and one that no cut may remove.
fn look(is_removed: bool, is_fixed: bool) -> &'static [u8]
    ensures { result.now ≡ look is_removed is_fixed }
{
    if is_removed {
        return b",color=red";
    }
    if is_fixed {
        return b",style=bold";
    }
    b""
}

/// Adds a path.
fn put_path(text: &mut Vec<u8>, path: &[u8]) -> Result<(), AllocError>
    ensures { OnOk result (text.new.items ≡ text.old.items ++ dot_path path.now) }
{
    text.push(b'"')?;
    put_bytes(text, path)?;
    text.push(b'"')?;
    Ok(())
}

/// Adds the bytes of a path.
fn put_bytes(text: &mut Vec<u8>, bytes: &[u8]) -> Result<(), AllocError>
    ensures { OnOk result (text.new.items ≡ text.old.items ++ flat_map dot_byte bytes.now) }
{
    for byte in bytes {
        put_byte(text, *byte)?;
    }
    Ok(())
}

/// Adds a byte of a quoted text.
fn put_byte(text: &mut Vec<u8>, byte: u8) -> Result<(), AllocError>
    ensures { OnOk result (text.new.items ≡ text.old.items ++ dot_byte byte) }
{
    if byte == b'"' || byte == b'\\' {
        text.push(b'\\')?;
        text.push(byte)?;
        return Ok(());
    }
    if byte < 32 || byte == 127 {
        text.extend_from_slice(b"\\\\x")?;
        return put_hex_byte(text, byte);
    }
    text.push(byte)?;
    Ok(())
}
