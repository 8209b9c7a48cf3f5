//! The first lines of directives that lead to no file or to several.
ghost use Rattle.std.specs.Prelude.{◌≡◌, ◌<◌, ◌==◌, ◌&&◌, ◌||◌, ℕ, length, nat_lt, slice_index, IfOk};
ghost use Rattle.std.specs.List.{All, list_any};
ghost use Rattle.inc_graph.specs.MissingLists as graphs;
ghost use Rattle.inc_rules.specs.Lines.{AreOpens};

use inc_graph::{Blocker, Graph, MissingList};
use inc_lookup::FileId;
use std::alloc::{AllocError, Global};

/// For each file the line of its first directive that leads to no file or to several; the largest number where it has none.
pub(crate) fn open_lines(alloc: Global, graph: &Graph) -> Result<Vec<u32>, AllocError>
    ensures { IfOk result (λ opens. AreOpens graph.now opens.items) }
{
    let mut opens = vec![in alloc; u32::MAX; graph.files()]?;
    put_missing(&mut opens, graph.missing());
    put_blockers(&mut opens, graph.blockers());
    Ok(opens)
}

/// Takes directives whose header is not found into account.
fn put_missing(opens: &mut [u32], missing: &MissingList)
    requires { All (λ (m : graphs.Missing). m.file < length opens.old) missing.now }
    ensures long { length opens.new ≡ length opens.old }
    ensures each { (file line : ℕ) → file < length opens.old → nat_lt (slice_index opens.new file) line
        ≡ (nat_lt (slice_index opens.old file) line || list_any (λ (m : graphs.Missing). (m.file == file) && nat_lt m.line line) missing.now) }
{
    for place in 0..missing.len() {
        let directive = missing.at(place);
        put_line(opens, directive.file, directive.line);
    }
}

/// Takes directives into account of which nothing can be said.
fn put_blockers(opens: &mut [u32], blockers: &[Blocker])
    requires { All (λ (b : Blocker). b.file < length opens.old) blockers.now }
    ensures long { length opens.new ≡ length opens.old }
    ensures each { (file line : ℕ) → file < length opens.old → nat_lt (slice_index opens.new file) line
        ≡ (nat_lt (slice_index opens.old file) line || list_any (λ (b : Blocker). (b.file == file) && nat_lt b.line line) blockers.now) }
{
    for blocker in blockers {
        put_line(opens, blocker.file, blocker.line);
    }
}

/// Takes a directive at a line of a file into account.
fn put_line(opens: &mut [u32], file: FileId, line: u32)
    requires { file < length opens.old }
    ensures long { length opens.new ≡ length opens.old }
    ensures each { (f l : ℕ) → f < length opens.old → nat_lt (slice_index opens.new f) l
        ≡ (nat_lt (slice_index opens.old f) l || ((file == f) && nat_lt line l)) }
{
    let first = &mut opens[file.index()];
    if line < *first {
        *first = line;
    }
}
