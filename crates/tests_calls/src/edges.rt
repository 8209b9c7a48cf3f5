//! How edges are printed.
use inc_graph::{EdgeId, Graph};
use inc_lookup::Project;
use tests_parts::{Stop, add, add_number, add_path};

/// Adds the directives of edges, each after a separator.
pub fn add_edges(
    project: &Project<'_>,
    graph: &Graph,
    edges: &[EdgeId],
    out: &mut Vec<u8>,
) -> Result<(), Stop> {
    for edge in edges {
        add(out, b" ")?;
        add_edge(project, graph, *edge, out)?;
    }
    Ok(())
}

/// Adds the directive of an edge, `LINE:PATH`.
pub fn add_edge(
    project: &Project<'_>,
    graph: &Graph,
    edge: EdgeId,
    out: &mut Vec<u8>,
) -> Result<(), Stop> {
    let Some(edge) = graph.edges().get(edge.index()) else {
        return Err(Stop);
    };
    add_number(out, edge.line as usize, b":")?;
    add_path(project, edge.from, out)
}
