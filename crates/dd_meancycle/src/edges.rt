//! The edges of a transfer graph as a list. A window is a state followed by a slice, and may be an edge. Its number is the
//! state's number times the number of different slices, plus the slice's number.
ghost use Rattle.std.specs.Prelude.{◌≡◌, ◌*◌, ◌<◌, ◌++◌, IfOk, OnOk};
ghost use Rattle.std.specs.Option.{option_to_list};
ghost use Rattle.dd_meancycle.specs.table.Lists.{edge_at, AreEdges};
ghost use Rattle.dd_transfer.specs.Graphs.{IsTransfer};

use dd_transfer::Graph;
use std::alloc::{AllocError, Global};

/// An edge between two states, with the weight of its slice.
#[derive(Clone, Copy, Debug, Default, PartialEq, Eq)]
pub(crate) struct Edge {
    pub from: u32,
    pub to: u32,
    pub weight: u32,
}

/// The window with this number as an edge, or `None` if it is not an edge.
fn edge_at(graph: &Graph, number: u32) -> Option<Edge>
    requires { number < graph.now.states * graph.now.slices }
    ensures { result ≡ edge_at graph.now number }
{
    let slices = graph.slices();
    let from = number / slices;
    let slice = number % slices;
    let to = graph.next(from, slice)?;
    let weight = graph.slice_weight(slice) as u32;
    Some(Edge { from, to, weight })
}

/// Appends the edge, if there is one.
fn push_some(edges: &mut Vec<Edge>, edge: Option<Edge>) -> Result<(), AllocError>
    ensures { OnOk result (edges.new.items ≡ edges.old.items ++ option_to_list edge) }
{
    let Some(edge) = edge else { return Ok(()) };
    edges.push(edge)?;
    Ok(())
}

/// All edges, in the order of their windows' numbers.
pub(crate) fn edges(alloc: Global, graph: &Graph) -> Result<Vec<Edge>, AllocError>
    ensures { IfOk result (λ es. AreEdges graph.now es.items) }
{
    let mut edges = Vec::new(alloc);
    let count = graph.states() * graph.slices();
    for number in 0..count {
        push_some(&mut edges, edge_at(graph, number))?;
    }
    Ok(edges)
}
