//! The edges of a topology, and the cells at their ends.
ghost use Rattle.std.specs.Prelude.{◌≡◌};
ghost use Rattle.dd_topology.specs.Topology.{reversed, end_of, start_of, in_range};

use dd_lattice::{Cell, Position, shift};

/// An edge leads from each cell of its first node to a cell of its second node. The position of the second cell is that of
/// the first cell, moved by `offset`.
#[derive(Debug, Clone, Copy, PartialEq, Eq)]
pub struct Edge {
    /// The number of its label.
    pub label: u32,
    /// Its first node.
    pub from: u32,
    pub offset: Position,
    /// Its second node.
    pub to: u32,
}

/// The cell to which the edge leads from `cell`, a cell of the edge's first node. `None` if the cell at the end is out of
/// range.
pub(crate) fn end_of(cell: &Cell, edge: &Edge) -> Option<Cell>
    ensures { result ≡ in_range (end_of cell.now edge.now) }
{
    let position = shift(&cell.position, &edge.offset)?;
    Some(Cell {
        position,
        node: edge.to,
    })
}

/// The cell from which the edge leads to `cell`, a cell of the edge's second node. `None` if the cell at the start is out
/// of range.
pub(crate) fn start_of(cell: &Cell, edge: &Edge) -> Option<Cell>
    ensures { result ≡ in_range (start_of cell.now edge.now) }
{
    let back = reversed(&edge.offset);
    let position = shift(&cell.position, &back)?;
    Some(Cell {
        position,
        node: edge.from,
    })
}

/// The offset of an edge that is followed backwards: each coordinate is negated.
pub fn reversed(offset: &Position) -> Position
    ensures { result ≡ reversed offset.now }
{
    Position {
        x: -offset.x,
        y: -offset.y,
        z: -offset.z,
    }
}
