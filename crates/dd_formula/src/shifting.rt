//! Cells moved by a vector, which is given as a position.
ghost use Rattle.std.specs.Prelude.{◌≡◌, true, ◌++◌, ◌≤◌, map, OnOk};
ghost use Rattle.std.specs.List.{list_all};
ghost use Rattle.dd_lattice.specs.Cells.{shifted};
ghost use Rattle.dd_lattice.specs.Place.{moved};
ghost use Rattle.dd_topology.specs.Topology.{extent};
ghost use Rattle.dd_formula.specs.LocalRule.{is_near};

use dd_lattice::{Cell, Position, shift};
use std::alloc::AllocError;

/// The sum of two positions near the origin. It lies within the range of positions.
fn sum_of(p: &Position, by: &Position) -> Position
    requires near { extent p.now ≤ 16 }
    requires by { extent by.now ≤ 16 }
    ensures { result ≡ moved p.now by.now }
{
    let Some(sum) = shift(p, by) else {
        unreachable!()
    };
    sum
}

/// The cell, moved by the vector `by`.
fn shifted(cell: &Cell, by: &Position) -> Cell
    requires near { is_near cell.now ≡ true }
    requires by { extent by.now ≤ 16 }
    ensures { result ≡ shifted by.now cell.now }
{
    Cell {
        position: sum_of(&cell.position, by),
        node: cell.node,
    }
}

/// Appends the cells to `found`, each moved by the vector `by`.
pub(crate) fn push_shifted(
    found: &mut Vec<Cell>,
    by: &Position,
    cells: &[Cell],
) -> Result<(), AllocError>
    requires near { list_all is_near cells.now ≡ true }
    requires by { extent by.now ≤ 16 }
    ensures { OnOk result (found.new.items ≡ found.old.items ++ map (shifted by.now) cells.now) }
{
    for cell in cells {
        found.push(shifted(cell, by))?;
    }
    Ok(())
}
