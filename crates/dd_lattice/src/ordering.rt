//! Lists of cells in cell order.
ghost use Rattle.std.specs.Prelude.{◌≡◌, IfOk};
ghost use Rattle.std.specs.List.Sorted.{IsStrictlySortedBy};
ghost use Rattle.dd_lattice.specs.Order.{cell_cmp};
ghost use Rattle.dd_lattice.specs.InOrder.{in_order, HaveSameCells};

use crate::position::Cell;
use std::alloc::{AllocError, Global};
use std::collections::BTreeSet;

/// The cells of a list, in cell order, each once.
pub fn in_order(alloc: Global, cells: &[Cell]) -> Result<Vec<Cell>, AllocError>
    ensures list { IfOk result (λ v. v.items ≡ in_order cells.now) }
    ensures order { IfOk result (λ v. IsStrictlySortedBy cell_cmp v.items) }
    ensures members { IfOk result (λ v. HaveSameCells v.items cells.now) }
{
    let mut found = BTreeSet::new(alloc);
    for cell in cells {
        found.insert(*cell)?;
    }
    listed(alloc, &found)
}

/// The cells of a set, in cell order.
pub fn listed(alloc: Global, found: &BTreeSet<Cell>) -> Result<Vec<Cell>, AllocError>
    ensures list { IfOk result (λ v. v.items ≡ found.now.keys) }
    ensures order { IfOk result (λ v. IsStrictlySortedBy cell_cmp v.items) }
{
    found.iter().copied().collect(alloc)
}
