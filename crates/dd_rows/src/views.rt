//! Views: lists of the cells whose symbols determine the row that a filling requires. Each cell is given by its number, which
//! is its index in the list of the cells that are filled, or the length of this list if the cell isn't there.
ghost use Rattle.std.specs.Prelude.{◌≡◌, ◌<◌, ◌≤◌, ◌*◌, pos, map, length, IfOk, IfErr};
ghost use Rattle.std.specs.List.{All, range_with_len};
ghost use Rattle.std.specs.List.Sorted.{IsStrictlySortedBy};
ghost use Rattle.dd_values.specs.Bounds.{widest_radius};
ghost use Rattle.dd_lattice.specs.Place.{place};
ghost use Rattle.dd_lattice.specs.Order.{cell_cmp};
ghost use Rattle.dd_boxes.specs.Cells.{box_cells};
ghost use Rattle.dd_boxes.specs.Boxes.{origin};
ghost use Rattle.dd_rows.specs.listing.Levels.{AreInRange};
ghost use Rattle.dd_rows.specs.listing.Views.{view_of, centre_of, givers_of, AreViews};

use crate::domain::box_cells;
use crate::fault::RowsFault;
use crate::search::number_of_read;
use dd_formula::Rule;
use dd_lattice::{Cell, Position};
use dd_numbered::rank;
use dd_topology::reversed;
use dd_values::Items;
use std::alloc::{AllocError, Global};

const ORIGIN: Position = Position { x: 0, y: 0, z: 0 };

/// The views on which a row depends. A view is a list of cell numbers. It shows a part of a filling: the symbols of these
/// cells.
#[derive(Drop)]
pub(crate) struct Views {
    /// The numbers of the cells at the origin, one for each node.
    pub(crate) centre: Items<usize>,
    /// The numbers of the cells of the box around the origin.
    pub(crate) origin: Items<usize>,
    /// For each vector v, the numbers of the cells of the box around -v, the position that gives to the origin along v.
    pub(crate) givers: Items<Items<usize>>,
}

/// The numbers of the cells of the box around the position `at`. `boxed` lists the cells of the box around the origin.
fn view(
    alloc: Global,
    cells: &[Cell],
    boxed: &[Cell],
    at: &Position,
) -> Result<Items<usize>, AllocError>
    requires ascending { IsStrictlySortedBy cell_cmp cells.now }
    requires near { AreInRange cells.now }
    ensures { IfOk result (λ numbers. numbers ≡ view_of cells.now boxed.now at.now) }
{
    let centre = Cell {
        position: *at,
        node: 0,
    };
    let mut numbers = Items::new(alloc);
    for cell in boxed {
        numbers.push(number_of_read(cells, &centre, cell))?;
    }
    Ok(numbers)
}

/// For each vector, the numbers of the cells of the box around the vector's opposite.
fn givers(
    alloc: Global,
    cells: &[Cell],
    boxed: &[Cell],
    vectors: &[Position],
) -> Result<Items<Items<usize>>, AllocError>
    requires ascending { IsStrictlySortedBy cell_cmp cells.now }
    requires near { AreInRange cells.now }
    ensures { IfOk result (λ givers. givers ≡ givers_of cells.now boxed.now vectors.now) }
{
    let mut givers = Items::new(alloc);
    for vector in vectors {
        givers.push(view(alloc, cells, boxed, &reversed(vector))?)?;
    }
    Ok(givers)
}

/// The numbers of the cells at the origin.
fn centre(alloc: Global, cells: &[Cell], nodes: u32) -> Result<Items<usize>, AllocError>
    requires ascending { IsStrictlySortedBy cell_cmp cells.now }
    ensures { IfOk result (λ numbers. numbers ≡ centre_of cells.now nodes) }
{
    let mut numbers = Items::new(alloc);
    for node in 0..nodes {
        numbers.push(rank(
            cells,
            &Cell {
                position: ORIGIN,
                node,
            },
        ))?;
    }
    Ok(numbers)
}

impl Views {
    /// The views of a discharge along the vectors. The boxes have this radius, and the cells are numbered by the list
    /// `cells`. Fails only if memory runs out.
    pub(crate) fn new(
        alloc: Global,
        rule: &Rule,
        cells: &[Cell],
        radius: u32,
        vectors: &[Position],
    ) -> Result<Views, RowsFault>
        requires radius { radius ≤ widest_radius }
        requires ascending { IsStrictlySortedBy cell_cmp cells.now }
        requires near { AreInRange cells.now }
        ensures views { IfOk result (AreViews rule.now radius vectors.now cells.now) }
        ensures memory { IfErr result (λ fault. fault ≡ RowsFault.Memory) }
    {
        let boxed = box_cells(alloc, rule, radius)?;
        let centre = centre(alloc, cells, rule.nodes())?;
        let origin = view(alloc, cells, boxed.as_slice(), &ORIGIN)?;
        let givers = givers(alloc, cells, boxed.as_slice(), vectors)?;
        Ok(Views {
            centre,
            origin,
            givers,
        })
    }
}
