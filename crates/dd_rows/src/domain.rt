//! The domain and the ground of a discharge. The program is made from the admissible fillings of the ground.
ghost use Rattle.std.specs.Prelude.{◌≡◌, ◌<◌, ◌≤◌, IfOk, IfErr, [], All};
ghost use Rattle.std.specs.List.Sorted.{IsStrictlySortedBy};
ghost use Rattle.dd_values.specs.Bounds.{widest_radius};
ghost use Rattle.dd_lattice.specs.Order.{cell_cmp};
ghost use Rattle.dd_lattice.specs.Boxes.{centred, positions_of};
ghost use Rattle.dd_lattice.specs.Regions.{IsRegion, IsRegionOf, IsMoved};
ghost use Rattle.dd_boxes.specs.Discharges.{IsVector, AreVectors};
ghost use Rattle.dd_rows.specs.listing.Levels.{AreOf, AreInRange};
ghost use Rattle.dd_boxes.specs.Cells.{cells_on, box_cells};
ghost use Rattle.dd_rows.specs.Domains.{IsInDomain, IsInGround, IsGround};

use crate::fault::RowsFault;
use dd_formula::Rule;
use dd_lattice::{Cell, LatticeFault, Position, Region, centred_box, positions};
use dd_topology::reversed;
use dd_values::Items;
use std::alloc::{AllocError, Global};

/// The positions of the box of this radius centred at the origin. Fails only if memory runs out.
fn box_region(alloc: Global, dim: u32, radius: u32) -> Result<Region, RowsFault>
    requires least { 1 ≤ dim }
    requires most { dim ≤ 3 }
    requires radius { radius ≤ widest_radius }
    ensures list { IfOk result (λ region. region ≡ positions_of (centred dim radius)) }
    ensures members { IfOk result (IsRegionOf (IsInDomain dim radius [])) }
    ensures memory { IfErr result (λ fault. fault ≡ RowsFault.Memory) }
{
    let Some(bounds) = centred_box(dim, radius) else {
        // Never reached: there is a box for each radius up to 2^20, and this radius is at most 3.
        return Err(RowsFault::Memory);
    };
    let region = positions(alloc, &bounds)?;
    Ok(region)
}

/// The domain: the box of this radius centred at the origin, and this box moved by the opposite of each vector. Fails only if
/// memory runs out.
fn domain(alloc: Global, dim: u32, radius: u32, vectors: &[Position]) -> Result<Region, RowsFault>
    requires least { 1 ≤ dim }
    requires most { dim ≤ 3 }
    requires radius { radius ≤ widest_radius }
    requires vectors { All (IsVector dim) vectors.now }
    ensures members { IfOk result (IsRegionOf (IsInDomain dim radius vectors.now)) }
    ensures memory { IfErr result (λ fault. fault ≡ RowsFault.Memory) }
{
    let around = box_region(alloc, dim, radius)?;
    let mut all = box_region(alloc, dim, radius)?;
    for vector in vectors {
        let moved = match around.shifted(alloc, &reversed(vector)) {
            Ok(moved) => moved,
            Err(LatticeFault::Memory) => return Err(RowsFault::Memory),
            // Never reached: along each axis, positions of the box lie within 3 of the origin, and a vector moves them by at
            // most 4.
            Err(LatticeFault::Range) => unreachable!(),
        };
        all = all.union(alloc, &moved)?;
    }
    Ok(all)
}

/// The cells at these positions. If the positions are in order, so are the cells.
fn cells_on(alloc: Global, nodes: u32, positions: &[Position]) -> Result<Items<Cell>, AllocError>
    ensures { IfOk result (λ cells. cells ≡ cells_on nodes positions.now) }
{
    let mut cells = Items::new(alloc);
    for position in positions {
        for node in 0..nodes {
            cells.push(Cell {
                position: *position,
                node,
            })?;
        }
    }
    Ok(cells)
}

/// The cells of the box of this radius centred at the origin, in cell order. Fails only if memory runs out.
pub(crate) fn box_cells(alloc: Global, rule: &Rule, radius: u32) -> Result<Items<Cell>, RowsFault>
    requires { radius ≤ widest_radius }
    ensures cells { IfOk result (λ cells. cells ≡ box_cells rule.now radius) }
    ensures memory { IfErr result (λ fault. fault ≡ RowsFault.Memory) }
{
    let dim = rule.dim();
    let nodes = rule.nodes();
    let region = box_region(alloc, dim, radius)?;
    let cells = cells_on(alloc, nodes, region.list())?;
    Ok(cells)
}

/// The cells of the ground, in cell order. The ground is the domain grown by the margin, and the boxes of the domain have this
/// radius. The radius, the margin and the vectors are limited as in `program_of`. Fails only if memory runs out.
pub fn ground(
    alloc: Global,
    rule: &Rule,
    radius: u32,
    margin: u32,
    vectors: &[Position],
) -> Result<Items<Cell>, RowsFault>
    requires radius { radius ≤ widest_radius }
    requires margin { margin ≤ widest_radius }
    requires vectors { AreVectors rule.now.dimension vectors.now }
    ensures ground { IfOk result (IsGround rule.now radius margin vectors.now) }
    ensures order { IfOk result (IsStrictlySortedBy cell_cmp) }
    ensures nodes { IfOk result (AreOf rule.now) }
    ensures near { IfOk result AreInRange }
    ensures memory { IfErr result (λ fault. fault ≡ RowsFault.Memory) }
{
    let dim = rule.dim();
    let nodes = rule.nodes();
    let near = domain(alloc, dim, radius, vectors)?;
    let region = match near.grow(alloc, dim, margin) {
        Ok(region) => region,
        Err(LatticeFault::Memory) => return Err(RowsFault::Memory),
        // Never reached: along each axis, positions of the domain lie within 7 of the origin, and the margin is at most 3.
        Err(LatticeFault::Range) => unreachable!(),
    };
    let positions = region.list();
    let cells = cells_on(alloc, nodes, positions)?;
    Ok(cells)
}
