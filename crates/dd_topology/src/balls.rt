//! Adjacent cells, and balls. A ball is found by a breadth-first search: each round adds the neighbours of the frontier. In
//! the first round the frontier is the centre alone. After that, it is the list of the cells that were new in the round
//! before. The search fails with `Range` if it reaches a cell out of range.
ghost use Rattle.std.specs.Prelude.{◌≡◌, ◌↔◌, ◌++◌, [], true, false, IsTrue, IfOk, IfErr, OnOk};
ghost use Rattle.std.specs.List.{flat_map};
ghost use Rattle.std.specs.List.Sorted.{IsStrictlySortedBy};
ghost use Rattle.dd_lattice.specs.Place.{moved};
ghost use Rattle.dd_lattice.specs.Order.{cell_cmp};
ghost use Rattle.dd_lattice.specs.InOrder.{in_order};
ghost use Rattle.dd_lattice.specs.declared.fault.LatticeFault.TheVariants.{Range};
ghost use Rattle.dd_topology.specs.Balls.{same_place, leads, is_adjacent, IsAdjacent, IsInBall, IsCellListOf, IsCellFaultOf, edge_ends, edge_starts, neighbours, ball, are_in_range};
ghost use Rattle.dd_topology.specs.keeping.Growth.{AddsCells};

use crate::edge::{Edge, end_of, start_of};
use crate::topology::Topology;
use dd_lattice::{Cell, LatticeFault, Position};
use std::alloc::{AllocError, Global};
use std::collections::BTreeSet;

impl Topology {
    /// Whether an edge joins the two cells, in either direction.
    pub fn adjacent(&self, a: &Cell, b: &Cell) -> bool
        ensures test { result ≡ is_adjacent self.now.edges a.now b.now }
        ensures exact { IsTrue result ↔ IsAdjacent self.now.edges a.now b.now }
    {
        some_edge_joins(self.edges(), a, b)
    }

    /// The cells that a path of at most `radius` edges joins to the centre. They come without repeats, in cell order: by z,
    /// then y, then x, then the node. A path may follow an edge in either direction.
    ///
    /// # Errors
    /// `Range` if a coordinate of one of these cells exceeds 2^20 in absolute value. `Memory` if memory ran out first.
    pub fn ball(&self, alloc: Global, centre: &Cell, radius: u32) -> Result<Vec<Cell>, LatticeFault>
        ensures cells { IfOk result (λ v. IsCellListOf (IsInBall self.now.edges centre.now radius) v.items) }
        ensures list { IfOk result (λ v. v.items ≡ in_order (ball self.now.edges centre.now radius)) }
        ensures fault { IfErr result (IsCellFaultOf (IsInBall self.now.edges centre.now radius)) }
    {
        let mut found = BTreeSet::new(alloc);
        self.ball_within(alloc, centre, radius, &mut found)
    }

    /// The cells that `ball` returns. `found` must be empty at first. It collects the cells of the ball, round by round.
    fn ball_within(
        &self,
        alloc: Global,
        centre: &Cell,
        radius: u32,
        found: &mut BTreeSet<Cell>,
    ) -> Result<Vec<Cell>, LatticeFault>
        requires empty { found.old.keys ≡ [] }
        ensures cells { IfOk result (λ v. IsCellListOf (IsInBall self.now.edges centre.now radius) v.items) }
        ensures list { IfOk result (λ v. v.items ≡ in_order (ball self.now.edges centre.now radius)) }
        ensures fault { IfErr result (IsCellFaultOf (IsInBall self.now.edges centre.now radius)) }
    {
        // This read tells the proof what the type guarantees: the centre is in range.
        let position = &centre.position;
        let _ = &position.x;
        found.insert(*centre)?;
        let mut frontier = Vec::new(alloc);
        frontier.push(*centre)?;
        for _ in 0..radius {
            if frontier.is_empty() {
                return listed(alloc, found);
            }
            frontier = next_frontier(alloc, self.edges(), found, &frontier)?;
        }
        listed(alloc, found)
    }
}

/// Whether an edge joins the two cells, in either direction.
fn some_edge_joins(edges: &[Edge], a: &Cell, b: &Cell) -> bool
    ensures { result ≡ is_adjacent edges.now a.now b.now }
{
    edges
        .iter()
        .any(|edge| leads(edge, a, b) || leads(edge, b, a))
}

/// Whether the position `p`, moved by `by`, is `sum`.
fn is_sum(p: &Position, by: &Position, sum: &Position) -> bool
    ensures { result ≡ same_place (moved p.now by.now) sum.now }
{
    if p.x + by.x != sum.x {
        return false;
    }
    if p.y + by.y != sum.y {
        return false;
    }
    p.z + by.z == sum.z
}

/// Whether the edge leads from the cell `from` to the cell `to`.
fn leads(edge: &Edge, from: &Cell, to: &Cell) -> bool
    ensures { result ≡ leads edge.now from.now to.now }
{
    edge.from == from.node
        && edge.to == to.node
        && is_sum(&from.position, &edge.offset, &to.position)
}

/// Adds the cell to which the edge leads from `cell`, if `cell` belongs to the edge's first node.
fn push_end(reached: &mut Vec<Cell>, edge: &Edge, cell: &Cell) -> Result<(), LatticeFault>
    ensures cells { OnOk result (reached.new.items ≡ reached.old.items ++ edge_ends cell.now edge.now) }
    ensures in_range { OnOk result (are_in_range (edge_ends cell.now edge.now) ≡ true) }
    ensures fault { IfErr result (λ fault. fault ≡ Range → are_in_range (edge_ends cell.now edge.now) ≡ false) }
{
    if edge.from != cell.node {
        return Ok(());
    }
    let Some(end) = end_of(cell, edge) else {
        return Err(LatticeFault::Range);
    };
    reached.push(end)?;
    Ok(())
}

/// Adds the cell from which the edge leads to `cell`, if `cell` belongs to the edge's second node.
fn push_start(reached: &mut Vec<Cell>, edge: &Edge, cell: &Cell) -> Result<(), LatticeFault>
    ensures cells { OnOk result (reached.new.items ≡ reached.old.items ++ edge_starts cell.now edge.now) }
    ensures in_range { OnOk result (are_in_range (edge_starts cell.now edge.now) ≡ true) }
    ensures fault { IfErr result (λ fault. fault ≡ Range → are_in_range (edge_starts cell.now edge.now) ≡ false) }
{
    if edge.to != cell.node {
        return Ok(());
    }
    let Some(start) = start_of(cell, edge) else {
        return Err(LatticeFault::Range);
    };
    reached.push(start)?;
    Ok(())
}

/// Adds the cells adjacent to `cell`. A cell is added once for each edge that leads to it from `cell`, and once for each
/// edge that leads from it to `cell`.
fn push_neighbours(reached: &mut Vec<Cell>, edges: &[Edge], cell: &Cell) -> Result<(), LatticeFault>
    ensures cells { OnOk result (reached.new.items ≡ reached.old.items ++ neighbours edges.now cell.now) }
    ensures in_range { OnOk result (are_in_range (neighbours edges.now cell.now) ≡ true) }
    ensures fault { IfErr result (λ fault. fault ≡ Range → are_in_range (neighbours edges.now cell.now) ≡ false) }
{
    for edge in edges {
        push_end(reached, edge, cell)?;
        push_start(reached, edge, cell)?;
    }
    Ok(())
}

/// The cells adjacent to each of `cells` in turn, with repeats.
fn neighbours_of(alloc: Global, edges: &[Edge], cells: &[Cell]) -> Result<Vec<Cell>, LatticeFault>
    ensures cells { IfOk result (λ v. v.items ≡ flat_map (neighbours edges.now) cells.now) }
    ensures in_range { OnOk result (are_in_range (flat_map (neighbours edges.now) cells.now) ≡ true) }
    ensures fault { IfErr result (λ fault. fault ≡ Range → are_in_range (flat_map (neighbours edges.now) cells.now) ≡ false) }
{
    let mut reached = Vec::new(alloc);
    for cell in cells {
        push_neighbours(&mut reached, edges, cell)?;
    }
    Ok(reached)
}

/// Adds the cells to `found`, and returns those that were not in it before.
fn fresh_cells(
    alloc: Global,
    found: &mut BTreeSet<Cell>,
    cells: &[Cell],
) -> Result<Vec<Cell>, LatticeFault>
    ensures cells { IfOk result (λ fresh. AddsCells found.old.keys cells.now found.new.keys fresh.items) }
    ensures fault { IfErr result (λ fault. fault ≡ Range → ⊥) }
{
    let mut fresh = Vec::new(alloc);
    for cell in cells {
        if found.insert(*cell)? {
            fresh.push(*cell)?;
        }
    }
    Ok(fresh)
}

/// Adds the neighbours of the frontier to `found`, and returns the next frontier.
fn next_frontier(
    alloc: Global,
    edges: &[Edge],
    found: &mut BTreeSet<Cell>,
    frontier: &[Cell],
) -> Result<Vec<Cell>, LatticeFault>
    ensures cells { IfOk result (λ fresh. AddsCells found.old.keys (flat_map (neighbours edges.now) frontier.now) found.new.keys fresh.items) }
    ensures in_range { OnOk result (are_in_range (flat_map (neighbours edges.now) frontier.now) ≡ true) }
    ensures fault { IfErr result (λ fault. fault ≡ Range → are_in_range (flat_map (neighbours edges.now) frontier.now) ≡ false) }
{
    let reached = neighbours_of(alloc, edges, frontier)?;
    fresh_cells(alloc, found, &reached)
}

/// The cells of the set, in cell order.
fn listed(alloc: Global, found: &BTreeSet<Cell>) -> Result<Vec<Cell>, LatticeFault>
    ensures cells { IfOk result (λ v. v.items ≡ found.now.keys) }
    ensures ascending { IfOk result (λ v. IsStrictlySortedBy cell_cmp v.items) }
    ensures fault { IfErr result (λ fault. fault ≡ Range → ⊥) }
{
    let cells = dd_lattice::listed(alloc, found)?;
    Ok(cells)
}
