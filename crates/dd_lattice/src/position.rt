//! Positions and cells, and cell order: by z, then y, then x, then the node.
ghost use Rattle.std.specs.Prelude.{◌≡◌, if◌then◌else◌};
ghost use Rattle.std.proofs.Common.{rules};
ghost use Rattle.std.specs.Cmp.{partial_order_from_own_ties};
ghost use Rattle.std.specs.Cmp.Rules.{comparing};
ghost use Rattle.std.specs.Ordering.{nat_cmp, int_cmp, on, then_cmp, as_partial_cmp};
ghost use Rattle.dd_lattice.specs.Place.{place, moved, is_in_range};
ghost use Rattle.dd_lattice.specs.Order.{place_cmp, cell_cmp};

use std::cmp::Ordering;
use std::marker::Model;

/// The greatest absolute value of a coordinate, 2^20.
pub const MOST_COORDINATE: i32 = 1_048_576;

/// A position of Z^3. Each coordinate is at most 2^20 in absolute value. In one dimension `y` and `z` are 0, and in two
/// dimensions `z` is 0.
#[derive(Debug, Clone, Copy, PartialEq, Eq)]
pub struct Position {
    pub x: i32,
    pub y: i32,
    pub z: i32,
}

impl Model for Position {
    ghost use Rattle.dd_lattice.specs.Place.{Place, IsInRange};

    ghost Value = { Place };

    ghost view = { λ p. record { x = p.x; y = p.y; z = p.z } };

    ghost invariant = { λ p. IsInRange (record { x = p.x; y = p.y; z = p.z }) };

    ghost inverse = { λ p. record { x = p.x; y = p.y; z = p.z } };
}

impl Position {
    /// The position with these coordinates. `None` if one of them exceeds 2^20 in absolute value.
    pub fn new(x: i32, y: i32, z: i32) -> Option<Position>
        ensures { result ≡ (if is_in_range (place x y z) then Some (place x y z) else None) }
    {
        if -MOST_COORDINATE <= x
            && x <= MOST_COORDINATE
            && -MOST_COORDINATE <= y
            && y <= MOST_COORDINATE
            && -MOST_COORDINATE <= z
            && z <= MOST_COORDINATE
        {
            Some(Position { x, y, z })
        } else {
            None
        }
    }
}

/// The sum of two positions. `None` if a coordinate of the sum exceeds 2^20 in absolute value.
pub fn shift(p: &Position, by: &Position) -> Option<Position>
    ensures { result ≡ (if is_in_range (moved p.now by.now) then Some (moved p.now by.now) else None) }
{
    Position::new(p.x + by.x, p.y + by.y, p.z + by.z)
}

impl Ord for Position {
    ghost cmp = { place_cmp };

    ghost total = { Prim.search (comparing, rules) };

    ghost matches_partial_cmp = { Prim.search (comparing, rules) };

    ghost matches_eq = { Prim.search (comparing, rules) };

    fn cmp(&self, other: &Position) -> Ordering {
        self.z
            .cmp(&other.z)
            .then(self.y.cmp(&other.y))
            .then(self.x.cmp(&other.x))
    }
}

impl PartialOrd for Position {
    ghost partial_cmp = { as_partial_cmp place_cmp };

    ghost laws = { partial_order_from_own_ties (Prim.search (comparing, rules)) (Prim.search (comparing, rules)) };

    fn partial_cmp(&self, other: &Position) -> Option<Ordering> {
        Some(self.cmp(other))
    }
}

/// A cell of the lattice: a position and one of its nodes. The nodes of a position are numbered from 0.
#[derive(Debug, Clone, Copy, PartialEq, Eq)]
pub struct Cell {
    pub position: Position,
    pub node: u32,
}

impl Ord for Cell {
    ghost cmp = { cell_cmp };

    ghost total = { Prim.search (comparing, rules) depth 9 };

    ghost matches_partial_cmp = { Prim.search (comparing, rules) depth 9 };

    ghost matches_eq = { Prim.search (comparing, rules) depth 9 };

    fn cmp(&self, other: &Cell) -> Ordering {
        self.position
            .cmp(&other.position)
            .then(self.node.cmp(&other.node))
    }
}

impl PartialOrd for Cell {
    ghost partial_cmp = { as_partial_cmp cell_cmp };

    ghost laws = { partial_order_from_own_ties (Prim.search (comparing, rules) depth 9) (Prim.search (comparing, rules) depth 9) };

    fn partial_cmp(&self, other: &Cell) -> Option<Ordering> {
        Some(self.cmp(other))
    }
}
