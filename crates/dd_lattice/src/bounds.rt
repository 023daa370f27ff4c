//! Boxes of positions. The positions of a box are numbered from 0 in cell order: by z, then y, then x.
ghost use Rattle.std.specs.Prelude.{◌≡◌, ℕ, ◌+◌, ◌*◌, ◌<◌, ◌≤◌, ℤ, pos, ◌+ℤ◌, ◌-ℤ◌, ◌≤ℤ◌, IsTrue, ◌↔◌, MatchOption, IfSome, unsigned_abs, nat_le, nat_lt, if◌then◌else◌};
ghost use Rattle.dd_lattice.specs.Place.{Place, IsCoordinateInRange, IsInRange, place, most_coordinate};
ghost use Rattle.dd_lattice.specs.Boxes.{IsAtMostOnEachAxis, IsBox, IsWithin, IsCentred, centred, spread, gap, most_gap, volume, index_in, place_in};

use crate::position::{MOST_COORDINATE, Position};
use std::marker::Model;

/// A box of Z^3: all positions from `low` to `high`, both included, on each axis. On each axis `low` is at most `high`.
#[derive(Debug, Clone, Copy, PartialEq, Eq)]
pub struct Box3 {
    pub low: Position,
    pub high: Position,
}

impl Model for Box3 {
    ghost use Rattle.dd_lattice.specs.Boxes.{Bounds, IsAtMostOnEachAxis};

    ghost Value = { Bounds };

    ghost view = { λ b. record { low = b.low; high = b.high } };

    ghost invariant = { λ b. IsAtMostOnEachAxis b.low b.high };

    ghost inverse = { λ b. record { low = b.low; high = b.high } };
}

/// The greatest coordinate of the centred box of this radius on this axis. The axes are numbered from 0. See `centred_box`.
fn spread(axis: u32, dim: u32, radius: i32) -> i32
    requires { pos 0 ≤ℤ radius }
    ensures value { result ≡ pos (spread (nat_lt axis dim) (unsigned_abs radius)) }
    ensures low { pos 0 ≤ℤ result }
    ensures high { result ≤ℤ radius }
{
    if axis < dim { radius } else { 0 }
}

/// The centred box of this radius. The radius is at most 2^20. See `centred_box`.
fn around_origin(dim: u32, radius: u32) -> Box3
    requires { radius ≤ most_coordinate }
    ensures { result ≡ centred dim radius }
{
    let x = spread(0, dim, radius as i32);
    let y = spread(1, dim, radius as i32);
    let z = spread(2, dim, radius as i32);
    Box3 {
        low: Position {
            x: -x,
            y: -y,
            z: -z,
        },
        high: Position { x, y, z },
    }
}

/// The centred box of this radius: all positions whose first `dim` coordinates are at most `radius` in absolute value and whose
/// other coordinates are 0. `dim` is 1, 2 or 3. `None` if the radius exceeds 2^20.
pub fn centred_box(dim: u32, radius: u32) -> Option<Box3>
    requires least { 1 ≤ dim }
    requires most { dim ≤ 3 }
    ensures value { result ≡ (if nat_le radius most_coordinate then Some (centred dim radius) else None) }
    ensures members { IfSome result (λ b. (p : Place) → IsWithin b p ↔ IsCentred dim radius p) }
{
    if radius > MOST_COORDINATE as u32 {
        return None;
    }
    Some(around_origin(dim, radius))
}

/// A number of steps on each axis.
#[derive(Clone, Copy)]
struct Steps {
    x: u64,
    y: u64,
    z: u64,
}

/// Whether `p` is at most `q` on each axis.
fn is_at_most(p: &Position, q: &Position) -> bool
    ensures { IsTrue result ↔ IsAtMostOnEachAxis p.now q.now }
{
    if q.x < p.x || q.y < p.y || q.z < p.z {
        return false;
    }
    true
}

/// The number of steps from `from` up to `to` on each axis.
fn steps_between(from: &Position, to: &Position) -> Steps
    requires { IsAtMostOnEachAxis from.now to.now }
    ensures x { result.x ≡ gap from.now.x to.now.x }
    ensures y { result.y ≡ gap from.now.y to.now.y }
    ensures z { result.z ≡ gap from.now.z to.now.z }
    ensures x_bound { result.x ≤ most_gap }
    ensures y_bound { result.y ≤ most_gap }
    ensures z_bound { result.z ≤ most_gap }
    ensures from { IsInRange from.now }
    ensures to { IsInRange to.now }
{
    Steps {
        x: (to.x - from.x) as u64,
        y: (to.y - from.y) as u64,
        z: (to.z - from.z) as u64,
    }
}

impl Box3 {
    /// The number of positions of the box.
    pub fn volume(&self) -> u64
        ensures value { result ≡ volume self.now }
        ensures bounds { IsBox self.now }
    {
        let all = steps_between(&self.low, &self.high);
        (all.x + 1) * ((all.y + 1) * (all.z + 1))
    }

    /// Whether the position is in the box.
    fn holds(&self, p: &Position) -> bool
        ensures { IsTrue result ↔ IsWithin self.now p.now }
    {
        is_at_most(&self.low, p) && is_at_most(p, &self.high)
    }

    /// The number that the position has in the box. See `index_of`.
    fn number(&self, p: &Position) -> u64
        requires { IsWithin self.now p.now }
        ensures value { result ≡ index_in self.now p.now }
        ensures below { result < volume self.now }
    {
        let all = steps_between(&self.low, &self.high);
        let there = steps_between(&self.low, p);
        (there.z * (all.y + 1) + there.y) * (all.x + 1) + there.x
    }

    /// The position with this number in the box. The number is below the volume.
    fn place(&self, index: u64) -> Position
        requires { index < volume self.now }
        ensures { result ≡ place_in self.now index }
    {
        let all = steps_between(&self.low, &self.high);
        let width = all.x + 1;
        let height = all.y + 1;
        let row = index / width;
        raised(
            &self.low,
            &self.high,
            index % width,
            row % height,
            row / height,
        )
    }

    /// The number of `p` in the box: how many positions of the box come before `p` in cell order. `None` if `p` is outside the
    /// box.
    pub fn index_of(&self, p: &Position) -> Option<u64>
        ensures value { MatchOption result (IsWithin self.now p.now → ⊥) (λ i. (i < volume self.now) × (i ≡ index_in self.now p.now)) }
        ensures undone { IfSome result (λ i. place_in self.now i ≡ p.now) }
    {
        if self.holds(p) {
            Some(self.number(p))
        } else {
            None
        }
    }

    /// The position with this number in the box. `None` if the number isn't below the volume.
    pub fn position_at(&self, index: u64) -> Option<Position>
        ensures value { MatchOption result (volume self.now ≤ index) (λ p. p ≡ place_in self.now index) }
        ensures within { IfSome result (IsWithin self.now) }
        ensures undone { IfSome result (λ p. index_in self.now p ≡ index) }
    {
        if index < self.volume() {
            Some(self.place(index))
        } else {
            None
        }
    }
}

/// The position that is `x`, `y` and `z` steps above `low` on the three axes. It must not be above `high` on any axis.
fn raised(low: &Position, high: &Position, x: u64, y: u64, z: u64) -> Position
    requires { IsAtMostOnEachAxis (place (low.now.x +ℤ pos x) (low.now.y +ℤ pos y) (low.now.z +ℤ pos z)) high.now }
    ensures { result ≡ place (low.now.x +ℤ pos x) (low.now.y +ℤ pos y) (low.now.z +ℤ pos z) }
{
    Position {
        x: coordinate(low.x, high.x, x),
        y: coordinate(low.y, high.y, y),
        z: coordinate(low.z, high.z, z),
    }
}

/// The coordinate that is `by` steps above `low`. It must not be above `high`.
fn coordinate(low: i32, high: i32, by: u64) -> i32
    requires low_near { IsCoordinateInRange low }
    requires high_near { IsCoordinateInRange high }
    requires up_to { (low +ℤ pos by) ≤ℤ high }
    ensures value { result ≡ low +ℤ pos by }
    ensures near { IsCoordinateInRange result }
{
    low + by as i32
}
