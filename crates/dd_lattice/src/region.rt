//! Regions: finite sets of positions, kept as lists that are strictly ascending in cell order.
ghost use Rattle.std.specs.Prelude.{◌≡◌, ◌<◌, ◌≤◌, IfOk, IsTrue, ◌↔◌, MatchResult, map, []};
ghost use Rattle.std.specs.List.{Contains};
ghost use Rattle.dd_lattice.specs.Place.{IsInRange, moved};
ghost use Rattle.dd_lattice.specs.Boxes.{IsWithin, positions_of};
ghost use Rattle.dd_lattice.specs.Regions.{IsRegion, IsRegionOf, IsFaultOf, IsInEither, IsMoved};
ghost use Rattle.dd_lattice.specs.declared.fault.LatticeFault.TheVariants.{Range};

use crate::bounds::Box3;
use crate::fault::LatticeFault;
use crate::merging::merged;
use crate::position::{Position, shift};
use std::alloc::{AllocError, Global};
use std::marker::Model;

/// A finite set of positions. Contracts see it as the strictly ascending list of its members.
#[derive(Debug, Drop)]
pub struct Region {
    members: Vec<Position>,
}

impl Model for Region {
    ghost use Rattle.std.specs.Prelude.{List};
    ghost use Rattle.dd_lattice.specs.Place.{Place};
    ghost use Rattle.dd_lattice.specs.Regions.{IsRegion};

    ghost Value = { List Place };

    ghost view = { λ r. r.members.items };

    ghost invariant = { λ r. IsRegion r.members.items };
}

/// All positions of a box.
pub fn positions(alloc: Global, b: &Box3) -> Result<Region, AllocError>
    ensures list { IfOk result (λ r. r ≡ positions_of b.now) }
    ensures members { IfOk result (IsRegionOf (IsWithin b.now)) }
{
    let mut members = Vec::new(alloc);
    for index in 0..b.volume() {
        if let Some(position) = b.position_at(index) {
            members.push(position)?;
        }
    }
    Ok(Region { members })
}

impl Region {
    /// The empty region.
    pub(crate) fn empty(alloc: Global) -> Region
        ensures { result ≡ [] }
    {
        Region {
            members: Vec::new(alloc),
        }
    }

    /// The positions of the region, in cell order.
    pub fn list(&self) -> &[Position]
        ensures value { result.now ≡ self.now }
        ensures region { IsRegion self.now }
    {
        self.members.as_slice()
    }

    /// Whether the position is in the region.
    pub fn holds(&self, p: &Position) -> bool
        ensures { IsTrue result ↔ Contains self.now p.now }
    {
        match self.members.as_slice().binary_search(p) {
            Ok(_) => true,
            Err(_) => false,
        }
    }

    /// The region moved by `by`: `by` is added to each position. The fault is `Range` only if a coordinate would exceed 2^20 in
    /// absolute value.
    pub fn shifted(&self, alloc: Global, by: &Position) -> Result<Region, LatticeFault>
        ensures list { IfOk result (λ r. r ≡ map (λ p. moved p by.now) self.now) }
        ensures members { MatchResult result (IsRegionOf (IsMoved self.now by.now)) (IsFaultOf (IsMoved self.now by.now)) }
    {
        let members = all_moved(alloc, self.members.as_slice(), by)?;
        Ok(Region { members })
    }

    /// The positions that are in at least one of the two regions.
    pub fn union(&self, alloc: Global, other: &Region) -> Result<Region, AllocError>
        ensures { IfOk result (IsRegionOf (IsInEither self.now other.now)) }
    {
        let members = merged(alloc, self.list(), other.list())?;
        Ok(Region { members })
    }
}

/// The positions of a region, each moved by `by`. The fault is `Range` only if a coordinate would exceed 2^20 in absolute
/// value.
fn all_moved(alloc: Global, list: &[Position], by: &Position) -> Result<Vec<Position>, LatticeFault>
    requires { IsRegion list.now }
    ensures list { IfOk result (λ v. v.items ≡ map (λ p. moved p by.now) list.now) }
    ensures members { let moved = IsMoved list.now by.now in MatchResult result (λ v. IsRegionOf moved v.items) (IsFaultOf moved) }
{
    let mut members = Vec::new(alloc);
    for p in list {
        let Some(there) = shift(p, by) else {
            return Err(LatticeFault::Range);
        };
        members.push(there)?;
    }
    Ok(members)
}
