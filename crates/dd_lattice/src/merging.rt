//! The union of two strictly ascending lists, by one walk through both.
ghost use Rattle.std.specs.Prelude.{◌≡◌, IfOk};
ghost use Rattle.dd_lattice.specs.Order.{place_cmp};
ghost use Rattle.dd_lattice.specs.Regions.{IsRegion, IsRegionOf, IsInEither};
ghost use Rattle.dd_lattice.specs.listing.Merge.{next_position, from_left, from_right};

use crate::position::Position;
use std::alloc::{AllocError, Global};
use std::cmp::Ordering;

/// One step of the walk: the lesser of the next positions of the two lists, and how many positions the step takes from each
/// list, 0 or 1.
#[derive(Clone, Copy)]
struct Step {
    position: Position,
    from_left: usize,
    from_right: usize,
}

/// The step of the walk when `left` and `right` are the next positions of the two lists.
fn next_of(left: &Position, right: &Position) -> Step
    ensures position { result.position ≡ next_position (place_cmp left.now right.now) left.now right.now }
    ensures left { result.from_left ≡ from_left (place_cmp left.now right.now) }
    ensures right { result.from_right ≡ from_right (place_cmp left.now right.now) }
{
    match left.cmp(right) {
        Ordering::Less => Step {
            position: *left,
            from_left: 1,
            from_right: 0,
        },
        Ordering::Equal => Step {
            position: *left,
            from_left: 1,
            from_right: 1,
        },
        Ordering::Greater => Step {
            position: *right,
            from_left: 0,
            from_right: 1,
        },
    }
}

/// The positions that are in at least one of the two lists, each once, in cell order. Each list must be strictly ascending.
pub fn merged(
    alloc: Global,
    left: &[Position],
    right: &[Position],
) -> Result<Vec<Position>, AllocError>
    requires left { IsRegion left.now }
    requires right { IsRegion right.now }
    ensures { IfOk result (λ v. IsRegionOf (IsInEither left.now right.now) v.items) }
{
    let mut members = Vec::new(alloc);
    let mut i = 0;
    let mut j = 0;
    while i < left.len() && j < right.len() {
        let next = next_of(&left[i], &right[j]);
        members.push(next.position)?;
        i += next.from_left;
        j += next.from_right;
    }
    members.extend_from_slice(&left[i..])?;
    members.extend_from_slice(&right[j..])?;
    Ok(members)
}
