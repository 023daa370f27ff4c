//! The check of a NO to a box question: a configuration of allowed symbols that lives in the premise's subshift and has the
//! goal at the origin.
ghost use Rattle.std.specs.Prelude.{◌≡◌, ◌≤◌, ◌<◌, ◌↔◌, length, slice_index_or, All, IsTrue, IfOk, MatchOption};
ghost use Rattle.dd_pattern.specs.Periods.{AreWithin};
ghost use Rattle.dd_boxes.specs.Goals.{IsGoalFor};
ghost use Rattle.dd_boxes.specs.Views.{goal_of};
ghost use Rattle.dd_evidence.specs.Tiles.{given_periods, given_tile};
ghost use Rattle.dd_verify.specs.Evidence.{IsNo};
ghost use Rattle.dd_values.specs.Ranges.{AreLimits};
ghost use Rattle.dd_verify.specs.Given.{IsGiven};

use crate::configurations::shows;
use dd_boxes::Goal;
use dd_formula::Rule;
use dd_pattern::Periodic;
use dd_values::Limits;
use std::alloc::{AllocError, Global};

/// The period along this axis; 1 if none is given for it.
fn along(periods: &[u64], axis: usize) -> u64
    ensures { result ≡ slice_index_or periods.now axis 1 }
{
    if axis < periods.len() {
        periods[axis]
    } else {
        1
    }
}

/// Whether there are exactly `dim` periods, each from 1 to `most`, and the shear is less than the first period. In one
/// dimension the shear must be 0.
fn are_periods(dim: u32, most: u32, periods: &[u64], shear: u64) -> bool
    requires dim { (1 ≤ dim) × (dim ≤ 3) }
    requires most { 1 ≤ most }
    ensures { IsTrue result ↔ ((length periods.now ≡ dim) × AreWithin dim most (given_periods periods.now shear)) }
{
    let x = along(periods, 0);
    let y = along(periods, 1);
    let z = along(periods, 2);
    let most = u64::from(most);
    periods.len() == dim as usize
        && 0 < x
        && x <= most
        && 0 < y
        && y <= most
        && 0 < z
        && z <= most
        && shear < x
        && (1 < dim || shear == 0)
}

/// The symbols as 32-bit numbers; `None` if one of them is not below `size`, the size of the alphabet.
pub(crate) fn narrowed(
    alloc: Global,
    symbols: &[u64],
    size: u32,
) -> Result<Option<Vec<u32>>, AllocError>
    ensures { IfOk result (λ found. MatchOption found (All (λ s. s < size) symbols.now → ⊥)
        (λ list. (list.items ≡ symbols.now) × All (λ s. s < size) symbols.now)) }
{
    let mut list = Vec::with_capacity(alloc, symbols.len())?;
    for symbol in symbols {
        if *symbol >= u64::from(size) {
            return Ok(None);
        }
        list.push(*symbol as u32)?;
    }
    Ok(Some(list))
}

/// The configuration with these periods, this shear and these symbols; `None` if the numbers give no configuration that fits
/// the premise, or if a period is greater than `most`.
fn given(
    alloc: Global,
    premise: &Rule,
    most: u32,
    periods: &[u64],
    shear: u64,
    symbols: &[u64],
) -> Result<Option<Periodic>, AllocError>
    requires { (1 ≤ most) × (most ≤ 8) }
    ensures { IfOk result (λ found. MatchOption found (IsGiven premise.now most periods.now shear symbols.now → ⊥)
        (λ periodic. (periodic ≡ given_tile premise.now periods.now shear symbols.now) × IsGiven premise.now most periods.now shear symbols.now)) }
{
    // This call also tells the proof what the type guarantees.
    let nodes = premise.nodes();
    if !are_periods(premise.dim(), most, periods, shear) {
        return Ok(None);
    }
    let axes = [
        along(periods, 0) as u32,
        along(periods, 1) as u32,
        along(periods, 2) as u32,
    ];
    match narrowed(alloc, symbols, premise.symbols())? {
        None => Ok(None),
        Some(list) => match Periodic::new(premise.dim(), axes, shear as u32, nodes, list) {
            Ok(periodic) => Ok(Some(periodic)),
            Err(_) => Ok(None),
        },
    }
}

/// Whether the periods, the shear and the symbols give a configuration of allowed symbols that lives in the premise's subshift
/// and has the goal at the origin. Each period must be at most `limits.period`.
pub(crate) fn check_no(
    alloc: Global,
    premise: &Rule,
    goal: &Goal,
    limits: &Limits,
    periods: &[u64],
    shear: u64,
    symbols: &[u64],
) -> Result<bool, AllocError>
    requires limits { AreLimits limits.now }
    requires goal { IsGoalFor premise.now (goal_of premise.now goal.now) }
    ensures { IfOk result (λ accepted. IsTrue accepted ↔ IsNo limits.now premise.now (goal_of premise.now goal.now) periods.now shear symbols.now) }
{
    match given(alloc, premise, limits.period, periods, shear, symbols)? {
        None => Ok(false),
        Some(periodic) => shows(alloc, premise, goal, &periodic),
    }
}
