//! What is read off the table of least weights: the least mean, potentials and ranks. The level `k` of the table is its row for
//! walks of `k` edges, and `last` is the table's last level. A rise of a state goes from the state's entry in some level `k`
//! below `last` to its entry in the level `last`; neither entry is `None`. The mean of the rise is the second entry less the
//! first, divided by `last - k`. Take the greatest mean of a rise for each state to which a walk of `last` edges leads. The
//! least of these is the least mean of a cycle (Karp 1978).
ghost use Rattle.std.specs.Prelude.{◌≡◌, ℕ, ◌-◌, ◌*◌, ◌<◌, ◌≤◌, ◌^◌, length, IfOk, slice_index_or, MatchOption, ⊤, Option, None};
ghost use Rattle.std.specs.Int.{IsGcd};
ghost use Rattle.dd_meancycle.specs.table.Levels.{level_weight_at};
ghost use Rattle.dd_meancycle.specs.table.Rises.{IsTabulated, IsSteepest, IsPotential, IsSteeper, IsLesser, IsGentler, LeastSoFar, IsHeight, IsRank, IsReduced};

use crate::levels::{Level, weight_at};
use std::alloc::{AllocError, Global};

/// A mean: a weight over a number of edges.
#[derive(Clone, Copy, Debug, Default, PartialEq, Eq)]
pub(crate) struct Ratio {
    pub weight: u64,
    pub length: u64,
}

/// The greatest mean of a rise of the state, or `None` if no walk of `last` edges leads to the state.
fn steepest(levels: &[Level], last: usize, state: u32) -> Option<Ratio>
    requires last { 0 < last }
    requires few { last < 2 ^ 31 }
    requires tabulated { IsTabulated levels.now last state }
    ensures is { MatchOption result (level_weight_at levels.now last state ≡ None) (λ r. IsSteepest levels.now last state r.weight r.length) }
    ensures small { MatchOption result ⊤ (λ r. (r.weight < 2 ^ 32) × (r.length < 2 ^ 31)) }
{
    let end = weight_at(levels, last, state)?;
    let mut best = Ratio {
        weight: end as u64,
        length: last as u64,
    };
    for k in 0..last {
        best = steeper(best, end, weight_at(levels, k, state), (last - k) as u64);
    }
    Some(best)
}

/// The greater of two means: `best`, and the mean of the rise from `before` to `end` over `run` edges. If `before` is `None`,
/// the result is `best`.
fn steeper(best: Ratio, end: u32, before: Option<u32>, run: u64) -> Ratio
    requires run { run < 2 ^ 31 }
    requires weight { best.weight < 2 ^ 32 }
    requires length { best.length < 2 ^ 31 }
    ensures { IsSteeper best end before run result }
{
    let Some(before) = before else { return best };
    if end <= before {
        return best;
    }
    let rise = (end - before) as u64;
    if best.weight * run < rise * best.length {
        Ratio {
            weight: rise,
            length: run,
        }
    } else {
        best
    }
}

/// The potential of the state: the least value of `mean.length * weight + mean.weight * (last - k)`. Here `k` is a level below
/// `last` in which the state's entry isn't `None`, and `weight` is this entry.
fn potential(levels: &[Level], last: usize, state: u32, mean: Ratio) -> u64
    requires last { 0 < last }
    requires few { last < 2 ^ 31 }
    requires mean_weight { mean.weight < 2 ^ 32 }
    requires mean_length { mean.length < 2 ^ 31 }
    requires tabulated { IsTabulated levels.now last state }
    ensures { IsPotential levels.now last state mean.weight mean.length result }
{
    let mut best = mean.weight * last as u64;
    for k in 0..last {
        best = lesser(best, weight_at(levels, k, state), mean, (last - k) as u64);
    }
    best
}

/// The smaller of `best` and `mean.length * before + mean.weight * run`. The entry `before` is `run` levels below the last. If
/// it is `None`, the result is `best`.
fn lesser(best: u64, before: Option<u32>, mean: Ratio, run: u64) -> u64
    requires run { run < 2 ^ 31 }
    requires weight { mean.weight < 2 ^ 32 }
    requires length { mean.length < 2 ^ 31 }
    ensures { IsLesser best before mean.weight mean.length run result }
{
    let Some(before) = before else { return best };
    best.min(mean.length * before as u64 + mean.weight * run)
}

/// A state, and the greatest mean of its rises.
#[derive(Clone, Copy, Debug, Default, PartialEq, Eq)]
pub(crate) struct Steep {
    pub state: u32,
    pub mean: Ratio,
}

/// Compares the state in `best` with `state`, for which the greatest mean of a rise is `here`. Returns the one for which this
/// greatest mean is smaller, and `best` if the two means are equal. If `here` is `None`, the result is `best`; else, if `best`
/// is `None`, it is `state`.
fn gentler(best: Option<Steep>, state: u32, here: Option<Ratio>) -> Option<Steep>
    requires best { MatchOption best ⊤ (λ b. (b.mean.weight < 2 ^ 32) × (b.mean.length < 2 ^ 31)) }
    requires here { MatchOption here ⊤ (λ h. (h.weight < 2 ^ 32) × (h.length < 2 ^ 31)) }
    ensures { IsGentler best state here result }
{
    let Some(mean) = here else { return best };
    let Some(old) = best else {
        return Some(Steep { state, mean })
    };
    if mean.weight * old.mean.length < old.mean.weight * mean.length {
        Some(Steep { state, mean })
    } else {
        best
    }
}

/// The state for which the greatest mean of a rise is the smallest, or `None` if no walk has `last` edges.
pub(crate) fn gentlest(levels: &[Level], last: usize, states: u32) -> Option<Steep>
    requires last { 0 < last }
    requires few { last < 2 ^ 31 }
    requires tabulated { (v : ℕ) → v < states → IsTabulated levels.now last v }
    ensures { LeastSoFar levels.now last states result }
{
    let mut best: Option<Steep> = None;
    for state in 0..states {
        best = gentler(best, state, steepest(levels, last, state));
    }
    best
}

/// The greatest common divisor, by Euclid's algorithm.
fn gcd(a: u64, b: u64) -> u64
    ensures { IsGcd a b result }
{
    let mut x = a;
    let mut y = b;
    while y != 0 {
        let rest = x % y;
        x = y;
        y = rest;
    }
    x
}

/// The mean in lowest terms.
pub(crate) fn reduced(mean: Ratio) -> Ratio
    requires { 0 < mean.length }
    ensures { IsReduced mean result }
{
    let common = gcd(mean.weight, mean.length);
    if common == 0 {
        return mean;
    }
    Ratio {
        weight: mean.weight / common,
        length: mean.length / common,
    }
}

/// The potential of each state.
pub(crate) fn potentials(
    alloc: Global,
    levels: &[Level],
    last: usize,
    states: u32,
    mean: Ratio,
) -> Result<Vec<u64>, AllocError>
    requires last { 0 < last }
    requires few { last < 2 ^ 31 }
    requires mean_weight { mean.weight < 2 ^ 32 }
    requires mean_length { mean.length < 2 ^ 31 }
    requires tabulated { (v : ℕ) → v < states → IsTabulated levels.now last v }
    ensures len { IfOk result (λ ps. length ps.items ≡ states) }
    ensures each { IfOk result (λ ps. (v : ℕ) → v < states → IsPotential levels.now last v mean.weight mean.length (slice_index_or ps.items v 0)) }
{
    let mut potentials = Vec::new(alloc);
    for state in 0..states {
        potentials.push(potential(levels, last, state, mean))?;
    }
    Ok(potentials)
}

/// The height of the state: the greatest `k` below `last` such that a walk of `k` edges leads to the state.
fn height(levels: &[Level], last: usize, state: u32) -> usize
    requires last { 0 < last }
    requires tabulated { IsTabulated levels.now last state }
    ensures { IsHeight levels.now last state result }
{
    let mut height = 0;
    for k in 0..last {
        if weight_at(levels, k, state).is_some() {
            height = k;
        }
    }
    height
}

/// A rank for each state: `last` less the state's height. If no walk has `last` edges, the rank falls along each edge.
pub(crate) fn ranks(
    alloc: Global,
    levels: &[Level],
    last: usize,
    states: u32,
) -> Result<Vec<u32>, AllocError>
    requires last { 0 < last }
    requires few { last < 2 ^ 31 }
    requires tabulated { (v : ℕ) → v < states → IsTabulated levels.now last v }
    ensures len { IfOk result (λ ps. length ps.items ≡ states) }
    ensures each { IfOk result (λ ps. (v : ℕ) → v < states → IsRank levels.now last v (slice_index_or ps.items v 0)) }
{
    let mut ranks = Vec::new(alloc);
    for state in 0..states {
        let rank = last - height(levels, last, state);
        ranks.push(rank as u32)?;
    }
    Ok(ranks)
}
