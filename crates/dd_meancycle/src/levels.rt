//! The table of Karp (1978): for each length up to the number of states, and for each state, the least weight of a walk of this
//! length to this state, if there is such a walk. The walks may start at any state.
ghost use Rattle.std.specs.Prelude.{◌≡◌, ℕ, ◌+◌, ◌<◌, ◌^◌, length, IfOk, slice_index_or, replicate, vec_len, Some, None, []};
ghost use Rattle.std.specs.List.{fold, All};
ghost use Rattle.dd_meancycle.specs.table.Levels.{level, relaxed, lowered, IsRowUpTo, IsEdgeOf, AreRows, level_weight_at};

use crate::edges::Edge;
use std::alloc::{AllocError, Global};
use std::marker::Model;

/// A row of the table, for one length: for each state, the least weight of a walk of this length to the state, or `None` if
/// there is no such walk.
#[derive(Drop)]
pub(crate) struct Level {
    least: Vec<Option<u32>>,
}

impl Model for Level {
    ghost use Rattle.std.specs.Prelude.{List, Option, ℕ};

    ghost Value = { List (Option ℕ) };

    ghost view = { λ l. l.least.items };
}

/// The smaller of the weight `here` and the best weight so far. If there is none so far, the result is `here`.
fn lower(best: Option<u32>, here: u32) -> u32
    ensures { Some result ≡ lowered best here }
{
    match best {
        Some(best) => best.min(here),
        None => here,
    }
}

/// Relaxes the edge. A lightest walk of the previous level to the edge's source, followed by the edge, is a walk to the edge's
/// target. The weight of this walk becomes the target's entry in `row` if that entry is `None` or greater. If no walk of the
/// previous level leads to the source, `row` stays as it is.
fn relax(previous: &[Option<u32>], row: &mut [Option<u32>], edge: &Edge)
    requires from { edge.now.from < length previous.now }
    requires to { edge.now.to < length row.old }
    requires small { IsRowUpTo (2 ^ 31) previous.now }
    requires light { edge.now.weight < 2 ^ 31 }
    ensures { row.new ≡ relaxed previous.now row.old edge.now }
{
    let Some(before) = previous[edge.from as usize] else {
        return
    };
    let place = edge.to as usize;
    let here = before + edge.weight;
    let best = row[place];
    row[place] = Some(lower(best, here));
}

/// Relaxes each edge.
fn relax_all(previous: &[Option<u32>], row: &mut [Option<u32>], edges: &[Edge])
    requires edges { All (IsEdgeOf (length previous.now)) edges.now }
    requires same { length row.old ≡ length previous.now }
    requires small { IsRowUpTo (2 ^ 31) previous.now }
    ensures { row.new ≡ fold (relaxed previous.now) row.old edges.now }
{
    for edge in edges {
        relax(previous, row, edge);
    }
}

/// A row with the same entry for each state.
fn filled(alloc: Global, states: usize, start: Option<u32>) -> Result<Vec<Option<u32>>, AllocError>
    ensures { IfOk result (λ r. r.items ≡ replicate states start) }
{
    vec![in alloc; start; states]
}

impl Level {
    /// The entries, one for each state.
    fn as_slice(&self) -> &[Option<u32>]
        ensures { result.now ≡ self.now }
    {
        self.least.as_slice()
    }

    /// The level of walks without edges: the weight 0 for each state.
    fn start(alloc: Global, states: usize) -> Result<Level, AllocError>
        ensures { IfOk result (λ l. l ≡ replicate states (Some 0)) }
    {
        let least = filled(alloc, states, Some(0))?;
        Ok(Level { least })
    }

    /// The level of walks that are one edge longer.
    fn next(&self, alloc: Global, edges: &[Edge]) -> Result<Level, AllocError>
        requires edges { All (IsEdgeOf (length self.now)) edges.now }
        requires small { IsRowUpTo (2 ^ 31) self.now }
        ensures { IfOk result (λ l. l ≡ level edges.now self.now) }
    {
        let previous = self.as_slice();
        let mut least = filled(alloc, previous.len(), None)?;
        relax_all(previous, least.as_mut_slice(), edges);
        Ok(Level { least })
    }
}

/// The least weight of a walk of `k` edges to the state, or `None` if there is no such walk.
pub(crate) fn weight_at(levels: &[Level], k: usize, state: u32) -> Option<u32>
    requires k { k < length levels.now }
    requires state { state < length (slice_index_or levels.now k []) }
    ensures { result ≡ level_weight_at levels.now k state }
{
    let level = levels[k].as_slice();
    level[state as usize]
}

/// The levels for the lengths from 0 to the number of states.
pub(crate) fn levels(alloc: Global, states: u32, edges: &[Edge]) -> Result<Vec<Level>, AllocError>
    requires edges { All (IsEdgeOf states) edges.now }
    ensures rows { IfOk result (λ ls. AreRows edges.now states ls.items) }
    ensures len { IfOk result (λ ls. vec_len ls ≡ states + 1) }
{
    let mut levels = Vec::new(alloc);
    levels.push(Level::start(alloc, states as usize)?)?;
    for k in 0..states as usize {
        let next = levels[k].next(alloc, edges)?;
        levels.push(next)?;
    }
    Ok(levels)
}

/// The entries of the level for walks of `k` edges.
pub(crate) fn row_of(levels: &[Level], k: usize) -> &[Option<u32>]
    requires { k < length levels.now }
    ensures { result.now ≡ slice_index_or levels.now k [] }
{
    levels[k].as_slice()
}
