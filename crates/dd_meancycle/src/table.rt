//! The least mean, from a table of the least weights of walks of each length (Karp 1978).
ghost use Rattle.std.specs.Prelude.{◌≡◌, ◌+◌, ◌<◌, ◌^◌, length, IfOk};
ghost use Rattle.std.specs.List.{All};
ghost use Rattle.dd_meancycle.specs.table.Levels.{IsEdgeOf, AreRows};
ghost use Rattle.dd_meancycle.specs.table.LeastMean.{IsMean};

use crate::edges::Edge;
use crate::levels::{Level, levels};
use crate::rises::{gentlest, potentials, ranks, reduced};
use crate::walk_cycle::cycle_on_walk;
use std::alloc::{AllocError, Global};

/// A cycle of least mean, given by its edges, with potentials; or ranks that fall along each edge, which show that there is
/// no cycle.
#[derive(Drop)]
pub(crate) enum EdgeMean {
    Least {
        numerator: u64,
        denominator: u64,
        cycle: Vec<Edge>,
        potentials: Vec<u64>,
    },
    NoCycle {
        ranks: Vec<u32>,
    },
}

/// A cycle of least mean, or ranks if the graph has no cycle.
pub(crate) fn table_mean(alloc: Global, states: u32, edges: &[Edge]) -> Result<EdgeMean, AllocError>
    requires some { 0 < states }
    requires few { states < 2 ^ 31 }
    requires edges { All (IsEdgeOf states) edges.now }
    ensures { IfOk result (IsMean edges.now states) }
{
    let levels = levels(alloc, states, edges)?;
    mean_of(alloc, states, edges, levels.as_slice())
}

/// A cycle of least mean, or ranks, from the levels of the table. A level is a row of the table.
fn mean_of(
    alloc: Global,
    states: u32,
    edges: &[Edge],
    levels: &[Level],
) -> Result<EdgeMean, AllocError>
    requires some { 0 < states }
    requires few { states < 2 ^ 31 }
    requires edges { All (IsEdgeOf states) edges.now }
    requires rows { AreRows edges.now states levels.now }
    requires len { length levels.now ≡ states + 1 }
    ensures { IfOk result (IsMean edges.now states) }
{
    let last = states as usize;
    let Some(steep) = gentlest(levels, last, states) else {
        let ranks = ranks(alloc, levels, last, states)?;
        return Ok(EdgeMean::NoCycle { ranks });
    };
    let mean = reduced(steep.mean);
    let cycle = cycle_on_walk(alloc, edges, levels, last, steep.state)?;
    let potentials = potentials(alloc, levels, last, states, mean)?;
    Ok(EdgeMean::Least {
        numerator: mean.weight,
        denominator: mean.length,
        cycle,
        potentials,
    })
}
