//! The transfer graph that `least_density` and the checks build first, and weights of 0 for the check that needs no weights.
ghost use Rattle.std.specs.Prelude.{◌≡◌, IfOk, replicate};
ghost use Rattle.dd_strip.specs.Strips.{IsStrip, HasWeights, IsFew, strip_for};
ghost use Rattle.dd_transfer.specs.Transfers.{IsGraphOf};

use dd_formula::Rule;
use dd_transfer::{Graph, TransferFault, graph};
use std::alloc::{AllocError, Global};

/// The transfer graph of the rule over a strip. The graph isn't too large, so lack of memory is the only possible fault.
pub(crate) fn graph_of(
    alloc: Global,
    rule: &Rule,
    strip: [u32; 2],
    weights: &[u32],
) -> Result<Graph, AllocError>
    requires strip { IsStrip rule.now strip }
    requires weights { HasWeights rule.now weights.now }
    requires few { IsFew rule.now (strip_for rule.now strip) }
    ensures { IfOk result (IsGraphOf rule.now (strip_for rule.now strip) weights.now) }
{
    match graph(alloc, rule, strip, weights) {
        Ok(graph) => Ok(graph),
        Err(TransferFault::Memory) => Err(AllocError),
        Err(TransferFault::Size) => unreachable!(),
    }
}

/// Weights of 0 for all symbols.
pub(crate) fn no_weights(alloc: Global, rule: &Rule) -> Result<Vec<u32>, AllocError>
    ensures { IfOk result (λ ws. HasWeights rule.now ws.items) }
{
    vec![in alloc; 0; rule.symbols() as usize]
}
