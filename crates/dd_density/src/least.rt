//! The least density of the configurations that live on a strip.
ghost use Rattle.std.specs.Prelude.{◌≡◌, ◌<◌, ◌≤◌, ◌^◌, IfOk};
ghost use Rattle.std.specs.List.{All};
ghost use Rattle.dd_strip.specs.Strips.{IsStrip, HasWeights, IsFew, strip_for};
ghost use Rattle.dd_density.specs.Densities.{IsCertifiedDensity, IsSmallDensity};
ghost use Rattle.dd_density.specs.graphs.Means.{IsOfMean, IsMeanOver};

use crate::answer::Density;
use crate::lowest::in_lowest_terms;
use crate::strips::graph_of;
use dd_formula::Rule;
use dd_meancycle::{Mean, least_mean};
use dd_values::Items;
use std::alloc::{AllocError, Global};

/// The least density of the configurations that live on the strip with the periods `strip` along y and z. Along x the
/// configurations may have any period. The answer is `Empty` if no configuration lives on the strip. The symbol `s` has the
/// weight `weights[s]`. Each number of the answer is at most 2^40 in absolute value. The walk has at most as many states as
/// the transfer graph.
///
/// # Errors
/// `AllocError` if memory ran out.
pub fn least_density(
    alloc: Global,
    rule: &Rule,
    strip: [u32; 2],
    weights: &[u32],
) -> Result<Density, AllocError>
    requires strip { IsStrip rule.now strip }
    requires weights { HasWeights rule.now weights.now }
    requires few { IsFew rule.now (strip_for rule.now strip) }
    ensures certified { IfOk result (IsCertifiedDensity rule.now (strip_for rule.now strip) weights.now) }
    ensures small { IfOk result (IsSmallDensity rule.now (strip_for rule.now strip)) }
{
    let graph = graph_of(alloc, rule, strip, weights)?;
    let mean = least_mean(alloc, &graph)?;
    density_of(alloc, mean, strip[0] * strip[1])
}

/// The numbers as 64-bit numbers.
fn widened(alloc: Global, numbers: &[u32]) -> Result<Items<u64>, AllocError>
    ensures same { IfOk result (λ ns. ns ≡ numbers.now) }
    ensures small { IfOk result (All (λ n. n < 2 ^ 32)) }
{
    let mut wide = Vec::new(alloc);
    for number in numbers {
        wide.push(*number as u64)?;
    }
    Ok(Items::from_vec(wide))
}

/// The density for a least mean: the mean divided by `volume`, the number of positions in a slice. `Empty` if there is no
/// closed walk.
fn density_of(alloc: Global, mean: Mean, volume: u32) -> Result<Density, AllocError>
    requires { IsMeanOver volume mean }
    ensures { IfOk result (IsOfMean volume mean) }
{
    match mean {
        Mean::Least {
            numerator,
            denominator,
            cycle,
            potentials,
        } => {
            let density = in_lowest_terms(numerator as u128, denominator as u128 * volume as u128);
            Ok(Density::Least {
                numerator: density.numerator as u64,
                denominator: density.denominator as u64,
                walk: widened(alloc, cycle.as_slice())?,
                potentials,
            })
        }
        Mean::NoCycle { ranks } => Ok(Density::Empty {
            ranks: widened(alloc, ranks.as_slice())?,
        }),
    }
}
