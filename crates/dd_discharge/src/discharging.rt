//! The best bound of a rule along some vectors.
ghost use Rattle.std.specs.Prelude.{◌≤◌, IfOk, IfErr};
ghost use Rattle.dd_values.specs.Bounds.{widest_radius};
ghost use Rattle.dd_boxes.specs.Discharges.{AreVectors, AreWeightsFor};
ghost use Rattle.dd_discharge.specs.Printed.{IsSmallBound};
ghost use Rattle.dd_discharge.specs.Bounds.{IsBoundOf, IsDischargeFault};
ghost use Rattle.dd_discharge.specs.Certificates.{IsBoundCertificate};

use crate::best::best_of;
use crate::bound::Bound;
use crate::fault::DischargeFault;
use dd_formula::Rule;
use dd_lattice::Position;
use dd_rows::program_of;
use std::alloc::Global;

/// The best bound of the rule along the vectors. Along each vector, each position gives an amount that the pattern around it
/// determines. The bound is the greatest number c for which, with some amounts, the rows of the rule's program hold: c is at
/// most the number of nodes times the greatest weight, and in each admissible filling of the ground the origin holds at least c
/// in the end. The result also has such amounts, and duals that show that no amounts do better. A simplex run of at most
/// `pivots` pivots finds all of these.
///
/// There is one weight for each symbol, at most 1,000. There are 1 to 16 vectors, all different. Their coordinates are at most
/// 4 in absolute value, and 0 along the axes past the rule's dimension. The radius is that of the boxes whose symbols are the
/// patterns. The margin is that of the program's ground (see `dd_rows`). The radius and the margin are at most 3.
///
/// # Errors
/// - `Large` if there are too many fillings, columns or rows (see `program_of`).
/// - `Overflow` if a number of the run is greater than 2^127 - 1 in absolute value, or if the least common denominator of the
///   run's result, or a numerator over this denominator, is greater than 2^40.
/// - `Pivots` if the run has not ended after `pivots` pivots.
/// - `Memory` if memory ran out.
pub fn discharge(
    alloc: Global,
    rule: &Rule,
    weights: &[u32],
    radius: u32,
    margin: u32,
    vectors: &[Position],
    pivots: u32,
) -> Result<Bound, DischargeFault>
    requires weights { AreWeightsFor rule.now weights.now }
    requires radius { radius ≤ widest_radius }
    requires margin { margin ≤ widest_radius }
    requires vectors { AreVectors rule.now.dimension vectors.now }
    ensures ok { IfOk result (IsBoundOf rule.now weights.now radius margin vectors.now pivots) }
    ensures certificate { IfOk result (IsBoundCertificate rule.now weights.now radius margin vectors.now) }
    ensures small { IfOk result IsSmallBound }
    ensures err { IfErr result (IsDischargeFault rule.now weights.now radius margin vectors.now pivots) }
{
    // This call tells the proof what the type `Rule` guarantees.
    let _nodes = rule.nodes();
    let program = program_of(alloc, rule, weights, radius, margin, vectors)?;
    let columns = 1 + vectors.len() * program.patterns.len();
    best_of(alloc, program.rows.as_slice(), columns as u32, pivots)
}
