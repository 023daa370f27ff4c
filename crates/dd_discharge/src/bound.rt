//! Bounds of a rule along some vectors.
use dd_values::Items;

/// A bound in lowest terms, with its amounts and its duals over a common denominator. The amounts are those that positions
/// give. The duals are factors for the program's rows; they show that no amounts do better.
#[derive(Debug, Drop)]
pub struct Bound {
    /// The bound's numerator, in lowest terms.
    pub numerator: u64,
    /// The bound's denominator, at least 1.
    pub denominator: u64,
    /// The common denominator of the amounts and the duals, at least 1.
    pub common: u64,
    /// The numerators of the amounts, one for each column of the program after the first: vector by vector, and within each
    /// vector, pattern by pattern.
    pub amounts: Items<u64>,
    /// The numerators of the duals, one for each row of the program.
    pub duals: Items<u64>,
}
