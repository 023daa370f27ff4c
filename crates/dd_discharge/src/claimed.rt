//! Claimed bounds.

/// A claimed bound: the fraction `numerator / denominator`, and the numerators of the amounts and the duals over the
/// denominator `common`. There should be an amount for each column of the program after the first, and a dual for each row.
#[derive(Clone, Copy, Debug)]
pub struct ClaimedBound<'a> {
    pub numerator: u64,
    pub denominator: u64,
    pub common: u64,
    pub amounts: &'a [u64],
    pub duals: &'a [u64],
}
