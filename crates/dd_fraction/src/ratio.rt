//! Compares two ratios without computing a product. The whole parts are compared first. If they are equal, and neither
//! fractional part is 0, the inverses of the fractional parts are compared, as in continued fractions.
ghost use Rattle.std.specs.Prelude.{◌≡◌, ◌<◌, ◌*◌};
ghost use Rattle.std.specs.Ordering.{nat_cmp};

use std::cmp::Ordering;

/// Compares `a / b` with `c / d`.
pub fn compare_ratios(a: u128, b: u128, c: u128, d: u128) -> Ordering
    requires left { 0 < b }
    requires right { 0 < d }
    ensures { result ≡ nat_cmp (a * d) (c * b) }
{
    match (a / b).cmp(&(c / d)) {
        Ordering::Equal => {}
        order => return order,
    }
    match (a % b, c % d) {
        (0, 0) => Ordering::Equal,
        (0, _) => Ordering::Less,
        (_, 0) => Ordering::Greater,
        // Taking inverses reverses the order, so the two ratios are swapped.
        (rest, other_rest) => compare_ratios(d, other_rest, b, rest),
    }
}
