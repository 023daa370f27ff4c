//! Fractions in lowest terms.
ghost use Rattle.std.specs.Prelude.{◌<◌};
ghost use Rattle.std.specs.Int.{IsGcd};
ghost use Rattle.dd_transfer.specs.Certificates.{IsInLowestTerms};

/// A fraction, in lowest terms or not.
#[derive(Clone, Copy, Debug)]
pub(crate) struct Ratio {
    pub numerator: u128,
    pub denominator: u128,
}

/// The greatest common divisor, by Euclid's algorithm.
fn gcd(a: u128, b: u128) -> u128
    ensures value { IsGcd a b result }
    ensures above { 0 < b → 0 < result }
{
    let mut x = a;
    let mut y = b;
    while y != 0 {
        let rest = x % y;
        x = y;
        y = rest;
    }
    x
}

/// The fraction `a / b` in lowest terms.
pub(crate) fn in_lowest_terms(a: u128, b: u128) -> Ratio
    requires { 0 < b }
    ensures { IsInLowestTerms result.numerator result.denominator a b }
{
    let common = gcd(a, b);
    Ratio {
        numerator: a / common,
        denominator: b / common,
    }
}
