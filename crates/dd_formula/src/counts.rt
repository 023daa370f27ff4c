//! Counts that are cut off at a limit: a count that is greater than the limit is replaced by `limit + 1`.
ghost use Rattle.std.specs.Prelude.{◌≡◌, ◌+◌, ◌*◌, ◌^◌, ◌<◌};
ghost use Rattle.dd_formula.specs.Counts.{cut};

/// The count, or `limit + 1` if it is greater than `limit`. The limit must be below 2^31.
pub fn cut_off(limit: u32, count: u64) -> u32
    requires { limit < 2 ^ 31 }
    ensures { result ≡ cut limit count }
{
    count.min(limit as u64 + 1) as u32
}

/// The sum of the two counts, or `limit + 1` if it is greater than `limit`. The limit must be below 2^31.
pub fn plus(limit: u32, a: u32, b: u32) -> u32
    requires { limit < 2 ^ 31 }
    ensures { result ≡ cut limit (a + b) }
{
    cut_off(limit, a as u64 + b as u64)
}

/// The product of the two counts, or `limit + 1` if it is greater than `limit`. The limit must be below 2^31.
pub fn times(limit: u32, a: u32, b: u32) -> u32
    requires { limit < 2 ^ 31 }
    ensures { result ≡ cut limit (a * b) }
{
    cut_off(limit, a as u64 * b as u64)
}

/// `base` to the power `exponent`, or `limit + 1` if this power is greater than `limit`. The limit must be below 2^31.
pub fn power(limit: u32, base: u32, exponent: u64) -> u32
    requires { limit < 2 ^ 31 }
    ensures { result ≡ cut limit (base ^ exponent) }
{
    let mut value = cut_off(limit, 1);
    for _ in 0..exponent {
        value = times(limit, value, base);
    }
    value
}
