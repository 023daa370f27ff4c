//! Sums and products that are at most 2^127 - 1 in absolute value. Since -2^127 is left out, each number has an opposite. Here
//! a size is an unsigned number.
ghost use Rattle.std.specs.Prelude.{◌≡◌, ◌*◌, ◌^◌, ◌≤◌, IfSome, true};
ghost use Rattle.std.specs.Int.RustNames.{unsigned_abs};
ghost use lib.IntN.{◌*ℤ◌, ◌+ℤ◌};
ghost use Rattle.dd_fraction.specs.Checked.{is_bounded, bounded, bounded_size};

/// The product, or `None` if it is greater than 2^127 - 1 in absolute value.
#[inline(always)]
pub fn product(a: i128, b: i128) -> Option<i128>
    ensures { result ≡ bounded (a *ℤ b) }
{
    match (i64::try_from(a), i64::try_from(b)) {
        (Ok(a), Ok(b)) => Some(word_product(a, b)),
        _ => wide_product(a, b),
    }
}

/// The product of two signed machine words, which is never too large.
#[inline(always)]
fn word_product(a: i64, b: i64) -> i128
    ensures value { result ≡ a *ℤ b }
    ensures bounded { is_bounded (a *ℤ b) ≡ true }
{
    i128::from(a) * i128::from(b)
}

/// The product of any two numbers, or `None` if it is greater than 2^127 - 1 in absolute value.
fn wide_product(a: i128, b: i128) -> Option<i128>
    ensures { result ≡ bounded (a *ℤ b) }
{
    match a.checked_mul(b) {
        Some(i128::MIN) => None,
        product => product,
    }
}

/// The sum, or `None` if it is greater than 2^127 - 1 in absolute value.
#[inline(always)]
pub fn sum(a: i128, b: i128) -> Option<i128>
    ensures { result ≡ bounded (a +ℤ b) }
{
    match a.checked_add(b) {
        Some(i128::MIN) => None,
        sum => sum,
    }
}

/// The sum, or `None` if one of the two numbers is not a signed machine word. The sum of two such words is never too large.
#[inline(always)]
pub fn word_sum(a: i128, b: i128) -> Option<i128>
    ensures value { IfSome result (λ s. s ≡ a +ℤ b) }
    ensures bounded { IfSome result (λ s. unsigned_abs s ≤ 2 ^ 64) }
    ensures left { IfSome result (λ s. unsigned_abs a ≤ 2 ^ 63) }
    ensures right { IfSome result (λ s. unsigned_abs b ≤ 2 ^ 63) }
{
    match (i64::try_from(a), i64::try_from(b)) {
        (Ok(a), Ok(b)) => Some(i128::from(a) + i128::from(b)),
        _ => None,
    }
}

/// The product of two sizes, or `None` if it is greater than 2^127 - 1.
#[inline(always)]
pub fn size_product(a: u128, b: u128) -> Option<u128>
    ensures { result ≡ bounded_size (a * b) }
{
    match (u64::try_from(a), u64::try_from(b)) {
        (Ok(a), Ok(b)) => if_bounded(u128::from(a) * u128::from(b)),
        _ => wide_size_product(a, b),
    }
}

/// The product of any two sizes, or `None` if it is greater than 2^127 - 1.
fn wide_size_product(a: u128, b: u128) -> Option<u128>
    ensures { result ≡ bounded_size (a * b) }
{
    match a.checked_mul(b) {
        Some(product) => if_bounded(product),
        None => None,
    }
}

/// Returns the size itself, or `None` if it is greater than 2^127 - 1.
#[inline(always)]
fn if_bounded(size: u128) -> Option<u128>
    ensures { result ≡ bounded_size size }
{
    if size <= i128::MAX as u128 {
        Some(size)
    } else {
        None
    }
}
