//! Tests whether an output can hold the numbers of an answer, other than those in steps. An output can hold such a number if it
//! is at most `MOST_NUMBER` (2^40) in absolute value.
ghost use Rattle.std.specs.Prelude.{◌≡◌, ◌≤◌, ◌↔◌, nat_le, unsigned_abs, length, All, IsTrue};
ghost use Rattle.std.specs.List.{list_all};
ghost use Rattle.dd_certificate.specs.Bounds.{most_number, IsWritableNumber, IsWritableSigned, IsWritableDenominator, IsWritableList};

use dd_values::MOST_NUMBER;

/// Whether an output can hold the number.
pub(crate) fn is_number(number: u64) -> bool
    ensures { IsTrue result ↔ IsWritableNumber number }
{
    number <= MOST_NUMBER
}

/// Whether an output can hold the number as a denominator. A denominator is at least 1.
pub(crate) fn is_denominator(number: u64) -> bool
    ensures { IsTrue result ↔ IsWritableDenominator number }
{
    1 <= number && number <= MOST_NUMBER
}

/// Whether an output can hold both numbers as denominators.
pub(crate) fn are_denominators(one: u64, other: u64) -> bool
    ensures { IsTrue result ↔ (IsWritableDenominator one × IsWritableDenominator other) }
{
    if !is_denominator(one) {
        return false;
    }
    is_denominator(other)
}

/// Whether the number is at most `MOST_NUMBER`.
fn is_small(number: &u64) -> bool
    ensures { result ≡ nat_le number.now most_number }
{
    *number <= MOST_NUMBER
}

/// Whether each number is at most `MOST_NUMBER`.
fn are_small(numbers: &[u64]) -> bool
    ensures { result ≡ list_all (λ n. nat_le n most_number) numbers.now }
{
    numbers.iter().all(|number| is_small(number))
}

/// Whether the number is at most `MOST_NUMBER` in absolute value.
fn is_small_signed(number: &i64) -> bool
    ensures { result ≡ nat_le (unsigned_abs number.now) most_number }
{
    number.unsigned_abs() <= MOST_NUMBER
}

/// Whether each number is at most `MOST_NUMBER` in absolute value.
fn are_small_signed(numbers: &[i64]) -> bool
    ensures { result ≡ list_all (λ z. nat_le (unsigned_abs z) most_number) numbers.now }
{
    numbers.iter().all(|number| is_small_signed(number))
}

/// Whether an output can hold each of the numbers.
pub(crate) fn are_numbers(numbers: &[u64]) -> bool
    ensures { IsTrue result ↔ All IsWritableNumber numbers.now }
{
    are_small(numbers)
}

/// Whether there is at least one number, and an output can hold each.
pub(crate) fn is_list(numbers: &[u64]) -> bool
    ensures { IsTrue result ↔ IsWritableList numbers.now }
{
    if numbers.is_empty() {
        return false;
    }
    are_small(numbers)
}

/// Whether there is at least one signed number, and an output can hold each.
pub(crate) fn is_signed_list(numbers: &[i64]) -> bool
    ensures { IsTrue result ↔ ((1 ≤ length numbers.now) × All IsWritableSigned numbers.now) }
{
    if numbers.is_empty() {
        return false;
    }
    are_small_signed(numbers)
}

/// Whether an output can hold the length of the list.
pub(crate) fn has_writable_length(numbers: &[u64]) -> bool
    ensures { IsTrue result ↔ (length numbers.now ≤ most_number) }
{
    numbers.len() as u64 <= MOST_NUMBER
}
