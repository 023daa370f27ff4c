//! Fractions written over their least common denominator, as in a bound. The fractions are at least 0. A number can be printed
//! if it is at most 2^40.
ghost use Rattle.std.specs.Prelude.{◌≡◌, ◌<◌, ◌≤◌, ◌++◌, length, map, IfOk, OnOk, IfErr};
ghost use Rattle.std.specs.List.{fold, All, Any};
ghost use Rattle.dd_values.specs.Bounds.{most_number};
ghost use Rattle.dd_fraction.specs.Exact.{den_of};
ghost use Rattle.dd_fraction.specs.Order.{IsNonneg};
ghost use Rattle.dd_simplex.specs.Programs.{fraction_at};
ghost use Rattle.dd_discharge.specs.Denominators.{least_common, joined_denominator, common_denominator, numerator_over, printed, HasUnprinted, IsPrintedAs};
ghost use Rattle.dd_discharge.specs.Printed.{IsSmallBound};
ghost use Rattle.dd_discharge.specs.Faults.{OnOverflow};

use crate::bound::Bound;
use crate::fault::DischargeFault;
use dd_fraction::Fraction;
use dd_values::{Items, MOST_NUMBER};
use std::alloc::Global;

/// The number, if it can be printed.
fn printed(number: u128) -> Option<u64>
    ensures { result ≡ printed number }
{
    if number <= MOST_NUMBER as u128 {
        Some(number as u64)
    } else {
        None
    }
}

/// The least common multiple of `common` and the denominator of the fraction, if it can be printed.
fn joined(common: u64, fraction: &Fraction) -> Option<u64>
    requires { 0 < common }
    ensures { result ≡ printed (joined_denominator common fraction.now) }
{
    // The ratio is in lowest terms. So its numerator times the fraction's denominator is the least common multiple.
    let ratio = Fraction::new(common as i128, fraction.den())?;
    let multiple = ratio
        .num()
        .unsigned_abs()
        .checked_mul(fraction.den().unsigned_abs())?;
    printed(multiple)
}

/// The least common multiple of `common` and the denominators of the fractions, if it can be printed.
fn joined_all(common: u64, fractions: &[Fraction]) -> Option<u64>
    requires above { 0 < common }
    requires below { common ≤ most_number }
    ensures { result ≡ printed (fold joined_denominator common fractions.now) }
{
    let mut common = common;
    for fraction in fractions {
        common = joined(common, fraction)?;
    }
    Some(common)
}

/// The least common denominator of the columns and the duals, if it can be printed.
fn common_denominator(columns: &[Fraction], duals: &[Fraction]) -> Option<u64>
    ensures { result ≡ printed (common_denominator (columns.now ++ duals.now)) }
{
    let common = joined_all(1, columns)?;
    joined_all(common, duals)
}

/// The numerator of the fraction over the denominator `common`, if it can be printed. The fraction's denominator divides
/// `common`.
fn numerator_over(common: u64, fraction: &Fraction) -> Option<u64>
    ensures { result ≡ printed (numerator_over common fraction.now) }
{
    let parts = common as u128 / fraction.den().unsigned_abs();
    let numerator = fraction.num().unsigned_abs().checked_mul(parts)?;
    printed(numerator)
}

/// The numerators of the fractions over the denominator `common`. Fails with `Overflow` if one can't be printed.
fn numerators(
    alloc: Global,
    common: u64,
    fractions: &[Fraction],
) -> Result<Items<u64>, DischargeFault>
    ensures value { IfOk result (λ numbers. numbers ≡ map (numerator_over common) fractions.now) }
    ensures printed { OnOk result (All (λ a. numerator_over common a ≤ most_number) fractions.now) }
    ensures err { IfErr result (λ fault. OnOverflow fault (Any (λ a. most_number < numerator_over common a) fractions.now)) }
{
    let mut numbers = Items::new(alloc);
    for fraction in fractions {
        let Some(numerator) = numerator_over(common, fraction) else {
            return Err(DischargeFault::Overflow);
        };
        numbers.push(numerator)?;
    }
    Ok(numbers)
}

/// The result of a simplex run, as a bound over the least common denominator of the run's columns and duals. Fails with
/// `Overflow` if a number can't be printed.
pub(crate) fn bound_of(
    alloc: Global,
    value: &Fraction,
    columns: &[Fraction],
    duals: &[Fraction],
) -> Result<Bound, DischargeFault>
    requires some { 0 < length columns.now }
    requires first { fraction_at columns.now 0 ≡ value.now }
    requires sign { IsNonneg value.now }
    requires some_dual { 0 < length duals.now }
    ensures ok { IfOk result (IsPrintedAs value.now columns.now duals.now) }
    ensures small { IfOk result IsSmallBound }
    ensures err { IfErr result (λ fault. OnOverflow fault (HasUnprinted (columns.now ++ duals.now))) }
{
    let Some(common) = common_denominator(columns, duals) else {
        return Err(DischargeFault::Overflow);
    };
    // The first column is the value. Its numerator over `common` is not among the amounts, but must be small enough to be
    // printed too.
    let Some(_held) = numerator_over(common, value) else {
        return Err(DischargeFault::Overflow);
    };
    let amounts = numerators(alloc, common, &columns[1..])?;
    let duals = numerators(alloc, common, duals)?;
    Ok(Bound {
        numerator: value.num().unsigned_abs() as u64,
        denominator: value.den().unsigned_abs() as u64,
        common,
        amounts,
        duals,
    })
}
