//! Fractions whose numerator and denominator fit in 16 bits. When `a - q * b` is computed for such fractions, each intermediate
//! number is a machine word, so none is too large.
ghost use Rattle.std.specs.Prelude.{◌≡◌, ◌<◌, Some, IfSome};
ghost use Rattle.dd_fraction.specs.Checked.{checked_less_product};

use crate::fraction::{Fraction, reduced_words};
use std::marker::Model;

/// A fraction whose numerator and denominator fit in 16 bits.
#[derive(Clone, Copy)]
pub struct Small {
    num: i16,
    den: u16,
}

impl Model for Small {
    ghost use Rattle.dd_fraction.specs.Exact.{Exact};
    ghost use Rattle.dd_fraction.specs.Checked.{IsSmall};

    ghost Value = { Exact };

    ghost view = { λ s. record { num = s.num; den = s.den } };

    ghost invariant = { λ s. IsSmall (record { num = s.num; den = s.den }) };

    ghost inverse = { λ s. record { num = s.num; den = s.den } };
}

impl Small {
    /// `num / den`, or `None` if one of the two does not fit in 16 bits.
    #[inline(always)]
    pub fn of(num: i128, den: u128) -> Option<Small>
        requires { 0 < den }
        ensures { IfSome result (λ s. s ≡ record { num = num; den = den }) }
    {
        match (i16::try_from(num), u16::try_from(den)) {
            (Ok(num), Ok(den)) => Some(Small { num, den }),
            _ => None,
        }
    }

    /// `self - factor * other`. No intermediate number is too large.
    #[inline(always)]
    pub fn less_product(&self, factor: &Small, other: &Small) -> Fraction
        ensures { Some result ≡ checked_less_product self.now factor.now other.now }
    {
        let num = i32::from(factor.num) * i32::from(other.num);
        let den = u32::from(factor.den) * u32::from(other.den);
        if den == u32::from(self.den) {
            return reduced_words(i64::from(self.num) - i64::from(num), u64::from(den));
        }
        let left = i64::from(self.num) * i64::from(den);
        let right = i64::from(num) * i64::from(self.den);
        reduced_words(left - right, u64::from(self.den) * u64::from(den))
    }
}
