//! Reads the periods of a configuration, the shear that may follow two or three periods, and the side that may come before the
//! periods. The side says which of the two rules of an equality query the configuration obeys: `left` is the first, and `right`
//! the second.
ghost use Rattle.std.specs.Prelude.{◌≡◌};
ghost use Rattle.dd_output.specs.reading.Stops.{Gives};
ghost use Rattle.dd_output.specs.reading.Periods.{period_at, shear_at, period_entry, periods};
ghost use Rattle.dd_output.specs.reading.Grammar.{side_and_periods};
ghost use Rattle.dd_output.specs.reading.Seen.{period_seen};

use crate::fault::ReadFault;
use crate::lexing::{begins, number_at, word_at};
use dd_certificate::Side;
use dd_values::{Items, MOST_NUMBER};
use std::alloc::Global;

/// An entry of the line of periods, with what comes after it.
#[derive(Clone, Copy, Debug)]
pub(crate) enum PeriodEntry {
    /// A period, and a space after it.
    Period(u64),
    /// A period, and the end of the line.
    Last(u64),
    /// The shear, and the end of the line.
    Shear(u64),
}

/// A period, and the space or the line feed after it.
fn period_at(bytes: &[u8]) -> Result<(PeriodEntry, &[u8]), ReadFault>
    ensures { Gives (λ x. (period_seen x.0, x.1.now)) result (period_at bytes.now) }
{
    let (period, end, rest) = number_at(bytes, 0, MOST_NUMBER, b'\n', b' ')?;
    if end == b'\n' {
        Ok((PeriodEntry::Last(period), rest))
    } else {
        Ok((PeriodEntry::Period(period), rest))
    }
}

/// The word `shear`, and then the shear.
fn shear_at(bytes: &[u8]) -> Result<(PeriodEntry, &[u8]), ReadFault>
    ensures { Gives (λ x. (period_seen x.0, x.1.now)) result (shear_at bytes.now) }
{
    let rest = word_at(bytes, b"shear ")?;
    let (shear, _, rest) = number_at(rest, 1, MOST_NUMBER, b'\n', b'\n')?;
    Ok((PeriodEntry::Shear(shear), rest))
}

/// The entry with this index, from 0. A shear comes after two periods at the earliest, and after three at the latest.
#[tactic(auto, unfolding(crate::specs::reading::Periods::period_entry))]
fn period_entry(bytes: &[u8], index: u64) -> Result<(PeriodEntry, &[u8]), ReadFault>
    ensures { Gives (λ x. (period_seen x.0, x.1.now)) result (period_entry index bytes.now) }
{
    if index < 2 {
        period_at(bytes)
    } else if index < 3 {
        if begins(bytes, b's') {
            shear_at(bytes)
        } else {
            period_at(bytes)
        }
    } else {
        shear_at(bytes)
    }
}

/// The periods and the shear, up to the end of their line. The shear is 0 if none is written.
#[tactic(auto, unfolding(crate::specs::reading::Periods::periods))]
pub(crate) fn periods_of(alloc: Global, bytes: &[u8]) -> Result<(Items<u64>, u64, &[u8]), ReadFault>
    ensures { Gives (λ x. ((x.0, x.1), x.2.now)) result (periods.read bytes.now) }
{
    let mut periods = Items::new(alloc);
    let mut rest = bytes;
    loop {
        let (entry, after) = period_entry(rest, periods.len() as u64)?;
        rest = after;
        match entry {
            PeriodEntry::Period(period) => periods.push(period)?,
            PeriodEntry::Last(period) => {
                periods.push(period)?;
                return Ok((periods, 0, rest));
            }
            PeriodEntry::Shear(shear) => return Ok((periods, shear, rest)),
        }
    }
}

/// The side, and then the periods and the shear. The side is `Whole` if none is written.
#[tactic(auto, unfolding(crate::specs::reading::Grammar::side_and_periods))]
pub(crate) fn side_and_periods_of(
    alloc: Global,
    bytes: &[u8],
) -> Result<(Side, Items<u64>, u64, &[u8]), ReadFault>
    ensures { Gives (λ x. ((x.0, (x.1, x.2)), x.3.now)) result (side_and_periods.read bytes.now) }
{
    if begins(bytes, b'l') {
        let rest = word_at(bytes, b"left ")?;
        let (periods, shear, rest) = periods_of(alloc, rest)?;
        Ok((Side::Left, periods, shear, rest))
    } else if begins(bytes, b'r') {
        let rest = word_at(bytes, b"right ")?;
        let (periods, shear, rest) = periods_of(alloc, rest)?;
        Ok((Side::Right, periods, shear, rest))
    } else {
        let (periods, shear, rest) = periods_of(alloc, bytes)?;
        Ok((Side::Whole, periods, shear, rest))
    }
}
