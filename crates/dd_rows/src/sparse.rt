//! Rows in a sparse form. For each vector, at most two of a row's coefficients are not 0, so a few numbers describe a row. A
//! pattern's number is its index in the list of patterns, or the length of the list if the pattern isn't there.
ghost use Rattle.std.specs.Prelude.{◌≡◌, ◌++◌, ◌∷◌, [], pos, None, replicate, length, map, IfOk, OnOk};
ghost use Rattle.dd_pattern.specs.Weight.{total_weight};
ghost use Rattle.dd_rows.specs.Patterns.{pattern_number};
ghost use Rattle.dd_rows.specs.listing.Views.{symbols_at};
ghost use Rattle.dd_rows.specs.listing.Sparse.{exchange_of, entry, entries, dense, exchanges_of};

use crate::pattern::{Pattern, Patterns};
use crate::rows::Row;
use crate::views::Views;
use dd_values::Items;
use std::alloc::{AllocError, Global};

/// What the origin exchanges along a vector: it gives one amount and receives another. Each amount is determined by a pattern,
/// and the two patterns have different numbers.
#[derive(Clone, Copy, PartialEq, Eq, Hash)]
pub(crate) struct Exchange {
    /// The number of the pattern that determines what the origin gives.
    gives: usize,
    /// The number of the pattern that determines what the origin receives.
    receives: usize,
}

/// A row in sparse form.
#[derive(PartialEq, Eq, Hash, Drop)]
pub(crate) struct SparseRow {
    /// What the origin exchanges along each vector. `None` means that there is no exchange along the vector: all coefficients
    /// in the vector's columns are 0.
    exchanges: Vec<Option<Exchange>>,
    /// The right side of the row's inequality.
    bound: u64,
}

/// The exchange with these pattern numbers. If they are equal, there is no exchange, since the amounts given and received
/// cancel.
fn exchange_between(gives: usize, receives: usize) -> Option<Exchange>
    ensures { result ≡ exchange_of gives receives }
{
    if gives == receives {
        None
    } else {
        Some(Exchange { gives, receives })
    }
}

/// The number of the pattern that the filling shows at the cells with these numbers, or the length of `patterns` if the pattern
/// isn't there. The pattern is first read into `seen`.
fn number_seen(
    symbols: &[u32],
    numbers: &[usize],
    patterns: &Patterns,
    seen: &mut Pattern,
) -> Result<usize, AllocError>
    ensures { IfOk result (λ number. number ≡ pattern_number patterns.now (symbols_at symbols.now numbers.now)) }
{
    seen.read(symbols, numbers)?;
    Ok(patterns.number(seen))
}

/// What the origin exchanges along each vector, in a filling. Each pattern is first read into `seen`.
pub(crate) fn exchanges(
    alloc: Global,
    symbols: &[u32],
    views: &Views,
    patterns: &Patterns,
    seen: &mut Pattern,
) -> Result<Vec<Option<Exchange>>, AllocError>
    ensures { IfOk result (λ list. list.items ≡ exchanges_of patterns.now views.now symbols.now) }
{
    let gives = number_seen(symbols, views.origin.as_slice(), patterns, seen)?;
    let mut list = Vec::with_capacity(alloc, views.givers.len())?;
    for numbers in views.givers.as_slice() {
        let receives = number_seen(symbols, numbers.as_slice(), patterns, seen)?;
        list.push(exchange_between(gives, receives))?;
    }
    Ok(list)
}

/// The coefficient in the column for the exchange's vector and the pattern with the number `pattern`.
fn entry(exchange: &Option<Exchange>, pattern: usize) -> i64
    ensures { result ≡ entry exchange.now pattern }
{
    match exchange {
        None => 0,
        Some(exchange) => {
            i64::from(exchange.gives == pattern) - i64::from(exchange.receives == pattern)
        }
    }
}

/// Appends the coefficients in the columns for the exchange's vector, one for each of the `patterns` patterns.
fn push_entries(
    coefficients: &mut Items<i64>,
    exchange: &Option<Exchange>,
    patterns: usize,
) -> Result<(), AllocError>
    ensures { OnOk result (coefficients.new ≡ coefficients.old ++ entries patterns exchange.now) }
{
    for pattern in 0..patterns {
        coefficients.push(entry(exchange, pattern))?;
    }
    Ok(())
}

impl SparseRow {
    /// The row with these exchanges and this bound.
    pub(crate) fn new(exchanges: Vec<Option<Exchange>>, bound: u64) -> SparseRow
        ensures exchanges { result.exchanges.items ≡ exchanges.items }
        ensures bound { result.bound ≡ bound }
    {
        SparseRow { exchanges, bound }
    }

    /// The row, for `vectors` vectors, that says "column 0 is at most the bound".
    pub(crate) fn cap(alloc: Global, vectors: usize, bound: u64) -> Result<SparseRow, AllocError>
        ensures exchanges { IfOk result (λ row. row.exchanges.items ≡ replicate vectors None) }
        ensures bound { IfOk result (λ row. row.bound ≡ bound) }
    {
        let exchanges = vec![in alloc; None; vectors]?;
        Ok(SparseRow { exchanges, bound })
    }

    /// The same row with all its coefficients written out, for `patterns` patterns.
    pub(crate) fn dense(&self, alloc: Global, patterns: usize) -> Result<Row, AllocError>
        ensures { IfOk result (λ row. row ≡ dense patterns self.now) }
    {
        let mut coefficients = Items::new(alloc);
        coefficients.push(1)?;
        for exchange in &self.exchanges {
            push_entries(&mut coefficients, exchange, patterns)?;
        }
        Ok(Row {
            coefficients,
            bound: self.bound,
        })
    }
}
