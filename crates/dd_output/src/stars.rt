//! Reads patterns from which cells may be left out. Each pattern is a line, with a star for each cell that is left out.
ghost use Rattle.std.specs.Prelude.{◌≡◌, ◌-◌, [], None, suc};
ghost use Rattle.dd_certificate.specs.Bounds.{most_number};
ghost use Rattle.dd_output.specs.reading.Stops.{Gives, number_at, many_at, copies};
ghost use Rattle.dd_output.specs.reading.Lists.{end_at, other_at, zeros};
ghost use Rattle.dd_output.specs.reading.Stars.{end_byte_at, symbol_or_star_at, symbol_or_star_entry, symbols_and_stars};
ghost use Rattle.dd_output.specs.reading.Seen.{symbol_or_star_seen};
ghost use Rattle.dd_output.specs.reading.Grammar as grammar;

use crate::fault::ReadFault;
use crate::lexing::{begins, number_at, word_at};
use crate::lists::{end_at, other_at};
use dd_certificate::{Answer, Starred};
use dd_values::{Items, MOST_NUMBER};
use std::alloc::Global;

/// A byte, which has to be `end` or `other`.
fn end_byte_at(bytes: &[u8], end: u8, other: u8) -> Result<(u8, &[u8]), ReadFault>
    ensures { Gives (λ x. (x.0, x.1.now)) result (end_byte_at end other [] bytes.now) }
{
    match bytes {
        [] => Err(ReadFault::Stopped(0)),
        [byte, rest @ ..] => {
            if *byte == end || *byte == other {
                Ok((*byte, rest))
            } else {
                Err(ReadFault::Stopped(bytes.len()))
            }
        }
    }
}

/// A symbol, or `None` for a star. Returns it, the byte that ends it, and the bytes after that. The byte that ends it is `end`
/// or `other`.
#[tactic(auto, unfolding(crate::specs::reading::Stars::symbol_or_star_at))]
fn symbol_or_star_at(
    bytes: &[u8],
    end: u8,
    other: u8,
) -> Result<(Option<u64>, u8, &[u8]), ReadFault>
    ensures { Gives (λ x. ((x.0, x.1), x.2.now)) result (symbol_or_star_at end other [] bytes.now) }
{
    if begins(bytes, b'*') {
        let rest = word_at(bytes, b"*")?;
        let (end, rest) = end_byte_at(rest, end, other)?;
        Ok((None, end, rest))
    } else {
        let (symbol, end, rest) = number_at(bytes, 0, MOST_NUMBER, end, other)?;
        Ok((Some(symbol), end, rest))
    }
}

/// The symbol or star with this index in a line, and the byte that ends it.
#[tactic(auto, using(crate::proofs::Counts::symbol_or_star_any))]
fn symbol_or_star_in_line(bytes: &[u8], index: u64) -> Result<(Option<u64>, u8, &[u8]), ReadFault>
    ensures { Gives (λ x. ((x.0, x.1), x.2.now)) result (symbol_or_star_at (end_at 1 index) (other_at None index) (zeros (1 - suc index)) bytes.now) }
{
    symbol_or_star_at(bytes, end_at(1, index), other_at(None, index))
}

/// The symbol or star with this index in a line, and whether it is the last one.
#[tactic(auto, unfolding(crate::specs::reading::Stars::symbol_or_star_entry))]
fn symbol_or_star_entry(bytes: &[u8], index: u64) -> Result<(Option<u64>, bool, &[u8]), ReadFault>
    ensures { Gives (λ x. (symbol_or_star_seen x.0 x.1, x.2.now)) result (symbol_or_star_entry index bytes.now) }
{
    let (symbol, end, rest) = symbol_or_star_in_line(bytes, index)?;
    Ok((symbol, end == b'\n', rest))
}

/// The symbols and stars at the end of a line.
#[tactic(auto, unfolding(crate::specs::reading::Stars::symbols_and_stars))]
fn symbols_and_stars_of(
    alloc: Global,
    bytes: &[u8],
) -> Result<(Items<Option<u64>>, &[u8]), ReadFault>
    ensures { Gives (λ x. (x.0, x.1.now)) result (symbols_and_stars.read bytes.now) }
{
    let mut symbols = Items::new(alloc);
    let mut rest = bytes;
    loop {
        let (symbol, is_last, after) = symbol_or_star_entry(rest, symbols.len() as u64)?;
        rest = after;
        symbols.push(symbol)?;
        if is_last {
            return Ok((symbols, rest));
        }
    }
}

/// The line of a pattern: its node, and then its symbols and stars.
#[tactic(auto, unfolding(crate::specs::reading::Grammar::starred))]
fn starred_of(alloc: Global, bytes: &[u8]) -> Result<(Starred, &[u8]), ReadFault>
    ensures { Gives (λ x. (x.0, x.1.now)) result (grammar.starred.read bytes.now) }
{
    let rest = word_at(bytes, b"pattern ")?;
    let (node, end, rest) = number_at(rest, 0, MOST_NUMBER, b'\n', b' ')?;
    if end == b'\n' {
        let symbols = Items::new(alloc);
        Ok((Starred { node, symbols }, rest))
    } else {
        let (symbols, rest) = symbols_and_stars_of(alloc, rest)?;
        Ok((Starred { node, symbols }, rest))
    }
}

/// The number of patterns.
#[tactic(auto, using(crate::proofs::Counts::number_any))]
fn count_of_patterns(bytes: &[u8]) -> Result<(u64, u8, &[u8]), ReadFault>
    ensures { Gives (λ x. ((x.0, x.1), x.2.now)) result (number_at 0 most_number 10 10 (λ n. copies n grammar.starred.least) bytes.now) }
{
    number_at(bytes, 0, MOST_NUMBER, b'\n', b'\n')
}

/// `count` patterns.
fn patterns_of(
    alloc: Global,
    count: u64,
    bytes: &[u8],
) -> Result<(Items<Starred>, &[u8]), ReadFault>
    ensures { Gives (λ x. (x.0, x.1.now)) result (many_at grammar.starred.read grammar.starred.least count bytes.now) }
{
    let mut patterns = Items::new(alloc);
    let mut rest = bytes;
    for _ in 0..count {
        let (pattern, after) = starred_of(alloc, rest)?;
        patterns.push(pattern)?;
        rest = after;
    }
    Ok((patterns, rest))
}

/// A `MINIMAL` answer.
#[tactic(auto, unfolding(crate::specs::reading::Grammar::minimal_row))]
pub(crate) fn minimal_of(alloc: Global, bytes: &[u8]) -> Result<(Answer, &[u8]), ReadFault>
    ensures { Gives (λ x. (x.0, x.1.now)) result (grammar.minimal_row.read bytes.now) }
{
    let rest = word_at(bytes, b"MINIMAL ")?;
    let (count, _, rest) = count_of_patterns(rest)?;
    let (patterns, rest) = patterns_of(alloc, count, rest)?;
    Ok((Answer::Minimal { patterns }, rest))
}
