//! The text of an answer, appended from left to right to one growing text. An answer's first line begins with the word `query`
//! and the query's number. A function that appends the first line of one kind of answer, such as `push_outside`, leaves out
//! this beginning.
ghost use Rattle.std.specs.Prelude.{◌≡◌, ◌++◌, codes, length, OnOk, IfOk};
ghost use Rattle.std.specs.List.{flat_map};
ghost use Rattle.dd_certificate.specs.Text.{
  amounts_and_duals_text,
  answer_line,
  answer_text,
  bound_lines,
  broken_text,
  density_lines,
  fraction_to_end,
  further_lines,
  symbol_or_star_text,
  symbols_and_stars_to_end,
  least_lines,
  line_feed,
  no_text,
  number_line,
  numbers_line,
  numbers_to_end,
  pattern_text,
  periods_to_end,
  reason_text,
  refutation_text,
  shear_text,
  side_text,
  signed_to_end,
  spaced_out,
  starred_text,
  verdict_text,
  yes_both_text,
};

use crate::answer::{Answer, Listed, Reason, Side, Starred};
use crate::decimal::{push_decimal, push_signed};
use crate::refutation::push_refutation;
use dd_derivation::Step;
use dd_values::Items;
use std::alloc::{AllocError, Global};

/// Appends numbers to a text, each after a space.
fn push_numbers(text: &mut Vec<u8>, numbers: &[u64]) -> Result<(), AllocError>
    ensures { OnOk result (text.new.items ≡ text.old.items ++ spaced_out numbers.now) }
{
    for number in numbers {
        text.push(b' ')?;
        push_decimal(text, *number)?;
    }
    Ok(())
}

/// Ends a line with these numbers, each after a space.
fn push_numbers_to_end(text: &mut Vec<u8>, numbers: &[u64]) -> Result<(), AllocError>
    ensures { OnOk result (text.new.items ≡ text.old.items ++ numbers_to_end numbers.now) }
{
    push_numbers(text, numbers)?;
    text.push(b'\n')?;
    Ok(())
}

/// Ends a line with these numbers, each after a space. They may be below 0.
fn push_signed_to_end(text: &mut Vec<u8>, numbers: &[i64]) -> Result<(), AllocError>
    ensures { OnOk result (text.new.items ≡ text.old.items ++ signed_to_end numbers.now) }
{
    for number in numbers {
        text.push(b' ')?;
        push_signed(text, *number)?;
    }
    text.push(b'\n')?;
    Ok(())
}

/// Appends a line: `word`, which ends with a space, and a number.
fn push_number_line(text: &mut Vec<u8>, word: &[u8], number: u64) -> Result<(), AllocError>
    ensures { OnOk result (text.new.items ≡ text.old.items ++ number_line word.now number) }
{
    text.extend_from_slice(word)?;
    push_decimal(text, number)?;
    text.push(b'\n')?;
    Ok(())
}

/// Ends a line with a fraction, as numerator, slash and denominator.
fn push_fraction_to_end(
    text: &mut Vec<u8>,
    numerator: u64,
    denominator: u64,
) -> Result<(), AllocError>
    ensures { OnOk result (text.new.items ≡ text.old.items ++ fraction_to_end numerator denominator) }
{
    push_decimal(text, numerator)?;
    text.push(b'/')?;
    push_decimal(text, denominator)?;
    text.push(b'\n')?;
    Ok(())
}

/// The word for a side, with a space before it. For `Whole` it is empty.
fn side_word(side: Side) -> &'static [u8]
    ensures { result.now ≡ side_text side }
{
    match side {
        Side::Whole => b"",
        Side::Left => b" left",
        Side::Right => b" right",
    }
}

/// The word for a reason.
fn reason_word(reason: Reason) -> &'static [u8]
    ensures { result.now ≡ reason_text reason }
{
    match reason {
        Reason::Limits => b"limits",
        Reason::Large => b"large",
        Reason::Overflow => b"overflow",
        Reason::Pivots => b"pivots",
    }
}

/// Appends the first line of `Outside`.
fn push_outside(text: &mut Vec<u8>, place: &[i64]) -> Result<(), AllocError>
    ensures { OnOk result (text.new.items ≡ text.old.items ++ (codes "OUT" ++ signed_to_end place.now)) }
{
    text.extend_from_slice(b"OUT")?;
    push_signed_to_end(text, place)
}

/// Appends the first line of `YesBoth`.
fn push_yes_both(text: &mut Vec<u8>, left: u64, right: u64) -> Result<(), AllocError>
    ensures { OnOk result (text.new.items ≡ text.old.items ++ yes_both_text left right) }
{
    text.extend_from_slice(b"YES ")?;
    push_decimal(text, left)?;
    text.push(b' ')?;
    push_decimal(text, right)?;
    text.push(b'\n')?;
    Ok(())
}

/// Appends the word `shear` and the shear, each after a space, or nothing if the shear is 0.
fn push_shear(text: &mut Vec<u8>, shear: u64) -> Result<(), AllocError>
    ensures { OnOk result (text.new.items ≡ text.old.items ++ shear_text shear) }
{
    if shear != 0 {
        text.extend_from_slice(b" shear ")?;
        push_decimal(text, shear)?;
    }
    Ok(())
}

/// Ends a line with the periods and the shear of a configuration.
fn push_periods_to_end(text: &mut Vec<u8>, periods: &[u64], shear: u64) -> Result<(), AllocError>
    ensures { OnOk result (text.new.items ≡ text.old.items ++ periods_to_end periods.now shear) }
{
    push_numbers(text, periods)?;
    push_shear(text, shear)?;
    text.push(b'\n')?;
    Ok(())
}

/// Appends the first line of `No`.
fn push_no(text: &mut Vec<u8>, side: Side, periods: &[u64], shear: u64) -> Result<(), AllocError>
    ensures { OnOk result (text.new.items ≡ text.old.items ++ no_text side periods.now shear) }
{
    text.extend_from_slice(b"NO")?;
    text.extend_from_slice(side_word(side))?;
    push_periods_to_end(text, periods, shear)
}

/// Appends the first line of `Broken`.
fn push_broken(text: &mut Vec<u8>, part: u64, periods: &[u64], shear: u64) -> Result<(), AllocError>
    ensures { OnOk result (text.new.items ≡ text.old.items ++ broken_text part periods.now shear) }
{
    text.extend_from_slice(b"BROKEN ")?;
    push_decimal(text, part)?;
    push_periods_to_end(text, periods, shear)
}

/// Appends the first line of `Unknown`.
fn push_unknown(text: &mut Vec<u8>, reason: Reason) -> Result<(), AllocError>
    ensures { OnOk result (text.new.items ≡ text.old.items ++ (codes "UNKNOWN " ++ (reason_text reason ++ line_feed))) }
{
    text.extend_from_slice(b"UNKNOWN ")?;
    text.extend_from_slice(reason_word(reason))?;
    text.push(b'\n')?;
    Ok(())
}

/// Appends a line: `word`, which ends with a space, and a fraction.
fn push_fraction_line(
    text: &mut Vec<u8>,
    word: &[u8],
    numerator: u64,
    denominator: u64,
) -> Result<(), AllocError>
    ensures { OnOk result (text.new.items ≡ text.old.items ++ (word.now ++ fraction_to_end numerator denominator)) }
{
    text.extend_from_slice(word)?;
    push_fraction_to_end(text, numerator, denominator)
}

/// Appends a line: a word, and then numbers, each after a space.
fn push_numbers_line(text: &mut Vec<u8>, word: &[u8], numbers: &[u64]) -> Result<(), AllocError>
    ensures { OnOk result (text.new.items ≡ text.old.items ++ numbers_line word.now numbers.now) }
{
    text.extend_from_slice(word)?;
    push_numbers_to_end(text, numbers)
}

/// Appends the first line of `Minimal`, which says how many patterns follow.
fn push_minimal(text: &mut Vec<u8>, patterns: &[Starred]) -> Result<(), AllocError>
    ensures { OnOk result (text.new.items ≡ text.old.items ++ number_line (codes "MINIMAL ") (length patterns.now)) }
{
    push_number_line(text, b"MINIMAL ", patterns.len() as u64)
}

/// Appends the first line of an answer, without the word `query` and the query's number.
fn push_verdict(text: &mut Vec<u8>, answer: &Answer) -> Result<(), AllocError>
    ensures { OnOk result (text.new.items ≡ text.old.items ++ verdict_text answer.now) }
{
    match answer {
        Answer::Inside => text.extend_from_slice(b"IN\n"),
        Answer::Outside { place } => push_outside(text, place.as_slice()),
        Answer::Yes { radius, .. } => push_number_line(text, b"YES ", *radius),
        Answer::YesBoth { left, right, .. } => push_yes_both(text, *left, *right),
        Answer::No {
            side,
            periods,
            shear,
            ..
        } => push_no(text, *side, periods.as_slice(), *shear),
        Answer::Unknown { reason } => push_unknown(text, *reason),
        Answer::List { patterns } => push_number_line(text, b"LIST ", patterns.len() as u64),
        Answer::Density {
            numerator,
            denominator,
            ..
        } => push_fraction_line(text, b"DENSITY ", *numerator, *denominator),
        Answer::Empty { .. } => text.extend_from_slice(b"EMPTY\n"),
        Answer::Bound {
            numerator,
            denominator,
            ..
        } => push_fraction_line(text, b"BOUND ", *numerator, *denominator),
        Answer::Minimal { patterns } => push_minimal(text, patterns.as_slice()),
        Answer::Conjugate { radii, .. } => push_numbers_line(text, b"CONJUGATE", radii.as_slice()),
        Answer::Broken {
            part,
            periods,
            shear,
            ..
        } => push_broken(text, *part, periods.as_slice(), *shear),
        Answer::Least { weight, .. } => push_number_line(text, b"LEAST ", *weight),
        Answer::Nothing { .. } => text.extend_from_slice(b"NONE\n"),
    }
}

/// Appends the lines of two refutations.
fn push_two_refutations(text: &mut Vec<u8>, left: &[Step], right: &[Step]) -> Result<(), AllocError>
    ensures { OnOk result (text.new.items ≡ text.old.items ++ (refutation_text left.now ++ refutation_text right.now)) }
{
    push_refutation(text, left)?;
    push_refutation(text, right)
}

/// Appends the line of a pattern.
fn push_pattern(text: &mut Vec<u8>, pattern: &Listed) -> Result<(), AllocError>
    ensures { OnOk result (text.new.items ≡ text.old.items ++ pattern_text pattern.now) }
{
    text.extend_from_slice(b"pattern ")?;
    push_decimal(text, pattern.node)?;
    push_numbers_to_end(text, pattern.symbols.as_slice())
}

/// Appends the lines of patterns.
fn push_patterns(text: &mut Vec<u8>, patterns: &[Listed]) -> Result<(), AllocError>
    ensures { OnOk result (text.new.items ≡ text.old.items ++ flat_map pattern_text patterns.now) }
{
    for pattern in patterns {
        push_pattern(text, pattern)?;
    }
    Ok(())
}

/// Appends the number of a symbol, or a star for a cell that is left out.
fn push_symbol_or_star(text: &mut Vec<u8>, symbol: Option<u64>) -> Result<(), AllocError>
    ensures { OnOk result (text.new.items ≡ text.old.items ++ symbol_or_star_text symbol) }
{
    match symbol {
        None => text.extend_from_slice(b"*"),
        Some(number) => push_decimal(text, number),
    }
}

/// Ends a line with these symbols, each after a space. A star stands for a cell that is left out.
fn push_symbols_and_stars_to_end(
    text: &mut Vec<u8>,
    symbols: &[Option<u64>],
) -> Result<(), AllocError>
    ensures { OnOk result (text.new.items ≡ text.old.items ++ symbols_and_stars_to_end symbols.now) }
{
    for symbol in symbols {
        text.push(b' ')?;
        push_symbol_or_star(text, *symbol)?;
    }
    text.push(b'\n')?;
    Ok(())
}

/// Appends the line of a starred pattern.
fn push_starred(text: &mut Vec<u8>, pattern: &Starred) -> Result<(), AllocError>
    ensures { OnOk result (text.new.items ≡ text.old.items ++ starred_text pattern.now) }
{
    text.extend_from_slice(b"pattern ")?;
    push_decimal(text, pattern.node)?;
    push_symbols_and_stars_to_end(text, pattern.symbols.as_slice())
}

/// Appends the lines of starred patterns.
fn push_starred_patterns(text: &mut Vec<u8>, patterns: &[Starred]) -> Result<(), AllocError>
    ensures { OnOk result (text.new.items ≡ text.old.items ++ flat_map starred_text patterns.now) }
{
    for pattern in patterns {
        push_starred(text, pattern)?;
    }
    Ok(())
}

/// Appends the lines of several refutations.
fn push_each_refutation(text: &mut Vec<u8>, lists: &[Items<Step>]) -> Result<(), AllocError>
    ensures { OnOk result (text.new.items ≡ text.old.items ++ flat_map refutation_text lists.now) }
{
    for steps in lists {
        push_refutation(text, steps.as_slice())?;
    }
    Ok(())
}

/// Appends the lines of `Least` after the first: the symbols, and a refutation if the weight isn't 0.
fn push_least_lines(
    text: &mut Vec<u8>,
    weight: u64,
    symbols: &[u64],
    steps: &[Step],
) -> Result<(), AllocError>
    ensures { OnOk result (text.new.items ≡ text.old.items ++ least_lines weight symbols.now steps.now) }
{
    push_numbers_line(text, b"conf", symbols)?;
    if weight != 0 {
        push_refutation(text, steps)?;
    }
    Ok(())
}

/// Appends the lines of `Density` after the first: the cycle and the potentials.
fn push_density_lines(
    text: &mut Vec<u8>,
    cycle: &[u64],
    potentials: &[i64],
) -> Result<(), AllocError>
    ensures { OnOk result (text.new.items ≡ text.old.items ++ density_lines cycle.now potentials.now) }
{
    text.extend_from_slice(b"cycle ")?;
    push_decimal(text, cycle.len() as u64)?;
    push_numbers_to_end(text, cycle)?;
    text.extend_from_slice(b"potentials")?;
    push_signed_to_end(text, potentials)
}

/// Appends the lines of the amounts and of the duals.
fn push_amounts_and_duals(
    text: &mut Vec<u8>,
    amounts: &[u64],
    duals: &[u64],
) -> Result<(), AllocError>
    ensures { OnOk result (text.new.items ≡ text.old.items ++ amounts_and_duals_text amounts.now duals.now) }
{
    push_numbers_line(text, b"amounts", amounts)?;
    push_numbers_line(text, b"duals", duals)
}

/// Appends the lines of `Bound` after the first.
fn push_bound_lines(
    text: &mut Vec<u8>,
    common: u64,
    amounts: &[u64],
    duals: &[u64],
) -> Result<(), AllocError>
    ensures { OnOk result (text.new.items ≡ text.old.items ++ bound_lines common amounts.now duals.now) }
{
    push_number_line(text, b"denominator ", common)?;
    push_amounts_and_duals(text, amounts, duals)
}

/// Appends the lines of an answer after the first.
fn push_further_lines(text: &mut Vec<u8>, answer: &Answer) -> Result<(), AllocError>
    ensures { OnOk result (text.new.items ≡ text.old.items ++ further_lines answer.now) }
{
    match answer {
        Answer::Inside | Answer::Outside { .. } | Answer::Unknown { .. } => Ok(()),
        Answer::Yes { steps, .. } => push_refutation(text, steps.as_slice()),
        Answer::YesBoth {
            left_steps,
            right_steps,
            ..
        } => push_two_refutations(text, left_steps.as_slice(), right_steps.as_slice()),
        Answer::No { symbols, .. } => push_numbers_line(text, b"conf", symbols.as_slice()),
        Answer::List { patterns } => push_patterns(text, patterns.as_slice()),
        Answer::Density {
            cycle,
            potentials,
            ..
        } => push_density_lines(text, cycle.as_slice(), potentials.as_slice()),
        Answer::Empty { ranks } => push_numbers_line(text, b"ranks", ranks.as_slice()),
        Answer::Bound {
            common,
            amounts,
            duals,
            ..
        } => push_bound_lines(text, *common, amounts.as_slice(), duals.as_slice()),
        Answer::Minimal { patterns } => push_starred_patterns(text, patterns.as_slice()),
        Answer::Conjugate { steps, .. } => push_each_refutation(text, steps.as_slice()),
        Answer::Broken { symbols, .. } => push_numbers_line(text, b"conf", symbols.as_slice()),
        Answer::Least {
            weight,
            symbols,
            steps,
        } => push_least_lines(text, *weight, symbols.as_slice(), steps.as_slice()),
        Answer::Nothing { steps } => push_refutation(text, steps.as_slice()),
    }
}

/// The first line of the answer to the query with this number, with its line feed. Fails only if memory runs out.
pub fn answer_line(alloc: Global, query: u32, answer: &Answer) -> Result<Vec<u8>, AllocError>
    ensures { IfOk result (λ text. text.items ≡ answer_line query answer.now) }
{
    let mut text = Vec::new(alloc);
    text.extend_from_slice(b"query ")?;
    push_decimal(&mut text, u64::from(query))?;
    text.push(b' ')?;
    push_verdict(&mut text, answer)?;
    Ok(text)
}

/// All lines of the answer to the query with this number, each with its line feed. Fails only if memory runs out.
pub fn write_answer(alloc: Global, query: u32, answer: &Answer) -> Result<Vec<u8>, AllocError>
    ensures { IfOk result (λ text. text.items ≡ answer_text query answer.now) }
{
    let mut text = answer_line(alloc, query, answer)?;
    push_further_lines(&mut text, answer)?;
    Ok(text)
}
