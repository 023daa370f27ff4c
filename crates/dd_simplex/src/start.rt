//! The first tableau of a program: the slacks are basic, and the objective is column 0.
ghost use Rattle.std.specs.Prelude.{◌≡◌, ℕ, ◌+◌, ◌<◌, ◌≤◌, ◌^◌, length, slice_index_or, IfOk};
ghost use Rattle.dd_fraction.specs.Checked.{IsFraction};
ghost use Rattle.dd_simplex.specs.Programs.{fraction_at, unit, row_at};
ghost use Rattle.dd_simplex.specs.table.Lines.{line_at, other_at};
ghost use Rattle.dd_simplex.specs.table.Steps.{IsStart, IsLineOf, AreLinesOf};

use crate::line::Line;
use crate::program::{Constraint, Program};
use crate::tableau::Tableau;
use dd_fraction::Fraction;
use std::alloc::{AllocError, Global};

/// The first tableau of a program.
pub fn first_tableau(alloc: Global, program: &Program) -> Result<Tableau, AllocError>
    ensures { IfOk result (λ tableau. IsStart program.now tableau) }
{
    let columns = program.columns();
    let lines = slack_lines(alloc, program.rows(), columns)?;
    let others = variables(alloc, columns)?;
    let costs = first_unit(alloc, columns)?;
    Ok(Tableau {
        lines,
        others,
        value: Fraction::whole(0),
        costs,
    })
}

/// One line for each row. The line's basic variable is the row's slack.
fn slack_lines(alloc: Global, rows: &[Constraint], columns: usize) -> Result<Vec<Line>, AllocError>
    requires { columns < 2 ^ 32 }
    ensures { IfOk result (λ lines. AreLinesOf rows.now columns lines.items) }
{
    let mut lines = Vec::with_capacity(alloc, rows.len())?;
    for i in 0..rows.len() {
        let row = &rows[i];
        let cells = copied(alloc, row.coefficients.as_slice())?;
        lines.push(Line {
            basic: columns + i,
            bound: known(&row.bound),
            cells,
        })?;
    }
    Ok(lines)
}

/// A copy of the fractions.
fn copied(alloc: Global, fractions: &[Fraction]) -> Result<Vec<Fraction>, AllocError>
    ensures same { IfOk result (λ copy. copy.items ≡ fractions.now) }
    ensures fractions { IfOk result (λ copy. (j : ℕ) → j < length fractions.now → IsFraction (fraction_at fractions.now j)) }
{
    let mut copy = Vec::with_capacity(alloc, fractions.len())?;
    for i in 0..fractions.len() {
        copy.push(known(&fractions[i]))?;
    }
    Ok(copy)
}

/// Returns the fraction itself. The contract adds what holds of every `Fraction`: it is in lowest terms, and its numerator and
/// denominator are at most 2^127 - 1 in absolute value.
fn known(fraction: &Fraction) -> Fraction
    ensures value { result ≡ fraction.now }
    ensures fraction { IsFraction fraction.now }
{
    // This call tells the proof what the type guarantees.
    let _num = fraction.num();
    *fraction
}

/// The nonbasic variables of the first tableau. They are the columns, whose numbers come before those of the slacks.
fn variables(alloc: Global, columns: usize) -> Result<Vec<usize>, AllocError>
    ensures size { IfOk result (λ others. length others.items ≡ columns) }
    ensures each { IfOk result (λ others. (j : ℕ) → j < columns → other_at others.items j ≡ j) }
{
    let mut others = Vec::with_capacity(alloc, columns)?;
    for j in 0..columns {
        others.push(j)?;
    }
    Ok(others)
}

/// The costs of the first objective: 1 at column 0, and 0 elsewhere.
fn first_unit(alloc: Global, columns: usize) -> Result<Vec<Fraction>, AllocError>
    requires { 0 < columns }
    ensures size { IfOk result (λ costs. length costs.items ≡ columns) }
    ensures each { IfOk result (λ costs. (j : ℕ) → j < columns → fraction_at costs.items j ≡ unit 0 j) }
{
    let mut costs = Vec::with_capacity(alloc, columns)?;
    for j in 0..columns {
        costs.push(Fraction::whole(if j == 0 { 1 } else { 0 }))?;
    }
    Ok(costs)
}
