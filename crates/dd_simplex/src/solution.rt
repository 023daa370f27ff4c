//! The solution that the last dictionary of a run gives: a value for each column, and a dual for each row.
ghost use Rattle.std.specs.Prelude.{◌≡◌, ℕ, ◌+◌, ◌<◌, ◌≤◌, length, IfOk};
ghost use Rattle.dd_simplex.specs.table.Lines.{other_at};
ghost use Rattle.dd_simplex.specs.table.Values.{GiveColumns, GiveDuals};

use crate::line::Line;
use crate::tableau::Tableau;
use dd_fraction::Fraction;
use dd_values::Items;
use std::alloc::{AllocError, Global};

/// The best values for the columns of a program, which make column 0 as great as possible, and duals that show this. Each row
/// has a dual, which is at least 0. If each row is multiplied by its dual, the sum of the rows has a coefficient of at least 1
/// in column 0, and of at least 0 in every other column. The bound of this sum is `value`, so column 0 is at most `value`.
#[derive(Debug, Drop)]
pub struct Solved {
    /// The greatest value of column 0.
    pub value: Fraction,
    /// A value for each column.
    pub columns: Items<Fraction>,
    /// A dual for each row.
    pub duals: Items<Fraction>,
}

/// Reads the solution off the tableau. The value of a basic variable is the bound of its line, and that of a nonbasic one is 0.
/// The dual of a row is the cost of its slack with the sign changed, or 0 if the slack is basic.
pub fn read_off(alloc: Global, tableau: &Tableau, columns: usize) -> Result<Solved, AllocError>
    requires costs { length tableau.now.costs ≡ length tableau.now.others }
    requires others { (j : ℕ) → j < length tableau.now.others → other_at tableau.now.others j < columns + length tableau.now.lines }
    ensures value { IfOk result (λ solved. solved.value ≡ tableau.now.value) }
    ensures columns { IfOk result (λ solved. GiveColumns tableau.now.lines columns (length tableau.now.lines) solved.columns) }
    ensures duals { IfOk result (λ solved. GiveDuals tableau.now columns (length tableau.now.others) solved.duals) }
{
    Ok(Solved {
        value: tableau.value,
        columns: column_values(alloc, tableau.lines.as_slice(), columns)?,
        duals: dual_values(alloc, tableau, columns)?,
    })
}

/// The value of each column.
fn column_values(
    alloc: Global,
    lines: &[Line],
    columns: usize,
) -> Result<Items<Fraction>, AllocError>
    ensures { IfOk result (λ values. GiveColumns lines.now columns (length lines.now) values) }
{
    let mut values = Vec::with_capacity(alloc, columns)?;
    values.resize(columns, Fraction::whole(0))?;
    for i in 0..lines.len() {
        let line = &lines[i];
        if line.basic < columns {
            values[line.basic] = line.bound;
        }
    }
    Ok(Items::from_vec(values))
}

/// The dual of each row.
fn dual_values(
    alloc: Global,
    tableau: &Tableau,
    columns: usize,
) -> Result<Items<Fraction>, AllocError>
    requires costs { length tableau.now.costs ≡ length tableau.now.others }
    requires others { (j : ℕ) → j < length tableau.now.others → other_at tableau.now.others j < columns + length tableau.now.lines }
    ensures { IfOk result (λ duals. GiveDuals tableau.now columns (length tableau.now.others) duals) }
{
    let mut duals = Vec::with_capacity(alloc, tableau.lines.len())?;
    duals.resize(tableau.lines.len(), Fraction::whole(0))?;
    for j in 0..tableau.others.len() {
        let variable = tableau.others[j];
        if variable >= columns {
            duals[variable - columns] = tableau.costs[j].negate();
        }
    }
    Ok(Items::from_vec(duals))
}
