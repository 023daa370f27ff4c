//! Linear programs.
ghost use Rattle.std.specs.Prelude.{◌≡◌, [], ◌∷◌, ◌++◌, ◌<◌, ◌^◌, length, IfOk, OnOk, OnErr};
ghost use lib.IntN.{pos};
ghost use lib.Signed.{◌≤ℤ◌};
ghost use Rattle.dd_fraction.specs.Order.{IsNonneg};
ghost use Rattle.dd_simplex.specs.Programs.{LinearProgram, ProgramRow, IsProgram, cap_row};

use dd_fraction::Fraction;
use std::alloc::{AllocError, Global};
use std::marker::Model;

/// A row: the sum of the columns, each times its coefficient, is at most the bound. There is one coefficient for each
/// column.
#[derive(Debug, Drop)]
pub struct Constraint {
    pub coefficients: Vec<Fraction>,
    pub bound: Fraction,
}

impl Model for Constraint {
    ghost use Rattle.dd_simplex.specs.Programs.{ProgramRow};

    ghost Value = { ProgramRow };

    ghost view = { λ c. record { coefficients = c.coefficients.items; bound = c.bound } };
}

/// A linear program: maximise column 0, where each column is at least 0 and each row holds. The first row is "column 0 is at
/// most a cap".
#[derive(Debug, Drop)]
pub struct Program {
    columns: u32,
    rows: Vec<Constraint>,
}

impl Model for Program {
    ghost use Rattle.dd_simplex.specs.Programs.{LinearProgram, IsProgram};

    ghost Value = { LinearProgram };

    ghost view = { λ p. record { columns = p.columns; rows = p.rows.items } };

    ghost invariant = { λ p. IsProgram (record { columns = p.columns; rows = p.rows.items }) };
}

impl Program {
    /// Returns the program whose only row is "column 0 is at most `cap`". There must be at least one column, and the cap must
    /// be at least 0.
    ///
    /// # Errors
    /// `AllocError` if memory ran out.
    pub fn new(alloc: Global, columns: u32, cap: i64) -> Result<Program, AllocError>
        requires columns { 0 < columns }
        requires cap { pos 0 ≤ℤ cap }
        ensures { IfOk result (λ program. program ≡ record { columns = columns; rows = cap_row columns cap ∷ [] }) }
    {
        let mut coefficients = Vec::with_capacity(alloc, columns as usize)?;
        coefficients.push(Fraction::whole(1))?;
        coefficients.resize(columns as usize, Fraction::whole(0))?;
        let bound = Fraction::whole(cap);
        let rows = vec![in alloc;
            Constraint {
                coefficients,
                bound
            },
        ]?;
        Ok(Program { columns, rows })
    }

    /// Adds the row "the sum of the columns, each times its coefficient, is at most `bound`". There must be one coefficient
    /// for each column, and the bound must be at least 0.
    ///
    /// # Errors
    /// `AllocError` if memory ran out. The program is then unchanged.
    pub fn row(&mut self, coefficients: Vec<Fraction>, bound: Fraction) -> Result<(), AllocError>
        requires size { length coefficients.items ≡ self.old.columns }
        requires bound { IsNonneg bound }
        ensures ok { OnOk result (self.new ≡ record {
          columns = self.old.columns;
          rows = self.old.rows ++ record { coefficients = coefficients.items; bound = bound } ∷ [];
        }) }
        ensures err { OnErr result (self.new ≡ self.old) }
    {
        self.rows.push(Constraint {
            coefficients,
            bound,
        })?;
        Ok(())
    }

    /// The number of columns.
    pub(crate) fn columns(&self) -> usize
        ensures columns { result ≡ self.now.columns }
        ensures few { result < 2 ^ 32 }
        ensures program { IsProgram self.now }
    {
        self.columns as usize
    }

    /// The rows. The first one is the cap on column 0.
    pub(crate) fn rows(&self) -> &[Constraint]
        ensures { result.now ≡ self.now.rows }
    {
        self.rows.as_slice()
    }
}
