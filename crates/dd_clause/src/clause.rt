//! Literals and clauses. Most clauses are short, so a clause of at most four literals is stored without an allocation.
ghost use Rattle.std.specs.Prelude.{◌≡◌, ◌≤◌, length, IsOk, IfOk};
ghost use Rattle.dd_clause.specs.Clauses as spec;

use smallvec::SmallVec;
use std::alloc::{AllocError, Global};
use std::marker::Model;

/// A variable, or its negation.
#[derive(Clone, Copy, Debug, Default, PartialEq, Eq)]
pub struct Literal {
    /// The number of the variable, from 1.
    pub variable: u32,
    /// True for the variable itself, false for its negation.
    pub positive: bool,
}

impl Literal {
    /// The negation of this literal: the same variable with the opposite sign.
    pub fn negation(self) -> Literal
        ensures { result ≡ spec.negation self }
    {
        Literal {
            variable: self.variable,
            positive: !self.positive,
        }
    }
}

/// A list of literals, at least one of which has to be true.
#[derive(Debug, Drop)]
pub struct Clause {
    literals: SmallVec<Literal, 4>,
}

impl Model for Clause {
    ghost use Rattle.std.specs.Prelude.{List};
    ghost use Rattle.dd_clause.specs.declared.clause.Literal.{Literal};

    ghost Value = { List Literal };

    ghost view = { λ clause. clause.literals.items };
}

impl Clause {
    /// Makes a clause of these literals. This fails only if memory runs out. Four literals or fewer need no allocation, so it
    /// never fails for them.
    pub fn from_literals(alloc: Global, literals: &[Literal]) -> Result<Clause, AllocError>
        ensures ok { IfOk result (λ clause. clause ≡ literals.now) }
        ensures short_is_made { length literals.now ≤ 4 → IsOk result }
    {
        let literals = SmallVec::from_slice(alloc, literals)?;
        Ok(Clause { literals })
    }

    /// The literals, in the order in which they were given.
    pub fn literals(&self) -> &[Literal]
        ensures { result.now ≡ self.now }
    {
        self.literals.as_slice()
    }
}
