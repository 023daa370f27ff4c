//! Formulas in conjunctive normal form: lists of clauses over numbered variables.
ghost use Rattle.std.specs.Prelude.{◌≡◌, ◌≤◌, ◌↔◌, [], ◌∷◌, ◌++◌, All, IsTrue, OnOk, OnErr};
ghost use Rattle.dd_values.specs.Bounds.{most_variables};
ghost use Rattle.dd_clause.specs.Clauses.{IsClauseInRange};

use crate::clause::Clause;
use std::alloc::{AllocError, Global};
use std::marker::Model;

/// A list of clauses over the variables 1 to `variables`. There are at most 2^24 variables.
#[derive(Debug, Drop)]
pub struct Cnf {
    variables: u32,
    clauses: Vec<Clause>,
}

impl Model for Cnf {
    ghost use Rattle.dd_values.specs.Bounds.{most_variables};
    ghost use Rattle.std.specs.Prelude.{◌≤◌, All};
    ghost use Rattle.dd_clause.specs.Clauses.{ClauseList, IsClauseInRange};

    ghost Value = { ClauseList };

    ghost view = { λ cnf. record { variables = cnf.variables; clauses = cnf.clauses.items } };

    ghost invariant = { λ cnf. (cnf.variables ≤ most_variables) × All (IsClauseInRange cnf.variables) cnf.clauses.items };
}

impl Cnf {
    /// Makes an empty list over this many variables, at most 2^24. Allocates nothing.
    pub fn new(alloc: Global, variables: u32) -> Cnf
        requires { variables ≤ most_variables }
        ensures variables { result.variables ≡ variables }
        ensures clauses { result.clauses ≡ [] }
    {
        Cnf {
            variables,
            clauses: Vec::new(alloc),
        }
    }

    /// Whether each variable of the clause is one of the list's variables.
    pub fn is_in_range(&self, clause: &Clause) -> bool
        ensures { IsTrue result ↔ IsClauseInRange self.now.variables clause.now }
    {
        for literal in clause.literals() {
            if literal.variable == 0 || literal.variable > self.variables {
                return false;
            }
        }
        true
    }

    /// Adds a clause at the end. Its variables must be among the list's. If memory runs out, the list is unchanged.
    pub fn push(&mut self, clause: Clause) -> Result<(), AllocError>
        requires { IsClauseInRange self.old.variables clause }
        ensures variables { self.new.variables ≡ self.old.variables }
        ensures ok { OnOk result (self.new.clauses ≡ self.old.clauses ++ clause ∷ []) }
        ensures err { OnErr result (self.new ≡ self.old) }
    {
        self.clauses.push(clause)?;
        Ok(())
    }

    /// Raises the number of variables to `variables`, which must be at most 2^24 and no less than the present number. The
    /// clauses stay as they are.
    pub fn widen(&mut self, variables: u32)
        requires more { self.old.variables ≤ variables }
        requires few { variables ≤ most_variables }
        ensures variables { self.new.variables ≡ variables }
        ensures clauses { self.new.clauses ≡ self.old.clauses }
    {
        self.variables = variables;
    }

    /// The number of variables, at most 2^24.
    pub fn variables(&self) -> u32
        ensures value { result ≡ self.now.variables }
        ensures at_most { self.now.variables ≤ most_variables }
    {
        self.variables
    }

    /// The clauses, in the order in which they were added.
    pub fn clauses(&self) -> &[Clause]
        ensures value { result.now ≡ self.now.clauses }
        ensures in_range { All (IsClauseInRange self.now.variables) self.now.clauses }
    {
        self.clauses.as_slice()
    }
}
