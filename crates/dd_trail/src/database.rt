//! The clauses that a search may use, by number. Those of the given list come first, and then the learned ones. Deleted clauses
//! are left out, but keep their numbers.
ghost use Rattle.std.specs.Prelude.{◌≡◌, ◌≤◌, ◌+◌, length, is_some};
ghost use Rattle.std.specs.Option.{option_copied};
ghost use Rattle.dd_derivation.specs.Derivations.{clause_of};
ghost use Rattle.dd_derivation.specs.checking.MarksOf.{known_to};

use dd_clause::{Clause, Literal};
use dd_derivation::{Known, Step};
use std::marker::Model;

/// The known clauses, by number, and how many numbers there are.
#[derive(Drop)]
pub struct Database<'a> {
    known: Known<'a>,
    count: u64,
}

impl<'a> Model for Database<'a> {
    ghost use Rattle.std.specs.Prelude.{◌≡◌, List, Option, length};
    ghost use Rattle.dd_clause.specs.declared.clause.Literal.{Literal};

    ghost Value = { List (Option (List Literal)) };

    ghost view = { λ d. d.known };

    ghost invariant = { λ d. d.count ≡ length d.known };
}

impl<'a> Database<'a> {
    /// The database of the clauses of a list, followed by those of the steps. A step is a learned clause, with hints: the
    /// numbers of clauses that show that it follows. The clause with number k is alive, that is, not deleted, exactly when
    /// `alive[k - 1]` is true. `alive` must have a value for each clause of the list and of the steps.
    pub fn new(clauses: &'a [Clause], steps: &'a [Step], alive: &'a [bool]) -> Database<'a>
        requires { length clauses.now + length steps.now ≤ length alive.now }
        ensures { result ≡ known_to clauses.now steps.now alive.now }
    {
        Database {
            known: Known::new(clauses, steps, alive),
            count: clauses.len() as u64 + steps.len() as u64,
        }
    }

    /// How many numbers there are, including those of deleted clauses.
    pub fn count(&self) -> u64
        ensures { result ≡ length self.now }
    {
        self.count
    }

    /// The clause with this number. `None` if there is no such clause, or if it is not alive.
    pub fn find_clause(&self, number: u64) -> Option<&'a [Literal]>
        ensures { option_copied result ≡ clause_of self.now number }
    {
        self.known.find_clause(number)
    }

    /// Whether there is a clause with this number and it is alive.
    pub(crate) fn has_clause(&self, number: u64) -> bool
        ensures { result ≡ is_some (clause_of self.now number) }
    {
        self.find_clause(number).is_some()
    }
}
