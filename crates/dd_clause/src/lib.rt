//! Literals, clauses, lists of clauses and assignments of truth values. A literal is a variable or its negation. Its sign says
//! which of the two it is: a variable is positive, and a negation is negative. A clause is true if at least one of its literals
//! is. An assignment satisfies a list of clauses if it makes each of them true.
#![tactic(auto)]

mod assignment;
mod clause;
mod cnf;

pub use assignment::{Assignment, satisfies};
pub use clause::{Clause, Literal};
pub use cnf::Cnf;
