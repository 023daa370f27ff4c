//! The elimination of variables from a list of clauses, and the search on the clauses that remain. There are two ways to
//! eliminate variables. `solve_propagated` eliminates those whose values unit propagation fixes. `solve_reduced` eliminates
//! variables by resolution: the clauses that have a variable or its negation are replaced by resolvents. A resolvent follows
//! from two of these clauses, and doesn't have the variable.
//!
//! The whole list is the list before the elimination. The reduced list is made of the remaining clauses. After an elimination
//! by resolution, their variables are numbered anew. An answer for a list is an assignment that satisfies it, or a refutation:
//! a list of steps. Each step has a clause that follows from clauses before it, and hints: the numbers of the clauses that show
//! this. First the clauses of the list are numbered, from 1, and then the steps. The last step's clause is empty. A step may
//! also delete clauses, which no later step may use. A clause of the list or of a step is known until it is deleted. The search
//! gives an answer for the reduced list. An answer for the whole list is made from it, and tested: an assignment is tested on
//! the whole list, and a refutation is tested step by step. If the answer is a refutation after an elimination by resolution,
//! only this elimination is tested.
#![tactic(auto, using(std::proofs::lemmas::Grind::common_steps))]

mod elimination;
mod fixed;
mod propagation;
mod reduction;
mod resolution;
mod search;
mod whole;

pub use search::{solve_propagated, solve_reduced};
