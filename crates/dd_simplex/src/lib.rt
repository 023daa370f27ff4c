//! Linear programs over exact fractions, solved by the simplex method with Bland's rule. A column is a variable of the program,
//! and is at least 0. A row is an inequality: its left side, a sum of coefficients times columns, is at most its bound. The
//! slack of a row is its bound less its left side. The objective is column 0, which is made as great as possible. Duals are
//! factors for the rows. They show that the value found for column 0 is the greatest (see `Solved`).
//!
//! A dictionary is a system of equations. Its variables are the columns and the slacks. They are numbered: first the columns,
//! then the slacks in the order of the rows. Some variables are basic, and the others are nonbasic. The dictionary has an
//! equation for each basic variable, and one for the objective, in terms of the nonbasic variables. The bound of a basic
//! variable is the constant in its equation. The cost of a nonbasic variable is its coefficient in the objective.
//!
//! In a pivot, one nonbasic variable enters, which means that it becomes basic, and one basic variable leaves, which means that
//! it becomes nonbasic. A nonbasic variable may enter if its cost is greater than 0. A basic variable may then leave if it
//! falls to 0 as the entering variable grows, and no other one does so earlier. Bland's rule takes the lowest-numbered variable
//! that may enter, and the lowest-numbered one that may leave. A run makes pivots by this rule until no variable may enter, or
//! until it reaches its limit on pivots.
//!
//! A number is too large if it is greater than 2^127 - 1 in absolute value. A run fails if an intermediate number of a sum, a
//! product or a quotient is too large, even if the result in lowest terms would not be.
#![tactic(auto, using(std::proofs::lemmas::Grind::common_steps))]

mod fault;
mod laws;
mod line;
mod program;
mod simplex;
mod solution;
mod start;
mod tableau;

pub use fault::SimplexFault;
pub use laws::{one_stop, sound_pivots};
pub use program::Program;
pub use simplex::maximise;
pub use solution::Solved;
