//! Questions about rules, one variant of `Question` for each kind. Each position of the lattice has from one to four nodes. A
//! cell is a position together with one of its nodes. A configuration gives each cell a symbol. A filling gives a symbol to
//! each of finitely many cells. A rule is a formula about a cell and the cells near it. It has an alphabet, and may allow only
//! some of its symbols at a node. A configuration obeys the rule if it gives each cell a symbol that the cell's node allows,
//! and the rule is true at every cell. The rule's subshift is the set of these configurations. An automaton maps configurations
//! to configurations.
//!
//! A torus stands for the configurations that repeat along the vectors `(x, 0, 0)`, `(s, y, 0)` and `(0, 0, z)`. Here x, y and
//! z are the periods of the torus, and s is its shear. Its fundamental box is the box that repeats. The side lengths of this
//! box are the periods. A strip has periods along the second and the third axis, and no end along the first.
//!
//! There are two kinds of limits. The limits of the search (`Limits` of `dd_values`) bound the search for an answer. If they
//! leave the question undecided, the answer is UNKNOWN. A box question (`Question::Box`) asks whether no configuration that
//! obeys a rule has a given property, the goal, at any position. To answer it, the search tries boxes around the origin and
//! then tori, and turns each of them into clauses. Its limits are the greatest radius of these boxes and the greatest period
//! of these tori. One box is tried even if its radius is greater: the smallest one that holds all cells that the question's
//! goal reads at the origin. Another limit is the greatest number of simplex pivots for a discharge (`Question::Discharge`).
//!
//! The limits on a question's work (`Excess`) are limits on numbers that can be computed beforehand, such as an upper bound for
//! the number of clauses of a search. `Question::check` tests whether the limits of the search are in range, whether the parts
//! of a question fit together, and whether the question exceeds a limit on its work. A question that passes these tests becomes
//! a `CheckedQuestion`.
#![tactic(auto)]

mod checked;
mod checking;
mod conjugacy;
mod excess;
mod fault;
mod laws;
mod limits;
mod measures;
mod parts;
mod question;
mod tori;

pub use checked::CheckedQuestion;
pub use conjugacy::Conjugacy;
// `has_allowed` has moved to `dd_formula`. This line keeps older programs working.
pub use dd_formula::has_allowed;
pub use excess::Excess;
pub use fault::QuestionFault;
pub use laws::sound_questions;
pub use measures::MOST_CLAUSES;
pub use question::Question;
