//! Configurations of least weight on a torus: the clauses that ask for a weight below a bound, and the search for the least
//! weight. A torus stands for the configurations that repeat along the vectors `(x, 0, 0)`, `(s, y, 0)` and `(0, 0, z)`. Here
//! x, y and z are its periods, and s is its shear. The fundamental box is the box that repeats: along each axis its
//! coordinates run from 0 to the period minus 1. The weight of a configuration is the sum of the weights of the symbols in
//! this box. A cell is a position together with one of its nodes. The cells of the box are numbered from 0 in cell order: by
//! z, then y, then x, then the node.
//!
//! A rule is true or false at each cell of a configuration. It reads the cells whose symbols decide this. A configuration
//! lives in a rule's subshift if the rule is true at every cell. A living configuration lives in the rule's subshift, has the
//! torus's periods and shear, and gives each cell a symbol that the cell's node allows.
//!
//! Clauses ask for configurations of some kind if the assignments that satisfy the clauses stand for exactly these
//! configurations. A refutation is a list of steps that show that no assignment satisfies the clauses, so no configuration is
//! of this kind.
#![tactic(auto)]

mod counter;
mod laws;
mod least;
mod living;
mod local_search;
mod remembered;
mod torus_rule;
mod weights;

pub use laws::least_law;
pub use least::{LeastWeight, least_weight};
pub use weights::weight_clauses;
