//! Pairs of automata. Each position of the lattice Z^d has one or more nodes. A cell is a position together with one of its
//! nodes. A configuration gives each cell a symbol. It obeys a rule if it gives each cell a symbol that the cell's node allows,
//! and the rule is true at every cell. An automaton maps configurations to configurations. A script gives a topology (the
//! labelled edges between cells), defines rules and automata over it, and asks queries.
//!
//! A query about an image asks whether an automaton maps the configurations that obey one rule to configurations that obey
//! another, the target. A query about a conjugacy asks whether two automata do this in both directions and are inverse to each
//! other. A query of either kind consists of questions, each about one pair: do the two automata of the pair agree at every
//! position of each configuration that obeys a rule? The rule is the question's premise. The question's goal, which may hold at
//! a position, is that the automata differ there (see `dd_boxes`). The pairs are made when the query is read. The query is
//! refused if a pair exceeds a limit on instances, reach or depth (see `Limit` of `dd_faults`), or if the question about a pair
//! takes too many clauses (see `dd_question`). The pairs are made again when the query is answered, and when an answer to it is
//! checked.
#![tactic(auto)]

mod comparisons;
mod pair;
mod pairs;

pub use pair::{Pair, conjugacy, limit_of};
pub use pairs::{asks_pairs, pairs_of};
