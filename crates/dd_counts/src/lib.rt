//! How much work a question about a rule or about automata takes: the number of clauses that encode it, the number of the
//! rule's patterns, the number of states of its transfer graph, and the number of windows. A rule is a formula that is true or
//! false at each cell of a configuration. Each position of Z^d has one or more nodes, and a cell is a position together with
//! one of its nodes. A node may allow only some symbols. (The module `rules` says what patterns, transfer graphs and windows
//! are.) A call with a `limit` cuts its count off: if the count is greater than `limit`, the call returns `limit + 1`. Each
//! limit must be below 2^31.
#![tactic(auto)]

mod clauses;
mod rules;
mod values;

pub use clauses::{broken_clauses, place_clauses, question_clauses};
pub use rules::{
    MOST_PATTERNS, MOST_STATES, MOST_WINDOWS, least_x, patterns, state_length, states, window_count,
};
pub use values::differ_clauses;
