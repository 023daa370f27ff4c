//! Engines that propose an outcome for a clause list. An outcome is an assignment that satisfies the list, or a refutation: a
//! list of steps that derive the empty clause. A proposal is right if it does satisfy or refute the list. An engine may count
//! as sound. If it does, all its proposals are right. A roster asks the engines in turn and checks what they propose.
//!
//! There are two engines here. `Propagator` uses only unit propagation. `Walker` tries the assignments of a walk. The walk
//! starts with all variables false, and then makes flips. Each flip takes the first clause without a true literal, picks one of
//! the clause's literals, and makes this literal true by changing the value of one variable. Both engines use chains: the chain
//! of a literal lists the clauses that contain the literal. A literal is in range if its variable is one of the clause list's
//! variables 1 to n.
#![tactic(auto, using(std::proofs::lemmas::Grind::common_steps))]

mod analysis;
mod chains;
mod cycle;
mod engine;
mod laws;
mod propagation;
mod propagator;
mod roster;
mod tally;
mod truths;
mod walk;
mod walker;

pub use engine::{Engine, Proposal};
pub use laws::{
    first_asked_earlier, first_asked_keeps, first_is_not_skipped, kept_is_reflexive,
    kept_is_transitive, rounds_keep, walk_repeats,
};
pub use propagator::Propagator;
pub use roster::Roster;
pub use tally::Tally;
pub use walker::Walker;
