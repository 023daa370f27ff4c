//! Boolean circuits: inputs, and gates over the inputs and over earlier gates. Each input and each gate has a variable. A
//! signal is a variable or its opposite (its negation). A gate combines signals, its members.
#![tactic(auto)]

mod evaluation;
mod gates;

pub use gates::{Circuit, Gate, Signal};
