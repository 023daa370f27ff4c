//! Strips and their slices, and which strips and weights a question about a rule may name. Each position of Z^d has one or
//! more nodes. A cell is a position together with one of its nodes. A strip has periods along y and z, and no end along x. A
//! slice consists of the strip's cells with one value of x.
#![tactic(auto)]

mod strip;

pub use strip::Strip;
