//! Tests that need several crates at once. All but the one in `inputs` parse scripts. The tests compare results with each
//! other or with results worked out by hand. They are about the truth of rules, the values of automata, the images of
//! configurations, lists of minimal patterns, circuits, clauses, and bounds on the number of clauses.
//!
//! Each position of the lattice has one or more nodes. A cell is a position together with one of its nodes. Labelled edges lead
//! from cells to cells, and the move `x` follows the edge labelled `x`. If no such edge leaves a node, an atom such as `o.x=1`
//! is false there. Cells are listed in cell order: by z, then y, then x, then the node.
//!
//! A filling gives a symbol to each cell of a list. A rule reads the cells whose symbols its formula looks at. A box question
//! has a premise, which is a rule, and a goal. It asks whether no configuration that obeys the premise has the goal. There are
//! three kinds of goal: that a given rule is false at some node of the origin, that two automata differ at some node of the
//! origin, and `Always`, which holds in every configuration. A filling of a box is admissible if the premise is true at each
//! cell of the box at which it reads only cells of the box.
//!
//! A circuit has a variable for each input and each gate. A signal is a variable or its negation. The inputs of a cell are
//! signals that say which symbol the cell has, one for each symbol.
#![tactic(auto)]

#[cfg(test)]
mod automata;
#[cfg(test)]
mod boxes;
#[cfg(test)]
mod clauses;
#[cfg(test)]
mod fillings;
#[cfg(test)]
mod hexagons;
#[cfg(test)]
mod images;
#[cfg(test)]
mod inputs;
#[cfg(test)]
mod minimal;
#[cfg(test)]
mod questions;
#[cfg(test)]
mod scripts;
#[cfg(test)]
mod signals;
