//! Cellular automata on periodic configurations: images, and whether two automata differ at the origin. Each position of Z^d
//! has one or more nodes. A cell is a position together with one of its nodes. The value of an automaton at a cell is the
//! symbol that it gives the cell. The image of a configuration has at each cell the automaton's value there. A rule is a
//! formula that is true or false at each cell of a configuration. An automaton given by cases has a list of cases, each of
//! them a rule with a symbol. Its value is the symbol of the first case whose rule is true at the cell, or else a default
//! symbol. Any other automaton is the composition of an outer and an inner automaton. It applies the outer automaton to the
//! image under the inner automaton.
//!
//! An automaton is well formed over a dimension, a number of nodes and an alphabet if all of these hold: there is at least one
//! node; all rules in the automaton have this dimension, number of nodes and alphabet; all symbols of its cases and all its
//! default symbols are in the alphabet; and the automaton and all its parts are within the limits that `dd_formula` sets.
//!
//! A periodic configuration repeats along the vectors `(x, 0, 0)`, `(shear, y, 0)` and `(0, 0, z)`. The numbers `x`, `y` and
//! `z` are its periods, and `shear` is its shear. Its fundamental box is the box that repeats. On each axis the coordinates in
//! the box run from 0 to the period minus 1.
#![tactic(auto)]

mod differing;
mod image;

pub use differing::differ_at_origin;
pub use image::apply;
