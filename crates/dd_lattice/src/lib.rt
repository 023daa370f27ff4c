//! Positions and cells of the lattice Z^d for d = 1, 2, 3, their order, and boxes and regions of positions. Each position has
//! one or more nodes, which are numbered from 0. A cell is a position together with one of its nodes. Cell order is by z, then
//! y, then x, then the node. A box consists of all positions whose coordinates lie between two bounds on each axis. A region is
//! a finite set of positions.
#![tactic(auto, using(std::proofs::lemmas::Grind::common_steps))]

mod bounds;
mod fault;
mod growing;
mod merging;
mod ordering;
mod position;
mod region;

pub use bounds::{Box3, centred_box};
pub use fault::LatticeFault;
pub use ordering::{in_order, listed};
pub use position::{Cell, Position, shift};
pub use region::{Region, positions};
