//! Fillings and periodic configurations, their weights, and what it means to read them. Each position of Z^d, where d is 1, 2
//! or 3, has one or more nodes, numbered from 0. Positions are written with three coordinates. A cell is a position together
//! with one of its nodes. Cell order is by z, then y, then x, then the node. A filling gives a symbol to each of finitely many
//! cells. A periodic configuration gives a symbol to every cell of Z^d, and repeats along its period vectors `(x, 0, 0)`,
//! `(shear, y, 0)` and `(0, 0, z)`. The numbers `x`, `y` and `z` are its periods, and `shear` is its shear. The unused axes are
//! those after the first d, and their periods are 1. The fundamental box is the box that repeats: on each axis the coordinates
//! run from 0 to the period minus 1. Its cells are all cells at its positions.
#![tactic(auto)]

mod filling;
mod periodic;
mod periods;
mod reading;
mod weight;

pub use filling::Filling;
pub use periodic::Periodic;
pub use periods::Periods;
pub use reading::{Configuration, Reads};
pub use weight::weight_of;
