//! The breaking fillings of a rule at a node of the origin. Each position of Z^d has one or more nodes. A cell is a position
//! together with one of its nodes. A rule is a formula about a cell and the cells near it. A rule reads the cells whose
//! symbols it looks up. At each node it reads finitely many cells. A rule may allow only some symbols at a node. A filling
//! gives a symbol of the alphabet to each cell that the rule reads at the node. It is a breaking filling if all these symbols
//! are allowed and the rule is false under them. Cells are listed in cell order: by z, then y, then x, then the node. The
//! rule's expansion at a node is its formula there, with all quantifiers written out.
#![tactic(auto)]

mod breaking;
mod fault;
mod laws;
mod search;
mod size;

pub use breaking::forbidden;
pub use fault::ForbiddenFault;
pub use laws::{known_symbols, one_list, short_list};
