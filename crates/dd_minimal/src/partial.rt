//! Patterns, which may leave cells out.

use dd_values::Items;

/// A pattern: a symbol for each cell that a rule reads at a node, or none if the cell is left out.
#[derive(Debug, Drop)]
pub struct Partial {
    /// The number of the node.
    pub node: u32,
    /// One entry for each cell that is read at the node, in cell order.
    pub symbols: Items<Option<u32>>,
}
