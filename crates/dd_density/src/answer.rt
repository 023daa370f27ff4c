//! The answer to the question of the least density of a strip.

use dd_values::Items;

/// The least density of the configurations that live on a strip, or the answer that there are no such configurations.
#[derive(Debug, Drop)]
pub enum Density {
    /// The density in lowest terms, as weight per position, with its certificate.
    Least {
        numerator: u64,
        denominator: u64,
        /// The states of a closed walk of this density, which is the walk's mean divided by the number of positions in a
        /// slice. Each state has an edge to the next, and the last has an edge to the first.
        walk: Items<u64>,
        /// A potential for each state of the transfer graph. The potentials show that no closed walk has a smaller density.
        potentials: Items<i64>,
    },
    /// No configuration lives on the strip.
    Empty {
        /// A rank for each state of the transfer graph. The rank falls along each edge, so no walk is infinite.
        ranks: Items<u64>,
    },
}
