//! Formulas over a list of symbols, without variables.

use dd_values::{Boxed, Items};

/// A formula over a list of symbols. It is like an expansion, but with indices into the list in place of cells.
#[derive(Debug, Drop)]
pub enum Numbered {
    /// True or false.
    Constant(bool),
    /// The list has this symbol at the index `number`. This is false if the index is past the end of the list.
    Leaf { number: usize, symbol: u32 },
    /// The inner formula is false.
    Not(Boxed<Numbered>),
    /// All parts are true. The formula is true if it has no parts.
    And(Items<Numbered>),
    /// Some part is true. The formula is false if it has no parts.
    Or(Items<Numbered>),
    /// Both parts are true or both are false.
    Iff(Boxed<Numbered>, Boxed<Numbered>),
}
