//! Whether a periodic configuration lives in a rule's subshift, that is, whether the rule is true at each of the
//! configuration's cells.
ghost use Rattle.dd_formula.specs.Living.{Fits, IsMembership};

use crate::rule::Rule;
use dd_lattice::Cell;
use dd_pattern::Periodic;

/// Whether a periodic configuration lives in a rule's subshift.
#[derive(Debug, Clone, Copy, PartialEq, Eq)]
pub enum Membership {
    /// The rule is true at each cell.
    Inside,
    /// The rule is false at this cell of the fundamental box. It is the first such cell in cell order.
    Outside(Cell),
}

impl Rule {
    /// Whether the configuration lives in the rule's subshift, that is, whether the rule is true at each cell. Tests the cells
    /// of the configuration's fundamental box in cell order. The configuration must fit the rule (see `fits`). Allocates
    /// nothing.
    pub fn member(&self, periodic: &Periodic) -> Membership
        requires { Fits self.now periodic.now }
        ensures { IsMembership self.now periodic.now result }
    {
        for number in 0..periodic.symbols().len() {
            let cell = periodic.cell_at(number);
            match self.truth(&cell, periodic) {
                Some(true) => {}
                Some(false) => return Membership::Outside(cell),
                None => unreachable!(),
            }
        }
        Membership::Inside
    }
}
