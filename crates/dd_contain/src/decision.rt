//! The answer to a box question.
use dd_derivation::Step;
use dd_pattern::Periodic;
use dd_values::Items;

/// A radius that suffices, with steps that refute the clauses of its box. A radius suffices if no admissible filling of its box
/// has the goal at the origin.
#[derive(Debug, Drop)]
pub struct Enough {
    pub radius: u32,
    pub steps: Items<Step>,
}

/// The answer to a box question: whether no configuration that obeys the premise has the goal at any position.
#[derive(Debug, Drop)]
pub enum Decision {
    /// No configuration that obeys the premise has the goal. `radius` is the least radius tried that suffices, and `steps`
    /// refute the clauses of its box.
    Yes { radius: u32, steps: Items<Step> },
    /// The configuration `periodic` obeys the premise and has the goal at the origin. Its periods and shear come first among
    /// those of all such configurations within the limits, in the order that `decide` states.
    No { periodic: Periodic },
    /// The search found neither such a radius nor such a configuration within the limits.
    Unknown,
}
