//! The limits on the work of a question.

/// Which limit on the work of a question is exceeded.
#[derive(Clone, Copy, Debug, PartialEq, Eq)]
pub enum Excess {
    /// An upper bound for the number of clauses of a search is over 2,000,000. For a box question, the bound is for the
    /// largest box or torus that a search may try. An equality or a conjugacy exceeds the limit if one of its box questions
    /// does. For a least weight, the clauses say that a configuration of the torus obeys the rule, and that its fundamental
    /// box weighs less than M. Here M is the number of the box's cells times the greatest weight in the question.
    Clauses,
    /// At some node, the cells that the rule reads have more than 65,536 fillings over the whole alphabet. The patterns that
    /// the rule forbids at the node are among them.
    Patterns,
    /// The rule's transfer graph over the strip has more than 4,096 states, or there are more than 131,072 windows. A slice
    /// consists of the strip's cells with one value of x. The vertices of the graph are states. A state is a filling of a fixed
    /// number of successive slices, over the whole alphabet. This number depends on how far the rule reads along x. A window is
    /// like a state, but has one more slice. Each edge of the graph is a window.
    States,
}
