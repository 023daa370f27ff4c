//! Facts for proofs: each cell that an automaton reads has a position in Z^d and one of the nodes of the automaton's rules.
//! Here d is the dimension of the rules.
ghost use Rattle.dd_formula.specs.Values.{CasesArePlaced, IsPlaced};

use crate::automaton::{Automaton, Cases};

impl Cases {
    /// Does nothing. Its contract says that each cell that the rules of the cases read has a position in Z^d and one of the
    /// rules' nodes.
    pub fn reads_are_placed(&self)
        ensures { CasesArePlaced self.now }
    {
        for (rule, _) in self.cases.as_slice() {
            // This call tells the proof that the rule reads only cells with a position in Z^d and one of the rule's nodes.
            let _nodes = rule.nodes();
        }
    }
}

impl Automaton {
    /// Does nothing. Its contract says that each cell that the automaton reads has a position in Z^d and one of the nodes of
    /// the automaton's rules.
    pub fn reads_are_placed(&self)
        ensures { IsPlaced self.now }
    {
        match self {
            Automaton::Given(cases) => cases.reads_are_placed(),
            Automaton::Composed(outer, inner) => {
                outer.get().reads_are_placed();
                inner.get().reads_are_placed();
            }
        }
    }
}
