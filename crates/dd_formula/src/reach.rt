//! How far rules and automata read.
ghost use Rattle.std.specs.Prelude.{◌≡◌, ◌≤◌, IfOk};
ghost use Rattle.dd_topology.specs.Topology.{extent};
ghost use Rattle.dd_formula.specs.LocalRule.{IsRule};
ghost use Rattle.dd_formula.specs.Automata.{CommonNumbers, IsAutomaton, HasNodes};
ghost use Rattle.dd_formula.specs.Reach.{farthest, reach, automaton_reach};

use crate::automaton::Automaton;
use crate::rule::Rule;
use dd_lattice::{Cell, Position};
use std::alloc::{AllocError, Global};

/// The greatest absolute value among the coordinates of the position.
pub(crate) fn extent(position: &Position) -> u32
    ensures { result ≡ extent position.now }
{
    let along_y_and_z = position.y.unsigned_abs().max(position.z.unsigned_abs());
    position.x.unsigned_abs().max(along_y_and_z)
}

/// How far the farthest of the cells lies from the origin: the greatest distance along any axis. 0 if there is no cell.
pub fn farthest(cells: &[Cell]) -> u32
    ensures { result ≡ farthest cells.now }
{
    let mut greatest = 0;
    for cell in cells {
        greatest = greatest.max(extent(&cell.position));
    }
    greatest
}

impl Rule {
    /// How far away the rule reads cells when it is evaluated at the origin: the greatest distance along any axis, over all
    /// nodes. 0 if it reads no cell. Allocates nothing.
    pub fn reach(&self) -> u32
        ensures value { result ≡ reach self.now }
        ensures near { result ≤ 16 }
        ensures kept { IsRule self.now }
    {
        let mut radius = 0;
        for node in 0..self.nodes() {
            radius = radius.max(farthest(self.reads(node)));
        }
        radius
    }
}

impl Automaton {
    /// How far away the automaton reads cells when it is evaluated at the origin: the greatest distance along any axis, over
    /// the first `nodes` nodes. 0 if it reads no cell there. The rules of the automaton must have at least that many nodes.
    pub fn reach_at(&self, alloc: Global, nodes: u32) -> Result<u32, AllocError>
        requires { HasNodes self.now nodes }
        ensures value { IfOk result (λ n. n ≡ automaton_reach nodes self.now) }
        ensures near { IfOk result (λ n. n ≤ 16) }
    {
        let mut radius = 0;
        for node in 0..nodes {
            radius = radius.max(farthest(&self.reads(alloc, node)?));
        }
        Ok(radius)
    }

    /// How far away the automaton reads cells when it is evaluated at the origin: the greatest distance along any axis, over
    /// all nodes. 0 if it reads no cell, as when it has no rule.
    pub fn reach(&self, alloc: Global) -> Result<u32, AllocError>
        requires { (s : CommonNumbers) × IsAutomaton s self.now }
        ensures value { IfOk result (λ n. (s : CommonNumbers) → IsAutomaton s self.now → n ≡ automaton_reach s.nodes self.now) }
        ensures near { IfOk result (λ n. n ≤ 16) }
    {
        match self.nodes() {
            Some(nodes) => self.reach_at(alloc, nodes),
            None => Ok(0),
        }
    }
}
