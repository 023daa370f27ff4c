//! Rules. A rule has a formula over a topology and an alphabet. For each node it stores the formula's expansion, which is the
//! formula without variables, and the cells that the rule reads.
ghost use Rattle.std.specs.Prelude.{◌≡◌, ◌<◌, ◌≤◌, length, IfOk, IfErr, OnOk, if◌then◌else◌, Some, None};
ghost use Rattle.dd_lattice.specs.Place.{Place};
ghost use Rattle.dd_lattice.specs.Cells.{shifted, cell as at_node};
ghost use Rattle.dd_lattice.specs.InOrder.{in_order};
ghost use Rattle.dd_pattern.specs.Reading.{Look, HasSymbolsBelow};
ghost use Rattle.dd_expansion.specs.Limits.{IsFormula};
ghost use Rattle.dd_expansion.specs.Leaves.{holds, given, seen, clause_count, leaf_cells};
ghost use Rattle.dd_formula.specs.LocalRule.{local_rule, rule_allows, expansion_at, cells_at, is_true, is_given, IsRule};
ghost use Rattle.dd_formula.specs.Allowed.{AreAllowed};
ghost use Rattle.dd_formula.specs.Refusals.{IsRuleRefusal};

use crate::fault::RuleFault;
use crate::making::{Parts, copy_expansions, copy_reads, parts_of};
use dd_expansion::{Expanded, Formula};
use dd_lattice::Cell;
use dd_pattern::Reads;
use dd_topology::{Edge, Sets, Topology};
use dd_values::Items;
use std::alloc::{AllocError, Global};
use std::marker::Model;

/// A local rule. A configuration obeys it if the rule's formula is true at every cell. Each position has 1 to 4 nodes, and a
/// cell is a position together with one of its nodes. Each cell has a symbol of the alphabet, which has 1 to 16 symbols. At
/// each node the rule has an expansion: its formula without variables. The expansion is a tree of constants, leaves and
/// connectives, which are called its instances. There are at most 20,000 of them. A leaf says that a cell has a certain symbol.
/// The rule reads no cell that lies more than 16 away along an axis.
#[derive(Debug, Drop)]
pub struct Rule {
    dim: u32,
    nodes: u32,
    sets: Sets,
    edges: Items<Edge>,
    formula: Formula,
    expansions: Items<Expanded>,
    reads: Items<Items<Cell>>,
}

impl Model for Rule {
    ghost use Rattle.dd_formula.specs.LocalRule.{LocalRule, kept_rule, IsExpanded};
    ghost use Rattle.dd_expansion.specs.contracts.formulas.Formula as formula_type;
    ghost use Rattle.std.specs.Coded.{codes};

    ghost Value = { LocalRule };

    ghost coded = { Prim.hlevel (codes, formula_type.the_row.coded) };

    ghost view = { λ r. kept_rule r.dim r.nodes r.sets r.edges r.formula };

    ghost invariant = { λ r. IsExpanded (kept_rule r.dim r.nodes r.sets r.edges r.formula) r.expansions r.reads };
}

impl Rule {
    /// The rule with this formula over this topology. `sets` says which symbols of the alphabet each node allows.
    ///
    /// # Errors
    /// `Instances` if the expansion at some node has more than 20,000 instances; else `Reach` if the rule reads a cell that
    /// lies more than 16 away along an axis. `Memory` if memory ran out.
    pub fn new(
        alloc: Global,
        topology: &Topology,
        sets: &Sets,
        formula: Formula,
    ) -> Result<Rule, RuleFault>
        requires nodes { topology.now.nodes ≤ 4 }
        requires sets { length sets.now.allowed ≡ topology.now.nodes }
        requires symbols { sets.now.symbols ≤ 16 }
        requires formula { IsFormula topology.now sets.now.symbols formula }
        ensures ok { IfOk result (λ rule. rule ≡ local_rule topology.now sets.now formula) }
        ensures rule { OnOk result (IsRule (local_rule topology.now sets.now formula)) }
        ensures err { IfErr result (IsRuleRefusal (local_rule topology.now sets.now formula)) }
    {
        let Parts {
            sets,
            edges,
            expansions,
            reads,
        } = parts_of(alloc, topology, sets, &formula)?;
        Ok(Rule {
            dim: topology.dim(),
            nodes: topology.nodes(),
            sets,
            edges,
            formula,
            expansions,
            reads,
        })
    }

    /// A copy.
    pub fn copy(&self, alloc: Global) -> Result<Rule, AllocError>
        ensures { IfOk result (λ copy. copy ≡ self.now) }
    {
        let sets = self.sets.copy(alloc)?;
        let edges = Items::from_slice(alloc, self.edges.as_slice())?;
        let expansions = copy_expansions(alloc, self.expansions.as_slice())?;
        let reads = copy_reads(alloc, self.reads.as_slice())?;
        let formula = self.formula.copy(alloc)?;
        Ok(Rule {
            dim: self.dim,
            nodes: self.nodes,
            sets,
            edges,
            formula,
            expansions,
            reads,
        })
    }

    /// The dimension, 1 to 3.
    pub fn dim(&self) -> u32
        ensures { result ≡ self.now.dimension }
    {
        self.dim
    }

    /// The number of nodes of a position, 1 to 4.
    pub fn nodes(&self) -> u32
        ensures value { result ≡ self.now.nodes }
        ensures kept { IsRule self.now }
    {
        self.nodes
    }

    /// The size of the alphabet, 1 to 16. Each symbol that a node allows is less than this size.
    pub fn symbols(&self) -> u32
        ensures value { result ≡ self.now.symbols }
        ensures kept { IsRule self.now }
        ensures allowed { (look : Look) → AreAllowed self.now look → HasSymbolsBelow self.now.symbols look }
    {
        self.sets.symbols()
    }

    /// Whether the node allows the symbol.
    pub fn allows(&self, node: u32, symbol: u32) -> bool
        requires { node < self.now.nodes }
        ensures value { result ≡ rule_allows self.now node symbol }
        ensures kept { IsRule self.now }
    {
        self.sets.allows(node, symbol)
    }

    /// The formula that the rule was made from.
    pub fn formula(&self) -> &Formula
        ensures { result.now ≡ self.now.formula }
    {
        &self.formula
    }

    /// The rule's expansion at this node: its formula at a cell with this node, without variables. The cells in the expansion's
    /// leaves are relative to that cell's position.
    pub fn expansion(&self, node: u32) -> &Expanded
        requires { node < self.now.nodes }
        ensures value { result.now ≡ expansion_at self.now node }
        ensures truth { (look : Look) → HasSymbolsBelow self.now.symbols look → (v : Place) →
            holds result.now (λ c. look (shifted v c)) ≡ is_true self.now (at_node v node) look }
        ensures cells { in_order (leaf_cells result.now) ≡ cells_at self.now node }
        ensures kept { IsRule self.now }
    {
        &self.expansions[node as usize]
    }

    /// The cells that the rule reads at this node of the origin, in cell order, each once.
    pub fn reads(&self, node: u32) -> &[Cell]
        requires { node < self.now.nodes }
        ensures value { result.now ≡ cells_at self.now node }
        ensures kept { IsRule self.now }
    {
        self.reads[node as usize].as_slice()
    }

    /// The number of clauses that encode the gates of the expansion at a node. The gates are the expansion's constants,
    /// conjunctions, disjunctions and equivalences.
    pub fn clause_count(&self, node: u32) -> u64
        requires { node < self.now.nodes }
        ensures { result ≡ clause_count (expansion_at self.now node) }
    {
        self.expansion(node).clause_count()
    }
}

impl Rule {
    /// Whether the expansion is true at a cell. The cells in its leaves are moved by this cell's position. `None` if one of the
    /// moved cells has no symbol or lies outside the range of positions.
    fn truth_of_expansion<R: Reads>(&self, at: &Cell, read: &R) -> Option<bool>
        requires { at.now.node < self.now.nodes }
        ensures value { let look = seen (R.symbols read.now) at.now.position in
            let e = expansion_at self.now at.now.node in
            result ≡ (if given e look then Some (holds e look) else None) }
        ensures kept { IsRule self.now }
    {
        self.expansion(at.node).evaluate(&at.position, read)
    }

    /// Whether the formula is true at a cell. `None` if some cell that the rule reads there has no symbol or lies outside the
    /// range of positions. All symbols that `read` gives must be in the alphabet. Allocates nothing.
    pub fn truth<R: Reads>(&self, at: &Cell, read: &R) -> Option<bool>
        requires node { at.now.node < self.now.nodes }
        requires symbols { HasSymbolsBelow self.now.symbols (R.symbols read.now) }
        ensures value { let look = R.symbols read.now in
            result ≡ (if is_given self.now at.now look then Some (is_true self.now at.now look) else None) }
        ensures kept { IsRule self.now }
    {
        self.truth_of_expansion(at, read)
    }
}
