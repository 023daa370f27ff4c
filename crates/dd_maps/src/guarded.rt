//! The guarded formula of a rule. It says that the rule is true at the cell, and that the cell's symbol is one that its node
//! allows.
ghost use Rattle.std.specs.Prelude.{◌≡◌, ◌<◌, ◌≤◌, length, map, IfOk};
ghost use Rattle.dd_formula.specs.LocalRule.{IsRule};
ghost use Rattle.dd_maps.specs.Guarded.{here, symbol_is, guard, allows_all, guarded_nodes};
ghost use Rattle.dd_maps.specs.Pairs.{guarded_of};

use dd_formula::{Formula, Rule, Term};
use dd_topology::Sets;
use dd_values::{Boxed, Items};
use std::alloc::{AllocError, Global};

/// The term that names the cell at which a formula is evaluated.
fn here(alloc: Global) -> Term
    ensures { result ≡ here }
{
    Term {
        variable: 0,
        moves: Items::new(alloc),
    }
}

/// The formula which says that the cell has this symbol. The call allocates nothing.
pub(crate) fn symbol_is(alloc: Global, symbol: u32) -> Formula
    ensures { result ≡ symbol_is symbol }
{
    let term = here(alloc);
    Formula::Symbol { term, symbol }
}

/// The formula which says that the cell isn't at this node.
fn other_node(alloc: Global, node: u32) -> Result<Formula, AllocError>
    ensures { IfOk result (λ f. f ≡ Formula.Not (Formula.Node here node)) }
{
    let term = here(alloc);
    let inner = Boxed::new(alloc, Formula::Node { term, node })?;
    Ok(Formula::Not(inner))
}

/// Whether the node allows every symbol.
fn allows_all(sets: &Sets, node: u32) -> bool
    requires { node < length sets.now.allowed }
    ensures { result ≡ allows_all sets.now node }
{
    for symbol in 0..sets.symbols() {
        if !sets.allows(node, symbol) {
            return false;
        }
    }
    true
}

/// The guard of a node. It is the formula which says that the cell isn't at this node, or has a symbol that the node allows.
fn guard(alloc: Global, sets: &Sets, node: u32) -> Result<Formula, AllocError>
    requires { node < length sets.now.allowed }
    ensures { IfOk result (λ f. f ≡ guard sets.now node) }
{
    let mut parts = Items::new(alloc);
    parts.push(other_node(alloc, node)?)?;
    for symbol in 0..sets.symbols() {
        if sets.allows(node, symbol) {
            parts.push(symbol_is(alloc, symbol))?;
        }
    }
    Ok(Formula::Or(parts))
}

/// The guards of the nodes that don't allow every symbol, among the first `nodes` nodes.
fn guards(alloc: Global, sets: &Sets, nodes: u32) -> Result<Vec<Formula>, AllocError>
    requires { nodes ≤ length sets.now.allowed }
    ensures { IfOk result (λ guards. guards.items ≡ map (guard sets.now) (guarded_nodes sets.now nodes)) }
{
    let mut guards = Vec::new(alloc);
    for node in 0..nodes {
        if !allows_all(sets, node) {
            guards.push(guard(alloc, sets, node)?)?;
        }
    }
    Ok(guards)
}

/// The guarded formula of a rule: the conjunction of the rule's formula and the guards. If every node allows all symbols, there
/// are no guards, and the guarded formula is the rule's own.
pub(crate) fn guarded(alloc: Global, sets: &Sets, rule: &Rule) -> Result<Formula, AllocError>
    requires { rule.now.nodes ≤ length sets.now.allowed }
    ensures value { IfOk result (λ f. f ≡ guarded_of sets.now rule.now) }
    ensures kept { IsRule rule.now }
{
    let mut parts = guards(alloc, sets, rule.nodes())?;
    let formula = rule.formula().copy(alloc)?;
    if parts.is_empty() {
        return Ok(formula);
    }
    parts.insert(0, formula)?;
    Ok(Formula::And(Items::from_vec(parts)))
}
