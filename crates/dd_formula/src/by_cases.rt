//! Automata that are given by cases, made from formulas. The instances of all cases are counted before any rule is made. So if
//! an automaton has too many instances and also reads a cell that lies too far away, the fault is that it has too many
//! instances.
ghost use Rattle.std.specs.Prelude.{◌≡◌, ◌+◌, ◌<◌, ◌≤◌, length, map, true, IfOk, IfErr, OnOk};
ghost use Rattle.std.specs.List.{All};
ghost use Rattle.dd_expansion.specs.Leaves.{instances};
ghost use Rattle.dd_expansion.specs.Limits.{IsFormula};
ghost use Rattle.dd_formula.specs.Counts.{cut};
ghost use Rattle.dd_formula.specs.LocalRule.{local_rule, expansion_at, most_instances};
ghost use Rattle.dd_formula.specs.Automata.{IsAutomaton, counted, is_few};
ghost use Rattle.dd_formula.specs.ByCases.{numbers_over, case_over, by_cases, counts_over, IsCaseOver, IsCasesRefusal};

use crate::automaton::{Automaton, Cases};
use crate::counts::plus;
use crate::fault::RuleFault;
use crate::making::MOST_INSTANCES;
use crate::rule::Rule;
use dd_expansion::{ExpansionFault, Formula, expand};
use dd_topology::{Sets, Topology};
use dd_values::Items;
use std::alloc::{AllocError, Global};

impl Automaton {
    /// The automaton that gives each cell the symbol of the first case whose formula is true there, or `otherwise` if there is
    /// no such case.
    ///
    /// # Errors
    /// `Instances` if the automaton has more than 20,000 instances at some node; else `Reach` if a case reads a cell that lies
    /// more than 16 away along an axis. `Memory` if memory ran out.
    pub fn by_cases(
        alloc: Global,
        topology: &Topology,
        sets: &Sets,
        cases: &[(Formula, u32)],
        otherwise: u32,
    ) -> Result<Automaton, RuleFault>
        requires nodes { topology.now.nodes ≤ 4 }
        requires sets { length sets.now.allowed ≡ topology.now.nodes }
        requires symbols { sets.now.symbols ≤ 16 }
        requires cases { All (IsCaseOver topology.now sets.now) cases.now }
        requires otherwise { otherwise < sets.now.symbols }
        ensures ok { IfOk result (λ f. f ≡ by_cases topology.now sets.now cases.now otherwise) }
        ensures formed { OnOk result (IsAutomaton (numbers_over topology.now sets.now) (by_cases topology.now sets.now cases.now otherwise)) }
        ensures fault { IfErr result (IsCasesRefusal topology.now.nodes (counted (by_cases topology.now sets.now cases.now otherwise))) }
    {
        if !has_few(alloc, topology, sets, cases)? {
            return Err(RuleFault::Instances);
        }
        let cases = rules_of(alloc, topology, sets, cases)?;
        match Automaton::given(Cases { cases, otherwise }, topology.nodes()) {
            Ok(automaton) => Ok(automaton),
            Err(_) => Err(RuleFault::Instances),
        }
    }
}

/// The number of instances of the formula's expansion at a node, or `MOST_INSTANCES + 1` if there are more than
/// `MOST_INSTANCES`.
fn size_at(
    alloc: Global,
    topology: &Topology,
    sets: &Sets,
    formula: &Formula,
    node: u32,
) -> Result<u32, AllocError>
    requires { IsFormula topology.now sets.now.symbols formula.now }
    ensures { IfOk result (λ n. n ≡ cut most_instances (instances (expansion_at (local_rule topology.now sets.now formula.now) node))) }
{
    let symbols = sets.symbols();
    match expand(alloc, topology, symbols, formula, node, MOST_INSTANCES) {
        Ok(expansion) => Ok(expansion.instances()),
        Err(ExpansionFault::Instances) => Ok(MOST_INSTANCES + 1),
        Err(ExpansionFault::Memory) => Err(AllocError),
    }
}

/// The number of instances that the automaton with these cases has at a node, or `MOST_INSTANCES + 1` if there are more than
/// `MOST_INSTANCES`. Once there are more, no further case is expanded.
fn instances_at(
    alloc: Global,
    topology: &Topology,
    sets: &Sets,
    cases: &[(Formula, u32)],
    node: u32,
) -> Result<u32, AllocError>
    requires { All (IsCaseOver topology.now sets.now) cases.now }
    ensures { IfOk result (λ n. n ≡ cut most_instances ((counts_over topology.now sets.now cases.now).instances node)) }
{
    let mut sum = 1;
    for (formula, _) in cases {
        if sum <= MOST_INSTANCES {
            let size = size_at(alloc, topology, sets, formula, node)?;
            sum = plus(MOST_INSTANCES, sum, size + 1);
        }
    }
    Ok(sum)
}

/// Whether the automaton with these cases has at most `MOST_INSTANCES` instances at each node.
fn has_few(
    alloc: Global,
    topology: &Topology,
    sets: &Sets,
    cases: &[(Formula, u32)],
) -> Result<bool, AllocError>
    requires { All (IsCaseOver topology.now sets.now) cases.now }
    ensures { IfOk result (λ few. few ≡ is_few topology.now.nodes (counts_over topology.now sets.now cases.now)) }
{
    for node in 0..topology.nodes() {
        if instances_at(alloc, topology, sets, cases, node)? > MOST_INSTANCES {
            return Ok(false);
        }
    }
    Ok(true)
}

/// The rules made from the formulas of the cases, each with the symbol of its case. The fault is `Reach` if one of them reads a
/// cell that lies too far away.
fn rules_of(
    alloc: Global,
    topology: &Topology,
    sets: &Sets,
    cases: &[(Formula, u32)],
) -> Result<Items<(Rule, u32)>, RuleFault>
    requires nodes { topology.now.nodes ≤ 4 }
    requires sets { length sets.now.allowed ≡ topology.now.nodes }
    requires symbols { sets.now.symbols ≤ 16 }
    requires cases { All (IsCaseOver topology.now sets.now) cases.now }
    requires few { is_few topology.now.nodes (counts_over topology.now sets.now cases.now) ≡ true }
    ensures ok { IfOk result (λ rules. rules ≡ map (case_over topology.now sets.now) cases.now) }
    ensures fault { IfErr result (IsCasesRefusal topology.now.nodes (counts_over topology.now sets.now cases.now)) }
{
    let mut rules = Items::new(alloc);
    for (formula, symbol) in cases {
        let rule = Rule::new(alloc, topology, sets, formula.copy(alloc)?)?;
        rules.push((rule, *symbol))?;
    }
    Ok(rules)
}
