//! The search for a living configuration of least weight. It begins with any living configuration, which may be one with the
//! same symbol at all cells. A local search replaces it by a lighter configuration, if it can. Then several searches follow.
//! Each of them asks for a configuration that is lighter than the last one found. The last one found has the least weight if
//! it weighs 0, or if a refutation shows that none is lighter. While the weight may still be far above the least weight, a
//! search asks for a much lighter configuration, so that few searches are needed.
ghost use Rattle.std.specs.Prelude.{◌≡◌, ◌≤◌, ◌*◌, ◌↔◌, length, All, IfOk};
ghost use Rattle.dd_values.specs.Bounds.{most_weight};
ghost use Rattle.dd_pattern.specs.Periods.{periods_of, periods_volume};
ghost use Rattle.dd_boxes.specs.Counts.{most_clauses};
ghost use Rattle.dd_boxes.specs.TorusPeriods.{AreTorusPeriods};
ghost use Rattle.dd_solver.specs.Answers.{IsAnswer, IsRefuted, IsSatisfiable};
ghost use Rattle.dd_counter.specs.Weights.{weight_count};
ghost use Rattle.dd_counter.specs.Least.{greatest, IsLiving, IsLeast};
ghost use Rattle.dd_counter.specs.searching.Lighter.{IsLighter};

use crate::living::{constant_living, living};
use crate::local_search::LocalSearch;
use crate::torus_rule::TorusRule;
use crate::weights::weight_clauses;
use dd_clause::Cnf;
use dd_derivation::{Outcome, Step, last_number};
use dd_elimination::solve_reduced;
use dd_formula::Rule;
use dd_pattern::Periodic;
use dd_problem::read_torus;
use dd_solver::{solve, trimmed};
use dd_values::Items;
use std::alloc::{AllocError, Global};

/// The local search is left out if the rule's encoding has more clauses than this at all cells of the torus together (see
/// `torus_rule`).
const MOST_LOCAL_CLAUSES: u64 = 200_000;

/// The first `step` of the descent (see `descended`). The descent ends once the weight is known to be at most this much above
/// the least weight.
const NEAR: u64 = 32;

/// The least weight of the living configurations with given periods and shear 0, or `Nothing` if there is no such
/// configuration.
#[derive(Debug, Drop)]
pub enum LeastWeight {
    /// The least weight, and a living configuration that has it. If the weight is 0, there are no steps. Otherwise the steps
    /// refute the clauses that ask for a smaller weight: those of `weight_clauses` with this weight as `below`.
    Least {
        weight: u64,
        periodic: Periodic,
        steps: Items<Step>,
    },
    /// There is no living configuration. The steps refute the clauses that ask for one: those of `weight_clauses` with 0 as
    /// `below`.
    Nothing {
        steps: Items<Step>,
    },
}

/// The result of one search: a living configuration that weighs less than a bound (or has any weight if the bound is 0), or
/// steps that refute the clauses that ask for one.
#[derive(Drop)]
enum Lighter {
    Found(Periodic),
    Nothing(Items<Step>),
}

/// Finds an assignment that satisfies the clauses, or steps that refute them. If `below` is 0, no variables are eliminated
/// first: without a bound on the weight, the clauses are usually easy to satisfy, and the elimination would take longer than
/// the search.
fn solved(alloc: Global, cnf: &Cnf, below: u64) -> Result<Outcome, AllocError>
    ensures answer { IfOk result (IsAnswer cnf.now.variables cnf.now.clauses) }
    ensures refuted { IfOk result (λ outcome. IsRefuted outcome ↔ ¬ (IsSatisfiable cnf.now.clauses)) }
{
    if below == 0 {
        solve(alloc, cnf)
    } else {
        solve_reduced(alloc, cnf)
    }
}

/// Searches for a living configuration with these periods and shear 0. If `below` is at least 1, it has to weigh less than
/// `below`.
fn search_below(
    alloc: Global,
    rule: &Rule,
    periods: [u32; 3],
    weights: &[u32],
    below: u64,
) -> Result<Lighter, AllocError>
    requires periods { AreTorusPeriods rule.now.dimension rule.now.nodes (periods_of periods 0) }
    requires weights { length weights.now ≡ rule.now.symbols }
    requires count { weight_count rule.now (periods_of periods 0) weights.now below ≤ most_clauses }
    ensures { IfOk result (IsLighter rule.now (periods_of periods 0) weights.now below) }
{
    let cnf = weight_clauses(alloc, rule, periods, weights, below)?;
    match solved(alloc, &cnf, below)? {
        Outcome::Found(found) => {
            let periodic = read_torus(alloc, rule, periods, 0, &found)?;
            // This call tells the proof what the type guarantees: the configuration is well formed.
            let _symbols = periodic.symbols();
            Ok(Lighter::Found(periodic))
        }
        Outcome::Refuted(steps) => {
            let used = trimmed(alloc, &cnf, steps)?;
            // These calls tell the proof what the types guarantee: variables, clauses and steps are within their limits.
            let _variable = cnf.variables();
            let _number = last_number(&cnf, used.as_slice());
            Ok(Lighter::Nothing(used))
        }
    }
}

/// How many clauses the rule's encoding has at all cells of the torus together.
fn encoding_size(rule: &Rule, periods: [u32; 3]) -> u64 {
    let [x, y, z] = periods;
    let mut clauses = 0u64;
    for node in 0..rule.nodes() {
        clauses = clauses.saturating_add(rule.clause_count(node));
    }
    clauses
        .saturating_mul(u64::from(x))
        .saturating_mul(u64::from(y))
        .saturating_mul(u64::from(z))
}

/// Any living configuration, or steps that refute the clauses that ask for one. If a local search follows (see `lightened`), a
/// heavy configuration will do. So in this case, one in which all cells have the same symbol is tried first.
fn first_living(
    alloc: Global,
    rule: &Rule,
    periods: [u32; 3],
    weights: &[u32],
) -> Result<Lighter, AllocError>
    requires periods { AreTorusPeriods rule.now.dimension rule.now.nodes (periods_of periods 0) }
    requires weights { length weights.now ≡ rule.now.symbols }
    requires count { weight_count rule.now (periods_of periods 0) weights.now 0 ≤ most_clauses }
    ensures { IfOk result (IsLighter rule.now (periods_of periods 0) weights.now 0) }
{
    if encoding_size(rule, periods) <= MOST_LOCAL_CLAUSES {
        if let Some(periodic) = constant_living(alloc, rule, periods)? {
            return Ok(Lighter::Found(periodic));
        }
    }
    search_below(alloc, rule, periods, weights, 0)
}

/// The living configuration that a local search finds from `start`, usually a lighter one. If the rule's encoding has more
/// than `MOST_LOCAL_CLAUSES` clauses on the torus, there is no such search, and the result is `start` itself.
fn lightened(
    alloc: Global,
    rule: &Rule,
    periods: [u32; 3],
    weights: &[u32],
    start: Periodic,
) -> Result<Periodic, AllocError>
    requires lives { IsLiving rule.now (periods_of periods 0) start }
    ensures { IfOk result (IsLiving rule.now (periods_of periods 0)) }
{
    let Some(torus) = TorusRule::new(alloc, rule, &start, MOST_LOCAL_CLAUSES)? else {
        return Ok(start);
    };
    let search = LocalSearch::new(alloc, rule, &torus, weights, start.symbols())?;
    let symbols = search.run(alloc)?;
    match living(rule, periods, symbols) {
        Some(lighter) => Ok(lighter),
        None => Ok(start),
    }
}

/// The descent: finds a living configuration that weighs at most `NEAR` more than the least weight. The first configuration is
/// the one that `lightened` gives for `start`. Then each search asks for a configuration that is more than `step` lighter than
/// the last one found. A success doubles `step`. A refutation sets `step` back to `NEAR`, and raises `refuted`. No living
/// configuration weighs less than `refuted`. So where a search would ask for a weight below `refuted`, it asks for the weight
/// `refuted` instead.
fn descended(
    alloc: Global,
    rule: &Rule,
    periods: [u32; 3],
    weights: &[u32],
    start: Periodic,
) -> Result<Periodic, AllocError>
    requires periods { AreTorusPeriods rule.now.dimension rule.now.nodes (periods_of periods 0) }
    requires weights { length weights.now ≡ rule.now.symbols }
    requires small { All (λ w. w ≤ most_weight) weights.now }
    requires count { weight_count rule.now (periods_of periods 0) weights.now
        (periods_volume (periods_of periods 0) * rule.now.nodes * greatest weights.now) ≤ most_clauses }
    requires lives { IsLiving rule.now (periods_of periods 0) start }
    ensures { IfOk result (IsLiving rule.now (periods_of periods 0)) }
{
    let mut best = lightened(alloc, rule, periods, weights, start)?;
    let mut weight = best.weight(weights);
    // No living configuration weighs less than this.
    let mut refuted: u64 = 0;
    let mut step = NEAR;
    while weight.saturating_sub(refuted) > NEAR {
        let below = weight.saturating_sub(step).max(refuted + 1);
        match search_below(alloc, rule, periods, weights, below)? {
            Lighter::Found(periodic) => {
                weight = periodic.weight(weights);
                best = periodic;
                step = step.saturating_mul(2);
                continue;
            }
            Lighter::Nothing(_) => {}
        }
        refuted = below;
        step = NEAR;
    }
    Ok(best)
}

/// The least weight of a living configuration with these periods and shear 0, or `Nothing` if there is no such configuration.
/// The weight is that of one fundamental box, where the symbol `s` weighs `weights[s]`. The arguments must meet the conditions
/// of `weight_clauses`, with the number of cells times the greatest weight as `below`. Each weight must be at most 1,000.
///
/// # Errors
/// `AllocError` if memory ran out.
pub fn least_weight(
    alloc: Global,
    rule: &Rule,
    periods: [u32; 3],
    weights: &[u32],
) -> Result<LeastWeight, AllocError>
    requires periods { AreTorusPeriods rule.now.dimension rule.now.nodes (periods_of periods 0) }
    requires weights { length weights.now ≡ rule.now.symbols }
    requires small { All (λ w. w ≤ most_weight) weights.now }
    requires count { weight_count rule.now (periods_of periods 0) weights.now
        (periods_volume (periods_of periods 0) * rule.now.nodes * greatest weights.now) ≤ most_clauses }
    ensures { IfOk result (IsLeast rule.now (periods_of periods 0) weights.now) }
{
    let first = match first_living(alloc, rule, periods, weights)? {
        Lighter::Found(periodic) => periodic,
        Lighter::Nothing(steps) => return Ok(LeastWeight::Nothing { steps }),
    };
    let mut found = descended(alloc, rule, periods, weights, first)?;
    let mut weight = found.weight(weights);
    while weight > 0 {
        match search_below(alloc, rule, periods, weights, weight)? {
            Lighter::Found(periodic) => {
                weight = periodic.weight(weights);
                found = periodic;
            }
            Lighter::Nothing(steps) => {
                return Ok(LeastWeight::Least {
                    weight,
                    periodic: found,
                    steps,
                });
            }
        }
    }
    Ok(LeastWeight::Least {
        weight,
        periodic: found,
        steps: Items::new(alloc),
    })
}
