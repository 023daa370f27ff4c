//! The clauses that ask for a living configuration whose weight is below a bound.
ghost use Rattle.std.specs.Prelude.{◌≡◌, ◌≤◌, ◌*◌, length, IfOk};
ghost use Rattle.dd_pattern.specs.Periods.{periods_of};
ghost use Rattle.dd_boxes.specs.Counts.{most_clauses};
ghost use Rattle.dd_boxes.specs.TorusPeriods.{AreTorusPeriods};
ghost use Rattle.dd_counter.specs.Weights.{weight_problem, weight_count, ShowsWeights};

use crate::counter::{push_refusal, push_rows};
use dd_boxes::Goal;
use dd_clause::Cnf;
use dd_formula::Rule;
use dd_problem::torus_clauses;
use std::alloc::{AllocError, Global};

/// The clauses that ask for a living configuration with these periods and shear 0. If `below` is at least 1, it has to weigh
/// less than `below`; if `below` is 0, it may have any weight. The clauses of the torus come first, as `torus_clauses` in
/// `dd_problem` gives them. If `below` is at least 1, the clauses of a sequential counter follow (Sinz, 2005; with weights:
/// Hölldobler, Manthey and Steinke, 2012), and then a last clause that sets the bound.
///
/// There must be one weight for each symbol: the symbol `s` weighs `weights[s]`. Each period must be at least 1, and the period
/// of an axis past the dimension must be 1. The fundamental box must have at most 65,536 cells. `weight_count`, a bound on the
/// number of clauses, must be at most 2,000,000.
///
/// # Errors
/// `AllocError` if memory ran out.
pub fn weight_clauses(
    alloc: Global,
    rule: &Rule,
    periods: [u32; 3],
    weights: &[u32],
    below: u64,
) -> Result<Cnf, AllocError>
    requires periods { AreTorusPeriods rule.now.dimension rule.now.nodes (periods_of periods 0) }
    requires weights { length weights.now ≡ rule.now.symbols }
    requires count { weight_count rule.now (periods_of periods 0) weights.now below ≤ most_clauses }
    ensures exact { IfOk result (λ cnf. cnf ≡ weight_problem rule.now (periods_of periods 0) weights.now below) }
    ensures shows { IfOk result (λ cnf. ShowsWeights cnf.clauses rule.now (periods_of periods 0) weights.now below) }
{
    let mut cnf = torus_clauses(alloc, rule, &Goal::Always, periods, 0)?;
    let [x, y, z] = periods;
    let nodes = rule.nodes();
    let cells = z * y * x * nodes;
    let last = push_rows(alloc, &mut cnf, cells, weights, below)?;
    push_refusal(alloc, &mut cnf, &last, below)?;
    Ok(cnf)
}
