//! Living configurations, made from given symbols for the cells of the fundamental box, or from one symbol for all of them.
ghost use Rattle.std.specs.Prelude.{MatchOption, ⊤, IfOk, IfSome};
ghost use Rattle.dd_pattern.specs.Periods.{periods_of};
ghost use Rattle.dd_boxes.specs.TorusPeriods.{AreTorusPeriods};
ghost use Rattle.dd_counter.specs.Least.{IsLiving};

use dd_formula::{Membership, Rule, fits, has_allowed};
use dd_pattern::Periodic;
use std::alloc::{AllocError, Global};

/// The living configuration with these periods, shear 0, and these symbols in its fundamental box, in cell order. `None` if
/// there is no such configuration.
pub(crate) fn living(rule: &Rule, periods: [u32; 3], symbols: Vec<u32>) -> Option<Periodic>
    ensures { MatchOption result ⊤ (IsLiving rule.now (periods_of periods 0)) }
{
    let Ok(periodic) = Periodic::new(rule.dim(), periods, 0, rule.nodes(), symbols) else {
        return None;
    };
    // This call tells the proof what the type guarantees: the configuration is well formed.
    let _symbols = periodic.symbols();
    if !fits(rule, &periodic) || !has_allowed(rule, &periodic) {
        return None;
    }
    match rule.member(&periodic) {
        Membership::Inside => Some(periodic),
        Membership::Outside(_) => None,
    }
}

/// A living configuration with these periods and shear 0 in which all cells have the same symbol. `None` if there is no such
/// configuration.
pub(crate) fn constant_living(
    alloc: Global,
    rule: &Rule,
    periods: [u32; 3],
) -> Result<Option<Periodic>, AllocError>
    requires { AreTorusPeriods rule.now.dimension rule.now.nodes (periods_of periods 0) }
    ensures { IfOk result (λ found. IfSome found (IsLiving rule.now (periods_of periods 0))) }
{
    let [x, y, z] = periods;
    let nodes = rule.nodes();
    let cells = z * y * x * nodes;
    for symbol in 0..rule.symbols() {
        let symbols = vec![in alloc; symbol; cells as usize]?;
        if let Some(periodic) = living(rule, periods, symbols) {
            return Ok(Some(periodic));
        }
    }
    Ok(None)
}
