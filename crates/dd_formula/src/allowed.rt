//! Whether a periodic configuration fits a rule, and whether the rule's nodes allow the configuration's symbols.
ghost use Rattle.std.specs.Prelude.{◌<◌, ◌↔◌, IsTrue, All};
ghost use Rattle.dd_formula.specs.Allowed.{HasAllowed};
ghost use Rattle.dd_formula.specs.Living.{Fits};

use crate::rule::Rule;
use dd_pattern::Periodic;

/// Whether each symbol is below the limit.
fn are_below(symbols: &[u32], limit: u32) -> bool
    ensures { IsTrue result ↔ All (λ s. s < limit) symbols.now }
{
    symbols.iter().all(|&symbol| symbol < limit)
}

/// Whether the configuration has the rule's dimension, the rule's number of nodes, and only symbols of the rule's alphabet.
pub fn fits(rule: &Rule, configuration: &Periodic) -> bool
    ensures { IsTrue result ↔ Fits rule.now configuration.now }
{
    configuration.dim() == rule.dim()
        && configuration.nodes() == rule.nodes()
        && are_below(configuration.symbols(), rule.symbols())
}

/// Whether each cell of the configuration has a symbol that the cell's node allows. The configuration must fit the rule.
pub fn has_allowed(rule: &Rule, configuration: &Periodic) -> bool
    requires { Fits rule.now configuration.now }
    ensures { IsTrue result ↔ HasAllowed rule.now configuration.now }
{
    let symbols = configuration.symbols();
    for number in 0..symbols.len() {
        let cell = configuration.cell_at(number);
        if !rule.allows(cell.node, symbols[number]) {
            return false;
        }
    }
    true
}
