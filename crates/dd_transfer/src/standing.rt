//! The tested slice of a window: the slice at whose cells the rule must be true.
ghost use Rattle.std.specs.Prelude.{◌≡◌, pos, ◌≤ℤ◌};
ghost use Rattle.dd_counts.specs.Rules.{least_x};
ghost use Rattle.dd_formula.specs.LocalRule.{IsRule};
ghost use Rattle.dd_formula.specs.Reach.{all_cells};
ghost use Rattle.dd_transfer.specs.Windows.{stand};

use dd_counts::least_x;
use dd_formula::Rule;

/// The least of 0 and the x coordinates of the cells that the rule reads, relative to the cell at which it is evaluated.
fn least_read(rule: &Rule) -> i32
    ensures value { result ≡ least_x (pos 0) (all_cells rule.now) }
    ensures kept { IsRule rule.now }
{
    let mut least = 0;
    for node in 0..rule.nodes() {
        least = least_x(least, rule.reads(node));
    }
    least
}

/// The x coordinate of the tested slice. It is the least nonnegative x such that the rule, evaluated at cells with this x,
/// reads no cell to the left of the window.
pub(crate) fn stand(rule: &Rule) -> i32
    ensures value { result ≡ stand rule.now }
    ensures some { pos 0 ≤ℤ result }
    ensures near { result ≤ℤ pos 16 }
{
    let least = least_read(rule);
    -least
}
