//! The limit on the number of fillings.
ghost use Rattle.std.specs.Prelude.{◌≡◌, ◌<◌};
ghost use Rattle.dd_forbidden.specs.Breaking.{is_large};

use dd_counts::{MOST_PATTERNS, patterns};
use dd_formula::Rule;

/// Whether the cells that the rule reads at the node have more than `MOST_PATTERNS` fillings over the whole alphabet.
pub(crate) fn is_large(rule: &Rule, node: u32) -> bool
    requires { node < rule.now.nodes }
    ensures { result ≡ is_large rule.now node }
{
    patterns(rule, node, MOST_PATTERNS) > MOST_PATTERNS
}
