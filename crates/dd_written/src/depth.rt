//! The depth of a formula, capped at 65, which is one more than the greatest depth that a formula may have.
ghost use Rattle.std.specs.Prelude.{◌≡◌, ◌<◌, ◌+◌, length, map};
ghost use Rattle.dd_written.specs.Formulas.{tree_depth, signs_over, chain_depth, cut_depth};

use crate::tree::{Formula, Join};

/// The greatest depth that a formula may have.
pub(crate) const MOST_DEEP: u32 = 64;

/// A depth with `more` levels added, capped at 65.
fn deeper(depth: u32, more: u32) -> u32
    ensures { result ≡ cut_depth (more + depth) }
{
    more.saturating_add(depth).min(MOST_DEEP + 1)
}

/// The number of signs above the part at `index` in the tree of a chain with `count` parts, capped at 65. All the `&` of a
/// chain count as one sign, and so do all the `|` of a chain. The other two signs group: `a -> b -> c` is `a -> (b -> c)`, and
/// `a <-> b <-> c` is `(a <-> b) <-> c`.
fn signs_over(join: Join, count: usize, index: usize) -> u32
    requires { index < count }
    ensures { result ≡ cut_depth (signs_over join count index) }
{
    let signs = match join {
        Join::And | Join::Or => 1,
        Join::Implies => (index + 1).min(count - 1),
        Join::Iff => (count - index).min(count - 1),
    };
    signs.min(MOST_DEEP as usize + 1) as u32
}

/// The depth of a formula, capped at 65.
#[cycle(measure)]
pub(crate) fn capped_depth(formula: &Formula) -> u32
    ensures { result ≡ cut_depth (tree_depth formula.now) }
{
    match formula {
        Formula::Atom(_) => 0,
        Formula::Not(inner) | Formula::Group(inner) => deeper(capped_depth(inner.get()), 1),
        Formula::Quantified { body, .. } => deeper(capped_depth(body.get()), 1),
        Formula::Chain { join, parts } => deepest(*join, parts.as_slice()),
    }
}

/// The depth of a chain with these parts, capped at 65.
#[cycle(measure)]
fn deepest(join: Join, parts: &[Formula]) -> u32
    ensures { result ≡ cut_depth (chain_depth join (length parts.now) 0 (map tree_depth parts.now)) }
{
    let mut deepest = 0;
    for index in 0..parts.len() {
        let depth = capped_depth(&parts[index]);
        let part = deeper(depth, signs_over(join, parts.len(), index));
        deepest = part.max(deepest);
    }
    deepest
}
