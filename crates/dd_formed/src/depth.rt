//! Whether formulas are within the limit on depth. The depth of a formula is the greatest number of connectives and quantifiers
//! that are nested in one another. A conjunction or disjunction of fewer than two parts isn't counted.
ghost use Rattle.std.specs.Prelude.{◌≡◌, ◌≤◌, ◌↔◌, IsTrue, nat_le, map};
ghost use Rattle.std.specs.List.{list_all};
ghost use Rattle.dd_expansion.specs.Limits.{depth, list_depth, most_nested};

use dd_expansion::Formula;

/// The greatest depth that the formula of a rule may have.
const MOST_NESTED: u32 = 64;

/// Whether the formula is at most 64 deep, as every rule's formula is. Allocates nothing.
pub fn is_within_depth(formula: &Formula) -> bool
    ensures { IsTrue result ↔ (depth formula.now ≤ most_nested) }
{
    is_shallow(formula, MOST_NESTED)
}

/// Whether the formula is at most `most` deep.
#[cycle(shallow)]
#[tactic(auto, using(crate::proofs::Layers::depth_layers))]
fn is_shallow(formula: &Formula, most: u32) -> bool
    ensures { result ≡ nat_le (depth formula.now) most }
{
    match formula {
        Formula::Symbol { .. }
        | Formula::NotSymbol { .. }
        | Formula::Same { .. }
        | Formula::NotSame { .. }
        | Formula::Adjacent { .. }
        | Formula::Place { .. }
        | Formula::Node { .. } => true,
        Formula::Not(part) => 0 < most && is_shallow(part.get(), most - 1),
        Formula::And(parts) | Formula::Or(parts) => is_list_shallow(parts.as_slice(), most),
        Formula::Implies(left, right) | Formula::Iff(left, right) => {
            0 < most && is_shallow(left.get(), most - 1) && is_shallow(right.get(), most - 1)
        }
        Formula::ForAll { body, .. } | Formula::Exists { body, .. } => {
            0 < most && is_shallow(body.get(), most - 1)
        }
    }
}

/// Whether a conjunction or disjunction of these parts is at most `most` deep. With two parts or more it is one deeper than
/// its deepest part.
#[cycle(shallow)]
#[tactic(auto, using(crate::proofs::Layers::shallow_few, crate::proofs::Layers::shallow_many, crate::proofs::Layers::shallow_none))]
fn is_list_shallow(parts: &[Formula], most: u32) -> bool
    ensures { result ≡ nat_le (list_depth (map depth parts.now)) most }
{
    if parts.len() < 2 {
        return are_shallow(parts, most);
    }
    if most == 0 {
        return false;
    }
    are_shallow(parts, most - 1)
}

/// Whether each part is at most `most` deep.
#[cycle(shallow)]
fn are_shallow(parts: &[Formula], most: u32) -> bool
    ensures { result ≡ list_all (λ f. nat_le (depth f) most) parts.now }
{
    for part in parts {
        if !is_shallow(part, most) {
            return false;
        }
    }
    true
}
