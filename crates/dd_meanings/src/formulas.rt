//! Formulas, with numbers in place of names. A scope is the list of the bound variables, the outermost first. The variable of
//! a quantifier ranges over the cells of the quantifier's balls. A ball has a variable as its centre, and a radius r. Its
//! cells are those that are at most r edges away from the variable's cell. A chain is a list of formulas with the same
//! connective between them.
ghost use Rattle.std.specs.Prelude.{◌≡◌, ◌+◌, ◌≤◌, [], length, IfOk};
ghost use Rattle.dd_written.specs.Formulas.{tree_depth};
ghost use Rattle.dd_faults.specs.Formulas.{formula_faults};
ghost use Rattle.dd_meanings.specs.Formulas.{formula_of, implied_of, iff_of, joined_of, quantified_of};

use crate::atoms::{self, atom};
use crate::meaning::Made;
use dd_expansion::{BallOf, Formula};
use dd_faults::within;
use dd_known::Context;
use dd_values::{Boxed, Items};
use dd_written::{Formula as Written, Join, Quantifier, Word};
use std::alloc::Global;

/// Joins the parts of a chain of `->`. This connective groups to the right, so the parts are joined from the last one
/// backwards. If there are no parts, the result is an empty `And`.
#[tactic(auto, using(crate::proofs::Layers::implied_last))]
fn implied(alloc: Global, parts: Items<Formula>) -> Made<Formula>
    ensures { IfOk result (λ f. f ≡ implied_of parts) }
{
    let mut front = parts;
    let Some(last) = front.pop() else {
        return Ok(Formula::And(front));
    };
    let mut whole = last;
    while let Some(premise) = front.pop() {
        let conclusion = Boxed::new(alloc, whole)?;
        whole = Formula::Implies(Boxed::new(alloc, premise)?, conclusion);
    }
    Ok(whole)
}

/// Joins the parts of a chain of `<->`. This connective groups to the left, so the parts are joined from the first one
/// onwards. If there are no parts, the result is an empty `And`.
fn equivalent(alloc: Global, parts: Items<Formula>) -> Made<Formula>
    ensures { IfOk result (λ f. f ≡ iff_of parts) }
{
    let mut turned = parts.into_vec();
    turned.reverse();
    let mut back = Items::from_vec(turned);
    let Some(first) = back.pop() else {
        return Ok(Formula::And(back));
    };
    let mut whole = first;
    while let Some(next) = back.pop() {
        let left = Boxed::new(alloc, whole)?;
        whole = Formula::Iff(left, Boxed::new(alloc, next)?);
    }
    Ok(whole)
}

/// Joins the parts of a chain by this connective.
fn joined(alloc: Global, join: Join, parts: Items<Formula>) -> Made<Formula>
    ensures { IfOk result (λ f. f ≡ joined_of join parts) }
{
    match join {
        Join::And => Ok(Formula::And(parts)),
        Join::Or => Ok(Formula::Or(parts)),
        Join::Implies => implied(alloc, parts),
        Join::Iff => equivalent(alloc, parts),
    }
}

/// The formula with this quantifier, these balls and this body.
fn quantified(quantifier: Quantifier, balls: Items<BallOf>, body: Boxed<Formula>) -> Formula
    ensures { result ≡ quantified_of quantifier balls body }
{
    match quantifier {
        Quantifier::All => Formula::ForAll { balls, body },
        Quantifier::Exists => Formula::Exists { balls, body },
    }
}

/// What a written formula without faults means in a scope.
pub(crate) fn formula_in(
    alloc: Global,
    context: &Context,
    scope: &[Word],
    formula: &Written,
) -> Made<Formula>
    requires shallow { length scope.now + tree_depth formula.now ≤ 64 }
    requires faultless { formula_faults context.now formula.now scope.now ≡ [] }
    ensures { IfOk result (λ f. f ≡ formula_of context.now formula.now scope.now) }
{
    match formula {
        Written::Atom(written) => atom(alloc, context, scope, written),
        Written::Not(inner) => {
            let negated = formula_in(alloc, context, scope, inner.get())?;
            Ok(Formula::Not(Boxed::new(alloc, negated)?))
        }
        Written::Quantified {
            quantifier,
            variable,
            balls,
            body,
        } => {
            let balls = atoms::balls(alloc, context, scope, balls.as_slice())?;
            let inner = within(alloc, scope, *variable)?;
            let meant = formula_in(alloc, context, inner.as_slice(), body.get())?;
            Ok(quantified(*quantifier, balls, Boxed::new(alloc, meant)?))
        }
        Written::Group(inner) => formula_in(alloc, context, scope, inner.get()),
        Written::Chain { join, parts } => {
            let mut made = Items::new(alloc);
            for part in parts.as_slice() {
                made.push(formula_in(alloc, context, scope, part)?)?;
            }
            joined(alloc, *join, made)
        }
    }
}
