//! The check of answers to box questions and to equality questions. An equality question is two box questions about two rules,
//! `left` and `right`: whether no configuration that obeys `left` breaks `right` at any position, and whether none that obeys
//! `right` breaks `left`. If both rules allow the same symbols at each node, it asks whether the same configurations obey both.
ghost use Rattle.std.specs.Prelude.{◌≡◌, ◌↔◌, IsTrue, IfOk};
ghost use Rattle.dd_boxes.specs.Goals.{breaks};
ghost use Rattle.dd_boxes.specs.Views.{goal_of};
ghost use Rattle.dd_certificate.specs.declared.answer.Answer.TheVariants as answer;
ghost use Rattle.dd_certificate.specs.Bounds.{IsWritable};
ghost use Rattle.dd_verify.specs.Evidence.{IsBoxCertificate, IsEqualCertificate};
ghost use Rattle.dd_question.specs.Boxes.{IsAskable};
ghost use Rattle.dd_values.specs.Ranges.{AreLimits};

use crate::refutations::check_yes;
use crate::witnesses::check_no;
use dd_boxes::Goal;
use dd_certificate::{Answer, Reason, Side};
use dd_derivation::Step;
use dd_formula::Rule;
use dd_values::Limits;
use std::alloc::{AllocError, Global};

/// Whether the reason is that the limits were reached.
pub(crate) fn is_limits(reason: Reason) -> bool
    ensures { IsTrue result ↔ (reason ≡ Reason.Limits) }
{
    matches!(reason, Reason::Limits)
}

/// Whether the side is `Side::Whole`, the side in an answer to a single box question.
fn is_whole(side: Side) -> bool
    ensures { IsTrue result ↔ (side ≡ Side.Whole) }
{
    matches!(side, Side::Whole)
}

/// Whether the answer is a certificate for the box question, and an output can hold it.
#[tactic(auto, using(crate::specs::Evidence::box_unknown))]
pub(crate) fn check_box(
    alloc: Global,
    premise: &Rule,
    goal: &Goal,
    limits: &Limits,
    answer: &Answer,
) -> Result<bool, AllocError>
    requires limits { AreLimits limits.now }
    requires askable { IsAskable limits.now premise.now (goal_of premise.now goal.now) }
    ensures { IfOk result (λ accepted. IsTrue accepted ↔ (IsWritable answer.now × IsBoxCertificate limits.now premise.now (goal_of premise.now goal.now) answer.now)) }
{
    // This call tells the proof what the type guarantees.
    let _symbols = premise.symbols();
    match answer {
        Answer::Yes { radius, steps } => {
            check_yes(alloc, premise, goal, limits, *radius, steps.as_slice())
        }
        Answer::No {
            side,
            periods,
            shear,
            symbols,
        } => {
            if !is_whole(*side) {
                return Ok(false);
            }
            check_no(
                alloc,
                premise,
                goal,
                limits,
                periods.as_slice(),
                *shear,
                symbols.as_slice(),
            )
        }
        Answer::Unknown { reason } => Ok(is_limits(*reason)),
        _ => Ok(false),
    }
}

/// Whether the configuration certifies a NO on this side, and an output can hold this NO. The left side is the box question
/// with the premise `left` and the goal that `right` is broken. The right side is the box question with the premise `right` and
/// the goal that `left` is broken. For `Side::Whole`, the result is false.
fn check_side(
    alloc: Global,
    left: &Rule,
    right: &Rule,
    limits: &Limits,
    side: Side,
    periods: &[u64],
    shear: u64,
    symbols: &[u64],
) -> Result<bool, AllocError>
    requires limits { AreLimits limits.now }
    requires left { IsAskable limits.now left.now (breaks right.now) }
    requires right { IsAskable limits.now right.now (breaks left.now) }
    ensures { IfOk result (λ accepted. IsTrue accepted ↔
        (IsWritable (answer.No side periods.now shear symbols.now) × IsEqualCertificate limits.now left.now right.now (answer.No side periods.now shear symbols.now))) }
{
    // These calls tell the proof what the types guarantee.
    let _left = left.symbols();
    let _right = right.symbols();
    match side {
        Side::Whole => Ok(false),
        Side::Left => {
            let goal = Goal::Breaks(right);
            check_no(alloc, left, &goal, limits, periods, shear, symbols)
        }
        Side::Right => {
            let goal = Goal::Breaks(left);
            check_no(alloc, right, &goal, limits, periods, shear, symbols)
        }
    }
}

/// Whether the radii and the steps certify a YES to both box questions, and an output can hold this YES.
#[tactic(auto, using(crate::specs::Evidence::equal_yes, crate::proofs::BoxForms::both_fit, crate::proofs::BoxForms::both_of))]
fn check_both(
    alloc: Global,
    left: &Rule,
    right: &Rule,
    limits: &Limits,
    left_radius: u64,
    right_radius: u64,
    left_steps: &[Step],
    right_steps: &[Step],
) -> Result<bool, AllocError>
    requires limits { AreLimits limits.now }
    requires left { IsAskable limits.now left.now (breaks right.now) }
    requires right { IsAskable limits.now right.now (breaks left.now) }
    ensures { IfOk result (λ accepted. IsTrue accepted ↔ (IsWritable (answer.YesBoth left_radius right_radius left_steps.now right_steps.now)
        × IsEqualCertificate limits.now left.now right.now (answer.YesBoth left_radius right_radius left_steps.now right_steps.now))) }
{
    // These calls tell the proof what the types guarantee.
    let _left = left.symbols();
    let _right = right.symbols();
    let goal = Goal::Breaks(right);
    if !check_yes(alloc, left, &goal, limits, left_radius, left_steps)? {
        return Ok(false);
    }
    let goal = Goal::Breaks(left);
    check_yes(alloc, right, &goal, limits, right_radius, right_steps)
}

/// Whether the answer is a certificate for the equality question about two rules, and an output can hold it.
#[tactic(auto, using(crate::specs::Evidence::equal_unknown))]
pub(crate) fn check_equal(
    alloc: Global,
    left: &Rule,
    right: &Rule,
    limits: &Limits,
    answer: &Answer,
) -> Result<bool, AllocError>
    requires limits { AreLimits limits.now }
    requires left { IsAskable limits.now left.now (breaks right.now) }
    requires right { IsAskable limits.now right.now (breaks left.now) }
    ensures { IfOk result (λ accepted. IsTrue accepted ↔ (IsWritable answer.now × IsEqualCertificate limits.now left.now right.now answer.now)) }
{
    // These calls tell the proof what the types guarantee.
    let _left = left.symbols();
    let _right = right.symbols();
    match answer {
        Answer::YesBoth {
            left: left_radius,
            right: right_radius,
            left_steps,
            right_steps,
        } => check_both(
            alloc,
            left,
            right,
            limits,
            *left_radius,
            *right_radius,
            left_steps.as_slice(),
            right_steps.as_slice(),
        ),
        Answer::No {
            side,
            periods,
            shear,
            symbols,
        } => check_side(
            alloc,
            left,
            right,
            limits,
            *side,
            periods.as_slice(),
            *shear,
            symbols.as_slice(),
        ),
        Answer::Unknown { reason } => Ok(is_limits(*reason)),
        _ => Ok(false),
    }
}
