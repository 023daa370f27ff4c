//! The law of the three answers to a box question.
ghost use Rattle.std.specs.Prelude.{ℕ, max};
ghost use Rattle.dd_boxes.specs.Goals.{IsGoalFor};
ghost use Rattle.dd_boxes.specs.Boxes.{IsLeastRadius};
ghost use Rattle.dd_boxes.specs.Views.{goal_of};
ghost use Rattle.dd_contain.specs.declared.decision.Decision.{Decision as AnyDecision};
ghost use Rattle.dd_contain.specs.Questions.{IsDecided};
ghost use Rattle.dd_contain.specs.Laws.{Trichotomy};

use dd_boxes::{Goal, one_box};
use dd_formula::Rule;

/// Does nothing. Its contract says exactly when `decide` gives each answer:
/// - YES if the largest box that the search may try has no admissible filling with the goal at the origin.
/// - NO if some configuration of periods within the limits obeys the premise and has the goal at the origin.
/// - Unknown if neither condition holds. The two never hold together.
pub fn trichotomy(premise: &Rule, goal: &Goal)
    requires { IsGoalFor premise.now (goal_of premise.now goal.now) }
    ensures { (n p least : ℕ) (decision : AnyDecision) → IsLeastRadius (goal_of premise.now goal.now) least → IsDecided premise.now (goal_of premise.now goal.now) n p decision
        → Trichotomy premise.now (goal_of premise.now goal.now) (max n least) p decision }
{
    one_box(premise, goal);
}
