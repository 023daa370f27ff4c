//! Facts about a goal that proofs need.
ghost use Rattle.dd_boxes.specs.Goals.{IsGoalFor};
ghost use Rattle.dd_boxes.specs.Views.{goal_of};
ghost use Rattle.dd_problem.specs.pushing.GoalFacts.{HasGoalFacts};

use dd_boxes::Goal;
use dd_compile::says_its_value;
use dd_formula::Rule;

/// Does nothing but bring in facts. Its contract says that the goal's rule satisfies the invariant of rules, that the goal's
/// automata read only cells with a position in Z^d and one of the premise's nodes, and that the gates made for their values
/// compute these values.
pub(crate) fn goal_facts(premise: &Rule, goal: &Goal)
    requires { IsGoalFor premise.now (goal_of premise.now goal.now) }
    ensures { HasGoalFacts premise.now (goal_of premise.now goal.now) }
{
    match goal {
        Goal::Breaks(rule) => {
            let _nodes = rule.nodes();
        }
        Goal::Differ(left, right) => {
            left.reads_are_placed();
            right.reads_are_placed();
            says_its_value(left);
            says_its_value(right);
        }
        Goal::Always => {}
    }
}
