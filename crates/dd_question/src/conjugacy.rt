//! Conjugacies: whether two automata are inverse maps between two subshifts, as four box questions.
ghost use Rattle.std.specs.Prelude.{◌≡◌, IfSome, None, is_none};
ghost use Rattle.dd_formula.specs.LocalRule.{LocalRule};
ghost use Rattle.dd_boxes.specs.Goals.{GoalOf};
ghost use Rattle.dd_boxes.specs.Views.{goal_of};
ghost use Rattle.dd_question.specs.Conjugacies.{conjugacy_of, IsPart};

use dd_boxes::Goal;
use dd_formula::Rule;

/// Two subshifts, and the goals of four box questions about a map from the first to the second and a map back. The maps are
/// inverse to each other exactly when the answer to each question is yes: no configuration that obeys the premise has the goal
/// at any position.
#[derive(Clone, Copy)]
pub struct Conjugacy<'a> {
    /// The rule of the first subshift.
    pub from: &'a Rule,
    /// The rule of the second subshift.
    pub to: &'a Rule,
    /// The goal of question 1, whose premise is `from`: at the position, the image under the map breaks `to`, or has a symbol
    /// that isn't allowed.
    pub image: Goal<'a>,
    /// The goal of question 2, whose premise is `to`: at the position, the image under the map back breaks `from`, or has a
    /// symbol that isn't allowed.
    pub image_back: Goal<'a>,
    /// The goal of question 3, whose premise is `from`: the map, followed by the map back, changes a symbol of the position.
    pub round: Goal<'a>,
    /// The goal of question 4, whose premise is `to`: the map back, followed by the map, changes a symbol of the position.
    pub round_back: Goal<'a>,
}

impl<'a> Conjugacy<'a> {
    /// The premise and the goal of the box question with this number, or `None` if there is none. Question 1 is about `image`,
    /// question 2 about `image_back`, question 3 about `round`, and question 4 about `round_back`.
    pub fn part(&self, number: u64) -> Option<(&'a Rule, Goal<'a>)>
        ensures part { IfSome result (λ p. IsPart (conjugacy_of self.now) number p.0.now (goal_of p.0.now p.1)) }
        ensures none { result ≡ None → (x : LocalRule) (g : GoalOf) → ¬ IsPart (conjugacy_of self.now) number x g }
    {
        match number {
            1 => Some((self.from, self.image)),
            2 => Some((self.to, self.image_back)),
            3 => Some((self.from, self.round)),
            4 => Some((self.to, self.round_back)),
            _ => None,
        }
    }
}
