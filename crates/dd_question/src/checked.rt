//! Checked questions.
use crate::question::Question;
use dd_values::Limits;
use std::marker::Model;

/// A question and the limits of its search. These limits are in range, the question's parts fit together, and the question
/// exceeds no limit on its work.
#[derive(Drop)]
pub struct CheckedQuestion<'a> {
    question: Question<'a>,
    limits: Limits,
}

impl<'a> Model for CheckedQuestion<'a> {
    ghost use Rattle.std.specs.Coded.{codes};
    ghost use Rattle.dd_expansion.specs.contracts.formulas.Formula as formula_type;
    ghost use Rattle.dd_formula.specs.contracts.automaton.Automaton as automaton_type;
    ghost use Rattle.dd_question.specs.Questions.{asked_of};
    ghost use Rattle.dd_question.specs.Checked.{AskedWithin, asked_within, IsChecked};

    ghost Value = { AskedWithin };

    ghost coded = { Prim.hlevel (codes, formula_type.the_row.coded, automaton_type.the_row.coded) };

    ghost view = { λ c. asked_within c.limits (asked_of c.question) };

    ghost invariant = { λ c. IsChecked (asked_within c.limits (asked_of c.question)) };
}

impl<'a> CheckedQuestion<'a> {
    ghost use Rattle.std.specs.Prelude.{◌≡◌};
    ghost use Rattle.dd_values.specs.Ranges.{AreLimits};
    ghost use Rattle.dd_question.specs.Questions.{asked_of, IsSoundAsked};
    ghost use Rattle.dd_question.specs.Checked.{asked_within, IsChecked};

    /// Returns the checked question for a question that is known to be sound: its parts fit together, and it exceeds no limit
    /// on its work. The limits of its search must be in range. The call allocates no memory.
    pub fn known(question: Question<'a>, limits: Limits) -> CheckedQuestion<'a>
        requires limits { AreLimits limits }
        requires sound { IsSoundAsked limits (asked_of question) }
        ensures { result ≡ asked_within limits (asked_of question.entry) }
    {
        CheckedQuestion { question, limits }
    }

    /// The question.
    pub fn question(&self) -> Question<'a>
        ensures value { asked_of result ≡ self.now.question }
        ensures sound { IsSoundAsked self.now.limits (asked_of result) }
        ensures kept { IsChecked self.now }
    {
        self.question
    }

    /// The limits of its search.
    pub fn limits(&self) -> &Limits
        ensures value { result.now ≡ self.now.limits }
        ensures kept { IsChecked self.now }
    {
        &self.limits
    }
}
