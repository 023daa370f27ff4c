//! What all right answers to a question have in common.
ghost use Rattle.dd_certificate.specs.declared.answer.Answer.{Answer as AnyAnswer};
ghost use Rattle.dd_question.specs.Questions.{Asked, IsSoundAsked};
ghost use Rattle.dd_respond.specs.Laws.{SayTheSame};
ghost use Rattle.dd_respond.specs.Right.{IsRightTo};
ghost use Rattle.dd_values.specs.declared.limits.Limits.{Limits as AnyLimits};

use dd_discharge::one_outcome;
use dd_evidence::{one_list, one_starred};
use dd_strips::one_density;

/// Does nothing. Its contract says that all right answers to a sound question within the same limits have the same first line
/// of text. They differ only in their evidence. A question is sound if its parts fit together and it exceeds no limit on its
/// work.
pub fn one_response()
    ensures { (limits : AnyLimits) (question : Asked) (a b : AnyAnswer) → IsSoundAsked limits question → IsRightTo limits question a →
        IsRightTo limits question b → SayTheSame a b }
{
    one_list();
    one_density();
    one_outcome();
    one_starred();
}
