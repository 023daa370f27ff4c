//! A law of questions that exceed no limit.
ghost use Rattle.std.specs.Prelude.{◌≡◌, None};
ghost use Rattle.dd_values.specs.declared.limits.Limits.{Limits};
ghost use Rattle.dd_question.specs.Questions.{Asked, IsFormed, excess_of, IsSoundAsked};

/// Does nothing. Its contract says that a question is sound (`IsSoundAsked`) if its parts fit together (`IsFormed`) and no
/// limit is found to be exceeded (`excess_of` is `None`).
pub fn sound_questions()
    ensures { (l : Limits) (a : Asked) → IsFormed a → excess_of l a ≡ None → IsSoundAsked l a }
{}
