//! The outcome of a filling of the cells that a rule reads.
ghost use Rattle.std.specs.Prelude.{◌≡◌};
ghost use Rattle.dd_minimal.specs.finding.Outcomes.{does_break, does_hold, of_truth};

/// The outcome of a filling.
#[derive(Clone, Copy, Debug)]
pub(crate) enum Outcome {
    /// Some cell has a symbol that its node doesn't allow.
    Barred,
    /// All symbols are allowed, and the rule is false.
    Breaks,
    /// All symbols are allowed, and the rule is true.
    Holds,
}

impl Outcome {
    /// The outcome of a filling with allowed symbols, from the rule's truth.
    pub(crate) fn of_truth(truth: bool) -> Outcome
        ensures { result ≡ of_truth truth }
    {
        if truth {
            Outcome::Holds
        } else {
            Outcome::Breaks
        }
    }

    /// Whether the filling is a breaking one.
    pub(crate) fn does_break(self) -> bool
        ensures { result ≡ does_break self }
    {
        match self {
            Outcome::Breaks => true,
            Outcome::Barred | Outcome::Holds => false,
        }
    }

    /// Whether all symbols are allowed and the rule is true.
    pub(crate) fn does_hold(self) -> bool
        ensures { result ≡ does_hold self }
    {
        match self {
            Outcome::Holds => true,
            Outcome::Barred | Outcome::Breaks => false,
        }
    }
}
