//! Laws of bounds.
ghost use Rattle.std.specs.Prelude.{ℕ, List};
ghost use Rattle.dd_lattice.specs.Place.{Place};
ghost use Rattle.dd_formula.specs.LocalRule.{LocalRule};
ghost use Rattle.dd_discharge.specs.declared.bound.Bound.{Bound as AnyBound};
ghost use Rattle.dd_discharge.specs.Outcomes.{HasOneOutcome};
ghost use Rattle.dd_discharge.specs.Certificates.{IsBoundCertificate, BestOf};

/// Does nothing; its contract says that a certified bound is the best: no amounts meet the rows of the rule's program with a
/// greater bound, whatever the common denominator.
#[tactic(auto, using(crate::proofs::BestBounds::best_bound))]
pub fn best_bound()
    ensures { (x : LocalRule) (weights : List ℕ) (radius margin : ℕ) (vectors : List Place) (bound : AnyBound) →
        IsBoundCertificate x weights radius margin vectors bound → BestOf x weights radius margin vectors bound.numerator bound.denominator }
{}

/// Does nothing; its contract says that a discharge has at most one outcome: one bound, or one reason why there is none.
/// Running out of memory doesn't count.
#[tactic(auto, using(crate::proofs::Outcomes::one_outcome))]
pub fn one_outcome()
    ensures { (x : LocalRule) (weights : List ℕ) (radius margin : ℕ) (vectors : List Place) (pivots : ℕ) → HasOneOutcome x weights radius margin vectors pivots }
{}
