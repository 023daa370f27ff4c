//! Which refutations an output can hold.
ghost use Rattle.std.specs.Prelude.{◌≡◌, ◌+◌, ◌≤◌, true, ℕ, List, length};
ghost use Rattle.dd_values.specs.Bounds.{most_variables};
ghost use Rattle.dd_clause.specs.declared.clause.Literal.{Literal};
ghost use Rattle.dd_derivation.specs.declared.step.Step.{Step};
ghost use Rattle.dd_derivation.specs.Derivations.{refutes};
ghost use Rattle.dd_certificate.specs.Bounds.{most_count, IsWritableRefutation};

/// Does nothing. Its contract is a law: an output can hold the steps that refute a list of clauses, if there are at most
/// `most_variables` (2^24) variables, and at most `most_count` (2^64 - 1) clauses and steps together.
pub fn refutations_fit()
    ensures { (n : ℕ) (clauses : List (List Literal)) (steps : List Step) → refutes n clauses steps ≡ true → n ≤ most_variables
        → length clauses + length steps ≤ most_count → IsWritableRefutation steps }
{}
