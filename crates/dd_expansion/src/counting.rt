//! How many clauses an expansion takes: it is written as a circuit, and each gate of the circuit is written as clauses.
ghost use Rattle.std.specs.Prelude.{◌≡◌, ◌+◌, ◌^◌, ◌<◌, ◌≤◌};
ghost use Rattle.dd_expansion.specs.Leaves.{instances, clause_count};

use crate::expanded::Expanded;

impl Expanded {
    /// The number of clauses of the gates of this expansion. Each constant has 1, each conjunction or disjunction of k
    /// parts has k + 1, and each equivalence has 4. A leaf or a negation has none of its own. The expansion must have at most
    /// 2^32 instances.
    #[tactic(auto, using(crate::proofs::Sizes::clauses_few))]
    pub fn clause_count(&self) -> u64
        requires { instances self.now ≤ 2 ^ 32 }
        ensures { result ≡ clause_count self.now }
    {
        count(self)
    }
}

/// The number of clauses, which must fit in 64 bits.
#[cycle(count)]
#[tactic(auto, using(std::proofs::lemmas::Grind::common_steps, crate::proofs::Sizes::count_layers))]
fn count(expanded: &Expanded) -> u64
    requires { clause_count expanded.now < 2 ^ 64 }
    ensures { result ≡ clause_count expanded.now }
{
    match expanded {
        Expanded::Constant(_) => 1,
        Expanded::Leaf { .. } => 0,
        Expanded::Not(inner) => count(inner.get()),
        Expanded::And(parts) => count_all(parts.as_slice()),
        Expanded::Or(parts) => count_all(parts.as_slice()),
        Expanded::Iff(left, right) => count(left.get()) + count(right.get()) + 4,
    }
}

/// The number of clauses of the parts and of the gate that joins them, a conjunction or a disjunction.
#[cycle(count)]
#[tactic(auto, using(std::proofs::lemmas::Grind::common_steps, crate::proofs::Sizes::count_layers))]
fn count_all(parts: &[Expanded]) -> u64
    requires { clause_count (Expanded.And parts.now) < 2 ^ 64 }
    ensures { result ≡ clause_count (Expanded.And parts.now) }
{
    let mut clauses = 0;
    for part in parts {
        clauses += count(part);
    }
    clauses + (parts.len() as u64 + 1)
}
