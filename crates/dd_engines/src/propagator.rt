//! The engine that uses only unit propagation. It refutes a clause list in one step if that can be done. Its time is linear in
//! the number of variables plus the total length of the clauses.
ghost use Rattle.std.specs.Prelude.{◌≡◌, ◌-◌, ◌^◌, ◌≤◌, true, IfOk, OnErr};
ghost use Rattle.dd_engines.specs.Proposals.{IsRight, GivenAfter};
ghost use Rattle.dd_engines.specs.Rounds.{RisesByOne};
ghost use Rattle.dd_engines.specs.SingleSteps.{ProposesSingleStep};

use crate::chains::Chains;
use crate::engine::{Engine, Proposal};
use crate::propagation::single_step;
use crate::tally::Tally;
use dd_clause::Cnf;
use dd_values::Items;
use std::alloc::{AllocError, Global};

/// Proposes a refutation by a single step exactly when there is one, that is, when unit propagation from no assumptions ends in
/// a conflict. Otherwise it proposes nothing.
#[derive(Drop)]
pub struct Propagator {
    tally: Tally,
    /// The chains that were made last. Their memory is reused.
    room: Option<Chains>,
}

impl Propagator {
    /// An engine that has not been asked yet.
    pub fn new() -> Self
        ensures asked { ⟦<Propagator as Engine>⟧.asked result ≡ 0 }
        ensures given { ⟦<Propagator as Engine>⟧.given result ≡ 0 }
        ensures sound { ⟦<Propagator as Engine>⟧.sound result ≡ true }
    {
        Propagator {
            tally: Tally::new(),
            room: None,
        }
    }
}

impl Engine for Propagator {
    ghost asked = { λ engine. engine.tally.asked };

    ghost given = { λ engine. engine.tally.given };

    ghost sound = { λ _. true };

    fn propose(&mut self, alloc: Global, cnf: &Cnf) -> Result<Proposal, AllocError>
        ensures asked { RisesByOne (⟦<Propagator as Engine>⟧.asked self.old) (⟦<Propagator as Engine>⟧.asked self.new) }
        ensures given { IfOk result (GivenAfter (⟦<Propagator as Engine>⟧.given self.old) (⟦<Propagator as Engine>⟧.given self.new)) }
        ensures no_memory { OnErr result (⟦<Propagator as Engine>⟧.given self.new ≡ ⟦<Propagator as Engine>⟧.given self.old) }
        ensures fits { (⟦<Propagator as Engine>⟧.asked self.new ≤ 2 ^ 64 - 1) × (⟦<Propagator as Engine>⟧.given self.new ≤ 2 ^ 64 - 1) }
        ensures same { ⟦<Propagator as Engine>⟧.sound self.new ≡ ⟦<Propagator as Engine>⟧.sound self.old }
        ensures right { ⟦<Propagator as Engine>⟧.sound self.old ≡ true → IfOk result (IsRight cnf.now) }
        ensures exact { IfOk result (ProposesSingleStep cnf.now) }
    {
        self.tally.ask();
        match single_step(alloc, cnf, &mut self.room)? {
            Some(step) => {
                let mut steps = Items::new(alloc);
                steps.push(step)?;
                self.tally.give();
                Ok(Proposal::Refutation(steps))
            }
            None => Ok(Proposal::Nothing),
        }
    }
}
