//! The engine that walks: it tries the assignments of one walk. Each flip takes a clause that is not satisfied, and makes one
//! of its literals true (Papadimitriou 1991; Selman, Kautz and Cohen 1994). Here nothing is random.
ghost use Rattle.std.specs.Prelude.{◌≡◌, ◌-◌, ◌^◌, ◌≤◌, true, IfOk, OnErr};
ghost use Rattle.dd_engines.specs.Proposals.{IsRight, GivenAfter};
ghost use Rattle.dd_engines.specs.Rounds.{RisesByOne};
ghost use Rattle.dd_engines.specs.Walkers.{flips_of};
ghost use Rattle.dd_engines.specs.Walks.{ProposesFirst};

use crate::chains::{Chains, listed};
use crate::engine::{Engine, Proposal};
use crate::tally::Tally;
use crate::walk::first_found;
use dd_clause::Cnf;
use std::alloc::{AllocError, Global};

/// Proposes the first satisfying assignment on a walk that starts with all variables false and makes a limited number of flips.
/// Flip number k, counted from 0, takes the first clause without a true literal. It makes one literal of this clause true: the
/// one at place `k % n`, counted from 0, where n is the length of the clause. If no assignment on the walk satisfies the
/// clauses, or if a flip takes an empty clause, the engine proposes nothing.
#[derive(Drop)]
pub struct Walker {
    flips: u32,
    tally: Tally,
    /// The chains that were made last. Their memory is reused.
    room: Option<Chains>,
}

impl Walker {
    /// An engine that makes at most `flips` flips each time it is asked. It has not been asked yet.
    pub fn new(flips: u32) -> Self
        ensures flips { flips_of result ≡ flips }
        ensures asked { ⟦<Walker as Engine>⟧.asked result ≡ 0 }
        ensures given { ⟦<Walker as Engine>⟧.given result ≡ 0 }
        ensures sound { ⟦<Walker as Engine>⟧.sound result ≡ true }
    {
        Walker {
            flips,
            tally: Tally::new(),
            room: None,
        }
    }
}

impl Engine for Walker {
    ghost asked = { λ engine. engine.tally.asked };

    ghost given = { λ engine. engine.tally.given };

    ghost sound = { λ _. true };

    fn propose(&mut self, alloc: Global, cnf: &Cnf) -> Result<Proposal, AllocError>
        ensures asked { RisesByOne (⟦<Walker as Engine>⟧.asked self.old) (⟦<Walker as Engine>⟧.asked self.new) }
        ensures given { IfOk result (GivenAfter (⟦<Walker as Engine>⟧.given self.old) (⟦<Walker as Engine>⟧.given self.new)) }
        ensures no_memory { OnErr result (⟦<Walker as Engine>⟧.given self.new ≡ ⟦<Walker as Engine>⟧.given self.old) }
        ensures fits { (⟦<Walker as Engine>⟧.asked self.new ≤ 2 ^ 64 - 1) × (⟦<Walker as Engine>⟧.given self.new ≤ 2 ^ 64 - 1) }
        ensures same { ⟦<Walker as Engine>⟧.sound self.new ≡ ⟦<Walker as Engine>⟧.sound self.old }
        ensures right { ⟦<Walker as Engine>⟧.sound self.old ≡ true → IfOk result (IsRight cnf.now) }
        ensures exact { IfOk result (ProposesFirst cnf.now (flips_of self.old)) }
        ensures flips { flips_of self.new ≡ flips_of self.old }
    {
        self.tally.ask();
        let chains = listed(alloc, &mut self.room, cnf)?;
        let found = first_found(alloc, cnf, &chains, self.flips);
        self.room = Some(chains);
        match found? {
            Some(assignment) => {
                self.tally.give();
                Ok(Proposal::Found(assignment))
            }
            None => Ok(Proposal::Nothing),
        }
    }
}
