//! The two counts that an engine keeps.
ghost use Rattle.std.specs.Prelude.{◌≡◌, ◌-◌, ◌^◌, ◌≤◌};
ghost use Rattle.dd_engines.specs.Proposals.{RisesOn};
ghost use Rattle.dd_engines.specs.Rounds.{RisesByOne};

use std::marker::Model;

/// How often an engine was asked, and how often it proposed something. Each count stops at 2^64 - 1.
#[derive(Debug, Drop)]
pub struct Tally {
    asked: u64,
    given: u64,
}

impl Model for Tally {
    ghost use Rattle.std.specs.Prelude.{◌-◌, ◌^◌, ◌≤◌};
    ghost use Rattle.dd_engines.specs.Tallies.{Counts};

    ghost Value = { Counts };

    ghost view = { λ tally. record { asked = tally.asked; given = tally.given } };

    ghost invariant = { λ tally. (tally.asked ≤ 2 ^ 64 - 1) × (tally.given ≤ 2 ^ 64 - 1) };
}

impl Tally {
    /// The counts of an engine that has never been asked.
    pub fn new() -> Self
        ensures asked { result.asked ≡ 0 }
        ensures given { result.given ≡ 0 }
    {
        Tally { asked: 0, given: 0 }
    }

    /// Raises the count of how often the engine was asked.
    pub fn ask(&mut self)
        ensures asked { RisesByOne self.old.asked self.new.asked }
        ensures given { self.new.given ≡ self.old.given }
        ensures fits { (self.new.asked ≤ 2 ^ 64 - 1) × (self.new.given ≤ 2 ^ 64 - 1) }
    {
        self.asked = self.asked.saturating_add(1);
    }

    /// Raises the count of how often the engine proposed something.
    pub fn give(&mut self)
        ensures asked { self.new.asked ≡ self.old.asked }
        ensures given { RisesOn self.old.given self.new.given }
        ensures fits { (self.new.asked ≤ 2 ^ 64 - 1) × (self.new.given ≤ 2 ^ 64 - 1) }
    {
        self.given = self.given.saturating_add(1);
    }
}
