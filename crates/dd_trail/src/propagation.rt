//! Unit propagation looks at clauses. If one forces a literal, the literal becomes true.
ghost use Rattle.std.specs.Prelude.{◌≡◌, IfOk, MatchOption, ⊤};
ghost use Rattle.dd_derivation.specs.declared.propagation.Finding.TheVariants.{Open};
ghost use Rattle.dd_derivation.specs.Derivations.{hint_finding, is_among};
ghost use Rattle.dd_trail.specs.Trails.{falses};
ghost use Rattle.dd_trail.specs.Reasons.{AreInRange, IsTrail};
ghost use Rattle.dd_trail.specs.Propagation.{Says, AreOpenBetween, IsConflict, Extends};

use crate::database::Database;
use crate::trail::{Entry, Trail};
use dd_clause::Literal;
use dd_derivation::{Finding, find};
use std::alloc::AllocError;

/// What a look at clauses finds: the number of a clause that is falsified or forces a literal, or nothing.
#[derive(Clone, Copy)]
pub(crate) enum Scan {
    /// All literals of the clause with this number are false.
    Conflict(u64),
    /// All literals of the clause with this number are false, except this one, whose variable has no value.
    Unit(u64, Literal),
    /// No such clause was found.
    Nothing,
}

/// Looks at the clause with this number. Finds nothing if there is no such clause.
fn look_at(database: &Database, trail: &Trail, number: u64) -> Scan
    ensures { Says database.now (falses trail.now.entries) (hint_finding database.now (is_among (falses trail.now.entries)) number ≡ Open) result }
{
    match database.find_clause(number) {
        None => Scan::Nothing,
        Some(clause) => match find(trail, clause) {
            Finding::Falsified => Scan::Conflict(number),
            Finding::Forced(literal) => Scan::Unit(number, literal),
            Finding::Open => Scan::Nothing,
        },
    }
}

/// Looks at the clause with this number. If it forces a literal, makes the literal true. If it is falsified, returns its
/// number, and otherwise `None`.
pub(crate) fn follow(
    database: &Database,
    trail: &mut Trail,
    number: u64,
) -> Result<Option<u64>, AllocError>
    requires in_range { AreInRange trail.old.variables database.now }
    requires trail { IsTrail trail.old.variables database.now trail.old.entries }
    ensures extends { Extends database.now trail.old trail.new }
    ensures conflict { IfOk result (λ conflict. MatchOption conflict ⊤ (IsConflict database.now trail.new.entries)) }
{
    match look_at(database, trail, number) {
        Scan::Conflict(number) => Ok(Some(number)),
        Scan::Unit(number, literal) => {
            trail.assign(Entry {
                literal,
                reason: Some(number),
            })?;
            Ok(None)
        }
        Scan::Nothing => Ok(None),
    }
}

/// Looks at the clauses with the numbers from `from + 1` to `to`, until one is falsified or forces a literal.
pub(crate) fn scan_between(database: &Database, trail: &Trail, from: u64, to: u64) -> Scan
    ensures { Says database.now (falses trail.now.entries) (AreOpenBetween database.now (falses trail.now.entries) from to) result }
{
    for place in from..to {
        match look_at(database, trail, place + 1) {
            Scan::Conflict(number) => return Scan::Conflict(number),
            Scan::Unit(number, literal) => return Scan::Unit(number, literal),
            Scan::Nothing => {}
        }
    }
    Scan::Nothing
}
