//! The search for the least radius tried that suffices and, if none does, for the first periods that show the goal.
ghost use Rattle.std.specs.Prelude.{◌≡◌, ◌≤◌, ◌<◌, ℕ, List, length, IfOk, OnOk, MatchOption};
ghost use Rattle.dd_derivation.specs.declared.step.Step.{Step as AnyStep};
ghost use Rattle.dd_pattern.specs.declared.periods.Periods.{Periods as AnyPeriods};
ghost use Rattle.dd_pattern.specs.Tile.{Tile};
ghost use Rattle.dd_engines.specs.Rosters.{roster_seen};
ghost use Rattle.dd_engines.specs.Rounds.{Kept, FirstAsked};
ghost use Rattle.dd_contain.specs.Engines.{AreAsked};
ghost use Rattle.dd_contain.specs.Decided.{NoneIn, IsLeast, NoneWithin, IsFirst, IsDecidedBy};
ghost use Rattle.dd_contain.specs.searching.Listed.{NoneBefore, IsFirstOf, AsksRadii, AsksListed, AsksWithin};
ghost use Rattle.dd_contain.specs.searching.Asking.{AskedOrSame};

use crate::decision::{Decision, Enough};
use dd_derivation::Step;
use dd_engines::{Engine, Roster, first_asked_earlier, kept_is_reflexive, kept_is_transitive};
use dd_pattern::{Periodic, Periods};
use dd_values::Items;
use std::alloc::{AllocError, Global};

/// What the search asks: whether a radius suffices, and whether some configuration of given periods shows the goal. Each yes
/// comes with its evidence. The roster's engines may help. Periods always include their shear here.
pub(crate) trait Questions {
    /// The radius suffices.
    ghost suffices: { Self → ℕ → Type 0 };

    /// These steps show that the radius suffices.
    ghost refutes: { Self → ℕ → List AnyStep → Type 0 };

    /// Some configuration of these periods shows the goal.
    ghost shows: { Self → AnyPeriods → Type 0 };

    /// This configuration of these periods shows the goal.
    ghost displays: { Self → AnyPeriods → Tile → Type 0 };

    /// The search may ask about this radius.
    ghost asks_radius: { Self → ℕ → Type 0 };

    /// The search may ask about these periods.
    ghost asks_periods: { Self → AnyPeriods → Type 0 };

    /// Steps that show that the radius suffices, or `None` if it doesn't suffice.
    fn refutation<E: Engine>(
        &self,
        radius: u32,
        roster: &mut Roster<E>,
    ) -> Result<Option<Items<Step>>, AllocError>
        requires { asks_radius self.now radius }
        ensures found { IfOk result (λ found. MatchOption found (suffices self.now radius → ⊥) (λ steps. suffices self.now radius × refutes self.now radius steps)) }
        ensures engines { AreAsked (roster_seen E.asked E.given E.sound roster.old) (roster_seen E.asked E.given E.sound roster.new) result };

    /// A configuration of these periods that shows the goal, or `None` if there is none.
    fn configuration<E: Engine>(
        &self,
        at: &Periods,
        roster: &mut Roster<E>,
    ) -> Result<Option<Periodic>, AllocError>
        requires { asks_periods self.now at.now }
        ensures found { IfOk result (λ found. MatchOption found (shows self.now at.now → ⊥) (λ tile. shows self.now at.now × displays self.now at.now tile)) }
        ensures engines { AreAsked (roster_seen E.asked E.given E.sound roster.old) (roster_seen E.asked E.given E.sound roster.new) result };
}

/// A configuration that shows the goal, with its periods.
#[derive(Drop)]
struct Shown {
    at: Periods,
    periodic: Periodic,
}

/// The least radius from `least` to `most` that suffices, with steps that show this; or `None` if none does.
fn first_radius<Q: Questions, E: Engine>(
    questions: &Q,
    least: u32,
    most: u32,
    roster: &mut Roster<E>,
) -> Result<Option<Enough>, AllocError>
    requires most { most < 2147483648 }
    requires asks { AsksRadii (Q.asks_radius questions.now) least most }
    ensures found { IfOk result (λ found. MatchOption found (NoneIn (Q.suffices questions.now) least most)
        (λ enough. IsLeast (Q.suffices questions.now) least most enough.radius × Q.refutes questions.now enough.radius enough.steps)) }
    ensures kept { Kept (roster_seen E.asked E.given E.sound roster.old) (roster_seen E.asked E.given E.sound roster.new) }
    ensures first { OnOk result (least ≤ most → FirstAsked (roster_seen E.asked E.given E.sound roster.old) (roster_seen E.asked E.given E.sound roster.new)) }
{
    // Laws of a roster that is asked several times.
    kept_is_reflexive();
    kept_is_transitive();
    first_asked_earlier();
    for radius in least..most + 1 {
        if let Some(steps) = questions.refutation(radius, roster)? {
            return Ok(Some(Enough { radius, steps }));
        }
    }
    Ok(None)
}

/// The first periods in the list that show the goal, with a configuration that shows it; or `None` if none do.
#[tactic(auto, using(crate::proofs::AskingLaws::same_so_far, crate::proofs::AskingLaws::asked_since))]
fn first_listed<Q: Questions, E: Engine>(
    questions: &Q,
    all: &[Periods],
    roster: &mut Roster<E>,
) -> Result<Option<Shown>, AllocError>
    requires { AsksListed (Q.asks_periods questions.now) all.now }
    ensures found { IfOk result (λ found. MatchOption found (NoneBefore (Q.shows questions.now) all.now (length all.now))
        (λ shown. IsFirstOf (Q.shows questions.now) all.now shown.at × Q.displays questions.now shown.at shown.periodic)) }
    ensures kept { Kept (roster_seen E.asked E.given E.sound roster.old) (roster_seen E.asked E.given E.sound roster.new) }
    ensures asked { OnOk result (AskedOrSame (roster_seen E.asked E.given E.sound roster.old) (roster_seen E.asked E.given E.sound roster.new)) }
{
    // Laws of a roster that is asked several times.
    kept_is_reflexive();
    kept_is_transitive();
    first_asked_earlier();
    for at in all {
        if let Some(periodic) = questions.configuration(at, roster)? {
            return Ok(Some(Shown { at: *at, periodic }));
        }
    }
    Ok(None)
}

/// The first periods that show the goal, in `dim` dimensions and at most `most` along each axis, with a configuration that
/// shows it; or `None` if none do. The order is that of `search`.
fn first_periods<Q: Questions, E: Engine>(
    alloc: Global,
    questions: &Q,
    dim: u32,
    most: u32,
    roster: &mut Roster<E>,
) -> Result<Option<Shown>, AllocError>
    requires { AsksWithin (Q.asks_periods questions.now) dim most }
    ensures found { IfOk result (λ found. MatchOption found (NoneWithin (Q.shows questions.now) dim most)
        (λ shown. IsFirst (Q.shows questions.now) dim most shown.at × Q.displays questions.now shown.at shown.periodic)) }
    ensures kept { Kept (roster_seen E.asked E.given E.sound roster.old) (roster_seen E.asked E.given E.sound roster.new) }
    ensures asked { OnOk result (AskedOrSame (roster_seen E.asked E.given E.sound roster.old) (roster_seen E.asked E.given E.sound roster.new)) }
{
    // A law: an unchanged roster keeps its sound engines (`Kept`).
    kept_is_reflexive();
    let all = Periods::within(alloc, dim, most)?;
    first_listed(questions, &all, roster)
}

/// The decision: the least radius from `least` to `most` that suffices; else a configuration of the first periods that show the
/// goal, in `dim` dimensions and at most `period` along each axis; else unknown. Periods are ordered by volume, then
/// lexicographically, with the shear last.
#[tactic(auto, using(crate::proofs::AskingLaws::asked_still))]
pub(crate) fn search<Q: Questions, E: Engine>(
    alloc: Global,
    questions: &Q,
    least: u32,
    most: u32,
    dim: u32,
    period: u32,
    roster: &mut Roster<E>,
) -> Result<Decision, AllocError>
    requires radius { most < 2147483648 }
    requires some { least ≤ most }
    requires radii { AsksRadii (Q.asks_radius questions.now) least most }
    requires periods { AsksWithin (Q.asks_periods questions.now) dim period }
    ensures decided { IfOk result (IsDecidedBy (Q.suffices questions.now) (Q.refutes questions.now) (Q.shows questions.now) (Q.displays questions.now) least most dim period) }
    ensures engines { AreAsked (roster_seen E.asked E.given E.sound roster.old) (roster_seen E.asked E.given E.sound roster.new) result }
{
    // Laws of a roster that is asked several times.
    kept_is_transitive();
    first_asked_earlier();
    match first_radius(questions, least, most, roster)? {
        Some(enough) => Ok(Decision::Yes {
            radius: enough.radius,
            steps: enough.steps,
        }),
        None => match first_periods(alloc, questions, dim, period, roster)? {
            Some(shown) => Ok(Decision::No {
                periodic: shown.periodic,
            }),
            None => Ok(Decision::Unknown),
        },
    }
}
