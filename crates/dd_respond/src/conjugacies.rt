//! Answers to questions about conjugacies: whether two maps between two subshifts are inverse to each other. Such a question
//! comes down to four box questions, its parts, which are numbered from 1. They are decided in turn, until one is answered NO.
ghost use Rattle.std.specs.Prelude.{◌≡◌, ◌≤◌, ◌∷◌, ◌++◌, [], false, IfOk, OnOk, MatchOption};
ghost use Rattle.dd_certificate.specs.Bounds.{IsWritable, IsWritableNumber, IsWritablePart};
ghost use Rattle.dd_engines.specs.Rosters.{roster_seen};
ghost use Rattle.dd_contain.specs.Engines.{AreAsked};
ghost use Rattle.dd_values.specs.Ranges.{AreLimits};
ghost use Rattle.dd_question.specs.Boxes.{IsSoundBox};
ghost use Rattle.dd_question.specs.Conjugacies.{EachPart, conjugacy_of};
ghost use Rattle.dd_respond.specs.Writable.{IsWritableDecision};
ghost use Rattle.dd_respond.specs.Conjugacies.{ComesTo, written_broken, IsRightConjugacy};
ghost use Rattle.dd_respond.specs.joining.Findings.{AreFound, IsFailed, written_findings};

use crate::boxes::widened;
use dd_certificate::{Answer, Reason, refutations_fit};
use dd_contain::{Decision, decide};
use dd_derivation::Step;
use dd_engines::{Engine, Roster, first_asked_earlier, kept_is_reflexive, kept_is_transitive};
use dd_pattern::Periodic;
use dd_question::Conjugacy;
use dd_values::{Items, Limits};
use std::alloc::{AllocError, Global};

/// The answers so far, none of them NO.
#[derive(Drop)]
struct Findings {
    /// For each YES, the radius of the box that shows it.
    radii: Items<u64>,
    /// For each YES, the steps that refute the clauses of its box.
    steps: Items<Items<Step>>,
    /// Whether the limits left some question undecided.
    is_open: bool,
}

/// The number of a question that was answered NO, and a configuration that shows this.
#[derive(Drop)]
struct Failed {
    number: u64,
    periodic: Periodic,
}

impl Findings {
    /// No answers yet.
    fn new(alloc: Global) -> Findings
        ensures radii { result.radii ≡ [] }
        ensures steps { result.steps ≡ [] }
        ensures open { result.is_open ≡ false }
    {
        Findings {
            radii: Items::new(alloc),
            steps: Items::new(alloc),
            is_open: false,
        }
    }

    /// Adds a YES.
    fn push(&mut self, radius: u32, steps: Items<Step>) -> Result<(), AllocError>
        ensures radii { OnOk result (self.new.radii ≡ self.old.radii ++ radius ∷ []) }
        ensures steps { OnOk result (self.new.steps ≡ self.old.steps ++ steps ∷ []) }
        ensures open { self.new.is_open ≡ self.old.is_open }
        ensures small { IsWritableNumber radius }
    {
        self.radii.push(u64::from(radius))?;
        self.steps.push(steps)
    }
}

/// Decides the question with this number. The roster is used as in `decide` of `dd_contain`.
fn part_decided<E: Engine>(
    alloc: Global,
    conjugacy: &Conjugacy,
    number: u64,
    limits: &Limits,
    roster: &mut Roster<E>,
) -> Result<Decision, AllocError>
    requires number { IsWritablePart number }
    requires limits { AreLimits limits.now }
    requires sound { EachPart (IsSoundBox limits.now) (conjugacy_of conjugacy.now) }
    ensures comes { IfOk result (ComesTo limits.now (conjugacy_of conjugacy.now) number) }
    ensures writable { IfOk result IsWritableDecision }
    ensures engines { AreAsked (roster_seen E.asked E.given E.sound roster.old) (roster_seen E.asked E.given E.sound roster.new) result }
{
    refutations_fit();
    match conjugacy.part(number) {
        Some((premise, goal)) => decide(alloc, premise, &goal, limits, roster),
        None => unreachable!(),
    }
}

/// The first of the four questions that is answered NO. Later questions are not decided. The result is `None` if no question is
/// answered NO. Then `findings` has the answers to all four.
fn first_failed<E: Engine>(
    alloc: Global,
    conjugacy: &Conjugacy,
    limits: &Limits,
    roster: &mut Roster<E>,
    findings: &mut Findings,
) -> Result<Option<Failed>, AllocError>
    requires limits { AreLimits limits.now }
    requires sound { EachPart (IsSoundBox limits.now) (conjugacy_of conjugacy.now) }
    requires found { AreFound limits.now (conjugacy_of conjugacy.now) 1 findings.old }
    ensures failed { IfOk result (λ failed. MatchOption failed (AreFound limits.now (conjugacy_of conjugacy.now) 5 findings.new) (IsFailed limits.now (conjugacy_of conjugacy.now))) }
    ensures engines { AreAsked (roster_seen E.asked E.given E.sound roster.old) (roster_seen E.asked E.given E.sound roster.new) result }
{
    // Laws of a roster that is asked several times.
    kept_is_reflexive();
    kept_is_transitive();
    first_asked_earlier();
    for number in 1..5u64 {
        match part_decided(alloc, conjugacy, number, limits, roster)? {
            Decision::Yes { radius, steps } => findings.push(radius, steps)?,
            Decision::No { periodic } => return Ok(Some(Failed { number, periodic })),
            Decision::Unknown => findings.is_open = true,
        }
    }
    Ok(None)
}

/// The answer BROKEN, with the number of a question and a configuration.
fn written_broken(alloc: Global, number: u64, periodic: &Periodic) -> Result<Answer, AllocError>
    requires { IsWritablePart number }
    ensures same { IfOk result (λ answer. answer ≡ written_broken number periodic.now) }
    ensures writable { IfOk result IsWritable }
{
    let symbols = widened(alloc, periodic.symbols())?;
    let all = periodic.periods();
    let periods = widened(alloc, &all[..periodic.dim() as usize])?;
    Ok(Answer::Broken {
        part: number,
        periods,
        shear: u64::from(periodic.shear()),
        symbols,
    })
}

/// The answer if no question is answered NO: CONJUGATE, or UNKNOWN if some question was left open.
fn written_findings(findings: Findings) -> Answer
    ensures { result ≡ written_findings findings }
{
    if findings.is_open {
        return Answer::Unknown {
            reason: Reason::Limits,
        };
    }
    Answer::Conjugate {
        radii: findings.radii,
        steps: findings.steps,
    }
}

/// The answer to the question whether two maps between two subshifts are inverse to each other, within the limits. The roster
/// is used as in `decide` of `dd_contain`.
pub(crate) fn conjugate<E: Engine>(
    alloc: Global,
    conjugacy: &Conjugacy,
    limits: &Limits,
    roster: &mut Roster<E>,
) -> Result<Answer, AllocError>
    requires limits { AreLimits limits.now }
    requires sound { EachPart (IsSoundBox limits.now) (conjugacy_of conjugacy.now) }
    ensures right { IfOk result (IsRightConjugacy limits.now (conjugacy_of conjugacy.now)) }
    ensures writable { IfOk result IsWritable }
    ensures engines { AreAsked (roster_seen E.asked E.given E.sound roster.old) (roster_seen E.asked E.given E.sound roster.new) result }
{
    let mut findings = Findings::new(alloc);
    match first_failed(alloc, conjugacy, limits, roster, &mut findings)? {
        Some(failed) => written_broken(alloc, failed.number, &failed.periodic),
        None => Ok(written_findings(findings)),
    }
}
