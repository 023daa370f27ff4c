//! Reads refutations. A refutation is a list of steps. The line of a step has the literals of its clause, then its hints, and
//! then its deletes. The hints are the numbers of the clauses from which this clause follows. The deletes are numbers of
//! clauses, too: no later step may have them among its hints.
ghost use Rattle.std.specs.Prelude.{◌≡◌};
ghost use Rattle.dd_certificate.specs.Bounds.{most_count};
ghost use Rattle.dd_output.specs.reading.Stops.{Gives, number_at, many_at, copies};
ghost use Rattle.dd_output.specs.reading.Grammar.{step, refutation};

use crate::fault::ReadFault;
use crate::lexing::{number_at, word_at};
use crate::lists::{clause_of, numbers_until};
use dd_clause::Literal;
use dd_derivation::Step;
use dd_values::Items;
use std::alloc::Global;

/// Buffers for the lists of a step. Each list is gathered here, and then copied to a list of its own. All steps of a refutation
/// share the buffers.
#[derive(Drop)]
struct Buffers {
    literals: Vec<Literal>,
    numbers: Vec<u64>,
}

/// The line of a step.
#[tactic(auto, unfolding(crate::specs::reading::Grammar::step))]
fn step_of<'a>(
    alloc: Global,
    buffers: &mut Buffers,
    bytes: &'a [u8],
) -> Result<(Step, &'a [u8]), ReadFault>
    ensures { Gives (λ x. (x.0, x.1.now)) result (step.read bytes.now) }
{
    let rest = word_at(bytes, b"step ")?;
    let (clause, rest) = clause_of(alloc, &mut buffers.literals, rest)?;
    let (hints, rest) = numbers_until(alloc, &mut buffers.numbers, rest, b' ')?;
    let (deletes, rest) = numbers_until(alloc, &mut buffers.numbers, rest, b'\n')?;
    Ok((
        Step {
            clause,
            hints,
            deletes,
        },
        rest,
    ))
}

/// The number of steps.
#[tactic(auto, using(crate::proofs::Counts::number_any))]
fn count_of_steps(bytes: &[u8]) -> Result<(u64, u8, &[u8]), ReadFault>
    ensures { Gives (λ x. ((x.0, x.1), x.2.now)) result (number_at 1 most_count 10 10 (λ n. copies n step.least) bytes.now) }
{
    number_at(bytes, 1, u64::MAX, b'\n', b'\n')
}

/// `count` steps.
fn steps_of(alloc: Global, count: u64, bytes: &[u8]) -> Result<(Items<Step>, &[u8]), ReadFault>
    ensures { Gives (λ x. (x.0, x.1.now)) result (many_at step.read step.least count bytes.now) }
{
    let mut buffers = Buffers {
        literals: Vec::new(alloc),
        numbers: Vec::new(alloc),
    };
    let mut steps = Items::new(alloc);
    let mut rest = bytes;
    for _ in 0..count {
        let (step, after) = step_of(alloc, &mut buffers, rest)?;
        steps.push(step)?;
        rest = after;
    }
    Ok((steps, rest))
}

/// A refutation: a line with the number of its steps, and then the steps.
#[tactic(auto, unfolding(crate::specs::reading::Grammar::refutation))]
pub(crate) fn refutation_of(alloc: Global, bytes: &[u8]) -> Result<(Items<Step>, &[u8]), ReadFault>
    ensures { Gives (λ x. (x.0, x.1.now)) result (refutation.read bytes.now) }
{
    let rest = word_at(bytes, b"refutation ")?;
    let (count, _, rest) = count_of_steps(rest)?;
    steps_of(alloc, count, rest)
}
