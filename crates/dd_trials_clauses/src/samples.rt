// Answers of every kind, each with its first line and the lines that follow, written by hand. Only the texts are tested, so the
// answers need not be right.
use dd_certificate::{Answer, Listed, Reason, Side, Starred};
use dd_clause::{Clause, Literal};
use dd_derivation::Step;
use dd_values::Items;
use std::alloc::{AllocError, Global};

/// A list of one step. The step has these hints and deletes, and its clause has these literals.
fn steps(
    alloc: Global,
    literals: &[i32],
    hints: &[u64],
    deletes: &[u64],
) -> Result<Items<Step>, AllocError> {
    let mut clause = Vec::new(alloc);
    for number in literals {
        clause.push(Literal {
            variable: number.unsigned_abs(),
            positive: *number > 0,
        })?;
    }
    let mut steps = Items::new(alloc);
    steps.push(Step {
        clause: Clause::from_literals(alloc, clause.as_slice())?,
        hints: Items::from_slice(alloc, hints)?,
        deletes: Items::from_slice(alloc, deletes)?,
    })?;
    Ok(steps)
}

/// A YES, with a refutation of clauses about the box of radius 0. The refutation has one step, whose clause is empty.
fn yes(alloc: Global) -> Result<Answer, AllocError> {
    Ok(Answer::Yes {
        radius: 0,
        steps: steps(alloc, &[], &[6, 3, 4, 2], &[])?,
    })
}

/// The answer that two rules are equal: for each direction of containment, a radius and steps. The steps of the first
/// direction have the largest variable and the largest hint that an output can hold.
fn yes_both(alloc: Global) -> Result<Answer, AllocError> {
    Ok(Answer::YesBoth {
        left: 3,
        right: 10,
        left_steps: steps(alloc, &[-16777216, 2], &[u64::MAX], &[10, 9])?,
        right_steps: steps(alloc, &[], &[1], &[])?,
    })
}

/// A NO with a configuration of periods 2 and 1. The shear is how far the second period vector goes along the first axis. For a
/// query about the equality of two rules, the side says which of them the configuration obeys.
fn no(alloc: Global, side: Side, shear: u64) -> Result<Answer, AllocError> {
    Ok(Answer::No {
        side,
        periods: Items::from_slice(alloc, &[2, 1])?,
        shear,
        symbols: Items::from_slice(alloc, &[1, 0])?,
    })
}

fn listed(alloc: Global, node: u64, symbols: &[u64]) -> Result<Listed, AllocError> {
    Ok(Listed {
        node,
        symbols: Items::from_slice(alloc, symbols)?,
    })
}

/// A list of two patterns, one with symbols and one without.
fn list(alloc: Global) -> Result<Answer, AllocError> {
    let mut patterns = Items::new(alloc);
    patterns.push(listed(alloc, 0, &[1, 0, 1])?)?;
    patterns.push(listed(alloc, 12, &[])?)?;
    Ok(Answer::List { patterns })
}

/// The density 1/2, with a cycle of two states of a transfer graph, and a potential for each state.
fn density(alloc: Global) -> Result<Answer, AllocError> {
    Ok(Answer::Density {
        numerator: 1,
        denominator: 2,
        cycle: Items::from_slice(alloc, &[0, 1])?,
        potentials: Items::from_slice(alloc, &[0, -1])?,
    })
}

/// A bound by discharging, with the numerators of its amounts and duals over a common denominator. The amounts say how much
/// weight positions give to others, and the duals show that no amounts lead to a greater bound.
fn bound(alloc: Global) -> Result<Answer, AllocError> {
    Ok(Answer::Bound {
        numerator: 1,
        denominator: 2,
        common: 2,
        amounts: Items::from_slice(alloc, &[0, 1])?,
        duals: Items::from_slice(alloc, &[0, 1, 1])?,
    })
}

/// Three patterns with stars, and one with neither symbols nor stars. A star stands for a cell that is left out.
fn minimal(alloc: Global) -> Result<Answer, AllocError> {
    let mut patterns = Items::new(alloc);
    patterns.push(starred(alloc, 0, &[Some(1), None, Some(1)])?)?;
    patterns.push(starred(alloc, 0, &[Some(1), Some(12), None])?)?;
    patterns.push(starred(alloc, 12, &[])?)?;
    patterns.push(starred(alloc, 13, &[None])?)?;
    Ok(Answer::Minimal { patterns })
}

fn starred(alloc: Global, node: u64, symbols: &[Option<u64>]) -> Result<Starred, AllocError> {
    Ok(Starred {
        node,
        symbols: Items::from_slice(alloc, symbols)?,
    })
}

/// Four radii, and a list of one step for each. The clause of the second list's step is not empty.
fn conjugate(alloc: Global) -> Result<Answer, AllocError> {
    let mut lists = Items::new(alloc);
    lists.push(steps(alloc, &[], &[6, 3, 4, 2], &[])?)?;
    lists.push(steps(alloc, &[-3, 2], &[7], &[1])?)?;
    lists.push(steps(alloc, &[], &[1], &[])?)?;
    lists.push(steps(alloc, &[], &[2], &[])?)?;
    Ok(Answer::Conjugate {
        radii: Items::from_slice(alloc, &[2, 1, 0, 10])?,
        steps: lists,
    })
}

/// A conjugacy query asks four questions. This answer has the number of one of them whose answer is no, and a configuration
/// that shows this.
fn broken(alloc: Global, part: u64, periods: &[u64], shear: u64) -> Result<Answer, AllocError> {
    Ok(Answer::Broken {
        part,
        periods: Items::from_slice(alloc, periods)?,
        shear,
        symbols: Items::from_slice(alloc, &[1, 0])?,
    })
}

/// The least weight, 2, with the symbols of a box of this weight, and a refutation of smaller weights.
fn least(alloc: Global) -> Result<Answer, AllocError> {
    Ok(Answer::Least {
        weight: 2,
        symbols: Items::from_slice(alloc, &[1, 0, 1])?,
        steps: steps(alloc, &[], &[1], &[])?,
    })
}

/// The least weight, 0, with the symbols of a box of this weight. There is no refutation, since no weight is smaller.
fn least_of_all(alloc: Global) -> Result<Answer, AllocError> {
    Ok(Answer::Least {
        weight: 0,
        symbols: Items::from_slice(alloc, &[0, 0])?,
        steps: Items::new(alloc),
    })
}

/// Names of the answers that are written. If a name stands for several samples, its fields tell them apart.
pub(crate) enum Sample {
    Yes,
    YesBoth,
    Inside,
    Outside(&'static [i64]),
    No(Side, u64),
    Unknown(Reason),
    List,
    Density,
    Empty,
    Bound,
    Minimal,
    Conjugate,
    Broken(u64, &'static [u64], u64),
    Least,
    LeastOfAll,
    Nothing,
}

/// The answer of a sample.
pub(crate) fn answer_of(alloc: Global, sample: &Sample) -> Result<Answer, AllocError> {
    match sample {
        Sample::Yes => yes(alloc),
        Sample::YesBoth => yes_both(alloc),
        Sample::Inside => Ok(Answer::Inside),
        Sample::Outside(place) => {
            let place = Items::from_slice(alloc, *place)?;
            Ok(Answer::Outside { place })
        }
        Sample::No(side, shear) => no(alloc, *side, *shear),
        Sample::Unknown(reason) => Ok(Answer::Unknown { reason: *reason }),
        Sample::List => list(alloc),
        Sample::Density => density(alloc),
        Sample::Empty => {
            let ranks = Items::from_slice(alloc, &[1, 0])?;
            Ok(Answer::Empty { ranks })
        }
        Sample::Bound => bound(alloc),
        Sample::Minimal => minimal(alloc),
        Sample::Conjugate => conjugate(alloc),
        Sample::Broken(part, periods, shear) => broken(alloc, *part, *periods, *shear),
        Sample::Least => least(alloc),
        Sample::LeastOfAll => least_of_all(alloc),
        Sample::Nothing => {
            let steps = steps(alloc, &[], &[6, 3, 4, 2], &[])?;
            Ok(Answer::Nothing { steps })
        }
    }
}

/// Each sample with the first line of its text, as an answer to query 7, and the lines after it.
pub(crate) const SAMPLES: &[(Sample, &str, &str)] = &[
    (
        Sample::Yes,
        "query 7 YES 0\n",
        "refutation 1\nstep 0 6 3 4 2 0 0\n",
    ),
    (
        Sample::YesBoth,
        "query 7 YES 3 10\n",
        "refutation 1\nstep -16777216 2 0 18446744073709551615 0 10 9 0\nrefutation 1\nstep 0 1 0 0\n",
    ),
    (Sample::Inside, "query 7 IN\n", ""),
    (Sample::Outside(&[0, 0, 0]), "query 7 OUT 0 0 0\n", ""),
    (
        Sample::Outside(&[-12, -1_099_511_627_776, 1_099_511_627_776, 3]),
        "query 7 OUT -12 -1099511627776 1099511627776 3\n",
        "",
    ),
    (Sample::No(Side::Whole, 0), "query 7 NO 2 1\n", "conf 1 0\n"),
    (
        Sample::No(Side::Whole, 1),
        "query 7 NO 2 1 shear 1\n",
        "conf 1 0\n",
    ),
    (
        Sample::No(Side::Left, 0),
        "query 7 NO left 2 1\n",
        "conf 1 0\n",
    ),
    (
        Sample::No(Side::Right, 12),
        "query 7 NO right 2 1 shear 12\n",
        "conf 1 0\n",
    ),
    (
        Sample::Unknown(Reason::Limits),
        "query 7 UNKNOWN limits\n",
        "",
    ),
    (
        Sample::Unknown(Reason::Large),
        "query 7 UNKNOWN large\n",
        "",
    ),
    (
        Sample::Unknown(Reason::Overflow),
        "query 7 UNKNOWN overflow\n",
        "",
    ),
    (
        Sample::Unknown(Reason::Pivots),
        "query 7 UNKNOWN pivots\n",
        "",
    ),
    (
        Sample::List,
        "query 7 LIST 2\n",
        "pattern 0 1 0 1\npattern 12\n",
    ),
    (
        Sample::Density,
        "query 7 DENSITY 1/2\n",
        "cycle 2 0 1\npotentials 0 -1\n",
    ),
    (Sample::Empty, "query 7 EMPTY\n", "ranks 1 0\n"),
    (
        Sample::Bound,
        "query 7 BOUND 1/2\n",
        "denominator 2\namounts 0 1\nduals 0 1 1\n",
    ),
    (
        Sample::Minimal,
        "query 7 MINIMAL 4\n",
        "pattern 0 1 * 1\npattern 0 1 12 *\npattern 12\npattern 13 *\n",
    ),
    (
        Sample::Conjugate,
        "query 7 CONJUGATE 2 1 0 10\n",
        "refutation 1\nstep 0 6 3 4 2 0 0\nrefutation 1\nstep -3 2 0 7 0 1 0\nrefutation 1\nstep 0 1 0 0\nrefutation 1\nstep 0 2 0 0\n",
    ),
    (
        Sample::Broken(3, &[2], 0),
        "query 7 BROKEN 3 2\n",
        "conf 1 0\n",
    ),
    (
        Sample::Broken(4, &[2, 1, 1], 12),
        "query 7 BROKEN 4 2 1 1 shear 12\n",
        "conf 1 0\n",
    ),
    (
        Sample::Least,
        "query 7 LEAST 2\n",
        "conf 1 0 1\nrefutation 1\nstep 0 1 0 0\n",
    ),
    (Sample::LeastOfAll, "query 7 LEAST 0\n", "conf 0 0\n"),
    (
        Sample::Nothing,
        "query 7 NONE\n",
        "refutation 1\nstep 0 6 3 4 2 0 0\n",
    ),
];
