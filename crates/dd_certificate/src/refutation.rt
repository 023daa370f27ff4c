//! The text of a refutation. Refutations are often by far the longest parts of an output, so each step is appended directly to
//! the text of its answer, without a text of its own.
ghost use Rattle.std.specs.Prelude.{◌≡◌, ◌++◌, OnOk};
ghost use Rattle.std.specs.List.{flat_map};
ghost use Rattle.dd_certificate.specs.Text.{literals_to_zero, numbers_to_zero, refutation_text, spaced_literal, step_text};

use crate::decimal::push_decimal_and;
use dd_clause::Literal;
use dd_derivation::Step;
use std::alloc::AllocError;

/// Appends the number of the literal's variable, with a minus sign before it if the literal is negative, and then a space.
fn push_literal(text: &mut Vec<u8>, literal: &Literal) -> Result<(), AllocError>
    ensures { OnOk result (text.new.items ≡ text.old.items ++ spaced_literal literal.now) }
{
    if !literal.positive {
        text.push(b'-')?;
    }
    push_decimal_and(text, u64::from(literal.variable), b' ')
}

/// Appends literals, each with a space after it. Then appends the 0 that ends them, and a space.
fn push_literals(text: &mut Vec<u8>, literals: &[Literal]) -> Result<(), AllocError>
    ensures { OnOk result (text.new.items ≡ text.old.items ++ literals_to_zero literals.now) }
{
    for literal in literals {
        push_literal(text, literal)?;
    }
    text.extend_from_slice(b"0 ")
}

/// Appends clause numbers, each with a space after it. Then appends the 0 that ends them, and the byte `next`.
fn push_clause_numbers(text: &mut Vec<u8>, numbers: &[u64], next: u8) -> Result<(), AllocError>
    ensures { OnOk result (text.new.items ≡ text.old.items ++ numbers_to_zero next numbers.now) }
{
    for number in numbers {
        push_decimal_and(text, *number, b' ')?;
    }
    text.extend_from_slice(&[b'0', next])
}

/// Appends the line of a step.
fn push_step(text: &mut Vec<u8>, step: &Step) -> Result<(), AllocError>
    ensures { OnOk result (text.new.items ≡ text.old.items ++ step_text step.now) }
{
    text.extend_from_slice(b"step ")?;
    push_literals(text, step.clause.literals())?;
    push_clause_numbers(text, step.hints.as_slice(), b' ')?;
    push_clause_numbers(text, step.deletes.as_slice(), b'\n')
}

/// Appends the lines of the steps.
fn push_steps(text: &mut Vec<u8>, steps: &[Step]) -> Result<(), AllocError>
    ensures { OnOk result (text.new.items ≡ text.old.items ++ flat_map step_text steps.now) }
{
    for step in steps {
        push_step(text, step)?;
    }
    Ok(())
}

/// Appends the lines of a refutation to a text.
pub(crate) fn push_refutation(text: &mut Vec<u8>, steps: &[Step]) -> Result<(), AllocError>
    ensures { OnOk result (text.new.items ≡ text.old.items ++ refutation_text steps.now) }
{
    text.extend_from_slice(b"refutation ")?;
    push_decimal_and(text, steps.len() as u64, b'\n')?;
    push_steps(text, steps)
}
