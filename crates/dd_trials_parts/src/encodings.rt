//! The clauses of small circuits. The variables of a circuit are its inputs, numbered from 1, and then its gates. A signal is a
//! variable or its negation.
ghost use Rattle.std.specs.Prelude.{◌≡◌, ◌≤◌, ◌+◌, IfOk};
ghost use Rattle.dd_circuit.specs.Circuits.{signal_of, opposite, size};

use dd_circuit::{Circuit, Signal};
use dd_clause::{Assignment, Cnf, satisfies};
use dd_cnf::encode;
use std::alloc::{AllocError, Global};
use std::process::Abort;
use std::test::Fail;

/// The signal that is true exactly when the variable is true.
fn plus(variable: u32) -> Signal
    ensures { result ≡ signal_of variable }
{
    Signal {
        variable,
        positive: true,
    }
}

/// The signal that is true exactly when the variable is false.
fn minus(variable: u32) -> Signal
    ensures { result ≡ opposite (signal_of variable) }
{
    plus(variable).opposite()
}

/// The clauses as signed numbers of variables, as in a DIMACS file.
fn numbered(alloc: Global, cnf: &Cnf) -> Result<Vec<Vec<i64>>, AllocError> {
    let mut clauses = Vec::new(alloc);
    for clause in cnf.clauses() {
        let mut numbers = Vec::new(alloc);
        for literal in clause.literals() {
            let variable = i64::from(literal.variable);
            numbers.push(if literal.positive {
                variable
            } else {
                -variable
            })?;
        }
        clauses.push(numbers)?;
    }
    Ok(clauses)
}

fn assert_clauses(
    rt: &impl Abort,
    alloc: Global,
    cnf: &Cnf,
    wanted: &[&[i64]],
) -> Result<(), AllocError> {
    let clauses = numbered(alloc, cnf)?;
    assert_eq!(rt; clauses.len(), wanted.len());
    for (clause, numbers) in clauses.iter().zip(wanted) {
        assert_eq!(rt; clause.as_slice(), *numbers);
    }
    Ok(())
}

#[test]
fn a_conjunction_of_two_inputs(rt: HostRuntime) -> Result<(), Fail> {
    let alloc = rt.alloc();
    let mut circuit = Circuit::new(alloc, 2);
    circuit.and(&[plus(1), plus(2)])?;
    let cnf = encode(alloc, &circuit)?;
    assert_eq!(rt; cnf.variables(), 3);
    assert_clauses(&rt, alloc, &cnf, &[&[-3, 1], &[-3, 2], &[3, -1, -2]])?;
    let values = circuit.values(alloc, &[true, false])?;
    assert!(rt; satisfies(&cnf, &Assignment::new(values)));
    Ok(())
}

/// Adds conjunctions of none, one and all of the three inputs, some of which are negated.
fn push_conjunctions(circuit: &mut Circuit) -> Result<(), AllocError>
    requires inputs { 3 ≤ size circuit.old }
    requires few { size circuit.old ≤ 100 }
    ensures inputs { circuit.new.inputs ≡ circuit.old.inputs }
    ensures more { IfOk result (λ _. size circuit.new ≡ size circuit.old + 3) }
{
    circuit.and(&[])?;
    circuit.and(&[minus(1)])?;
    circuit.and(&[plus(1), minus(2), plus(3)])?;
    Ok(())
}

/// Adds disjunctions of none, one and all of the three inputs, some of which are negated.
fn push_disjunctions(circuit: &mut Circuit) -> Result<(), AllocError>
    requires inputs { 3 ≤ size circuit.old }
    requires few { size circuit.old ≤ 100 }
    ensures inputs { circuit.new.inputs ≡ circuit.old.inputs }
    ensures more { IfOk result (λ _. size circuit.new ≡ size circuit.old + 3) }
{
    circuit.or(&[])?;
    circuit.or(&[minus(1)])?;
    circuit.or(&[plus(1), minus(2), plus(3)])?;
    Ok(())
}

/// The clauses of gates over three inputs: three conjunctions, three disjunctions and an equivalence.
const CLAUSES_OF_GATES: &[&[i64]] = &[
    &[4],
    &[-5, -1],
    &[5, 1],
    &[-6, 1],
    &[-6, -2],
    &[-6, 3],
    &[6, -1, 2, -3],
    &[-7],
    &[8, 1],
    &[-8, -1],
    &[9, -1],
    &[9, 2],
    &[9, -3],
    &[-9, 1, -2, 3],
    &[-10, -1, -2],
    &[-10, 1, 2],
    &[10, 1, -2],
    &[10, -1, 2],
];

#[test]
fn gates_of_zero_one_and_three_members(rt: HostRuntime) -> Result<(), Fail> {
    let alloc = rt.alloc();
    let mut circuit = Circuit::new(alloc, 3);
    push_conjunctions(&mut circuit)?;
    push_disjunctions(&mut circuit)?;
    circuit.iff(plus(1), minus(2))?;
    let cnf = encode(alloc, &circuit)?;
    assert_eq!(rt; cnf.variables(), 10);
    assert_clauses(&rt, alloc, &cnf, CLAUSES_OF_GATES)?;
    Ok(())
}
