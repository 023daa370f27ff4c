//! The values of small circuits. The variables of a circuit are its inputs, numbered from 1, and then its gates. A signal is a
//! variable or its negation.
ghost use Rattle.std.specs.Prelude.{◌≡◌, ◌≤◌, ◌+◌, IfOk};
ghost use Rattle.dd_circuit.specs.Circuits.{signal_of, opposite, size};

use dd_circuit::{Circuit, Signal};
use std::alloc::{AllocError, Global};
use std::test::Fail;

/// The signal that is true exactly when the variable is true.
fn plus(variable: u32) -> Signal
    ensures { result ≡ signal_of variable }
{
    Signal {
        variable,
        positive: true,
    }
}

/// The signal that is true exactly when the variable is false.
fn minus(variable: u32) -> Signal
    ensures { result ≡ opposite (signal_of variable) }
{
    plus(variable).opposite()
}

#[test]
fn a_conjunction_of_two_inputs(rt: HostRuntime) -> Result<(), Fail> {
    let alloc = rt.alloc();
    let mut circuit = Circuit::new(alloc, 2);
    let gate = circuit.and(&[plus(1), plus(2)])?;
    let sizes = (circuit.inputs(), circuit.variables(), circuit.gates().len());
    assert_eq!(rt; (gate, sizes), (plus(3), (2, 3, 1)));
    let values = circuit.values(alloc, &[true, false])?;
    assert_eq!(rt; values.as_slice(), [true, false, false].as_slice());
    Ok(())
}

/// The values of three inputs, and the values that the gates of `eight_gates` then have.
const VALUES_OF_GATES: &[([bool; 3], [bool; 8])] = &[
    (
        [false, false, false],
        [true, false, false, false, true, true, false, true],
    ),
    (
        [true, false, false],
        [true, true, false, false, false, true, true, true],
    ),
    (
        [false, true, false],
        [true, false, false, false, true, false, true, false],
    ),
    (
        [true, true, false],
        [true, true, false, false, false, true, false, true],
    ),
    (
        [false, false, true],
        [true, false, false, false, true, true, false, true],
    ),
    (
        [true, false, true],
        [true, true, true, false, false, true, true, false],
    ),
    (
        [false, true, true],
        [true, false, false, false, true, true, true, true],
    ),
    (
        [true, true, true],
        [true, true, false, false, false, true, false, true],
    ),
];

/// Adds conjunctions of none, one and all of the three inputs, some of which are negated.
fn push_conjunctions(circuit: &mut Circuit) -> Result<(), AllocError>
    requires inputs { 3 ≤ size circuit.old }
    requires few { size circuit.old ≤ 100 }
    ensures inputs { circuit.new.inputs ≡ circuit.old.inputs }
    ensures more { IfOk result (λ _. size circuit.new ≡ size circuit.old + 3) }
{
    circuit.and(&[])?;
    circuit.and(&[plus(1)])?;
    circuit.and(&[plus(1), minus(2), plus(3)])?;
    Ok(())
}

/// Adds disjunctions of none, one and all of the three inputs, some of which are negated.
fn push_disjunctions(circuit: &mut Circuit) -> Result<(), AllocError>
    requires inputs { 3 ≤ size circuit.old }
    requires few { size circuit.old ≤ 100 }
    ensures inputs { circuit.new.inputs ≡ circuit.old.inputs }
    ensures more { IfOk result (λ _. size circuit.new ≡ size circuit.old + 3) }
{
    circuit.or(&[])?;
    circuit.or(&[minus(1)])?;
    circuit.or(&[plus(1), minus(2), plus(3)])?;
    Ok(())
}

/// A circuit with three inputs. Its gates are three conjunctions, three disjunctions, and two equivalences, the second of which
/// is over two of the gates.
fn eight_gates(alloc: Global) -> Result<Circuit, AllocError>
    ensures { IfOk result (λ circuit. circuit.inputs ≡ 3) }
{
    let mut circuit = Circuit::new(alloc, 3);
    push_conjunctions(&mut circuit)?;
    push_disjunctions(&mut circuit)?;
    circuit.iff(plus(1), minus(2))?;
    circuit.iff(minus(6), plus(9))?;
    Ok(circuit)
}

#[test]
fn gates_of_zero_one_and_three_members(rt: HostRuntime) -> Result<(), Fail> {
    let alloc = rt.alloc();
    let circuit = eight_gates(alloc)?;
    for (inputs, gates) in VALUES_OF_GATES {
        let values = circuit.values(alloc, inputs.as_slice())?;
        assert_eq!(rt; values.len(), 11);
        assert_eq!(rt; &values[3..], gates.as_slice(), "at {inputs:?}");
    }
    Ok(())
}
