//! Gates that say whether the values of two automata at a cell are different.
ghost use Rattle.std.specs.Prelude.{◌≡◌, ◌≤◌, ◌<◌, ◌+◌, ◌++◌, true, length, All, IfOk};
ghost use Rattle.dd_values.specs.Bounds.{most_variables};
ghost use Rattle.dd_lattice.specs.Cells.{cell};
ghost use Rattle.dd_circuit.specs.Circuits.{IsSignal, size};
ghost use Rattle.dd_compile.specs.Compiling.{Extends};
ghost use Rattle.dd_compile.specs.ValueGates.{fresh};
ghost use Rattle.dd_boxes.specs.Boxes.{origin};
ghost use Rattle.dd_boxes.specs.Goals.{AreOver};
ghost use Rattle.dd_boxes.specs.Views.{numbers_of};
ghost use Rattle.dd_problem.specs.Differing.{apart, differ_made};
ghost use Rattle.dd_problem.specs.pushing.Pushed.{are_both_wired};

use dd_circuit::{Circuit, Signal};
use dd_compile::{Inputs, compile_value};
use dd_formula::{Automaton, Rule};
use dd_lattice::{Cell, Position};
use std::alloc::{AllocError, Global};

/// Adds, for each symbol, a gate that says that this symbol is the first of two values and not the second. Returns the gates'
/// signals. `first` and `second` are the signals of the two values. A value has one signal for each symbol, which says whether
/// the value is this symbol.
fn compile_apart(
    circuit: &mut Circuit,
    alloc: Global,
    first: &[Signal],
    second: &[Signal],
) -> Result<Vec<Signal>, AllocError>
    requires as_many { length second.now ≡ length first.now }
    requires few { size circuit.old + length first.now ≤ most_variables }
    requires first { All (IsSignal (size circuit.old)) first.now }
    requires second { All (IsSignal (size circuit.old)) second.now }
    ensures extends { Extends circuit.old circuit.new }
    ensures gates { IfOk result (λ _. circuit.new.gates ≡ circuit.old.gates ++ apart first.now second.now) }
    ensures signals { IfOk result (λ v. v.items ≡ fresh (size circuit.old) (length (apart first.now second.now))) }
{
    let mut signals = Vec::with_capacity(alloc, first.len())?;
    for number in 0..first.len() {
        let signal = circuit.and(&[first[number], second[number].opposite()])?;
        signals.push(signal)?;
    }
    Ok(signals)
}

/// Adds the gates of both automata's values at this node of the origin, and gates that compare the values. Returns the signal
/// that says whether the values are different.
pub(crate) fn compile_differ(
    circuit: &mut Circuit,
    alloc: Global,
    premise: &Rule,
    left: &Automaton,
    right: &Automaton,
    node: u32,
    inputs: &Inputs,
) -> Result<Signal, AllocError>
    requires over { AreOver premise.now (numbers_of premise.now) left.now right.now }
    requires node { node < premise.now.nodes }
    requires wired { are_both_wired inputs.now (size circuit.old) (numbers_of premise.now) left.now right.now node ≡ true }
    requires few { size circuit.old
        + length (differ_made premise.now.symbols left.now right.now inputs.now (cell origin node) (size circuit.old)).gates ≤ most_variables }
    ensures extends { Extends circuit.old circuit.new }
    ensures gates { IfOk result (λ _. circuit.new.gates ≡ circuit.old.gates
        ++ (differ_made premise.now.symbols left.now right.now inputs.now (cell origin node) (size circuit.old)).gates) }
    ensures signal { IfOk result (λ s.
        s ≡ (differ_made premise.now.symbols left.now right.now inputs.now (cell origin node) (size circuit.old)).signal) }
    ensures in_range { IfOk result (λ s. IsSignal (size circuit.new) s) }
{
    let symbols = premise.symbols();
    let position = Position { x: 0, y: 0, z: 0 };
    let at = Cell { position, node };
    let first = compile_value(circuit, alloc, left, symbols, &at, inputs)?;
    let second = compile_value(circuit, alloc, right, symbols, &at, inputs)?;
    let apart = compile_apart(circuit, alloc, &first, &second)?;
    circuit.or(&apart)
}
