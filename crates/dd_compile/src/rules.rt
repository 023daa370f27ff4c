//! The gates of a rule at a cell.
ghost use Rattle.std.specs.Prelude.{◌≡◌, ◌≤◌, ◌<◌, ◌+◌, ◌-◌, ◌++◌, true, IfOk};
ghost use Rattle.std.specs.List.{list_all};
ghost use Rattle.dd_lattice.specs.Place.{most_coordinate};
ghost use Rattle.dd_values.specs.Bounds.{most_variables};
ghost use Rattle.dd_topology.specs.Topology.{extent};
ghost use Rattle.dd_formula.specs.LocalRule.{expansion_at, most_instances};
ghost use Rattle.dd_circuit.specs.Circuits.{IsSignal, size};
ghost use Rattle.dd_compile.specs.Compiling.{Extends, compiled, gate_count};
ghost use Rattle.dd_compile.specs.RuleSignals.{is_cell_wired, are_reads_wired, SaysTruth};

use crate::compiling::compile_expanded;
use crate::inputs::Inputs;
use dd_circuit::{Circuit, Signal};
use dd_formula::Rule;
use dd_lattice::{Cell, Position, shift};
use std::alloc::{AllocError, Global};

/// Whether the cell, which is relative to `at`, has one signal of the circuit for each symbol.
fn is_cell_wired(
    circuit: &Circuit,
    symbols: u32,
    cell: &Cell,
    at: &Position,
    inputs: &Inputs,
) -> bool
    ensures { result ≡ is_cell_wired (size circuit.now) symbols inputs.now at.now cell.now }
{
    match shift(&cell.position, at) {
        Some(position) => {
            let node = cell.node;
            inputs.has_signals(&Cell { position, node }, symbols, circuit.variables())
        }
        None => false,
    }
}

/// Whether each of the cells, which are relative to `at`, has one signal of the circuit for each symbol.
fn are_cells_wired(
    circuit: &Circuit,
    symbols: u32,
    cells: &[Cell],
    at: &Position,
    inputs: &Inputs,
) -> bool
    ensures { result ≡ list_all (is_cell_wired (size circuit.now) symbols inputs.now at.now) cells.now }
{
    cells
        .iter()
        .all(|cell| is_cell_wired(circuit, symbols, cell, at, inputs))
}

/// Whether each cell that the rule reads at the cell `at` has one signal of the circuit for each symbol. The contract also
/// says that the rule has at most 20,000 gates there.
pub fn reads_are_wired(circuit: &Circuit, rule: &Rule, at: &Cell, inputs: &Inputs) -> bool
    requires node { at.now.node < rule.now.nodes }
    requires near { extent at.now.position ≤ most_coordinate - 16 }
    ensures value { result ≡ are_reads_wired (size circuit.now) inputs.now rule.now at.now }
    ensures few { gate_count (expansion_at rule.now at.now.node) ≤ most_instances }
{
    let reads = rule.reads(at.node);
    are_cells_wired(circuit, rule.symbols(), reads, &at.position, inputs)
}

/// Adds the gates of the rule's expansion at the cell `at`. Returns the rule's signal, which says whether the rule is true
/// there. If memory runs out, gates may have been added.
pub fn compile_rule(
    circuit: &mut Circuit,
    alloc: Global,
    rule: &Rule,
    at: &Cell,
    inputs: &Inputs,
) -> Result<Signal, AllocError>
    requires node { at.now.node < rule.now.nodes }
    requires near { extent at.now.position ≤ most_coordinate - 16 }
    requires wired { are_reads_wired (size circuit.old) inputs.now rule.now at.now ≡ true }
    requires few { size circuit.old + gate_count (expansion_at rule.now at.now.node) ≤ most_variables }
    ensures extends { Extends circuit.old circuit.new }
    ensures more { IfOk result (λ _. size circuit.new ≡ size circuit.old + gate_count (expansion_at rule.now at.now.node)) }
    ensures gates { IfOk result (λ _. circuit.new.gates ≡ circuit.old.gates
        ++ (compiled inputs.now at.now.position (expansion_at rule.now at.now.node) (size circuit.old)).gates) }
    ensures signal { IfOk result (λ s.
        s ≡ (compiled inputs.now at.now.position (expansion_at rule.now at.now.node) (size circuit.old)).signal) }
    ensures in_range { IfOk result (λ s. IsSignal (size circuit.new) s) }
    ensures says { IfOk result (λ s. SaysTruth circuit.new inputs.now rule.now at.now s) }
{
    let expansion = rule.expansion(at.node);
    compile_expanded(circuit, alloc, expansion, &at.position, inputs)
}
