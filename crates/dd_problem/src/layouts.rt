//! The cells of a box of positions, and the inputs that say which symbols the cells have.
ghost use Rattle.std.specs.Prelude.{◌≡◌, ◌≤◌, ◌<◌, ◌+◌, ◌*◌, length, IfOk};
ghost use Rattle.std.specs.List.Sorted.{IsStrictlySortedBy};
ghost use Rattle.dd_values.specs.Bounds.{most_variables};
ghost use Rattle.dd_lattice.specs.Boxes.{volume};
ghost use Rattle.dd_lattice.specs.Order.{cell_cmp};
ghost use Rattle.dd_problem.specs.Layouts.{nth_cell, cells_in};
ghost use Rattle.dd_problem.specs.pushing.Numbered.{symbol_signals, in_turn};

use dd_circuit::Signal;
use dd_compile::Inputs;
use dd_lattice::{Box3, Cell};
use std::alloc::{AllocError, Global};

/// The box's cell with this number. The cells are numbered from 0 in cell order.
fn nth_cell(bounds: &Box3, nodes: u32, number: u64) -> Cell
    requires { number < volume bounds.now * nodes }
    ensures { result ≡ nth_cell bounds.now nodes number }
{
    let nodes = u64::from(nodes);
    Cell {
        position: bounds.position_at(number / nodes).unwrap(),
        node: (number % nodes) as u32,
    }
}

/// The cells of a box in cell order, in which the nodes of a position stand together.
pub(crate) fn cells_of(alloc: Global, bounds: &Box3, nodes: u32) -> Result<Vec<Cell>, AllocError>
    requires { volume bounds.now * nodes ≤ most_variables }
    ensures { IfOk result (λ v. v.items ≡ cells_in bounds.now nodes) }
{
    let count = bounds.volume() * u64::from(nodes);
    let mut cells = Vec::with_capacity(alloc, count as usize)?;
    for number in 0..count {
        cells.push(nth_cell(bounds, nodes, number))?;
    }
    Ok(cells)
}

/// The signals of the cell with this number: for each of `symbols` symbols, one that says that the cell has this symbol.
pub(crate) fn symbol_signals(
    alloc: Global,
    number: u32,
    symbols: u32,
) -> Result<Vec<Signal>, AllocError>
    requires { number * symbols + symbols ≤ most_variables }
    ensures { IfOk result (λ v. v.items ≡ symbol_signals symbols number) }
{
    let mut signals = Vec::with_capacity(alloc, symbols as usize)?;
    for symbol in 0..symbols {
        signals.push(Signal {
            variable: number * symbols + symbol + 1,
            positive: true,
        })?;
    }
    Ok(signals)
}

/// Inputs for the cells. The number of a cell is its index in `cells`, from 0.
pub(crate) fn inputs_in_turn(
    alloc: Global,
    cells: &[Cell],
    symbols: u32,
) -> Result<Inputs, AllocError>
    requires ascending { IsStrictlySortedBy cell_cmp cells.now }
    requires few { length cells.now * symbols ≤ most_variables }
    requires some { 1 ≤ symbols }
    ensures { IfOk result (λ inputs. inputs ≡ in_turn symbols cells.now) }
{
    let mut inputs = Inputs::new(alloc);
    let mut number = 0;
    for cell in cells {
        inputs.add(*cell, symbol_signals(alloc, number, symbols)?)?;
        number += 1;
    }
    Ok(inputs)
}
