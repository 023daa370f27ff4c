//! The cells of a slice, and their places among the symbols of a window.
ghost use Rattle.std.specs.Prelude.{◌≡◌, ◌<◌, ◌≤◌, ◌+◌, ◌*◌, ℤ, pos, ◌≤ℤ◌};
ghost use Rattle.dd_lattice.specs.Place.{place};
ghost use Rattle.dd_lattice.specs.Cells.{cell};
ghost use Rattle.dd_pattern.specs.Periods.{residue};
ghost use Rattle.dd_strip.specs.Strips.{IsSized, cells, positions};
ghost use Rattle.dd_transfer.specs.Windows.{cell_at, slice_index_of, window_index};
ghost use Rattle.dd_transfer.specs.placing.Formulas.{window_numbers};

use dd_lattice::{Cell, Position};
use dd_strip::Strip;

/// The place of a cell in its slice. Places are counted from 0, in cell order: by z, then y, then the node.
fn slice_place(strip: &Strip, y: i32, z: i32, node: u32) -> u32
    requires sized { IsSized strip.now }
    requires node { node < strip.now.nodes }
    ensures value { result ≡ slice_index_of strip.now (cell (place (pos 0) y z) node) }
    ensures below { result < cells strip.now }
{
    let y = residue(y, strip.y);
    let z = residue(z, strip.z);
    let row = entry(z, strip.y, y);
    entry(row, strip.nodes, node)
}

/// The place of a cell among the symbols of a window. The cell's x must be at least 0.
fn window_place(strip: &Strip, x: i32, y: i32, z: i32, node: u32) -> u64
    requires sized { IsSized strip.now }
    requires node { node < strip.now.nodes }
    requires right { pos 0 ≤ℤ x }
    ensures { result ≡ window_index strip.now (cell (place x y z) node) }
{
    let slice = x as u32;
    let before = slice as u64 * strip.cells() as u64;
    before + slice_place(strip, y, z, node) as u64
}

/// The place of a cell, given by its coordinates and its node, among the symbols of a window. For a cell to the right of the
/// window, it is past the last symbol. `None` if the cell is to the left of the window, or there is no such node.
pub(crate) fn number(strip: &Strip, x: i32, y: i32, z: i32, node: u32) -> Option<usize>
    requires { IsSized strip.now }
    ensures { result ≡ window_numbers strip.now (cell (place x y z) node) }
{
    if x < 0 || node >= strip.nodes {
        return None;
    }
    Some(window_place(strip, x, y, z, node) as usize)
}

/// The cell with the place `number` in the slice at `x`.
pub(crate) fn cell_at(strip: &Strip, x: i32, number: u32) -> Cell
    requires sized { IsSized strip.now }
    requires some { pos 0 ≤ℤ x }
    requires near { x ≤ℤ pos 16 }
    requires number { number < cells strip.now }
    ensures { result ≡ cell_at strip.now x number }
{
    let index = number / strip.nodes;
    let position = position_of(x, index % strip.y, index / strip.y);
    Cell {
        position,
        node: number % strip.nodes,
    }
}

/// The position with these coordinates.
fn position_of(x: i32, y: u32, z: u32) -> Position
    requires x_some { pos 0 ≤ℤ x }
    requires x_small { x ≤ℤ pos 16 }
    requires y_small { y ≤ 64 }
    requires z_small { z ≤ 64 }
    ensures { result ≡ place x (pos y) (pos z) }
{
    Position {
        x,
        y: y as i32,
        z: z as i32,
    }
}

/// A coordinate modulo the period `n`.
fn residue(x: i32, n: u32) -> u32
    requires some { 0 < n }
    requires small { n ≤ 64 }
    ensures value { result ≡ residue x n }
    ensures below { result < n }
{
    x.rem_euclid(n as i32) as u32
}

/// The index of a table's entry when the entries are listed row by row. Rows and columns are counted from 0.
fn entry(row: u32, width: u32, column: u32) -> u32
    requires { row * width + column ≤ 16384 }
    ensures { result ≡ row * width + column }
{
    row * width + column
}
