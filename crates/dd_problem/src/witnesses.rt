//! A satisfying assignment of a torus's clauses, read back as a periodic configuration.
ghost use Rattle.std.specs.Prelude.{◌≡◌, ◌<◌, ◌*◌, ℕ, false, length, slice_index_or, All, IfOk};
ghost use Rattle.dd_values.specs.Variables.{true_variables};
ghost use Rattle.dd_pattern.specs.Periods.{periods_of, periods_volume};
ghost use Rattle.dd_pattern.specs.Tile.{Tile};
ghost use Rattle.dd_formula.specs.Living.{Fits};
ghost use Rattle.dd_boxes.specs.Witnesses.{HasPeriods};
ghost use Rattle.dd_boxes.specs.TorusPeriods.{AreTorusPeriods};
ghost use Rattle.dd_problem.specs.Symbols.{AreAllRead, AreRead, HasOneEach, IsSymbolRead};

use dd_clause::Assignment;
use dd_formula::Rule;
use dd_pattern::Periodic;
use std::alloc::{AllocError, Global};

/// Whether the variable `index + 1` has a value, and the value is true. The list `values` starts with the value of variable 1.
fn is_true(values: &[bool], index: usize) -> bool
    ensures { result ≡ slice_index_or values.now index false }
{
    index < values.len() && values[index]
}

/// The symbol of the cell with this number: the one whose input is true.
fn symbol_read(values: &[bool], number: u32, symbols: u32) -> u32
    requires { (s : ℕ) × IsSymbolRead (true_variables values.now) symbols number s }
    ensures { IsSymbolRead (true_variables values.now) symbols number result }
{
    for symbol in 0..symbols {
        let index = u64::from(number) * u64::from(symbols) + u64::from(symbol);
        if is_true(values, index as usize) {
            return symbol;
        }
    }
    0
}

/// The symbols of the first `count` cells.
fn symbols_read(
    alloc: Global,
    values: &[bool],
    count: u32,
    symbols: u32,
) -> Result<Vec<u32>, AllocError>
    requires { HasOneEach (true_variables values.now) symbols count }
    ensures { IfOk result (λ v. AreAllRead (true_variables values.now) symbols count v.items) }
{
    let mut read = Vec::with_capacity(alloc, count as usize)?;
    for number in 0..count {
        read.push(symbol_read(values, number, symbols))?;
    }
    Ok(read)
}

/// The configuration of these periods and this shear in which each cell of the fundamental box has the symbol whose input is
/// true. The periods and the shear must be as for `torus_clauses`. Exactly one input of each of these cells must be true, as in
/// every assignment that satisfies the torus's clauses.
///
/// # Errors
/// `AllocError` if memory ran out.
pub fn read_torus(
    alloc: Global,
    premise: &Rule,
    periods: [u32; 3],
    shear: u32,
    found: &Assignment,
) -> Result<Periodic, AllocError>
    requires periods { AreTorusPeriods premise.now.dimension premise.now.nodes (periods_of periods shear) }
    requires one_each { HasOneEach (true_variables found.now) premise.now.symbols (periods_volume (periods_of periods shear) * premise.now.nodes) }
    ensures read { IfOk result (λ t. AreRead (true_variables found.now) premise.now.symbols t.symbols) }
    ensures periods { IfOk result (λ t. HasPeriods (periods_of periods shear) t) }
    ensures fits { IfOk result (λ t. Fits premise.now t) }
    ensures only { IfOk result (λ t. (u : Tile) → HasPeriods (periods_of periods shear) u → Fits premise.now u →
        AreRead (true_variables found.now) premise.now.symbols u.symbols → length u.symbols ≡ length t.symbols → u ≡ t) }
{
    let [along_x, along_y, along_z] = periods;
    let nodes = premise.nodes();
    let count = along_z * along_y * along_x * nodes;
    let symbols = symbols_read(alloc, found.values(), count, premise.symbols())?;
    Ok(
        Periodic::new(premise.dim(), periods, shear, nodes, symbols)
            .ok()
            .unwrap(),
    )
}
